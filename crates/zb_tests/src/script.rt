// A run of the server over devices in memory. Whoever drops what it hands back proves the drop of every batch that a
// cause may hold, so the devices are taken out of it, and it is dropped by the server's own crate.
ghost use Rattle.std.specs.Prelude.{◌≡◌, length};

use std::alloc::Global;
use std::process::Abort;
use std::sync::Wait;
use std::thread::Threads;
use zb_disk::MemDisk;
use zb_outside::{ListClock, MemSink, MemSource, OpenDoor};
use zb_serve::{Closed, Session, serve};
use zb_store::Volume;

pub type Ended = Closed<MemSource, MemSink, MemDisk>;

/// What is handed to a run, and which calls fail.
#[derive(Clone, Copy)]
pub struct Script<'a> {
    /// The words behind those of a server whose clock is moved by hand.
    pub words: &'a [&'a str],
    /// How many volumes there are.
    pub volumes: u32,
    /// What the session says.
    pub input: &'a str,
    /// The numbers, from 0, of the reads, the writes and the calls of a log that fail.
    pub reads: &'a [u64],
    pub writes: &'a [u64],
    pub calls: &'a [u64],
    /// The partition of that log.
    pub failing: u32,
    /// The bytes of each log, at most 4,096.
    pub log: &'a [u8],
}

/// One session that says nothing over one empty volume, where nothing fails.
pub const PLAIN: Script<'static> = Script {
    words: &[],
    volumes: 1,
    input: "",
    reads: &[],
    writes: &[],
    calls: &[],
    failing: 1,
    log: &[],
};

/// The same over three partitions.
pub const THREE: Script<'static> = Script {
    words: &["--partitions", "3"],
    volumes: 3,
    ..PLAIN
};

fn words_of(rt: &impl Abort, alloc: Global, script: &Script<'_>) -> Vec<String> {
    let mut words = Vec::new(alloc);
    for list in [&["serve", "--clock", "manual"], script.words] {
        for text in list {
            let word = String::from_str(alloc, text).expect(rt, "memory");
            words.push(word).expect(rt, "memory");
        }
    }
    words
}

fn numbers_of(rt: &impl Abort, alloc: Global, calls: &[u64]) -> Vec<u64> {
    calls.to_vec(alloc).expect(rt, "memory")
}

fn sessions_of(
    rt: &impl Abort,
    alloc: Global,
    script: &Script<'_>,
) -> Vec<Session<MemSource, MemSink>>
    ensures { length result.items ≡ 1 }
{
    let mut sessions = Vec::new(alloc);
    let input = script.input.as_bytes().to_vec(alloc).expect(rt, "memory");
    let session = Session {
        source: MemSource::new(input, 65_536, numbers_of(rt, alloc, script.reads)),
        sink: MemSink::new(alloc, numbers_of(rt, alloc, script.writes)),
    };
    sessions.push(session).expect(rt, "memory");
    sessions
}

// A disk with these bytes whose calls with these numbers fail.
fn disk_of(rt: &impl Abort, alloc: Global, bytes: &[u8], calls: &[u64]) -> MemDisk {
    assert!(rt; bytes.len() <= 4096, "a log of at most 4,096 bytes");
    let bytes = bytes.to_vec(alloc).expect(rt, "memory");
    match MemDisk::new(alloc, bytes, numbers_of(rt, alloc, calls)) {
        Ok(disk) => disk,
        Err(_) => panic!(rt; "no memory"),
    }
}

// A volume whose log has these bytes, and whose calls with these numbers fail.
fn volume_of(rt: &impl Abort, alloc: Global, log: &[u8], calls: &[u64]) -> Volume<MemDisk> {
    Volume {
        log: disk_of(rt, alloc, log, calls),
        snap_a: disk_of(rt, alloc, &[], &[]),
        snap_b: disk_of(rt, alloc, &[], &[]),
    }
}

fn volumes_of(rt: &impl Abort, alloc: Global, script: &Script<'_>) -> Vec<Volume<MemDisk>> {
    let mut volumes = Vec::new(alloc);
    for partition in 1..=script.volumes {
        let calls = if partition == script.failing {
            script.calls
        } else {
            &[]
        };
        let volume = volume_of(rt, alloc, script.log, calls);
        volumes.push(volume).expect(rt, "memory");
    }
    volumes
}

// What a crash at the end of a run leaves, with this fill, as volumes of the next one.
fn left_by(rt: &impl Abort, alloc: Global, ended: &Ended, fill: &[u8]) -> Vec<Volume<MemDisk>> {
    let mut volumes = Vec::new(alloc);
    for volume in ended.volumes.iter() {
        let log = &volume.log;
        let image = log.image(alloc, log.moment(), fill).expect(rt, "memory");
        let volume = volume_of(rt, alloc, &image, &[]);
        volumes.push(volume).expect(rt, "memory");
    }
    volumes
}

/// Serves what the script says.
pub fn served<R: Abort + Threads + Wait + Sync>(
    rt: &R,
    alloc: Global,
    script: &Script<'_>,
) -> Ended {
    let volumes = volumes_of(rt, alloc, script);
    served_over(rt, alloc, script, volumes)
}

/// Serves what the script says over what a crash at the end of a run leaves, with this fill.
pub fn served_behind<R: Abort + Threads + Wait + Sync>(
    rt: &R,
    alloc: Global,
    script: &Script<'_>,
    ended: &Ended,
    fill: &[u8],
) -> Ended {
    let volumes = left_by(rt, alloc, ended, fill);
    served_over(rt, alloc, script, volumes)
}

// Serves what the script says over these volumes.
fn served_over<R: Abort + Threads + Wait + Sync>(
    rt: &R,
    alloc: Global,
    script: &Script<'_>,
    volumes: Vec<Volume<MemDisk>>,
) -> Ended {
    let words = words_of(rt, alloc, script);
    let sessions = sessions_of(rt, alloc, script);
    let mut clock = ListClock::new(Vec::new(alloc));
    serve(rt, alloc, &words, sessions, volumes, &mut clock, &OpenDoor)
}

/// What the one session was sent.
pub fn output(ended: &Ended) -> &[u8] {
    match ended.sessions.as_slice() {
        [session] => session.sink.bytes(),
        _ => b"not one session",
    }
}
