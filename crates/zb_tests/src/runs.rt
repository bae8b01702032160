// Runs over devices in memory, and what they come to.
use crate::script::{Ended, PLAIN, Script, THREE, output, served};
use std::alloc::Global;
use std::process::Abort;
use std::sync::Wait;
use std::thread::Threads;

// A publish.
const PAID: &str =
    "{\"op\":\"publish\",\"name\":\"paid\",\"correlationKey\":\"o-1\",\"timeToLive\":60000}\n";

// The reply of a publish that is the first.
const FIRST: &str = "{\"ok\":{\"message\":2251799813685249},\"units\":0}\n";

// The log that has the batch of `PAID` alone.
const PAID_LOG: [u8; 104] = [
    // An open gate, and the length of the batch.
    1, 0, 0, 0, 0, 0, 0, 0, 0x5e,
    // The format, the moment, the begin.
    1, 0, 0, 0, 0, 0, 0, 0, 0, 0, 0, 0, 0, 0, 0, 0, 0,
    // The command: its kind, the name, the correlation key.
    0x0c, 0, 0, 0, 4, b'p', b'a', b'i', b'd', 0, 0, 0, 3, b'o', b'-', b'1',
    // The time to live, no id, no variables.
    0, 0, 0, 0, 0, 0, 0xea, 0x60, 0, 0, 0, 0, 0, 0, 0, 0,
    // It is accepted, with one event: its kind, the message's key.
    1, 0, 0, 0, 1, 0x1d, 0, 8, 0, 0, 0, 0, 0, 1,
    // The name, the correlation key.
    0, 0, 0, 4, b'p', b'a', b'i', b'd', 0, 0, 0, 3, b'o', b'-', b'1',
    // No id, the deadline, no variables, and a closed gate.
    0, 0, 0, 0, 0, 0, 0, 0, 0, 0, 0xea, 0x60, 0, 0, 0, 0, 0,
];

// What a run comes to: its status, what it answers, the stamps of each log that was opened, and the bytes of the one
// log, where they are known.
#[derive(Clone, Copy)]
struct Want<'a> {
    status: u8,
    output: &'a str,
    stamps: &'a [&'a [u64]],
    log: Option<&'a [u8]>,
}

// Whether these stamps stand at this place of a list.
fn is_at(want: &[&[u64]], place: usize, stamps: &[u64]) -> bool {
    match want.get(place) {
        Some(list) => *list == stamps,
        None => false,
    }
}

// Whether the logs that were opened have these stamps.
fn has_stamps(ended: &Ended, want: &[&[u64]]) -> bool {
    let mut has_all = ended.stamps.len() == want.len();
    for (i, list) in ended.stamps.iter().enumerate() {
        has_all = has_all && is_at(want, i, list.as_slice());
    }
    has_all
}

// Whether the one log has these bytes, where they are known.
fn has_log(ended: &Ended, want: Option<&[u8]>) -> bool {
    match (ended.volumes.as_slice(), want) {
        ([volume], Some(bytes)) => volume.log.bytes() == bytes,
        _ => want.is_none(),
    }
}

// Whether what the script says is served, and ends so.
fn ends<R: Abort + Threads + Wait + Sync>(
    rt: &R,
    alloc: Global,
    script: &Script<'_>,
    want: &Want<'_>,
) -> bool {
    let ended = served(rt, alloc, script);
    let is_so = ended.status == want.status
        && output(&ended) == want.output.as_bytes()
        && has_stamps(&ended, want.stamps)
        && has_log(&ended, want.log);
    drop(ended.into_devices());
    is_so
}

#[test]
fn what_can_not_be_served_is_not_touched(rt: HostRuntime) {
    let table = [
        (&[] as &[&str], 0),
        (&[], 2),
        (THREE.words, 1),
        (THREE.words, 4),
        (&["--partitions", "17"], 17),
    ];
    for (words, volumes) in table {
        let script = Script {
            words,
            volumes,
            input: PAID,
            ..PLAIN
        };
        let ended = served(&rt, rt.alloc(), &script);
        assert!(rt; ended.status == 2);
        assert!(rt; output(&ended).is_empty());
        assert!(rt; ended.volumes.len() == volumes as usize);
        drop(ended.into_devices());
    }
}

// A deploy, which goes to three partitions, and a message and an instance at the second one.
const SPREAD: &str =
    "{\"op\":\"deploy\",\"model\":{\"process\":\"p\",\"nodes\":[{\"id\":\"s\",\"kind\":\"startEvent\"},{\"id\":\"e\",\"kind\":\"endEvent\"}],\"flows\":[{\"id\":\"f\",\"sourceRef\":\"s\",\"targetRef\":\"e\"}]}}\n{\"op\":\"publish\",\"name\":\"paid\",\"correlationKey\":\"o-1\",\"timeToLive\":60000}\n{\"op\":\"create\",\"process\":\"p\",\"partition\":2}\n{\"op\":\"settle\"}\n";

// Their replies.
const SPREAD_TOLD: &str =
    "{\"ok\":{\"definition\":2251799813685249,\"process\":\"p\",\"version\":1},\"units\":4}\n{\"ok\":{\"message\":4503599627370497},\"units\":0}\n{\"ok\":{\"definition\":2251799813685249,\"instance\":4503599627370498},\"units\":0}\n{\"ok\":{},\"units\":0}\n";

#[test]
fn three_partitions_are_served_in_one_history(rt: HostRuntime) {
    let script = Script {
        input: SPREAD,
        ..THREE
    };
    let want = Want {
        status: 0,
        output: SPREAD_TOLD,
        stamps: &[&[0, 2, 4], &[1, 5, 6], &[3]],
        log: None,
    };
    assert!(rt; ends(&rt, rt.alloc(), &script, &want));
}

// The reads and the writes that fail, and what comes of it.
type Row = (&'static [u64], &'static [u64], Want<'static>);

#[test]
fn a_stream_may_fail(rt: HostRuntime) {
    let unread = Want {
        status: 3,
        output: "",
        stamps: &[&[]],
        log: Some(&[0]),
    };
    // The batch is in the log before its reply is written.
    let unwritten = Want {
        status: 6,
        output: "",
        stamps: &[&[0]],
        log: Some(&PAID_LOG),
    };
    let table: [Row; 4] = [
        (&[0], &[], unread),
        // Behind the line.
        (
            &[1],
            &[],
            Want {
                status: 3,
                output: FIRST,
                ..unwritten
            },
        ),
        (&[], &[0], unwritten),
        // The flush of the reply.
        (
            &[],
            &[1],
            Want {
                output: FIRST,
                ..unwritten
            },
        ),
    ];
    for (i, (reads, writes, want)) in table.iter().enumerate() {
        let script = Script {
            input: PAID,
            reads: *reads,
            writes: *writes,
            ..PLAIN
        };
        assert!(rt; ends(&rt, rt.alloc(), &script, want), "row {i}");
    }
}

// Whether a run over a log of these bytes ends where its call with this number fails, once it was opened or before, and
// leaves these bytes of it, where they are known.
fn fails<'x, R: Abort + Threads + Wait + Sync>(
    rt: &R,
    alloc: Global,
    log: &'x [u8],
    call: &'x [u64],
    was_opened: bool,
    left: Option<&[u8]>,
) -> bool {
    let script = Script {
        input: PAID,
        calls: call,
        log,
        ..PLAIN
    };
    let ended = served(rt, alloc, &script);
    let is_so = ended.status == 4
        && output(&ended).is_empty()
        && has_stamps(&ended, &[]) == !was_opened
        && has_stamps(&ended, &[&[]]) == was_opened
        && has_log(&ended, left);
    drop(ended.into_devices());
    is_so
}

#[test]
fn each_call_of_a_log_may_fail(rt: HostRuntime) {
    // Opening syncs, asks for the length, writes the gate of an empty log and syncs, and reads; a batch is written,
    // synced, its gate opened, and synced.
    let mut unopened = PAID_LOG;
    unopened[0] = 0;
    let behind: [&[u8]; 6] = [&[0], &[0], &[0], &unopened, &unopened, &PAID_LOG];
    for log in [&[] as &[u8], &[1]] {
        for call in 0..3 {
            assert!(rt;
                fails(&rt, rt.alloc(), log, &[call], false, Some(log)),
                "call {call}"
            );
        }
        for (i, left) in behind.iter().enumerate() {
            let call = i as u64 + 3;
            assert!(rt;
                fails(&rt, rt.alloc(), log, &[call], call >= 5, Some(*left)),
                "call {call}"
            );
        }
    }
    // A log that has a batch lacks the gate's write and sync.
    for call in 0..3 {
        let is_so = fails(&rt, rt.alloc(), &PAID_LOG, &[call], false, Some(&PAID_LOG));
        assert!(rt; is_so, "call {call}");
    }
    for call in 3..7 {
        assert!(rt;
            fails(&rt, rt.alloc(), &PAID_LOG, &[call], true, None),
            "call {call}"
        );
    }
}
