// Serving real sessions over real files.
ghost use Rattle.std.specs.Prelude.{◌≤◌, length, IfOk};

use crate::ending::report_served;
use crate::files::{open_input, open_output, open_volumes};
use crate::start_error::StartError;
use std::fs::File;
use std::io::{Read, Stdin, Stdout, Write};
use std::sync::Wait;
use std::thread::Threads;
use zb_base::Text;
use zb_disk::FileDisk;
use zb_outside::{OpenDoor, StdClock, StdSink, StdSource};
use zb_serve::{Session, serve};
use zb_store::Volume;
use zb_words::ServePlan;

// A session over standard input and output.
type Terminal = Session<StdSource<Stdin>, StdSink<Stdout>>;

// A session over two files.
type FilePair = Session<StdSource<File>, StdSink<File>>;

/// Serves the session that a plan asks for, over standard input and output or over two files, and answers the exit
/// status. There is one session so far: more files than two are a question of usage, and none of them is opened.
pub fn serve_plan<H: Threads + Wait + Sync>(
    handles: &H,
    rt: &HostRuntime,
    words: &[String],
    plan: &ServePlan,
) -> Result<u8, StartError> {
    let directory = plan.dir.as_str();
    match plan.files.as_slice() {
        [] => {
            let volumes = open_volumes(rt, rt.alloc(), directory, plan.partitions)?;
            Ok(run(handles, rt, words, directory, terminal(rt)?, volumes))
        }
        [input, output] => {
            let input = open_input(rt, rt.alloc(), input.as_str())?;
            let volumes = open_volumes(rt, rt.alloc(), directory, plan.partitions)?;
            let sessions = file_pair(rt, input, output)?;
            Ok(run(handles, rt, words, directory, sessions, volumes))
        }
        _ => refuse(handles, rt, words),
    }
}

/// Tells that these words can't be served, and answers the exit status.
pub fn refuse<H: Threads + Wait + Sync>(
    handles: &H,
    rt: &HostRuntime,
    words: &[String],
) -> Result<u8, StartError> {
    let none: Vec<Terminal> = Vec::new(rt.alloc());
    Ok(run(handles, rt, words, "", none, Vec::new(rt.alloc())))
}

// Standard input and output, as one session.
fn terminal(rt: &HostRuntime) -> Result<Vec<Terminal>, StartError>
    ensures { IfOk result (λ sessions. length sessions.items ≤ 1) }
{
    let mut sessions = Vec::new(rt.alloc());
    sessions.push(Session {
        source: StdSource::new(rt.stdin()),
        sink: StdSink::new(rt.stdout()),
    })?;
    Ok(sessions)
}

// Two files, as one session. The one that is written is made, or emptied.
fn file_pair(rt: &HostRuntime, input: File, output: &Text) -> Result<Vec<FilePair>, StartError>
    ensures { IfOk result (λ sessions. length sessions.items ≤ 1) }
{
    let output = open_output(rt, rt.alloc(), output.as_str())?;
    let mut sessions = Vec::new(rt.alloc());
    sessions.push(Session {
        source: StdSource::new(input),
        sink: StdSink::new(output),
    })?;
    Ok(sessions)
}

// Serves these sessions, tells on standard error why the run ended, and answers the exit status.
fn run<H: Threads + Wait + Sync, R: Read + Drop, W: Write + Drop>(
    handles: &H,
    rt: &HostRuntime,
    words: &[String],
    directory: &str,
    sessions: Vec<Session<StdSource<R>, StdSink<W>>>,
    volumes: Vec<Volume<FileDisk>>,
) -> u8
    requires { length sessions.items ≤ 1 }
{
    let mut clock = StdClock::new(rt);
    let closed = serve(
        handles,
        rt.alloc(),
        words,
        sessions,
        volumes,
        &mut clock,
        &OpenDoor,
    );
    let status = closed.status;
    let _ = report_served(rt, words, status, &closed.cause, directory, &closed.volumes);
    let (sessions, volumes) = closed.into_devices();
    drop(sessions);
    drop(volumes);
    status
}
