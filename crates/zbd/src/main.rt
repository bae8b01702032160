//! zbd: a durable workflow server. It reads requests, one JSON object a line, and writes one JSON reply a
//! line; what they lead to is stored in logs on disk.
#![tactic(auto)]

mod ending;
mod files;
mod generating;
mod serving;
mod showing;
mod start_error;
mod streams;

use generating::generate_plan;
use serving::{refuse, serve_plan};
use showing::show_plan;
use start_error::StartError;
use std::alloc::AllocError;
use std::env;
use std::io::{self, ErrorKind};
use std::process::ExitCode;
use std::sync::Wait;
use std::thread::Threads;
use streams::hold_standard_streams;
use zb_words::{Plan, PlanFault, plan_of};

fn main(rt: HostRuntime) -> ExitCode {
    match run(&rt, &rt) {
        Ok(status) => ExitCode::from(status),
        Err(error) => {
            let _ = eprintln!(rt; "zbd: {error}");
            ExitCode::FAILURE
        }
    }
}

// Does what the words ask for, and answers the exit status. Files are opened only where the words ask for them, and
// behind those that hold the numbers of the standard streams.
fn run<H: Threads + Wait + Sync>(handles: &H, rt: &HostRuntime) -> Result<u8, StartError> {
    let alloc = rt.alloc();
    let _held = hold_standard_streams(rt, alloc)?;
    let words = words(rt)?;
    match plan_of(alloc, &words) {
        Ok(Plan::Serve(plan)) => serve_plan(handles, rt, &words, &plan),
        Ok(Plan::Log(plan)) => show_plan(rt, &words, &plan),
        Ok(Plan::Gen(_)) => Ok(generate_plan(rt, &words)),
        Err(PlanFault::Usage) => refuse(handles, rt, &words),
        Err(PlanFault::Memory) => Err(StartError::Memory(AllocError)),
    }
}

// The words behind the program's name. Where one of them is no text there are none, and that is no command
// line either.
fn words(rt: &HostRuntime) -> io::Result<Vec<String>> {
    let mut words = Vec::new(rt.alloc());
    match env::args(rt) {
        Ok(args) => {
            for word in args.skip(1) {
                words.push(word)?;
            }
        }
        Err(error) if error.kind() == ErrorKind::InvalidData => {}
        Err(error) => return Err(error),
    }
    Ok(words)
}
