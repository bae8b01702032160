// What is told on standard error when a run has ended: the name of the cause, and then in a sentence what it means.
use crate::files::{LOG, report_faults, report_faults_of};
use std::fmt::Display;
use std::io;
use zb_disk::FileDisk;
use zb_partition::OpenFault;
use zb_serve::Cause;
use zb_show::{ShowFault, Shown};
use zb_store::Volume;
use zb_tally::{GenFault, Generated};
use zb_words::usage_text;

/// Tells why a server's run ended with this status, unless it is done. Its files stand in this directory.
pub fn report_served(
    rt: &HostRuntime,
    words: &[String],
    status: u8,
    cause: &Cause,
    directory: &str,
    volumes: &[Volume<FileDisk>],
) -> io::Result<()> {
    report_name(rt, status)?;
    match cause {
        Cause::Done => Ok(()),
        Cause::Usage => report_usage(rt, words, cause),
        Cause::DiskFault { .. } => {
            report_faults(rt, directory, volumes)?;
            eprintln!(rt; "zbd: {cause}")
        }
        Cause::BadLog { partition, .. } | Cause::LogFull { partition, .. } => {
            eprintln!(rt; "zbd: {directory}/{partition}.{LOG}: {cause}")
        }
        _ => eprintln!(rt; "zbd: {cause}"),
    }
}

/// Tells why the log of this partition was not shown, unless it was. Its files stand in this directory.
pub fn report_shown<K>(
    rt: &HostRuntime,
    words: &[String],
    shown: &Shown<FileDisk, K>,
    directory: &str,
    partition: u32,
) -> io::Result<()> {
    report_name(rt, shown.status)?;
    match &shown.end {
        Ok(()) => Ok(()),
        Err(fault @ ShowFault::Usage) => report_usage(rt, words, fault),
        Err(fault @ ShowFault::Log(OpenFault::BadLog { .. })) => {
            eprintln!(rt; "zbd: {directory}/{partition}.{LOG}: {fault}")
        }
        Err(fault) => {
            report_faults_of(rt, directory, partition, &shown.volume)?;
            eprintln!(rt; "zbd: {fault}")
        }
    }
}

/// Tells why it was not written what came of a workload, unless it was.
pub fn report_generated<K>(
    rt: &HostRuntime,
    words: &[String],
    generated: &Generated<K>,
) -> io::Result<()> {
    report_name(rt, generated.status)?;
    match &generated.end {
        Ok(()) => Ok(()),
        Err(fault @ GenFault::Usage) => report_usage(rt, words, fault),
        Err(fault) => eprintln!(rt; "zbd: {fault}"),
    }
}

// Tells the name of the cause that an exit status stands for, unless all is done.
fn report_name(rt: &HostRuntime, status: u8) -> io::Result<()> {
    let name = match status {
        0 => return Ok(()),
        2 => "Usage",
        3 => "SourceFault",
        4 => "DiskFault",
        5 => "BadLog",
        6 => "SinkFault",
        7 => "Memory",
        8 => "LogFull",
        _ => "InputFull",
    };
    eprintln!(rt; "zbd: {name}")
}

// Tells what is wrong with words that are no plan, and how they are used; of those that are one, what can't be served.
fn report_usage<F: Display>(rt: &HostRuntime, words: &[String], fault: &F) -> io::Result<()> {
    match usage_text(rt.alloc(), words) {
        Ok(text) if !text.is_empty() => eprint!(rt; "{text}"),
        _ => eprintln!(rt; "zbd: {fault}"),
    }
}
