// The numbers of the standard streams.
use crate::start_error::StartError;
use std::alloc::Global;
use std::fs::{File, OpenOptions};
use std::os::fd::AsRawFd;
use std::rt::Files;

// What is written here is dropped, and nothing is there to be read.
const NULL: &str = "/dev/null";

// The number of standard error, the last of the three.
const STDERR: i32 = 2;

/// Takes the numbers of those standard streams that the program was started without. Else the next file that
/// is opened would get such a number, and replies would be written into it. A stream has its number as long as
/// these files are open.
pub fn hold_standard_streams<R: Files<File = File>>(
    rt: &R,
    alloc: Global,
) -> Result<Vec<File>, StartError> {
    let mut held = Vec::new(alloc);
    for _ in 0..=STDERR {
        let file = open_null(rt, alloc)?;
        if file.as_raw_fd() > STDERR {
            break;
        }
        held.push(file)?;
    }
    Ok(held)
}

// Opens the place that drops everything.
fn open_null<R: Files<File = File>>(rt: &R, alloc: Global) -> Result<File, StartError> {
    match OpenOptions::new().read(true).write(true).open(rt, NULL) {
        Ok(file) => Ok(file),
        Err(error) => Err(StartError::at(alloc, NULL, error)),
    }
}
