// The files of the volumes.
use crate::start_error::StartError;
use std::alloc::{AllocError, Global};
use std::fs::{self, File, OpenOptions, TryLockError};
use std::io::{self, ErrorKind};
use std::path::Path;
use std::rt::Files;
use zb_disk::FileDisk;
use zb_store::Volume;

/// What the name of a log ends in.
pub const LOG: &str = "log";

// What the name of the first slot for snapshots ends in.
const SNAP_A: &str = "a";

// What the name of the second slot ends in.
const SNAP_B: &str = "b";

/// The volumes of so many partitions, as files of the directory. What is missing is made, and its name is on the
/// disk then too. No other server can have these files as long as they are open.
pub fn open_volumes<R: Files<File = File>>(
    rt: &R,
    alloc: Global,
    directory: &str,
    partitions: u32,
) -> Result<Vec<Volume<FileDisk>>, StartError> {
    make_directory(rt, alloc, directory)?;
    let mut volumes = Vec::new(alloc);
    for partition in 1..=partitions {
        volumes.push(open_volume(rt, alloc, directory, partition)?)?;
    }
    Ok(volumes)
}

/// The volume of one partition, as `open_volumes` opens it.
pub fn open_volume_of<R: Files<File = File>>(
    rt: &R,
    alloc: Global,
    directory: &str,
    partition: u32,
) -> Result<Volume<FileDisk>, StartError> {
    make_directory(rt, alloc, directory)?;
    open_volume(rt, alloc, directory, partition)
}

/// The file at this path, to be read.
pub fn open_input<R: Files<File = File>>(
    rt: &R,
    alloc: Global,
    path: &str,
) -> Result<File, StartError> {
    match File::open(rt, path) {
        Ok(file) => Ok(file),
        Err(error) => Err(StartError::at(alloc, path, error)),
    }
}

/// The file at this path, to be written. It is made where it is missing, and emptied.
pub fn open_output<R: Files<File = File>>(
    rt: &R,
    alloc: Global,
    path: &str,
) -> Result<File, StartError> {
    match File::create(rt, path) {
        Ok(file) => Ok(file),
        Err(error) => Err(StartError::at(alloc, path, error)),
    }
}

/// Tells on standard error which files of the directory failed, and why.
pub fn report_faults(
    rt: &HostRuntime,
    directory: &str,
    volumes: &[Volume<FileDisk>],
) -> io::Result<()> {
    let mut partition: u32 = 0;
    for volume in volumes {
        partition = partition.saturating_add(1);
        report_faults_of(rt, directory, partition, volume)?;
    }
    Ok(())
}

/// Tells on standard error which files of a partition failed, and why.
pub fn report_faults_of(
    rt: &HostRuntime,
    directory: &str,
    partition: u32,
    volume: &Volume<FileDisk>,
) -> io::Result<()> {
    report_fault(rt, directory, partition, LOG, &volume.log)?;
    report_fault(rt, directory, partition, SNAP_A, &volume.snap_a)?;
    report_fault(rt, directory, partition, SNAP_B, &volume.snap_b)
}

// Tells why this file failed last, if it did.
fn report_fault(
    rt: &HostRuntime,
    directory: &str,
    partition: u32,
    kind: &str,
    disk: &FileDisk,
) -> io::Result<()> {
    match disk.last_error() {
        Some(error) => eprintln!(rt; "zbd: {directory}/{partition}.{kind}: {error}"),
        None => Ok(()),
    }
}

// Makes the directory of the volumes where there is none. That in which it stands has to be there.
fn make_directory<R: Files<File = File>>(
    rt: &R,
    alloc: Global,
    directory: &str,
) -> Result<(), StartError> {
    match fs::create_dir(rt, directory) {
        Ok(()) => Ok(()),
        Err(error) if error.kind() == ErrorKind::AlreadyExists => Ok(()),
        Err(error) => Err(StartError::at(alloc, directory, error)),
    }
}

// The files of a partition. Before the first byte of its log is written, their names are brought onto the disk.
fn open_volume<R: Files<File = File>>(
    rt: &R,
    alloc: Global,
    directory: &str,
    partition: u32,
) -> Result<Volume<FileDisk>, StartError> {
    let log = open_file(rt, alloc, directory, partition, LOG)?;
    let snap_a = open_file(rt, alloc, directory, partition, SNAP_A)?;
    let snap_b = open_file(rt, alloc, directory, partition, SNAP_B)?;
    let has_bytes = matches!(log.metadata(), Ok(found) if found.len() > 0);
    if !has_bytes {
        sync_directory(rt, alloc, directory)?;
        sync_directory(rt, alloc, parent_of(directory))?;
    }
    Ok(Volume {
        log: FileDisk::new(log),
        snap_a: FileDisk::new(snap_a),
        snap_b: FileDisk::new(snap_b),
    })
}

// The directory in which this one stands.
fn parent_of(directory: &str) -> &str {
    match Path::new(directory).parent() {
        Some(parent) if parent.as_str().is_empty() => ".",
        Some(parent) => parent.as_str(),
        None => directory,
    }
}

// Brings the names in a directory onto the disk. A file system whose directories can't be synced calls that an
// invalid argument.
fn sync_directory<R: Files<File = File>>(
    rt: &R,
    alloc: Global,
    path: &str,
) -> Result<(), StartError> {
    match File::open(rt, path).and_then(|directory| directory.sync_all()) {
        Ok(()) => Ok(()),
        Err(error) if error.kind() == ErrorKind::InvalidInput => Ok(()),
        Err(error) => Err(StartError::at(alloc, path, error)),
    }
}

// Opens a file of a partition, or makes it, and takes its lock.
fn open_file<R: Files<File = File>>(
    rt: &R,
    alloc: Global,
    directory: &str,
    partition: u32,
    kind: &str,
) -> Result<File, StartError> {
    let path = path_of(alloc, directory, partition, kind)?;
    let path = path.as_str();
    refuse_others(rt, alloc, path)?;
    let mut options = OpenOptions::new();
    match options.read(true).write(true).create(true).open(rt, path) {
        Ok(file) => lock(alloc, directory, path, file),
        Err(error) => Err(StartError::at(alloc, path, error)),
    }
}

// Where a file of a partition stands.
fn path_of(
    alloc: Global,
    directory: &str,
    partition: u32,
    kind: &str,
) -> Result<String, AllocError> {
    format!(in alloc; "{directory}/{partition}.{kind}")
}

// Refuses what is there and no regular file. To open it might wait, or do something to a device.
fn refuse_others<R: Files<File = File>>(
    rt: &R,
    alloc: Global,
    path: &str,
) -> Result<(), StartError> {
    match fs::metadata(rt, path) {
        Ok(found) if found.is_file() => Ok(()),
        Ok(_) => Err(StartError::NotRegular {
            path: String::from_str(alloc, path)?,
        }),
        Err(error) if error.kind() == ErrorKind::NotFound => Ok(()),
        Err(error) => Err(StartError::at(alloc, path, error)),
    }
}

// Takes the lock of a file, which is held as long as the file is open.
fn lock(alloc: Global, directory: &str, path: &str, file: File) -> Result<File, StartError> {
    match file.try_lock() {
        Ok(()) => Ok(file),
        Err(TryLockError::WouldBlock) => Err(StartError::InUse {
            path: String::from_str(alloc, directory)?,
        }),
        Err(TryLockError::Error(error)) => Err(StartError::at(alloc, path, error)),
    }
}
