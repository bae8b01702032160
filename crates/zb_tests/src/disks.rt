use std::alloc::Global;
use std::fs;
use std::fs::OpenOptions;
use std::io::ErrorKind;
use std::mem::forget;
use std::process::Abort;
use zb_disk::{Disk, FileDisk, MemDisk, SoundDisk, Trouble};

// Whether a crash at that moment, with this fill, leaves these bytes.
fn leaves(
    rt: &impl Abort,
    alloc: Global,
    disk: &MemDisk,
    moment: u64,
    fill: &[u8],
    want: &[u8],
) -> bool {
    assert!(rt; moment <= disk.moment());
    let image = disk.image(alloc, moment, fill).expect(rt, "memory");
    image.as_slice() == want
}

#[test]
fn memory_fails_where_it_is_told_and_makes_images(rt: HostRuntime) {
    let alloc = rt.alloc();
    let bytes = [10, 20, 30, 40].to_vec(alloc).expect(&rt, "memory");
    let fails = [2, 3, 4].to_vec(alloc).expect(&rt, "memory");
    let Ok(mut disk) = MemDisk::new(alloc, bytes, fails) else {
        panic!(&rt; "no memory");
    };
    assert!(rt; disk.write_at(1, &[21, 31]) == Ok(()));
    assert!(rt; disk.sync() == Ok(()));
    assert!(rt; disk.write_at(3, &[5, 6]) == Err(Trouble::Failed));
    assert!(rt; disk.sync() == Err(Trouble::Failed));
    assert!(rt; disk.len() == Err(Trouble::Failed));
    assert!(rt; disk.bytes() == [10, 21, 31, 40].as_slice());
    assert!(rt; disk.moment() == 5);
    assert!(rt; leaves(&rt, alloc, &disk, 1, &[1, 2, 3], &[10, 2, 3, 40]));
    assert!(rt; leaves(&rt, alloc, &disk, 2, &[255], &[10, 21, 31, 40]));
    // The write that failed may have reached the disk.
    assert!(rt; leaves(&rt, alloc, &disk, 5, &[], &[10, 21, 31, 0, 0]));
    forget(disk);
}

#[test]
fn a_sound_disk_keeps_what_is_written(rt: HostRuntime) {
    let bytes = b"abc".to_vec(rt.alloc()).expect(&rt, "memory");
    let mut disk = SoundDisk::new(bytes);
    assert!(rt; disk.write_at(2, b"xyz") == Ok(()));
    let mut piece = [0; 3];
    assert!(rt; disk.read_at(1, &mut piece) == Ok(()));
    assert!(rt; piece == *b"bxy");
    assert!(rt; disk.sync() == Ok(()));
    assert!(rt; disk.len() == Ok(5));
    assert!(rt; disk.bytes() == b"abxyz".as_slice());
}

#[test]
fn a_file_has_nothing_to_read_past_its_end(rt: HostRuntime) {
    let path = "zb_disk_test.log";
    let mut options = OpenOptions::new();
    options.read(true).write(true).create(true).truncate(true);
    let mut disk = FileDisk::new(options.open(&rt, path).expect(&rt, "a file"));
    disk.write_at(0, b"abxyz").expect(&rt, "a write");
    assert!(rt; disk.read_at(3, &mut [0; 3]) == Err(Trouble::Failed));
    assert!(rt; is_past_the_end(&disk));
    fs::remove_file(&rt, path).expect(&rt, "the file is removed");
}

// Whether a read past the end is what the disk failed at.
fn is_past_the_end(disk: &FileDisk) -> bool {
    match disk.last_error() {
        Some(why) => why.kind() == ErrorKind::UnexpectedEof,
        None => false,
    }
}
