ghost use Rattle.std.specs.Prelude.{◌≡◌, ◌<◌, ◌≤◌, ◌↔◌, [], true, false, IsSome};
ghost use Rattle.std.proofs.lemmas.Bool.{false≢true};
ghost use Rattle.zb_disk.specs.Cause.{Rose};
ghost use Rattle.zb_disk.specs.declared.disk.Trouble.TheVariants.{Failed};

use crate::disk::{Disk, Trouble};
use crate::faults::count_fault;
use std::fs::File;
use std::io::{self, ErrorKind};
use std::os::unix::fs::FileExt;

// A file of this length is too long for a disk.
const MAX_BYTES: u64 = 1 << 58;

/// A file of the operating system. Nothing is known of its contents.
#[derive(Drop)]
pub struct FileDisk {
    file: File,
    faults: u64,
    last_error: Option<io::Error>,
    ghost is_told: { IsSome last_error ↔ 0 < faults },
}

impl FileDisk {
    /// A disk over an open file, which must be open for reading and for writing.
    pub fn new(file: File) -> FileDisk
        ensures { (⟦<FileDisk as Disk>⟧.view result).faults ≡ 0 }
    {
        FileDisk {
            file,
            faults: 0,
            last_error: None,
        }
    }

    /// Why the last call that failed did so.
    pub fn last_error(&self) -> Option<io::Error>
        ensures { IsSome result ↔ 0 < (⟦<FileDisk as Disk>⟧.view self.now).faults }
    {
        self.last_error
    }

    // Counts a fault, and keeps why.
    fn fail(&mut self, why: io::Error) -> Trouble
        ensures result { result ≡ Failed }
        ensures later { self.old.faults ≤ self.new.faults }
        ensures rose { Rose self.old.faults self.new.faults }
    {
        self.last_error = Some(why);
        count_fault(&mut self.faults)
    }
}

impl Disk for FileDisk {
    ghost view = { λ disk. record { contents = []; faults = disk.faults; moment = 0 } };

    ghost tells = { false };

    ghost tells_images = { false };

    ghost counts_failures = { true };

    ghost takes_memory = { false };

    ghost images = { λ _ _. Unit {0} };

    ghost since = { λ _ _ _. Unit {0} };

    fn len(&mut self) -> Result<u64, Trouble> {
        match self.file.metadata() {
            Ok(metadata) if metadata.len() < MAX_BYTES => Ok(metadata.len()),
            Ok(_) => Err(self.fail(io::Error::from(ErrorKind::FileTooLarge))),
            Err(why) => Err(self.fail(why)),
        }
    }

    fn read_at(&mut self, at: u64, piece: &mut [u8]) -> Result<(), Trouble> {
        match self.file.read_exact_at(piece, at) {
            Ok(()) => Ok(()),
            Err(why) => Err(self.fail(why)),
        }
    }

    fn write_at(&mut self, at: u64, piece: &[u8]) -> Result<(), Trouble> {
        match self.file.write_all_at(piece, at) {
            Ok(()) => Ok(()),
            Err(why) => Err(self.fail(why)),
        }
    }

    fn sync(&mut self) -> Result<(), Trouble> {
        match self.file.sync_data() {
            Ok(()) => Ok(()),
            Err(why) => Err(self.fail(why)),
        }
    }

    ghost images_told = { λ told. told };

    ghost reads_image = { λ _ told. absurd (false≢true told) };

    ghost counts_now = { λ _ _ _ told _ _. absurd (false≢true told) };

    ghost only_now = { λ _ _ told _. absurd (false≢true told) };
}
