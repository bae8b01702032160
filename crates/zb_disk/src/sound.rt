ghost use Rattle.std.specs.Prelude.{◌≡◌, ◌<◌, ◌^◌, List, ℕ, length, true, false, vec_len};
ghost use Rattle.std.proofs.lemmas.Bool.{false≢true};

use crate::bytes::{copy_out, overwrite};
use crate::disk::{Disk, Trouble};
use std::marker::Model;

/// A file in memory that never fails. Its writes may want memory.
#[derive(Drop)]
pub struct SoundDisk {
    bytes: Vec<u8>,
}

impl Model for SoundDisk {
    ghost Value = { List ℕ };

    ghost view = { λ disk. disk.bytes.items };

    ghost invariant = { λ disk. length disk.bytes.items < 2 ^ 58 };
}

impl SoundDisk {
    /// A disk with these bytes.
    pub fn new(bytes: Vec<u8>) -> SoundDisk
        requires { vec_len bytes < 2 ^ 58 }
        ensures { result ≡ bytes.items }
    {
        SoundDisk { bytes }
    }

    /// The bytes of the file.
    pub fn bytes(&self) -> &[u8]
        ensures { result.now ≡ self.now }
    {
        &self.bytes
    }
}

impl Disk for SoundDisk {
    ghost view = { λ disk. record { contents = disk; faults = 0; moment = 0 } };

    ghost tells = { true };

    ghost tells_images = { false };

    ghost counts_failures = { true };

    ghost takes_memory = { true };

    ghost images = { λ _ _. Unit {0} };

    ghost since = { λ _ _ _. Unit {0} };

    fn len(&mut self) -> Result<u64, Trouble> {
        Ok(self.bytes.len() as u64)
    }

    fn read_at(&mut self, at: u64, piece: &mut [u8]) -> Result<(), Trouble> {
        copy_out(&self.bytes, at, piece);
        Ok(())
    }

    fn write_at(&mut self, at: u64, piece: &[u8]) -> Result<(), Trouble> {
        Ok(overwrite(&mut self.bytes, at, piece)?)
    }

    fn sync(&mut self) -> Result<(), Trouble> {
        Ok(())
    }

    ghost images_told = { λ told. absurd (false≢true told) };

    ghost reads_image = { λ _ told. absurd (false≢true told) };

    ghost counts_now = { λ _ _ _ told _ _. absurd (false≢true told) };

    ghost only_now = { λ _ _ told _. absurd (false≢true told) };
}
