ghost use Rattle.std.specs.Prelude.{◌≡◌, ◌<◌, ◌≤◌, OnOk, IsOk};
ghost use Rattle.zb_format.specs.Encoded.{Adds, KeepsEncoded, IsCounting};

use crate::front::append;
use std::alloc::AllocError;

/// Where spellings go: bytes that are kept, or only their number, at most the greatest `u64`.
#[derive(Drop)]
pub enum Encoder {
    Bytes(Vec<u8>),
    Count(u64),
}

impl Encoder {
    /// Adds bytes. After a refusal what was there before is there still. A piece is most often a number, and where it
    /// is put in place, its length is known there.
    #[inline(always)]
    pub fn add(&mut self, piece: &[u8]) -> Result<(), AllocError>
        ensures added { OnOk result (Adds self.old piece.now self.new) }
        ensures kept { KeepsEncoded self.old self.new }
        ensures counts { IsCounting self.old → IsOk result }
    {
        match self {
            Encoder::Bytes(bytes) => append(piece, bytes),
            Encoder::Count(count) => {
                *count = count.saturating_add(piece.len() as u64);
                Ok(())
            }
        }
    }
}
