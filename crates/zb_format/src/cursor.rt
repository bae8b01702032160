ghost use Rattle.std.specs.Prelude.{◌≡◌, Some, None, IfOk, IfErr, length, ◌==◌};
ghost use Rattle.zb_format.specs.declared.fault.ReadFault.TheVariants.{NotSpelled};
ghost use Rattle.zb_format.specs.Reading.{Reads, front_at, byte_at, number_at, long_at};

use crate::ReadFault;
use std::marker::Model;

/// Bytes that are read from their front. Contracts see what is left of them.
#[derive(Drop)]
pub struct Cursor<'a> {
    left: &'a [u8],
}

impl<'a> Model for Cursor<'a> {
    ghost use Rattle.std.specs.Prelude.{ℕ, List};

    ghost Value = { List ℕ };

    ghost view = { λ c. c.left.now };
}

impl<'a> Cursor<'a> {
    /// A cursor at the front of these bytes.
    pub fn new(bytes: &'a [u8]) -> Cursor<'a>
        ensures { result ≡ bytes.now }
    {
        Cursor { left: bytes }
    }

    /// Whether all bytes have been read.
    pub fn is_at_end(&self) -> bool
        ensures { result ≡ (length self.now == 0) }
    {
        self.left.is_empty()
    }

    /// How many bytes are left.
    pub fn len(&self) -> usize
        ensures { result ≡ length self.now }
    {
        self.left.len()
    }

    /// Takes the first `count` bytes.
    pub fn front(&mut self, count: usize) -> Result<&'a [u8], ReadFault>
        ensures ok { IfOk result (λ front. front_at count self.old ≡ Some (front.now, self.new)) }
        ensures err { IfErr result (λ fault. (fault ≡ NotSpelled) × (front_at count self.old ≡ None)) }
    {
        if self.left.len() < count {
            return Err(ReadFault::NotSpelled);
        }
        let (front, rest) = self.left.split_at(count);
        self.left = rest;
        Ok(front)
    }

    /// Takes the number that the first four bytes spell.
    #[tactic(auto, unfolding(crate::specs::Reading::number_at))]
    pub fn number(&mut self) -> Result<u32, ReadFault>
        ensures { Reads (number_at self.old) result self.new }
    {
        match self.left.split_first_chunk::<4>() {
            Some((front, rest)) => {
                self.left = rest;
                Ok(u32::from_be_bytes(*front))
            }
            None => Err(ReadFault::NotSpelled),
        }
    }

    /// Takes the number that the first eight bytes spell.
    #[tactic(auto, unfolding(crate::specs::Reading::long_at))]
    pub fn long(&mut self) -> Result<u64, ReadFault>
        ensures { Reads (long_at self.old) result self.new }
    {
        match self.left.split_first_chunk::<8>() {
            Some((front, rest)) => {
                self.left = rest;
                Ok(u64::from_be_bytes(*front))
            }
            None => Err(ReadFault::NotSpelled),
        }
    }

    /// Takes the first byte.
    pub fn byte(&mut self) -> Result<u8, ReadFault>
        ensures { Reads (byte_at self.old) result self.new }
    {
        match self.left {
            [] => Err(ReadFault::NotSpelled),
            [first, rest @ ..] => {
                self.left = rest;
                Ok(*first)
            }
        }
    }
}
