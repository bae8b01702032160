ghost use Rattle.std.specs.Prelude.{◌≡◌, ◌==◌, length, drop};
ghost use Rattle.zb_expr.specs.Spelling.{first_byte, run_of, behind_run};

use crate::class::{Class, run_length};
use std::marker::Model;

/// Bytes that are read from their front. Contracts see what is left of them.
#[derive(Drop)]
pub struct Bytes<'a> {
    left: &'a [u8],
}

impl<'a> Model for Bytes<'a> {
    ghost use Rattle.std.specs.Prelude.{ℕ, List};

    ghost Value = { List ℕ };

    ghost view = { λ b. b.left.now };
}

impl<'a> Bytes<'a> {
    /// These bytes.
    pub fn new(bytes: &'a [u8]) -> Bytes<'a>
        ensures { result ≡ bytes.now }
    {
        Bytes { left: bytes }
    }

    /// Whether no byte is left.
    pub fn is_empty(&self) -> bool
        ensures { result ≡ (length self.now == 0) }
    {
        self.left.is_empty()
    }

    /// The next byte.
    pub fn first(&self) -> Option<u8>
        ensures { result ≡ first_byte self.now }
    {
        match self.left {
            [] => None,
            [first, ..] => Some(*first),
        }
    }

    /// Takes the next byte.
    pub fn take_next(&mut self) -> Option<u8>
        ensures byte { result ≡ first_byte self.old }
        ensures rest { self.new ≡ drop 1 self.old }
    {
        match self.left {
            [] => None,
            [first, rest @ ..] => {
                self.left = rest;
                Some(*first)
            }
        }
    }

    /// Takes the bytes of the class that stand first. It takes a step for each of them.
    #[tactic(auto, using(crate::proofs::SplittingLemmas::runs))]
    pub fn take_run(&mut self, class: Class) -> &'a [u8]
        ensures run { result.now ≡ run_of class self.old }
        ensures rest { self.new ≡ behind_run class self.old }
    {
        let (run, rest) = self.left.split_at(run_length(class, self.left));
        self.left = rest;
        run
    }
}
