ghost use Rattle.std.specs.Prelude.{◌≡◌, ◌↔◌, ◌++◌, ◌+◌, ◌≤◌, ◌<◌, ℕ, List, [], Ok, MatchOption, IfOk, OnOk, OnErr, IsErrOf, IsTrue, length, vec_len, vec_capacity, take};
ghost use Rattle.zb_outside.specs.Cause.{StreamFaultsRose, HasStreamCause, UnlessStreamFailed};
ghost use Rattle.zb_lines.specs.Taken.{TakesBytes};
ghost use Rattle.zb_lines.specs.Line.{Comes, IsOneLine, has_ended};
ghost use Rattle.zb_lines.specs.Step.{kept, BreaksAt, HandsOut, KeepsRoom, Refills};

use memchr::memchr;
use std::alloc::{AllocError, Global};
use std::marker::Model;
use zb_outside::{Source, Trouble};

// How many bytes are asked of a source at a time.
const PIECE: usize = 65_536;

/// How a stream went on.
#[derive(Clone, Copy, Debug, PartialEq, Eq)]
pub enum Next {
    /// A line with its newline.
    Line,
    /// Bytes behind the last newline, at the end of the stream.
    Last,
    /// Nothing, at the end of the stream.
    End,
    /// More bytes are wanted than may be taken. No line is handed out.
    Full,
}

// What came of a wish for more bytes.
#[derive(Clone, Copy)]
enum Supply {
    /// The next piece.
    Piece,
    /// Nothing, at the end of the source.
    End,
    /// Nothing, since no more may be taken. The source wasn't asked.
    Spent,
}

/// Reads lines from a source. Contracts see the bytes that were taken and not yet handed out.
#[derive(Drop)]
pub struct LineReader {
    piece: Vec<u8>,
    at: usize,
    end: usize,
}

impl Model for LineReader {
    ghost use Rattle.std.specs.Prelude.{ℕ, List, ◌≤◌, ◌<◌, length, slice_range};

    ghost Value = { List ℕ };

    ghost view = { λ r. slice_range r.piece.items r.at r.end };

    ghost invariant = { λ r. (r.at ≤ r.end) × (r.end ≤ length r.piece.items) × (0 < length r.piece.items) };
}

impl LineReader {
    /// A reader that has taken nothing yet. It takes its memory here, but for the lines'.
    pub fn new(alloc: Global) -> Result<LineReader, AllocError>
        ensures { IfOk result (λ reader. reader ≡ []) }
    {
        let piece = vec![in alloc; 0u8; PIECE]?;
        Ok(LineReader {
            piece,
            at: 0,
            end: 0,
        })
    }

    /// Takes bytes from the source up to the next newline, and puts the line without it into `line`,
    /// or its first `most` bytes where it is longer. It goes through each byte once, and keeps no more
    /// than `most` bytes. The budget is how many bytes may still be taken: it falls by those that were,
    /// and where it is 0 the source isn't asked. After `Full` or an `Err` the reader is only dropped.
    pub fn next<S: Source>(
        &mut self,
        source: &mut S,
        budget: &mut u64,
        most: usize,
        line: &mut Vec<u8>,
    ) -> Result<Next, Trouble>
        ensures comes { (more : List ℕ) × TakesBytes S.tells (S.view source.old) (S.view source.new) more
            × (budget.old ≡ budget.new + length more)
            × Comes most result (self.old ++ more) self.new line.new.items }
        ensures full { result ≡ Ok Next.Full → budget.new ≡ 0 }
        ensures unasked { budget.old ≡ 0 → S.view source.new ≡ S.view source.old }
        ensures ended { (S.view source.new).ended ≡ has_ended result (S.view source.old).ended }
        ensures later { (S.view source.old).faults ≤ (S.view source.new).faults }
        // A line that has room for `most` bytes keeps it, and then the reader wants no memory of its own.
        ensures room { vec_capacity line.old ≤ vec_capacity line.new }
        ensures memory { most ≤ vec_capacity line.old → IsErrOf result Trouble.Memory → IsTrue S.takes_memory }
        ensures failed { IsErrOf result Trouble.Failed → StreamFaultsRose (S.view source.old).faults (S.view source.new).faults }
        ensures steady { IsTrue S.counts_failures → UnlessStreamFailed result ((S.view source.new).faults ≡ (S.view source.old).faults) }
    {
        line.clear();
        let mut is_begun = self.holds_some();
        loop {
            match self.hand_out(most, line) {
                Err(AllocError) => return Err(Trouble::Memory),
                Ok(true) => return Ok(Next::Line),
                Ok(false) => {}
            }
            match self.refill(source, budget) {
                Err(trouble) => return Err(trouble),
                Ok(Supply::Piece) => is_begun = true,
                Ok(Supply::End) if is_begun => return Ok(Next::Last),
                Ok(Supply::End) => return Ok(Next::End),
                Ok(Supply::Spent) => return Ok(Next::Full),
            }
        }
    }

    // Whether bytes were taken that have not been handed out.
    fn holds_some(&self) -> bool
        ensures { IsTrue result ↔ (0 < length self.now) }
    {
        self.at < self.end
    }

    // Hands out what is held up to the first newline, or all of it, and answers whether there was one.
    fn hand_out(&mut self, most: usize, line: &mut Vec<u8>) -> Result<bool, AllocError>
        ensures hands_out { HandsOut most result self.old self.new line.old.items line.new.items }
        ensures room { KeepsRoom most (vec_len line.old) (vec_capacity line.old) (vec_len line.new) (vec_capacity line.new) result }
    {
        let held = &self.piece[self.at..self.end];
        match newline_of(held) {
            Some(place) => {
                keep(most, &held[..place], line)?;
                self.at += place + 1;
                Ok(true)
            }
            None => {
                keep(most, held, line)?;
                self.at = self.end;
                Ok(false)
            }
        }
    }

    // Takes the next piece from the source, as far as the budget goes.
    fn refill<S: Source>(&mut self, source: &mut S, budget: &mut u64) -> Result<Supply, Trouble>
        requires { self.old ≡ [] }
        ensures refills { Refills S.tells result (S.view source.old) (S.view source.new) budget.old budget.new self.new }
        ensures unasked { budget.old ≡ 0 → S.view source.new ≡ S.view source.old }
        ensures cause { HasStreamCause S.counts_failures S.takes_memory (S.view source.old).faults (S.view source.new).faults result }
    {
        if *budget == 0 {
            return Ok(Supply::Spent);
        }
        match read_within(source, budget, &mut self.piece) {
            Err(trouble) => Err(trouble),
            Ok(0) => Ok(Supply::End),
            Ok(count) => {
                self.at = 0;
                self.end = count;
                Ok(Supply::Piece)
            }
        }
    }
}

// Reads into the front of the piece, as far as the budget goes, and takes what was read off the budget.
fn read_within<S: Source>(
    source: &mut S,
    budget: &mut u64,
    piece: &mut [u8],
) -> Result<usize, Trouble>
    requires some { 0 < budget.old }
    requires room { 0 < length piece.old }
    ensures fits { IfOk result (λ count. count ≤ length piece.new) }
    ensures taken { IfOk result (λ count. TakesBytes S.tells (S.view source.old) (S.view source.new) (take count piece.new)) }
    ensures spent { IfOk result (λ count. budget.old ≡ budget.new + count) }
    ensures ended { IfOk result (λ count. count ≡ 0 → IsTrue (S.view source.new).ended) }
    ensures goes_on { IfOk result (λ count. 0 < count → (S.view source.new).ended ≡ (S.view source.old).ended) }
    ensures refused { OnErr result (TakesBytes S.tells (S.view source.old) (S.view source.new) []) }
    ensures unended { OnErr result ((S.view source.new).ended ≡ (S.view source.old).ended) }
    ensures unspent { OnErr result (budget.new ≡ budget.old) }
    ensures cause { HasStreamCause S.counts_failures S.takes_memory (S.view source.old).faults (S.view source.new).faults result }
{
    let most = piece.len().min(*budget as usize);
    match source.read(&mut piece[..most]) {
        Err(trouble) => Err(trouble),
        Ok(count) => {
            *budget -= count as u64;
            Ok(count)
        }
    }
}

// The place of the first newline.
fn newline_of(bytes: &[u8]) -> Option<usize>
    ensures { MatchOption result (IsOneLine bytes.now) (BreaksAt bytes.now) }
{
    memchr(b'\n', bytes)
}

// Appends a part of a line, of which at most `most` bytes are kept.
fn keep(most: usize, part: &[u8], line: &mut Vec<u8>) -> Result<(), AllocError>
    ensures kept { OnOk result (line.new.items ≡ kept most line.old.items part.now) }
    ensures room { KeepsRoom most (vec_len line.old) (vec_capacity line.old) (vec_len line.new) (vec_capacity line.new) result }
{
    let room = most.saturating_sub(line.len());
    if room < part.len() {
        line.extend_from_slice(&part[..room])
    } else {
        line.extend_from_slice(part)
    }
}
