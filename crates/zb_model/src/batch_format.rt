// The format of batches.
ghost use Rattle.std.specs.Prelude.{◌≡◌};
ghost use Rattle.zb_format.specs.Reading.{Reads, one_of};
ghost use Rattle.zb_model.specs.Batches as batches;
ghost use Rattle.zb_model.specs.Layouts as layouts;

use crate::{Batch, Outcome, Rejection, RejectionKind};
use std::alloc::{AllocError, Global};
use zb_format::{Cursor, Encoder, Fields, Format, ReadFault, pairs, write_tagged};

#[tactic(auto, using(crate::proofs::PieceLemmas::pieces), unfolding(crate::specs::Batches::batch, crate::specs::Batches::fields))]
impl Format for Batch {
    ghost layout = { batches.batch };

    fn write(&self, encoder: &mut Encoder) -> Result<(), AllocError> {
        encoder.add(&[1])?;
        pairs!(&self.moment, &self.begin, &self.command, &self.outcome).encode(encoder)
    }

    fn read(alloc: Global, cursor: &mut Cursor<'_>) -> Result<Batch, ReadFault> {
        match cursor.byte()? {
            1 => read_fields(alloc, cursor),
            _ => Err(ReadFault::NotSpelled),
        }
    }
}

// Reads what stands behind the byte of the format.
#[tactic(auto, unfolding(crate::specs::Batches::fields))]
fn read_fields(alloc: Global, cursor: &mut Cursor<'_>) -> Result<Batch, ReadFault>
    ensures { Reads (batches.fields.reading cursor.old) result cursor.new }
{
    let pairs!(moment, begin, command, outcome) = Format::read(alloc, cursor)?;
    Ok(Batch {
        moment,
        begin,
        command,
        outcome,
    })
}

#[tactic(auto, unfolding(crate::specs::Batches::outcome))]
impl Format for Outcome {
    ghost layout = { batches.outcome };

    fn write(&self, encoder: &mut Encoder) -> Result<(), AllocError> {
        match self {
            Outcome::Rejected(rejection) => write_tagged(0, rejection, encoder),
            Outcome::Accepted(events) => write_tagged(1, events, encoder),
        }
    }

    fn read(alloc: Global, cursor: &mut Cursor<'_>) -> Result<Outcome, ReadFault> {
        match cursor.byte()? {
            0 => Ok(Outcome::Rejected(Format::read(alloc, cursor)?)),
            1 => Ok(Outcome::Accepted(Format::read(alloc, cursor)?)),
            _ => Err(ReadFault::NotSpelled),
        }
    }
}

#[tactic(auto, unfolding(crate::specs::Layouts::rejection))]
impl Format for Rejection {
    ghost layout = { layouts.rejection };

    fn write(&self, encoder: &mut Encoder) -> Result<(), AllocError> {
        (&self.kind, &self.reason).encode(encoder)
    }

    fn read(alloc: Global, cursor: &mut Cursor<'_>) -> Result<Rejection, ReadFault> {
        let (kind, reason) = Format::read(alloc, cursor)?;
        Ok(Rejection { kind, reason })
    }
}

#[tactic(auto, unfolding(crate::specs::Layouts::rejection_kind))]
impl Format for RejectionKind {
    ghost layout = { layouts.rejection_kind };

    fn write(&self, encoder: &mut Encoder) -> Result<(), AllocError> {
        encoder.add(&[byte_of(*self)])
    }

    fn read(_alloc: Global, cursor: &mut Cursor<'_>) -> Result<RejectionKind, ReadFault> {
        kind_of(cursor.byte()?).ok_or(ReadFault::NotSpelled)
    }
}

// The byte of a rejection's kind.
fn byte_of(kind: RejectionKind) -> u8
    ensures { result ≡ layouts.rejection_byte kind }
{
    match kind {
        RejectionKind::InvalidArgument => 1,
        RejectionKind::NotFound => 2,
        RejectionKind::AlreadyExists => 3,
        RejectionKind::InvalidState => 4,
    }
}

// The kind of rejection that a byte stands for.
fn kind_of(byte: u8) -> Option<RejectionKind>
    ensures { result ≡ one_of layouts.rejection_byte layouts.each_rejection byte }
{
    match byte {
        1 => Some(RejectionKind::InvalidArgument),
        2 => Some(RejectionKind::NotFound),
        3 => Some(RejectionKind::AlreadyExists),
        4 => Some(RejectionKind::InvalidState),
        _ => None,
    }
}
