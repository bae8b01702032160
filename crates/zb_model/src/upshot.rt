// Reading what batches say of the state.
ghost use Rattle.zb_format.specs.Reading.{made_at};
ghost use Rattle.zb_model.specs.Batches as batches;
ghost use Rattle.zb_model.specs.Upshots.{events_in, upshot_of, upshot_at, events_at, upshot_behind, ReadsAhead};

use crate::{Command, Heading, Moment, Rejection};
use std::alloc::Global;
use zb_format::{Cursor, Format, ReadFault, Skip};

/// Reads what stands in front of a batch's events, and makes nothing of its command.
#[tactic(auto, unfolding(crate::specs::Batches::batch))]
pub fn read_heading(alloc: Global, cursor: &mut Cursor<'_>) -> Result<Heading, ReadFault>
    ensures { ReadsAhead upshot_behind (upshot_at cursor.old) result cursor.new }
{
    match cursor.byte()? {
        1 => read_parts(alloc, cursor),
        _ => Err(ReadFault::NotSpelled),
    }
}

// Reads what stands behind the byte of the format.
#[tactic(auto, using(zb_format::proofs::SkipLemmas::was_absent), unfolding(crate::specs::Batches::fields))]
fn read_parts(alloc: Global, cursor: &mut Cursor<'_>) -> Result<Heading, ReadFault>
    ensures { ReadsAhead upshot_behind (made_at upshot_of batches.fields.reading cursor.old) result cursor.new }
{
    let moment = Moment::read(alloc, cursor)?;
    let _begin = <u64 as Format>::read(alloc, cursor)?;
    Command::skip(alloc, cursor)?;
    let events = read_count(alloc, cursor)?;
    Ok(Heading { moment, events })
}

// Reads how many events an outcome has.
#[tactic(auto, using(crate::proofs::HeadingLemmas::counts), unfolding(crate::specs::Batches::outcome, zb_format::specs::Reading::counted_at, zb_format::specs::Layout::number))]
fn read_count(alloc: Global, cursor: &mut Cursor<'_>) -> Result<u32, ReadFault>
    ensures { ReadsAhead events_at (made_at events_in batches.outcome.reading cursor.old) result cursor.new }
{
    match cursor.byte()? {
        0 => {
            let _ = Rejection::read(alloc, cursor)?;
            Ok(0)
        }
        1 => <u32 as Format>::read(alloc, cursor),
        _ => Err(ReadFault::NotSpelled),
    }
}
