ghost use Rattle.std.specs.Prelude.{◌≡◌, ◌++◌, ◌^◌, ◌<◌, ◌≤◌, length, IsOk, OnOk};
ghost use Rattle.zb_format.specs.Encoded.{Adds, KeepsEncoded, IsCounting};
ghost use Rattle.zb_format.specs.Layout as layouts;
ghost use Rattle.zb_format.specs.Reading as readings;
ghost use Rattle.zb_format.specs.Reading.{Reads};

use crate::front::write_count;
use crate::{Cursor, Encoder, Format, ReadFault};
use std::alloc::{AllocError, Global};
use zb_base::List;

// Room is made for at most so many items at once; more are made room for as they come.
const MOST_AT_ONCE: usize = 1024;

impl<T: Format> Format for List<T> {
    ghost layout = { layouts.counted T.layout };

    fn write(&self, encoder: &mut Encoder) -> Result<(), AllocError> {
        write_all(self.as_slice(), encoder)
    }

    #[tactic(auto, unfolding(crate::specs::Reading::counted_at, crate::specs::Layout::number))]
    fn read(alloc: Global, cursor: &mut Cursor<'_>) -> Result<List<T>, ReadFault> {
        let count = <u32 as Format>::read(alloc, cursor)?;
        read_many(alloc, count, cursor)
    }
}

/// Adds a list of these items.
#[tactic(auto, using(crate::proofs::Adding::pieces, crate::proofs::SizeLemmas::pieces), unfolding(crate::specs::Field::counted_bytes))]
pub fn write_all<T: Format>(items: &[T], encoder: &mut Encoder) -> Result<(), AllocError>
    ensures added { OnOk result (Adds encoder.old ((layouts.counted T.layout).spelling items.now) encoder.new) }
    ensures kept { KeepsEncoded encoder.old encoder.new }
    ensures counts { IsCounting encoder.old → IsOk result }
    ensures some { OnOk result (1 ≤ length ((layouts.counted T.layout).spelling items.now)) }
    ensures fits { OnOk result (length ((layouts.counted T.layout).spelling items.now) < 2 ^ 32 → (layouts.counted T.layout).fits items.now) }
{
    write_count(items.len(), encoder)?;
    for item in items {
        item.write(encoder)?;
    }
    Ok(())
}

/// Reads so many items.
#[tactic(auto, using(crate::proofs::ListLemmas::many))]
pub fn read_many<T: Format>(
    alloc: Global,
    count: u32,
    cursor: &mut Cursor<'_>,
) -> Result<List<T>, ReadFault>
    ensures { Reads (readings.many_at T.layout.reading count cursor.old) result cursor.new }
{
    let mut items = List::with_capacity(alloc, room(count, cursor.len()))?;
    for _ in 0..count {
        items.push(T::read(alloc, cursor)?)?;
    }
    Ok(items)
}

// For how many items room is made at once: for no more than there are bytes left, since each has at least one, and
// for no more than a batch has events.
fn room(count: u32, left: usize) -> usize {
    (count as usize).min(left).min(MOST_AT_ONCE)
}
