//! The one spelling of a batch in bytes, both ways.
#![tactic(auto)]

ghost use Rattle.std.specs.Prelude.{◌≡◌, ◌≢◌, ◌++◌, ◌-◌, ◌<◌, ◌^◌, List, [], ℕ, Some, None, if◌then◌else◌, length, min, IfOk, IfSome, IfNone, OnOk, OnErr};
ghost use Rattle.zb_model.specs.declared.record.Batch.{Batch};
ghost use Rattle.zb_model.specs.Record.{bytes_of};
ghost use Rattle.zb_model.specs.RecordFits.{IsBatch};

use std::alloc::{AllocError, Global};
use zb_format::{Cursor, Format, ReadFault};
use zb_model::Batch;

/// The number of bytes that `write` appends for a batch, at most the greatest `u64`. It takes a step for each
/// field of the batch.
pub fn size(batch: &Batch) -> u64
    ensures size { result ≡ min (length (bytes_of batch.now)) (2 ^ 64 - 1) }
    ensures fits { length (bytes_of batch.now) < 2 ^ 32 → IsBatch batch.now }
{
    zb_format::size(batch)
}

/// Appends the bytes of a batch. After a refusal `bytes` is as before. It takes a step for each byte.
pub fn write(batch: &Batch, bytes: &mut Vec<u8>) -> Result<(), AllocError>
    ensures ok { OnOk result (bytes.new.items ≡ bytes.old.items ++ bytes_of batch.now) }
    ensures err { OnErr result (bytes.new.items ≡ bytes.old.items) }
    ensures fits { OnOk result (length (bytes_of batch.now) < 2 ^ 32 → IsBatch batch.now) }
{
    zb_format::append(batch, bytes)
}

/// The batch that these bytes spell, all of them. None where no batch has these bytes. It takes a step for each
/// byte, and keeps the batch alone.
#[tactic(auto, using(crate::proofs::BatchLemmas::whole))]
pub fn read(alloc: Global, bytes: &[u8]) -> Result<Option<Batch>, AllocError>
    ensures found { IfOk result (λ found. IfSome found (λ batch. IsBatch batch × (bytes.now ≡ bytes_of batch))) }
    ensures none { IfOk result (λ found. IfNone found ((batch : Batch) → IsBatch batch → bytes.now ≢ bytes_of batch)) }
{
    let mut cursor = Cursor::new(bytes);
    match Batch::read(alloc, &mut cursor) {
        Ok(batch) => Ok(where_ended(batch, cursor.is_at_end())),
        Err(ReadFault::NotSpelled) => Ok(None),
        Err(ReadFault::Memory) => Err(AllocError),
    }
}

// The value, where nothing follows it. It is any value, so that the proof doesn't look into a batch.
fn where_ended<T: Drop>(value: T, ended: bool) -> Option<T>
    ensures { result ≡ (if ended then Some value else None) }
{
    if ended { Some(value) } else { None }
}

/// No spelling begins another: what follows one in another is nothing, and the two are of one batch.
#[tactic(auto, using(crate::proofs::BatchLemmas::one_spelling))]
pub fn no_spelling_begins_another()
    ensures { (a b : Batch) (more : List ℕ) → IsBatch a → IsBatch b → bytes_of b ≡ bytes_of a ++ more → (a ≡ b) × (more ≡ []) }
{}
