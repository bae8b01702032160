// The image of a file in which each unsynced byte is that of a fill.
ghost use Rattle.std.specs.Prelude.{◌≡◌, ◌<◌, ◌+◌, ◌^◌, ℕ, List, [], ◌∷◌, ◌++◌, length, slice_index, All, IsFalse, IfOk, OnOk};
ghost use Rattle.zb_disk.specs.declared.calls.Call.{Call};
ghost use Rattle.zb_disk.specs.declared.calls.Call.TheVariants.{Wrote};
ghost use Rattle.zb_disk.specs.Kept.{after, file_after, IsImage};
ghost use Rattle.zb_disk.specs.Image.{is_sync, synced_file, unsynced, fill_at, IsFilled, IsLongest, IsCovered, EndsAtSync};

use crate::bytes::overwrite;
use crate::calls::{Call, Write};
use std::alloc::{AllocError, Global};

/// The longest image of a file after these calls, the unsynced bytes taken from the fill.
pub fn image_of(
    alloc: Global,
    first: &[u8],
    calls: &[Call],
    fill: &[u8],
) -> Result<Vec<u8>, AllocError>
    ensures left { IfOk result (λ image. IsImage first.now calls.now image.items) }
    ensures filled { IfOk result (λ image. IsFilled (synced_file first.now calls.now) (unsynced calls.now) fill.now image.items) }
    ensures longest { IfOk result (λ image. IsLongest first.now calls.now image.items) }
{
    let synced = last_sync(calls);
    let mut image = first.to_vec(alloc)?;
    redo(&mut image, &calls[..synced])?;
    cover(alloc, &mut image, &calls[synced..], fill)?;
    Ok(image)
}

// How many calls there are up to the last sync and with it, 0 where there is none.
fn last_sync(calls: &[Call]) -> usize
    ensures { EndsAtSync calls.now result }
{
    let mut count = calls.len();
    while count > 0 && !calls[count - 1].is_sync() {
        count -= 1;
    }
    count
}

// Does the done writes again.
fn redo(file: &mut Vec<u8>, calls: &[Call]) -> Result<(), AllocError>
    ensures { OnOk result (file.new.items ≡ file_after file.old.items calls.now) }
{
    for call in calls {
        redo_call(file, call)?;
    }
    Ok(())
}

// Does a call again.
fn redo_call(file: &mut Vec<u8>, call: &Call) -> Result<(), AllocError>
    ensures { OnOk result (file.new.items ≡ after file.old.items call.now) }
{
    match call {
        Call::Wrote(write) if write.is_done && write.at <= file.len() as u64 => overwrite(
            file,
            write.at,
            &write.bytes,
        ),
        _ => Ok(()),
    }
}

// Lays the fill over the ranges of the writes.
fn cover(alloc: Global, image: &mut Vec<u8>, calls: &[Call], fill: &[u8]) -> Result<(), AllocError>
    requires { All (λ call. IsFalse (is_sync call)) calls.now }
    ensures { OnOk result (IsCovered image.old.items calls.now fill.now image.new.items) }
{
    for call in calls {
        cover_call(alloc, image, call, fill)?;
    }
    Ok(())
}

// Lays the fill over the range of a call, if it is a write.
fn cover_call(
    alloc: Global,
    image: &mut Vec<u8>,
    call: &Call,
    fill: &[u8],
) -> Result<(), AllocError>
    requires { IsFalse (is_sync call.now) }
    ensures { OnOk result ((file : List ℕ) (calls : List Call) → IsCovered file calls fill.now image.old.items
        → IsCovered file (calls ++ call.now ∷ []) fill.now image.new.items) }
{
    match call {
        Call::Wrote(write) => cover_range(alloc, image, write, fill),
        Call::Synced | Call::Other => Ok(()),
    }
}

// Lays the fill over the range of a write. One that begins past the end reaches nothing.
fn cover_range(
    alloc: Global,
    image: &mut Vec<u8>,
    write: &Write,
    fill: &[u8],
) -> Result<(), AllocError>
    ensures { OnOk result ((file : List ℕ) (calls : List Call) → IsCovered file calls fill.now image.old.items
        → IsCovered file (calls ++ Wrote write.now ∷ []) fill.now image.new.items) }
{
    if write.at > image.len() as u64 {
        return Ok(());
    }
    let piece = piece_of(alloc, fill, write.at as usize, write.bytes.len())?;
    overwrite(image, write.at, &piece)
}

// This many bytes of the fill, from a place on.
fn piece_of(alloc: Global, fill: &[u8], at: usize, len: usize) -> Result<Vec<u8>, AllocError>
    requires { at + len < 2 ^ 64 }
    ensures size { IfOk result (λ piece. length piece.items ≡ len) }
    ensures bytes { IfOk result (λ piece. (k : ℕ) → k < len → slice_index piece.items k ≡ fill_at fill.now (at + k)) }
{
    let mut piece = Vec::with_capacity(alloc, len)?;
    for k in 0..len {
        piece.push(byte_of(fill, at + k))?;
    }
    Ok(piece)
}

// The byte at a place of the fill.
fn byte_of(fill: &[u8], at: usize) -> u8
    ensures { result ≡ fill_at fill.now at }
{
    if fill.is_empty() {
        return 0;
    }
    fill[at % fill.len()]
}
