// Making the frame of a batch.
ghost use Rattle.std.specs.Prelude.{◌≡◌, ◌<◌, ◌≤◌, ◌^◌, ◌++◌, length, drop, OnOk};
ghost use Rattle.std.specs.Int.{w64, to_be_bytes};
ghost use Rattle.zb_model.specs.Record.{bytes_of};
ghost use Rattle.zb_model.specs.RecordFits.{IsBatch};
ghost use Rattle.zb_store.specs.Log.{framed};

use std::alloc::AllocError;
use zb_model::Batch;

/// Makes the frame of a batch: its length, its bytes and a closed gate.
#[tactic(auto, unfolding(zb_store::specs::Log::framed))]
pub fn put_frame(frame: &mut Vec<u8>, batch: &Batch) -> Result<(), AllocError>
    ensures made { OnOk result (frame.new.items ≡ framed (bytes_of batch.now)) }
    ensures fits { OnOk result (length (bytes_of batch.now) < 2 ^ 32 → IsBatch batch.now) }
{
    frame.clear();
    frame.extend_from_slice(&[0; 8])?;
    zb_codec::write(batch, frame)?;
    let size = (frame.len() - 8) as u64;
    put_length(frame.as_mut_slice(), size);
    frame.push(0)?;
    Ok(())
}

// Puts a length in the first eight bytes.
fn put_length(frame: &mut [u8], size: u64)
    requires { 8 ≤ length frame.old }
    ensures { frame.new ≡ to_be_bytes w64 size ++ drop 8 frame.old }
{
    frame[..8].copy_from_slice(&size.to_be_bytes());
}
