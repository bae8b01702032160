ghost use Rattle.std.specs.Prelude.{◌≡◌, IfOk};
ghost use Rattle.zb_store.specs.Log as log;

use std::alloc::{AllocError, Global};

/// What `GateLog::append` takes for a body: its length in eight bytes, highest first, the body and a closed gate.
#[tactic(auto, unfolding(crate::specs::Log::framed))]
pub fn framed(alloc: Global, body: &[u8]) -> Result<Vec<u8>, AllocError>
    ensures { IfOk result (λ frame. frame.items ≡ log.framed body.now) }
{
    let mut frame = Vec::new(alloc);
    frame.extend_from_slice(&(body.len() as u64).to_be_bytes())?;
    frame.extend_from_slice(body)?;
    frame.push(0)?;
    Ok(frame)
}
