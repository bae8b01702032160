// Rejections.
ghost use Rattle.std.specs.Prelude.{◌≡◌, ◌++◌, Some, IfOk};
ghost use Rattle.std.specs.Fmt.{decimal};

use std::alloc::{AllocError, Global};
use zb_model::{Key, Rejection, RejectionKind, Text};

/// The rejection of this kind that says this.
pub fn rejection(
    alloc: Global,
    kind: RejectionKind,
    reason: &str,
) -> Result<Option<Rejection>, AllocError>
    ensures { IfOk result (λ rejection. rejection ≡ Some (record { kind = kind; reason = reason.now })) }
{
    Ok(Some(Rejection {
        kind,
        reason: Text::of(alloc, reason)?,
    }))
}

/// The rejection where nothing has this key. What it would be stands in front of the key.
pub fn no_such(alloc: Global, front: &str, key: Key) -> Result<Option<Rejection>, AllocError>
    ensures { IfOk result (λ rejection. rejection ≡ Some (record { kind = RejectionKind.NotFound; reason = front.now ++ decimal key })) }
{
    let mut text = String::from_str(alloc, front)?;
    text.write(key.number())?;
    rejection(alloc, RejectionKind::NotFound, text.as_str())
}

/// The rejection where what has this key isn't in the right state. What it is stands in front of the key, and its state
/// behind.
pub fn wrong_state(
    alloc: Global,
    front: &str,
    key: Key,
    behind: &str,
) -> Result<Option<Rejection>, AllocError>
    ensures { IfOk result (λ rejection. rejection ≡ Some (record { kind = RejectionKind.InvalidState; reason = front.now ++ (decimal key ++ behind.now) })) }
{
    rejection_of(alloc, RejectionKind::InvalidState, front, key, behind)
}

/// The rejection where what has this key is there already. What it is stands in front of the key, and that behind.
pub fn in_the_way(
    alloc: Global,
    front: &str,
    key: Key,
    behind: &str,
) -> Result<Option<Rejection>, AllocError>
    ensures { IfOk result (λ rejection. rejection ≡ Some (record { kind = RejectionKind.AlreadyExists; reason = front.now ++ (decimal key ++ behind.now) })) }
{
    rejection_of(alloc, RejectionKind::AlreadyExists, front, key, behind)
}

// The rejection of this kind, that says what stands in front of a key, the key, and what stands behind it.
fn rejection_of(
    alloc: Global,
    kind: RejectionKind,
    front: &str,
    key: Key,
    behind: &str,
) -> Result<Option<Rejection>, AllocError>
    ensures { IfOk result (λ rejection. rejection ≡ Some (record { kind = kind; reason = front.now ++ (decimal key ++ behind.now) })) }
{
    let mut text = String::from_str(alloc, front)?;
    text.write(key.number())?;
    text.push_str(behind)?;
    rejection(alloc, kind, text.as_str())
}
