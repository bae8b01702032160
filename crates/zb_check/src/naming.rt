// Faults of ids: each finds the id of its first offender.
ghost use Rattle.std.specs.Prelude.{◌≡◌, [], map, IfOk};
ghost use Rattle.std.specs.List.{find};
ghost use Rattle.std.specs.Option.{option_copied};
ghost use Rattle.std.specs.Str.{bytes_eq};
ghost use Rattle.zb_faults.specs.Faults.{double_id, empty_id, find_behind, has_id};

use crate::notes::Notes;
use crate::parts::Parts;
use std::alloc::{AllocError, Global};
use zb_base::Text;

/// The first id that is empty.
pub fn empty_id<'a>(parts: &Parts<'a>) -> Option<&'a Text>
    ensures { option_copied result ≡ empty_id parts.now }
{
    first_empty(parts.ids())
}

/// The first id that was used before.
pub fn double_id<'a>(alloc: Global, parts: &Parts<'a>) -> Result<Option<&'a Text>, AllocError>
    ensures { IfOk result (λ found. option_copied found ≡ double_id parts.now) }
{
    first_used(alloc, parts.ids())
}

// The first id that is empty.
fn first_empty<'a>(ids: &[&'a Text]) -> Option<&'a Text>
    ensures { option_copied result ≡ find (λ id. bytes_eq id []) (map (λ id. id.now) ids.now) }
{
    for id in ids {
        if is_empty(id) {
            return Some(*id);
        }
    }
    None
}

// The first id that stands in front too.
fn first_used<'a>(alloc: Global, ids: &[&'a Text]) -> Result<Option<&'a Text>, AllocError>
    ensures { IfOk result (λ found. option_copied found ≡ find_behind has_id [] (map (λ id. id.now) ids.now)) }
{
    let mut used = Notes::empty(alloc);
    for id in ids {
        if used.get(id).is_some() {
            return Ok(Some(*id));
        }
        used.put(*id, ())?;
    }
    Ok(None)
}

/// Whether an id is empty.
pub fn is_empty(id: &Text) -> bool
    ensures { result ≡ bytes_eq id.now [] }
{
    id.as_str().is_empty()
}
