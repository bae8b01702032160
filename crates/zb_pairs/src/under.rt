// Keys that are kept under a number.
ghost use Rattle.std.specs.Prelude.{◌≡◌, IfOk, slice_get};
ghost use Rattle.std.specs.BTreeSet.{IsOrdered};
ghost use Rattle.std.specs.List.{find};
ghost use Rattle.zb_pairs.specs.Pairs.{place_cmp, keys_under};

use std::alloc::{AllocError, Global};
use std::collections::BTreeSet;
use zb_base::Key;
use zb_table::Query;

/// The keys that are kept under a number, ascending. It takes the logarithm of how many are kept, and a step for each of
/// them.
pub fn keys_under(
    alloc: Global,
    number: Key,
    pairs: &BTreeSet<(Key, Key)>,
) -> Result<Vec<Key>, AllocError>
    ensures keys { IfOk result (λ keys. keys.items ≡ keys_under number pairs.now.keys) }
    ensures order { IsOrdered place_cmp pairs.now }
{
    let mut keys = Vec::new(alloc);
    for pair in pairs.range((number, Key::new(0))..) {
        if pair.0 != number {
            return Ok(keys);
        }
        keys.push(pair.1)?;
    }
    Ok(keys)
}

/// The first of the keys that are kept under a number that passes. It takes the logarithm of how many are kept, and goes
/// through the keys up to it.
pub fn first_under_that<Q: Query<Key>>(
    number: Key,
    query: &Q,
    pairs: &BTreeSet<(Key, Key)>,
) -> Option<Key>
    ensures key { result ≡ find (Q.passes query.now) (keys_under number pairs.now.keys) }
    ensures order { IsOrdered place_cmp pairs.now }
{
    if pairs.is_empty() {
        return None;
    }
    for pair in pairs.range((number, Key::new(0))..) {
        if pair.0 != number {
            return None;
        }
        if query.passes(&pair.1) {
            return Some(pair.1);
        }
    }
    None
}

/// The first key that is kept under a number. It takes the logarithm of how many are kept.
pub fn first_under(number: Key, pairs: &BTreeSet<(Key, Key)>) -> Option<Key>
    ensures key { result ≡ slice_get (keys_under number pairs.now.keys) 0 }
    ensures order { IsOrdered place_cmp pairs.now }
{
    if pairs.is_empty() {
        return None;
    }
    let mut from = pairs.range((number, Key::new(0))..);
    match from.next() {
        Some(pair) => if pair.0 == number { Some(pair.1) } else { None },
        None => None,
    }
}
