// Finding a place by its key.
ghost use Rattle.std.specs.Prelude.{◌≡◌, ◌≤◌, ◌++◌, IfOk, IfErr, OnOk, false, [], map, option_map};
ghost use Rattle.std.specs.List.{list_any};
ghost use Rattle.std.specs.Option.{option_map_or};
ghost use Rattle.zb_table.specs.Rows.{first_passing, last_passing};
ghost use Rattle.zb_table.specs.Places.{held, rows_in, AreOrdered, count_below, HasKey, IsFree};

use crate::row::Place;
use crate::{Query, Row};
use std::alloc::{AllocError, Global};
use zb_base::Key;

/// How many places have lower keys. It takes one step where all have, or all but the last, and else the logarithm of how
/// many places there are from the first that hasn't on.
pub fn place_of<R: Row>(key: Key, places: &[Place<R>]) -> usize
    requires { AreOrdered R.key_in 0 places.now }
    ensures { result ≡ count_below key places.now }
{
    match places.last() {
        Some(last) if last.key > key => search(key, places),
        Some(last) if last.key == key => places.len() - 1,
        _ => places.len(),
    }
}

// How many places have lower keys, by halves.
fn search<R: Row>(key: Key, places: &[Place<R>]) -> usize
    requires { AreOrdered R.key_in 0 places.now }
    ensures { result ≡ count_below key places.now }
{
    let mut low = lower_end(key, places);
    let mut high = places.len();
    while low < high {
        let middle = low + (high - low) / 2;
        if places[middle].key < key {
            low = middle + 1;
        } else {
            high = middle;
        }
    }
    low
}

// How many places in front have lower keys at least; from there on there are at most eight times as many as from the
// first that hasn't a lower one, or eight.
fn lower_end<R: Row>(key: Key, places: &[Place<R>]) -> usize
    requires { AreOrdered R.key_in 0 places.now }
    ensures { result ≤ count_below key places.now }
{
    let mut width: usize = 8;
    while width < places.len() {
        let at = places.len() - width;
        if places[at].key < key {
            return at + 1;
        }
        width = width.saturating_mul(8);
    }
    0
}

/// Where the place with this key is, or where it would be. It costs what `place_of` does.
pub fn find<R: Row>(key: Key, places: &[Place<R>]) -> Result<usize, usize>
    requires { AreOrdered R.key_in 0 places.now }
    ensures found { IfOk result (HasKey key places.now) }
    ensures free { IfErr result (IsFree key places.now) }
{
    let place = place_of(key, places);
    match places.get(place) {
        Some(found) if found.key == key => Ok(place),
        _ => Err(place),
    }
}

/// Whether a row passes. It goes through all of them.
pub fn any<R: Row, Q: Query<R>>(query: &Q, places: &[Place<R>]) -> bool
    ensures { result ≡ list_any (Q.passes query.now) (rows_in places.now) }
{
    for place in places {
        if passes(query, place) {
            return true;
        }
    }
    false
}

/// The key of the first row that passes. It goes from the first place on to it.
pub fn first_key<R: Row, Q: Query<R>>(query: &Q, places: &[Place<R>]) -> Option<Key>
    ensures { result ≡ option_map R.key_in (first_passing (Q.passes query.now) (rows_in places.now)) }
{
    for place in places {
        if let Some(key) = passing_key(query, place) {
            return Some(key);
        }
    }
    None
}

/// The key of the last row that passes. It goes from the last place back to it.
pub fn last_key<R: Row, Q: Query<R>>(query: &Q, places: &[Place<R>]) -> Option<Key>
    ensures { result ≡ option_map R.key_in (last_passing (Q.passes query.now) (rows_in places.now)) }
{
    for i in (0..places.len()).rev() {
        if let Some(key) = passing_key(query, &places[i]) {
            return Some(key);
        }
    }
    None
}

// The key of the row that is there, if it passes.
fn passing_key<R: Row, Q: Query<R>>(query: &Q, place: &Place<R>) -> Option<Key>
    ensures { result ≡ option_map R.key_in (last_passing (Q.passes query.now) (held place.now.row [])) }
{
    match &place.row {
        Some(row) if query.passes(row) => Some(row.key()),
        _ => None,
    }
}

// Whether there is a row that passes.
fn passes<R: Row, Q: Query<R>>(query: &Q, place: &Place<R>) -> bool
    ensures { result ≡ option_map_or (Q.passes query.now) place.now.row false }
{
    match &place.row {
        Some(row) => query.passes(row),
        None => false,
    }
}
