// Rows under ascending numbers, and the numbers under the keys of their rows.
ghost use Rattle.std.specs.Prelude.{◌≡◌, ◌==◌, ◌&&◌, ◌<◌, IfOk, option_map};
ghost use Rattle.std.specs.BTreeMap.{keys};
ghost use Rattle.std.specs.List.{All, find};
ghost use Rattle.zb_queue.specs.Numbers.{row_passes, AreNumbers};

use crate::Queued;
use std::alloc::AllocError;
use std::collections::{BTreeMap, BTreeSet};
use zb_base::Key;
use zb_pairs::first_under_that;
use zb_table::Query;

/// The number of the first row of this key that passes. It takes the logarithm of how many rows there are for each of
/// the key, up to that one.
pub fn first_under<R: Queued, Q: Query<R>>(
    key: Key,
    query: &Q,
    rows: &BTreeMap<u64, R>,
    numbers: &BTreeSet<(Key, Key)>,
) -> Option<Key>
    requires { AreNumbers R.name_in rows.now numbers.now }
    ensures { result
        ≡ option_map (λ e. e.0) (find (λ e. (R.name_in e.1 == key) && Q.passes query.now e.1) rows.now.entries) }
{
    first_under_that(key, &RowAt { query, rows }, numbers)
}

// Whether there is a row under a number, and it passes a question.
#[derive(Drop)]
struct RowAt<'a, R: Queued, Q> {
    query: &'a Q,
    rows: &'a BTreeMap<u64, R>,
}

impl<'a, R: Queued, Q: Query<R>> Query<Key> for RowAt<'a, R, Q> {
    ghost passes = { λ at number. row_passes (Q.passes at.query.now) at.rows.now number };

    fn passes(&self, number: &Key) -> bool {
        match self.rows.get(&number.number()) {
            Some(row) => self.query.passes(row),
            None => false,
        }
    }
}

/// A number that is greater than all. It refuses, as where there is no memory, once no number is left: numbers begin
/// anew where there are no rows.
pub fn next_number<R: Queued>(rows: &BTreeMap<u64, R>) -> Result<u64, AllocError>
    ensures { IfOk result (λ number. All (λ k. k < number) (keys rows.now)) }
{
    match rows.last_key_value() {
        Some((last, _)) => last.checked_add(1).ok_or(AllocError),
        None => Ok(0),
    }
}
