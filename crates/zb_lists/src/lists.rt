ghost use Rattle.std.specs.Prelude.{◌≡◌, ℕ, List, [], Option, false, IfOk, OnOk, slice_get};
ghost use Rattle.std.specs.List.{find};
ghost use Rattle.std.specs.List.Sorted.{IsStrictlySortedBy};
ghost use Rattle.std.specs.Ordering.{nat_cmp};
ghost use Rattle.zb_pairs.specs.Pairs.{is_number, place_cmp};
ghost use Rattle.zb_lists.specs.Moments.{due_pair};
ghost use Rattle.zb_lists.specs.Listed.{row_found};

use crate::Listed;
use crate::changes::{forget, keep, label, list, unlabel};
use std::alloc::{AllocError, Global};
use zb_base::{Key, Moment};
use zb_line::{Labels, Line};
use zb_rows::{Kept, Rows};
use zb_table::Query;

/// The moments for which rows wait, each with the key of its row, in this order; and the keys of rows under their labels,
/// ascending. The rows stand elsewhere.
#[derive(Drop)]
pub struct Lists {
    moments: Line<(Moment, Key)>,
    labels: Labels,
}

impl Lists {
    ghost use Rattle.zb_lists.specs.Listed.{moments_of, keys_of, without_named, AreListed};

    /// Lists of no rows. They take no memory.
    pub fn empty(alloc: Global) -> Lists
        ensures moments { moments_of result ≡ [] }
        ensures keys { (first second : List ℕ) → keys_of result first second ≡ [] }
    {
        Lists {
            moments: Line::empty(alloc),
            labels: Labels::empty(alloc),
        }
    }

    /// The lists of rows that are there. The moments are sorted once, at the end: that takes the logarithm of how many rows
    /// there are for each of them. Beside it each costs what `Labels::join` does.
    pub fn of<R: Kept + Listed>(alloc: Global, rows: &Rows<R>) -> Result<Lists, AllocError>
        ensures { IfOk result (AreListed R.moment_in R.label_in (row_found R.key_in rows.now)) }
    {
        let mut pairs = Vec::new(alloc);
        let mut labels = Labels::empty(alloc);
        for row in rows.iter() {
            list(alloc, row, &mut pairs, &mut labels)?;
        }
        Ok(Lists {
            moments: Line::of(pairs),
            labels,
        })
    }

    /// The moments, each with the key of the row that waits for it: in this order.
    pub fn in_time(&self) -> &[(Moment, Key)]
        ensures moments { result.now ≡ moments_of self.now }
        ensures order { IsStrictlySortedBy place_cmp result.now }
    {
        self.moments.as_slice()
    }

    /// The keys of the rows with this label, ascending. It takes constant time on average.
    pub fn labelled(&self, first: &str, second: &str) -> &[Key]
        ensures keys { result.now ≡ keys_of self.now first.now second.now }
        ensures order { IsStrictlySortedBy nat_cmp result.now }
    {
        self.labels.keys(first, second)
    }

    /// The moment and the key of the row that is due first, if one is due now.
    pub fn first_due(&self, now: Moment) -> Option<(Moment, Key)>
        ensures first { result ≡ due_pair now (slice_get (moments_of self.now) 0) }
        ensures order { IsStrictlySortedBy place_cmp (moments_of self.now) }
    {
        match self.moments.as_slice().first() {
            Some(pair) if pair.0 <= now => Some(*pair),
            _ => None,
        }
    }

    /// The same of the rows alone whose keys pass. It goes through those that are due, in their order, up to the first
    /// that does.
    pub fn first_due_that<Q: Query<Key>>(&self, now: Moment, query: &Q) -> Option<(Moment, Key)>
        ensures first { result ≡ due_pair now (find (λ p. Q.passes query.now p.1) (moments_of self.now)) }
        ensures order { IsStrictlySortedBy place_cmp (moments_of self.now) }
    {
        for pair in self.moments.as_slice() {
            if pair.0 > now {
                return None;
            }
            if query.passes(&pair.1) {
                return Some(*pair);
            }
        }
        None
    }

    /// Lists the row with this key no more, if there is one. It costs what `Rows::get`, `Line::remove` and `Labels::leave`
    /// do.
    pub fn leave<R: Kept + Listed>(&mut self, key: Option<Key>, rows: &Rows<R>)
        ensures { AreListed R.moment_in R.label_in (row_found R.key_in rows.now) self.old
            → AreListed R.moment_in R.label_in (without_named key (row_found R.key_in rows.now)) self.new }
    {
        let Some(key) = key else {
            return;
        };
        let Some(row) = rows.get(key) else {
            return;
        };
        forget(&mut self.moments, row.moment(), key);
        unlabel(&mut self.labels, row, key);
    }

    /// Lists the row with this key, if there is one now, where it was listed no more. After a refusal the lists are only
    /// dropped. It costs what `Rows::get`, `Line::add` and `Labels::join` do.
    pub fn join<R: Kept + Listed>(
        &mut self,
        alloc: Global,
        key: Option<Key>,
        rows: &Rows<R>,
    ) -> Result<(), AllocError>
        ensures { (found : ℕ → Option R) → AreListed R.moment_in R.label_in (without_named key found) self.old
            → ((k : ℕ) → is_number k key ≡ false → row_found R.key_in rows.now k ≡ found k)
            → OnOk result (AreListed R.moment_in R.label_in (row_found R.key_in rows.now) self.new) }
    {
        let Some(key) = key else {
            return Ok(());
        };
        let Some(row) = rows.get(key) else {
            return Ok(());
        };
        keep(&mut self.moments, row.moment(), key)?;
        label(alloc, &mut self.labels, row, key)
    }
}
