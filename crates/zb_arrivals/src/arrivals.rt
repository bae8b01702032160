ghost use Rattle.std.specs.Prelude.{◌≡◌, ◌≤◌, ◌<◌, ◌^◌, ◌==◌, ◌++◌, ◌∷◌, [], true, IsTrue, OnOk, filter, length, map};
ghost use Rattle.std.specs.List.{find};
ghost use Rattle.std.specs.Option.{option_copied, option_map_or};
ghost use Rattle.zb_table.specs.Rows.{Ascend, are_below};
ghost use Rattle.zb_table.specs.Edits.{edited, without_first};
ghost use Rattle.zb_table.specs.Greatest.{greatest};

use crate::others::{self, HasKey};
use std::alloc::{AllocError, Global};
use std::marker::Model;
use zb_base::Key;
use zb_table::{Edit, Query, Row, Table};

// How many rows memory has room for, at most.
const MOST: usize = usize::MAX / 2;

/// Rows in the order in which they came. Contracts see the list of them. As long as each comes with a greater key than
/// all before it, they stand in a table, and what is said of costs holds; from the first on that doesn't, those that
/// come are searched from the front.
#[derive(Drop)]
pub struct Arrivals<R: Row> {
    // Those that came in the order of their keys.
    ordered: Table<R>,
    // A number above their keys.
    next: u64,
    // Those that came from the first on that didn't.
    others: Vec<R>,
}

impl<R: Row> Model for Arrivals<R> {
    ghost use Rattle.std.specs.Prelude as prelude;
    ghost use Rattle.zb_arrivals.specs.InOrder.{IsInOrder};

    ghost Value = { prelude.List R };

    ghost view = { λ a. prelude.◌++◌ a.ordered a.others.items };

    ghost invariant = { λ a. IsInOrder R.key_in a.next a.ordered };
}

impl<R: Row> Arrivals<R> {
    /// No rows. It takes no memory.
    pub fn empty(alloc: Global) -> Arrivals<R>
        ensures { result ≡ [] }
    {
        Arrivals {
            ordered: Table::empty(alloc),
            next: 0,
            others: Vec::new(alloc),
        }
    }

    /// How many rows there are.
    pub fn len(&self) -> usize
        ensures { result ≡ length self.now }
    {
        self.ordered.len() + self.others.len()
    }

    /// The first row with this key. It takes the logarithm of how many rows there are.
    pub fn get(&self, key: Key) -> Option<&R>
        ensures { option_copied result ≡ find (λ r. R.key_in r == key) self.now }
    {
        match self.ordered.get(key) {
            Some(row) => Some(row),
            None => others::first(&HasKey { key }, &self.others),
        }
    }

    /// Whether a key is known to be greater than all, where those ascend.
    pub fn comes_last(&self, key: Key) -> bool
        ensures below { IsTrue result → are_below R.key_in key self.now ≡ true }
        ensures order { IsTrue result → Ascend R.key_in 0 self.now }
    {
        is_behind(key, self.next, &self.others)
    }

    /// Adds a row behind the others. After a refusal the rows are only dropped.
    pub fn push(&mut self, row: R) -> Result<(), AllocError>
        ensures added { OnOk result (self.new ≡ self.old ++ row ∷ []) }
        ensures few { OnOk result (length self.new < 2 ^ 64) }
    {
        let key = row.key();
        match key.number().checked_add(1) {
            Some(next) if is_behind(key, self.next, &self.others) => {
                if self.ordered.len() == MOST {
                    return Err(AllocError);
                }
                self.ordered.add(row)?;
                self.next = next;
                Ok(())
            }
            _ => {
                self.others.push(row)?;
                Ok(())
            }
        }
    }

    /// Edits the first row with this key, if there is one. After a refusal the rows are only dropped. It takes the
    /// logarithm of how many rows there are, and what the edit takes.
    pub fn edit<E: Edit<R>>(&mut self, key: Key, edit: E) -> Result<(), AllocError>
        ensures { OnOk result (self.new ≡ option_map_or (λ rows. rows) (edited (λ r. R.key_in r == key) (E.edits edit) self.old) self.old) }
    {
        if self.ordered.contains(key) {
            return self.ordered.edit(key, edit);
        }
        others::edit(&HasKey { key }, edit, &mut self.others)
    }

    /// Takes away the first row with this key, if there is one. It takes the logarithm of how many rows there are, on
    /// average.
    pub fn remove(&mut self, key: Key)
        ensures { self.new ≡ without_first (λ r. R.key_in r == key) self.old }
    {
        match self.ordered.take(key) {
            Some(_row) => {}
            None => others::remove_first(&HasKey { key }, &mut self.others),
        }
    }

    /// The first row that passes. It goes through the rows up to it.
    pub fn first<Q: Query<R>>(&self, query: &Q) -> Option<&R>
        ensures { option_copied result ≡ find (Q.passes query.now) self.now }
    {
        match self.ordered.first_key(query) {
            Some(key) => self.ordered.get(key),
            None => others::first(query, &self.others),
        }
    }

    /// Takes away the first row that passes, if one does. It goes through the rows up to it.
    pub fn remove_first<Q: Query<R>>(&mut self, query: &Q)
        ensures { self.new ≡ without_first (Q.passes query.now) self.old }
    {
        match self.ordered.first_key(query) {
            Some(key) => self.remove(key),
            None => others::remove_first(query, &mut self.others),
        }
    }

    /// The greatest key of the rows that pass. It goes from the last row back to the first that passes.
    pub fn greatest<Q: Query<R>>(&self, query: &Q) -> Option<Key>
        ensures { result ≡ greatest (map R.key_in (filter (Q.passes query.now) self.now)) }
    {
        others::newer_of(
            self.ordered.last_key(query),
            others::greatest(query, &self.others),
        )
    }
}

// Whether there are no other rows, and a key isn't below the next one.
fn is_behind<R: Row>(key: Key, next: u64, others: &[R]) -> bool
    ensures none { IsTrue result → others.now ≡ [] }
    ensures behind { IsTrue result → next ≤ key }
{
    others.is_empty() && next <= key.number()
}
