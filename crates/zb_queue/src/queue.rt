ghost use Rattle.std.specs.Prelude.{◌≡◌, ◌==◌, ◌&&◌, ◌++◌, ◌∷◌, [], ℕ, IfOk, OnOk, filter, not};
ghost use Rattle.std.specs.List.{list_any};

use crate::numbers::{first_under, next_number};
use std::alloc::{AllocError, Global};
use std::collections::btree_map::Values;
use std::collections::{BTreeMap, BTreeSet};
use std::marker::Model;
use std::mem;
use zb_base::Key;
use zb_table::Query;

/// What stands in a queue.
pub trait Queued: Drop {
    ghost name_in: { Self → ℕ };

    /// The key by which it is found.
    fn name(&self) -> Key
        ensures { result ≡ name_in self.now };
}

/// Rows in the order in which they came, each found by a key that several may have and that need not ascend. Contracts
/// see the list of them.
#[derive(Drop)]
pub struct Queue<R: Queued> {
    // Under numbers that ascend as they came.
    rows: BTreeMap<u64, R>,
    // The key and the number of each.
    numbers: BTreeSet<(Key, Key)>,
}

impl<R: Queued> Model for Queue<R> {
    ghost use Rattle.std.specs.Prelude as prelude;
    ghost use Rattle.std.specs.BTreeMap.{values};
    ghost use Rattle.zb_queue.specs.Numbers.{AreNumbers};

    ghost Value = { prelude.List R };

    ghost view = { λ q. values q.rows };

    ghost invariant = { λ q. AreNumbers R.name_in q.rows q.numbers };
}

impl<R: Queued> Queue<R> {
    /// No rows. It takes no memory.
    pub fn empty(alloc: Global) -> Queue<R>
        ensures { result ≡ [] }
    {
        Queue {
            rows: BTreeMap::new(alloc),
            numbers: BTreeSet::new(alloc),
        }
    }

    /// The rows, in the order in which they came. It takes a step for each.
    pub fn rows(&self) -> Values<'_, u64, R>
        ensures { result ≡ self.now }
    {
        self.rows.values()
    }

    /// Puts a row behind the others. After a refusal they are only dropped. It takes the logarithm of how many rows
    /// there are.
    pub fn push(&mut self, alloc: Global, row: R) -> Result<(), AllocError>
        ensures { OnOk result (self.new ≡ self.old ++ row ∷ []) }
    {
        let whole = mem::replace(self, Queue::empty(alloc));
        *self = whole.with(row)?;
        Ok(())
    }

    // These rows and one more behind them.
    fn with(mut self, row: R) -> Result<Queue<R>, AllocError>
        ensures { IfOk result (λ more. more ≡ self ++ row ∷ []) }
    {
        let number = next_number(&self.rows)?;
        self.numbers.insert((row.name(), Key::new(number)))?;
        drop(self.rows.insert(number, row)?);
        Ok(self)
    }

    /// Whether a row of this key passes. It takes the logarithm of how many rows there are for each of the key, up to
    /// the first that passes.
    pub fn any_under<Q: Query<R>>(&self, key: Key, query: &Q) -> bool
        ensures { result ≡ list_any (λ r. (R.name_in r == key) && Q.passes query.now r) self.now }
    {
        first_under(key, query, &self.rows, &self.numbers).is_some()
    }

    /// Takes away each row of this key that passes. It takes what `any_under` does, once for each that it takes away
    /// and once more.
    pub fn end_under<Q: Query<R>>(&mut self, key: Key, query: &Q)
        ensures { self.new ≡ filter (λ r. not ((R.name_in r == key) && Q.passes query.now r)) self.old }
    {
        while let Some(number) = first_under(key, query, &self.rows, &self.numbers) {
            drop(self.rows.remove(&number.number()));
            self.numbers.remove(&(key, number));
        }
    }
}
