ghost use Rattle.std.specs.Prelude.{◌≡◌, ◌==◌, ◌&&◌, ◌++◌, ◌∷◌, [], IfOk, OnOk, OnErr, filter, not, option_map};
ghost use Rattle.std.specs.List.{find, list_any};
ghost use Rattle.std.specs.Option.{option_copied};
ghost use Rattle.zb_table.specs.Rows.{Ascend, first_passing, row_at, without};
ghost use Rattle.zb_groups.specs.Groups.{numbers_in, passes_at};

use crate::Grouped;
use crate::held::Held;
use std::alloc::{AllocError, Global};
use std::collections::BTreeSet;
use std::marker::Model;
use std::mem;
use zb_base::Key;
use zb_pairs::{first_under, first_under_that, keys_under};
use zb_table::{Query, Table};

/// Rows in the order in which they came, each in a group, and each under a number of its own. Contracts see the list of
/// them. The rows of a group, and those at a place, are found without going through others.
#[derive(Drop)]
pub struct Groups<R: Grouped> {
    rows: Table<Held<R>>,
    // The group and the number of each row.
    groups: BTreeSet<(Key, Key)>,
    // The place and the number of each row.
    places: BTreeSet<(Key, Key)>,
    // The number that the next row gets.
    next: u64,
}

impl<R: Grouped> Model for Groups<R> {
    ghost use Rattle.std.specs.Prelude as prelude;
    ghost use Rattle.zb_groups.specs.declared.held.Held as held;
    ghost use Rattle.zb_groups.specs.Groups.{IsGrouped};

    ghost Value = { prelude.List (held.Held R) };

    ghost view = { λ g. g.rows };

    ghost invariant = { λ g. IsGrouped R.group_in R.place_in g.next g.rows g.groups g.places };
}

impl<R: Grouped> Groups<R> {
    /// No rows. It takes no memory.
    pub fn empty(alloc: Global) -> Groups<R>
        ensures { result ≡ [] }
    {
        Groups {
            rows: Table::empty(alloc),
            groups: BTreeSet::new(alloc),
            places: BTreeSet::new(alloc),
            next: 0,
        }
    }

    /// Adds a row behind the others, under the number that is told. After a refusal the rows are only dropped. It takes
    /// the logarithm of how many rows there are.
    pub fn push(&mut self, alloc: Global, row: R) -> Result<Key, AllocError>
        ensures row { IfOk result (λ number. self.new ≡ self.old ++ record { number = number; row = row } ∷ []) }
        ensures order { Ascend (λ h. h.number) 0 self.new }
    {
        let whole = mem::replace(self, Groups::empty(alloc));
        let (more, number) = whole.with(row)?;
        *self = more;
        Ok(number)
    }

    // These rows and one more, and the number of that.
    fn with(mut self, row: R) -> Result<(Groups<R>, Key), AllocError>
        ensures row { IfOk result (λ more. more.0 ≡ self ++ record { number = more.1; row = row } ∷ []) }
        ensures order { IfOk result (λ more. Ascend (λ h. h.number) 0 more.0) }
    {
        let number = Key::new(self.next);
        let next = self.next.checked_add(1).ok_or(AllocError)?;
        self.groups.insert((row.group(), number))?;
        self.places.insert((row.place(), number))?;
        self.rows.add(Held { number, row })?;
        let more = Groups {
            rows: self.rows,
            groups: self.groups,
            places: self.places,
            next,
        };
        Ok((more, number))
    }

    /// The row with this number. It takes the logarithm of how many rows there are.
    pub fn get(&self, number: Key) -> Option<&R>
        ensures row { option_copied result ≡ option_map (λ h. h.row) (row_at (λ h. h.number) number self.now) }
        ensures order { Ascend (λ h. h.number) 0 self.now }
    {
        match self.rows.get(number) {
            Some(held) => Some(&held.row),
            None => None,
        }
    }

    /// Whether a group has rows. It takes the logarithm of how many rows there are.
    pub fn has(&self, group: Key) -> bool
        ensures { result ≡ list_any (λ h. R.group_in h.row == group) self.now }
    {
        first_under(group, &self.groups).is_some()
    }

    /// The number of the first row at a place that passes. It goes through the rows at the place up to it, and takes the
    /// logarithm of how many rows there are for each.
    pub fn first_at<Q: Query<R>>(&self, place: Key, query: &Q) -> Option<Key>
        ensures order { Ascend (λ h. h.number) 0 self.now }
        ensures first { result ≡ option_map (λ h. h.number) (find (λ h. (R.place_in h.row == place) && Q.passes query.now h.row) self.now) }
    {
        let rows = &self.rows;
        first_under_that(place, &RowAt { query, rows }, &self.places)
    }

    /// The numbers of the rows of a group, ascending. It takes the logarithm of how many rows there are, and a step for
    /// each of the group.
    pub fn numbers_in(&self, alloc: Global, group: Key) -> Result<Vec<Key>, AllocError>
        ensures numbers { IfOk result (λ numbers. numbers.items ≡ numbers_in R.group_in group self.now) }
        ensures order { Ascend (λ h. h.number) 0 self.now }
    {
        keys_under(alloc, group, &self.groups)
    }

    /// The number of the first row that passes. It goes through the rows up to it.
    pub fn first<Q: Query<R>>(&self, query: &Q) -> Option<Key>
        ensures order { Ascend (λ h. h.number) 0 self.now }
        ensures first { result ≡ option_map (λ h. h.number) (first_passing (λ h. Q.passes query.now h.row) self.now) }
    {
        self.rows.first_key(&Each { query })
    }

    /// Takes out the row with this number, if there is one. It takes the logarithm of how many rows there are, on average.
    pub fn take(&mut self, number: Key) -> Option<R>
        ensures row { result ≡ option_map (λ h. h.row) (row_at (λ h. h.number) number self.old) }
        ensures left { self.new ≡ without (λ h. h.number) number self.old }
        ensures order { Ascend (λ h. h.number) 0 self.old }
    {
        match self.rows.take(number) {
            Some(held) => {
                let row = held.row;
                self.groups.remove(&(row.group(), number));
                self.places.remove(&(row.place(), number));
                Some(row)
            }
            None => None,
        }
    }

    /// Takes away the rows of a group. After a refusal nothing has changed. It costs what `numbers_in` does, and what
    /// `take` does for each.
    pub fn take_group(&mut self, alloc: Global, group: Key) -> Result<(), AllocError>
        ensures ok { OnOk result (self.new ≡ filter (λ h. not (R.group_in h.row == group)) self.old) }
        ensures err { OnErr result (self.new ≡ self.old) }
    {
        let numbers = self.numbers_in(alloc, group)?;
        for number in numbers.as_slice() {
            self.take(*number);
        }
        Ok(())
    }
}

// A question that is put to rows with numbers.
#[derive(Drop)]
struct Each<'a, Q> {
    query: &'a Q,
}

impl<'a, R: Grouped, Q: Query<R>> Query<Held<R>> for Each<'a, Q> {
    ghost passes = { λ each h. Q.passes each.query.now h.row };

    fn passes(&self, row: &Held<R>) -> bool {
        self.query.passes(&row.row)
    }
}

// Whether the row with a number is there, and passes a question.
#[derive(Drop)]
struct RowAt<'a, R: Grouped, Q> {
    query: &'a Q,
    rows: &'a Table<Held<R>>,
}

impl<'a, R: Grouped, Q: Query<R>> Query<Key> for RowAt<'a, R, Q> {
    ghost passes = { λ at number. passes_at (Q.passes at.query.now) at.rows.now number };

    fn passes(&self, number: &Key) -> bool {
        match self.rows.get(*number) {
            Some(held) => self.query.passes(&held.row),
            None => false,
        }
    }
}
