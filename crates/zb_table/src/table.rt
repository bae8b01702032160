ghost use Rattle.std.specs.Prelude.{◌≡◌, ◌≤◌, ◌<◌, ◌+◌, ◌^◌, ◌++◌, ◌∷◌, [], List, None, IsTrue, IfOk, OnOk, OnErr, is_some, length, map, option_map};
ghost use Rattle.std.specs.List.{insert, list_any};
ghost use Rattle.std.specs.Option.{option_copied};
ghost use Rattle.zb_table.specs.declared.row.Place.{Place};
ghost use Rattle.zb_table.specs.Places.{count_empty, rows_in, AreOrdered};
ghost use Rattle.zb_table.specs.Rows.{Ascend, first_passing, last_passing, row_at, with_edit, with_row, without};

use crate::row::Place;
use crate::search::find;
use crate::{Edit, Iter, Query, Row, search};
use std::alloc::{AllocError, Global};
use std::marker::Model;
use zb_base::Key;

/// Rows in the order of their keys. Contracts see the list of them.
#[derive(Drop)]
pub struct Table<R: Row> {
    places: Vec<Place<R>>,
    // How many of the places are empty.
    empty: usize,
}

impl<R: Row> Model for Table<R> {
    ghost use Rattle.std.specs.Prelude as prelude;
    ghost use Rattle.zb_table.specs.Places.{rows_in, ArePlaces};

    ghost Value = { prelude.List R };

    ghost view = { λ t. rows_in t.places.items };

    ghost invariant = { λ t. ArePlaces R.key_in t.empty t.places.items };
}

impl<R: Row> Table<R> {
    /// A table without rows. It takes no memory.
    pub fn empty(alloc: Global) -> Table<R>
        ensures { result ≡ [] }
    {
        Table {
            places: Vec::new(alloc),
            empty: 0,
        }
    }

    /// How many rows there are. Memory has no room for more than it says.
    pub fn len(&self) -> usize
        ensures count { result ≡ length self.now }
        ensures few { result < 2 ^ 63 }
    {
        self.places.len() - self.empty
    }

    /// The row with this key. It takes the logarithm of how many rows there are; one step where the key is
    /// the greatest, or greater than all.
    pub fn get(&self, key: Key) -> Option<&R>
        ensures row { option_copied result ≡ row_at R.key_in key self.now }
        ensures order { Ascend R.key_in 0 self.now }
    {
        match find(key, &self.places) {
            Ok(place) => self.places[place].row.as_ref(),
            Err(_) => None,
        }
    }

    /// Whether a row has this key. It costs what `get` does.
    pub fn contains(&self, key: Key) -> bool
        ensures { result ≡ is_some (row_at R.key_in key self.now) }
    {
        self.get(key).is_some()
    }

    /// The rows, in the order of their keys. To go through all of them takes a step for each place.
    pub fn iter(&self) -> Iter<'_, R>
        ensures rows { result ≡ self.now }
        ensures order { Ascend R.key_in 0 self.now }
    {
        Iter {
            places: &self.places,
        }
    }

    /// Whether a row passes. It goes through all of them.
    pub fn any<Q: Query<R>>(&self, query: &Q) -> bool
        ensures { result ≡ list_any (Q.passes query.now) self.now }
    {
        search::any(query, &self.places)
    }

    /// The key of the first row that passes. It goes from the first one on to it.
    pub fn first_key<Q: Query<R>>(&self, query: &Q) -> Option<Key>
        ensures key { result ≡ option_map R.key_in (first_passing (Q.passes query.now) self.now) }
        ensures order { Ascend R.key_in 0 self.now }
    {
        search::first_key(query, &self.places)
    }

    /// The key of the last row that passes. It goes from the last one back to it.
    pub fn last_key<Q: Query<R>>(&self, query: &Q) -> Option<Key>
        ensures key { result ≡ option_map R.key_in (last_passing (Q.passes query.now) self.now) }
        ensures order { Ascend R.key_in 0 self.now }
    {
        search::last_key(query, &self.places)
    }

    /// Adds a row, in the place of one with its key if there is one. After a refusal nothing has changed. It
    /// takes constant time where its key is greater than all; else a step for each row behind it.
    pub fn add(&mut self, row: R) -> Result<(), AllocError>
        ensures ok { OnOk result (self.new ≡ with_row R.key_in row self.old) }
        ensures err { OnErr result (self.new ≡ self.old) }
    {
        let key = row.key();
        match find(key, &self.places) {
            Ok(place) => {
                if self.places[place].fill(row) {
                    self.empty -= 1;
                }
                Ok(())
            }
            Err(place) => {
                let row = Some(row);
                put_at(place, Place { key, row }, &mut self.places)?;
                Ok(())
            }
        }
    }

    /// Edits the row with this key where it stands, if there is one. After a refusal it is gone. It takes the logarithm
    /// of how many rows there are, and what the edit takes.
    pub fn edit<E: Edit<R>>(&mut self, key: Key, edit: E) -> Result<(), AllocError>
        ensures row { OnOk result (self.new ≡ with_edit R.key_in key (E.edits edit) self.old) }
        ensures keys { OnOk result (map R.key_in self.new ≡ map R.key_in self.old) }
        ensures err { OnErr result (self.new ≡ without R.key_in key self.old) }
    {
        let Ok(place) = find(key, &self.places) else {
            return Ok(());
        };
        let Some(row) = self.places[place].row.take() else {
            return Ok(());
        };
        self.empty += 1;
        self.places[place].row = Some(edit.edit(row)?);
        self.empty -= 1;
        Ok(())
    }

    /// Removes the row with this key, if there is one. It takes the logarithm of how many rows there are, on
    /// average: the place stays, empty, until more than half of the places are.
    pub fn remove(&mut self, key: Key)
        ensures { self.new ≡ without R.key_in key self.old }
    {
        self.take(key);
    }

    /// Takes out the row with this key, if there is one. It costs what `remove` does.
    pub fn take(&mut self, key: Key) -> Option<R>
        ensures row { result ≡ row_at R.key_in key self.old }
        ensures left { self.new ≡ without R.key_in key self.old }
    {
        let Ok(place) = find(key, &self.places) else {
            return None;
        };
        let row = self.places[place].row.take()?;
        self.empty += 1;
        self.sweep();
        Some(row)
    }

    // Drops the empty places behind the last row, and all of them where more than half are.
    fn sweep(&mut self)
        ensures { self.new ≡ self.old }
    {
        self.empty -= trim(&mut self.places);
        if self.empty > self.places.len() / 2 {
            self.places.retain(|place| place.row.is_some());
            self.empty = 0;
        }
    }
}

// Drops the empty places at the end, and tells how many they were.
fn trim<R: Row>(places: &mut Vec<Place<R>>) -> usize
    ensures rows { rows_in places.new.items ≡ rows_in places.old.items }
    ensures order { AreOrdered R.key_in 0 places.old.items → AreOrdered R.key_in 0 places.new.items }
    ensures count { count_empty places.new.items + result ≡ count_empty places.old.items }
{
    let mut trimmed = 0;
    while ends_empty(places) {
        drop(places.pop());
        trimmed += 1;
    }
    trimmed
}

// Whether there is a last place, and it is empty.
fn ends_empty<R: Row>(places: &[Place<R>]) -> bool
    ensures { IsTrue result → (front : List (Place R)) × (last : Place R) × (places.now ≡ front ++ last ∷ []) × (last.row ≡ None) }
{
    match places.last() {
        Some(last) => last.row.is_none(),
        None => false,
    }
}

// Puts a place at this index. Where it is the last one it is pushed, which takes fewer steps than an insertion.
fn put_at<R: Row>(
    index: usize,
    place: Place<R>,
    places: &mut Vec<Place<R>>,
) -> Result<(), AllocError>
    requires { index ≤ length places.old.items }
    ensures ok { OnOk result (places.new.items ≡ insert places.old.items index place) }
    ensures err { OnErr result (places.new.items ≡ places.old.items) }
{
    if index < places.len() {
        places.insert(index, place)?;
        return Ok(());
    }
    places.push(place)?;
    Ok(())
}
