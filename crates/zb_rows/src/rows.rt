ghost use Rattle.std.specs.Prelude.{◌≡◌, ◌==◌, ◌&&◌, [], None, true, false, OnOk, OnErr, IfOk, map, filter, option_map, if◌then◌else◌, ℕ};
ghost use Rattle.std.specs.List.{find};
ghost use Rattle.std.specs.Option.{option_and_then, option_copied};
ghost use Rattle.zb_table.specs.Rows.{Ascend, with_edit, with_row, without};
ghost use Rattle.zb_pairs.specs.Pairs.{has_pair, is_number};

use crate::Kept;
use std::alloc::{AllocError, Global};
use std::collections::BTreeSet;
use std::marker::Model;
use std::mem;
use zb_base::Key;
use zb_pairs::{first_under, keys_under};
use zb_table::{Edit, Iter, Table};

/// Rows in the order of their keys, found by the cells at which they stand. Contracts see the list of them.
#[derive(Drop)]
pub struct Rows<R: Kept> {
    rows: Table<R>,
    // The cell and the key of each row that stands at one.
    cells: BTreeSet<(Key, Key)>,
}

impl<R: Kept> Model for Rows<R> {
    ghost use Rattle.std.specs.Prelude as prelude;
    ghost use Rattle.zb_rows.specs.Rows.{AreFound};

    ghost Value = { prelude.List R };

    ghost view = { λ r. r.rows };

    ghost invariant = { λ r. AreFound R.key_in R.cell_in r.rows r.cells };
}

impl<R: Kept> Rows<R> {
    /// No rows. It takes no memory.
    pub fn empty(alloc: Global) -> Rows<R>
        ensures { result ≡ [] }
    {
        Rows {
            rows: Table::empty(alloc),
            cells: BTreeSet::new(alloc),
        }
    }

    /// The row with this key. It takes the logarithm of how many rows there are.
    pub fn get(&self, key: Key) -> Option<&R>
        ensures row { option_copied result ≡ find (λ r. R.key_in r == key) self.now }
        ensures order { Ascend R.key_in 0 self.now }
    {
        self.rows.get(key)
    }

    /// The rows, in the order of their keys. To go through all of them takes a step for each, on average.
    pub fn iter(&self) -> Iter<'_, R>
        ensures rows { result ≡ self.now }
        ensures order { Ascend R.key_in 0 self.now }
    {
        self.rows.iter()
    }

    /// The keys of the rows at a cell, ascending. It takes the logarithm of how many rows there are, and a step for
    /// each at the cell.
    pub fn of_cell(&self, alloc: Global, cell: Key) -> Result<Vec<Key>, AllocError>
        ensures keys { IfOk result (λ keys. keys.items
            ≡ map R.key_in (filter (λ r. is_number cell (R.cell_in r)) self.now)) }
        ensures order { Ascend R.key_in 0 self.now }
    {
        keys_under(alloc, cell, &self.cells)
    }

    /// The key of the first row at a cell. It takes the logarithm of how many rows there are.
    pub fn first_of_cell(&self, cell: Key) -> Option<Key>
        ensures { result ≡ option_map R.key_in (find (λ r. is_number cell (R.cell_in r)) self.now) }
    {
        first_under(cell, &self.cells)
    }

    /// Adds a row whose key none has. After a refusal nothing has changed. It takes the logarithm of how many rows
    /// there are where its key is greater than all; else a step for each row behind it too.
    pub fn add(&mut self, row: R) -> Result<(), AllocError>
        requires { find (λ r. R.key_in r == R.key_in row) self.old ≡ None }
        ensures ok { OnOk result (self.new ≡ with_row R.key_in row self.old) }
        ensures err { OnErr result (self.new ≡ self.old) }
    {
        let key = row.key();
        let cell = row.cell();
        self.rows.add(row)?;
        match put(&mut self.cells, cell, key) {
            Ok(()) => Ok(()),
            Err(AllocError) => {
                self.rows.remove(key);
                Err(AllocError)
            }
        }
    }

    /// Edits the row with this key where it stands, if there is one. It is found at the cell that it then has. After a
    /// refusal the rows are only dropped. It takes the logarithm of how many rows there are, and what the edit takes.
    pub fn edit<E: Edit<R>>(&mut self, alloc: Global, key: Key, edit: E) -> Result<(), AllocError>
        ensures { OnOk result (self.new ≡ with_edit R.key_in key (E.edits edit) self.old) }
    {
        let whole = mem::replace(self, Rows::empty(alloc));
        *self = whole.edited(key, edit)?;
        Ok(())
    }

    // These rows with one of them edited.
    fn edited<E: Edit<R>>(mut self, key: Key, edit: E) -> Result<Rows<R>, AllocError>
        ensures { IfOk result (λ edited. edited ≡ with_edit R.key_in key (E.edits edit) self) }
    {
        let before = cell_of(key, &self.rows);
        self.rows.edit(key, edit)?;
        let after = cell_of(key, &self.rows);
        shift(&mut self.cells, before, after, key)?;
        Ok(self)
    }

    /// Takes out the row with this key, if there is one. It takes the logarithm of how many rows there are, on
    /// average.
    pub fn take(&mut self, key: Key) -> Option<R>
        ensures row { result ≡ find (λ r. R.key_in r == key) self.old }
        ensures left { self.new ≡ without R.key_in key self.old }
        ensures order { Ascend R.key_in 0 self.old }
    {
        match self.rows.take(key) {
            Some(row) => {
                forget(&mut self.cells, row.cell(), key);
                Some(row)
            }
            None => None,
        }
    }
}

// The cell of the row with this key, if there is one and it stands at one.
fn cell_of<R: Kept>(key: Key, rows: &Table<R>) -> Option<Key>
    ensures { result ≡ option_and_then R.cell_in (find (λ r. R.key_in r == key) rows.now) }
{
    match rows.get(key) {
        Some(row) => row.cell(),
        None => None,
    }
}

// Keeps a key under the cell of its row as it is after an edit, where it was kept under the one before.
fn shift(
    cells: &mut BTreeSet<(Key, Key)>,
    before: Option<Key>,
    after: Option<Key>,
    key: Key,
) -> Result<(), AllocError>
    requires { (n : ℕ) → has_pair cells.old n key ≡ is_number n before }
    ensures { OnOk result ((n k : ℕ) → has_pair cells.new n k
        ≡ (if key == k then is_number n after else has_pair cells.old n k)) }
{
    if before == after {
        return Ok(());
    }
    forget(cells, before, key);
    put(cells, after, key)
}

// Keeps a key under a cell, if there is one. After a refusal nothing has changed.
fn put(cells: &mut BTreeSet<(Key, Key)>, cell: Option<Key>, key: Key) -> Result<(), AllocError>
    ensures ok { OnOk result ((n k : ℕ) → has_pair cells.new n k
        ≡ (if is_number n cell && (key == k) then true else has_pair cells.old n k)) }
    ensures err { OnErr result ((n k : ℕ) → has_pair cells.new n k ≡ has_pair cells.old n k) }
{
    if let Some(cell) = cell {
        cells.insert((cell, key))?;
    }
    Ok(())
}

// Keeps a key under a cell no more, if there is one.
fn forget(cells: &mut BTreeSet<(Key, Key)>, cell: Option<Key>, key: Key)
    ensures { (n k : ℕ) → has_pair cells.new n k
        ≡ (if is_number n cell && (key == k) then false else has_pair cells.old n k) }
{
    if let Some(cell) = cell {
        cells.remove(&(cell, key));
    }
}
