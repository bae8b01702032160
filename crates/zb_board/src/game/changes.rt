// How cells change on the board, and with them what is kept beside the board. Where memory runs out halfway, what is
// kept counts no more.
ghost use Rattle.std.specs.Prelude.{◌≡◌, ℕ, true, false, ◌==◌, ◌++◌, ◌∷◌, [], ◌<◌, Some, None, IsTrue, OnOk, IsErrOf, option_map};
ghost use Rattle.std.specs.Option.{option_map_or};
ghost use Rattle.zb_table.specs.Rows.{are_below};
ghost use Rattle.zb_tokens.specs.declared.board.Phase.TheVariants as phases;
ghost use Rattle.zb_tokens.specs.Board.{in_phase, is_phase};
ghost use Rattle.zb_tokens.specs.Doom.{calls_off};
ghost use Rattle.zb_tokens.specs.Edits.{edited};
ghost use Rattle.zb_tokens.specs.Marks.{with_mark};
ghost use Rattle.zb_tokens.specs.MoveAssign.{with_variable};
ghost use Rattle.zb_tokens.specs.MoveInner.{one_taken};
ghost use Rattle.zb_tokens.specs.MoveLeave.{with_end, noted_finished};
ghost use Rattle.zb_tokens.specs.MoveOpen.{with_items};
ghost use Rattle.zb_tokens.specs.MoveUndo.{one_undone};
ghost use Rattle.zb_board.specs.Below.{HasBelow};
ghost use Rattle.zb_board.specs.Indexed.{is_kept, StaysThere};
ghost use Rattle.zb_tokens.specs.declared.board.Cell.{Cell};

use crate::below::wake_below;
use crate::edits::{
    InPhase, OneTaken, OneUndone, WithEnd, WithFinished, WithItems, WithMark, WithVariable,
};
use crate::keys::keep;
use crate::{Game, GameFault};
use std::alloc::{AllocError, Global};
use std::collections::BTreeSet;
use zb_arrivals::Arrivals;
use zb_base::{Key, List, Text, Value};
use zb_table::{Edit, Table};
use zb_tokens::{Cell, Mark, Phase};

impl Game {
    /// Adds a cell, which doesn't call off what is in it. It may go on by itself, and its scope may rest then. After a
    /// refusal the game is only dropped. It takes the logarithm of how many cells there are, on average.
    pub fn add_cell(&mut self, cell: Cell) -> Result<(), AllocError>
        requires { calls_off cell ≡ false }
        ensures { OnOk result (self.new ≡ record self.old { cells = self.old.cells ++ cell ∷ [] }) }
    {
        let key = cell.key;
        let scope = cell.scope;
        let ascends = self.ascends && comes_newest(key, scope, &self.cells);
        self.ascends = false;
        self.cells.push(cell)?;
        self.children.insert((scope, key))?;
        keep(&mut self.ready, key)?;
        self.ascends = ascends;
        self.look_at(scope);
        Ok(())
    }

    /// Puts a cell in another phase, owing these flows. It may go on by itself, and where it terminates, so may the cells
    /// below it. `Illegal` says that the cell isn't there, and nothing has changed; after `Memory` the game is only
    /// dropped. The cell is found as by `cell`; for each below one that terminates it takes the logarithm of how many
    /// cells there are.
    pub fn put_in_phase(
        &mut self,
        alloc: Global,
        key: Key,
        phase: Phase,
        owed: List<Text>,
    ) -> Result<(), GameFault>
        ensures put { OnOk result (option_map (λ cells. record self.old { cells = cells }) (edited (λ c. c.key == key) (in_phase phase owed) self.old.cells) ≡ Some self.new) }
        ensures none { IsErrOf result GameFault.Illegal → edited (λ c. c.key == key) (in_phase phase owed) self.old.cells ≡ None }
        ensures kept { IsErrOf result GameFault.Illegal → self.new ≡ self.old }
    {
        if self.cell(key).is_none() {
            return Err(GameFault::Illegal);
        }
        let ascends = self.ascends;
        self.ascends = false;
        keep(&mut self.ready, key)?;
        note_phase(
            alloc,
            &mut self.ready,
            &mut self.calling,
            &self.children,
            key,
            phase,
        )?;
        self.cells.edit(key, InPhase { phase, owed })?;
        self.ascends = ascends;
        Ok(())
    }

    /// Tells a cell something. It may go on by itself. It answers and costs what `put_in_phase` does.
    pub fn put_mark(&mut self, key: Key, mark: Mark) -> Result<(), GameFault>
        ensures put { OnOk result (option_map (λ cells. record self.old { cells = cells }) (edited (λ c. c.key == key) (with_mark mark) self.old.cells) ≡ Some self.new) }
        ensures none { IsErrOf result GameFault.Illegal → edited (λ c. c.key == key) (with_mark mark) self.old.cells ≡ None }
        ensures kept { IsErrOf result GameFault.Illegal → self.new ≡ self.old }
    {
        self.change(key, WithMark { mark })
    }

    /// Makes a cell active, which keeps these items. It may go on by itself. It answers and costs what `put_in_phase`
    /// does.
    pub fn put_items(&mut self, key: Key, items: List<i64>) -> Result<(), GameFault>
        ensures put { OnOk result (option_map (λ cells. record self.old { cells = cells }) (edited (λ c. c.key == key) (with_items items) self.old.cells) ≡ Some self.new) }
        ensures none { IsErrOf result GameFault.Illegal → edited (λ c. c.key == key) (with_items items) self.old.cells ≡ None }
        ensures kept { IsErrOf result GameFault.Illegal → self.new ≡ self.old }
    {
        self.change(key, WithItems { items })
    }

    /// Takes one more of a cell's items. It may go on by itself. It answers and costs what `put_in_phase` does.
    pub fn put_taken(&mut self, key: Key) -> Result<(), GameFault>
        ensures put { OnOk result (option_map (λ cells. record self.old { cells = cells }) (edited (λ c. c.key == key) one_taken self.old.cells) ≡ Some self.new) }
        ensures none { IsErrOf result GameFault.Illegal → edited (λ c. c.key == key) one_taken self.old.cells ≡ None }
        ensures kept { IsErrOf result GameFault.Illegal → self.new ≡ self.old }
    {
        self.change(key, OneTaken)
    }

    /// Puts an activity that has finished at the end of those that can be undone in a cell, if that is there. After a
    /// refusal the game is only dropped. It costs what `put_in_phase` does.
    pub fn put_finished(&mut self, key: Key, node: Text) -> Result<(), AllocError>
        ensures { OnOk result (self.new ≡ noted_finished key node self.old) }
    {
        match self.change(key, WithFinished { node }) {
            Ok(()) => Ok(()),
            Err(GameFault::Illegal) => Ok(()),
            Err(GameFault::Memory) => Err(AllocError),
        }
    }

    /// Takes away the last activity of those that can be undone in a cell. It may go on by itself. It answers and
    /// costs what `put_in_phase` does.
    pub fn put_undone(&mut self, alloc: Global, key: Key) -> Result<(), GameFault>
        ensures put { OnOk result (option_map (λ cells. record self.old { cells = cells }) (edited (λ c. c.key == key) one_undone self.old.cells) ≡ Some self.new) }
        ensures none { IsErrOf result GameFault.Illegal → edited (λ c. c.key == key) one_undone self.old.cells ≡ None }
        ensures kept { IsErrOf result GameFault.Illegal → self.new ≡ self.old }
    {
        self.change(key, OneUndone { alloc })
    }

    // Makes something of a cell that stays where it is, and calls off no more than before. It may go on by itself.
    fn change<E: Edit<Cell>>(&mut self, key: Key, edit: E) -> Result<(), GameFault>
        requires { (c : Cell) → StaysThere c (E.edits edit c) }
        ensures put { OnOk result (option_map (λ cells. record self.old { cells = cells }) (edited (λ c. c.key == key) (E.edits edit) self.old.cells) ≡ Some self.new) }
        ensures none { IsErrOf result GameFault.Illegal → edited (λ c. c.key == key) (E.edits edit) self.old.cells ≡ None }
        ensures kept { IsErrOf result GameFault.Illegal → self.new ≡ self.old }
    {
        if self.cell(key).is_none() {
            return Err(GameFault::Illegal);
        }
        let ascends = self.ascends;
        self.ascends = false;
        keep(&mut self.ready, key)?;
        self.cells.edit(key, edit)?;
        self.ascends = ascends;
        Ok(())
    }

    /// Ends a cell, if it is there: what is in it is called off, so that the cells below it may go on. After a refusal
    /// the game is only dropped. The cell is found as by `cell`; for each below it it takes the logarithm of how many
    /// cells there are.
    pub fn put_ending(&mut self, alloc: Global, key: Key) -> Result<(), AllocError>
        ensures { OnOk result (self.new ≡ record self.old { cells = option_map_or (λ cells. cells) (edited (λ c. c.key == key) with_end self.old.cells) self.old.cells }) }
    {
        if self.cell(key).is_none() {
            return Ok(());
        }
        let ascends = self.ascends;
        self.ascends = false;
        call_off(
            alloc,
            &mut self.ready,
            &mut self.calling,
            &self.children,
            key,
        )?;
        self.cells.edit(key, WithEnd)?;
        self.ascends = ascends;
        Ok(())
    }

    /// Gives a cell a variable. It goes through the variables of the cell, and answers as `put_in_phase` does.
    pub fn put_variable(&mut self, key: Key, name: Text, value: Value) -> Result<(), GameFault>
        ensures put { OnOk result (option_map (λ cells. record self.old { cells = cells }) (edited (λ c. c.key == key) (with_variable name value) self.old.cells) ≡ Some self.new) }
        ensures none { IsErrOf result GameFault.Illegal → edited (λ c. c.key == key) (with_variable name value) self.old.cells ≡ None }
        ensures kept { IsErrOf result GameFault.Illegal → self.new ≡ self.old }
    {
        if self.cell(key).is_none() {
            return Err(GameFault::Illegal);
        }
        let ascends = self.ascends;
        self.ascends = false;
        self.cells.edit(key, WithVariable { name, value })?;
        self.ascends = ascends;
        Ok(())
    }
}

// Whether a cell with this key in this scope comes behind all others, and is newer than its scope.
pub(super) fn comes_newest(key: Key, scope: Key, cells: &Arrivals<Cell>) -> bool
    ensures below { IsTrue result → are_below (λ c. c.key) key cells.now ≡ true }
    ensures newer { IsTrue result → scope < key }
{
    scope < key && cells.comes_last(key)
}

// Notes that a cell calls off what is in it where it is put in a phase that does.
fn note_phase(
    alloc: Global,
    ready: &mut Table<Key>,
    calling: &mut Table<Key>,
    children: &BTreeSet<(Key, Key)>,
    key: Key,
    phase: Phase,
) -> Result<(), AllocError>
    ensures noted { OnOk result (is_phase phase phases.Terminating ≡ true → is_kept calling.new key ≡ true) }
    ensures others { OnOk result ((other : ℕ) → is_kept calling.old other ≡ true → is_kept calling.new other ≡ true) }
    ensures still { OnOk result ((other : ℕ) → is_kept ready.old other ≡ true → is_kept ready.new other ≡ true) }
    ensures woken { OnOk result (is_phase phase phases.Terminating ≡ true → HasBelow children.now.keys key ready.new) }
{
    if phase == Phase::Terminating {
        call_off(alloc, ready, calling, children, key)
    } else {
        Ok(())
    }
}

// Puts a cell among those that call off what is in them, and the cells below it among the ready ones.
fn call_off(
    alloc: Global,
    ready: &mut Table<Key>,
    calling: &mut Table<Key>,
    children: &BTreeSet<(Key, Key)>,
    key: Key,
) -> Result<(), AllocError>
    ensures noted { OnOk result (is_kept calling.new key ≡ true) }
    ensures others { OnOk result ((other : ℕ) → is_kept calling.old other ≡ true → is_kept calling.new other ≡ true) }
    ensures still { OnOk result ((other : ℕ) → is_kept ready.old other ≡ true → is_kept ready.new other ≡ true) }
    ensures woken { OnOk result (HasBelow children.now.keys key ready.new) }
{
    keep(calling, key)?;
    wake_below(alloc, ready, children, key)
}
