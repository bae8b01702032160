// What moves put on a board, and what they make of cells.
ghost use Rattle.std.specs.Prelude.{◌≡◌};
ghost use Rattle.zb_tokens.specs.Board.{in_phase, new_cell};
ghost use Rattle.zb_tokens.specs.Marks.{with_mark};
ghost use Rattle.zb_tokens.specs.MoveAssign.{with_variable};
ghost use Rattle.zb_tokens.specs.MoveInner.{one_taken};
ghost use Rattle.zb_tokens.specs.MoveLeave.{with_end, with_finished};
ghost use Rattle.zb_tokens.specs.MoveOpen.{with_items};
ghost use Rattle.zb_tokens.specs.MoveUndo.{one_undone};

use std::alloc::{AllocError, Global};
use std::mem::replace;
use zb_base::{Key, List, Text, Value, Vars};
use zb_instance_records::Role;
use zb_table::Edit;
use zb_tokens::{Cell, Mark, Phase};

/// A cell that begins. It takes no memory.
pub fn new_cell(
    alloc: Global,
    key: Key,
    scope: Key,
    definition: Key,
    node: Text,
    role: Role,
    before: bool,
) -> Cell
    ensures { result ≡ new_cell key scope definition node role before }
{
    Cell {
        key,
        scope,
        definition,
        node,
        role,
        phase: Phase::Activating,
        mark: Mark::Unset,
        before,
        items: List::empty(alloc),
        taken: 0,
        owed: List::empty(alloc),
        finished: List::empty(alloc),
        ending: false,
        variables: Vars::empty(alloc),
    }
}

/// A cell gets into a phase, and owes these flows.
#[derive(Drop)]
pub struct InPhase {
    pub phase: Phase,
    pub owed: List<Text>,
}

impl Edit<Cell> for InPhase {
    ghost edits = { λ e c. in_phase e.phase e.owed c };

    fn edit(self, mut row: Cell) -> Result<Cell, AllocError> {
        row.phase = self.phase;
        row.owed = self.owed;
        Ok(row)
    }
}

/// A cell is told something.
#[derive(Drop)]
pub struct WithMark {
    pub mark: Mark,
}

impl Edit<Cell> for WithMark {
    ghost edits = { λ e c. with_mark e.mark c };

    fn edit(self, mut row: Cell) -> Result<Cell, AllocError> {
        row.mark = self.mark;
        Ok(row)
    }
}

/// A cell becomes active, and keeps these items.
#[derive(Drop)]
pub struct WithItems {
    pub items: List<i64>,
}

impl Edit<Cell> for WithItems {
    ghost edits = { λ e c. with_items e.items c };

    fn edit(self, mut row: Cell) -> Result<Cell, AllocError> {
        row.phase = Phase::Active;
        row.items = self.items;
        Ok(row)
    }
}

/// One more of a cell's items is taken. A count at its type's end counts as want of memory.
#[derive(Drop)]
pub struct OneTaken;

impl Edit<Cell> for OneTaken {
    ghost edits = { λ _ c. one_taken c };

    fn edit(self, mut row: Cell) -> Result<Cell, AllocError> {
        match row.taken.checked_add(1) {
            Some(taken) => {
                row.taken = taken;
                Ok(row)
            }
            None => Err(AllocError),
        }
    }
}

/// A cell is ended: what is in it is called off.
#[derive(Drop)]
pub struct WithEnd;

impl Edit<Cell> for WithEnd {
    ghost edits = { λ _ c. with_end c };

    fn edit(self, mut row: Cell) -> Result<Cell, AllocError> {
        row.ending = true;
        Ok(row)
    }
}

/// An activity has finished in a cell that can be undone.
#[derive(Drop)]
pub struct WithFinished {
    pub node: Text,
}

impl Edit<Cell> for WithFinished {
    ghost edits = { λ e c. with_finished e.node c };

    fn edit(self, mut row: Cell) -> Result<Cell, AllocError> {
        row.finished.push(self.node)?;
        Ok(row)
    }
}

/// The activity that finished last in a cell is being undone.
#[derive(Drop)]
pub struct OneUndone {
    pub alloc: Global,
}

impl Edit<Cell> for OneUndone {
    ghost edits = { λ _ c. one_undone c };

    fn edit(self, mut row: Cell) -> Result<Cell, AllocError> {
        let mut finished = replace(&mut row.finished, List::empty(self.alloc)).into_vec();
        finished.truncate(finished.len().saturating_sub(1));
        row.finished = List::from_vec(finished);
        Ok(row)
    }
}

/// A cell gets a variable. It goes through the variables of the cell.
#[derive(Drop)]
pub struct WithVariable {
    pub name: Text,
    pub value: Value,
}

impl Edit<Cell> for WithVariable {
    ghost edits = { λ e c. with_variable e.name e.value c };

    fn edit(self, mut row: Cell) -> Result<Cell, AllocError> {
        row.variables.put(self.name, self.value)?;
        Ok(row)
    }
}
