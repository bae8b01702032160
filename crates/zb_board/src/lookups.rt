// What is looked for on a board.
ghost use Rattle.std.specs.Prelude.{◌≡◌, ◌==◌};
ghost use Rattle.zb_tokens.specs.Board.{leaves_in};

use zb_base::Key;
use zb_table::Query;
use zb_tokens::{Cell, Incident, Phase};

/// Whether a cell is in this scope.
#[derive(Drop)]
pub struct In {
    pub scope: Key,
}

impl Query<Cell> for In {
    ghost passes = { λ q c. c.scope == q.scope };

    fn passes(&self, cell: &Cell) -> bool {
        cell.scope == self.scope
    }
}

/// Whether a cell leaves, and is in this scope.
#[derive(Drop)]
pub struct LeavingIn {
    pub scope: Key,
}

impl Query<Cell> for LeavingIn {
    ghost passes = { λ q c. leaves_in q.scope c };

    fn passes(&self, cell: &Cell) -> bool {
        cell.scope == self.scope && cell.phase == Phase::Leaving
    }
}

/// Whether an incident stands on this cell.
#[derive(Drop)]
pub struct On {
    pub cell: Key,
}

impl Query<Incident> for On {
    ghost passes = { λ q i. i.cell == q.cell };

    fn passes(&self, incident: &Incident) -> bool {
        incident.cell == self.cell
    }
}
