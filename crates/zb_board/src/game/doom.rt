ghost use Rattle.std.specs.Prelude.{◌≡◌, true, false, All};
ghost use Rattle.zb_tokens.specs.Doom.{calls_off, is_called_off, is_doomed};
ghost use Rattle.zb_tokens.specs.Forced.{ends_in};
ghost use Rattle.zb_board.specs.Indexed.{is_ending};

use crate::Game;
use zb_base::Key;
use zb_table::Query;
use zb_tokens::{Cell, Phase};

impl Game {
    /// Whether a cell or one above it calls off what is in it. It goes up the scopes; it takes constant time where no
    /// cell is kept that does.
    pub fn is_called_off(&self, key: Key) -> bool
        ensures { result ≡ is_called_off self.now key }
    {
        !self.has_none_calling() && self.nearest(key, &CallsOff).is_some()
    }

    /// Whether it is known that no cell calls off what is in it. It takes constant time.
    pub fn has_none_calling(&self) -> bool
        ensures { result ≡ true → All (λ c. calls_off c ≡ false) self.now.cells }
    {
        self.ascends && !self.calling.any(&Each)
    }

    /// Whether a cell above this one calls it off. It costs what `is_called_off` does.
    pub fn is_doomed(&self, cell: &Cell) -> bool
        ensures { result ≡ is_doomed self.now cell.now }
    {
        self.is_called_off(cell.scope)
    }

    // Whether a cell is called off, and ends in its phase.
    pub(super) fn is_ending(&self, cell: &Cell) -> bool
        ensures { result ≡ is_ending self.now cell.now }
    {
        self.is_doomed(cell) && self.ends(cell)
    }

    /// Whether a cell ends in its phase where it is called off. It costs what `has_child` does.
    pub fn ends(&self, cell: &Cell) -> bool
        ensures { result ≡ ends_in self.now cell.now cell.now.phase }
    {
        match cell.phase {
            Phase::Leaving => false,
            Phase::Terminating => !self.has_child(cell.key),
            Phase::Activating | Phase::Active | Phase::Completing => true,
        }
    }
}

// Whether a cell is terminating, or a terminate end event ends it.
struct CallsOff;

impl Query<Cell> for CallsOff {
    ghost passes = { λ _ c. calls_off c };

    fn passes(&self, cell: &Cell) -> bool {
        cell.phase == Phase::Terminating || cell.ending
    }
}

// Each key.
struct Each;

impl Query<Key> for Each {
    ghost passes = { λ _ _. true };

    fn passes(&self, _key: &Key) -> bool {
        true
    }
}
