// Going up the scopes.
ghost use Rattle.std.specs.Prelude.{◌≡◌};
ghost use Rattle.std.specs.Option.{option_copied};
ghost use Rattle.zb_tokens.specs.Board.{nearest};

use crate::Game;
use zb_base::Key;
use zb_table::Query;
use zb_tokens::Cell;

impl Game {
    /// The nearest cell that passes, from the one with a key on up. It goes up the scopes to it; each cell is found as by
    /// `cell`.
    pub fn nearest<Q: Query<Cell>>(&self, key: Key, query: &Q) -> Option<&Cell>
        ensures { option_copied result ≡ nearest (Q.passes query.now) self.now key }
    {
        let mut key = key;
        for _step in 0..self.cells.len() {
            let Some(cell) = self.cell(key) else {
                return None;
            };
            if query.passes(cell) {
                return Some(cell);
            }
            key = cell.scope;
        }
        None
    }
}
