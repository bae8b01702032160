ghost use Rattle.std.specs.Prelude.{◌≡◌, ◌||◌, false, option_map};
ghost use Rattle.std.specs.Option.{option_copied, option_map_or};
ghost use Rattle.zb_tokens.specs.Board.{cell_at, is_root};
ghost use Rattle.zb_tokens.specs.MoveAssign.{has_name};
ghost use Rattle.zb_tokens.specs.Names.{holder_of, value_seen};

use zb_base::{Key, Value};
use zb_board::{Game, is_root};
use zb_table::Query;
use zb_tokens::{Cell, Phase};

/// The cell that has a name, from this one on up, or else the root; `None` where one of them isn't there. It goes
/// up the scopes, through the variables of each; a cell is found as by `Game::cell`.
pub fn holder_of(game: &Game, scope: Key, name: &str) -> Option<Key>
    ensures { result ≡ holder_of game.now scope name.now }
{
    let cell = game.nearest(scope, &IsHolder { name })?;
    Some(cell.key)
}

/// What a cell sees under a name: its value in the cell, or in the nearest one around it that has it. It goes up
/// the scopes, as `holder_of` does, and through the variables of the one that has it once more.
pub fn value_seen<'a>(game: &'a Game, scope: Key, name: &str) -> Option<&'a Value>
    ensures { option_copied result ≡ value_seen game.now scope name.now }
{
    let cell = game.nearest(scope, &HasName { name })?;
    cell.variables.get(name)
}

/// Whether a cell is there and has a variable with this name. It goes through the variables of the cell, which is
/// found as by `Game::cell`.
pub fn has_name(game: &Game, scope: Key, name: &str) -> bool
    ensures { result ≡ option_map_or (has_name name.now) (cell_at game.now scope) false }
{
    match game.cell(scope) {
        Some(cell) => cell_has_name(name, cell),
        None => false,
    }
}

/// Whether a cell is there and is a root. It is found as by `Game::cell`.
pub fn is_instance(game: &Game, key: Key) -> bool
    ensures { result ≡ option_map_or is_root (cell_at game.now key) false }
{
    match game.cell(key) {
        Some(cell) => is_root(cell),
        None => false,
    }
}

/// Where in its life a cell is. It is found as by `Game::cell`.
pub fn phase_of(game: &Game, key: Key) -> Option<Phase>
    ensures { result ≡ option_map (λ c. c.phase) (cell_at game.now key) }
{
    match game.cell(key) {
        Some(cell) => Some(cell.phase),
        None => None,
    }
}

/// Whether a cell has a variable with this name. It goes through its variables.
pub fn cell_has_name(name: &str, cell: &Cell) -> bool
    ensures { result ≡ has_name name.now cell.now }
{
    cell.variables.get(name).is_some()
}

// The same, as a question.
#[derive(Drop)]
struct HasName<'a> {
    name: &'a str,
}

impl<'a> Query<Cell> for HasName<'a> {
    ghost passes = { λ q c. has_name q.name.now c };

    fn passes(&self, cell: &Cell) -> bool {
        cell_has_name(self.name, cell)
    }
}

// Whether a value that is handed up under a name stays in a cell: it has the name, or is a root.
#[derive(Drop)]
struct IsHolder<'a> {
    name: &'a str,
}

impl<'a> Query<Cell> for IsHolder<'a> {
    ghost passes = { λ q c. has_name q.name.now c || is_root c };

    fn passes(&self, cell: &Cell) -> bool {
        cell_has_name(self.name, cell) || is_root(cell)
    }
}
