ghost use Rattle.std.specs.Prelude.{◌≡◌, IfOk, is_none};
ghost use Rattle.std.specs.Option.{option_copied};
ghost use Rattle.zb_tokens.specs.Forced.{goes_on_in, is_forced, next_mover};
ghost use Rattle.zb_game.specs.Searches.{is_forced_at, newest_key};

use crate::finish::acts;
use crate::open::opens;
use std::alloc::{AllocError, Global};
use zb_base::{Key, TryCopy};
use zb_board::{Game, error_of};
use zb_table::Query;
use zb_tokens::{Cell, Mover, Phase};

/// Who is forced to move next; `None` where the game is quiet. It costs what `is_quiet` does, and a copy of the
/// texts of a token.
pub fn next_mover(game: &Game, alloc: Global) -> Result<Option<Mover>, AllocError>
    ensures { IfOk result (λ mover. mover ≡ next_mover game.now) }
{
    match newest_key(game) {
        Some(key) => Ok(Some(Mover::Cell(key))),
        None => match game.first_entering() {
            Some(token) => Ok(Some(Mover::Token(token.copy(alloc)?))),
            None => Ok(None),
        },
    }
}

/// Whether nobody is forced to move. Where the keys ascend it goes through the cells that may go on by themselves or end
/// as they are called off, from the greatest key down to the first that is forced, and through no others; else through
/// all. Where no cell is forced it goes through the tokens that may enter by themselves, up to the first
/// that can; where the keys don't ascend, through all. To see whether a cell or a token moves costs what `fits` does.
pub fn is_quiet(game: &Game) -> bool
    ensures { result ≡ is_none (next_mover game.now) }
{
    newest_key(game).is_none() && game.first_entering().is_none()
}

// The greatest key of the cells that are forced. Where the keys ascend it is among the ready ones.
fn newest_key(game: &Game) -> Option<Key>
    ensures { result ≡ newest_key game.now }
{
    match game.ready() {
        Some(ready) => ready.last_key(&Forced { game }),
        None => game.cells().greatest(&ForcedCell { game }),
    }
}

// Whether the cell with a key is there, and is forced.
fn is_forced_at(game: &Game, key: Key) -> bool
    ensures { result ≡ is_forced_at game.now key }
{
    match game.cell(key) {
        Some(cell) => is_forced(game, cell),
        None => false,
    }
}

// Whether a cell is forced: it goes on by itself where it isn't stuck, or ends where it is doomed.
fn is_forced(game: &Game, cell: &Cell) -> bool
    ensures { result ≡ is_forced game.now cell.now }
{
    if game.is_doomed(cell) {
        game.ends(cell)
    } else {
        !game.is_stuck(cell) && goes_on_by_itself(game, cell)
    }
}

// Whether a cell goes on by itself.
#[tactic(auto, using(zb_board::proofs::AskingLemmas::compared))]
fn goes_on_by_itself(game: &Game, cell: &Cell) -> bool
    ensures { result ≡ goes_on_in game.now cell.now cell.now.phase }
{
    match cell.phase {
        Phase::Activating => opens(game, cell),
        Phase::Active => error_of(&cell.mark).is_some() || acts(game, cell),
        Phase::Completing => true,
        Phase::Leaving => !cell.owed.as_slice().is_empty(),
        Phase::Terminating => !game.has_child(cell.key),
    }
}

// Whether the cell with a key is forced in a game.
#[derive(Drop)]
struct Forced<'a> {
    game: &'a Game,
}

impl<'a> Query<Key> for Forced<'a> {
    ghost passes = { λ forced key. is_forced_at forced.game.now key };

    fn passes(&self, key: &Key) -> bool {
        let game = self.game;
        is_forced_at(game, *key)
    }
}

// Whether a cell is forced in a game.
#[derive(Drop)]
struct ForcedCell<'a> {
    game: &'a Game,
}

impl<'a> Query<Cell> for ForcedCell<'a> {
    ghost passes = { λ forced c. is_forced forced.game.now c };

    fn passes(&self, cell: &Cell) -> bool {
        let game = self.game;
        is_forced(game, cell)
    }
}
