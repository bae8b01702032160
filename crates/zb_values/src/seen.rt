// What cells see, and the values of expressions, as a cell sees the names in them.
ghost use Rattle.std.specs.Prelude.{◌≡◌, IfOk};
ghost use Rattle.std.specs.Option.{option_copied};
ghost use Rattle.zb_process.specs.Expr.{value_of};
ghost use Rattle.zb_expr.specs.Outcome.{Evaluates};
ghost use Rattle.zb_tokens.specs.Catches.{seen_with};
ghost use Rattle.zb_tokens.specs.Names.{value_seen, visible};

use crate::lasts::last_value;
use crate::names::value_seen;
use crate::unseen::add_unseen;
use std::alloc::{AllocError, Global};
use zb_base::{Key, Value, Variable, Vars};
use zb_board::Game;
use zb_expr::{Code, Env, EvalFault, run};

/// What a cell of a game sees.
#[derive(Drop)]
pub struct Seen<'a> {
    pub game: &'a Game,
    pub cell: Key,
}

impl<'a> Env for Seen<'a> {
    ghost values = { λ seen name. value_seen seen.game.now seen.cell name };

    fn look(&self, name: &str) -> Option<&Value> {
        let game = self.game;
        value_seen(game, self.cell, name)
    }
}

/// What a cell of a game sees once these variables are set in it.
#[derive(Drop)]
pub struct SeenWith<'a> {
    pub variables: &'a [Variable],
    pub game: &'a Game,
    pub cell: Key,
}

impl<'a> Env for SeenWith<'a> {
    ghost values = { λ seen name. seen_with seen.variables.now (value_seen seen.game.now seen.cell) name };

    fn look(&self, name: &str) -> Option<&Value> {
        let game = self.game;
        match last_value(self.variables, name) {
            Some(value) => Some(value),
            None => value_seen(game, self.cell, name),
        }
    }
}

/// The value of an expression, as a cell sees its names. For each of them it goes up the scopes.
pub fn value_at(alloc: Global, game: &Game, cell: Key, code: &Code) -> Result<Value, EvalFault>
    ensures { Evaluates result (value_of (value_seen game.now cell) code.now) }
{
    let seen = Seen { game, cell };
    run(alloc, code, &seen)
}

/// The variables that a cell sees: each name that it or a cell around it has, with the value in the nearest one. It
/// goes up the scopes, and for each variable there through those that are seen so far; a cell is found as by
/// `Game::cell`.
pub fn visible(game: &Game, alloc: Global, cell: Key) -> Result<Vars, AllocError>
    ensures { IfOk result (λ vars. vars ≡ visible game.now cell) }
{
    let mut vars = Vars::empty(alloc);
    let mut key = cell;
    for _step in 0..game.cells().len() {
        let Some(around) = game.cell(key) else {
            return Ok(vars);
        };
        add_unseen(alloc, around.variables.as_slice(), &mut vars)?;
        key = around.scope;
    }
    Ok(vars)
}
