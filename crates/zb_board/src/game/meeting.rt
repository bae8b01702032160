// Tokens that a new one meets.
ghost use Rattle.std.specs.Prelude.{◌≡◌, IfOk};
ghost use Rattle.std.specs.Option.{option_copied};
ghost use Rattle.zb_board.specs.Searches.{scope_model, AreMet};

use crate::Game;
use std::alloc::{AllocError, Global};
use zb_base::{Key, List};
use zb_graph::Graph;
use zb_groups::Groups;
use zb_places::met_by;
use zb_tokens::Token;

impl Game {
    // The model by which tokens move in a scope.
    pub(super) fn scope_model(&self, scope: Key) -> Option<&Graph>
        ensures { option_copied result ≡ scope_model self.now scope }
    {
        match self.cell(scope) {
            Some(cell) => self.model(cell.definition),
            None => None,
        }
    }
}

// The numbers of the tokens that are met by the one with a number, in a model, if there is one. It costs what `met_by`
// does.
pub(super) fn met_by_number(
    alloc: Global,
    model: Option<&Graph>,
    tokens: &Groups<Token>,
    number: Key,
) -> Result<List<Key>, AllocError>
    ensures { IfOk result (λ met. AreMet (option_copied model.entry) tokens.now number met) }
{
    match (model, tokens.get(number)) {
        (Some(model), Some(token)) => met_by(alloc, model, tokens, token),
        _ => Ok(List::empty(alloc)),
    }
}
