ghost use Rattle.std.specs.Prelude.{◌≡◌, ◌∷◌, [], Some, None, IfOk, OnOk, IsErrOf};
ghost use Rattle.std.specs.Option.{option_map_or};
ghost use Rattle.zb_tokens.specs.Board.{scope_id};
ghost use Rattle.zb_tokens.specs.Edits.{is_none_of};
ghost use Rattle.zb_tokens.specs.MoveOpen.{fits_open, first_tokens, opens, play_open};

use std::alloc::Global;
use zb_base::TryCopy;
use zb_board::{Game, GameFault, holds_tokens, is_body, is_root};
use zb_tokens::{Cell, Open, Phase, Spot, Token};

/// Whether a cell may become active, with these items.
pub fn fits_open(game: &Game, opening: &Open) -> bool
    ensures { result ≡ fits_open game.now opening.now }
{
    match game.cell(opening.key) {
        Some(cell) => {
            cell.phase == Phase::Activating
                && opens(game, cell)
                && (is_body(cell) || has_none(opening))
        }
        None => false,
    }
}

// Whether there are no items.
#[tactic(auto, using(zb_board::proofs::AskingLemmas::compared))]
fn has_none(opening: &Open) -> bool
    ensures { result ≡ is_none_of opening.now.items }
{
    opening.items.as_slice().is_empty()
}

/// Whether the model of a cell is there.
pub fn opens(game: &Game, cell: &Cell) -> bool
    ensures { result ≡ opens game.now cell.now }
{
    game.model(cell.definition).is_some()
}

/// Plays that a cell becomes active, and keeps its items.
pub fn open(game: &mut Game, alloc: Global, opening: Open) -> Result<(), GameFault>
    ensures played { OnOk result (play_open game.old opening ≡ Some game.new) }
    ensures illegal { IsErrOf result GameFault.Illegal → play_open game.old opening ≡ None }
    ensures kept { IsErrOf result GameFault.Illegal → game.new ≡ game.old }
{
    let Open { key, items } = opening;
    let Some(cell) = game.cell(key) else {
        return Err(GameFault::Illegal);
    };
    let token = first_token(game, alloc, cell)?;
    game.put_items(key, items)?;
    match token {
        Some(token) => {
            game.add_token(alloc, token)?;
            Ok(())
        }
        None => {
            game.look_at(key);
            Ok(())
        }
    }
}

// The token that this cell gets as it opens, if it gets one.
fn first_token(game: &Game, alloc: Global, cell: &Cell) -> Result<Option<Token>, GameFault>
    ensures known { IfOk result (λ token. first_tokens game.now cell.now ≡ Some (option_map_or (λ t. t ∷ []) token [])) }
    ensures none { IsErrOf result GameFault.Illegal → first_tokens game.now cell.now ≡ None }
{
    let Some(model) = game.model(cell.definition) else {
        return Err(GameFault::Illegal);
    };
    if !holds_tokens(model, cell) {
        return Ok(None);
    }
    let Some(start) = model.start_in(scope_id(cell)) else {
        return Ok(None);
    };
    let id = start.id.copy(alloc)?;
    Ok(Some(Token {
        scope: cell.key,
        spot: Spot::BeforeNode(id),
    }))
}

// The id of a scope, which its nodes have as their parent.
fn scope_id(cell: &Cell) -> &str
    ensures { result.now ≡ scope_id cell.now }
{
    if is_root(cell) {
        ""
    } else {
        cell.node.as_str()
    }
}
