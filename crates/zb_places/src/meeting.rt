// Which tokens may enter a node at which flows join, once a token has come to it.
ghost use Rattle.std.specs.Prelude.{◌≡◌, ℕ, All, true, false, Some, OnOk, IfOk, filter};
ghost use Rattle.std.specs.Str.{bytes_eq};
ghost use Rattle.zb_groups.specs.declared.held.Held.{Held};
ghost use Rattle.zb_tokens.specs.declared.board.Token.{Token as TokenSeen};
ghost use Rattle.zb_tokens.specs.Board.{is_spot};
ghost use Rattle.zb_places.specs.Places.{comes_in, counts_for, first_there, held_tokens, is_kept, IsFirst, IsMetAt};

use crate::coming::{has_come, joins};
use crate::place::{Place, SpotRef};
use crate::standing::first_at;
use std::alloc::{AllocError, Global};
use zb_base::{Key, List};
use zb_graph::Graph;
use zb_groups::Groups;
use zb_tokens::{Spot, Token};

/// Of the tokens in the scope of one the numbers of those that are first at their spots, need it to enter their node, and
/// can; those at its own spot left out. Where flows join that it is on, it goes through these, and costs for each what
/// `first_at` does.
pub fn met_by(
    alloc: Global,
    model: &Graph,
    tokens: &Groups<Token>,
    token: &Token,
) -> Result<List<Key>, AllocError>
    ensures { IfOk result (λ met. (h : Held TokenSeen) → IsFirst tokens.now h → h.row.scope ≡ token.now.scope → is_spot h.row.spot token.now.spot ≡ false
        → counts_for model.now token.now.spot h.row ≡ true → comes_in model.now (held_tokens tokens.now) h.row ≡ true → is_kept met h.number ≡ true) }
{
    let mut met = List::empty(alloc);
    let scope = token.scope;
    match &token.spot {
        Spot::OnFlow(id) => meet_on(model, tokens, scope, id.as_str(), &mut met)?,
        // what is on a flow without an id counts as before its node
        Spot::BeforeNode(_) => {
            let spot = SpotRef::on("");
            meet(&Place { scope, spot }, tokens, &mut met)?;
        }
    }
    Ok(met)
}

// Adds the numbers of those that are met by one on a flow.
fn meet_on(
    model: &Graph,
    tokens: &Groups<Token>,
    scope: Key,
    id: &str,
    met: &mut List<Key>,
) -> Result<(), AllocError>
    ensures { OnOk result (All (λ f. IsMetAt model.now tokens.now scope f.to met.new) (filter (λ f. bytes_eq f.id id.now) model.now.flows)) }
{
    for number in model.flows_with(id) {
        meet_at(model, tokens, scope, model.flow(*number).to.as_str(), met)?;
    }
    Ok(())
}

// Where flows join at a node, and tokens have come to it: adds the number of the first token on each of the flows, and
// of the first before it.
fn meet_at(
    model: &Graph,
    tokens: &Groups<Token>,
    scope: Key,
    node: &str,
    met: &mut List<Key>,
) -> Result<(), AllocError>
    ensures here { OnOk result (IsMetAt model.now tokens.now scope node.now met.new) }
    ensures still { OnOk result ((number : ℕ) → is_kept met.old number ≡ true → is_kept met.new number ≡ true) }
{
    if !joins(model, node) || !has_come(model, tokens, scope, node, "") {
        return Ok(());
    }
    for number in model.ins_of(node) {
        let spot = SpotRef::on(model.flow(*number).id.as_str());
        meet(&Place { scope, spot }, tokens, met)?;
    }
    let spot = SpotRef::before(node);
    meet(&Place { scope, spot }, tokens, met)?;
    Ok(())
}

// Adds the number of the first token at a place, if there is one.
fn meet(place: &Place, tokens: &Groups<Token>, met: &mut List<Key>) -> Result<(), AllocError>
    ensures here { OnOk result ((h : Held TokenSeen) → first_there place.now.scope place.now.spot tokens.now ≡ Some h → is_kept met.new h.number ≡ true) }
    ensures still { OnOk result ((number : ℕ) → is_kept met.old number ≡ true → is_kept met.new number ≡ true) }
{
    match first_at(place, tokens) {
        Some(number) => met.push(number),
        None => Ok(()),
    }
}
