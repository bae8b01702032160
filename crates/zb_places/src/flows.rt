// The flows into a node.
ghost use Rattle.std.specs.Prelude.{◌≡◌, map};
ghost use Rattle.zb_tokens.specs.declared.board.Spot.TheVariants as spots;
ghost use Rattle.zb_tokens.specs.Board.{flows_in};
ghost use Rattle.zb_tokens.specs.MoveEnter.{stand_at_each};
ghost use Rattle.zb_places.specs.Places.{held_tokens};

use crate::standing::stands_on;
use zb_base::Key;
use zb_graph::Graph;
use zb_groups::Groups;
use zb_tokens::Token;

/// Whether flows lead into a node, and in a scope a token is on each of them. It goes through the flows up to the first
/// on which none is, and costs for each what `stands_on` does.
pub fn are_on_each(model: &Graph, scope: Key, node: &str, tokens: &Groups<Token>) -> bool
    ensures { result ≡ stand_at_each scope (map spots.OnFlow (flows_in model.now node.now)) (held_tokens tokens.now) }
{
    let numbers = model.ins_of(node);
    for number in numbers {
        if !stands_on(scope, model.flow(*number).id.as_str(), tokens) {
            return false;
        }
    }
    !numbers.is_empty()
}
