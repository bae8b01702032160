// Where tokens stand.
ghost use Rattle.std.specs.Prelude.{◌≡◌, ◌==◌, option_map};
ghost use Rattle.std.specs.List.{list_any};
ghost use Rattle.zb_table.specs.Rows.{Ascend};
ghost use Rattle.zb_tokens.specs.declared.board.Spot.TheVariants as spots;
ghost use Rattle.zb_tokens.specs.Board.{spot_of};
ghost use Rattle.zb_tokens.specs.MoveEnter.{stands_at};
ghost use Rattle.zb_places.specs.Places.{first_there, held_tokens};

use crate::place::{Place, SpotRef};
use zb_base::Key;
use zb_groups::Groups;
use zb_tokens::Token;

/// Whether a token is in a scope. It takes the logarithm of how many tokens there are.
pub fn has_token_in(scope: Key, tokens: &Groups<Token>) -> bool
    ensures { result ≡ list_any (λ t. t.scope == scope) (held_tokens tokens.now) }
{
    tokens.has(scope)
}

/// The number of the first token at a place. It takes the logarithm of how many tokens there are, on average.
pub fn first_at(place: &Place, tokens: &Groups<Token>) -> Option<Key>
    ensures first { result ≡ option_map (λ h. h.number) (first_there place.now.scope place.now.spot tokens.now) }
    ensures order { Ascend (λ h. h.number) 0 tokens.now }
{
    tokens.first_at(place.number(), place)
}

/// Whether a token stands at a place. It costs what `first_at` does.
pub fn stands(place: &Place, tokens: &Groups<Token>) -> bool
    ensures { result ≡ list_any (stands_at place.now.scope place.now.spot) (held_tokens tokens.now) }
{
    first_at(place, tokens).is_some()
}

/// Whether a token in a scope comes to a node by a flow, or stands before it where there is none. It costs what `first_at`
/// does.
pub fn stands_coming(scope: Key, node: &str, via: &str, tokens: &Groups<Token>) -> bool
    ensures { result ≡ list_any (stands_at scope (spot_of via.now node.now)) (held_tokens tokens.now) }
{
    let spot = SpotRef::coming(node, via);
    stands(&Place { scope, spot }, tokens)
}

/// Whether a token in a scope is on a flow. It costs what `first_at` does.
pub fn stands_on(scope: Key, flow: &str, tokens: &Groups<Token>) -> bool
    ensures { result ≡ list_any (stands_at scope (spots.OnFlow flow.now)) (held_tokens tokens.now) }
{
    let spot = SpotRef::on(flow);
    stands(&Place { scope, spot }, tokens)
}
