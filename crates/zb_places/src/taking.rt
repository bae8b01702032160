// Tokens that are taken away.
ghost use Rattle.std.specs.Prelude.{◌≡◌, ◌==◌, OnOk, filter, not};
ghost use Rattle.zb_places.specs.Places.{held_tokens, IsFewer, IsTokenTaken};

use crate::place::Place;
use crate::standing::first_at;
use std::alloc::{AllocError, Global};
use zb_base::Key;
use zb_groups::Groups;
use zb_tokens::Token;

/// Takes the first token at a place, if there is one, and tells its number. It costs what `first_at` does.
pub fn take_first(place: &Place, tokens: &mut Groups<Token>) -> Option<Key>
    ensures { IsTokenTaken place.now.scope place.now.spot tokens.old result tokens.new }
{
    match first_at(place, tokens) {
        Some(number) => {
            tokens.take(number);
            Some(number)
        }
        None => None,
    }
}

/// Takes the tokens in a scope. After a refusal nothing has changed. It costs what `Groups::take_group` does.
pub fn take_scope(alloc: Global, tokens: &mut Groups<Token>, scope: Key) -> Result<(), AllocError>
    ensures rows { OnOk result (tokens.new ≡ filter (λ h. not (h.row.scope == scope)) tokens.old) }
    ensures left { OnOk result (held_tokens tokens.new ≡ filter (λ t. not (t.scope == scope)) (held_tokens tokens.old)) }
    ensures fewer { OnOk result (IsFewer scope tokens.old tokens.new) }
{
    tokens.take_group(alloc, scope)
}
