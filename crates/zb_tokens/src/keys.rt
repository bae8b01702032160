// What is found by its key, by its scope, and by its spot.
ghost use Rattle.std.specs.Prelude.{◌≡◌};
ghost use Rattle.zb_tokens.specs.Places.{id_of, place_number};

use crate::{Cell, Deployed, Incident, Spot, Token};
use zb_base::{Key, hash_of};
use zb_groups::Grouped;
use zb_table::Row;

impl Row for Cell {
    ghost key_in = { λ c. c.key };

    fn key(&self) -> Key {
        self.key
    }
}

impl Row for Deployed {
    ghost key_in = { λ d. d.key };

    fn key(&self) -> Key {
        self.key
    }
}

impl Row for Incident {
    ghost key_in = { λ i. i.key };

    fn key(&self) -> Key {
        self.key
    }
}

impl Grouped for Token {
    ghost group_in = { λ t. t.scope };

    ghost place_in = { λ t. place_number t.scope (id_of t.spot) };

    fn group(&self) -> Key {
        self.scope
    }

    fn place(&self) -> Key {
        place_number(self.scope, id_of(&self.spot))
    }
}

/// A number of the spots in a scope that have an id: the same for the same ones, and mostly another one for others. It
/// takes a step for each byte of the id.
pub fn place_number(scope: Key, id: &str) -> Key
    ensures { result ≡ place_number scope id.now }
{
    let low = scope.number() % (1 << 32);
    Key::new(low * (1 << 32) + u64::from(hash_of(id.as_bytes())))
}

// The id of the flow on which a spot is, or of the node before which it is.
fn id_of(spot: &Spot) -> &str
    ensures { result.now ≡ id_of spot.now }
{
    match spot {
        Spot::OnFlow(flow) => flow.as_str(),
        Spot::BeforeNode(node) => node.as_str(),
    }
}
