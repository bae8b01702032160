// Spots that are only looked at.
ghost use Rattle.std.specs.Prelude.{◌≡◌};
ghost use Rattle.zb_tokens.specs.declared.board.Spot.TheVariants as spots;
ghost use Rattle.zb_tokens.specs.Board.{is_spot, spot_of};
ghost use Rattle.zb_tokens.specs.MoveEnter.{stands_at};
ghost use Rattle.zb_tokens.specs.Places.{id_of, place_number};

use std::marker::Model;
use zb_base::Key;
use zb_table::Query;
use zb_tokens::{Spot, Token, place_number};

/// A spot whose id is lent. Contracts see the spot.
#[derive(Drop)]
pub struct SpotRef<'a> {
    at: Lent<'a>,
}

#[derive(Drop)]
enum Lent<'a> {
    OnFlow(&'a str),
    BeforeNode(&'a str),
}

impl<'a> Model for SpotRef<'a> {
    ghost use Rattle.zb_tokens.specs.declared.board.Spot.{Spot};

    ghost Value = { Spot };

    ghost use Rattle.zb_places.specs.Lent.{spot_lent};

    ghost view = { λ s. spot_lent s.at };
}

impl<'a> SpotRef<'a> {
    /// On the flow with an id.
    pub fn on(flow: &'a str) -> SpotRef<'a>
        ensures { result ≡ spots.OnFlow flow.now }
    {
        SpotRef {
            at: Lent::OnFlow(flow),
        }
    }

    /// Before the node with an id.
    pub fn before(node: &'a str) -> SpotRef<'a>
        ensures { result ≡ spots.BeforeNode node.now }
    {
        SpotRef {
            at: Lent::BeforeNode(node),
        }
    }

    /// Where a token is that comes to a node by a flow, or stands before it where there is none.
    pub fn coming(node: &'a str, via: &'a str) -> SpotRef<'a>
        ensures { result ≡ spot_of via.now node.now }
    {
        if via.is_empty() {
            SpotRef::before(node)
        } else {
            SpotRef::on(via)
        }
    }

    /// This spot.
    pub fn of(spot: &'a Spot) -> SpotRef<'a>
        ensures { result ≡ spot.now }
    {
        match spot {
            Spot::OnFlow(flow) => SpotRef::on(flow.as_str()),
            Spot::BeforeNode(node) => SpotRef::before(node.as_str()),
        }
    }

    // The id of the flow or of the node.
    fn id(&self) -> &str
        ensures { result.now ≡ id_of self.now }
    {
        match &self.at {
            Lent::OnFlow(flow) => *flow,
            Lent::BeforeNode(node) => *node,
        }
    }

    // Whether a spot is this one.
    fn is(&self, spot: &Spot) -> bool
        ensures { result ≡ is_spot spot.now self.now }
    {
        match (&self.at, spot) {
            (Lent::OnFlow(flow), Spot::OnFlow(id)) => id.as_str() == *flow,
            (Lent::BeforeNode(node), Spot::BeforeNode(id)) => id.as_str() == *node,
            _ => false,
        }
    }
}

/// A spot in a scope. As a question it is whether a token stands there.
#[derive(Drop)]
pub struct Place<'a> {
    pub scope: Key,
    pub spot: SpotRef<'a>,
}

impl<'a> Place<'a> {
    // The number under which what stands here is found.
    pub(crate) fn number(&self) -> Key
        ensures { result ≡ place_number self.now.scope (id_of self.now.spot) }
    {
        place_number(self.scope, self.spot.id())
    }
}

impl<'a> Query<Token> for Place<'a> {
    ghost passes = { λ place t. stands_at place.scope place.spot t };

    fn passes(&self, token: &Token) -> bool {
        token.scope == self.scope && self.spot.is(&token.spot)
    }
}
