// How tokens come and go on the board, and with them what is kept of them beside the board.
ghost use Rattle.std.specs.Prelude.{◌≡◌, ℕ, ◌==◌, ◌++◌, ◌∷◌, [], Some, true, false, OnOk, filter, map, not};
ghost use Rattle.std.specs.List.{list_any};
ghost use Rattle.zb_tokens.specs.declared.board.Spot.TheVariants as spots;
ghost use Rattle.zb_tokens.specs.Board.{spot_of};
ghost use Rattle.zb_tokens.specs.Doom.{calls_off};
ghost use Rattle.zb_tokens.specs.Edits.{without_first};
ghost use Rattle.zb_tokens.specs.MoveEnter.{stands_at, without_each};
ghost use Rattle.zb_pairs.specs.Pairs.{is_number};
ghost use Rattle.zb_board.specs.Indexed.{is_kept};

use crate::Game;
use crate::game::changes::comes_newest;
use crate::game::meeting::met_by_number;
use crate::game::removals::wake;
use crate::keys::{forget, keep, keep_all};
use std::alloc::{AllocError, Global};
use zb_base::{Key, Text};
use zb_places::{Place, SpotRef, first_at, stands, take_first, take_scope};
use zb_table::Table;
use zb_tokens::{Cell, Token};

impl Game {
    /// Adds a token. Its scope may rest then, and where it is the first at its spot, what it meets may go on. After a
    /// refusal the game is only dropped. It takes the logarithm of how many tokens there are, on average; on a flow into a
    /// gateway where flows join, for each of these.
    pub fn add_token(&mut self, alloc: Global, token: Token) -> Result<(), AllocError>
        ensures { OnOk result (self.new ≡ record self.old { tokens = self.old.tokens ++ token ∷ [] }) }
    {
        let scope = token.scope;
        let spot = SpotRef::of(&token.spot);
        if stands(&Place { scope, spot }, &self.tokens) {
            return self.add_behind(alloc, token);
        }
        self.add_first(alloc, token)
    }

    // Adds a token behind one at its spot: nothing rests or goes on for it.
    fn add_behind(&mut self, alloc: Global, token: Token) -> Result<(), AllocError>
        requires { list_any (stands_at token.scope token.spot) self.old.tokens ≡ true }
        ensures { OnOk result (self.new ≡ record self.old { tokens = self.old.tokens ++ token ∷ [] }) }
    {
        let ascends = self.ascends;
        self.ascends = false;
        self.tokens.push(alloc, token)?;
        self.ascends = ascends;
        Ok(())
    }

    // Adds a token that is the first at its spot.
    fn add_first(&mut self, alloc: Global, token: Token) -> Result<(), AllocError>
        requires { list_any (stands_at token.scope token.spot) self.old.tokens ≡ false }
        ensures { OnOk result (self.new ≡ record self.old { tokens = self.old.tokens ++ token ∷ [] }) }
    {
        let scope = token.scope;
        let ascends = self.ascends;
        self.ascends = false;
        let number = self.tokens.push(alloc, token)?;
        let met = met_by_number(alloc, self.scope_model(scope), &self.tokens, number)?;
        keep(&mut self.coming, number)?;
        keep_all(&mut self.coming, met.as_slice())?;
        self.ascends = ascends;
        self.look_at(scope);
        self.look_at_token(number);
        Ok(())
    }

    // Takes the first token at a place, if there is one. The scope may go on then, and is to be looked at, as the next
    // token there is.
    fn take_first(&mut self, place: &Place) -> Result<(), AllocError>
        ensures { OnOk result (self.new ≡ record self.old { tokens = without_first (stands_at place.now.scope place.now.spot) self.old.tokens }) }
    {
        let ascends = self.ascends;
        self.ascends = false;
        let taken = take_first(place, &mut self.tokens);
        let next = first_at(place, &self.tokens);
        note_taken(&mut self.coming, taken, &next)?;
        wake(&mut self.ready, &self.children, place.scope)?;
        self.ascends = ascends;
        Ok(())
    }

    // Looks at the first token at a place again.
    fn look_at_first(&mut self, place: &Place)
        ensures { self.new ≡ self.old }
    {
        if let Some(number) = first_at(place, &self.tokens) {
            self.look_at_token(number);
        }
    }

    /// Takes the first token in the scope of a cell that comes to its node by a flow, or stands before it, if there is one,
    /// and adds the cell, as `add_cell` does. After a refusal the game is only dropped. It costs what `add_cell` and `comes`
    /// do, and the logarithm of how many tokens there are, on average.
    pub fn enter_coming(&mut self, via: &str, cell: Cell) -> Result<(), AllocError>
        requires { calls_off cell ≡ false }
        ensures { OnOk result (self.new ≡ record self.old {
          cells = self.old.cells ++ cell ∷ [];
          tokens = without_first (stands_at cell.scope (spot_of via.now cell.node)) self.old.tokens;
        }) }
    {
        let scope = cell.scope;
        let key = cell.key;
        let ascends = self.ascends && comes_newest(key, scope, &self.cells);
        self.ascends = false;
        let spot = SpotRef::coming(cell.node.as_str(), via);
        let place = Place { scope, spot };
        let taken = take_first(&place, &mut self.tokens);
        let next = first_at(&place, &self.tokens);
        note_taken(&mut self.coming, taken, &next)?;
        self.cells.push(cell)?;
        self.children.insert((scope, key))?;
        keep(&mut self.ready, key)?;
        self.ascends = ascends;
        self.look_at(scope);
        if let Some(next) = next {
            self.look_at_token(next);
        }
        Ok(())
    }

    /// Takes the first token on each of these flows in a scope, which is to be looked at then. After a refusal the game is
    /// only dropped. For each it takes the logarithm of how many tokens there are, on average, and what `comes` takes.
    pub fn take_each(&mut self, scope: Key, flows: &[Text]) -> Result<(), AllocError>
        ensures { OnOk result (self.new ≡ record self.old { tokens = without_each scope (map spots.OnFlow flows.now) self.old.tokens }) }
    {
        for flow in flows {
            let spot = SpotRef::on(flow.as_str());
            self.take_first(&Place { scope, spot })?;
        }
        self.look_at_firsts(scope, flows);
        Ok(())
    }

    // Looks at the first token on each of these flows again.
    fn look_at_firsts(&mut self, scope: Key, flows: &[Text])
        ensures { self.new ≡ self.old }
    {
        for flow in flows {
            let spot = SpotRef::on(flow.as_str());
            self.look_at_first(&Place { scope, spot });
        }
    }

    /// Takes the tokens in a scope. The scope may go on then. After a refusal the game is only dropped. It goes
    /// through these tokens, and takes for each the logarithm of how many there are, on average.
    pub fn take_tokens(&mut self, alloc: Global, scope: Key) -> Result<(), AllocError>
        ensures { OnOk result (self.new ≡ record self.old { tokens = filter (λ t. not (t.scope == scope)) self.old.tokens }) }
    {
        if !self.has_token(scope) {
            return Ok(());
        }
        let numbers = self.tokens.numbers_in(alloc, scope)?;
        let ascends = self.ascends;
        self.ascends = false;
        take_scope(alloc, &mut self.tokens, scope)?;
        wake(&mut self.ready, &self.children, scope)?;
        self.ascends = ascends;
        self.look_at_tokens(numbers.as_slice());
        Ok(())
    }
}

// Keeps the number of a token that was taken no longer, and that of the next one, if there is one.
fn note_taken(
    coming: &mut Table<Key>,
    taken: Option<Key>,
    next: &Option<Key>,
) -> Result<(), AllocError>
    ensures next { OnOk result ((n : ℕ) → next.now ≡ Some n → is_kept coming.new n ≡ true) }
    ensures others { OnOk result ((other : ℕ) → is_number other taken ≡ false → is_kept coming.old other ≡ true → is_kept coming.new other ≡ true) }
{
    if let Some(number) = taken {
        forget(coming, number);
    }
    match next {
        Some(number) => keep(coming, *number),
        None => Ok(()),
    }
}
