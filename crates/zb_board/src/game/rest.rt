// Cells and tokens that rest: nothing but a change of a cell, or of what is in it, or of the tokens in a scope, lets
// them go on by themselves.
ghost use Rattle.std.specs.Prelude.{◌≡◌};
ghost use Rattle.zb_board.specs.Indexed.{is_awake, is_resting, rests_in, stays_active, stays_out};
ghost use Rattle.zb_tokens.specs.MoveFinish.{acts_in};

use crate::Game;
use crate::keys::forget;
use crate::kinds::{goes_on, holds_tokens, is_sequential, undoes};
use crate::marks::{error_of, has_come_about};
use crate::roles::{has_item, is_body};
use zb_base::Key;
use zb_graph::Graph;
use zb_places::comes;
use zb_tokens::{Cell, Phase, Token};

impl Game {
    /// Looks at a cell again: where it rests, and doesn't end as it is called off, it isn't among the ready ones any more.
    /// It costs what `acts_in`, `incident_on` and `is_called_off` do.
    pub fn look_at(&mut self, key: Key)
        ensures { self.new ≡ self.old }
    {
        if self.ready.contains(key) && !self.is_awake(key) {
            forget(&mut self.ready, key);
        }
    }

    // Looks at the tokens with these numbers again: where one rests or isn't there, it isn't among the coming ones any
    // more.
    pub(super) fn look_at_tokens(&mut self, numbers: &[Key])
        ensures { self.new ≡ self.old }
    {
        for number in numbers {
            self.look_at_token(*number);
        }
    }

    // The same for one, where it is among the coming ones.
    pub(super) fn look_at_token(&mut self, number: Key)
        ensures { self.new ≡ self.old }
    {
        if !self.coming.contains(number) {
            return;
        }
        match self.tokens.get(number) {
            Some(token) => {
                if self.stays_out(token) {
                    forget(&mut self.coming, number);
                }
            }
            None => forget(&mut self.coming, number),
        }
    }

    // Whether a token rests, whatever models and cells come.
    fn stays_out(&self, token: &Token) -> bool
        ensures { result ≡ stays_out self.now token.now }
    {
        let Some(cell) = self.cell(token.scope) else {
            return false;
        };
        match self.model(cell.definition) {
            Some(model) => !comes(model, &self.tokens, token),
            None => false,
        }
    }

    // Whether a cell is there, and doesn't rest, or ends as it is called off.
    fn is_awake(&self, key: Key) -> bool
        ensures { result ≡ is_awake self.now key }
    {
        match self.cell(key) {
            Some(cell) => !self.is_resting(cell) || self.is_ending(cell),
            None => false,
        }
    }

    // Whether a cell rests, whatever models come: it is stuck, or rests in its phase.
    fn is_resting(&self, cell: &Cell) -> bool
        ensures { result ≡ is_resting self.now cell.now }
    {
        self.is_stuck(cell) || self.rests_in(cell)
    }

    // Whether a cell rests in its phase.
    #[tactic(auto, using(crate::proofs::AskingLemmas::compared))]
    fn rests_in(&self, cell: &Cell) -> bool
        ensures { result ≡ rests_in self.now cell.now cell.now.phase }
    {
        match cell.phase {
            Phase::Activating => false,
            Phase::Active => self.stays_active(cell),
            Phase::Completing => false,
            Phase::Leaving => cell.owed.as_slice().is_empty(),
            Phase::Terminating => self.has_child(cell.key),
        }
    }

    // Whether an active cell rests: no error was thrown in it, its model is there, and it waits for something.
    fn stays_active(&self, cell: &Cell) -> bool
        ensures { result ≡ stays_active self.now cell.now }
    {
        if error_of(&cell.mark).is_some() {
            return false;
        }
        match self.model(cell.definition) {
            Some(model) => !self.acts_in(model, cell),
            None => false,
        }
    }

    /// Whether an active cell acts in its model: nothing is left that it waits for, or a body may begin a run, or a
    /// compensation event a handler. It costs what `has_child` does.
    pub fn acts_in(&self, model: &Graph, cell: &Cell) -> bool
        ensures { result ≡ acts_in model.now self.now cell.now }
    {
        if is_body(cell) {
            !self.has_child(cell.key) || (has_item(cell) && !is_sequential(model, cell))
        } else if undoes(model, cell) {
            !self.has_child(cell.key)
        } else if holds_tokens(model, cell) {
            self.is_empty(cell.key)
        } else {
            has_come_about(&cell.mark) || goes_on(model, cell)
        }
    }
}
