// A turn: the variables that are set in front of an event, the event, and those behind it.
ghost use Rattle.zb_rules.specs.Settling.{turn_with};

use crate::behind::WithBehind;
use crate::making::Maker;
use std::alloc::Global;
use zb_model::Moment;
use zb_state::{Out, Refusal, State, Turn};

/// A turn. It costs what the variables and the event with those behind it do.
impl Maker for Turn {
    ghost making = { λ turn p moment. turn_with p moment turn.assignments turn.event };

    ghost least = { 1 };

    fn put(
        self,
        alloc: Global,
        state: &mut State,
        moment: Moment,
        out: &mut Out,
    ) -> Result<(), Refusal> {
        let Turn { assignments, event } = self;
        (assignments, WithBehind(event)).put(alloc, state, moment, out)
    }
}
