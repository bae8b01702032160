// What puts events is a value.
ghost use Rattle.std.specs.Option.{option_map_or};
ghost use Rattle.std.specs.Prelude.{◌≡◌, ◌≤◌, ◌+◌, ℕ, List, [], length, IfOk, OnOk, IsErrOf};
ghost use Rattle.zb_model.specs.declared.record.Event.{Event};
ghost use Rattle.zb_rules.specs.Making.{Making, just, and_then, each_made};
ghost use Rattle.zb_state.specs.State.{partition_of, IsStateOf, CantMake, HasPut};
ghost use Rattle.zb_state.specs.declared.refusal.Refusal.TheVariants.{Misfit};
ghost use Rattle.zb_follow.specs.Making.{any_event};

use std::alloc::{AllocError, Global};
use zb_model::{Event, Moment};
use zb_state::{Out, Refusal, State};

/// What puts events behind others, each made of all that are there by then. A misfit comes only where, of no events that
/// come to the state, all that it makes applies. After a refusal the state and the events are only dropped.
pub trait Maker: Drop {
    /// What it makes, at a moment of a partition.
    ghost making: { Self → (p moment : ℕ) → Making };

    /// How many events come at least.
    ghost least: { ℕ } = { 0 };

    fn put(
        self,
        alloc: Global,
        state: &mut State,
        moment: Moment,
        out: &mut Out,
    ) -> Result<(), Refusal>
        ensures ok { OnOk result (HasPut (making self (partition_of state.old) moment) state.old state.new out.old out.new) }
        ensures place { partition_of state.new ≡ partition_of state.old }
        ensures more { OnOk result (length out.old + least ≤ length out.new) }
        ensures misfit { IsErrOf result Misfit → CantMake state.old (making self (partition_of state.old) moment) };
}

/// An event.
impl Maker for Event {
    ghost making = { λ event p moment. just event };

    ghost least = { 1 };

    fn put(
        self,
        alloc: Global,
        state: &mut State,
        _moment: Moment,
        out: &mut Out,
    ) -> Result<(), Refusal> {
        out.put(alloc, state, self)
    }
}

/// What one puts, if there is one.
impl<M: Maker> Maker for Option<M> {
    ghost making = { λ one p moment before. option_map_or (λ m. M.making m p moment before) one [] };

    fn put(
        self,
        alloc: Global,
        state: &mut State,
        moment: Moment,
        out: &mut Out,
    ) -> Result<(), Refusal> {
        match self {
            Some(one) => one.put(alloc, state, moment, out),
            None => Ok(()),
        }
    }
}

/// What one puts, and then what another does.
impl<A: Maker, B: Maker> Maker for (A, B) {
    ghost making = { λ both p moment. and_then (A.making both.0 p moment) (B.making both.1 p moment) };

    ghost least = { A.least + B.least };

    fn put(
        self,
        alloc: Global,
        state: &mut State,
        moment: Moment,
        out: &mut Out,
    ) -> Result<(), Refusal> {
        let (first, second) = self;
        match first.put(alloc, state, moment, out) {
            Ok(()) => second.put(alloc, state, moment, out),
            Err(refusal) => {
                drop(second);
                Err(refusal)
            }
        }
    }
}

/// What finds an event in a state, if there is one.
pub trait Find: Drop {
    /// What it finds, in partition p.
    ghost finds: { Self → (p : ℕ) → Making };

    fn find(self, alloc: Global, state: &State) -> Result<Option<Event>, AllocError>
        ensures { (es : List Event) → IsStateOf es state.now → IfOk result (λ event. finds self (partition_of state.now) es ≡ any_event event) };
}

/// The event that is found.
#[derive(Drop)]
pub struct Found<F: Find>(pub F);

impl<F: Find> Maker for Found<F> {
    ghost making = { λ found p moment. F.finds found.0 p };

    fn put(
        self,
        alloc: Global,
        state: &mut State,
        moment: Moment,
        out: &mut Out,
    ) -> Result<(), Refusal> {
        let event = self.0.find(alloc, state)?;
        event.put(alloc, state, moment, out)
    }
}

/// What finds an event for a thing of some, if there is one.
pub trait FindEach<T> {
    /// What it finds for a thing, at a moment of partition p.
    ghost finds: { Self → T → (p moment : ℕ) → Making };

    fn find(
        &self,
        alloc: Global,
        state: &State,
        moment: Moment,
        thing: &T,
    ) -> Result<Option<Event>, AllocError>
        ensures { (es : List Event) → IsStateOf es state.now
            → IfOk result (λ event. finds self.now thing.now (partition_of state.now) moment es ≡ any_event event) };
}

/// Those that are found for each of some things, one after the other.
#[derive(Drop)]
pub struct Each<'a, T, F: FindEach<T>> {
    pub finder: &'a F,
    pub things: &'a [T],
}

impl<T, F: FindEach<T>> Maker for Each<'_, T, F> {
    ghost making = { λ each p moment. each_made (λ thing. F.finds each.finder.now thing p moment) each.things.now };

    fn put(
        self,
        alloc: Global,
        state: &mut State,
        moment: Moment,
        out: &mut Out,
    ) -> Result<(), Refusal> {
        for thing in self.things {
            let event = self.finder.find(alloc, state, moment, thing)?;
            event.put(alloc, state, moment, out)?;
        }
        Ok(())
    }
}
