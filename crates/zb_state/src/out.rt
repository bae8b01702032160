ghost use Rattle.std.specs.Prelude.{◌≡◌, ◌++◌, [], ◌∷◌, length, IsTrue, IfOk, OnOk, IsErrOf};
ghost use Rattle.zb_rules.specs.Making.{just};
ghost use Rattle.zb_state.specs.Sound.{HasSoundModel};
ghost use Rattle.zb_state.specs.State.{partition_of, CantMake, HasPut};
ghost use Rattle.zb_state.specs.declared.refusal.Refusal.TheVariants.{Misfit};

use crate::{Refusal, State};
use std::alloc::{AllocError, Global};
use std::marker::Model;
use zb_model::{Event, List};

// The events of most commands are no more than so many.
const ROOM: usize = 16;

/// The events that a command has made so far.
#[derive(Drop)]
pub struct Out {
    events: List<Event>,
}

impl Model for Out {
    ghost use Rattle.std.specs.Prelude.{List};
    ghost use Rattle.std.specs.Coded.{coded_list};
    ghost use Rattle.zb_model.specs.declared.record.Event.{Event};
    ghost use Rattle.zb_model.specs.contracts.record.Event as event;

    ghost Value = { List Event };

    ghost coded = { coded_list event.the_row.coded };

    ghost view = { λ out. out.events };
}

impl Out {
    /// No events, with room for as many as most commands make.
    pub fn new(alloc: Global) -> Result<Out, AllocError>
        ensures { IfOk result (λ out. out ≡ []) }
    {
        Ok(Out {
            events: List::with_capacity(alloc, ROOM)?,
        })
    }

    /// How many events there are.
    pub fn len(&self) -> usize
        ensures { result ≡ length self.now }
    {
        self.events.as_slice().len()
    }

    /// Takes an event into the state, and adds it. A misfit is an event that doesn't apply. After a refusal both are only
    /// dropped. It costs what `State::apply` does.
    pub fn put(&mut self, alloc: Global, state: &mut State, event: Event) -> Result<(), Refusal>
        ensures ok { OnOk result (HasPut (just event) state.old state.new self.old self.new) }
        ensures place { partition_of state.new ≡ partition_of state.old }
        ensures one { OnOk result (self.new ≡ self.old ++ event ∷ []) }
        ensures misfit { IsErrOf result Misfit → CantMake state.old (just event) }
    {
        self.put_as(alloc, state, event, false)
    }

    /// Does what `put` does with an event whose model, if it deploys one, has no fault: so that isn't looked at.
    pub fn put_sound(
        &mut self,
        alloc: Global,
        state: &mut State,
        event: Event,
    ) -> Result<(), Refusal>
        requires { HasSoundModel event }
        ensures ok { OnOk result (HasPut (just event) state.old state.new self.old self.new) }
        ensures place { partition_of state.new ≡ partition_of state.old }
        ensures one { OnOk result (self.new ≡ self.old ++ event ∷ []) }
        ensures misfit { IsErrOf result Misfit → CantMake state.old (just event) }
    {
        self.put_as(alloc, state, event, true)
    }

    // Takes an event into the state, and adds it. A model that is known to have no fault isn't looked at.
    fn put_as(
        &mut self,
        alloc: Global,
        state: &mut State,
        event: Event,
        known: bool,
    ) -> Result<(), Refusal>
        requires { IsTrue known → HasSoundModel event }
        ensures ok { OnOk result (HasPut (just event) state.old state.new self.old self.new) }
        ensures place { partition_of state.new ≡ partition_of state.old }
        ensures one { OnOk result (self.new ≡ self.old ++ event ∷ []) }
        ensures misfit { IsErrOf result Misfit → CantMake state.old (just event) }
    {
        match state.apply_as(alloc, &event, known) {
            Ok(()) => {}
            Err(fault) => {
                drop(event);
                return Err(Refusal::from(fault));
            }
        }
        self.events.push(event)?;
        Ok(())
    }

    /// The events.
    pub fn events(self) -> List<Event>
        ensures { result ≡ self }
    {
        let Out { events } = self;
        events
    }
}
