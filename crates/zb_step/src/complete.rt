// Completing a job.
ghost use Rattle.std.specs.Prelude.{◌≡◌, List, option_map};
ghost use Rattle.zb_model.specs.declared.record.Event.{Event};
ghost use Rattle.zb_rules.specs.Complete.{results, completed};
ghost use Rattle.zb_state.specs.State.{IsStateOf};

use std::alloc::Global;
use zb_follow::{Each, Maker, Place};
use zb_model::{Event, JobComplete, Moment};
use zb_state::{Out, Refusal, State};
use zb_values::gives_outputs;

/// The job is completed, and its results are set one after the other. Each costs what `holder_of` and `Out::put`
/// do.
#[derive(Drop)]
pub struct Completed<'a>(pub &'a JobComplete);

impl Maker for Completed<'_> {
    ghost making = { λ it p moment. completed it.0.now };

    fn put(
        self,
        alloc: Global,
        state: &mut State,
        moment: Moment,
        out: &mut Out,
    ) -> Result<(), Refusal> {
        let command = self.0;
        let done = Event::JobCompleted(command.key);
        match place_of(state, command) {
            Some(place) => {
                let finder = &place;
                let things = command.variables.as_slice();
                (done, Each { finder, things }).put(alloc, state, moment, out)
            }
            None => done.put(alloc, state, moment, out),
        }
    }
}

// Where the results of a job are set, if it is there: on its cell, or from there on up.
fn place_of(state: &State, command: &JobComplete) -> Option<Place>
    ensures { (es : List Event) → IsStateOf es state.now
        → results command.now es ≡ option_map (λ place. record { scope = place.scope; local = place.local; variables = command.now.variables }) result }
{
    let scope = state.jobs().get(command.key)?.cell;
    let local = gives_outputs(state.game(), scope)?;
    Some(Place { local, scope })
}
