// Throwing an error in a job.
ghost use Rattle.zb_rules.specs.Throw.{thrown};

use std::alloc::Global;
use zb_follow::Maker;
use zb_model::{Event, JobError, Moment, TryCopy};
use zb_state::{Out, Refusal, State};

/// The error is thrown in the job, which is over.
#[derive(Drop)]
pub struct Thrown<'a>(pub &'a JobError);

impl Maker for Thrown<'_> {
    ghost making = { λ it p moment. thrown it.0.now };

    fn put(
        self,
        alloc: Global,
        state: &mut State,
        moment: Moment,
        out: &mut Out,
    ) -> Result<(), Refusal> {
        Event::JobErrorThrown(self.0.copy(alloc)?).put(alloc, state, moment, out)
    }
}
