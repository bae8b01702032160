// A definition that another partition sends.
ghost use Rattle.std.specs.Prelude.{◌≡◌, List, None, IsTrue, IfOk};
ghost use Rattle.zb_faults.specs.Faults.{is_well_formed};
ghost use Rattle.zb_model.specs.declared.record.Event.{Event};
ghost use Rattle.zb_rules.specs.Distribute.{reason_to_turn_back, reason_to_distribute, distributed};
ghost use Rattle.zb_state.specs.State.{IsStateOf};

use crate::deploy;
use crate::deploy::SoundProcess;
use crate::rejection::in_the_way;
use std::alloc::{AllocError, Global};
use zb_follow::Maker;
use zb_model::{Key, Moment, ProcessDefinition, Rejection, TryCopy};
use zb_state::{Out, Refusal, State};

/// Why a definition isn't taken: its model has a fault, or a definition with its key is there.
pub fn reason(
    alloc: Global,
    state: &State,
    sent: &ProcessDefinition,
) -> Result<Option<Rejection>, AllocError>
    ensures reason { (es : List Event) → IsStateOf es state.now → IfOk result (λ rejection. rejection ≡ reason_to_distribute es sent.now) }
    ensures sound { IfOk result (λ rejection. rejection ≡ None → IsTrue (is_well_formed sent.now.model)) }
{
    match deploy::reason(alloc, &sent.model)? {
        Some(rejection) => Ok(Some(rejection)),
        None => reason_to_turn_back(alloc, state, sent.key),
    }
}

// Why a definition isn't taken a second time.
fn reason_to_turn_back(
    alloc: Global,
    state: &State,
    key: Key,
) -> Result<Option<Rejection>, AllocError>
    ensures { (es : List Event) → IsStateOf es state.now → IfOk result (λ rejection. rejection ≡ reason_to_turn_back es key) }
{
    if state.definitions().contains(key) {
        return in_the_way(alloc, "definition ", key, " is there");
    }
    Ok(None)
}

/// The definition is taken, whose model has no fault. It costs a copy of its model.
#[derive(Drop)]
pub struct Distributed<'a> {
    pub sent: &'a ProcessDefinition,
    ghost sound: { IsTrue (is_well_formed sent.now.model) },
}

impl Maker for Distributed<'_> {
    ghost making = { λ it p moment. distributed it.sent.now };

    fn put(
        self,
        alloc: Global,
        state: &mut State,
        moment: Moment,
        out: &mut Out,
    ) -> Result<(), Refusal> {
        let made = self.sent.copy(alloc)?;
        SoundProcess { made }.put(alloc, state, moment, out)
    }
}
