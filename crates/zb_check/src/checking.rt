ghost use Rattle.std.specs.Prelude.{◌≡◌, IfOk};
ghost use Rattle.std.specs.Option.{option_copied};
ghost use Rattle.zb_faults.specs.Faults.{first_fault, offender};
ghost use Rattle.zb_check.specs.Checking.{Checks};
ghost use Rattle.zb_check.specs.declared.checking.ModelFault.TheVariants as faults;

use crate::boundaries::{bad_compensation, bad_error};
use crate::finding::{FlowTest, NodeTest, first_flow, first_node};
use crate::flows::{bad_condition, bad_event_gateway};
use crate::naming::{double_id, empty_id};
use crate::parts::Parts;
use crate::scopes::{bad_parent, bad_start, too_large};
use std::alloc::{AllocError, Global};
use thiserror::Error;
use zb_base::{Text, TryCopy};
use zb_faults::Fault;
use zb_process::Model;

/// Why a model is refused.
#[derive(Debug, Drop, Error)]
pub enum ModelFault {
    /// Its first fault, and the id of the first offender.
    #[error("the model is refused at {id:?}: {fault}")]
    Bad { fault: Fault, id: Text },
    #[error("there was no memory")]
    Memory,
}

impl From<AllocError> for ModelFault {
    ghost from_gives = { λ _ fault. fault ≡ faults.Memory };

    fn from(_: AllocError) -> ModelFault {
        ModelFault::Memory
    }
}

// The faults, in the order in which they are looked for.
const FAULTS: [Fault; 14] = [
    Fault::EmptyId,
    Fault::DoubleId,
    Fault::BadParent,
    Fault::Dangling,
    Fault::Crossing,
    Fault::Start,
    Fault::FlowEnd,
    Fault::NoIncoming,
    Fault::Attach,
    Fault::Condition,
    Fault::EventGate,
    Fault::Compensation,
    Fault::Error,
    Fault::Limit,
];

/// Finds the first fault of a model. It takes memory for the places of the model's ids, and a time that grows with
/// the model's size times its logarithm.
pub fn check(alloc: Global, model: &Model) -> Result<(), ModelFault>
    ensures { Checks result (first_fault model.now) }
{
    match Parts::of(alloc, model) {
        Ok(parts) => {
            let checked = check_parts(alloc, &parts);
            drop(parts);
            checked
        }
        Err(AllocError) => Err(ModelFault::Memory),
    }
}

// Finds the first fault of the model that has these parts.
#[tactic(auto, unfolding(zb_faults::specs::Faults::first_fault))]
fn check_parts(alloc: Global, parts: &Parts<'_>) -> Result<(), ModelFault>
    ensures { Checks result (first_fault parts.now) }
{
    for fault in FAULTS {
        let found = offender(alloc, fault, parts)?;
        if let Some(id) = found {
            let id = id.copy(alloc)?;
            return Err(ModelFault::Bad { fault, id });
        }
    }
    Ok(())
}

// The id of the first offender of a fault.
fn offender<'a>(
    alloc: Global,
    fault: Fault,
    parts: &Parts<'a>,
) -> Result<Option<&'a Text>, AllocError>
    ensures { IfOk result (λ found. option_copied found ≡ offender fault parts.now) }
{
    match fault {
        Fault::EmptyId => Ok(empty_id(parts)),
        Fault::DoubleId => double_id(alloc, parts),
        Fault::BadParent => bad_parent(alloc, parts.nodes()),
        Fault::Dangling => Ok(first_flow(parts, FlowTest::Dangles)),
        Fault::Crossing => Ok(first_flow(parts, FlowTest::Crosses)),
        Fault::Start => Ok(bad_start(alloc, parts)),
        Fault::FlowEnd => Ok(first_flow(parts, FlowTest::LeadsAstray)),
        Fault::NoIncoming => Ok(first_node(parts, NodeTest::LacksIncoming)),
        Fault::Attach => Ok(first_node(parts, NodeTest::IsDetached)),
        Fault::Condition => Ok(bad_condition(parts)),
        Fault::EventGate => bad_event_gateway(alloc, parts),
        Fault::Compensation => bad_compensation(alloc, parts),
        Fault::Error => bad_error(alloc, parts.nodes()),
        Fault::Limit => too_large(alloc, parts),
    }
}
