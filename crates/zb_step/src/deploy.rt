// Deploying a model.
ghost use Rattle.std.specs.List.{range_with_len};
ghost use Rattle.std.specs.Prelude.{◌≡◌, ◌-◌, List, [], ◌∷◌, None, IfOk, IsTrue, string_bytes, Some};
ghost use Rattle.zb_model.specs.declared.record.Event.{Event};
ghost use Rattle.zb_model.specs.declared.record.Event.TheVariants as events;
ghost use Rattle.zb_rules.specs.Deploy.{reason_to_deploy, version_behind, definition_of, deployment_of, sent_to, deployed};
ghost use Rattle.zb_faults.specs.Faults.{fault_text, is_well_formed};
ghost use Rattle.zb_state.specs.State.{partition_of, IsStateOf};
ghost use Rattle.zb_rules.specs.Making.{just};

use crate::rejection::rejection;
use std::alloc::{AllocError, Global};
use zb_check::{ModelFault, check};
use zb_faults::Fault;
use zb_follow::{Each, Find, FindEach, Found, Maker};
use zb_model::{
    CommandDistribution, DefinitionLink, Event, Key, Model, Moment, ProcessDefinition, Rejection,
    RejectionKind, TryCopy,
};
use zb_state::{Out, Refusal, State};

/// Why a model isn't deployed: its first fault.
pub fn reason(alloc: Global, model: &Model) -> Result<Option<Rejection>, AllocError>
    ensures reason { IfOk result (λ rejection. rejection ≡ reason_to_deploy model.now) }
    ensures sound { IfOk result (λ rejection. rejection ≡ None → IsTrue (is_well_formed model.now)) }
{
    match check(alloc, model) {
        Ok(()) => Ok(None),
        Err(ModelFault::Bad { fault, id }) => {
            let rejected = faulty(alloc, fault, id.as_str());
            drop(id);
            rejected
        }
        Err(ModelFault::Memory) => Err(AllocError),
    }
}

// The rejection of a model with this fault, whose first offender has this id.
fn faulty(alloc: Global, fault: Fault, id: &str) -> Result<Option<Rejection>, AllocError>
    ensures { IfOk result (λ rejection. rejection ≡ Some (record { kind = RejectionKind.InvalidArgument; reason = fault_text fault id.now })) }
{
    let text = text_of_fault(alloc, fault, id)?;
    rejection(alloc, RejectionKind::InvalidArgument, text.as_str())
}

fn text_of_fault(alloc: Global, fault: Fault, id: &str) -> Result<String, AllocError>
    ensures { IfOk result (λ text. string_bytes text ≡ fault_text fault id.now) }
{
    let mut text = String::from_str(alloc, fault.name())?;
    text.push_str(": ")?;
    text.push_str(id)?;
    Ok(text)
}

/// A model is deployed at one of so many partitions: its definition, the deployment, and that the definition sets out for
/// each partition but the first. The model has no fault.
#[derive(Drop)]
pub struct Deployed<'a> {
    pub partitions: u32,
    pub model: &'a Model,
    ghost sound: { IsTrue (is_well_formed model.now) },
}

impl Maker for Deployed<'_> {
    ghost making = { λ it p moment. deployed p it.partitions it.model.now };

    fn put(
        self,
        alloc: Global,
        state: &mut State,
        moment: Moment,
        out: &mut Out,
    ) -> Result<(), Refusal> {
        let made = definition(alloc, state, self.model)?;
        let key = made.key;
        let made = SoundProcess { made };
        let others = others(alloc, self.partitions)?;
        let finder = &SetsOut(key);
        let things = others.as_slice();
        (made, (Found(DeploymentOf(key)), Each { finder, things })).put(alloc, state, moment, out)
    }
}

/// A definition is made, whose model has no fault: so that isn't looked at again.
#[derive(Drop)]
pub struct SoundProcess {
    pub made: ProcessDefinition,
    ghost sound: { IsTrue (is_well_formed made.model) },
}

impl Maker for SoundProcess {
    ghost making = { λ it p moment. just (events.ProcessCreated it.made) };

    ghost least = { 1 };

    fn put(
        self,
        alloc: Global,
        state: &mut State,
        _moment: Moment,
        out: &mut Out,
    ) -> Result<(), Refusal> {
        out.put_sound(alloc, state, Event::ProcessCreated(self.made))
    }
}

// The deployment of a definition, under a key of its own.
#[derive(Drop)]
struct DeploymentOf(Key);

impl Find for DeploymentOf {
    ghost finds = { λ it p. deployment_of p it.0 };

    fn find(self, _alloc: Global, state: &State) -> Result<Option<Event>, AllocError> {
        Ok(Some(Event::DeploymentCreated(DefinitionLink {
            key: state.next_key(),
            definition: self.0,
        })))
    }
}

// A definition sets out for a partition.
#[derive(Clone, Copy)]
struct SetsOut(Key);

impl FindEach<u32> for SetsOut {
    ghost finds = { λ it partition p moment. just (sent_to it.0 partition) };

    fn find(
        &self,
        _alloc: Global,
        _state: &State,
        _moment: Moment,
        partition: &u32,
    ) -> Result<Option<Event>, AllocError> {
        Ok(Some(Event::CommandDistributionDistributing(CommandDistribution {
            key: self.0,
            partition: *partition,
        })))
    }
}

// The partitions but the first, of so many.
fn others(alloc: Global, partitions: u32) -> Result<Vec<u32>, AllocError>
    ensures { IfOk result (λ others. others.items ≡ range_with_len 2 (partitions - 1)) }
{
    let mut others = Vec::new(alloc);
    for behind in 1..partitions {
        others.push(behind + 1)?;
    }
    Ok(others)
}

// The definition of a model that is deployed.
fn definition(alloc: Global, state: &State, model: &Model) -> Result<ProcessDefinition, AllocError>
    ensures made { (es : List Event) → IsStateOf es state.now
        → IfOk result (λ definition. definition_of (partition_of state.now) model.now es ≡ events.ProcessCreated definition ∷ []) }
    ensures model { IfOk result (λ definition. definition.model ≡ model.now) }
{
    Ok(ProcessDefinition {
        key: state.next_key(),
        version: version_behind(state.definitions().greatest_version(model.process.as_str())),
        model: model.copy(alloc)?,
    })
}

// The version behind this one; it stands still at the greatest number of 32 bits.
fn version_behind(version: u32) -> u32
    ensures { result ≡ version_behind version }
{
    version.saturating_add(1)
}
