// Making an instance of a process.
ghost use Rattle.std.specs.Prelude.{◌≡◌, List, IfOk, string_bytes, Some};
ghost use Rattle.zb_model.specs.declared.record.Event.{Event};
ghost use Rattle.zb_rules.specs.Create.{reason_to_create, no_process, no_version, starts_by_message, created};
ghost use Rattle.zb_state.specs.State.{IsStateOf};

use crate::rejection::rejection;
use std::alloc::{AllocError, Global};
use zb_follow::{Beginning, Maker, root};
use zb_model::{
    DefinitionLink, Event, Moment, ProcessInstanceCreationCreate, Rejection, RejectionKind,
};
use zb_state::{Out, Refusal, State};

/// Why an instance isn't made: there is no such process, or no such version of it, or that starts by a message. It costs
/// what `Definitions::definition_for` and `State::has_message_start` do.
pub fn reason(
    alloc: Global,
    state: &State,
    command: &ProcessInstanceCreationCreate,
) -> Result<Option<Rejection>, AllocError>
    ensures { (es : List Event) → IsStateOf es state.now → IfOk result (λ rejection. rejection ≡ reason_to_create es command.now) }
{
    let process = command.process.as_str();
    let definitions = state.definitions();
    if definitions.definition_for(process, 0).is_none() {
        return unknown_process(alloc, process);
    }
    let Some(asked) = definitions.definition_for(process, command.version) else {
        return unknown_version(alloc, process, command.version);
    };
    if state.has_message_start(asked) {
        return message_started(alloc, process);
    }
    Ok(None)
}

// The rejection where there is no such process.
fn unknown_process(alloc: Global, process: &str) -> Result<Option<Rejection>, AllocError>
    ensures { IfOk result (λ rejection. rejection ≡ Some (record { kind = RejectionKind.NotFound; reason = no_process process.now })) }
{
    let mut text = String::from_str(alloc, "no process ")?;
    text.push_str(process)?;
    rejection(alloc, RejectionKind::NotFound, text.as_str())
}

// The rejection where there is no such version of a process.
fn unknown_version(
    alloc: Global,
    process: &str,
    version: u32,
) -> Result<Option<Rejection>, AllocError>
    ensures { IfOk result (λ rejection. rejection ≡ Some (record { kind = RejectionKind.NotFound; reason = no_version process.now version })) }
{
    let text = text_of_version(alloc, process, version)?;
    rejection(alloc, RejectionKind::NotFound, text.as_str())
}

fn text_of_version(alloc: Global, process: &str, version: u32) -> Result<String, AllocError>
    ensures { IfOk result (λ text. string_bytes text ≡ no_version process.now version) }
{
    let mut text = String::from_str(alloc, "no version ")?;
    text.write(version)?;
    text.push_str(" of process ")?;
    text.push_str(process)?;
    Ok(text)
}

// The rejection where it starts by a message.
fn message_started(alloc: Global, process: &str) -> Result<Option<Rejection>, AllocError>
    ensures { IfOk result (λ rejection. rejection ≡ Some (record { kind = RejectionKind.InvalidState; reason = starts_by_message process.now })) }
{
    let mut text = String::from_str(alloc, "process ")?;
    text.push_str(process)?;
    text.push_str(" starts by a message")?;
    rejection(alloc, RejectionKind::InvalidState, text.as_str())
}

/// An instance is made, where its definition is there: its root is activated, and it has its variables.
#[derive(Drop)]
pub struct Created<'a>(pub &'a ProcessInstanceCreationCreate);

impl Maker for Created<'_> {
    ghost making = { λ it p moment. created p it.0.now };

    fn put(
        self,
        alloc: Global,
        state: &mut State,
        moment: Moment,
        out: &mut Out,
    ) -> Result<(), Refusal> {
        let command = self.0;
        let process = command.process.as_str();
        let Some(definition) = state.definitions().definition_for(process, command.version) else {
            return Ok(());
        };
        let key = state.next_key();
        let root = root(alloc, key, definition, process, "")?;
        let made = DefinitionLink { key, definition };
        Beginning {
            told: Event::ProcessInstanceCreationCreated(made),
            root,
            variables: command.variables.as_slice(),
        }
        .put(alloc, state, moment, out)
    }
}
