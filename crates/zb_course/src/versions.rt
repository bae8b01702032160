// What is kept of the models that stand on a board.
ghost use Rattle.std.specs.Prelude.{◌≡◌, [], ℕ, List, OnOk, if◌then◌else◌, map};
ghost use Rattle.std.specs.BTreeSet.{insert_key};
ghost use Rattle.std.specs.Option.{option_copied};
ghost use Rattle.zb_base.specs.Vars.{order_of};
ghost use Rattle.zb_definitions.specs.Kept.{KeepsDefinitions};
ghost use Rattle.zb_rules.specs.Shown.{models_told, definition_of_model};
ghost use Rattle.zb_rules.specs.Starts.{starts_by};
ghost use Rattle.zb_starts.specs.Starters.{ids_under};
ghost use Rattle.zb_tokens.specs.Board.{start_in};
ghost use Rattle.zb_tokens.specs.declared.board.Deployed.{Deployed};

use std::alloc::{AllocError, Global};
use zb_definitions::Definitions;
use zb_faults::{is_message_start, is_start};
use zb_model::{Event, Model, Node};
use zb_starts::Starters;

/// The versions of the processes whose models stand on a board, and which of them start by messages.
#[derive(Drop)]
pub struct Versions {
    definitions: Definitions,
    starters: Starters,
}

impl Versions {
    ghost use Rattle.zb_course.specs.Versions.{KeepsVersions, KeepsMoreVersions, starting};

    /// No versions. They take no memory.
    pub fn empty(alloc: Global) -> Versions
        ensures { KeepsVersions [] result }
    {
        Versions {
            definitions: Definitions::empty(alloc),
            starters: Starters::empty(alloc),
        }
    }

    /// The versions of the processes.
    pub fn definitions(&self) -> &Definitions
        ensures { (models : List Deployed) → KeepsVersions models self.now → KeepsDefinitions (map definition_of_model models) result.now }
    {
        &self.definitions
    }

    /// The processes that start by messages.
    pub fn starters(&self) -> &Starters
        ensures { (models : List Deployed) → KeepsVersions models self.now → (name : List ℕ) → ids_under result.now name ≡ starting name models }
    {
        &self.starters
    }

    /// Takes in the model that an event deploys, behind the others. After a refusal they are only dropped. It costs what
    /// `Definitions::apply` and `Starters::add` do.
    pub fn apply(&mut self, alloc: Global, event: &Event) -> Result<(), AllocError>
        ensures { OnOk result (KeepsMoreVersions (models_told event.now) self.old self.new) }
    {
        self.definitions.apply(alloc, event)?;
        match event {
            Event::ProcessCreated(process) => self.add_starter(alloc, &process.model),
            _ => Ok(()),
        }
    }

    // Adds the process of a model to those that start by messages, if it starts by one.
    fn add_starter(&mut self, alloc: Global, model: &Model) -> Result<(), AllocError>
        ensures definitions { self.new.definitions ≡ self.old.definitions }
        ensures starters { OnOk result ((name : List ℕ) → ids_under self.new.starters name
            ≡ (if starts_by name model.now then insert_key order_of (ids_under self.old.starters name) model.now.process else ids_under self.old.starters name)) }
    {
        match start_of(model) {
            Some(start) if is_message_start(start.kind) => {
                self.starters
                    .add(alloc, start.name.as_str(), model.process.as_str())
            }
            _ => Ok(()),
        }
    }
}

// The start event at the top of a model.
fn start_of(model: &Model) -> Option<&Node>
    ensures { option_copied result ≡ start_in model.now [] }
{
    for node in model.nodes.as_slice() {
        if is_start(node.kind) && node.parent.as_str().is_empty() {
            return Some(node);
        }
    }
    None
}
