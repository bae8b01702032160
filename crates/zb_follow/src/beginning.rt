// Instances that begin.
ghost use Rattle.std.specs.Prelude.{◌≡◌, [], IfOk};
ghost use Rattle.zb_model.specs.declared.record.Event.TheVariants as events;
ghost use Rattle.zb_instance_records.specs.declared.instance.Role.TheVariants as roles;
ghost use Rattle.zb_rules.specs.Create.{variable_event};
ghost use Rattle.zb_rules.specs.Making.{just, and_then, each_made};

use crate::making::{Each, FindEach, Maker};
use std::alloc::{AllocError, Global};
use zb_model::{
    ElementActivating, Event, Key, Moment, Role, ScopeVariable, Text, TryCopy, Variable,
};
use zb_state::{Out, Refusal, State};

/// An instance begins: that is told, then its root is activated, and it has its variables.
#[derive(Drop)]
pub struct Beginning<'a> {
    pub told: Event,
    pub root: ElementActivating,
    pub variables: &'a [Variable],
}

impl Maker for Beginning<'_> {
    ghost making = { λ it p moment. and_then (just it.told) (and_then (just (events.ElementActivating it.root)) (each_made (λ v. just (variable_event it.root.key v)) it.variables.now)) };

    ghost least = { 2 };

    fn put(
        self,
        alloc: Global,
        state: &mut State,
        moment: Moment,
        out: &mut Out,
    ) -> Result<(), Refusal> {
        let Beginning {
            told,
            root,
            variables,
        } = self;
        let finder = &FirstIn(root.key);
        let things = variables;
        (
            told,
            (Event::ElementActivating(root), Each { finder, things }),
        )
            .put(alloc, state, moment, out)
    }
}

/// The root of an instance of this definition, with the correlation key of the message that starts it; that is empty where
/// none does.
pub fn root(
    alloc: Global,
    key: Key,
    definition: Key,
    process: &str,
    started: &str,
) -> Result<ElementActivating, AllocError>
    ensures { IfOk result (λ root. root ≡ record { key = key; scope = 0; definition = definition; node = process.now; role = roles.Plain; via = []; started = started.now }) }
{
    Ok(ElementActivating {
        key,
        scope: Key::new(0),
        definition,
        node: Text::of(alloc, process)?,
        role: Role::Plain,
        via: Text::empty(alloc),
        started: Text::of(alloc, started)?,
    })
}

// A variable of the instance with a key gets its first value.
#[derive(Clone, Copy)]
struct FirstIn(Key);

impl FindEach<Variable> for FirstIn {
    ghost finds = { λ it v p moment. just (variable_event it.0 v) };

    fn find(
        &self,
        alloc: Global,
        _state: &State,
        _moment: Moment,
        variable: &Variable,
    ) -> Result<Option<Event>, AllocError> {
        Ok(Some(Event::VariableCreated(ScopeVariable {
            scope: self.0,
            name: variable.name.copy(alloc)?,
            value: variable.value.copy(alloc)?,
        })))
    }
}
