// Variables that are set one after the other.
ghost use Rattle.std.specs.Prelude.{◌≡◌, List, [], ◌∷◌, IfOk};
ghost use Rattle.zb_model.specs.declared.record.Event.{Event};
ghost use Rattle.zb_rules.specs.Behind.{run_set_on};
ghost use Rattle.zb_rules.specs.InFront.{set_all};
ghost use Rattle.zb_rules.specs.Update.{place_of, set_in, set_by};
ghost use Rattle.zb_state.specs.State.{IsStateOf};
ghost use Rattle.zb_follow.specs.Making.{any_event};

use crate::making::{Each, FindEach, Maker};
use std::alloc::{AllocError, Global};
use zb_model::{Event, Key, Moment, ScopeVariable, TryCopy, Variable};
use zb_state::{Out, Refusal, State};
use zb_tokens::Assignments;
use zb_values::{has_name, holder_of, run_variables_at};

/// Where variables are set: in a scope where they are local, else from it on up.
#[derive(Clone, Copy)]
pub struct Place {
    pub local: bool,
    pub scope: Key,
}

/// A variable is set there. It costs what `holder_of` does.
impl FindEach<Variable> for Place {
    ghost finds = { λ place v p moment. set_by place.local place.scope v };

    fn find(
        &self,
        alloc: Global,
        state: &State,
        _moment: Moment,
        variable: &Variable,
    ) -> Result<Option<Event>, AllocError> {
        match self.cell_for(state, variable.name.as_str()) {
            Some(cell) => Ok(Some(event_of(alloc, state, cell, variable)?)),
            None => Ok(None),
        }
    }
}

impl Place {
    // The cell in which a name is set: the scope itself where it is local, else the one that it is handed up to.
    fn cell_for(&self, state: &State, name: &str) -> Option<Key>
        ensures { (es : List Event) → IsStateOf es state.now → result ≡ place_of self.now.local self.now.scope name.now es }
    {
        if self.local {
            Some(self.scope)
        } else {
            holder_of(state.game(), self.scope, name)
        }
    }
}

// The event by which a variable gets its value in a cell: another one, or its first.
fn event_of(
    alloc: Global,
    state: &State,
    cell: Key,
    variable: &Variable,
) -> Result<Event, AllocError>
    ensures { (es : List Event) → IsStateOf es state.now → IfOk result (λ event. set_in cell variable.now es ≡ event ∷ []) }
{
    let variable = ScopeVariable {
        scope: cell,
        name: variable.name.copy(alloc)?,
        value: variable.value.copy(alloc)?,
    };
    if has_name(state.game(), cell, variable.name.as_str()) {
        Ok(Event::VariableUpdated(variable))
    } else {
        Ok(Event::VariableCreated(variable))
    }
}

/// The variables that a move sets.
impl Maker for Assignments {
    ghost making = { λ made p moment. set_all made };

    fn put(
        self,
        alloc: Global,
        state: &mut State,
        moment: Moment,
        out: &mut Out,
    ) -> Result<(), Refusal> {
        let place = Place {
            local: self.local,
            scope: self.scope,
        };
        let finder = &place;
        let things = self.variables.as_slice();
        Each { finder, things }.put(alloc, state, moment, out)
    }
}

/// The variables of a run of a body are set in it as it begins, one after the other; another cell has none. It costs what
/// `run_variables_at` does, and what `Place` does for each.
#[derive(Drop)]
pub struct RunSet(pub Key);

impl Maker for RunSet {
    ghost making = { λ it p moment. run_set_on it.0 };

    fn put(
        self,
        alloc: Global,
        state: &mut State,
        moment: Moment,
        out: &mut Out,
    ) -> Result<(), Refusal> {
        let variables = run_variables_at(state.game(), alloc, self.0)?;
        let place = Place {
            local: true,
            scope: self.0,
        };
        let finder = &place;
        let things = variables.as_slice();
        Each { finder, things }.put(alloc, state, moment, out)
    }
}
