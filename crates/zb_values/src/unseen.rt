// Variables that are added where their names aren't there yet.
ghost use Rattle.std.specs.Prelude.{◌≡◌, ◌∷◌, [], ℕ, List, IsTrue, OnOk};
ghost use Rattle.std.specs.Option.{option_or};
ghost use Rattle.zb_base.specs.Vars.{is_ascending, value_named};

use std::alloc::{AllocError, Global};
use zb_base::{TryCopy, Variable, Vars};

/// Adds the variables whose names aren't there yet, as copies. For each it goes through those that are there. After a
/// refusal the variables are only dropped.
pub fn add_unseen(alloc: Global, variables: &[Variable], seen: &mut Vars) -> Result<(), AllocError>
    ensures values { (name : List ℕ) → OnOk result (value_named name seen.new ≡ option_or (value_named name seen.old) (value_named name variables.now)) }
    ensures ascending { IsTrue (is_ascending seen.old) → OnOk result (IsTrue (is_ascending seen.new)) }
{
    for variable in variables {
        add_one(alloc, variable, seen)?;
    }
    Ok(())
}

// Adds one variable, where its name isn't there yet.
fn add_one(alloc: Global, variable: &Variable, seen: &mut Vars) -> Result<(), AllocError>
    ensures values { (name : List ℕ) → OnOk result (value_named name seen.new
        ≡ option_or (value_named name seen.old) (value_named name (variable.now ∷ []))) }
    ensures ascending { IsTrue (is_ascending seen.old) → OnOk result (IsTrue (is_ascending seen.new)) }
{
    match seen.get(variable.name.as_str()) {
        Some(_) => Ok(()),
        None => seen.put(variable.name.copy(alloc)?, variable.value.copy(alloc)?),
    }
}
