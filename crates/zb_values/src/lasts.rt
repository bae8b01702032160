// Variables of which the last one of a name counts.
ghost use Rattle.std.specs.Prelude.{◌≡◌, [], Some, if◌then◌else◌};
ghost use Rattle.std.specs.Option.{option_copied};
ghost use Rattle.std.specs.Ordering.{is_eq};
ghost use Rattle.zb_base.specs.Vars.{order_of, value_named};
ghost use Rattle.zb_tokens.specs.Catches.{set_over};

use zb_base::{Value, Variable};

/// The value that a name has once these variables are set, one after another. It goes through all of them.
pub fn last_value<'a>(variables: &'a [Variable], name: &str) -> Option<&'a Value>
    ensures { option_copied result ≡ value_named name.now (set_over variables.now []) }
{
    let mut found = None;
    for variable in variables {
        found = after(variable, name, found);
    }
    found
}

// The value that a name has once a variable is set, where it had this one before.
fn after<'a>(variable: &'a Variable, name: &str, before: Option<&'a Value>) -> Option<&'a Value>
    ensures { option_copied result ≡ (if is_eq (order_of name.now variable.now.name) then Some variable.now.value else option_copied before.entry) }
{
    if name.cmp(variable.name.as_str()).is_eq() {
        Some(&variable.value)
    } else {
        before
    }
}
