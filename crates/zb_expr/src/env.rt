ghost use Rattle.std.specs.Prelude.{◌≡◌, ℕ, List, Option};
ghost use Rattle.std.specs.Option.{option_copied};
ghost use Rattle.zb_base.specs.Vars.{value_named};
ghost use Rattle.zb_base.specs.declared.value.Value.{Value};

use zb_base::{Value, Vars};

/// Where the names of an expression have values.
pub trait Env {
    /// The value that each name has.
    ghost values: { Self → List ℕ → Option Value };

    /// The value of a name.
    fn look(&self, name: &str) -> Option<&Value>
        ensures { option_copied result ≡ values self.now name.now };
}

impl Env for Vars {
    ghost values = { λ vars name. value_named name vars };

    fn look(&self, name: &str) -> Option<&Value> {
        self.get(name)
    }
}
