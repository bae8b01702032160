ghost use Rattle.std.specs.Prelude.{◌≡◌, ◌<◌, [], IfOk, IfErr, IfSome, IsSome, ◌↔◌, IsTrue, OnOk, OnErr, length};
ghost use Rattle.std.specs.Option.{option_copied};

use crate::{List, Text, TryCopy, Value};
use std::alloc::{AllocError, Global};
use std::cmp::Ordering;
use std::marker::Model;

/// A variable: a name and its value.
#[derive(Debug, Drop)]
pub struct Variable {
    pub name: Text,
    pub value: Value,
}

impl TryCopy for Variable {
    fn copy(&self, alloc: Global) -> Result<Variable, AllocError> {
        Ok(Variable {
            name: self.name.copy(alloc)?,
            value: self.value.copy(alloc)?,
        })
    }
}

/// Variables, their names strictly ascending in byte order.
#[derive(Debug, Drop)]
pub struct Vars {
    items: Vec<Variable>,
}

impl Model for Vars {
    ghost use Rattle.std.specs.Prelude.{List, IsTrue};
    ghost use Rattle.zb_base.specs.declared.vars.Variable.{Variable};

    ghost Value = { List Variable };

    ghost use Rattle.zb_base.specs.Vars.{is_ascending};

    ghost view = { λ l. l.items.items };

    ghost invariant = { λ l. IsTrue (is_ascending l.items.items) };
}

impl Vars {
    ghost use Rattle.zb_base.specs.Vars.{is_ascending, value_named, with_value};

    /// No variables. It takes no memory.
    pub fn empty(alloc: Global) -> Vars
        ensures { result ≡ [] }
    {
        Vars {
            items: Vec::new(alloc),
        }
    }

    /// These variables. None where their names don't ascend. It takes a step for each variable.
    pub fn of(variables: List<Variable>) -> Option<Vars>
        ensures made { IfSome result (λ vars. vars ≡ variables) }
        ensures ascending { IsSome result ↔ IsTrue (is_ascending variables) }
    {
        if ascends(variables.as_slice()) {
            Some(Vars {
                items: variables.into_vec(),
            })
        } else {
            None
        }
    }

    /// The value of a name. It takes a step for each variable.
    pub fn get(&self, name: &str) -> Option<&Value>
        ensures { option_copied result ≡ value_named name.now self.now }
    {
        match place(self.items.as_slice(), name) {
            Ok(index) => Some(&self.items[index].value),
            Err(_) => None,
        }
    }

    /// Sets the value of a name. After a refusal nothing has changed, and the value is dropped.
    /// It takes a step for each variable.
    pub fn put(&mut self, name: Text, value: Value) -> Result<(), AllocError>
        ensures ok { OnOk result (self.new ≡ with_value name value self.old) }
        ensures err { OnErr result (self.new ≡ self.old) }
    {
        match place(self.items.as_slice(), name.as_str()) {
            Ok(index) => {
                self.items[index] = Variable { name, value };
                Ok(())
            }
            Err(index) => {
                self.items.insert(index, Variable { name, value })?;
                Ok(())
            }
        }
    }

    /// The variables, their names strictly ascending.
    pub fn as_slice(&self) -> &[Variable]
        ensures value { result.now ≡ self.now }
        ensures ascending { IsTrue (is_ascending self.now) }
    {
        self.items.as_slice()
    }
}

impl TryCopy for Vars {
    fn copy(&self, alloc: Global) -> Result<Vars, AllocError> {
        let mut items = Vec::with_capacity(alloc, self.items.len())?;
        for variable in &self.items {
            items.push(variable.copy(alloc)?)?;
        }
        Ok(Vars { items })
    }
}

ghost use Rattle.zb_base.specs.Vars.{is_ascending};

// Whether the names of the variables strictly ascend.
fn ascends(variables: &[Variable]) -> bool
    ensures { result ≡ is_ascending variables.now }
{
    for (index, variable) in variables.iter().enumerate() {
        if let Some(next) = variables.get(index + 1) {
            if !variable.name.as_str().cmp(next.name.as_str()).is_lt() {
                return false;
            }
        }
    }
    true
}

ghost use Rattle.std.specs.declared.cmp.Ordering.TheVariants.{Less, Equal};
ghost use Rattle.zb_base.specs.Vars.{StandsAt};

// Where the name stands among variables, or else where it would stand.
fn place(variables: &[Variable], name: &str) -> Result<usize, usize>
    ensures found { IfOk result (StandsAt name.now variables.now Equal) }
    ensures within { IfOk result (λ index. index < length variables.now) }
    ensures missing { IfErr result (StandsAt name.now variables.now Less) }
{
    for (index, variable) in variables.iter().enumerate() {
        match name.cmp(variable.name.as_str()) {
            Ordering::Less => return Err(index),
            Ordering::Equal => return Ok(index),
            Ordering::Greater => {}
        }
    }
    Err(variables.len())
}
