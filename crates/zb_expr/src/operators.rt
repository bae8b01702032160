ghost use Rattle.std.specs.Prelude.{◌≡◌, ◌+ℤ◌, ◌-ℤ◌, ◌*ℤ◌, neg_ℤ};
ghost use Rattle.zb_base.specs.declared.value.Value.TheVariants as values;
ghost use Rattle.zb_process.specs.Expr.{between, fitting, opposite, negative};
ghost use Rattle.zb_expr.specs.Outcome.{Evaluates};

use crate::EvalFault;
use zb_base::Value;
use zb_process::Operator;

/// The value of an operator between two values. It takes a step for each byte or item of the two.
pub fn apply(operator: Operator, left: &Value, right: &Value) -> Result<Value, EvalFault>
    ensures { Evaluates result (between operator left.now right.now) }
{
    match (left, right) {
        (Value::Int(x), Value::Int(y)) => between_numbers(operator, *x, *y),
        (Value::Bool(x), Value::Bool(y)) => between_truths(operator, *x, *y),
        (Value::Text(x), Value::Text(y)) => between_texts(operator, x.as_str(), y.as_str()),
        (Value::List(x), Value::List(y)) => between_lists(operator, x.as_slice(), y.as_slice()),
        _ => Err(EvalFault::Kind),
    }
}

/// The other truth value.
pub fn opposite_of(value: &Value) -> Result<Value, EvalFault>
    ensures { Evaluates result (opposite value.now) }
{
    match value {
        Value::Bool(flag) => Ok(Value::Bool(!*flag)),
        _ => Err(EvalFault::Kind),
    }
}

/// The whole number with the other sign.
pub fn negative_of(value: &Value) -> Result<Value, EvalFault>
    ensures { Evaluates result (negative value.now) }
{
    match value {
        Value::Int(number) => negated(*number),
        _ => Err(EvalFault::Kind),
    }
}

fn between_numbers(operator: Operator, x: i64, y: i64) -> Result<Value, EvalFault>
    ensures { Evaluates result (between operator (values.Int x) (values.Int y)) }
{
    match operator {
        Operator::Add => sum(x, y),
        Operator::Subtract => difference(x, y),
        Operator::Multiply => product(x, y),
        Operator::Equal => Ok(Value::Bool(x == y)),
        Operator::NotEqual => Ok(Value::Bool(x != y)),
        Operator::Less => Ok(Value::Bool(x < y)),
        Operator::AtMost => Ok(Value::Bool(x <= y)),
        Operator::Greater => Ok(Value::Bool(x > y)),
        Operator::AtLeast => Ok(Value::Bool(x >= y)),
        Operator::And | Operator::Or => Err(EvalFault::Kind),
    }
}

fn between_truths(operator: Operator, x: bool, y: bool) -> Result<Value, EvalFault>
    ensures { Evaluates result (between operator (values.Bool x) (values.Bool y)) }
{
    match operator {
        Operator::Equal => Ok(Value::Bool(x == y)),
        Operator::NotEqual => Ok(Value::Bool(x != y)),
        Operator::And => Ok(Value::Bool(x && y)),
        Operator::Or => Ok(Value::Bool(x || y)),
        _ => Err(EvalFault::Kind),
    }
}

fn between_texts(operator: Operator, x: &str, y: &str) -> Result<Value, EvalFault>
    ensures { Evaluates result (between operator (values.Text x.now) (values.Text y.now)) }
{
    match operator {
        Operator::Equal => Ok(Value::Bool(x.cmp(y).is_eq())),
        Operator::NotEqual => Ok(Value::Bool(!x.cmp(y).is_eq())),
        _ => Err(EvalFault::Kind),
    }
}

fn between_lists(operator: Operator, x: &[i64], y: &[i64]) -> Result<Value, EvalFault>
    ensures { Evaluates result (between operator (values.List x.now) (values.List y.now)) }
{
    match operator {
        Operator::Equal => Ok(Value::Bool(x.cmp(&y).is_eq())),
        Operator::NotEqual => Ok(Value::Bool(!x.cmp(&y).is_eq())),
        _ => Err(EvalFault::Kind),
    }
}

#[tactic(auto, using(crate::proofs::FittingLemmas::fitted))]
fn sum(x: i64, y: i64) -> Result<Value, EvalFault>
    ensures { Evaluates result (fitting (x +ℤ y)) }
{
    match x.checked_add(y) {
        Some(sum) => Ok(Value::Int(sum)),
        None => Err(EvalFault::Overflow),
    }
}

#[tactic(auto, using(crate::proofs::FittingLemmas::fitted))]
fn difference(x: i64, y: i64) -> Result<Value, EvalFault>
    ensures { Evaluates result (fitting (x -ℤ y)) }
{
    match x.checked_sub(y) {
        Some(difference) => Ok(Value::Int(difference)),
        None => Err(EvalFault::Overflow),
    }
}

#[tactic(auto, using(crate::proofs::FittingLemmas::fitted))]
fn product(x: i64, y: i64) -> Result<Value, EvalFault>
    ensures { Evaluates result (fitting (x *ℤ y)) }
{
    match x.checked_mul(y) {
        Some(product) => Ok(Value::Int(product)),
        None => Err(EvalFault::Overflow),
    }
}

#[tactic(auto, using(crate::proofs::FittingLemmas::fitted))]
fn negated(number: i64) -> Result<Value, EvalFault>
    ensures { Evaluates result (fitting (neg_ℤ number)) }
{
    match number.checked_neg() {
        Some(negated) => Ok(Value::Int(negated)),
        None => Err(EvalFault::Overflow),
    }
}
