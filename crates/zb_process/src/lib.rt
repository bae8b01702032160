//! Process models and their expressions: how they are copied, and how they stand in bytes.
#![tactic(auto)]

mod copies;
mod expr;
mod expression;
mod kind;
mod model;
mod operator;

pub use expr::{Expr, ExprNode};
pub use model::{Flow, Mapping, Model, Multi, Node, NodeKind};
pub use operator::Operator;
