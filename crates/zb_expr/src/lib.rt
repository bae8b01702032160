//! Expressions: how they are read off texts and compiled, and their values, where names have values.
#![tactic(auto)]

mod bytes;
mod class;
mod code;
mod compiling;
mod env;
mod evaluation;
mod fault;
mod instruction;
mod laws;
mod operand;
mod operators;
mod parsing;
mod part;
mod reading;
mod running;
mod splitting;
mod token;
mod tokens;

pub use code::Code;
pub use compiling::compile;
pub use env::Env;
pub use evaluation::eval;
pub use fault::{EvalFault, ExprFault};
pub use laws::printed_trees_are_read_again;
pub use reading::parse;
pub use running::run;
