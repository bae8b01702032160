ghost use Rattle.std.specs.Prelude.{◌≡◌};
ghost use Rattle.zb_expr.specs.Instructions.{arity};

use zb_base::{Text, Value};
use zb_process::Operator;

/// An instruction of postfix code. It takes its operands off a stack, and puts its value there.
#[derive(Drop)]
pub enum Instruction {
    Constant(Value),
    Name(Text),
    /// The list of so many members.
    List(usize),
    Not,
    Minus,
    Binary(Operator),
}

impl Instruction {
    /// How many operands it takes.
    pub fn arity(&self) -> usize
        ensures { result ≡ arity self.now }
    {
        match self {
            Instruction::Constant(_) | Instruction::Name(_) => 0,
            Instruction::List(count) => *count,
            Instruction::Not | Instruction::Minus => 1,
            Instruction::Binary(_) => 2,
        }
    }
}
