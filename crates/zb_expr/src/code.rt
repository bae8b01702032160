ghost use Rattle.std.specs.Prelude.{◌≡◌, IsTrue};
ghost use Rattle.zb_expr.specs.Postfix.{tree_written, writes_one};

use crate::instruction::Instruction;
use std::marker::Model;
use zb_base::List;

/// The postfix code of an expression. Contracts see the expression.
#[derive(Drop)]
pub struct Code {
    instructions: List<Instruction>,
}

impl Model for Code {
    ghost use Rattle.std.specs.Prelude.{IsTrue};
    ghost use Rattle.zb_process.specs.Tree.{Tree};
    ghost use Rattle.zb_process.specs.TreeCode.{tree_code};

    ghost Value = { Tree };

    ghost coded = { tree_code };

    ghost use Rattle.zb_expr.specs.Postfix.{tree_written, writes_one};

    ghost view = { λ c. tree_written c.instructions };

    ghost invariant = { λ c. IsTrue (writes_one c.instructions) };
}

impl Code {
    // The code that these instructions are, which write one tree.
    pub(crate) fn new(instructions: List<Instruction>) -> Code
        requires { IsTrue (writes_one instructions) }
        ensures { result ≡ tree_written instructions }
    {
        Code { instructions }
    }

    // Its instructions.
    pub(crate) fn instructions(&self) -> &[Instruction]
        ensures one { IsTrue (writes_one result.now) }
        ensures tree { tree_written result.now ≡ self.now }
    {
        self.instructions.as_slice()
    }
}
