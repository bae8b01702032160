ghost use Rattle.std.specs.Prelude.{◌≡◌, IfOk, IsErrOf};
ghost use Rattle.zb_process.specs.Tree.{Tree};
ghost use Rattle.zb_expr.specs.declared.fault.ExprFault.TheVariants.{NotExpr};
ghost use Rattle.zb_expr.specs.Reading.{ComesAs, expr_read};
ghost use Rattle.zb_expr.specs.Lexical.{IsExpr};

use crate::ExprFault;
use crate::parsing::expr_of_tokens;
use crate::splitting::tokens_in;
use std::alloc::Global;
use zb_process::Expr;

// How many bytes the text of an expression may have.
const MOST_BYTES: usize = 4096;

/// The expression that a text is. It takes a step for each byte.
pub fn parse(alloc: Global, text: &str) -> Result<Expr, ExprFault>
    ensures ok { IfOk result (λ expr. IsExpr text.now expr) }
    ensures only { IfOk result (λ expr. (tree : Tree) → IsExpr text.now tree → tree ≡ expr) }
    ensures none { IsErrOf result NotExpr → (tree : Tree) → ¬ IsExpr text.now tree }
{
    expr_of_text(alloc, text)
}

fn expr_of_text(alloc: Global, text: &str) -> Result<Expr, ExprFault>
    ensures { ComesAs (λ expr. expr) (expr_read text.now) result }
{
    if text.len() > MOST_BYTES {
        return Err(ExprFault::NotExpr);
    }
    let tokens = tokens_in(alloc, text)?;
    expr_of_tokens(alloc, tokens.as_slice())
}
