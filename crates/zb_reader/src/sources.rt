ghost use Rattle.std.specs.Prelude.{◌≡◌, IfOk, option_map};
ghost use Rattle.zb_process.specs.Tree as tree;
ghost use Rattle.zb_expr.specs.Reading.{expr_read};
ghost use Rattle.zb_reader.specs.Leaves as spec;

use std::alloc::{AllocError, Global};
use zb_base::Text;
use zb_expr::{ExprFault, parse};
use zb_process::{Expr, ExprNode};

/// Whether a text stands for an expression, and has at most so many bytes where it has no sign.
pub fn is_source(alloc: Global, text: &str, most: usize) -> Result<bool, AllocError>
    ensures { IfOk result (λ good. good ≡ spec.is_source most text.now) }
{
    match formula_in(text) {
        Some(formula) => Ok(parsed(alloc, formula)?.is_some()),
        None => Ok(text.len() <= most),
    }
}

/// The expression that a text stands for, if it does.
pub fn source_of(alloc: Global, text: &str) -> Result<Option<Expr>, AllocError>
    ensures { IfOk result (λ source. source ≡ spec.source_of text.now) }
{
    match formula_in(text) {
        Some(formula) => parsed(alloc, formula),
        None => Ok(Some(constant(alloc, text)?)),
    }
}

// The text behind the sign, which is that of an expression.
fn formula_in(text: &str) -> Option<&str>
    ensures { option_map (λ formula. formula.now) result ≡ spec.formula_in text.now }
{
    text.strip_prefix("=")
}

// The expression that a text is, if it is one.
#[tactic(auto, using(crate::proofs::SourceLemmas::read_some))]
fn parsed(alloc: Global, text: &str) -> Result<Option<Expr>, AllocError>
    ensures { IfOk result (λ expr. expr ≡ expr_read text.now) }
{
    match parse(alloc, text) {
        Ok(expr) => Ok(Some(expr)),
        Err(ExprFault::NotExpr) => Ok(None),
        Err(ExprFault::Memory) => Err(AllocError),
    }
}

// The expression that has this text as its value.
fn constant(alloc: Global, text: &str) -> Result<Expr, AllocError>
    ensures { IfOk result (λ expr. expr ≡ tree.Text text.now) }
{
    Ok(Expr {
        node: ExprNode::Text(Text::of(alloc, text)?),
    })
}
