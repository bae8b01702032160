ghost use Rattle.std.specs.Prelude.{◌≡◌};
ghost use Rattle.zb_expr.specs.declared.fault.EvalFault.TheVariants.{Memory};
ghost use Rattle.zb_expr.specs.declared.fault.ExprFault.TheVariants as expr_faults;

use std::alloc::{AllocError, AllocFailed};
use thiserror::Error;

/// Why an expression was given no value.
#[derive(Clone, Copy, Debug, PartialEq, Eq, Error)]
pub enum EvalFault {
    /// A name has no value.
    #[error("a name has no value")]
    Unknown,
    /// An operand or a member is of the wrong kind.
    #[error("an operand or a member is of the wrong kind")]
    Kind,
    /// A whole number is outside 64 bits.
    #[error("a whole number is outside 64 bits")]
    Overflow,
    #[error("there was no memory")]
    Memory,
}

impl From<AllocError> for EvalFault {
    ghost from_gives = { λ _ fault. fault ≡ Memory };

    fn from(_: AllocError) -> Self {
        EvalFault::Memory
    }
}

impl<T: Drop> From<AllocFailed<T>> for EvalFault {
    ghost from_gives = { λ _ fault. fault ≡ Memory };

    fn from(_: AllocFailed<T>) -> Self {
        EvalFault::Memory
    }
}

/// Why a text was not read as an expression.
#[derive(Clone, Copy, Debug, PartialEq, Eq, Error)]
pub enum ExprFault {
    /// It is none.
    #[error("the text is no expression")]
    NotExpr,
    #[error("there was no memory")]
    Memory,
}

impl From<AllocError> for ExprFault {
    ghost from_gives = { λ _ fault. fault ≡ expr_faults.Memory };

    fn from(_: AllocError) -> Self {
        ExprFault::Memory
    }
}

impl<T: Drop> From<AllocFailed<T>> for ExprFault {
    ghost from_gives = { λ _ fault. fault ≡ expr_faults.Memory };

    fn from(_: AllocFailed<T>) -> Self {
        ExprFault::Memory
    }
}
