use zb_base::List;
use zb_process::Expr;

/// An expression that was read.
#[derive(Drop)]
pub struct Part {
    pub expr: Expr,
    /// How many operators, nots, lists and pairs of parentheses stand around the leaf that has the most.
    pub around: u32,
    /// How tightly it binds.
    pub level: u32,
}

/// The members of a list that were read.
#[derive(Drop)]
pub struct Listed {
    pub members: List<Expr>,
    /// As of a part, the list included.
    pub around: u32,
}
