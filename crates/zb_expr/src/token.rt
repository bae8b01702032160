use zb_base::Text;
use zb_process::Operator;

/// A token that is an expression by itself.
#[derive(Drop)]
pub enum Leaf {
    Int(i64),
    Bool(bool),
    Text(Text),
    Name(Text),
}

/// A token of an expression.
#[derive(Drop)]
pub enum Token {
    Leaf(Leaf),
    /// An operator between two operands. The one of a difference is also the sign.
    Operator(Operator),
    Not,
    Open,
    Close,
    OpenList,
    CloseList,
    Comma,
}
