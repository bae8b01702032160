//! How values stand in bytes: layouts, how values are written and measured by them, and how they are read.
#![tactic(auto)]

/// Pairs of pairs, the last two innermost: `pairs!(a, b, c)` is `(a, (b, c))`. It is an expression, and a pattern of names.
#[macro_export]
macro_rules! pairs {
    ($only:ident) => { $only };
    ($first:ident, $($others:ident),+) => { ($first, $crate::pairs!($($others),+)) };
    ($only:expr) => { $only };
    ($first:expr, $($others:expr),+) => { ($first, $crate::pairs!($($others),+)) };
}

mod cursor;
mod encoder;
mod fault;
mod field;
mod fields;
mod format;
mod front;
mod list;
mod skip;
mod text;
mod value;

pub use cursor::Cursor;
pub use encoder::Encoder;
pub use fault::ReadFault;
pub use fields::Fields;
pub use format::{Format, append, size};
pub use front::{write_count, write_tagged};
pub use skip::Skip;
