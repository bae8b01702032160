//! Whether two values are the same: what commands are made of, commands, and the packets that carry them.
#![tactic(auto)]

/// Whether all of these fields of two values are the same.
macro_rules! same {
    ($one:expr, $other:expr; $only:ident) => { $one.$only.is_same(&$other.$only) };
    ($one:expr, $other:expr; $first:ident, $($others:ident),+) => {
        $one.$first.is_same(&$other.$first) && same!($one, $other; $($others),+)
    };
}

mod commands;
mod expressions;
mod lists;
mod models;
mod plain;
mod same;

pub use lists::is_among;
pub use same::Same;
