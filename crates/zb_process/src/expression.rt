ghost use Rattle.zb_process.specs.Layouts as layouts;

mod reading;
mod writing;

use crate::Expr;
use reading::read_tree;
use std::alloc::{AllocError, Global};
use writing::write_tree;
use zb_format::{Cursor, Encoder, Format, ReadFault};

// How many levels an expression may have: 64 expressions stand around a leaf, and the leaf.
const LEVELS: u32 = 65;

#[tactic(auto, unfolding(crate::specs::Layouts::expression))]
impl Format for Expr {
    ghost layout = { layouts.expression };

    fn write(&self, encoder: &mut Encoder) -> Result<(), AllocError> {
        write_tree(self, encoder)
    }

    fn read(alloc: Global, cursor: &mut Cursor<'_>) -> Result<Expr, ReadFault> {
        read_tree(alloc, LEVELS, cursor)
    }
}
