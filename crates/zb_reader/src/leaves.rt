ghost use Rattle.std.specs.Prelude.{◌≡◌, IfOk, false};
ghost use Rattle.std.specs.Option.{option_map_or};
ghost use Rattle.serde_json.specs.Find.{as_str};
ghost use Rattle.serde_json.specs.View.{view};
ghost use Rattle.zb_reader.specs.Leaves as spec;
ghost use Rattle.zb_reader.specs.Shapes as shapes;

use crate::shapes::is_element;
use crate::sources::is_source;
use crate::table::Leaf;
use serde_json::Value as Json;
use std::alloc::{AllocError, Global};

/// Whether a value may stand where such a leaf does.
pub fn is_leaf(alloc: Global, leaf: Leaf, value: &Json) -> Result<bool, AllocError>
    ensures { IfOk result (λ good. good ≡ shapes.is_leaf leaf (view value.now)) }
{
    match leaf {
        Leaf::Text(most) => Ok(is_short(value, most)),
        Leaf::Flag => Ok(value.is_boolean()),
        Leaf::Number(least, most) => Ok(is_between(value, least, most)),
        Leaf::Source(most) => is_source_value(alloc, value, most),
        Leaf::Element => Ok(is_element(value)),
    }
}

/// Whether a value is a text of at most so many bytes.
pub fn is_short(value: &Json, most: usize) -> bool
    ensures { result ≡ spec.is_short most (view value.now) }
{
    value.as_str().is_some_and(|text| text.len() <= most)
}

/// Whether a value is a whole number from the first of these to the second.
pub fn is_between(value: &Json, least: u64, most: u64) -> bool
    ensures { result ≡ spec.is_between least most (view value.now) }
{
    value
        .as_u64()
        .is_some_and(|number| least <= number && number <= most)
}

// Whether a value is a text that stands for an expression.
fn is_source_value(alloc: Global, value: &Json, most: usize) -> Result<bool, AllocError>
    ensures { IfOk result
        (λ good. good ≡ option_map_or (spec.is_source most) (as_str (view value.now)) false) }
{
    match value.as_str() {
        Some(text) => is_source(alloc, text, most),
        None => Ok(false),
    }
}
