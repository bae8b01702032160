ghost use Rattle.std.specs.Prelude.{◌≡◌, IfOk};
ghost use Rattle.serde_json.specs.View.{view};
ghost use Rattle.zb_reader.specs.Layout.{model_of};
ghost use Rattle.zb_reader.specs.Shapes.{place_in_model};

use crate::making::FromJson;
use crate::placing::place_in_part;
use crate::table::Part;
use serde_json::Value as Json;
use std::alloc::{AllocError, Global};
use zb_base::Text;
use zb_process::Model;

// A model has nodes, and these have parts that have no others.
const LEVELS: u32 = 3;

/// Where a value first fails to be a model, if it does: a JSON pointer (RFC 6901), empty for the whole value. It
/// takes time in proportion to the value.
#[tactic(auto, unfolding(crate::specs::Shapes::place_in_model))]
pub fn model_place(alloc: Global, value: &Json) -> Result<Option<Text>, AllocError>
    ensures { IfOk result (λ place. place ≡ place_in_model (view value.now)) }
{
    place_in_part(alloc, LEVELS, Part::Model, value)
}

/// The model that a value is, where no place fails. It takes time in proportion to the value.
#[tactic(auto, unfolding(crate::specs::Layout::model_of))]
pub fn read_model(alloc: Global, value: &Json) -> Result<Model, AllocError>
    ensures { IfOk result (λ model. model ≡ model_of (view value.now)) }
{
    Model::make(alloc, value)
}
