// What has an id, and what is found by it.
ghost use Rattle.std.specs.Prelude.{◌≡◌, ℕ, List, IfOk, OnOk, map, ◌++◌};
ghost use Rattle.std.specs.List.{find};
ghost use Rattle.std.specs.Option.{option_copied};
ghost use Rattle.std.specs.Str.{bytes_eq};
ghost use Rattle.zb_faults.specs.Elements.{ids_of};
ghost use Rattle.zb_check.specs.Notes.{noted};

use crate::notes::Notes;
use std::alloc::{AllocError, Global};
use zb_base::Text;
use zb_process::{Flow, Model, Node};

/// What has an id.
pub trait HasId {
    ghost id_of: { Self → List ℕ };

    fn id(&self) -> &Text
        ensures { result.now ≡ id_of self.now };
}

impl HasId for Node {
    ghost id_of = { λ n. n.id };

    fn id(&self) -> &Text {
        &self.id
    }
}

impl HasId for Flow {
    ghost id_of = { λ f. f.id };

    fn id(&self) -> &Text {
        &self.id
    }
}

/// The first one of these with each id.
pub fn by_id<'a, T: HasId>(alloc: Global, items: &'a [T]) -> Result<Notes<'a, &'a T>, AllocError>
    ensures { IfOk result (λ index. (id : List ℕ)
        → option_copied (noted index id) ≡ find (λ x. bytes_eq (T.id_of x) id) items.now) }
{
    let mut index = Notes::empty(alloc);
    for item in items {
        index.keep(item.id(), item)?;
    }
    Ok(index)
}

/// The ids of a model, in order: the process, the nodes, the flows.
pub fn ids_of<'a>(alloc: Global, model: &'a Model) -> Result<Vec<&'a Text>, AllocError>
    ensures { IfOk result (λ ids. map (λ id. id.now) ids.items ≡ ids_of model.now) }
{
    let mut ids = Vec::new(alloc);
    ids.push(&model.process)?;
    push_ids(&mut ids, model.nodes.as_slice())?;
    push_ids(&mut ids, model.flows.as_slice())?;
    Ok(ids)
}

// Adds the ids of these at the end.
fn push_ids<'a, T: HasId>(ids: &mut Vec<&'a Text>, items: &'a [T]) -> Result<(), AllocError>
    ensures { OnOk result (map (λ id. id.now) ids.new.items
        ≡ map (λ id. id.now) ids.old.items ++ map T.id_of items.now) }
{
    for item in items {
        ids.push(item.id())?;
    }
    Ok(())
}
