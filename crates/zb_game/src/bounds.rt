// Events at the boundaries of activities.
ghost use Rattle.std.specs.Prelude.{◌≡◌, filter};
ghost use Rattle.std.specs.List.{find};
ghost use Rattle.std.specs.Option.{option_copied};
ghost use Rattle.zb_faults.specs.Elements.{is_boundary_of};

use zb_graph::Graph;
use zb_process::Node;
use zb_table::Query;

/// The first event that passes at the boundary of the activity with an id. It goes through those up to that.
pub fn boundary_event<'a, Q: Query<Node>>(model: &'a Graph, id: &str, query: &Q) -> Option<&'a Node>
    ensures { option_copied result ≡ find (Q.passes query.now) (filter (is_boundary_of id.now) model.now.nodes) }
{
    for number in model.bounds_of(id) {
        let node = model.node(*number);
        if query.passes(node) {
            return Some(node);
        }
    }
    None
}
