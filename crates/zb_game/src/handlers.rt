// Handlers of activities, and those that compensation events run next.
ghost use Rattle.std.specs.Prelude.{◌≡◌};
ghost use Rattle.std.specs.Option.{option_copied};
ghost use Rattle.zb_faults.specs.Elements.{is_activity, is_at, is_compensation_boundary};
ghost use Rattle.zb_tokens.specs.Handlers.{can_be_undone, handler_of, has_handler, has_handler_at, last_finished, last_handler, next_handler};

use crate::bounds::boundary_event;
use zb_base::Text;
use zb_board::{Game, owes_none, undoes};
use zb_faults::{is_activity, is_compensation_boundary};
use zb_graph::Graph;
use zb_process::Node;
use zb_table::Query;
use zb_tokens::Cell;

/// The handler that a cell runs next, if it is at a compensation event, and one is left in its scope: that of the activity
/// that finished last there. It costs what `Game::cell` and `Game::model` do, and goes through the boundary events of that
/// activity.
pub fn next_handler<'a>(game: &'a Game, cell: &Cell) -> Option<&'a Text>
    ensures { option_copied result ≡ next_handler game.now cell.now }
{
    let model = game.model(cell.definition)?;
    if undoes(model, cell) {
        last_handler(model, game.cell(cell.scope)?)
    } else {
        None
    }
}

/// Whether a handler is left that a cell runs next.
pub fn has_handler(game: &Game, cell: &Cell) -> bool
    ensures { result ≡ has_handler game.now cell.now }
{
    next_handler(game, cell).is_some()
}

/// Whether a cell can be undone once it has finished: it runs an activity with a handler as a whole.
pub fn can_be_undone(game: &Game, cell: &Cell) -> bool
    ensures { result ≡ can_be_undone game.now cell.now }
{
    if owes_none(cell) {
        return false;
    }
    match game.model(cell.definition) {
        Some(model) => has_handler_at(model, cell.node.as_str()),
        None => false,
    }
}

// Whether an activity of a model has a handler.
fn has_handler_at(model: &Graph, id: &str) -> bool
    ensures { result ≡ has_handler_at model.now id.now }
{
    is_activity_at(model, id) && handler_of(model, id).is_some()
}

// Whether the node with an id is an activity.
fn is_activity_at(model: &Graph, id: &str) -> bool
    ensures { result ≡ is_at model.now id.now is_activity }
{
    match model.node_with(id) {
        Some(node) => is_activity(node.kind),
        None => false,
    }
}

// The handler of the activity that finished last in a scope.
fn last_handler<'a>(model: &'a Graph, scope: &Cell) -> Option<&'a Text>
    ensures { option_copied result ≡ last_handler model.now scope.now }
{
    handler_of(model, last_finished(scope)?.as_str())
}

// The activity that finished last in a scope.
fn last_finished(scope: &Cell) -> Option<&Text>
    ensures { option_copied result ≡ last_finished scope.now }
{
    scope.finished.as_slice().last()
}

// The handler of an activity: the one that the compensation event at its boundary names. It goes through the boundary
// events of that up to this.
fn handler_of<'a>(model: &'a Graph, id: &str) -> Option<&'a Text>
    ensures { option_copied result ≡ handler_of model.now id.now }
{
    Some(&boundary_event(model, id, &IsCompensation)?.name)
}

// Whether a node is a compensation event at the boundary of an activity.
#[derive(Drop)]
struct IsCompensation;

impl Query<Node> for IsCompensation {
    ghost passes = { λ _ n. is_compensation_boundary n.kind };

    fn passes(&self, node: &Node) -> bool {
        is_compensation_boundary(node.kind)
    }
}
