// The work that cells wait for at service tasks, and where it is done.
ghost use Rattle.std.specs.Prelude.{◌≡◌, option_map};
ghost use Rattle.std.specs.Option.{option_copied};
ghost use Rattle.zb_tokens.specs.Board.{cell_at, is_root};
ghost use Rattle.zb_tokens.specs.Mappings.{gives_outputs, node_of, own_node};
ghost use Rattle.zb_tokens.specs.Marks.{awaits_work, is_service_cell};
ghost use Rattle.zb_tokens.specs.Names.{root_of};
ghost use Rattle.zb_tokens.specs.Work.{is_work_in, may_have_job, work_at, work_of};

use zb_base::{Key, Text};
use zb_board::{Game, is_body, is_root, is_service_at, is_unset};
use zb_process::Node;
use zb_table::Query;
use zb_tokens::{Cell, Phase};

/// Whether a cell waits for its work, and no incident stands on it. The cell and its model are found as by `Game::cell`
/// and `Game::model`.
pub fn may_have_job(game: &Game, cell: Key) -> bool
    ensures { result ≡ may_have_job cell game.now }
{
    match game.cell(cell) {
        Some(cell) => awaits_work(game, cell) && !game.is_stuck(cell),
        None => false,
    }
}

/// The node by which a cell is to have a job: that of a service task. The cell and its model are found as by
/// `Game::cell` and `Game::model`.
pub fn work_at(game: &Game, cell: Key) -> Option<&Node>
    ensures { option_copied result ≡ work_at game.now cell }
{
    match game.cell(cell) {
        Some(cell) => work_of(game, cell),
        None => None,
    }
}

/// The instance that a cell is in: the root around it. It goes up the scopes; a cell is found as by `Game::cell`.
pub fn root_of(game: &Game, cell: Key) -> Option<Key>
    ensures { result ≡ root_of game.now cell }
{
    let root = game.nearest(cell, &IsRoot)?;
    Some(root.key)
}

/// Whether a cell is at a node, in an instance. It costs what `root_of` does.
pub fn is_work_in(game: &Game, cell: Key, instance: Key, node: &str) -> bool
    ensures { result ≡ is_work_in cell instance node.now game.now }
{
    match (node_id(game, cell), root_of(game, cell)) {
        (Some(id), Some(root)) => id.as_str() == node && root == instance,
        _ => false,
    }
}

/// The id of the node of a cell; that of the process at a root. The cell is found as by `Game::cell`.
pub fn node_id(game: &Game, cell: Key) -> Option<&Text>
    ensures { option_copied result ≡ option_map (λ c. c.node) (cell_at game.now cell) }
{
    match game.cell(cell) {
        Some(cell) => Some(&cell.node),
        None => None,
    }
}

/// Whether the node that a cell runs has outputs; `None` where the cell isn't there. The cell and its model are found as
/// by `Game::cell` and `Game::model`.
pub fn gives_outputs(game: &Game, cell: Key) -> Option<bool>
    ensures { result ≡ option_map (gives_outputs game.now) (cell_at game.now cell) }
{
    match game.cell(cell) {
        Some(cell) => Some(has_outputs(game, cell)),
        None => None,
    }
}

// Whether the node that this cell runs has outputs.
#[tactic(auto, using(zb_board::proofs::AskingLemmas::compared))]
fn has_outputs(game: &Game, cell: &Cell) -> bool
    ensures { result ≡ gives_outputs game.now cell.now }
{
    match own_node(game, cell) {
        Some(node) => !node.outputs.as_slice().is_empty(),
        None => false,
    }
}

/// Whether a cell waits for its work: it is active, at a service task, and was told nothing so far. Its model is found as
/// by `Game::model`.
pub fn awaits_work(game: &Game, cell: &Cell) -> bool
    ensures { result ≡ awaits_work game.now cell.now }
{
    cell.phase == Phase::Active && is_unset(&cell.mark) && is_service_cell(game, cell)
}

// Whether a cell runs a service task; a body leaves that to the cells in it.
fn is_service_cell(game: &Game, cell: &Cell) -> bool
    ensures { result ≡ is_service_cell game.now cell.now }
{
    if is_root(cell) || is_body(cell) {
        return false;
    }
    match game.model(cell.definition) {
        Some(model) => is_service_at(model, cell.node.as_str()),
        None => false,
    }
}

// The node by which this cell is to have a job.
fn work_of<'a>(game: &'a Game, cell: &Cell) -> Option<&'a Node>
    ensures { option_copied result ≡ work_of game.now cell.now }
{
    if is_service_cell(game, cell) {
        node_at(game, cell)
    } else {
        None
    }
}

// The node whose activity a cell runs itself; a body leaves that to the cells in it.
fn own_node<'a>(game: &'a Game, cell: &Cell) -> Option<&'a Node>
    ensures { option_copied result ≡ own_node game.now cell.now }
{
    if is_body(cell) {
        None
    } else {
        node_at(game, cell)
    }
}

// The node of a cell; a root is at none.
fn node_at<'a>(game: &'a Game, cell: &Cell) -> Option<&'a Node>
    ensures { option_copied result ≡ node_of game.now cell.now }
{
    if is_root(cell) {
        return None;
    }
    match game.model(cell.definition) {
        Some(model) => model.node_with(cell.node.as_str()),
        None => None,
    }
}

// Whether a cell is a root.
struct IsRoot;

impl Query<Cell> for IsRoot {
    ghost passes = { λ _ c. is_root c };

    fn passes(&self, cell: &Cell) -> bool {
        is_root(cell)
    }
}
