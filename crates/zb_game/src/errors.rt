// Where errors are caught that were thrown in cells.
ghost use Rattle.std.specs.Prelude.{◌≡◌, false, filter, option_map};
ghost use Rattle.std.specs.List.{list_any};
ghost use Rattle.std.specs.Option.{option_copied, option_map_or};
ghost use Rattle.zb_faults.specs.Elements.{is_boundary_of};
ghost use Rattle.zb_tokens.specs.Errors.{catcher, catches, caught, error_event, error_event_of, first_for, is_for, is_same_event};
ghost use Rattle.zb_tokens.specs.MoveTrigger.{comes_about_by};
ghost use Rattle.zb_game.specs.Searches.{comes_about_at, error_event_in};

use crate::bounds::boundary_event;
use zb_base::{Key, Text};
use zb_board::{Game, error_of, is_inner, is_root};
use zb_faults::{is_activity, is_error_boundary};
use zb_graph::Graph;
use zb_process::Node;
use zb_table::Query;
use zb_tokens::{Cell, Phase, Triggered};

/// Whether at an event an error comes about that was thrown in a cell. It goes through the cells that may go on by
/// themselves, from the greatest key down to that one, which is the one that moves next; where the keys don't ascend,
/// through all.
pub fn comes_about(game: &Game, t: &Triggered) -> bool
    ensures { result ≡ list_any (comes_about_by game.now t.now) game.now.cells }
{
    match game.ready() {
        Some(ready) => ready.last_key(&ComesAboutAt { game, told: t }).is_some(),
        None => game.cells().first(&ComesAbout { game, told: t }).is_some(),
    }
}

// Whether the cell with a key is there, and its error comes about at an event.
fn comes_about_at(game: &Game, t: &Triggered, key: Key) -> bool
    ensures { result ≡ comes_about_at game.now t.now key }
{
    match game.cell(key) {
        Some(cell) => comes_about_by(game, t, cell),
        None => false,
    }
}

// Whether the error of a cell comes about at an event: the cell isn't stuck or called off, and there it is caught.
fn comes_about_by(game: &Game, t: &Triggered, cell: &Cell) -> bool
    ensures { result ≡ comes_about_by game.now t.now cell.now }
{
    cell.phase == Phase::Active
        && (!game.is_doomed(cell) && (!game.is_stuck(cell) && is_caught_at(game, t, cell)))
}

// Whether the error of a cell is caught at an event.
fn is_caught_at(game: &Game, t: &Triggered, cell: &Cell) -> bool
    ensures { result ≡ option_map_or (is_same_event t.now) (caught game.now cell.now) false }
{
    match caught(game, cell) {
        Some((host, event)) => host == t.cell && event.as_str() == t.node.as_str(),
        None => false,
    }
}

/// Where the error is caught that was thrown in a cell: the cell at whose boundary that is, and the event's id.
pub fn caught<'a>(game: &'a Game, cell: &Cell) -> Option<(Key, &'a Text)>
    ensures { option_map (λ e. record { cell = e.0; node = e.1.now }) result ≡ caught game.now cell.now }
{
    match error_of(&cell.mark) {
        Some(code) => catcher(game, code.as_str(), cell.key),
        None => None,
    }
}

/// Where an error with this code is caught that is thrown in the cell with a key: at which cell, and by which event at its
/// boundary; `None` where nothing catches it. It goes up the scopes, and through the boundary events of each cell; of the
/// one that catches it twice.
pub fn catcher<'a>(game: &'a Game, code: &str, thrown: Key) -> Option<(Key, &'a Text)>
    ensures { option_map (λ e. record { cell = e.0; node = e.1.now }) result ≡ catcher game.now code.now thrown }
{
    let cell = game.nearest(thrown, &Catches { game, code })?;
    let event = error_event_of(game, code, cell)?;
    Some((cell.key, &event.id))
}

// The event at the boundary of a cell that catches an error; a root has none, nor has a run of a body.
fn error_event_of<'a>(game: &'a Game, code: &str, cell: &Cell) -> Option<&'a Node>
    ensures { option_copied result ≡ error_event_of game.now code.now cell.now }
{
    match game.model(cell.definition) {
        Some(model) => {
            if is_inner(cell) || is_root(cell) {
                return None;
            }
            error_event_in(model, code, cell.node.as_str())
        }
        None => None,
    }
}

// The event at the boundary of the node with an id that catches an error.
fn error_event_in<'a>(model: &'a Graph, code: &str, id: &str) -> Option<&'a Node>
    ensures { option_copied result ≡ error_event_in model.now code.now id.now }
{
    match model.node_with(id) {
        Some(node) => error_event(model, code, node),
        None => None,
    }
}

// The event at the boundary of an activity that catches an error.
fn error_event<'a>(model: &'a Graph, code: &str, at: &Node) -> Option<&'a Node>
    ensures { option_copied result ≡ error_event model.now code.now at.now }
{
    if is_activity(at.kind) {
        first_for(model, code, at.id.as_str())
    } else {
        None
    }
}

// The boundary event at the activity with an id that catches an error: the first for its code, or else the first for any.
fn first_for<'a>(model: &'a Graph, code: &str, id: &str) -> Option<&'a Node>
    ensures { option_copied result ≡ first_for code.now (filter (is_boundary_of id.now) model.now.nodes) }
{
    match boundary_event(model, id, &IsFor { code }) {
        Some(event) => Some(event),
        None => boundary_event(model, id, &IsFor { code: "" }),
    }
}

// Whether a node is a boundary event for errors with a code.
fn is_for(code: &str, node: &Node) -> bool
    ensures { result ≡ is_for code.now node.now }
{
    is_error_boundary(node.kind) && node.name.as_str() == code
}

// Whether a node is a boundary event for errors with a code.
#[derive(Drop)]
struct IsFor<'a> {
    code: &'a str,
}

impl<'a> Query<Node> for IsFor<'a> {
    ghost passes = { λ q n. is_for q.code.now n };

    fn passes(&self, node: &Node) -> bool {
        is_for(self.code, node)
    }
}

// Whether at the boundary of a cell there is an event that catches an error.
#[derive(Drop)]
struct Catches<'a> {
    game: &'a Game,
    code: &'a str,
}

impl<'a> Query<Cell> for Catches<'a> {
    ghost passes = { λ q c. catches q.game.now q.code.now c };

    fn passes(&self, cell: &Cell) -> bool {
        let game = self.game;
        error_event_of(game, self.code, cell).is_some()
    }
}

// Whether at an event the error of the cell with a key comes about.
#[derive(Drop)]
struct ComesAboutAt<'a> {
    game: &'a Game,
    told: &'a Triggered,
}

impl<'a> Query<Key> for ComesAboutAt<'a> {
    ghost passes = { λ q key. comes_about_at q.game.now q.told.now key };

    fn passes(&self, key: &Key) -> bool {
        let game = self.game;
        comes_about_at(game, self.told, *key)
    }
}

// Whether at an event the error of a cell comes about.
#[derive(Drop)]
struct ComesAbout<'a> {
    game: &'a Game,
    told: &'a Triggered,
}

impl<'a> Query<Cell> for ComesAbout<'a> {
    ghost passes = { λ q c. comes_about_by q.game.now q.told.now c };

    fn passes(&self, cell: &Cell) -> bool {
        let game = self.game;
        comes_about_by(game, self.told, cell)
    }
}
