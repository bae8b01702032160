// What events by which cells begin ask of the game.
ghost use Rattle.std.specs.Prelude.{◌≡◌, List};
ghost use Rattle.zb_model.specs.declared.record.Event.{Event};
ghost use Rattle.zb_rules.specs.Applies.{begins_well, begins_instance, begins_cell, suits, suits_scope};
ghost use Rattle.zb_state.specs.State.{partition_of, IsStateOf};
ghost use Rattle.zb_tokens.specs.Board.{is_role};

use crate::Facts;
use zb_board::Game;
use zb_course::role_on;
use zb_model::{ElementActivating, Key, Role};
use zb_tokens::Cell;

impl Facts {
    // Whether the cell that begins is a plain root, with which an instance begins, or suits its scope.
    pub(super) fn begins_well(&self, element: &ElementActivating) -> bool
        ensures { (es : List Event) → IsStateOf es self.now → result ≡ begins_well (partition_of self.now) es element.now }
    {
        if element.scope == Key::new(0) {
            is_role(element.role, Role::Plain) && self.begins_instance(element)
        } else {
            self.begins_cell(element)
        }
    }

    // Whether the root is that of the instance that the last event began or a message starts.
    fn begins_instance(&self, element: &ElementActivating) -> bool
        ensures { (es : List Event) → IsStateOf es self.now → result ≡ begins_instance es element.now }
    {
        self.left.leaves_root(element.key, element.definition)
            && self
                .game
                .board()
                .is_process_of(element.definition, element.node.as_str())
            && element.via.as_str().is_empty()
            && self.starts_with(element.started.as_str())
    }

    // Whether the cell has a fresh key and suits its scope, and no message starts it.
    fn begins_cell(&self, element: &ElementActivating) -> bool
        ensures { (es : List Event) → IsStateOf es self.now → result ≡ begins_cell (partition_of self.now) es element.now }
    {
        self.is_fresh(element.key)
            && self.suits_scope(element)
            && element.started.as_str().is_empty()
    }

    // Whether the cell has the definition of its scope, and suits that.
    fn suits_scope(&self, element: &ElementActivating) -> bool
        ensures { result ≡ suits_scope element.now self.now.game }
    {
        let game = self.game.board();
        match game.cell(element.scope) {
            Some(scope) => { scope.definition == element.definition && suits(game, element, scope) }
            None => false,
        }
    }
}

// Whether the cell begins in its scope by no flow, as a run of it at its node, or as a handler; or else in the role that its
// node tells.
fn suits(game: &Game, element: &ElementActivating, scope: &Cell) -> bool
    ensures { result ≡ suits game.now element.now scope.now }
{
    let node = element.node.as_str();
    if is_role(element.role, Role::Inner) {
        node == scope.node.as_str() && element.via.as_str().is_empty()
    } else if is_role(element.role, Role::Handler) {
        element.via.as_str().is_empty()
    } else {
        is_role(element.role, role_on(game, scope, node))
    }
}

// Whether two roles are the same.
fn is_role(one: Role, other: Role) -> bool
    ensures { result ≡ is_role one other }
{
    one == other
}
