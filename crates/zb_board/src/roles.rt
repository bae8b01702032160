// What cells are in their scopes.
ghost use Rattle.std.specs.Prelude.{◌≡◌};
ghost use Rattle.zb_tokens.specs.Bodies.{has_item, next_item};
ghost use Rattle.zb_tokens.specs.Board.{is_body, is_handler, is_inner, is_root, owes_none};

use zb_base::Key;
use zb_instance_records::Role;
use zb_tokens::Cell;

/// Whether a cell is a root: the cell of a process, which stands in no other.
pub fn is_root(cell: &Cell) -> bool
    ensures { result ≡ is_root cell.now }
{
    cell.scope == Key::new(0)
}

/// Whether a cell is the body of an activity with several instances.
pub fn is_body(cell: &Cell) -> bool
    ensures { result ≡ is_body cell.now }
{
    matches!(cell.role, Role::Body)
}

/// Whether a cell is one of the runs of a body.
pub fn is_inner(cell: &Cell) -> bool
    ensures { result ≡ is_inner cell.now }
{
    matches!(cell.role, Role::Inner)
}

// Whether a cell is a handler, which undoes an activity that has finished.
fn is_handler(cell: &Cell) -> bool
    ensures { result ≡ is_handler cell.now }
{
    matches!(cell.role, Role::Handler)
}

/// The item of a body for which it runs next, if one is left.
pub fn next_item(cell: &Cell) -> Option<i64>
    ensures { result ≡ next_item cell.now }
{
    let place = usize::try_from(cell.taken).ok()?;
    cell.items.as_slice().get(place).copied()
}

/// Whether an item of a body is left.
pub fn has_item(cell: &Cell) -> bool
    ensures { result ≡ has_item cell.now }
{
    next_item(cell).is_some()
}

/// Whether no flow leaves a cell: it is a root, a run of a body, or a handler.
pub fn owes_none(cell: &Cell) -> bool
    ensures { result ≡ owes_none cell.now }
{
    is_root(cell) || is_inner(cell) || is_handler(cell)
}
