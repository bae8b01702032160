ghost use Rattle.std.specs.Prelude.{◌≡◌};
ghost use Rattle.zb_tokens.specs.MoveIncident.{evaluates, fits_incident, may_stand, may_stop};

use zb_base::Key;
use zb_board::{Game, error_of};
use zb_tokens::{Cell, Incident, Phase};
use zb_values::awaits_work;

/// Whether an incident may stand on its cell.
pub fn fits_incident(game: &Game, i: &Incident) -> bool
    ensures { result ≡ fits_incident game.now i.now }
{
    match game.cell(i.cell) {
        Some(cell) => may_stand(game, i, cell) && !game.is_stuck(cell),
        None => false,
    }
}

// Whether an incident may stand on this cell, but for those that do: one that a job is the cause of where the cell
// waits for its work, another one where it may come to a stop.
fn may_stand(game: &Game, i: &Incident, cell: &Cell) -> bool
    ensures { result ≡ may_stand game.now i.now cell.now }
{
    if i.job != Key::new(0) {
        awaits_work(game, cell)
    } else {
        may_stop(cell)
    }
}

// Whether a cell may come to a stop by itself: it evaluates something, or is active and an error was thrown in it.
fn may_stop(cell: &Cell) -> bool
    ensures { result ≡ may_stop cell.now }
{
    evaluates(cell.phase) || (cell.phase == Phase::Active && error_of(&cell.mark).is_some())
}

// Whether a cell in this phase evaluates what it goes on with.
fn evaluates(phase: Phase) -> bool
    ensures { result ≡ evaluates phase }
{
    phase == Phase::Activating || phase == Phase::Completing
}
