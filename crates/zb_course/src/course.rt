// A game, with what is kept beside it.
ghost use Rattle.std.specs.Prelude.{◌≡◌, ℕ, List, IsTrue, IsFalse, IsErrOf, IfOk, OnOk, Some, [], is_none};
ghost use Rattle.zb_definitions.specs.Kept.{KeepsDefinitions};
ghost use Rattle.zb_rules.specs.Applies.{may_fit};
ghost use Rattle.zb_rules.specs.Shown.{shown_by, after_shown, definitions_on};
ghost use Rattle.zb_tokens.specs.Forced.{next_mover};
ghost use Rattle.zb_tokens.specs.Game.{empty_board};
ghost use Rattle.zb_starts.specs.Starters.{ids_under};
ghost use Rattle.zb_course.specs.Versions.{KeepsVersions, starting};

use crate::moves::{may_show, play};
use crate::versions::Versions;
use std::alloc::{AllocError, Global};
use std::marker::Model;
use zb_board::Game;
use zb_definitions::Definitions;
use zb_game::{is_quiet, next_mover};
use zb_jobs::Jobs;
use zb_model::{Event, TableFault};
use zb_starts::Starters;
use zb_tokens::Mover;

/// A game, and what is kept of the models that stand in it. Contracts see the board.
#[derive(Drop)]
pub struct Course {
    game: Game,
    versions: Versions,
    // Whether it is known that nobody is forced to move.
    rests: bool,
}

impl Model for Course {
    ghost use Rattle.zb_tokens.specs.Board.{Board};
    ghost use Rattle.zb_tokens.specs.contracts.board.Deployed as deployed;
    ghost use Rattle.zb_tokens.specs.contracts.board.Cell as cell;
    ghost use Rattle.zb_tokens.specs.contracts.board.Token as token;
    ghost use Rattle.zb_tokens.specs.contracts.board.Incident as incident;
    ghost use Rattle.zb_board.specs.BoardCode.{board_code};
    ghost use Rattle.zb_course.specs.Course.{IsCourse};

    ghost Value = { Board };

    ghost coded = { board_code deployed.the_row.coded cell.the_row.coded token.the_row.coded incident.the_row.coded };

    ghost view = { λ c. c.game };

    ghost invariant = { λ c. IsCourse c.versions c.rests c.game };
}

impl Course {
    /// Nothing stands on the board. It takes no memory.
    pub fn empty(alloc: Global) -> Course
        ensures { result ≡ empty_board }
    {
        Course {
            game: Game::empty(alloc),
            versions: Versions::empty(alloc),
            rests: false,
        }
    }

    /// The game.
    pub fn board(&self) -> &Game
        ensures { result.now ≡ self.now }
    {
        &self.game
    }

    /// The versions of the processes whose models stand.
    pub fn definitions(&self) -> &Definitions
        ensures { KeepsDefinitions (definitions_on self.now) result.now }
    {
        self.versions.definitions()
    }

    /// The processes that start by messages, of the models that stand.
    pub fn starters(&self) -> &Starters
        ensures { (name : List ℕ) → ids_under result.now name ≡ starting name self.now.models }
    {
        self.versions.starters()
    }

    /// Who moves next; `None` where the game is quiet. It costs what `zb_game::next_mover` does, and nothing where nobody
    /// was forced when it was last asked and no move was made since.
    pub fn next_mover(&mut self, alloc: Global) -> Result<Option<Mover>, AllocError>
        ensures mover { IfOk result (λ mover. mover ≡ next_mover self.old) }
        ensures kept { self.new ≡ self.old }
    {
        if self.rests {
            return Ok(None);
        }
        let mover = next_mover(&self.game, alloc)?;
        self.rests = mover.is_none();
        Ok(mover)
    }

    /// Whether nobody is forced to move. It costs what `zb_game::is_quiet` does, where that isn't known.
    pub fn is_quiet(&self) -> bool
        ensures { result ≡ is_none (next_mover self.now) }
    {
        self.rests || is_quiet(&self.game)
    }

    /// Makes the move that an event shows, if it shows one. At `NotApplicable`, exactly where it doesn't fit, nothing has
    /// changed; after `Memory` nothing stands on the board. It costs what `play` and `Versions::apply` do.
    pub fn play(&mut self, alloc: Global, event: &Event, jobs: &Jobs) -> Result<(), TableFault>
        ensures fit { OnOk result (IsTrue (may_fit (shown_by jobs.now event.now) self.old)) }
        ensures played { OnOk result (after_shown self.old (shown_by jobs.now event.now) ≡ Some self.new) }
        ensures illegal { IsErrOf result TableFault.NotApplicable → IsFalse (may_fit (shown_by jobs.now event.now) self.old) }
        ensures kept { IsErrOf result TableFault.NotApplicable → self.new ≡ self.old }
    {
        if !may_show(event) {
            return Ok(());
        }
        self.rests = false;
        stand(alloc, event, jobs, &mut self.game, &mut self.versions)
    }
}

// Makes the move that an event shows, and keeps what is to be kept of the model that stands then. At `NotApplicable` nothing
// has changed; after `Memory` nothing stands.
fn stand(
    alloc: Global,
    event: &Event,
    jobs: &Jobs,
    game: &mut Game,
    versions: &mut Versions,
) -> Result<(), TableFault>
    ensures fit { OnOk result (IsTrue (may_fit (shown_by jobs.now event.now) game.old)) }
    ensures played { OnOk result (after_shown game.old (shown_by jobs.now event.now) ≡ Some game.new) }
    ensures illegal { IsErrOf result TableFault.NotApplicable → IsFalse (may_fit (shown_by jobs.now event.now) game.old) }
    ensures kept { IsErrOf result TableFault.NotApplicable → game.new ≡ game.old }
    ensures versions { KeepsVersions game.old.models versions.old → KeepsVersions game.new.models versions.new }
{
    match keep(alloc, event, jobs, game, versions) {
        Err(TableFault::Memory) => {
            *game = Game::empty(alloc);
            *versions = Versions::empty(alloc);
            Err(TableFault::Memory)
        }
        played => played,
    }
}

// The same, but after `Memory` both are only dropped.
fn keep(
    alloc: Global,
    event: &Event,
    jobs: &Jobs,
    game: &mut Game,
    versions: &mut Versions,
) -> Result<(), TableFault>
    ensures fit { OnOk result (IsTrue (may_fit (shown_by jobs.now event.now) game.old)) }
    ensures played { OnOk result (after_shown game.old (shown_by jobs.now event.now) ≡ Some game.new) }
    ensures illegal { IsErrOf result TableFault.NotApplicable → IsFalse (may_fit (shown_by jobs.now event.now) game.old) }
    ensures kept { IsErrOf result TableFault.NotApplicable → game.new ≡ game.old }
    ensures same { IsErrOf result TableFault.NotApplicable → versions.new ≡ versions.old }
    ensures versions { KeepsVersions game.old.models versions.old → OnOk result (KeepsVersions game.new.models versions.new) }
{
    play(alloc, event, jobs, game)?;
    versions.apply(alloc, event)?;
    Ok(())
}
