// Whether a move fits, and what it makes of a game.
ghost use Rattle.std.specs.Prelude.{◌≡◌, Some, None, IsTrue, IsFalse, OnOk, IsErrOf};
ghost use Rattle.zb_tokens.specs.Game.{fits, played};

use crate::assign::{assign, fits_assign, fits_update};
use crate::done::{done, fits_done};
use crate::enter::{enter, fits_enter};
use crate::finish::{finish, fits_finish};
use crate::gone::{fits_gone, gone};
use crate::halt::{fits_halt, halt};
use crate::incident::fits_incident;
use crate::inner::{begin_run, fits_inner};
use crate::leave::{fits_leave, leave};
use crate::open::{fits_open, open};
use crate::stand::fits_stand;
use crate::start::{fits_start, start};
use crate::take::{fits_take, take};
use crate::throw::{fits_throw, throw};
use crate::trigger::{fits_trigger, trigger};
use crate::undo::{begin_handler, fits_undo};
use std::alloc::Global;
use zb_board::{Game, GameFault};
use zb_tokens::Move;

/// Whether a move fits the board. A model costs the logarithm of how many there are, in whatever order their keys
/// come. Where the keys of the cells and of the incidents ascend and no two incidents stand on one cell, as in every
/// game of a log, a cell or an incident costs that too, what is in a cell the logarithm of how many scopes there are,
/// and whether an incident stands on a cell that of how many incidents there are; elsewhere each is searched for from
/// the front. Whether a token has come costs an entry the logarithm of how many tokens there are; at a gateway where
/// flows join, for each of them up to the first on which none is. Where a cell is terminating or ended, an entry and a
/// halt go up the scopes too. Leaving goes through the flows out of a node, and an
/// assignment through the variables of a cell. A node or a flow of a model is found by its id in constant time, on
/// average.
pub fn fits(game: &Game, m: &Move) -> bool
    ensures { result ≡ fits game.now m.now }
{
    match m {
        Move::Stand(d) => fits_stand(game, d),
        Move::Start(s) => fits_start(game, s),
        Move::Enter(e) => fits_enter(game, e),
        Move::Inner(i) => fits_inner(game, i),
        Move::Undo(u) => fits_undo(game, u),
        Move::Open(o) => fits_open(game, o),
        Move::Finish(key) => fits_finish(game, *key),
        Move::Leave(l) => fits_leave(game, l),
        Move::Take(t) => fits_take(game, t),
        Move::Halt(key) => fits_halt(game, *key),
        Move::Gone(key) => fits_gone(game, *key),
        Move::Assign(a) => fits_assign(game, a),
        Move::Update(a) => fits_update(game, a),
        Move::Done(key) => fits_done(game, *key),
        Move::Throw(t) => fits_throw(game, t),
        Move::Trigger(t) => fits_trigger(game, t),
        Move::Incident(i) => fits_incident(game, i),
        Move::Repair(key) => game.fits_repair(*key),
    }
}

/// Plays a move, whether it fits or not; its texts go onto the board. `Illegal` says that its effect names a cell,
/// a token, a model or an incident that isn't there, and nothing has changed; where all are there, only `Memory`
/// is answered for a fault. After `Memory` the game is only dropped. What a move names is found as `fits` does. A
/// new cell takes constant time, a new model or incident, and what changes or goes, the logarithm of how many there are,
/// on average. Where a token comes, it goes through those in its scope, and looks again at those that need one like
/// it; where one goes, at those that may enter by themselves. Each look costs what an entry does in `fits`. A halt
/// and a terminate end go through all cells, where the scope that they empty has any, once more for each that leaves
/// in it, and through its tokens.
pub fn play(game: &mut Game, alloc: Global, m: Move) -> Result<(), GameFault>
    ensures played { OnOk result (played game.old m ≡ Some game.new) }
    ensures illegal { IsErrOf result GameFault.Illegal → played game.old m ≡ None }
    ensures kept { IsErrOf result GameFault.Illegal → game.new ≡ game.old }
{
    match m {
        Move::Stand(d) => game.stand(alloc, d),
        Move::Start(s) => start(game, alloc, s),
        Move::Enter(e) => enter(game, alloc, e),
        Move::Inner(i) => begin_run(game, alloc, i),
        Move::Undo(u) => begin_handler(game, alloc, u),
        Move::Open(o) => open(game, alloc, o),
        Move::Finish(key) => finish(game, alloc, key),
        Move::Leave(l) => leave(game, alloc, l),
        Move::Take(t) => take(game, alloc, t),
        Move::Halt(key) => halt(game, alloc, key),
        Move::Gone(key) => gone(game, alloc, key),
        Move::Assign(a) => assign(game, a),
        Move::Update(a) => assign(game, a),
        Move::Done(key) => done(game, key),
        Move::Throw(t) => throw(game, t),
        Move::Trigger(t) => trigger(game, alloc, t),
        Move::Incident(i) => game.raise(i),
        Move::Repair(key) => game.repair(key),
    }
}

/// Makes a move that fits. At `Illegal`, exactly where it doesn't, nothing has changed; after `Memory` the game
/// is only dropped. It costs what `fits` and `play` do.
pub fn make(game: &mut Game, alloc: Global, m: Move) -> Result<(), GameFault>
    ensures fit { OnOk result (IsTrue (fits game.old m)) }
    ensures played { OnOk result (played game.old m ≡ Some game.new) }
    ensures illegal { IsErrOf result GameFault.Illegal → IsFalse (fits game.old m) }
    ensures kept { IsErrOf result GameFault.Illegal → game.new ≡ game.old }
{
    if fits(game, &m) {
        play(game, alloc, m)
    } else {
        Err(GameFault::Illegal)
    }
}
