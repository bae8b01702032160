ghost use Rattle.std.specs.Prelude.{◌≡◌, ◌↔◌, List, [], ◌∷◌, ◌++◌, IsTrue, IsFalse, IsErrOf, IfOk, OnOk, Some, option_map};
ghost use Rattle.zb_model.specs.declared.record.Event.{Event};
ghost use Rattle.zb_views.specs.View.{next_key};
ghost use Rattle.zb_views.specs.Messages.{buffered};
ghost use Rattle.zb_views.specs.Jobs as views;
ghost use Rattle.zb_views.specs.ProcessSubscriptions as waiting_views;
ghost use Rattle.zb_views.specs.Timers as timer_views;
ghost use Rattle.zb_views.specs.Definitions.{definitions};
ghost use Rattle.zb_definitions.specs.Kept.{KeepsDefinitions};
ghost use Rattle.zb_rules.specs.Applies.{applies};
ghost use Rattle.zb_rules.specs.Settling.{turn_of, turn_with, HasQuietGame};
ghost use Rattle.zb_rules.specs.Continue.{is_quiet};
ghost use Rattle.zb_rules.specs.Sound.{HasKeys};
ghost use Rattle.zb_tokens.specs.Board.{Board};
ghost use Rattle.zb_tokens.specs.Forced.{next_mover};
ghost use Rattle.zb_rules.specs.Shown.{board_of};
ghost use Rattle.zb_state.specs.Sound.{HasSoundModel};

mod beginnings;
mod due;
mod lent;
mod outbox;
mod starts;
mod subscriptions;

use crate::facts::Facts;
use crate::listing::{Listing, clear, relist};
use crate::turn::{Turn, turn_by};
use std::alloc::{AllocError, Global};
use std::marker::Model;
use zb_board::Game;
use zb_definitions::Definitions;
use zb_game::move_of;
use zb_jobs::Jobs;
use zb_model::{Event, Key, Moment, PartitionId, TableFault};
use zb_subscriptions::ProcessSubscriptions;
use zb_tables::{Messages, Named};
use zb_timers::Timers;
use zb_tokens::Mover;

/// What the events of a partition's log come to, and lists of it in the orders in which it is asked for. Its clauses hold
/// for all lists of events of which it is the state. Contracts see the facts.
#[derive(Drop)]
pub struct State {
    facts: Facts,
    listing: Listing,
}

impl Model for State {
    ghost use Rattle.zb_state.specs.declared.facts.Facts.{Facts};
    ghost use Rattle.zb_state.specs.contracts.facts.Facts as known;

    ghost Value = { Facts };

    ghost coded = { known.the_row.coded };

    ghost use Rattle.zb_state.specs.Listing.{IsListingOf};

    ghost view = { λ s. s.facts };

    ghost invariant = { λ s. IsListingOf s.facts s.listing };
}

impl State {
    ghost use Rattle.zb_state.specs.State.{partition_of, IsStateOf};

    /// The state of a log without events.
    pub fn empty(alloc: Global, place: PartitionId) -> State
        ensures place { partition_of result ≡ place }
        ensures state { IsStateOf [] result }
    {
        State {
            facts: Facts::empty(alloc, place),
            listing: Listing::empty(alloc),
        }
    }

    /// The state to which some facts come: they are listed once, in the order of their moments. It takes the logarithm of
    /// how many messages, jobs and timers there are for each of them.
    pub fn of(alloc: Global, facts: Facts) -> Result<State, AllocError>
        ensures { IfOk result (λ state. state ≡ facts) }
    {
        match Listing::of(alloc, &facts) {
            Ok(listing) => Ok(State { facts, listing }),
            Err(AllocError) => {
                drop(facts);
                Err(AllocError)
            }
        }
    }

    /// Takes in an event that applies to those before it. At `NotApplicable`, exactly where it doesn't,
    /// nothing has changed; after `Memory` the state is only dropped. It costs what `Facts::apply_as` does; a message, a job
    /// or a timer that it makes, changes or ends costs what `Lists::join` and `Lists::leave` do beside.
    pub fn apply(&mut self, alloc: Global, event: &Event) -> Result<(), TableFault>
        ensures place { partition_of self.new ≡ partition_of self.old }
        ensures applied { (es : List Event) → IsStateOf es self.old → OnOk result (IsTrue (applies (partition_of self.old) es event.now)) }
        ensures state { (es : List Event) → IsStateOf es self.old → OnOk result (IsStateOf (es ++ event.now ∷ []) self.new) }
        ensures refused { (es : List Event) → IsStateOf es self.old
            → IsErrOf result TableFault.NotApplicable → IsFalse (applies (partition_of self.old) es event.now) }
        ensures kept { IsErrOf result TableFault.NotApplicable → self.new ≡ self.old }
    {
        self.apply_as(alloc, event, false)
    }

    /// Takes in an event as `apply` does. A model that is known to have no fault isn't looked at again.
    pub(crate) fn apply_as(
        &mut self,
        alloc: Global,
        event: &Event,
        known: bool,
    ) -> Result<(), TableFault>
        requires { IsTrue known → HasSoundModel event.now }
        ensures place { partition_of self.new ≡ partition_of self.old }
        ensures applied { (es : List Event) → IsStateOf es self.old → OnOk result (IsTrue (applies (partition_of self.old) es event.now)) }
        ensures state { (es : List Event) → IsStateOf es self.old → OnOk result (IsStateOf (es ++ event.now ∷ []) self.new) }
        ensures refused { (es : List Event) → IsStateOf es self.old
            → IsErrOf result TableFault.NotApplicable → IsFalse (applies (partition_of self.old) es event.now) }
        ensures kept { IsErrOf result TableFault.NotApplicable → self.new ≡ self.old }
    {
        let named = Named::in_event(event, &self.facts.tables.jobs);
        self.listing.leave(&named, &self.facts);
        match self.facts.apply_as(alloc, event, known) {
            Ok(()) => {
                relist(alloc, &named, &mut self.facts, &mut self.listing)?;
                Ok(())
            }
            Err(TableFault::NotApplicable) => {
                relist(alloc, &named, &mut self.facts, &mut self.listing)?;
                Err(TableFault::NotApplicable)
            }
            Err(TableFault::Memory) => {
                clear(alloc, &mut self.facts, &mut self.listing);
                Err(TableFault::Memory)
            }
        }
    }

    /// The next key that the partition draws, as far as it has counters.
    pub fn next_key(&self) -> Key
        ensures { (es : List Event) → IsStateOf es self.now → result ≡ next_key (partition_of self.now) es }
    {
        self.facts.fresh()
    }

    /// Whether the partition has so many keys left.
    pub fn has_keys(&self, count: u64) -> bool
        ensures { (es : List Event) → IsStateOf es self.now → IsTrue result ↔ HasKeys (partition_of self.now) es count }
    {
        count < Key::COUNTERS - self.facts.counter
    }

    /// The game of the events.
    pub fn game(&self) -> &Game
        ensures { (es : List Event) → IsStateOf es self.now → board_of es ≡ Some result.now }
    {
        self.facts.game.board()
    }

    /// The buffered messages.
    pub fn messages(&self) -> &Messages
        ensures { (es : List Event) → IsStateOf es self.now → buffered es ≡ result.now }
    {
        &self.facts.messages
    }

    /// The definitions that were made.
    pub fn definitions(&self) -> &Definitions
        ensures { (es : List Event) → IsStateOf es self.now → KeepsDefinitions (definitions es) result.now }
    {
        self.facts.game.definitions()
    }

    /// The jobs that are there.
    pub fn jobs(&self) -> &Jobs
        ensures { (es : List Event) → IsStateOf es self.now → views.jobs es ≡ result.now }
    {
        &self.facts.tables.jobs
    }

    /// The timers that are there.
    pub fn timers(&self) -> &Timers
        ensures { (es : List Event) → IsStateOf es self.now → timer_views.timers es ≡ result.now }
    {
        &self.facts.tables.timers
    }

    /// The subscriptions of element instances that are there.
    pub fn process_subscriptions(&self) -> &ProcessSubscriptions
        ensures { (es : List Event) → IsStateOf es self.now → waiting_views.process_subscriptions es ≡ result.now }
    {
        &self.facts.tables.process_subscriptions
    }

    /// Who moves next; `None` where the game is quiet. It costs what `zb_game::next_mover` does, and nothing where nobody
    /// was forced when it was last asked and no move was made since.
    pub fn next_mover(&mut self, alloc: Global) -> Result<Option<Mover>, AllocError>
        ensures mover { (es : List Event) (b : Board) → IsStateOf es self.new → board_of es ≡ Some b → IfOk result (λ mover. mover ≡ next_mover b) }
        ensures kept { self.new ≡ self.old }
    {
        self.facts.next_mover(alloc)
    }

    /// Whether nobody is forced to move. It costs what `zb_game::is_quiet` does, where that isn't known.
    pub fn quiet(&self) -> bool
        ensures game { (es : List Event) → IsStateOf es self.now → IsTrue result ↔ HasQuietGame es }
        ensures told { (es : List Event) → IsStateOf es self.now → result ≡ is_quiet es }
    {
        self.facts.game.is_quiet()
    }

    /// What a mover does at a moment, if it does anything: the event of its move, and the variables that are set in front of that;
    /// the turn has the events behind it too. It costs what `zb_game::move_of` and `assignments_of` do.
    pub fn turn_of(
        &self,
        alloc: Global,
        moment: Moment,
        mover: Mover,
    ) -> Result<Option<Turn>, AllocError>
        ensures { (es : List Event) (b : Board) → IsStateOf es self.now → board_of es ≡ Some b
            → IfOk result (λ turn. turn_of (partition_of self.now) moment es b mover
            ≡ option_map (λ t. turn_with (partition_of self.now) moment t.assignments t.event es) turn) }
    {
        let game = self.game();
        match move_of(game, alloc, moment, self.next_key(), mover)? {
            Some(made) => turn_by(alloc, made, game),
            None => Ok(None),
        }
    }
}
