// What is due first.
ghost use Rattle.std.specs.Prelude.{◌≡◌, ◌==◌, List, Some, false, option_map};
ghost use Rattle.std.specs.List.{find};
ghost use Rattle.std.specs.Option.{option_map_or};
ghost use Rattle.zb_model.specs.declared.record.Event.{Event};
ghost use Rattle.zb_table.specs.Earliest.{is_earlier, earlier_of, earlier_option};
ghost use Rattle.zb_rules.specs.Due.{place_of_alarm, due_command};
ghost use Rattle.zb_rules.specs.Trigger.{waits_for};
ghost use Rattle.zb_state.specs.State.{IsStateOf};
ghost use Rattle.zb_state.specs.Alarms.{expiry_at, time_out_at, trigger_at, alarm_of, command_for};

use crate::State;
use zb_board::Game;
use zb_game::waits_at;
use zb_model::{Command, Key, Moment};
use zb_table::Query;
use zb_timers::Timers;

impl State {
    /// The command that is due first, if one is due now: by the moment at which it is due, and of those at one moment
    /// by the key of what it is for. It takes constant time, and the logarithm of how many timers and cells there are for
    /// each timer that is due up to the first whose cell waits.
    pub fn due(&self, now: Moment) -> Option<Command>
        ensures { (es : List Event) → IsStateOf es self.now → result ≡ due_command now es }
    {
        let game = self.facts.game.board();
        let awaited = Awaited {
            game,
            timers: &self.facts.tables.timers,
        };
        let expiry = expiry_of(self.listing.messages.first_due(now));
        let time_out = time_out_of(self.listing.jobs.first_due(now));
        let trigger = trigger_of(self.listing.timers.first_due_that(now, &awaited));
        command_of(earlier(expiry, earlier(time_out, trigger)))
    }
}

// Whether the cell of the timer with a key waits for it.
#[derive(Drop)]
struct Awaited<'a> {
    game: &'a Game,
    timers: &'a Timers,
}

impl<'a> Query<Key> for Awaited<'a> {
    ghost passes = { λ awaited k. option_map_or (λ t. waits_for t awaited.game.now) (find (λ t. t.key == k) awaited.timers.now) false };

    fn passes(&self, key: &Key) -> bool {
        match self.timers.get(*key) {
            Some(timer) => waits_at(self.game, timer.cell, timer.node.as_str()),
            None => false,
        }
    }
}

// What is due: at which moment, for which key, and as what.
#[derive(Clone, Copy)]
struct Due {
    moment: Moment,
    key: Key,
    kind: DueKind,
}

#[derive(Clone, Copy)]
enum DueKind {
    Expiry,
    TimeOut,
    Trigger,
}

// The expiry of a message at its deadline.
fn expiry_of(due: Option<(Moment, Key)>) -> Option<Due>
    ensures { option_map alarm_of result ≡ option_map expiry_at due }
{
    due_as(due, DueKind::Expiry)
}

// The time-out of a job at its deadline.
fn time_out_of(due: Option<(Moment, Key)>) -> Option<Due>
    ensures { option_map alarm_of result ≡ option_map time_out_at due }
{
    due_as(due, DueKind::TimeOut)
}

// The trigger of a timer once it is due.
fn trigger_of(due: Option<(Moment, Key)>) -> Option<Due>
    ensures { option_map alarm_of result ≡ option_map trigger_at due }
{
    due_as(due, DueKind::Trigger)
}

// What is due as this, if anything is.
fn due_as(due: Option<(Moment, Key)>, kind: DueKind) -> Option<Due>
    ensures { result ≡ option_map (λ at. record { moment = at.0; key = at.1; kind = kind }) due }
{
    match due {
        Some((moment, key)) => Some(Due { moment, key, kind }),
        None => None,
    }
}

// Of two, if they are there, the earlier one: by the moment, and at one moment by the key.
fn earlier(one: Option<Due>, other: Option<Due>) -> Option<Due>
    ensures { option_map alarm_of result ≡ earlier_option place_of_alarm (option_map alarm_of one) (option_map alarm_of other) }
{
    match (one, other) {
        (None, other) => other,
        (Some(one), None) => Some(one),
        (Some(one), Some(other)) => Some(earlier_of(one, other)),
    }
}

// Of two the earlier one; the first where neither comes before the other.
fn earlier_of(one: Due, other: Due) -> Due
    ensures { Some (alarm_of result) ≡ earlier_of place_of_alarm (alarm_of one) (Some (alarm_of other)) }
{
    if comes_before(&other, &one) {
        other
    } else {
        one
    }
}

// Whether one is due before another.
fn comes_before(one: &Due, other: &Due) -> bool
    ensures { result ≡ is_earlier (place_of_alarm (alarm_of one.now)) (place_of_alarm (alarm_of other.now)) }
{
    one.moment < other.moment || (one.moment == other.moment && one.key < other.key)
}

// The command of what is due.
fn command_of(due: Option<Due>) -> Option<Command>
    ensures { result ≡ option_map (λ a. a.command) (option_map alarm_of due) }
{
    match due {
        Some(due) => Some(command_for(due.kind, due.key)),
        None => None,
    }
}

// The command by which it comes about.
fn command_for(kind: DueKind, key: Key) -> Command
    ensures { result ≡ command_for kind key }
{
    match kind {
        DueKind::Expiry => Command::MessageExpire(key),
        DueKind::TimeOut => Command::JobTimeOut(key),
        DueKind::Trigger => Command::TimerTrigger(key),
    }
}
