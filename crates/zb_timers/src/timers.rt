ghost use Rattle.std.specs.Prelude.{◌≡◌, ◌==◌, ◌++◌, ◌∷◌, [], List, IsTrue, OnOk, IfOk};
ghost use Rattle.std.specs.List.{find};
ghost use Rattle.std.specs.Option.{option_copied};
ghost use Rattle.zb_table.specs.Rows.{Ascend, are_below};
ghost use Rattle.zb_model.specs.declared.record.Event.{Event};
ghost use Rattle.zb_views.specs.Standing.{standing_by};
ghost use Rattle.zb_views.specs.Timers.{timer_of, timer_sort};
ghost use Rattle.zb_timers.specs.Table.{has_place_for_timer, keys_on};

use crate::change::{made, says_nothing_of_timers};
use std::alloc::{AllocError, Global};
use std::marker::Model;
use zb_model::{Event, Key, List, TimerCreated};
use zb_rows::Rows;
use zb_views::Timer;

/// The timers that are there, in the order of their keys. Contracts see the list of them.
#[derive(Drop)]
pub struct Timers {
    rows: Rows<Timer>,
}

impl Model for Timers {
    ghost use Rattle.std.specs.Prelude.{List};
    ghost use Rattle.zb_views.specs.declared.timer.Timer.{Timer};

    ghost Value = { List Timer };

    ghost view = { λ t. t.rows };
}

impl Timers {
    /// No timers. It takes no memory.
    pub fn empty(alloc: Global) -> Timers
        ensures { result ≡ [] }
    {
        Timers {
            rows: Rows::empty(alloc),
        }
    }

    /// The timers as rows, by key and by cell.
    pub fn rows(&self) -> &Rows<Timer>
        ensures { result.now ≡ self.now }
    {
        &self.rows
    }

    /// The timer with this key. It takes the logarithm of how many timers there are.
    pub fn get(&self, key: Key) -> Option<&Timer>
        ensures timer { option_copied result ≡ find (λ t. t.key == key) self.now }
        ensures order { Ascend (λ t. t.key) 0 self.now }
    {
        self.rows.get(key)
    }

    /// The keys of the timers of this cell, ascending. It takes the logarithm of how many timers there are, and a step
    /// for each of the cell.
    pub fn on(&self, alloc: Global, cell: Key) -> Result<List<Key>, AllocError>
        ensures keys { IfOk result (λ keys. keys ≡ keys_on cell self.now) }
        ensures order { IfOk result (λ keys. Ascend (λ key. key) 0 keys) }
    {
        Ok(List::from_vec(self.rows.of_cell(alloc, cell)?))
    }

    /// Takes in what an event says of timers. After a refusal the timers are only dropped. It takes the logarithm of
    /// how many timers there are, on average.
    pub fn apply(&mut self, alloc: Global, event: &Event) -> Result<(), AllocError>
        requires { IsTrue (has_place_for_timer self.old event.now) }
        ensures { (before : List Event) → OnOk result (self.new ≡ standing_by timer_sort before event.now self.old) }
    {
        if says_nothing_of_timers(event) {
            return Ok(());
        }
        match event {
            Event::TimerCreated(e) => self.add(alloc, e),
            Event::TimerTriggered(key) | Event::TimerCanceled(key) => {
                self.rows.take(*key);
                Ok(())
            }
            _ => Ok(()),
        }
    }

    // Adds the timer that is made.
    fn add(&mut self, alloc: Global, created: &TimerCreated) -> Result<(), AllocError>
        requires { IsTrue (are_below (λ t. t.key) created.now.key self.old) }
        ensures { OnOk result (self.new ≡ self.old ++ timer_of created.now ∷ []) }
    {
        let timer = made(alloc, created)?;
        self.rows.add(timer)
    }
}
