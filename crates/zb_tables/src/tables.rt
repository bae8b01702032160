ghost use Rattle.std.specs.Prelude.{◌≡◌, [], IsTrue, OnOk, OnErr};
ghost use Rattle.zb_model.specs.declared.record.Event.{Event};
ghost use Rattle.zb_jobs.specs.Table.{has_place_for};
ghost use Rattle.zb_timers.specs.Table.{has_place_for_timer};
ghost use Rattle.zb_starts.specs.Change.{begins_last};
ghost use Rattle.zb_subscriptions.specs.Opened.{is_new};
ghost use Rattle.zb_subscriptions.specs.Waiting.{has_place_for_waiting};

use std::alloc::{AllocError, Global};
use zb_jobs::Jobs;
use zb_model::Event;
use zb_outbox::Outbox;
use zb_starts::{Change, MessageStarts, Starts};
use zb_subscriptions::{ProcessSubscriptions, Subscriptions};
use zb_timers::Timers;

/// What a state keeps beside the messages and the game.
#[derive(Drop)]
pub struct Tables {
    /// What is sent and no event has ended.
    pub sendings: Outbox,
    /// The jobs that are there.
    pub jobs: Jobs,
    /// The timers that are there.
    pub timers: Timers,
    /// The locks of messages, and the instances that messages have started.
    pub starts: MessageStarts,
    /// The subscriptions at the home of their messages.
    pub subscriptions: Subscriptions,
    /// The subscriptions of the element instances that wait here.
    pub process_subscriptions: ProcessSubscriptions,
}

impl Tables {
    ghost use Rattle.zb_tables.specs.Tables.{HaveTaken};

    /// The tables of no events. They take no memory.
    pub fn empty(alloc: Global) -> Tables
        ensures sendings { result.sendings ≡ [] }
        ensures jobs { result.jobs ≡ [] }
        ensures timers { result.timers ≡ [] }
        ensures locks { result.starts.locks ≡ [] }
        ensures starts { result.starts.starts ≡ [] }
        ensures subscriptions { result.subscriptions ≡ [] }
        ensures process_subscriptions { result.process_subscriptions ≡ [] }
    {
        Tables {
            sendings: Outbox::empty(alloc),
            jobs: Jobs::empty(alloc),
            timers: Timers::empty(alloc),
            starts: MessageStarts::empty(alloc),
            subscriptions: Subscriptions::empty(alloc),
            process_subscriptions: ProcessSubscriptions::empty(alloc),
        }
    }

    /// Takes an event in, and what it changes of locks and of instances that messages have started. It costs what `apply` of
    /// each table does. After a refusal no rows are left whose keys are to be below the next one, and the tables are only dropped.
    pub fn apply(&mut self, alloc: Global, event: &Event, change: Change) -> Result<(), AllocError>
        requires jobs { IsTrue (has_place_for self.old.jobs event.now) }
        requires timers { IsTrue (has_place_for_timer self.old.timers event.now) }
        requires starts { IsTrue (begins_last change self.old.starts.starts) }
        requires opens { IsTrue (is_new self.old.subscriptions event.now) }
        requires waits { IsTrue (has_place_for_waiting self.old.process_subscriptions event.now) }
        ensures taken { OnOk result (HaveTaken event.now change self.old self.new) }
        ensures no_jobs { OnErr result (self.new.jobs ≡ []) }
        ensures no_timers { OnErr result (self.new.timers ≡ []) }
        ensures no_starts { OnErr result (self.new.starts.starts ≡ []) }
        ensures none_waits { OnErr result (self.new.process_subscriptions ≡ []) }
    {
        let taken = self.take_in(alloc, event, change);
        if taken.is_err() {
            self.clear(alloc);
        }
        taken
    }

    // Has each table take an event in. After a refusal the tables are only dropped.
    fn take_in(&mut self, alloc: Global, event: &Event, change: Change) -> Result<(), AllocError>
        requires jobs { IsTrue (has_place_for self.old.jobs event.now) }
        requires timers { IsTrue (has_place_for_timer self.old.timers event.now) }
        requires starts { IsTrue (begins_last change self.old.starts.starts) }
        requires opens { IsTrue (is_new self.old.subscriptions event.now) }
        requires waits { IsTrue (has_place_for_waiting self.old.process_subscriptions event.now) }
        ensures { OnOk result (HaveTaken event.now change self.old self.new) }
    {
        self.starts.apply(alloc, change)?;
        self.sendings.apply(alloc, event)?;
        self.jobs.apply(alloc, event)?;
        self.timers.apply(alloc, event)?;
        self.subscriptions.apply(alloc, event)?;
        self.process_subscriptions.apply(alloc, event)?;
        Ok(())
    }

    /// Leaves no jobs and no timers.
    pub fn clear_listed(&mut self, alloc: Global)
        ensures jobs { self.new.jobs ≡ [] }
        ensures timers { self.new.timers ≡ [] }
        ensures starts { self.new.starts ≡ self.old.starts }
        ensures waiting { self.new.process_subscriptions ≡ self.old.process_subscriptions }
    {
        self.jobs = Jobs::empty(alloc);
        self.timers = Timers::empty(alloc);
    }

    // Leaves no rows whose keys are to be below the next one.
    fn clear(&mut self, alloc: Global)
        ensures jobs { self.new.jobs ≡ [] }
        ensures timers { self.new.timers ≡ [] }
        ensures starts { self.new.starts.starts ≡ [] }
        ensures process_subscriptions { self.new.process_subscriptions ≡ [] }
    {
        self.clear_listed(alloc);
        self.starts.starts = Starts::empty(alloc);
        self.process_subscriptions = ProcessSubscriptions::empty(alloc);
    }
}
