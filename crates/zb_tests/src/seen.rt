// What is known of all batches of a play, and what is counted of it.
ghost use Rattle.zb_rules.specs.Own.{IsSupported};

use std::alloc::Global;
use std::process::Abort;
use zb_model::{Batch, Command, Event, Key, Outcome, PartitionId, Text};

/// What is counted.
#[derive(Clone, Copy, Debug, PartialEq, Eq)]
pub struct Counts {
    /// Commands that were accepted.
    pub accepted: u32,
    /// Messages that were kept.
    pub correlated: u32,
    /// Packets that were lost, and those that were taken once more.
    pub lost: u32,
    pub repeated: u32,
    /// Subscriptions that were opened behind their deletion, and messages that were turned away and given up.
    pub late: u32,
    pub rejected: u32,
}

/// What a packet is for: its kind, its subscription and its message.
pub type Name = (u8, Key, Key);

/// What is known of all batches.
#[derive(Drop)]
pub struct Seen {
    pub counts: Counts,
    /// The messages and the instances, each with its partition.
    pub messages: Vec<(PartitionId, Key)>,
    pub instances: Vec<(PartitionId, Key)>,
    // Of which process a definition or a subscription is, by the first letter of that.
    processes: Vec<(Key, u8)>,
    // Which message was correlated with which process.
    pairs: Vec<(Key, u8)>,
    // The subscriptions that are deleted at one side, and the packets that were taken.
    deleted: Vec<Key>,
    taken: Vec<Name>,
}

/// One more.
pub fn count(counter: &mut u32) {
    *counter = counter.saturating_add(1);
}

// What a packet is for.
fn name_of(rt: &impl Abort, command: &Command) -> Name
    ensures { IsSupported command.now }
{
    match command {
        Command::DeploymentDistribute(it) => (17, it.key, it.key),
        Command::CommandDistributionAcknowledge(it) => (18, it.key, it.key),
        Command::MessageSubscriptionCreate(it) => (19, it.subscription, it.subscription),
        Command::ProcessMessageSubscriptionCreate(key) => (20, *key, *key),
        Command::ProcessMessageSubscriptionCorrelate(it) => (21, it.subscription, it.message),
        Command::MessageSubscriptionCorrelate(it) => (22, it.subscription, it.message),
        Command::MessageSubscriptionReject(it) => (23, it.subscription, it.message),
        Command::MessageSubscriptionDelete(it) => (24, it.subscription, it.subscription),
        Command::ProcessMessageSubscriptionDelete(key) => (25, *key, *key),
        _ => panic!(rt; "no packet"),
    }
}

impl Seen {
    /// Nothing.
    pub fn new(alloc: Global) -> Seen {
        Seen {
            counts: Counts {
                accepted: 0,
                correlated: 0,
                lost: 0,
                repeated: 0,
                late: 0,
                rejected: 0,
            },
            messages: Vec::new(alloc),
            instances: Vec::new(alloc),
            processes: Vec::new(alloc),
            pairs: Vec::new(alloc),
            deleted: Vec::new(alloc),
            taken: Vec::new(alloc),
        }
    }

    /// Takes down that a packet is taken.
    pub fn take(&mut self, rt: &impl Abort, command: &Command)
        ensures { IsSupported command.now }
    {
        let name = name_of(rt, command);
        if self.taken.contains(&name) {
            count(&mut self.counts.repeated);
        }
        self.taken.push(name).expect(rt, "memory");
    }

    /// Takes down what came of a command.
    pub fn take_down(&mut self, rt: &impl Abort, place: PartitionId, batch: &Batch) {
        let Outcome::Accepted(events) = &batch.outcome else {
            return;
        };
        self.count_command(&batch.command);
        for event in events.as_slice() {
            self.take_event(rt, place, event);
        }
    }

    fn count_command(&mut self, command: &Command) {
        count(&mut self.counts.accepted);
        match command {
            Command::MessageSubscriptionCreate(it) => {
                if self.deleted.contains(&it.subscription) {
                    count(&mut self.counts.late);
                }
            }
            Command::MessageSubscriptionReject(_) => count(&mut self.counts.rejected),
            _ => {}
        }
    }

    fn take_event(&mut self, rt: &impl Abort, place: PartitionId, event: &Event) {
        match event {
            Event::ProcessCreated(it) => self.add(rt, it.key, &it.model.process),
            Event::ProcessMessageSubscriptionCreating(it) => {
                self.add(rt, it.subscription, &it.process);
            }
            Event::MessageStartEventSubscriptionCorrelated(it) => {
                self.correlate(rt, it.message, it.definition);
                put(rt, &mut self.instances, (place, it.instance));
            }
            Event::ProcessMessageSubscriptionCorrelated(it) => {
                self.correlate(rt, it.message, it.subscription);
                count(&mut self.counts.correlated);
            }
            Event::ProcessInstanceCreationCreated(it) => {
                put(rt, &mut self.instances, (place, it.key));
            }
            Event::MessagePublished(it) => put(rt, &mut self.messages, (place, it.key)),
            Event::MessageSubscriptionDeleted(key)
            | Event::ProcessMessageSubscriptionDeleted(key) => {
                self.deleted.push(*key).expect(rt, "memory");
            }
            _ => {}
        }
    }

    // A definition or a subscription is of this process.
    fn add(&mut self, rt: &impl Abort, key: Key, process: &Text) {
        let letter = process.as_str().as_bytes().first().copied();
        let letter = letter.expect(rt, "a process");
        self.processes.push((key, letter)).expect(rt, "memory");
    }

    // The process of a definition or a subscription.
    fn process_of(&self, rt: &impl Abort, key: Key) -> u8 {
        for (of, letter) in &self.processes {
            if *of == key {
                return *letter;
            }
        }
        panic!(rt; "a key of no process");
    }

    // A message is correlated with the process of a definition or a subscription, and was never before.
    fn correlate(&mut self, rt: &impl Abort, message: Key, key: Key) {
        let pair = (message, self.process_of(rt, key));
        assert!(rt; !self.pairs.contains(&pair), "a message twice");
        self.pairs.push(pair).expect(rt, "memory");
    }
}

fn put(rt: &impl Abort, keys: &mut Vec<(PartitionId, Key)>, key: (PartitionId, Key)) {
    keys.push(key).expect(rt, "memory");
}
