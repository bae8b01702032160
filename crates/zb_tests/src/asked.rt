// What a partition is asked of subscriptions, by calls, and what comes of it. The home of the messages is partition 2 of
// three, and the element instances are at partition 1.
ghost use Rattle.zb_rules.specs.Own.{IsSupported};

use crate::written::Log;
use std::alloc::{AllocError, Global};
use std::process::Abort;
use zb_disk::MemDisk;
use zb_model::{
    Batch, Command, Event, Key, List, MessageCorrelation, MessagePublish, MessageSubscription,
    MessageSubscriptionDelete, Moment, Outcome, Packet, PartitionId, RejectionKind,
    SubscribedMessage, Text, Vars,
};
use zb_packets::answer_packet;
use zb_partition::{Partition, Stopped};
use zb_store::Volume;

/// What a partition is asked, first with the counter of the key that partition 1 has drawn for a subscription, and then with
/// those of messages, which partition 2 draws as they are published. All are for one name and correlation key;
/// subscription 8 is of another process than the others.
#[derive(Clone, Copy)]
pub enum Asked {
    /// A message that stays, and one that is gone behind its batch.
    Publish,
    PublishGone,
    /// A subscription that ends with its first message, and one that goes on.
    Open(u32),
    OpenOn(u32),
    /// The message was taken, or was turned away.
    Taken(u32, u32),
    TurnedAway(u32, u32),
    /// These messages were kept.
    Close(u32, &'static [u32]),
    /// What the side of an instance is asked: the subscription is opened, it is given a message, and it is gone.
    Opened(u32),
    Take(u32, u32),
    Closed(u32),
}

/// What is asked, and what comes of it once and again: events with the counters of their keys, where `..` is events of
/// something else, or the rejection; and behind that what is told of a message, and to which partition.
pub type Case = (Asked, &'static str, &'static str);

/// What was asked before, each time of a partition that is opened anew, and the cases behind it.
pub type State = (&'static [Asked], &'static [Case]);

fn text(rt: &impl Abort, alloc: Global, text: &str) -> Text {
    Text::of(alloc, text).expect(rt, "memory")
}

fn subscription(counter: u32) -> Key {
    Key::make(PartitionId::new(1), u64::from(counter))
}

fn message(counter: u32) -> Key {
    Key::make(PartitionId::new(2), u64::from(counter))
}

fn of_message(counter: u32, told: u32) -> SubscribedMessage {
    SubscribedMessage {
        subscription: subscription(counter),
        message: message(told),
    }
}

fn publish(rt: &impl Abort, alloc: Global, time_to_live: u64) -> MessagePublish {
    MessagePublish {
        name: text(rt, alloc, "go"),
        correlation_key: text(rt, alloc, "o-1"),
        time_to_live,
        id: Text::empty(alloc),
        variables: Vars::empty(alloc),
    }
}

fn open(rt: &impl Abort, alloc: Global, counter: u32, cancel: bool) -> MessageSubscription {
    MessageSubscription {
        subscription: subscription(counter),
        name: text(rt, alloc, "go"),
        correlation_key: text(rt, alloc, "o-1"),
        process: text(rt, alloc, if counter == 8 { "q" } else { "p" }),
        cancel,
    }
}

fn close(rt: &impl Abort, alloc: Global, counter: u32, kept: &[u32]) -> MessageSubscriptionDelete {
    let mut keys = List::empty(alloc);
    for told in kept {
        keys.push(message(*told)).expect(rt, "memory");
    }
    MessageSubscriptionDelete {
        subscription: subscription(counter),
        keys,
    }
}

fn command(rt: &impl Abort, alloc: Global, asked: Asked) -> Command
    ensures { IsSupported result }
{
    match asked {
        Asked::Publish => Command::MessagePublish(publish(rt, alloc, 60_000)),
        Asked::PublishGone => Command::MessagePublish(publish(rt, alloc, 0)),
        Asked::Open(it) => Command::MessageSubscriptionCreate(open(rt, alloc, it, true)),
        Asked::OpenOn(it) => Command::MessageSubscriptionCreate(open(rt, alloc, it, false)),
        Asked::Taken(it, told) => Command::MessageSubscriptionCorrelate(of_message(it, told)),
        Asked::TurnedAway(it, told) => Command::MessageSubscriptionReject(of_message(it, told)),
        Asked::Close(it, kept) => Command::MessageSubscriptionDelete(close(rt, alloc, it, kept)),
        Asked::Opened(it) => Command::ProcessMessageSubscriptionCreate(subscription(it)),
        Asked::Take(it, told) => Command::ProcessMessageSubscriptionCorrelate(MessageCorrelation {
            subscription: subscription(it),
            message: message(told),
            variables: Vars::empty(alloc),
        }),
        Asked::Closed(it) => Command::ProcessMessageSubscriptionDelete(subscription(it)),
    }
}

// The name of an event of a subscription or a message, its key, and that of the message behind it.
fn shown(event: &Event) -> (&'static str, Option<Key>, Option<Key>) {
    match event {
        Event::MessagePublished(it) => ("PUBLISHED", Some(it.key), None),
        Event::MessageExpired(key) => ("EXPIRED", Some(*key), None),
        Event::MessageSubscriptionCreated(it) => ("CREATED", Some(it.subscription), None),
        Event::MessageSubscriptionCorrelating(it) => {
            ("CORRELATING", Some(it.subscription), Some(it.message))
        }
        Event::MessageSubscriptionCorrelated(it) => {
            ("CORRELATED", Some(it.subscription), Some(it.message))
        }
        Event::MessageSubscriptionRejected(it) => {
            ("REJECTED", Some(it.subscription), Some(it.message))
        }
        Event::MessageSubscriptionDeleted(key) => ("DELETED", Some(*key), None),
        _ => shown_at_instance(event),
    }
}

// The same of an event at the side of an instance.
fn shown_at_instance(event: &Event) -> (&'static str, Option<Key>, Option<Key>) {
    match event {
        Event::ProcessMessageSubscriptionCreated(key) => ("CREATED", Some(*key), None),
        Event::ProcessMessageSubscriptionCorrelated(it) => {
            ("CORRELATED", Some(it.subscription), Some(it.message))
        }
        Event::ProcessMessageSubscriptionDeleting(it) => (
            "DELETING",
            Some(it.subscription),
            it.keys.as_slice().first().copied(),
        ),
        Event::ProcessMessageSubscriptionDeleted(key) => ("DELETED", Some(*key), None),
        Event::ProcessEventTriggered(it) => ("TRIGGERED", Some(it.cell), None),
        _ => ("..", None, None),
    }
}

fn put_counter(text: &mut String, key: Option<Key>) -> Result<(), AllocError> {
    match key {
        Some(key) => {
            text.push_str(" ")?;
            text.write(key.counter())
        }
        None => Ok(()),
    }
}

fn put_event(text: &mut String, event: &Event) -> Result<(), AllocError> {
    let (name, key, told) = shown(event);
    if name == ".." && text.as_str().ends_with("..") {
        return Ok(());
    }
    if !text.is_empty() {
        text.push_str(" ")?;
    }
    text.push_str(name)?;
    put_counter(text, key)?;
    put_counter(text, told)
}

fn put_outcome(text: &mut String, outcome: &Outcome) -> Result<(), AllocError> {
    match outcome {
        Outcome::Rejected(rejection) => {
            text.push_str(match rejection.kind {
                RejectionKind::NotFound => "NOT_FOUND ",
                RejectionKind::AlreadyExists => "ALREADY_EXISTS ",
                RejectionKind::InvalidState => "INVALID_STATE ",
                RejectionKind::InvalidArgument => "INVALID_ARGUMENT ",
            })?;
            text.push_str(rejection.reason.as_str())
        }
        Outcome::Accepted(events) => {
            for event in events.as_slice() {
                put_event(text, event)?;
            }
            Ok(())
        }
    }
}

// What is told of a message to its partition.
fn put_answer(text: &mut String, answer: &Packet) -> Result<(), AllocError> {
    let (name, told) = match &answer.command {
        Command::MessageSubscriptionCorrelate(told) => (" CORRELATE", told),
        Command::MessageSubscriptionReject(told) => (" REJECT", told),
        _ => return Ok(()),
    };
    text.push_str(" TO ")?;
    text.write(answer.to.number())?;
    text.push_str(name)?;
    put_counter(text, Some(told.subscription))?;
    put_counter(text, Some(told.message))
}

fn put_batch(text: &mut String, batch: &Batch) -> Result<(), AllocError> {
    put_outcome(text, &batch.outcome)?;
    match answer_packet(batch, PartitionId::new(1), 3) {
        Some(answer) => {
            let put = put_answer(text, &answer);
            answer.command.discard();
            put
        }
        None => Ok(()),
    }
}

fn digit(sign: u8) -> u8 {
    if sign < b'a' {
        sign.wrapping_sub(b'0')
    } else {
        sign.wrapping_sub(b'a').wrapping_add(10)
    }
}

fn put_hex(bytes: &mut Vec<u8>, hex: &str) -> Result<(), AllocError> {
    for pair in hex.as_bytes().chunks_exact(2) {
        if let [high, low] = pair {
            bytes.push(digit(*high).wrapping_mul(16).wrapping_add(digit(*low)))?;
        }
    }
    Ok(())
}

fn disk(rt: &impl Abort, alloc: Global, bytes: Vec<u8>) -> MemDisk {
    assert!(rt; bytes.len() <= 100_000_000);
    match MemDisk::new(alloc, bytes, Vec::new(alloc)) {
        Ok(disk) => disk,
        Err(_) => panic!(rt; "no memory"),
    }
}

/// One of three partitions, with this log.
pub fn opened(rt: &impl Abort, alloc: Global, place: PartitionId, log: Log) -> Partition<MemDisk> {
    let mut bytes = Vec::new(alloc);
    for piece in log {
        for hex in *piece {
            put_hex(&mut bytes, hex).expect(rt, "memory");
        }
    }
    over(rt, alloc, place, bytes)
}

/// One of three partitions, whose log has these bytes.
pub fn over(
    rt: &impl Abort,
    alloc: Global,
    place: PartitionId,
    bytes: Vec<u8>,
) -> Partition<MemDisk> {
    let volume = Volume {
        log: disk(rt, alloc, bytes),
        snap_a: disk(rt, alloc, Vec::new(alloc)),
        snap_b: disk(rt, alloc, Vec::new(alloc)),
    };
    match Partition::open(alloc, volume, place, 3, 100_000_000) {
        Ok(partition) => partition,
        Err(_) => panic!(rt; "a partition that can't be opened"),
    }
}

/// Lets go of it.
pub fn ended(partition: Partition<MemDisk>) {
    let Stopped { volume, in_writing } = partition.stopped();
    Batch::discard_any(in_writing);
    drop(volume);
}

/// What comes of what a partition is asked.
pub fn told(
    rt: &impl Abort,
    alloc: Global,
    partition: &mut Partition<MemDisk>,
    asked: Asked,
) -> String {
    assert!(rt; partition.live());
    let mut text = String::new(alloc);
    match partition.submit(alloc, Moment::new(0), 0, command(rt, alloc, asked)) {
        Ok(batch) => {
            put_batch(&mut text, &batch).expect(rt, "memory");
            batch.discard();
        }
        Err(_) => panic!(rt; "the partition stops"),
    }
    text
}

// Whether once and again comes of it what is wanted, behind what was asked before.
fn holds(
    rt: &impl Abort,
    alloc: Global,
    place: PartitionId,
    log: Log,
    before: &[Asked],
    case: &Case,
) -> bool {
    let (asked, once, again) = *case;
    let mut partition = opened(rt, alloc, place, log);
    for it in before {
        drop(told(rt, alloc, &mut partition, *it));
    }
    let is_so = told(rt, alloc, &mut partition, asked).as_str() == once
        && told(rt, alloc, &mut partition, asked).as_str() == again;
    ended(partition);
    is_so
}

/// That all cases of these states hold at this partition, over this log.
pub fn hold(rt: &impl Abort, alloc: Global, place: PartitionId, log: Log, states: &[State]) {
    for (i, (before, cases)) in states.iter().enumerate() {
        for (k, case) in cases.iter().enumerate() {
            assert!(rt;
                holds(rt, alloc, place, log, before, case),
                "state {i}, case {k}"
            );
        }
    }
}
