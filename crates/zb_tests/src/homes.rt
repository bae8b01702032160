// Subscriptions at the home of their messages: each command that partitions ask of it, in each state of a subscription,
// early, late and twice. 5 and 6 are subscriptions of one process, and 8 is one of another. No line leads to most of these
// calls, since no instance opens one yet.
use crate::asked::{Asked, Case, State, hold};
use crate::written::EMPTY;
use zb_model::PartitionId;

const IS_THERE: &str = "ALREADY_EXISTS subscription 2251799813685253 is there";

const NO_SUBSCRIPTION: &str = "NOT_FOUND no subscription 2251799813685253";

// (a subscription of an instance, which the home has none of)
const NOT_ITS: &str = "NOT_FOUND no subscription 2251799813685253 TO 2 REJECT 5 1";

const NO_FIRST: &str = "NOT_FOUND no correlation of 4503599627370497 at 2251799813685253";

const NO_SECOND: &str = "NOT_FOUND no correlation of 4503599627370498 at 2251799813685253";

// What nobody has opened.
const NONE: [Case; 8] = [
    (Asked::Open(5), "CREATED 5", IS_THERE),
    (Asked::OpenOn(5), "CREATED 5", IS_THERE),
    (Asked::Taken(5, 1), NO_FIRST, NO_FIRST),
    (Asked::TurnedAway(5, 1), NO_FIRST, NO_FIRST),
    (Asked::Close(5, &[]), NO_SUBSCRIPTION, NO_SUBSCRIPTION),
    (Asked::Opened(5), NO_SUBSCRIPTION, NO_SUBSCRIPTION),
    (Asked::Take(5, 1), NOT_ITS, NOT_ITS),
    (Asked::Closed(5), NO_SUBSCRIPTION, NO_SUBSCRIPTION),
];

// The same where its message is there already.
const EARLY: [Case; 4] = [
    (Asked::Open(5), "CREATED 5 CORRELATING 5 1", IS_THERE),
    (Asked::Taken(5, 1), NO_FIRST, NO_FIRST),
    (Asked::TurnedAway(5, 1), NO_FIRST, NO_FIRST),
    (Asked::Close(5, &[1]), NO_SUBSCRIPTION, NO_SUBSCRIPTION),
];

// What is open.
const OPEN: [Case; 10] = [
    (Asked::Open(5), IS_THERE, IS_THERE),
    (Asked::Taken(5, 1), NO_FIRST, NO_FIRST),
    (Asked::TurnedAway(5, 1), NO_FIRST, NO_FIRST),
    (Asked::Close(5, &[]), "DELETED 5", NO_SUBSCRIPTION),
    (Asked::Close(5, &[1]), "DELETED 5", NO_SUBSCRIPTION),
    (Asked::Publish, "PUBLISHED 1 CORRELATING 5 1", "PUBLISHED 2"),
    (
        Asked::PublishGone,
        "PUBLISHED 1 CORRELATING 5 1 EXPIRED 1",
        "PUBLISHED 2 EXPIRED 2",
    ),
    (Asked::Opened(5), NO_SUBSCRIPTION, NO_SUBSCRIPTION),
    (Asked::Take(5, 1), NOT_ITS, NOT_ITS),
    (Asked::Closed(5), NO_SUBSCRIPTION, NO_SUBSCRIPTION),
];

// What is correlating the first message.
const CORRELATING: [Case; 11] = [
    (Asked::Open(5), IS_THERE, IS_THERE),
    (Asked::Taken(5, 1), "CORRELATED 5 1", NO_FIRST),
    (Asked::Taken(5, 2), NO_SECOND, NO_SECOND),
    (Asked::TurnedAway(5, 1), "REJECTED 5 1", NO_FIRST),
    (Asked::TurnedAway(5, 2), NO_SECOND, NO_SECOND),
    (
        Asked::Close(5, &[]),
        "REJECTED 5 1 DELETED 5",
        NO_SUBSCRIPTION,
    ),
    (
        Asked::Close(5, &[2]),
        "REJECTED 5 1 DELETED 5",
        NO_SUBSCRIPTION,
    ),
    (Asked::Close(5, &[2, 1]), "DELETED 5", NO_SUBSCRIPTION),
    (Asked::Opened(5), NO_SUBSCRIPTION, NO_SUBSCRIPTION),
    (Asked::Take(5, 1), NOT_ITS, NOT_ITS),
    (Asked::Closed(5), NO_SUBSCRIPTION, NO_SUBSCRIPTION),
];

// The same where another one of its process and one of another process are open: what it gives up passes on to the first.
const BESIDE: [Case; 5] = [
    (Asked::Taken(5, 1), "CORRELATED 5 1", NO_FIRST),
    (
        Asked::TurnedAway(5, 1),
        "REJECTED 5 1 CORRELATING 6 1",
        NO_FIRST,
    ),
    (
        Asked::Close(5, &[]),
        "REJECTED 5 1 DELETED 5 CORRELATING 6 1",
        NO_SUBSCRIPTION,
    ),
    (Asked::Close(5, &[1]), "DELETED 5", NO_SUBSCRIPTION),
    (Asked::Publish, "PUBLISHED 2 CORRELATING 6 2", "PUBLISHED 3"),
];

// The same where the message is gone.
const GONE: [Case; 3] = [
    (Asked::Taken(5, 1), "CORRELATED 5 1", NO_FIRST),
    (Asked::TurnedAway(5, 1), "REJECTED 5 1", NO_FIRST),
    (
        Asked::Close(5, &[]),
        "REJECTED 5 1 DELETED 5",
        NO_SUBSCRIPTION,
    ),
];

// What goes on and is correlating the first of two messages, and then the second one.
const FIRST: [Case; 4] = [
    (
        Asked::Taken(5, 1),
        "CORRELATED 5 1 CORRELATING 5 2",
        NO_FIRST,
    ),
    (Asked::TurnedAway(5, 1), "REJECTED 5 1", NO_FIRST),
    (
        Asked::Close(5, &[]),
        "REJECTED 5 1 DELETED 5",
        NO_SUBSCRIPTION,
    ),
    (Asked::Close(5, &[1]), "DELETED 5", NO_SUBSCRIPTION),
];

const SECOND: [Case; 5] = [
    (Asked::Taken(5, 1), NO_FIRST, NO_FIRST),
    (Asked::Taken(5, 2), "CORRELATED 5 2", NO_SECOND),
    (Asked::TurnedAway(5, 2), "REJECTED 5 2", NO_SECOND),
    (
        Asked::Close(5, &[1]),
        "REJECTED 5 2 DELETED 5",
        NO_SUBSCRIPTION,
    ),
    (Asked::Close(5, &[1, 2]), "DELETED 5", NO_SUBSCRIPTION),
];

// What is closed: where it had the message, that stays locked, and where it gave it up, it doesn't.
const HAD: [Case; 5] = [
    (Asked::Open(5), "CREATED 5", IS_THERE),
    (Asked::OpenOn(5), "CREATED 5", IS_THERE),
    (Asked::Taken(5, 1), NO_FIRST, NO_FIRST),
    (Asked::TurnedAway(5, 1), NO_FIRST, NO_FIRST),
    (Asked::Close(5, &[1]), NO_SUBSCRIPTION, NO_SUBSCRIPTION),
];

const GAVE_UP: [Case; 5] = [
    (Asked::Open(5), "CREATED 5 CORRELATING 5 1", IS_THERE),
    (Asked::OpenOn(5), "CREATED 5 CORRELATING 5 1", IS_THERE),
    (Asked::Taken(5, 1), NO_FIRST, NO_FIRST),
    (Asked::TurnedAway(5, 1), NO_FIRST, NO_FIRST),
    (Asked::Close(5, &[]), NO_SUBSCRIPTION, NO_SUBSCRIPTION),
];

// What is opened once more by a packet that comes late, behind its close: the lock stays.
const REOPENED: [Case; 5] = [
    (Asked::Open(5), IS_THERE, IS_THERE),
    (Asked::Taken(5, 1), NO_FIRST, NO_FIRST),
    (Asked::TurnedAway(5, 1), NO_FIRST, NO_FIRST),
    (Asked::Close(5, &[1]), "DELETED 5", NO_SUBSCRIPTION),
    (Asked::Publish, "PUBLISHED 2 CORRELATING 5 2", "PUBLISHED 3"),
];

// Others that are opened where two messages are there, of which the first is locked for one process.
const LOCKED: [Case; 2] = [
    (
        Asked::Open(6),
        "CREATED 6 CORRELATING 6 2",
        "ALREADY_EXISTS subscription 2251799813685254 is there",
    ),
    (
        Asked::Open(8),
        "CREATED 8 CORRELATING 8 1",
        "ALREADY_EXISTS subscription 2251799813685256 is there",
    ),
];

const STATES: [State; 16] = [
    (&[], &NONE),
    (&[Asked::Publish], &EARLY),
    (&[Asked::Open(5)], &OPEN),
    (&[Asked::Open(5), Asked::Publish], &CORRELATING),
    (&[Asked::OpenOn(5), Asked::Publish], &CORRELATING),
    (
        &[
            Asked::Open(5),
            Asked::Open(6),
            Asked::Open(8),
            Asked::Publish,
        ],
        &BESIDE,
    ),
    (&[Asked::Open(5), Asked::Open(6), Asked::PublishGone], &GONE),
    (&[Asked::OpenOn(5), Asked::Publish, Asked::Publish], &FIRST),
    (
        &[
            Asked::OpenOn(5),
            Asked::Publish,
            Asked::Publish,
            Asked::Taken(5, 1),
        ],
        &SECOND,
    ),
    (&[Asked::Open(5), Asked::Publish, Asked::Taken(5, 1)], &HAD),
    (
        &[Asked::Open(5), Asked::Publish, Asked::Close(5, &[1])],
        &HAD,
    ),
    (
        &[Asked::Open(5), Asked::Publish, Asked::TurnedAway(5, 1)],
        &GAVE_UP,
    ),
    (
        &[Asked::OpenOn(5), Asked::Publish, Asked::TurnedAway(5, 1)],
        &GAVE_UP,
    ),
    (
        &[Asked::Open(5), Asked::Publish, Asked::Close(5, &[])],
        &GAVE_UP,
    ),
    (
        &[
            Asked::Open(5),
            Asked::Publish,
            Asked::Close(5, &[1]),
            Asked::Open(5),
        ],
        &REOPENED,
    ),
    (&[Asked::Publish, Asked::Publish, Asked::Open(5)], &LOCKED),
];

#[test]
fn a_home_is_asked_early_late_and_twice(rt: HostRuntime) {
    hold(&rt, rt.alloc(), PartitionId::new(2), EMPTY, &STATES);
}
