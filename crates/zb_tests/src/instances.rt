// Subscriptions at their element instances: each command that the home of the messages asks of them, in each state of a
// subscription, early, late and twice; and both sides, where packets come again or late. 6 is the subscription of a catch
// event, and 7 that of a boundary event. No line leads to these calls, since no instance opens a subscription yet.
use crate::asked::{Asked, Case, State, ended, hold, opened, told};
use crate::written::{
    BOUNDARY, BOUNDARY_CLOSING, BOUNDARY_ENDING, CATCH, CATCH_ENDED, CATCH_ENDING, EMPTY, Log,
};
use std::alloc::Global;
use std::process::Abort;
use zb_model::PartitionId;

const NO_6: &str = "NOT_FOUND no subscription 2251799813685254";

const NO_6_FOR_1: &str = "NOT_FOUND no subscription 2251799813685254 TO 2 REJECT 6 1";

const NO_6_FOR_2: &str = "NOT_FOUND no subscription 2251799813685254 TO 2 REJECT 6 2";

const NO_7: &str = "NOT_FOUND no subscription 2251799813685255";

const NO_CREATION_6: &str = "INVALID_STATE subscription 2251799813685254 isn't being created";

const NO_CREATION_7: &str = "INVALID_STATE subscription 2251799813685255 isn't being created";

const NO_DELETION_6: &str = "INVALID_STATE subscription 2251799813685254 isn't being deleted";

const NO_DELETION_7: &str = "INVALID_STATE subscription 2251799813685255 isn't being deleted";

const NO_WAIT: &str = "INVALID_STATE element 2251799813685253 doesn't wait";

// What is given, and what comes of it again.
const GIVEN_6: &str = "CORRELATED 6 1 DELETING 6 1 TRIGGERED 5 .. TO 2 CORRELATE 6 1";

const HAD_6: &str = "INVALID_STATE message 4503599627370497 was correlated TO 2 CORRELATE 6 1";

const CLOSING_6: &str =
    "INVALID_STATE subscription 2251799813685254 is being deleted TO 2 REJECT 6 2";

const GIVEN_7: &str = "CORRELATED 7 1 TRIGGERED 5 .. TO 2 CORRELATE 7 1";

const HAD_7: &str = "INVALID_STATE message 4503599627370497 was correlated TO 2 CORRELATE 7 1";

const THEN_GIVEN_7: &str = "CORRELATED 7 2 TRIGGERED 5 .. TO 2 CORRELATE 7 2";

const THEN_HAD_7: &str = "INVALID_STATE message 4503599627370498 was correlated TO 2 CORRELATE 7 2";

const CLOSING_7: &str =
    "INVALID_STATE subscription 2251799813685255 is being deleted TO 2 REJECT 7 2";

// What isn't there, or not any more.
const NONE: [Case; 4] = [
    (Asked::Opened(6), NO_6, NO_6),
    (Asked::Take(6, 1), NO_6_FOR_1, NO_6_FOR_1),
    (Asked::Take(6, 2), NO_6_FOR_2, NO_6_FOR_2),
    (Asked::Closed(6), NO_6, NO_6),
];

// What is being created, and what is open.
const CREATING: [Case; 4] = [
    (Asked::Opened(6), "CREATED 6", NO_CREATION_6),
    (Asked::Take(6, 1), GIVEN_6, HAD_6),
    (Asked::Closed(6), NO_DELETION_6, NO_DELETION_6),
    (Asked::Opened(7), NO_7, NO_7),
];

const OPEN: [Case; 3] = [
    (Asked::Opened(6), NO_CREATION_6, NO_CREATION_6),
    (Asked::Take(6, 1), GIVEN_6, HAD_6),
    (Asked::Closed(6), NO_DELETION_6, NO_DELETION_6),
];

// What is being deleted behind its first message.
const CLOSING: [Case; 4] = [
    (Asked::Opened(6), NO_CREATION_6, NO_CREATION_6),
    (Asked::Take(6, 1), HAD_6, HAD_6),
    (Asked::Take(6, 2), CLOSING_6, CLOSING_6),
    (Asked::Closed(6), "DELETED 6", NO_6),
];

const AT_CATCH: [State; 6] = [
    (&[], &CREATING),
    (&[Asked::Opened(6)], &OPEN),
    (&[Asked::Take(6, 1)], &CLOSING),
    (&[Asked::Opened(6), Asked::Take(6, 1)], &CLOSING),
    (&[Asked::Take(6, 1), Asked::Closed(6)], &NONE),
    (
        &[Asked::Opened(6), Asked::Take(6, 1), Asked::Closed(6)],
        &NONE,
    ),
];

// What is being created while its element is doomed, or gone.
const DOOMED: [Case; 2] = [
    (Asked::Take(6, 1), NO_WAIT, NO_WAIT),
    (Asked::Closed(6), NO_DELETION_6, NO_DELETION_6),
];

const GONE: [Case; 3] = [
    (Asked::Opened(6), "CREATED 6", NO_CREATION_6),
    (Asked::Take(6, 1), NO_WAIT, NO_WAIT),
    (Asked::Closed(6), NO_DELETION_6, NO_DELETION_6),
];

// What goes on behind a message: it is being created, it is open, and it was given a message.
const CREATING_BESIDE: [Case; 3] = [
    (Asked::Opened(7), "CREATED 7", NO_CREATION_7),
    (Asked::Take(7, 1), GIVEN_7, HAD_7),
    (Asked::Closed(7), NO_DELETION_7, NO_DELETION_7),
];

const OPEN_BESIDE: [Case; 4] = [
    (Asked::Opened(7), NO_CREATION_7, NO_CREATION_7),
    (Asked::Take(7, 1), GIVEN_7, HAD_7),
    (Asked::Take(7, 2), THEN_GIVEN_7, THEN_HAD_7),
    (Asked::Closed(7), NO_DELETION_7, NO_DELETION_7),
];

const GOES_ON_EARLY: [Case; 4] = [
    (Asked::Opened(7), "CREATED 7", NO_CREATION_7),
    (Asked::Take(7, 1), HAD_7, HAD_7),
    (Asked::Take(7, 2), THEN_GIVEN_7, THEN_HAD_7),
    (Asked::Closed(7), NO_DELETION_7, NO_DELETION_7),
];

const GOES_ON: [Case; 4] = [
    (Asked::Opened(7), NO_CREATION_7, NO_CREATION_7),
    (Asked::Take(7, 1), HAD_7, HAD_7),
    (Asked::Take(7, 2), THEN_GIVEN_7, THEN_HAD_7),
    (Asked::Closed(7), NO_DELETION_7, NO_DELETION_7),
];

// Two messages, of which the later one came first.
const OUT_OF_ORDER: [Case; 2] = [
    (Asked::Take(7, 1), GIVEN_7, HAD_7),
    (Asked::Take(7, 2), THEN_HAD_7, THEN_HAD_7),
];

const AT_BOUNDARY: [State; 5] = [
    (&[], &CREATING_BESIDE),
    (&[Asked::Opened(7)], &OPEN_BESIDE),
    (&[Asked::Take(7, 1)], &GOES_ON_EARLY),
    (&[Asked::Opened(7), Asked::Take(7, 1)], &GOES_ON),
    (&[Asked::Opened(7), Asked::Take(7, 2)], &OUT_OF_ORDER),
];

// What was given the first message, while its element is doomed: that is asked first.
const DOOMED_BESIDE: [Case; 3] = [
    (Asked::Take(7, 1), HAD_7, HAD_7),
    (Asked::Take(7, 2), NO_WAIT, NO_WAIT),
    (Asked::Closed(7), NO_DELETION_7, NO_DELETION_7),
];

// What was given it and is being deleted, while its element is gone: the same.
const CLOSING_BESIDE: [Case; 4] = [
    (Asked::Opened(7), NO_CREATION_7, NO_CREATION_7),
    (Asked::Take(7, 1), HAD_7, HAD_7),
    (Asked::Take(7, 2), CLOSING_7, CLOSING_7),
    (Asked::Closed(7), "DELETED 7", NO_7),
];

const LOGS: [(Log, &'static [State]); 7] = [
    (EMPTY, &[(&[], &NONE)]),
    (CATCH, &AT_CATCH),
    (CATCH_ENDING, &[(&[], &DOOMED)]),
    (CATCH_ENDED, &[(&[], &GONE)]),
    (BOUNDARY, &AT_BOUNDARY),
    (BOUNDARY_ENDING, &[(&[], &DOOMED_BESIDE)]),
    (BOUNDARY_CLOSING, &[(&[], &CLOSING_BESIDE)]),
];

#[test]
fn an_instance_is_asked_early_late_and_twice(rt: HostRuntime) {
    for (log, states) in LOGS {
        hold(&rt, rt.alloc(), PartitionId::new(1), log, states);
    }
}

// What is asked of either side, and what comes of it.
type Step = (Asked, &'static str);

const NO_CORRELATION: &str = "NOT_FOUND no correlation of 4503599627370497 at 2251799813685254";

// The first message is taken, and its answer lost. It comes again before the home has heard of it, and once more when the
// subscription is gone at both sides: it is turned away, which gives nothing up, and stays locked for process p alone.
const COMES_AGAIN: [Step; 12] = [
    (Asked::Open(6), "CREATED 6"),
    (Asked::Opened(6), "CREATED 6"),
    (Asked::Publish, "PUBLISHED 1 CORRELATING 6 1"),
    (Asked::Take(6, 1), GIVEN_6),
    (Asked::Take(6, 1), HAD_6),
    (Asked::Taken(6, 1), "CORRELATED 6 1"),
    (Asked::Close(6, &[1]), NO_6),
    (Asked::Closed(6), "DELETED 6"),
    (Asked::Take(6, 1), NO_6_FOR_1),
    (Asked::TurnedAway(6, 1), NO_CORRELATION),
    (Asked::Open(7), "CREATED 7"),
    (Asked::Open(8), "CREATED 8 CORRELATING 8 1"),
];

// The answer is lost, and the subscription deleted at both sides. Then it is opened once more by a packet that comes late,
// and so does the message: it is turned away, which gives nothing up, and stays locked.
const OPENED_LATE: [Step; 11] = [
    (Asked::Open(6), "CREATED 6"),
    (Asked::Opened(6), "CREATED 6"),
    (Asked::Publish, "PUBLISHED 1 CORRELATING 6 1"),
    (Asked::Take(6, 1), GIVEN_6),
    (Asked::Close(6, &[1]), "DELETED 6"),
    (Asked::Closed(6), "DELETED 6"),
    (Asked::Open(6), "CREATED 6"),
    (Asked::Take(6, 1), NO_6_FOR_1),
    (Asked::TurnedAway(6, 1), NO_CORRELATION),
    (Asked::Open(7), "CREATED 7"),
    (Asked::Open(8), "CREATED 8 CORRELATING 8 1"),
];

// Asks both sides one step after the other.
fn follow(rt: &impl Abort, alloc: Global, steps: &[Step]) {
    let mut instance = opened(rt, alloc, PartitionId::new(1), CATCH);
    let mut home = opened(rt, alloc, PartitionId::new(2), EMPTY);
    for (i, (asked, wanted)) in steps.iter().enumerate() {
        let said = match asked {
            Asked::Opened(_) | Asked::Take(..) | Asked::Closed(_) => {
                told(rt, alloc, &mut instance, *asked)
            }
            _ => told(rt, alloc, &mut home, *asked),
        };
        assert!(rt; said.as_str() == *wanted, "step {i}");
    }
    ended(instance);
    ended(home);
}

#[test]
fn a_message_that_comes_again_or_late_is_never_given_up(rt: HostRuntime) {
    follow(&rt, rt.alloc(), &COMES_AGAIN);
    follow(&rt, rt.alloc(), &OPENED_LATE);
}
