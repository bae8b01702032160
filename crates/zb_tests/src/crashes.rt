// What a crash leaves of the logs behind a call that fails.
use crate::script::{Ended, Script, THREE, output, served, served_behind};
use std::alloc::Global;
use std::process::Abort;
use std::sync::Wait;
use std::thread::Threads;
use zb_serve::Cause;

// How many lines a text has.
fn lines_in(text: &[u8]) -> usize {
    let mut lines: usize = 0;
    for byte in text {
        if *byte == b'\n' {
            lines = lines.saturating_add(1);
        }
    }
    lines
}

// A deploy, which goes to three partitions, two messages at the second one, the first of them with an id, and one at the
// first one.
const SPREAD: &str =
    "{\"op\":\"deploy\",\"model\":{\"process\":\"p\",\"nodes\":[{\"id\":\"s\",\"kind\":\"startEvent\"},{\"id\":\"e\",\"kind\":\"endEvent\"}],\"flows\":[{\"id\":\"f\",\"sourceRef\":\"s\",\"targetRef\":\"e\"}]}}\n{\"op\":\"publish\",\"name\":\"paid\",\"correlationKey\":\"o-1\",\"timeToLive\":60000,\"messageId\":\"x\"}\n{\"op\":\"publish\",\"name\":\"paid\",\"correlationKey\":\"o-1\",\"timeToLive\":60000}\n{\"op\":\"publish\",\"name\":\"paid\",\"correlationKey\":\"o-3\",\"timeToLive\":60000}\n";

// What is asked for in the next run: the units that are left, the message with the id once more, and an instance at the
// third partition, which has no other.
const AGAIN: &str =
    "{\"op\":\"settle\"}\n{\"op\":\"publish\",\"name\":\"paid\",\"correlationKey\":\"o-1\",\"timeToLive\":60000,\"messageId\":\"x\"}\n{\"op\":\"create\",\"process\":\"p\",\"partition\":3}\n";

// What its replies end in where the deploy was acknowledged, and where the message was, too.
const DEPLOYED: &str =
    "{\"ok\":{\"definition\":2251799813685249,\"instance\":6755399441055745},\"units\":0}\n";

const PUBLISHED: &str =
    "{\"reason\":\"message paid o-1 x is buffered\",\"rejected\":\"ALREADY_EXISTS\",\"units\":0}\n{\"ok\":{\"definition\":2251799813685249,\"instance\":6755399441055745},\"units\":0}\n";

// Whether these replies of the next run have what so many replies acknowledged.
fn has_acknowledged(acknowledged: usize, replies: &[u8]) -> bool {
    match acknowledged {
        0 => true,
        1 => replies.ends_with(DEPLOYED.as_bytes()),
        _ => replies.ends_with(PUBLISHED.as_bytes()),
    }
}

// Whether the next run, behind a crash at the end of this one that fills so, goes on with what was acknowledged.
fn goes_on<R: Abort + Threads + Wait + Sync>(
    rt: &R,
    alloc: Global,
    ended: &Ended,
    fill: &[u8],
) -> bool {
    let script = Script {
        input: AGAIN,
        ..THREE
    };
    let again = served_behind(rt, alloc, &script, ended, fill);
    let replies = output(&again);
    let kept = again.status == 0
        && lines_in(replies) == 3
        && has_acknowledged(lines_in(output(ended)), replies);
    drop(again.into_devices());
    kept
}

// Whether the run ended by a fault of this partition's disk.
fn failed_at(ended: &Ended, partition: u32) -> bool {
    match &ended.cause {
        Cause::DiskFault { partition: at, .. } => ended.status == 4 && *at == partition,
        _ => false,
    }
}

// Whether a run over three partitions, in which this call of this partition's log fails, is told, and the next run goes
// on with what was acknowledged.
fn is_survived<R: Abort + Threads + Wait + Sync>(
    rt: &R,
    alloc: Global,
    partition: u32,
    call: u64,
) -> bool {
    let script = Script {
        input: SPREAD,
        failing: partition,
        calls: &[call],
        ..THREE
    };
    let ended = served(rt, alloc, &script);
    let mut survived = failed_at(&ended, partition);
    for fill in [b"" as &[u8], &[1], &[255]] {
        survived = survived && goes_on(rt, alloc, &ended, fill);
    }
    drop(ended.into_devices());
    survived
}

#[test]
fn a_call_of_each_of_three_logs_may_fail_and_what_was_acknowledged_stays(rt: HostRuntime) {
    // Opening takes five calls, and each batch four: the first partition has the deploy, two answers and a message, the
    // second the definition and two messages, and the third the definition alone.
    for (partition, calls) in [(1u32, 21u64), (2, 17), (3, 9)] {
        for call in 0..calls {
            assert!(rt;
                is_survived(&rt, rt.alloc(), partition, call),
                "partition {partition}, call {call}"
            );
        }
    }
}
