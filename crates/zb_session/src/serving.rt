ghost use Rattle.std.specs.Prelude.{◌≡◌, ◌<◌, ◌+◌, [], length, IsTrue, is_some, IfOk, IfErr, OnOk};
ghost use Rattle.zb_outside.specs.Clock.{HasGoneOn};
ghost use Rattle.zb_outside.specs.Stream.{SourceView, SinkView};
ghost use Rattle.zb_session.specs.Hours.{Hours};
ghost use Rattle.zb_session.specs.Session.{streams_of, most_taken, facts_of, CutsOff};
ghost use Rattle.zb_session.specs.Serving.{AreAt, began_of, clocks_of, facts_by, service_of};
ghost use Rattle.zb_session.specs.Serving.{stand_of, IsServing, IsOver, GoesOn, goes_on, source_end_of};

use crate::dial::Dial;
use crate::line::serve_line;
use crate::session::{End, Session};
use std::alloc::{AllocError, Global};
use zb_desk::Desk;
use zb_lines::{LineReader, Next};
use zb_outside::{Clock, Sink, Source, Trouble};
use zb_wire::longest_shown;

// A session takes at most so many bytes.
const MOST_TAKEN: u64 = 1 << 40;

// What a session keeps from line to line.
#[derive(Drop)]
struct Intake {
    reader: LineReader,
    // How many bytes may still be taken.
    budget: u64,
    line: Vec<u8>,
    reply: Vec<u8>,
}

impl Intake {
    #[tactic(auto, unfolding(crate::specs::Session::most_taken))]
    fn new(alloc: Global) -> Result<Intake, AllocError>
        ensures reader { IfOk result (λ intake. intake.reader ≡ []) }
        ensures budget { IfOk result (λ intake. intake.budget ≡ most_taken) }
    {
        Ok(Intake {
            reader: LineReader::new(alloc)?,
            budget: MOST_TAKEN,
            line: Vec::new(alloc),
            reply: Vec::new(alloc),
        })
    }
}

/// Serves the lines of a session one after the other, up to the end of its source or to what ends the session
/// before. It takes one step for each byte of the lines, and what the desk takes for each request.
pub fn serve_session<S: Source, K: Sink, A: Desk, C: Clock>(
    alloc: Global,
    session: &mut Session<S, K>,
    desk: &mut A,
    dial: &mut Dial,
    clock: &mut C,
) -> End
    requires { A.goes_on desk.old }

    // For all that the desk may have begun with, and each clock that the run may go by.
    ensures over { (begun : A.Begun) (hours : Hours) → A.has begun [] desk.old
        → AreAt hours [] (clocks_of dial.old C.tells (C.upcoming clock.old))
        → IsOver (streams_of S.tells S.counts_failures K.Sink)
        (began_of hours (A.basis begun) (S.view session.old.source) (K.view session.old.sink))
        (S.view session.new.source)
        (service_of (K.view session.new.sink) (clocks_of dial.new C.tells (C.upcoming clock.new))
        (facts_of (λ made. A.has begun made desk.new)
        (λ made left stop. A.stopped begun made left stop desk.new))) result }
    ensures uncut { (CutsOff result → ⊥) → A.goes_on desk.new }
    ensures many { A.many desk.new ≡ A.many desk.old }
    ensures kind { is_some dial.new ≡ is_some dial.old }
    ensures readings { HasGoneOn (C.upcoming clock.old) (C.upcoming clock.new) }
    ensures untouched { IsTrue (is_some dial.old) → clock.new ≡ clock.old }
{
    let mut intake = match Intake::new(alloc) {
        Ok(intake) => intake,
        Err(AllocError) => return End::Memory,
    };
    for number in 1..u64::MAX {
        match serve_next(alloc, number, &mut intake, session, desk, dial, clock) {
            Ok(true) => {}
            Ok(false) => return End::Done,
            Err(end) => return end,
        }
    }
    unreachable!()
}

// Serves the line with this number, and tells whether more may come.
fn serve_next<S: Source, K: Sink, A: Desk, C: Clock>(
    alloc: Global,
    number: u64,
    intake: &mut Intake,
    session: &mut Session<S, K>,
    desk: &mut A,
    dial: &mut Dial,
    clock: &mut C,
) -> Result<bool, End>
    requires { A.goes_on desk.old }
    ensures goes_on { (begun : A.Begun) (hours : Hours) (source : SourceView) (sink : SinkView)
        → IsServing (streams_of S.tells S.counts_failures K.Sink)
        (began_of hours (A.basis begun) source sink)
        (stand_of (S.view session.old.source)
        (service_of (K.view session.old.sink) (clocks_of dial.old C.tells (C.upcoming clock.old))
        (facts_by A.Desk begun desk.old))
        intake.old.reader intake.old.budget number)
        → GoesOn (streams_of S.tells S.counts_failures K.Sink)
        (began_of hours (A.basis begun) source sink)
        (stand_of (S.view session.new.source)
        (service_of (K.view session.new.sink) (clocks_of dial.new C.tells (C.upcoming clock.new))
        (facts_by A.Desk begun desk.new))
        intake.new.reader intake.new.budget (number + 1)) result }
    ensures still { OnOk result (A.goes_on desk.new) }
    ensures uncut { IfErr result (λ end. (CutsOff end → ⊥) → A.goes_on desk.new) }
    ensures many { A.many desk.new ≡ A.many desk.old }

    // A line before others has taken a byte at least.
    ensures fewer { IfOk result (λ more. IsTrue more
        → length intake.new.reader + intake.new.budget
        < length intake.old.reader + intake.old.budget) }
    ensures kind { is_some dial.new ≡ is_some dial.old }
    ensures readings { HasGoneOn (C.upcoming clock.old) (C.upcoming clock.new) }
    ensures untouched { IsTrue (is_some dial.old) → clock.new ≡ clock.old }
{
    let next = match intake.reader.next(
        &mut session.source,
        &mut intake.budget,
        longest_shown(),
        &mut intake.line,
    ) {
        Ok(next) => next,
        Err(trouble) => return Err(source_end(trouble)),
    };
    match next {
        Next::End => return Ok(false),
        Next::Full => return Err(End::InputFull),
        Next::Line | Next::Last => {}
    }
    match serve_line(
        alloc,
        number,
        &intake.line,
        &mut intake.reply,
        &mut session.sink,
        desk,
        dial,
        clock,
    ) {
        Ok(()) => Ok(may_go_on(next)),
        Err(end) => Err(end),
    }
}

// Whether more lines may come.
fn may_go_on(next: Next) -> bool
    ensures { result ≡ goes_on next }
{
    match next {
        Next::Line => true,
        Next::Last | Next::End | Next::Full => false,
    }
}

// Why a source ends a session.
fn source_end(trouble: Trouble) -> End
    ensures { result ≡ source_end_of trouble }
{
    match trouble {
        Trouble::Failed => End::SourceFault,
        Trouble::Memory => End::Memory,
    }
}
