ghost use Rattle.std.specs.Prelude.{◌≡◌, ◌≤◌, ◌++◌, ℕ, List, Bool, take, IsTrue, is_some, IfErr, OnErr, OnOk, IsErrOf};
ghost use Rattle.zb_outside.specs.Clock.{HasGoneOn};
ghost use Rattle.zb_session.specs.Session.{streams_of, CutsOff};
ghost use Rattle.zb_session.specs.Hours.{Hours};
ghost use Rattle.zb_session.specs.Answer.{Answer};
ghost use Rattle.zb_session.specs.Serving.{clocks_of, facts_by, service_of, before_of, ComesNext, IsLineEnd, IsReplied, IsSinkEnd};

use crate::answer::answer_line;
use crate::dial::Dial;
use crate::session::End;
use std::alloc::Global;
use zb_desk::Desk;
use zb_outside::{Clock, Sink, Trouble};

/// Serves a line: the desk is asked for it, if it is a request, and then its reply is written. An `Err`
/// ends the session.
pub fn serve_line<K: Sink, A: Desk, C: Clock>(
    alloc: Global,
    number: u64,
    shown: &[u8],
    reply: &mut Vec<u8>,
    sink: &mut K,
    desk: &mut A,
    dial: &mut Dial,
    clock: &mut C,
) -> Result<(), End>
    requires { A.goes_on desk.old }

    // For every source, and all that may lie behind the line.
    ensures replied { (tells counts : Bool) (begun : A.Begun) (hours : Hours)
        (answers : List Answer) (line : List ℕ)
        → ComesNext (before_of hours (A.basis begun) number answers)
        (clocks_of dial.old C.tells (C.upcoming clock.old))
        (facts_by A.Desk begun desk.old) line shown.now
        → OnOk result (IsReplied (streams_of tells counts K.Sink)
        (before_of hours (A.basis begun) number answers) line (K.view sink.old)
        (service_of (K.view sink.new) (clocks_of dial.new C.tells (C.upcoming clock.new))
        (facts_by A.Desk begun desk.new))) }
    ensures over { (tells counts : Bool) (begun : A.Begun) (hours : Hours)
        (answers : List Answer) (line : List ℕ)
        → ComesNext (before_of hours (A.basis begun) number answers)
        (clocks_of dial.old C.tells (C.upcoming clock.old))
        (facts_by A.Desk begun desk.old) line shown.now
        → IfErr result (IsLineEnd (streams_of tells counts K.Sink)
        (before_of hours (A.basis begun) number answers) line (K.view sink.old)
        (service_of (K.view sink.new) (clocks_of dial.new C.tells (C.upcoming clock.new))
        (facts_by A.Desk begun desk.new))) }
    ensures still { OnOk result (A.goes_on desk.new) }
    ensures uncut { IfErr result (λ end. (CutsOff end → ⊥) → A.goes_on desk.new) }
    ensures many { A.many desk.new ≡ A.many desk.old }
    ensures sink_later { (K.view sink.old).faults ≤ (K.view sink.new).faults }
    ensures sink_steady { IsTrue K.counts_failures → ¬ IsErrOf result End.SinkFault
        → (K.view sink.new).faults ≡ (K.view sink.old).faults }
    ensures kind { is_some dial.new ≡ is_some dial.old }
    ensures readings { HasGoneOn (C.upcoming clock.old) (C.upcoming clock.new) }
    ensures untouched { IsTrue (is_some dial.old) → clock.new ≡ clock.old }
{
    match answer_line(alloc, number, shown, desk, dial, clock, reply) {
        Ok(()) => deliver(sink, reply),
        Err(end) => Err(end),
    }
}

// Writes a reply.
fn deliver<K: Sink>(sink: &mut K, reply: &[u8]) -> Result<(), End>
    ensures sent { IsTrue K.tells
        → OnOk result ((K.view sink.new).written ≡ (K.view sink.old).written ++ reply.now) }
    ensures part { IsTrue K.tells → OnErr result ((n : ℕ)
        × ((K.view sink.new).written ≡ (K.view sink.old).written ++ take n reply.now)) }
    ensures later { (K.view sink.old).faults ≤ (K.view sink.new).faults }
    ensures steady { IsTrue K.counts_failures → ¬ IsErrOf result End.SinkFault
        → (K.view sink.new).faults ≡ (K.view sink.old).faults }
    ensures end { IfErr result (IsSinkEnd K.takes_memory (K.view sink.old) (K.view sink.new)) }
{
    match zb_lines::send(sink, reply) {
        Ok(()) => Ok(()),
        Err(Trouble::Failed) => Err(End::SinkFault),
        Err(Trouble::Memory) => Err(End::Memory),
    }
}
