ghost use Rattle.std.specs.Prelude.{◌≡◌, ◌++◌, ℕ, List, IsTrue, is_some, IfErr, OnOk};
ghost use Rattle.zb_outside.specs.Clock.{HasGoneOn};
ghost use Rattle.zb_reply.specs.Reply.{line_of, IsSpoken};
ghost use Rattle.zb_session.specs.Hours.{Hours};
ghost use Rattle.zb_session.specs.Answer.{Answer};
ghost use Rattle.zb_session.specs.Session.{CutsOff};
ghost use Rattle.zb_session.specs.Serving.{clocks_of, facts_by, before_of, ComesNext, IsAnswered, IsUnanswered};

use crate::dial::{Dial, read_for};
use crate::session::End;
use std::alloc::{AllocError, Global};
use zb_desk::Desk;
use zb_outside::Clock;
use zb_reply::Reply;
use zb_wire::{Given, LineFault};

/// Answers the line with this number: the desk is asked for its request, if it is one, at one reading of the clock,
/// and the line of the reply stands in `reply`. The clauses hold for all lines and entries that may lie behind it.
pub fn answer_line<A: Desk, C: Clock>(
    alloc: Global,
    number: u64,
    shown: &[u8],
    desk: &mut A,
    dial: &mut Dial,
    clock: &mut C,
    reply: &mut Vec<u8>,
) -> Result<(), End>
    requires { A.goes_on desk.old }
    ensures answered { (begun : A.Begun) (hours : Hours) (answers : List Answer) (line : List ℕ)
        → ComesNext (before_of hours (A.basis begun) number answers)
        (clocks_of dial.old C.tells (C.upcoming clock.old))
        (facts_by A.Desk begun desk.old) line shown.now
        → OnOk result (IsAnswered
        (before_of hours (A.basis begun) number answers) line reply.new.items
        (clocks_of dial.new C.tells (C.upcoming clock.new)) (facts_by A.Desk begun desk.new)) }
    ensures unanswered { (begun : A.Begun) (hours : Hours) (answers : List Answer) (line : List ℕ)
        → ComesNext (before_of hours (A.basis begun) number answers)
        (clocks_of dial.old C.tells (C.upcoming clock.old))
        (facts_by A.Desk begun desk.old) line shown.now
        → IfErr result (IsUnanswered (before_of hours (A.basis begun) number answers) line
        (facts_by A.Desk begun desk.new)) }
    ensures still { OnOk result (A.goes_on desk.new) }
    ensures uncut { IfErr result (λ end. (CutsOff end → ⊥) → A.goes_on desk.new) }
    ensures many { A.many desk.new ≡ A.many desk.old }
    ensures kind { is_some dial.new ≡ is_some dial.old }
    ensures readings { HasGoneOn (C.upcoming clock.old) (C.upcoming clock.new) }
    ensures untouched { IsTrue (is_some dial.old) → clock.new ≡ clock.old }
{
    reply.clear();
    let given = Given {
        number,
        partitions: desk.partitions(),
        manual: dial.is_manual(),
    };
    match zb_wire::read_line(alloc, shown, given) {
        Ok(request) => {
            let reading = read_for(&request, dial, clock);
            match desk.ask(alloc, reading, request) {
                Ok(answered) => put(alloc, answered.reply, Some(answered.units), reply),
                Err(_) => Err(End::Stopped),
            }
        }
        Err(LineFault::Memory) => Err(End::Memory),
        Err(fault) => put(alloc, Reply::Fault(number, fault), None, reply),
    }
}

// Puts the line of a reply behind what is in `reply`.
fn put(alloc: Global, answer: Reply, units: Option<u64>, reply: &mut Vec<u8>) -> Result<(), End>
    requires { IsSpoken answer }
    ensures put { OnOk result (reply.new.items ≡ reply.old.items ++ line_of answer units) }
    ensures memory { IfErr result (λ end. end ≡ End.Memory) }
{
    match zb_reply::reply_text(alloc, &answer, units, reply) {
        Ok(()) => Ok(()),
        Err(AllocError) => Err(End::Memory),
    }
}
