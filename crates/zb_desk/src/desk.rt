ghost use Rattle.std.specs.Prelude.{◌≡◌, ℕ, List, length, Option, IfOk, IfErr, OnOk};
ghost use Rattle.zb_model.specs.declared.stop.Stop.{Stop as Halt};
ghost use Rattle.zb_reply.specs.Reply.{IsSpoken};
ghost use Rattle.zb_world.specs.declared.entry.Entry.{Entry};
ghost use Rattle.zb_desk.specs.Serial.{Basis};
ghost use Rattle.zb_desk.specs.Asking.{IsAsked, IsCut};

use crate::answered::Answered;
use std::alloc::Global;
use zb_model::{Moment, Stop};
use zb_wire::Request;

/// What requests can be asked of: the logs of some partitions, and what carries requests out on them.
pub trait Desk {
    /// What it began with.
    ghost Begun: { Type 0 };

    /// The batches that each of its logs had then, and how many units of work it does behind a request.
    ghost basis: { Begun → Basis };

    /// It began so, and has made these entries since.
    ghost has: { Begun → List Entry → Self → Type 0 };

    /// It began so, made these entries and stopped, with the entry that was made last and isn't in its log, if there
    /// is one.
    ghost stopped: { Begun → List Entry → Option Entry → Halt → Self → Type 0 };

    /// No stop has ended it: it may be asked.
    ghost goes_on: { Self → Type 0 };

    /// How many partitions it has.
    ghost many: { Self → ℕ };

    /// How many partitions it has.
    fn partitions(&self) -> u32
        ensures many { result ≡ many self.now }
        ensures begun { (begun : Begun) (made : List Entry) → has begun made self.now
            → result ≡ length (basis begun).logs };

    /// Carries a request out at a reading of the clock, and does the units of work behind it: at `Ok` its entries are
    /// in the logs, and this is what it is answered. After an `Err` it has stopped, and is only closed.
    fn ask(&mut self, alloc: Global, reading: Moment, request: Request) -> Result<Answered, Stop>
        requires { goes_on self.old }
        ensures asked { (begun : Begun) (made : List Entry) → has begun made self.old
            → IfOk result (IsAsked (basis begun) request reading made
            (λ entries. has begun entries self.new)) }
        ensures cut { (begun : Begun) (made : List Entry) → has begun made self.old
            → IfErr result (λ stop. IsCut (basis begun) request reading made
            (λ entries unlogged. stopped begun entries unlogged stop self.new)) }

        // Whatever it may have begun with.
        ensures still { OnOk result (goes_on self.new) }
        ensures spoken { IfOk result (λ answered. IsSpoken answered.reply) }
        ensures many { many self.new ≡ many self.old };
}
