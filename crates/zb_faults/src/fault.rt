ghost use Rattle.std.specs.Prelude.{◌≡◌};

use thiserror::Error;

/// What may be wrong with a model, in the order in which it is looked for.
#[derive(Clone, Copy, Debug, PartialEq, Eq, Error)]
pub enum Fault {
    /// The process, a node or a flow has no id.
    #[error("the process, a node or a flow has no id")]
    EmptyId,
    /// An id was used before.
    #[error("an id was used before")]
    DoubleId,
    /// A node's parent is no subprocess in front of it.
    #[error("a node's parent is no subprocess in front of it")]
    BadParent,
    /// An end of a flow is no node.
    #[error("an end of a flow is no node")]
    Dangling,
    /// The ends of a flow have different parents.
    #[error("the ends of a flow have different parents")]
    Crossing,
    /// A process or subprocess hasn't exactly one start event, or a subprocess has one that a message triggers.
    #[error("a process or subprocess hasn't exactly one start event, or a subprocess has one that a message triggers")]
    Start,
    /// A flow leads into a start event or a boundary event, or out of an end event.
    #[error("a flow leads into a start event or a boundary event, or out of an end event")]
    FlowEnd,
    /// No flow leads to a node that is no start event, no boundary event and no handler.
    #[error("no flow leads to a node that is no start event, no boundary event and no handler")]
    NoIncoming,
    /// A boundary event isn't attached to an activity of its scope.
    #[error("a boundary event isn't attached to an activity of its scope")]
    Attach,
    /// A condition stands where none may, or is missing, or a default is no flow out of its gateway without one.
    #[error("a condition stands where none may, or is missing, or a default is no flow out of its gateway without one")]
    Condition,
    /// An event gateway has fewer than two flows, or one that leads to no catch event of its own.
    #[error("an event gateway has fewer than two flows, or one that leads to no catch event of its own")]
    EventGate,
    /// A compensation event has no handler of its own or has flows, or a handler has no compensation event.
    #[error("a compensation event has no handler of its own or has flows, or a handler has no compensation event")]
    Compensation,
    /// Two error events of an activity have one code, or one doesn't end its activity.
    #[error("two error events of an activity have one code, or one doesn't end its activity")]
    Error,
    /// There are too many nodes, flows or subprocesses one in the other.
    #[error("there are too many nodes, flows or subprocesses one in the other")]
    Limit,
}

impl Fault {
    ghost use Rattle.zb_faults.specs.Faults.{name_of, number_of};

    /// Its name.
    pub fn name(self) -> &'static str
        ensures { result.now ≡ name_of self }
    {
        match self {
            Fault::EmptyId => "EMPTY_ID",
            Fault::DoubleId => "DOUBLE_ID",
            Fault::BadParent => "BAD_PARENT",
            Fault::Dangling => "DANGLING",
            Fault::Crossing => "CROSSING",
            Fault::Start => "START",
            Fault::FlowEnd => "FLOW_END",
            Fault::NoIncoming => "NO_INCOMING",
            Fault::Attach => "ATTACH",
            Fault::Condition => "CONDITION",
            Fault::EventGate => "EVENT_GATE",
            Fault::Compensation => "COMPENSATION",
            Fault::Error => "ERROR",
            Fault::Limit => "LIMIT",
        }
    }

    /// Its number, from 1 to 14. It ascends in the order in which faults are looked for.
    pub fn number(self) -> u32
        ensures { result ≡ number_of self }
    {
        match self {
            Fault::EmptyId => 1,
            Fault::DoubleId => 2,
            Fault::BadParent => 3,
            Fault::Dangling => 4,
            Fault::Crossing => 5,
            Fault::Start => 6,
            Fault::FlowEnd => 7,
            Fault::NoIncoming => 8,
            Fault::Attach => 9,
            Fault::Condition => 10,
            Fault::EventGate => 11,
            Fault::Compensation => 12,
            Fault::Error => 13,
            Fault::Limit => 14,
        }
    }
}
