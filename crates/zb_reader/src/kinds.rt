ghost use Rattle.std.specs.Prelude.{◌≡◌, map};
ghost use Rattle.serde_json.specs.View.{view};
ghost use Rattle.zb_reader.specs.Kinds as spec;

use crate::shapes::{COMPENSATE, ERROR, MESSAGE, TERMINATE, TIMER};
use crate::values::{text_in, value_within};
use serde_json::Value as Json;
use zb_process::NodeKind;

/// A kind of nodes: its element, the fields that lead to the definition that such a node has, and the kind.
#[derive(Clone, Copy)]
pub struct KindRow(&'static str, &'static [&'static str], NodeKind);

// A kind by the element alone stands behind those that have a definition.
const KINDS: [KindRow; 21] = [
    KindRow("startEvent", &[MESSAGE], NodeKind::MessageStartEvent),
    KindRow("startEvent", &[], NodeKind::StartEvent),
    KindRow("endEvent", &[TERMINATE], NodeKind::TerminateEndEvent),
    KindRow("endEvent", &[COMPENSATE], NodeKind::CompensationEndEvent),
    KindRow("endEvent", &[], NodeKind::EndEvent),
    KindRow("serviceTask", &[], NodeKind::ServiceTask),
    KindRow("receiveTask", &[], NodeKind::ReceiveTask),
    KindRow("subProcess", &[], NodeKind::SubProcess),
    KindRow("exclusiveGateway", &[], NodeKind::ExclusiveGateway),
    KindRow("parallelGateway", &[], NodeKind::ParallelGateway),
    KindRow("eventBasedGateway", &[], NodeKind::EventBasedGateway),
    KindRow(
        "intermediateCatchEvent",
        &[TIMER, "timeDate"],
        NodeKind::DateCatchEvent,
    ),
    KindRow(
        "intermediateCatchEvent",
        &[TIMER, "timeDuration"],
        NodeKind::DurationCatchEvent,
    ),
    KindRow(
        "intermediateCatchEvent",
        &[MESSAGE],
        NodeKind::MessageCatchEvent,
    ),
    KindRow(
        "intermediateThrowEvent",
        &[COMPENSATE],
        NodeKind::CompensationThrowEvent,
    ),
    KindRow("intermediateThrowEvent", &[], NodeKind::ThrowEvent),
    KindRow(
        "boundaryEvent",
        &[TIMER, "timeDate"],
        NodeKind::DateBoundaryEvent,
    ),
    KindRow(
        "boundaryEvent",
        &[TIMER, "timeDuration"],
        NodeKind::DurationBoundaryEvent,
    ),
    KindRow("boundaryEvent", &[MESSAGE], NodeKind::MessageBoundaryEvent),
    KindRow("boundaryEvent", &[ERROR], NodeKind::ErrorBoundaryEvent),
    KindRow(
        "boundaryEvent",
        &[COMPENSATE],
        NodeKind::CompensationBoundaryEvent,
    ),
];

impl KindRow {
    // Whether a node is of the element and has the definition.
    fn fits(self, value: &Json) -> bool
        ensures { result ≡ spec.is_of_kind (view value.now) (spec.kind_rule self) }
    {
        text_in(value, "kind") == self.0 && value_within(value, self.1).is_some()
    }
}

/// The kind of a node; each node that doesn't fail has one.
#[tactic(auto, unfolding(crate::specs::Kinds::kind_in))]
pub fn kind_in(value: &Json) -> Option<NodeKind>
    ensures { result ≡ spec.kind_in (view value.now) }
{
    kind_among(kind_rows(), value)
}

// The rows of the table.
fn kind_rows() -> &'static [KindRow]
    ensures { map spec.kind_rule result.now ≡ spec.kind_rules }
{
    &KINDS
}

// The kind of the first row that fits a node.
fn kind_among(rows: &[KindRow], value: &Json) -> Option<NodeKind>
    ensures { result ≡ spec.kind_among (map spec.kind_rule rows.now) (view value.now) }
{
    for row in rows {
        if row.fits(value) {
            return Some(row.2);
        }
    }
    None
}
