ghost use Rattle.std.specs.Prelude.{◌≡◌};
ghost use Rattle.zb_format.specs.Reading.{one_of};
ghost use Rattle.zb_process.specs.Kind as kinds;
ghost use Rattle.zb_process.specs.Layouts as layouts;

// How the kind of a node stands in bytes.
use crate::NodeKind;
use std::alloc::{AllocError, Global};
use zb_format::{Cursor, Encoder, Format, ReadFault};

#[tactic(auto, unfolding(crate::specs::Layouts::kind))]
impl Format for NodeKind {
    ghost layout = { layouts.kind };

    fn write(&self, encoder: &mut Encoder) -> Result<(), AllocError> {
        encoder.add(&[byte_of(*self)])
    }

    fn read(_alloc: Global, cursor: &mut Cursor<'_>) -> Result<NodeKind, ReadFault> {
        kind_of(cursor.byte()?).ok_or(ReadFault::NotSpelled)
    }
}

// The byte of a node's kind.
fn byte_of(kind: NodeKind) -> u8
    ensures { result ≡ kinds.kind_byte kind }
{
    match kind {
        NodeKind::StartEvent => 2,
        NodeKind::MessageStartEvent => 3,
        NodeKind::EndEvent => 4,
        NodeKind::TerminateEndEvent => 5,
        NodeKind::CompensationEndEvent => 6,
        NodeKind::ServiceTask => 7,
        NodeKind::ReceiveTask => 8,
        NodeKind::SubProcess => 9,
        NodeKind::ExclusiveGateway => 10,
        NodeKind::ParallelGateway => 11,
        NodeKind::EventBasedGateway => 12,
        NodeKind::DateCatchEvent => 13,
        NodeKind::DurationCatchEvent => 14,
        NodeKind::MessageCatchEvent => 15,
        NodeKind::ThrowEvent => 16,
        NodeKind::CompensationThrowEvent => 17,
        NodeKind::DateBoundaryEvent => 18,
        NodeKind::DurationBoundaryEvent => 19,
        NodeKind::MessageBoundaryEvent => 20,
        NodeKind::ErrorBoundaryEvent => 21,
        NodeKind::CompensationBoundaryEvent => 22,
    }
}

// The kind of node that a byte stands for.
fn kind_of(byte: u8) -> Option<NodeKind>
    ensures { result ≡ one_of kinds.kind_byte kinds.each_kind byte }
{
    match byte {
        2 => Some(NodeKind::StartEvent),
        3 => Some(NodeKind::MessageStartEvent),
        4 => Some(NodeKind::EndEvent),
        5 => Some(NodeKind::TerminateEndEvent),
        6 => Some(NodeKind::CompensationEndEvent),
        7 => Some(NodeKind::ServiceTask),
        8 => Some(NodeKind::ReceiveTask),
        9 => Some(NodeKind::SubProcess),
        10 => Some(NodeKind::ExclusiveGateway),
        11 => Some(NodeKind::ParallelGateway),
        12 => Some(NodeKind::EventBasedGateway),
        13 => Some(NodeKind::DateCatchEvent),
        14 => Some(NodeKind::DurationCatchEvent),
        15 => Some(NodeKind::MessageCatchEvent),
        16 => Some(NodeKind::ThrowEvent),
        17 => Some(NodeKind::CompensationThrowEvent),
        18 => Some(NodeKind::DateBoundaryEvent),
        19 => Some(NodeKind::DurationBoundaryEvent),
        20 => Some(NodeKind::MessageBoundaryEvent),
        21 => Some(NodeKind::ErrorBoundaryEvent),
        22 => Some(NodeKind::CompensationBoundaryEvent),
        _ => None,
    }
}
