// What kinds of nodes there are (BPMN 2.0.2, chapter 10).
ghost use Rattle.std.specs.Prelude.{◌≡◌};
ghost use Rattle.zb_faults.specs.Elements.{is_start, is_message_start, is_end_kind, is_boundary, is_boundary_of, is_error_boundary, is_compensation_boundary, is_catch, is_subprocess, is_service_task, is_activity, is_exclusive_gateway, is_event_gateway, is_parallel_gateway, is_terminate_end};

use zb_process::{Node, NodeKind};

/// Whether a node starts a process or a scope.
pub fn is_start(kind: NodeKind) -> bool
    ensures { result ≡ is_start kind }
{
    matches!(kind, NodeKind::StartEvent | NodeKind::MessageStartEvent)
}

/// Whether a node is a start event that a message triggers.
pub fn is_message_start(kind: NodeKind) -> bool
    ensures { result ≡ is_message_start kind }
{
    matches!(kind, NodeKind::MessageStartEvent)
}

/// Whether an event ends a process or a scope.
pub fn is_end_kind(kind: NodeKind) -> bool
    ensures { result ≡ is_end_kind kind }
{
    matches!(
        kind,
        NodeKind::EndEvent | NodeKind::TerminateEndEvent | NodeKind::CompensationEndEvent
    )
}

/// Whether an event stands at the boundary of an activity.
pub fn is_boundary(kind: NodeKind) -> bool
    ensures { result ≡ is_boundary kind }
{
    matches!(
        kind,
        NodeKind::DateBoundaryEvent
            | NodeKind::DurationBoundaryEvent
            | NodeKind::MessageBoundaryEvent
            | NodeKind::ErrorBoundaryEvent
            | NodeKind::CompensationBoundaryEvent
    )
}

/// Whether a node is a boundary event of the activity with an id.
pub fn is_boundary_of(id: &str, node: &Node) -> bool
    ensures { result ≡ is_boundary_of id.now node.now }
{
    is_boundary(node.kind) && node.attached.as_str() == id
}

/// Whether an event catches an error of an activity.
pub fn is_error_boundary(kind: NodeKind) -> bool
    ensures { result ≡ is_error_boundary kind }
{
    matches!(kind, NodeKind::ErrorBoundaryEvent)
}

/// Whether an event names what undoes an activity.
pub fn is_compensation_boundary(kind: NodeKind) -> bool
    ensures { result ≡ is_compensation_boundary kind }
{
    matches!(kind, NodeKind::CompensationBoundaryEvent)
}

/// Whether an event stands in the flow and waits for a trigger.
pub fn is_catch(kind: NodeKind) -> bool
    ensures { result ≡ is_catch kind }
{
    matches!(
        kind,
        NodeKind::DateCatchEvent | NodeKind::DurationCatchEvent | NodeKind::MessageCatchEvent
    )
}

/// Whether a node is a subprocess.
pub fn is_subprocess(kind: NodeKind) -> bool
    ensures { result ≡ is_subprocess kind }
{
    matches!(kind, NodeKind::SubProcess)
}

/// Whether a node is a service task.
pub fn is_service_task(kind: NodeKind) -> bool
    ensures { result ≡ is_service_task kind }
{
    matches!(kind, NodeKind::ServiceTask)
}

/// Whether a node is a task or a subprocess.
pub fn is_activity(kind: NodeKind) -> bool
    ensures { result ≡ is_activity kind }
{
    matches!(
        kind,
        NodeKind::ServiceTask | NodeKind::ReceiveTask | NodeKind::SubProcess
    )
}

/// Whether a gateway chooses one flow by conditions.
pub fn is_exclusive_gateway(kind: NodeKind) -> bool
    ensures { result ≡ is_exclusive_gateway kind }
{
    matches!(kind, NodeKind::ExclusiveGateway)
}

/// Whether a gateway chooses the flow whose event comes first.
pub fn is_event_gateway(kind: NodeKind) -> bool
    ensures { result ≡ is_event_gateway kind }
{
    matches!(kind, NodeKind::EventBasedGateway)
}

/// Whether a gateway waits for all flows into it, and forks into all flows out of it.
pub fn is_parallel_gateway(kind: NodeKind) -> bool
    ensures { result ≡ is_parallel_gateway kind }
{
    matches!(kind, NodeKind::ParallelGateway)
}

/// Whether an end event ends all of its scope.
pub fn is_terminate_end(kind: NodeKind) -> bool
    ensures { result ≡ is_terminate_end kind }
{
    matches!(kind, NodeKind::TerminateEndEvent)
}
