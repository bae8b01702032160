//! What may be wrong with a process model.
#![tactic(auto)]

mod fault;
mod kinds;

pub use fault::Fault;
pub use kinds::{
    is_activity, is_boundary, is_boundary_of, is_catch, is_compensation_boundary, is_end_kind,
    is_error_boundary, is_event_gateway, is_exclusive_gateway, is_message_start,
    is_parallel_gateway, is_service_task, is_start, is_subprocess, is_terminate_end,
};
