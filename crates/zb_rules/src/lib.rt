//! The rules of a partition: what a command makes of its log, which events it may have, what a step is; with their laws.
#![tactic(auto)]

mod alarm;
mod full;
mod laws;

pub use alarm::Alarm;
pub use full::is_full;
pub use laws::{
    applied_moves_are_legal, assignments_have_events, boards_of_logs_are_sound,
    bodies_complete_behind_all_runs, compensation_ends_behind_all_handlers,
    due_commands_come_first, due_commands_have_no_reason, ended_cells_have_no_incident,
    event_gateways_take_one_way, forced_events_apply, handlers_run_newest_first, jobs_end_once,
    jobs_of_logs_are_sound, names_have_holders, runs_are_for_items_in_order,
    steps_have_listed_kinds, timers_end_once, timers_fire_on_time,
};
