//! What is evaluated over a game of tokens: what cells see, take in, give out and wait for, and how they are left.
#![tactic(auto)]

mod awaited;
mod catches;
mod conditions;
mod exit;
mod flows;
mod hindrances;
mod items;
mod lasts;
mod mappings;
mod names;
mod seen;
mod unseen;
mod work;

pub use awaited::{awaits, waits_itself_at};
pub use catches::{open_by, openings, openings_at};
pub use flows::{are_among_flows, flows_in};
pub use hindrances::{Hindrance, uncaught};
pub use items::run_variables_at;
pub use mappings::{assignments_of, complete_by};
pub use names::{cell_has_name, has_name, holder_of, is_instance, phase_of};
pub use seen::visible;
pub use work::{awaits_work, gives_outputs, is_work_in, may_have_job, node_id, root_of, work_at};
