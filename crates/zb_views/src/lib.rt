//! Views of a partition's log: what its events say of keys, definitions, distributions, instances, jobs, timers and
//! messages.
#![tactic(auto)]

mod begun;
mod definition;
mod distribution;
mod given;
mod job;
mod laws;
mod left;
mod lock;
mod process_subscription;
mod started;
mod subscription;
mod timer;

pub use begun::Begun;
pub use definition::Definition;
pub use distribution::Distribution;
pub use given::Given;
pub use job::{Job, JobPhase};
pub use laws::timers_end_once;
pub use left::Left;
pub use lock::Lock;
pub use process_subscription::{ProcessSubscription, WaitPhase};
pub use started::Started;
pub use subscription::Subscription;
pub use timer::Timer;
