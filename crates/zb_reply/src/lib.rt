//! Replies to requests, and their text.
#![tactic(auto)]

mod answer;
mod line;
mod reply;

pub use answer::reply_of;
pub use line::reply_text;
pub use reply::{ActivatedJob, Created, DeployedReply, Reply};
