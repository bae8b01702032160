//! What requests can be asked of: the commands that a request asks for, the reply to it, and the trait of what carries
//! it out.
#![tactic(auto)]

mod answered;
mod desk;

pub use answered::Answered;
pub use desk::Desk;
