//! A session: the lines of a source, what a desk is asked for them, and the replies.
#![tactic(auto)]

mod answer;
mod dial;
mod line;
mod serving;
mod session;

pub use dial::Dial;
pub use serving::serve_session;
pub use session::{End, Session};
