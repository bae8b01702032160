//! The outside but for disks: streams of bytes, clocks and doors.
#![tactic(auto)]

mod clock;
mod door;
mod list_clock;
mod mem_sink;
mod mem_source;
mod sink;
mod source;
mod std_clock;
mod std_sink;
mod std_source;
mod trouble;
mod watch;

pub use clock::Clock;
pub use door::{Door, OpenDoor};
pub use list_clock::ListClock;
pub use mem_sink::MemSink;
pub use mem_source::MemSource;
pub use sink::Sink;
pub use source::Source;
pub use std_clock::StdClock;
pub use std_sink::StdSink;
pub use std_source::StdSource;
pub use trouble::Trouble;
pub use watch::Watch;
