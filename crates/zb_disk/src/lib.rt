//! Disks: what a read gives, what a crash may leave, and how often they have failed.
#![tactic(auto)]

mod bytes;
mod calls;
mod disk;
mod faults;
mod file;
mod image;
mod memory;
mod sound;

pub use disk::{Disk, Trouble};
pub use file::FileDisk;
pub use memory::MemDisk;
pub use sound::SoundDisk;
