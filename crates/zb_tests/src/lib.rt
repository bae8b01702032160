//! Tests of what no clause says: of the server, over devices in memory, of devices that fail, of what a crash leaves, and
//! of calls that no line leads to. They stand in a crate of their own, at the top, so that what they test is proved once,
//! and the drop of what several of them let go of, too.
#![tactic(auto)]

#[cfg(test)]
mod asked;
#[cfg(test)]
mod crashes;
#[cfg(test)]
mod disks;
#[cfg(test)]
mod histories;
#[cfg(test)]
mod homes;
#[cfg(test)]
mod instances;
#[cfg(test)]
mod logs;
#[cfg(test)]
mod lossy;
#[cfg(test)]
mod models;
#[cfg(test)]
mod runs;
#[cfg(test)]
mod script;
#[cfg(test)]
mod seen;
#[cfg(test)]
mod streams;
#[cfg(test)]
mod written;
