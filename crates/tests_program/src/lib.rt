//! The tests of cluster_scripts, turns_run and threads_scripts, by their public calls, of sessions over a
//! device in memory that keeps its history, and of whole runs of the program over devices in memory.
#![tactic(auto)]

mod memory_device;
mod rehearsal;
mod short_of_memory;

pub use memory_device::{Call, MemoryDevice};
pub use rehearsal::{rehearse, rehearse_session};
pub use short_of_memory::ShortOfMemory;

#[cfg(test)]
mod great_batches;
#[cfg(test)]
mod great_sessions;
#[cfg(test)]
mod tests;
#[cfg(test)]
mod worked;
