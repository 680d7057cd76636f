//! A cluster behind locks, the phases of its commits, and watches over its threads, as the tests of
//! several crates need them. It stands in no program.
//!
//! Nothing is called again after a failed allocation: tests that stand on this are run with ample
//! memory.
#![tactic(auto)]

mod cluster;
mod phases;
mod watches;

pub use cluster::{Cluster, blank};
pub use phases::{begin_batch, close_all, commit_empty, finish_record, number, sequence_batch};
pub use watches::{ends_in_time, pause, reaches};
