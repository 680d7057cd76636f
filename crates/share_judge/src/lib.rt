//! The verdicts of one resolver: conflicts in its share of each record.
//!
//! A resolver judges one share after another, each at the version of its record. It remembers the
//! writes of the transactions that it committed, and may forget those that no later snapshot can
//! reach without being too old.
//!
//! Source: FoundationDB release 7.1, `Resolver.actor.cpp` (resolveBatch) and the ConflictSet of
//! `SkipList.cpp`; what differs is marked *this project's profile*.
#![tactic(auto)]

mod judging;
mod key_map;
pub mod laws;
mod not_judged;
mod one_key;
mod step;
mod step_key;
mod step_map;
mod verdicts;
mod version_map;
mod write_history;

pub use model::Verdict;
pub use not_judged::NotJudged;
pub use verdicts::Verdicts;
pub use write_history::WriteHistory;
