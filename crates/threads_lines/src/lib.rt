//! The threads that commit batches and those that serve them, the lines that are written of the answers,
//! of proxies that meet, and of audits, and the history that a run learns and checks.
//!
//! Facts cross from a thread to the one that joins it by a promise: what a thread returns is known to
//! be the lines of answers to the batches that it was given.
//!
//! Source: this project's profile (lines and statuses).
#![tactic(auto)]

mod checks;
mod cluster;
mod committer;
mod faults;
mod laws;
mod lines;
mod meetings;
mod proxy_threads;
mod run_history;
mod worker_threads;

pub use checks::{check_answered, check_moves, check_proxies, check_resolvers};
pub use cluster::RunCluster;
pub use committer::{AnsweredLines, Committer};
pub use faults::{RunFault, status_of};
pub use laws::{audit_line_law, faults_edges, no_record_follows_law, status_of_fault_law};
pub use meetings::{print_audits, print_meetings};
pub use proxy_threads::{CommitsBatches, EndsProxies};
pub use run_history::{RunHistory, count_records_of};
pub use worker_threads::{RunOutcome, ServesInbox, commit_over_workers};
