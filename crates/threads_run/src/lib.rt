//! Runs of threads scripts: a script is read, a cluster of real parts behind locks is made, one
//! thread serves the inbox of each resolver, one thread for each proxy commits that proxy's batches,
//! and the lines of all answers and of the proxies are written.
//!
//! Source: this project's profile (scripts, lines and statuses).
#![tactic(auto)]

mod delivery;
mod laws;
mod run;
mod running;
mod text;

pub use laws::{
    all_lines_law, all_messages_delivered_law, fault_answered_by_line_law, written_from_text_law,
};
pub use run::run_threads;
pub use threads_lines::status_of;
pub use threads_scripts::{ThreadsScript, UndatedMove, read_threads, stream_threads};
