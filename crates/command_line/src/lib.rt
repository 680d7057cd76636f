//! The command line: the mode that the words after the program's name choose, as `clap` reads them, and
//! its run. It is also the door to the whole program: it re-exports the runs of each mode, and what they
//! read, write and fail with.
//!
//! Source: this project's profile (words, modes and statuses).
#![tactic(auto)]

mod choosing;
mod known_lines;
mod mode;
mod reading;
mod run;
mod status;

pub use choosing::{Rejection, choose_mode};
pub use fold_run::run_fold;
pub use known_lines::known_lines_scenarios;
pub use mode::Mode;
pub use run::{Leftover, run_words, run_words_leaving};
pub use scripts::{Failed, Reader, RunStatus, ScriptFault, Sink, Source, Writer, read_batch};
pub use status::Status;
pub use threads_run::{run_threads, status_of};
pub use turns_run::run_turns;
