//! Threads scripts: how the moves, the batches and the asked keys of a cluster whose proxies are
//! threads are read and checked.
//!
//! Source: this project's profile (scripts).
#![tactic(auto)]

mod checks;
mod limits;
mod reading;
mod script;
mod shapes;
mod threads_fields;

pub use reading::{read_threads, stream_threads};
pub use script::{ThreadsScript, UndatedMove};
