//! Runs of turns scripts: a script of events is read and checked, its events are carried out in a
//! cluster without threads, and the lines of their answers and of its proxies are written.
//!
//! Source: this project's profile (scripts, lines and statuses).
#![tactic(auto)]

mod carried_out;
mod checks;
mod event_lines;
mod event_streams;
mod lines;
mod proxies;
mod reading;
mod run;
mod script;
mod shapes;
mod text;
mod transactions;
mod turns_fields;

pub use event_lines::{carry_out, print_refusal};
pub use proxies::print_proxy;
pub use reading::{read_turns, stream_turns};
pub use run::{run_turns, run_turns_leaving};
pub use script::{RawEvent, TurnsScript};
pub use text::TurnsLeftover;
