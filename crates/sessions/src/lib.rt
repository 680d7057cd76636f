//! A session over a device that is read and written: each line of the input is answered before the
//! next read.
//!
//! Source: this project's profile (lines, answers and statuses of sessions).
#![tactic(auto)]

mod answering;
mod device;
mod feed;
mod laws;
mod lines;
mod outbox;
mod pending;
mod run;
mod status;

pub use answering::Answering;
pub use device::{Device, Failed, write_all};
pub use laws::{
    answers_in_turn_law, answers_of_lines_law, ended_session_law, known_device_law,
    words_of_laws_edges,
};
pub use lines::{last_line_counts, lines_are_exact_law, one_split_law};
pub use run::answer_lines;
pub use status::SessionStatus;
