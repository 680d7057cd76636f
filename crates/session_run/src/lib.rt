//! A session with a cluster without threads: each line of the input is an event of a turns script, or
//! begins a cluster, or shows a proxy, and is answered before the next read.
//!
//! Source: this project's profile (lines, answers and statuses of sessions).
#![tactic(auto)]

mod answers;
mod checks;
mod laws;
mod line;
mod reading;
mod run;
mod session;
mod shapes;
mod source_and_sink;
mod streams;

pub use laws::{
    events_are_lines, lines_give_turns_law, lines_in_order_give_turns, lines_or_nothing,
    other_lines_law, runs_answer_law, session_gives_turns, text_answers_lines_law,
};
pub use line::{Line, Show};
pub use reading::read_line;
pub use run::run_session;
pub use session::Session;
pub use sessions::{Answering, SessionStatus};
