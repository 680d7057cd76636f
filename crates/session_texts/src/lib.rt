//! Sessions in memory: each line of a session is carried out and answered, and the answer is kept until
//! the next one.
//!
//! Source: this project's profile (lines and answers of sessions).
#![tactic(auto)]

mod answer_page;
mod laws;
mod placing;
mod text_session;

pub use laws::placed_answers_law;
pub use placing::{ANSWER_LOST, DONE, NO_SESSION};
pub use text_session::{LineFault, TextSession};
