//! Texts of scripts in memory: the bytes of a script have a text and a status, without devices of
//! the caller.
//!
//! Source: this project's profile (scripts, lines and statuses).
#![tactic(auto)]

mod laws;
mod memory_sink;
mod placing;
mod text;

pub use laws::placed_texts_law;
pub use placing::{OUT_OF_MEMORY, TOO_LONG, TOO_SMALL, place};
pub use text::{ScriptText, TextFault, fold_text, turns_text};
