//! The tokens of a JSON script, taken one by one straight from its text: there is no index, and no
//! copy of the text: only a text with an escape that bytes do not need is copied without its escapes.
//!
//! A call that finds something else than it takes, or a form that it does not know, says so, and
//! decides nothing: the caller then reads the text by `serde_json`. Only spaces, digits alone, texts
//! whose escapes stand for ASCII, and texts of bytes are known.
//!
//! Source: RFC 8259 (through the definitions of the crate `json`) and this project's profile (the
//! text of bytes).
#![tactic(auto)]

mod byte_texts;
mod characters;
mod escapes;
mod lexemes;
mod numbers;
mod place;
mod texts;
mod tokens;

pub use tokens::Tokens;
