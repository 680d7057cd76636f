//! Runs of fold scripts: a script of journal rows is read, checked and folded, and the lines of its
//! routing are written.
//!
//! Source: this project's profile (scripts, lines and statuses).
#![tactic(auto)]

mod checks;
mod fold_fields;
mod folded_rows;
mod limits;
mod reading;
mod row_streams;
mod run;
mod script;
mod shapes;
mod text;

pub use reading::{read_fold, stream_fold};
pub use run::{run_fold, run_fold_leaving};
pub use script::FoldScript;
pub use text::FoldLeftover;
