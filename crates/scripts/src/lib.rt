//! What scripts of every kind share: the JSON values that bytes are and their shapes, batches, the
//! lines that are printed, and a run over a source and a sink of the caller.
//!
//! Source: this project's profile (scripts, lines and statuses).
#![tactic(auto)]

mod batch_checks;
mod batch_reading;
mod batch_shapes;
mod batch_streams;
mod change_shapes;
mod change_streams;
mod checks;
mod devices;
mod edges;
mod keys;
mod line_pieces;
mod lines;
mod names;
mod output;
mod raw_change;
mod reading;
mod run;
mod script_fault;
mod script_kind;
mod shaped;
mod status;
mod stream_objects;
mod stream_shapes;
mod streams;
mod text_lines;
mod value_reading;
mod words;

pub use batch_checks::admit_batch;
pub use batch_reading::{read_batch, stream_batch};
pub use checks::{Checked, check_each, check_range};
pub use devices::{Failed, ReadFault, Reader, Sink, Source, Writer, read_all, write_all};
pub use edges::written_edges;
pub use keys::copy_keys;
pub use line_pieces::{print_refused, push_numbered, push_quoted, push_refused, push_word};
pub use lines::{print_asked_key, print_route, print_routing_head};
pub use names::{outcome_name, verdict_name};
pub use output::{Output, output_of_fault};
pub use raw_change::RawChange;
pub use reading::{read_checked, stream_checked};
pub use run::{run_script, run_script_leaving};
pub use script_fault::ScriptFault;
pub use script_kind::{Printed, ScriptKind};
pub use shaped::{Shaped, field, has_fields, pair};
pub use status::RunStatus;
pub use stream_objects::{Fields, take_into_slot, take_object};
pub use streams::{MadeOfTokens, Streamed, make_of_tokens, read_tokens};
pub use text_lines::take_page;
pub use value_reading::read_value;
pub use words::{Word, print_list, push_list};
