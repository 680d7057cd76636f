//! Reading a line: by its tokens, else by its JSON value.

ghost use Rattle.scripts.specs.ScriptFaults.{IsReadAs};
ghost use Rattle.session_run.specs.Lines.{line_of};

use crate::line::{Line, RawLine};
use scripts::{ScriptFault, read_checked};
use std::alloc::Global;

/// Returns what the bytes of a line ask (this project's profile).
///
/// Otherwise returns the first of: `NotJson` (`serde_json` reads no value), `BadShape` (the value
/// does not have the form of a line, a text of it is not the text of any bytes, or a number of it is
/// outside its limits), and the fault of its event that a turns script would have. May fail with
/// `OutOfMemory` at any point.
#[tactic(auto, unfolding(crate::specs::Lines::line_of))]
pub fn read_line(alloc: Global, bytes: &[u8]) -> Result<Line, ScriptFault>
    ensures { IsReadAs (λ found. found) result (line_of bytes.now) }
{
    read_checked::<RawLine, Line>(alloc, bytes)
}
