//! Reading a fold script: by its tokens, else by its JSON value.

ghost use Rattle.std.specs.Prelude.{◌≡◌, IfSome, Ok};
ghost use Rattle.scripts.specs.ScriptFaults.{IsReadAs};
ghost use Rattle.fold_run.specs.Scripts.{script_of};

use crate::script::{FoldScript, RawFold};
use scripts::{ScriptFault, read_checked, stream_checked};
use std::alloc::Global;

/// Returns the fold script that the bytes are (this project's profile).
///
/// Otherwise returns the first of: `NotJson` (`serde_json` reads no value), `BadShape` (the value
/// does not have the form of a fold script, a text of it is not the text of any bytes, or a number
/// of it is outside its limits), and the refusal of the first key, value or range at fault, in the
/// order of the script's lists. May fail with `OutOfMemory` at any point.
#[tactic(auto, unfolding(crate::specs::Scripts::script_of))]
pub fn read_fold(alloc: Global, bytes: &[u8]) -> Result<FoldScript, ScriptFault>
    ensures { IsReadAs (λ found. found) result (script_of bytes.now) }
{
    read_checked::<RawFold, FoldScript>(alloc, bytes)
}

/// The fold script that the bytes are, read as its tokens come, without a tree of the JSON
/// values. `None` decides nothing: `read_fold` then reads the tree.
#[tactic(auto, unfolding(crate::specs::Scripts::script_of))]
pub fn stream_fold(alloc: Global, bytes: &[u8]) -> Option<FoldScript>
    ensures { IfSome result (λ script. script_of bytes.now ≡ Ok script) }
{
    stream_checked::<RawFold, FoldScript>(alloc, bytes)
}
