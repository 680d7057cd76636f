//! Reading a turns script: by its tokens, else by its JSON value.

ghost use Rattle.std.specs.Prelude.{◌≡◌, IfSome, Ok};
ghost use Rattle.scripts.specs.ScriptFaults.{IsReadAs};
ghost use Rattle.turns_run.specs.Scripts.{script_of};

use crate::script::{RawTurns, TurnsScript};
use scripts::{ScriptFault, read_checked, stream_checked};
use std::alloc::Global;

/// Returns the turns script that the bytes are (this project's profile).
///
/// Otherwise returns the first of: `NotJson` (`serde_json` reads no value), `BadShape` (the value
/// does not have the form of a turns script, a text of it is not the text of any bytes, or a number
/// of it is outside its limits), and the first fault of an event, in the order of the script: of a
/// batch, the fault of the first transaction that has one, and then that there are more than 1,024; of a
/// move, the fault of its range. May fail with `OutOfMemory` at any point.
#[tactic(auto, unfolding(crate::specs::Scripts::script_of))]
pub fn read_turns(alloc: Global, bytes: &[u8]) -> Result<TurnsScript, ScriptFault>
    ensures { IsReadAs (λ found. found) result (script_of bytes.now) }
{
    read_checked::<RawTurns, TurnsScript>(alloc, bytes)
}

/// The turns script that the bytes are, read as its tokens come, without a tree of the JSON values.
/// `None` decides nothing: `read_turns` then reads the tree.
#[tactic(auto, unfolding(crate::specs::Scripts::script_of))]
pub fn stream_turns(alloc: Global, bytes: &[u8]) -> Option<TurnsScript>
    ensures { IfSome result (λ script. script_of bytes.now ≡ Ok script) }
{
    stream_checked::<RawTurns, TurnsScript>(alloc, bytes)
}
