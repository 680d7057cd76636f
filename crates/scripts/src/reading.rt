//! Reading any script: its JSON value or its tokens, then its checks.

ghost use Rattle.std.specs.Prelude.{◌≡◌, IfSome, Ok};
ghost use Rattle.serde_json.specs.View.{view};
ghost use Rattle.scripts.specs.ScriptFaults.{IsReadAs};
ghost use Rattle.scripts.specs.Scripts.{checked_raw, read_as};

use crate::checks::Checked;
use crate::script_fault::ScriptFault;
use crate::shaped::Shaped;
use crate::streams::{Streamed, read_tokens};
use crate::value_reading::read_value;
use serde_json::Value;
use std::alloc::Global;

/// Returns the script that the bytes are (this project's profile).
///
/// Otherwise returns the first of: `NotJson` (`serde_json` reads no value), `BadShape` (the value
/// does not have the shape), and the first fault that the checks find. May fail with `OutOfMemory`
/// at any point.
pub fn read_checked<R: Streamed, X: Checked<R>>(
    alloc: Global,
    bytes: &[u8],
) -> Result<X, ScriptFault>
    ensures { IsReadAs (λ found. found) result (read_as R.shape X.checked bytes.now) }
{
    if let Some(script) = stream_checked::<R, X>(alloc, bytes) {
        return Ok(script);
    }
    read_whole::<R, X>(alloc, bytes)
}

/// Returns the script that the bytes are as `read_checked` does, always by their JSON value.
pub(crate) fn read_whole<R: Shaped, X: Checked<R>>(
    alloc: Global,
    bytes: &[u8],
) -> Result<X, ScriptFault>
    ensures { IsReadAs (λ found. found) result (read_as R.shape X.checked bytes.now) }
{
    let value = read_value(alloc, bytes)?;
    check_value::<R, X>(alloc, &value)
}

/// The script that the bytes are, read as its tokens come, without a tree of the JSON values.
/// `None` decides nothing: `read_checked` then reads the tree.
pub fn stream_checked<R: Streamed, X: Checked<R>>(alloc: Global, bytes: &[u8]) -> Option<X>
    ensures { IfSome result (λ script. read_as R.shape X.checked bytes.now ≡ Ok script) }
{
    let raw: R = read_tokens(alloc, bytes)?;
    match X::check(alloc, raw) {
        Ok(script) => Some(script),
        Err(_) => None,
    }
}

fn check_value<R: Shaped, X: Checked<R>>(alloc: Global, value: &Value) -> Result<X, ScriptFault>
    ensures { IsReadAs (λ found. found) result
        (checked_raw X.checked (R.shape (view value.now))) }
{
    let raw = R::from_value(alloc, value)?;
    X::check(alloc, raw)
}
