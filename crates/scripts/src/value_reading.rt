//! The JSON value of bytes, as `serde_json` reads it.

ghost use Rattle.serde_json.specs.View.{view};
ghost use Rattle.scripts.specs.ScriptFaults.{IsReadAs};
ghost use Rattle.scripts.specs.Values.{value_read};

use crate::script_fault::ScriptFault;
use serde_json::Value;
use std::alloc::Global;

/// Returns the JSON value that the bytes are (this project's profile). Fails with `NotJson` if
/// `serde_json` reads none, and with `OutOfMemory`.
#[tactic(auto, using(crate::proofs::ValueLemmas::value_of_text, crate::proofs::ValueLemmas::no_value_of))]
pub fn read_value(alloc: Global, bytes: &[u8]) -> Result<Value, ScriptFault>
    ensures { IsReadAs (λ value. view value) result (value_read bytes.now) }
{
    match Value::from_slice(alloc, bytes) {
        Ok(value) => Ok(value),
        Err(error) if error.is_memory() => Err(ScriptFault::OutOfMemory),
        Err(_) => Err(ScriptFault::NotJson),
    }
}
