//! Reading a batch: by its tokens, else by its JSON value.

ghost use Rattle.std.specs.Prelude.{◌≡◌, IfSome, Ok};
ghost use Rattle.serde_json.specs.View.{view};
ghost use Rattle.scripts.specs.BatchScripts.{batch_of, batch_of_shape};
ghost use Rattle.scripts.specs.BatchShapes.{batch_shape};
ghost use Rattle.scripts.specs.ScriptFaults.{IsReadAs};

use crate::batch_checks::admit_batch;
use crate::script_fault::ScriptFault;
use crate::shaped::Shaped;
use crate::streams::read_tokens;
use crate::value_reading::read_value;
use mutation::{Batch, Transaction};
use serde_json::Value;
use std::alloc::Global;
use system_keys::Items;

/// Returns the batch that the bytes are (this project's profile): a list of transactions.
///
/// Otherwise returns the first of: `NotJson` (`serde_json` reads no value), `BadShape` (the value
/// does not have the form of a batch, a text of it is not the text of any bytes, or a snapshot of
/// it is above the greatest number), the first fault of a transaction, in the order of the list,
/// and that there are more than 1,024. May fail with `OutOfMemory` at any point.
#[tactic(auto, unfolding(crate::specs::BatchScripts::batch_of))]
pub fn read_batch(alloc: Global, bytes: &[u8]) -> Result<Batch, ScriptFault>
    ensures { IsReadAs (λ found. found) result (batch_of bytes.now) }
{
    if let Some(batch) = stream_batch(alloc, bytes) {
        return Ok(batch);
    }
    let value = read_value(alloc, bytes)?;
    batch_of_value(alloc, &value)
}

/// The batch that the bytes are, read as its tokens come, without a tree of the JSON values. `None`
/// decides nothing: `read_batch` then reads the tree.
#[tactic(auto, unfolding(crate::specs::BatchScripts::batch_of))]
pub fn stream_batch(alloc: Global, bytes: &[u8]) -> Option<Batch>
    ensures { IfSome result (λ batch. batch_of bytes.now ≡ Ok batch) }
{
    let given: Items<Transaction> = read_tokens(alloc, bytes)?;
    match admit_batch(alloc, given) {
        Ok(batch) => Some(batch),
        Err(_) => None,
    }
}

fn batch_of_value(alloc: Global, value: &Value) -> Result<Batch, ScriptFault>
    ensures { IsReadAs (λ found. found) result (batch_of_shape (batch_shape (view value.now))) }
{
    let given: Items<Transaction> = Items::from_value(alloc, value)?;
    admit_batch(alloc, given)
}
