//! Moves, batches and the whole of a threads script from JSON values.

ghost use Rattle.serde_json.specs.View.{view};
ghost use Rattle.scripts.specs.ScriptFaults.{IsReadAs};
ghost use Rattle.scripts.specs.Shapes.{or_bad_shape};
ghost use Rattle.threads_scripts.specs.Limits.{script_shape};
ghost use Rattle.threads_scripts.specs.Shapes.{threads_fields_shape, threads_with_lists};

use crate::limits::is_within_limits;
use crate::script::RawThreads;
use cluster_scripts::config;
use model::Config;
use scripts::{ScriptFault, Shaped, field, has_fields};
use serde_json::Value;
use std::alloc::Global;

impl Shaped for RawThreads {
    ghost shape = { script_shape };

    fn from_value(alloc: Global, value: &Value) -> Result<RawThreads, ScriptFault> {
        let script = threads_fields(alloc, value)?;
        if is_within_limits(&script) {
            Ok(script)
        } else {
            Err(ScriptFault::BadShape)
        }
    }
}

// The script that the fields of the value are, within its limits or not.
fn threads_fields(alloc: Global, value: &Value) -> Result<RawThreads, ScriptFault>
    ensures { IsReadAs (λ found. found) result (or_bad_shape (threads_fields_shape (view value.now))) }
{
    if !has_fields(value, 8) {
        return Err(ScriptFault::BadShape);
    }
    let numbers = config(alloc, value)?;
    let rows = field(alloc, value, "rows")?;
    threads_with_lists(alloc, numbers, rows, value)
}

// The script with these numbers, and with the lists of the value.
fn threads_with_lists(
    alloc: Global,
    config: Config,
    rows: usize,
    value: &Value,
) -> Result<RawThreads, ScriptFault>
    ensures { IsReadAs (λ found. found) result
        (or_bad_shape (threads_with_lists config rows (view value.now))) }
{
    Ok(RawThreads {
        config,
        rows,
        moves: field(alloc, value, "moves")?,
        work: field(alloc, value, "work")?,
        ask: field(alloc, value, "ask")?,
    })
}
