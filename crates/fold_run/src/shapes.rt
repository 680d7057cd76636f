//! State transactions, rows and the whole of a fold script from JSON values.

ghost use Rattle.fold_run.specs.Limits.{script_shape};
ghost use Rattle.fold_run.specs.Shapes.{row_shape, state_shape};

use crate::limits::is_within_limits;
use crate::script::{RawFold, RawRow, RawState};
use scripts::{ScriptFault, Shaped, field, has_fields};
use serde_json::Value;
use std::alloc::Global;

impl Shaped for RawState {
    ghost shape = { state_shape };

    fn from_value(alloc: Global, value: &Value) -> Result<RawState, ScriptFault> {
        if !has_fields(value, 3) {
            return Err(ScriptFault::BadShape);
        }
        Ok(RawState {
            mutations: field(alloc, value, "mutations")?,
            lock_aware: field(alloc, value, "lock_aware")?,
            verdicts: field(alloc, value, "verdicts")?,
        })
    }
}

impl Shaped for RawRow {
    ghost shape = { row_shape };

    fn from_value(alloc: Global, value: &Value) -> Result<RawRow, ScriptFault> {
        if !has_fields(value, 2) {
            return Err(ScriptFault::BadShape);
        }
        Ok(RawRow {
            version: field(alloc, value, "version")?,
            states: field(alloc, value, "states")?,
        })
    }
}

impl Shaped for RawFold {
    ghost shape = { script_shape };

    fn from_value(alloc: Global, value: &Value) -> Result<RawFold, ScriptFault> {
        if !has_fields(value, 3) {
            return Err(ScriptFault::BadShape);
        }
        let script = RawFold {
            resolvers: field(alloc, value, "resolvers")?,
            rows: field(alloc, value, "rows")?,
            ask: field(alloc, value, "ask")?,
        };
        if is_within_limits(&script) {
            Ok(script)
        } else {
            Err(ScriptFault::BadShape)
        }
    }
}
