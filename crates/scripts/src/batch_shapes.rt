//! Ranges and transactions of a batch from JSON values.

ghost use Rattle.scripts.specs.BatchShapes.{range_shape, transaction_shape};

use crate::script_fault::ScriptFault;
use crate::shaped::{Shaped, field, has_fields, pair};
use mutation::{GivenRange, Transaction};
use serde_json::Value;
use std::alloc::Global;

impl Shaped for GivenRange {
    ghost shape = { range_shape };

    fn from_value(alloc: Global, value: &Value) -> Result<GivenRange, ScriptFault> {
        let (begin, end) = pair(alloc, value)?;
        Ok(GivenRange { begin, end })
    }
}

impl Shaped for Transaction {
    ghost shape = { transaction_shape };

    fn from_value(alloc: Global, value: &Value) -> Result<Transaction, ScriptFault> {
        if !has_fields(value, 5) {
            return Err(ScriptFault::BadShape);
        }
        Ok(Transaction {
            snapshot: field(alloc, value, "snapshot")?,
            reads: field(alloc, value, "reads")?,
            writes: field(alloc, value, "writes")?,
            mutations: field(alloc, value, "mutations")?,
            lock_aware: field(alloc, value, "lock_aware")?,
        })
    }
}
