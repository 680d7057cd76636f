//! Changes of a fold script and mutations of a batch from JSON values.

ghost use Rattle.std.specs.Prelude.{◌≡◌};
ghost use Rattle.serde_json.specs.View.{view};
ghost use Rattle.scripts.specs.ChangeShapes.{change_shape, clear_shape, mutation_of_raw};
ghost use Rattle.scripts.specs.ChangeShapes.{mutation_shape, pair_in_field};
ghost use Rattle.scripts.specs.ScriptFaults.{IsReadAs};
ghost use Rattle.scripts.specs.Shapes.{or_bad_shape};

use crate::raw_change::RawChange;
use crate::script_fault::ScriptFault;
use crate::shaped::{Shaped, has_fields, pair};
use mutation::Mutation;
use serde_json::Value;
use std::alloc::Global;
use system_keys::Bytes;

impl Shaped for RawChange {
    ghost shape = { change_shape };

    fn from_value(alloc: Global, value: &Value) -> Result<RawChange, ScriptFault> {
        match pair_in_field(alloc, value, "set")? {
            Some((key, value)) => Ok(RawChange::Set { key, value }),
            None => clear(alloc, value),
        }
    }
}

impl Shaped for Mutation {
    ghost shape = { mutation_shape };

    fn from_value(alloc: Global, value: &Value) -> Result<Mutation, ScriptFault> {
        match pair_in_field(alloc, value, "set_stamped")? {
            Some((key, value)) => Ok(Mutation::SetStamped { key, value }),
            None => Ok(mutation_of_raw(RawChange::from_value(alloc, value)?)),
        }
    }
}

fn clear(alloc: Global, value: &Value) -> Result<RawChange, ScriptFault>
    ensures { IsReadAs (λ found. found) result (or_bad_shape (clear_shape (view value.now))) }
{
    match pair_in_field(alloc, value, "clear")? {
        Some((begin, end)) => Ok(RawChange::Clear { begin, end }),
        None => Err(ScriptFault::BadShape),
    }
}

fn mutation_of_raw(change: RawChange) -> Mutation
    ensures { result ≡ mutation_of_raw change }
{
    match change {
        RawChange::Set { key, value } => Mutation::Set { key, value },
        RawChange::Clear { begin, end } => Mutation::Clear { begin, end },
    }
}

// The two texts in the field of this name, which has to be the only field; `None` without such a
// field.
fn pair_in_field(
    alloc: Global,
    value: &Value,
    name: &str,
) -> Result<Option<(Bytes, Bytes)>, ScriptFault>
    ensures { IsReadAs (λ found. found) result
        (or_bad_shape (pair_in_field name.now (view value.now))) }
{
    match value.get(name) {
        Some(field) if has_fields(value, 1) => Ok(Some(pair(alloc, field)?)),
        Some(_) => Err(ScriptFault::BadShape),
        None => Ok(None),
    }
}
