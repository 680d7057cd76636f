//! The trait of types that are read from JSON values, and its cases of numbers, texts, lists and
//! pairs.

ghost use Rattle.std.specs.Prelude.{◌≡◌, Option};
ghost use Rattle.serde_json.specs.Data.{Data};
ghost use Rattle.serde_json.specs.Find.{as_bool};
ghost use Rattle.serde_json.specs.View.{view, items_view};
ghost use Rattle.scripts.specs.ScriptFaults.{IsReadAs};
ghost use Rattle.scripts.specs.Shapes.{or_bad_shape, number_shape, bytes_shape, verdict_shape};
ghost use Rattle.scripts.specs.Shapes.{list_shape, each_shape, field_shape, has_fields};
ghost use Rattle.scripts.specs.Shapes.{pair_of, pair_shape};

use crate::script_fault::ScriptFault;
use model::Verdict;
use serde_json::Value;
use std::alloc::Global;
use system_keys::{Bytes, Items, RowFault};

/// The greatest number of a script (this project's profile).
pub(crate) const NUMBER_LIMIT: u64 = 9_223_372_036_854_775_807;

/// A type that is read from a JSON value of its shape.
pub trait Shaped: Drop {
    ghost shape: { Data → Option Self };

    /// Returns what the value stands for. Fails with `BadShape` if it does not have the shape.
    fn from_value(alloc: Global, value: &Value) -> Result<Self, ScriptFault>
        ensures { IsReadAs (λ found. found) result (or_bad_shape (shape (view value.now))) };
}

impl Shaped for bool {
    ghost shape = { as_bool };

    fn from_value(_alloc: Global, value: &Value) -> Result<bool, ScriptFault> {
        value.as_bool().ok_or(ScriptFault::BadShape)
    }
}

impl Shaped for u64 {
    ghost shape = { number_shape };

    fn from_value(_alloc: Global, value: &Value) -> Result<u64, ScriptFault> {
        let number = value.as_u64().ok_or(ScriptFault::BadShape)?;
        if number <= NUMBER_LIMIT {
            Ok(number)
        } else {
            Err(ScriptFault::BadShape)
        }
    }
}

impl Shaped for usize {
    ghost shape = { number_shape };

    fn from_value(alloc: Global, value: &Value) -> Result<usize, ScriptFault> {
        let number = u64::from_value(alloc, value)?;
        Ok(number as usize)
    }
}

impl Shaped for Bytes {
    ghost shape = { bytes_shape };

    fn from_value(alloc: Global, value: &Value) -> Result<Bytes, ScriptFault> {
        let text = value.as_str().ok_or(ScriptFault::BadShape)?;
        match Bytes::from_text(alloc, text) {
            Ok(bytes) => Ok(bytes),
            Err(RowFault::OutOfMemory) => Err(ScriptFault::OutOfMemory),
            Err(_) => Err(ScriptFault::BadShape),
        }
    }
}

impl Shaped for Verdict {
    ghost shape = { verdict_shape };

    fn from_value(_alloc: Global, value: &Value) -> Result<Verdict, ScriptFault> {
        match value.as_str() {
            Some("conflict") => Ok(Verdict::Conflict),
            Some("too_old") => Ok(Verdict::TooOld),
            Some("committed") => Ok(Verdict::Committed),
            _ => Err(ScriptFault::BadShape),
        }
    }
}

impl<X: Shaped> Shaped for Items<X> {
    ghost shape = { list_shape X.shape };

    fn from_value(alloc: Global, value: &Value) -> Result<Items<X>, ScriptFault> {
        let values = value.as_array().ok_or(ScriptFault::BadShape)?;
        Ok(Items::from(each(alloc, values)?))
    }
}

// What each value stands for.
fn each<X: Shaped>(alloc: Global, values: &[Value]) -> Result<Vec<X>, ScriptFault>
    ensures { IsReadAs (λ found. found.items) result
        (or_bad_shape (each_shape X.shape (items_view values.now))) }
{
    let mut items = Vec::with_capacity(alloc, values.len())?;
    for value in values {
        items.push(X::from_value(alloc, value)?)?;
    }
    Ok(items)
}

/// What the field of this name stands for.
pub fn field<X: Shaped>(alloc: Global, value: &Value, name: &str) -> Result<X, ScriptFault>
    ensures { IsReadAs (λ found. found) result
        (or_bad_shape (field_shape X.shape name.now (view value.now))) }
{
    X::from_value(alloc, value.get(name).ok_or(ScriptFault::BadShape)?)
}

/// Whether the value is an object with this many fields.
pub fn has_fields(value: &Value, count: usize) -> bool
    ensures { result ≡ has_fields count (view value.now) }
{
    match value.as_object() {
        Some(members) => members.len() == count,
        None => false,
    }
}

/// What a list of two texts stands for.
pub fn pair(alloc: Global, value: &Value) -> Result<(Bytes, Bytes), ScriptFault>
    ensures { IsReadAs (λ found. found) result (or_bad_shape (pair_shape (view value.now))) }
{
    let values = value.as_array().ok_or(ScriptFault::BadShape)?;
    pair_of(alloc, values.as_slice())
}

#[tactic(auto, using(crate::proofs::ListLemmas::no_pair))]
fn pair_of(alloc: Global, values: &[Value]) -> Result<(Bytes, Bytes), ScriptFault>
    ensures { IsReadAs (λ found. found) result (or_bad_shape (pair_of (items_view values.now))) }
{
    match values {
        [first, second] => Ok((
            Bytes::from_value(alloc, first)?,
            Bytes::from_value(alloc, second)?,
        )),
        _ => Err(ScriptFault::BadShape),
    }
}
