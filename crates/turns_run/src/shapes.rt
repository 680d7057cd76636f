//! Events and the whole of a turns script from JSON values.

ghost use Rattle.serde_json.specs.View.{view};
ghost use Rattle.scripts.specs.ScriptFaults.{IsReadAs};
ghost use Rattle.scripts.specs.Shapes.{or_bad_shape};
ghost use Rattle.turns_run.specs.Shapes.{event_shape, finish_shape, move_event_shape};
ghost use Rattle.turns_run.specs.Shapes.{event_of_name, offer_shape, script_shape};
ghost use Rattle.turns_run.specs.Shapes.{sequence_shape};

use crate::script::{RawEvent, RawTurns};
use cluster_scripts::{GivenMove, config};
use scripts::{ScriptFault, Shaped, field, has_fields};
use serde_json::Value;
use std::alloc::Global;

impl Shaped for RawTurns {
    ghost shape = { script_shape };

    fn from_value(alloc: Global, value: &Value) -> Result<RawTurns, ScriptFault> {
        if !has_fields(value, 6) {
            return Err(ScriptFault::BadShape);
        }
        Ok(RawTurns {
            config: config(alloc, value)?,
            events: field(alloc, value, "events")?,
            ask: field(alloc, value, "ask")?,
        })
    }
}

impl Shaped for RawEvent {
    ghost shape = { event_shape };

    fn from_value(alloc: Global, value: &Value) -> Result<RawEvent, ScriptFault> {
        if has_fields(value, 1) {
            event_of_name(alloc, value)
        } else {
            Err(ScriptFault::BadShape)
        }
    }
}

// The event that the name of the field says.
fn event_of_name(alloc: Global, value: &Value) -> Result<RawEvent, ScriptFault>
    ensures { IsReadAs (λ found. found) result (or_bad_shape (event_of_name (view value.now))) }
{
    if let Some(event) = value.get("sequence") {
        sequence_shape(alloc, event)
    } else if let Some(event) = value.get("move") {
        move_event_shape(alloc, event)
    } else if let Some(event) = value.get("offer") {
        offer_shape(alloc, event)
    } else if let Some(event) = value.get("finish") {
        finish_shape(alloc, event)
    } else {
        Err(ScriptFault::BadShape)
    }
}

/// What is read of the value of a sequence event.
fn sequence_shape(alloc: Global, value: &Value) -> Result<RawEvent, ScriptFault>
    ensures { IsReadAs (λ found. found) result (or_bad_shape (sequence_shape (view value.now))) }
{
    if !has_fields(value, 2) {
        return Err(ScriptFault::BadShape);
    }
    Ok(RawEvent::Sequence {
        proxy: field(alloc, value, "proxy")?,
        batch: field(alloc, value, "batch")?,
    })
}

/// What is read of the value of a move event.
fn move_event_shape(alloc: Global, value: &Value) -> Result<RawEvent, ScriptFault>
    ensures { IsReadAs (λ found. found) result (or_bad_shape (move_event_shape (view value.now))) }
{
    Ok(RawEvent::Move(GivenMove::from_value(alloc, value)?))
}

/// What is read of the value of an offer event.
fn offer_shape(alloc: Global, value: &Value) -> Result<RawEvent, ScriptFault>
    ensures { IsReadAs (λ found. found) result (or_bad_shape (offer_shape (view value.now))) }
{
    if !has_fields(value, 2) {
        return Err(ScriptFault::BadShape);
    }
    Ok(RawEvent::Offer {
        row: field(alloc, value, "row")?,
        resolver: field(alloc, value, "resolver")?,
    })
}

/// What is read of the value of a finish event.
fn finish_shape(alloc: Global, value: &Value) -> Result<RawEvent, ScriptFault>
    ensures { IsReadAs (λ found. found) result (or_bad_shape (finish_shape (view value.now))) }
{
    if !has_fields(value, 1) {
        return Err(ScriptFault::BadShape);
    }
    Ok(RawEvent::Finish {
        proxy: field(alloc, value, "proxy")?,
    })
}
