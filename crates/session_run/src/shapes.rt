//! Lines of a session from JSON values.

ghost use Rattle.std.specs.Prelude.{◌≡◌};
ghost use Rattle.serde_json.specs.View.{view};
ghost use Rattle.scripts.specs.ScriptFaults.{IsReadAs};
ghost use Rattle.scripts.specs.Shapes.{or_bad_shape};
ghost use Rattle.session_run.specs.Shapes.{cluster_shape, event_line, is_bad_shape, line_shape};
ghost use Rattle.session_run.specs.Shapes.{other_line, show_shape};

use crate::line::{RawLine, Show};
use cluster_scripts::config;
use model::Config;
use scripts::{ScriptFault, Shaped, field, has_fields};
use serde_json::Value;
use std::alloc::Global;
use turns_run::RawEvent;

impl Shaped for RawLine {
    ghost shape = { line_shape };

    fn from_value(alloc: Global, value: &Value) -> Result<RawLine, ScriptFault> {
        let read = event_line(alloc, value);
        if is_bad_shape(&read) {
            return other_line(alloc, value);
        }
        read
    }
}

/// Whether a value does not have the shape that was read for.
fn is_bad_shape(read: &Result<RawLine, ScriptFault>) -> bool
    ensures { result ≡ is_bad_shape read.now }
{
    match read {
        Err(ScriptFault::BadShape) => true,
        Ok(_) | Err(_) => false,
    }
}

/// The event that the value is.
fn event_line(alloc: Global, value: &Value) -> Result<RawLine, ScriptFault>
    ensures { IsReadAs (λ found. found) result (or_bad_shape (event_line (view value.now))) }
{
    Ok(RawLine::Event(RawEvent::from_value(alloc, value)?))
}

/// The line that begins a cluster or shows a proxy.
fn other_line(alloc: Global, value: &Value) -> Result<RawLine, ScriptFault>
    ensures { IsReadAs (λ found. found) result (or_bad_shape (other_line (view value.now))) }
{
    if !has_fields(value, 1) {
        return Err(ScriptFault::BadShape);
    }
    if let Some(numbers) = value.get("cluster") {
        return Ok(RawLine::Cluster(cluster(alloc, numbers)?));
    }
    Ok(RawLine::Show(field(alloc, value, "show")?))
}

/// The numbers of a cluster, if the value has these fields alone.
fn cluster(alloc: Global, value: &Value) -> Result<Config, ScriptFault>
    ensures { IsReadAs (λ found. found) result (or_bad_shape (cluster_shape (view value.now))) }
{
    if !has_fields(value, 4) {
        return Err(ScriptFault::BadShape);
    }
    config(alloc, value)
}

impl Shaped for Show {
    ghost shape = { show_shape };

    fn from_value(alloc: Global, value: &Value) -> Result<Show, ScriptFault> {
        if !has_fields(value, 2) {
            return Err(ScriptFault::BadShape);
        }
        Ok(Show {
            proxy: field(alloc, value, "proxy")?,
            ask: field(alloc, value, "ask")?,
        })
    }
}
