//! The checks of a turns script, in the order of its events.

ghost use Rattle.turns_run.specs.Checks.{checked_event, checked_script};

use crate::script::{RawEvent, RawTurns, TurnsScript};
use scripts::{Checked, ScriptFault, admit_batch, check_each, check_range};
use std::alloc::Global;
use turn_world::Event;

impl Checked<RawEvent> for Event {
    ghost checked = { checked_event };

    fn check(alloc: Global, raw: RawEvent) -> Result<Event, ScriptFault> {
        match raw {
            RawEvent::Sequence { proxy, batch } => Ok(Event::Sequence {
                proxy,
                batch: admit_batch(alloc, batch)?,
            }),
            RawEvent::Move(moved) => Ok(Event::Move {
                range: check_range(moved.range)?,
                dest: moved.dest,
            }),
            RawEvent::Offer { row, resolver } => Ok(Event::Offer { row, resolver }),
            RawEvent::Finish { proxy } => Ok(Event::Finish { proxy }),
        }
    }
}

impl Checked<RawTurns> for TurnsScript {
    ghost checked = { checked_script };

    fn check(alloc: Global, raw: RawTurns) -> Result<TurnsScript, ScriptFault> {
        Ok(TurnsScript {
            config: raw.config,
            events: check_each(alloc, raw.events)?,
            ask: raw.ask,
        })
    }
}
