//! The check of a line: of its event.

ghost use Rattle.session_run.specs.Lines.{checked_line};

use crate::line::{Line, RawLine};
use scripts::{Checked, ScriptFault};
use std::alloc::Global;
use turn_world::Event;

impl Checked<RawLine> for Line {
    ghost checked = { checked_line };

    fn check(alloc: Global, raw: RawLine) -> Result<Line, ScriptFault> {
        match raw {
            RawLine::Cluster(config) => Ok(Line::Cluster(config)),
            RawLine::Event(event) => Ok(Line::Event(Event::check(alloc, event)?)),
            RawLine::Show(show) => Ok(Line::Show(show)),
        }
    }
}
