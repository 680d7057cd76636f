//! Lines of a session from tokens.

use crate::line::RawLine;
use script_tokens::Tokens;
use scripts::Streamed;
use std::alloc::Global;
use turns_run::RawEvent;

// The lines of a session are events but for a few, so the others are read from their JSON values.
impl Streamed for RawLine {
    #[tactic(auto, using(crate::proofs::LineLemmas::takes_event))]
    fn from_tokens(alloc: Global, reader: &mut Tokens<'_>, depth: usize) -> Option<RawLine> {
        let event = RawEvent::from_tokens(alloc, reader, depth)?;
        Some(RawLine::Event(event))
    }
}
