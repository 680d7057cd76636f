//! Events that are carried out and printed as their tokens come, so that no list of them is kept.

ghost use Rattle.std.specs.Prelude.{◌≡◌, List, IfSome, Ok, string_bytes};
ghost use Rattle.scripts.specs.Checks.{each_checked};
ghost use Rattle.scripts.specs.Streams.{Takes, TakesEach};
ghost use Rattle.turn_world.specs.declared.event.Event.{Event as TheEvent};
ghost use Rattle.turns_run.specs.Checks.{checked_event};
ghost use Rattle.turns_run.specs.CarryingOut.{AreCarriedOut, IsNextCarriedOut, AreCarriedOutFrom};
ghost use Rattle.turns_run.specs.Shapes.{event_shape};
ghost use Rattle.turns_run.specs.declared.script.RawEvent.{RawEvent as TheRawEvent};

use crate::event_lines::carry_out_event;
use crate::script::RawEvent;
use crate::turns_fields::FromEvents;
use model::Config;
use script_tokens::Tokens;
use scripts::{Checked, Streamed};
use std::alloc::Global;
use turn_world::{Event, TurnWorld};

/// The outcome of the events of a script: what is printed of them, and the cluster that they leave.
#[derive(Drop)]
pub(crate) struct CarriedOut {
    /// The lines of the events.
    pub(crate) text: String,
    /// The cluster after the last event.
    pub(crate) world: TurnWorld,
}

impl FromEvents for CarriedOut {
    ghost is_from = { λ carried_out raws.
        AreCarriedOut raws (string_bytes carried_out.text) carried_out.world };

    fn take(
        alloc: Global,
        reader: &mut Tokens<'_>,
        depth: usize,
        config: Option<Config>,
    ) -> Option<CarriedOut> {
        if depth == 0 || !reader.take_begin_array() {
            return None;
        }
        let mut text = String::new(alloc);
        let mut world = TurnWorld::new(alloc, &config?).ok()?;
        carry_out_each(alloc, reader, depth - 1, &mut text, &mut world)?;
        Some(CarriedOut { text, world })
    }
}

/// Carries out each event of a list up to the bracket that closes it, and prints its lines.
/// Returns `None` as `Streamed` does, and at the first event with a fault.
fn carry_out_each(
    alloc: Global,
    reader: &mut Tokens<'_>,
    depth: usize,
    text: &mut String,
    world: &mut TurnWorld,
) -> Option<()>
    ensures { IfSome result (λ _. (raws : List TheRawEvent) × (events : List TheEvent)
        × TakesEach event_shape depth reader.old raws reader.new
        × (each_checked checked_event raws ≡ Ok events)
        × AreCarriedOutFrom events (string_bytes text.old) world.old (string_bytes text.new)
        world.new) }
{
    'events: while !reader.take_end_array() {
        carry_out_next(alloc, reader, depth, text, world)?;
    }
    Some(())
}

/// Carries out the next event of a list, and prints its lines.
fn carry_out_next(
    alloc: Global,
    reader: &mut Tokens<'_>,
    depth: usize,
    text: &mut String,
    world: &mut TurnWorld,
) -> Option<()>
    ensures { IfSome result (λ _. (raw : TheRawEvent) × (event : TheEvent)
        × Takes event_shape depth reader.old raw reader.new
        × (checked_event raw ≡ Ok event)
        × IsNextCarriedOut event (string_bytes text.old) world.old (string_bytes text.new)
        world.new) }
{
    let event = take_event(alloc, reader, depth)?;
    match carry_out_event(text, event, world) {
        Ok(()) => Some(()),
        Err(_) => None,
    }
}

/// The next event of a list, if it has no fault.
fn take_event(alloc: Global, reader: &mut Tokens<'_>, depth: usize) -> Option<Event>
    ensures { IfSome result (λ event. (raw : TheRawEvent)
        × Takes event_shape depth reader.old raw reader.new
        × (checked_event raw ≡ Ok event)) }
{
    let raw = RawEvent::from_tokens(alloc, reader, depth)?;
    match Event::check(alloc, raw) {
        Ok(event) => Some(event),
        Err(_) => None,
    }
}
