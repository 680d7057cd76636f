//! The offers that resolvers have not yet got.

ghost use Rattle.std.specs.Prelude.{◌≡◌, ◌++◌, ◌<◌, length, map, OnOk, OnErr};
ghost use Rattle.turn_world.specs.Events.{event_of};
ghost use Rattle.turn_world.specs.Ending.{offers_missing, offers_missing_of_row};

use crate::event::Event;
use model::RowNumber;
use system_keys::OutOfMemory;

/// Appends the offers of all rows to the resolvers that have not judged them, row by row, by how
/// many rows each resolver has judged. Fails only if there is such an offer.
pub(crate) fn push_offers(
    events: &mut Vec<Event>,
    judged_counts: &[usize],
    rows: usize,
) -> Result<(), OutOfMemory>
    ensures ok { OnOk result (map event_of events.new.items
        ≡ map event_of events.old.items ++ offers_missing judged_counts.now rows) }
    ensures err { OnErr result (0 < length (offers_missing judged_counts.now rows)) }
{
    for row in 0..rows {
        push_offers_of_row(events, judged_counts, row)?;
    }
    Ok(())
}

/// Appends the offers of the row to the resolvers that have not judged it. Fails only if there is
/// one.
fn push_offers_of_row(
    events: &mut Vec<Event>,
    judged_counts: &[usize],
    row: RowNumber,
) -> Result<(), OutOfMemory>
    ensures ok { OnOk result (map event_of events.new.items
        ≡ map event_of events.old.items ++ offers_missing_of_row judged_counts.now row) }
    ensures err { OnErr result (0 < length (offers_missing_of_row judged_counts.now row)) }
{
    for resolver in 0..judged_counts.len() {
        if row < judged_counts[resolver] {
            continue;
        }
        events.push(Event::Offer { row, resolver })?;
    }
    Ok(())
}
