//! Turns scripts: events of a cluster without threads, and keys whose tags are asked; checked, or
//! as they are written (`Raw`).

ghost use Rattle.std.specs.Prelude.{◌≡◌, IfOk};

use cluster_scripts::GivenMove;
use model::{Config, ProxyNumber, ResolverNumber, RowNumber};
use mutation::Transaction;
use scripts::copy_keys;
use std::alloc::Global;
use system_keys::{Bytes, Items, OutOfMemory};
use turn_world::Event;

/// A turns script: the numbers of a cluster, its events, and the keys whose tags are asked (this
/// project's profile).
#[derive(Debug, Drop)]
pub struct TurnsScript {
    /// How many proxies and resolvers there are, the window and the step.
    pub config: Config,
    /// The events, in order.
    pub events: Items<Event>,
    /// The keys whose tags are printed of each proxy: any bytes.
    pub ask: Items<Bytes>,
}

impl TurnsScript {
    /// Returns an equal copy. Fails only with `OutOfMemory`.
    pub fn copy(&self) -> Result<TurnsScript, OutOfMemory>
        ensures { IfOk result (λ copy. copy ≡ self.now) }
    {
        let ask = copy_keys(&self.ask)?;
        let events = copy_events(*ask.allocator(), self.events.as_slice())?;
        Ok(TurnsScript {
            config: self.config.copy()?,
            events,
            ask: Items::from(ask),
        })
    }
}

/// A turns script as it is written, before its keys, values and ranges are checked.
#[derive(Drop)]
pub(crate) struct RawTurns {
    /// The numbers of the cluster, within their limits.
    pub(crate) config: Config,
    /// The events.
    pub(crate) events: Items<RawEvent>,
    /// The keys whose tags are asked.
    pub(crate) ask: Items<Bytes>,
}

/// An event as it is written, before its keys, values and ranges are checked.
#[derive(Drop)]
pub enum RawEvent {
    /// A batch gets its record.
    Sequence {
        /// The number of the proxy.
        proxy: ProxyNumber,
        /// The transactions of the batch.
        batch: Items<Transaction>,
    },
    /// A range moves.
    Move(GivenMove),
    /// A resolver gets a request.
    Offer {
        /// The row of the record.
        row: RowNumber,
        /// The number of the resolver.
        resolver: ResolverNumber,
    },
    /// A proxy finishes a record.
    Finish {
        /// The number of the proxy.
        proxy: ProxyNumber,
    },
}

/// A copy of the events.
fn copy_events(alloc: Global, events: &[Event]) -> Result<Items<Event>, OutOfMemory>
    ensures { IfOk result (λ copy. copy ≡ events.now) }
{
    let mut copies = Vec::with_capacity(alloc, events.len())?;
    for event in events {
        copies.push(event.copy()?)?;
    }
    Ok(Items::from(copies))
}
