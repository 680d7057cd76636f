//! What can happen in a cluster without threads.

ghost use Rattle.std.specs.Prelude.{◌≡◌, IfOk};

use model::{ProxyNumber, ResolverNumber, RowNumber};
use mutation::Batch;
use system_keys::{KeyRange, OutOfMemory};

/// An event of a cluster without threads.
#[derive(Clone, Debug, Drop)]
pub enum Event {
    /// A batch of the proxy gets the next record, and its proxy begins it.
    Sequence {
        proxy: ProxyNumber,
        batch: Batch,
    },
    /// The range moves to a resolver, from the version after the last one given out.
    Move {
        range: KeyRange,
        dest: ResolverNumber,
    },
    /// The resolver gets the request for the record at this row.
    Offer {
        row: RowNumber,
        resolver: ResolverNumber,
    },
    /// The proxy finishes its earliest record that is begun and not finished.
    Finish {
        proxy: ProxyNumber,
    },
}

impl Event {
    /// Returns an equal copy. Fails only with `OutOfMemory`.
    pub fn copy(&self) -> Result<Event, OutOfMemory>
        ensures { IfOk result (λ copy. copy ≡ self.now) }
    {
        Ok(self.clone()?)
    }
}
