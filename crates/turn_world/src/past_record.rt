//! A record that exists only in proofs.

ghost use Rattle.std.specs.Prelude.{◌≡◌};
ghost use base.Fml.{ftrue};
ghost use Rattle.model.specs.Records.{Record as TheRecord};

use request_builder::Record;
use std::marker::Model;

/// A record of which contracts know, and of which nothing is kept. It takes no memory.
#[derive(Drop)]
pub(crate) struct PastRecord {
    ghost known: { TheRecord },
}

impl Model for PastRecord {
    ghost also_owns = { λ _. ftrue };
}

impl PastRecord {
    /// The record, for contracts alone.
    pub(crate) fn of(_record: &Record) -> PastRecord
        ensures { result.known ≡ _record.now }
    {
        PastRecord {}
    }
}
