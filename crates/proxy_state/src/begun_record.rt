//! A record that a proxy began and did not finish, with the resolvers that it asked.

ghost use Rattle.std.specs.Prelude.{◌≡◌, IfOk};

use model::ResolverNumber;
use request_builder::{Record, Requests};
use std::alloc::AllocError;
use system_keys::{Items, OutOfMemory};

/// A record that a proxy began and did not finish.
#[derive(Debug, Drop)]
pub(crate) struct BegunRecord {
    /// The record.
    pub(crate) rec: Record,
    /// For each transaction, the resolvers that get a part of it, in rising order.
    pub(crate) asked: Items<Items<ResolverNumber>>,
}

impl BegunRecord {
    /// Returns copies of the record and of the resolvers that the requests for it ask. Fails only
    /// with `OutOfMemory`.
    pub(crate) fn of_requests(rec: &Record, requests: &Requests) -> Result<BegunRecord, OutOfMemory>
        ensures rec { IfOk result (λ begun. begun.rec ≡ rec.now) }
        ensures asked { IfOk result (λ begun. begun.asked ≡ requests.now.asked) }
    {
        Ok(BegunRecord {
            rec: rec.copy()?,
            asked: requests.asked.clone()?,
        })
    }
}

impl Clone for BegunRecord {
    ghost is_clone = { λ begun copy. copy ≡ begun };

    fn clone(&self) -> Result<BegunRecord, AllocError> {
        Ok(BegunRecord {
            rec: self.rec.clone()?,
            asked: self.asked.clone()?,
        })
    }
}
