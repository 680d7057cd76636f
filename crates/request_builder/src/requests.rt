//! The requests for one record.

ghost use Rattle.std.specs.Prelude.{◌≡◌, IfOk};

use crate::request::Request;
use model::ResolverNumber;
use system_keys::{Items, OutOfMemory};

/// The requests for a record, and the resolvers that they ask about each transaction.
#[derive(Clone, Debug, Drop)]
pub struct Requests {
    /// One request for each resolver, in the order of the resolvers.
    pub requests: Items<Request>,
    /// One list for each transaction: the resolvers that get a part of it, in rising order.
    pub asked: Items<Items<ResolverNumber>>,
}

impl Requests {
    /// Returns an equal copy. Fails only with `OutOfMemory`.
    pub fn copy(&self) -> Result<Requests, OutOfMemory>
        ensures { IfOk result (λ copy. copy ≡ self.now) }
    {
        Ok(self.clone()?)
    }
}
