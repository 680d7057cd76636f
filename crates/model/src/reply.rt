//! The reply of a resolver to a request.
//!
//! Release 7.1, `Resolver.actor.cpp`, resolveBatch.

ghost use Rattle.std.specs.Prelude.{◌≡◌, IfOk};

use crate::numbers::{ProxyNumber, ResolverNumber, RowNumber, Version};
use crate::unseen::UnseenRow;
use crate::verdict::Verdict;
use system_keys::{Items, OutOfMemory, SharedItems};

/// The reply of one resolver to the request for one record.
#[derive(Clone, Debug, Drop)]
pub struct Reply {
    /// The resolver that replies.
    pub resolver: ResolverNumber,
    /// The proxy that sent the request.
    pub proxy: ProxyNumber,
    /// The row of the record.
    pub row: RowNumber,
    /// The version of the record.
    pub version: Version,
    /// One verdict for each transaction of the share, in order.
    pub verdicts: Items<Verdict>,
    /// The rows that the proxy has not seen, in the order of their versions. Copies share them.
    pub unseen: SharedItems<UnseenRow>,
}

impl Reply {
    /// Returns a copy, which shares the unseen rows. Fails only with `OutOfMemory`.
    pub fn copy(&self) -> Result<Reply, OutOfMemory>
        ensures { IfOk result (λ copy. copy ≡ self.now) }
    {
        Ok(self.clone()?)
    }
}
