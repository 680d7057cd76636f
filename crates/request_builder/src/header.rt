//! The numbers of a request: its resolver, proxy, row and versions.

ghost use Rattle.std.specs.Prelude.{◌≡◌, Ok};

use model::{ProxyNumber, ResolverNumber, RowNumber, Version};
use system_keys::OutOfMemory;

/// The numbers of a request: whose it is, and where its record stands.
#[derive(Clone, Copy, Debug, PartialEq, Eq)]
pub struct RequestHeader {
    /// The resolver that it is to.
    pub resolver: ResolverNumber,
    /// The proxy that sends it.
    pub proxy: ProxyNumber,
    /// The row of the record: its place in the order of all batches.
    pub row: RowNumber,
    /// The version before the record's.
    pub previous: Version,
    /// The version of the record.
    pub version: Version,
    /// The version of the last record that the proxy had finished when it began this one, or 0.
    pub last_received: Version,
}

impl RequestHeader {
    /// Returns a copy. It allocates no memory and never fails.
    pub fn copy(&self) -> Result<RequestHeader, OutOfMemory>
        ensures { result ≡ Ok self.now }
    {
        Ok(*self)
    }
}
