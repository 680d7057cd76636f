//! A request with the records up to its row, as it goes from thread to thread.

ghost use Rattle.std.specs.Prelude.{◌≡◌, IfOk};
ghost use Rattle.locked_resolvers.specs.Requests.{HasRowVersions, IsRequestFor};

use agreed_ledger::{Naming, Records};
use model::{ProxyNumber, ResolverNumber, RowNumber, Version};
use request_builder::Request as PlainRequest;
use std::marker::Model;
use system_keys::OutOfMemory;

/// A request to a resolver, with the records up to its row.
///
/// By its type it is the request that the definition gives for the record of its row to a resolver of
/// the cluster, by some version last received that is not above the record's previous version.
#[derive(Drop)]
pub struct Request<N: Naming> {
    plain: PlainRequest,
    records: Records<N>,
}

impl<N: Naming> Model for Request<N> {
    ghost use Rattle.std.specs.Prelude.{◌≡◌};
    ghost use Rattle.locked_resolvers.specs.Requests.{IsRequestFor, RequestView};

    ghost Value = { RequestView };

    ghost view = { λ q. record { plain = q.plain; records = q.records.known } };

    ghost invariant = { λ q. (q.records.first ≡ 0)
        × IsRequestFor N.cells.config (record { plain = q.plain; records = q.records.known }) };
}

impl<N: Naming> Request<N> {
    /// The request for the last of the records.
    pub fn of(plain: PlainRequest, records: Records<N>) -> Request<N>
        requires first { records.first ≡ 0 }
        requires is { IsRequestFor N.cells.config
            (record { plain = plain; records = records.known }) }
        ensures { result ≡ record { plain = plain; records = records.known } }
    {
        Request { plain, records }
    }

    /// The number of the resolver that it is to.
    pub fn resolver(&self) -> ResolverNumber
        ensures { result ≡ self.now.plain.resolver }
    {
        self.plain.resolver()
    }

    /// The number of the proxy that it is of.
    pub fn proxy(&self) -> ProxyNumber
        ensures { result ≡ self.now.plain.proxy }
    {
        self.plain.proxy()
    }

    /// The row of its record.
    pub fn row(&self) -> RowNumber
        ensures { result ≡ self.now.plain.row }
    {
        self.plain.row()
    }

    /// The version of the record before its own.
    pub fn previous(&self) -> Version
        ensures { result ≡ self.now.plain.previous }
    {
        self.plain.previous()
    }

    /// The version of its record.
    pub fn version(&self) -> Version
        ensures { result ≡ self.now.plain.version }
    {
        self.plain.version()
    }

    /// The request without the records.
    pub fn plain(&self) -> &PlainRequest
        ensures value { result.now ≡ self.now.plain }
        ensures kept { IsRequestFor N.cells.config self.now }
        ensures versions { HasRowVersions N.cells.config self.now.plain }
    {
        &self.plain
    }

    /// The records up to the row, its own among them.
    pub fn records(&self) -> &Records<N>
        ensures value { result.now ≡ record { first = 0; known = self.now.records } }
        ensures kept { IsRequestFor N.cells.config self.now }
    {
        &self.records
    }

    /// The records up to the row, without the request.
    pub fn into_records(self) -> Records<N>
        ensures value { result ≡ record { first = 0; known = self.records } }
        ensures kept { IsRequestFor N.cells.config self }
    {
        let Request { plain: _, records } = self;
        records
    }

    /// Returns an equal copy. Fails only with `OutOfMemory`.
    pub fn copy(&self) -> Result<Request<N>, OutOfMemory>
        ensures { IfOk result (λ copy. copy ≡ self.now) }
    {
        Ok(Request {
            plain: self.plain.copy()?,
            records: self.records.copy()?,
        })
    }
}
