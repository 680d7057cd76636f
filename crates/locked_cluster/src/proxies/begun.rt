//! The requests for a record that a proxy began, and the memory for them that is allocated
//! beforehand.

ghost use Rattle.std.specs.Prelude.{◌≡◌, ◌≤◌, [], length, replicate, vec_capacity, IfOk};
ghost use Rattle.locked_cluster.specs.Begun.{AreRequestsFor, IsBegun, with_records};

use agreed_ledger::{Naming, Records};
use locked_resolvers::Request;
use model::RowNumber;
use request_builder::Request as PlainRequest;
use std::alloc::Global;
use std::marker::Model;
use system_keys::OutOfMemory;

/// A record that a proxy began: its row, the records up to it, and a request for it to each resolver.
///
/// By its type the requests are those that the definition gives for the record of the row, in the
/// order of the resolvers, by one version last received.
#[derive(Drop)]
pub struct Begun<N: Naming> {
    row: RowNumber,
    records: Records<N>,
    requests: Vec<Request<N>>,
}

impl<N: Naming> Model for Begun<N> {
    ghost use Rattle.std.specs.Prelude.{◌≡◌};
    ghost use Rattle.locked_cluster.specs.Begun.{BegunView, IsBegun};

    ghost Value = { BegunView };

    ghost view = { λ b. record {
      row = b.row;
      records = b.records.known;
      requests = b.requests.items;
    } };

    ghost invariant = { λ b. (b.records.first ≡ 0)
        × IsBegun N.cells.config (record {
          row = b.row;
          records = b.records.known;
          requests = b.requests.items;
        }) };
}

impl<N: Naming> Begun<N> {
    /// The requests for the last of the records.
    pub(crate) fn of(row: RowNumber, records: Records<N>, requests: Vec<Request<N>>) -> Begun<N>
        requires first { records.first ≡ 0 }
        requires is { IsBegun N.cells.config (record {
          row = row;
          records = records.known;
          requests = requests.items;
        }) }
        ensures { result ≡ record {
          row = row;
          records = records.known;
          requests = requests.items;
        } }
    {
        Begun {
            row,
            records,
            requests,
        }
    }

    /// The row of the record.
    pub fn row(&self) -> RowNumber
        ensures value { result ≡ self.now.row }
        ensures kept { IsBegun N.cells.config self.now }
    {
        self.row
    }

    /// The records up to the row, its own among them.
    pub fn records(&self) -> &Records<N>
        ensures value { result.now ≡ record { first = 0; known = self.now.records } }
        ensures kept { IsBegun N.cells.config self.now }
    {
        &self.records
    }

    /// The requests, in the order of the resolvers.
    pub fn requests(&self) -> &[Request<N>]
        ensures value { result.now ≡ self.now.requests }
        ensures kept { IsBegun N.cells.config self.now }
    {
        self.requests.as_slice()
    }

    /// The allocator of the requests.
    pub(crate) fn alloc(&self) -> Global {
        *self.requests.allocator()
    }

    /// The records up to the row, without the requests.
    pub(crate) fn into_records(self) -> Records<N>
        ensures { result ≡ record { first = 0; known = self.records } }
    {
        let Begun {
            row: _,
            records,
            requests: _,
        } = self;
        records
    }
}

/// What a proxy makes before it begins a record, so that nothing is left to allocate once it has
/// begun it: copies of the records up to the record's row, and room for the requests.
#[derive(Drop)]
pub(crate) struct BeginRoom<N: Naming> {
    /// The proxy keeps these.
    pub(crate) proxy_records: Records<N>,
    /// These are returned with the requests.
    pub(crate) begun_records: Records<N>,
    /// Each request gets one of these.
    pub(crate) request_records: Vec<Records<N>>,
    /// No requests, with room for them.
    pub(crate) requests: Vec<Request<N>>,
}

/// The room for requests to `resolvers` resolvers. Fails only with `OutOfMemory`.
pub(crate) fn room_to_begin<N: Naming>(
    alloc: Global,
    records: &Records<N>,
    resolvers: usize,
) -> Result<BeginRoom<N>, OutOfMemory>
    ensures proxy { IfOk result (λ room. room.proxy_records ≡ records.now) }
    ensures begun { IfOk result (λ room. room.begun_records ≡ records.now) }
    ensures copies { IfOk result (λ room. room.request_records.items
        ≡ replicate resolvers records.now) }
    ensures empty { IfOk result (λ room. room.requests.items ≡ []) }
    ensures room { IfOk result (λ room. resolvers ≤ vec_capacity room.requests) }
{
    Ok(BeginRoom {
        proxy_records: records.copy()?,
        begun_records: records.copy()?,
        request_records: copies_of_records(alloc, records, resolvers)?,
        requests: Vec::with_capacity(alloc, resolvers)?,
    })
}

/// `count` copies of the records. Fails only with `OutOfMemory`.
#[tactic(auto, using(std::proofs::lemmas::List::replicate_more))]
fn copies_of_records<N: Naming>(
    alloc: Global,
    records: &Records<N>,
    count: usize,
) -> Result<Vec<Records<N>>, OutOfMemory>
    ensures { IfOk result (λ copies. copies.items ≡ replicate count records.now) }
{
    let mut copies = Vec::with_capacity(alloc, count)?;
    for _ in 0..count {
        copies.push(records.copy()?)?;
    }
    Ok(copies)
}

/// The requests, each with one of the copies of the records. Does not allocate, since there is room.
pub(crate) fn requests_with_records<N: Naming>(
    records: &Records<N>,
    plain: Vec<PlainRequest>,
    mut copies: Vec<Records<N>>,
    mut requests: Vec<Request<N>>,
) -> Vec<Request<N>>
    requires first { records.now.first ≡ 0 }
    requires are { AreRequestsFor N.cells.config records.now.known plain.items }
    requires copies { copies.items ≡ replicate (length plain.items) records.now }
    requires empty { requests.items ≡ [] }
    requires room { length plain.items ≤ vec_capacity requests }
    ensures { result.items ≡ with_records records.now.known plain.items }
{
    for one in plain {
        let Some(copy) = copies.pop() else {
            unreachable!();
        };
        requests.push_reserved(Request::of(one, copy));
    }
    requests
}
