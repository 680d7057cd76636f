//! From a record to one request for each resolver.
//!
//! Release 7.1, `CommitProxyServer.actor.cpp`, ResolutionRequestBuilder; what differs is marked
//! *profile*.

ghost use Rattle.std.specs.Prelude.{◌≡◌, length, map, max, IfOk};
ghost use Rattle.model.specs.Shares.{each_below, asked_back_to};
ghost use Rattle.model.specs.Requests.{request_back_to};
ghost use Rattle.model.specs.OwnerMaps.{AsksAs};
ghost use Rattle.request_builder.specs.AskedResolvers.{request_for_resolver};

use crate::asked_resolvers::{AskedResolvers, all_asked_resolvers, asked_lists};
use crate::header::RequestHeader;
use crate::marks::marks_for;
use crate::parts::parts_for;
use crate::record::Record;
use crate::request::Request;
use crate::requests::Requests;
use crate::share::Share;
use dated_owners::OwnerMap;
use model::{ResolverNumber, Version};
use std::alloc::Global;
use system_keys::{Items, OutOfMemory};

/// Returns the requests for a record, one for each resolver of the map, and the resolvers that get
/// a part of each transaction.
///
/// The map must ask as the record's moves do; otherwise nothing is promised but the rules of the
/// types. Owners count back to `oldest` or to the map's oldest version, whichever is later
/// (*profile*). `last_received` is the version of the last record that the proxy had finished when
/// it began this one, or 0. Each range is looked up in the map once, and shared with the
/// resolvers that get it. Fails only with `OutOfMemory`.
pub fn build(
    alloc: Global,
    rec: &Record,
    owners: &OwnerMap,
    oldest: Version,
    last_received: Version,
) -> Result<Requests, OutOfMemory>
    ensures requests { let oldest = max owners.now.oldest oldest in
        AsksAs owners.now rec.now.moves → IfOk result (λ built.
        built.requests ≡ map (request_back_to oldest rec.now last_received)
        (each_below owners.now.resolvers)) }
    ensures asked { let oldest = max owners.now.oldest oldest in
        AsksAs owners.now rec.now.moves → IfOk result (λ built.
        built.asked ≡ map (asked_back_to oldest owners.now.resolvers rec.now) rec.now.batch) }
{
    let askings = all_asked_resolvers(alloc, owners, oldest, rec.batch())?;
    let requests = requests_for_record(alloc, owners.resolvers(), rec, last_received, &askings)?;
    let asked = asked_lists(alloc, owners, &askings)?;
    Ok(Requests { requests, asked })
}

/// The requests to the resolvers, in their order.
fn requests_for_record(
    alloc: Global,
    resolvers: usize,
    rec: &Record,
    last_received: Version,
    askings: &[AskedResolvers],
) -> Result<Items<Request>, OutOfMemory>
    requires { length askings.now ≡ length rec.now.batch }
    ensures { IfOk result (λ requests.
        requests ≡ map (request_for_resolver rec.now last_received askings.now) (each_below resolvers)) }
{
    let mut requests = Vec::with_capacity(alloc, resolvers)?;
    for resolver in 0..resolvers {
        requests.push(request_for_resolver(alloc, resolver, rec, last_received, askings)?)?;
    }
    Ok(Items::from(requests))
}

/// The request to one resolver.
fn request_for_resolver(
    alloc: Global,
    resolver: ResolverNumber,
    rec: &Record,
    last_received: Version,
    askings: &[AskedResolvers],
) -> Result<Request, OutOfMemory>
    requires { length askings.now ≡ length rec.now.batch }
    ensures { IfOk result (λ request.
        request ≡ request_for_resolver rec.now last_received askings.now resolver) }
{
    let header = RequestHeader {
        resolver,
        proxy: rec.proxy(),
        row: rec.row(),
        previous: rec.previous(),
        version: rec.version(),
        last_received,
    };
    let parts = parts_for(alloc, resolver, rec.batch(), askings)?;
    let marks = marks_for(alloc, resolver, rec.batch(), askings)?;
    let share = Share::new(Items::from(parts));
    Ok(Request::of_parts(header, share, Items::from(marks)))
}
