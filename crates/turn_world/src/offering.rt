//! Offering a request to its resolver.

ghost use Rattle.std.specs.Prelude.{◌≡◌, ◌<◌, length};
ghost use Rattle.turn_world.specs.KeptRequests.{kept_request};
ghost use Rattle.turn_world.specs.Parts.{IsOfferedAt};
ghost use Rattle.turn_world.specs.Steps.{IsPassedOn, IsOfTheWorld};

use crate::refusal::Refusal;
use crate::sent_requests::bare_request;
use model::ResolverNumber;
use request_builder::{Request, RequestHeader};
use state_memory::{Answer, Resolver};
use std::alloc::Global;

/// Lets the resolver answer the request to it among those that are kept or, where there is none, the
/// request of these numbers alone. The other resolvers are left as they are.
pub(crate) fn offer_kept(
    alloc: Global,
    resolvers: &mut Vec<Resolver>,
    resolver: ResolverNumber,
    kept: &[Request],
    header: RequestHeader,
) -> Result<Answer, state_memory::Refusal>
    requires { resolver < length resolvers.old.items }
    ensures { let q = kept_request kept.now resolver header in
        IsOfferedAt resolvers.old.items resolver q result resolvers.new.items }
{
    match kept.get(resolver) {
        Some(request) => offer_at(resolvers, resolver, request),
        None => offer_at(resolvers, resolver, &bare_request(alloc, header)),
    }
}

/// Lets the resolver answer the request. The other resolvers are left as they are.
fn offer_at(
    resolvers: &mut Vec<Resolver>,
    resolver: ResolverNumber,
    request: &Request,
) -> Result<Answer, state_memory::Refusal>
    requires { resolver < length resolvers.old.items }
    ensures { IsOfferedAt resolvers.old.items resolver request.now result resolvers.new.items }
{
    resolvers[resolver].offer(request)
}

/// The refusal of the cluster that a refusal of a resolver becomes. No request of a cluster is
/// outside the chain.
pub(crate) fn cluster_refusal(refusal: state_memory::Refusal) -> Refusal
    requires { IsOfTheWorld refusal }
    ensures { IsPassedOn refusal result }
{
    match refusal {
        state_memory::Refusal::WrongResolver => Refusal::WrongResolver,
        state_memory::Refusal::NoSuchProxy => Refusal::NoSuchProxy,
        state_memory::Refusal::GivenUp { acknowledged } => Refusal::GivenUp { acknowledged },
        state_memory::Refusal::Early { version } => Refusal::Early { version },
        state_memory::Refusal::OutOfMemory => Refusal::OutOfMemory,
        state_memory::Refusal::OutsideChain { .. } => unreachable!(),
    }
}
