//! The answers to requests that a resolver refused, or that came when it was closed.

ghost use Rattle.std.specs.Prelude.{◌≡◌, ◌≢◌, IsTrue};
ghost use Rattle.model.specs.Numbers.{Version};
ghost use Rattle.locked_resolvers.specs.Resolvers.{IsNotEarly, WasRefusedBy};
ghost use Rattle.locked_resolvers.specs.declared.refusal.Refusal.TheVariants as refusals;
ghost use Rattle.workers.specs.Refusing.{IsSameOrClosed};

use crate::worker_answer::RefusedRequest;
use agreed_ledger::Naming;
use locked_resolvers::{Refusal, Refused, Request, ResolverGuard};

/// The request is refused as closed. The guard shows that the resolver is closed, what the cluster is,
/// and that it has the resolver that the request names.
pub(crate) fn refuse_as_closed<N: Naming>(
    guard: &ResolverGuard<'_, N>,
    request: Request<N>,
) -> RefusedRequest<N>
    requires { IsTrue guard.now.closed }
    ensures { result ≡ record { refusal = refusals.Closed; request = request } }
{
    // (their contracts say what their types keep)
    let _number = guard.number();
    let _plain = request.plain();
    RefusedRequest::new(Refusal::Closed, request)
}

/// The resolver under the guard refused an offer of the request. A request to another resolver, and
/// one that comes too early, are not offered: here they close the resolver, and are refused as closed.
pub(crate) fn refuse_by_offer<N: Naming>(
    guard: &mut ResolverGuard<'_, N>,
    refused: Refused<N>,
) -> RefusedRequest<N>
    requires was { WasRefusedBy N.cells.config guard.old.memory.number
        refused.request refused.refusal }
    requires closed { refused.refusal ≡ refusals.Closed → IsTrue guard.old.closed }
    ensures request { result.request ≡ refused.request }
    ensures refusal { refused.request.plain.resolver ≡ guard.old.memory.number
        → IsNotEarly refused.refusal → result.refusal ≡ refused.refusal }
    ensures other { refused.request.plain.resolver ≢ guard.old.memory.number
        → result.refusal ≡ refusals.Closed }
    ensures early { (version : Version) → refused.refusal ≡ refusals.Early version
        → result.refusal ≡ refusals.Closed }
    ensures resolver { IsSameOrClosed guard.old guard.new }
    ensures closed { result.refusal ≡ refusals.Closed → IsTrue guard.new.closed }
{
    let Refused {
        refusal,
        request,
        ..
    } = refused;
    if request.resolver() != guard.number() {
        guard.close();
        return refuse_as_closed(guard, request);
    }
    if let Refusal::Early { .. } = refusal {
        guard.close();
        return refuse_as_closed(guard, request);
    }
    RefusedRequest::new(refusal, request)
}
