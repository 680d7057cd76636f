//! A resolver replies to a request, and its cell of the row is looked at.

ghost use Rattle.std.specs.Prelude.{◌≡◌, IfErr, IfOk, OnErr};
ghost use Rattle.locked_resolvers.specs.NotedReplies.{IsNotedReply};
ghost use Rattle.locked_resolvers.specs.Resolvers.{HasOffered, IsOfferRefusal};
ghost use Rattle.locked_resolvers.specs.Resolvers.{IsResolveRefusal, after_refusal};
ghost use Rattle.uses.specs.Resolving.{KeepsAll, RefusesOneOfTwo, RepliesInItsCell};
ghost use Rattle.uses.specs.Resolving.{StandsInItsCell};

use agreed_ledger::Naming;
use shared_cluster::{NotedReply, Refusal, Refused, Request, ResolverGuard, SharedResolver};
use std::sync::Wait;

/// Waits until the resolver replies to the request. The verdicts of the reply stand in the cell of
/// its row, in the column of the resolver that is then locked.
///
/// Fails as [`SharedResolver::resolve`] does, and returns the request.
pub fn resolve_and_look<'a, N: Naming, R: Wait>(
    rt: &R,
    resolver: &'a SharedResolver<'_, N>,
    request: Request<N>,
) -> Result<(NotedReply<N>, ResolverGuard<'a, N>), Refused<N>>
    ensures shown { IfOk result (λ made. StandsInItsCell request made.0 made.1) }
    ensures refused { IfErr result (λ refused.
        IsResolveRefusal N.cells.config resolver.now request refused.refusal) }
    ensures back { IfErr result (λ refused. refused.request ≡ request) }
{
    let (noted, guard) = resolver.resolve(rt, request)?;
    // (its contract says what the type keeps of the reply)
    let _reply = noted.value();
    Ok((noted, guard))
}

/// Offers the request to a locked resolver. The verdicts of the reply stand in the cell of its row,
/// and the resolver keeps what it had.
///
/// Fails as [`ResolverGuard::offer`] does, and returns the request. The resolver is then as it was, or
/// closed and otherwise as it was.
pub fn offer_and_look<N: Naming>(
    guard: &mut ResolverGuard<'_, N>,
    request: Request<N>,
) -> Result<NotedReply<N>, Refused<N>>
    ensures replied { IfOk result (RepliesInItsCell guard.old request guard.new) }
    ensures kept { OnErr result (KeepsAll guard.old guard.new) }
    ensures refused { IfErr result (λ refused.
        IsOfferRefusal guard.old request.plain refused.refusal) }
    ensures left { IfErr result (λ refused.
        guard.new ≡ after_refusal guard.old refused.refusal) }
    ensures back { IfErr result (λ refused. refused.request ≡ request) }
{
    let noted = guard.offer(request)?;
    // (its contract says what the type keeps of the reply)
    let _reply = noted.value();
    Ok(noted)
}

/// Offers a request twice to a locked resolver. The second reply is the first again, with the same
/// records and cells, and changes nothing.
///
/// Fails as [`ResolverGuard::offer`] does. If the second offer fails, the first was done all the same.
pub fn offer_twice<N: Naming>(
    guard: &mut ResolverGuard<'_, N>,
    request: Request<N>,
) -> Result<(NotedReply<N>, NotedReply<N>), Refusal>
    ensures replied { IfOk result (λ both. RepliesInItsCell guard.old request guard.new both.0) }
    ensures same { IfOk result (λ both. both.1 ≡ both.0) }
    ensures refused { IfErr result (RefusesOneOfTwo guard.old request guard.new) }
{
    let copy = request.copy()?;
    let noted = offer_or_drop(guard, request)?;
    let again = offer_or_drop(guard, copy)?;
    Ok((noted, again))
}

/// Offers the request. A refused one is dropped.
fn offer_or_drop<N: Naming>(
    guard: &mut ResolverGuard<'_, N>,
    request: Request<N>,
) -> Result<NotedReply<N>, Refusal>
    ensures offered { IfOk result (HasOffered guard.old request guard.new) }
    ensures kept { IfOk result (IsNotedReply N.cells.config) }
    ensures refused { IfErr result (IsOfferRefusal guard.old request.plain) }
    ensures left { IfErr result (λ refusal. guard.new ≡ after_refusal guard.old refusal) }
{
    match guard.offer(request) {
        Ok(noted) => {
            // (its contract says what the type keeps of the reply)
            let _reply = noted.value();
            Ok(noted)
        }
        Err(refused) => Err(refused.refusal),
    }
}
