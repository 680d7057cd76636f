//! Asking all resolvers for a record.

ghost use Rattle.std.specs.Prelude.{◌≡◌, IfErr, IfOk};
ghost use Rattle.locked_resolvers.specs.Asking.{IsAskAllRefusal};
ghost use Rattle.uses.specs.Asking.{HaveAllReplied, IsAskEachRefusal};

use agreed_ledger::Naming;
use shared_cluster::{
    AllResolvers, Asking, Begun, NotedReply, Ready, Refusal, SharedProxy, SharedResolver,
};
use std::alloc::Global;
use std::sync::Wait;

/// Asks all resolvers of the cluster for a record that was begun. The replies stand in the order of
/// the resolvers, each to this record.
///
/// Fails with `WrongResolver` if these are not all resolvers in the order of their numbers, and
/// otherwise as [`Asking::ask_all`] does.
pub fn ask_each<N: Naming, R: Wait>(
    rt: &R,
    alloc: Global,
    resolvers: &[SharedResolver<'_, N>],
    begun: &Begun<N>,
) -> Result<Vec<NotedReply<N>>, Refusal>
    ensures replied { IfOk result (λ replies.
        HaveAllReplied N.cells.config begun.now replies.items) }
    ensures refused { IfErr result
        (IsAskEachRefusal N.cells.config resolvers.now begun.now) }
{
    let asking = AllResolvers::new(resolvers)?;
    asking.ask_all(rt, alloc, begun.requests())
}

/// Asks all resolvers for a record that was begun, and asks once more if they do not all reply. The
/// replies are to that record.
///
/// Fails as [`SharedProxy::resolve_all`] does, and returns the requests.
pub fn resolve_with_one_retry<N: Naming, R: Wait, A: Asking<N>>(
    rt: &R,
    proxy: &SharedProxy<'_, N>,
    asking: &A,
    begun: Begun<N>,
) -> Result<Ready<N>, (Refusal, Begun<N>)>
    ensures row { IfOk result (λ ready. ready.row ≡ begun.row) }
    ensures records { IfOk result (λ ready. ready.records ≡ begun.records) }
    ensures refused { IfErr result (λ refused.
        IsAskAllRefusal N.cells.config (A.takes asking.now) begun.requests refused.0) }
    ensures back { IfErr result (λ refused. refused.1 ≡ begun) }
{
    match proxy.resolve_all(rt, asking, begun) {
        Ok(ready) => Ok(ready),
        Err((_refusal, begun)) => proxy.resolve_all(rt, asking, begun),
    }
}
