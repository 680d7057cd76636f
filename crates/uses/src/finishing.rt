//! A proxy commits two batches: it begins both records, and finishes one after the other.

ghost use Rattle.std.specs.Prelude.{◌≡◌, List, IfErr, IfOk};
ghost use Rattle.model.specs.Stamps.{AdmittedTransaction};
ghost use Rattle.locked_cluster.specs.Commits.{HoldsBatch};
ghost use Rattle.locked_cluster.specs.Proxies.{FinishesReady};
ghost use Rattle.uses.specs.Causes.{OneWasNotCommitted, WasNotCommitted};
ghost use Rattle.uses.specs.Finishing.{AnswerInOrder, FinishesBoth};
ghost use Rattle.uses.specs.Finishing.{RefusesFinish, RefusesOneFinish};

use crate::refused::Refused;
use agreed_ledger::{Naming, Sequencer, Ticket};
use model::ProxyNumber;
use model::laws::version_chain_law;
use mutation::Batch;
use shared_cluster::{Asking, Begun, NotedFinished, ProxyGuard, Ready, SharedProxy};
use std::sync::Wait;

/// Commits two batches of one proxy, and begins both before it finishes one. The answers stand in the
/// order of their versions, and in the row of each stands a record of the proxy with its batch.
///
/// Fails as the phases do for one of the batches, and leaves what was done before.
pub fn commit_two<N: Naming, R: Wait, A: Asking<N>>(
    rt: &R,
    proxy: &SharedProxy<'_, N>,
    sequencer: &Sequencer<'_, N>,
    asking: &A,
    batch: Batch,
    next_batch: Batch,
) -> Result<(NotedFinished<N>, NotedFinished<N>), Refused>
    ensures answers { IfOk result (λ both.
        AnswerInOrder proxy.now batch next_batch both.0 both.1) }
    ensures refused { IfErr result (OneWasNotCommitted N.cells proxy.now batch next_batch) }
{
    let (begun, next_begun) = begin_both(rt, proxy, sequencer, batch, next_batch)?;
    let first = resolve_or_drop(rt, proxy, asking, begun)?;
    let second = resolve_or_drop(rt, proxy, asking, next_begun)?;
    // (their contracts say what the type keeps of the replies)
    let (_row, _next_row) = (first.row(), second.row());
    let mut guard = proxy.lock(rt);
    finish_two(&mut guard, first, second)
}

/// Finishes two records that the proxy began, one after the other. The answers stand in the order of
/// their versions.
///
/// Fails as [`ProxyGuard::finish`] does. If the second record is refused, the first is finished all
/// the same.
pub fn finish_two<N: Naming>(
    guard: &mut ProxyGuard<'_, N>,
    first: Ready<N>,
    second: Ready<N>,
) -> Result<(NotedFinished<N>, NotedFinished<N>), Refused>
    ensures answers { IfOk result (λ both.
        FinishesBoth guard.old first second guard.new both.0 both.1) }
    ensures refused { IfErr result
        (RefusesOneFinish N.cells.config guard.old first second guard.new) }
{
    // (its contract is the law that a proxy's record before is no later than the version before)
    version_chain_law();
    // (its contract says what the type keeps of the proxy)
    let _number = guard.number();
    let answer = finish_or_drop(guard, first)?;
    // (and here, after a record more)
    let _version = guard.version();
    let next_answer = finish_or_drop(guard, second)?;
    Ok((answer, next_answer))
}

/// Gives both batches their records, and begins them, under the proxy's lock.
fn begin_both<N: Naming, R: Wait>(
    rt: &R,
    proxy: &SharedProxy<'_, N>,
    sequencer: &Sequencer<'_, N>,
    batch: Batch,
    next_batch: Batch,
) -> Result<(Begun<N>, Begun<N>), Refused>
    ensures first { IfOk result (λ both.
        HoldsBatch proxy.now both.0.row both.0.records batch) }
    ensures second { IfOk result (λ both.
        HoldsBatch proxy.now both.1.row both.1.records next_batch) }
    ensures refused { IfErr result (OneWasNotCommitted N.cells proxy.now batch next_batch) }
{
    let mut guard = proxy.lock(rt);
    let first = begin_batch(rt, &mut guard, sequencer, batch)?;
    let second = begin_batch(rt, &mut guard, sequencer, next_batch)?;
    Ok((first, second))
}

/// Gives the batch its record, and begins it. A refused batch is dropped.
fn begin_batch<N: Naming, R: Wait>(
    rt: &R,
    guard: &mut ProxyGuard<'_, N>,
    sequencer: &Sequencer<'_, N>,
    batch: Batch,
) -> Result<Begun<N>, Refused>
    ensures holds { IfOk result (λ begun.
        HoldsBatch guard.old.proxy.number begun.row begun.records batch) }
    ensures number { guard.new.proxy.number ≡ guard.old.proxy.number }
    ensures refused { IfErr result (WasNotCommitted N.cells guard.old.proxy.number batch) }
{
    let ticket = sequence_or_drop(rt, sequencer, guard.number(), batch)?;
    // (its contract says what the type keeps of the ticket)
    let _row = ticket.row();
    match guard.begin(ticket) {
        Ok(begun) => Ok(begun),
        Err((refusal, _ticket)) => Err(Refused::ByCluster(refusal)),
    }
}

/// Gives the batch its record, under the sequencer's lock. A refused batch is dropped.
fn sequence_or_drop<N: Naming, R: Wait>(
    rt: &R,
    sequencer: &Sequencer<'_, N>,
    proxy: ProxyNumber,
    batch: Batch,
) -> Result<Ticket<N>, Refused>
    ensures holds { IfOk result (λ ticket. HoldsBatch proxy ticket.row ticket.records batch) }
    ensures refused { IfErr result (WasNotCommitted N.cells proxy batch) }
{
    let mut guard = sequencer.lock(rt);
    match guard.sequence(proxy, batch) {
        Ok(ticket) => Ok(ticket),
        Err((refusal, _batch)) => Err(Refused::ByLedger(refusal)),
    }
}

/// Asks all resolvers for a record that was begun. Refused requests are dropped.
fn resolve_or_drop<N: Naming, R: Wait, A: Asking<N>>(
    rt: &R,
    proxy: &SharedProxy<'_, N>,
    asking: &A,
    begun: Begun<N>,
) -> Result<Ready<N>, Refused>
    ensures row { IfOk result (λ ready. ready.row ≡ begun.row) }
    ensures records { IfOk result (λ ready. ready.records ≡ begun.records) }
    ensures refused { (batch : List AdmittedTransaction)
        → HoldsBatch proxy.now begun.row begun.records batch
        → IfErr result (WasNotCommitted N.cells proxy.now batch) }
{
    // (its contract says what the type keeps of the requests)
    let _row = begun.row();
    match proxy.resolve_all(rt, asking, begun) {
        Ok(ready) => Ok(ready),
        Err((refusal, _begun)) => Err(Refused::ByCluster(refusal)),
    }
}

/// Finishes a record. Refused replies are dropped.
fn finish_or_drop<N: Naming>(
    guard: &mut ProxyGuard<'_, N>,
    ready: Ready<N>,
) -> Result<NotedFinished<N>, Refused>
    ensures finished { IfOk result (FinishesReady guard.old ready guard.new) }
    ensures refused { IfErr result (RefusesFinish guard.old ready guard.new) }
{
    match guard.finish(ready) {
        Ok(noted) => Ok(noted),
        Err((refusal, _ready)) => Err(Refused::ByCluster(refusal)),
    }
}
