//! A batch is committed, and after one failure from the phase that failed: it is begun, resolved,
//! finished.

ghost use Rattle.std.specs.Prelude.{◌≡◌, List, IfErr, IfOk};
ghost use Rattle.model.specs.Stamps.{AdmittedTransaction};
ghost use Rattle.locked_cluster.specs.Commits.{HoldsBatch};
ghost use Rattle.uses.specs.Causes.{WasNotCommitted};

use crate::refused::Refused;
use agreed_ledger::{Naming, Sequencer, Ticket};
use mutation::Batch;
use shared_cluster::{Asking, Begun, CommitFault, NotedFinished, Ready, SharedProxy};
use std::sync::Wait;

/// Commits a batch, and goes on once from what a failed commit returns. In the row of the answer
/// stands a record with the batch, whichever phase had failed.
///
/// Fails as the phase does that then fails.
pub fn commit_and_resume_once<N: Naming, R: Wait, A: Asking<N>>(
    rt: &R,
    proxy: &SharedProxy<'_, N>,
    sequencer: &Sequencer<'_, N>,
    asking: &A,
    batch: Batch,
) -> Result<NotedFinished<N>, Refused>
    ensures holds { IfOk result (λ noted.
        HoldsBatch proxy.now noted.finished.row noted.records batch) }
    ensures refused { IfErr result (WasNotCommitted N.cells proxy.now batch) }
{
    match proxy.commit(rt, sequencer, asking, batch) {
        Ok((noted, _guard)) => Ok(noted),
        Err(CommitFault::Sequencing { refusal: _, batch }) => {
            commit_once(rt, proxy, sequencer, asking, batch)
        }
        Err(CommitFault::Beginning { refusal: _, ticket }) => begin(rt, proxy, asking, ticket),
        Err(CommitFault::Resolving { refusal: _, begun }) => resolve(rt, proxy, asking, begun),
        Err(CommitFault::Finishing { refusal: _, ready }) => finish(rt, proxy, ready),
    }
}

/// Commits a batch. What a failed commit returns is dropped.
fn commit_once<N: Naming, R: Wait, A: Asking<N>>(
    rt: &R,
    proxy: &SharedProxy<'_, N>,
    sequencer: &Sequencer<'_, N>,
    asking: &A,
    batch: Batch,
) -> Result<NotedFinished<N>, Refused>
    ensures holds { IfOk result (λ noted.
        HoldsBatch proxy.now noted.finished.row noted.records batch) }
    ensures refused { IfErr result (WasNotCommitted N.cells proxy.now batch) }
{
    match proxy.commit(rt, sequencer, asking, batch) {
        Ok((noted, _guard)) => Ok(noted),
        Err(fault) => Err(Refused::by(&fault)),
    }
}

/// Begins the record of the ticket, and goes on.
fn begin<N: Naming, R: Wait, A: Asking<N>>(
    rt: &R,
    proxy: &SharedProxy<'_, N>,
    asking: &A,
    ticket: Ticket<N>,
) -> Result<NotedFinished<N>, Refused>
    ensures answer { IfOk result (λ noted.
        (noted.finished.row ≡ ticket.row) × (noted.records ≡ ticket.records)) }
    ensures refused { (batch : List AdmittedTransaction)
        → HoldsBatch proxy.now ticket.row ticket.records batch
        → IfErr result (WasNotCommitted N.cells proxy.now batch) }
{
    let begun = begin_record(rt, proxy, ticket)?;
    resolve(rt, proxy, asking, begun)
}

/// Begins the record of the ticket, and lets the proxy go.
fn begin_record<N: Naming, R: Wait>(
    rt: &R,
    proxy: &SharedProxy<'_, N>,
    ticket: Ticket<N>,
) -> Result<Begun<N>, Refused>
    ensures row { IfOk result (λ begun. begun.row ≡ ticket.row) }
    ensures records { IfOk result (λ begun. begun.records ≡ ticket.records) }
    ensures refused { (batch : List AdmittedTransaction)
        → HoldsBatch proxy.now ticket.row ticket.records batch
        → IfErr result (WasNotCommitted N.cells proxy.now batch) }
{
    // (its contract says what the type keeps of the ticket)
    let _row = ticket.row();
    match proxy.lock(rt).begin(ticket) {
        Ok(begun) => Ok(begun),
        Err((refusal, _ticket)) => Err(Refused::ByCluster(refusal)),
    }
}

/// Asks all resolvers for the record, and finishes it.
fn resolve<N: Naming, R: Wait, A: Asking<N>>(
    rt: &R,
    proxy: &SharedProxy<'_, N>,
    asking: &A,
    begun: Begun<N>,
) -> Result<NotedFinished<N>, Refused>
    ensures answer { IfOk result (λ noted.
        (noted.finished.row ≡ begun.row) × (noted.records ≡ begun.records)) }
    ensures refused { (batch : List AdmittedTransaction)
        → HoldsBatch proxy.now begun.row begun.records batch
        → IfErr result (WasNotCommitted N.cells proxy.now batch) }
{
    // (its contract says what the type keeps of the requests)
    let _row = begun.row();
    match proxy.resolve_all(rt, asking, begun) {
        Ok(ready) => finish(rt, proxy, ready),
        Err((refusal, _begun)) => Err(Refused::ByCluster(refusal)),
    }
}

/// Finishes the record.
fn finish<N: Naming, R: Wait>(
    rt: &R,
    proxy: &SharedProxy<'_, N>,
    ready: Ready<N>,
) -> Result<NotedFinished<N>, Refused>
    ensures answer { IfOk result (λ noted.
        (noted.finished.row ≡ ready.row) × (noted.records ≡ ready.records)) }
    ensures refused { (batch : List AdmittedTransaction)
        → HoldsBatch proxy.now ready.row ready.records batch
        → IfErr result (WasNotCommitted N.cells proxy.now batch) }
{
    // (its contract says what the type keeps of the replies)
    let _row = ready.row();
    match proxy.lock(rt).finish(ready) {
        Ok(noted) => Ok(noted),
        Err((refusal, _ready)) => Err(Refused::ByCluster(refusal)),
    }
}
