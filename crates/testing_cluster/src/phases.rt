//! The phases of a commit, and whole commits of empty batches.

use crate::cluster::Cluster;
use agreed_ledger::{Naming, Ticket};
use locked_cluster::{Asking, Begun, CommitFault, NotedFinished, SharedProxy};
use mutation::Batch;
use std::alloc::Global;
use std::sync::Wait;
use std::test::Fail;
use testing::{TransactionLine, batch};

/// The ticket of a batch of the proxy of this number.
pub fn sequence_batch<N: Naming, R: Wait>(
    rt: &R,
    alloc: Global,
    cluster: &Cluster<'_, N>,
    proxy: usize,
    given: &[TransactionLine<'_>],
) -> Result<Ticket<N>, Fail> {
    let batch = batch(alloc, given)?;
    match cluster.sequencer.lock(rt).sequence(proxy, batch) {
        Ok(ticket) => Ok(ticket),
        Err((refusal, _batch)) => Err(Fail::from(refusal)),
    }
}

/// The requests for the record of a batch, which the proxy of this number begins.
pub fn begin_batch<N: Naming, R: Wait>(
    rt: &R,
    alloc: Global,
    cluster: &Cluster<'_, N>,
    proxy: usize,
    given: &[TransactionLine<'_>],
) -> Result<Begun<N>, Fail> {
    let ticket = sequence_batch(rt, alloc, cluster, proxy, given)?;
    match cluster.proxy(proxy)?.lock(rt).begin(ticket) {
        Ok(begun) => Ok(begun),
        Err((refusal, _ticket)) => Err(Fail::from(refusal)),
    }
}

/// Asks all resolvers in this way for a record that the proxy began, and finishes it.
pub fn finish_record<N: Naming, A: Asking<N>, R: Wait>(
    rt: &R,
    asking: &A,
    proxy: &SharedProxy<'_, N>,
    begun: Begun<N>,
) -> Result<NotedFinished<N>, Fail> {
    let ready = match proxy.resolve_all(rt, asking, begun) {
        Ok(ready) => ready,
        Err((refusal, _begun)) => return Err(Fail::from(refusal)),
    };
    match proxy.lock(rt).finish(ready) {
        Ok(noted) => Ok(noted),
        Err((refusal, _ready)) => Err(Fail::from(refusal)),
    }
}

/// Commits an empty batch by asking in this way. Returns its version, or the number of the refusal,
/// which is 0 for `OutOfMemory`.
pub fn commit_empty<N: Naming, A: Asking<N>, R: Wait>(
    rt: &R,
    alloc: Global,
    cluster: &Cluster<'_, N>,
    asking: &A,
    proxy: &SharedProxy<'_, N>,
) -> Result<u64, u32> {
    let Ok(empty) = Batch::new(Vec::new(alloc)) else {
        return Err(0);
    };
    match proxy.commit(rt, &cluster.sequencer, asking, empty) {
        Ok((noted, _guard)) => Ok(noted.value().version),
        Err(fault) => Err(number(&fault)),
    }
}

/// The number of the refusal, which is 0 for `OutOfMemory`.
pub fn number<N: Naming>(fault: &CommitFault<N>) -> u32 {
    let number = match fault {
        CommitFault::Sequencing { refusal, .. } => refusal.number(),
        CommitFault::Beginning { refusal, .. }
        | CommitFault::Resolving { refusal, .. }
        | CommitFault::Finishing { refusal, .. } => refusal.number(),
    };
    number.unwrap_or(0)
}

/// Closes all resolvers: nobody then waits for a row that is not asked for.
pub fn close_all<N: Naming, R: Wait>(rt: &R, cluster: &Cluster<'_, N>) {
    for resolver in &cluster.resolvers {
        resolver.close(rt);
    }
}
