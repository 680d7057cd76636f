//! The test of callers that commit.

use crate::calling::asking::SecondTime;
use crate::calling::stories::{Story, tell};
use crate::calling::values::{FIRST, Seen, TAG, WRITE, seen_by};
use agreed_ledger::Naming;
use headline_uses::commit_by_own_inboxes;
use locked_cluster::{Asking, NotedFinished, Refusal};
use mutation::Batch;
use std::alloc::Global;
use std::process::Abort;
use std::sync::Wait;
use std::test::Fail;
use testing::batch;
use testing_cluster::{Cluster, blank, number};
use uses::{Refused, commit_and_resume_once, commit_two, tags_after_journal};

/// Commits both batches of proxy 0.
fn commit_both<N: Naming, A: Asking<N>, R: Wait>(
    rt: &R,
    cluster: &Cluster<'_, N>,
    asking: &A,
    batch: Batch,
    next_batch: Batch,
) -> Result<(Seen, Seen), Refused> {
    let Ok(proxy) = cluster.proxy(0) else {
        return Err(Refused::ByCluster(Refusal::NoSuchProxy));
    };
    let both = commit_two(rt, proxy, &cluster.sequencer, asking, batch, next_batch)?;
    Ok((seen_by(&both.0), seen_by(&both.1)))
}

/// Commits the batch of the proxy.
pub(crate) fn committed<N: Naming, A: Asking<N>, R: Wait>(
    rt: &R,
    cluster: &Cluster<'_, N>,
    asking: &A,
    proxy: usize,
    batch: Batch,
) -> Result<NotedFinished<N>, Refused> {
    let Ok(proxy) = cluster.proxy(proxy) else {
        return Err(Refused::ByCluster(Refusal::NoSuchProxy));
    };
    commit_and_resume_once(rt, proxy, &cluster.sequencer, asking, batch)
}

/// Commits the batch of the proxy, and looks at its answer.
fn commit<N: Naming, A: Asking<N>, R: Wait>(
    rt: &R,
    cluster: &Cluster<'_, N>,
    asking: &A,
    proxy: usize,
    batch: Batch,
) -> Result<Seen, Refused> {
    let noted = committed(rt, cluster, asking, proxy, batch)?;
    Ok(seen_by(&noted))
}

/// Commits the batch of the proxy by a single call, which does not fail with ample memory, and looks at its
/// answer. Otherwise returns the number of the refusal.
fn commit_at_once<N: Naming, A: Asking<N>, R: Wait>(
    rt: &R,
    cluster: &Cluster<'_, N>,
    asking: &A,
    proxy: usize,
    batch: Batch,
) -> Result<Seen, u32> {
    let Ok(proxy) = cluster.proxy(proxy) else {
        return Err(32);
    };
    match commit_by_own_inboxes(rt, proxy, &cluster.sequencer, asking, batch) {
        Ok(noted) => Ok(seen_by(&noted)),
        Err(fault) => Err(number(&fault)),
    }
}

/// Whether the metadata of proxy 2 gives the key of `WRITE` the tag of the first server.
fn is_tagged<N: Naming, R: Wait>(
    rt: &R,
    alloc: Global,
    cluster: &Cluster<'_, N>,
) -> Result<bool, Fail> {
    let tags = tags_after_journal(alloc, cluster.proxy(2)?.lock(rt).journal(), b"k")?;
    Ok(tags.as_slice() == [TAG].as_slice())
}

/// Two batches of one proxy are committed, then one of each other proxy, the first of which goes on from
/// an asking that fails; and one for which the ledger has no row.
pub(crate) fn commit_in_each_way<N: Naming, R: Abort + Wait>(
    rt: &R,
    alloc: Global,
    cluster: &Cluster<'_, N>,
) -> Result<(), Fail> {
    let asking = cluster.asking()?;
    let failing = SecondTime::new(&asking);
    let place = batch(alloc, FIRST)?;
    let both = commit_both(rt, cluster, &asking, place, batch(alloc, WRITE)?);
    assert!(rt; both == Ok(((10, 2, true), (20, 1, true))));
    let gone_on = commit(rt, cluster, &failing, 1, batch(alloc, WRITE)?);
    assert!(rt; gone_on == Ok((30, 1, true)));
    let at_once = commit_at_once(rt, cluster, &asking, 2, batch(alloc, WRITE)?);
    assert!(rt; at_once == Ok((40, 1, true)));
    let full = agreed_ledger::Refusal::LedgerFull { rows: 4 };
    let refused = commit(rt, cluster, &asking, 2, batch(alloc, WRITE)?);
    assert!(rt; refused == Err(Refused::ByLedger(full)));
    assert!(rt; is_tagged(rt, alloc, cluster)?);
    Ok(())
}

#[test]
fn batches_are_committed_in_each_way(rt: HostRuntime) -> Result<(), Fail> {
    let alloc = rt.alloc();
    tell(&rt, alloc, blank(alloc, 4, 3, 3)?, Story::Committing)
}
