//! Whole commits, and what a test compares of them.

use crate::tests::phases::{Phase, step_once};
use crate::tests::starting::Cluster;
use agreed_ledger::Naming;
use locked_cluster::{AllResolvers, Asking, CommitFault, SharedProxy};
use model::{Finished, Outcome};
use mutation::Batch;
use std::sync::Wait;
use system_keys::Tag;
use testing::is_memory_refused;

/// What a test compares of a commit: its version and that of the proxy then shown, the outcomes of the
/// first two transactions, how many mutations there are, and the tag of the last one if it has a single
/// tag.
pub(crate) type Seen = ((u64, u64), [Option<Outcome>; 2], usize, Option<Tag>);

/// A commit, or the number of its refusal, which is 0 for `OutOfMemory`.
pub(crate) type Commit = Result<Seen, u32>;

fn seen(finished: &Finished, shown: u64) -> Seen {
    let outcomes = finished.outcomes.as_slice();
    let first = outcomes.first().copied();
    let second = outcomes.get(1).copied();
    let mutations = finished.tagged.as_slice().len();
    let versions = (finished.version, shown);
    (versions, [first, second], mutations, last_tag(finished))
}

fn last_tag(finished: &Finished) -> Option<Tag> {
    match finished.tagged.as_slice().last()?.tags.as_slice() {
        [tag] => Some(*tag),
        _ => None,
    }
}

/// Commits a batch by asking in this way, and lets the proxy go.
pub(crate) fn commit_once<N: Naming, A: Asking<N>, R: AllocGlobal + Wait>(
    rt: &R,
    cluster: &Cluster<'_, N>,
    asking: &A,
    proxy: &SharedProxy<'_, N>,
    batch: Batch,
) -> Result<Seen, CommitFault<N>> {
    match proxy.commit(rt, &cluster.sequencer, asking, batch) {
        Ok((noted, shown)) => Ok(seen(noted.value(), shown.version())),
        Err(fault) => Err(fault),
    }
}

/// Goes through the phases that are left.
fn go_on<N: Naming, R: AllocGlobal + Wait>(
    rt: &R,
    cluster: &Cluster<'_, N>,
    proxy: &SharedProxy<'_, N>,
    left: Phase<N>,
) -> Commit {
    let (_, second) = step_once(rt, cluster, proxy, left);
    let (_, third) = step_once(rt, cluster, proxy, second);
    let (_, last) = step_once(rt, cluster, proxy, third);
    match &last {
        Phase::Finished(noted) => Ok(seen(noted.value(), proxy.lock(rt).version())),
        _ => Err(0),
    }
}

/// Goes on once from what a failure left, which is that of an allocation. With ample memory there is
/// none.
fn go_on_after_fault<N: Naming, A: Asking<N>, R: AllocGlobal + Wait>(
    rt: &R,
    cluster: &Cluster<'_, N>,
    asking: &A,
    proxy: &SharedProxy<'_, N>,
    fault: CommitFault<N>,
) -> Commit {
    let left = match fault {
        CommitFault::Sequencing { refusal, batch } => {
            return sequence_again(rt, cluster, asking, proxy, batch, refusal.number());
        }
        _ if !is_memory_refused(rt.alloc()) => return Err(0),
        CommitFault::Beginning { refusal: _, ticket } => Phase::Sequenced(ticket),
        CommitFault::Resolving { refusal: _, begun } => Phase::Begun(begun),
        CommitFault::Finishing { refusal: _, ready } => Phase::Ready(ready),
    };
    go_on(rt, cluster, proxy, left)
}

/// Commits the batch once more if it was refused with no number.
fn sequence_again<N: Naming, A: Asking<N>, R: AllocGlobal + Wait>(
    rt: &R,
    cluster: &Cluster<'_, N>,
    asking: &A,
    proxy: &SharedProxy<'_, N>,
    batch: Batch,
    refusal: Option<u32>,
) -> Commit {
    match refusal {
        Some(number) => Err(number),
        None if !is_memory_refused(rt.alloc()) => Err(0),
        None => match commit_once(rt, cluster, asking, proxy, batch) {
            Ok(seen) => Ok(seen),
            Err(_fault) => Err(0),
        },
    }
}

fn commit_by<N: Naming, A: Asking<N>, R: AllocGlobal + Wait>(
    rt: &R,
    cluster: &Cluster<'_, N>,
    asking: &A,
    proxy: &SharedProxy<'_, N>,
    batch: Batch,
) -> Commit {
    match commit_once(rt, cluster, asking, proxy, batch) {
        Ok(seen) => Ok(seen),
        Err(fault) => go_on_after_fault(rt, cluster, asking, proxy, fault),
    }
}

/// Commits a batch of the proxy of this number. After a failure goes on once from what it left.
pub(crate) fn commit<N: Naming, R: AllocGlobal + Wait>(
    rt: &R,
    cluster: &Cluster<'_, N>,
    number: usize,
    batch: Batch,
) -> Commit {
    match (
        AllResolvers::new(cluster.resolvers()),
        cluster.proxy(number),
    ) {
        (Ok(asking), Some(proxy)) => commit_by(rt, cluster, &asking, proxy, batch),
        _ => Err(0),
    }
}
