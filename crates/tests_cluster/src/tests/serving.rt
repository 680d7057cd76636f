//! Starting workers and proxies in threads of their own, for tests with inboxes.

use crate::tests::commits::commit_once;
use crate::tests::starting::Cluster;
use crate::tests::summing::Called;
use agreed_ledger::Naming;
use inboxes::Channels;
use locked_cluster::CommitFault;
use mutation::Batch;
use std::alloc::Global;
use std::sync::Wait;
use std::thread;
use std::thread::{Scope, Threads};
use workers::ProxyInboxes;

/// What the threads of a test do: `E` is what the worker of a resolver gets, and `S` what a proxy gets.
pub(crate) trait Parts<E, S> {
    /// Serves the inbox of a resolver.
    fn work<R: AllocGlobal + Wait>(&self, rt: &R, alloc: Global, end: E);

    /// Commits by a proxy.
    fn commit<R: AllocGlobal + Wait>(&self, rt: &R, alloc: Global, side: &S);

    /// Ends a proxy.
    fn end<R: AllocGlobal + Wait>(&self, rt: &R, side: S);
}

/// Runs a thread for each worker, and one for each proxy, and then ends the proxies. Returns when all
/// threads have ended: whether each was started.
pub(crate) fn serve<
    E: Send + Drop,
    S: Sync + Drop,
    P: Parts<E, S> + Sync,
    R: AllocGlobal + Threads + Wait + Sync,
>(rt: &R, alloc: Global, parts: &P, ends: Vec<E>, sides: Vec<S>) -> bool {
    thread::scope(thread::scope_env(), rt, |scope| {
        let served = start_workers(scope, rt, alloc, parts, ends);
        let committed = commit_in_threads(rt, alloc, parts, sides.as_slice());
        for side in sides {
            parts.end(rt, side);
        }
        served && committed
    })
}

/// Starts a thread for each worker, and returns whether each was started. The end of one that cannot
/// be started is dropped.
fn start_workers<
    's,
    X,
    E: Send + Drop + 's,
    S: 's,
    P: Parts<E, S> + Sync,
    R: AllocGlobal + Threads + Wait + Sync,
>(scope: &'s Scope<'s, X>, rt: &'s R, alloc: Global, parts: &'s P, ends: Vec<E>) -> bool {
    let mut all = true;
    for end in ends {
        let started = scope.spawn(move || parts.work(rt, alloc, end));
        all = all && started.is_ok();
    }
    all
}

/// Runs a thread for each proxy. Returns when these have ended: whether each was started.
fn commit_in_threads<E, S: Sync, P: Parts<E, S> + Sync, R: AllocGlobal + Threads + Wait + Sync>(
    rt: &R,
    alloc: Global,
    parts: &P,
    sides: &[S],
) -> bool {
    thread::scope(thread::scope_env(), rt, |scope| {
        start_proxies(scope, rt, alloc, parts, sides)
    })
}

fn start_proxies<
    's,
    X,
    E: 's,
    S: Sync + 's,
    P: Parts<E, S> + Sync,
    R: AllocGlobal + Threads + Wait + Sync,
>(scope: &'s Scope<'s, X>, rt: &'s R, alloc: Global, parts: &'s P, sides: &'s [S]) -> bool {
    let mut all = true;
    for side in sides {
        let started = scope.spawn(move || parts.commit(rt, alloc, side));
        all = all && started.is_ok();
    }
    all
}

/// The number of the refusal of a closed resolver.
pub(crate) const CLOSED: u32 = 60;

/// Commits a batch, and returns its version, or the number of the refusal. If it is refused
/// otherwise than by a closed resolver, closes all resolvers: nobody waits for the row then.
pub(crate) fn commit_or_close<N: Naming, M: Channels, R: AllocGlobal + Wait>(
    rt: &R,
    cluster: &Cluster<'_, N>,
    side: &ProxyInboxes<N, M>,
    batch: Batch,
) -> Called {
    let committed = commit(rt, cluster, side, batch);
    match committed {
        Ok(_) | Err(CLOSED) => {}
        Err(_) => {
            side.close(rt);
        }
    }
    committed
}

/// Commits a batch, and returns its version, or the number of the refusal.
fn commit<N: Naming, M: Channels, R: AllocGlobal + Wait>(
    rt: &R,
    cluster: &Cluster<'_, N>,
    side: &ProxyInboxes<N, M>,
    batch: Batch,
) -> Called {
    let Some(proxy) = cluster.proxy(side.proxy()) else {
        return Err(32);
    };
    match commit_once(rt, cluster, side, proxy, batch) {
        Ok(((version, _), ..)) => Ok(version),
        Err(fault) => Err(number(&fault)),
    }
}

/// The number of the refusal, 0 for `OutOfMemory`.
fn number<N: Naming>(fault: &CommitFault<N>) -> u32 {
    let number = match fault {
        CommitFault::Sequencing { refusal, .. } => refusal.number(),
        CommitFault::Beginning { refusal, .. }
        | CommitFault::Resolving { refusal, .. }
        | CommitFault::Finishing { refusal, .. } => refusal.number(),
    };
    number.unwrap_or(0)
}
