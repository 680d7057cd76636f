//! A run: workers in threads of their own, and proxies that do what a trial says.

use crate::asking::doors::DoorCounts;
use crate::asking::full_inboxes::close_often;
use crate::asking::one_proxy::{ask_again_later, ask_together, close_meanwhile};
use crate::asking::serving::{Works, serve};
use crate::asking::stories::{Talk, Trial};
use crate::asking::sums::{Left, Sum, sum_up};
use agreed_ledger::Naming;
use inboxes::{Channels, FreshEnd, ProxySenders};
use std::alloc::Global;
use std::process::Abort;
use std::sync::Wait;
use std::test::Fail;
use std::thread::{Threads, join};
use std::time::Clock;
use testing::room;
use testing_cluster::Cluster;
use workers::{Gate, PendingRequest, ProxyInboxes, ResolverWorker};

/// A worker for each resolver, with a gate, and what is left of workers.
#[derive(Drop)]
struct Run<'a, 'l, N: Naming, M: Channels, G: Gate + Drop> {
    cluster: &'a Cluster<'l, N>,
    gate: G,
    left: &'a Left<N, M, G>,
}

impl<'a, 'l, N: Naming, M: Channels, G: Gate + Copy + Drop> Works<FreshEnd<N, PendingRequest<N>, M>>
    for Run<'a, 'l, N, M, G> {
    fn work<R: Wait>(&self, rt: &R, alloc: Global, end: FreshEnd<N, PendingRequest<N>, M>) {
        let Some(resolver) = self.cluster.resolvers.as_slice().get(end.resolver()) else {
            return;
        };
        if let Ok(worker) = ResolverWorker::new(alloc, resolver, end, self.gate) {
            let ended = worker.run(rt);
            let _ = self.left.workers.lock(rt).push(ended);
        }
    }
}

/// The ends of all inboxes: those of the workers, and those of the proxies.
#[derive(Drop)]
pub(crate) struct Inboxes<N: Naming, M: Channels> {
    pub(crate) ends: Vec<FreshEnd<N, PendingRequest<N>, M>>,
    pub(crate) sides: Vec<ProxyInboxes<N, M>>,
}

/// What the proxies do.
fn converse<
    N: Naming + Send + Sync,
    M: Channels + Send + Sync,
    R: Abort + Clock + Threads + Wait + Sync,
>(
    rt: &R,
    alloc: Global,
    cluster: &Cluster<'_, N>,
    sides: &[ProxyInboxes<N, M>],
    talk: Talk,
    counts: &DoorCounts,
) -> Result<(), Fail> {
    let Some(side) = sides.first() else {
        return Err(Fail::from("there is no proxy"));
    };
    match talk {
        Talk::Together => ask_together(rt, alloc, cluster, side),
        Talk::ClosedMeanwhile => close_meanwhile(rt, alloc, cluster, side),
        Talk::Stale => ask_again_later(rt, alloc, cluster, side),
        Talk::Full => close_often(rt, alloc, cluster, sides, counts),
    }
}

/// Does what the proxies do, and then ends these. Leaves their sending ends.
fn converse_and_end<
    N: Naming + Send + Sync,
    M: Channels + Send + Sync,
    G: Gate + Copy + Drop,
    R: Abort + Clock + Threads + Wait + Sync,
>(
    rt: &R,
    alloc: Global,
    cluster: &Cluster<'_, N>,
    sides: Vec<ProxyInboxes<N, M>>,
    talk: Talk,
    counts: &DoorCounts,
    left: &Left<N, M, G>,
) -> Result<(), Fail> {
    let told = converse(rt, alloc, cluster, sides.as_slice(), talk, counts);
    for side in sides {
        for sender in side.end(rt) {
            let _ = left.senders.lock(rt).push(sender);
        }
    }
    told
}

/// The inboxes of each proxy.
pub(crate) fn sides<N: Naming, M: Channels>(
    alloc: Global,
    cluster: &Cluster<'_, N>,
    senders: Vec<ProxySenders<N, PendingRequest<N>, M>>,
) -> Result<Vec<ProxyInboxes<N, M>>, Fail> {
    let mut made = room(alloc, senders.len())?;
    for one in senders {
        made.push(ProxyInboxes::new(cluster.ledger, one))?;
    }
    Ok(made)
}

/// Runs the workers while the proxies do what the trial says, and sums up what is left.
pub(crate) fn sum_of_run<
    N: Naming + Send + Sync,
    M: Channels + Send + Sync,
    G: Gate + Copy + Drop + Send + Sync,
    R: Abort + Clock + Threads + Wait + Sync,
>(
    rt: &R,
    alloc: Global,
    cluster: &Cluster<'_, N>,
    inboxes: Inboxes<N, M>,
    trial: &Trial,
    counts: &DoorCounts,
    gate: G,
) -> Result<Sum, Fail> {
    let left = Left::new(alloc)?;
    let run = Run {
        cluster,
        gate,
        left: &left,
    };
    let Inboxes { ends, sides } = inboxes;
    let ((), told) = join(
        rt,
        || serve(rt, alloc, &run, ends),
        || converse_and_end(rt, alloc, cluster, sides, trial.talk, counts, &left),
    );
    told?;
    Ok(sum_up(left, trial))
}
