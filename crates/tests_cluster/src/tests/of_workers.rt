//! Runs with several proxies and workers in threads, and tests of them.

use crate::tests::of_threads::{OF_EACH, own_batch};
use crate::tests::serving::{Parts, commit_or_close, serve};
use crate::tests::starting::{Cluster, Inboxes, blank};
use crate::tests::stories::{InboxStory, Story, tell};
use crate::tests::summing::{Called, Left, NOBODY, Plan, Summary, summed_up};
use agreed_ledger::Naming;
use inboxes::{Channels, FreshEnd};
use locked_cluster::{NotedReply, Refusal, Request, SharedResolver};
use model::Reply;
use mutation::Batch;
use std::alloc::Global;
use std::process::Abort;
use std::sync::Wait;
use std::test::Fail;
use std::thread::Threads;
use system_keys::OutOfMemory;
use workers::{Gate, Open, PendingRequest, ProxyInboxes, ResolverWorker};

/// A worker for each resolver, with a gate, and proxies that follow a plan. Each proxy asks the
/// requests twice, if there are any.
#[derive(Drop)]
struct Planned<'a, 'l, N: Naming, M: Channels, G: Gate + Drop> {
    cluster: &'a Cluster<'l, N>,
    plan: &'a Plan,
    own: &'a [Batch],
    asked: &'a [Request<N>],
    gate: G,
    left: &'a Left<N, M, G>,
}

impl<'a, 'l, N: Naming, M: Channels, G: Gate + Copy + Drop> Parts<
    FreshEnd<N, PendingRequest<N>, M>,
    ProxyInboxes<N, M>,
> for Planned<'a, 'l, N, M, G> {
    fn work<R: AllocGlobal + Wait>(
        &self,
        rt: &R,
        alloc: Global,
        end: FreshEnd<N, PendingRequest<N>, M>,
    ) {
        let Some(resolver) = self.cluster.resolvers().get(end.resolver()) else {
            return;
        };
        if let Ok(worker) = ResolverWorker::new(alloc, resolver, end, self.gate) {
            let ended = worker.run(rt);
            let _ = self.left.workers.lock(rt).push(ended);
        }
    }

    fn commit<R: AllocGlobal + Wait>(&self, rt: &R, alloc: Global, side: &ProxyInboxes<N, M>) {
        for _close in 0..self.plan.closes {
            side.close(rt);
        }
        if !self.asked.is_empty() {
            let replied = ask_twice(rt, alloc, self.asked, side);
            let _ = self.left.calls.lock(rt).push(replied);
        }
        self.commit_batches(rt, alloc, side);
    }

    fn end<R: AllocGlobal + Wait>(&self, rt: &R, side: ProxyInboxes<N, M>) {
        for sender in side.end(rt) {
            let _ = self.left.senders.lock(rt).push(sender);
        }
    }
}

impl<'a, 'l, N: Naming, M: Channels, G: Gate + Copy + Drop> Planned<'a, 'l, N, M, G> {
    fn commit_batches<R: AllocGlobal + Wait>(
        &self,
        rt: &R,
        alloc: Global,
        side: &ProxyInboxes<N, M>,
    ) {
        for place in 0..self.plan.batches {
            let committed = match self.batch(alloc, side.proxy(), place) {
                Some(batch) => commit_or_close(rt, self.cluster, side, batch),
                None => Err(0),
            };
            let _ = self.left.calls.lock(rt).push(committed);
        }
    }

    /// The batch of a proxy at this place: a copy of one of its own, or an empty one.
    fn batch(&self, alloc: Global, proxy: usize, place: usize) -> Option<Batch> {
        let number = self.plan.own.saturating_mul(proxy).saturating_add(place);
        match self.own.get(number) {
            Some(batch) if place < self.plan.own => batch.copy().ok(),
            _ => Batch::new(Vec::new(alloc)).ok(),
        }
    }
}

/// How many of the requests get the same replies if they are asked again, or the number of the
/// refusal.
fn ask_twice<N: Naming, M: Channels, R: AllocGlobal + Wait>(
    rt: &R,
    alloc: Global,
    requests: &[Request<N>],
    side: &ProxyInboxes<N, M>,
) -> Called {
    match count_repeated_replies(rt, alloc, requests, side) {
        Ok(count) => Ok(count),
        Err(refusal) => Err(refusal.number().unwrap_or(0)),
    }
}

fn count_repeated_replies<N: Naming, M: Channels, R: AllocGlobal + Wait>(
    rt: &R,
    alloc: Global,
    requests: &[Request<N>],
    side: &ProxyInboxes<N, M>,
) -> Result<u64, Refusal> {
    let first = side.ask(rt, alloc, requests)?;
    let again = side.ask(rt, alloc, requests)?;
    Ok(count_alike_replies(first.as_slice(), again.as_slice()))
}

fn count_alike_replies<N: Naming>(first: &[NotedReply<N>], again: &[NotedReply<N>]) -> u64 {
    let mut count = 0_u64;
    for (one, other) in first.iter().zip(again) {
        count = count.saturating_add(u64::from(are_alike(one.value(), other.value())));
    }
    count
}

/// Whether these are replies of one resolver to the record at version 10, with the same verdicts, as
/// many as transactions touch the resolver.
fn are_alike(one: &Reply, other: &Reply) -> bool {
    one.resolver == other.resolver
        && one.version == 10
        && other.version == 10
        && one.verdicts.as_slice().len() == usize::from(one.resolver == 0)
        && one.verdicts.as_slice() == other.verdicts.as_slice()
}

/// The own batches of three proxies, the given number of each.
fn own_batches(alloc: Global, of_each: usize) -> Result<Vec<Batch>, Fail> {
    let mut batches = Vec::new(alloc);
    for number in 0..of_each.saturating_mul(3) {
        batches.push(own_batch(alloc, number)?)?;
    }
    Ok(batches)
}

/// Runs the threads, and sums up what is left of them. Fails if an allocation failed.
pub(crate) fn sum_of_run<
    N: Naming + Send + Sync,
    M: Channels + Send + Sync,
    G: Gate + Copy + Drop + Send + Sync,
    R: AllocGlobal + Threads + Wait + Sync,
>(
    rt: &R,
    alloc: Global,
    cluster: &Cluster<'_, N>,
    inboxes: Inboxes<N, M>,
    plan: &Plan,
    asked: &[Request<N>],
    gate: G,
) -> Result<Summary, Fail> {
    let left = Left::new(alloc)?;
    let own = own_batches(alloc, plan.own)?;
    let planned = Planned {
        cluster,
        plan,
        own: &own,
        asked,
        gate,
        left: &left,
    };
    let Inboxes { ends, sides } = inboxes;
    let started = serve(rt, alloc, &planned, ends, sides);
    let mut sum = summed_up(left, plan);
    sum.closed_resolvers = count_closed(rt, cluster.resolvers());
    if !started || 0 < sum.wanted_memory {
        return Err(Fail::from(OutOfMemory));
    }
    Ok(sum)
}

/// How many of the resolvers are closed.
fn count_closed<N: Naming, R: AllocGlobal + Wait>(
    rt: &R,
    resolvers: &[SharedResolver<'_, N>],
) -> usize {
    let mut closed = 0_usize;
    for resolver in resolvers {
        let is_closed = resolver.lock(rt).is_closed();
        closed = closed.saturating_add(usize::from(is_closed));
    }
    closed
}

/// A run, and what is wanted of it.
pub(crate) struct Trial {
    plan: Plan,
    /// Whether the worker of the last resolver never runs.
    without_last: bool,
    wanted: Summary,
}

/// Runs the trial, which has the outcome that is wanted.
pub(crate) fn try_out<
    N: Naming + Send + Sync,
    M: Channels + Send + Sync,
    R: Abort + AllocGlobal + Threads + Wait + Sync,
>(
    rt: &R,
    alloc: Global,
    cluster: &Cluster<'_, N>,
    inboxes: Inboxes<N, M>,
    trial: &Trial,
) -> Result<(), Fail> {
    let mut inboxes = inboxes;
    if trial.without_last {
        let _end = inboxes.ends.pop();
    }
    let plan = trial.plan;
    let nothing = Vec::new(alloc);
    let sum = sum_of_run(rt, alloc, cluster, inboxes, &plan, nothing.as_slice(), Open)?;
    assert!(rt; sum == trial.wanted);
    Ok(())
}

/// The story of a trial.
fn of(trial: &'static Trial) -> Story {
    Story::OfInboxes(InboxStory::Planned(trial))
}

/// Three proxies commit nine batches each, of which none gives the keys that another gives, and then an
/// empty one.
const THREE: Trial = Trial {
    plan: Plan {
        closes: 0,
        batches: 10,
        own: OF_EACH,
        messages: 11,
        rows: 30,
    },
    without_last: false,
    wanted: Summary {
        workers: 2,
        with_rows: 2,
        pairs: 6,
        // (versions 10 to 300)
        answered: 4650,
        ..NOBODY
    },
};

#[test]
fn the_threads_of_three_proxies_sent_what_those_of_two_workers_took(
    rt: HostRuntime,
) -> Result<(), Fail> {
    let alloc = rt.alloc();
    tell(&rt, alloc, blank(alloc, 30, 3, 2)?, &[0, 1], &of(&THREE))
}

/// A proxy closes its resolvers more often than an inbox has room for.
const FULL: Trial = Trial {
    plan: Plan {
        closes: 70,
        batches: 1,
        own: 0,
        messages: 72,
        rows: 0,
    },
    without_last: false,
    wanted: Summary {
        workers: 2,
        with_rows: 2,
        closed: 2,
        closed_resolvers: 2,
        pairs: 6,
        refused: 3,
        ..NOBODY
    },
};

#[test]
fn threads_of_closed_resolvers_judge_nothing_and_take_what_overflows(
    rt: HostRuntime,
) -> Result<(), Fail> {
    let alloc = rt.alloc();
    tell(&rt, alloc, blank(alloc, 3, 3, 2)?, &[0, 1], &of(&FULL))
}

/// The worker of the last resolver never runs.
const EARLY: Trial = Trial {
    plan: Plan {
        closes: 0,
        batches: 2,
        own: 0,
        messages: 3,
        rows: 6,
    },
    without_last: true,
    wanted: Summary {
        workers: 1,
        with_rows: 1,
        pairs: 3,
        others: 3,
        refused: 6,
        ..NOBODY
    },
};

#[test]
fn the_threads_of_proxies_are_told_of_a_worker_that_has_gone(rt: HostRuntime) -> Result<(), Fail> {
    let alloc = rt.alloc();
    tell(&rt, alloc, blank(alloc, 6, 3, 2)?, &[0, 1], &of(&EARLY))
}
