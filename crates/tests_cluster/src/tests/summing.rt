//! What is left of the threads of a run, summed up.

use crate::tests::serving::CLOSED;
use agreed_ledger::Naming;
use inboxes::{Channels, Counts, EndedSender};
use std::alloc::Global;
use std::sync::Mutex;
use std::test::Fail;
use testing::room;
use workers::{EndedWorker, Gate, PendingRequest};

/// What each proxy does before it ends, and the outcome that is wanted.
#[derive(Clone, Copy)]
pub(crate) struct Plan {
    /// How often it closes all resolvers.
    pub(crate) closes: usize,
    /// How many batches it then commits.
    pub(crate) batches: usize,
    /// How many of these are its own among the 27 of three proxies. The others are empty.
    pub(crate) own: usize,
    /// How many messages it has sent to each resolver, if that has a worker.
    pub(crate) messages: u64,
    /// How many rows the column of each worker has.
    pub(crate) rows: usize,
}

/// The outcome of a call of a proxy: the version of a commit, or how many replies came twice. Otherwise
/// the number of the refusal, 0 for `OutOfMemory`.
pub(crate) type Called = Result<u64, u32>;

/// What is left of the threads of a run: the workers, the sending ends, and the outcomes of the calls.
#[derive(Drop)]
pub(crate) struct Left<N: Naming, M: Channels, G: Gate + Drop> {
    pub(crate) workers: Mutex<Vec<EndedWorker<N, M, G>>>,
    pub(crate) senders: Mutex<Vec<EndedSender<N, PendingRequest<N>, M>>>,
    pub(crate) calls: Mutex<Vec<Called>>,
}

impl<N: Naming, M: Channels, G: Gate + Drop> Left<N, M, G> {
    pub(crate) fn new(alloc: Global) -> Result<Left<N, M, G>, Fail> {
        Ok(Left {
            workers: Mutex::new(room(alloc, 8)?),
            senders: Mutex::new(room(alloc, 64)?),
            calls: Mutex::new(room(alloc, 64)?),
        })
    }
}

/// What came of a run.
#[derive(Drop, PartialEq)]
pub(crate) struct Summary {
    /// How many workers ended.
    pub(crate) workers: usize,
    /// How many of them have the rows that are wanted.
    pub(crate) with_rows: usize,
    /// How many of them were closed.
    pub(crate) closed: usize,
    /// How many resolvers are closed.
    pub(crate) closed_resolvers: usize,
    /// How many workers and calls were refused memory.
    pub(crate) wanted_memory: usize,
    /// How many sending ends were compared with a worker, with the counts that are wanted.
    pub(crate) pairs: usize,
    /// How many sending ends there are besides.
    pub(crate) others: usize,
    /// The sum of the versions of commits and of the numbers of replies that came twice.
    pub(crate) answered: u64,
    /// How many calls were refused with `Closed`.
    pub(crate) refused: usize,
    /// How many calls were refused otherwise.
    pub(crate) failed: usize,
}

/// A run in which nobody did anything.
pub(crate) const NOBODY: Summary = Summary {
    workers: 0,
    with_rows: 0,
    closed: 0,
    closed_resolvers: 0,
    wanted_memory: 0,
    pairs: 0,
    others: 0,
    answered: 0,
    refused: 0,
    failed: 0,
};

/// Sums up what is left of the threads.
pub(crate) fn summed_up<N: Naming, M: Channels, G: Gate + Drop>(
    left: Left<N, M, G>,
    plan: &Plan,
) -> Summary {
    let Left {
        workers,
        senders,
        calls,
    } = left;
    let mut sum = NOBODY;
    let mut workers = workers.into_inner();
    count_calls(&mut sum, calls.into_inner().as_slice());
    count_workers(&mut sum, workers.as_slice(), plan);
    count_senders(&mut sum, workers.as_mut_slice(), senders.into_inner(), plan);
    sum
}

fn count_calls(sum: &mut Summary, calls: &[Called]) {
    for call in calls {
        match call {
            Ok(value) => sum.answered = sum.answered.saturating_add(*value),
            Err(0) => sum.wanted_memory = sum.wanted_memory.saturating_add(1),
            Err(CLOSED) => sum.refused = sum.refused.saturating_add(1),
            Err(_) => sum.failed = sum.failed.saturating_add(1),
        }
    }
}

fn count_workers<N: Naming, M: Channels, G: Gate + Drop>(
    sum: &mut Summary,
    workers: &[EndedWorker<N, M, G>],
    plan: &Plan,
) {
    sum.workers = workers.len();
    for worker in workers {
        let has_rows = worker.column().end() == plan.rows;
        sum.with_rows = sum.with_rows.saturating_add(usize::from(has_rows));
        sum.closed = sum.closed.saturating_add(usize::from(worker.closed()));
        let wanted_memory = usize::from(worker.wanted_memory());
        sum.wanted_memory = sum.wanted_memory.saturating_add(wanted_memory);
    }
}

/// Counts the sending ends, each of which is compared with the worker of its resolver.
fn count_senders<N: Naming, M: Channels, G: Gate + Drop>(
    sum: &mut Summary,
    workers: &mut [EndedWorker<N, M, G>],
    senders: Vec<EndedSender<N, PendingRequest<N>, M>>,
    plan: &Plan,
) {
    for sender in senders {
        match compare(workers, sender) {
            Some(counts) if counts == plan.counts() => sum.pairs = sum.pairs.saturating_add(1),
            _ => sum.others = sum.others.saturating_add(1),
        }
    }
}

impl Plan {
    /// What the worker of a resolver took of a proxy, and what the proxy sent to it.
    fn counts(&self) -> Counts {
        Counts {
            taken: self.messages,
            sent: self.messages,
        }
    }
}

/// Compares the sender with the worker of its resolver, if there is one.
fn compare<N: Naming, M: Channels, G: Gate + Drop>(
    workers: &mut [EndedWorker<N, M, G>],
    sender: EndedSender<N, PendingRequest<N>, M>,
) -> Option<Counts> {
    let mut sender = sender;
    for worker in workers.iter_mut() {
        match worker.compare(sender) {
            Ok(counts) => return Some(counts),
            Err((_refusal, back)) => sender = back,
        }
    }
    None
}
