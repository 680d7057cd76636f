//! What is left of workers and proxies, summed up.

use crate::asking::stories::Trial;
use agreed_ledger::Naming;
use inboxes::{Channels, Counts, EndedSender};
use std::alloc::Global;
use std::sync::Mutex;
use std::test::Fail;
use testing::room;
use workers::{EndedWorker, Gate, PendingRequest};

/// What is left of the threads of a run: the workers and the sending ends.
#[derive(Drop)]
pub(crate) struct Left<N: Naming, M: Channels, G: Gate + Drop> {
    pub(crate) workers: Mutex<Vec<EndedWorker<N, M, G>>>,
    pub(crate) senders: Mutex<Vec<EndedSender<N, PendingRequest<N>, M>>>,
}

impl<N: Naming, M: Channels, G: Gate + Drop> Left<N, M, G> {
    pub(crate) fn new(alloc: Global) -> Result<Left<N, M, G>, Fail> {
        Ok(Left {
            workers: Mutex::new(room(alloc, 3)?),
            senders: Mutex::new(room(alloc, 6)?),
        })
    }
}

/// What is left of a run, summed up.
#[derive(Clone, Copy, PartialEq)]
pub(crate) struct Sum {
    /// How many workers have ended with the rows that the trial says.
    pub(crate) with_rows: usize,
    /// How many workers were closed.
    pub(crate) closed: usize,
    /// How many workers were cut off or refused memory.
    pub(crate) failed: usize,
    /// How many sending ends have sent to a worker what the trial says, and the worker has taken it.
    pub(crate) pairs: usize,
    /// How many sending ends found their worker gone.
    pub(crate) gone: usize,
}

/// Nobody is left.
pub(crate) const NOBODY: Sum = Sum {
    with_rows: 0,
    closed: 0,
    failed: 0,
    pairs: 0,
    gone: 0,
};

/// Sums up what is left.
pub(crate) fn sum_up<N: Naming, M: Channels, G: Gate + Drop>(
    left: Left<N, M, G>,
    trial: &Trial,
) -> Sum {
    let Left { workers, senders } = left;
    let mut workers = workers.into_inner();
    let mut sum = NOBODY;
    for worker in &workers {
        count_worker(&mut sum, worker, trial.rows);
    }
    for sender in senders.into_inner() {
        count_sender(
            &mut sum,
            workers.as_mut_slice(),
            sender,
            trial.messages.as_slice(),
        );
    }
    sum
}

fn count_worker<N: Naming, M: Channels, G: Gate + Drop>(
    sum: &mut Sum,
    worker: &EndedWorker<N, M, G>,
    rows: usize,
) {
    let has_rows = worker.column().end() == rows;
    let has_failed = worker.cut_off() || worker.wanted_memory();
    sum.with_rows = sum.with_rows.saturating_add(usize::from(has_rows));
    sum.closed = sum.closed.saturating_add(usize::from(worker.closed()));
    sum.failed = sum.failed.saturating_add(usize::from(has_failed));
}

fn count_sender<N: Naming, M: Channels, G: Gate + Drop>(
    sum: &mut Sum,
    workers: &mut [EndedWorker<N, M, G>],
    sender: EndedSender<N, PendingRequest<N>, M>,
    messages: &[u64],
) {
    let sent = messages.get(sender.proxy()).copied();
    sum.gone = sum.gone.saturating_add(usize::from(sender.gone()));
    if let Some(counts) = compare(workers, sender) {
        let is_pair = sent == Some(counts.sent) && sent == Some(counts.taken);
        sum.pairs = sum.pairs.saturating_add(usize::from(is_pair));
    }
}

/// Compares the sender with the worker of its resolver, if there is one.
fn compare<N: Naming, M: Channels, G: Gate + Drop>(
    workers: &mut [EndedWorker<N, M, G>],
    sender: EndedSender<N, PendingRequest<N>, M>,
) -> Option<Counts> {
    let mut sender = sender;
    for worker in workers.iter_mut() {
        match worker.compare(sender) {
            Ok(counts) => return Some(counts),
            Err((_refusal, back)) => sender = back,
        }
    }
    None
}
