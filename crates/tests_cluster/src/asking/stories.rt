//! A new cluster, its inboxes, and what a test does with them.

ghost use Rattle.std.specs.Prelude.{◌≡◌};

use crate::asking::doors::{Door, DoorCounts};
use crate::asking::runs::{Inboxes, sides, sum_of_run};
use crate::asking::sums::Sum;
use agreed_ledger::{BlankLedger, Naming};
use inboxes::{BlankInboxes, Channels, InboxRoom};
use std::alloc::Global;
use std::marker::Brand;
use std::process::Abort;
use std::sync::Wait;
use std::sync::atomic::{AtomicU64, Ordering};
use std::test::Fail;
use std::thread::{Threads, join};
use std::time::Clock;
use testing_cluster::{Cluster, ends_in_time};
use workers::PendingRequest;

/// What the proxies do.
#[derive(Clone, Copy)]
pub(crate) enum Talk {
    /// Two threads ask by one proxy, the later row first.
    Together,
    /// One thread asks, and another closes by the same proxy.
    ClosedMeanwhile,
    /// A request comes again after its reply was acknowledged.
    Stale,
    /// A proxy closes more often than an inbox has room, while a worker stands in its gate.
    Full,
}

/// What the proxies do, and what is left then.
#[derive(Clone, Copy)]
pub(crate) struct Trial {
    pub(crate) talk: Talk,
    /// How many messages each proxy has sent to each worker.
    pub(crate) messages: [u64; 2],
    /// How many rows each worker has.
    pub(crate) rows: usize,
    /// How often the gates were entered.
    pub(crate) entered: u64,
    pub(crate) sum: Sum,
}

/// Tries a new cluster over the ledger, in half a minute at most.
pub(crate) fn tell<R: Abort + Clock + Threads + Wait + Sync>(
    rt: &R,
    alloc: Global,
    blank: BlankLedger,
    trial: &Trial,
) -> Result<(), Fail> {
    tell_over::<Brand, _>(rt, alloc, blank, trial)
}

/// Names the ledger, makes the cluster, and tries it.
fn tell_over<N: Naming + Send + Sync, R: Abort + Clock + Threads + Wait + Sync>(
    rt: &R,
    alloc: Global,
    blank: BlankLedger,
    trial: &Trial,
) -> Result<(), Fail>
    requires { blank ≡ N.cells }
{
    let ledger = blank.named::<N>();
    let cluster = Cluster::new(alloc, &ledger)?;
    let done = AtomicU64::new(0);
    let ((), told) = join(
        rt,
        || {
            assert!(rt; ends_in_time(rt, &done), "threads wait for one another");
        },
        || {
            let told = make_inboxes(rt, alloc, &cluster, trial);
            done.store(1, Ordering::SeqCst);
            told
        },
    );
    told
}

/// Makes the inboxes of the cluster, and tries them.
fn make_inboxes<N: Naming + Send + Sync, R: Abort + Clock + Threads + Wait + Sync>(
    rt: &R,
    alloc: Global,
    cluster: &Cluster<'_, N>,
    trial: &Trial,
) -> Result<(), Fail> {
    let blank = BlankInboxes::new(alloc, cluster.ledger)?;
    try_out::<N, Brand, _>(rt, alloc, cluster, blank, trial)
}

/// Names the inboxes, and runs the trial, which leaves what it is to leave.
fn try_out<
    N: Naming + Send + Sync,
    M: Channels + Send + Sync,
    R: Abort + Clock + Threads + Wait + Sync,
>(
    rt: &R,
    alloc: Global,
    cluster: &Cluster<'_, N>,
    blank: BlankInboxes<N, PendingRequest<N>>,
    trial: &Trial,
) -> Result<(), Fail>
    requires { blank ≡ M.places }
{
    let room = InboxRoom::new(alloc, cluster.ledger)?;
    let (senders, ends) = blank.named::<M>(room);
    let sides = sides(alloc, cluster, senders)?;
    let counts = DoorCounts::new();
    let door = Door {
        clock: rt,
        holds: matches!(trial.talk, Talk::Full),
        counts: &counts,
    };
    let inboxes = Inboxes { ends, sides };
    let sum = sum_of_run(rt, alloc, cluster, inboxes, trial, &counts, &door)?;
    let entered = counts.entered.load(Ordering::SeqCst);
    let missed = counts.missed.load(Ordering::SeqCst);
    assert!(rt; (sum == trial.sum, entered, missed) == (true, trial.entered, 0));
    Ok(())
}
