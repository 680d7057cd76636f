//! What the tests do with a new cluster.

ghost use Rattle.std.specs.Prelude.{◌≡◌};

use crate::sharing::committing::{Work, commit_by_three, commit_while_held};
use crate::sharing::judging::{ask_again_later, close_after_row_0, take_a_cell};
use crate::sharing::long_columns::fill_a_column;
use agreed_ledger::{BlankLedger, Naming};
use std::alloc::Global;
use std::marker::Brand;
use std::process::Abort;
use std::sync::Wait;
use std::sync::atomic::{AtomicU64, Ordering};
use std::test::Fail;
use std::thread::{Threads, join};
use std::time::Clock;
use testing_cluster::{Cluster, ends_in_time};

/// What a test does with a new cluster.
#[derive(Clone, Copy)]
pub(crate) enum Story {
    /// Three threads commit.
    ByThree(Work),
    /// A thread commits while another has the proxy locked.
    Held,
    /// A resolver is closed after it has judged a row.
    ClosedLater,
    /// A cell is taken while a thread waits.
    Taken,
    /// A request comes again after its reply was acknowledged.
    Stale,
    /// A column gets many rows.
    LongColumn,
}

/// Tells the story of a new cluster over the ledger, in half a minute at most.
pub(crate) fn tell<R: Abort + Clock + Threads + Wait + Sync>(
    rt: &R,
    alloc: Global,
    blank: BlankLedger,
    story: Story,
) -> Result<(), Fail> {
    tell_over::<Brand, _>(rt, alloc, blank, story)
}

/// Names the ledger, makes the cluster, and tells the story.
fn tell_over<N: Naming + Send + Sync, R: Abort + Clock + Threads + Wait + Sync>(
    rt: &R,
    alloc: Global,
    blank: BlankLedger,
    story: Story,
) -> Result<(), Fail>
    requires { blank ≡ N.cells }
{
    let ledger = blank.named::<N>();
    let cluster = Cluster::new(alloc, &ledger)?;
    let done = AtomicU64::new(0);
    let ((), told) = join(
        rt,
        || {
            assert!(rt; ends_in_time(rt, &done), "threads wait for one another");
        },
        || {
            let told = tell_of(rt, alloc, &cluster, story);
            done.store(1, Ordering::SeqCst);
            told
        },
    );
    told
}

/// Tells the story of the cluster.
fn tell_of<N: Naming + Send + Sync, R: Abort + Clock + Threads + Wait + Sync>(
    rt: &R,
    alloc: Global,
    cluster: &Cluster<'_, N>,
    story: Story,
) -> Result<(), Fail> {
    match story {
        Story::ByThree(work) => commit_by_three(rt, alloc, cluster, work),
        Story::Held => commit_while_held(rt, alloc, cluster),
        Story::ClosedLater => close_after_row_0(rt, alloc, cluster),
        Story::Taken => take_a_cell(rt, alloc, cluster),
        Story::Stale => ask_again_later(rt, alloc, cluster),
        Story::LongColumn => fill_a_column(rt, alloc, cluster.ledger),
    }
}
