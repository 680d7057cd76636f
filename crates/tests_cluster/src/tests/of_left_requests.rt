//! The test of a request that a worker still holds back when each proxy has ended: nobody answers it any more,
//! so the resolver is closed.

use crate::tests::of_refusals::{BEGIN_TWO, TWO};
use crate::tests::of_workers::sum_of_run;
use crate::tests::starting::{Cluster, Inboxes, blank, requests, rows_after};
use crate::tests::stories::{InboxStory, Story, tell};
use crate::tests::summing::{NOBODY, Plan, Summary};
use agreed_ledger::Naming;
use inboxes::Channels;
use std::alloc::Global;
use std::process::Abort;
use std::sync::Wait;
use std::test::Fail;
use std::thread::Threads;
use workers::Open;

/// A proxy that asks, and commits nothing.
const ONLY_ASKS: Plan = Plan {
    closes: 0,
    batches: 0,
    own: 0,
    messages: 2,
    rows: 0,
};

/// Its call is refused, since the worker of resolver 0 never runs. Resolver 1 is closed by its worker, which
/// nobody told to close.
const LEFT: Summary = Summary {
    workers: 1,
    with_rows: 1,
    closed_resolvers: 1,
    pairs: 1,
    others: 1,
    refused: 1,
    ..NOBODY
};

/// The requests of record 1 are asked, and those of record 0 never are.
pub(crate) fn leave_held<
    N: Naming + Send + Sync,
    M: Channels + Send + Sync,
    R: Abort + AllocGlobal + Threads + Wait + Sync,
>(rt: &R, alloc: Global, cluster: &Cluster<'_, N>, inboxes: Inboxes<N, M>) -> Result<(), Fail> {
    let rows = rows_after(rt, alloc, cluster, TWO, BEGIN_TWO)?;
    let mut inboxes = inboxes;
    inboxes.ends.reverse();
    drop(inboxes.ends.pop());
    let requests = requests(rows.as_slice(), 1);
    let sum = sum_of_run(rt, alloc, cluster, inboxes, &ONLY_ASKS, requests, Open)?;
    assert!(rt; sum == LEFT);
    Ok(())
}

#[test]
fn a_request_that_threads_leave_held_back_closes_its_resolver(rt: HostRuntime) -> Result<(), Fail> {
    let alloc = rt.alloc();
    tell(
        &rt,
        alloc,
        blank(alloc, 2, 1, 2)?,
        &[0, 1],
        &Story::OfInboxes(InboxStory::LeftHeld),
    )
}
