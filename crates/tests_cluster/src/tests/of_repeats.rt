//! The test of a repeat: requests that are asked again through inboxes get the same replies.

use crate::tests::of_refusals::{BEGIN_ONE, ONE};
use crate::tests::of_workers::sum_of_run;
use crate::tests::starting::{Cluster, Inboxes, blank, requests, rows_after};
use crate::tests::stories::{InboxStory, Story, tell};
use crate::tests::summing::Plan;
use agreed_ledger::Naming;
use inboxes::Channels;
use std::alloc::Global;
use std::process::Abort;
use std::sync::Wait;
use std::test::Fail;
use std::thread::Threads;
use workers::Open;

/// A proxy that asks twice, and commits nothing.
const NOTHING_ELSE: Plan = Plan {
    closes: 0,
    batches: 0,
    own: 0,
    messages: 3,
    rows: 1,
};

/// The requests of one record are asked twice.
pub(crate) fn repeat<
    N: Naming + Send + Sync,
    M: Channels + Send + Sync,
    R: Abort + AllocGlobal + Threads + Wait + Sync,
>(rt: &R, alloc: Global, cluster: &Cluster<'_, N>, inboxes: Inboxes<N, M>) -> Result<(), Fail> {
    let rows = rows_after(rt, alloc, cluster, ONE, BEGIN_ONE)?;
    let requests = requests(rows.as_slice(), 0);
    let sum = sum_of_run(rt, alloc, cluster, inboxes, &NOTHING_ELSE, requests, Open)?;
    assert!(rt; (sum.answered, sum.pairs) == (2, 2));
    Ok(())
}

#[test]
fn requests_that_are_asked_again_of_threads_get_the_same_replies(
    rt: HostRuntime,
) -> Result<(), Fail> {
    let alloc = rt.alloc();
    tell(
        &rt,
        alloc,
        blank(alloc, 1, 1, 2)?,
        &[0, 1],
        &Story::OfInboxes(InboxStory::Repeated),
    )
}
