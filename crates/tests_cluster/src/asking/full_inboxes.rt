//! The test of an inbox that is full.

use crate::asking::doors::{DoorCounts, PATIENCE};
use crate::asking::stories::{Talk, Trial, tell};
use crate::asking::sums::{NOBODY, Sum};
use agreed_ledger::Naming;
use inboxes::Channels;
use locked_cluster::SharedProxy;
use std::alloc::Global;
use std::process::Abort;
use std::sync::Wait;
use std::sync::atomic::Ordering;
use std::test::Fail;
use std::thread::{Threads, join};
use std::time::Clock;
use testing_cluster::{Cluster, blank, commit_empty, reaches};
use workers::ProxyInboxes;

/// How often the proxy closes all resolvers.
const CLOSINGS: usize = 70;

/// Once all three workers have entered their gates, closes all resolvers so often, and commits.
fn close_and_commit<N: Naming, M: Channels, R: Clock + Wait>(
    rt: &R,
    alloc: Global,
    cluster: &Cluster<'_, N>,
    side: &ProxyInboxes<N, M>,
    proxy: &SharedProxy<'_, N>,
    counts: &DoorCounts,
) -> Result<u64, u32> {
    if !reaches(rt, &counts.entered, 3, PATIENCE) {
        return Err(0);
    }
    for _closing in 0..CLOSINGS {
        side.close(rt);
        let _ = counts.closings.fetch_add(1, Ordering::SeqCst);
    }
    commit_empty(rt, alloc, cluster, side, proxy)
}

/// Proxy 0 commits. The worker of resolver 0 stands in its gate with its request while proxy 1 fills
/// the inbox.
pub(crate) fn close_often<
    N: Naming + Send + Sync,
    M: Channels + Send + Sync,
    R: Abort + Clock + Threads + Wait + Sync,
>(
    rt: &R,
    alloc: Global,
    cluster: &Cluster<'_, N>,
    sides: &[ProxyInboxes<N, M>],
    counts: &DoorCounts,
) -> Result<(), Fail> {
    let [side, other] = sides else {
        return Err(Fail::from("there are not two proxies"));
    };
    let (zero, one) = (cluster.proxy(0)?, cluster.proxy(1)?);
    let told = join(
        rt,
        || commit_empty(rt, alloc, cluster, side, zero),
        || close_and_commit(rt, alloc, cluster, other, one, counts),
    );
    assert!(rt; told == (Ok(10), Err(60)));
    Ok(())
}

const FULL: Trial = Trial {
    talk: Talk::Full,
    messages: [2, 72],
    rows: 1,
    entered: 3,
    sum: Sum {
        with_rows: 3,
        closed: 3,
        pairs: 6,
        ..NOBODY
    },
};

#[test]
fn a_thread_that_sends_to_a_full_inbox_waits(rt: HostRuntime) -> Result<(), Fail> {
    let alloc = rt.alloc();
    tell(&rt, alloc, blank(alloc, 2, 2, 3)?, &FULL)
}
