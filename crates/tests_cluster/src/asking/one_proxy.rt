//! Tests of one proxy by which two threads ask workers at once, and of requests that come again.

use crate::asking::doors::LEAVE;
use crate::asking::stories::{Talk, Trial, tell};
use crate::asking::sums::{NOBODY, Sum};
use agreed_ledger::Naming;
use inboxes::Channels;
use locked_cluster::{Begun, Refusal, Request};
use std::alloc::Global;
use std::process::Abort;
use std::sync::Wait;
use std::test::Fail;
use std::thread::{Threads, join};
use std::time::Clock;
use system_keys::OutOfMemory;
use testing::{EMPTY_TRANSACTION, TransactionLine, room};
use testing_cluster::{Cluster, begin_batch, blank, finish_record, pause};
use workers::ProxyInboxes;

/// A batch that writes one key.
const WRITE: &[TransactionLine<'static>] = &[TransactionLine {
    writes: &[(b"k", b"l")],
    ..EMPTY_TRANSACTION
}];

/// What a test compares of replies: the version of the last one, how many there are, and how many
/// verdicts they have.
type Told = Result<(u64, usize, usize), Refusal>;

/// Asks each resolver its request.
fn ask<N: Naming, M: Channels, R: Wait>(
    rt: &R,
    alloc: Global,
    side: &ProxyInboxes<N, M>,
    requests: &[Request<N>],
) -> Told {
    let replies = side.ask(rt, alloc, requests)?;
    let mut version = 0;
    let mut verdicts = 0_usize;
    for noted in &replies {
        let reply = noted.value();
        version = reply.version;
        verdicts = verdicts.saturating_add(reply.verdicts.as_slice().len());
    }
    Ok((version, replies.len(), verdicts))
}

// ---- two threads

/// Leaves another thread the time to ask, and asks.
fn ask_later<N: Naming, M: Channels, R: Clock + Wait>(
    rt: &R,
    alloc: Global,
    side: &ProxyInboxes<N, M>,
    requests: &[Request<N>],
) -> Told {
    pause(rt, LEAVE);
    ask(rt, alloc, side, requests)
}

/// One thread asks for row 1, and then another for row 0.
pub(crate) fn ask_together<
    N: Naming + Send + Sync,
    M: Channels + Send + Sync,
    R: Abort + Clock + Threads + Wait + Sync,
>(rt: &R, alloc: Global, cluster: &Cluster<'_, N>, side: &ProxyInboxes<N, M>) -> Result<(), Fail> {
    let earlier = begin_batch(rt, alloc, cluster, 0, WRITE)?;
    let later = begin_batch(rt, alloc, cluster, 0, WRITE)?;
    let told = join(
        rt,
        || ask(rt, alloc, side, later.requests()),
        || ask_later(rt, alloc, side, earlier.requests()),
    );
    assert!(rt; told == (Ok((20, 2, 1)), Ok((10, 2, 1))));
    Ok(())
}

const TOGETHER: Trial = Trial {
    talk: Talk::Together,
    messages: [3, 0],
    rows: 2,
    entered: 4,
    sum: Sum {
        with_rows: 2,
        pairs: 2,
        ..NOBODY
    },
};

#[test]
fn two_threads_ask_by_one_proxy_the_later_row_first(rt: HostRuntime) -> Result<(), Fail> {
    let alloc = rt.alloc();
    tell(&rt, alloc, blank(alloc, 2, 1, 2)?, &TOGETHER)
}

/// Leaves another thread the time to ask, and closes all resolvers.
fn close_later<N: Naming, M: Channels, R: Clock + Wait>(rt: &R, side: &ProxyInboxes<N, M>) {
    pause(rt, LEAVE);
    side.close(rt);
}

/// One thread asks for row 1, before which nobody asks for row 0, and another closes the resolvers.
pub(crate) fn close_meanwhile<
    N: Naming + Send + Sync,
    M: Channels + Send + Sync,
    R: Abort + Clock + Threads + Wait + Sync,
>(rt: &R, alloc: Global, cluster: &Cluster<'_, N>, side: &ProxyInboxes<N, M>) -> Result<(), Fail> {
    let _earlier = begin_batch(rt, alloc, cluster, 0, WRITE)?;
    let later = begin_batch(rt, alloc, cluster, 0, WRITE)?;
    let (told, ()) = join(
        rt,
        || ask(rt, alloc, side, later.requests()),
        || close_later(rt, side),
    );
    assert!(rt; told == Err(Refusal::Closed));
    Ok(())
}

const CLOSED_MEANWHILE: Trial = Trial {
    talk: Talk::ClosedMeanwhile,
    messages: [3, 0],
    rows: 0,
    entered: 0,
    sum: Sum {
        with_rows: 2,
        closed: 2,
        pairs: 2,
        ..NOBODY
    },
};

#[test]
fn threads_that_wait_are_told_that_their_proxy_closes(rt: HostRuntime) -> Result<(), Fail> {
    let alloc = rt.alloc();
    tell(&rt, alloc, blank(alloc, 2, 1, 2)?, &CLOSED_MEANWHILE)
}

// ---- a request that comes again

/// Copies of the requests for the record.
fn copies<N: Naming>(alloc: Global, begun: &Begun<N>) -> Result<Vec<Request<N>>, OutOfMemory> {
    let mut copies = room(alloc, begun.requests().len())?;
    for request in begun.requests() {
        copies.push(request.copy()?)?;
    }
    Ok(copies)
}

/// Proxy 0 begins and finishes row 0. Returns its requests, and its version.
fn finish_first<N: Naming, M: Channels, R: Wait>(
    rt: &R,
    alloc: Global,
    cluster: &Cluster<'_, N>,
    side: &ProxyInboxes<N, M>,
) -> Result<(Vec<Request<N>>, u64), Fail> {
    let begun = begin_batch(rt, alloc, cluster, 0, WRITE)?;
    let requests = copies(alloc, &begun)?;
    let noted = finish_record(rt, side, cluster.proxy(0)?, begun)?;
    Ok((requests, noted.value().version))
}

/// Row 0 is finished, and row 1 is asked for: row 0 is then given up, and row 1 gets its replies again.
pub(crate) fn ask_again_later<N: Naming, M: Channels, R: Abort + Wait>(
    rt: &R,
    alloc: Global,
    cluster: &Cluster<'_, N>,
    side: &ProxyInboxes<N, M>,
) -> Result<(), Fail> {
    let (stale, version) = finish_first(rt, alloc, cluster, side)?;
    assert!(rt; version == 10);
    let next = begin_batch(rt, alloc, cluster, 0, WRITE)?;
    assert!(rt; ask(rt, alloc, side, next.requests()) == Ok((20, 2, 1)));
    let given_up = Refusal::GivenUp { acknowledged: 10 };
    assert!(rt; ask(rt, alloc, side, stale.as_slice()) == Err(given_up));
    assert!(rt; ask(rt, alloc, side, next.requests()) == Ok((20, 2, 1)));
    Ok(())
}

const STALE: Trial = Trial {
    talk: Talk::Stale,
    messages: [5, 0],
    rows: 2,
    entered: 8,
    sum: Sum {
        with_rows: 2,
        pairs: 2,
        ..NOBODY
    },
};

#[test]
fn threads_give_up_a_request_that_was_acknowledged_and_go_on(rt: HostRuntime) -> Result<(), Fail> {
    let alloc = rt.alloc();
    tell(&rt, alloc, blank(alloc, 2, 1, 2)?, &STALE)
}
