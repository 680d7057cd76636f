//! Tests of resolvers that are closed, and of requests that come again.

use crate::sharing::stories::{Story, tell};
use agreed_ledger::Naming;
use locked_cluster::{Begun, Refusal, Request, SharedResolver};
use std::alloc::Global;
use std::process::Abort;
use std::sync::Wait;
use std::test::Fail;
use std::thread::{Threads, join};
use std::time::Clock;
use testing::{EMPTY_TRANSACTION, TransactionLine, room};
use testing_cluster::{Cluster, begin_batch, blank, finish_record, pause};

/// A batch that writes one key.
const WRITE: &[TransactionLine<'static>] = &[TransactionLine {
    writes: &[(b"k", b"l")],
    ..EMPTY_TRANSACTION
}];

/// A copy of the request for the record to resolver 0.
fn request<N: Naming>(begun: &Begun<N>) -> Result<Request<N>, Refusal> {
    match begun.requests().first() {
        Some(request) => Ok(request.copy()?),
        None => Err(Refusal::WrongResolver),
    }
}

/// The requests to resolver 0 for this number of further records, which proxy 0 begins.
fn requests<N: Naming, R: Wait>(
    rt: &R,
    alloc: Global,
    cluster: &Cluster<'_, N>,
    count: usize,
) -> Result<Vec<Request<N>>, Fail> {
    let mut made = room(alloc, count)?;
    for _record in 0..count {
        let begun = begin_batch(rt, alloc, cluster, 0, WRITE)?;
        made.push(request(&begun)?)?;
    }
    Ok(made)
}

/// What a test compares of a reply: its version, and how many verdicts it has.
type Told = Result<(u64, usize), Refusal>;

/// Waits with a copy of the request of this place for its turn.
fn resolve<N: Naming, R: Wait>(
    rt: &R,
    resolver: &SharedResolver<'_, N>,
    requests: &[Request<N>],
    place: usize,
) -> Told {
    let Some(request) = requests.get(place) else {
        return Err(Refusal::NoSuchProxy);
    };
    match resolver.resolve(rt, request.copy()?) {
        Ok((noted, _guard)) => {
            let reply = noted.value();
            Ok((reply.version, reply.verdicts.as_slice().len()))
        }
        Err(refused) => Err(refused.refusal),
    }
}

// ---- closed later

/// Resolver 0 judges row 0, and is then closed.
pub(crate) fn close_after_row_0<N: Naming, R: Abort + Wait>(
    rt: &R,
    alloc: Global,
    cluster: &Cluster<'_, N>,
) -> Result<(), Fail> {
    let resolver = cluster.resolver(0)?;
    let both = requests(rt, alloc, cluster, 2)?;
    assert!(rt; resolve(rt, resolver, both.as_slice(), 0) == Ok((10, 1)));
    resolver.close(rt);
    assert!(rt; resolver.lock(rt).is_closed());
    assert!(rt; resolve(rt, resolver, both.as_slice(), 1) == Err(Refusal::Closed));
    assert!(rt; resolve(rt, resolver, both.as_slice(), 0) == Err(Refusal::Closed));
    Ok(())
}

#[test]
fn a_resolver_that_has_judged_is_closed(rt: HostRuntime) -> Result<(), Fail> {
    let alloc = rt.alloc();
    tell(&rt, alloc, blank(alloc, 2, 1, 1)?, Story::ClosedLater)
}

// ---- a taken cell

/// Leaves another thread the time to wait, and brings row 0.
fn resolve_later<N: Naming, R: Clock + Wait>(
    rt: &R,
    resolver: &SharedResolver<'_, N>,
    requests: &[Request<N>],
) -> Told {
    pause(rt, 50);
    resolve(rt, resolver, requests, 0)
}

/// One thread waits at the resolver with row 1, and another one brings row 0.
fn resolve_by_two<N: Naming + Send + Sync, R: Clock + Threads + Wait + Sync>(
    rt: &R,
    resolver: &SharedResolver<'_, N>,
    requests: &[Request<N>],
) -> (Told, Told) {
    join(
        rt,
        || resolve(rt, resolver, requests, 1),
        || resolve_later(rt, resolver, requests),
    )
}

/// Resolver 0 judges row 0. At a second resolver of its number a thread then waits with row 1, and
/// another one brings row 0.
pub(crate) fn take_a_cell<N: Naming + Send + Sync, R: Abort + Clock + Threads + Wait + Sync>(
    rt: &R,
    alloc: Global,
    cluster: &Cluster<'_, N>,
) -> Result<(), Fail> {
    let both = requests(rt, alloc, cluster, 2)?;
    let second = SharedResolver::new(alloc, cluster.ledger, 0)?;
    assert!(rt; resolve(rt, cluster.resolver(0)?, both.as_slice(), 0) == Ok((10, 1)));
    let told = resolve_by_two(rt, &second, both.as_slice());
    assert!(rt; told == (Err(Refusal::Closed), Err(Refusal::CellTaken)));
    Ok(())
}

#[test]
fn a_thread_that_waits_is_told_that_a_taken_cell_closes(rt: HostRuntime) -> Result<(), Fail> {
    let alloc = rt.alloc();
    tell(&rt, alloc, blank(alloc, 2, 1, 1)?, Story::Taken)
}

// ---- a request that comes again

/// Proxy 0 begins and finishes row 0. Returns its request, and its version.
fn finish_first<N: Naming, R: Wait>(
    rt: &R,
    alloc: Global,
    cluster: &Cluster<'_, N>,
) -> Result<(Request<N>, u64), Fail> {
    let begun = begin_batch(rt, alloc, cluster, 0, WRITE)?;
    let request = request(&begun)?;
    let noted = finish_record(rt, &cluster.asking()?, cluster.proxy(0)?, begun)?;
    Ok((request, noted.value().version))
}

/// The request for row 1, which proxy 0 begins, and that for row 0, which it has finished before.
fn next_and_stale_requests<N: Naming, R: Abort + Wait>(
    rt: &R,
    alloc: Global,
    cluster: &Cluster<'_, N>,
) -> Result<Vec<Request<N>>, Fail> {
    let (stale, version) = finish_first(rt, alloc, cluster)?;
    assert!(rt; version == 10);
    let mut both = requests(rt, alloc, cluster, 1)?;
    both.push(stale)?;
    Ok(both)
}

/// Row 0 is finished, and row 1 is asked for: row 0 is then given up, and row 1 gets its reply again.
pub(crate) fn ask_again_later<N: Naming, R: Abort + Wait>(
    rt: &R,
    alloc: Global,
    cluster: &Cluster<'_, N>,
) -> Result<(), Fail> {
    let resolver = cluster.resolver(0)?;
    let both = next_and_stale_requests(rt, alloc, cluster)?;
    assert!(rt; resolve(rt, resolver, both.as_slice(), 0) == Ok((20, 1)));
    let given_up = Refusal::GivenUp { acknowledged: 10 };
    assert!(rt; resolve(rt, resolver, both.as_slice(), 1) == Err(given_up));
    assert!(rt; resolve(rt, resolver, both.as_slice(), 0) == Ok((20, 1)));
    assert!(rt; given_up.number() == Some(31));
    assert!(rt; !resolver.lock(rt).is_closed());
    Ok(())
}

#[test]
fn a_request_that_was_acknowledged_is_given_up(rt: HostRuntime) -> Result<(), Fail> {
    let alloc = rt.alloc();
    tell(&rt, alloc, blank(alloc, 2, 1, 1)?, Story::Stale)
}
