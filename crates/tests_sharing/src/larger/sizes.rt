//! Tests of sizes far beyond those of the other tests: a call that gives up with `OutOfMemory` past some
//! size is proved, and only a test at such a size finds it.

use crate::larger::committing::moves;
use crate::larger::stories::{Story, tell_of_size};
use agreed_ledger::Naming;
use locked_cluster::{ProxyGuard, Request, SharedResolver};
use std::alloc::Global;
use std::process::Abort;
use std::sync::Wait;
use std::test::Fail;
use system_keys::KeyRange;
use testing::{EMPTY_TRANSACTION, TransactionLine, range};
use testing_cluster::{Cluster, begin_batch, commit_empty, finish_record};

/// How many moves a ledger gets: of these no document names a greatest number.
pub(crate) const MOVES: usize = 10_000;

/// The key of this number, in the order of the numbers.
pub(crate) fn numbered_key(number: usize) -> [u8; 2] {
    [(number / 256 % 256) as u8, (number % 256) as u8]
}

/// The keys from that of this number up to the next one.
pub(crate) fn numbered_range(alloc: Global, number: usize) -> Result<KeyRange, Fail> {
    let (begin, end) = (numbered_key(number), numbered_key(number.saturating_add(1)));
    range(alloc, &begin, &end)
}

/// Moves the range of this number: resolvers 0 and 1 get the ranges in turn, so that no two neighbours
/// have one owner. Returns the date.
fn move_next<N: Naming, R: Wait>(
    rt: &R,
    alloc: Global,
    cluster: &Cluster<'_, N>,
    number: usize,
) -> Result<u64, Fail> {
    let range = numbered_range(alloc, number)?;
    Ok(cluster.sequencer.lock(rt).move_range(&range, number % 2)?)
}

/// A transaction that reads and writes every key of a client.
const TOUCH_ALL: TransactionLine<'static> = TransactionLine {
    reads: &[(b"", b"\xff")],
    writes: &[(b"", b"\xff")],
    ..EMPTY_TRANSACTION
};

/// Many moves are made. The next record has them all, and its proxy begins it by them and finishes it.
pub(crate) fn move_often<N: Naming, R: Abort + Wait>(
    rt: &R,
    alloc: Global,
    cluster: &Cluster<'_, N>,
) -> Result<(), Fail> {
    for number in 0..MOVES {
        assert!(rt;
            move_next(rt, alloc, cluster, number)? == 1,
            "move {number}"
        );
    }
    let begun = begin_batch(rt, alloc, cluster, 0, &[TOUCH_ALL])?;
    assert!(rt; moves(rt, cluster) == Some(MOVES));
    let noted = finish_record(rt, &cluster.asking()?, cluster.proxy(0)?, begun)?;
    assert!(rt; noted.value().version == 10);
    Ok(())
}

#[test]
fn a_record_has_ten_thousand_moves(rt: HostRuntime) -> Result<(), Fail> {
    tell_of_size(&rt, rt.alloc(), (1, 1, 2), Story::Moved)
}

/// A batch is committed over all resolvers.
pub(crate) fn ask_all_once<N: Naming, R: Abort + Wait>(
    rt: &R,
    alloc: Global,
    cluster: &Cluster<'_, N>,
) -> Result<(), Fail> {
    let asking = cluster.asking()?;
    let committed = commit_empty(rt, alloc, cluster, &asking, cluster.proxy(0)?);
    assert!(rt; committed == Ok(10));
    Ok(())
}

#[test]
fn as_many_resolvers_as_there_may_be_are_asked_at_once(rt: HostRuntime) -> Result<(), Fail> {
    tell_of_size(&rt, rt.alloc(), (1, 1, 64), Story::AskedAtOnce)
}

/// How many rows the longest ledger has.
const ROWS: usize = 4_096;

/// Its last row.
const LAST: usize = ROWS - 1;

/// The version of the reply to a copy of the only request.
fn version_of_reply<N: Naming, R: Wait>(
    rt: &R,
    resolver: &SharedResolver<'_, N>,
    request: &Request<N>,
) -> Result<u64, Fail> {
    let request = request.copy()?;
    match resolver.resolve(rt, request) {
        Ok((noted, _guard)) => Ok(noted.value().version),
        Err(refused) => Err(Fail::from(refused.refusal)),
    }
}

/// Proxy 0 commits every row of the longest ledger but the last.
fn commit_up_to_the_last<N: Naming, R: Abort + Wait>(
    rt: &R,
    alloc: Global,
    cluster: &Cluster<'_, N>,
) -> Result<(), Fail> {
    let asking = cluster.asking()?;
    let proxy = cluster.proxy(0)?;
    for row in 0..LAST {
        let committed = commit_empty(rt, alloc, cluster, &asking, proxy);
        assert!(rt; committed.is_ok(), "row {row}");
    }
    Ok(())
}

/// All rows of the longest ledger are committed, and the request for the last one is asked twice.
pub(crate) fn repeat_the_last<N: Naming, R: Abort + Wait>(
    rt: &R,
    alloc: Global,
    cluster: &Cluster<'_, N>,
) -> Result<(), Fail> {
    commit_up_to_the_last(rt, alloc, cluster)?;
    let last = begin_batch(rt, alloc, cluster, 0, &[])?;
    let [request] = last.requests() else {
        return Err(Fail::new("there is not one request"));
    };
    let first = version_of_reply(rt, cluster.resolver(0)?, request)?;
    let again = version_of_reply(rt, cluster.resolver(0)?, request)?;
    assert!(rt; first == 40_960 && again == 40_960);
    let noted = finish_record(rt, &cluster.asking()?, cluster.proxy(0)?, last)?;
    assert!(rt; noted.value().version == 40_960);
    Ok(())
}

#[test]
fn the_last_row_of_the_longest_ledger_is_asked_again(rt: HostRuntime) -> Result<(), Fail> {
    tell_of_size(&rt, rt.alloc(), (ROWS, 1, 1), Story::RepeatedLast)
}

/// The versions of the routings that the proxy shows: at its own version, and at the one before the last
/// row.
fn versions_shown<N: Naming>(shown: &ProxyGuard<'_, N>) -> Result<(u64, u64), Fail> {
    let (last, earlier) = (shown.routing()?, shown.routing_at(40_950)?);
    Ok((last.value().version, earlier.value().version))
}

/// How many rows a copy of all records of the proxy has.
fn rows_copied<N: Naming>(shown: &ProxyGuard<'_, N>) -> Result<usize, Fail> {
    Ok(shown.records().part(0, ROWS)?.end())
}

/// Proxy 0 commits every row of the longest ledger but the last, and proxy 1 the last: by the replies to
/// it, proxy 1 learns all others at once.
pub(crate) fn learn_all_at_once<N: Naming, R: Abort + Wait>(
    rt: &R,
    alloc: Global,
    cluster: &Cluster<'_, N>,
) -> Result<(), Fail> {
    commit_up_to_the_last(rt, alloc, cluster)?;
    let proxy = cluster.proxy(1)?;
    let committed = commit_empty(rt, alloc, cluster, &cluster.asking()?, proxy);
    assert!(rt; committed == Ok(40_960));
    let shown = proxy.lock(rt);
    assert!(rt; shown.journal().len() == ROWS);
    assert!(rt; versions_shown(&shown)? == (40_960, 40_950));
    assert!(rt; rows_copied(&shown)? == ROWS);
    Ok(())
}

#[test]
fn a_proxy_learns_the_longest_ledger_at_once(rt: HostRuntime) -> Result<(), Fail> {
    tell_of_size(&rt, rt.alloc(), (ROWS, 2, 1), Story::LearnedAtOnce)
}
