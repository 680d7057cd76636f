//! Tests of resolvers and proxies that threads share.

use crate::tests::answers::{Answer, answer};
use crate::tests::commits::{Commit, Seen, commit};
use crate::tests::of_resolvers::{BEGIN, LINES};
use crate::tests::phases::Phase;
use crate::tests::routings::{routed_at, routing_text};
use crate::tests::starting::{Cluster, blank, resolver, rows_after};
use crate::tests::stories::{Story, tell};
use agreed_ledger::Naming;
use locked_cluster::{Refusal, SharedResolver};
use model::Outcome;
use mutation::{Batch, Mutation, admit};
use std::alloc::Global;
use std::process::Abort;
use std::sync::Wait;
use std::test::Fail;
use std::thread::{Threads, join};
use system_keys::{Items, Tag};
use testing::{
    EMPTY_TRANSACTION, MutationLine, batch, batch_of, bytes, given_range, mutation, one, room,
    transaction,
};

// ---- closing

/// How often a thread looks at a resolver before it closes it.
const LOOKS: usize = 10_000;

/// Looks at the resolver, so that another thread waits by then, and closes it.
fn close_later<N: Naming, R: AllocGlobal + Wait>(rt: &R, resolver: &SharedResolver<'_, N>) {
    for _look in 0..LOOKS {
        let _version = resolver.lock(rt).version();
    }
    resolver.close(rt);
}

/// The answers to a request that waits in one thread, while another closes the resolver, and to
/// requests that come later.
fn answer_while_closing<N: Naming + Send + Sync, R: AllocGlobal + Threads + Wait + Sync>(
    rt: &R,
    resolver: &SharedResolver<'_, N>,
    rows: &[Phase<N>],
) -> [Answer; 3] {
    let (waited, ()) = join(
        rt,
        || answer(rt, resolver, true, rows, 1),
        || close_later(rt, resolver),
    );
    [
        waited,
        answer(rt, resolver, true, rows, 0),
        answer(rt, resolver, false, rows, 0),
    ]
}

/// A resolver is closed while a thread waits for its turn.
pub(crate) fn close_on_waiting<
    N: Naming + Send + Sync,
    R: Abort + AllocGlobal + Threads + Wait + Sync,
>(rt: &R, alloc: Global, cluster: &Cluster<'_, N>) -> Result<(), Fail> {
    let closed = resolver(alloc, cluster.ledger, 0)?;
    let rows = rows_after(rt, alloc, cluster, LINES, BEGIN)?;
    let answers = answer_while_closing(rt, &closed, rows.as_slice());
    assert!(rt; answers == [Err(Refusal::Closed); 3]);
    Ok(())
}

#[test]
fn threads_that_wait_are_told_of_a_closed_resolver(rt: HostRuntime) -> Result<(), Fail> {
    let alloc = rt.alloc();
    tell(
        &rt,
        alloc,
        blank(alloc, 2, 3, 1)?,
        &[],
        &Story::ClosedOnWaiting,
    )
}

// ---- commits

/// The tag that each batch gives the server, and has itself.
const TAG: Tag = Tag { locality: 0, id: 1 };

/// The server has this tag.
const TAGGED: MutationLine<'static> = MutationLine::Set(
    b"\xff/serverTag/server0000000001",
    b"\x00\x00\x01",
);

/// The value that gives keys to the server.
const SERVER: &[u8] = b"\x01server0000000001\x00";

/// How many batches each of the three proxies commits.
pub(crate) const OF_EACH: usize = 9;

/// The last digit of a number.
fn digit(number: usize) -> u8 {
    *b"0123456789".get(number % 10).unwrap_or(&b'0')
}

/// The batch of this number among the 27 of three proxies: it gives the server the keys from that of a
/// row of its own on, and writes at that row. The first one gives the server its tag, too.
pub(crate) fn own_batch(alloc: Global, number: usize) -> Result<Batch, Fail> {
    let mut row = *b"\xff/keyServers/k..";
    row[14] = digit(number / 10);
    row[15] = digit(number);
    let mut end = *b"\xff/keyServers/k..\x00";
    end[14] = row[14];
    end[15] = row[15];
    let mut mutations = room(alloc, 2)?;
    mutations.push(Mutation::Set {
        key: bytes(alloc, &row)?,
        value: bytes(alloc, SERVER)?,
    })?;
    if number == 0 {
        mutations.push(mutation(alloc, TAGGED)?)?;
    }
    let mut given = transaction(alloc, EMPTY_TRANSACTION)?;
    given.writes = one(alloc, given_range(alloc, &row, &end)?)?;
    given.mutations = Items::from(mutations);
    let mut transactions = room(alloc, 1)?;
    transactions.push(admit(alloc, &given)?)?;
    batch_of(transactions)
}

/// The nine batches of a proxy.
fn nine_batches(alloc: Global, proxy: usize) -> Result<Vec<Batch>, Fail> {
    let mut batches = room(alloc, OF_EACH)?;
    for number in 0..OF_EACH {
        batches.push(own_batch(alloc, OF_EACH.saturating_mul(proxy).saturating_add(number))?)?;
    }
    Ok(batches)
}

/// What a test compares of the commits of a proxy: a bit for each row, that of row 0 being bit 1.
type Rows = Option<u64>;

/// Whether the batch of this number has the outcome that is wanted. The server has its tag once the first
/// one is committed, which the batches of the same proxy follow.
fn is_own_commit(number: usize, seen: Seen) -> bool {
    let ((version, shown), outcomes, mutations, tag) = seen;
    let committed = Some(Outcome::Committed { version, number: 0 });
    let may_lack_tag = OF_EACH <= number && tag.is_none();
    shown == version
        && outcomes == [committed, None]
        && mutations == if number == 0 { 2 } else { 1 }
        && (tag == Some(TAG) || may_lack_tag)
}

/// The rows with that of the batch of this number, if it has the outcome that is wanted, at a later
/// row than those before.
fn with_row(rows: u64, number: usize, commit: Commit) -> Rows {
    let seen = commit.ok()?;
    let row = 1u64.wrapping_shl(u32::try_from(seen.0.0 / 10).ok()?);
    if is_own_commit(number, seen) && rows < row {
        Some(rows | row)
    } else {
        None
    }
}

/// Commits the batches of a proxy, and returns its rows. Returns `None` if one is not as it is to be.
fn commit_all<N: Naming, R: AllocGlobal + Wait>(
    rt: &R,
    cluster: &Cluster<'_, N>,
    proxy: usize,
    batches: Vec<Batch>,
) -> Rows {
    let mut rows = Some(0);
    for (place, batch) in batches.into_iter().enumerate() {
        let committed = commit(rt, cluster, proxy, batch);
        let number = OF_EACH.saturating_mul(proxy).saturating_add(place);
        rows = rows.and_then(|rows| with_row(rows, number, committed));
    }
    rows
}

/// Commits nine batches of each of three proxies, each in a thread of its own.
fn commit_by_three<N: Naming + Send + Sync, R: AllocGlobal + Threads + Wait + Sync>(
    rt: &R,
    alloc: Global,
    cluster: &Cluster<'_, N>,
) -> Result<[Rows; 3], Fail> {
    let one = nine_batches(alloc, 0)?;
    let two = nine_batches(alloc, 1)?;
    let three = nine_batches(alloc, 2)?;
    let (first, (second, third)) = join(
        rt,
        || commit_all(rt, cluster, 0, one),
        || {
            join(
                rt,
                || commit_all(rt, cluster, 1, two),
                || commit_all(rt, cluster, 2, three),
            )
        },
    );
    Ok([first, second, third])
}

/// Whether each of the first 27 rows is of one of the 27 batches.
fn are_all_rows(rows: [Rows; 3]) -> bool {
    match rows {
        [Some(one), Some(two), Some(three)] => (one | two | three) == 0xfff_fffe,
        _ => false,
    }
}

/// An empty batch, closing at the version.
fn closed(version: u64) -> Commit {
    Ok(((version, version), [None, None], 0, None))
}

/// Each proxy commits an empty batch, with the outcome that is wanted.
fn close_each<N: Naming, R: Abort + AllocGlobal + Wait>(
    rt: &R,
    alloc: Global,
    cluster: &Cluster<'_, N>,
    wanted: [Commit; 3],
) -> Result<(), Fail> {
    for (proxy, wanted) in wanted.iter().enumerate() {
        let closed = commit(rt, cluster, proxy, batch(alloc, &[])?);
        assert!(rt; closed == *wanted);
    }
    Ok(())
}

/// This number of proxies have the routing of the 27 rows at the version of the first closing, and all the same
/// one.
fn are_routed<N: Naming, R: Abort + AllocGlobal + Wait>(
    rt: &R,
    cluster: &Cluster<'_, N>,
    proxies: usize,
) {
    for proxy in 0..proxies {
        let routed = routed_at(rt, cluster, proxy, Some(280));
        assert!(rt; routed == Ok((280, false, 27, 27)));
        let whole = routing_text(rt, cluster, proxy, 280);
        assert!(rt; whole.is_ok() && whole == routing_text(rt, cluster, 0, 280));
    }
}

/// Three threads commit, and then each proxy closes, the last one with this answer.
pub(crate) fn commit_and_close<
    N: Naming + Send + Sync,
    R: Abort + AllocGlobal + Threads + Wait + Sync,
>(rt: &R, alloc: Global, cluster: &Cluster<'_, N>, last: Commit) -> Result<(), Fail> {
    assert!(rt; are_all_rows(commit_by_three(rt, alloc, cluster)?));
    close_each(rt, alloc, cluster, [closed(280), closed(290), last])?;
    are_routed(rt, cluster, if last.is_ok() { 3 } else { 2 });
    Ok(())
}

#[test]
fn three_threads_commit_over_two_resolvers(rt: HostRuntime) -> Result<(), Fail> {
    let alloc = rt.alloc();
    tell(
        &rt,
        alloc,
        blank(alloc, 30, 3, 2)?,
        &[0, 1],
        &Story::ByThree(closed(300)),
    )
}

#[test]
fn three_threads_leave_no_row_for_the_last_closing(rt: HostRuntime) -> Result<(), Fail> {
    let alloc = rt.alloc();
    tell(
        &rt,
        alloc,
        blank(alloc, 29, 3, 2)?,
        &[0, 1],
        &Story::ByThree(Err(50)),
    )
}
