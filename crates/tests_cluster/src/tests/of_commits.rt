//! Tests of commits, one after the other.

use crate::tests::commits::{Commit, commit};
use crate::tests::starting::{Cluster, Line, blank};
use crate::tests::stories::{Story, tell};
use agreed_ledger::Naming;
use model::Outcome;
use std::alloc::Global;
use std::process::Abort;
use std::sync::Wait;
use std::test::Fail;
use system_keys::Tag;
use testing::{EMPTY_TRANSACTION, MutationLine, TransactionLine, batch, range};

/// A transaction that gives a server its tag and all keys.
const PLACE: TransactionLine<'static> = TransactionLine {
    mutations: &[
        MutationLine::Set(b"\xff/serverTag/server0000000001", b"\x00\x00\x01"),
        MutationLine::Set(b"\xff/keyServers/", b"\x01server0000000001\x00"),
    ],
    ..EMPTY_TRANSACTION
};

/// A transaction that writes from `k` up to `n`.
const WRITE: TransactionLine<'static> = TransactionLine {
    writes: &[(b"k", b"n")],
    mutations: &[MutationLine::Set(b"k", b"1")],
    ..EMPTY_TRANSACTION
};

/// A transaction that reads at `m`, before any write.
const READ: TransactionLine<'static> = TransactionLine {
    reads: &[(b"m", b"n")],
    ..EMPTY_TRANSACTION
};

const LINES: [Line<'static>; 3] = [(0, &[PLACE, WRITE]), (1, &[WRITE, READ]), (0, &[READ])];

/// The tag that the first transaction gives the server.
const TAG: Option<Tag> = Some(Tag { locality: 0, id: 1 });

const FIRST_AT_10: Outcome = Outcome::Committed {
    version: 10,
    number: 0,
};

const SECOND_AT_10: Outcome = Outcome::Committed {
    version: 10,
    number: 1,
};

const FIRST_AT_20: Outcome = Outcome::Committed {
    version: 20,
    number: 0,
};

/// The outcomes of the three batches, over one resolver and over two.
const WANTED: [Commit; 3] = [
    Ok(((10, 10), [Some(FIRST_AT_10), Some(SECOND_AT_10)], 3, TAG)),
    Ok((
        (20, 20),
        [Some(FIRST_AT_20), Some(Outcome::Conflict)],
        1,
        TAG,
    )),
    Ok(((30, 30), [Some(Outcome::Conflict), None], 0, None)),
];

/// Moves the keys from `m` on to the last resolver.
fn move_keys<N: Naming, R: AllocGlobal + Wait>(
    rt: &R,
    alloc: Global,
    cluster: &Cluster<'_, N>,
    resolvers: usize,
) -> Result<(), Fail> {
    let range = range(alloc, b"m", b"t")?;
    let dest = resolvers.saturating_sub(1);
    let _date = cluster.sequencer.lock(rt).move_range(&range, dest)?;
    Ok(())
}

/// Commits the batches, one after the other.
fn commit_each<N: Naming, R: Abort + AllocGlobal + Wait>(
    rt: &R,
    alloc: Global,
    cluster: &Cluster<'_, N>,
) -> Result<(), Fail> {
    for (place, (proxy, given)) in LINES.iter().enumerate() {
        let committed = commit(rt, cluster, *proxy, batch(alloc, *given)?);
        assert!(rt; Some(&committed) == WANTED.get(place));
    }
    Ok(())
}

/// Moves keys to the last resolver, and commits the batches.
pub(crate) fn commit_in_order<N: Naming, R: Abort + AllocGlobal + Wait>(
    rt: &R,
    alloc: Global,
    cluster: &Cluster<'_, N>,
    resolvers: usize,
) -> Result<(), Fail> {
    move_keys(rt, alloc, cluster, resolvers)?;
    commit_each(rt, alloc, cluster)
}

#[test]
fn commits_over_one_resolver_and_over_two_are_in_order(rt: HostRuntime) -> Result<(), Fail> {
    let alloc = rt.alloc();
    tell(&rt, alloc, blank(alloc, 3, 3, 1)?, &[0], &Story::InOrder(1))?;
    tell(
        &rt,
        alloc,
        blank(alloc, 3, 3, 2)?,
        &[0, 1],
        &Story::InOrder(2),
    )
}
