//! Tests of proxies that meet, of audits, of confirmed answers and of routings, by one thread.

use crate::tests::phases::{Phase, Step, answer};
use crate::tests::routings::routed_at;
use crate::tests::starting::{Cluster, Line, blank, go_through, resolver, tickets};
use crate::tests::stories::{Story, tell};
use agreed_ledger::Naming;
use locked_cluster::{
    BehindBy, Meeting, Refusal, SharedProxy, SharedResolver, audit, meet, metadata_of_two,
};
use model::JournalRow;
use proxy_state::Metadata;
use std::alloc::Global;
use std::process::Abort;
use std::sync::Wait;
use std::test::Fail;
use testing::{EMPTY_TRANSACTION, MutationLine as Change, TransactionLine};

/// A transaction that gives a server its tag and all keys.
const FIRST: TransactionLine<'static> = TransactionLine {
    mutations: &[
        Change::Set(b"\xff/serverTag/server0000000001", b"\x00\x00\x01"),
        Change::Set(b"\xff/keyServers/", b"\x01server0000000001\x00"),
    ],
    ..EMPTY_TRANSACTION
};

/// A transaction that gives another server its tag and the keys from `m` on.
const SECOND: TransactionLine<'static> = TransactionLine {
    mutations: &[
        Change::Set(b"\xff/serverTag/server0000000002", b"\x00\x00\x02"),
        Change::Set(b"\xff/keyServers/m", b"\x01server0000000002\x00"),
    ],
    ..EMPTY_TRANSACTION
};

const LINES: &[Line<'static>] = &[(0, &[FIRST]), (1, &[SECOND])];

/// Both records are begun, and resolved by both resolvers.
const RESOLVE: &[Step] = &[(0, 0, None), (1, 1, None), (0, 0, None), (1, 1, None)];

/// Proxy 1 finishes its record, which is the later one.
const FINISH_LATER: &[Step] = &[(1, 1, None)];

/// Proxy 0 finishes its record.
const FINISH_EARLIER: &[Step] = &[(0, 0, None)];

/// How proxy 0 meets proxy 1, and proxy 1 proxy 0 and itself; the audits of proxy 0 and of proxy 1 by
/// both resolvers, and of proxy 1 by the first and one of number 1 that was never asked; and whether the
/// journal of proxy 0 begins that of proxy 1.
type Look = ([Meeting; 3], [Result<(), BehindBy>; 3], bool);

/// The two proxies.
fn two<'c, 'l, N: Naming>(
    cluster: &'c Cluster<'l, N>,
) -> Option<(&'c SharedProxy<'l, N>, &'c SharedProxy<'l, N>)> {
    Some((cluster.proxy(0)?, cluster.proxy(1)?))
}

fn audit_by<N: Naming, R: AllocGlobal + Wait>(
    rt: &R,
    proxy: &SharedProxy<'_, N>,
    first: &SharedResolver<'_, N>,
    second: &SharedResolver<'_, N>,
) -> Result<(), BehindBy> {
    audit(&proxy.lock(rt), &[first.lock(rt), second.lock(rt)])
}

/// How the proxies meet.
fn meetings<N: Naming, R: AllocGlobal + Wait>(
    rt: &R,
    zero: &SharedProxy<'_, N>,
    one: &SharedProxy<'_, N>,
) -> [Meeting; 3] {
    let zero = zero.lock(rt);
    let one = one.lock(rt);
    [meet(&zero, &one), meet(&one, &zero), meet(&one, &one)]
}

fn look<N: Naming, R: AllocGlobal + Wait>(
    rt: &R,
    cluster: &Cluster<'_, N>,
    other: &SharedResolver<'_, N>,
) -> Option<Look> {
    let (zero, one) = two(cluster)?;
    let first = cluster.resolvers().first()?;
    let second = cluster.resolvers().get(1)?;
    let audits = [
        audit_by(rt, zero, first, second),
        audit_by(rt, one, first, second),
        audit_by(rt, one, first, other),
    ];
    let begins = begins(zero.lock(rt).journal(), one.lock(rt).journal());
    Some((meetings(rt, zero, one), audits, begins))
}

/// Whether both are of one version and have the same verdicts on as many state transactions.
fn is_same_row(one: &JournalRow, other: &JournalRow) -> bool {
    let states = other.states.as_slice();
    if one.version != other.version || one.states.as_slice().len() != states.len() {
        return false;
    }
    for (state, wanted) in one.states.as_slice().iter().zip(states) {
        if state.verdicts.as_slice() != wanted.verdicts.as_slice()
            || state.mutations.as_slice().len() != wanted.mutations.as_slice().len()
        {
            return false;
        }
    }
    true
}

/// Whether the one journal begins the other.
fn begins(journal: &[JournalRow], other: &[JournalRow]) -> bool {
    for (row, wanted) in journal.iter().zip(other) {
        if !is_same_row(row, wanted) {
            return false;
        }
    }
    journal.len() <= other.len()
}

/// Whether each of the two proxies confirms its own answer, and that of the other.
fn confirm<N: Naming, R: AllocGlobal + Wait>(
    rt: &R,
    cluster: &Cluster<'_, N>,
    rows: &[Phase<N>],
) -> Option<[bool; 4]> {
    let (zero, one) = two(cluster)?;
    let first = answer(rows, 0)?;
    let second = answer(rows, 1)?;
    let zero = zero.lock(rt);
    let one = one.lock(rt);
    Some([
        zero.confirm(first),
        one.confirm(second),
        zero.confirm(second),
        one.confirm(first),
    ])
}

/// Whether the metadata has the rows of both servers' keys.
fn has_rows(metadata: &Metadata) -> [bool; 2] {
    [
        metadata.row(b"\xff/keyServers/").is_some(),
        metadata.row(b"\xff/keyServers/m").is_some(),
    ]
}

/// Which of these rows the two proxies have.
fn rows_of_two<N: Naming, R: AllocGlobal + Wait>(
    rt: &R,
    cluster: &Cluster<'_, N>,
    rows: &[Phase<N>],
) -> Option<[[bool; 2]; 2]> {
    let (zero, one) = two(cluster)?;
    let later = answer(rows, 1)?;
    let zero = zero.lock(rt);
    let one = one.lock(rt);
    let (first, second) = metadata_of_two(&zero, &one, later);
    Some([has_rows(first), has_rows(second)])
}

const AT_THE_START: Look = ([Meeting::Same; 3], [Ok(()); 3], true);

/// Proxy 1 is at version 20, and proxy 0 at 0 or at 10.
const LATER: Look = (
    [Meeting::Behind, Meeting::Ahead, Meeting::Same],
    [
        Ok(()),
        Ok(()),
        Err(BehindBy {
            resolver: 1,
            version: 0,
        }),
    ],
    true,
);

/// After the steps the proxies look so.
fn look_after_steps<N: Naming, R: Abort + AllocGlobal + Wait>(
    rt: &R,
    cluster: &Cluster<'_, N>,
    other: &SharedResolver<'_, N>,
    rows: &mut Vec<Phase<N>>,
    steps: &[Step],
    wanted: Look,
) -> Result<(), Fail> {
    go_through(rt, cluster, rows, steps)?;
    assert!(rt; look(rt, cluster, other) == Some(wanted));
    Ok(())
}

/// The proxies look as they are to look at the start, after one has finished and after the other.
fn look_three_times<N: Naming, R: Abort + AllocGlobal + Wait>(
    rt: &R,
    cluster: &Cluster<'_, N>,
    other: &SharedResolver<'_, N>,
    rows: &mut Vec<Phase<N>>,
) -> Result<(), Fail> {
    look_after_steps(rt, cluster, other, rows, RESOLVE, AT_THE_START)?;
    look_after_steps(rt, cluster, other, rows, FINISH_LATER, LATER)?;
    look_after_steps(rt, cluster, other, rows, FINISH_EARLIER, LATER)
}

const TOO_EARLY: Refusal = Refusal::NotReached { version: 20 };

/// The last routings of both proxies, and those of proxy 1 at an earlier version and at a later one.
fn are_routed<N: Naming, R: Abort + AllocGlobal + Wait>(rt: &R, cluster: &Cluster<'_, N>) {
    assert!(rt; routed_at(rt, cluster, 0, None) == Ok((10, false, 1, 1)));
    assert!(rt; routed_at(rt, cluster, 1, None) == Ok((20, false, 2, 1)));
    assert!(rt; routed_at(rt, cluster, 1, Some(19)) == Ok((19, false, 1, 1)));
    assert!(rt; routed_at(rt, cluster, 1, Some(21)) == Err(TOO_EARLY));
    assert!(rt; TOO_EARLY.number() == Some(45));
}

/// Both have finished: their answers are confirmed, and their rows and routings are there.
fn are_confirmed<N: Naming, R: Abort + AllocGlobal + Wait>(
    rt: &R,
    cluster: &Cluster<'_, N>,
    rows: &[Phase<N>],
) {
    assert!(rt; confirm(rt, cluster, rows) == Some([true, true, false, true]));
    let found = rows_of_two(rt, cluster, rows);
    assert!(rt; found == Some([[true, false], [true, true]]));
    are_routed(rt, cluster);
}

/// Two proxies meet before and after each has finished its record.
pub(crate) fn meet_twice<N: Naming, R: Abort + AllocGlobal + Wait>(
    rt: &R,
    alloc: Global,
    cluster: &Cluster<'_, N>,
) -> Result<(), Fail> {
    let other = resolver(alloc, cluster.ledger, 1)?;
    let mut rows = tickets(rt, alloc, cluster, LINES)?;
    look_three_times(rt, cluster, &other, &mut rows)?;
    are_confirmed(rt, cluster, rows.as_slice());
    Ok(())
}

#[test]
fn proxies_meet_are_audited_and_confirm_answers(rt: HostRuntime) -> Result<(), Fail> {
    let alloc = rt.alloc();
    tell(
        &rt,
        alloc,
        blank(alloc, 2, 3, 2)?,
        &[0, 1],
        &Story::Meetings,
    )
}
