//! Tests of resolvers behind locks.

use crate::tests::answers::{Answer, Returned, answer, request, return_of};
use crate::tests::phases::{Phase, Step};
use crate::tests::starting::{Cluster, Line, blank, resolver, rows_after};
use crate::tests::stories::{Story, tell};
use agreed_ledger::{Ledger, Naming};
use locked_cluster::Refusal;
use model::Verdict;
use std::alloc::Global;
use std::process::Abort;
use std::sync::Wait;
use std::test::Fail;
use testing::{EMPTY_TRANSACTION, TransactionLine, twice};

/// A batch that writes at `k`.
const WRITE: &[TransactionLine<'static>] = &[TransactionLine {
    writes: &[(b"k", b"l")],
    ..EMPTY_TRANSACTION
}];

/// A batch that reads at `k`, before the write of another.
const READ: &[TransactionLine<'static>] = &[TransactionLine {
    reads: &[(b"k", b"l")],
    ..EMPTY_TRANSACTION
}];

/// The first record writes where the second reads.
pub(crate) const LINES: &[Line<'static>] = &[(0, WRITE), (1, READ)];

/// Each is begun by its proxy.
pub(crate) const BEGIN: &[Step] = &[(0, 0, None), (1, 1, None)];

const COMMITTED_AT_10: Answer = Ok((10, Some(Verdict::Committed), 0));

const CONFLICT_AT_20: Answer = Ok((20, Some(Verdict::Conflict), 1));

// ---- numbers

/// The number of the resolver of this number, and the number of what it locks.
fn numbers<N: Naming, R: AllocGlobal + Wait>(
    rt: &R,
    alloc: Global,
    ledger: &Ledger<N>,
    number: usize,
) -> Result<(usize, usize), Refusal> {
    let made = resolver(alloc, ledger, number)?;
    let locked = made.lock(rt).number();
    Ok((made.number(), locked))
}

/// Resolvers of three numbers are made, the last of which is too large.
pub(crate) fn are_numbered<N: Naming, R: Abort + AllocGlobal + Wait>(
    rt: &R,
    alloc: Global,
    cluster: &Cluster<'_, N>,
) {
    assert!(rt; numbers(rt, alloc, cluster.ledger, 0) == Ok((0, 0)));
    assert!(rt; numbers(rt, alloc, cluster.ledger, 1) == Ok((1, 1)));
    assert!(rt; numbers(rt, alloc, cluster.ledger, 2) == Err(Refusal::WrongResolver));
}

#[test]
fn a_resolver_has_its_number(rt: HostRuntime) -> Result<(), Fail> {
    let alloc = rt.alloc();
    tell(&rt, alloc, blank(alloc, 1, 3, 2)?, &[], &Story::Numbers)
}

// ---- turns

/// A request: the resolver's place, whether it waits its turn, its row, and what is to be answered.
pub(crate) type Ask = (usize, bool, usize, Answer);

const WAITS: bool = true;

const OFFERED: bool = false;

/// Requests that come out of turn, in turn and again.
const IN_TURN: &[Ask] = &[
    (0, OFFERED, 1, Err(Refusal::Early { version: 0 })),
    (0, OFFERED, 0, COMMITTED_AT_10),
    (0, WAITS, 0, COMMITTED_AT_10),
    (0, WAITS, 1, CONFLICT_AT_20),
    (0, OFFERED, 1, CONFLICT_AT_20),
    (0, OFFERED, 0, COMMITTED_AT_10),
];

/// A request to one of two resolvers of one number, and then to the other.
const BY_TWO: &[Ask] = &[
    (0, WAITS, 0, COMMITTED_AT_10),
    (1, WAITS, 0, Err(Refusal::CellTaken)),
    (1, WAITS, 0, Err(Refusal::Closed)),
    (1, OFFERED, 0, Err(Refusal::Closed)),
    (0, WAITS, 0, COMMITTED_AT_10),
];

/// Each request is answered as it is to be.
fn ask_each<N: Naming, R: Abort + AllocGlobal + Wait>(
    rt: &R,
    cluster: &Cluster<'_, N>,
    rows: &[Phase<N>],
    asks: &[Ask],
) {
    for (resolver, waits, row, wanted) in asks {
        let answered = match cluster.resolvers().get(*resolver) {
            Some(resolver) => answer(rt, resolver, *waits, rows, *row),
            None => Err(Refusal::WrongResolver),
        };
        assert!(rt; answered == *wanted);
    }
}

/// Brings the requests for two records that are begun.
pub(crate) fn ask_by_hand<N: Naming, R: Abort + AllocGlobal + Wait>(
    rt: &R,
    alloc: Global,
    cluster: &Cluster<'_, N>,
    asks: &[Ask],
) -> Result<(), Fail> {
    let rows = rows_after(rt, alloc, cluster, LINES, BEGIN)?;
    ask_each(rt, cluster, rows.as_slice(), asks);
    Ok(())
}

#[test]
fn a_request_comes_early_in_turn_or_again(rt: HostRuntime) -> Result<(), Fail> {
    let alloc = rt.alloc();
    tell(
        &rt,
        alloc,
        blank(alloc, 2, 3, 1)?,
        &[0],
        &Story::Asked(IN_TURN),
    )
}

#[test]
fn a_second_resolver_of_a_number_is_refused_the_cell(rt: HostRuntime) -> Result<(), Fail> {
    let alloc = rt.alloc();
    tell(
        &rt,
        alloc,
        blank(alloc, 2, 3, 1)?,
        &[0, 0],
        &Story::Asked(BY_TWO),
    )
}

// ---- requests to another resolver

const BOTH_WAYS: &[bool] = &[WAITS, OFFERED];

/// The request to resolver 1 for the record at version 20 comes back.
const BACK: Returned = (Refusal::WrongResolver, 1, 20);

/// Resolver 0, which has judged nothing, gets the request to resolver 1 for the second record. It is answered at
/// once, though the resolver has not come as far, and leaves the resolver open.
pub(crate) fn bring_to_another<N: Naming, R: Abort + AllocGlobal + Wait>(
    rt: &R,
    alloc: Global,
    cluster: &Cluster<'_, N>,
) -> Result<(), Fail> {
    let rows = rows_after(rt, alloc, cluster, LINES, BEGIN)?;
    let resolver = cluster.resolvers().first().ok_or("no resolver")?;
    for waits in BOTH_WAYS {
        let copy = twice!(alloc; request(rows.as_slice(), 1, 1), Refusal::OutOfMemory)?;
        assert!(rt; return_of(rt, resolver, *waits, copy) == Some(BACK));
    }
    let left = resolver.lock(rt);
    assert!(rt; !left.is_closed() && left.version() == 0);
    Ok(())
}

#[test]
fn a_request_to_another_resolver_is_refused_at_once(rt: HostRuntime) -> Result<(), Fail> {
    let alloc = rt.alloc();
    tell(
        &rt,
        alloc,
        blank(alloc, 2, 3, 2)?,
        &[0, 1],
        &Story::BroughtToAnother,
    )
}
