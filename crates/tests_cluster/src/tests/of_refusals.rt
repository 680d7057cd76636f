//! Tests of ends and requests that are refused.

use crate::tests::phases::{Phase, Step, resolve_begun};
use crate::tests::starting::{Cluster, Inboxes, Line, blank, requests, rows_after};
use crate::tests::stories::{InboxStory, Story, tell};
use agreed_ledger::Naming;
use inboxes::{Channels, FreshEnd};
use locked_cluster::{AllResolvers, Refusal};
use std::alloc::Global;
use std::process::Abort;
use std::sync::Wait;
use std::test::Fail;
use testing::{EMPTY_TRANSACTION, TransactionLine, is_memory_refused};
use workers::{Open, PendingRequest, ProxyInboxes, ResolverWorker};

/// A batch of proxy 0, which writes one key.
const WRITE: Line<'static> = (
    0,
    &[TransactionLine {
        writes: &[(b"a", b"b")],
        ..EMPTY_TRANSACTION
    }],
);

/// It alone.
pub(crate) const ONE: &[Line<'static>] = &[WRITE];

/// It is begun.
pub(crate) const BEGIN_ONE: &[Step] = &[(0, 0, None)];

/// The same twice.
pub(crate) const TWO: &[Line<'static>] = &[WRITE, WRITE];

/// Both are begun.
pub(crate) const BEGIN_TWO: &[Step] = &[(0, 0, None), (1, 0, None)];

/// What a worker of resolver 0 is refused with that gets this end.
fn refusal_of_misplaced_end<N: Naming, M: Channels>(
    alloc: Global,
    cluster: &Cluster<'_, N>,
    end: Option<FreshEnd<N, PendingRequest<N>, M>>,
) -> Option<Refusal> {
    let resolver = cluster.resolvers().first()?;
    match ResolverWorker::new(alloc, resolver, end?, Open) {
        Ok(_worker) => None,
        Err((refusal, _end, _gate)) => Some(refusal),
    }
}

/// What proxy 0 is refused with that asks all resolvers for the record by the inboxes of another proxy.
fn refusal_of_foreign_inboxes<N: Naming, M: Channels, R: AllocGlobal + Wait>(
    rt: &R,
    cluster: &Cluster<'_, N>,
    side: &ProxyInboxes<N, M>,
    rows: &mut Vec<Phase<N>>,
) -> Option<Refusal> {
    let proxy = cluster.proxy(0)?;
    let record = rows.pop()?;
    resolve_begun(rt, side, proxy, record).0
}

/// What proxy 0 is refused with that asks all resolvers for the record, one after another, once the first of
/// them is closed. Asks once more after a failed allocation.
fn refusal_of_closed_resolver<N: Naming, R: AllocGlobal + Wait>(
    rt: &R,
    cluster: &Cluster<'_, N>,
    rows: &mut Vec<Phase<N>>,
) -> Option<Refusal> {
    let proxy = cluster.proxy(0)?;
    drop(cluster.resolvers().first()?.close(rt));
    let Ok(asking) = AllResolvers::new(cluster.resolvers()) else {
        return None;
    };
    let (refusal, back) = resolve_begun(rt, &asking, proxy, rows.pop()?);
    match refusal {
        Some(Refusal::OutOfMemory) if is_memory_refused(rt.alloc()) => {
            resolve_begun(rt, &asking, proxy, back).0
        }
        refusal => refusal,
    }
}

/// Both ways to ask by the inboxes of another proxy are refused, and so is a closed resolver.
fn are_refused<N: Naming, M: Channels, R: Abort + AllocGlobal + Wait>(
    rt: &R,
    alloc: Global,
    cluster: &Cluster<'_, N>,
    side: &ProxyInboxes<N, M>,
    rows: Vec<Phase<N>>,
) {
    let mut rows = rows;
    let asked = side.ask(rt, alloc, requests(rows.as_slice(), 0)).err();
    assert!(rt; asked == Some(Refusal::NotMine));
    let asked = refusal_of_foreign_inboxes(rt, cluster, side, &mut rows);
    assert!(rt; asked == Some(Refusal::NotMine));
    let asked = refusal_of_closed_resolver(rt, cluster, &mut rows);
    assert!(rt; asked == Some(Refusal::Closed));
}

/// Ends come to another resolver, and requests are asked by another proxy.
pub(crate) fn misplace_ends<N: Naming, M: Channels, R: Abort + AllocGlobal + Wait>(
    rt: &R,
    alloc: Global,
    cluster: &Cluster<'_, N>,
    inboxes: Inboxes<N, M>,
) -> Result<(), Fail> {
    let rows = rows_after(rt, alloc, cluster, TWO, BEGIN_TWO)?;
    let Inboxes { ends, sides } = inboxes;
    let mut ends = ends;
    assert!(rt;
        refusal_of_misplaced_end(alloc, cluster, ends.pop()) == Some(Refusal::WrongResolver)
    );
    let Some(side) = sides.last() else {
        return Err(Fail::from("there is no proxy"));
    };
    are_refused(rt, alloc, cluster, side, rows);
    Ok(())
}

#[test]
fn other_resolvers_ends_and_other_proxies_requests_are_refused(
    rt: HostRuntime,
) -> Result<(), Fail> {
    let alloc = rt.alloc();
    tell(
        &rt,
        alloc,
        blank(alloc, 2, 2, 2)?,
        &[0, 1],
        &Story::OfInboxes(InboxStory::Misplaced),
    )
}

// ---- numbers and names

/// Each refusal of what is behind a lock, with the number and the name that are printed.
const PRINTED: &[(Refusal, Option<u32>, &str)] = &[
    (Refusal::Early { version: 7 }, Some(30), "Early"),
    (Refusal::GivenUp { acknowledged: 7 }, Some(31), "GivenUp"),
    (Refusal::NoSuchProxy, Some(32), "NoSuchProxy"),
    (Refusal::WrongResolver, Some(33), "WrongResolver"),
    (
        Refusal::OutsideChain { version: 7 },
        Some(34),
        "OutsideChain",
    ),
    (Refusal::NotMine, Some(40), "NotMine"),
    (Refusal::OutOfOrder { expected: 7 }, Some(41), "OutOfOrder"),
    (Refusal::OutOfTurn { expected: None }, Some(42), "OutOfTurn"),
    (Refusal::NotReached { version: 7 }, Some(45), "NotReached"),
    (Refusal::CellTaken, Some(52), "CellTaken"),
    (Refusal::Closed, Some(60), "Closed"),
    (Refusal::OutOfMemory, None, "OutOfMemory"),
];

#[test]
fn refusals_have_their_numbers_and_names(rt: HostRuntime) {
    for (refusal, number, name) in PRINTED {
        assert!(rt;
            refusal.number() == *number && refusal.name() == *name,
            "{name}"
        );
    }
    let not_sender = inboxes::Refusal::NotSender;
    assert!(rt; not_sender.number() == 61 && not_sender.name() == "NotSender");
}
