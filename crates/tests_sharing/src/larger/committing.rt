//! The test of commits over three resolvers.

use crate::larger::stories::{Story, tell};
use agreed_ledger::Naming;
use locked_cluster::{Refusal, SharedProxy};
use model::{Finished, Outcome};
use mutation::Batch;
use std::alloc::Global;
use std::process::Abort;
use std::sync::Wait;
use std::test::Fail;
use system_keys::Tag;
use testing::{EMPTY_TRANSACTION, MutationLine, TransactionLine, batch, range};
use testing_cluster::{Cluster, number};

// ---- numbers

/// Whether the proxy has the number of its place, and locks what has this number.
fn is_proxy<N: Naming, R: Wait>(rt: &R, proxy: &SharedProxy<'_, N>, place: usize) -> bool {
    proxy.number() == place && proxy.lock(rt).number() == place
}

/// Whether each proxy and each resolver has the number of its place, and locks what has this number.
fn are_numbered<N: Naming, R: Wait>(rt: &R, cluster: &Cluster<'_, N>) -> bool {
    let mut all = true;
    for (place, proxy) in cluster.proxies.iter().enumerate() {
        all = all && is_proxy(rt, proxy, place);
    }
    for (place, resolver) in cluster.resolvers.iter().enumerate() {
        all = all && resolver.number() == place && resolver.lock(rt).number() == place;
    }
    all
}

// ---- commits

/// A transaction that gives a server its tag and all keys.
const PLACE: TransactionLine<'static> = TransactionLine {
    mutations: &[
        MutationLine::Set(b"\xff/serverTag/server0000000001", b"\x00\x00\x01"),
        MutationLine::Set(b"\xff/keyServers/", b"\x01server0000000001\x00"),
    ],
    ..EMPTY_TRANSACTION
};

/// A transaction that writes from `k` up to `n`.
const WRITE: TransactionLine<'static> = TransactionLine {
    writes: &[(b"k", b"n")],
    mutations: &[MutationLine::Set(b"k", b"1")],
    ..EMPTY_TRANSACTION
};

/// A transaction that reads at `m`, before any write.
const READ: TransactionLine<'static> = TransactionLine {
    reads: &[(b"m", b"n")],
    ..EMPTY_TRANSACTION
};

/// What a test compares of a commit: its version, the outcome of the last transaction, how many mutations
/// there are, and the tag of the last one if it has a single tag; or the number of the refusal.
type Seen = Result<(u64, Option<Outcome>, usize, Option<Tag>), u32>;

fn seen(finished: &Finished) -> Seen {
    let last = finished.outcomes.as_slice().last().copied();
    let mutations = finished.tagged.as_slice().len();
    Ok((finished.version, last, mutations, last_tag(finished)))
}

fn last_tag(finished: &Finished) -> Option<Tag> {
    match finished.tagged.as_slice().last()?.tags.as_slice() {
        [tag] => Some(*tag),
        _ => None,
    }
}

/// Commits the batch by the proxy of this number.
fn commit<N: Naming, R: Wait>(
    rt: &R,
    cluster: &Cluster<'_, N>,
    proxy: usize,
    batch: Batch,
) -> Seen {
    let (Ok(asking), Ok(proxy)) = (cluster.asking(), cluster.proxy(proxy)) else {
        return Err(33);
    };
    match proxy.commit(rt, &cluster.sequencer, &asking, batch) {
        Ok((noted, _guard)) => seen(noted.value()),
        Err(fault) => Err(number(&fault)),
    }
}

/// How many moves the record of row 0 has.
pub(crate) fn moves<N: Naming, R: Wait>(rt: &R, cluster: &Cluster<'_, N>) -> Option<usize> {
    let guard = cluster.sequencer.lock(rt);
    Some(guard.records().get(cluster.ledger, 0)?.moves().len())
}

// ---- routings

/// What a test compares of a routing: its version, and how many routes there are.
type Routed = Result<(u64, usize), Refusal>;

fn routed_at<N: Naming, R: Wait>(rt: &R, cluster: &Cluster<'_, N>, version: u64) -> Routed {
    let proxy = cluster.proxy(3)?;
    match proxy.lock(rt).routing_at(version) {
        Ok(noted) => Ok((version, noted.value().routes.as_slice().len())),
        Err(refusal) => Err(refusal),
    }
}

/// The routings of proxy 3 at version 0, at 9 and at 10 are these.
fn are_routed<N: Naming, R: Abort + Wait>(rt: &R, cluster: &Cluster<'_, N>, wanted: [Routed; 3]) {
    let [at_0, at_9, at_10] = wanted;
    assert!(rt; routed_at(rt, cluster, 0) == at_0);
    assert!(rt; routed_at(rt, cluster, 9) == at_9);
    assert!(rt; routed_at(rt, cluster, 10) == at_10);
}

const TOO_EARLY: Routed = Err(Refusal::NotReached { version: 0 });

// ---- the test

/// The tag that the first transaction gives the server.
const TAG: Tag = Tag { locality: 0, id: 1 };

const SECOND_AT_10: Outcome = Outcome::Committed {
    version: 10,
    number: 1,
};

/// The keys from `m` on move to resolver 2, which alone sees the conflict there.
pub(crate) fn commit_over_three<N: Naming, R: Abort + Wait>(
    rt: &R,
    alloc: Global,
    cluster: &Cluster<'_, N>,
) -> Result<(), Fail> {
    assert!(rt; are_numbered(rt, cluster));
    are_routed(rt, cluster, [Ok((0, 0)), TOO_EARLY, TOO_EARLY]);
    let range = range(alloc, b"m", b"t")?;
    assert!(rt; cluster.sequencer.lock(rt).move_range(&range, 2) == Ok(1));
    let placed = commit(rt, cluster, 3, batch(alloc, &[PLACE, WRITE])?);
    assert!(rt; placed == Ok((10, Some(SECOND_AT_10), 3, Some(TAG))));
    let read = commit(rt, cluster, 1, batch(alloc, &[READ])?);
    assert!(rt; read == Ok((20, Some(Outcome::Conflict), 0, None)));
    assert!(rt; moves(rt, cluster) == Some(1));
    are_routed(rt, cluster, [Ok((0, 0)), Ok((9, 0)), Ok((10, 1))]);
    Ok(())
}

#[test]
fn four_proxies_commit_over_three_resolvers(rt: HostRuntime) -> Result<(), Fail> {
    tell(&rt, rt.alloc(), Story::Commits)
}
