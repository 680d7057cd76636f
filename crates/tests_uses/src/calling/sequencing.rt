//! The test of callers of the sequencer.

use crate::calling::stories::{Story, tell};
use crate::calling::values::{FIRST, SECOND};
use agreed_ledger::{Ledger, Naming, Refusal, Ticket};
use mutation::Batch;
use std::alloc::Global;
use std::process::Abort;
use std::sync::Wait;
use std::test::Fail;
use system_keys::KeyRange;
use testing::{batch, range};
use testing_cluster::{Cluster, blank, sequence_batch};
use uses::{record_of_ticket, sequence_around_move, sequence_two};

/// What a test compares of a record: its row, its proxy, its version, and how many moves and
/// transactions it has.
type Told = (usize, usize, u64, usize, usize);

fn told<N: Naming>(ledger: &Ledger<N>, ticket: &Ticket<N>) -> Told {
    let rec = record_of_ticket(ledger, ticket);
    let moves = rec.moves().len();
    (
        rec.row(),
        rec.proxy(),
        rec.version(),
        moves,
        rec.batch().len(),
    )
}

/// The records of both tickets.
fn told_of_both<N: Naming>(ledger: &Ledger<N>, both: &(Ticket<N>, Ticket<N>)) -> (Told, Told) {
    (told(ledger, &both.0), told(ledger, &both.1))
}

/// A batch of proxy 0 and one of proxy 1 get their records.
fn sequence_by_two<N: Naming, R: Wait>(
    rt: &R,
    cluster: &Cluster<'_, N>,
    first: Batch,
    second: Batch,
) -> Result<(Told, Told), Refusal> {
    let both = sequence_two(&mut cluster.sequencer.lock(rt), 0, first, 1, second)?;
    Ok(told_of_both(cluster.ledger, &both))
}

/// Two batches of proxy 1 get their records, and the range moves to resolver 1 between them.
fn sequence_by_one<N: Naming, R: Wait>(
    rt: &R,
    cluster: &Cluster<'_, N>,
    first: Batch,
    range: &KeyRange,
    second: Batch,
) -> Result<(Told, Told), Refusal> {
    let mut guard = cluster.sequencer.lock(rt);
    let both = sequence_around_move(&mut guard, 1, first, range, 1, second)?;
    Ok(told_of_both(cluster.ledger, &both))
}

/// The record that an empty batch of proxy 0 gets.
fn next<N: Naming, R: Wait>(rt: &R, alloc: Global, cluster: &Cluster<'_, N>) -> Result<Told, Fail> {
    let ticket = sequence_batch(rt, alloc, cluster, 0, &[])?;
    Ok(told(cluster.ledger, &ticket))
}

/// Two batches get their records, then two around a move, and then one more.
pub(crate) fn sequence_in_each_way<N: Naming, R: Abort + Wait>(
    rt: &R,
    alloc: Global,
    cluster: &Cluster<'_, N>,
) -> Result<(), Fail> {
    let first = batch(alloc, FIRST)?;
    let both = sequence_by_two(rt, cluster, first, batch(alloc, &[])?)?;
    assert!(rt; both == ((0, 0, 10, 0, 1), (1, 1, 20, 0, 0)));
    let range = range(alloc, b"m", b"t")?;
    let empty = batch(alloc, &[])?;
    let both = sequence_by_one(rt, cluster, empty, &range, batch(alloc, SECOND)?)?;
    assert!(rt; both == ((2, 1, 30, 0, 0), (3, 1, 40, 1, 1)));
    assert!(rt; next(rt, alloc, cluster)? == (4, 0, 50, 1, 0));
    Ok(())
}

#[test]
fn batches_get_their_records_around_a_move(rt: HostRuntime) -> Result<(), Fail> {
    let alloc = rt.alloc();
    tell(&rt, alloc, blank(alloc, 6, 2, 2)?, Story::Sequencing)
}
