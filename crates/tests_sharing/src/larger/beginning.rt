//! Tests of records that are begun by hand.

use crate::larger::stories::{Story, tell};
use agreed_ledger::Naming;
use locked_cluster::{Begun, CommitFault, Refusal};
use mutation::Batch;
use std::alloc::Global;
use std::process::Abort;
use std::sync::Wait;
use std::test::Fail;
use testing::{batch, room};
use testing_cluster::{Cluster, begin_batch, finish_record, sequence_batch};

// ---- three records

/// Asks all resolvers for the record of proxy 2, and finishes it. Returns its version.
fn finish<N: Naming, R: Wait>(
    rt: &R,
    cluster: &Cluster<'_, N>,
    begun: Begun<N>,
) -> Result<u64, Fail> {
    let noted = finish_record(rt, &cluster.asking()?, cluster.proxy(2)?, begun)?;
    Ok(noted.value().version)
}

/// Proxy 2 begins three records before it finishes one.
pub(crate) fn begin_three<N: Naming, R: Abort + Wait>(
    rt: &R,
    alloc: Global,
    cluster: &Cluster<'_, N>,
) -> Result<(), Fail> {
    let mut three = room(alloc, 3)?;
    for _record in 0..3 {
        three.push(begin_batch(rt, alloc, cluster, 2, &[])?)?;
    }
    let mut version = 0_u64;
    for begun in three {
        version = version.saturating_add(10);
        assert!(rt; finish(rt, cluster, begun)? == version);
    }
    assert!(rt; version == 30);
    Ok(())
}

#[test]
fn three_records_are_begun_before_one_is_finished(rt: HostRuntime) -> Result<(), Fail> {
    tell(&rt, rt.alloc(), Story::BegunThree)
}

// ---- a record that is left out

/// Commits the batch by proxy 0, whose record is not begun. Returns why, and its row.
fn not_begun<N: Naming, R: Wait>(
    rt: &R,
    cluster: &Cluster<'_, N>,
    batch: Batch,
) -> Option<(Refusal, usize)> {
    let (Ok(asking), Ok(proxy)) = (cluster.asking(), cluster.proxy(0)) else {
        return None;
    };
    match proxy.commit(rt, &cluster.sequencer, &asking, batch) {
        Err(CommitFault::Beginning { refusal, ticket }) => Some((refusal, ticket.row())),
        _ => None,
    }
}

/// The row that an empty batch of proxy 0 gets.
fn row<N: Naming, R: Wait>(rt: &R, alloc: Global, cluster: &Cluster<'_, N>) -> Result<usize, Fail> {
    Ok(sequence_batch(rt, alloc, cluster, 0, &[])?.row())
}

/// Row 0 is given out by hand, and never begun. The batch that then gets row 1 is not begun, and gets no
/// other row.
pub(crate) fn leave_one_out<N: Naming, R: Abort + Wait>(
    rt: &R,
    alloc: Global,
    cluster: &Cluster<'_, N>,
) -> Result<(), Fail> {
    assert!(rt; row(rt, alloc, cluster)? == 0);
    let out_of_order = Refusal::OutOfOrder { expected: 0 };
    let refused = not_begun(rt, cluster, batch(alloc, &[])?);
    assert!(rt; refused == Some((out_of_order, 1)));
    assert!(rt; row(rt, alloc, cluster)? == 2);
    Ok(())
}

#[test]
fn a_batch_after_one_that_was_left_out_is_not_begun(rt: HostRuntime) -> Result<(), Fail> {
    tell(&rt, rt.alloc(), Story::LeftOut)
}
