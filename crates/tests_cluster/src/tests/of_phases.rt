//! Tests of phases that are called by hand, in an odd order.

use crate::tests::phases::{Phase, Step, answer};
use crate::tests::starting::{Cluster, Line, blank, rows_after};
use crate::tests::stories::{Story, tell};
use agreed_ledger::Naming;
use locked_cluster::Refusal;
use std::alloc::Global;
use std::process::Abort;
use std::sync::Wait;
use std::test::Fail;

/// Three records of proxy 0, the last of which is not begun, and one of proxy 1, all of empty batches.
const LINES: &[Line<'static>] = &[(0, &[]), (0, &[]), (1, &[]), (0, &[])];

/// The tickets are begun out of order and by another proxy first, and so are the replies finished. A ticket
/// of another proxy that does not follow either is refused as that of another proxy.
const STORY: &[Step] = &[
    (1, 1, Some(Refusal::NotMine)),
    (1, 0, Some(Refusal::OutOfOrder { expected: 0 })),
    (2, 0, Some(Refusal::NotMine)),
    (0, 1, Some(Refusal::NotMine)),
    (0, 0, None),
    (3, 0, Some(Refusal::OutOfOrder { expected: 10 })),
    (1, 0, None),
    (2, 1, None),
    (0, 0, None),
    (1, 0, None),
    (2, 1, None),
    (1, 0, Some(Refusal::OutOfTurn { expected: Some(0) })),
    (1, 1, Some(Refusal::OutOfTurn { expected: Some(2) })),
    (0, 0, None),
    (2, 0, Some(Refusal::OutOfTurn { expected: Some(1) })),
    (1, 0, None),
    (2, 0, Some(Refusal::OutOfTurn { expected: None })),
    (2, 1, None),
];

/// The version of a record that is finished.
fn version<N: Naming>(rows: &[Phase<N>], row: usize) -> Option<u64> {
    Some(answer(rows, row)?.value().version)
}

/// Calls the phases of the records in this order.
pub(crate) fn go_in_odd_order<N: Naming, R: Abort + AllocGlobal + Wait>(
    rt: &R,
    alloc: Global,
    cluster: &Cluster<'_, N>,
) -> Result<(), Fail> {
    let rows = rows_after(rt, alloc, cluster, LINES, STORY)?;
    let rows = rows.as_slice();
    let versions = [version(rows, 0), version(rows, 1), version(rows, 2)];
    assert!(rt; versions == [Some(10), Some(20), Some(30)]);
    Ok(())
}

#[test]
fn phases_in_an_odd_order_hand_back_what_they_are_given(rt: HostRuntime) -> Result<(), Fail> {
    let alloc = rt.alloc();
    tell(
        &rt,
        alloc,
        blank(alloc, 12, 3, 2)?,
        &[0, 1],
        &Story::InOddOrder,
    )
}
