//! Tests of share_judge: parts that are too old, and copies of a history that forgot.

use crate::tests::are_alike;
use request_builder::Share;
use share_judge::{Verdict, WriteHistory};
use std::alloc::Global;
use std::process::Abort;
use std::test::Fail;
use testing::{Ends, PartLine, parts};

const B: Ends<'static> = (b"b", b"b\0");

const C: Ends<'static> = (b"c", b"c\0");

/// A share as plain data: its version, its parts and their verdicts, and up to where is forgotten
/// after it.
type Judged = (u64, &'static [PartLine<'static>], &'static [Verdict], u64);

/// Shares, with a window of 20. A part that reads is too old below the version minus the window.
const SHARES: &[Judged] = &[
    (10, &[(0, &[], &[B])], &[Verdict::Committed], 0),
    // the first part is too old, and then the last one, and then all
    (
        100,
        &[(79, &[B], &[C]), (80, &[B], &[]), (80, &[C], &[])],
        &[Verdict::TooOld, Verdict::Committed, Verdict::Committed],
        0,
    ),
    (
        110,
        &[
            (90, &[B], &[C]),
            (90, &[C], &[]),
            (89, &[], &[C]),
            (89, &[C], &[]),
        ],
        &[
            Verdict::Committed,
            Verdict::Conflict,
            Verdict::Committed,
            Verdict::TooOld,
        ],
        0,
    ),
    (
        120,
        &[(99, &[B], &[]), (0, &[C], &[B])],
        &[Verdict::TooOld, Verdict::TooOld],
        100,
    ),
    // the same once the first write is forgotten
    (
        130,
        &[(109, &[B], &[B]), (110, &[B], &[]), (110, &[C], &[])],
        &[Verdict::TooOld, Verdict::Committed, Verdict::Committed],
        110,
    ),
    (
        140,
        &[(120, &[], &[B]), (120, &[B], &[]), (119, &[B], &[])],
        &[Verdict::Committed, Verdict::Conflict, Verdict::TooOld],
        u64::MAX,
    ),
    (
        150,
        &[(129, &[B], &[]), (0, &[C], &[B])],
        &[Verdict::TooOld, Verdict::TooOld],
        0,
    ),
];

/// Whether the history gives these verdicts on the share of the parts, numbered from 0. The version
/// must be above the last.
fn gives(
    alloc: Global,
    history: &mut WriteHistory,
    version: u64,
    lines: &[PartLine<'_>],
    verdicts: &[Verdict],
) -> Result<bool, Fail> {
    if version <= history.last() {
        return Ok(false);
    }
    let share = Share::new(parts(alloc, lines)?);
    let given = history.judge(version, &share)?;
    Ok(given.as_slice() == verdicts)
}

/// Whether a copy of the history holds the same.
fn is_copied(alloc: Global, history: &WriteHistory) -> Result<bool, Fail> {
    let copy = history.copy()?;
    Ok(are_alike(alloc, history, &copy)?)
}

fn judges_and_forgets<R: Abort + AllocGlobal>(
    rt: &R,
    history: &mut WriteHistory,
) -> Result<(), Fail> {
    for (version, lines, verdicts, oldest) in SHARES {
        let is_right = gives(rt.alloc(), history, *version, *lines, *verdicts)?;
        history.forget(*oldest);
        assert!(rt; is_right, "at {version}");
        assert!(rt; is_copied(rt.alloc(), history)?, "after {version}");
    }
    Ok(())
}

#[test]
fn parts_are_too_old_before_and_after_writes_are_forgotten(rt: HostRuntime) -> Result<(), Fail> {
    let mut history = WriteHistory::new(rt.alloc(), 20)?;
    judges_and_forgets(&rt, &mut history)
}
