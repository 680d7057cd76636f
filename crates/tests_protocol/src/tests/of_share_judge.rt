//! Tests of share_judge: the verdicts on shares, and what is forgotten.

use crate::tests::{Copied, copy_of};
use model::Part;
use request_builder::Share;
use share_judge::{Verdict, WriteHistory};
use std::alloc::Global;
use std::process::Abort;
use std::test::Fail;
use system_keys::{Items, OutOfMemory};
use testing::{Ends, PartLine, none, one, parts, range, room, twice};

const COMMITTED: &[Verdict] = &[Verdict::Committed];

const CONFLICT: &[Verdict] = &[Verdict::Conflict];

/// One call for a history.
fn history_by_call(alloc: Global, window: u64) -> Result<WriteHistory, OutOfMemory> {
    WriteHistory::new(alloc, window)
}

fn new_history(alloc: Global, window: u64) -> Result<WriteHistory, OutOfMemory> {
    twice!(alloc; history_by_call(alloc, window), OutOfMemory)
}

/// Whether the history gives just these verdicts on the share. The version must be above the last.
fn gives(
    alloc: Global,
    history: &mut WriteHistory,
    version: u64,
    share: &Share,
    verdicts: &[Verdict],
) -> Result<bool, OutOfMemory> {
    if version <= history.last() {
        return Ok(false);
    }
    let given = twice!(alloc; history.judge(version, share), OutOfMemory)?;
    Ok(given.as_slice() == verdicts)
}

/// Whether it gives these on the share of the parts, numbered from 0.
fn gives_on(
    alloc: Global,
    history: &mut WriteHistory,
    version: u64,
    lines: &[PartLine<'_>],
    verdicts: &[Verdict],
) -> Result<bool, Fail> {
    let share = Share::new(parts(alloc, lines)?);
    Ok(gives(alloc, history, version, &share, verdicts)?)
}

const B: Ends<'static> = (b"b", b"b\0");

const C: Ends<'static> = (b"c", b"c\0");

const D: Ends<'static> = (b"d", b"d\0");

const E: Ends<'static> = (b"e", b"e\0");

/// One part that writes `[a, c)`.
const FIRST: &[PartLine<'static>] = &[(0, &[], &[(b"a", b"c")])];

/// Reads around that write at version 10, and writes that are refused and committed.
const SECOND: &[PartLine<'static>] = &[
    (10, &[B], &[]),
    (9, &[B], &[]),
    (9, &[C], &[]),
    (9, &[B], &[D]),
    (9, &[D], &[]),
    (9, &[C, E], &[D, E]),
    (9, &[C, D], &[]),
];

const SECOND_VERDICTS: &[Verdict] = &[
    Verdict::Committed,
    Verdict::Conflict,
    Verdict::Committed,
    Verdict::Conflict,
    Verdict::Committed,
    Verdict::Committed,
    Verdict::Conflict,
];

/// Both shares get their verdicts where up to `oldest` is forgotten between them.
fn gives_both<R: Abort + AllocGlobal>(
    rt: &R,
    history: &mut WriteHistory,
    oldest: u64,
) -> Result<(), Fail> {
    assert!(rt; gives_on(rt.alloc(), history, 10, FIRST, COMMITTED)?);
    history.forget(oldest);
    assert!(rt;
        gives_on(rt.alloc(), history, 20, SECOND, SECOND_VERDICTS)?,
        "with {oldest}"
    );
    Ok(())
}

#[test]
fn what_is_forgotten_changes_no_verdict(rt: HostRuntime) -> Result<(), Fail> {
    for oldest in [0, 9, 10, 11, u64::MAX] {
        let mut history = new_history(rt.alloc(), 100)?;
        gives_both(&rt, &mut history, oldest)?;
    }
    Ok(())
}

/// A part that writes `[a, z)`, one that writes `[m, n)`, and a read of `m` at snapshot 20.
const WIDE: &[PartLine<'static>] = &[(0, &[], &[(b"a", b"z")])];

const NARROW: &[PartLine<'static>] = &[(0, &[], &[(b"m", b"n")])];

const READ: &[PartLine<'static>] = &[(20, &[(b"m", b"m\0")], &[])];

/// The versions, rows and verdicts that are judged with a window of 10; up to where is forgotten after
/// each, one after the other, and how many steps there are then.
const NESTED: &[(u64, &[PartLine<'static>], &[Verdict], &[(u64, usize)])] = &[
    (5, WIDE, COMMITTED, &[(0, 3)]),
    (10, NARROW, COMMITTED, &[(0, 5)]),
    (20, &[], &[], &[(5, 3), (50, 1)]),
    (30, READ, COMMITTED, &[(0, 1)]),
];

/// After each forgetting there is this number of steps.
fn forgets_to<R: Abort>(rt: &R, history: &mut WriteHistory, forgettings: &[(u64, usize)]) {
    for (oldest, steps) in forgettings {
        history.forget(*oldest);
        assert!(rt; history.steps() == *steps, "after what is before {oldest}");
    }
}

fn forgets_nested<R: Abort + AllocGlobal>(rt: &R, history: &mut WriteHistory) -> Result<(), Fail> {
    for (version, lines, verdicts, forgettings) in NESTED {
        let is_right = gives_on(rt.alloc(), history, *version, *lines, *verdicts)?;
        assert!(rt; is_right, "at {version}");
        forgets_to(rt, history, *forgettings);
    }
    Ok(())
}

#[test]
fn forgotten_steps_become_none(rt: HostRuntime) -> Result<(), Fail> {
    let mut history = new_history(rt.alloc(), 10)?;
    forgets_nested(&rt, &mut history)
}

const A: Ends<'static> = (b"a", b"a\0");

/// At version 140 with a window of 100: a read at the oldest snapshot, one before it, and a write.
const ABOUT_THE_WINDOW: &[PartLine<'static>] = &[(40, &[A], &[]), (39, &[A], &[]), (0, &[], &[B])];

/// A write and a read of `a` in one batch, and a read and a write of `b` in the next one.
const WRITE_FIRST: &[PartLine<'static>] = &[(0, &[], &[A]), (0, &[A], &[])];

const READ_FIRST: &[PartLine<'static>] = &[(10, &[B], &[]), (10, &[], &[B])];

/// The versions, rows and verdicts of histories with a window of 100.
const WITHIN_A_BATCH: &[&[(u64, &[PartLine<'static>], &[Verdict])]] = &[
    &[(
        140,
        ABOUT_THE_WINDOW,
        &[Verdict::Committed, Verdict::TooOld, Verdict::Committed],
    )],
    &[
        (10, WRITE_FIRST, &[Verdict::Committed, Verdict::Conflict]),
        (20, READ_FIRST, &[Verdict::Committed, Verdict::Committed]),
    ],
];

#[test]
fn a_batch_is_judged_by_its_window_and_in_its_order(rt: HostRuntime) -> Result<(), Fail> {
    for rows in WITHIN_A_BATCH {
        let mut history = new_history(rt.alloc(), 100)?;
        for (version, lines, verdicts) in *rows {
            let is_right = gives_on(rt.alloc(), &mut history, *version, *lines, *verdicts)?;
            assert!(rt; is_right, "at {version}");
        }
    }
    Ok(())
}

impl Copied for WriteHistory {
    fn copied(&self) -> Result<WriteHistory, OutOfMemory> {
        self.copy()
    }
}

/// Whether a copy gives this verdict on a read of `b` at snapshot 9.
fn copy_gives(alloc: Global, history: &WriteHistory, verdicts: &[Verdict]) -> Result<bool, Fail> {
    let mut copy = copy_of(alloc, history)?;
    gives_on(alloc, &mut copy, 20, &[(9, &[B], &[])], verdicts)
}

/// A copy gives what the history does that it is made of, and leaves it as it is.
fn judges_between_copies<R: Abort + AllocGlobal>(
    rt: &R,
    history: &mut WriteHistory,
) -> Result<(), Fail> {
    assert!(rt; copy_gives(rt.alloc(), history, COMMITTED)?);
    assert!(rt; gives_on(rt.alloc(), history, 10, FIRST, COMMITTED)?);
    assert!(rt; copy_gives(rt.alloc(), history, CONFLICT)?);
    assert!(rt; history.last() == 10);
    Ok(())
}

#[test]
fn a_copy_goes_its_own_way(rt: HostRuntime) -> Result<(), Fail> {
    let mut history = new_history(rt.alloc(), 100)?;
    judges_between_copies(&rt, &mut history)
}

// ---- many parts, and many shares

/// How many parts a share has, and how many shares are judged.
const MANY: usize = 300;

/// A part that reads a key of its own at snapshot 0, or writes it.
fn own_part(alloc: Global, number: usize, is_read: bool) -> Result<Part, Fail> {
    let key = [(number / 256 % 256) as u8, (number % 256) as u8];
    let own = one(alloc, range(alloc, &key, &[key[0], key[1], 0])?)?;
    let (reads, writes) = if is_read {
        (own, none(alloc))
    } else {
        (none(alloc), own)
    };
    Ok(Part::new(alloc, number, 0, reads, writes)?)
}

/// Whether the history gives these verdicts on a share of many such parts.
fn gives_on_many(
    alloc: Global,
    history: &mut WriteHistory,
    version: u64,
    is_read: bool,
    verdicts: &[Verdict],
) -> Result<bool, Fail> {
    let mut parts = room(alloc, MANY)?;
    for number in 0..MANY {
        parts.push(own_part(alloc, number, is_read)?)?;
    }
    Ok(gives(
        alloc,
        history,
        version,
        &Share::new(Items::from(parts)),
        verdicts,
    )?)
}

/// A write of `b`, and reads of it and of `c` at snapshots past the version, the greatest one among them.
const WRITE_AND_READ: &[PartLine<'static>] = &[
    (0, &[], &[B]),
    (1000, &[B], &[]),
    (u64::MAX, &[B], &[]),
    (1000, &[C], &[]),
    (u64::MAX, &[C], &[]),
];

const READS_OF_B_CONFLICT: &[Verdict] = &[
    Verdict::Committed,
    Verdict::Conflict,
    Verdict::Conflict,
    Verdict::Committed,
    Verdict::Committed,
];

/// Many parts are written at version 10, and then read.
fn judges_many_parts<R: Abort + AllocGlobal>(
    rt: &R,
    history: &mut WriteHistory,
) -> Result<(), Fail> {
    assert!(rt; gives_on_many(rt.alloc(), history, 10, false, &[Verdict::Committed; MANY])?);
    assert!(rt; history.steps() == 2 * MANY + 1);
    assert!(rt; gives_on_many(rt.alloc(), history, 20, true, &[Verdict::Conflict; MANY])?);
    Ok(())
}

/// Many shares are judged, and forgotten one after the other.
fn judges_many_shares<R: Abort + AllocGlobal>(
    rt: &R,
    history: &mut WriteHistory,
) -> Result<(), Fail> {
    for version in 30..30 + MANY as u64 {
        let is_right = gives_on(
            rt.alloc(),
            history,
            version,
            WRITE_AND_READ,
            READS_OF_B_CONFLICT,
        )?;
        assert!(rt; is_right, "at {version}");
        history.forget(version);
    }
    assert!(rt; history.steps() == 3);
    Ok(())
}

fn judges_many<R: Abort + AllocGlobal>(rt: &R, history: &mut WriteHistory) -> Result<(), Fail> {
    judges_many_parts(rt, history)?;
    judges_many_shares(rt, history)
}

#[test]
fn many_parts_and_shares_are_judged_and_forgotten(rt: HostRuntime) -> Result<(), Fail> {
    let mut history = new_history(rt.alloc(), 20)?;
    judges_many(&rt, &mut history)
}
