//! Tests of dated_owners: whom a map asks after moves.

use crate::tests::{Copied, copy_of};
use dated_owners::{OwnerMap, Refusal};
use std::alloc::Global;
use std::process::Abort;
use std::test::Fail;
use system_keys::{Items, KeyRange, OutOfMemory};
use testing::{Ends, range, twice};

/// A call of a map, and what it returns.
#[derive(Clone, Copy)]
enum Call {
    /// A move of the range at the date to the resolver, and what it is refused with.
    Move(Ends<'static>, u64, usize, Option<Refusal>),
    /// What is dated before the version is forgotten.
    Forget(u64),
    /// A read of the range at the snapshot, and whom it asks.
    Read(Ends<'static>, u64, &'static [usize]),
    /// A write of the range, and whom it asks.
    Write(Ends<'static>, &'static [usize]),
    /// How many pieces there are.
    Pieces(usize),
}

/// One call for a move of the range.
fn move_by_call(
    map: &mut OwnerMap,
    range: &KeyRange,
    date: u64,
    dest: usize,
) -> Result<(), Refusal> {
    map.move_range(range, date, dest)
}

/// What a move of the range is refused with, if it is.
fn moved(
    map: &mut OwnerMap,
    alloc: Global,
    ends: Ends<'_>,
    date: u64,
    dest: usize,
) -> Result<Option<Refusal>, Fail> {
    let range = range(alloc, ends.0, ends.1)?;
    let moved = twice!(alloc; move_by_call(map, &range, date, dest), Refusal::OutOfMemory);
    Ok(moved.err())
}

/// One call for whom a read of the range at the snapshot asks, or a write of it.
fn asked_by_call(
    map: &OwnerMap,
    range: &KeyRange,
    snapshot: Option<u64>,
) -> Result<Items<usize>, OutOfMemory> {
    match snapshot {
        Some(snapshot) => map.read_owners(range, snapshot),
        None => map.write_owners(range),
    }
}

/// Whether that call names these.
fn asks_by_call(
    map: &OwnerMap,
    range: &KeyRange,
    snapshot: Option<u64>,
    asked: &[usize],
) -> Result<bool, OutOfMemory> {
    let found = asked_by_call(map, range, snapshot)?;
    Ok(found.as_slice() == asked)
}

/// Whether a read of these keys at the snapshot, or a write of them, asks these.
fn asks(
    map: &OwnerMap,
    alloc: Global,
    ends: Ends<'_>,
    snapshot: Option<u64>,
    asked: &[usize],
) -> Result<bool, Fail> {
    let range = range(alloc, ends.0, ends.1)?;
    Ok(twice!(alloc; asks_by_call(map, &range, snapshot, asked), OutOfMemory)?)
}

/// Whether the call returns what it should.
fn is_right(map: &mut OwnerMap, alloc: Global, call: Call) -> Result<bool, Fail> {
    match call {
        Call::Move(ends, date, dest, refusal) => {
            Ok(moved(map, alloc, ends, date, dest)? == refusal)
        }
        Call::Forget(version) => {
            map.forget(version);
            Ok(true)
        }
        Call::Read(ends, snapshot, asked) => asks(map, alloc, ends, Some(snapshot), asked),
        Call::Write(ends, asked) => asks(map, alloc, ends, None, asked),
        Call::Pieces(count) => Ok(map.pieces() == count),
    }
}

fn are_right<R: Abort + AllocGlobal>(
    rt: &R,
    map: &mut OwnerMap,
    calls: &[Call],
) -> Result<(), Fail> {
    for (place, call) in calls.iter().enumerate() {
        assert!(rt; is_right(map, rt.alloc(), *call)?, "call {place}");
    }
    Ok(())
}

/// One call for a map of three resolvers.
fn map_by_call(alloc: Global) -> Result<OwnerMap, OutOfMemory> {
    OwnerMap::new(alloc, 3)
}

fn new_map(alloc: Global) -> Result<OwnerMap, OutOfMemory> {
    twice!(alloc; map_by_call(alloc), OutOfMemory)
}

/// The calls return what they should, after those of the two moves.
fn are_right_after_moves<R: Abort + AllocGlobal>(
    rt: &R,
    map: &mut OwnerMap,
    calls: &[Call],
) -> Result<(), Fail> {
    are_right(rt, map, TWO_MOVES)?;
    are_right(rt, map, calls)
}

const ALL: Ends<'static> = (b"", b"\xff\xff");

const M_TO_T: Ends<'static> = (b"m", b"t");

const P_TO_Q: Ends<'static> = (b"p", b"q");

const A_TO_B: Ends<'static> = (b"a", b"b");

/// Two moves among three resolvers. The last owner is always asked, and one dated at the snapshot does
/// not stop the walk.
const TWO_MOVES: &[Call] = &[
    Call::Read(ALL, 0, &[0]),
    Call::Write(ALL, &[0]),
    Call::Pieces(1),
    Call::Move(M_TO_T, 21, 1, None),
    Call::Move(P_TO_Q, 41, 2, None),
    Call::Pieces(5),
    Call::Read(M_TO_T, 20, &[0, 1, 2]),
    Call::Read(M_TO_T, 30, &[1, 2]),
    Call::Read(P_TO_Q, 41, &[1, 2]),
    Call::Read(P_TO_Q, 42, &[2]),
    Call::Read((b"a", b"m"), 20, &[0]),
    Call::Write((b"a", b"z"), &[0, 1, 2]),
    Call::Write(M_TO_T, &[1, 2]),
    Call::Write(P_TO_Q, &[2]),
];

#[test]
fn a_map_asks_the_owners_of_its_keys(rt: HostRuntime) -> Result<(), Fail> {
    let mut map = new_map(rt.alloc())?;
    are_right(&rt, &mut map, TWO_MOVES)?;
    assert!(rt; map.resolvers() == 3 && map.last_date() == 41);
    Ok(())
}

/// What is forgotten after these moves does not come back.
const FORGETTING: &[Call] = &[
    Call::Forget(30),
    Call::Read(M_TO_T, 20, &[1, 2]),
    Call::Forget(10),
    Call::Read(M_TO_T, 20, &[1, 2]),
    Call::Write((b"a", b"z"), &[0, 1, 2]),
    Call::Move(ALL, 61, 0, None),
    Call::Pieces(5),
    Call::Forget(70),
    Call::Pieces(1),
    Call::Read(ALL, 0, &[0]),
    Call::Write(ALL, &[0]),
];

#[test]
fn what_is_forgotten_does_not_come_back(rt: HostRuntime) -> Result<(), Fail> {
    let mut map = new_map(rt.alloc())?;
    are_right_after_moves(&rt, &mut map, FORGETTING)
}

/// Refused moves after these two change nothing, and one at the date of the last is made.
const REFUSED: &[Call] = &[
    Call::Move(A_TO_B, 40, 1, Some(Refusal::DateGoesBack)),
    Call::Move(A_TO_B, 40, 3, Some(Refusal::NoSuchResolver)),
    Call::Write(A_TO_B, &[0]),
    Call::Move(A_TO_B, 41, 2, None),
    Call::Write(A_TO_B, &[2]),
];

#[test]
fn dates_may_be_equal_but_not_go_back(rt: HostRuntime) -> Result<(), Fail> {
    let mut map = new_map(rt.alloc())?;
    are_right_after_moves(&rt, &mut map, REFUSED)
}

/// Two moves at the greatest date. None is dated later, and forgetting keeps what came before them.
const AT_THE_GREATEST_DATE: &[Call] = &[
    Call::Read(ALL, u64::MAX, &[0]),
    Call::Move(M_TO_T, u64::MAX, 1, None),
    Call::Move(A_TO_B, u64::MAX - 1, 2, Some(Refusal::DateGoesBack)),
    Call::Move(P_TO_Q, u64::MAX, 2, None),
    Call::Pieces(5),
    Call::Read((b"m", b"p"), u64::MAX, &[0, 1]),
    Call::Read(P_TO_Q, u64::MAX, &[0, 1, 2]),
    Call::Write(M_TO_T, &[1, 2]),
    Call::Forget(u64::MAX),
    Call::Read(P_TO_Q, 0, &[0, 1, 2]),
    Call::Write(A_TO_B, &[0]),
    Call::Pieces(5),
];

#[test]
fn moves_are_made_at_the_greatest_date(rt: HostRuntime) -> Result<(), Fail> {
    let mut map = new_map(rt.alloc())?;
    are_right(&rt, &mut map, AT_THE_GREATEST_DATE)?;
    assert!(rt; map.last_date() == u64::MAX);
    Ok(())
}

/// Each refusal with the number and the name that are printed.
const PRINTED: &[(Refusal, Option<u32>, &str)] = &[
    (Refusal::NoSuchResolver, Some(20), "NoSuchResolver"),
    (Refusal::DateGoesBack, Some(21), "DateGoesBack"),
    (Refusal::OutOfMemory, None, "OutOfMemory"),
];

#[test]
fn refusals_have_numbers_and_names(rt: HostRuntime) {
    for (refusal, number, name) in PRINTED {
        assert!(rt;
            refusal.number() == *number && refusal.name() == *name,
            "{name}"
        );
    }
}

// ---- many moves

/// All 64 resolvers.
const EACH: &[usize] = &[
    0, 1, 2, 3, 4, 5, 6, 7, 8, 9, 10, 11, 12, 13, 14, 15, 16, 17, 18, 19, 20, 21, 22, 23, 24, 25,
    26, 27, 28, 29, 30, 31, 32, 33, 34, 35, 36, 37, 38, 39, 40, 41, 42, 43, 44, 45, 46, 47, 48, 49,
    50, 51, 52, 53, 54, 55, 56, 57, 58, 59, 60, 61, 62, 63,
];

const LAST_FIVE: &[usize] = &[59, 60, 61, 62, 63];

/// The keys that moved 63 times.
const MOVED_OFTEN: Ends<'static> = (b"\x3f", b"\xff");

const MANY_MOVES: &[Call] = &[
    Call::Pieces(65),
    Call::Write(ALL, EACH),
    Call::Write(MOVED_OFTEN, &[63]),
    Call::Read(MOVED_OFTEN, 0, EACH),
    Call::Read(MOVED_OFTEN, 60, LAST_FIVE),
];

const MANY_FORGOTTEN: &[Call] = &[
    Call::Forget(60),
    Call::Pieces(65),
    Call::Write(ALL, EACH),
    Call::Read(MOVED_OFTEN, 0, LAST_FIVE),
];

/// The keys from each one of 1 to 63 on move to the resolver of this number, at that date.
fn move_often(alloc: Global, map: &mut OwnerMap) -> Result<(), Fail> {
    for number in 1..64u8 {
        let ends: Ends<'_> = (&[number], b"\xff");
        moved(map, alloc, ends, number as u64, number as usize)?;
    }
    Ok(())
}

impl Copied for OwnerMap {
    fn copied(&self) -> Result<OwnerMap, OutOfMemory> {
        self.copy()
    }
}

/// The map forgets moves, and a copy of it does not.
fn forgets_beside_copy<R: Abort + AllocGlobal>(
    rt: &R,
    map: &mut OwnerMap,
    copy: &mut OwnerMap,
) -> Result<(), Fail> {
    are_right(rt, map, MANY_FORGOTTEN)?;
    are_right(rt, copy, MANY_MOVES)
}

/// Many moves are made, and then forgotten beside a copy.
fn forgets_many<R: Abort + AllocGlobal>(rt: &R, map: &mut OwnerMap) -> Result<(), Fail> {
    move_often(rt.alloc(), map)?;
    let mut copy = copy_of(rt.alloc(), map)?;
    forgets_beside_copy(rt, map, &mut copy)
}

#[test]
fn many_moves_are_forgotten_and_stay_in_a_copy(rt: HostRuntime) -> Result<(), Fail> {
    let mut map = OwnerMap::new(rt.alloc(), 64)?;
    forgets_many(&rt, &mut map)
}

const FIRST_KEYS: Ends<'static> = (b"\x01", b"\x02");

const LATE_KEYS: Ends<'static> = (b"\x30", b"\x31");

/// The keys from each one of 63 to 1 on move at date 7: first to resolver 1, and those from 32 on to
/// resolver 2.
fn move_at_one_date(alloc: Global, map: &mut OwnerMap) -> Result<(), Fail> {
    for back in 1..64u8 {
        let number = 64 - back;
        let dest: usize = if number <= 32 { 2 } else { 1 };
        moved(map, alloc, (&[number], b"\xff"), 7, dest)?;
    }
    Ok(())
}

const MOVED_AT_ONE_DATE: &[Call] = &[
    Call::Read(FIRST_KEYS, 7, &[0, 2]),
    Call::Read(LATE_KEYS, 7, &[0, 1, 2]),
    Call::Read(LATE_KEYS, 8, &[2]),
    Call::Write(LATE_KEYS, &[2]),
    Call::Write(ALL, &[0, 2]),
];

const MOVED_AFTER_MERGE: &[Call] = &[
    Call::Move(LATE_KEYS, 9, 0, None),
    Call::Read(LATE_KEYS, 8, &[0, 2]),
    Call::Read(LATE_KEYS, 7, &[0, 1, 2]),
    Call::Forget(9),
    Call::Read(LATE_KEYS, 0, &[0, 2]),
    Call::Write(LATE_KEYS, &[0]),
    Call::Move(LATE_KEYS, 8, 1, Some(Refusal::DateGoesBack)),
];

/// Each key has resolver 2 alone, or 1 and 2, or the first owner, before and behind. A piece for which
/// an allocation fails stays as it is, and is merged once the moves are made again.
#[test]
fn merged_owners_are_fewer_and_ask_as_before(rt: HostRuntime) -> Result<(), Fail> {
    let mut map = new_map(rt.alloc())?;
    move_at_one_date(rt.alloc(), &mut map)?;
    are_right(&rt, &mut map, MOVED_AT_ONE_DATE)?;
    assert!(rt; map.pieces() == 65);
    map.merge();
    let pieces = map.pieces();
    are_right(&rt, &mut map, MOVED_AT_ONE_DATE)?;
    move_at_one_date(rt.alloc(), &mut map)?;
    map.merge();
    assert!(rt; pieces.min(map.pieces()) == 4);
    are_right(&rt, &mut map, MOVED_AT_ONE_DATE)?;
    are_right(&rt, &mut map, MOVED_AFTER_MERGE)
}

/// Moves by which two neighbours get the same owners in other orders.
const OTHER_ORDERS: &[(Ends<'static>, usize)] = &[
    (A_TO_B, 0),
    (A_TO_C, 1),
    (B_TO_C, 0),
    (A_TO_C, 2),
];

const A_TO_C: Ends<'static> = (b"a", b"c");

const B_TO_C: Ends<'static> = (b"b", b"c");

fn move_in_other_orders(alloc: Global, map: &mut OwnerMap) -> Result<(), Fail> {
    for _ in 0..11 {
        for (ends, dest) in OTHER_ORDERS {
            moved(map, alloc, *ends, 7, *dest)?;
        }
    }
    Ok(())
}

const MOVED_IN_OTHER_ORDERS: &[Call] = &[
    Call::Read(A_TO_B, 7, &[0, 1, 2]),
    Call::Read(B_TO_C, 8, &[2]),
    Call::Write(A_TO_C, &[2]),
];

#[test]
fn neighbours_with_the_same_owners_in_other_orders_are_joined(rt: HostRuntime) -> Result<(), Fail> {
    let mut map = new_map(rt.alloc())?;
    move_in_other_orders(rt.alloc(), &mut map)?;
    map.merge();
    let pieces = map.pieces();
    move_in_other_orders(rt.alloc(), &mut map)?;
    map.merge();
    assert!(rt; pieces.min(map.pieces()) == 3);
    are_right(&rt, &mut map, MOVED_IN_OTHER_ORDERS)
}
