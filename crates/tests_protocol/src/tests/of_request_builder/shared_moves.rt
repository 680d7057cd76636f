//! Moves that records share, against a plain list.

use crate::tests::of_request_builder::record;
use crate::tests::{Copied, copy_of};
use mutation::Batch;
use request_builder::{Move, Moves, Record};
use std::alloc::Global;
use std::process::Abort;
use std::test::Fail;
use system_keys::OutOfMemory;
use testing::{plain_batch, range, room, twice};

/// How many moves the test makes.
const MANY: usize = 300;

/// The keys of `[m, t)` move to a resolver that the date names.
fn move_at(alloc: Global, date: u64) -> Result<Move, Fail> {
    Ok(Move {
        range: range(alloc, &[b'm', (date % 200) as u8], b"t")?,
        date,
        dest: (date % 7) as usize,
    })
}

fn is_move(found: &Move, wanted: &Move) -> bool {
    found.range.begin() == wanted.range.begin()
        && found.range.end() == wanted.range.end()
        && found.date == wanted.date
        && found.dest == wanted.dest
}

/// Whether these are the moves of the plain list, and no others.
fn are_moves(moves: &Moves, plain: &[Move]) -> bool {
    for (place, wanted) in plain.iter().enumerate() {
        let Some(found) = moves.get(place) else {
            return false;
        };
        if !is_move(found, wanted) {
            return false;
        }
    }
    moves.len() == plain.len() && moves.get(plain.len()).is_none()
}

/// Adds a copy of the move.
fn push_copy(moves: &mut Moves, one: &Move) -> Result<(), OutOfMemory> {
    moves.push(one.copy()?)
}

/// Adds the move to both.
fn push(alloc: Global, moves: &mut Moves, plain: &mut Vec<Move>, one: Move) -> Result<(), Fail> {
    twice!(alloc; push_copy(moves, &one), OutOfMemory)?;
    plain.push(one)?;
    Ok(())
}

/// Adds one move to both after the other, and makes a record after each.
fn push_all(
    alloc: Global,
    batch: &Batch,
    moves: &mut Moves,
    plain: &mut Vec<Move>,
) -> Result<Vec<Record>, Fail> {
    let mut records = room(alloc, MANY)?;
    for date in 0..MANY as u64 {
        push(alloc, moves, plain, move_at(alloc, date)?)?;
        records.push(record(alloc, moves, batch)?)?;
    }
    Ok(records)
}

impl Copied for Moves {
    fn copied(&self) -> Result<Moves, OutOfMemory> {
        self.copy()
    }
}

/// A copy of the moves, which end here.
fn copy_alone(alloc: Global, moves: Moves) -> Result<Moves, OutOfMemory> {
    copy_of(alloc, &moves)
}

/// Each record has the moves that were made before it.
fn have_moves<R: Abort>(rt: &R, records: &[Record], plain: &[Move]) {
    for (place, record) in records.iter().enumerate() {
        let (before, _later) = plain.split_at(place.saturating_add(1).min(plain.len()));
        assert!(rt; are_moves(record.moves(), before), "of record {place}");
    }
}

#[test]
fn records_share_the_moves_before_them(rt: HostRuntime) -> Result<(), Fail> {
    let batch = plain_batch(rt.alloc(), &[])?;
    let mut plain = room(rt.alloc(), MANY)?;
    let mut moves = Moves::new(rt.alloc());
    let records = push_all(rt.alloc(), &batch, &mut moves, &mut plain)?;
    let copy = copy_alone(rt.alloc(), moves)?;
    assert!(rt; are_moves(&copy, &plain));
    have_moves(&rt, &records, &plain);
    Ok(())
}
