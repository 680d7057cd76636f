//! Tests of calls that the built program does not make, at sizes far beyond those of their other tests.

use crate::larger::sizes::{MOVES, numbered_range};
use crate::larger::sizes_of_batches::{TRANSACTIONS, cluster};
use dated_owners::OwnerMap;
use request_builder::Share;
use share_judge::{Verdict, Verdicts, WriteHistory};
use std::alloc::Global;
use std::test::Fail;
use system_keys::Items;
use testing::{PartLine, batch, part, range, room};
use turn_world::{Event, TurnWorld};

// ---- a map of owners

/// A map in which many ranges were moved at one date, to resolvers 0 and 1 in turn.
fn map_of_many_moves(alloc: Global) -> Result<OwnerMap, Fail> {
    let mut map = OwnerMap::new(alloc, 2)?;
    for number in 0..MOVES {
        map.move_range(&numbered_range(alloc, number)?, 1, number % 2)?;
    }
    Ok(map)
}

#[test]
fn a_map_of_ten_thousand_moves_lists_the_owners(rt: HostRuntime) -> Result<(), Fail> {
    let map = map_of_many_moves(rt.alloc())?;
    let all = range(rt.alloc(), b"", b"\xff")?;
    assert!(rt; map.read_owners(&all, 0)?.as_slice() == [0, 1].as_slice());
    assert!(rt; map.write_owners(&all)?.as_slice() == [0, 1].as_slice());
    let last = numbered_range(rt.alloc(), MOVES - 1)?;
    assert!(rt; map.write_owners(&last)?.as_slice() == [1].as_slice());
    Ok(())
}

// ---- a history of writes

const WRITE: PartLine<'static> = (0, &[], &[(b"k", b"l")]);

const READ: PartLine<'static> = (0, &[(b"k", b"l")], &[]);

/// A share of a write and then of reads of the same keys, with as many parts as a share may have.
fn full_share(alloc: Global) -> Result<Share, Fail> {
    let mut parts = room(alloc, TRANSACTIONS)?;
    parts.push(part(alloc, 0, WRITE)?)?;
    for number in 1..TRANSACTIONS {
        parts.push(part(alloc, number, READ)?)?;
    }
    Ok(Share::new(Items::from(parts)))
}

/// The verdicts that the history gives on the share at version 10, which it has not judged.
fn judged(history: &mut WriteHistory, share: &Share) -> Result<Verdicts, Fail> {
    if 10 <= history.last() {
        return Err(Fail::new("version 10 was judged"));
    }
    Ok(history.judge(10, share)?)
}

#[test]
fn a_history_judges_the_greatest_share(rt: HostRuntime) -> Result<(), Fail> {
    let mut history = WriteHistory::new(rt.alloc(), 100)?;
    let verdicts = judged(&mut history, &full_share(rt.alloc())?)?;
    let [first, rest @ ..] = verdicts.as_slice() else {
        return Err(Fail::new("there is no verdict"));
    };
    assert!(rt; *first == Verdict::Committed && rest.len() == TRANSACTIONS - 1);
    for verdict in rest {
        assert!(rt; *verdict == Verdict::Conflict);
    }
    Ok(())
}

// ---- what is left of a run

/// How many records are left, each with an offer and a finish: of these no document names a greatest
/// number.
const RECORDS: usize = 2_000;

/// Gives proxy 0 a record for each of many empty batches.
fn sequence_many(alloc: Global, world: &mut TurnWorld) -> Result<(), Fail> {
    for _ in 0..RECORDS {
        let batch = batch(alloc, &[])?;
        world.step(&Event::Sequence { proxy: 0, batch })?;
    }
    Ok(())
}

/// Carries out what is left, and returns how many events that were.
fn finish_all(alloc: Global, world: &mut TurnWorld) -> Result<usize, Fail> {
    match world.finish_all(alloc) {
        Ok(answers) => Ok(answers.len()),
        Err(_stopped) => Err(Fail::new("the run has stopped")),
    }
}

#[test]
fn very_many_events_that_are_left_are_carried_out(rt: HostRuntime) -> Result<(), Fail> {
    let mut world = cluster(rt.alloc())?;
    sequence_many(rt.alloc(), &mut world)?;
    assert!(rt; world.events_left(rt.alloc())?.len() == 2 * RECORDS);
    assert!(rt; finish_all(rt.alloc(), &mut world)? == 2 * RECORDS);
    assert!(rt; world.events_left(rt.alloc())?.len() == 0);
    Ok(())
}
