//! Tests of great batches, in a cluster without threads: as many transactions as one may have, and very
//! many ranges and mutations, of which no document names a greatest number.

use crate::larger::sizes::numbered_key;
use model::{Config, Finished, Outcome};
use mutation::{Admitted, Batch, GivenRange, Mutation, admit};
use std::alloc::{AllocError, Global};
use std::test::Fail;
use system_keys::Items;
use testing::{
    EMPTY_TRANSACTION, MutationLine, TransactionLine, admit_line, batch, batch_of, bytes,
    given_range, room, transaction,
};
use turn_world::{Answer, Event, TurnWorld};

/// The only proxy commits the batch over the only resolver, in this row.
fn commit(world: &mut TurnWorld, row: usize, batch: Batch) -> Result<Finished, Fail> {
    world.step(&Event::Sequence { proxy: 0, batch })?;
    world.step(&Event::Offer { row, resolver: 0 })?;
    match world.step(&Event::Finish { proxy: 0 })? {
        Answer::Finished(finished) => Ok(finished),
        _ => Err(Fail::new("the batch is not finished")),
    }
}

/// A cluster of one proxy and one resolver.
pub(crate) fn cluster(alloc: Global) -> Result<TurnWorld, Fail> {
    let config = Config::new(1, 1, 100, 10)?;
    Ok(TurnWorld::new(alloc, &config)?)
}

/// How many transactions a batch has at most.
pub(crate) const TRANSACTIONS: usize = 1_024;

const WRITE: TransactionLine<'static> = TransactionLine {
    writes: &[(b"k", b"l")],
    ..EMPTY_TRANSACTION
};

const READ: TransactionLine<'static> = TransactionLine {
    reads: &[(b"k", b"l")],
    ..EMPTY_TRANSACTION
};

/// A batch of a write and then of reads of the same keys, as many as there may be.
fn full_batch(alloc: Global) -> Result<Batch, Fail> {
    let mut transactions = room(alloc, TRANSACTIONS)?;
    transactions.push(admit_line(alloc, WRITE)?)?;
    for _ in 1..TRANSACTIONS {
        transactions.push(admit_line(alloc, READ)?)?;
    }
    batch_of(transactions)
}

#[test]
fn each_part_of_the_greatest_share_is_judged(rt: HostRuntime) -> Result<(), Fail> {
    let mut world = cluster(rt.alloc())?;
    let finished = commit(&mut world, 0, full_batch(rt.alloc())?)?;
    let [first, rest @ ..] = finished.outcomes.as_slice() else {
        return Err(Fail::new("there is no outcome"));
    };
    assert!(rt; matches!(first, Outcome::Committed { .. }) && rest.len() == TRANSACTIONS - 1);
    for outcome in rest {
        assert!(rt; matches!(outcome, Outcome::Conflict));
    }
    Ok(())
}

/// How many ranges a transaction reads, and how many it writes.
const RANGES: usize = 10_000;

/// The range of the key of this number alone.
fn one_key(alloc: Global, number: usize) -> Result<GivenRange, AllocError> {
    let [high, low] = numbered_key(number);
    given_range(alloc, &[high, low], &[high, low, 0])
}

/// The ranges of many keys, one for each key.
fn many_ranges(alloc: Global) -> Result<Items<GivenRange>, AllocError> {
    let mut ranges = room(alloc, RANGES)?;
    for number in 0..RANGES {
        ranges.push(one_key(alloc, number)?)?;
    }
    Ok(Items::from(ranges))
}

/// A transaction that reads these ranges and writes them.
fn touch_many(alloc: Global) -> Result<Admitted, Fail> {
    let mut given = transaction(alloc, EMPTY_TRANSACTION)?;
    given.reads = many_ranges(alloc)?;
    given.writes = many_ranges(alloc)?;
    Ok(admit(alloc, &given)?)
}

/// A transaction that reads the last of these keys, before any write.
const READ_LAST: TransactionLine<'static> = TransactionLine {
    reads: &[(b"\x27\x0f", b"\x27\x0f\x00")],
    ..EMPTY_TRANSACTION
};

#[test]
fn a_transaction_reads_and_writes_very_many_ranges(rt: HostRuntime) -> Result<(), Fail> {
    let mut world = cluster(rt.alloc())?;
    let mut one = room(rt.alloc(), 1)?;
    one.push(touch_many(rt.alloc())?)?;
    let finished = commit(&mut world, 0, batch_of(one)?)?;
    assert!(rt; matches!(finished.outcomes.as_slice(), [Outcome::Committed { .. }]));
    let finished = commit(&mut world, 1, batch(rt.alloc(), &[READ_LAST])?)?;
    assert!(rt; matches!(finished.outcomes.as_slice(), [Outcome::Conflict]));
    Ok(())
}

/// How many mutations a transaction has.
const MUTATIONS: usize = 50_000;

/// The key of the keyServers row of this number, in the order of the numbers.
fn row_key(number: usize) -> [u8; 15] {
    let mut key = *b"\xff/keyServers/..";
    let [high, low] = numbered_key(number);
    key[13] = high;
    key[14] = low;
    key
}

/// A transaction that gives a server this number of rows.
fn many_rows(alloc: Global) -> Result<Admitted, Fail> {
    let mut mutations = room(alloc, MUTATIONS)?;
    for number in 0..MUTATIONS {
        mutations.push(Mutation::Set {
            key: bytes(alloc, &row_key(number))?,
            value: bytes(alloc, b"\x01server0000000001\x00")?,
        })?;
    }
    let mut given = transaction(alloc, EMPTY_TRANSACTION)?;
    given.mutations = Items::from(mutations);
    Ok(admit(alloc, &given)?)
}

/// A Clear of all keys of the metadata, by a transaction that has the lock-aware mark.
const CLEAR: TransactionLine<'static> = TransactionLine {
    mutations: &[MutationLine::Clear(b"\xff/keyServers/", b"\xff/keyServers0")],
    lock_aware: true,
    ..EMPTY_TRANSACTION
};

/// How many rows the proxy has there.
fn rows(world: &TurnWorld) -> Result<usize, Fail> {
    let proxy = world.proxy(0).ok_or("no proxy")?;
    let routing = proxy.metadata().routing(proxy.version())?;
    Ok(routing.routes.as_slice().len())
}

#[test]
fn a_transaction_sets_very_many_rows_and_another_clears_them(rt: HostRuntime) -> Result<(), Fail> {
    let mut world = cluster(rt.alloc())?;
    let mut one = room(rt.alloc(), 1)?;
    one.push(many_rows(rt.alloc())?)?;
    let finished = commit(&mut world, 0, batch_of(one)?)?;
    assert!(rt; finished.tagged.as_slice().len() == MUTATIONS);
    assert!(rt; rows(&world)? == MUTATIONS);
    let finished = commit(&mut world, 1, batch(rt.alloc(), &[CLEAR])?)?;
    assert!(rt; finished.tagged.as_slice().len() == 1 && rows(&world)? == 0);
    Ok(())
}
