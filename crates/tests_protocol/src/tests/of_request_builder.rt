//! Tests of request_builder: records, the requests for them, and the rule of requests.

mod shared_moves;

use crate::tests::{Copied, are_alike, copy_of, is_copied, made, marks, request_of_states};
use dated_owners::OwnerMap;
use model::Part;
use mutation::{Batch, Stamped};
use request_builder::{Move, Moves, Record, Request, RequestHeader, Requests, Share, build};
use std::alloc::{AllocError, Global};
use std::process::Abort;
use std::test::Fail;
use system_keys::{Change, Items, OutOfMemory};
use testing::{
    EMPTY_TRANSACTION, Ends, MutationLine, PartLine, TransactionLine, batch, list, none, part,
    plain_batch, range, room, twice,
};

// ---- records and requests

/// A map of resolvers, and its moves one by one.
#[derive(Drop)]
struct Moved {
    owners: OwnerMap,
    moves: Moves,
}

impl Moved {
    fn new(alloc: Global, owners: OwnerMap) -> Moved {
        Moved {
            owners,
            moves: Moves::new(alloc),
        }
    }

    fn add(&mut self, alloc: Global, ends: Ends<'_>, date: u64, dest: usize) -> Result<(), Fail> {
        let range = range(alloc, ends.0, ends.1)?;
        self.owners.move_range(&range, date, dest)?;
        self.moves.push(Move { range, date, dest })?;
        Ok(())
    }
}

/// One call for the record of the batch at version 40, after version 30, of proxy 1 as row 3.
fn record_by_call(alloc: Global, moves: &Moves, batch: &Batch) -> Result<Record, OutOfMemory> {
    Record::new(alloc, 3, 30, 40, 20, 1, moves, batch)
}

/// That record, which is made again after a failed allocation.
fn record(alloc: Global, moves: &Moves, batch: &Batch) -> Result<Record, OutOfMemory> {
    twice!(alloc; record_by_call(alloc, moves, batch), OutOfMemory)
}

/// One call for the requests of the record.
fn requests_by_call(
    alloc: Global,
    record: &Record,
    owners: &OwnerMap,
    oldest: u64,
) -> Result<Requests, OutOfMemory> {
    build(alloc, record, owners, oldest, 10)
}

/// Those requests, which are built again after a failed allocation.
fn requests_for(
    alloc: Global,
    record: &Record,
    owners: &OwnerMap,
    oldest: u64,
) -> Result<Requests, OutOfMemory> {
    twice!(alloc; requests_by_call(alloc, record, owners, oldest), OutOfMemory)
}

/// The requests for the record of the batch.
fn built(
    alloc: Global,
    moved: &Moved,
    oldest: u64,
    batch: &Batch,
) -> Result<Requests, OutOfMemory> {
    let record = record(alloc, &moved.moves, batch)?;
    requests_for(alloc, &record, &moved.owners, oldest)
}

fn header(resolver: usize) -> RequestHeader {
    RequestHeader {
        resolver,
        proxy: 1,
        row: 3,
        previous: 30,
        version: 40,
        last_received: 10,
    }
}

fn has(resolvers: &[usize], resolver: usize) -> bool {
    for asked in resolvers {
        if *asked == resolver {
            return true;
        }
    }
    false
}

fn push_part(
    alloc: Global,
    parts: &mut Vec<Part>,
    number: usize,
    line: PartLine<'_>,
) -> Result<(), Fail> {
    let part = part(alloc, number, line)?;
    parts.push(part)?;
    Ok(())
}

/// The parts of those of the transactions that ask the resolver.
fn parts_to(
    alloc: Global,
    resolver: usize,
    lines: &[PartLine<'_>],
    asked: &[&[usize]],
) -> Result<Items<Part>, Fail> {
    let mut parts = room(alloc, lines.len())?;
    for (number, (line, resolvers)) in lines.iter().zip(asked).enumerate() {
        if has(*resolvers, resolver) {
            push_part(alloc, &mut parts, number, *line)?;
        }
    }
    Ok(Items::from(parts))
}

/// The requests to `resolvers` resolvers for transactions that ask these.
fn requests_to(
    alloc: Global,
    resolvers: usize,
    lines: &[PartLine<'_>],
    asked: &[&[usize]],
) -> Result<Requests, Fail> {
    let mut requests = room(alloc, resolvers)?;
    for resolver in 0..resolvers {
        let parts = parts_to(alloc, resolver, lines, asked)?;
        requests.push(made(header(resolver), parts, none(alloc))?)?;
    }
    with_asked(alloc, requests, asked)
}

fn with_asked(alloc: Global, requests: Vec<Request>, asked: &[&[usize]]) -> Result<Requests, Fail> {
    let asked = lists(alloc, asked)?;
    let requests = Items::from(requests);
    Ok(Requests { requests, asked })
}

fn lists(alloc: Global, asked: &[&[usize]]) -> Result<Items<Items<usize>>, AllocError> {
    let mut lists = room(alloc, asked.len())?;
    for resolvers in asked {
        lists.push(Items::from(list(alloc, *resolvers)?))?;
    }
    Ok(Items::from(lists))
}

// ---- whom ranges ask

/// Of three resolvers, `[m, t)` moves to 1 at date 21, and `[p, q)` to 2 at date 41.
fn move_twice(alloc: Global, moved: &mut Moved) -> Result<(), Fail> {
    moved.add(alloc, (b"m", b"t"), 21, 1)?;
    moved.add(alloc, (b"p", b"q"), 41, 2)
}

/// Reads and writes of the ranges that moved twice.
const FOUR: &[PartLine<'static>] = &[
    (20, &[(b"m", b"t")], &[]),
    (30, &[(b"m", b"t")], &[]),
    (0, &[], &[(b"a", b"z")]),
    (0, &[], &[(b"m", b"t")]),
];

/// Whom they ask, where nothing is forgotten or the first owner of `[m, t)` is.
const WITH_ALL: &[&[usize]] = &[&[0, 1, 2], &[1, 2], &[0, 1, 2], &[1, 2]];

const WITHOUT_FIRST: &[&[usize]] = &[&[1, 2], &[1, 2], &[0, 1, 2], &[1, 2]];

/// Up to where the map forgets, the oldest version that is asked for, and whom the four ask then.
const FORGETTING: &[(u64, u64, &[&[usize]])] = &[
    (0, 0, WITH_ALL),
    (0, 30, WITHOUT_FIRST),
    (30, 10, WITHOUT_FIRST),
    (10, 0, WITHOUT_FIRST),
];

/// The part with lists of its own ranges alone.
fn lone_part(alloc: Global, part: &Part) -> Result<Part, Fail> {
    let (mut reads, mut writes) = (Vec::new(alloc), Vec::new(alloc));
    for place in 0..part.read_count() {
        reads.push(part.read_at(place).copy()?)?;
    }
    for place in 0..part.write_count() {
        writes.push(part.write_at(place).copy()?)?;
    }
    let (reads, writes) = (Items::from(reads), Items::from(writes));
    Ok(Part::new(alloc, part.number(), part.snapshot(), reads, writes)?)
}

/// The request with such parts, which are printed alike if they are equal.
fn lone_request(alloc: Global, request: &Request) -> Result<Request, Fail> {
    let mut parts = room(alloc, request.share().parts().len())?;
    for part in request.share().parts() {
        parts.push(lone_part(alloc, part)?)?;
    }
    let mut states = room(alloc, request.states().len())?;
    for mark in request.states() {
        states.push(mark.copy()?)?;
    }
    let header = RequestHeader {
        resolver: request.resolver(),
        proxy: request.proxy(),
        row: request.row(),
        previous: request.previous(),
        version: request.version(),
        last_received: request.last_received(),
    };
    made(header, Items::from(parts), Items::from(states))
}

/// Whether the requests are those, however their parts keep their ranges.
fn are_those(alloc: Global, requests: &Requests, wanted: &Requests) -> Result<bool, Fail> {
    let mut lone = room(alloc, requests.requests.as_slice().len())?;
    for request in requests.requests.as_slice() {
        lone.push(lone_request(alloc, request)?)?;
    }
    Ok(
        are_alike(alloc, &Items::from(lone), &wanted.requests)?
            && are_alike(alloc, &requests.asked, &wanted.asked)?,
    )
}

/// Whether they are the requests to this number of resolvers for transactions that ask these.
fn are_requests(
    alloc: Global,
    requests: &Requests,
    resolvers: usize,
    lines: &[PartLine<'_>],
    asked: &[&[usize]],
) -> Result<bool, Fail> {
    let wanted = requests_to(alloc, resolvers, lines, asked)?;
    are_those(alloc, requests, &wanted)
}

/// Whether the requests for these transactions are those to whom they ask.
fn are_built(
    alloc: Global,
    moved: &Moved,
    oldest: u64,
    lines: &[PartLine<'_>],
    asked: &[&[usize]],
) -> Result<bool, Fail> {
    let batch = plain_batch(alloc, lines)?;
    let requests = built(alloc, moved, oldest, &batch)?;
    are_requests(alloc, &requests, moved.owners.resolvers(), lines, asked)
}

/// The four go to those whom they ask, after each forgetting.
fn go_to_asked<R: Abort + AllocGlobal>(rt: &R, moved: &mut Moved) -> Result<(), Fail> {
    move_twice(rt.alloc(), moved)?;
    for (forgotten, oldest, asked) in FORGETTING {
        moved.owners.forget(*forgotten);
        assert!(rt;
            are_built(rt.alloc(), moved, *oldest, FOUR, *asked)?,
            "{forgotten} {oldest}"
        );
    }
    Ok(())
}

#[test]
fn whole_ranges_go_to_those_who_are_asked(rt: HostRuntime) -> Result<(), Fail> {
    let mut moved = Moved::new(rt.alloc(), OwnerMap::new(rt.alloc(), 3)?);
    go_to_asked(&rt, &mut moved)
}

/// Reads of `n` before the date of a move of `[m, t)`, at it, and later.
const ABOUT_A_MOVE: &[PartLine<'static>] = &[
    (20, &[(b"n", b"n\0")], &[]),
    (21, &[(b"n", b"n\0")], &[]),
    (30, &[(b"n", b"n\0")], &[]),
];

/// Whether those reads ask both owners up to the date, and then the new one alone.
fn ask_about_a_move(alloc: Global, moved: &mut Moved) -> Result<bool, Fail> {
    moved.add(alloc, (b"m", b"t"), 21, 1)?;
    are_built(alloc, moved, 0, ABOUT_A_MOVE, &[&[0, 1], &[0, 1], &[1]])
}

#[test]
fn a_read_at_the_date_of_a_move_asks_the_owner_before(rt: HostRuntime) -> Result<(), Fail> {
    let mut moved = Moved::new(rt.alloc(), OwnerMap::new(rt.alloc(), 2)?);
    assert!(rt; ask_about_a_move(rt.alloc(), &mut moved)?);
    Ok(())
}

/// Two reads and two writes of all keys.
const OF_ALL: PartLine<'static> = (
    0,
    &[(b"", b"\xff"), (b"a", b"b")],
    &[(b"", b"\xff"), (b"", b"z")],
);

/// All 16 resolvers of the next test.
const EACH: &[usize] = &[0, 1, 2, 3, 4, 5, 6, 7, 8, 9, 10, 11, 12, 13, 14, 15];

/// The keys from each one of 1 to 15 on move to the resolver of this number, at that date.
fn move_often(alloc: Global, moved: &mut Moved) -> Result<(), Fail> {
    for number in 1..16u8 {
        moved.add(alloc, (&[number], b"\xff"), number as u64, number as usize)?;
    }
    Ok(())
}

/// Many transactions go to the owners of those moves.
fn go_to_each<R: Abort + AllocGlobal>(rt: &R, moved: &mut Moved) -> Result<(), Fail> {
    move_often(rt.alloc(), moved)?;
    assert!(rt; are_built(rt.alloc(), moved, 0, &[OF_ALL; 40], &[EACH; 40])?);
    Ok(())
}

#[test]
fn many_transactions_go_to_the_owners_of_many_moves(rt: HostRuntime) -> Result<(), Fail> {
    let mut moved = Moved::new(rt.alloc(), OwnerMap::new(rt.alloc(), 16)?);
    go_to_each(&rt, &mut moved)
}

// ---- state transactions

/// The row that locks the database, and the least key after it.
const LOCK_ROW: Ends<'static> = (b"\xff/dbLocked", b"\xff/dbLocked\0");

const LOCK: &[MutationLine<'static>] = &[MutationLine::Set(b"\xff/dbLocked", b"L")];

/// The requests to two resolvers for a state transaction without ranges, which is lock aware or not,
/// and then one that sets no system row.
fn requests_for_lock(alloc: Global, lock_aware: bool) -> Result<Requests, Fail> {
    let state = TransactionLine {
        snapshot: 5,
        mutations: LOCK,
        lock_aware,
        ..EMPTY_TRANSACTION
    };
    let other = TransactionLine {
        mutations: &[MutationLine::Set(b"a", b"")],
        ..EMPTY_TRANSACTION
    };
    let moved = Moved::new(alloc, OwnerMap::new(alloc, 2)?);
    let batch = batch(alloc, &[state, other])?;
    Ok(built(alloc, &moved, 0, &batch)?)
}

/// Whether the transaction is lock aware, and the part of it that each resolver gets: unless it is lock
/// aware, resolver 0 gets a read of the lock row.
const LOCK_PARTS: &[(bool, &[PartLine<'static>])] = &[
    (false, &[(5, &[LOCK_ROW], &[]), (5, &[], &[])]),
    (true, &[(5, &[], &[]), (5, &[], &[])]),
];

/// The requests with those parts.
fn lock_requests(
    alloc: Global,
    lock_aware: bool,
    lines: &[PartLine<'_>],
) -> Result<Requests, Fail> {
    let mut requests = room(alloc, lines.len())?;
    for (resolver, line) in lines.iter().enumerate() {
        let (header, content) = (header(resolver), (LOCK, lock_aware));
        requests.push(request_of_states(alloc, header, &[*line], &[0], content)?)?;
    }
    with_asked(alloc, requests, &[&[0, 1], &[]])
}

#[test]
fn a_state_transaction_goes_to_every_resolver(rt: HostRuntime) -> Result<(), Fail> {
    for (lock_aware, lines) in LOCK_PARTS {
        let requests = requests_for_lock(rt.alloc(), *lock_aware)?;
        let wanted = lock_requests(rt.alloc(), *lock_aware, *lines)?;
        assert!(rt; are_those(rt.alloc(), &requests, &wanted)?, "{lock_aware}");
    }
    Ok(())
}

impl Copied for Requests {
    fn copied(&self) -> Result<Requests, OutOfMemory> {
        self.copy()
    }
}

impl Copied for Request {
    fn copied(&self) -> Result<Request, OutOfMemory> {
        self.copy()
    }
}

impl Copied for Share {
    fn copied(&self) -> Result<Share, OutOfMemory> {
        self.copy()
    }
}

#[test]
fn copies_of_requests_are_whole(rt: HostRuntime) -> Result<(), Fail> {
    let requests = requests_for_lock(rt.alloc(), false)?;
    assert!(rt; is_copied(rt.alloc(), &requests)?);
    for request in requests.requests.as_slice() {
        assert!(rt; is_copied(rt.alloc(), request)?);
        assert!(rt; is_copied(rt.alloc(), request.share())?);
    }
    Ok(())
}

// ---- records

/// A value that waits for its stamp at the offset 0, and that value in transaction 1 at version 40.
const AT_ZERO: &[u8] = b"0123456789z\x00\x00\x00\x00";

const AT_ZERO_STAMPED: &[u8] = b"\x00\x00\x00\x00\x00\x00\x00\x28\x00\x01z";

const STAMPING: TransactionLine<'static> = TransactionLine {
    mutations: &[MutationLine::SetStamped(b"k", AT_ZERO)],
    ..EMPTY_TRANSACTION
};

/// Whether the second transaction of two sets `k` to the value with its stamp in.
fn has_stamp(batch: &[Stamped]) -> bool {
    let [_first, second] = batch else {
        return false;
    };
    let [Change::Set { key, value }] = second.changes() else {
        return false;
    };
    key.as_slice() == b"k".as_slice() && value.as_slice() == AT_ZERO_STAMPED
}

fn record_of_stamping(alloc: Global) -> Result<Record, Fail> {
    let batch = batch(alloc, &[EMPTY_TRANSACTION, STAMPING])?;
    Ok(record(alloc, &Moves::new(alloc), &batch)?)
}

/// One call for the record of a copy of that batch, which goes into it.
fn own_record_by_call(alloc: Global, batch: &Batch) -> Result<Record, OutOfMemory> {
    let moves = Moves::new(alloc);
    Record::of_batch(alloc, 3, 30, 40, 20, 1, &moves, batch.copy()?)
}

/// That record, which is made again after a failed allocation.
fn own_record_of_stamping(alloc: Global) -> Result<Record, Fail> {
    let batch = batch(alloc, &[EMPTY_TRANSACTION, STAMPING])?;
    Ok(twice!(alloc; own_record_by_call(alloc, &batch), OutOfMemory)?)
}

/// Whether the record has the numbers of these tests.
fn is_numbered(record: &Record) -> bool {
    record.row() == 3
        && record.previous() == 30
        && record.version() == 40
        && record.own_previous() == 20
        && record.proxy() == 1
}

impl Copied for Record {
    fn copied(&self) -> Result<Record, OutOfMemory> {
        self.copy()
    }
}

/// Whether a copy of the record has the numbers of these tests and the stamp.
fn has_right_copy(alloc: Global, record: &Record) -> Result<bool, OutOfMemory> {
    let copy = copy_of(alloc, record)?;
    Ok(is_numbered(&copy) && has_stamp(copy.batch()))
}

#[test]
fn a_record_has_its_numbers_and_stamps(rt: HostRuntime) -> Result<(), Fail> {
    let record = record_of_stamping(rt.alloc())?;
    assert!(rt; is_copied(rt.alloc(), &record)?);
    assert!(rt; has_right_copy(rt.alloc(), &record)?);
    Ok(())
}

#[test]
fn a_record_of_an_own_batch_has_its_numbers_and_stamps(rt: HostRuntime) -> Result<(), Fail> {
    let record = own_record_of_stamping(rt.alloc())?;
    assert!(rt; is_numbered(&record) && has_stamp(record.batch()));
    Ok(())
}

/// One call that takes the transactions of the record.
fn taken_by_call(alloc: Global, record: &mut Record) -> Result<Items<Stamped>, OutOfMemory> {
    record.take_batch(alloc)
}

/// Those transactions, which are taken again after a failed allocation.
fn taken(alloc: Global, record: &mut Record) -> Result<Items<Stamped>, OutOfMemory> {
    twice!(alloc; taken_by_call(alloc, record), OutOfMemory)
}

/// Whether a record that is copied gives copies of its transactions, and has them still.
fn gives_copies(alloc: Global, record: &mut Record) -> Result<bool, OutOfMemory> {
    let copy = copy_of(alloc, record)?;
    let copied = taken(alloc, record)?;
    Ok(has_stamp(copied.as_slice()) && has_stamp(record.batch()) && has_stamp(copy.batch()))
}

#[test]
fn a_record_gives_its_transactions(rt: HostRuntime) -> Result<(), Fail> {
    let mut record = record_of_stamping(rt.alloc())?;
    assert!(rt; gives_copies(rt.alloc(), &mut record)?);
    let own = taken(rt.alloc(), &mut record)?;
    assert!(rt; has_stamp(own.as_slice()));
    assert!(rt; is_numbered(&record) && record.batch().is_empty());
    Ok(())
}

// ---- the rule of requests

/// Reads and writes nothing at snapshot 7.
const EMPTY: PartLine<'static> = (7, &[], &[]);

/// The share of parts with these numbers.
fn share_of(alloc: Global, numbers: &[usize]) -> Result<Share, Fail> {
    let mut parts = room(alloc, numbers.len())?;
    for number in numbers {
        push_part(alloc, &mut parts, *number, EMPTY)?;
    }
    Ok(Share::new(Items::from(parts)))
}

/// The request of parts and marks with these numbers, if it keeps its rule.
fn request_of(
    alloc: Global,
    resolver: usize,
    numbers: &[usize],
    marked: &[usize],
    has_content: bool,
) -> Result<Option<Request>, Fail> {
    let share = share_of(alloc, numbers)?;
    let marks = marks(alloc, marked, has_content, (LOCK, true))?;
    Ok(Request::new(header(resolver), share, marks))
}

/// Whether the parts and marks make a request.
fn is_made(
    alloc: Global,
    resolver: usize,
    numbers: &[usize],
    marked: &[usize],
    has_content: bool,
) -> Result<bool, Fail> {
    let request = request_of(alloc, resolver, numbers, marked, has_content)?;
    Ok(request.is_some())
}

/// A resolver, the numbers of parts and of marks, whether the marks have content, and whether that
/// makes a request: the numbers of parts rise, each mark names a part, and resolver 0 alone gets
/// content.
const RULE: &[(usize, &[usize], &[usize], bool, bool)] = &[
    (0, &[1, 4, 5], &[5, 1, 5], true, true),
    (2, &[0, usize::MAX], &[usize::MAX], false, true),
    (0, &[], &[], false, true),
    (2, &[1, 1], &[], false, false),
    (2, &[0, 2, 1], &[], false, false),
    (2, &[usize::MAX, 0], &[], false, false),
    (2, &[1, 3], &[1, 2], false, false),
    (2, &[], &[0], false, false),
    (0, &[1], &[1], false, false),
    (1, &[1], &[1], true, false),
];

#[test]
fn a_request_keeps_its_rule(rt: HostRuntime) -> Result<(), Fail> {
    for (place, (resolver, parts, marks, has_content, wanted)) in RULE.iter().enumerate() {
        let is_made = is_made(rt.alloc(), *resolver, *parts, *marks, *has_content)?;
        assert!(rt; is_made == *wanted, "line {place}");
    }
    Ok(())
}

/// Numbers, and the places of the parts with these numbers among 1, 4, 5 and 9.
const PLACES: &[(usize, Option<usize>)] = &[
    (0, None),
    (1, Some(0)),
    (3, None),
    (4, Some(1)),
    (5, Some(2)),
    (9, Some(3)),
    (10, None),
];

#[test]
fn a_part_is_found_by_its_number(rt: HostRuntime) -> Result<(), Fail> {
    let Some(request) = request_of(rt.alloc(), 2, &[1, 4, 5, 9], &[], false)? else {
        return Err(Fail::from("no request"));
    };
    for (number, place) in PLACES {
        assert!(rt; request.place_of(*number) == *place, "{number}");
    }
    Ok(())
}
