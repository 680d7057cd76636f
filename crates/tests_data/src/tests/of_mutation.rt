//! Tests of mutation.

use super::{are, assert_copied, is_range};
use mutation::{Admitted, AdmittedMutation, Batch, Refusal, Stamped, admit, admit_owned};
use std::alloc::Global;
use std::test::Fail;
use system_keys::{Change, KeyRange};
use testing::{
    EMPTY_TRANSACTION, MutationLine, TransactionLine, admit_line, batch, repeat_byte, room,
    transaction, transaction_of,
};

/// A value that waits for its stamp at the offset 2.
const AT_TWO: &[u8] = b"ab0123456789\x02\x00\x00\x00";

/// That value with the stamp of transaction 3 in the batch of version 258.
const AT_TWO_STAMPED: &[u8] = b"ab\x00\x00\x00\x00\x00\x00\x01\x02\x00\x03";

/// A lock aware transaction with one read, one write and a mutation of each kind.
const ONE_EACH: TransactionLine<'static> = TransactionLine {
    snapshot: 7,
    reads: &[(b"a", b"b")],
    writes: &[(b"c", b"\xff\xff")],
    mutations: &[
        MutationLine::Set(b"k", b"v"),
        MutationLine::Clear(b"", b"m"),
        MutationLine::SetStamped(b"n", AT_TWO),
    ],
    lock_aware: true,
};

/// The only range is this one.
fn is_only_range(ranges: &[KeyRange], begin: &[u8], end: &[u8]) -> bool {
    match ranges {
        [range] => is_range(range, begin, end),
        _ => false,
    }
}

/// The transaction of one each has these ranges.
fn are_ranges(reads: &[KeyRange], writes: &[KeyRange]) -> bool {
    is_only_range(reads, b"a", b"b") && is_only_range(writes, b"c", b"\xff\xff")
}

/// The mutation is the one of its kind in the transaction of one each.
fn is_mutation(mutation: &AdmittedMutation) -> bool {
    match mutation {
        AdmittedMutation::Set { key, value } => are(key, b"k") && are(value, b"v"),
        AdmittedMutation::Clear { range } => is_range(range, b"", b"m"),
        AdmittedMutation::SetStamped { key, value } => are(key, b"n") && are(value, AT_TWO),
    }
}

/// There is one mutation of each kind, in their order.
fn are_mutations(mutations: &[AdmittedMutation]) -> bool {
    match mutations {
        [
            first @ AdmittedMutation::Set { .. },
            second @ AdmittedMutation::Clear { .. },
            third @ AdmittedMutation::SetStamped { .. },
        ] => { is_mutation(first) && is_mutation(second) && is_mutation(third) }
        _ => false,
    }
}

/// It is the transaction of one each.
fn is_one_each(admitted: &Admitted) -> bool {
    admitted.snapshot() == 7
        && are_ranges(admitted.reads(), admitted.writes())
        && are_mutations(admitted.mutations())
        && admitted.lock_aware()
}

#[test]
fn an_admitted_transaction_is_as_it_was_given(rt: HostRuntime) -> Result<(), Fail> {
    let admitted = admit_line(rt.alloc(), ONE_EACH)?;
    assert!(rt; is_one_each(&admitted));
    assert_copied(&rt, &admitted);
    for mutation in admitted.mutations() {
        assert_copied(&rt, mutation);
    }
    Ok(())
}

#[test]
fn an_owned_transaction_is_admitted_as_a_lent_one(rt: HostRuntime) -> Result<(), Fail> {
    let given = transaction(rt.alloc(), ONE_EACH)?;
    assert!(rt; is_one_each(&admit(rt.alloc(), &given)?));
    assert!(rt; is_one_each(&admit_owned(rt.alloc(), given)?));
    Ok(())
}

/// A value whose stamp would end one byte past it.
const AT_THREE: &[u8] = b"ab0123456789\x03\x00\x00\x00";

/// The metadata version, ten bytes and the offset 1.
const VERSION_AT_ONE: MutationLine<'static> = MutationLine::SetStamped(
    b"\xff/metadataVersion",
    b"\x00\x00\x00\x00\x00\x00\x00\x00\x00\x00\x01\x00\x00\x00",
);

/// Transactions, and the first fault of each: reads come before writes, and these before mutations.
const FAULTY: &[(TransactionLine<'static>, Refusal)] = &[
    (
        TransactionLine {
            reads: &[(b"b", b"a")],
            mutations: &[MutationLine::Set(b"\xff\xff", b"v")],
            ..EMPTY_TRANSACTION
        },
        Refusal::Key(system_keys::Refusal::EmptyRange),
    ),
    (
        TransactionLine {
            writes: &[(b"b", b"b")],
            mutations: &[MutationLine::SetStamped(b"n", b"v")],
            ..ONE_EACH
        },
        Refusal::Key(system_keys::Refusal::EmptyRange),
    ),
    (
        TransactionLine {
            mutations: &[VERSION_AT_ONE],
            ..EMPTY_TRANSACTION
        },
        Refusal::BadStamp,
    ),
    (
        TransactionLine {
            mutations: &[MutationLine::SetStamped(b"k", AT_THREE)],
            ..EMPTY_TRANSACTION
        },
        Refusal::BadStamp,
    ),
    (
        TransactionLine {
            mutations: &[MutationLine::SetStamped(
                b"\xff/serverTag/server0000000001",
                b"\x00\x00\x01",
            )],
            ..EMPTY_TRANSACTION
        },
        Refusal::Key(system_keys::Refusal::BadRow),
    ),
];

#[test]
fn the_first_fault_of_a_transaction_is_told(rt: HostRuntime) -> Result<(), Fail> {
    for (faulty, refused) in FAULTY {
        let given = transaction(rt.alloc(), *faulty)?;
        assert!(rt; matches!(admit(rt.alloc(), &given), Err(refusal) if refusal == *refused));
        assert!(rt; matches!(admit_owned(rt.alloc(), given), Err(refusal) if refusal == *refused));
    }
    Ok(())
}

/// `count` transactions with nothing in them.
fn many(alloc: Global, count: usize) -> Result<Vec<Admitted>, Fail> {
    let mut transactions = room(alloc, count)?;
    for _ in 0..count {
        transactions.push(admit_line(alloc, EMPTY_TRANSACTION)?)?;
    }
    Ok(transactions)
}

#[test]
fn a_batch_has_at_most_1024_transactions_and_more_come_back(rt: HostRuntime) -> Result<(), Fail> {
    let Ok(batch) = Batch::new(many(rt.alloc(), 1_024)?) else {
        return Err(Fail::new("the batch is refused"));
    };
    assert!(rt; batch.transactions().len() == 1_024);
    let Err((refusal, back)) = Batch::new(many(rt.alloc(), 1_025)?) else {
        return Err(Fail::new("the batch is not refused"));
    };
    assert!(rt; refusal == Refusal::BatchTooLarge && back.len() == 1_025);
    Ok(())
}

#[test]
fn a_key_has_at_most_10000_bytes(rt: HostRuntime) -> Result<(), Fail> {
    let key = repeat_byte(rt.alloc(), b'k', 10_000)?;
    let fits = transaction_of(rt.alloc(), MutationLine::Set(key.as_slice(), b"v"))?;
    assert!(rt; admit(rt.alloc(), &fits)?.mutations().len() == 1);
    let key = repeat_byte(rt.alloc(), b'k', 10_001)?;
    let long = transaction_of(rt.alloc(), MutationLine::Set(key.as_slice(), b"v"))?;
    let refused = Refusal::Key(system_keys::Refusal::KeyTooLong);
    assert!(rt; matches!(admit(rt.alloc(), &long), Err(refusal) if refusal == refused));
    Ok(())
}

/// A keyServers row.
const ROW: &[u8] = b"\xff/keyServers/m";

/// A value that lists the tags `0:1` and `0:2`, and `3:258`.
const LISTING: &[u8] = b"\x00\x00\x02\x00\x00\x01\x00\x00\x02\x01\x03\x01\x02";

/// Values of that row: no servers, one server, no tags, three tags.
const ROW_VALUES: &[&[u8]] = &[
    b"\x00\x00",
    b"\x01server0000000001\x00",
    b"\x00\x00\x00\x00",
    LISTING,
];

/// Mutations of that row with values of neither form, and one that waits for its stamp.
const BAD_ROWS: &[MutationLine<'static>] = &[
    MutationLine::Set(ROW, b"\x00"),
    MutationLine::Set(ROW, b"\x00\x00\x01"),
    MutationLine::Set(ROW, b"\x00\x00\x02\x00\x00\x02\x00\x00\x01\x00"),
    MutationLine::Set(ROW, b"\x00\x00\x00\x00\x00"),
    MutationLine::SetStamped(ROW, LISTING),
];

#[test]
fn a_row_of_either_form_is_admitted(rt: HostRuntime) -> Result<(), Fail> {
    for value in ROW_VALUES {
        let given = transaction_of(rt.alloc(), MutationLine::Set(ROW, *value))?;
        assert!(rt; admit(rt.alloc(), &given)?.mutations().len() == 1);
        assert!(rt; admit_owned(rt.alloc(), given)?.mutations().len() == 1);
    }
    Ok(())
}

#[test]
fn a_row_of_neither_form_is_refused(rt: HostRuntime) -> Result<(), Fail> {
    let refused = Refusal::Key(system_keys::Refusal::BadRow);
    for step in BAD_ROWS {
        let given = transaction_of(rt.alloc(), *step)?;
        assert!(rt; matches!(admit(rt.alloc(), &given), Err(refusal) if refusal == refused));
        assert!(rt; matches!(admit_owned(rt.alloc(), given), Err(refusal) if refusal == refused));
    }
    Ok(())
}

/// They are those of the transaction of one each, as transaction 3 in the batch of version 258.
fn are_changes(changes: &[Change]) -> bool {
    match changes {
        [
            Change::Set { key, value },
            Change::Clear { range },
            Change::Set {
                key: stamped,
                value: stamp,
            },
        ] => {
            are(key, b"k")
                && are(value, b"v")
                && is_range(range, b"", b"m")
                && are(stamped, b"n")
                && are(stamp, AT_TWO_STAMPED)
        }
        _ => false,
    }
}

/// That transaction.
fn stamped(alloc: Global) -> Result<Stamped, Fail> {
    let admitted = admit_line(alloc, ONE_EACH)?;
    Ok(admitted.stamped(alloc, 258, 3)?)
}

#[test]
fn a_stamp_takes_ten_bytes_and_every_other_field_stays(rt: HostRuntime) -> Result<(), Fail> {
    let stamped = stamped(rt.alloc())?;
    assert!(rt; stamped.snapshot() == 7 && stamped.lock_aware());
    assert!(rt; are_ranges(stamped.reads(), stamped.writes()));
    assert!(rt; are_changes(stamped.changes()));
    assert_copied(&rt, &stamped);
    Ok(())
}

#[test]
fn an_own_transaction_is_stamped_alike(rt: HostRuntime) -> Result<(), Fail> {
    let admitted = admit_line(rt.alloc(), ONE_EACH)?;
    let stamped = admitted.into_stamped(rt.alloc(), 258, 3)?;
    assert!(rt; stamped.snapshot() == 7 && stamped.lock_aware());
    assert!(rt; are_ranges(stamped.reads(), stamped.writes()));
    assert!(rt; are_changes(stamped.changes()));
    Ok(())
}

#[test]
fn given_transactions_are_copied(rt: HostRuntime) -> Result<(), Fail> {
    let given = transaction(rt.alloc(), ONE_EACH)?;
    assert_copied(&rt, &given);
    let read = given.reads.as_slice().first().expect(&rt, "a read");
    assert_copied(&rt, read);
    for mutation in given.mutations.as_slice() {
        assert_copied(&rt, mutation);
    }
    Ok(())
}

#[test]
fn batches_are_copied(rt: HostRuntime) -> Result<(), Fail> {
    let batch = batch(
        rt.alloc(),
        &[EMPTY_TRANSACTION, EMPTY_TRANSACTION, ONE_EACH],
    )?;
    assert!(rt; matches!(batch.transactions(), [_, _, last] if are_mutations(last.mutations())));
    assert_copied(&rt, &batch);
    Ok(())
}

#[test]
fn the_transactions_of_a_batch_are_taken(rt: HostRuntime) -> Result<(), Fail> {
    let batch = batch(
        rt.alloc(),
        &[EMPTY_TRANSACTION, EMPTY_TRANSACTION, ONE_EACH],
    )?;
    let taken = batch.into_transactions();
    assert!(rt; matches!(taken.as_slice(), [_, _, last] if is_one_each(last)));
    Ok(())
}
