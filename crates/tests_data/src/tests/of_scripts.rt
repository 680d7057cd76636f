//! Tests of scripts: the words in which faults are shown, what no script prints, batches, and copies of
//! unchecked changes.

use super::{are, assert_alike};
use mutation::Batch;
use scripts::{RawChange, RunStatus, ScriptFault, read_batch, stream_batch};
use std::alloc::Global;
use std::test::Fail;
use system_keys::OutOfMemory;
use testing::{
    EMPTY_TRANSACTION, MutationLine, TransactionLine, are_shown_as, batch, bytes,
    is_memory_refused, twice,
};

/// Each fault in words; those of a key, a transaction or a batch are shown alone.
const WORDS: &[(ScriptFault, &str)] = &[
    (ScriptFault::NotJson, "the script is not JSON"),
    (
        ScriptFault::BadShape,
        "the value is not of a script's shape",
    ),
    (
        ScriptFault::Refused(mutation::Refusal::BatchTooLarge),
        "a batch is too large",
    ),
    (ScriptFault::NoSuchResolver, "there is no such resolver"),
    (ScriptFault::OutOfMemory, "out of memory"),
];

#[test]
fn refusals_of_scripts_are_shown_in_words(rt: HostRuntime) -> Result<(), Fail> {
    assert!(&rt; are_shown_as(rt.alloc(), WORDS)?);
    Ok(())
}

#[test]
fn what_no_script_prints_has_its_number(rt: HostRuntime) {
    assert!(rt; RunStatus::ClusterRefused.number() == 5);
    assert!(rt; ScriptFault::OutOfMemory.number().is_none());
    assert!(rt; ScriptFault::OutOfMemory.name() == "OutOfMemory");
    assert!(rt; ScriptFault::from(mutation::Refusal::OutOfMemory) == ScriptFault::OutOfMemory);
}

/// The text of two transactions, one with each kind of mutation and one with nothing in it, each with
/// its fields in another order.
const TWO_TRANSACTIONS: &[u8] = br#" [ {"snapshot":7,"reads":[["a","b"],["","\\xff\\xff"]],
"writes":[["c","d\\x00"]],"mutations":[{"set":["\\xff/dbLocked","v"]},{"clear":["e","f"]},
{"set_stamped":["g","ab0123456789\\x02\\x00\\x00\\x00"]}],"lock_aware":true},
{"lock_aware":false,"mutations":[],"writes":[],"reads":[],"snapshot":9223372036854775807}]"#;

/// These transactions.
const TWO: &[TransactionLine<'static>] = &[
    TransactionLine {
        snapshot: 7,
        reads: &[(b"a", b"b"), (b"", b"\xff\xff")],
        writes: &[(b"c", b"d\x00")],
        mutations: &[
            MutationLine::Set(b"\xff/dbLocked", b"v"),
            MutationLine::Clear(b"e", b"f"),
            MutationLine::SetStamped(b"g", b"ab0123456789\x02\x00\x00\x00"),
        ],
        lock_aware: true,
    },
    TransactionLine {
        snapshot: 9_223_372_036_854_775_807,
        ..EMPTY_TRANSACTION
    },
];

/// A transaction with a field twice, which its tokens alone do not give.
const SNAPSHOT_TWICE: &[u8] =
    br#"[{"snapshot":1,"reads":[],"writes":[],"mutations":[],"lock_aware":false,"snapshot":0}]"#;

/// The batch, read by its tokens alone, at the second try if an allocation failed at the first.
fn streamed(alloc: Global, text: &[u8]) -> Option<Batch> {
    match stream_batch(alloc, text) {
        None if is_memory_refused(alloc) => stream_batch(alloc, text),
        streamed => streamed,
    }
}

/// Right batches.
const STREAMED: &[&str] = &[
    " [ ] ",
    r#"[{"writes":[],"snapshot":0,"lock_aware":true,"reads":[],"mutations":[]}]"#,
    r#"[{"mutations":[],"reads":[],"lock_aware":true,"snapshot":0,"writes":[]}]"#,
];

#[test]
fn right_batches_are_streamed(rt: HostRuntime) {
    for text in STREAMED {
        assert!(rt; streamed(rt.alloc(), text.as_bytes()).is_some(), "{text}");
    }
}

#[test]
fn every_field_of_a_batch_is_read_by_its_tokens(rt: HostRuntime) -> Result<(), Fail> {
    let expected = batch(rt.alloc(), TWO)?;
    let found = streamed(rt.alloc(), TWO_TRANSACTIONS).expect(&rt, "a batch");
    assert_alike(&rt, &found, &expected);
    let read = twice!(
        rt.alloc();
        read_batch(rt.alloc(), TWO_TRANSACTIONS),
        ScriptFault::OutOfMemory
    )?;
    assert_alike(&rt, &read, &expected);
    Ok(())
}

#[test]
fn a_batch_is_read_as_a_tree_where_a_field_stands_twice(rt: HostRuntime) -> Result<(), Fail> {
    let expected = batch(rt.alloc(), &[EMPTY_TRANSACTION])?;
    let read = twice!(
        rt.alloc();
        read_batch(rt.alloc(), SNAPSHOT_TWICE),
        ScriptFault::OutOfMemory
    )?;
    assert_alike(&rt, &read, &expected);
    Ok(())
}

/// The change is the Set of `k` to `v`.
fn is_raw_set(change: &RawChange) -> bool {
    match change {
        RawChange::Set { key, value } => are(key, b"k") && are(value, b"v"),
        RawChange::Clear { .. } => false,
    }
}

/// The change is the Clear from `t` up to `m`: nothing is checked.
fn is_raw_clear(change: &RawChange) -> bool {
    match change {
        RawChange::Set { .. } => false,
        RawChange::Clear { begin, end } => are(begin, b"t") && are(end, b"m"),
    }
}

#[test]
fn raw_changes_are_copied(rt: HostRuntime) -> Result<(), Fail> {
    let set = RawChange::Set {
        key: bytes(rt.alloc(), b"k")?,
        value: bytes(rt.alloc(), b"v")?,
    };
    let copied = twice!(rt.alloc(); set.copy(), OutOfMemory)?;
    assert!(rt; is_raw_set(&set) && is_raw_set(&copied));
    let clear = RawChange::Clear {
        begin: bytes(rt.alloc(), b"t")?,
        end: bytes(rt.alloc(), b"m")?,
    };
    let copied = twice!(rt.alloc(); clear.copy(), OutOfMemory)?;
    assert!(rt; is_raw_clear(&clear) && is_raw_clear(&copied));
    Ok(())
}
