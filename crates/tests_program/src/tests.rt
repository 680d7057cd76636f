//! Tests of what no clause says and no script shows: that right turns and threads scripts are read by
//! their tokens alone; and what a session writes before which read. A copy of a script or of its moves has
//! the same values in all fields. A call that failed with `OutOfMemory` is made once more. Texts of whole
//! scripts, right and wrong ones, and the words of the command line stand in `tests/scripts`; the built
//! program meets failing devices in `tests/memory`.

mod of_cluster_scripts;
pub(crate) mod of_sessions;
mod of_threads_scripts;
mod of_turns_run;

use model::Config;
use mutation::{Admitted, AdmittedMutation, Batch};
use system_keys::{Bytes, KeyRange};
use testing::{MutationLine, TransactionLine};

/// A transaction with something in each field.
const GIVEN: TransactionLine<'static> = TransactionLine {
    snapshot: 7,
    reads: &[(b"a", b"b")],
    writes: &[(b"c", b"d")],
    mutations: &[MutationLine::Set(b"k", b"v")],
    lock_aware: true,
};

/// The configuration has one proxy, four resolvers, a window of 100 versions and a step of 10.
fn is_config(config: &Config) -> bool {
    config.proxies() == 1
        && config.resolvers() == 4
        && config.window() == 100
        && config.step() == 10
}

fn are(bytes: &Bytes, expected: &[u8]) -> bool {
    bytes.as_slice() == expected
}

fn is_range(range: &KeyRange, begin: &[u8], end: &[u8]) -> bool {
    range.begin() == begin && range.end() == end
}

/// The only range is this one.
fn is_only_range(ranges: &[KeyRange], begin: &[u8], end: &[u8]) -> bool {
    match ranges {
        [range] => is_range(range, begin, end),
        _ => false,
    }
}

/// The only mutation is the Set of `k` to `v`.
fn is_only_set(mutations: &[AdmittedMutation]) -> bool {
    match mutations {
        [AdmittedMutation::Set { key, value }] => are(key, b"k") && are(value, b"v"),
        _ => false,
    }
}

/// The transaction is the one with something in each field.
fn is_given(admitted: &Admitted) -> bool {
    admitted.snapshot() == 7
        && is_only_range(admitted.reads(), b"a", b"b")
        && is_only_range(admitted.writes(), b"c", b"d")
        && is_only_set(admitted.mutations())
        && admitted.lock_aware()
}

/// The batch has that transaction alone.
fn is_batch(batch: &Batch) -> bool {
    match batch.transactions() {
        [only] => is_given(only),
        _ => false,
    }
}

/// The only key that is asked is `n`.
fn is_asked(ask: &[Bytes]) -> bool {
    match ask {
        [key] => are(key, b"n"),
        _ => false,
    }
}
