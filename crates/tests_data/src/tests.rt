//! Tests of what only calls can show, against vectors and values worked out by hand: among them that
//! right batches and fold scripts are read by their tokens alone, and how often devices are called. A
//! tested call that takes memory is made again if it was refused memory; a test ends with that error
//! if an allocation for its own data fails. Limits, first faults and printed refusals are shown by the scripts in
//! `tests/scripts`; the built program meets failing devices in `tests/memory`.

mod copies;
mod devices;
mod of_fold_run;
mod of_model;
mod of_mutation;
mod of_refusals;
mod of_script_tokens;
mod of_scripts;
mod of_system_keys;
mod of_testing;

use std::alloc::{AllocError, Global};
use std::fmt::Debug;
use std::process::Abort;
use system_keys::{Bytes, KeyRange, OutOfMemory};
use testing::twice;

fn are(bytes: &Bytes, expected: &[u8]) -> bool {
    bytes.as_slice() == expected
}

fn is_range(range: &KeyRange, begin: &[u8], end: &[u8]) -> bool {
    range.begin() == begin && range.end() == end
}

fn printed<T: Debug>(alloc: Global, value: &T) -> Result<String, AllocError> {
    format!(in alloc; "{value:?}")
}

/// The two are equal: in all that is printed for debugging, which is every field.
fn assert_alike<T: Debug>(rt: &(impl Abort + AllocGlobal), made: &T, expected: &T) {
    let made = twice!(rt.alloc(); printed(rt.alloc(), made), _).expect(rt, "a text");
    let expected = twice!(rt.alloc(); printed(rt.alloc(), expected), _).expect(rt, "a text");
    assert_eq!(rt; made, expected);
}

/// A type whose values are copied by a call that allocates. A function that is passed by its name would be
/// proved three times more in this crate, as each of the closures that it can stand for.
trait Copied: Drop {
    /// The copy, by one call.
    fn copied(&self) -> Result<Self, OutOfMemory>;
}

/// A copy of the value, made again after a failed allocation, is equal to it.
fn assert_copied<T: Copied + Debug>(rt: &(impl Abort + AllocGlobal), value: &T) {
    let copied = twice!(rt.alloc(); value.copied(), OutOfMemory).expect(rt, "a copy");
    assert_alike(rt, &copied, value);
}
