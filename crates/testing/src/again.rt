//! Calls that are made again after a failed allocation, if `tests/memory` makes allocations fail.

use std::alloc::Global;

// How many bytes are asked for to learn whether an allocation has failed: `tests/memory/refuse.c`
// knows this number, and nothing else asks for as many.
const ASKED: usize = 1_000_003;

/// Whether an allocation has failed in this run. With ample memory none has, and these bytes are there;
/// `tests/memory` refuses them, too, once it has refused an allocation.
pub fn is_memory_refused(alloc: Global) -> bool {
    Vec::<u8>::with_capacity(alloc, ASKED).is_err()
}

/// The call, made once more after a failed allocation: `twice!(alloc; map.copy(), OutOfMemory)`. With
/// ample memory it is made once, and its answer stands.
#[macro_export]
macro_rules! twice {
    ($alloc:expr; $call:expr, $memory:pat) => {
        match $call {
            Err($memory) if $crate::is_memory_refused($alloc) => $call,
            answer => answer,
        }
    };
}

/// The call on an object, made once more after a failed allocation, which has to leave the object
/// as it was: `twice_on!(&rt; is_whole(&map), map.copy(), OutOfMemory)`. With ample memory it is made
/// once, and its answer stands.
#[macro_export]
macro_rules! twice_on {
    ($rt:expr; $is_as_it_was:expr, $call:expr, $memory:pat) => {
        match $call {
            Err($memory) if $crate::is_memory_refused($rt.alloc()) => {
                assert!($rt; $is_as_it_was, "a failed allocation changed the object");
                $call
            }
            answer => answer,
        }
    };
}
