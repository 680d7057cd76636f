//! Tests of `twice`, by which other tests make calls again.

use std::alloc::Global;
use std::test::Fail;
use system_keys::{Bytes, OutOfMemory};
use testing::{is_memory_refused, twice};

/// Fails with `AllocError`, and counts its calls.
fn fail(calls: &mut u8) -> Result<(), OutOfMemory> {
    *calls = calls.saturating_add(1);
    Err(OutOfMemory)
}

#[test]
fn a_call_that_fails_with_ample_memory_is_not_made_again(rt: HostRuntime) {
    let mut calls = 0;
    let answer = twice!(rt.alloc(); fail(&mut calls), OutOfMemory);
    assert!(rt; answer.is_err() && calls == 1 && !is_memory_refused(rt.alloc()));
}

/// A key of 100 bytes, which takes one allocation.
fn key(alloc: Global) -> Result<Bytes, OutOfMemory> {
    Bytes::from_slice(alloc, &[b'k'; 100])
}

/// The one allocation is that of the call. So `tests/memory`, which refuses it, must see this test pass.
#[test]
fn a_call_that_is_refused_memory_is_made_again(rt: HostRuntime) -> Result<(), Fail> {
    let made = twice!(rt.alloc(); key(rt.alloc()), OutOfMemory)?;
    assert!(rt; made.as_slice() == [b'k'; 100].as_slice());
    Ok(())
}
