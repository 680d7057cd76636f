//! Ranges of keys from their ends, checked or as a client gives them.

use crate::lists::{bytes, list, room};
use mutation::GivenRange;
use std::alloc::{AllocError, Global};
use std::test::Fail;
use system_keys::{Items, KeyRange};

/// A range as plain data: where it begins, and where it ends.
pub type Ends<'a> = (&'a [u8], &'a [u8]);

/// The range from `begin` up to `end`, which has no fault.
pub fn range(alloc: Global, begin: &[u8], end: &[u8]) -> Result<KeyRange, Fail> {
    Ok(KeyRange::new(list(alloc, begin)?, list(alloc, end)?)?)
}

/// The ranges, which have no fault.
pub fn ranges(alloc: Global, ranges: &[Ends<'_>]) -> Result<Items<KeyRange>, Fail> {
    let mut list = room(alloc, ranges.len())?;
    for (begin, end) in ranges {
        list.push(range(alloc, *begin, *end)?)?;
    }
    Ok(Items::from(list))
}

/// The range from `begin` up to `end`, unchecked.
pub fn given_range(alloc: Global, begin: &[u8], end: &[u8]) -> Result<GivenRange, AllocError> {
    Ok(GivenRange {
        begin: bytes(alloc, begin)?,
        end: bytes(alloc, end)?,
    })
}

/// The ranges, unchecked.
pub fn given_ranges(alloc: Global, ranges: &[Ends<'_>]) -> Result<Items<GivenRange>, AllocError> {
    let mut list = room(alloc, ranges.len())?;
    for (begin, end) in ranges {
        list.push(given_range(alloc, *begin, *end)?)?;
    }
    Ok(Items::from(list))
}
