//! Parts of shares from plain data.

use crate::key_ranges::{Ends, ranges};
use crate::lists::room;
use model::Part;
use std::alloc::Global;
use std::test::Fail;
use system_keys::Items;

/// A part, or a transaction without mutations, as plain data: its snapshot, its reads and its writes.
pub type PartLine<'a> = (u64, &'a [Ends<'a>], &'a [Ends<'a>]);

/// The part of this number, whose ranges have no fault.
pub fn part(alloc: Global, number: usize, line: PartLine<'_>) -> Result<Part, Fail> {
    let (snapshot, reads, writes) = line;
    let (reads, writes) = (ranges(alloc, reads)?, ranges(alloc, writes)?);
    Ok(Part::new(alloc, number, snapshot, reads, writes)?)
}

/// The parts, numbered from 0.
pub fn parts(alloc: Global, lines: &[PartLine<'_>]) -> Result<Items<Part>, Fail> {
    let mut parts = room(alloc, lines.len())?;
    for (number, line) in lines.iter().enumerate() {
        parts.push(part(alloc, number, *line)?)?;
    }
    Ok(Items::from(parts))
}
