//! The ranges of a transaction, which its copies and its parts share.

ghost use Rattle.std.specs.Prelude.{◌≡◌, IfOk};

use std::alloc::{AllocError, Global};
use std::marker::Model;
use std::sync::Arc;
use system_keys::{Items, KeyRange, OutOfMemory};

/// The ranges that a transaction reads, and those that it writes. All copies share them.
#[derive(Debug, Drop)]
pub struct Ranges {
    lists: Arc<RangeLists>,
}

/// What the copies share.
#[derive(Debug, Drop)]
struct RangeLists {
    reads: Items<KeyRange>,
    writes: Items<KeyRange>,
}

impl Model for Ranges {
    ghost use Rattle.std.specs.Arc.{arc_value};
    ghost use Rattle.model.specs.Parts.{RangesView};

    ghost Value = { RangesView };

    ghost view = { λ r. record {
      reads = (arc_value r.lists).reads;
      writes = (arc_value r.lists).writes;
    } };
}

impl Ranges {
    /// Returns the ranges of these lists. Fails only with `OutOfMemory`.
    pub fn new(
        alloc: Global,
        reads: Items<KeyRange>,
        writes: Items<KeyRange>,
    ) -> Result<Ranges, OutOfMemory>
        ensures { IfOk result (λ ranges. ranges ≡ record { reads = reads; writes = writes }) }
    {
        Ok(Ranges {
            lists: Arc::new(alloc, RangeLists { reads, writes })?,
        })
    }

    /// The ranges that the transaction reads.
    pub fn reads(&self) -> &[KeyRange]
        ensures { result.now ≡ self.now.reads }
    {
        self.lists.reads.as_slice()
    }

    /// The ranges that it writes.
    pub fn writes(&self) -> &[KeyRange]
        ensures { result.now ≡ self.now.writes }
    {
        self.lists.writes.as_slice()
    }

    /// Returns a copy, which shares the ranges. Fails only with `OutOfMemory`.
    pub fn copy(&self) -> Result<Ranges, OutOfMemory>
        ensures { IfOk result (λ copy. copy ≡ self.now) }
    {
        Ok(self.clone()?)
    }
}

impl Clone for Ranges {
    ghost is_clone = { λ ranges copy. copy ≡ ranges };

    fn clone(&self) -> Result<Ranges, AllocError> {
        Ok(Ranges {
            lists: self.lists.clone()?,
        })
    }
}
