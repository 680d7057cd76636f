//! The part of a transaction that one resolver gets.
//!
//! Release 7.1, `CommitProxyServer.actor.cpp`, ResolutionRequestBuilder.

ghost use Rattle.std.specs.Prelude.{◌≡◌, ◌<◌, ◌++◌, Some, length, slice_get, IfOk};
ghost use Rattle.model.specs.Parts.{ArePlacesIn, at_places};

use crate::numbers::{TransactionNumber, Version};
use crate::places::Places;
use crate::ranges::Ranges;
use std::alloc::{AllocError, Global};
use std::marker::Model;
use system_keys::{Items, KeyRange, OutOfMemory};

/// One transaction of a resolver's share: its number in the batch, its snapshot, and those of its
/// ranges that the resolver gets. A range is never cut.
///
/// A part shares the ranges of its transaction, and has the places of those that the resolver gets.
#[derive(Debug, Drop)]
pub struct Part {
    number: TransactionNumber,
    snapshot: Version,
    ranges: Ranges,
    reads: Places,
    /// The keys of the lock row, if the resolver gets that read, which is not in the transaction.
    lock: Items<KeyRange>,
    writes: Places,
}

impl Model for Part {
    ghost use Rattle.std.specs.Prelude.{◌++◌};
    ghost use Rattle.model.specs.Parts.{PartView, ArePlacesIn, at_places};

    ghost Value = { PartView };

    ghost view = { λ p. record {
      number = p.number;
      snapshot = p.snapshot;
      reads = at_places p.ranges.reads p.reads ++ p.lock;
      writes = at_places p.ranges.writes p.writes;
    } };

    ghost invariant = { λ p. ArePlacesIn p.ranges.reads p.reads × ArePlacesIn p.ranges.writes p.writes };
}

impl Part {
    /// Returns the part that has all these ranges. Fails only with `OutOfMemory`.
    pub fn new(
        alloc: Global,
        number: TransactionNumber,
        snapshot: Version,
        reads: Items<KeyRange>,
        writes: Items<KeyRange>,
    ) -> Result<Part, OutOfMemory>
        ensures { IfOk result (λ part. part ≡ record {
          number = number;
          snapshot = snapshot;
          reads = reads;
          writes = writes;
        }) }
    {
        let read_places = Places::below(alloc, reads.as_slice().len())?;
        let write_places = Places::below(alloc, writes.as_slice().len())?;
        Ok(Part {
            number,
            snapshot,
            ranges: Ranges::new(alloc, reads, writes)?,
            reads: read_places,
            lock: Items::from(Vec::new(alloc)),
            writes: write_places,
        })
    }

    /// Returns the part that has those of the ranges that are at these places, and behind its reads
    /// those of the lock row. Does not allocate.
    pub fn at_places(
        number: TransactionNumber,
        snapshot: Version,
        ranges: Ranges,
        reads: Places,
        lock: Items<KeyRange>,
        writes: Places,
    ) -> Part
        requires reads { ArePlacesIn ranges.reads reads }
        requires writes { ArePlacesIn ranges.writes writes }
        ensures { result ≡ record {
          number = number;
          snapshot = snapshot;
          reads = at_places ranges.reads reads ++ lock;
          writes = at_places ranges.writes writes;
        } }
    {
        Part {
            number,
            snapshot,
            ranges,
            reads,
            lock,
            writes,
        }
    }

    /// The number of the transaction in its batch, from 0.
    pub fn number(&self) -> TransactionNumber
        ensures { result ≡ self.now.number }
    {
        self.number
    }

    /// The version at which the transaction read.
    pub fn snapshot(&self) -> Version
        ensures { result ≡ self.now.snapshot }
    {
        self.snapshot
    }

    /// How many ranges read the resolver gets.
    pub fn read_count(&self) -> usize
        ensures { result ≡ length self.now.reads }
    {
        self.reads.as_slice().len() + self.lock.as_slice().len()
    }

    /// The range read at a place, from 0, among those that the resolver gets.
    pub fn read_at(&self, place: usize) -> &KeyRange
        requires { place < length self.now.reads }
        ensures { slice_get self.now.reads place ≡ Some result.now }
    {
        let places = self.reads.as_slice();
        if place < places.len() {
            &self.ranges.reads()[places[place]]
        } else {
            &self.lock.as_slice()[place - places.len()]
        }
    }

    /// How many ranges written the resolver gets.
    pub fn write_count(&self) -> usize
        ensures { result ≡ length self.now.writes }
    {
        self.writes.as_slice().len()
    }

    /// The range written at a place, from 0, among those that the resolver gets.
    pub fn write_at(&self, place: usize) -> &KeyRange
        requires { place < length self.now.writes }
        ensures { slice_get self.now.writes place ≡ Some result.now }
    {
        &self.ranges.writes()[self.writes.as_slice()[place]]
    }

    /// Returns a copy, which shares the ranges. Fails only with `OutOfMemory`.
    pub fn copy(&self) -> Result<Part, OutOfMemory>
        ensures { IfOk result (λ copy. copy ≡ self.now) }
    {
        Ok(self.clone()?)
    }
}

impl Clone for Part {
    ghost is_clone = { λ part copy. copy ≡ part };

    fn clone(&self) -> Result<Part, AllocError> {
        Ok(Part {
            number: self.number,
            snapshot: self.snapshot,
            ranges: self.ranges.clone()?,
            reads: self.reads.clone()?,
            lock: self.lock.clone()?,
            writes: self.writes.clone()?,
        })
    }
}
