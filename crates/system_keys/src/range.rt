//! A range of keys, from its begin up to its end, without the end.

ghost use Rattle.std.specs.Prelude.{◌≡◌, ◌↔◌, IsTrue, IfOk, MatchResult, None};
ghost use Rattle.system_keys.specs.KeptRanges.{begin_of, HasFront};

use crate::bytes::Bytes;
use crate::checks::check_range;
use crate::memory::OutOfMemory;
use crate::order::{both_precede, is_key_below};
use crate::refusal::Refusal;
use std::marker::Model;

/// Where a range begins.
#[derive(Clone, Debug, Drop)]
enum Begin {
    /// At the key that is this number of first bytes of the range's end.
    Front(usize),
    /// At another key.
    Other(Bytes),
}

/// The keys from `begin` up to `end`, without `end`. Never empty: `begin` is below `end`, and both
/// are within the limits.
///
/// A begin with which the end begins is kept as a part of it, so the range of one key takes one
/// block of memory.
#[derive(Clone, Debug, Drop)]
pub struct KeyRange {
    begin: Begin,
    end: Bytes,
}

impl Model for KeyRange {
    ghost use Rattle.std.specs.Prelude.{◌≡◌, None};
    ghost use Rattle.system_keys.specs.Keys.{Range};
    ghost use Rattle.system_keys.specs.Limits.{range_fault};
    ghost use Rattle.system_keys.specs.KeptRanges.{begin_of, HasFront};

    ghost Value = { Range };

    ghost view = { λ r. record { begin = begin_of r.begin r.end; end = r.end } };

    ghost invariant = { λ r. (range_fault (begin_of r.begin r.end) r.end ≡ None)
        × HasFront r.begin r.end };
}

impl KeyRange {
    ghost use Rattle.system_keys.specs.Keys.{holds, overlaps, Overlap};
    ghost use Rattle.system_keys.specs.Limits.{range_fault};

    /// Returns the range from `begin` up to `end`, or the first fault that `check_range` finds.
    /// Does not allocate.
    pub fn new(begin: Vec<u8>, end: Vec<u8>) -> Result<KeyRange, Refusal>
        ensures { MatchResult result
            (λ range. (range_fault begin.items end.items ≡ None)
            × (range ≡ record { begin = begin.items; end = end.items }))
            (λ refusal. range_fault begin.items end.items ≡ Some refusal) }
    {
        KeyRange::of_bytes(Bytes::from(begin), Bytes::from(end))
    }

    /// Returns the range from `begin` up to `end`, or the first fault that `check_range` finds.
    /// Does not allocate.
    pub fn of_bytes(begin: Bytes, end: Bytes) -> Result<KeyRange, Refusal>
        ensures { MatchResult result
            (λ range. (range_fault begin end ≡ None)
            × (range ≡ record { begin = begin; end = end }))
            (λ refusal. range_fault begin end ≡ Some refusal) }
    {
        check_range(begin.as_slice(), end.as_slice())?;
        Ok(KeyRange::from_checked(begin, end))
    }

    /// Returns the range from `begin` up to `end`, in which `check_range` has found no fault. Does not
    /// allocate.
    pub fn from_checked(begin: Bytes, end: Bytes) -> KeyRange
        requires { range_fault begin end ≡ None }
        ensures { result ≡ record { begin = begin; end = end } }
    {
        let begin = kept_begin(begin, end.as_slice());
        KeyRange { begin, end }
    }

    /// The least key of the range.
    pub fn begin(&self) -> &[u8]
        ensures value { result.now ≡ self.now.begin }
        ensures kept { range_fault self.now.begin self.now.end ≡ None }
    {
        match &self.begin {
            Begin::Front(length) => &self.end.as_slice()[..*length],
            Begin::Other(begin) => begin.as_slice(),
        }
    }

    /// The key at which the range ends: it is not in the range.
    pub fn end(&self) -> &[u8]
        ensures value { result.now ≡ self.now.end }
        ensures kept { range_fault self.now.begin self.now.end ≡ None }
    {
        self.end.as_slice()
    }

    /// The key at which the range ends, as it is kept.
    pub fn end_bytes(&self) -> &Bytes
        ensures { result.now ≡ self.now.end }
    {
        &self.end
    }

    /// Whether the key is in the range.
    pub fn contains(&self, key: &[u8]) -> bool
        ensures { result ≡ holds self.now key.now }
    {
        !is_key_below(key, self.begin()) && is_key_below(key, self.end())
    }

    /// Whether some key is in both ranges.
    pub fn overlaps(&self, other: &KeyRange) -> bool
        ensures shared { IsTrue result ↔ Overlap self.now other.now }
        ensures test { result ≡ overlaps self.now other.now }
    {
        both_precede(self.begin(), other.end(), other.begin(), self.end())
    }

    /// Returns a deep copy. Fails only with `OutOfMemory`.
    pub fn copy(&self) -> Result<KeyRange, OutOfMemory>
        ensures { IfOk result (λ copy. copy ≡ self.now) }
    {
        Ok(self.clone()?)
    }
}

/// The begin as it is kept beside the end. Does not allocate.
fn kept_begin(begin: Bytes, end: &[u8]) -> Begin
    ensures same { begin_of result end.now ≡ begin }
    ensures front { HasFront result end.now }
{
    if end.starts_with(begin.as_slice()) {
        Begin::Front(begin.as_slice().len())
    } else {
        Begin::Other(begin)
    }
}
