//! A byte string that contracts see as the list of its bytes.

ghost use Rattle.std.specs.Prelude.{◌≡◌, ◌<◌, ◌≤◌, ◌++◌, ◌∷◌, [], length, IfOk, IsOk, OnOk};

use crate::memory::OutOfMemory;
use smallvec::SmallVec;
use std::alloc::{AllocError, Global};
use std::cmp::Ordering;
use std::marker::Model;

/// Up to this number of bytes lie in the value itself, without an allocation.
pub(crate) const SHORT_LENGTH: usize = 24;

/// Owned bytes: a key, or the value of a row. Up to 24 bytes lie in the value itself, and take no block
/// of memory.
///
/// Made from a `Vec<u8>` without allocating: one with room for more than 24 bytes keeps its block.
#[derive(Debug, Drop)]
pub struct Bytes {
    bytes: SmallVec<u8, SHORT_LENGTH>,
}

impl Model for Bytes {
    ghost use Rattle.std.specs.Prelude.{List, ℕ};

    ghost Value = { List ℕ };

    ghost view = { λ b. b.bytes.items };
}

impl Bytes {
    /// Returns a copy of the bytes. Fails only with `OutOfMemory`, and never for up to 24 bytes.
    pub fn from_slice(alloc: Global, bytes: &[u8]) -> Result<Bytes, OutOfMemory>
        ensures copy { IfOk result (λ copy. copy ≡ bytes.now) }
        ensures succeeds { length bytes.now ≤ 24 → IsOk result }
    {
        Ok(Bytes {
            bytes: SmallVec::from_slice(alloc, bytes)?,
        })
    }

    /// No bytes, with room for `capacity`. Fails only with `OutOfMemory`.
    pub(crate) fn with_capacity(alloc: Global, capacity: usize) -> Result<Bytes, OutOfMemory>
        ensures { IfOk result (λ bytes. bytes ≡ []) }
    {
        Ok(Bytes {
            bytes: SmallVec::with_capacity(alloc, capacity)?,
        })
    }

    /// Adds a byte at the end. Fails only with `OutOfMemory`.
    pub(crate) fn push(&mut self, byte: u8) -> Result<(), OutOfMemory>
        ensures { OnOk result (self.new ≡ self.old ++ byte ∷ []) }
    {
        Ok(self.bytes.push(byte)?)
    }

    /// Adds a copy of the bytes at the end. Fails only with `OutOfMemory`.
    pub(crate) fn extend_from_slice(&mut self, more: &[u8]) -> Result<(), OutOfMemory>
        ensures { OnOk result (self.new ≡ self.old ++ more.now) }
    {
        Ok(self.bytes.extend_from_slice(more)?)
    }

    /// Borrows the bytes.
    pub fn as_slice(&self) -> &[u8]
        ensures { result.now ≡ self.now }
    {
        self.bytes.as_slice()
    }

    /// Returns a deep copy. Fails only with `OutOfMemory`, and never for up to 24 bytes.
    pub fn copy(&self) -> Result<Bytes, OutOfMemory>
        ensures copy { IfOk result (λ copy. copy ≡ self.now) }
        ensures succeeds { length self.now ≤ 24 → IsOk result }
    {
        Bytes::from_slice(*self.bytes.allocator(), self.as_slice())
    }

    /// The bytes as a vector. More than 24 bytes keep their block of memory. Fails only with
    /// `OutOfMemory`, and never for more than 24 bytes.
    pub fn into_vec(self) -> Result<Vec<u8>, OutOfMemory>
        ensures vector { IfOk result (λ bytes. bytes.items ≡ self) }
        ensures succeeds { 24 < length self → IsOk result }
    {
        Ok(self.bytes.into_vec()?)
    }
}

impl From<Vec<u8>> for Bytes {
    ghost from_gives = { λ bytes b. b ≡ bytes.items };

    fn from(bytes: Vec<u8>) -> Bytes {
        Bytes {
            bytes: SmallVec::from_vec(bytes),
        }
    }
}

impl Clone for Bytes {
    ghost is_clone = { λ b copy. copy ≡ b };

    fn clone(&self) -> Result<Bytes, AllocError> {
        let alloc: Global = *self.bytes.allocator();
        Ok(Bytes {
            bytes: SmallVec::from_slice(alloc, self.as_slice())?,
        })
    }
}

impl PartialEq for Bytes {
    ghost use Rattle.std.specs.Prelude.{nat_eq};
    ghost use Rattle.std.specs.Cmp.{partial_equiv_from_equiv};
    ghost use Rattle.std.specs.Cmp.Lexicographic.{pointwise, nat_list_eq_equiv};

    ghost eq = { pointwise nat_eq };

    ghost laws = { partial_equiv_from_equiv nat_list_eq_equiv };

    fn eq(&self, other: &Bytes) -> bool {
        self.as_slice() == other.as_slice()
    }
}

impl Eq for Bytes {
    ghost use Rattle.std.specs.Cmp.Lexicographic.{nat_list_eq_equiv};

    ghost laws = { nat_list_eq_equiv };
}

impl PartialOrd for Bytes {
    ghost use Rattle.std.specs.Prelude.{Some};
    ghost use Rattle.std.specs.Ordering.{nat_cmp};
    ghost use Rattle.std.specs.Cmp.Lexicographic.{slice_cmp};
    ghost use Rattle.std.specs.Cmp.Lexicographic.{texts_po};

    ghost partial_cmp = { λ a b. Some (slice_cmp nat_cmp a b) };

    ghost laws = { texts_po };

    fn partial_cmp(&self, other: &Bytes) -> Option<Ordering> {
        Some(self.cmp(other))
    }
}

impl Ord for Bytes {
    ghost use Rattle.std.specs.Prelude.{refl};
    ghost use Rattle.std.specs.Ordering.{nat_cmp};
    ghost use Rattle.std.specs.Cmp.Lexicographic.{slice_cmp, nat_list_cmp_total};
    ghost use Rattle.std.specs.Cmp.Lexicographic.{texts_ties};

    ghost cmp = { slice_cmp nat_cmp };

    ghost total = { nat_list_cmp_total };

    ghost matches_partial_cmp = { λ a b. refl };

    ghost matches_eq = { texts_ties };

    fn cmp(&self, other: &Bytes) -> Ordering {
        self.as_slice().cmp(other.as_slice())
    }
}
