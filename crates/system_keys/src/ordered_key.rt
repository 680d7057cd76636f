//! A key that keeps its first 15 bytes as a number, so that most comparisons look at no other
//! memory.

ghost use Rattle.std.specs.Prelude.{◌≡◌, ◌≤◌, length, IfOk, IsOk};
ghost use Rattle.system_keys.specs.OrderedKeys.{front_and_length};
ghost use Rattle.system_keys.specs.Rows.{AreBytes};

use crate::memory::OutOfMemory;
use std::alloc::{AllocError, Global};
use std::cmp::Ordering;
use std::marker::Model;

/// The number of bytes of a key that the `OrderedKey` itself holds.
pub const SHORT_KEY: usize = 15;

/// A key that is compared by a number before its bytes: most comparisons look at the numbers alone.
/// Contracts see its bytes. Up to 15 bytes lie in the key itself, and take no block of memory.
///
/// Made from a `Vec<u8>` without allocating: it keeps the vector's block, which a short key does not read.
#[derive(Debug, Drop)]
pub struct OrderedKey {
    /// The first bytes of the key, with zeros past its end, and then how many it has, or 16 if it has
    /// more than 15. Read as one number, it is in the order of keys.
    front: [u8; SHORT_KEY + 1],
    /// All bytes of a key of more than 15. It says nothing of other keys.
    whole: Vec<u8>,
}

impl Model for OrderedKey {
    ghost use Rattle.std.specs.Prelude.{◌≡◌, ℕ, List};
    ghost use Rattle.system_keys.specs.OrderedKeys.{front_and_length, key_of};
    ghost use Rattle.system_keys.specs.Rows.{AreBytes};

    ghost Value = { List ℕ };

    ghost view = { λ key. key_of key.front key.whole.items };

    ghost invariant = { λ key. (key.front ≡ front_and_length (key_of key.front key.whole.items))
        × AreBytes (key_of key.front key.whole.items) };
}

impl OrderedKey {
    /// The key of these bytes. Fails only with `OutOfMemory`, and never for up to 15 bytes.
    pub fn new(alloc: Global, bytes: &[u8]) -> Result<OrderedKey, OutOfMemory>
        ensures key { IfOk result (λ key. key ≡ bytes.now) }
        ensures succeeds { length bytes.now ≤ 15 → IsOk result }
    {
        let mut whole = Vec::new(alloc);
        if bytes.len() > SHORT_KEY {
            whole.extend_from_slice(bytes)?;
        }
        Ok(OrderedKey {
            front: front_and_length(bytes),
            whole,
        })
    }

    /// Borrows the bytes.
    pub fn as_slice(&self) -> &[u8]
        ensures { result.now ≡ self.now }
    {
        let count = usize::from(self.front[SHORT_KEY]);
        if count <= SHORT_KEY {
            &self.front[..count]
        } else {
            self.whole.as_slice()
        }
    }

    /// Returns a deep copy. Fails only with `OutOfMemory`.
    pub fn copy(&self) -> Result<OrderedKey, OutOfMemory>
        ensures { IfOk result (λ copy. copy ≡ self.now) }
    {
        Ok(self.clone()?)
    }
}

impl From<Vec<u8>> for OrderedKey {
    ghost from_gives = { λ bytes key. key ≡ bytes.items };

    fn from(bytes: Vec<u8>) -> OrderedKey {
        OrderedKey {
            front: front_and_length(bytes.as_slice()),
            whole: bytes,
        }
    }
}

impl Clone for OrderedKey {
    ghost is_clone = { λ key copy. copy ≡ key };

    fn clone(&self) -> Result<OrderedKey, AllocError> {
        Ok(OrderedKey {
            front: self.front,
            whole: self.whole.clone()?,
        })
    }
}

impl PartialEq for OrderedKey {
    ghost use Rattle.std.specs.Prelude.{nat_eq};
    ghost use Rattle.std.specs.Cmp.{partial_equiv_from_equiv};
    ghost use Rattle.std.specs.Cmp.Lexicographic.{pointwise, nat_list_eq_equiv};

    ghost eq = { pointwise nat_eq };

    ghost laws = { partial_equiv_from_equiv nat_list_eq_equiv };

    fn eq(&self, other: &OrderedKey) -> bool {
        self.as_slice() == other.as_slice()
    }
}

impl Eq for OrderedKey {
    ghost use Rattle.std.specs.Cmp.Lexicographic.{nat_list_eq_equiv};

    ghost laws = { nat_list_eq_equiv };
}

impl PartialOrd for OrderedKey {
    ghost use Rattle.std.specs.Prelude.{Some};
    ghost use Rattle.std.specs.Ordering.{nat_cmp};
    ghost use Rattle.std.specs.Cmp.Lexicographic.{slice_cmp};
    ghost use Rattle.std.specs.Cmp.Lexicographic.{texts_po};

    ghost partial_cmp = { λ a b. Some (slice_cmp nat_cmp a b) };

    ghost laws = { texts_po };

    fn partial_cmp(&self, other: &OrderedKey) -> Option<Ordering> {
        Some(self.cmp(other))
    }
}

impl Ord for OrderedKey {
    ghost use Rattle.std.specs.Prelude.{refl};
    ghost use Rattle.std.specs.Ordering.{nat_cmp};
    ghost use Rattle.std.specs.Cmp.Lexicographic.{slice_cmp, nat_list_cmp_total};
    ghost use Rattle.std.specs.Cmp.Lexicographic.{texts_ties};

    ghost cmp = { slice_cmp nat_cmp };

    ghost total = { nat_list_cmp_total };

    ghost matches_partial_cmp = { λ a b. refl };

    ghost matches_eq = { texts_ties };

    fn cmp(&self, other: &OrderedKey) -> Ordering {
        let own = u128::from_be_bytes(self.front);
        let others = u128::from_be_bytes(other.front);
        if own != others {
            return own.cmp(&others);
        }
        if usize::from(self.front[SHORT_KEY]) <= SHORT_KEY {
            return Ordering::Equal;
        }
        self.as_slice().cmp(other.as_slice())
    }
}

/// The first bytes, with zeros past their end, and then how many there are, or 16 if more than 15.
fn front_and_length(bytes: &[u8]) -> [u8; SHORT_KEY + 1]
    ensures front { result ≡ front_and_length bytes.now }
    ensures bytes { AreBytes bytes.now }
{
    let count = bytes.len().min(SHORT_KEY);
    let mut front = [0u8; SHORT_KEY + 1];
    front[..count].copy_from_slice(&bytes[..count]);
    front[SHORT_KEY] = bytes.len().min(SHORT_KEY + 1) as u8;
    front
}
