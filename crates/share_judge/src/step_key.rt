//! The key at which a step begins: an `OrderedKey` in a type of its own.

ghost use Rattle.std.specs.Prelude.{◌≡◌, IfOk};

use std::alloc::{AllocError, Global};
use std::cmp::Ordering;
use std::marker::Model;
use system_keys::{OrderedKey, OutOfMemory};

/// A key at which a step begins. Contracts see its bytes.
///
/// An `OrderedKey` in a type of its own: the walks of a map are compiled once for each type of key, and
/// one copy for two crates is not inlined.
#[derive(Debug, Drop)]
pub(crate) struct StepKey {
    key: OrderedKey,
}

impl Model for StepKey {
    ghost use Rattle.std.specs.Prelude.{◌≡◌, ℕ, List};

    ghost Value = { List ℕ };

    ghost view = { λ k. k.key };
}

impl StepKey {
    /// The key of these bytes. Allocates only if there are more than 15.
    pub(crate) fn new(alloc: Global, bytes: &[u8]) -> Result<StepKey, OutOfMemory>
        ensures { IfOk result (λ key. key ≡ bytes.now) }
    {
        Ok(StepKey {
            key: OrderedKey::new(alloc, bytes)?,
        })
    }

    /// Its bytes.
    pub(crate) fn as_slice(&self) -> &[u8]
        ensures { result.now ≡ self.now }
    {
        self.key.as_slice()
    }

    /// A copy. Allocates only if there are more than 15 bytes.
    pub(crate) fn copy(&self) -> Result<StepKey, OutOfMemory>
        ensures { IfOk result (λ copy. copy ≡ self.now) }
    {
        Ok(self.clone()?)
    }
}

impl Clone for StepKey {
    ghost is_clone = { λ key copy. copy ≡ key };

    fn clone(&self) -> Result<StepKey, AllocError> {
        Ok(StepKey {
            key: self.key.clone()?,
        })
    }
}

impl PartialEq for StepKey {
    ghost use Rattle.std.specs.Prelude.{nat_eq};
    ghost use Rattle.std.specs.Cmp.{partial_equiv_from_equiv};
    ghost use Rattle.std.specs.Cmp.Lexicographic.{pointwise, nat_list_eq_equiv};

    ghost eq = { pointwise nat_eq };

    ghost laws = { partial_equiv_from_equiv nat_list_eq_equiv };

    fn eq(&self, other: &StepKey) -> bool {
        self.as_slice() == other.as_slice()
    }
}

impl Eq for StepKey {
    ghost use Rattle.std.specs.Cmp.Lexicographic.{nat_list_eq_equiv};

    ghost laws = { nat_list_eq_equiv };
}

impl PartialOrd for StepKey {
    ghost use Rattle.std.specs.Prelude.{Some};
    ghost use Rattle.std.specs.Ordering.{nat_cmp};
    ghost use Rattle.std.specs.Cmp.Lexicographic.{slice_cmp};
    ghost use Rattle.std.specs.Cmp.Lexicographic.{texts_po};

    ghost partial_cmp = { λ a b. Some (slice_cmp nat_cmp a b) };

    ghost laws = { texts_po };

    fn partial_cmp(&self, other: &StepKey) -> Option<Ordering> {
        Some(self.cmp(other))
    }
}

impl Ord for StepKey {
    ghost use Rattle.std.specs.Prelude.{refl};
    ghost use Rattle.std.specs.Ordering.{nat_cmp};
    ghost use Rattle.std.specs.Cmp.Lexicographic.{slice_cmp, nat_list_cmp_total};
    ghost use Rattle.std.specs.Cmp.Lexicographic.{texts_ties};

    ghost cmp = { slice_cmp nat_cmp };

    ghost total = { nat_list_cmp_total };

    ghost matches_partial_cmp = { λ a b. refl };

    ghost matches_eq = { texts_ties };

    fn cmp(&self, other: &StepKey) -> Ordering {
        self.key.cmp(&other.key)
    }
}
