//! Moves of ranges from one resolver to another.
//!
//! Release 7.1, `masterserver.actor.cpp`, getVersion.

ghost use Rattle.std.specs.Prelude.{◌≡◌, IfOk};

use crate::numbers::{ResolverNumber, Version};
use system_keys::{KeyRange, OutOfMemory};

/// From version `date` on, the keys of `range` belong to resolver `dest`.
#[derive(Clone, Debug, Drop)]
pub struct Move {
    /// The keys that move.
    pub range: KeyRange,
    /// The first version at which they belong to `dest`.
    pub date: Version,
    /// The number of the resolver that they move to.
    pub dest: ResolverNumber,
}

impl Move {
    /// Returns a deep copy. Fails only with `OutOfMemory`.
    pub fn copy(&self) -> Result<Move, OutOfMemory>
        ensures { IfOk result (λ copy. copy ≡ self.now) }
    {
        Ok(self.clone()?)
    }
}
