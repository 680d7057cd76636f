//! A move as it is written in a script, before its range is checked.

ghost use Rattle.std.specs.Prelude.{◌≡◌, IfOk};

use model::ResolverNumber;
use mutation::GivenRange;
use system_keys::OutOfMemory;

/// A move as it is written, before its range is checked.
#[derive(Clone, Debug, Drop)]
pub struct GivenMove {
    /// The range.
    pub range: GivenRange,
    /// The number of the resolver that it moves to.
    pub dest: ResolverNumber,
}

impl GivenMove {
    /// Returns a deep copy. Fails only with `OutOfMemory`.
    pub fn copy(&self) -> Result<GivenMove, OutOfMemory>
        ensures { IfOk result (λ copy. copy ≡ self.now) }
    {
        Ok(self.clone()?)
    }
}
