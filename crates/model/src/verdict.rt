//! The verdict of a resolver on a transaction.
//!
//! Release 7.1, `Resolver.actor.cpp`, resolveBatch, and the ConflictSet of `SkipList.cpp`.

ghost use Rattle.std.specs.Prelude.{◌≡◌, Ok};

use system_keys::OutOfMemory;

/// The verdict of a resolver, in the order Conflict, Too old, Committed.
#[derive(Clone, Copy, Debug, PartialEq, Eq, PartialOrd, Ord)]
pub enum Verdict {
    /// In the part that this resolver gets, a read overlaps a write of a transaction that this
    /// resolver committed. That one is after the snapshot, or earlier in the same batch.
    Conflict,
    /// The part that this resolver gets has reads, and its snapshot lies further back than the
    /// window.
    TooOld,
    /// Neither of these.
    Committed,
}

impl Verdict {
    /// Returns a copy. Never fails.
    pub fn copy(&self) -> Result<Verdict, OutOfMemory>
        ensures { result ≡ Ok self.now }
    {
        Ok(*self)
    }
}
