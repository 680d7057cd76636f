//! Transactions as clients give them: unchecked bytes.

ghost use Rattle.std.specs.Prelude.{◌≡◌, IfOk};

use model::Version;
use system_keys::{Bytes, Items, OutOfMemory};

/// A range of keys as given: from `begin` up to `end`, without `end`. Nothing is checked.
#[derive(Clone, Debug, Drop)]
pub struct GivenRange {
    /// Where the range begins.
    pub begin: Bytes,
    /// Where it ends.
    pub end: Bytes,
}

impl GivenRange {
    /// Returns a deep copy. Fails only with `OutOfMemory`.
    pub fn copy(&self) -> Result<GivenRange, OutOfMemory>
        ensures { IfOk result (λ copy. copy ≡ self.now) }
    {
        Ok(self.clone()?)
    }
}

/// A mutation as given (release 7.1). Nothing is checked.
#[derive(Clone, Debug, Drop)]
pub enum Mutation {
    /// Puts the value at the key.
    Set {
        /// The key of the row.
        key: Bytes,
        /// Its new value.
        value: Bytes,
    },
    /// Removes every row from `begin` up to `end`, without `end`.
    Clear {
        /// Where the range begins.
        begin: Bytes,
        /// Where it ends.
        end: Bytes,
    },
    /// Puts the value at the key, with a stamp in it: its last four bytes are an offset, low byte
    /// first, and are removed; ten bytes at the offset become the stamp.
    SetStamped {
        /// The key of the row.
        key: Bytes,
        /// Its new value, and after it the offset.
        value: Bytes,
    },
}

impl Mutation {
    /// Returns a deep copy. Fails only with `OutOfMemory`.
    pub fn copy(&self) -> Result<Mutation, OutOfMemory>
        ensures { IfOk result (λ copy. copy ≡ self.now) }
    {
        Ok(self.clone()?)
    }
}

/// A transaction as given (release 7.1). Nothing is checked.
#[derive(Clone, Debug, Drop)]
pub struct Transaction {
    /// The version that it read at.
    pub snapshot: Version,
    /// The ranges that it read.
    pub reads: Items<GivenRange>,
    /// The ranges that it wants to write.
    pub writes: Items<GivenRange>,
    /// What it wants to change, in order.
    pub mutations: Items<Mutation>,
    /// Whether it may commit while the database is locked.
    pub lock_aware: bool,
}

impl Transaction {
    /// Returns a deep copy. Fails only with `OutOfMemory`.
    pub fn copy(&self) -> Result<Transaction, OutOfMemory>
        ensures { IfOk result (λ copy. copy ≡ self.now) }
    {
        Ok(self.clone()?)
    }
}
