//! The journal: the state transactions of each version, which every proxy applies in order.
//!
//! Release 7.1, `Resolver.actor.cpp`, resolveBatch.

ghost use Rattle.std.specs.Prelude.{◌≡◌, IfOk};

use crate::numbers::Version;
use crate::verdict::Verdict;
use system_keys::{Change, Items, OutOfMemory, SharedItems};

/// A state transaction of a journal.
#[derive(Clone, Debug, Drop)]
pub struct StateTxn {
    /// Its state mutations, in order. Copies share them.
    pub mutations: SharedItems<Change>,
    /// Whether it may commit while the database is locked.
    pub lock_aware: bool,
    /// The verdict of each resolver, in the order of their numbers.
    pub verdicts: Items<Verdict>,
}

impl StateTxn {
    /// Returns a copy, which shares the mutations. Fails only with `OutOfMemory`.
    pub fn copy(&self) -> Result<StateTxn, OutOfMemory>
        ensures { IfOk result (λ copy. copy ≡ self.now) }
    {
        Ok(self.clone()?)
    }
}

/// The state transactions of one version, in the order of their batch.
#[derive(Clone, Debug, Drop)]
pub struct JournalRow {
    /// The version of the batch.
    pub version: Version,
    /// Its state transactions; a batch may have none.
    pub states: Items<StateTxn>,
}

impl JournalRow {
    /// Returns a copy, which shares the mutations. Fails only with `OutOfMemory`.
    pub fn copy(&self) -> Result<JournalRow, OutOfMemory>
        ensures { IfOk result (λ copy. copy ≡ self.now) }
    {
        Ok(self.clone()?)
    }
}
