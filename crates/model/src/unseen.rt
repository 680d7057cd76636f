//! State transactions as a request carries them (`StateMark`) and as a reply tells them
//! (`UnseenRow`).
//!
//! Release 7.1, `Resolver.actor.cpp`, resolveBatch; what differs is marked *profile*.

ghost use Rattle.std.specs.Prelude.{◌≡◌, IfOk};

use crate::numbers::{TransactionNumber, Version};
use crate::verdict::Verdict;
use std::alloc::AllocError;
use system_keys::{Change, Items, OutOfMemory, SharedItems};

/// The content of a state transaction. Only resolver 0 gets it and replies it.
#[derive(Clone, Debug, Drop)]
pub struct Carried {
    /// Its state mutations, in order. Copies share them.
    pub mutations: SharedItems<Change>,
    /// Whether it may commit while the database is locked.
    pub lock_aware: bool,
}

impl Carried {
    /// Returns a copy, which shares the mutations. Fails only with `OutOfMemory`.
    pub fn copy(&self) -> Result<Carried, OutOfMemory>
        ensures { IfOk result (λ copy. copy ≡ self.now) }
    {
        Ok(self.clone()?)
    }
}

/// Marks a transaction of a request as a state transaction.
#[derive(Clone, Debug, Drop)]
pub struct StateMark {
    /// The number of the transaction in its batch, from 0.
    pub number: TransactionNumber,
    /// Its content in the request to resolver 0, and None in the others.
    pub carried: Option<Carried>,
}

impl StateMark {
    /// Returns a copy, which shares the mutations. Fails only with `OutOfMemory`.
    pub fn copy(&self) -> Result<StateMark, OutOfMemory>
        ensures { IfOk result (λ copy. copy ≡ self.now) }
    {
        Ok(self.clone()?)
    }
}

/// A state transaction as one resolver replies it.
#[derive(Clone, Debug, Drop)]
pub struct UnseenState {
    /// The verdict of this resolver.
    pub verdict: Verdict,
    /// Its content from resolver 0, and None from the others.
    pub carried: Option<Carried>,
}

impl UnseenState {
    /// Returns a copy, which shares the mutations. Fails only with `OutOfMemory`.
    pub fn copy(&self) -> Result<UnseenState, OutOfMemory>
        ensures { IfOk result (λ copy. copy ≡ self.now) }
    {
        Ok(self.clone()?)
    }
}

/// The state transactions of one version, as one resolver replies them.
/// *Profile*: a resolver replies a version without state transactions too.
#[derive(Debug, Drop)]
pub struct UnseenRow {
    /// The version of the batch.
    pub version: Version,
    /// Its state transactions, in the order of their batch.
    pub states: Items<UnseenState>,
}

impl UnseenRow {
    /// Returns a copy, which shares the mutations. Fails only with `OutOfMemory`.
    pub fn copy(&self) -> Result<UnseenRow, OutOfMemory>
        ensures { IfOk result (λ copy. copy ≡ self.now) }
    {
        Ok(self.clone()?)
    }
}

impl Clone for UnseenRow {
    ghost is_clone = { λ row copy. copy ≡ row };

    fn clone(&self) -> Result<UnseenRow, AllocError> {
        Ok(UnseenRow {
            version: self.version,
            states: self.states.clone()?,
        })
    }
}
