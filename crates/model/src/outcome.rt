//! The outcome of a transaction, and a finished batch with its tagged mutations and private
//! copies.
//!
//! Release 7.1, `CommitProxyServer.actor.cpp`, determineCommittedTransactions and
//! assignMutationsToStorageServers, and `ApplyMetadataMutation.cpp`, for the private copies; what
//! differs is marked *profile*.

ghost use Rattle.std.specs.Prelude.{◌≡◌, IfOk};

use crate::numbers::{RowNumber, TransactionNumber, Version};
use system_keys::{Bytes, Change, Items, OutOfMemory, Tag};

/// The outcome of a transaction, which its client gets. *Profile*: Locked is a separate outcome.
#[derive(Clone, Copy, Debug, PartialEq, Eq)]
pub enum Outcome {
    /// The transaction is committed.
    Committed {
        /// The version of its batch.
        version: Version,
        /// Its number in the batch, from 0.
        number: TransactionNumber,
    },
    /// Some resolver's verdict is Conflict.
    Conflict,
    /// No resolver's verdict is Conflict, and some verdict is Too old.
    TooOld,
    /// The database is locked, and the transaction is not lock aware.
    Locked,
}

impl Outcome {
    /// Returns a copy. It allocates no memory and never fails.
    pub fn copy(&self) -> Result<Outcome, OutOfMemory>
        ensures { result ≡ Ok self.now }
    {
        Ok(*self)
    }
}

/// A Set that concerns one storage server, as the logs keep it for that server alone. The limit of
/// keys does not hold for its key.
#[derive(Clone, Debug, Drop)]
pub struct PrivateCopy {
    /// The key of the Set, with one more `\xff` before it.
    pub key: Bytes,
    /// The value of the Set.
    pub value: Bytes,
    /// The tag of the server.
    pub tag: Tag,
}

impl PrivateCopy {
    /// Returns a deep copy. Fails only with `OutOfMemory`.
    pub fn copy(&self) -> Result<PrivateCopy, OutOfMemory>
        ensures { IfOk result (λ copy. copy ≡ self.now) }
    {
        Ok(self.clone()?)
    }
}

/// A mutation of a committed transaction, with the tags under which the logs store it.
#[derive(Clone, Debug, Drop)]
pub struct Tagged {
    /// The number of the transaction in its batch, from 0.
    pub number: TransactionNumber,
    /// The place of the mutation in its transaction, from 0.
    pub place: usize,
    /// The mutation, with its versionstamp filled in.
    pub change: Change,
    /// The tags, strictly increasing.
    pub tags: Items<Tag>,
    /// The copy for the storage server that the mutation concerns, if there is one.
    pub private: Option<PrivateCopy>,
}

impl Tagged {
    /// Returns a deep copy. Fails only with `OutOfMemory`.
    pub fn copy(&self) -> Result<Tagged, OutOfMemory>
        ensures { IfOk result (λ copy. copy ≡ self.now) }
    {
        Ok(self.clone()?)
    }
}

/// A finished batch.
#[derive(Clone, Debug, Drop)]
pub struct Finished {
    /// The row of its record, from 0.
    pub row: RowNumber,
    /// The version of its record.
    pub version: Version,
    /// One outcome for each transaction, in order.
    pub outcomes: Items<Outcome>,
    /// Each mutation of each committed transaction, in order.
    pub tagged: Items<Tagged>,
}

impl Finished {
    /// Returns a deep copy. Fails only with `OutOfMemory`.
    pub fn copy(&self) -> Result<Finished, OutOfMemory>
        ensures { IfOk result (λ copy. copy ≡ self.now) }
    {
        Ok(self.clone()?)
    }
}
