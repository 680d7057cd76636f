//! Transactions that are admitted: every limit holds.

ghost use Rattle.std.specs.Prelude.{◌≡◌, None, IfOk};

use crate::stamped::{Stamped, into_stamped_changes, stamped_changes};
use model::{Ranges, TransactionNumber, Version};
use std::alloc::Global;
use std::marker::Model;
use system_keys::{Bytes, Items, KeyRange, OutOfMemory};

/// A mutation of an admitted transaction (release 7.1). `Admitted` keeps its limits.
#[derive(Clone, Debug, Drop)]
pub enum AdmittedMutation {
    /// Puts the value at the key.
    Set {
        /// The key of the row.
        key: Bytes,
        /// Its new value.
        value: Bytes,
    },
    /// Removes every row of the range.
    Clear {
        /// The keys whose rows go.
        range: KeyRange,
    },
    /// Puts the value at the key, with a stamp in it.
    SetStamped {
        /// The key of the row.
        key: Bytes,
        /// Its new value, and after it the offset of the stamp.
        value: Bytes,
    },
}

impl AdmittedMutation {
    /// Returns a deep copy. Fails only with `OutOfMemory`.
    pub fn copy(&self) -> Result<AdmittedMutation, OutOfMemory>
        ensures { IfOk result (λ copy. copy ≡ self.now) }
    {
        Ok(self.clone()?)
    }
}

/// A transaction as it was given, in which every limit holds: `admit` and `admit_owned` make it
/// (this project's profile).
#[derive(Clone, Debug, Drop)]
pub struct Admitted {
    snapshot: Version,
    /// Those that it reads and writes, which its copies share.
    ranges: Ranges,
    mutations: Items<AdmittedMutation>,
    lock_aware: bool,
}

impl Model for Admitted {
    ghost use Rattle.std.specs.Prelude.{◌≡◌, None, map};
    ghost use Rattle.model.specs.Stamps.{AdmittedTransaction};

    ghost Value = { AdmittedTransaction };

    ghost use Rattle.mutation.specs.Admitted.{from_admitted};
    ghost use Rattle.mutation.specs.Faults.{transaction_fault};

    ghost view = { λ t. record {
      snapshot = t.snapshot;
      reads = t.ranges.reads;
      writes = t.ranges.writes;
      mutations = map from_admitted t.mutations;
      lock_aware = t.lock_aware;
    } };

    ghost invariant = { λ t. transaction_fault (record {
      snapshot = t.snapshot;
      reads = t.ranges.reads;
      writes = t.ranges.writes;
      mutations = map from_admitted t.mutations;
      lock_aware = t.lock_aware;
    }) ≡ None };
}

impl Admitted {
    ghost use Rattle.std.specs.Prelude.{map};
    ghost use Rattle.model.specs.Stamps.{AdmittedTransaction, stamped};
    ghost use Rattle.mutation.specs.Admitted.{from_admitted};
    ghost use Rattle.mutation.specs.Faults.{transaction_fault};

    /// Returns the transaction of these parts. Does not allocate.
    pub(crate) fn of_parts(
        snapshot: Version,
        ranges: Ranges,
        mutations: Vec<AdmittedMutation>,
        lock_aware: bool,
    ) -> Admitted
        requires { transaction_fault (record {
          snapshot = snapshot;
          reads = ranges.reads;
          writes = ranges.writes;
          mutations = map from_admitted mutations.items;
          lock_aware = lock_aware;
        }) ≡ None }
        ensures { result ≡ record {
          snapshot = snapshot;
          reads = ranges.reads;
          writes = ranges.writes;
          mutations = map from_admitted mutations.items;
          lock_aware = lock_aware;
        } }
    {
        Admitted {
            snapshot,
            ranges,
            mutations: Items::from(mutations),
            lock_aware,
        }
    }

    /// The version that it read at.
    pub fn snapshot(&self) -> Version
        ensures { result ≡ self.now.snapshot }
    {
        self.snapshot
    }

    /// The ranges that it read.
    pub fn reads(&self) -> &[KeyRange]
        ensures value { result.now ≡ self.now.reads }
        ensures limits { transaction_fault self.now ≡ None }
    {
        self.ranges.reads()
    }

    /// The ranges that it wants to write.
    pub fn writes(&self) -> &[KeyRange]
        ensures value { result.now ≡ self.now.writes }
        ensures limits { transaction_fault self.now ≡ None }
    {
        self.ranges.writes()
    }

    /// What it wants to change, in order.
    pub fn mutations(&self) -> &[AdmittedMutation]
        ensures value { map from_admitted result.now ≡ self.now.mutations }
        ensures limits { transaction_fault self.now ≡ None }
    {
        self.mutations.as_slice()
    }

    /// Whether it may commit while the database is locked.
    pub fn lock_aware(&self) -> bool
        ensures { result ≡ self.now.lock_aware }
    {
        self.lock_aware
    }

    /// Returns the transaction with its stamps in, as transaction `number` of the batch of
    /// `version`: each SetStamped becomes a Set (release 7.1). A stamp holds the low two bytes of a
    /// number above 65,535, which no batch has. The two share the ranges. Fails only with `OutOfMemory`.
    pub fn stamped(
        &self,
        alloc: Global,
        version: Version,
        number: TransactionNumber,
    ) -> Result<Stamped, OutOfMemory>
        ensures { IfOk result (λ transaction. transaction ≡ stamped version number self.now) }
    {
        Ok(Stamped::of_parts(
            self.snapshot,
            self.ranges.copy()?,
            stamped_changes(alloc, version, number, self.mutations.as_slice())?,
            self.lock_aware,
        ))
    }

    /// Returns the transaction of the caller with its stamps in, as [`Admitted::stamped`] does. Its
    /// ranges, keys and values become those of the result: only a value with a stamp is made anew.
    /// Fails only with `OutOfMemory`.
    pub fn into_stamped(
        self,
        alloc: Global,
        version: Version,
        number: TransactionNumber,
    ) -> Result<Stamped, OutOfMemory>
        ensures { IfOk result (λ transaction. transaction ≡ stamped version number self) }
    {
        let changes = into_stamped_changes(alloc, version, number, self.mutations)?;
        Ok(Stamped::of_parts(self.snapshot, self.ranges, changes, self.lock_aware))
    }

    /// Returns a copy, which shares the ranges. Fails only with `OutOfMemory`.
    pub fn copy(&self) -> Result<Admitted, OutOfMemory>
        ensures { IfOk result (λ copy. copy ≡ self.now) }
    {
        Ok(self.clone()?)
    }
}
