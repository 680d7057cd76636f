//! A transaction with its stamps in: its changes, and which of them are state mutations.

ghost use Rattle.std.specs.Prelude.{◌≡◌, None, filter, map, IfOk};
ghost use Rattle.system_keys.specs.Changes.{is_state};
ghost use Rattle.model.specs.Stamps.{stamped_mutation};
ghost use Rattle.model.specs.Transactions.{is_state_transaction};
ghost use Rattle.mutation.specs.Admitted.{from_admitted};
ghost use Rattle.mutation.specs.Faults.{first_fault, fault_of_mutation};

use crate::admitted::AdmittedMutation;
use crate::stamp::stamped_value;
use model::{Ranges, TransactionNumber, Version};
use std::alloc::Global;
use std::marker::Model;
use system_keys::{Bytes, Change, Items, KeyRange, OutOfMemory, is_state};

/// A transaction with its stamps in, and so with changes alone (release 7.1). It is within every
/// limit.
#[derive(Clone, Debug, Drop)]
pub struct Stamped {
    snapshot: Version,
    /// Those that it reads and writes, which the admitted transaction and all copies share.
    ranges: Ranges,
    changes: Items<Change>,
    lock_aware: bool,
}

impl Model for Stamped {
    ghost use Rattle.std.specs.Prelude.{◌≡◌, None};
    ghost use Rattle.model.specs.Transactions.{StampedTransaction};
    ghost use Rattle.mutation.specs.Faults.{stamped_fault};

    ghost Value = { StampedTransaction };

    ghost view = { λ t. record {
      snapshot = t.snapshot;
      reads = t.ranges.reads;
      writes = t.ranges.writes;
      changes = t.changes;
      lock_aware = t.lock_aware;
    } };

    ghost invariant = { λ t. stamped_fault (record {
      snapshot = t.snapshot;
      reads = t.ranges.reads;
      writes = t.ranges.writes;
      changes = t.changes;
      lock_aware = t.lock_aware;
    }) ≡ None };
}

impl Stamped {
    ghost use Rattle.mutation.specs.Faults.{stamped_fault};

    /// Returns the transaction of these parts. Does not allocate.
    pub(crate) fn of_parts(
        snapshot: Version,
        ranges: Ranges,
        changes: Vec<Change>,
        lock_aware: bool,
    ) -> Stamped
        requires { stamped_fault (record {
          snapshot = snapshot;
          reads = ranges.reads;
          writes = ranges.writes;
          changes = changes.items;
          lock_aware = lock_aware;
        }) ≡ None }
        ensures { result ≡ record {
          snapshot = snapshot;
          reads = ranges.reads;
          writes = ranges.writes;
          changes = changes.items;
          lock_aware = lock_aware;
        } }
    {
        Stamped {
            snapshot,
            ranges,
            changes: Items::from(changes),
            lock_aware,
        }
    }

    /// The version that it read at.
    pub fn snapshot(&self) -> Version
        ensures { result ≡ self.now.snapshot }
    {
        self.snapshot
    }

    /// The ranges that it read.
    pub fn reads(&self) -> &[KeyRange]
        ensures value { result.now ≡ self.now.reads }
        ensures limits { stamped_fault self.now ≡ None }
    {
        self.ranges.reads()
    }

    /// The ranges that it wants to write.
    pub fn writes(&self) -> &[KeyRange]
        ensures value { result.now ≡ self.now.writes }
        ensures limits { stamped_fault self.now ≡ None }
    {
        self.ranges.writes()
    }

    /// The ranges that it read, and those that it wants to write, which all copies share.
    pub fn ranges(&self) -> &Ranges
        ensures { result.now ≡ record { reads = self.now.reads; writes = self.now.writes } }
    {
        &self.ranges
    }

    /// What it wants to change, in order.
    pub fn changes(&self) -> &[Change]
        ensures value { result.now ≡ self.now.changes }
        ensures limits { stamped_fault self.now ≡ None }
    {
        self.changes.as_slice()
    }

    /// What it wants to change, in order. Does not allocate.
    pub fn into_changes(self) -> Items<Change>
        ensures value { result ≡ self.changes }
        ensures limits { stamped_fault self ≡ None }
    {
        self.changes
    }

    /// Whether it is a state transaction: whether it changes the metadata. Does not allocate.
    pub fn is_state(&self) -> bool
        ensures { result ≡ is_state_transaction self.now }
    {
        self.changes().iter().any(|change| is_state(change))
    }

    /// Copies of its changes that change the metadata, in order. Fails only with `OutOfMemory`.
    pub fn state_mutations(&self, alloc: Global) -> Result<Items<Change>, OutOfMemory>
        ensures { IfOk result (λ mutations. mutations ≡ filter is_state self.now.changes) }
    {
        let mut mutations = Vec::new(alloc);
        for change in self.changes() {
            if is_state(change) {
                mutations.push(change.copy()?)?;
            }
        }
        Ok(Items::from(mutations))
    }

    /// Whether it may commit while the database is locked.
    pub fn lock_aware(&self) -> bool
        ensures { result ≡ self.now.lock_aware }
    {
        self.lock_aware
    }

    /// Returns a copy, which shares the ranges. Fails only with `OutOfMemory`.
    pub fn copy(&self) -> Result<Stamped, OutOfMemory>
        ensures { IfOk result (λ copy. copy ≡ self.now) }
    {
        Ok(self.clone()?)
    }
}

/// The changes of some admitted mutations of transaction `number` in the batch of `version`.
pub(crate) fn stamped_changes(
    alloc: Global,
    version: Version,
    number: TransactionNumber,
    mutations: &[AdmittedMutation],
) -> Result<Vec<Change>, OutOfMemory>
    requires { first_fault fault_of_mutation (map from_admitted mutations.now) ≡ None }
    ensures { IfOk result (λ changes. changes.items
        ≡ map (stamped_mutation version number) (map from_admitted mutations.now)) }
{
    let mut changes = Vec::with_capacity(alloc, mutations.len())?;
    for mutation in mutations {
        changes.push(stamped_change(alloc, version, number, mutation)?)?;
    }
    Ok(changes)
}

/// The change of an admitted mutation of transaction `number` in the batch of `version`.
fn stamped_change(
    alloc: Global,
    version: Version,
    number: TransactionNumber,
    mutation: &AdmittedMutation,
) -> Result<Change, OutOfMemory>
    requires { fault_of_mutation (from_admitted mutation.now) ≡ None }
    ensures { IfOk result (λ change.
        change ≡ stamped_mutation version number (from_admitted mutation.now)) }
{
    Ok(match mutation {
        AdmittedMutation::Set { key, value } => Change::Set {
            key: key.copy()?,
            value: value.copy()?,
        },
        AdmittedMutation::Clear { range } => Change::clear(range.copy()?),
        AdmittedMutation::SetStamped { key, value } => Change::Set {
            key: key.copy()?,
            value: Bytes::from(stamped_value(alloc, version, number, value.as_slice())?),
        },
    })
}

/// The changes of some admitted mutations of transaction `number` in the batch of `version`, which
/// have their keys and values.
pub(crate) fn into_stamped_changes(
    alloc: Global,
    version: Version,
    number: TransactionNumber,
    mutations: Items<AdmittedMutation>,
) -> Result<Vec<Change>, OutOfMemory>
    requires { first_fault fault_of_mutation (map from_admitted mutations) ≡ None }
    ensures { IfOk result (λ changes. changes.items
        ≡ map (stamped_mutation version number) (map from_admitted mutations)) }
{
    let given = Vec::from(mutations);
    let mut changes = Vec::with_capacity(alloc, given.len())?;
    for mutation in given {
        changes.push(into_stamped_change(alloc, version, number, mutation)?)?;
    }
    Ok(changes)
}

/// The change of an admitted mutation of transaction `number` in the batch of `version`, which has
/// its key and its value or its range; only a value with a stamp is made anew.
fn into_stamped_change(
    alloc: Global,
    version: Version,
    number: TransactionNumber,
    mutation: AdmittedMutation,
) -> Result<Change, OutOfMemory>
    requires { fault_of_mutation (from_admitted mutation) ≡ None }
    ensures { IfOk result (λ change.
        change ≡ stamped_mutation version number (from_admitted mutation)) }
{
    Ok(match mutation {
        AdmittedMutation::Set { key, value } => Change::Set { key, value },
        AdmittedMutation::Clear { range } => Change::clear(range),
        AdmittedMutation::SetStamped { key, value } => Change::Set {
            key,
            value: Bytes::from(stamped_value(alloc, version, number, value.as_slice())?),
        },
    })
}
