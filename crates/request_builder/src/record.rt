//! Records: what the sequencer gives to a batch.
//!
//! Release 7.1, `masterserver.actor.cpp`, getVersion.

ghost use Rattle.std.specs.Prelude.{◌≡◌, ◌<◌, ◌⊎◌, [], IfOk, OnErr};
ghost use Rattle.model.specs.Stamps.{stamped_from};

use crate::moves::Moves;
use model::{ProxyNumber, RowNumber, Version};
use mutation::{Admitted, Batch, Stamped};
use std::alloc::Global;
use std::marker::Model;
use std::sync::Arc;
use system_keys::{Items, OutOfMemory};

/// What the sequencer gives to a batch: its place in the order of all batches, its version, the
/// version before it, and all moves so far. The transactions have their stamps in. Copies share the
/// moves and the transactions.
#[derive(Clone, Debug, Drop)]
pub struct Record {
    row: RowNumber,
    previous: Version,
    version: Version,
    own_previous: Version,
    proxy: ProxyNumber,
    moves: Moves,
    batch: Arc<Items<Stamped>>,
}

impl Model for Record {
    ghost use Rattle.std.specs.Prelude.{◌<◌};
    ghost use Rattle.std.specs.Arc.{arc_value};
    ghost use Rattle.model.specs.Records.{Record as Sequenced};

    ghost Value = { Sequenced };

    ghost view = { λ rec. record {
      row = rec.row;
      previous = rec.previous;
      version = rec.version;
      own_previous = rec.own_previous;
      proxy = rec.proxy;
      moves = rec.moves;
      batch = arc_value rec.batch;
    } };

    ghost invariant = { λ rec. rec.previous < rec.version };
}

impl Record {
    /// Returns the record of a batch, and puts the stamps into its transactions.
    ///
    /// `row` is its place in the order of all batches, from 0. `previous` is the version before
    /// `version`, and `own_previous` the version of this proxy's record before, or 0. `moves` are
    /// all moves so far, which the record shares. Fails only with `OutOfMemory`.
    pub fn new(
        alloc: Global,
        row: RowNumber,
        previous: Version,
        version: Version,
        own_previous: Version,
        proxy: ProxyNumber,
        moves: &Moves,
        batch: &Batch,
    ) -> Result<Record, OutOfMemory>
        requires { previous < version }
        ensures { IfOk result (λ made. made ≡ record {
          row = row;
          previous = previous;
          version = version;
          own_previous = own_previous;
          proxy = proxy;
          moves = moves.now;
          batch = stamped_from version 0 batch.now;
        }) }
    {
        let stamped = stamped_batch(alloc, version, batch.transactions())?;
        Record::of_stamped(
            alloc,
            row,
            previous,
            version,
            own_previous,
            proxy,
            moves,
            stamped,
        )
    }

    /// Returns the record of the caller's batch as [`Record::new`] does. The keys and values of the
    /// batch become those of the record: only a value with a stamp is made anew. Fails only with
    /// `OutOfMemory`.
    pub fn of_batch(
        alloc: Global,
        row: RowNumber,
        previous: Version,
        version: Version,
        own_previous: Version,
        proxy: ProxyNumber,
        moves: &Moves,
        batch: Batch,
    ) -> Result<Record, OutOfMemory>
        requires { previous < version }
        ensures { IfOk result (λ made. made ≡ record {
          row = row;
          previous = previous;
          version = version;
          own_previous = own_previous;
          proxy = proxy;
          moves = moves.now;
          batch = stamped_from version 0 batch;
        }) }
    {
        let stamped = into_stamped_batch(alloc, version, batch.into_transactions())?;
        Record::of_stamped(
            alloc,
            row,
            previous,
            version,
            own_previous,
            proxy,
            moves,
            stamped,
        )
    }

    /// Returns the record of a batch that has its stamps in.
    fn of_stamped(
        alloc: Global,
        row: RowNumber,
        previous: Version,
        version: Version,
        own_previous: Version,
        proxy: ProxyNumber,
        moves: &Moves,
        stamped: Vec<Stamped>,
    ) -> Result<Record, OutOfMemory>
        requires { previous < version }
        ensures { IfOk result (λ made. made ≡ record {
          row = row;
          previous = previous;
          version = version;
          own_previous = own_previous;
          proxy = proxy;
          moves = moves.now;
          batch = stamped.items;
        }) }
    {
        let moves = moves.copy()?;
        let batch = Arc::new(alloc, Items::from(stamped))?;
        Ok(Record {
            row,
            previous,
            version,
            own_previous,
            proxy,
            moves,
            batch,
        })
    }

    /// The place of the record in the order of all batches, from 0.
    pub fn row(&self) -> RowNumber
        ensures { result ≡ self.now.row }
    {
        self.row
    }

    /// The version before the record's.
    pub fn previous(&self) -> Version
        ensures value { result ≡ self.now.previous }
        ensures kept { self.now.previous < self.now.version }
    {
        self.previous
    }

    /// The version of the record.
    pub fn version(&self) -> Version
        ensures value { result ≡ self.now.version }
        ensures kept { self.now.previous < self.now.version }
    {
        self.version
    }

    /// The version of this proxy's record before, or 0 if it has none.
    pub fn own_previous(&self) -> Version
        ensures { result ≡ self.now.own_previous }
    {
        self.own_previous
    }

    /// The number of the proxy whose batch it is.
    pub fn proxy(&self) -> ProxyNumber
        ensures { result ≡ self.now.proxy }
    {
        self.proxy
    }

    /// All moves so far, in the order in which they were made.
    pub fn moves(&self) -> &Moves
        ensures { result.now ≡ self.now.moves }
    {
        &self.moves
    }

    /// The transactions in the order of their numbers, from 0, with their stamps in.
    pub fn batch(&self) -> &[Stamped]
        ensures { result.now ≡ self.now.batch }
    {
        self.batch.as_slice()
    }

    /// Takes the transactions out of the record, which has none afterwards. If a copy of the record
    /// shares them, which contracts do not see, both keep them, and copies are returned. The record is
    /// otherwise unchanged. Fails only with `OutOfMemory`; the record is then unchanged.
    pub fn take_batch(&mut self, alloc: Global) -> Result<Items<Stamped>, OutOfMemory>
        ensures ok { IfOk result (λ batch. batch ≡ self.old.batch) }
        ensures left { (self.new.batch ≡ []) ⊎ (self.new.batch ≡ self.old.batch) }
        ensures others { record self.new { batch = self.old.batch } ≡ self.old }
        ensures err { OnErr result (self.new ≡ self.old) }
    {
        match Arc::get_mut(&mut self.batch) {
            Some(batch) => Ok(std::mem::replace(batch, Items::from(Vec::new(alloc)))),
            None => Ok((*self.batch).clone()?),
        }
    }

    /// Returns a copy, which shares the moves and the transactions. Fails only with `OutOfMemory`.
    pub fn copy(&self) -> Result<Record, OutOfMemory>
        ensures { IfOk result (λ copy. copy ≡ self.now) }
    {
        Ok(self.clone()?)
    }
}

/// The transactions of the batch of `version`, numbered from 0, with their stamps in.
fn stamped_batch(
    alloc: Global,
    version: Version,
    transactions: &[Admitted],
) -> Result<Vec<Stamped>, OutOfMemory>
    ensures { IfOk result (λ stamped. stamped.items ≡ stamped_from version 0 transactions.now) }
{
    let mut stamped = Vec::with_capacity(alloc, transactions.len())?;
    for (number, transaction) in transactions.iter().enumerate() {
        stamped.push(transaction.stamped(alloc, version, number)?)?;
    }
    Ok(stamped)
}

/// The transactions of the caller's batch of `version`, numbered from 0, with their stamps in.
fn into_stamped_batch(
    alloc: Global,
    version: Version,
    transactions: Items<Admitted>,
) -> Result<Vec<Stamped>, OutOfMemory>
    ensures { IfOk result (λ stamped. stamped.items ≡ stamped_from version 0 transactions) }
{
    let given = Vec::from(transactions);
    let mut stamped = Vec::with_capacity(alloc, given.len())?;
    for transaction in given {
        let number = stamped.len();
        stamped.push(transaction.into_stamped(alloc, version, number)?)?;
    }
    Ok(stamped)
}
