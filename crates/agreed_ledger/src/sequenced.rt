//! What the sequencer keeps: the records that it gave out, and the moves.

ghost use Rattle.std.specs.Prelude.{◌≡◌, ◌+◌, ◌≤◌, ◌<◌, [], IfOk, IfErr, OnOk, OnErr, None};
ghost use Rattle.model.specs.Records.{MovesFollow, last_version};
ghost use Rattle.model.specs.World.{record_after};
ghost use Rattle.agreed_ledger.specs.Refusals.{refusal_fault};
ghost use Rattle.agreed_ledger.specs.Sequencing.{
  HasMoved,
  HasSequenced,
  move_fault,
  sequence_fault,
};
ghost use Rattle.agreed_ledger.specs.declared.refusal.Refusal.TheVariants as refusals;

use crate::ledger::Ledger;
use crate::naming::Naming;
use crate::records::Records;
use crate::refusal::Refusal;
use crate::ticket::Ticket;
use model::{Move, ProxyNumber, ResolverNumber, VERSION_LIMIT, Version};
use mutation::Batch;
use request_builder::{Moves, Record};
use std::alloc::Global;
use std::marker::Model;
use system_keys::{KeyRange, OutOfMemory};

/// What the sequencer's lock keeps: the records given out, which are a history; the version of the
/// last one and of each proxy's last one; and all moves.
#[derive(Drop)]
pub struct Sequenced<N: Naming> {
    records: Records<N>,
    version: Version,
    own_versions: Vec<u64>,
    moves: Moves,
}

impl<N: Naming> Model for Sequenced<N> {
    ghost use Rattle.std.specs.Prelude.{◌≡◌};
    ghost use Rattle.model.specs.Records.{MovesFollow};
    ghost use Rattle.agreed_ledger.specs.Sequencing.{KeepsVersions, SequencedView};

    ghost Value = { SequencedView };

    ghost view = { λ s. record { records = s.records.known; moves = s.moves } };

    ghost invariant = { λ s. (s.records.first ≡ 0)
        × MovesFollow N.cells.config s.records.known s.moves
        × KeepsVersions N.cells.config s.records.known s.version s.own_versions.items };
}

impl<N: Naming> Sequenced<N> {
    /// Starts without records or moves. Fails only with `OutOfMemory`.
    pub fn new(alloc: Global, ledger: &Ledger<N>) -> Result<Sequenced<N>, OutOfMemory>
        ensures { IfOk result (λ s. s ≡ record { records = []; moves = [] }) }
    {
        Ok(Sequenced {
            records: Records::new(alloc),
            version: 0,
            own_versions: Vec::from_elem(alloc, 0, ledger.config().proxies())?,
            moves: Moves::new(alloc),
        })
    }

    /// The records given out so far, from row 0. They are a history, and the moves follow them.
    pub fn records(&self) -> &Records<N>
        ensures value { result.now ≡ record { first = 0; known = self.now.records } }
        ensures kept { MovesFollow N.cells.config self.now.records self.now.moves }
    {
        &self.records
    }

    /// Gives the batch of the proxy the next row and version, sets the row's record cell, and
    /// returns what the proxy then knows.
    ///
    /// Fails with `NoSuchProxy`, with `LedgerFull` if each row has a record, with `VersionsEnd` if
    /// the next version would not be below 2^63, in this order, and otherwise only with
    /// `OutOfMemory` or `CellTaken`. Then it returns the batch, and nothing has changed.
    pub fn sequence(
        &mut self,
        ledger: &Ledger<N>,
        proxy: ProxyNumber,
        batch: Batch,
    ) -> Result<Ticket<N>, (Refusal, Batch)>
        ensures ok { OnOk result (sequence_fault N.cells self.old proxy ≡ None) }
        ensures sequenced { IfOk result (λ ticket.
            HasSequenced N.cells.config self.old proxy batch self.new ticket) }
        ensures refused { IfErr result (λ refused.
            refusal_fault refused.0 ≡ sequence_fault N.cells self.old proxy) }
        ensures back { IfErr result (λ refused. (self.new ≡ self.old) × (refused.1 ≡ batch)) }
    {
        if ledger.config().proxies() <= proxy {
            return Err((Refusal::NoSuchProxy, batch));
        }
        if ledger.rows() <= self.records.end() {
            return Err((
                Refusal::LedgerFull {
                    rows: ledger.rows(),
                },
                batch,
            ));
        }
        let step = ledger.config().step();
        if VERSION_LIMIT - step <= self.version {
            return Err((Refusal::VersionsEnd, batch));
        }
        let version = self.version + step;
        let Ok(rec) = self.next_record(version, proxy, &batch) else {
            return Err((Refusal::OutOfMemory, batch));
        };
        let records = match self.records.set(ledger, rec) {
            Ok(records) => records,
            Err((why, _rec)) => return Err((Refusal::of(&why), batch)),
        };
        self.version = version;
        self.own_versions[proxy] = version;
        Ok(Ticket::of(records))
    }

    /// The next record, at this version, for a batch of this proxy.
    fn next_record(
        &self,
        version: Version,
        proxy: ProxyNumber,
        batch: &Batch,
    ) -> Result<Record, OutOfMemory>
        requires proxy { proxy < N.cells.config.proxies }
        requires version { version ≡ last_version self.now.records + N.cells.config.step }
        ensures { IfOk result (λ rec. rec
            ≡ record_after N.cells.config self.now.records self.now.moves proxy batch.now) }
    {
        let alloc: Global = *self.own_versions.allocator();
        Record::new(
            alloc,
            self.records.end(),
            self.version,
            version,
            self.own_versions[proxy],
            proxy,
            &self.moves,
            batch,
        )
    }

    /// Moves the keys of the range to the resolver, from the version after the last one on, and
    /// returns that date.
    ///
    /// Fails with `NoSuchResolver`, and otherwise only with `OutOfMemory`. Then nothing has
    /// changed.
    pub fn move_range(
        &mut self,
        ledger: &Ledger<N>,
        range: &KeyRange,
        dest: ResolverNumber,
    ) -> Result<u64, Refusal>
        ensures ok { OnOk result (move_fault N.cells.config dest ≡ None) }
        ensures moved { IfOk result (λ date. HasMoved self.old range.now dest self.new date) }
        ensures refused { IfErr result (λ refusal.
            (N.cells.config.resolvers ≤ dest → refusal ≡ refusals.NoSuchResolver)
            × (dest < N.cells.config.resolvers → refusal ≡ refusals.OutOfMemory)) }
        ensures unchanged { OnErr result (self.new ≡ self.old) }
    {
        if ledger.config().resolvers() <= dest {
            return Err(Refusal::NoSuchResolver);
        }
        let date = self.version + 1;
        let range = range.copy()?;
        self.moves.push(Move { range, date, dest })?;
        Ok(date)
    }
}
