//! A proxy as it is while its lock is held: it begins, finishes, shows routings, meets and
//! confirms.

ghost use Rattle.std.specs.Prelude.{◌≡◌, ◌<◌, ◌≤◌, slice_get, Some, IfOk, IfErr, MatchBool, OnErr};
ghost use Rattle.model.specs.Metadata.{metadata as metadata_of};
ghost use Rattle.agreed_ledger.specs.Sequencing.{IsTicket};
ghost use Rattle.proxy_state.specs.Beginning.{rows_up_to};
ghost use Rattle.locked_cluster.specs.Answers.{IsNotedRouting};
ghost use Rattle.locked_cluster.specs.Audits.{IsConfirmed};
ghost use Rattle.locked_cluster.specs.Meetings.{Met};
ghost use Rattle.locked_cluster.specs.Proxies.{BeginsTicket, FinishesReady, ShowsRouting};
ghost use Rattle.locked_cluster.specs.Proxies.{IsBeginRefusal, IsBeginRefusalOf, IsFinishRefusal};
ghost use Rattle.locked_cluster.specs.Proxies.{IsLockedProxy, IsNewLockedProxy, IsRoutingRefusal};
ghost use Rattle.locked_cluster.specs.Proxies.{awaits_row_before};
ghost use Rattle.locked_resolvers.specs.declared.refusal.Refusal.TheVariants as refusals;

use crate::proxies::begun::{BeginRoom, Begun, requests_with_records, room_to_begin};
use crate::proxies::columns::Columns;
use crate::proxies::meeting::Meeting;
use crate::proxies::noted_finished::NotedFinished;
use crate::proxies::noted_routing::NotedRouting;
use crate::proxies::ready::Ready;
use agreed_ledger::{Ledger, Naming, Records, Ticket};
use locked_resolvers::Refusal;
use model::{Config, JournalRow, ProxyNumber, Routing, RowNumber, Version};
use proxy_state::{Metadata, Proxy};
use request_builder::{Record, Requests};
use std::alloc::Global;
use std::marker::Model;
use system_keys::OutOfMemory;

/// A proxy as it stands under its lock: what it begins and finishes, the records up to the one that
/// it began last, and the verdict cells that it has learned of.
///
/// By its type the proxy is agreed with the ledger up to the row of its version: its journal is that
/// of these rows by their verdict cells, its metadata is the fold of the journal, and each of the
/// cells holds the verdicts of the definition. The records that it began stand among its records.
#[derive(Drop)]
pub struct LockedProxy<N: Naming> {
    number: ProxyNumber,
    proxy: Proxy,
    records: Records<N>,
    columns: Columns<N>,
}

impl<N: Naming> Model for LockedProxy<N> {
    ghost use Rattle.std.specs.Prelude.{◌≡◌};
    ghost use Rattle.locked_cluster.specs.Proxies.{IsLockedProxy, LockedProxyView};

    ghost Value = { LockedProxyView };

    ghost view = { λ p. record {
      proxy = p.proxy;
      records = p.records.known;
      columns = p.columns;
    } };

    ghost invariant = { λ p. (p.number ≡ p.proxy.number) × (p.records.first ≡ 0)
        × IsLockedProxy N.cells.config (record {
          proxy = p.proxy;
          records = p.records.known;
          columns = p.columns;
        }) };
}

impl<N: Naming> LockedProxy<N> {
    /// Returns the proxy of this number before its first record. Fails with `NoSuchProxy` if the
    /// cluster has no such proxy, and otherwise only with `OutOfMemory`.
    pub fn new(
        alloc: Global,
        ledger: &Ledger<N>,
        number: ProxyNumber,
    ) -> Result<LockedProxy<N>, Refusal>
        ensures made { IfOk result (IsNewLockedProxy N.cells.config number) }
        ensures refused { IfErr result (λ refusal.
            (N.cells.config.proxies ≤ number → refusal ≡ refusals.NoSuchProxy)
            × (number < N.cells.config.proxies → refusal ≡ refusals.OutOfMemory)) }
    {
        let config = ledger.config();
        if config.proxies() <= number {
            return Err(Refusal::NoSuchProxy);
        }
        let columns = Columns::new(alloc, config.resolvers())?;
        let proxy = Proxy::new(alloc, number, config)?;
        Ok(LockedProxy {
            number,
            proxy,
            records: Records::new(alloc),
            columns,
        })
    }

    /// The number of the proxy.
    pub fn number(&self) -> ProxyNumber
        ensures value { result ≡ self.now.proxy.number }
        ensures kept { IsLockedProxy N.cells.config self.now }
    {
        self.number
    }

    /// The version of the record last finished, or 0.
    pub fn version(&self) -> Version
        ensures value { result ≡ self.now.proxy.version }
        ensures kept { IsLockedProxy N.cells.config self.now }
    {
        self.proxy.version()
    }

    /// The journal: the rows that the proxy has learned, and those of its own finished records.
    pub fn journal(&self) -> &[JournalRow]
        ensures value { result.now ≡ self.now.proxy.journal }
        ensures kept { IsLockedProxy N.cells.config self.now }
    {
        self.proxy.journal()
    }

    /// The metadata at the version of the proxy: the fold of its journal.
    pub fn metadata(&self) -> &Metadata
        ensures value { result.now ≡ metadata_of self.now.proxy.journal }
        ensures kept { IsLockedProxy N.cells.config self.now }
    {
        self.proxy.metadata()
    }

    /// The records up to the one begun last.
    pub fn records(&self) -> &Records<N>
        ensures value { result.now ≡ record { first = 0; known = self.now.records } }
        ensures kept { IsLockedProxy N.cells.config self.now }
    {
        &self.records
    }

    /// The verdict cells of each resolver that it has learned of.
    pub fn columns(&self) -> &Columns<N>
        ensures value { result.now ≡ self.now.columns }
        ensures kept { IsLockedProxy N.cells.config self.now }
    {
        &self.columns
    }

    /// Whether the proxy still has to finish a record of an earlier row.
    pub fn awaits_row_before(&self, row: RowNumber) -> bool
        ensures { result ≡ awaits_row_before self.now.proxy.begun row }
    {
        match self.proxy.next_to_finish() {
            Some(rec) => rec.row() < row,
            None => false,
        }
    }

    /// Begins the record of the ticket: returns the requests for it, and puts it last among those
    /// begun. Several records may be begun before one is finished.
    ///
    /// Fails with `NotMine` if the record is of another proxy, otherwise with `OutOfOrder` and the
    /// version last begun if it does not follow the record of that version, and otherwise only with
    /// `OutOfMemory`. Each failure returns the ticket and leaves the proxy unchanged.
    pub fn begin(
        &mut self,
        ledger: &Ledger<N>,
        ticket: Ticket<N>,
    ) -> Result<Begun<N>, (Refusal, Ticket<N>)>
        ensures begun { IfOk result (BeginsTicket N.cells.config self.old ticket self.new) }
        ensures refused { IfErr result (λ refused. IsBeginRefusal self.old ticket refused.0) }
        ensures back { IfErr result (λ refused. refused.1 ≡ ticket) }
        ensures err { OnErr result (self.new ≡ self.old) }
    {
        let row = ticket.row();
        let Some(rec) = ticket.records().get(ledger, row) else {
            unreachable!();
        };
        match self.begin_record(ledger.config(), rec, row, ticket.records()) {
            Ok(begun) => Ok(begun),
            Err(refusal) => Err((refusal, ticket)),
        }
    }

    /// Begins the record of the row, which is the last of the records.
    fn begin_record(
        &mut self,
        config: &Config,
        rec: &Record,
        row: RowNumber,
        records: &Records<N>,
    ) -> Result<Begun<N>, Refusal>
        requires config { config.now ≡ N.cells.config }
        requires first { records.now.first ≡ 0 }
        requires ticket { IsTicket N.cells.config
            (record { row = row; records = records.now.known }) }
        requires there { slice_get records.now.known row ≡ Some rec.now }
        ensures begun { IfOk result (BeginsTicket N.cells.config self.old
            (record { row = row; records = records.now.known }) self.new) }
        ensures refused { IfErr result (IsBeginRefusalOf self.old.proxy rec.now) }
        ensures err { OnErr result (self.new ≡ self.old) }
    {
        if rec.proxy() != self.number {
            return Err(Refusal::NotMine);
        }
        let expected = self.proxy.last_begun();
        if rec.own_previous() != expected {
            return Err(Refusal::OutOfOrder { expected });
        }
        self.records.agree(records);
        let alloc = self.columns.alloc();
        let BeginRoom {
            proxy_records,
            begun_records,
            request_records,
            requests,
        } = room_to_begin(alloc, records, config.resolvers())?;
        let built = match self.proxy.begin(rec) {
            Ok(built) => built,
            Err(refusal) => {
                let proxy_state::Refusal::OutOfMemory = refusal else {
                    unreachable!();
                };
                return Err(Refusal::OutOfMemory);
            }
        };
        let Requests {
            requests: plain,
            asked: _,
        } = built;
        let requests = requests_with_records(records, Vec::from(plain), request_records, requests);
        self.records = proxy_records;
        Ok(Begun::of(row, begun_records, requests))
    }

    /// Finishes the first of the records that are begun and not finished, by the replies to it, and
    /// returns its outcomes and its tagged mutations.
    ///
    /// Fails with `OutOfTurn` if the replies are to another record, or if none is begun; it names the
    /// row of the record that is finished next. Otherwise fails only with `OutOfMemory`. Each failure
    /// returns the replies and leaves the proxy unchanged.
    pub fn finish(&mut self, ready: Ready<N>) -> Result<NotedFinished<N>, (Refusal, Ready<N>)>
        ensures finished { IfOk result (FinishesReady self.old ready self.new) }
        ensures refused { IfErr result (λ refused. IsFinishRefusal self.old ready refused.0) }
        ensures back { IfErr result (λ refused. refused.1 ≡ ready) }
        ensures err { OnErr result (self.new ≡ self.old) }
    {
        let Some(rec) = self.proxy.next_to_finish() else {
            return Err((Refusal::OutOfTurn { expected: None }, ready));
        };
        let row = rec.row();
        if row != ready.row() {
            let expected = Some(row);
            return Err((Refusal::OutOfTurn { expected }, ready));
        }
        let Ok(noted) = ready.columns().copy() else {
            return Err((Refusal::OutOfMemory, ready));
        };
        self.records.agree(ready.records());
        let (replies, records, columns) = ready.into_parts();
        let finished = match self.proxy.finish(replies) {
            Ok(finished) => finished,
            Err((refusal, replies)) => {
                let proxy_state::Refusal::OutOfMemory = refusal else {
                    unreachable!();
                };
                let ready = Ready::of(row, replies, records, columns);
                return Err((Refusal::OutOfMemory, ready));
            }
        };
        self.columns = columns;
        Ok(NotedFinished::of(finished, records, noted))
    }

    /// Returns the routing at the version of the proxy. Fails only with `OutOfMemory`.
    pub fn routing(&self) -> Result<NotedRouting<N>, OutOfMemory>
        ensures { let v = self.now.proxy in
            IfOk result (ShowsRouting self.now v.version v.journal) }
    {
        let routing = self.metadata().routing(self.version())?;
        let noted = self.noted_routing(routing)?;
        Ok(noted)
    }

    /// Returns the routing at a version. Fails with `NotReached` and the proxy's version if `version`
    /// is above it, and otherwise only with `OutOfMemory`.
    pub fn routing_at(&self, version: Version) -> Result<NotedRouting<N>, Refusal>
        ensures shown { IfOk result (ShowsRouting self.now version
            (rows_up_to version self.now.proxy.journal)) }
        ensures refused { IfErr result (IsRoutingRefusal self.now version) }
    {
        let reached = self.proxy.version();
        if reached < version {
            return Err(Refusal::NotReached { version: reached });
        }
        let metadata = match self.proxy.metadata_at(version) {
            Ok(metadata) => metadata,
            Err(refusal) => {
                let proxy_state::Refusal::OutOfMemory = refusal else {
                    unreachable!();
                };
                return Err(Refusal::OutOfMemory);
            }
        };
        let routing = metadata.routing(version)?;
        let noted = self.noted_routing(routing)?;
        Ok(noted)
    }

    /// Compares the proxy with another one of the cluster. At one version both have the same journal,
    /// and so the same metadata; else one journal is a beginning of the other. Does not allocate.
    pub fn meet(&self, other: &LockedProxy<N>) -> Meeting
        ensures { Met result self.now.proxy other.now.proxy }
    {
        let mine = self.records();
        let theirs = other.records();
        mine.agree(theirs);
        let version = self.version();
        let reached = other.version();
        if version < reached {
            Meeting::Behind
        } else if version == reached {
            Meeting::Same
        } else {
            Meeting::Ahead
        }
    }

    /// Whether the proxy has reached the version of an answer, of any proxy of the cluster. The
    /// outcomes, the tags and the private copies of the answer are then those that the proxy's records
    /// and verdict cells give for its row. Needs no memory.
    pub fn confirm(&self, answer: &NotedFinished<N>) -> bool
        ensures { MatchBool result
            (IsConfirmed N.cells.config self.now answer.now)
            (self.now.proxy.version < answer.now.finished.version) }
    {
        let mine = self.records();
        let known = answer.records();
        mine.agree(known);
        let reached = self.version();
        let finished = answer.value();
        finished.version <= reached
    }

    /// The routing with copies of the records and the columns. Fails only with `OutOfMemory`.
    fn noted_routing(&self, routing: Routing) -> Result<NotedRouting<N>, OutOfMemory>
        requires { IsNotedRouting N.cells.config (record {
          routing = routing;
          records = self.now.records;
          columns = self.now.columns;
        }) }
        ensures { IfOk result (λ noted. noted ≡ record {
          routing = routing;
          records = self.now.records;
          columns = self.now.columns;
        }) }
    {
        let records = self.records.copy()?;
        let columns = self.columns.copy()?;
        Ok(NotedRouting::of(routing, records, columns))
    }
}
