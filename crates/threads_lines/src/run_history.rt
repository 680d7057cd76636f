//! The history that a run knows: the records up to its answers, and those that the locks of its cluster
//! show.

ghost use Rattle.std.specs.Prelude.{◌≡◌, ◌+◌, ◌<◌, ◌≤◌, length, IfErr, OnOk};
ghost use Rattle.facts.specs.Stretches.{rows_limit};
ghost use Rattle.model.specs.Configs.{version_limit};
ghost use Rattle.model.specs.Records.{IsHistory, last_version, records_of_proxy};
ghost use Rattle.threads_lines.specs.Answers.{AreVersionsEnded, IsEndAfter, IsFull, SeesEnd};
ghost use Rattle.threads_lines.specs.Faults.{FailsCheckOf};
ghost use Rattle.threads_lines.specs.Histories.{AreOfProxies, AreOfResolvers, IsStartOf};
ghost use Rattle.threads_lines.specs.Histories.{Joins, SeesFinished, nothing_known};

use crate::faults::RunFault;
use agreed_ledger::{Ledger, Naming, Records, Refusal, SequencerGuard};
use locked_cluster::{NotedFinished, ProxyGuard, ResolverGuard};
use model::{ProxyNumber, VERSION_LIMIT, Version};
use request_builder::Record;
use std::alloc::Global;
use std::marker::Model;
use system_keys::OutOfMemory;

/// Records of a ledger from row 0 on, by this type a history, and how many batches were seen finished.
/// What it learns is a start of it from then on.
#[derive(Drop)]
pub struct RunHistory<N: Naming> {
    records: Records<N>,
    finished: usize,
}

impl<N: Naming> Model for RunHistory<N> {
    ghost use Rattle.std.specs.Prelude.{◌≡◌};
    ghost use Rattle.model.specs.Records.{IsHistory};
    ghost use Rattle.threads_lines.specs.Histories.{Known};

    ghost Value = { Known };

    ghost view = { λ h. record { records = h.records.known; finished = h.finished } };

    ghost invariant = { λ h. (h.records.first ≡ 0) × IsHistory N.cells.config h.records.known };
}

impl<N: Naming> RunHistory<N> {
    /// No record. It needs no memory.
    pub fn new(alloc: Global) -> RunHistory<N>
        ensures { result ≡ nothing_known }
    {
        RunHistory {
            records: Records::new(alloc),
            finished: 0,
        }
    }

    /// The records, which are a history.
    pub fn records(&self) -> &Records<N>
        ensures value { result.now ≡ record { first = 0; known = self.now.records } }
        ensures kept { IsHistory N.cells.config self.now.records }
    {
        &self.records
    }

    /// How many batches were seen finished, closings among them.
    pub fn finished_count(&self) -> usize
        ensures { result ≡ self.now.finished }
    {
        self.finished
    }

    /// Learns a history of the same ledger, which from then on is a start of this one. Fails only with
    /// `OutOfMemory`.
    pub fn learn(&mut self, other: &Records<N>) -> Result<(), OutOfMemory>
        requires first { other.now.first ≡ 0 }
        requires history { IsHistory N.cells.config other.now.known }
        ensures kept { IsStartOf self.old.records self.new.records }
        ensures learned { OnOk result (IsStartOf other.now.known self.new.records) }
        ensures counted { self.new.finished ≡ self.old.finished }
    {
        self.records.agree(other);
        self.records.extend_from(other)?;
        Ok(())
    }

    /// Sees a batch finished, and learns the records up to it. Fails with `Refused` if the row of the
    /// batch was known before, and otherwise only with `OutOfMemory`.
    pub(crate) fn see_finished(&mut self, noted: &NotedFinished<N>) -> Result<(), RunFault>
        ensures kept { IsStartOf self.old.records self.new.records }
        ensures seen { OnOk result (SeesFinished noted.now self.old self.new) }
    {
        if noted.value().row < self.records.end() {
            return Err(RunFault::Refused);
        }
        self.learn(noted.records())?;
        self.count(1)?;
        Ok(())
    }

    /// Learns the records that the sequencer has given out, and sees that none can follow them. Fails
    /// with `Refused` unless that is so for the reason that the refusal names, and otherwise only with
    /// `OutOfMemory`.
    pub(crate) fn see_end(
        &mut self,
        ledger: &Ledger<N>,
        sequencer: &SequencerGuard<'_, N>,
        refusal: &Refusal,
    ) -> Result<(), RunFault>
        ensures kept { IsStartOf self.old.records self.new.records }
        ensures seen { OnOk result
            (SeesEnd N.cells.config (length N.cells.records) refusal.now self.old self.new) }
    {
        self.learn(sequencer.records())?;
        self.check_end(ledger, refusal)
    }

    /// Learns the records of another history, and adds its count of finished batches. Fails only
    /// with `OutOfMemory`.
    pub(crate) fn join(&mut self, other: &RunHistory<N>) -> Result<(), OutOfMemory>
        ensures kept { IsStartOf self.old.records self.new.records }
        ensures joined { OnOk result (Joins other.now self.old self.new) }
    {
        self.learn(other.records())?;
        self.count(other.finished)
    }

    /// Learns the records that the locked proxies show. Fails only with `OutOfMemory`.
    pub fn learn_from_proxies(&mut self, proxies: &[ProxyGuard<'_, N>]) -> Result<(), OutOfMemory>
        ensures kept { IsStartOf self.old.records self.new.records }
        ensures learned { OnOk result (AreOfProxies proxies.now self.new.records) }
        ensures counted { self.new.finished ≡ self.old.finished }
    {
        for proxy in proxies {
            self.learn(proxy.records())?;
        }
        Ok(())
    }

    /// Learns the records that the locked resolvers show. Fails only with `OutOfMemory`.
    pub fn learn_from_resolvers(
        &mut self,
        resolvers: &[ResolverGuard<'_, N>],
    ) -> Result<(), OutOfMemory>
        ensures kept { IsStartOf self.old.records self.new.records }
        ensures learned { OnOk result (AreOfResolvers resolvers.now self.new.records) }
        ensures counted { self.new.finished ≡ self.old.finished }
    {
        for resolver in resolvers {
            self.learn(resolver.records())?;
        }
        Ok(())
    }

    /// Adds `more` to the number of batches seen finished. Fails only with `OutOfMemory`.
    fn count(&mut self, more: usize) -> Result<(), OutOfMemory>
        ensures kept { self.new.records ≡ self.old.records }
        ensures counted { OnOk result (self.new.finished ≡ self.old.finished + more) }
    {
        let Some(finished) = self.finished.checked_add(more) else {
            return Err(OutOfMemory);
        };
        self.finished = finished;
        Ok(())
    }

    /// No record can follow those that are known, for the reason that the refusal names. Fails exactly if
    /// one can, or if none can for another reason, with `Refused`.
    fn check_end(&self, ledger: &Ledger<N>, refusal: &Refusal) -> Result<(), RunFault>
        ensures checked { OnOk result (IsEndAfter N.cells.config (length N.cells.records)
            self.now.records refusal.now) }
        ensures err { IfErr result (FailsCheckOf (IsEndAfter N.cells.config
            (length N.cells.records) self.now.records refusal.now)) }
    {
        match refusal {
            Refusal::LedgerFull { rows } => self.check_full(ledger, *rows),
            Refusal::VersionsEnd => self.check_versions_end(ledger),
            _ => Err(RunFault::Refused),
        }
    }

    /// The ledger has `rows` rows, and each has a record. Fails exactly if that is not so, with `Refused`.
    fn check_full(&self, ledger: &Ledger<N>, rows: usize) -> Result<(), RunFault>
        ensures checked { OnOk result (IsFull (length N.cells.records) self.now.records rows) }
        ensures err { IfErr result (FailsCheckOf
            (IsFull (length N.cells.records) self.now.records rows)) }
    {
        if rows == ledger.rows() && rows <= self.records.end() {
            Ok(())
        } else {
            Err(RunFault::Refused)
        }
    }

    /// The ledger has a row left, and the next version would not be below the limit. Fails exactly if
    /// that is not so, with `Refused`.
    fn check_versions_end(&self, ledger: &Ledger<N>) -> Result<(), RunFault>
        ensures checked { OnOk result (AreVersionsEnded N.cells.config (length N.cells.records)
            self.now.records) }
        ensures err { IfErr result (FailsCheckOf (AreVersionsEnded N.cells.config
            (length N.cells.records) self.now.records)) }
    {
        let last = self.last_version(ledger);
        if self.records.end() < ledger.rows() && greatest_previous(ledger) < last {
            Ok(())
        } else {
            Err(RunFault::Refused)
        }
    }

    /// The version of the last record, or 0 if there is none.
    fn last_version(&self, ledger: &Ledger<N>) -> Version
        ensures { result ≡ last_version self.now.records }
    {
        let Some(last) = self.records.end().checked_sub(1) else {
            return 0;
        };
        match self.records.get(ledger, last) {
            Some(rec) => rec.version(),
            None => 0,
        }
    }
}

/// The greatest version that another one can follow.
fn greatest_previous<N: Naming>(ledger: &Ledger<N>) -> Version
    ensures { result + N.cells.config.step + 1 ≡ version_limit }
{
    let step = ledger.config().step();
    VERSION_LIMIT - 1 - step
}

/// How many records of the history are of the proxy.
pub fn count_records_of<N: Naming>(
    history: &RunHistory<N>,
    ledger: &Ledger<N>,
    proxy: ProxyNumber,
) -> usize
    ensures value { result ≡ length (records_of_proxy proxy history.now.records) }
    ensures limit { result ≤ rows_limit }
{
    let records = history.records();
    let mut count = 0;
    for row in 0..records.end() {
        let Some(rec) = records.get(ledger, row) else {
            unreachable!();
        };
        count += count_if_own(rec, proxy);
    }
    count
}

/// 1 if the record is one of the proxy, and otherwise 0.
fn count_if_own(rec: &Record, proxy: ProxyNumber) -> usize
    ensures own { rec.now.proxy ≡ proxy → result ≡ 1 }
    ensures other { (rec.now.proxy ≡ proxy → ⊥) → result ≡ 0 }
    ensures limit { result ≤ 1 }
{
    if rec.proxy() == proxy { 1 } else { 0 }
}
