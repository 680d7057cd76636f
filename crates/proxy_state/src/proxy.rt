//! A commit proxy: the records that it begins and finishes, its journal, and its metadata.
//!
//! Release 7.1, `CommitProxyServer.actor.cpp`, commitBatch; what differs is marked *profile*.

ghost use Rattle.std.specs.Prelude.{◌≡◌, ◌≤◌, ◌<◌, [], map, None, Some, IfOk, IfErr, OnOk, OnErr};
ghost use Rattle.std.specs.Prelude.{IfSome, IsOk, MatchResult, MatchOption, false};
ghost use Rattle.model.specs.Metadata.{metadata as metadata_of};
ghost use Rattle.model.specs.OwnerMaps.{DatesInOrder};
ghost use Rattle.model.specs.Shares.{asked};
ghost use Rattle.model.specs.Finishing.{HoldsMoves, MayBegin, HasBegun, HasFinished};
ghost use Rattle.proxy_state.specs.declared.refusal.Refusal.TheVariants as refusals;
ghost use Rattle.proxy_state.specs.Beginning.{refusal_fault, begin_fault, requests_for, rows_up_to};
ghost use Rattle.proxy_state.specs.Beginning.{HasMapFor, AsksFor, IsFirst, has_row_up_to};
ghost use Rattle.proxy_state.specs.Finishing.{finish_fault, IsReplied, IsLearned};

use crate::begun_record::BegunRecord;
use crate::disagreements::{first_disagreement, first_unreplied};
use crate::finishing::finish_batch;
use crate::learned::Learned;
use crate::moving::keep_map;
use crate::owned_moves::OwnedMoves;
use crate::proxy_owners::ProxyOwners;
use crate::refusal::Refusal;
use crate::replies::Replies;
use dated_owners::OwnerMap;
use metadata::Metadata;
use model::{Config, Finished, JournalRow, ProxyNumber, Reply, Version};
use request_builder::{Record, Requests, build};
use std::alloc::Global;
use std::collections::VecDeque;
use std::marker::Model;
use system_keys::OutOfMemory;

/// A commit proxy over time: it begins records, in the order of their versions, and finishes them in
/// the same order. Its metadata is always the fold of its journal.
#[derive(Drop)]
pub struct Proxy {
    number: ProxyNumber,
    config: Config,
    owners: ProxyOwners,
    moved: usize,
    last_begun: Version,
    begun: VecDeque<BegunRecord>,
    version: Version,
    journal: Vec<JournalRow>,
    metadata: Metadata,
}

impl Model for Proxy {
    ghost use Rattle.std.specs.Prelude.{map};
    ghost use Rattle.model.specs.Finishing.{ProxyView};
    ghost use Rattle.proxy_state.specs.Begun.{IsKept, record_of};

    ghost Value = { ProxyView };

    ghost view = { λ p. record {
      number = p.number;
      config = p.config;
      owned = p.owners;
      moved = p.moved;
      last_begun = p.last_begun;
      begun = map record_of p.begun.items;
      version = p.version;
      journal = p.journal.items;
    } };

    ghost invariant = { λ p.
        IsKept p.config p.owners p.version p.last_begun p.begun.items p.journal.items p.metadata };
}

impl Proxy {
    /// Returns proxy `number` of the cluster, before its first record. Fails only with
    /// `OutOfMemory`.
    pub fn new(alloc: Global, number: ProxyNumber, config: &Config) -> Result<Proxy, OutOfMemory>
        ensures number { IfOk result (λ made. made.number ≡ number) }
        ensures config { IfOk result (λ made. made.config ≡ config.now) }
        ensures begun { IfOk result (λ made. (made.last_begun ≡ 0) × (made.begun ≡ [])) }
        ensures finished { IfOk result (λ made. (made.version ≡ 0) × (made.journal ≡ [])) }
        ensures moves { IfOk result (λ made. HoldsMoves made []) }
    {
        Ok(Proxy {
            number,
            config: *config,
            owners: ProxyOwners::new(alloc, config.resolvers())?,
            moved: 0,
            last_begun: 0,
            begun: VecDeque::new(alloc),
            version: 0,
            journal: Vec::new(alloc),
            metadata: Metadata::new(alloc),
        })
    }

    /// The version of the record last finished, or 0.
    pub fn version(&self) -> Version
        ensures { result ≡ self.now.version }
    {
        self.version
    }

    /// The version of the record last begun, or 0.
    pub fn last_begun(&self) -> Version
        ensures { result ≡ self.now.last_begun }
    {
        self.last_begun
    }

    /// The earliest record that is begun and not finished: the one that is finished next. This
    /// proxy's record before it is the one last finished, if there is one.
    pub fn next_to_finish(&self) -> Option<&Record>
        ensures first { MatchOption result
            (self.now.begun ≡ []) (λ rec. IsFirst self.now.begun rec.now) }
        ensures own { IfSome result (λ rec. rec.now.own_previous ≡ self.now.version) }
    {
        match self.begun.front() {
            Some(begun) => Some(&begun.rec),
            None => None,
        }
    }

    /// The journal: the rows that the proxy has learned, and those of its own finished records.
    pub fn journal(&self) -> &[JournalRow]
        ensures { result.now ≡ self.now.journal }
    {
        self.journal.as_slice()
    }

    /// The metadata at the version of the proxy: the fold of its journal.
    pub fn metadata(&self) -> &Metadata
        ensures { result.now ≡ metadata_of self.now.journal }
    {
        &self.metadata
    }

    /// Returns the metadata at a version: the fold of the rows of the journal up to it.
    ///
    /// Fails with `NotReached` and the proxy's version if `version` is above it, and otherwise only
    /// with `OutOfMemory`. Does not allocate if the journal has no row up to the version.
    pub fn metadata_at(&self, version: Version) -> Result<Metadata, Refusal>
        ensures value { IfOk result (λ found.
            (version ≤ self.now.version)
            × (found ≡ metadata_of (rows_up_to version self.now.journal))) }
        ensures refused { IfErr result (λ refusal.
            (self.now.version < version → refusal ≡ refusals.NotReached self.now.version)
            × (version ≤ self.now.version → refusal ≡ refusals.OutOfMemory)) }
        ensures no_allocation { version ≤ self.now.version
            → has_row_up_to version self.now.journal ≡ false → IsOk result }
    {
        if self.version < version {
            return Err(Refusal::NotReached {
                version: self.version,
            });
        }
        let alloc: Global = *self.journal.allocator();
        Ok(fold_up_to(alloc, version, &self.journal)?)
    }

    /// Begins a record of this proxy, and returns the requests for it. Several records may be begun
    /// before one is finished.
    ///
    /// The requests name the version of the proxy as received. Fails with `NotMine` if the record is
    /// of another proxy, otherwise with `OutOfOrder` and the version last begun if the record's
    /// `own_previous` is another one, and otherwise only with `OutOfMemory`. Each failure leaves the
    /// proxy unchanged.
    pub fn begin(&mut self, rec: &Record) -> Result<Requests, Refusal>
        requires { MayBegin self.old rec.now }
        ensures ok { OnOk result (begin_fault self.old rec.now ≡ None) }
        ensures refused { let fault = begin_fault self.old rec.now in
            IfErr result (λ refusal. refusal_fault refusal ≡ fault) }
        ensures requests { IfOk result (λ built. built.requests ≡ requests_for self.old rec.now) }
        ensures asked { IfOk result (λ built.
            built.asked ≡ map (asked self.old.config rec.now) rec.now.batch) }
        ensures begun { OnOk result (HasBegun self.old self.new rec.now) }
        ensures err { OnErr result (self.new ≡ self.old) }
    {
        self.begin_by_map(rec, None)
    }

    /// Begins a record of this proxy as [`Proxy::begin`] does, by the map of owners that these moves
    /// give, which proxies share. They must be the moves of the record.
    #[tactic(auto, using(crate::proofs::KeptProxies::shared_asks))]
    pub fn begin_with(&mut self, rec: &Record, owned: &OwnedMoves) -> Result<Requests, Refusal>
        requires may { MayBegin self.old rec.now }
        requires moves { owned.now ≡ rec.now.moves }
        ensures ok { OnOk result (begin_fault self.old rec.now ≡ None) }
        ensures refused { let fault = begin_fault self.old rec.now in
            IfErr result (λ refusal. refusal_fault refusal ≡ fault) }
        ensures requests { IfOk result (λ built. built.requests ≡ requests_for self.old rec.now) }
        ensures asked { IfOk result (λ built.
            built.asked ≡ map (asked self.old.config rec.now) rec.now.batch) }
        ensures begun { OnOk result (HasBegun self.old self.new rec.now) }
        ensures err { OnErr result (self.new ≡ self.old) }
    {
        let oldest = rec.previous().saturating_sub(self.config.window());
        let resolvers = self.config.resolvers();
        self.begin_by_map(rec, owned.map_back_to(resolvers, oldest))
    }

    /// Begins a record of this proxy by the map that proxies share, if there is one.
    fn begin_by_map(&mut self, rec: &Record, shared: Option<&OwnerMap>) -> Result<Requests, Refusal>
        requires may { MayBegin self.old rec.now }
        requires shared { IfSome shared (λ map. AsksFor self.old.config rec.now map.now) }
        ensures ok { OnOk result (begin_fault self.old rec.now ≡ None) }
        ensures refused { let fault = begin_fault self.old rec.now in
            IfErr result (λ refusal. refusal_fault refusal ≡ fault) }
        ensures requests { IfOk result (λ built. built.requests ≡ requests_for self.old rec.now) }
        ensures asked { IfOk result (λ built.
            built.asked ≡ map (asked self.old.config rec.now) rec.now.batch) }
        ensures begun { OnOk result (HasBegun self.old self.new rec.now) }
        ensures err { OnErr result (self.new ≡ self.old) }
    {
        if rec.proxy() != self.number {
            return Err(Refusal::NotMine);
        }
        if rec.own_previous() != self.last_begun {
            return Err(Refusal::OutOfOrder {
                expected: self.last_begun,
            });
        }
        let (requests, map) = self.requests_and_map(rec, shared)?;
        let begun = BegunRecord::of_requests(rec, &requests)?;
        let moves = rec.moves().copy()?;
        let Ok(()) = self.begun.reserve(1) else {
            return Err(Refusal::OutOfMemory);
        };
        self.begun.push_back_reserved(begun);
        keep_map(&mut self.owners, &self.config, rec, map, moves);
        self.moved = rec.moves().len();
        self.last_begun = rec.version();
        Ok(requests)
    }

    /// Returns the requests for the record, made by the shared map if there is one. Otherwise
    /// makes the record's moves in the proxy's own map, and returns that map too.
    #[tactic(auto, using(crate::proofs::KeptProxies::in_order_for, crate::proofs::KeptProxies::in_order_own))]
    fn requests_and_map(
        &mut self,
        rec: &Record,
        shared: Option<&OwnerMap>,
    ) -> Result<(Requests, Option<OwnerMap>), OutOfMemory>
        requires may { MayBegin self.old rec.now }
        requires own { begin_fault self.old rec.now ≡ None }
        requires shared { IfSome shared (λ map. AsksFor self.old.config rec.now map.now) }
        ensures requests { IfOk result (λ asked. asked.0.requests ≡ requests_for self.old rec.now) }
        ensures asked { IfOk result (λ made.
            made.0.asked ≡ map (asked self.old.config rec.now) rec.now.batch) }
        ensures map { IfOk result (λ asked. IfSome asked.1 (HasMapFor self.old.config rec.now)) }
        ensures order { OnOk result (DatesInOrder 0 rec.now.moves) }
        ensures same { self.new ≡ self.old }
    {
        match shared {
            Some(map) => Ok((self.requests_by_map(map, rec)?, None)),
            None => {
                let map = self.map_with_moves(rec)?;
                Ok((self.requests_by_map(&map, rec)?, Some(map)))
            }
        }
    }

    /// The proxy's map of owners with the moves of the record.
    #[tactic(auto, using(crate::proofs::KeptProxies::may_gain, crate::proofs::KeptProxies::has_map))]
    fn map_with_moves(&mut self, rec: &Record) -> Result<OwnerMap, OutOfMemory>
        requires may { MayBegin self.old rec.now }
        requires own { begin_fault self.old rec.now ≡ None }
        ensures map { IfOk result (HasMapFor self.old.config rec.now) }
        ensures same { self.new ≡ self.old }
    {
        let alloc: Global = *self.journal.allocator();
        self.owners.next_map(alloc, rec.moves(), self.moved)
    }

    /// The requests for the record by this map of owners.
    #[tactic(auto, using(crate::proofs::KeptProxies::greatest))]
    fn requests_by_map(&self, owners: &OwnerMap, rec: &Record) -> Result<Requests, OutOfMemory>
        requires { AsksFor self.now.config rec.now owners.now }
        ensures requests { IfOk result (λ built. built.requests ≡ requests_for self.now rec.now) }
        ensures asked { IfOk result (λ built.
            built.asked ≡ map (asked self.now.config rec.now) rec.now.batch) }
    {
        let alloc: Global = *self.journal.allocator();
        let oldest = rec.previous().saturating_sub(self.config.window());
        build(alloc, rec, owners, oldest, self.version)
    }

    /// Finishes the earliest record that is begun and not finished, by the replies to it. The journal
    /// grows by the rows that the replies tell and by the record's own row, the metadata follows it,
    /// and the version is the record's. Returns the outcome of each transaction of the batch,
    /// and each mutation of the committed ones with its tags and its private copy, by the metadata
    /// after the whole batch.
    ///
    /// Fails with `OutOfTurn` if no record is begun, otherwise with `MissingReply` and the least
    /// resolver that has not replied, otherwise with `RepliesDisagree` and the first version at which
    /// the replies disagree, and otherwise only with `OutOfMemory`. Each failure leaves the proxy
    /// unchanged, and the replies come back.
    pub fn finish(&mut self, replies: Replies) -> Result<Finished, (Refusal, Replies)>
        ensures ok { OnOk result (finish_fault self.old replies ≡ None) }
        ensures finished { IfOk result (λ finished.
            HasFinished self.old self.new replies finished) }
        ensures refused { let fault = finish_fault self.old replies in
            IfErr result (λ refused. refusal_fault refused.0 ≡ fault) }
        ensures back { IfErr result (λ refused. refused.1 ≡ replies) }
        ensures err { OnErr result (self.new ≡ self.old) }
    {
        match self.finish_by_replies(replies.places()) {
            Ok(finished) => Ok(finished),
            Err(refusal) => Err((refusal, replies)),
        }
    }

    #[tactic(auto, using(crate::proofs::FinishedProxies::set_back))]
    fn finish_by_replies(&mut self, replies: &[Option<Reply>]) -> Result<Finished, Refusal>
        ensures ok { OnOk result (finish_fault self.old replies.now ≡ None) }
        ensures finished { IfOk result (λ finished.
            HasFinished self.old self.new replies.now finished) }
        ensures refused { let fault = finish_fault self.old replies.now in
            IfErr result (λ refusal. refusal_fault refusal ≡ fault) }
        ensures err { OnErr result (self.new ≡ self.old) }
    {
        let alloc: Global = *self.journal.allocator();
        let mut learned = self.learn_from_replies(replies)?;
        let Ok(()) = self.journal.reserve(learned.told.len() + 1) else {
            return Err(Refusal::OutOfMemory);
        };
        let begun = &mut self.begun[0];
        let version = begun.rec.version();
        let finished = finish_batch(alloc, &mut self.metadata, &self.config, begun, &learned)?;
        self.begun.pop_front();
        self.version = version;
        let _ = self.journal.append(&mut learned.told);
        self.journal.push_reserved(learned.own);
        Ok(finished)
    }

    /// What the proxy learns from the replies to its earliest record, if it may finish it by them.
    fn learn_from_replies(&self, replies: &[Option<Reply>]) -> Result<Learned, Refusal>
        ensures fault { let fault = finish_fault self.now replies.now in
            MatchResult result (λ learned. fault ≡ None) (λ refusal. fault ≡ refusal_fault refusal) }
        ensures learned { IfOk result (λ learned. IsLearned self.now replies.now learned) }
    {
        let begun = self.next_begun(replies)?;
        let alloc: Global = *self.journal.allocator();
        Ok(Learned::of_replies(alloc, &self.config, begun, replies)?)
    }

    /// The earliest record that is begun and not finished, if the proxy may finish it by these
    /// replies, and otherwise the fault that `finish` returns. Does not allocate, so it never fails
    /// with `OutOfMemory`.
    fn next_begun(&self, replies: &[Option<Reply>]) -> Result<&BegunRecord, Refusal>
        ensures fault { let fault = finish_fault self.now replies.now in
            MatchResult result (λ begun. fault ≡ None) (λ refusal. fault ≡ Some refusal) }
        ensures replied { IfOk result (λ begun. IsReplied self.now replies.now begun.now) }
    {
        let Some(begun) = self.begun.front() else {
            return Err(Refusal::OutOfTurn { expected: None });
        };
        if let Some(resolver) = first_unreplied(self.config.resolvers(), replies) {
            return Err(Refusal::MissingReply { resolver });
        }
        match first_disagreement(&self.config, begun, self.version, replies) {
            Some(version) => Err(Refusal::RepliesDisagree { version }),
            None => Ok(begun),
        }
    }

    /// Returns an equal copy. Fails only with `OutOfMemory`.
    pub fn copy(&self) -> Result<Proxy, OutOfMemory>
        ensures { IfOk result (λ copy. copy ≡ self.now) }
    {
        Ok(Proxy {
            number: self.number,
            config: self.config,
            owners: self.owners.copy()?,
            moved: self.moved,
            last_begun: self.last_begun,
            begun: self.begun.clone()?,
            version: self.version,
            journal: copy_journal(&self.journal)?,
            metadata: self.metadata.copy()?,
        })
    }
}

/// Copies of the rows.
fn copy_journal(rows: &Vec<JournalRow>) -> Result<Vec<JournalRow>, OutOfMemory>
    ensures { IfOk result (λ copied. copied.items ≡ rows.now.items) }
{
    let mut copied = Vec::with_capacity(*rows.allocator(), rows.len())?;
    for row in rows {
        copied.push(row.copy()?)?;
    }
    Ok(copied)
}

/// The fold of the rows up to a version. Does not allocate if there is none.
#[tactic(auto, unfolding(model::specs::Metadata::metadata))]
fn fold_up_to(
    alloc: Global,
    version: Version,
    journal: &[JournalRow],
) -> Result<Metadata, OutOfMemory>
    ensures value { IfOk result (λ found. found ≡ metadata_of (rows_up_to version journal.now)) }
    ensures no_allocation { has_row_up_to version journal.now ≡ false → IsOk result }
{
    let mut metadata = Metadata::new(alloc);
    for row in journal {
        if row.version <= version {
            metadata.apply_row(row)?;
        }
    }
    Ok(metadata)
}
