//! The proxy that threads share, with whole commits, and its guard, which begins and finishes
//! records.

ghost use Rattle.std.specs.Prelude.{◌≡◌, ◌<◌, ◌≤◌, IfOk, IfErr, MatchBool, MatchResult, OnErr};
ghost use Rattle.std.specs.Prelude.{Option};
ghost use Rattle.model.specs.Numbers.{ProxyNumber};
ghost use Rattle.model.specs.Metadata.{metadata as metadata_of};
ghost use Rattle.proxy_state.specs.Beginning.{rows_up_to};
ghost use Rattle.locked_cluster.specs.Audits.{IsConfirmed};
ghost use Rattle.locked_resolvers.specs.Asking.{IsAskAllRefusal};
ghost use Rattle.locked_cluster.specs.Commits.{HandsBack, HoldsBatch, IsCommitted};
ghost use Rattle.locked_cluster.specs.Commits.{TakesProxy, TakesRecord, WasFinishRefused};
ghost use Rattle.locked_cluster.specs.Commits.{WasSequenceRefused};
ghost use Rattle.locked_cluster.specs.Meetings.{Met};
ghost use Rattle.locked_cluster.specs.Proxies.{BeginsTicket, FinishesReady, ShowsRouting};
ghost use Rattle.locked_cluster.specs.Proxies.{IsBeginRefusal, IsFinishRefusal};
ghost use Rattle.locked_cluster.specs.Proxies.{IsLockedProxy, IsRoutingRefusal, ShowsFinished};
ghost use Rattle.locked_resolvers.specs.declared.refusal.Refusal.TheVariants as refusals;

use crate::commits::collected_replies::{CollectedReplies, collect_replies};
use crate::commits::commit_fault::CommitFault;
use crate::proxies::{Begun, Columns, LockedProxy, Meeting, NotedFinished, NotedRouting, Ready};
use agreed_ledger::{Ledger, Naming, Records, Sequencer, Ticket};
use locked_resolvers::{Asking, Refusal};
use model::{JournalRow, ProxyNumber, Version};
use mutation::Batch;
use proxy_state::Metadata;
use std::alloc::Global;
use std::marker::Model;
use std::sync::{Condvar, Mutex, MutexGuard, Wait};
use system_keys::OutOfMemory;

/// A commit proxy that threads share. It finishes its batches in the order of their versions: a
/// commit of a later one waits its turn.
#[derive(Drop)]
pub struct SharedProxy<'l, N: Naming> {
    ledger: &'l Ledger<N>,
    number: ProxyNumber,
    lock: Mutex<LockedProxy<N>>,
    finished: Condvar,
}

impl<'l, N: Naming> Model for SharedProxy<'l, N> {
    ghost use Rattle.model.specs.Numbers.{ProxyNumber};

    ghost Value = { ProxyNumber };

    ghost view = { λ p. p.number };
}

impl<'l, N: Naming> SharedProxy<'l, N> {
    /// The proxy of this number before its first record. Fails with `NoSuchProxy` if the cluster has
    /// no such proxy, and otherwise only with `OutOfMemory`.
    pub fn new(
        alloc: Global,
        ledger: &'l Ledger<N>,
        number: ProxyNumber,
    ) -> Result<SharedProxy<'l, N>, Refusal>
        ensures { MatchResult result
            (λ made. (made ≡ number) × (number < N.cells.config.proxies))
            (λ refusal.
            (N.cells.config.proxies ≤ number → refusal ≡ refusals.NoSuchProxy)
            × (number < N.cells.config.proxies → refusal ≡ refusals.OutOfMemory)) }
    {
        Ok(SharedProxy::of(ledger, LockedProxy::new(alloc, ledger, number)?))
    }

    /// This proxy, with a lock.
    fn of(ledger: &'l Ledger<N>, locked: LockedProxy<N>) -> SharedProxy<'l, N>
        ensures number { result ≡ locked.proxy.number }
        ensures there { locked.proxy.number < N.cells.config.proxies }
    {
        SharedProxy {
            ledger,
            number: locked.number(),
            lock: Mutex::new(locked),
            finished: Condvar::new(),
        }
    }

    /// The number of the proxy under the lock.
    pub fn number(&self) -> ProxyNumber
        ensures { result ≡ self.now }
    {
        self.number
    }

    /// Waits for the lock of the proxy of this number. What is under it is otherwise known by its
    /// type alone: the proxy is agreed with the ledger up to the row of its version, and its metadata
    /// is the fold of the journal so known.
    pub fn lock<R: Wait>(&self, rt: &R) -> ProxyGuard<'_, N>
        ensures kept { IsLockedProxy N.cells.config result }
        ensures number { result.proxy.number ≡ self.now }
    {
        let number = self.number;
        let guard = self.lock.lock(rt);
        // (that the proxy under the lock has this number no type says, so it is looked at; the
        // contract of its number says what the type keeps)
        let guard = self
            .finished
            .wait_while(rt, guard, |locked| locked.number() != number);
        let _number = guard.number();
        ProxyGuard {
            ledger: self.ledger,
            guard,
            finished: &self.finished,
        }
    }

    /// Asks all resolvers for the record that was begun, and collects their replies. Does not take
    /// the lock of the proxy.
    ///
    /// Fails with `NotMine` exactly if `asking` takes the requests of another proxy alone. Each failure
    /// returns the requests. A resolver that has replied then replies the same again.
    pub fn resolve_all<R: Wait, A: Asking<N>>(
        &self,
        rt: &R,
        asking: &A,
        begun: Begun<N>,
    ) -> Result<Ready<N>, (Refusal, Begun<N>)>
        ensures row { IfOk result (λ ready. ready.row ≡ begun.row) }
        ensures records { IfOk result (λ ready. ready.records ≡ begun.records) }
        ensures taken { IfOk result (λ _. TakesRecord (A.takes asking.now) begun) }
        ensures refused { IfErr result (λ refused.
            IsAskAllRefusal N.cells.config (A.takes asking.now) begun.requests refused.0) }
        ensures back { IfErr result (λ refused. refused.1 ≡ begun) }
    {
        let replies = match asking.ask_all(rt, begun.alloc(), begun.requests()) {
            Ok(replies) => replies,
            Err(refusal) => return Err((refusal, begun)),
        };
        let alloc = begun.alloc();
        let config = self.ledger.config();
        let row = begun.row();
        let made = collect_replies(alloc, config, row, begun.records(), replies.as_slice());
        let Ok(CollectedReplies { replies, columns }) = made else {
            return Err((Refusal::OutOfMemory, begun));
        };
        Ok(Ready::of(row, replies, begun.into_records(), columns))
    }

    /// Commits a batch: gives it its record and begins it under the proxy's lock, asks all resolvers
    /// without the lock, waits until no earlier record of the proxy is still to be finished, and
    /// finishes the record. Returns the finished batch, and the proxy, still locked.
    ///
    /// Each failure returns what its phase was given, from which the commit can go on. No call is
    /// promised to stop waiting.
    pub fn commit<R: Wait, A: Asking<N>>(
        &self,
        rt: &R,
        sequencer: &Sequencer<'_, N>,
        asking: &A,
        batch: Batch,
    ) -> Result<(NotedFinished<N>, ProxyGuard<'_, N>), CommitFault<N>>
        ensures { MatchResult result
            (λ made. IsCommitted self.now batch made.0 made.1
            × TakesProxy (A.takes asking.now) self.now)
            (HandsBack N.cells (A.takes asking.now) self.now batch) }
    {
        let begun = self.begin_batch(rt, sequencer, batch)?;
        let ready = match self.resolve_all(rt, asking, begun) {
            Ok(ready) => ready,
            Err((refusal, begun)) => return Err(CommitFault::Resolving { refusal, begun }),
        };
        match self.finish_in_turn(rt, ready) {
            Ok(made) => Ok(made),
            Err((refusal, ready)) => Err(CommitFault::Finishing { refusal, ready }),
        }
    }

    /// Gives the batch its record, and begins it, under the lock.
    fn begin_batch<R: Wait>(
        &self,
        rt: &R,
        sequencer: &Sequencer<'_, N>,
        batch: Batch,
    ) -> Result<Begun<N>, CommitFault<N>>
        ensures { MatchResult result
            (λ begun. HoldsBatch self.now begun.row begun.records batch)
            (λ fault. (whose : Option ProxyNumber)
            → HandsBack N.cells whose self.now batch fault) }
    {
        let mut guard = self.lock(rt);
        let ticket = match sequence_batch(rt, sequencer, self.number, batch) {
            Ok(ticket) => ticket,
            Err((refusal, batch)) => return Err(CommitFault::Sequencing { refusal, batch }),
        };
        match guard.begin(ticket) {
            Ok(begun) => Ok(begun),
            Err((refusal, ticket)) => Err(CommitFault::Beginning { refusal, ticket }),
        }
    }

    /// Waits until no earlier record of the proxy is still to be finished, and finishes this one.
    fn finish_in_turn<R: Wait>(
        &self,
        rt: &R,
        ready: Ready<N>,
    ) -> Result<(NotedFinished<N>, ProxyGuard<'_, N>), (Refusal, Ready<N>)>
        ensures row { IfOk result (λ made. made.0.finished.row ≡ ready.row) }
        ensures records { IfOk result (λ made. made.0.records ≡ ready.records) }
        ensures number { IfOk result (λ made. made.1.proxy.number ≡ self.now) }
        ensures shown { IfOk result (λ made. ShowsFinished made.0 made.1) }
        ensures refused { IfErr result (λ refused.
            WasFinishRefused N.cells.config self.now ready refused.0) }
        ensures back { IfErr result (λ refused. refused.1 ≡ ready) }
    {
        let number = self.number;
        let row = ready.row();
        let guard = self.lock.lock(rt);
        // (as in `lock`, the number is looked at)
        let guard = self.finished.wait_while(rt, guard, |locked| {
            locked.number() != number || locked.awaits_row_before(row)
        });
        // (its contract says what the type keeps)
        let _number = guard.number();
        let mut shown = ProxyGuard {
            ledger: self.ledger,
            guard,
            finished: &self.finished,
        };
        let noted = shown.finish(ready)?;
        Ok((noted, shown))
    }
}

/// Gives the batch of the proxy its record, under the sequencer's lock.
fn sequence_batch<R: Wait, N: Naming>(
    rt: &R,
    sequencer: &Sequencer<'_, N>,
    proxy: ProxyNumber,
    batch: Batch,
) -> Result<Ticket<N>, (agreed_ledger::Refusal, Batch)>
    ensures ticket { IfOk result (λ ticket. HoldsBatch proxy ticket.row ticket.records batch) }
    ensures refused { IfErr result (λ refused. WasSequenceRefused N.cells proxy refused.0) }
    ensures back { IfErr result (λ refused. refused.1 ≡ batch) }
{
    let mut guard = sequencer.lock(rt);
    guard.sequence(proxy, batch)
}

/// A proxy, locked.
#[derive(Drop)]
pub struct ProxyGuard<'a, N: Naming> {
    ledger: &'a Ledger<N>,
    guard: MutexGuard<'a, LockedProxy<N>>,
    finished: &'a Condvar,
}

impl<'a, N: Naming> Model for ProxyGuard<'a, N> {
    ghost use Rattle.locked_cluster.specs.Proxies.{LockedProxyView};

    ghost Value = { LockedProxyView };

    ghost view = { λ g. g.guard.value };
}

impl<'a, N: Naming> ProxyGuard<'a, N> {
    /// Begins the record of the ticket, as [`LockedProxy::begin`] says.
    pub fn begin(&mut self, ticket: Ticket<N>) -> Result<Begun<N>, (Refusal, Ticket<N>)>
        ensures begun { IfOk result (BeginsTicket N.cells.config self.old ticket self.new) }
        ensures refused { IfErr result (λ refused. IsBeginRefusal self.old ticket refused.0) }
        ensures back { IfErr result (λ refused. refused.1 ≡ ticket) }
        ensures err { OnErr result (self.new ≡ self.old) }
    {
        self.guard.begin(self.ledger, ticket)
    }

    /// Finishes the first of the records that are begun and not finished, as
    /// [`LockedProxy::finish`] says. Does not wait.
    pub fn finish(&mut self, ready: Ready<N>) -> Result<NotedFinished<N>, (Refusal, Ready<N>)>
        ensures finished { IfOk result (FinishesReady self.old ready self.new) }
        ensures refused { IfErr result (λ refused. IsFinishRefusal self.old ready refused.0) }
        ensures back { IfErr result (λ refused. refused.1 ≡ ready) }
        ensures err { OnErr result (self.new ≡ self.old) }
    {
        let answer = self.guard.finish(ready);
        self.finished.notify_all();
        answer
    }

    /// Returns the routing at the version of the proxy. Fails only with `OutOfMemory`.
    pub fn routing(&self) -> Result<NotedRouting<N>, OutOfMemory>
        ensures { let v = self.now.proxy in
            IfOk result (ShowsRouting self.now v.version v.journal) }
    {
        self.guard.routing()
    }

    /// Returns the routing at a version, as [`LockedProxy::routing_at`] says.
    pub fn routing_at(&self, version: Version) -> Result<NotedRouting<N>, Refusal>
        ensures shown { IfOk result (ShowsRouting self.now version
            (rows_up_to version self.now.proxy.journal)) }
        ensures refused { IfErr result (IsRoutingRefusal self.now version) }
    {
        self.guard.routing_at(version)
    }

    /// Whether the proxy confirms an answer, as [`LockedProxy::confirm`] says.
    pub fn confirm(&self, answer: &NotedFinished<N>) -> bool
        ensures { MatchBool result
            (IsConfirmed N.cells.config self.now answer.now)
            (self.now.proxy.version < answer.now.finished.version) }
    {
        self.guard.confirm(answer)
    }

    /// Compares the proxy with another locked one, as [`LockedProxy::meet`] says.
    pub(crate) fn meet(&self, other: &ProxyGuard<'_, N>) -> Meeting
        ensures { Met result self.now.proxy other.now.proxy }
    {
        self.guard.meet(&other.guard)
    }

    /// The number of the proxy.
    pub fn number(&self) -> ProxyNumber
        ensures value { result ≡ self.now.proxy.number }
        ensures kept { IsLockedProxy N.cells.config self.now }
    {
        self.guard.number()
    }

    /// The version of the record last finished, or 0.
    pub fn version(&self) -> Version
        ensures value { result ≡ self.now.proxy.version }
        ensures kept { IsLockedProxy N.cells.config self.now }
    {
        self.guard.version()
    }

    /// The journal: the rows that the proxy has learned, and those of its own finished records.
    pub fn journal(&self) -> &[JournalRow]
        ensures value { result.now ≡ self.now.proxy.journal }
        ensures kept { IsLockedProxy N.cells.config self.now }
    {
        self.guard.journal()
    }

    /// The metadata at the version of the proxy: the fold of its journal.
    pub fn metadata(&self) -> &Metadata
        ensures value { result.now ≡ metadata_of self.now.proxy.journal }
        ensures kept { IsLockedProxy N.cells.config self.now }
    {
        self.guard.metadata()
    }

    /// The records up to the one begun last.
    pub fn records(&self) -> &Records<N>
        ensures value { result.now ≡ record { first = 0; known = self.now.records } }
        ensures kept { IsLockedProxy N.cells.config self.now }
    {
        self.guard.records()
    }

    /// The verdict cells of each resolver that it has learned of.
    pub fn columns(&self) -> &Columns<N>
        ensures value { result.now ≡ self.now.columns }
        ensures kept { IsLockedProxy N.cells.config self.now }
    {
        self.guard.columns()
    }
}
