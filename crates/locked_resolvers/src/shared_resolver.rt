//! The resolver that threads share.

ghost use Rattle.std.specs.Prelude.{◌≡◌, ◌<◌, ◌≤◌, length, IfOk, IfErr, IsTrue, MatchResult};
ghost use Rattle.state_memory.specs.Answers.{IsRememberedCount};
ghost use Rattle.locked_resolvers.specs.Resolvers.{HasOffered, IsLockedResolver, IsOfferRefusal};
ghost use Rattle.locked_resolvers.specs.Resolvers.{IsResolveRefusal, ShowsReply, TellsTaken};
ghost use Rattle.locked_resolvers.specs.Resolvers.{after_refusal, closed_resolver};
ghost use Rattle.locked_resolvers.specs.declared.refusal.Refusal.TheVariants as refusals;

use crate::locked_resolver::LockedResolver;
use crate::noted_reply::NotedReply;
use crate::refusal::Refusal;
use crate::refused::Refused;
use crate::request::Request;
use agreed_ledger::{Column, Ledger, Naming, Records};
use model::{ResolverNumber, Version};
use std::alloc::Global;
use std::marker::Model;
use std::sync::{Condvar, Mutex, MutexGuard, Wait};

/// A resolver that threads share. It judges the requests of all proxies in the order of their
/// versions: a call with a later one waits its turn.
#[derive(Drop)]
pub struct SharedResolver<'l, N: Naming> {
    ledger: &'l Ledger<N>,
    number: ResolverNumber,
    lock: Mutex<LockedResolver<N>>,
    changed: Condvar,
}

impl<'l, N: Naming> Model for SharedResolver<'l, N> {
    ghost use Rattle.model.specs.Numbers.{ResolverNumber};

    ghost Value = { ResolverNumber };

    ghost view = { λ r. r.number };
}

impl<'l, N: Naming> SharedResolver<'l, N> {
    /// The resolver of this number before its first request. Fails with `WrongResolver` if the
    /// cluster has no such resolver, and otherwise only with `OutOfMemory`.
    pub fn new(
        alloc: Global,
        ledger: &'l Ledger<N>,
        number: ResolverNumber,
    ) -> Result<SharedResolver<'l, N>, Refusal>
        ensures { MatchResult result
            (λ made. (made ≡ number) × (number < N.cells.config.resolvers))
            (λ refusal.
            (N.cells.config.resolvers ≤ number → refusal ≡ refusals.WrongResolver)
            × (number < N.cells.config.resolvers → refusal ≡ refusals.OutOfMemory)) }
    {
        Ok(SharedResolver::of(ledger, LockedResolver::new(alloc, ledger, number)?))
    }

    /// This resolver, with a lock.
    fn of(ledger: &'l Ledger<N>, locked: LockedResolver<N>) -> SharedResolver<'l, N>
        ensures number { result ≡ locked.memory.number }
        ensures there { locked.memory.number < N.cells.config.resolvers }
    {
        SharedResolver {
            ledger,
            number: locked.number(),
            lock: Mutex::new(locked),
            changed: Condvar::new(),
        }
    }

    /// The number of the resolver under the lock.
    pub fn number(&self) -> ResolverNumber
        ensures { result ≡ self.now }
    {
        self.number
    }

    /// The ledger that it refers to.
    pub(crate) fn ledger(&self) -> &'l Ledger<N> {
        self.ledger
    }

    /// Waits for the lock of the resolver of this number. What is under it is otherwise known by
    /// its type alone: records that are a history, and for each of them the verdicts of the
    /// definition.
    pub fn lock<R: Wait>(&self, rt: &R) -> ResolverGuard<'_, N>
        ensures kept { IsLockedResolver N.cells.config result }
        ensures number { result.memory.number ≡ self.now }
    {
        let number = self.number;
        let guard = self.lock.lock(rt);
        // (that the resolver under the lock has this number no type says, so it is looked at; the
        // contract of its number says what the type keeps)
        let guard = self
            .changed
            .wait_while(rt, guard, |locked| locked.number() != number);
        let _number = guard.number();
        ResolverGuard {
            ledger: self.ledger,
            guard,
            changed: &self.changed,
        }
    }

    /// Waits until the request comes no longer too early, and offers it. Returns the reply, and the
    /// resolver, still locked.
    ///
    /// Fails as [`ResolverGuard::offer`] does, but never with `Early`. No call is promised to stop
    /// waiting.
    pub fn resolve<R: Wait>(
        &self,
        rt: &R,
        request: Request<N>,
    ) -> Result<(NotedReply<N>, ResolverGuard<'_, N>), Refused<N>>
        ensures shown { IfOk result (λ made. ShowsReply request made.0 made.1) }
        ensures kept { IfOk result (λ made. IsLockedResolver N.cells.config made.1) }
        ensures number { IfOk result (λ made. made.1.memory.number ≡ self.now) }
        ensures refused { IfErr result (λ refused.
            IsResolveRefusal N.cells.config self.now request refused.refusal) }
        ensures taken { IfErr result (λ refused.
            TellsTaken request.plain.row self.now refused.refusal refused.taken) }
        ensures back { IfErr result (λ refused. refused.request ≡ request) }
    {
        let number = self.number;
        let guard = self.lock.lock(rt);
        // (as in `lock`, the number is looked at)
        let guard = self.changed.wait_while(rt, guard, |locked| {
            locked.number() != number || locked.is_early(&request)
        });
        // (its contract says what the type keeps)
        let _number = guard.number();
        let mut shown = ResolverGuard {
            ledger: self.ledger,
            guard,
            changed: &self.changed,
        };
        match shown.offer(request) {
            Ok(noted) => Ok((noted, shown)),
            Err(refused) => {
                // (by their types its records and the request's are of one ledger)
                shown.records().agree(refused.request.records());
                Err(refused)
            }
        }
    }

    /// Closes the resolver: calls that wait and later ones fail with `Closed`. Returns the resolver,
    /// still locked, which shows that it is closed.
    pub fn close<R: Wait>(&self, rt: &R) -> ResolverGuard<'_, N>
        ensures kept { IsLockedResolver N.cells.config result }
        ensures number { result.memory.number ≡ self.now }
        ensures closed { IsTrue result.closed }
    {
        let mut guard = self.lock(rt);
        guard.close();
        // (its contract says what the type keeps)
        let _number = guard.number();
        guard
    }
}

/// A resolver, locked.
#[derive(Drop)]
pub struct ResolverGuard<'a, N: Naming> {
    ledger: &'a Ledger<N>,
    guard: MutexGuard<'a, LockedResolver<N>>,
    changed: &'a Condvar,
}

impl<'a, N: Naming> Model for ResolverGuard<'a, N> {
    ghost use Rattle.locked_resolvers.specs.Resolvers.{LockedResolverView};

    ghost Value = { LockedResolverView };

    ghost view = { λ g. g.guard.value };
}

impl<'a, N: Naming> ResolverGuard<'a, N> {
    /// Answers a request as the definition does, as [`LockedResolver::offer`] says. Does not wait.
    pub fn offer(&mut self, request: Request<N>) -> Result<NotedReply<N>, Refused<N>>
        ensures offered { IfOk result (HasOffered self.old request self.new) }
        ensures refused { IfErr result (λ refused.
            IsOfferRefusal self.old request.plain refused.refusal) }
        ensures taken { IfErr result (λ refused. TellsTaken request.plain.row
            self.old.memory.number refused.refusal refused.taken) }
        ensures left { IfErr result (λ refused.
            self.new ≡ after_refusal self.old refused.refusal) }
        ensures back { IfErr result (λ refused. refused.request ≡ request) }
        ensures kept { IsLockedResolver N.cells.config self.new }
    {
        let answer = self.guard.offer(self.ledger, request);
        self.changed.notify_all();
        // (its contract says what the type keeps)
        let _number = self.guard.number();
        answer
    }

    /// Closes it: calls that wait and later ones fail with `Closed`.
    pub fn close(&mut self)
        ensures { self.new ≡ closed_resolver self.old }
    {
        self.guard.close();
        self.changed.notify_all();
    }

    /// The number of the resolver.
    pub fn number(&self) -> ResolverNumber
        ensures value { result ≡ self.now.memory.number }
        ensures kept { IsLockedResolver N.cells.config self.now }
    {
        self.guard.number()
    }

    /// The version of the last request that it judged, or 0.
    pub fn version(&self) -> Version
        ensures value { result ≡ self.now.memory.version }
        ensures kept { IsLockedResolver N.cells.config self.now }
    {
        self.guard.version()
    }

    /// How many versions it remembers, since some proxy has not reached them.
    pub fn remembered(&self) -> usize
        ensures rows { result ≡ length self.now.memory.rows }
        ensures count { IsRememberedCount self.now.memory result }
    {
        self.guard.remembered()
    }

    /// Whether it is closed: it then refuses every request.
    pub fn is_closed(&self) -> bool
        ensures { result ≡ self.now.closed }
    {
        self.guard.is_closed()
    }

    /// The records of the rows that it judged, from row 0.
    pub fn records(&self) -> &Records<N>
        ensures value { result.now ≡ record { first = 0; known = self.now.records } }
        ensures kept { IsLockedResolver N.cells.config self.now }
    {
        self.guard.records()
    }

    /// Its verdict cells of these rows.
    pub fn column(&self) -> &Column<N>
        ensures value { result.now ≡ record {
          resolver = self.now.memory.number;
          rows = record { first = 0; known = self.now.column };
        } }
        ensures kept { IsLockedResolver N.cells.config self.now }
    {
        self.guard.column()
    }
}
