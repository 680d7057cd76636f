//! The worker of a resolver, which runs in a thread of its own.

ghost use Rattle.std.specs.Prelude.{◌≡◌, ◌≢◌, ◌+◌, ◌<◌, ◌⊎◌, [], IsFalse, IsTrue, MatchBool};
ghost use Rattle.std.specs.Prelude.{MatchResult};
ghost use Rattle.inboxes.specs.Sending.{ends_in};
ghost use Rattle.workers.specs.Workers.{HasTakenMore, IsWorkerOf, StaysFailed, TakesOne, new_worker};
ghost use Rattle.locked_resolvers.specs.declared.refusal.Refusal.TheVariants as refusals;

use crate::desk::Desk;
use crate::ended_worker::EndedWorker;
use crate::gate::Gate;
use crate::pending_request::PendingRequest;
use agreed_ledger::Naming;
use inboxes::{Body, Channels, FreshEnd, InboxEnd};
use locked_resolvers::{Refusal, SharedResolver};
use std::alloc::Global;
use std::marker::Model;
use std::sync::Wait;

/// Takes the messages of an inbox, and serves them by its resolver.
#[derive(Drop)]
pub struct ResolverWorker<'a, 'l, N: Naming, M: Channels, G: Gate + Drop> {
    shared: &'a SharedResolver<'l, N>,
    end: InboxEnd<N, PendingRequest<N>, M>,
    desk: Desk<N>,
    gate: G,
    proxies_left: usize,
    cut_off: bool,
}

impl<'a, 'l, N: Naming, M: Channels, G: Gate + Drop> Model for ResolverWorker<'a, 'l, N, M, G> {
    ghost use Rattle.workers.specs.Workers.{IsWorkerOf, WorkerView};

    ghost Value = { WorkerView };

    ghost view = { λ w. record {
      taken = w.end;
      desk = w.desk;
      proxies_left = w.proxies_left;
      cut_off = w.cut_off;
    } };

    ghost invariant = { λ w. IsWorkerOf w.shared.now N.cells.config.proxies (record {
      taken = w.end;
      desk = w.desk;
      proxies_left = w.proxies_left;
      cut_off = w.cut_off;
    }) };
}

impl<'a, 'l, N: Naming, M: Channels, G: Gate + Drop> ResolverWorker<'a, 'l, N, M, G> {
    /// The worker of the resolver, which takes the messages of this end. If the end is that of
    /// another resolver's inbox, returns it and the gate with `WrongResolver`. Allocates nothing.
    pub fn new(
        alloc: Global,
        shared: &'a SharedResolver<'l, N>,
        end: FreshEnd<N, PendingRequest<N>, M>,
        gate: G,
    ) -> Result<ResolverWorker<'a, 'l, N, M, G>, (Refusal, FreshEnd<N, PendingRequest<N>, M>, G)>
        ensures { MatchResult result
            (λ worker. (end ≡ shared.now)
            × (worker ≡ new_worker shared.now N.cells.config.proxies))
            (λ refused. (end ≢ shared.now) × (refused.0 ≡ refusals.WrongResolver)
            × (refused.1 ≡ end) × (refused.2 ≡ gate)) }
    {
        if end.resolver() != shared.number() {
            return Err((Refusal::WrongResolver, end, gate));
        }
        let end = end.into_end();
        let proxies_left = end.proxies();
        Ok(ResolverWorker {
            shared,
            end,
            desk: Desk::new(alloc, shared.number()),
            gate,
            proxies_left,
            cut_off: false,
        })
    }

    /// Takes messages and serves them, until it has taken the last message of each proxy, or until
    /// nobody is left who could send one: then the last message of some proxy is missing. If requests
    /// are then still held back, it closes the resolver, and answers each so. If it was closed, refused
    /// memory or cut off before, it ends so.
    pub fn run<R: Wait>(self, rt: &R) -> EndedWorker<N, M, G>
        ensures taken { HasTakenMore self.entry.taken result.taken }
        ensures closed { IsTrue self.entry.desk.closed → IsTrue result.closed }
        ensures wanted { IsTrue self.entry.desk.wanted → IsTrue result.wanted }
        ensures cut_off { IsTrue self.entry.cut_off → IsTrue result.cut_off }
        ensures missing { IsFalse self.entry.cut_off → IsTrue result.cut_off
            → ends_in result.taken.got < N.cells.config.proxies }
    {
        let mut worker = self;
        for _ in rt.forever() {
            if worker.has_ended() {
                break;
            }
            worker.serve_next_message(rt);
        }
        worker.into_ended(rt)
    }

    /// Whether it took the last message of each proxy, or nobody is left who could send one.
    fn has_ended(&self) -> bool
        ensures ended { MatchBool result
            ((self.now.proxies_left ≡ 0) ⊎ IsTrue self.now.cut_off)
            ((0 < self.now.proxies_left) × IsFalse self.now.cut_off) }
        ensures kept { self.now.proxies_left + ends_in self.now.taken.got
            ≡ N.cells.config.proxies }
    {
        self.cut_off || self.proxies_left == 0
    }

    /// Takes a message and serves it.
    fn serve_next_message<R: Wait>(&mut self, rt: &R)
        requires { 0 < self.old.proxies_left }
        ensures taken { TakesOne self.old self.new }
        ensures stays { StaysFailed self.old self.new }
    {
        let Ok(message) = self.end.take(rt) else {
            self.cut_off = true;
            return;
        };
        match message.into_body() {
            Body::Request(pending) => {
                self.desk
                    .take(rt, &mut self.shared.lock(rt), &self.gate, pending)
            }
            Body::Close => self.desk.close(rt, &mut self.shared.lock(rt)),
            Body::End => self.proxies_left -= 1,
        }
    }

    /// Ends the worker, which takes no more. If requests are still held back, closes the resolver, and
    /// answers each so; if memory is refused for that, it ends as one that was refused memory.
    fn into_ended<R: Wait>(self, rt: &R) -> EndedWorker<N, M, G>
        requires { (self.proxies_left ≡ 0) ⊎ IsTrue self.cut_off }
        ensures taken { result.taken ≡ self.entry.taken }
        ensures column { result.column ≡ self.entry.desk.column }
        ensures closed { result.closed ≡ self.entry.desk.closed }
        ensures cut_off { result.cut_off ≡ self.entry.cut_off }
        ensures wanted { IsTrue self.entry.desk.wanted → IsTrue result.wanted }
        ensures none_held { self.entry.desk.held ≡ []
            → result.wanted ≡ self.entry.desk.wanted }
    {
        let ResolverWorker {
            shared,
            end,
            desk,
            gate,
            proxies_left: _,
            cut_off,
        } = self;
        let mut desk = desk;
        desk.end(rt, &mut shared.lock(rt));
        let (column, closed, wanted) = desk.into_parts();
        EndedWorker::of(end.into_pass(), column, closed, wanted, cut_off, gate)
    }
}
