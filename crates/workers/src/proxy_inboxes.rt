//! How a proxy asks the workers of all resolvers.

ghost use Rattle.std.specs.Prelude.{◌≡◌, ◌<◌, ◌≤◌, [], length, IfErr, IfOk, Some};
ghost use Rattle.model.specs.Configs.{IsConfig};
ghost use Rattle.inboxes.specs.Ends.{AreSenders};
ghost use Rattle.inboxes.specs.Sending.{AreEndedSenders, AreSent, IsSentTo};
ghost use Rattle.inboxes.specs.MessageViews.{close_view, request_view};
ghost use Rattle.locked_resolvers.specs.Asking.{AreOfOneRecord, AreRepliesInOrder, AreTaken};
ghost use Rattle.locked_resolvers.specs.Asking.{IsAskAllRefusal, IsAskedRefusal};
ghost use Rattle.workers.specs.Asking.{AreAllSent, AreRequestsSent, HasClosed};

use crate::awaited_replies::{
    PreparedRequests, await_replies, place_of_foreign_request, prepare_requests,
};
use crate::pending_request::PendingRequest;
use agreed_ledger::{Ledger, Naming};
use inboxes::{Channels, EndedSender, Message, ProxySenders};
use locked_resolvers::{Asking, NotedReply, Refusal, Request};
use model::ProxyNumber;
use std::alloc::Global;
use std::marker::Model;
use std::sync::{Mutex, MutexGuard, Wait};

/// A proxy's sending ends of all inboxes, under a lock. The proxy asks through them, and closes the
/// resolvers. Contracts see it as the number of the proxy.
#[derive(Drop)]
pub struct ProxyInboxes<N: Naming, M: Channels> {
    proxy: ProxyNumber,
    lock: Mutex<ProxySenders<N, PendingRequest<N>, M>>,
}

impl<N: Naming, M: Channels> Model for ProxyInboxes<N, M> {
    ghost use Rattle.model.specs.Configs.{IsConfig};
    ghost use Rattle.model.specs.Numbers.{ProxyNumber};

    ghost Value = { ProxyNumber };

    ghost view = { λ p. p.proxy };

    ghost invariant = { λ p. IsConfig N.cells.config };
}

impl<N: Naming, M: Channels> ProxyInboxes<N, M> {
    /// The proxy that has these sending ends, in the cluster that the ledger is of.
    pub fn new(
        ledger: &Ledger<N>,
        senders: ProxySenders<N, PendingRequest<N>, M>,
    ) -> ProxyInboxes<N, M>
        ensures { result ≡ senders.proxy }
    {
        // (its contract says that the numbers of the cluster are within their limits)
        let _config = ledger.config();
        ProxyInboxes {
            proxy: senders.proxy(),
            lock: Mutex::new(senders),
        }
    }

    /// The number of the proxy.
    pub fn proxy(&self) -> ProxyNumber
        ensures { result ≡ self.now }
    {
        self.proxy
    }

    /// Asks each resolver its request, and returns the replies in the order of the requests. All
    /// requests are sent before any answer is awaited, and nothing is allocated once one is sent. No
    /// call is promised to stop waiting.
    ///
    /// Fails with `NotMine` before anything is sent if one of the requests is of another proxy.
    /// Otherwise fails as the resolver that one of the requests names does, or with `OutOfMemory`.
    /// Then some resolvers may have been asked: asked again, they give the same replies.
    pub fn ask<R: Wait>(
        &self,
        rt: &R,
        alloc: Global,
        requests: &[Request<N>],
    ) -> Result<Vec<NotedReply<N>>, Refusal>
        ensures taken { IfOk result (λ _. AreTaken (Some self.now) requests.now) }
        ensures replied { IfOk result (λ replies. AreRepliesInOrder requests.now replies.items) }
        ensures refused { IfErr result
            (IsAskAllRefusal N.cells.config (Some self.now) requests.now) }
    {
        if let Some(_place) = place_of_foreign_request(self.proxy, requests) {
            return Err(Refusal::NotMine);
        }
        self.ask_own(rt, alloc, requests)
    }

    /// Sends the last message of the proxy to each resolver's inbox. Returns the sending ends, in the
    /// order of the resolvers, through which nothing more can be sent. Allocates nothing.
    pub fn end<R: Wait>(self, rt: &R) -> Vec<EndedSender<N, PendingRequest<N>, M>>
        ensures senders { AreSenders self N.cells.config.resolvers result.items }
        ensures ended { AreEndedSenders self result.items }
    {
        let proxy = self.proxy;
        let senders = self.lock.into_inner();
        await_own_ends(rt, proxy, &senders);
        senders.into_ended(rt)
    }

    /// Tells the worker of each resolver to close it. Returns the sending ends, still locked, which
    /// show what was sent through them.
    pub fn close<R: Wait>(&self, rt: &R) -> SendersGuard<'_, N, M>
        ensures { HasClosed N.cells.config.resolvers result }
    {
        let mut guard = self.lock.lock(rt);
        send_closes(rt, &mut guard);
        // (its contract says what the type keeps)
        let _ends = guard.ends();
        SendersGuard { guard }
    }

    /// Asks each resolver its request, which is of this proxy.
    fn ask_own<R: Wait>(
        &self,
        rt: &R,
        alloc: Global,
        requests: &[Request<N>],
    ) -> Result<Vec<NotedReply<N>>, Refusal>
        requires { AreTaken (Some self.now) requests.now }
        ensures replied { IfOk result (λ replies. AreRepliesInOrder requests.now replies.items) }
        ensures refused { IfErr result (IsAskedRefusal N.cells.config requests.now) }
    {
        // (reading it tells what the type keeps)
        let _proxy = self.proxy;
        let Ok(prepared) = prepare_requests(alloc, requests) else {
            return Err(Refusal::OutOfMemory);
        };
        let PreparedRequests {
            messages,
            waiting,
            replies,
        } = prepared;
        drop(self.send_all(rt, messages));
        await_replies(rt, requests, &waiting, replies)
    }

    /// Sends the requests, which are of this proxy. Returns the sending ends, still locked, which show
    /// what was sent through them.
    fn send_all<R: Wait>(&self, rt: &R, messages: Vec<PendingRequest<N>>) -> SendersGuard<'_, N, M>
        requires { AreTaken (Some self.now) messages.items }
        ensures { AreAllSent messages.items result }
    {
        let mut guard = self.lock.lock(rt);
        send_requests(rt, &mut guard, messages);
        SendersGuard { guard }
    }
}

impl<N: Naming, M: Channels> Asking<N> for ProxyInboxes<N, M> {
    ghost use Rattle.std.specs.Prelude.{Some};

    ghost takes = { λ proxy. Some proxy };

    fn ask_all<R: Wait>(
        &self,
        rt: &R,
        alloc: Global,
        requests: &[Request<N>],
    ) -> Result<Vec<NotedReply<N>>, Refusal> {
        self.ask(rt, alloc, requests)
    }
}

/// A proxy's sending ends of all inboxes, locked. Contracts see what was sent through them.
#[derive(Drop)]
pub struct SendersGuard<'a, N: Naming, M: Channels> {
    guard: MutexGuard<'a, ProxySenders<N, PendingRequest<N>, M>>,
}

impl<'a, N: Naming, M: Channels> Model for SendersGuard<'a, N, M> {
    ghost use Rattle.inboxes.specs.Ends.{ProxyView};

    ghost Value = { ProxyView };

    ghost view = { λ g. g.guard.value };
}

/// Loops for ever unless the ends are those of this proxy. They always are, but no type says so
/// of what a lock holds.
fn await_own_ends<N: Naming, M: Channels, R: Wait>(
    rt: &R,
    proxy: ProxyNumber,
    senders: &ProxySenders<N, PendingRequest<N>, M>,
)
    ensures { senders.now.proxy ≡ proxy }
{
    for _ in rt.forever() {
        if senders.proxy() == proxy {
            return;
        }
    }
    unreachable!()
}

/// Sends each request to the inbox of its resolver, in order. One whose worker has gone is dropped,
/// and nobody answers it.
fn send_requests<N: Naming, M: Channels, R: Wait>(
    rt: &R,
    senders: &mut ProxySenders<N, PendingRequest<N>, M>,
    messages: Vec<PendingRequest<N>>,
)
    ensures { AreRequestsSent messages.items senders.old senders.new }
{
    for pending in messages {
        send_request(rt, senders, pending);
    }
}

/// Sends a request to the inbox of its resolver.
fn send_request<N: Naming, M: Channels, R: Wait>(
    rt: &R,
    senders: &mut ProxySenders<N, PendingRequest<N>, M>,
    pending: PendingRequest<N>,
)
    ensures { IsSentTo pending.plain.resolver
        (request_view senders.old.proxy pending.plain.resolver pending.plain.row)
        senders.old senders.new }
{
    // (their contracts say that there is an end to the resolver)
    let _plain = pending.request.plain();
    let _ends = senders.ends();
    let resolver = pending.request.resolver();
    let message = Message::request(senders.proxy(), pending);
    let _sent = senders.send(rt, resolver, message);
}

/// Tells each worker to close its resolver.
fn send_closes<N: Naming, M: Channels, R: Wait>(
    rt: &R,
    senders: &mut ProxySenders<N, PendingRequest<N>, M>,
)
    ensures proxy { senders.new.proxy ≡ senders.old.proxy }
    ensures sent { AreSent (close_view senders.old.proxy) senders.old.ends senders.new.ends }
{
    for resolver in 0..senders.ends() {
        let message = Message::close(senders.proxy());
        let _sent = senders.send(rt, resolver, message);
    }
}
