//! The sending ends of one proxy.

ghost use Rattle.std.specs.Prelude.{◌≡◌, ◌<◌, length, IfErr, IfOk};
ghost use Rattle.inboxes.specs.Ends.{AreSenders, ProxyView};
ghost use Rattle.inboxes.specs.Sending.{AreEndedSenders, AreOpen, AreSent, ChangesEnd, IsFor};
ghost use Rattle.inboxes.specs.Sending.{with_gone, with_sent};
ghost use Rattle.inboxes.specs.MessageViews.{end_view};

use crate::channels::Channels;
use crate::message::Message;
use crate::question::Question;
use crate::sender_end::{EndedSender, SenderEnd};
use agreed_ledger::Naming;
use model::{ProxyNumber, ResolverNumber};
use std::marker::Model;
use std::sync::Wait;

/// The sending ends of one proxy: one for each resolver, in order. Its last message was sent through
/// none of them.
#[derive(Drop)]
pub struct ProxySenders<N: Naming, C: Question, M: Channels> {
    proxy: ProxyNumber,
    ends: Vec<SenderEnd<N, C, M>>,
}

impl<N: Naming, C: Question, M: Channels> Model for ProxySenders<N, C, M> {
    ghost use Rattle.inboxes.specs.Ends.{AreSenders, ProxyView};
    ghost use Rattle.inboxes.specs.Sending.{AreOpen};

    ghost Value = { ProxyView };

    ghost view = { λ s. record { proxy = s.proxy; ends = s.ends.items } };

    ghost invariant = { λ s. AreSenders s.proxy N.cells.config.resolvers s.ends.items
        × AreOpen s.ends.items };
}

impl<N: Naming, C: Question, M: Channels> ProxySenders<N, C, M> {
    /// The proxy's ends, one for each resolver.
    pub(crate) fn new(proxy: ProxyNumber, ends: Vec<SenderEnd<N, C, M>>) -> ProxySenders<N, C, M>
        requires senders { AreSenders proxy N.cells.config.resolvers ends.items }
        requires not_ended { AreOpen ends.items }
        ensures { result ≡ record { proxy = proxy; ends = ends.items } }
    {
        ProxySenders { proxy, ends }
    }

    /// The number of the proxy.
    pub fn proxy(&self) -> ProxyNumber
        ensures { result ≡ self.now.proxy }
    {
        self.proxy
    }

    /// How many ends there are: as many as resolvers.
    pub fn ends(&self) -> usize
        ensures value { result ≡ length self.now.ends }
        ensures all { result ≡ N.cells.config.resolvers }
        ensures kept { AreSenders self.now.proxy N.cells.config.resolvers self.now.ends }
    {
        self.ends.len()
    }

    /// Sends a message of the proxy to a resolver, and waits while its inbox is full: a request to
    /// that resolver, or a Close. If the worker's end is gone, the message comes back, and nothing
    /// was sent.
    pub fn send<R: Wait>(
        &mut self,
        rt: &R,
        resolver: ResolverNumber,
        message: Message<C>,
    ) -> Result<(), Message<C>>
        requires resolver { resolver < length self.old.ends }
        requires mine { message.proxy ≡ self.old.proxy }
        requires to_it { IsFor resolver message }
        ensures sent { IfOk result (λ _.
            ChangesEnd resolver (with_sent message) self.old self.new) }
        ensures refused { IfErr result (λ back. (back ≡ message)
            × ChangesEnd resolver with_gone self.old self.new) }
    {
        self.ends[resolver].send(rt, message)
    }

    /// Sends the last message of the proxy to each resolver, and waits while an inbox is full.
    /// Returns the ends, in the order of the resolvers, through which nothing more can be sent.
    /// Allocates nothing.
    pub fn into_ended<R: Wait>(self, rt: &R) -> Vec<EndedSender<N, C, M>>
        ensures senders { AreSenders self.proxy N.cells.config.resolvers result.items }
        ensures sent { AreSent (end_view self.proxy) self.ends result.items }
        ensures ended { AreEndedSenders self.proxy result.items }
    {
        let ProxySenders { proxy, ends } = self;
        let mut ends = ends;
        send_last_messages(rt, proxy, &mut ends);
        ends
    }
}

/// Sends the last message of the proxy through each of its ends.
fn send_last_messages<N: Naming, C: Question, M: Channels, R: Wait>(
    rt: &R,
    proxy: ProxyNumber,
    ends: &mut Vec<SenderEnd<N, C, M>>,
)
    requires { AreSenders proxy (length ends.old.items) ends.old.items }
    ensures { AreSent (end_view proxy) ends.old.items ends.new.items }
{
    for resolver in 0..ends.len() {
        let _sent = ends[resolver].send(rt, Message::end(proxy));
    }
}
