//! The sending end of a proxy to the inbox of one resolver.

ghost use Rattle.std.specs.Prelude.{◌≡◌, ◌<◌, [], true, IfErr, IfOk};
ghost use Rattle.crossbeam_channel.specs.Claims.{IsSeatAt};
ghost use Rattle.crossbeam_channel.specs.Ends.{ruled_capacity, sends_on};
ghost use Rattle.inboxes.specs.Delivers.{inbox_limit};
ghost use Rattle.inboxes.specs.Ends.{SenderView, fresh_sender};
ghost use Rattle.inboxes.specs.Places.{known, place_at, place_of};
ghost use Rattle.inboxes.specs.Sending.{with_gone, with_sent};

use crate::channels::Channels;
use crate::message::Message;
use crate::question::Question;
use crate::rule::{InboxPass, InboxSender, send};
use agreed_ledger::Naming;
use model::{ProxyNumber, ResolverNumber};
use std::marker::{Model, PhantomData};
use std::sync::Wait;

/// A proxy's sending end to the inbox of one resolver, with the pass that knows what was sent.
#[derive(Drop)]
pub struct SenderEnd<N: Naming, C: Question, M: Channels> {
    pub(crate) resolver: ResolverNumber,
    pub(crate) proxy: ProxyNumber,
    pub(crate) post: InboxSender<C>,
    pub(crate) hand: InboxPass<C>,
    pub(crate) sent: u64,
    pub(crate) gone: bool,
    pub(crate) of: PhantomData<(N, M)>,
}

/// A sending end through which the proxy sends no more: what [`compare`](crate::WorkerPass::compare) takes.
pub type EndedSender<N, C, M> = SenderEnd<N, C, M>;

impl<N: Naming, C: Question, M: Channels> Model for SenderEnd<N, C, M> {
    ghost use Rattle.std.specs.Prelude.{◌≡◌, ◌<◌, true};
    ghost use Rattle.crossbeam_channel.specs.Claims.{IsSeatAt};
    ghost use Rattle.crossbeam_channel.specs.Ends.{ruled_capacity, sends_on};
    ghost use Rattle.inboxes.specs.Counts.{counted};
    ghost use Rattle.inboxes.specs.Delivers.{inbox_limit};
    ghost use Rattle.inboxes.specs.Ends.{SenderView};
    ghost use Rattle.inboxes.specs.Places.{known, place_at, place_of};

    ghost Value = { SenderView };

    ghost view = { λ e. record {
      resolver = e.resolver;
      proxy = e.proxy;
      put = (known e.hand).put;
      gone = e.gone;
    } };

    ghost invariant = { λ e. (e.proxy < N.cells.config.proxies)
        × (place_of (sends_on e.post) ≡ place_at M.places e.resolver)
        × (ruled_capacity (sends_on e.post) ≡ inbox_limit)
        × IsSeatAt (sends_on e.post) e.hand
        × ((known e.hand).sends ≡ true)
        × ((known e.hand).from ≡ e.proxy)
        × (e.sent ≡ counted (known e.hand).put) };
}

impl<N: Naming, C: Question, M: Channels> SenderEnd<N, C, M> {
    /// The end of the proxy to this resolver, with a pass that has sent nothing.
    pub(crate) fn new(
        resolver: ResolverNumber,
        proxy: ProxyNumber,
        post: InboxSender<C>,
        hand: InboxPass<C>,
    ) -> SenderEnd<N, C, M>
        requires proxy { proxy < N.cells.config.proxies }
        requires place { place_of (sends_on post) ≡ place_at M.places resolver }
        requires capacity { ruled_capacity (sends_on post) ≡ inbox_limit }
        requires pass { IsSeatAt (sends_on post) hand }
        requires sender { ((known hand).sends ≡ true) × ((known hand).from ≡ proxy) }
        requires empty { (known hand).put ≡ [] }
        ensures { result ≡ fresh_sender proxy resolver }
    {
        SenderEnd {
            resolver,
            proxy,
            post,
            hand,
            sent: 0,
            gone: false,
            of: PhantomData,
        }
    }

    /// The number of the resolver that it is to.
    pub fn resolver(&self) -> ResolverNumber
        ensures { result ≡ self.now.resolver }
    {
        self.resolver
    }

    /// The number of the proxy that it is of.
    pub fn proxy(&self) -> ProxyNumber
        ensures value { result ≡ self.now.proxy }
        ensures within { result < N.cells.config.proxies }
    {
        self.proxy
    }

    /// Whether a send was refused, since the worker's end was gone.
    pub fn gone(&self) -> bool
        ensures { result ≡ self.now.gone }
    {
        self.gone
    }

    /// Sends a message of the proxy, and waits while the inbox is full. If the worker's end is
    /// gone, the message comes back, and nothing was sent.
    pub(crate) fn send<R: Wait>(&mut self, rt: &R, message: Message<C>) -> Result<(), Message<C>>
        requires { message.proxy ≡ self.old.proxy }
        ensures sent { IfOk result (λ _. self.new ≡ with_sent message self.old) }
        ensures refused { IfErr result (λ back.
            (back ≡ message) × (self.new ≡ with_gone self.old)) }
    {
        match send(rt, &self.post, &mut self.hand, message) {
            Ok(()) => {
                self.sent = self.sent.saturating_add(1);
                Ok(())
            }
            Err(back) => {
                self.gone = true;
                Err(back)
            }
        }
    }
}
