//! An inbox and its sending and receiving ends before its channel has a name.

ghost use Rattle.std.specs.Prelude.{◌≡◌, ◌+◌, ◌<◌, ◌∷◌, ◌++◌, [], All, map, replicate, IfOk};
ghost use Rattle.crossbeam_channel.specs.Claims.{IsSeatAt};
ghost use Rattle.crossbeam_channel.specs.Ends.{receives_on, sends_on};
ghost use Rattle.inboxes.specs.Blanks.{AreBlankSenders, BlankInboxView, BlankSendersView, BlankSenderView};
ghost use Rattle.inboxes.specs.Ends.{fresh_sender};
ghost use Rattle.inboxes.specs.Places.{known, place_at, place_of};

use crate::channels::Channels;
use crate::inbox_end::FreshEnd;
use crate::question::Question;
use crate::rule::{Inbox, InboxPass, InboxSender, add_sender, make_inbox};
use crate::sender_end::SenderEnd;
use crate::worker_pass::WorkerPass;
use agreed_ledger::Naming;
use model::{ProxyNumber, ResolverNumber};
use std::alloc::{AllocError, Global};
use std::marker::{Model, PhantomData};

/// The channel of one inbox, with the worker's pass.
#[derive(Drop)]
pub(crate) struct BlankInbox<C: Question> {
    post: InboxSender<C>,
    inbox: Inbox<C>,
    hand: InboxPass<C>,
}

impl<C: Question> Model for BlankInbox<C> {
    ghost use Rattle.std.specs.Prelude.{◌≡◌, [], true};
    ghost use Rattle.crossbeam_channel.specs.Claims.{IsSeatAt};
    ghost use Rattle.crossbeam_channel.specs.Ends.{receives_on, ruled_capacity, sends_on};
    ghost use Rattle.inboxes.specs.Blanks.{BlankInboxView};
    ghost use Rattle.inboxes.specs.Delivers.{inbox_limit};
    ghost use Rattle.inboxes.specs.Places.{known, place_of};

    ghost Value = { BlankInboxView };

    ghost view = { λ b. record { place = place_of (sends_on b.post); made = (known b.hand).made } };

    ghost invariant = { λ b. (receives_on b.inbox ≡ sends_on b.post)
        × (ruled_capacity (sends_on b.post) ≡ inbox_limit)
        × IsSeatAt (sends_on b.post) b.hand
        × ((known b.hand).gets ≡ true) × ((known b.hand).got ≡ []) };
}

impl<C: Question> BlankInbox<C> {
    /// A new channel, which holds up to 64 messages.
    pub(crate) fn new(alloc: Global) -> Result<BlankInbox<C>, AllocError>
        ensures { IfOk result (λ made. made.made ≡ 0) }
    {
        let (post, inbox, hand) = make_inbox(alloc)?;
        Ok(BlankInbox { post, inbox, hand })
    }

    /// The sending end of the next proxy, which has the number `proxy`.
    pub(crate) fn add_sender(&mut self, proxy: ProxyNumber) -> Result<BlankSender<C>, AllocError>
        requires { proxy ≡ self.old.made }
        ensures { IfOk result (λ sender. (sender ≡ record { place = self.old.place; proxy = proxy })
            × (self.new ≡ record { place = self.old.place; made = proxy + 1 })) }
    {
        let post = self.post.try_clone()?;
        let hand = add_sender(&self.post, &mut self.hand);
        Ok(BlankSender { proxy, post, hand })
    }

    /// The receiving end, with a count of 0 for each proxy.
    pub(crate) fn into_end<N: Naming>(self, counts: Vec<u64>) -> BlankEnd<N, C>
        requires { counts.items ≡ replicate N.cells.config.proxies 0 }
        ensures { result ≡ self.place }
    {
        let BlankInbox {
            post: _,
            inbox,
            hand,
        } = self;
        BlankEnd {
            inbox,
            hand,
            counts,
            of: PhantomData,
        }
    }
}

/// A sending end of a proxy that has sent nothing.
#[derive(Drop)]
pub(crate) struct BlankSender<C: Question> {
    proxy: ProxyNumber,
    post: InboxSender<C>,
    hand: InboxPass<C>,
}

impl<C: Question> Model for BlankSender<C> {
    ghost use Rattle.std.specs.Prelude.{◌≡◌, [], true};
    ghost use Rattle.crossbeam_channel.specs.Claims.{IsSeatAt};
    ghost use Rattle.crossbeam_channel.specs.Ends.{ruled_capacity, sends_on};
    ghost use Rattle.inboxes.specs.Blanks.{BlankSenderView};
    ghost use Rattle.inboxes.specs.Delivers.{inbox_limit};
    ghost use Rattle.inboxes.specs.Places.{known, place_of};

    ghost Value = { BlankSenderView };

    ghost view = { λ b. record { place = place_of (sends_on b.post); proxy = b.proxy } };

    ghost invariant = { λ b. IsSeatAt (sends_on b.post) b.hand
        × (ruled_capacity (sends_on b.post) ≡ inbox_limit)
        × ((known b.hand).sends ≡ true) × ((known b.hand).from ≡ b.proxy)
        × ((known b.hand).put ≡ []) };
}

impl<C: Question> BlankSender<C> {
    /// The end to this resolver, whose channel it is of.
    pub(crate) fn named<N: Naming, M: Channels>(
        self,
        resolver: ResolverNumber,
    ) -> SenderEnd<N, C, M>
        requires place { self.place ≡ place_at M.places resolver }
        requires proxy { self.proxy < N.cells.config.proxies }
        ensures { result ≡ fresh_sender self.proxy resolver }
    {
        SenderEnd::new(resolver, self.proxy, self.post, self.hand)
    }
}

/// The receiving end of an inbox, of which nothing was taken.
#[derive(Drop)]
pub(crate) struct BlankEnd<N: Naming, C: Question> {
    inbox: Inbox<C>,
    hand: InboxPass<C>,
    counts: Vec<u64>,
    of: PhantomData<N>,
}

impl<N: Naming, C: Question> Model for BlankEnd<N, C> {
    ghost use Rattle.std.specs.Prelude.{◌≡◌, [], true, replicate};
    ghost use Rattle.crossbeam_channel.specs.Claims.{IsSeatAt};
    ghost use Rattle.crossbeam_channel.specs.Ends.{receives_on, ruled_capacity};
    ghost use Rattle.inboxes.specs.Delivers.{inbox_limit};
    ghost use Rattle.inboxes.specs.Places.{Place, known, place_of};

    ghost Value = { Place };

    ghost view = { λ b. place_of (receives_on b.inbox) };

    ghost invariant = { λ b. IsSeatAt (receives_on b.inbox) b.hand
        × (ruled_capacity (receives_on b.inbox) ≡ inbox_limit)
        × ((known b.hand).gets ≡ true) × ((known b.hand).got ≡ [])
        × (b.counts.items ≡ replicate N.cells.config.proxies 0) };
}

impl<N: Naming, C: Question> BlankEnd<N, C> {
    /// The end of this resolver's inbox, whose channel it is of.
    pub(crate) fn named<M: Channels>(self, resolver: ResolverNumber) -> FreshEnd<N, C, M>
        requires { self ≡ place_at M.places resolver }
        ensures { result ≡ resolver }
    {
        let BlankEnd {
            inbox,
            hand,
            counts,
            of: _,
        } = self;
        FreshEnd::new(inbox, WorkerPass::new(resolver, hand, counts))
    }
}

/// The sending ends of one proxy, in the order of the resolvers.
#[derive(Drop)]
pub(crate) struct BlankSenders<C: Question> {
    proxy: ProxyNumber,
    senders: Vec<BlankSender<C>>,
}

impl<C: Question> Model for BlankSenders<C> {
    ghost use Rattle.std.specs.Prelude.{◌≡◌, All, map};
    ghost use Rattle.inboxes.specs.Blanks.{BlankSendersView};

    ghost Value = { BlankSendersView };

    ghost view = { λ b. record {
      proxy = b.proxy;
      places = map (λ sender. sender.place) b.senders.items;
    } };

    ghost invariant = { λ b. All (λ sender. sender.proxy ≡ b.proxy) b.senders.items };
}

impl<C: Question> BlankSenders<C> {
    /// No ends, with room for `resolvers` of them.
    pub(crate) fn new(
        alloc: Global,
        proxy: ProxyNumber,
        room: usize,
    ) -> Result<BlankSenders<C>, AllocError>
        ensures { IfOk result (λ row. row ≡ record { proxy = proxy; places = [] }) }
    {
        let senders = Vec::with_capacity(alloc, room)?;
        Ok(BlankSenders { proxy, senders })
    }

    /// Appends the proxy's end to the next resolver.
    pub(crate) fn push(&mut self, sender: BlankSender<C>) -> Result<(), AllocError>
        requires { sender.proxy ≡ self.old.proxy }
        ensures { IfOk result (λ _. self.new
            ≡ record self.old { places = self.old.places ++ sender.place ∷ [] }) }
    {
        self.senders.push(sender)?;
        Ok(())
    }

    /// The proxy's number and ends.
    pub(crate) fn into_parts(self) -> (ProxyNumber, Vec<BlankSender<C>>)
        ensures proxy { result.0 ≡ self.proxy }
        ensures places { map (λ sender. sender.place) result.1.items ≡ self.places }
        ensures mine { All (λ sender. sender.proxy ≡ self.proxy) result.1.items }
    {
        let BlankSenders { proxy, senders } = self;
        (proxy, senders)
    }
}
