//! What a worker took from its inbox, and its comparison with what each ended proxy sent.

ghost use Rattle.std.specs.Prelude.{◌≡◌, ◌≢◌, ◌+◌, ◌-◌, ◌^◌, ◌<◌, ◌≤◌, ◌∷◌, ◌++◌, [], true};
ghost use Rattle.std.specs.Prelude.{length, min, slice_index, slice_set, IfErr, IfOk, OnErr};
ghost use Rattle.crossbeam_channel.specs.Claims.{IsKeyed, IsSeatAt};
ghost use Rattle.crossbeam_channel.specs.Ends.{receives_on};
ghost use Rattle.inboxes.specs.Counts.{AreCounts, counted};
ghost use Rattle.inboxes.specs.Delivers.{of_proxy};
ghost use Rattle.inboxes.specs.Ends.{IsBeginning, WorkerPassView};
ghost use Rattle.inboxes.specs.Places.{IsHandOf, known, place_at, place_of};
ghost use Rattle.inboxes.specs.declared.refusal.Refusal.TheVariants as refusals;

use crate::channels::Channels;
use crate::message::Message;
use crate::question::Question;
use crate::refusal::Refusal;
use crate::rule::{Inbox, InboxPass, join, take_one};
use crate::sender_end::{EndedSender, SenderEnd};
use agreed_ledger::Naming;
use crossbeam_channel::RecvError;
use model::{ProxyNumber, ResolverNumber};
use std::marker::{Model, PhantomData};
use std::sync::Wait;

/// How many messages of one proxy, Close and End among them, a worker took and the proxy sent. A
/// count that has reached `u64::MAX` stays there.
#[derive(Clone, Copy, Debug, PartialEq, Eq)]
pub struct Counts {
    /// How many the worker took.
    pub taken: u64,
    /// How many the proxy sent.
    pub sent: u64,
}

/// The worker's pass of the inbox of one resolver: it knows all messages that the worker took.
#[derive(Drop)]
pub struct WorkerPass<N: Naming, C: Question, M: Channels> {
    resolver: ResolverNumber,
    hand: InboxPass<C>,
    counts: Vec<u64>,
    of: PhantomData<(N, M)>,
}

impl<N: Naming, C: Question, M: Channels> Model for WorkerPass<N, C, M> {
    ghost use Rattle.std.specs.Prelude.{◌≡◌, true};
    ghost use Rattle.inboxes.specs.Counts.{AreCounts};
    ghost use Rattle.inboxes.specs.Ends.{WorkerPassView};
    ghost use Rattle.inboxes.specs.Places.{IsHandOf, known, place_at};

    ghost Value = { WorkerPassView };

    ghost view = { λ t. record { resolver = t.resolver; got = (known t.hand).got } };

    ghost invariant = { λ t. IsHandOf (place_at M.places t.resolver) t.hand
        × ((known t.hand).gets ≡ true)
        × AreCounts N.cells.config.proxies (known t.hand).got t.counts.items };
}

impl<N: Naming, C: Question, M: Channels> WorkerPass<N, C, M> {
    /// The worker's pass, which took nothing, with a count of 0 for each proxy.
    pub(crate) fn new(
        resolver: ResolverNumber,
        hand: InboxPass<C>,
        counts: Vec<u64>,
    ) -> WorkerPass<N, C, M>
        requires place { IsHandOf (place_at M.places resolver) hand }
        requires worker { ((known hand).gets ≡ true) × ((known hand).got ≡ []) }
        requires counts { AreCounts N.cells.config.proxies [] counts.items }
        ensures { result ≡ record { resolver = resolver; got = [] } }
    {
        WorkerPass {
            resolver,
            hand,
            counts,
            of: PhantomData,
        }
    }

    /// The number of the resolver whose inbox it is.
    pub fn resolver(&self) -> ResolverNumber
        ensures { result ≡ self.now.resolver }
    {
        self.resolver
    }

    /// How many proxies there are.
    pub fn proxies(&self) -> usize
        ensures { result ≡ N.cells.config.proxies }
    {
        self.counts.len()
    }

    /// Takes the message at the front of the inbox, and waits while there is none. Fails, and takes
    /// nothing, if no sending end is left.
    pub(crate) fn take_from<R: Wait>(
        &mut self,
        rt: &R,
        inbox: &Inbox<C>,
    ) -> Result<Message<C>, RecvError>
        requires place { place_of (receives_on inbox.now) ≡ place_at M.places self.old.resolver }
        requires keyed { IsKeyed (receives_on inbox.now) }
        ensures taken { IfOk result (λ message. self.new
            ≡ record self.old { got = self.old.got ++ message ∷ [] }) }
        ensures none { OnErr result (self.new ≡ self.old) }
    {
        let message = take_one(rt, inbox, &mut self.hand)?;
        count_message(&mut self.counts, message.proxy());
        Ok(message)
    }

    /// Joins the pass of a proxy that sends no more to the worker's, and returns how many of its
    /// messages were taken and sent. What was taken of the proxy is a prefix of what it sent: the
    /// same messages, in its order, each once. `NotSender` for a sender to another resolver,
    /// which comes back.
    pub fn compare(
        &mut self,
        ended: EndedSender<N, C, M>,
    ) -> Result<Counts, (Refusal, EndedSender<N, C, M>)>
        ensures kept { self.new ≡ self.old }
        ensures resolver { IfOk result (λ counts. ended.resolver ≡ self.old.resolver) }
        ensures begins { IfOk result (λ counts. IsBeginning self.old ended) }
        ensures taken { IfOk result (λ counts.
            counts.taken ≡ counted (of_proxy ended.proxy self.old.got)) }
        ensures sent { IfOk result (λ counts. counts.sent ≡ counted ended.put) }
        ensures refused { IfErr result (λ refused. (ended.resolver ≢ self.old.resolver)
            × (refused.0 ≡ refusals.NotSender) × (refused.1 ≡ ended)) }
    {
        if ended.resolver() != self.resolver {
            return Err((Refusal::NotSender, ended));
        }
        let SenderEnd {
            proxy,
            post,
            hand,
            sent,
            ..
        } = ended;
        let taken = self.counts[proxy];
        join(&post, &mut self.hand, hand);
        Ok(Counts { taken, sent })
    }
}

/// Counts a message of the proxy, if there is such a proxy.
fn count_message(counts: &mut Vec<u64>, proxy: ProxyNumber)
    ensures counted { proxy < length counts.old.items → counts.new.items
        ≡ slice_set counts.old.items proxy
        (min (slice_index counts.old.items proxy + 1) (2 ^ 64 - 1)) }
    ensures other { length counts.old.items ≤ proxy → counts.new.items ≡ counts.old.items }
{
    if proxy < counts.len() {
        counts[proxy] = counts[proxy].saturating_add(1);
    }
}
