//! The worker's end of the inbox of one resolver.

ghost use Rattle.std.specs.Prelude.{◌≡◌, ◌∷◌, ◌++◌, [], IfOk, OnErr};
ghost use Rattle.crossbeam_channel.specs.Claims.{IsKeyed};
ghost use Rattle.crossbeam_channel.specs.Ends.{receives_on, ruled_capacity};
ghost use Rattle.inboxes.specs.Delivers.{inbox_limit};
ghost use Rattle.inboxes.specs.Ends.{WorkerPassView};
ghost use Rattle.inboxes.specs.Places.{place_at, place_of};

use crate::channels::Channels;
use crate::message::Message;
use crate::question::Question;
use crate::rule::Inbox;
use crate::worker_pass::WorkerPass;
use agreed_ledger::Naming;
use crossbeam_channel::RecvError;
use model::ResolverNumber;
use std::marker::Model;
use std::sync::Wait;

/// The worker's end of the inbox of one resolver, and the messages that it took, of all proxies.
#[derive(Drop)]
pub struct InboxEnd<N: Naming, C: Question, M: Channels> {
    inbox: Inbox<C>,
    pass: WorkerPass<N, C, M>,
}

impl<N: Naming, C: Question, M: Channels> Model for InboxEnd<N, C, M> {
    ghost use Rattle.std.specs.Prelude.{◌≡◌};
    ghost use Rattle.crossbeam_channel.specs.Claims.{IsKeyed};
    ghost use Rattle.crossbeam_channel.specs.Ends.{receives_on, ruled_capacity};
    ghost use Rattle.inboxes.specs.Delivers.{inbox_limit};
    ghost use Rattle.inboxes.specs.Ends.{WorkerPassView};
    ghost use Rattle.inboxes.specs.Places.{place_at, place_of};

    ghost Value = { WorkerPassView };

    ghost view = { λ e. e.pass };

    ghost invariant = { λ e. (place_of (receives_on e.inbox) ≡ place_at M.places e.pass.resolver)
        × IsKeyed (receives_on e.inbox)
        × (ruled_capacity (receives_on e.inbox) ≡ inbox_limit) };
}

impl<N: Naming, C: Question, M: Channels> InboxEnd<N, C, M> {
    /// The number of the resolver whose inbox it is.
    pub fn resolver(&self) -> ResolverNumber
        ensures { result ≡ self.now.resolver }
    {
        self.pass.resolver()
    }

    /// How many proxies there are, each with a sending end.
    pub fn proxies(&self) -> usize
        ensures { result ≡ N.cells.config.proxies }
    {
        self.pass.proxies()
    }

    /// Takes the message at the front of the inbox, and waits while there is none. Fails, and takes
    /// nothing, if no sending end is left (no clause says when it fails).
    pub fn take<R: Wait>(&mut self, rt: &R) -> Result<Message<C>, RecvError>
        ensures taken { IfOk result (λ message. self.new
            ≡ record self.old { got = self.old.got ++ message ∷ [] }) }
        ensures none { OnErr result (self.new ≡ self.old) }
    {
        self.pass.take_from(rt, &self.inbox)
    }

    /// The worker's pass alone. The receiving end is let go, so that later sends are refused.
    pub fn into_pass(self) -> WorkerPass<N, C, M>
        ensures { result ≡ self }
    {
        self.pass
    }
}

/// The worker's end of the inbox of one resolver, of which nothing was taken yet. Contracts see it
/// as the number of the resolver.
#[derive(Drop)]
pub struct FreshEnd<N: Naming, C: Question, M: Channels> {
    end: InboxEnd<N, C, M>,
}

impl<N: Naming, C: Question, M: Channels> Model for FreshEnd<N, C, M> {
    ghost use Rattle.std.specs.Prelude.{◌≡◌, ℕ, []};

    ghost Value = { ℕ };

    ghost view = { λ f. f.end.resolver };

    ghost invariant = { λ f. f.end.got ≡ [] };
}

impl<N: Naming, C: Question, M: Channels> FreshEnd<N, C, M> {
    /// The end of this inbox, by a pass that took nothing.
    pub(crate) fn new(inbox: Inbox<C>, pass: WorkerPass<N, C, M>) -> FreshEnd<N, C, M>
        requires place { place_of (receives_on inbox) ≡ place_at M.places pass.resolver }
        requires keyed { IsKeyed (receives_on inbox) }
        requires capacity { ruled_capacity (receives_on inbox) ≡ inbox_limit }
        requires empty { pass.got ≡ [] }
        ensures { result ≡ pass.resolver }
    {
        FreshEnd {
            end: InboxEnd { inbox, pass },
        }
    }

    /// The number of the resolver whose inbox it is.
    pub fn resolver(&self) -> ResolverNumber
        ensures { result ≡ self.now }
    {
        self.end.resolver()
    }

    /// How many proxies there are, each with a sending end.
    pub fn proxies(&self) -> usize
        ensures { result ≡ N.cells.config.proxies }
    {
        self.end.proxies()
    }

    /// The end that takes messages.
    pub fn into_end(self) -> InboxEnd<N, C, M>
        ensures { result ≡ record { resolver = self; got = [] } }
    {
        self.end
    }
}
