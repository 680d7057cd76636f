//! What a resolver keeps of one proxy.

ghost use Rattle.std.specs.Prelude.{◌≡◌, ◌<◌, [], None, Some, MatchOption, OnOk};
ghost use Rattle.std.specs.VecDeque.{deque_len, deque_capacity};
ghost use Rattle.system_keys.specs.AsSpecified.{IsAsSpecified};
ghost use Rattle.model.specs.Offers.{reply_at};
ghost use Rattle.model.specs.ResolverMemory.{course_again, proxy_after, reached_by_all};
ghost use Rattle.state_memory.specs.Answers.{fault_of, course_of};
ghost use Rattle.state_memory.specs.Kept.{kept_of, all_kept, replies_above, is_first_reply_up_to};
ghost use Rattle.state_memory.specs.Order.{RepliesIncrease};

use crate::answer::Decision;
use crate::refusal::Refusal;
use model::{Reply, Version};
use request_builder::Request;
use std::alloc::{AllocError, Global};
use std::collections::VecDeque;
use system_keys::OutOfMemory;

/// What a resolver keeps of one proxy.
#[derive(Debug, Drop)]
pub(crate) struct ProxyMemory {
    /// The version of its last request.
    pub(crate) last: Version,
    /// The version that it has acknowledged.
    pub(crate) acknowledged: Version,
    /// The replies above that version, in the order of their versions.
    pub(crate) replies: VecDeque<Reply>,
}

impl ProxyMemory {
    /// What is kept of a proxy without requests. Allocates nothing.
    pub(crate) fn new(alloc: Global) -> ProxyMemory
        ensures { kept_of result ≡ record { last = 0; acknowledged = 0; replies = [] } }
    {
        ProxyMemory {
            last: 0,
            acknowledged: 0,
            replies: VecDeque::new(alloc),
        }
    }

    /// What the resolver, which has reached version `last`, does with a repeat of this version.
    pub(crate) fn decide_repeat(&self, version: Version, last: Version) -> Result<Decision, Refusal>
        requires { RepliesIncrease self.now.replies.items }
        ensures { let kept = reply_at version (kept_of self.now).replies in
            IsAsSpecified fault_of course_of result
            (course_again kept version self.now.acknowledged last) }
    {
        if let Some(reply) = self.reply_at(version) {
            return Ok(Decision::GiveAgain(reply.copy()?));
        }
        if version <= self.acknowledged {
            return Err(Refusal::GivenUp {
                acknowledged: self.acknowledged,
            });
        }
        Err(Refusal::OutsideChain { version: last })
    }

    /// The kept reply of this version, or None if there is none. Searches the replies by halving,
    /// since they are in the order of their versions. Does not allocate.
    pub(crate) fn reply_at(&self, version: Version) -> Option<&Reply>
        requires { RepliesIncrease self.now.replies.items }
        ensures { let kept = reply_at version self.now.replies.items in
            MatchOption result (kept ≡ None) (λ reply. kept ≡ Some reply.now) }
    {
        let place = self
            .replies
            .partition_point(|reply| reply.version < version);
        let Some(reply) = self.replies.get(place) else {
            return None;
        };
        if reply.version == version {
            Some(reply)
        } else {
            None
        }
    }

    /// Makes room for one more reply.
    pub(crate) fn reserve(&mut self) -> Result<(), OutOfMemory>
        ensures same { kept_of self.new ≡ kept_of self.old }
        ensures room { OnOk result
            (deque_len self.new.replies < deque_capacity self.new.replies) }
    {
        self.replies.reserve(1)?;
        Ok(())
    }

    /// Keeps that the request was judged, and this reply to it. There must be room for one
    /// more reply. Allocates nothing.
    pub(crate) fn keep_reply(&mut self, request: &Request, reply: Reply)
        requires room { deque_len self.old.replies < deque_capacity self.old.replies }
        requires order { RepliesIncrease self.old.replies.items }
        ensures { kept_of self.new ≡ proxy_after (kept_of self.old) request.now reply }
    {
        self.last = request.version();
        self.acknowledged = self.acknowledged.max(request.last_received());
        forget_replies(&mut self.replies, self.acknowledged);
        self.replies.push_back_reserved(reply);
    }
}

impl Clone for ProxyMemory {
    ghost is_clone = { λ one copy. kept_of copy ≡ kept_of one };

    fn clone(&self) -> Result<ProxyMemory, AllocError> {
        Ok(ProxyMemory {
            last: self.last,
            acknowledged: self.acknowledged,
            replies: self.replies.clone()?,
        })
    }
}

/// Forgets the replies at or below the version. Allocates nothing.
fn forget_replies(replies: &mut VecDeque<Reply>, version: Version)
    requires { RepliesIncrease replies.old.items }
    ensures items { replies.new.items ≡ replies_above version replies.old.items }
    ensures room { deque_len replies.old < deque_capacity replies.old
        → deque_len replies.new < deque_capacity replies.new }
{
    while is_first_reply_up_to(replies, version) {
        replies.pop_front();
    }
}

/// Whether the first reply is at or below the version.
fn is_first_reply_up_to(replies: &VecDeque<Reply>, version: Version) -> bool
    ensures { result ≡ is_first_reply_up_to version replies.now.items }
{
    match replies.front() {
        Some(reply) => reply.version <= version,
        None => false,
    }
}

/// The version that every proxy has reached with its requests, or 0 if there is no proxy.
pub(crate) fn reached_by_all(proxies: &[ProxyMemory]) -> Version
    ensures { result ≡ reached_by_all (all_kept proxies.now) }
{
    let Some(first) = proxies.first() else {
        return 0;
    };
    let mut least = first.last;
    for one in proxies {
        least = least.min(one.last);
    }
    least
}
