//! Prepares the requests of one record, and waits for their answers.

ghost use Rattle.std.specs.Prelude.{◌≡◌, ◌≢◌, ◌≤◌, [], length, IfErr, IfOk, IfSome, MatchBool};
ghost use Rattle.std.specs.Prelude.{MatchOption, Some, vec_capacity};
ghost use Rattle.model.specs.Configs.{IsConfig};
ghost use Rattle.locked_resolvers.specs.Asking.{AreRepliesInOrder, AreTaken, IsAskRefusal};
ghost use Rattle.locked_resolvers.specs.Asking.{IsAskedRefusal, IsForeignAt};
ghost use Rattle.locked_resolvers.specs.NotedReplies.{IsReplyToRequest};
ghost use Rattle.workers.specs.Asking.{Gives};

use crate::pending_request::PendingRequest;
use crate::worker_answer::{RefusedRequest, WorkerAnswer};
use agreed_ledger::Naming;
use crossbeam_channel::{Receiver, bounded};
use locked_resolvers::{NotedReply, Refusal, Request};
use model::ProxyNumber;
use std::alloc::Global;
use std::sync::Wait;
use system_keys::OutOfMemory;

/// The place of a request of another proxy, if there is one.
pub(crate) fn place_of_foreign_request<N: Naming>(
    proxy: ProxyNumber,
    requests: &[Request<N>],
) -> Option<usize>
    ensures { MatchOption result
        (AreTaken (Some proxy) requests.now) (IsForeignAt (Some proxy) requests.now) }
{
    for (place, request) in requests.iter().enumerate() {
        if request.proxy() != proxy {
            return Some(place);
        }
    }
    None
}

/// Requests with the senders that their answers go to, the receivers that the answers come from, and
/// room for the replies.
#[derive(Drop)]
pub(crate) struct PreparedRequests<N: Naming> {
    pub(crate) messages: Vec<PendingRequest<N>>,
    pub(crate) waiting: Vec<Receiver<WorkerAnswer<N>>>,
    pub(crate) replies: Vec<NotedReply<N>>,
}

/// Makes all that asking needs: a copy of each request, a channel for its answer, and room for the
/// replies. Fails only with `OutOfMemory`.
pub(crate) fn prepare_requests<N: Naming>(
    alloc: Global,
    requests: &[Request<N>],
) -> Result<PreparedRequests<N>, OutOfMemory>
    ensures messages { IfOk result (λ made. made.messages.items ≡ requests.now) }
    ensures count { IfOk result (λ made. length made.waiting.items ≡ length requests.now) }
    ensures room { IfOk result (λ made. length requests.now ≤ vec_capacity made.replies) }
    ensures none { IfOk result (λ made. made.replies.items ≡ []) }
{
    let replies = Vec::with_capacity(alloc, requests.len())?;
    let mut messages = Vec::with_capacity(alloc, requests.len())?;
    let mut waiting = Vec::with_capacity(alloc, requests.len())?;
    for request in requests {
        let (answers, answered) = bounded(alloc, 1)?;
        messages.push(PendingRequest::new(request.copy()?, answers))?;
        waiting.push(answered)?;
    }
    Ok(PreparedRequests {
        messages,
        waiting,
        replies,
    })
}

/// Waits for the answer to each request, and returns the replies in the order of the requests, or the
/// first refusal. `replies` is the room for the replies.
pub(crate) fn await_replies<N: Naming, R: Wait>(
    rt: &R,
    requests: &[Request<N>],
    waiting: &Vec<Receiver<WorkerAnswer<N>>>,
    replies: Vec<NotedReply<N>>,
) -> Result<Vec<NotedReply<N>>, Refusal>
    requires limits { IsConfig N.cells.config }
    requires count { length waiting.now.items ≡ length requests.now }
    requires room { length requests.now ≤ vec_capacity replies }
    requires none { replies.items ≡ [] }
    ensures replied { IfOk result (λ replies. AreRepliesInOrder requests.now replies.items) }
    ensures refused { IfErr result (IsAskedRefusal N.cells.config requests.now) }
{
    let mut replies = replies;
    for place in 0..requests.len() {
        replies.push_reserved(await_reply(rt, &waiting[place], &requests[place])?);
    }
    Ok(replies)
}

/// Waits for the answer to a request, and returns what it gives. If none can come any more, since the
/// worker that had the request has ended, fails with `Closed`.
fn await_reply<N: Naming, R: Wait>(
    rt: &R,
    answers: &Receiver<WorkerAnswer<N>>,
    request: &Request<N>,
) -> Result<NotedReply<N>, Refusal>
    requires limits { IsConfig N.cells.config }
    ensures replied { IfOk result (λ noted. IsReplyToRequest request.now.plain noted.reply) }
    ensures refused { IfErr result (IsAskRefusal N.cells.config request.now) }
{
    // (its contract says that the cluster has the resolver)
    let _plain = request.plain();
    for _ in rt.forever() {
        let Ok(answer) = answers.recv(rt) else {
            return Err(Refusal::Closed);
        };
        if let Some(given) = result_for(answer, request) {
            return given;
        }
    }
    unreachable!()
}

/// Returns what the answer gives to the request: the reply, or why the request was refused. Nothing
/// if it is the answer to another request.
fn result_for<N: Naming>(
    answer: WorkerAnswer<N>,
    request: &Request<N>,
) -> Option<Result<NotedReply<N>, Refusal>>
    ensures given { Gives request.now.plain answer result }
    ensures kept { IfSome result (λ given. IfErr given (IsAskRefusal N.cells.config request.now)) }
{
    match answer {
        WorkerAnswer::Replied(noted) => {
            if is_reply_to(&noted, request) {
                Some(Ok(noted))
            } else {
                None
            }
        }
        WorkerAnswer::Refused(refused) => {
            let refusal = refusal_for(&refused, request)?;
            Some(Err(refusal))
        }
    }
}

/// Whether the reply is to this request.
fn is_reply_to<N: Naming>(noted: &NotedReply<N>, request: &Request<N>) -> bool
    ensures { MatchBool result (IsReplyToRequest request.now.plain noted.now.reply)
        (IsReplyToRequest request.now.plain noted.now.reply → ⊥) }
{
    let reply = noted.value();
    reply.resolver == request.resolver()
        && reply.proxy == request.proxy()
        && reply.row == request.row()
        && reply.version == request.version()
}

/// Why the request was refused, if it is the one that was.
fn refusal_for<N: Naming>(refused: &RefusedRequest<N>, request: &Request<N>) -> Option<Refusal>
    ensures given { MatchOption result (refused.now.request.plain ≢ request.now.plain)
        (λ refusal. (refused.now.request.plain ≡ request.now.plain)
        × (refusal ≡ refused.now.refusal)) }
    ensures kept { IfSome result (IsAskRefusal N.cells.config request.now) }
{
    if is_same_request(refused.request(), request) {
        Some(refused.refusal())
    } else {
        None
    }
}

/// Whether the two requests are the same.
fn is_same_request<N: Naming>(one: &Request<N>, other: &Request<N>) -> bool
    ensures { MatchBool result (one.now ≡ other.now) (one.now.plain ≢ other.now.plain) }
{
    one.records().agree(other.records());
    let (one, other) = (one.plain(), other.plain());
    if one.resolver() != other.resolver() {
        return false;
    }
    if one.row() != other.row() {
        return false;
    }
    one.last_received() == other.last_received()
}
