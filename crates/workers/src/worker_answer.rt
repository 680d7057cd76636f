//! The answer to a request: a reply, or a refusal with the request.

ghost use Rattle.std.specs.Prelude.{◌≡◌};
ghost use Rattle.locked_resolvers.specs.Asking.{IsAskRefusal};
ghost use Rattle.locked_resolvers.specs.declared.refusal.Refusal.TheVariants as refusals;
ghost use Rattle.workers.specs.Refusing.{told_by};

use agreed_ledger::Naming;
use locked_resolvers::{NotedReply, Refusal, Request};
use std::marker::Model;

/// What a worker answers to a request, through a plain channel: the reply of its resolver, or why
/// there is none.
#[derive(Drop)]
pub(crate) enum WorkerAnswer<N: Naming> {
    /// The reply.
    Replied(NotedReply<N>),
    /// Why there is none.
    Refused(RefusedRequest<N>),
}

impl<N: Naming> WorkerAnswer<N> {
    /// The refusal, or `None` if it is a reply.
    pub(crate) fn refusal(&self) -> Option<Refusal>
        ensures { result ≡ told_by self.now }
    {
        match self {
            WorkerAnswer::Replied(_noted) => None,
            WorkerAnswer::Refused(refused) => Some(refused.refusal()),
        }
    }
}

/// Why a request got no reply, and the request.
///
/// By its type an allocation failed, or the resolver that the request names can refuse it so. (As
/// closed it can refuse any request.)
#[derive(Drop)]
pub(crate) struct RefusedRequest<N: Naming> {
    refusal: Refusal,
    request: Request<N>,
}

impl<N: Naming> Model for RefusedRequest<N> {
    ghost use Rattle.workers.specs.Answers.{RefusedRequestView};
    ghost use Rattle.locked_resolvers.specs.Asking.{IsAskRefusal};

    ghost Value = { RefusedRequestView };

    ghost view = { λ r. record { refusal = r.refusal; request = r.request } };

    ghost invariant = { λ r. IsAskRefusal N.cells.config r.request r.refusal };
}

impl<N: Naming> RefusedRequest<N> {
    /// The request was refused so.
    pub(crate) fn new(refusal: Refusal, request: Request<N>) -> RefusedRequest<N>
        requires { IsAskRefusal N.cells.config request refusal }
        ensures { result ≡ record { refusal = refusal; request = request } }
    {
        RefusedRequest { refusal, request }
    }

    /// The request was refused with `OutOfMemory`: an allocation failed.
    pub(crate) fn out_of_memory(request: Request<N>) -> RefusedRequest<N>
        ensures { result ≡ record { refusal = refusals.OutOfMemory; request = request } }
    {
        RefusedRequest {
            refusal: Refusal::OutOfMemory,
            request,
        }
    }

    /// Returns the refusal.
    pub(crate) fn refusal(&self) -> Refusal
        ensures value { result ≡ self.now.refusal }
        ensures kept { IsAskRefusal N.cells.config self.now.request self.now.refusal }
    {
        self.refusal
    }

    /// Returns the request that was refused.
    pub(crate) fn request(&self) -> &Request<N>
        ensures { result.now ≡ self.now.request }
    {
        &self.request
    }
}
