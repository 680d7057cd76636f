//! The trait of a way to ask resolvers and to wait for their replies.

use crate::noted_reply::NotedReply;
use crate::refusal::Refusal;
use crate::request::Request;
use agreed_ledger::Naming;
use std::alloc::Global;
use std::sync::Wait;

/// A way to ask resolvers, and to wait for their replies.
pub trait Asking<N: Naming> {
    ghost use Rattle.std.specs.Prelude.{IfErr, IfOk, Option};
    ghost use Rattle.model.specs.Numbers.{ProxyNumber};
    ghost use Rattle.locked_resolvers.specs.Asking.{AreOfOneRecord, AreRepliesInOrder};
    ghost use Rattle.locked_resolvers.specs.Asking.{AreTaken, IsAskAllRefusal};

    // Whose requests it takes: those of one proxy alone, or, with `None`, those of every proxy.
    ghost takes: { Self → Option ProxyNumber };

    /// Asks each resolver its request, and returns the replies in the order of the requests. No call
    /// is promised to stop waiting.
    ///
    /// Fails with `NotMine`, and asks no resolver, exactly if one of the requests is of a proxy whose
    /// requests it does not take. Otherwise fails as the resolver that one of the requests names does,
    /// or with `OutOfMemory`. Then some resolvers may have been asked: asked again, they give the same
    /// replies.
    fn ask_all<R: Wait>(
        &self,
        rt: &R,
        alloc: Global,
        requests: &[Request<N>],
    ) -> Result<Vec<NotedReply<N>>, Refusal>
        requires { AreOfOneRecord requests.now }
        ensures taken { IfOk result (λ _. AreTaken (takes self.now) requests.now) }
        ensures replied { IfOk result (λ replies. AreRepliesInOrder requests.now replies.items) }
        ensures refused { IfErr result
            (IsAskAllRefusal N.cells.config (takes self.now) requests.now) };
}
