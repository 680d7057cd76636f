//! Asking resolvers one after another, by entering each.

ghost use Rattle.std.specs.Prelude.{◌≡◌, IfErr, IfOk, MatchResult};
ghost use Rattle.model.specs.Shares.{each_below};
ghost use Rattle.locked_resolvers.specs.Asking.{AreNotAll, IsAskRefusal};
ghost use Rattle.locked_resolvers.specs.NotedReplies.{IsReplyToRequest};
ghost use Rattle.locked_resolvers.specs.declared.refusal.Refusal.TheVariants as refusals;

use crate::asking::Asking;
use crate::noted_reply::NotedReply;
use crate::refusal::Refusal;
use crate::request::Request;
use crate::shared_resolver::SharedResolver;
use agreed_ledger::Naming;
use std::alloc::Global;
use std::sync::Wait;

/// All resolvers of a cluster, in order. They are asked one after another: each call enters the
/// resolver, waits its turn, and lets it go again.
#[derive(Drop)]
pub struct AllResolvers<'a, 'l, N: Naming> {
    resolvers: &'a [SharedResolver<'l, N>],
    ghost all: { resolvers.now ≡ each_below N.cells.config.resolvers },
}

impl<'a, 'l, N: Naming> AllResolvers<'a, 'l, N> {
    /// Takes all resolvers of the cluster in the order of their numbers. Fails with `WrongResolver`
    /// exactly if the list is another. Does not allocate.
    pub fn new(resolvers: &'a [SharedResolver<'l, N>]) -> Result<AllResolvers<'a, 'l, N>, Refusal>
        ensures { MatchResult result
            (λ _. resolvers.now ≡ each_below N.cells.config.resolvers)
            (λ refusal. (refusal ≡ refusals.WrongResolver)
            × AreNotAll N.cells.config resolvers.now) }
    {
        if resolvers.is_empty() {
            return Err(Refusal::WrongResolver);
        }
        let config = resolvers[0].ledger().config();
        let count = config.resolvers();
        if resolvers.len() != count {
            return Err(Refusal::WrongResolver);
        }
        for (number, resolver) in resolvers.iter().enumerate() {
            if resolver.number() != number {
                return Err(Refusal::WrongResolver);
            }
        }
        Ok(AllResolvers { resolvers })
    }

    /// Asks the resolver that the request names, and lets it go again.
    fn ask<R: Wait>(&self, rt: &R, request: &Request<N>) -> Result<NotedReply<N>, Refusal>
        ensures replied { IfOk result (λ noted. IsReplyToRequest request.now.plain noted.reply) }
        ensures refused { IfErr result (IsAskRefusal N.cells.config request.now) }
    {
        let copy = request.copy()?;
        // (its contract says that the cluster has the resolver)
        let resolver = request.plain().resolver();
        let Some(shared) = self.resolvers.get(resolver) else {
            unreachable!();
        };
        match shared.resolve(rt, copy) {
            Ok((noted, _guard)) => Ok(noted),
            Err(refused) => Err(refused.refusal),
        }
    }
}

impl<N: Naming> Asking<N> for AllResolvers<'_, '_, N> {
    ghost use Rattle.std.specs.Prelude.{None};

    ghost takes = { λ _. None };

    fn ask_all<R: Wait>(
        &self,
        rt: &R,
        alloc: Global,
        requests: &[Request<N>],
    ) -> Result<Vec<NotedReply<N>>, Refusal> {
        let Ok(mut replies) = Vec::with_capacity(alloc, requests.len()) else {
            return Err(Refusal::OutOfMemory);
        };
        for request in requests {
            replies.push_reserved(self.ask(rt, request)?);
        }
        Ok(replies)
    }
}
