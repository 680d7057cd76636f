//! Finishing a proxy's earliest record by the replies that the resolvers keep.

ghost use Rattle.std.specs.Prelude.{◌≡◌, length, slice_get, IfOk, OnErr};
ghost use Rattle.turn_world.specs.Parts.{kept_replies_at, missing_of};
ghost use Rattle.turn_world.specs.Parts.{AreAllKept, MayFinishAt, IsFinishedAt};

use model::{Config, Finished, ProxyNumber, RowNumber, Version};
use proxy_state::{Proxy, Refusal, Replies};
use state_memory::Resolver;
use std::alloc::Global;
use system_keys::OutOfMemory;

/// The first resolver that has not judged the row, by how many rows each has judged.
pub(crate) fn first_not_judged(judged_counts: &[usize], row: RowNumber) -> Option<usize>
    ensures { result ≡ slice_get (missing_of row judged_counts.now) 0 }
{
    for resolver in 0..judged_counts.len() {
        if judged_counts[resolver] <= row {
            return Some(resolver);
        }
    }
    None
}

/// Copies of the replies that the resolvers keep for the proxy at the version, each in the place of
/// its resolver. Each resolver must keep one that names it.
pub(crate) fn kept_replies_at(
    alloc: Global,
    config: &Config,
    resolvers: &[Resolver],
    proxy: ProxyNumber,
    version: Version,
) -> Result<Replies, OutOfMemory>
    requires count { length resolvers.now ≡ config.now.resolvers }
    requires kept { AreAllKept resolvers.now proxy version }
    ensures { IfOk result (λ replies. replies ≡ kept_replies_at resolvers.now proxy version) }
{
    let mut replies = Replies::new(alloc, config)?;
    for resolver in resolvers {
        let Some(reply) = resolver.kept_reply(proxy, version) else {
            unreachable!();
        };
        let Ok(()) = replies.put(reply.copy()?) else {
            unreachable!();
        };
    }
    Ok(replies)
}

/// Lets the proxy finish its earliest record by the replies. The other proxies are left as they are.
#[tactic(auto, using(proxy_state::proofs::RefusedCalls::wants_memory))]
pub(crate) fn finish_at(
    proxies: &mut Vec<Proxy>,
    proxy: ProxyNumber,
    replies: Replies,
) -> Result<Finished, OutOfMemory>
    requires { MayFinishAt proxies.old.items proxy replies }
    ensures finished { IfOk result (λ finished.
        IsFinishedAt proxies.old.items proxy replies finished proxies.new.items) }
    ensures err { OnErr result (proxies.new.items ≡ proxies.old.items) }
{
    match proxies[proxy].finish(replies) {
        Ok(finished) => Ok(finished),
        Err((refusal, _)) => {
            let Refusal::OutOfMemory = refusal else {
                unreachable!();
            };
            Err(OutOfMemory)
        }
    }
}
