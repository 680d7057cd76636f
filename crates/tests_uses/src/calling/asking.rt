//! The test of callers that ask resolvers.

use crate::calling::stories::{Story, tell};
use crate::calling::values::WRITE;
use agreed_ledger::Naming;
use locked_cluster::{AllResolvers, Asking, Begun, NotedReply, Refusal, Request};
use std::alloc::Global;
use std::process::Abort;
use std::sync::Wait;
use std::sync::atomic::{AtomicU64, Ordering};
use std::test::Fail;
use testing_cluster::{Cluster, begin_batch, blank};
use uses::{ask_each, offer_and_look, offer_twice, resolve_and_look, resolve_with_one_retry};

/// Asks all resolvers, but fails the first time as if an allocation had failed.
#[derive(Drop)]
pub(crate) struct SecondTime<'a, 'l, N: Naming> {
    resolvers: &'a AllResolvers<'a, 'l, N>,
    asked: AtomicU64,
}

impl<'a, 'l, N: Naming> SecondTime<'a, 'l, N> {
    pub(crate) fn new(resolvers: &'a AllResolvers<'a, 'l, N>) -> SecondTime<'a, 'l, N> {
        SecondTime {
            resolvers,
            asked: AtomicU64::new(0),
        }
    }
}

impl<N: Naming> Asking<N> for SecondTime<'_, '_, N> {
    ghost use Rattle.std.specs.Prelude.{None};

    ghost takes = { λ _. None };

    fn ask_all<R: Wait>(
        &self,
        rt: &R,
        alloc: Global,
        requests: &[Request<N>],
    ) -> Result<Vec<NotedReply<N>>, Refusal> {
        if self.asked.fetch_add(1, Ordering::SeqCst) == 0 {
            return Err(Refusal::OutOfMemory);
        }
        self.resolvers.ask_all(rt, alloc, requests)
    }
}

/// A copy of the request for the record to the resolver of this number.
fn request<N: Naming>(begun: &Begun<N>, resolver: usize) -> Result<Request<N>, Refusal> {
    match begun.requests().get(resolver) {
        Some(request) => Ok(request.copy()?),
        None => Err(Refusal::WrongResolver),
    }
}

/// The resolver and the version of a reply, and how many verdicts it has.
type Told = (usize, u64, usize);

fn told<N: Naming>(noted: &NotedReply<N>) -> Told {
    let reply = noted.value();
    (
        reply.resolver,
        reply.version,
        reply.verdicts.as_slice().len(),
    )
}

/// The replies of three resolvers, if there are as many.
fn told_by_three<N: Naming>(replies: &[NotedReply<N>]) -> Option<[Told; 3]> {
    match replies {
        [first, second, third] => Some([told(first), told(second), told(third)]),
        _ => None,
    }
}

/// The replies of the first `count` resolvers, asked at once.
fn ask<N: Naming, R: Wait>(
    rt: &R,
    alloc: Global,
    cluster: &Cluster<'_, N>,
    count: usize,
    begun: &Begun<N>,
) -> Result<Option<[Told; 3]>, Refusal> {
    let resolvers = cluster.resolvers.as_slice();
    let count = count.min(resolvers.len());
    let replies = ask_each(rt, alloc, &resolvers[..count], begun)?;
    Ok(told_by_three(replies.as_slice()))
}

/// The row that all resolvers have replied to, asked again after a failure.
fn ask_again<N: Naming, R: Wait>(
    rt: &R,
    cluster: &Cluster<'_, N>,
    begun: Begun<N>,
) -> Result<usize, Refusal> {
    let asking = cluster.asking()?;
    let failing = SecondTime::new(&asking);
    match resolve_with_one_retry(rt, cluster.proxy(0)?, &failing, begun) {
        Ok(ready) => Ok(ready.row()),
        Err((refusal, _begun)) => Err(refusal),
    }
}

/// Resolver 0 replies, and shows this version.
fn resolve<N: Naming, R: Wait>(
    rt: &R,
    cluster: &Cluster<'_, N>,
    begun: &Begun<N>,
) -> Result<(Told, u64), Refusal> {
    match resolve_and_look(rt, cluster.resolver(0)?, request(begun, 0)?) {
        Ok((noted, guard)) => Ok((told(&noted), guard.version())),
        Err(refused) => Err(refused.refusal),
    }
}

/// Resolver 1 replies.
fn offer<N: Naming, R: Wait>(
    rt: &R,
    cluster: &Cluster<'_, N>,
    begun: &Begun<N>,
) -> Result<Told, Refusal> {
    let request = request(begun, 1)?;
    match offer_and_look(&mut cluster.resolver(1)?.lock(rt), request) {
        Ok(noted) => Ok(told(&noted)),
        Err(refused) => Err(refused.refusal),
    }
}

/// Resolver 2 replies twice.
fn offer_again<N: Naming, R: Wait>(
    rt: &R,
    cluster: &Cluster<'_, N>,
    begun: &Begun<N>,
) -> Result<(Told, Told), Refusal> {
    let request = request(begun, 2)?;
    let both = offer_twice(&mut cluster.resolver(2)?.lock(rt), request)?;
    Ok((told(&both.0), told(&both.1)))
}

/// Three resolvers are asked for row 0 at once, and again; and then each for row 1 in a way of its own.
pub(crate) fn ask_in_each_way<N: Naming, R: Abort + Wait>(
    rt: &R,
    alloc: Global,
    cluster: &Cluster<'_, N>,
) -> Result<(), Fail> {
    let first = begin_batch(rt, alloc, cluster, 0, WRITE)?;
    let second = begin_batch(rt, alloc, cluster, 0, WRITE)?;
    assert!(rt; ask(rt, alloc, cluster, 2, &first) == Err(Refusal::WrongResolver));
    let wanted = [(0, 10, 1), (1, 10, 0), (2, 10, 0)];
    assert!(rt; ask(rt, alloc, cluster, 3, &first) == Ok(Some(wanted)));
    assert!(rt; ask_again(rt, cluster, first) == Ok(0));
    assert!(rt; resolve(rt, cluster, &second) == Ok(((0, 20, 1), 20)));
    assert!(rt; offer(rt, cluster, &second) == Ok((1, 20, 0)));
    assert!(rt; offer_again(rt, cluster, &second) == Ok(((2, 20, 0), (2, 20, 0))));
    Ok(())
}

#[test]
fn three_resolvers_are_asked_in_each_way(rt: HostRuntime) -> Result<(), Fail> {
    let alloc = rt.alloc();
    tell(&rt, alloc, blank(alloc, 2, 1, 3)?, Story::Asking)
}
