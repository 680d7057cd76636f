//! The test of callers of what the project promises.

use crate::calling::committing::committed;
use crate::calling::stories::{Story, tell};
use crate::calling::values::{FIRST, TAG, has_rows};
use agreed_ledger::Naming;
use headline_uses::{
    has_reached, journal_of_other, judged_by_audit, metadata_at_one_version, records_of_answer,
    records_of_proxy, records_of_routing, resolver_to_wait_for, routing_of_history, sent_mutations,
    tags_by_proxy,
};
use locked_cluster::{BehindBy, NotedFinished, ProxyGuard, Refusal, ResolverGuard, SharedResolver};
use std::alloc::Global;
use std::process::Abort;
use std::sync::Wait;
use std::test::Fail;
use testing::batch;
use testing_cluster::{Cluster, blank};

/// The first proxy has committed the answer, the second has committed nothing.
fn look_at_two<N: Naming, R: Abort>(
    rt: &R,
    one: &ProxyGuard<'_, N>,
    other: &ProxyGuard<'_, N>,
    answer: &NotedFinished<N>,
) -> Result<(), Fail> {
    assert!(rt; metadata_at_one_version(one, other, answer).is_none());
    assert!(rt; journal_of_other(one, other).is_none());
    assert!(rt; has_reached(one, answer));
    assert!(rt; !has_reached(other, answer));
    assert!(rt; records_of_proxy(one, other, answer).end() == 1);
    assert!(rt; records_of_answer(one, other, answer).end() == 1);
    let sent = sent_mutations(one, other, answer);
    assert!(rt; sent.len() == 2);
    let tags = tags_by_proxy(one, other, answer, &sent[0].change)?;
    assert!(rt; tags.as_slice() == [TAG].as_slice());
    Ok(())
}

/// The first proxy shows its routing after the answer, the second has not come to its version.
fn look_at_routings<N: Naming, R: Abort>(
    rt: &R,
    one: &ProxyGuard<'_, N>,
    other: &ProxyGuard<'_, N>,
    answer: &NotedFinished<N>,
) -> Result<(), Fail> {
    let noted = routing_of_history(one, other, answer, 10)?;
    assert!(rt; noted.value().routes.as_slice().len() == 1);
    assert!(rt; records_of_routing(&noted).end() == 1);
    let early = routing_of_history(other, one, answer, 10).err();
    assert!(rt; early == Some(Refusal::NotReached { version: 0 }));
    Ok(())
}

/// Neither of the proxies has committed anything.
fn look_at_new<N: Naming, R: Abort>(
    rt: &R,
    one: &ProxyGuard<'_, N>,
    other: &ProxyGuard<'_, N>,
    answer: &NotedFinished<N>,
) {
    let shown = match metadata_at_one_version(one, other, answer) {
        Some((mine, theirs)) => Some((has_rows(mine), has_rows(theirs))),
        None => None,
    };
    assert!(rt; shown == Some(([false, false], [false, false])));
    let rows = match journal_of_other(one, other) {
        Some(rows) => Some(rows.len()),
        None => None,
    };
    assert!(rt; rows == Some(0));
}

/// The audits of the proxy find this one behind, or none.
fn look_at_audits<N: Naming, R: Abort>(
    rt: &R,
    proxy: &ProxyGuard<'_, N>,
    resolvers: &[ResolverGuard<'_, N>],
    behind: Option<BehindBy>,
) {
    assert!(rt; judged_by_audit(proxy, resolvers).err() == behind);
    let number = match behind {
        Some(behind) => Some(behind.resolver),
        None => None,
    };
    assert!(rt; resolver_to_wait_for(proxy, resolvers) == number);
}

/// Audits by the resolvers of the cluster, and with one of number 1 that was never asked.
fn audit_twice<N: Naming, R: Abort + Wait>(
    rt: &R,
    alloc: Global,
    cluster: &Cluster<'_, N>,
) -> Result<(), Fail> {
    let proxy = cluster.proxy(0)?.lock(rt);
    let first = cluster.resolver(0)?.lock(rt);
    let second = cluster.resolver(1)?.lock(rt);
    let new = SharedResolver::new(alloc, cluster.ledger, 1)?;
    look_at_audits(rt, &proxy, &[second], None);
    let behind = BehindBy {
        resolver: 1,
        version: 0,
    };
    look_at_audits(rt, &proxy, &[first, new.lock(rt)], Some(behind));
    Ok(())
}

/// Proxy 0 commits, and proxies 1 and 2 do not.
pub(crate) fn take_promises<N: Naming, R: Abort + Wait>(
    rt: &R,
    alloc: Global,
    cluster: &Cluster<'_, N>,
) -> Result<(), Fail> {
    let asking = cluster.asking()?;
    let answer = committed(rt, cluster, &asking, 0, batch(alloc, FIRST)?)?;
    let one = cluster.proxy(1)?.lock(rt);
    look_at_two(rt, &cluster.proxy(0)?.lock(rt), &one, &answer)?;
    look_at_routings(rt, &cluster.proxy(0)?.lock(rt), &one, &answer)?;
    look_at_new(rt, &one, &cluster.proxy(2)?.lock(rt), &answer);
    audit_twice(rt, alloc, cluster)
}

#[test]
fn callers_take_from_the_promise_what_they_need(rt: HostRuntime) -> Result<(), Fail> {
    let alloc = rt.alloc();
    tell(&rt, alloc, blank(alloc, 4, 3, 3)?, Story::Promising)
}
