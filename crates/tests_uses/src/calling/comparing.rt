//! The test of a caller that compares two proxies.

use crate::calling::committing::committed;
use crate::calling::stories::{Story, tell};
use crate::calling::values::{FIRST, SECOND};
use agreed_ledger::Naming;
use locked_cluster::{NotedFinished, NotedRouting, Refusal};
use std::alloc::Global;
use std::process::Abort;
use std::sync::Wait;
use std::test::Fail;
use testing::batch;
use testing_cluster::{Cluster, blank};
use uses::routings_of_two;

/// The version of a routing, and how many routes there are.
type Routed = (u64, usize);

fn routed<N: Naming>(noted: &NotedRouting<N>) -> Routed {
    let routing = noted.value();
    (routing.version, routing.routes.as_slice().len())
}

/// What proxies 0 and 1 show at the version.
fn routed_at<N: Naming, R: Wait>(
    rt: &R,
    cluster: &Cluster<'_, N>,
    answer: &NotedFinished<N>,
    version: u64,
) -> Result<(Routed, Routed), Refusal> {
    let (Ok(one), Ok(other)) = (cluster.proxy(0), cluster.proxy(1)) else {
        return Err(Refusal::NoSuchProxy);
    };
    let (mine, theirs) = routings_of_two(&one.lock(rt), &other.lock(rt), answer, version)?;
    Ok((routed(&mine), routed(&theirs)))
}

/// Two proxies commit. Both show one routing at the version of the first, which is as far as the first
/// has come.
pub(crate) fn compare_routings<N: Naming, R: Abort + Wait>(
    rt: &R,
    alloc: Global,
    cluster: &Cluster<'_, N>,
) -> Result<(), Fail> {
    let asking = cluster.asking()?;
    let _first = committed(rt, cluster, &asking, 0, batch(alloc, FIRST)?)?;
    let answer = committed(rt, cluster, &asking, 1, batch(alloc, SECOND)?)?;
    assert!(rt; routed_at(rt, cluster, &answer, 10) == Ok(((10, 1), (10, 1))));
    assert!(rt; routed_at(rt, cluster, &answer, 0) == Ok(((0, 0), (0, 0))));
    let beyond = Refusal::NotReached { version: 10 };
    assert!(rt; routed_at(rt, cluster, &answer, 20) == Err(beyond));
    Ok(())
}

#[test]
fn two_proxies_show_one_routing_at_a_version_that_both_have_reached(
    rt: HostRuntime,
) -> Result<(), Fail> {
    let alloc = rt.alloc();
    tell(&rt, alloc, blank(alloc, 4, 3, 3)?, Story::Comparing)
}
