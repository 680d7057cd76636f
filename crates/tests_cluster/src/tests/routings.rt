//! Routings of proxies behind locks.

use crate::tests::starting::Cluster;
use agreed_ledger::Naming;
use locked_cluster::{Refusal, SharedProxy};
use model::{Route, Routing};
use std::sync::Wait;
use system_keys::Tag;
use testing::twice;

/// What a test compares of a routing: its version, whether the database is locked, how many routes
/// there are, and how many of them have the tag of the first server alone.
pub(crate) type Routed = Result<(u64, bool, usize, usize), Refusal>;

/// Whether the keys of the route have the tag of the first server alone.
fn is_first(route: &Route) -> bool {
    route.tags.as_slice() == [Tag { locality: 0, id: 1 }].as_slice()
}

fn routed(routing: &Routing) -> (u64, bool, usize, usize) {
    let routes = routing.routes.as_slice();
    let mut first = 0_usize;
    for route in routes {
        first = first.saturating_add(usize::from(is_first(route)));
    }
    (routing.version, routing.locked, routes.len(), first)
}

fn routed_once<N: Naming, R: AllocGlobal + Wait>(
    rt: &R,
    proxy: &SharedProxy<'_, N>,
    version: Option<u64>,
) -> Routed {
    let shown = proxy.lock(rt);
    let noted = match version {
        Some(version) => shown.routing_at(version)?,
        None => shown.routing()?,
    };
    Ok(routed(noted.value()))
}

/// The routing of a proxy at a version, or at its own.
pub(crate) fn routed_at<N: Naming, R: AllocGlobal + Wait>(
    rt: &R,
    cluster: &Cluster<'_, N>,
    proxy: usize,
    version: Option<u64>,
) -> Routed {
    let Some(proxy) = cluster.proxy(proxy) else {
        return Err(Refusal::NoSuchProxy);
    };
    twice!(rt.alloc(); routed_once(rt, proxy, version), Refusal::OutOfMemory)
}

fn text_once<N: Naming, R: AllocGlobal + Wait>(
    rt: &R,
    proxy: &SharedProxy<'_, N>,
    version: u64,
) -> Result<String, Refusal> {
    let noted = proxy.lock(rt).routing_at(version)?;
    let routing = noted.value();
    match format!(in rt.alloc(); "{routing:?}") {
        Ok(text) => Ok(text),
        Err(_) => Err(Refusal::OutOfMemory),
    }
}

/// The whole routing of a proxy at a version, as it is printed for debugging.
pub(crate) fn routing_text<N: Naming, R: AllocGlobal + Wait>(
    rt: &R,
    cluster: &Cluster<'_, N>,
    proxy: usize,
    version: u64,
) -> Result<String, Refusal> {
    let Some(proxy) = cluster.proxy(proxy) else {
        return Err(Refusal::NoSuchProxy);
    };
    twice!(rt.alloc(); text_once(rt, proxy, version), Refusal::OutOfMemory)
}
