//! The phases of a commit, called by hand in steps of a plan.

use crate::tests::starting::Cluster;
use agreed_ledger::{Naming, Ticket};
use locked_cluster::{AllResolvers, Asking, Begun, NotedFinished, Ready, Refusal, SharedProxy};
use std::mem;
use std::sync::Wait;
use testing::is_memory_refused;

/// How far the commit of a record has come, with what its next phase is given.
#[derive(Drop)]
pub(crate) enum Phase<N: Naming> {
    Sequenced(Ticket<N>),
    Begun(Begun<N>),
    Ready(Ready<N>),
    Finished(NotedFinished<N>),
    Lost,
}

/// Why a phase was refused, if it was, and what comes next.
pub(crate) type Stepped<N> = (Option<Refusal>, Phase<N>);

fn begin<N: Naming, R: AllocGlobal + Wait>(
    rt: &R,
    proxy: &SharedProxy<'_, N>,
    ticket: Ticket<N>,
) -> Stepped<N> {
    match proxy.lock(rt).begin(ticket) {
        Ok(begun) => (None, Phase::Begun(begun)),
        Err((refusal, back)) => (Some(refusal), Phase::Sequenced(back)),
    }
}

fn resolve<N: Naming, A: Asking<N>, R: AllocGlobal + Wait>(
    rt: &R,
    asking: &A,
    proxy: &SharedProxy<'_, N>,
    begun: Begun<N>,
) -> Stepped<N> {
    match proxy.resolve_all(rt, asking, begun) {
        Ok(ready) => (None, Phase::Ready(ready)),
        Err((refusal, back)) => (Some(refusal), Phase::Begun(back)),
    }
}

/// Asks all resolvers in this way, if the record is begun.
pub(crate) fn resolve_begun<N: Naming, A: Asking<N>, R: AllocGlobal + Wait>(
    rt: &R,
    asking: &A,
    proxy: &SharedProxy<'_, N>,
    phase: Phase<N>,
) -> Stepped<N> {
    match phase {
        Phase::Begun(begun) => resolve(rt, asking, proxy, begun),
        other => (None, other),
    }
}

fn resolve_by_all<N: Naming, R: AllocGlobal + Wait>(
    rt: &R,
    cluster: &Cluster<'_, N>,
    proxy: &SharedProxy<'_, N>,
    begun: Begun<N>,
) -> Stepped<N> {
    match AllResolvers::new(cluster.resolvers()) {
        Ok(asking) => resolve(rt, &asking, proxy, begun),
        Err(refusal) => (Some(refusal), Phase::Begun(begun)),
    }
}

fn finish<N: Naming, R: AllocGlobal + Wait>(
    rt: &R,
    proxy: &SharedProxy<'_, N>,
    ready: Ready<N>,
) -> Stepped<N> {
    match proxy.lock(rt).finish(ready) {
        Ok(noted) => (None, Phase::Finished(noted)),
        Err((refusal, back)) => (Some(refusal), Phase::Ready(back)),
    }
}

/// Goes through the next phase by this proxy, once.
pub(crate) fn step_once<N: Naming, R: AllocGlobal + Wait>(
    rt: &R,
    cluster: &Cluster<'_, N>,
    proxy: &SharedProxy<'_, N>,
    phase: Phase<N>,
) -> Stepped<N> {
    match phase {
        Phase::Sequenced(ticket) => begin(rt, proxy, ticket),
        Phase::Begun(begun) => resolve_by_all(rt, cluster, proxy, begun),
        Phase::Ready(ready) => finish(rt, proxy, ready),
        other => (None, other),
    }
}

/// Goes through the next phase of what the slot holds by this proxy, and returns why that is refused,
/// if it is.
fn step<N: Naming, R: AllocGlobal + Wait>(
    rt: &R,
    cluster: &Cluster<'_, N>,
    proxy: &SharedProxy<'_, N>,
    slot: &mut Phase<N>,
) -> Option<Refusal> {
    let phase = mem::replace(slot, Phase::Lost);
    let (refusal, next) = step_once(rt, cluster, proxy, phase);
    *slot = next;
    refusal
}

/// A step: the row of a record, the proxy that is to go on with it, and why it is refused, if it is.
pub(crate) type Step = (usize, usize, Option<Refusal>);

/// Goes on with the record of the row by the proxy, once more after a failed allocation. Returns why
/// that is refused, if it is.
fn go<N: Naming, R: AllocGlobal + Wait>(
    rt: &R,
    cluster: &Cluster<'_, N>,
    rows: &mut Vec<Phase<N>>,
    row: usize,
    proxy: usize,
) -> Option<Refusal> {
    let (Some(proxy), Some(slot)) = (cluster.proxy(proxy), rows.get_mut(row)) else {
        return Some(Refusal::NoSuchProxy);
    };
    match step(rt, cluster, proxy, slot) {
        Some(Refusal::OutOfMemory) if is_memory_refused(rt.alloc()) => {
            step(rt, cluster, proxy, slot)
        }
        refusal => refusal,
    }
}

/// The place of the first step that is not answered as it is to be.
pub(crate) fn first_wrong_step<N: Naming, R: AllocGlobal + Wait>(
    rt: &R,
    cluster: &Cluster<'_, N>,
    rows: &mut Vec<Phase<N>>,
    story: &[Step],
) -> Option<usize> {
    for (place, (row, proxy, wanted)) in story.iter().enumerate() {
        if go(rt, cluster, rows, *row, *proxy) != *wanted {
            return Some(place);
        }
    }
    None
}

/// The answer for the record of the row, if it is finished.
pub(crate) fn answer<N: Naming>(rows: &[Phase<N>], row: usize) -> Option<&NotedFinished<N>> {
    match rows.get(row)? {
        Phase::Finished(noted) => Some(noted),
        _ => None,
    }
}
