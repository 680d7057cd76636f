//! The test of callers of a cluster without threads.

use crate::calling::values::{FIRST, has_rows};
use model::Config;
use std::alloc::Global;
use std::test::Fail;
use testing::{batch, room};
use turn_world::{Answer, Event, Refusal, TurnWorld};
use uses::{
    config_of_cluster, metadata_after, metadata_if_same_version, run_and_resume_once, step_of,
};

/// A batch of proxy 0 gets row 0, both resolvers judge it, and the proxy finishes it.
fn events(alloc: Global) -> Result<Vec<Event>, Fail> {
    let mut events = room(alloc, 4)?;
    let batch = batch(alloc, FIRST)?;
    events.push(Event::Sequence { proxy: 0, batch })?;
    events.push(Event::Offer {
        row: 0,
        resolver: 0,
    })?;
    events.push(Event::Offer {
        row: 0,
        resolver: 1,
    })?;
    events.push(Event::Finish { proxy: 0 })?;
    Ok(events)
}

/// Carries out the events: how many are answered, and the version of the batch that the last one
/// finishes.
fn run(
    alloc: Global,
    cluster: &mut TurnWorld,
    events: &[Event],
) -> Result<(usize, Option<u64>), usize> {
    match run_and_resume_once(cluster, alloc, events) {
        Ok(answers) => Ok((answers.len(), last_version(answers.as_slice()))),
        Err(stopped) => Err(stopped.carried_out),
    }
}

fn last_version(answers: &[Result<Answer, Refusal>]) -> Option<u64> {
    match answers.last()? {
        Ok(Answer::Finished(finished)) => Some(finished.version),
        _ => None,
    }
}

/// The rows that two proxies have, if they are at one version.
fn rows_at_one_version(cluster: &TurnWorld) -> Option<([bool; 2], [bool; 2])> {
    let (zero, one) = metadata_if_same_version(cluster, 0, 1)?;
    Some((has_rows(zero), has_rows(one)))
}

/// The rows that the proxy has after the events, if there is such a proxy.
fn rows_after(
    alloc: Global,
    config: &Config,
    events: &[Event],
    proxy: usize,
) -> Result<Option<[bool; 2]>, Fail> {
    match metadata_after(alloc, config, events, proxy)? {
        Some(metadata) => Ok(Some(has_rows(&metadata))),
        None => Ok(None),
    }
}

#[test]
fn a_cluster_is_run_by_events_and_read(rt: HostRuntime) -> Result<(), Fail> {
    let alloc = rt.alloc();
    let config = Config::new(2, 2, 1000, 10)?;
    let events = events(alloc)?;
    let mut cluster = TurnWorld::new(alloc, &config)?;
    assert!(rt; (config_of_cluster(&cluster) == config, step_of(&cluster)) == (true, 10));
    assert!(rt; rows_at_one_version(&cluster) == Some(([false; 2], [false; 2])));
    assert!(rt; run(alloc, &mut cluster, events.as_slice()) == Ok((4, Some(10))));
    assert!(rt; rows_at_one_version(&cluster).is_none());
    assert!(rt; metadata_if_same_version(&cluster, 0, 2).is_none());
    let (zero, one) = (Some([true, false]), Some([false, false]));
    assert!(rt; rows_after(alloc, &config, events.as_slice(), 0)? == zero);
    assert!(rt; rows_after(alloc, &config, events.as_slice(), 1)? == one);
    assert!(rt; rows_after(alloc, &config, events.as_slice(), 2)?.is_none());
    Ok(())
}
