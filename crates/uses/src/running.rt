//! Carrying out events in a cluster without threads, and reading its proxies.

ghost use Rattle.std.specs.Prelude.{◌≡◌, ◌+◌, ◌*◌, ◌<◌, ◌≤◌, ◌++◌, map, slice_get, Some};
ghost use Rattle.std.specs.Prelude.{vec_capacity, vec_len, IfOk, IfSome, MatchOption, MatchResult};
ghost use Rattle.model.specs.Numbers.{RowNumber};
ghost use Rattle.model.specs.Configs.{IsConfig};
ghost use Rattle.model.specs.Records.{Record};
ghost use Rattle.model.specs.Serial.{IsSerial};
ghost use Rattle.model.specs.World.{initial_world, world_after, proxy_metadata};
ghost use Rattle.endings.specs.Work.{done_world};
ghost use Rattle.turn_world.specs.Events.{event_of};
ghost use Rattle.turn_world.specs.Steps.{HasCarriedOut, HasStopped};
ghost use Rattle.uses.specs.Running.{AreAtOneVersion, AreNotAtOneVersion};

use model::laws::{events_append_law, version_chain_law};
use model::{Config, ProxyNumber};
use proxy_state::Metadata;
use shared_cluster::{Answer, Event, Stopped, TurnRefusal, TurnWorld};
use std::alloc::Global;
use system_keys::OutOfMemory;

/// The metadata of a proxy after the events of a new cluster: the fold of the journal up to the
/// version of the proxy. None if the cluster has no such proxy. Fails only with `OutOfMemory`.
pub fn metadata_after(
    alloc: Global,
    config: &Config,
    events: &[Event],
    proxy: ProxyNumber,
) -> Result<Option<Metadata>, OutOfMemory>
    ensures { let given = map event_of events.now in
        let world = world_after config.now (initial_world config.now) given in
        IfOk result (λ found. MatchOption found (config.now.proxies ≤ proxy) (λ metadata.
        (proxy < config.now.proxies) × (metadata ≡ proxy_metadata config.now world proxy))) }
{
    let mut cluster = TurnWorld::new(alloc, config)?;
    let Ok(_answers) = cluster.run(alloc, events) else {
        return Err(OutOfMemory);
    };
    match cluster.proxy(proxy) {
        Some(proxy) => Ok(Some(proxy.metadata().copy()?)),
        None => Ok(None),
    }
}

/// The metadata of a proxy once the batches of these events, in a new cluster, are all finished: what is
/// left after the events is carried out. Whoever carries it out in another order gets the same. None if
/// the cluster has no such proxy. Fails only with `OutOfMemory`.
pub fn metadata_at_end(
    alloc: Global,
    config: &Config,
    events: &[Event],
    proxy: ProxyNumber,
) -> Result<Option<Metadata>, OutOfMemory>
    ensures { let given = map event_of events.now in
        let world = world_after config.now (initial_world config.now) given in
        let end = done_world config.now world in
        IfOk result (λ found. MatchOption found (config.now.proxies ≤ proxy) (λ metadata.
        (proxy < config.now.proxies) × (metadata ≡ proxy_metadata config.now end proxy))) }
{
    let mut cluster = TurnWorld::new(alloc, config)?;
    let Ok(_answers) = cluster.run(alloc, events) else {
        return Err(OutOfMemory);
    };
    let Ok(_rest) = cluster.finish_all(alloc) else {
        return Err(OutOfMemory);
    };
    match cluster.proxy(proxy) {
        Some(proxy) => Ok(Some(proxy.metadata().copy()?)),
        None => Ok(None),
    }
}

/// The metadata of two proxies at one version, which is the same. None if the cluster lacks one of
/// the proxies, or if their versions differ.
#[tactic(auto, using(crate::proofs::OneVersion::one_metadata))]
pub fn metadata_if_same_version(
    cluster: &TurnWorld,
    first: usize,
    second: usize,
) -> Option<(&Metadata, &Metadata)>
    ensures same { IfSome result (λ both. both.0.now ≡ both.1.now) }
    ensures shown { MatchOption result (AreNotAtOneVersion cluster.now first second)
        (λ both. AreAtOneVersion cluster.now first second both.0.now both.1.now) }
{
    let first = cluster.proxy(first)?;
    let second = cluster.proxy(second)?;
    if first.version() != second.version() {
        return None;
    }
    Some((first.metadata(), second.metadata()))
}

/// The numbers of a cluster, which are within their limits.
pub fn config_of_cluster(cluster: &TurnWorld) -> Config
    ensures value { result ≡ cluster.now.config }
    ensures limits { IsConfig result }
{
    *cluster.config()
}

/// The step of a cluster. Its versions are the multiples of this number: that of a row's record is the
/// row's number plus one, times it. The records obey the rule of commit.
pub fn step_of(cluster: &TurnWorld) -> u64
    ensures step { result ≡ cluster.now.config.step }
    ensures versions { (row : RowNumber) (rec : Record)
        → slice_get cluster.now.world.history row ≡ Some rec → rec.version ≡ (row + 1) * result }
    ensures serial { IsSerial cluster.now.config cluster.now.world.history }
{
    // (its contract is the law that the row gives the version)
    version_chain_law();
    cluster.config().step()
}

/// Carries out the events, and goes on once from where the run stopped, if it stopped. The results
/// of both runs are those of one.
///
/// If it stops again, or has no memory to go on, it returns what both runs have carried out.
pub fn run_and_resume_once(
    cluster: &mut TurnWorld,
    alloc: Global,
    events: &[Event],
) -> Result<Vec<Result<Answer, TurnRefusal>>, Stopped>
    ensures { MatchResult result
        (λ answers. HasCarriedOut cluster.old cluster.new (map event_of events.now) answers.items)
        (λ stopped. HasStopped cluster.old cluster.new (map event_of events.now) stopped) }
{
    // (its contract is the law that runs of events continue one another)
    events_append_law();
    let Stopped {
        carried_out,
        mut answers,
    } = match cluster.run(alloc, events) {
        Ok(answers) => return Ok(answers),
        Err(stopped) => stopped,
    };
    let (_, rest) = events.split_at(carried_out);
    let Ok(()) = answers.reserve(rest.len()) else {
        return Err(Stopped {
            carried_out,
            answers,
        });
    };
    match cluster.run(alloc, rest) {
        Ok(more) => Ok(append_answers(answers, more)),
        Err(stopped) => Err(Stopped {
            carried_out: carried_out + stopped.carried_out,
            answers: append_answers(answers, stopped.answers),
        }),
    }
}

/// The answers and then the further ones, for which there must be room.
fn append_answers(
    mut answers: Vec<Result<Answer, TurnRefusal>>,
    mut more: Vec<Result<Answer, TurnRefusal>>,
) -> Vec<Result<Answer, TurnRefusal>>
    requires { vec_len answers + vec_len more ≤ vec_capacity answers }
    ensures { result.items ≡ answers.items ++ more.items }
{
    let Ok(()) = answers.append(&mut more) else {
        unreachable!();
    };
    answers
}
