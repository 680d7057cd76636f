//! A cluster starts from nothing, two of its proxies commit, and the promise holds of their metadata.

ghost use Rattle.std.specs.Prelude.{◌≡◌, ◌<◌, ◌≤◌, IfErr, IfOk, OnOk};
ghost use Rattle.model.specs.Shares.{each_below};
ghost use Rattle.agreed_ledger.specs.declared.refusal.Refusal.TheVariants as ledgers;
ghost use Rattle.locked_resolvers.specs.declared.refusal.Refusal.TheVariants as clusters;
ghost use Rattle.locked_cluster.specs.Commits.{IsCommitted};
ghost use Rattle.uses.specs.Causes.{WasNotCommitted};
ghost use Rattle.uses.specs.Starting.{IsBadCount, IsGoodCount, KeepsPromise, ShowsPromise};
ghost use Rattle.uses.specs.Starting.{WasNotShown, WasNotShownBy};
ghost use Rattle.uses.specs.declared.refused.Refused.TheVariants.{ByCluster, ByLedger};

use crate::refused::Refused;
use agreed_ledger::{BlankLedger, Ledger, Naming, Sequencer};
use model::{Config, Finished};
use mutation::Batch;
use proxy_state::Metadata;
use shared_cluster::{
    AllResolvers, Asking, NotedFinished, ProxyGuard, Refusal, SharedProxy, SharedResolver,
    metadata_of_two,
};
use std::alloc::Global;
use std::marker::Brand;
use std::sync::Wait;
use system_keys::OutOfMemory;

/// What two proxies show right after each has committed a batch.
#[derive(Drop)]
pub struct Shown {
    /// The metadata of the first proxy.
    pub mine: Metadata,
    /// The metadata of the second proxy.
    pub theirs: Metadata,
    /// The batch that the first proxy finished.
    pub finished: Finished,
    /// The batch that the second proxy finished.
    pub next_finished: Finished,
}

/// Makes a cluster of these numbers, whose ledger has `rows` rows, and commits a batch on its first
/// proxy, number 0, and one on its second, number 1. Both then show their metadata, of which the promise
/// of this project holds.
///
/// Fails with `BadConfig` exactly if a ledger cannot have that number of rows. Otherwise, if there is no second
/// proxy, fails only with `NoSuchProxy` or `OutOfMemory`; and if there is one, only with `OutOfMemory`
/// or with a refusal of the commit of one of the batches.
pub fn whole_cluster_from_nothing<R: Wait>(
    rt: &R,
    alloc: Global,
    rows: usize,
    config: Config,
    batch: Batch,
    next_batch: Batch,
) -> Result<Shown, Refused>
    ensures promise { IfOk result (λ shown. KeepsPromise config batch next_batch
        shown.mine shown.theirs shown.finished shown.next_finished) }
    ensures rows { OnOk result (IsGoodCount rows) }
    ensures refused { IfErr result (WasNotShown rows config batch next_batch) }
    ensures bad { IfErr result (λ refused. refused ≡ ByLedger ledgers.BadConfig → IsBadCount rows) }
    ensures alone { IfErr result (λ refused.
        refused ≡ ByCluster clusters.NoSuchProxy → config.proxies ≤ 1) }
{
    let blank = Ledger::new(alloc, rows, config)?;
    in_cluster::<Brand, R>(rt, alloc, blank, batch, next_batch)
}

/// Names the cells of the ledger, makes the parts of the cluster, and commits.
fn in_cluster<N: Naming, R: Wait>(
    rt: &R,
    alloc: Global,
    blank: BlankLedger,
    batch: Batch,
    next_batch: Batch,
) -> Result<Shown, Refused>
    requires { blank ≡ N.cells }
    ensures promise { IfOk result (λ shown. KeepsPromise N.cells.config batch next_batch
        shown.mine shown.theirs shown.finished shown.next_finished) }
    ensures refused { IfErr result (WasNotShownBy N.cells batch next_batch) }
{
    let ledger = blank.named::<N>();
    let sequencer = Sequencer::new(alloc, &ledger)?;
    let resolvers = new_resolvers(alloc, &ledger)?;
    let asking = all_resolvers_of(&ledger, resolvers.as_slice());
    let one = SharedProxy::new(alloc, &ledger, 0)?;
    let other = SharedProxy::new(alloc, &ledger, 1)?;
    commit_on_both(rt, &sequencer, &asking, &one, &other, batch, next_batch)
}

/// Each resolver of the cluster before its first request, in the order of their numbers. Fails only
/// with `OutOfMemory`.
fn new_resolvers<'l, N: Naming>(
    alloc: Global,
    ledger: &'l Ledger<N>,
) -> Result<Vec<SharedResolver<'l, N>>, OutOfMemory>
    ensures { IfOk result (λ made. made.items ≡ each_below N.cells.config.resolvers) }
{
    let count = ledger.config().resolvers();
    let mut made = Vec::with_capacity(alloc, count)?;
    for number in 0..count {
        made.push(new_resolver(alloc, ledger, number)?)?;
    }
    Ok(made)
}

/// The resolver of this number before its first request. Fails only with `OutOfMemory`.
fn new_resolver<'l, N: Naming>(
    alloc: Global,
    ledger: &'l Ledger<N>,
    number: usize,
) -> Result<SharedResolver<'l, N>, OutOfMemory>
    requires { number < N.cells.config.resolvers }
    ensures { IfOk result (λ made. made ≡ number) }
{
    match SharedResolver::new(alloc, ledger, number) {
        Ok(made) => Ok(made),
        Err(Refusal::OutOfMemory) => Err(OutOfMemory),
        Err(_) => unreachable!(),
    }
}

/// Takes all resolvers of the cluster, which are never refused.
fn all_resolvers_of<'a, 'l, N: Naming>(
    ledger: &Ledger<N>,
    resolvers: &'a [SharedResolver<'l, N>],
) -> AllResolvers<'a, 'l, N>
    requires { resolvers.now ≡ each_below N.cells.config.resolvers }
{
    // (its contract says that the numbers of the cluster are within their limits)
    let _config = ledger.config();
    let Ok(asking) = AllResolvers::new(resolvers) else {
        unreachable!();
    };
    asking
}

/// Commits a batch on each of the first two proxies. Both stay locked until their metadata is shown.
fn commit_on_both<N: Naming, R: Wait, A: Asking<N>>(
    rt: &R,
    sequencer: &Sequencer<'_, N>,
    asking: &A,
    one: &SharedProxy<'_, N>,
    other: &SharedProxy<'_, N>,
    batch: Batch,
    next_batch: Batch,
) -> Result<Shown, Refused>
    requires one { one.now ≡ 0 }
    requires other { other.now ≡ 1 }
    requires there { 1 < N.cells.config.proxies }
    ensures promise { IfOk result (λ shown. KeepsPromise N.cells.config batch next_batch
        shown.mine shown.theirs shown.finished shown.next_finished) }
    ensures refused { IfErr result (WasNotShownBy N.cells batch next_batch) }
{
    let (answer, mine) = commit_batch(rt, one, sequencer, asking, batch)?;
    let (next_answer, theirs) = commit_batch(rt, other, sequencer, asking, next_batch)?;
    Ok(show_both(&mine, &theirs, &answer, &next_answer)?)
}

/// Commits a batch. What a failed commit returns is dropped.
fn commit_batch<'a, N: Naming, R: Wait, A: Asking<N>>(
    rt: &R,
    proxy: &'a SharedProxy<'_, N>,
    sequencer: &Sequencer<'_, N>,
    asking: &A,
    batch: Batch,
) -> Result<(NotedFinished<N>, ProxyGuard<'a, N>), Refused>
    ensures committed { IfOk result (λ made. IsCommitted proxy.now batch made.0 made.1) }
    ensures refused { IfErr result (WasNotCommitted N.cells proxy.now batch) }
{
    match proxy.commit(rt, sequencer, asking, batch) {
        Ok(made) => Ok(made),
        Err(fault) => Err(Refused::by(&fault)),
    }
}

/// Copies of what two proxies and their answers show. Fails only with `OutOfMemory`.
fn show_both<N: Naming>(
    one: &ProxyGuard<'_, N>,
    other: &ProxyGuard<'_, N>,
    answer: &NotedFinished<N>,
    next_answer: &NotedFinished<N>,
) -> Result<Shown, OutOfMemory>
    ensures { IfOk result (λ shown. ShowsPromise N.cells.config one.now other.now
        answer.now next_answer.now
        shown.mine shown.theirs shown.finished shown.next_finished) }
{
    let (mine, theirs) = metadata_of_two(one, other, answer);
    let (_mine, _theirs) = metadata_of_two(one, other, next_answer);
    Ok(Shown {
        mine: mine.copy()?,
        theirs: theirs.copy()?,
        finished: answer.value().copy()?,
        next_finished: next_answer.value().copy()?,
    })
}
