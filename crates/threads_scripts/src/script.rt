//! Threads scripts: the moves and the batches of a cluster whose proxies are threads, and keys whose
//! tags are asked.

ghost use Rattle.std.specs.Prelude.{◌≡◌, IfOk};

use cluster_scripts::GivenMove;
use model::{Config, ResolverNumber};
use mutation::{Batch, Transaction};
use scripts::copy_keys;
use std::alloc::Global;
use system_keys::{Bytes, Items, KeyRange, OutOfMemory};

/// A threads script: the numbers of a cluster, its moves, the batches of its proxies, and the keys
/// whose tags are asked (this project's profile).
#[derive(Debug, Drop)]
pub struct ThreadsScript {
    /// How many proxies and resolvers there are, the window and the step.
    pub config: Config,
    /// How many rows the ledger has: from 1 to 4,096.
    pub rows: usize,
    /// The moves, in order. They are carried out before the proxies start.
    pub moves: Items<UndatedMove>,
    /// For each proxy its batches, in order.
    pub work: Items<Items<Batch>>,
    /// The keys whose tags are printed of each proxy: any bytes.
    pub ask: Items<Bytes>,
}

impl ThreadsScript {
    /// Returns an equal copy. Fails only with `OutOfMemory`.
    pub fn copy(&self) -> Result<ThreadsScript, OutOfMemory>
        ensures { IfOk result (λ copy. copy ≡ self.now) }
    {
        let ask = copy_keys(&self.ask)?;
        let moves = copy_moves(*ask.allocator(), self.moves.as_slice())?;
        let work = copy_work(*ask.allocator(), self.work.as_slice())?;
        Ok(ThreadsScript {
            config: self.config.copy()?,
            rows: self.rows,
            moves,
            work,
            ask: Items::from(ask),
        })
    }
}

/// A move that the sequencer has not given its date yet.
#[derive(Clone, Debug, Drop)]
pub struct UndatedMove {
    /// The range.
    pub range: KeyRange,
    /// The number of the resolver that it moves to.
    pub dest: ResolverNumber,
}

impl UndatedMove {
    /// Returns an equal copy. Fails only with `OutOfMemory`.
    pub fn copy(&self) -> Result<UndatedMove, OutOfMemory>
        ensures { IfOk result (λ copy. copy ≡ self.now) }
    {
        Ok(self.clone()?)
    }
}

/// A threads script as it is written, before its keys, values and ranges are checked.
#[derive(Drop)]
pub(crate) struct RawThreads {
    /// The numbers of the cluster, within their limits.
    pub(crate) config: Config,
    /// How many rows the ledger has.
    pub(crate) rows: usize,
    /// The moves.
    pub(crate) moves: Items<GivenMove>,
    /// For each proxy the transactions of its batches.
    pub(crate) work: Items<Items<Items<Transaction>>>,
    /// The keys whose tags are asked.
    pub(crate) ask: Items<Bytes>,
}

/// A copy of the moves.
fn copy_moves(alloc: Global, moves: &[UndatedMove]) -> Result<Items<UndatedMove>, OutOfMemory>
    ensures { IfOk result (λ copy. copy ≡ moves.now) }
{
    let mut copies = Vec::with_capacity(alloc, moves.len())?;
    for undated in moves {
        copies.push(undated.copy()?)?;
    }
    Ok(Items::from(copies))
}

/// A copy of the batches of all proxies.
fn copy_work(alloc: Global, work: &[Items<Batch>]) -> Result<Items<Items<Batch>>, OutOfMemory>
    ensures { IfOk result (λ copy. copy ≡ work.now) }
{
    let mut copies = Vec::with_capacity(alloc, work.len())?;
    for batches in work {
        copies.push(copy_batches(alloc, batches.as_slice())?)?;
    }
    Ok(Items::from(copies))
}

/// A copy of the batches of one proxy.
fn copy_batches(alloc: Global, batches: &[Batch]) -> Result<Items<Batch>, OutOfMemory>
    ensures { IfOk result (λ copy. copy ≡ batches.now) }
{
    let mut copies = Vec::with_capacity(alloc, batches.len())?;
    for batch in batches {
        copies.push(batch.copy()?)?;
    }
    Ok(Items::from(copies))
}
