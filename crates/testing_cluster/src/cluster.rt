//! A ledger, resolvers and proxies behind locks, as tests start from.

use agreed_ledger::{BlankLedger, Ledger, Naming, Sequencer};
use locked_cluster::{AllResolvers, Refusal, SharedProxy, SharedResolver};
use model::Config;
use std::alloc::Global;
use std::test::Fail;
use testing::room;

/// A ledger of `rows` rows for the given proxies and resolvers. The window is 1000 versions, and each
/// row takes ten.
pub fn blank(
    alloc: Global,
    rows: usize,
    proxies: usize,
    resolvers: usize,
) -> Result<BlankLedger, Fail> {
    let config = Config::new(proxies, resolvers, 1000, 10)?;
    Ok(Ledger::new(alloc, rows, config)?)
}

/// The parts of a cluster: the sequencer, all proxies and all resolvers.
#[derive(Drop)]
pub struct Cluster<'l, N: Naming> {
    /// The ledger.
    pub ledger: &'l Ledger<N>,
    /// The sequencer.
    pub sequencer: Sequencer<'l, N>,
    /// The proxies, in the order of their numbers.
    pub proxies: Vec<SharedProxy<'l, N>>,
    /// The resolvers, in the order of their numbers.
    pub resolvers: Vec<SharedResolver<'l, N>>,
}

impl<'l, N: Naming> Cluster<'l, N> {
    /// The parts before the first record.
    pub fn new(alloc: Global, ledger: &'l Ledger<N>) -> Result<Cluster<'l, N>, Fail> {
        Ok(Cluster {
            ledger,
            sequencer: Sequencer::new(alloc, ledger)?,
            proxies: proxies(alloc, ledger)?,
            resolvers: resolvers(alloc, ledger)?,
        })
    }

    /// The proxy of this number.
    pub fn proxy(&self, number: usize) -> Result<&SharedProxy<'l, N>, Refusal> {
        match self.proxies.as_slice().get(number) {
            Some(proxy) => Ok(proxy),
            None => Err(Refusal::NoSuchProxy),
        }
    }

    /// The resolver of this number.
    pub fn resolver(&self, number: usize) -> Result<&SharedResolver<'l, N>, Refusal> {
        match self.resolvers.as_slice().get(number) {
            Some(resolver) => Ok(resolver),
            None => Err(Refusal::WrongResolver),
        }
    }

    /// Asking each resolver by its lock.
    pub fn asking(&self) -> Result<AllResolvers<'_, 'l, N>, Refusal> {
        AllResolvers::new(self.resolvers.as_slice())
    }
}

fn proxies<'l, N: Naming>(
    alloc: Global,
    ledger: &'l Ledger<N>,
) -> Result<Vec<SharedProxy<'l, N>>, Fail> {
    let count = ledger.config().proxies();
    let mut made = room(alloc, count)?;
    for number in 0..count {
        made.push(SharedProxy::new(alloc, ledger, number)?)?;
    }
    Ok(made)
}

fn resolvers<'l, N: Naming>(
    alloc: Global,
    ledger: &'l Ledger<N>,
) -> Result<Vec<SharedResolver<'l, N>>, Fail> {
    let count = ledger.config().resolvers();
    let mut made = room(alloc, count)?;
    for number in 0..count {
        made.push(SharedResolver::new(alloc, ledger, number)?)?;
    }
    Ok(made)
}
