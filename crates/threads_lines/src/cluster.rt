//! The cluster of a run: its sequencer, resolvers and proxies, and locking or moving all of them.

ghost use Rattle.std.specs.Prelude.{◌≡◌, ◌<◌, [], ◌∷◌, length, IfOk, IfErr, OnErr, OnOk};
ghost use Rattle.threads_lines.specs.Guards.{AreLockedProxies, AreLockedResolvers};
ghost use Rattle.threads_lines.specs.Guards.{AreProxiesKept, AreResolversKept};
ghost use Rattle.threads_lines.specs.Moves.{HaveMoved, IsFaultOfMove, IsFaultOfSome, StopsMoving};
ghost use Rattle.threads_lines.specs.Threads.{AreInPlace};

use crate::faults::{RunFault, ledger_fault};
use agreed_ledger::{Ledger, Naming, Sequencer, SequencerGuard};
use locked_cluster::{ProxyGuard, Refusal, ResolverGuard, SharedProxy, SharedResolver};
use model::ProxyNumber;
use std::alloc::Global;
use std::sync::Wait;
use system_keys::OutOfMemory;
use threads_scripts::UndatedMove;

/// The sequencer, and all resolvers and proxies in the order of their numbers.
#[derive(Drop)]
pub struct RunCluster<'l, N: Naming> {
    /// The sequencer.
    pub sequencer: Sequencer<'l, N>,
    /// The resolvers.
    pub resolvers: Vec<SharedResolver<'l, N>>,
    /// The proxies.
    pub proxies: Vec<SharedProxy<'l, N>>,
    ghost in_place: { AreInPlace proxies.items },
    pub ghost resolvers_in_place: { AreInPlace resolvers.items },
    ghost proxy_count: { length proxies.items ≡ N.cells.config.proxies },
    ghost resolver_count: { length resolvers.items ≡ N.cells.config.resolvers },
}

impl<'l, N: Naming> RunCluster<'l, N> {
    /// The cluster before its first batch. Fails only with `OutOfMemory`.
    pub fn new(alloc: Global, ledger: &'l Ledger<N>) -> Result<RunCluster<'l, N>, OutOfMemory>
        ensures proxies { IfOk result (λ made.
            length made.proxies.items ≡ N.cells.config.proxies) }
        ensures resolvers { IfOk result (λ made.
            length made.resolvers.items ≡ N.cells.config.resolvers) }
    {
        Ok(RunCluster {
            sequencer: Sequencer::new(alloc, ledger)?,
            resolvers: shared_resolvers(alloc, ledger)?,
            proxies: shared_proxies(alloc, ledger)?,
        })
    }

    /// The proxy of this number.
    pub fn proxy(&self, number: ProxyNumber) -> &SharedProxy<'l, N>
        requires { number < length self.now.proxies.items }
        ensures { result.now ≡ number }
    {
        &self.proxies[number]
    }

    /// Carries out the moves, in order, under the lock of the sequencer. Fails as the first move does
    /// that fails: those before it are then carried out, and no other.
    pub fn move_ranges<R: Wait>(&self, rt: &R, moves: &[UndatedMove]) -> Result<(), RunFault>
        ensures { IfErr result (IsFaultOfSome N.cells.config moves.now) }
    {
        move_all(&mut self.sequencer.lock(rt), moves)
    }

    /// Locks all proxies, in order. Fails only with `OutOfMemory`.
    pub fn lock_proxies<R: Wait>(
        &self,
        rt: &R,
        alloc: Global,
    ) -> Result<Vec<ProxyGuard<'_, N>>, OutOfMemory>
        ensures { IfOk result (λ guards. AreLockedProxies N.cells.config guards.items) }
    {
        lock_each_proxy(rt, alloc, self.proxies.as_slice())
    }

    /// Locks all resolvers, in order. Fails only with `OutOfMemory`.
    pub fn lock_resolvers<R: Wait>(
        &self,
        rt: &R,
        alloc: Global,
    ) -> Result<Vec<ResolverGuard<'_, N>>, OutOfMemory>
        ensures { IfOk result (λ guards. AreLockedResolvers N.cells.config guards.items) }
    {
        lock_each_resolver(rt, alloc, self.resolvers.as_slice())
    }
}

/// All resolvers of the cluster. Fails only with `OutOfMemory`.
fn shared_resolvers<'l, N: Naming>(
    alloc: Global,
    ledger: &'l Ledger<N>,
) -> Result<Vec<SharedResolver<'l, N>>, OutOfMemory>
    ensures count { IfOk result (λ resolvers.
        length resolvers.items ≡ N.cells.config.resolvers) }
    ensures in_place { IfOk result (λ resolvers. AreInPlace resolvers.items) }
{
    let count = ledger.config().resolvers();
    let mut resolvers = Vec::with_capacity(alloc, count)?;
    for number in 0..count {
        // The ledger has a resolver of each of these numbers.
        let resolver = match SharedResolver::new(alloc, ledger, number) {
            Ok(resolver) => resolver,
            Err(refusal) => {
                let Refusal::OutOfMemory = refusal else {
                    unreachable!();
                };
                return Err(OutOfMemory);
            }
        };
        resolvers.push(resolver)?;
    }
    Ok(resolvers)
}

/// All proxies of the cluster. Fails only with `OutOfMemory`.
fn shared_proxies<'l, N: Naming>(
    alloc: Global,
    ledger: &'l Ledger<N>,
) -> Result<Vec<SharedProxy<'l, N>>, OutOfMemory>
    ensures count { IfOk result (λ proxies. length proxies.items ≡ N.cells.config.proxies) }
    ensures in_place { IfOk result (λ proxies. AreInPlace proxies.items) }
{
    let count = ledger.config().proxies();
    let mut proxies = Vec::with_capacity(alloc, count)?;
    for number in 0..count {
        // The ledger has a proxy of each of these numbers.
        let proxy = match SharedProxy::new(alloc, ledger, number) {
            Ok(proxy) => proxy,
            Err(refusal) => {
                let Refusal::OutOfMemory = refusal else {
                    unreachable!();
                };
                return Err(OutOfMemory);
            }
        };
        proxies.push(proxy)?;
    }
    Ok(proxies)
}

/// Locks all proxies, in order. Fails only with `OutOfMemory`.
fn lock_each_proxy<'a, N: Naming, R: Wait>(
    rt: &R,
    alloc: Global,
    proxies: &'a [SharedProxy<'_, N>],
) -> Result<Vec<ProxyGuard<'a, N>>, OutOfMemory>
    ensures count { IfOk result (λ guards. length guards.items ≡ length proxies.now) }
    ensures kept { IfOk result (λ guards.
        AreProxiesKept N.cells.config proxies.now guards.items) }
{
    let mut guards = Vec::with_capacity(alloc, proxies.len())?;
    for proxy in proxies {
        guards.push(proxy.lock(rt))?;
    }
    Ok(guards)
}

/// Locks all resolvers, in order. Fails only with `OutOfMemory`.
fn lock_each_resolver<'a, N: Naming, R: Wait>(
    rt: &R,
    alloc: Global,
    resolvers: &'a [SharedResolver<'_, N>],
) -> Result<Vec<ResolverGuard<'a, N>>, OutOfMemory>
    ensures count { IfOk result (λ guards. length guards.items ≡ length resolvers.now) }
    ensures kept { IfOk result (λ guards.
        AreResolversKept N.cells.config resolvers.now guards.items) }
{
    let mut guards = Vec::with_capacity(alloc, resolvers.len())?;
    for resolver in resolvers {
        guards.push(resolver.lock(rt))?;
    }
    Ok(guards)
}

/// Carries out the moves, in order. Fails as the first move does that fails: those before it are then
/// carried out, and no other.
fn move_all<N: Naming>(
    guard: &mut SequencerGuard<'_, N>,
    moves: &[UndatedMove],
) -> Result<(), RunFault>
    ensures moved { OnOk result (HaveMoved guard.old moves.now guard.new) }
    ensures stopped { IfErr result (StopsMoving N.cells.config guard.old moves.now guard.new) }
{
    for one in moves {
        if let Err(fault) = move_one(guard, one) {
            return Err(fault);
        }
    }
    Ok(())
}

/// Carries out a move. If it fails, nothing has changed.
fn move_one<N: Naming>(guard: &mut SequencerGuard<'_, N>, one: &UndatedMove) -> Result<(), RunFault>
    ensures moved { OnOk result (HaveMoved guard.old (one.now ∷ []) guard.new) }
    ensures failed { IfErr result (IsFaultOfMove N.cells.config one.now) }
    ensures unchanged { OnErr result (guard.new ≡ guard.old) }
{
    match guard.move_range(&one.range, one.dest) {
        Ok(_date) => Ok(()),
        Err(refusal) => Err(ledger_fault(refusal)),
    }
}
