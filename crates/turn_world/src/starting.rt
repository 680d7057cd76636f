//! The proxies and resolvers of a cluster before its first event.

ghost use Rattle.std.specs.Prelude.{◌≡◌, IfOk, replicate};
ghost use Rattle.turn_world.specs.Parts.{AreNewResolvers, AreNewProxies};

use model::Config;
use proxy_state::Proxy;
use state_memory::Resolver;
use std::alloc::Global;
use system_keys::OutOfMemory;

/// The resolvers of the cluster before their first request.
pub(crate) fn new_resolvers(alloc: Global, config: &Config) -> Result<Vec<Resolver>, OutOfMemory>
    ensures { IfOk result (λ made. AreNewResolvers config.now config.now.resolvers made.items) }
{
    let mut made = Vec::with_capacity(alloc, config.resolvers())?;
    for number in 0..config.resolvers() {
        made.push(Resolver::new(alloc, number, config.proxies(), config.window())?)?;
    }
    Ok(made)
}

/// The proxies of the cluster before their first record.
pub(crate) fn new_proxies(alloc: Global, config: &Config) -> Result<Vec<Proxy>, OutOfMemory>
    ensures { IfOk result (λ made. AreNewProxies config.now config.now.proxies made.items) }
{
    let mut made = Vec::with_capacity(alloc, config.proxies())?;
    for number in 0..config.proxies() {
        made.push(Proxy::new(alloc, number, config)?)?;
    }
    Ok(made)
}

/// `count` zeros.
#[tactic(auto, using(std::proofs::lemmas::List::replicate_more))]
pub(crate) fn list_of_zeros(alloc: Global, count: usize) -> Result<Vec<usize>, OutOfMemory>
    ensures { IfOk result (λ made. made.items ≡ replicate count 0) }
{
    let mut made = Vec::with_capacity(alloc, count)?;
    for _ in 0..count {
        made.push(0)?;
    }
    Ok(made)
}
