//! Two proxies of a cluster show their routings at one version.

ghost use Rattle.std.specs.Prelude.{◌≡◌, ◌⊎◌, IfErr, IfOk};
ghost use Rattle.proxy_state.specs.Beginning.{rows_up_to};
ghost use Rattle.locked_cluster.specs.Proxies.{IsRoutingRefusal, ShowsRouting};

use agreed_ledger::Naming;
use model::Version;
use shared_cluster::{NotedFinished, NotedRouting, ProxyGuard, Refusal, metadata_of_two};

/// Returns the routings of two proxies at a version that both have reached, which are proved to be the
/// same. `answer`, of any proxy, is needed only because `metadata_of_two` takes one.
///
/// Fails as [`ProxyGuard::routing_at`] does for one of the proxies.
pub fn routings_of_two<N: Naming>(
    one: &ProxyGuard<'_, N>,
    other: &ProxyGuard<'_, N>,
    answer: &NotedFinished<N>,
    version: Version,
) -> Result<(NotedRouting<N>, NotedRouting<N>), Refusal>
    ensures same { IfOk result (λ both. both.0.routing ≡ both.1.routing) }
    ensures mine { IfOk result (λ both. ShowsRouting one.now version
        (rows_up_to version one.now.proxy.journal) both.0) }
    ensures theirs { IfOk result (λ both. ShowsRouting other.now version
        (rows_up_to version other.now.proxy.journal) both.1) }
    ensures refused { IfErr result (λ refusal.
        IsRoutingRefusal one.now version refusal ⊎ IsRoutingRefusal other.now version refusal) }
{
    let (_mine, _theirs) = metadata_of_two(one, other, answer);
    let mine = one.routing_at(version)?;
    let theirs = other.routing_at(version)?;
    Ok((mine, theirs))
}
