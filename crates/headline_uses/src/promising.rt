//! What the promise says of a proxy: its metadata, also at earlier versions, and its records.

ghost use Rattle.std.specs.Prelude.{◌≡◌, IfErr, IfNone, IfOk, IfSome};
ghost use Rattle.model.specs.Committed.{IsSerialByKeys};
ghost use Rattle.model.specs.Metadata.{routing};
ghost use Rattle.model.specs.World.{up_to_version};
ghost use Rattle.locked_cluster.specs.Audits.{reached_records};
ghost use Rattle.locked_cluster.specs.Headline.{history_metadata};
ghost use Rattle.locked_cluster.specs.Proxies.{IsRoutingRefusal};

use agreed_ledger::{Naming, Records};
use locked_cluster::{NotedFinished, NotedRouting, ProxyGuard, Refusal, metadata_of_two};
use model::Version;
use proxy_state::Metadata;

/// Returns the metadata of two proxies if they are at one version. It is then the same: that of the
/// records up to this version.
pub fn metadata_at_one_version<'a, N: Naming>(
    one: &'a ProxyGuard<'_, N>,
    other: &'a ProxyGuard<'_, N>,
    answer: &NotedFinished<N>,
) -> Option<(&'a Metadata, &'a Metadata)>
    ensures same { IfSome result (λ both. both.0.now ≡ both.1.now) }
    ensures known { IfSome result (λ both.
        both.0.now ≡ history_metadata N.cells.config (reached_records one.now)) }
    ensures none { IfNone result (one.now.proxy.version ≡ other.now.proxy.version → ⊥) }
{
    let (mine, theirs) = metadata_of_two(one, other, answer);
    if one.version() == other.version() {
        Some((mine, theirs))
    } else {
        None
    }
}

/// Returns the routing of a proxy at a version that it has reached: that of the metadata of the
/// records up to this version. Fails as [`ProxyGuard::routing_at`] does.
pub fn routing_of_history<N: Naming>(
    one: &ProxyGuard<'_, N>,
    other: &ProxyGuard<'_, N>,
    answer: &NotedFinished<N>,
    version: Version,
) -> Result<NotedRouting<N>, Refusal>
    ensures routing { IfOk result (λ noted.
        let records = up_to_version version (reached_records one.now) in
        noted.routing ≡ routing version (history_metadata N.cells.config records)) }
    ensures refused { IfErr result (IsRoutingRefusal one.now version) }
{
    let (_mine, _theirs) = metadata_of_two(one, other, answer);
    let noted = one.routing_at(version)?;
    Ok(noted)
}

/// Returns the records of a proxy. Among those up to its version no committed transaction read a key
/// that another committed one wrote between its snapshot and itself.
pub fn records_of_proxy<'a, N: Naming>(
    one: &'a ProxyGuard<'_, N>,
    other: &'a ProxyGuard<'_, N>,
    answer: &NotedFinished<N>,
) -> &'a Records<N>
    ensures records { result.now ≡ record { first = 0; known = one.now.records } }
    ensures serial { IsSerialByKeys N.cells.config
        (up_to_version one.now.proxy.version one.now.records) }
{
    let (_mine, _theirs) = metadata_of_two(one, other, answer);
    one.records()
}
