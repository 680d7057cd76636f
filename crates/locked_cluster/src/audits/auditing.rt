//! Whether two locked proxies agree, and whether all resolvers have reached a proxy's version.

ghost use Rattle.std.specs.Prelude.{◌≡◌, MatchResult};
ghost use Rattle.locked_cluster.specs.Audits.{HaveReached, IsAudited, IsFirstBehind};
ghost use Rattle.locked_cluster.specs.Meetings.{Met};

use crate::audits::behind_by::BehindBy;
use crate::commits::ProxyGuard;
use crate::proxies::Meeting;
use agreed_ledger::Naming;
use locked_resolvers::ResolverGuard;

/// Compares two proxies of one cluster by their versions. At one version both have the same journal,
/// and so the same metadata; otherwise one journal is a beginning of the other.
///
/// Does not allocate, and does not wait. Both are of one ledger by their types.
pub fn meet<N: Naming>(one: &ProxyGuard<'_, N>, other: &ProxyGuard<'_, N>) -> Meeting
    ensures { Met result one.now.proxy other.now.proxy }
{
    one.meet(other)
}

/// Looks whether every one of the resolvers has come as far as the proxy. The journal of the proxy is
/// then that of the records up to its version, by verdicts that each resolver has given; and of the
/// transactions that these records commit, none read what another wrote between its snapshot and
/// itself.
///
/// Fails with the first of the resolvers whose version is below that of the proxy. Does not allocate,
/// and does not wait. All are of one ledger by their types.
pub fn audit<N: Naming>(
    proxy: &ProxyGuard<'_, N>,
    resolvers: &[ResolverGuard<'_, N>],
) -> Result<(), BehindBy>
    ensures audited { IsAudited N.cells.config proxy.now }
    ensures reached { MatchResult result
        (λ _. HaveReached N.cells.config proxy.now resolvers.now)
        (IsFirstBehind N.cells.config proxy.now resolvers.now) }
{
    let version = proxy.version();
    let known = proxy.records();
    for resolver in resolvers {
        let reached = resolver.version();
        let judged = resolver.records();
        known.agree(judged);
        if reached < version {
            return Err(BehindBy {
                resolver: resolver.number(),
                version: reached,
            });
        }
    }
    Ok(())
}
