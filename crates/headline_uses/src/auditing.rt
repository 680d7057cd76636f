//! What an audit shows: the resolvers' verdict cells, and a resolver that has not reached the
//! proxy's version.

ghost use Rattle.std.specs.Prelude.{◌≡◌, MatchOption, MatchResult, take};
ghost use Rattle.locked_cluster.specs.Audits.{reached_records};
ghost use Rattle.headline_uses.specs.Resolvers.{AreAtLeast, AreInOrder, HasBehind};
ghost use Rattle.headline_uses.specs.Verdicts.{HaveJudged, HaveVerdicts};

use agreed_ledger::Naming;
use locked_cluster::{BehindBy, Columns, ProxyGuard, ResolverGuard, audit};
use model::ResolverNumber;

/// Returns the verdict cells of a proxy: of each resolver one for each record up to the proxy's
/// version, with the verdicts of that resolver. This is so whatever the audit finds.
pub fn columns_of_proxy<'a, N: Naming>(
    proxy: &'a ProxyGuard<'_, N>,
    resolvers: &[ResolverGuard<'_, N>],
) -> &'a Columns<N>
    ensures columns { result.now ≡ proxy.now.columns }
    ensures verdicts { HaveVerdicts N.cells.config (reached_records proxy.now) proxy.now.columns }
{
    let _found = audit(proxy, resolvers);
    proxy.columns()
}

/// Audits a proxy. If that succeeds, each resolver has given its verdicts on each record up to the
/// proxy's version. If it fails, and the resolvers stand in the order of their numbers, so have those
/// before the one that is named.
pub fn judged_by_audit<N: Naming>(
    proxy: &ProxyGuard<'_, N>,
    resolvers: &[ResolverGuard<'_, N>],
) -> Result<(), BehindBy>
    ensures { let records = reached_records proxy.now in
        MatchResult result
        (λ _. HaveJudged N.cells.config records resolvers.now)
        (λ behind. AreInOrder resolvers.now
        → HaveJudged N.cells.config records (take behind.resolver resolvers.now)) }
{
    audit(proxy, resolvers)
}

/// Returns the number of a resolver that has not come to the proxy's version, and None only if each has.
pub fn resolver_to_wait_for<N: Naming>(
    proxy: &ProxyGuard<'_, N>,
    resolvers: &[ResolverGuard<'_, N>],
) -> Option<ResolverNumber>
    ensures { let version = proxy.now.proxy.version in
        MatchOption result
        (AreAtLeast version resolvers.now)
        (HasBehind version resolvers.now) }
{
    match audit(proxy, resolvers) {
        Ok(()) => None,
        Err(behind) => Some(behind.resolver),
    }
}
