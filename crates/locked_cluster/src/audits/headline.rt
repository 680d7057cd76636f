//! The metadata of two locked proxies, with what is promised of it.

ghost use Rattle.locked_cluster.specs.Headline.{Headline};

use crate::commits::ProxyGuard;
use crate::proxies::NotedFinished;
use agreed_ledger::Naming;
use proxy_state::Metadata;

/// Returns the metadata of two proxies of one cluster. Its contract is the promise of this project.
///
/// The metadata of a proxy is the fold, in the order of versions, of exactly the state transactions
/// up to its version that every resolver committed and that the lock rule let pass. So two proxies
/// agree at every version that both have reached. Each mutation of the answer, of any proxy, has
/// the tags, and the private copy if there is one, of the metadata after the answer's record, which
/// is that of a proxy at the answer's version. And no committed transaction read a range written by
/// one committed between its snapshot and itself.
///
/// Does not allocate, and does not wait.
pub fn metadata_of_two<'a, N: Naming>(
    one: &'a ProxyGuard<'_, N>,
    other: &'a ProxyGuard<'_, N>,
    answer: &NotedFinished<N>,
) -> (&'a Metadata, &'a Metadata)
    ensures { Headline N.cells.config one.now other.now result.0.now result.1.now answer.now }
{
    let known = one.records();
    let others = other.records();
    let told = answer.records();
    known.agree(others);
    known.agree(told);
    others.agree(told);
    let mine = one.metadata();
    let theirs = other.metadata();
    (mine, theirs)
}
