//! What the types of answers and routings keep, and what a meeting finds.

ghost use Rattle.std.specs.Prelude.{◌≡◌, ◌≤◌, IfNone, IfSome};
ghost use Rattle.model.specs.Records.{last_version};
ghost use Rattle.headline_uses.specs.Verdicts.{HaveVerdicts};

use agreed_ledger::{Naming, Records};
use locked_cluster::{Columns, Meeting, NotedFinished, NotedRouting, ProxyGuard, meet};
use model::JournalRow;

/// Returns the verdict cells of an answer: of each resolver one for each record up to the answer's own,
/// with the verdicts of that resolver.
pub fn columns_of_answer<N: Naming>(answer: &NotedFinished<N>) -> &Columns<N>
    ensures columns { result.now ≡ answer.now.columns }
    ensures verdicts { HaveVerdicts N.cells.config answer.now.records answer.now.columns }
{
    // (its contract says what the type keeps)
    let _records = answer.records();
    answer.columns()
}

/// Returns the records of a routing, which reach its version.
pub fn records_of_routing<N: Naming>(noted: &NotedRouting<N>) -> &Records<N>
    ensures records { result.now ≡ record { first = 0; known = noted.now.records } }
    ensures reached { noted.now.routing.version ≤ last_version noted.now.records }
{
    noted.records()
}

/// Returns the journal of the other proxy, as the first one has it, if both are at one version.
pub fn journal_of_other<'a, N: Naming>(
    one: &'a ProxyGuard<'_, N>,
    other: &ProxyGuard<'_, N>,
) -> Option<&'a [JournalRow]>
    ensures other { IfSome result (λ rows. rows.now ≡ other.now.proxy.journal) }
    ensures none { IfNone result (one.now.proxy.version ≡ other.now.proxy.version → ⊥) }
{
    match meet(one, other) {
        Meeting::Same => Some(one.journal()),
        Meeting::Behind | Meeting::Ahead => None,
    }
}
