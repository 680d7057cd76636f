//! What the promise says of an answer: its mutations, its records, and which proxies confirm it.

ghost use Rattle.std.specs.Prelude.{◌≡◌, ◌≤◌, ◌↔◌, Contains, IfOk, IsTrue};
ghost use Rattle.model.specs.Committed.{IsSerialByKeys};
ghost use Rattle.model.specs.Metadata.{tags};
ghost use Rattle.model.specs.declared.outcome.Tagged.{Tagged as TaggedView};
ghost use Rattle.locked_cluster.specs.Audits.{reached_records};
ghost use Rattle.locked_cluster.specs.Headline.{history_metadata};
ghost use Rattle.headline_uses.specs.Mutations.{AreAllSent};

use agreed_ledger::{Naming, Records};
use locked_cluster::{NotedFinished, ProxyGuard, metadata_of_two};
use model::Tagged;
use system_keys::{Change, Items, OutOfMemory, Tag};

/// Returns the mutations of an answer. Each change of a transaction whose client is told Committed is
/// one of them, under the tags and with the private copy of the metadata after the batch.
pub fn sent_mutations<'a, N: Naming>(
    one: &ProxyGuard<'_, N>,
    other: &ProxyGuard<'_, N>,
    answer: &'a NotedFinished<N>,
) -> &'a [Tagged]
    ensures value { result.now ≡ answer.now.finished.tagged }
    ensures all { AreAllSent N.cells.config answer.now.records answer.now.finished }
{
    let (_mine, _theirs) = metadata_of_two(one, other, answer);
    answer.value().tagged.as_slice()
}

/// Returns the tags of a change by the metadata of a proxy. At the version of the answer they are those
/// under which the answer has the change. Fails only with `OutOfMemory`.
pub fn tags_by_proxy<N: Naming>(
    one: &ProxyGuard<'_, N>,
    other: &ProxyGuard<'_, N>,
    answer: &NotedFinished<N>,
    change: &Change,
) -> Result<Items<Tag>, OutOfMemory>
    ensures known { IfOk result (λ found.
        found ≡ tags (history_metadata N.cells.config (reached_records one.now)) change.now) }
    ensures answered { IfOk result (λ found.
        answer.now.finished.version ≡ one.now.proxy.version
        → (sent : TaggedView) → Contains answer.now.finished.tagged sent
        → sent.change ≡ change.now → sent.tags ≡ found) }
{
    let (mine, _theirs) = metadata_of_two(one, other, answer);
    let found = mine.tags_of(change)?;
    Ok(found)
}

/// Returns the records of an answer, up to its own. Among them no committed transaction read a key that
/// another committed one wrote between its snapshot and itself.
pub fn records_of_answer<'a, N: Naming>(
    one: &ProxyGuard<'_, N>,
    other: &ProxyGuard<'_, N>,
    answer: &'a NotedFinished<N>,
) -> &'a Records<N>
    ensures records { result.now ≡ record { first = 0; known = answer.now.records } }
    ensures serial { IsSerialByKeys N.cells.config answer.now.records }
{
    let (_mine, _theirs) = metadata_of_two(one, other, answer);
    answer.records()
}

/// Whether a proxy has reached the version of an answer, as it has exactly if it confirms the answer.
pub fn has_reached<N: Naming>(proxy: &ProxyGuard<'_, N>, answer: &NotedFinished<N>) -> bool
    ensures { IsTrue result ↔ (answer.now.finished.version ≤ proxy.now.proxy.version) }
{
    proxy.confirm(answer)
}
