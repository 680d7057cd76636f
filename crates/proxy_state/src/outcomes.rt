//! The outcomes of a proxy's own batch, and its mutations with their tags and private copies.
//!
//! Release 7.1, `CommitProxyServer.actor.cpp`, determineCommittedTransactions and
//! assignMutationsToStorageServers; what differs is marked *profile*.

ghost use Rattle.std.specs.Prelude.{◌≡◌, ◌+◌, ◌≤◌, ◌++◌, map, take, drop, length};
ghost use Rattle.std.specs.Prelude.{IfOk, OnOk, OnErr};
ghost use Rattle.model.specs.Outcomes.{outcome_of_verdict, is_refused, outcomes_from};
ghost use Rattle.model.specs.World.{tagged_all, tagged_from};
ghost use Rattle.proxy_state.specs.Learning.{by_columns, AskedAreKept};
ghost use Rattle.proxy_state.specs.Finishing.{outcome_of_transaction, outcomes_by_columns};
ghost use Rattle.proxy_state.specs.Finishing.{finished_by_columns};
ghost use Rattle.proxy_state.specs.TakenChanges.{placeholder_change, without_change, with_changes};
ghost use Rattle.proxy_state.specs.TakenChanges.{changes_if_committed, changes_of};

use crate::begun_record::BegunRecord;
use crate::columns::joined_verdict_in_columns;
use metadata::{EntryView, find_private_copy, tags_of};
use model::{
    Config, Finished, Outcome, ResolverNumber, Tagged, TransactionNumber, Verdict, Version,
};
use mutation::Stamped;
use std::alloc::Global;
use system_keys::{Bytes, Change, Items, OutOfMemory};

/// The finished batch of the record, by the verdicts of the columns. `locked` is the lock before the
/// batch, and `entries` are those of the metadata after it. The changes are taken out of the record.
/// Fails only with `OutOfMemory`; the record is then unchanged.
pub(crate) fn finished_by_columns(
    alloc: Global,
    config: &Config,
    columns: &[Items<Verdict>],
    locked: bool,
    entries: &EntryView,
    begun: &mut BegunRecord,
) -> Result<Finished, OutOfMemory>
    requires { AskedAreKept config.now begun.old }
    ensures ok { IfOk result (λ finished.
        finished ≡ finished_by_columns config.now columns.now locked entries.now begun.old.rec) }
    ensures err { OnErr result (begun.new ≡ begun.old) }
{
    let outcomes = outcomes_of_record(alloc, config, columns, locked, begun)?;
    let mut tagged = tag_committed_mutations(alloc, entries, begun.rec.batch(), &outcomes)?;
    let (row, version) = (begun.rec.row(), begun.rec.version());
    let batch = begun.rec.take_batch(alloc)?;
    put_changes(alloc, &mut tagged, batch, &outcomes);
    Ok(Finished {
        row,
        version,
        outcomes: Items::from(outcomes),
        tagged: Items::from(tagged),
    })
}

/// The outcome of each transaction of the record.
fn outcomes_of_record(
    alloc: Global,
    config: &Config,
    columns: &[Items<Verdict>],
    locked: bool,
    begun: &BegunRecord,
) -> Result<Vec<Outcome>, OutOfMemory>
    requires { AskedAreKept config.now begun.now }
    ensures value { IfOk result (λ outcomes. outcomes.items ≡
        outcomes_from config.now (by_columns columns.now) locked begun.now.rec 0 begun.now.rec.batch) }
    ensures count { IfOk result (λ outcomes. length outcomes.items ≡ length begun.now.rec.batch) }
{
    let lists = begun.asked.as_slice();
    let batch = begun.rec.batch();
    outcomes_by_columns(alloc, columns, locked, begun.rec.version(), batch, lists)
}

/// The outcome of each transaction; beside it stands the list of the resolvers that it asks.
fn outcomes_by_columns(
    alloc: Global,
    columns: &[Items<Verdict>],
    locked: bool,
    version: Version,
    batch: &[Stamped],
    lists: &[Items<ResolverNumber>],
) -> Result<Vec<Outcome>, OutOfMemory>
    requires { length lists.now ≡ length batch.now }
    ensures value { IfOk result (λ outcomes. outcomes.items
        ≡ outcomes_by_columns columns.now locked version 0 batch.now lists.now) }
    ensures count { IfOk result (λ outcomes. length outcomes.items ≡ length batch.now) }
{
    let mut outcomes = Vec::with_capacity(alloc, batch.len())?;
    for (number, transaction) in batch.iter().enumerate() {
        let list = &lists[number];
        outcomes.push(outcome_of_transaction(columns, locked, version, number, transaction, list))?;
    }
    Ok(outcomes)
}

/// The outcome of the transaction, which asks the resolvers of the list.
fn outcome_of_transaction(
    columns: &[Items<Verdict>],
    locked: bool,
    version: Version,
    number: TransactionNumber,
    transaction: &Stamped,
    list: &Items<ResolverNumber>,
) -> Outcome
    ensures { result
        ≡ outcome_of_transaction columns.now locked version number transaction.now list.now }
{
    let verdict = joined_verdict_in_columns(columns, list.as_slice(), number);
    outcome_of_verdict(verdict, is_refused(locked, transaction), version, number)
}

/// Whether the lock refuses the transaction.
fn is_refused(locked: bool, transaction: &Stamped) -> bool
    ensures { result ≡ is_refused locked transaction.now }
{
    !transaction.lock_aware() && locked
}

/// The outcome of a transaction by its joined verdict, and by whether the lock refuses it.
fn outcome_of_verdict(
    verdict: Verdict,
    refused: bool,
    version: Version,
    number: TransactionNumber,
) -> Outcome
    ensures { result ≡ outcome_of_verdict verdict refused version number }
{
    match verdict {
        Verdict::Conflict => Outcome::Conflict,
        Verdict::TooOld => Outcome::TooOld,
        Verdict::Committed => {
            if refused {
                Outcome::Locked
            } else {
                Outcome::Committed { version, number }
            }
        }
    }
}

/// The mutations of the committed transactions, each with its tags and its private copy, but without
/// its change.
#[tactic(auto, using(crate::proofs::TakenChanges::labels_append))]
fn tag_committed_mutations(
    alloc: Global,
    entries: &EntryView,
    batch: &[Stamped],
    outcomes: &[Outcome],
) -> Result<Vec<Tagged>, OutOfMemory>
    requires { length outcomes.now ≡ length batch.now }
    ensures { IfOk result (λ labelled. labelled.items
        ≡ map without_change (tagged_all entries.now batch.now outcomes.now)) }
{
    let mut labelled = Vec::new(alloc);
    for (place, transaction) in batch.iter().enumerate() {
        if let Outcome::Committed { version: _, number } = outcomes[place] {
            add_tagged_mutations(alloc, entries, number, transaction.changes(), &mut labelled)?;
        }
    }
    Ok(labelled)
}

/// Adds the mutations of the transaction of this number, each with its tags and its private copy, but
/// without its change.
fn add_tagged_mutations(
    alloc: Global,
    entries: &EntryView,
    number: TransactionNumber,
    changes: &[Change],
    labelled: &mut Vec<Tagged>,
) -> Result<(), OutOfMemory>
    ensures { OnOk result (labelled.new.items ≡ labelled.old.items
        ++ map without_change (tagged_from entries.now number 0 changes.now)) }
{
    for (place, change) in changes.iter().enumerate() {
        labelled.push(Tagged {
            number,
            place,
            change: placeholder_change(alloc),
            tags: tags_of(entries, change)?,
            private: find_private_copy(entries, change)?,
        })?;
    }
    Ok(())
}

/// What stands in the place of a change until it is put in. Does not allocate.
fn placeholder_change(alloc: Global) -> Change
    ensures { result ≡ placeholder_change }
{
    Change::Set {
        key: Bytes::from(Vec::new(alloc)),
        value: Bytes::from(Vec::new(alloc)),
    }
}

/// Puts the changes of the committed transactions into their mutations. Does not allocate.
fn put_changes(alloc: Global, tagged: &mut Vec<Tagged>, batch: Items<Stamped>, outcomes: &[Outcome])
    requires outcomes { length outcomes.now ≡ length batch }
    requires room { length (changes_of batch outcomes.now) ≤ length tagged.old.items }
    ensures { tagged.new.items ≡ with_changes tagged.old.items (changes_of batch outcomes.now) }
{
    let mut number = 0;
    let mut first = 0;
    for transaction in Vec::from(batch) {
        let changes = changes_if_committed(alloc, transaction, &outcomes[number]);
        first = put_changes_from(tagged, first, changes);
        number += 1;
    }
}

/// The changes of the transaction, if it is committed, and otherwise none. Does not allocate.
fn changes_if_committed(alloc: Global, transaction: Stamped, outcome: &Outcome) -> Items<Change>
    ensures { result ≡ changes_if_committed transaction outcome.now }
{
    match outcome {
        Outcome::Committed { .. } => transaction.into_changes(),
        Outcome::Conflict | Outcome::TooOld | Outcome::Locked => Items::from(Vec::new(alloc)),
    }
}

/// Puts the changes into the mutations from this one on, and returns how many have theirs then. Does
/// not allocate.
fn put_changes_from(tagged: &mut Vec<Tagged>, first: usize, changes: Items<Change>) -> usize
    requires { first + length changes ≤ length tagged.old.items }
    ensures place { result ≡ first + length changes }
    ensures count { length tagged.new.items ≡ length tagged.old.items }
    ensures tagged { tagged.new.items
        ≡ take first tagged.old.items ++ with_changes (drop first tagged.old.items) changes }
{
    let mut place = first;
    for change in Vec::from(changes) {
        tagged[place].change = change;
        place += 1;
    }
    place
}
