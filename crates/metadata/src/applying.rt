//! Which state transactions of a row are committed and applied, and which keys and ranges they
//! clear.

ghost use Rattle.std.specs.Prelude.{◌≡◌, ◌++◌, ◌∷◌, [], IfOk, IfSome, OnOk};
ghost use Rattle.std.specs.List.{list_all, list_any};
ghost use Rattle.model.specs.Verdicts.{is_committed};
ghost use Rattle.model.specs.Metadata.{is_applied};
ghost use Rattle.system_keys.specs.Keys.{Key};
ghost use Rattle.metadata.specs.Overwrites.{changes_of, cleared_keys, cleared_ranges, is_listed};
ghost use Rattle.metadata.specs.Overwrites.{lent_ranges};

use crate::entry_key::EntryKey;
use crate::entry_map::EntryMap;
use model::{StateTxn, Verdict};
use std::alloc::Global;
use system_keys::{Change, KeyRange, OutOfMemory};

/// Whether the transaction is applied: every resolver committed it, and it is lock aware or the
/// database is not locked (release 7.1).
pub(crate) fn is_applied(locked: bool, transaction: &StateTxn) -> bool
    ensures { result ≡ is_applied locked transaction.now }
{
    are_committed(transaction.verdicts.as_slice()) && (transaction.lock_aware || !locked)
}

/// Whether any of the transactions is applied.
pub(crate) fn any_applied(locked: bool, transactions: &[StateTxn]) -> bool
    ensures { result ≡ list_any (is_applied locked) transactions.now }
{
    transactions
        .iter()
        .any(|transaction| is_applied(locked, transaction))
}

/// The change that the transactions make, if they are one that is applied and has a single change.
pub(crate) fn only_applied_change<'a>(
    locked: bool,
    transactions: &'a [StateTxn],
) -> Option<&'a Change>
    ensures { IfSome result (λ change. changes_of locked transactions.now ≡ change.now ∷ []) }
{
    match transactions {
        [transaction] if is_applied(locked, transaction) => single_change(transaction),
        _ => None,
    }
}

fn single_change(transaction: &StateTxn) -> Option<&Change>
    ensures { IfSome result (λ change. transaction.now.mutations ≡ change.now ∷ []) }
{
    match transaction.mutations.as_slice() {
        [change] => Some(change),
        _ => None,
    }
}

/// The keys of the entries in the ranges that the applied transactions clear. Takes a step for each
/// of these keys and of these ranges, however the ranges overlap, and the steps of one sort of the
/// ranges. Fails only with `OutOfMemory`.
pub(crate) fn cleared_keys(
    entries: &EntryMap,
    locked: bool,
    transactions: &[StateTxn],
) -> Result<Vec<EntryKey>, OutOfMemory>
    ensures { IfOk result (λ keys. (key : Key) → is_listed keys.items key
        ≡ is_listed (cleared_keys entries.now (changes_of locked transactions.now)) key) }
{
    let mut ranges = cleared_ranges(entries.alloc(), locked, transactions)?;
    ranges.sort_unstable_by(|range, other| range.begin().cmp(other.begin()));
    entries.keys_in_any(&ranges)
}

/// The ranges that the applied transactions clear. Fails only with `OutOfMemory`.
fn cleared_ranges(
    alloc: Global,
    locked: bool,
    transactions: &[StateTxn],
) -> Result<Vec<&KeyRange>, OutOfMemory>
    ensures { IfOk result (λ ranges. lent_ranges ranges.items
        ≡ cleared_ranges (changes_of locked transactions.now)) }
{
    let mut ranges = Vec::new(alloc);
    for transaction in transactions {
        if is_applied(locked, transaction) {
            add_cleared_ranges(transaction.mutations.as_slice(), &mut ranges)?;
        }
    }
    Ok(ranges)
}

/// Adds the ranges that the changes clear. Fails only with `OutOfMemory`.
fn add_cleared_ranges<'a>(
    changes: &'a [Change],
    ranges: &mut Vec<&'a KeyRange>,
) -> Result<(), OutOfMemory>
    ensures { OnOk result (lent_ranges ranges.new.items
        ≡ lent_ranges ranges.old.items ++ cleared_ranges changes.now) }
{
    for change in changes {
        if let Change::Clear { range } = change {
            ranges.push(range)?;
        }
    }
    Ok(())
}

/// Whether every verdict is Committed.
fn are_committed(verdicts: &[Verdict]) -> bool
    ensures { result ≡ list_all is_committed verdicts.now }
{
    verdicts.iter().all(|verdict| is_committed(*verdict))
}

fn is_committed(verdict: Verdict) -> bool
    ensures { result ≡ is_committed verdict }
{
    match verdict {
        Verdict::Conflict | Verdict::TooOld => false,
        Verdict::Committed => true,
    }
}
