//! The limits of a transaction: its first fault, found without allocating.

ghost use Rattle.std.specs.Prelude.{◌≡◌, ◌≢◌, map, Err};
ghost use Rattle.std.specs.Result.{result_err};
ghost use Rattle.mutation.specs.Faults.{first_fault, transaction_fault, has_fixed_form};
ghost use Rattle.mutation.specs.Faults.{fault_of_range, fault_of_set, fault_of_stamp};
ghost use Rattle.mutation.specs.Faults.{fault_of_mutation};
ghost use Rattle.mutation.specs.Transactions.{range_from, from_unchecked, given_from};

use crate::refusal::Refusal;
use crate::stamp::has_room_for_stamp;
use crate::transaction::{GivenRange, Mutation, Transaction};
use system_keys::{RowKind, classify};

/// Returns the first fault of a transaction.
pub(crate) fn check_transaction(transaction: &Transaction) -> Result<(), Refusal>
    ensures fault { result_err result ≡ transaction_fault (given_from transaction.now) }
    ensures content { result ≢ Err Refusal.OutOfMemory }
{
    check_ranges(transaction.reads.as_slice())?;
    check_ranges(transaction.writes.as_slice())?;
    check_mutations(transaction.mutations.as_slice())
}

/// Returns the first fault of some ranges.
fn check_ranges(ranges: &[GivenRange]) -> Result<(), Refusal>
    ensures fault { result_err result ≡ first_fault fault_of_range (map range_from ranges.now) }
    ensures content { result ≢ Err Refusal.OutOfMemory }
{
    for range in ranges {
        check_range(range.begin.as_slice(), range.end.as_slice())?;
    }
    Ok(())
}

/// Returns the first fault of some mutations.
fn check_mutations(mutations: &[Mutation]) -> Result<(), Refusal>
    ensures fault { result_err result
        ≡ first_fault fault_of_mutation (map from_unchecked mutations.now) }
    ensures content { result ≢ Err Refusal.OutOfMemory }
{
    for mutation in mutations {
        check_mutation(mutation)?;
    }
    Ok(())
}

/// Returns the first fault of a mutation.
fn check_mutation(mutation: &Mutation) -> Result<(), Refusal>
    ensures fault { result_err result ≡ fault_of_mutation (from_unchecked mutation.now) }
    ensures content { result ≢ Err Refusal.OutOfMemory }
{
    match mutation {
        Mutation::Set { key, value } => check_set(key.as_slice(), value.as_slice()),
        Mutation::Clear { begin, end } => check_range(begin.as_slice(), end.as_slice()),
        Mutation::SetStamped { key, value } => {
            check_set(key.as_slice(), value.as_slice())?;
            check_stamp(key.as_slice(), value.as_slice())
        }
    }
}

/// Returns the first fault of a range.
fn check_range(begin: &[u8], end: &[u8]) -> Result<(), Refusal>
    ensures fault { result_err result
        ≡ fault_of_range (record { begin = begin.now; end = end.now }) }
    ensures content { result ≢ Err Refusal.OutOfMemory }
{
    Ok(system_keys::check_range(begin, end)?)
}

/// Returns the first fault of a Set.
fn check_set(key: &[u8], value: &[u8]) -> Result<(), Refusal>
    ensures fault { result_err result ≡ fault_of_set key.now value.now }
    ensures content { result ≢ Err Refusal.OutOfMemory }
{
    Ok(system_keys::check_set(key, value)?)
}

/// Returns why no stamp can go into the row.
fn check_stamp(key: &[u8], value: &[u8]) -> Result<(), Refusal>
    ensures fault { result_err result ≡ fault_of_stamp key.now value.now }
    ensures content { result ≢ Err Refusal.OutOfMemory }
{
    if has_fixed_form(classify(key)) {
        return Err(Refusal::Key(system_keys::Refusal::BadRow));
    }
    if !has_room_for_stamp(value) {
        return Err(Refusal::BadStamp);
    }
    Ok(())
}

/// Whether rows of this kind have values of a fixed form.
fn has_fixed_form(kind: RowKind) -> bool
    ensures { result ≡ has_fixed_form kind }
{
    matches!(kind, RowKind::KeyServers | RowKind::ServerTag)
}
