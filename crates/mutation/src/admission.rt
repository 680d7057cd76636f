//! Admission: from unchecked bytes to a transaction in which every limit holds.

ghost use Rattle.std.specs.Prelude.{◌≡◌, None, map, IfOk, OnOk};
ghost use Rattle.system_keys.specs.AsSpecified.{IsAsSpecified, unless_fault};
ghost use Rattle.mutation.specs.Faults.{first_fault, transaction_fault};
ghost use Rattle.mutation.specs.Faults.{fault_of_range, fault_of_mutation};
ghost use Rattle.mutation.specs.Transactions.{range_from, from_unchecked, given_from};
ghost use Rattle.mutation.specs.Admitted.{from_admitted};
ghost use Rattle.mutation.specs.Refusals.{refusal_fault};

use crate::admitted::{Admitted, AdmittedMutation};
use crate::checks::check_transaction;
use crate::refusal::Refusal;
use crate::transaction::{GivenRange, Mutation, Transaction};
use model::Ranges;
use std::alloc::Global;
use system_keys::{Bytes, Items, KeyRange, OutOfMemory};

/// Admits a transaction in which every limit holds. Every field is as given.
///
/// Otherwise returns the first fault: of its reads, then of its writes, then of its mutations, each
/// in order, and of each range or mutation in the order of the numbers. Fails with `OutOfMemory`
/// only for a transaction without a fault.
pub fn admit(alloc: Global, transaction: &Transaction) -> Result<Admitted, Refusal>
    ensures kept { IfOk result (λ admitted. admitted ≡ given_from transaction.now) }
    ensures limits { OnOk result (transaction_fault (given_from transaction.now) ≡ None) }
    ensures value { let given = given_from transaction.now in
        IsAsSpecified refusal_fault (λ admitted. admitted) result
        (unless_fault (transaction_fault given) given) }
{
    check_transaction(transaction)?;
    Ok(to_admitted(alloc, transaction.copy()?)?)
}

/// Admits a transaction of the caller as `admit` does: its keys and values become those of the
/// admitted one, and none is copied.
pub fn admit_owned(alloc: Global, transaction: Transaction) -> Result<Admitted, Refusal>
    ensures kept { IfOk result (λ admitted. admitted ≡ given_from transaction) }
    ensures limits { OnOk result (transaction_fault (given_from transaction) ≡ None) }
    ensures value { let given = given_from transaction in
        IsAsSpecified refusal_fault (λ admitted. admitted) result
        (unless_fault (transaction_fault given) given) }
{
    check_transaction(&transaction)?;
    Ok(to_admitted(alloc, transaction)?)
}

/// Returns the admitted transaction of one without a fault.
fn to_admitted(alloc: Global, transaction: Transaction) -> Result<Admitted, OutOfMemory>
    requires { transaction_fault (given_from transaction) ≡ None }
    ensures { IfOk result (λ admitted. admitted ≡ given_from transaction) }
{
    Ok(Admitted::of_parts(
        transaction.snapshot,
        Ranges::new(
            alloc,
            Items::from(to_ranges(alloc, transaction.reads)?),
            Items::from(to_ranges(alloc, transaction.writes)?),
        )?,
        to_mutations(alloc, transaction.mutations)?,
        transaction.lock_aware,
    ))
}

/// Returns the ranges of bytes without a fault.
fn to_ranges(alloc: Global, ranges: Items<GivenRange>) -> Result<Vec<KeyRange>, OutOfMemory>
    requires { first_fault fault_of_range (map range_from ranges) ≡ None }
    ensures { IfOk result (λ checked. checked.items ≡ map range_from ranges) }
{
    let given = Vec::from(ranges);
    let mut checked = Vec::with_capacity(alloc, given.len())?;
    for range in given {
        checked.push(to_range(range.begin, range.end))?;
    }
    Ok(checked)
}

/// Returns the mutations of bytes without a fault.
fn to_mutations(
    alloc: Global,
    mutations: Items<Mutation>,
) -> Result<Vec<AdmittedMutation>, OutOfMemory>
    requires { first_fault fault_of_mutation (map from_unchecked mutations) ≡ None }
    ensures { IfOk result (λ admitted.
        map from_admitted admitted.items ≡ map from_unchecked mutations) }
{
    let given = Vec::from(mutations);
    let mut admitted = Vec::with_capacity(alloc, given.len())?;
    for mutation in given {
        admitted.push(to_mutation(mutation))?;
    }
    Ok(admitted)
}

/// Returns the mutation of bytes without a fault.
fn to_mutation(mutation: Mutation) -> AdmittedMutation
    requires { fault_of_mutation (from_unchecked mutation) ≡ None }
    ensures { from_admitted result ≡ from_unchecked mutation }
{
    match mutation {
        Mutation::Set { key, value } => AdmittedMutation::Set { key, value },
        Mutation::Clear { begin, end } => AdmittedMutation::Clear {
            range: to_range(begin, end),
        },
        Mutation::SetStamped { key, value } => AdmittedMutation::SetStamped { key, value },
    }
}

/// Returns the range of bytes without a fault.
fn to_range(begin: Bytes, end: Bytes) -> KeyRange
    requires { fault_of_range (record { begin = begin; end = end }) ≡ None }
    ensures { result ≡ record { begin = begin; end = end } }
{
    KeyRange::from_checked(begin, end)
}
