//! The checks of a batch: of its transactions, and of their number.

ghost use Rattle.std.specs.Prelude.{◌≡◌, None, map, IfOk, OnOk};
ghost use Rattle.mutation.specs.Faults.{first_fault, transaction_fault};
ghost use Rattle.mutation.specs.Transactions.{given_from};
ghost use Rattle.scripts.specs.BatchChecks.{checked_batch, checked_each, checked_transactions};
ghost use Rattle.scripts.specs.BatchChecks.{fault_of_refusal};
ghost use Rattle.scripts.specs.ScriptFaults.{IsReadAs};

use crate::checks::Checked;
use crate::script_fault::ScriptFault;
use mutation::{Admitted, Batch, Refusal, Transaction, admit_owned};
use std::alloc::Global;
use system_keys::Items;

impl From<Refusal> for ScriptFault {
    ghost from_gives = { λ refusal fault. fault ≡ fault_of_refusal refusal };

    fn from(refusal: Refusal) -> ScriptFault {
        match refusal {
            Refusal::OutOfMemory => ScriptFault::OutOfMemory,
            refused => ScriptFault::Refused(refused),
        }
    }
}

impl Checked<Items<Transaction>> for Batch {
    ghost checked = { checked_transactions };

    fn check(alloc: Global, raw: Items<Transaction>) -> Result<Batch, ScriptFault> {
        admit_batch(alloc, raw)
    }
}

/// Returns the batch of these transactions, or the first fault of one in their order, or else that
/// they are too many (this project's profile). No key or value is copied.
pub fn admit_batch(alloc: Global, given: Items<Transaction>) -> Result<Batch, ScriptFault>
    ensures { IsReadAs (λ found. found) result (checked_batch (map given_from given)) }
{
    match Batch::new(admit_each(alloc, given)?) {
        Ok(batch) => Ok(batch),
        Err((refusal, _)) => Err(ScriptFault::from(refusal)),
    }
}

// All of the list, or the first fault.
fn admit_each(alloc: Global, given: Items<Transaction>) -> Result<Vec<Admitted>, ScriptFault>
    ensures kept { IfOk result (λ admitted. admitted.items ≡ map given_from given) }
    ensures limits { OnOk result (first_fault transaction_fault (map given_from given) ≡ None) }
    ensures value { IsReadAs (λ admitted. admitted.items) result
        (checked_each (map given_from given)) }
{
    let transactions = Vec::from(given);
    let mut admitted = Vec::with_capacity(alloc, transactions.len())?;
    for transaction in transactions {
        admitted.push(admit_owned(alloc, transaction)?)?;
    }
    Ok(admitted)
}
