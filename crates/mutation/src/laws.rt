//! Laws of the first fault of a transaction, and of limits that hold with its stamps in too.

ghost use Rattle.std.specs.Prelude.{◌≡◌, ◌↔◌, ℕ, None, slice_get};
ghost use Rattle.model.specs.Stamps.{AdmittedTransaction, stamped};
ghost use Rattle.model.specs.Transactions.{StampedTransaction};
ghost use Rattle.mutation.specs.Faults.{transaction_fault, faults_of, stamped_fault};
ghost use Rattle.mutation.specs.Limits.{EveryLimitHolds, EveryLimitStillHolds};

/// The fault of a transaction is the first of all its faults: those of its reads, then of its
/// writes, then of its mutations, each in order.
pub fn first_fault_law()
    ensures { (t : AdmittedTransaction) → transaction_fault t ≡ slice_get (faults_of t) 0 }
{}

/// A transaction has no fault if and only if every limit holds in it, as given and with its stamps
/// in.
pub fn no_fault_within_limits_law()
    ensures given { (t : AdmittedTransaction) → (transaction_fault t ≡ None) ↔ EveryLimitHolds t }
    ensures stamped { (t : StampedTransaction) → (stamped_fault t ≡ None) ↔ EveryLimitStillHolds t }
{}

/// If every limit holds in a transaction, every limit holds in it with its stamps in, whatever they
/// are.
pub fn stamps_keep_limits_law()
    ensures { (version number : ℕ) (t : AdmittedTransaction)
        → EveryLimitHolds t → EveryLimitStillHolds (stamped version number t) }
{}
