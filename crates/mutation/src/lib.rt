//! Transactions: as clients give them, admitted, in batches, and with their stamps in.
//!
//! Input is unchecked bytes. An admitted transaction is within every limit, by its type.
//!
//! Sources: FoundationDB release 7.1 (versionstamps) and this project's profile (limits, refusals).
#![tactic(auto)]

mod admission;
mod admitted;
mod batch;
mod checks;
mod laws;
mod refusal;
mod stamp;
mod stamped;
mod transaction;

pub use admission::{admit, admit_owned};
pub use admitted::{Admitted, AdmittedMutation};
pub use batch::{BATCH_LIMIT, Batch};
pub use laws::{first_fault_law, no_fault_within_limits_law, stamps_keep_limits_law};
pub use refusal::Refusal;
pub use stamped::Stamped;
pub use transaction::{GivenRange, Mutation, Transaction};
