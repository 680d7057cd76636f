//! Batches of admitted transactions.

ghost use Rattle.std.specs.Prelude.{◌≡◌, ◌≤◌, ◌<◌, length, IfOk, MatchResult};

use crate::admitted::Admitted;
use crate::refusal::Refusal;
use std::marker::Model;
use system_keys::{Items, OutOfMemory};

/// The greatest number of transactions in a batch (this project's profile).
pub const BATCH_LIMIT: usize = 1_024;

/// Admitted transactions in the order of their numbers, from 0: at most 1,024.
#[derive(Clone, Debug, Drop)]
pub struct Batch {
    transactions: Items<Admitted>,
}

impl Model for Batch {
    ghost use Rattle.std.specs.Prelude.{List, ◌≤◌, length};
    ghost use Rattle.model.specs.Stamps.{AdmittedTransaction};
    ghost use Rattle.mutation.specs.Limits.{batch_limit};

    ghost Value = { List AdmittedTransaction };

    ghost view = { λ b. b.transactions };

    ghost invariant = { λ b. length b.transactions ≤ batch_limit };
}

impl Batch {
    ghost use Rattle.mutation.specs.Limits.{batch_limit};

    /// Returns the batch of these transactions. For more than 1,024 returns `BatchTooLarge` and the
    /// transactions, unchanged. Does not allocate.
    pub fn new(transactions: Vec<Admitted>) -> Result<Batch, (Refusal, Vec<Admitted>)>
        ensures { MatchResult result
            (λ batch. (length transactions.items ≤ batch_limit) × (batch ≡ transactions.items))
            (λ refused. (batch_limit < length transactions.items)
            × (refused.0 ≡ Refusal.BatchTooLarge) × (refused.1 ≡ transactions)) }
    {
        if transactions.len() > BATCH_LIMIT {
            return Err((Refusal::BatchTooLarge, transactions));
        }
        Ok(Batch {
            transactions: Items::from(transactions),
        })
    }

    /// The transactions, in the order of their numbers.
    pub fn transactions(&self) -> &[Admitted]
        ensures value { result.now ≡ self.now }
        ensures kept { length self.now ≤ batch_limit }
    {
        self.transactions.as_slice()
    }

    /// The transactions, in the order of their numbers. Does not allocate.
    pub fn into_transactions(self) -> Items<Admitted>
        ensures value { result ≡ self }
        ensures kept { length self ≤ batch_limit }
    {
        self.transactions
    }

    /// Returns an equal copy. Fails only with `OutOfMemory`.
    pub fn copy(&self) -> Result<Batch, OutOfMemory>
        ensures { IfOk result (λ copy. copy ≡ self.now) }
    {
        Ok(self.clone()?)
    }
}
