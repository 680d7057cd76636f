//! Why a commit failed.

use crate::proxies::{Begun, Ready};
use agreed_ledger::{Naming, Ticket};
use locked_resolvers::Refusal;
use mutation::Batch;

/// Why a commit failed: the phase, the refusal, and what the phase was given, from which the commit
/// can go on.
#[derive(Drop)]
pub enum CommitFault<N: Naming> {
    /// The batch got no record.
    Sequencing {
        /// Why.
        refusal: agreed_ledger::Refusal,
        /// The batch.
        batch: Batch,
    },
    /// The record of the batch was not begun.
    Beginning {
        /// Why.
        refusal: Refusal,
        /// The ticket of the record.
        ticket: Ticket<N>,
    },
    /// Some resolver did not reply to the record.
    Resolving {
        /// Why.
        refusal: Refusal,
        /// The requests for the record.
        begun: Begun<N>,
    },
    /// The record was not finished.
    Finishing {
        /// Why.
        refusal: Refusal,
        /// The replies to the record.
        ready: Ready<N>,
    },
}
