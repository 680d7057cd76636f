//! Why a caller gave up.

ghost use Rattle.std.specs.Prelude.{◌≡◌};
ghost use Rattle.agreed_ledger.specs.declared.refusal.Refusal.TheVariants as ledgers;
ghost use Rattle.uses.specs.Causes.{KeepsReturned, row_in};
ghost use Rattle.uses.specs.declared.refused.Refused.TheVariants.{ByCluster, ByLedger};

use agreed_ledger::Naming;
use model::RowNumber;
use shared_cluster::CommitFault;
use system_keys::OutOfMemory;

/// Which part refused a call, and why.
#[derive(Clone, Copy, Debug, PartialEq, Eq)]
pub enum Refused {
    /// The ledger or its sequencer.
    ByLedger(agreed_ledger::Refusal),
    /// A resolver or a proxy.
    ByCluster(shared_cluster::Refusal),
}

impl Refused {
    ghost use Rattle.uses.specs.Causes.{KeepsReturned, cause_of};

    /// Why the commit failed. The contract says too what the type of what the fault returns says of it.
    pub(crate) fn by<N: Naming>(fault: &CommitFault<N>) -> Refused
        ensures cause { result ≡ cause_of fault.now }
        ensures kept { KeepsReturned N.cells.config fault.now }
    {
        // (its contract says what the types say of what the fault returns)
        let _row = row_of(fault);
        match fault {
            CommitFault::Sequencing { refusal, .. } => Refused::ByLedger(*refusal),
            CommitFault::Beginning { refusal, .. } => Refused::ByCluster(*refusal),
            CommitFault::Resolving { refusal, .. } => Refused::ByCluster(*refusal),
            CommitFault::Finishing { refusal, .. } => Refused::ByCluster(*refusal),
        }
    }
}

/// The row of the record that the failed commit returns, if the batch got one.
fn row_of<N: Naming>(fault: &CommitFault<N>) -> Option<RowNumber>
    ensures value { result ≡ row_in fault.now }
    ensures kept { KeepsReturned N.cells.config fault.now }
{
    match fault {
        CommitFault::Sequencing { .. } => None,
        CommitFault::Beginning { ticket, .. } => Some(ticket.row()),
        CommitFault::Resolving { begun, .. } => Some(begun.row()),
        CommitFault::Finishing { ready, .. } => Some(ready.row()),
    }
}

impl From<agreed_ledger::Refusal> for Refused {
    ghost from_gives = { λ refusal refused. refused ≡ ByLedger refusal };

    fn from(refusal: agreed_ledger::Refusal) -> Refused {
        Refused::ByLedger(refusal)
    }
}

impl From<shared_cluster::Refusal> for Refused {
    ghost from_gives = { λ refusal refused. refused ≡ ByCluster refusal };

    fn from(refusal: shared_cluster::Refusal) -> Refused {
        Refused::ByCluster(refusal)
    }
}

impl From<OutOfMemory> for Refused {
    ghost from_gives = { λ _ refused. refused ≡ ByLedger ledgers.OutOfMemory };

    fn from(_error: OutOfMemory) -> Refused {
        Refused::ByLedger(agreed_ledger::Refusal::OutOfMemory)
    }
}
