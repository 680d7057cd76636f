//! Why a run has no text, its status, and which refusals of a commit are printed.

ghost use Rattle.std.specs.Prelude.{◌≡◌};
ghost use Rattle.threads_lines.specs.Faults.{commit_fault, cluster_fault, ledger_fault, printed_refusal};
ghost use Rattle.threads_lines.specs.Faults.{status_of};
ghost use Rattle.threads_lines.specs.declared.faults.RunFault.TheVariants as faults;

use agreed_ledger::{Naming, Refusal as LedgerRefusal};
use locked_cluster::{CommitFault, Refusal};
use scripts::RunStatus;
use system_keys::OutOfMemory;

/// Why a run has no text (this project's profile).
#[derive(Clone, Copy, Debug, PartialEq, Eq)]
pub enum RunFault {
    /// An allocation failed, or a thread could not be started.
    OutOfMemory,
    /// The cluster refused a call, and not because an allocation failed; or a worker was cut off, since
    /// some proxy did not send its last message; or a check at the end of the run failed, which no run
    /// is known to do.
    Refused,
}

impl RunFault {
    ghost use Rattle.threads_lines.specs.Faults.{fault_with_workers, fault_status, graver};

    /// How the run ends: with 4 for `OutOfMemory`, and with 5 for `Refused`.
    pub fn status(self) -> RunStatus
        ensures { result ≡ fault_status self }
    {
        match self {
            RunFault::OutOfMemory => RunStatus::OutOfMemory,
            RunFault::Refused => RunStatus::ClusterRefused,
        }
    }

    /// Of two faults the one that the run ends with: `OutOfMemory`, if either is that.
    pub fn graver(self, other: RunFault) -> RunFault
        ensures { result ≡ graver self other }
    {
        match self {
            RunFault::OutOfMemory => self,
            RunFault::Refused => other,
        }
    }

    /// The fault of a run whose proxies failed with this one: `OutOfMemory` if a worker was refused
    /// memory, of which a proxy may have seen only that a resolver was closed.
    pub fn fault_with_workers(self, refused_memory: bool) -> RunFault
        ensures { result ≡ fault_with_workers self refused_memory }
    {
        if refused_memory {
            RunFault::OutOfMemory
        } else {
            self
        }
    }
}

impl From<OutOfMemory> for RunFault {
    ghost from_gives = { λ _ fault. fault ≡ faults.OutOfMemory };

    fn from(_error: OutOfMemory) -> RunFault {
        RunFault::OutOfMemory
    }
}

/// The status of a run in which a commit failed with this fault, in any phase: with `OutOfMemory`
/// if an allocation failed, and otherwise with `ClusterRefused`. The refusals of a full ledger
/// and of the end of the versions are printed, and not passed to this function (this project's
/// profile).
pub fn status_of<N: Naming>(fault: &CommitFault<N>) -> RunStatus
    ensures { result ≡ status_of fault.now }
{
    commit_fault(fault).status()
}

/// How a run fails in which a commit has this fault.
fn commit_fault<N: Naming>(fault: &CommitFault<N>) -> RunFault
    ensures { result ≡ commit_fault fault.now }
{
    match fault {
        CommitFault::Sequencing { refusal, batch: _ } => ledger_fault(*refusal),
        CommitFault::Beginning { refusal, ticket: _ } => cluster_fault(*refusal),
        CommitFault::Resolving { refusal, begun: _ } => cluster_fault(*refusal),
        CommitFault::Finishing { refusal, ready: _ } => cluster_fault(*refusal),
    }
}

/// The fault of a run in which the sequencer refused a call with this refusal.
pub(crate) fn ledger_fault(refusal: LedgerRefusal) -> RunFault
    ensures { result ≡ ledger_fault refusal }
{
    match refusal {
        LedgerRefusal::OutOfMemory => RunFault::OutOfMemory,
        _ => RunFault::Refused,
    }
}

/// The fault of a run in which a proxy or a resolver refused a call with this refusal.
pub(crate) fn cluster_fault(refusal: Refusal) -> RunFault
    ensures { result ≡ cluster_fault refusal }
{
    match refusal {
        Refusal::OutOfMemory => RunFault::OutOfMemory,
        _ => RunFault::Refused,
    }
}

/// The refusal that is printed of a commit that has this fault, or how the run fails. It is printed
/// if the batch got no record, since the ledger is full or there are no more versions.
pub(crate) fn printed_refusal<N: Naming>(fault: &CommitFault<N>) -> Result<LedgerRefusal, RunFault>
    ensures { result ≡ printed_refusal fault.now }
{
    match fault {
        CommitFault::Sequencing {
            refusal: LedgerRefusal::LedgerFull { rows },
            batch: _,
        } => Ok(LedgerRefusal::LedgerFull { rows: *rows }),
        CommitFault::Sequencing {
            refusal: LedgerRefusal::VersionsEnd,
            batch: _,
        } => Ok(LedgerRefusal::VersionsEnd),
        _ => Err(commit_fault(fault)),
    }
}
