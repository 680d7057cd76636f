//! Laws of when no record can follow, of the line of an audit, and of how a run ends that fails. No
//! code: each contract states something of definitions.

ghost use Rattle.std.specs.Prelude.{◌≡◌};
ghost use Rattle.locked_cluster.specs.declared.commits.commit_fault.CommitFault.{CommitFault};
ghost use Rattle.scripts.specs.declared.status.RunStatus.TheVariants as statuses;
ghost use Rattle.threads_lines.specs.Faults.{status_of};
ghost use Rattle.threads_lines.specs.Laws.{GraverIsOutOfMemory, IsMemoryFault};
ghost use Rattle.threads_lines.specs.Laws.{WorkersWithoutMemory};
ghost use Rattle.threads_lines.specs.Laws.{ALedgerIsFull, NoRecordFollowsAnEnd, VersionsHaveEnded};
ghost use Rattle.threads_lines.specs.Laws.{AllHaveReachedIfAnAuditIsOk, AnAuditIsOkIfAllHaveReached};

use agreed_ledger::Naming;

/// When no record can follow: a record that follows has no row in the ledger. A ledger that is full,
/// and versions that have ended, on small values.
pub fn no_record_follows_law()
    ensures none_follows { NoRecordFollowsAnEnd }
    ensures full { ALedgerIsFull }
    ensures ended { VersionsHaveEnded }
{}

/// The line of an audit says `ok` exactly if each resolver has reached the proxy's version.
pub fn audit_line_law()
    ensures reached { AnAuditIsOkIfAllHaveReached }
    ensures ok { AllHaveReachedIfAnAuditIsOk }
{}

/// A run ends with 4 by a commit that failed since it was refused memory, in whatever phase, and with 5
/// by a commit that failed for any other reason.
pub fn status_of_fault_law<N: Naming>()
    ensures memory { (fault : CommitFault N) → IsMemoryFault fault
        → status_of fault ≡ statuses.OutOfMemory }
    ensures others { (fault : CommitFault N) → (IsMemoryFault fault → ⊥)
        → status_of fault ≡ statuses.ClusterRefused }
{}

/// Edge cases of two faults, and of a fault beside workers that were refused memory.
pub fn faults_edges()
    ensures graver { GraverIsOutOfMemory }
    ensures workers { WorkersWithoutMemory }
{}
