//! Laws of outcomes and finished batches. No code: each function's contract is a law of the
//! definitions.

ghost use Rattle.model.specs.Laws.Outcomes.{OutcomesStandAtTheirNumbers, OutcomesAfterRecords};
ghost use Rattle.model.specs.Laws.Outcomes.{TheLockRefusesThePlain, FinishedOutcomesAreOfTheRecord};
ghost use Rattle.model.specs.Laws.Outcomes.{FinishedTagsAreAfterTheRow, FinishedBatchesHaveTheRow};
ghost use Rattle.model.specs.Laws.Outcomes.{FinishedBatchesHaveTheVersion};
ghost use Rattle.model.specs.Committed.{CommittedIsTold, ToldNumbersAreItsOwn};
ghost use Rattle.model.specs.Locks.{AHeldLockIsInTheMetadata, AHeldLockRefusesThePlain};

/// The outcomes of a batch are those of its transactions, each at its number, after the records
/// before it and after any journal. The lock refuses exactly the transactions that are not lock
/// aware, while the database is locked.
pub fn outcome_by_number_law()
    ensures journal { OutcomesStandAtTheirNumbers }
    ensures records { OutcomesAfterRecords }
    ensures lock { TheLockRefusesThePlain }
{}

/// A transaction of a history is committed exactly if its outcome is Committed with the version of
/// its record and its own number in the batch. No outcome is Committed with another version or
/// number.
pub fn committed_version_law()
    ensures told { CommittedIsTold }
    ensures numbers { ToldNumbersAreItsOwn }
{}

/// If a committed transaction locked the database, and no committed one after it changed the lock
/// row, the metadata before a later record is locked. A transaction of that record that is not lock
/// aware is then Locked, if its resolvers commit it.
pub fn lock_stays_held_law()
    ensures locked { AHeldLockIsInTheMetadata }
    ensures refused { AHeldLockRefusesThePlain }
{}

/// The outcomes in a finished batch are those of its record, and each mutation in it has the tags
/// and the private copy that the metadata after the record's own row gives it.
pub fn finished_batch_law()
    ensures told { FinishedOutcomesAreOfTheRecord }
    ensures tagged { FinishedTagsAreAfterTheRow }
{}

/// A finished batch has the row and the version of its record.
pub fn finished_row_and_version_law()
    ensures row { FinishedBatchesHaveTheRow }
    ensures version { FinishedBatchesHaveTheVersion }
{}
