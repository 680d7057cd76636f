//! Laws of the rule of commit. No code: each function's contract is a law of the definitions.

ghost use Rattle.model.specs.Laws.Owners.{OverlapIsTested};
ghost use Rattle.model.specs.Laws.Serializability.{HistoriesAreSerial};
ghost use Rattle.model.specs.Committed.{SerialIsByKeys, WritingTheLockRowIsOverlap};
ghost use Rattle.model.specs.Committed.{SerialKeepsTheLockRow, HistoriesKeepTheLockRow};
ghost use Rattle.model.specs.Committed.{ALockStopsPlainStateTransactions};

/// Every history obeys the rule of commit: no committed transaction read a range that another
/// committed one wrote between its snapshot and itself. By keys the rule is the same: it read no
/// key that the other one wrote.
pub fn serial_law()
    ensures histories { HistoriesAreSerial }
    ensures keys { SerialIsByKeys }
{}

/// The rule of commit, for the lock row: if a committed transaction writes over the lock row
/// between the snapshot of another committed one and that one itself, the second is no state
/// transaction or is lock aware. This holds for all records that obey the rule, and so for every
/// history. A transaction, lock aware or not, writes over the lock row exactly if a write of it
/// overlaps the range of the lock row alone. So a state transaction that is not lock aware is not
/// committed if such a write lies between its snapshot and itself.
pub fn lock_row_law()
    ensures writes { WritingTheLockRowIsOverlap }
    ensures serial { SerialKeepsTheLockRow }
    ensures histories { HistoriesKeepTheLockRow }
    ensures stopped { ALockStopsPlainStateTransactions }
{}

/// Two ranges have a key in common exactly if one of their begins is in both.
pub fn overlap_by_begins_law()
    ensures { OverlapIsTested }
{}
