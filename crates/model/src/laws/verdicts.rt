//! Laws of verdicts: of one transaction, joined, missing, and after later records. No code: each
//! function's contract is a law of the definitions.

ghost use Rattle.model.specs.Laws.Verdicts.{ConflictIsByParts, ConflictIsByPlaces};
ghost use Rattle.model.specs.Laws.Verdicts.{TooOldIsByTheWindow, JoinedConflictIsSomeConflict};
ghost use Rattle.model.specs.Laws.Verdicts.{JoinedCommittedIsAllCommitted};
ghost use Rattle.model.specs.Laws.Verdicts.{LaterRecordsKeepVerdicts, LaterRecordsKeepTheJournal};
ghost use Rattle.model.specs.Laws.Verdicts.{LaterRecordsContinueTheMetadata};
ghost use Rattle.model.specs.Laws.Verdicts.{LaterRecordsKeepOutcomes};
ghost use Rattle.model.specs.Laws.Verdicts.{LaterRecordsKeepFinishedBatches};
ghost use Rattle.model.specs.Laws.Verdicts.{LaterRecordsKeepReplies};
ghost use Rattle.model.specs.Missing.{NoRecordIsConflict, NoTransactionIsConflict};
ghost use Rattle.model.specs.Missing.{UnknownRecordIsConflict, NoVerdictInCellIsConflict};
ghost use Rattle.model.specs.Missing.{UnjudgedMarkIsConflict, NoVerdictIsToldAsConflict};

/// The verdict is Conflict exactly if there is a conflict by all pairs, over the parts that a
/// resolver judges and over the places of a history. It is Too old exactly if the part has a read,
/// and its snapshot and the window together are below its version. Otherwise it is Committed.
pub fn conflict_by_pairs_law()
    ensures parts { ConflictIsByParts }
    ensures places { ConflictIsByPlaces }
    ensures too_old { TooOldIsByTheWindow }
{}

/// The joined verdict is Conflict exactly if some verdict is, and Committed exactly if all are.
pub fn joined_verdict_law()
    ensures conflict { JoinedConflictIsSomeConflict }
    ensures committed { JoinedCommittedIsAllCommitted }
{}

/// A missing verdict counts as Conflict: in a history without the record or the transaction; in
/// cells without the record, the cell, the part or a verdict at its place; and in the reply of a
/// resolver that has no verdict on a state transaction.
pub fn missing_is_conflict_law()
    ensures no_record { NoRecordIsConflict }
    ensures no_transaction { NoTransactionIsConflict }
    ensures unknown_record { UnknownRecordIsConflict }
    ensures cell { NoVerdictInCellIsConflict }
    ensures mark { UnjudgedMarkIsConflict }
    ensures told { NoVerdictIsToldAsConflict }
{}

/// Later records change no earlier verdict, outcome, reply or finished batch. The journal of a
/// longer history begins with the shorter one's, and its metadata continues from there.
pub fn later_records_change_nothing_law()
    ensures verdicts { LaterRecordsKeepVerdicts }
    ensures journal { LaterRecordsKeepTheJournal }
    ensures metadata { LaterRecordsContinueTheMetadata }
    ensures outcomes { LaterRecordsKeepOutcomes }
    ensures finished { LaterRecordsKeepFinishedBatches }
    ensures replies { LaterRecordsKeepReplies }
{}
