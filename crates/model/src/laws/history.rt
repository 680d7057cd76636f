//! Laws of histories: how they grow, their chain of versions, and their rows. No code: each
//! function's contract is a law of the definitions.

ghost use Rattle.model.specs.Laws.History.{NoRecordsAreAHistory, HistoriesGrow, LastRecordFollows};
ghost use Rattle.model.specs.Laws.History.{FirstRecordsAreAHistory, RecordsHaveTheirRows};
ghost use Rattle.model.specs.Laws.History.{NoVersionIsAboveTheLast, RecordsUpToAVersionAreFirst};
ghost use Rattle.model.specs.Laws.History.{NoMovesFollowNoRecords, MovesFollowARecord};
ghost use Rattle.model.specs.Laws.History.{MovesFollowAMove, VersionsAreMultiplesOfTheStep};
ghost use Rattle.model.specs.Laws.History.{RowsGiveTheNumbers, VersionsIncrease};
ghost use Rattle.model.specs.Laws.History.{OldestVersionsNeverDecrease, OwnVersionsAreNoLater};
ghost use Rattle.model.specs.Laws.History.{NextNumbersFollow, FirstRowsByVersion};
ghost use Rattle.model.specs.Laws.History.{CountOfRowsByVersion, CountOfRowsByRecord};
ghost use Rattle.model.specs.Laws.History.{NoRowIsUpToZero, LowerVersionsAreInEarlierRows};
ghost use Rattle.model.specs.Laws.History.{VersionsAreUnique, HistoriesSplitAtARow};
ghost use Rattle.model.specs.Laws.History.{SeenAndUnseenAreAll};

/// The empty list is a history. A history can be extended by exactly the records that follow it,
/// and its first records are a history. Each record stands at its row, no version is above the last
/// one, and the records up to a version are the first ones. The sequencer's moves still follow
/// after a record that has all of them, and after a further move to a resolver of the cluster.
pub fn history_growth_law()
    ensures none { NoRecordsAreAHistory }
    ensures next { HistoriesGrow }
    ensures last { LastRecordFollows }
    ensures first { FirstRecordsAreAHistory }
    ensures rows { RecordsHaveTheirRows }
    ensures versions { NoVersionIsAboveTheLast }
    ensures up_to { RecordsUpToAVersionAreFirst }
    ensures no_moves { NoMovesFollowNoRecords }
    ensures record_more { MovesFollowARecord }
    ensures move_more { MovesFollowAMove }
{}

/// In a history the row of a record gives its numbers: its previous version is the row times the
/// step, and its version is one step more, below 2^63. So versions increase, oldest versions never
/// decrease, and the version of the same proxy's record before is at most the previous version.
pub fn version_chain_law()
    ensures before { VersionsAreMultiplesOfTheStep }
    ensures numbers { RowsGiveTheNumbers }
    ensures rise { VersionsIncrease }
    ensures oldest_rises { OldestVersionsNeverDecrease }
    ensures own { OwnVersionsAreNoLater }
{}

/// A record with the next numbers follows the history.
pub fn next_record_law()
    ensures { NextNumbersFollow }
{}

/// If the step is at least 1, a version names a row: the records up to a version are the first
/// rows, and different rows have different versions.
pub fn version_names_row_law()
    ensures first { FirstRowsByVersion }
    ensures front { CountOfRowsByVersion }
    ensures row { CountOfRowsByRecord }
    ensures none { NoRowIsUpToZero }
    ensures below { LowerVersionsAreInEarlierRows }
    ensures one { VersionsAreUnique }
{}

/// If the step is at least 1, a version that is a multiple of the step splits a history at a row:
/// into the rows before it, and the records after the version.
pub fn split_at_version_law()
    ensures { HistoriesSplitAtARow }
{}

/// The records of a history up to a version, and then those after it, are all of them in order. So
/// a proxy's journal continues with the rows that it has not seen.
pub fn seen_then_unseen_law()
    ensures { SeenAndUnseenAreAll }
{}
