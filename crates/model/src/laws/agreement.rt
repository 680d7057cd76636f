//! Laws of those who hold the same records and verdicts: columns of cells, and sources of verdicts.
//! No code: each function's contract is a law of the definitions.

ghost use Rattle.model.specs.Laws.Agreement.{EmptyViewsAreAgreed, AgreedUpToEarlierRows};
ghost use Rattle.model.specs.Laws.Agreement.{AgreedRowsHaveRecords, AgreedRowsHaveCells};
ghost use Rattle.model.specs.Laws.Agreement.{KnownJournalsHaveTheAgreedRows};
ghost use Rattle.model.specs.Laws.Agreement.{KnownJournalsAreOfTheHistory, NoRecordsNeedNoVerdicts};
ghost use Rattle.model.specs.Laws.Agreement.{VerdictColumnsGrow, VerdictColumnsOfFirstRecords};
ghost use Rattle.model.specs.Laws.Agreement.{ColumnsCutDownHaveSameCells};
ghost use Rattle.model.specs.Laws.Agreement.{FinishedBatchesOfTwoHoldersMeet};
ghost use Rattle.model.specs.Laws.Agreement.{CellsSayTheHistorysVerdicts};
ghost use Rattle.model.specs.Laws.Agreement.{AgreeingSourcesGiveOneJournalRow};
ghost use Rattle.model.specs.Laws.Agreement.{CommittedByCellsIsInTheCell, CommittedInTheCellIsSaid};
ghost use Rattle.model.specs.Laws.Agreement.{CommittedByAHistoryIsInIt};
ghost use Rattle.model.specs.Laws.Agreement.{AgreeingSourcesGiveTheSameOutcomes};
ghost use Rattle.model.specs.Laws.Agreement.{AgreeingSourcesGiveOneFinishedBatch};
ghost use Rattle.model.specs.Laws.Agreement.{AgreeingSourcesGiveOneReplyRow};
ghost use Rattle.model.specs.Laws.Agreement.{AgreeingSourcesGiveTheSameUnseenRows};
ghost use Rattle.model.specs.Laws.Agreement.{CellsGiveTheJournal, CellsGiveTheOutcomes};
ghost use Rattle.model.specs.Laws.Agreement.{CellsGiveTheFinishedBatch, JournalsOfTwoHoldersMeet};
ghost use Rattle.model.specs.Laws.Agreement.{CellsSayWhatTheirColumnSays};
ghost use Rattle.model.specs.Laws.Agreement.{ColumnsSayTheHistorysVerdicts};
ghost use Rattle.model.specs.Laws.Agreement.{RepliesSayWhatTheirSourceSays, ColumnsGiveReplies};
ghost use Rattle.model.specs.Laws.Agreement.{RepliesByColumnsAreByTheCells};
ghost use Rattle.model.specs.Laws.Agreement.{RepliesByVerdictColumnsAreToTheRecord};
ghost use Rattle.model.specs.Growing.{AgreedWithARecord, AgreedWithAnyCells, AgreedWithCells};
ghost use Rattle.model.specs.Growing.{VerdictsWithCells, HistoriesAreAgreed, AllColumnsHaveCells};
ghost use Rattle.model.specs.Growing.{AllColumnsGainVerdicts, AllColumnsAreVerdicts};

/// An empty view is agreed up to row 0, and a view that is agreed up to a row is agreed up to each
/// earlier row. It has the record and each resolver's cell of every row before. The journal that it
/// knows has exactly these rows, and equals the journal of their history if the cells have the
/// verdicts.
pub fn agreed_view_law()
    ensures start { EmptyViewsAreAgreed }
    ensures fewer { AgreedUpToEarlierRows }
    ensures record_there { AgreedRowsHaveRecords }
    ensures cell_there { AgreedRowsHaveCells }
    ensures rows { KnownJournalsHaveTheAgreedRows }
    ensures journal { KnownJournalsAreOfTheHistory }
{}

/// A view grows, from nothing, by the next record and by a cell of each resolver: it is then agreed
/// up to one row more, whatever the cells hold. If each holds its resolver's verdicts on that
/// record, the cells have the verdicts if they had them before. So for each history there are
/// columns, one for each resolver, with which a view is agreed up to the end of the history and has
/// the verdicts. They have a cell for each record, and gain those of the next one.
pub fn view_growth_law()
    ensures nothing { NoRecordsNeedNoVerdicts }
    ensures next_record { AgreedWithARecord }
    ensures any_cells { AgreedWithAnyCells }
    ensures next_cells { AgreedWithCells }
    ensures verdicts { VerdictsWithCells }
    ensures whole { HistoriesAreAgreed }
    ensures whole_cells { AllColumnsHaveCells }
    ensures whole_gains { AllColumnsGainVerdicts }
    ensures whole_verdicts { AllColumnsAreVerdicts }
{}

/// A column of verdict cells with a cell for each row grows, with one record more, by the verdicts
/// of its resolver on that record's share. It is a column of the first records too.
pub fn column_growth_law()
    ensures more { VerdictColumnsGrow }
    ensures first { VerdictColumnsOfFirstRecords }
{}

/// Columns that are cut down to the resolvers of the cluster and to the first rows have the same
/// cells of these rows. Two holders that have the same records and cells of the first rows compute
/// the same finished batch of each of these rows.
pub fn holders_agree_law()
    ensures same { ColumnsCutDownHaveSameCells }
    ensures finished { FinishedBatchesOfTwoHoldersMeet }
{}

/// If a cell has the verdicts of its resolver on its share, the cells say the history's verdict of
/// each transaction that asks the resolver. Two sources of verdicts that agree on a record give it
/// one journal row. The cells say that a transaction is Committed exactly if it asks its resolver,
/// and the cell has that verdict at the place of its part. A transaction that a history says is
/// Committed is in the history.
pub fn agreeing_sources_law()
    ensures known { CellsSayTheHistorysVerdicts }
    ensures journal { AgreeingSourcesGiveOneJournalRow }
    ensures said { CommittedByCellsIsInTheCell }
    ensures in_cell { CommittedInTheCellIsSaid }
    ensures there { CommittedByAHistoryIsInIt }
{}

/// Two sources of verdicts that agree on a record give it the same outcomes and the same finished
/// batch, after any journal before. If they agree on one resolver's verdicts, that resolver replies
/// the same row of the record, and the same rows that a proxy has not seen.
pub fn agreeing_sources_finish_law()
    ensures outcomes { AgreeingSourcesGiveTheSameOutcomes }
    ensures finished { AgreeingSourcesGiveOneFinishedBatch }
    ensures row { AgreeingSourcesGiveOneReplyRow }
    ensures rows { AgreeingSourcesGiveTheSameUnseenRows }
{}

/// If the cells of the first rows of a history have the verdicts of their resolvers, the journal,
/// the outcomes and the finished batches computed from the cells equal those of these rows'
/// history. Of two holders that have the same records and cells of the first rows, the one with
/// more rows has a journal that begins with the other's.
pub fn cells_equal_history_law()
    ensures journal { CellsGiveTheJournal }
    ensures outcomes { CellsGiveTheOutcomes }
    ensures finished { CellsGiveTheFinishedBatch }
    ensures meet { JournalsOfTwoHoldersMeet }
{}

/// What the cells say of a resolver is what its own column says. If a cell of it has the resolver's
/// verdicts on its share, the column says the history's verdicts.
pub fn column_verdicts_law()
    ensures cells { CellsSayWhatTheirColumnSays }
    ensures known { ColumnsSayTheHistorysVerdicts }
{}

/// Replies by a source of verdicts say of their record what the source says. Whatever the columns
/// are, there are replies by them. If each resolver replies by its own column, with a verdict for
/// each part of its share, these are the replies by the cells. If the column has the resolver's
/// verdicts, its reply is the one by the history.
pub fn column_replies_law()
    ensures said { RepliesSayWhatTheirSourceSays }
    ensures given { ColumnsGiveReplies }
    ensures cells { RepliesByColumnsAreByTheCells }
    ensures history { RepliesByVerdictColumnsAreToTheRecord }
{}
