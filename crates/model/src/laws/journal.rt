//! Laws of the journal, and of its rows as resolvers reply them. No code: each function's contract
//! is a law of the definitions.

ghost use Rattle.model.specs.Laws.Journal.{JournalsContinue, JournalsGrowByARow};
ghost use Rattle.model.specs.Laws.Journal.{FirstRowsOfAJournal, JournalsAreAsLongAsTheirRecords};
ghost use Rattle.model.specs.Laws.Journal.{RecordsHaveTheirJournalRows};
ghost use Rattle.model.specs.Laws.Journal.{JournalRowsAreOfTheirRecords};
ghost use Rattle.model.specs.Laws.Journal.{AllJournalRowsHaveAllVerdicts};
ghost use Rattle.model.specs.Laws.Journal.{ReplyRowsDetermineTheJournal, JournalRowsUpToAVersion};
ghost use Rattle.model.specs.Laws.Journal.{ReplyRowsAreOfTheJournal, JournalRowsHaveAllVerdicts};
ghost use Rattle.model.specs.Laws.Journal.{ReplyRowsDetermineTheJournalRow};
ghost use Rattle.model.specs.Laws.Journal.{UnseenRowsAreOfTheJournal};

/// The journal of more records begins with the journal of the first ones, by one source of verdicts.
pub fn journal_prefix_law()
    ensures longer { JournalsContinue }
    ensures next { JournalsGrowByARow }
    ensures first { FirstRowsOfAJournal }
{}

/// A journal has exactly one row for each record, in order. The row has the record's version, and a
/// verdict of each resolver for each of its transactions. With at least one resolver, rows that
/// every resolver replies alike are equal.
pub fn one_row_per_record_law()
    ensures count { JournalsAreAsLongAsTheirRecords }
    ensures row { RecordsHaveTheirJournalRows }
    ensures record_there { JournalRowsAreOfTheirRecords }
    ensures verdicts { AllJournalRowsHaveAllVerdicts }
    ensures exact { ReplyRowsDetermineTheJournal }
{}

/// The rows of a journal up to a version are those of the records up to it.
pub fn journal_up_to_version_law()
    ensures { JournalRowsUpToAVersion }
{}

/// The row that a resolver replies of a record is the record's journal row, with the verdicts of
/// this resolver alone, and from resolver 0 the mutations and the lock-aware flag. So the rows that
/// a proxy has not seen are the rows of the journal after its record before, as the resolver
/// replies them. A journal row has a verdict of each resolver for each of its transactions. With at
/// least one resolver, the replies of all of them determine the journal row.
pub fn reply_rows_law()
    ensures row { ReplyRowsAreOfTheJournal }
    ensures verdicts { JournalRowsHaveAllVerdicts }
    ensures exact { ReplyRowsDetermineTheJournalRow }
    ensures unseen { UnseenRowsAreOfTheJournal }
{}
