//! Edge cases of replies: which have come, and which agree. No code: each contract is a list of
//! edge cases.

ghost use Rattle.model.specs.FinishingEdges.{TheRowsThatRepliesTell, TheVerdictsThatRepliesHave};
ghost use Rattle.model.specs.FinishingEdges.{RepliesThatHaveNotCome, RepliesToAnotherRecord};
ghost use Rattle.model.specs.FinishingEdges.{OtherNumbersOfVerdicts, TheRecordIsCheckedFirst};
ghost use Rattle.model.specs.FinishingEdges.{AMissingRow, ARowMissingInBoth, ARowTooMany};
ghost use Rattle.model.specs.FinishingEdges.{AVersionBetween, OtherNumbersOfStateTransactions};
ghost use Rattle.model.specs.FinishingEdges.{ContentOfTheWrongResolver};

/// What replies that agree tell, and which replies have not come.
pub fn reply_edges()
    ensures rows { TheRowsThatRepliesTell }
    ensures verdicts { TheVerdictsThatRepliesHave }
    ensures not_come { RepliesThatHaveNotCome }
{}

/// Replies to another record, or with another number of verdicts, disagree at the record's version.
pub fn other_record_edges()
    ensures other { RepliesToAnotherRecord }
    ensures verdicts { OtherNumbersOfVerdicts }
    ensures first { TheRecordIsCheckedFirst }
{}

/// Replies whose unseen rows do not fit together disagree at the versions that should stand there.
pub fn disagreement_edges()
    ensures missing { AMissingRow }
    ensures missing_in_both { ARowMissingInBoth }
    ensures too_many { ARowTooMany }
    ensures between { AVersionBetween }
    ensures states { OtherNumbersOfStateTransactions }
    ensures content { ContentOfTheWrongResolver }
{}
