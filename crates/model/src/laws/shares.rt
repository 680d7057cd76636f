//! Laws of shares: the parts that a resolver judges, and what it may forget of them. No code: each
//! function's contract is a law of the definitions.

ghost use Rattle.model.specs.Laws.Shares.{PartsAreOfAskers, ShareVerdictsAreOfAskers};
ghost use Rattle.model.specs.Laws.Shares.{VerdictsContinue, OneVerdictAPart};
ghost use Rattle.model.specs.Laws.Shares.{OneVerdictAPartOfAShare, ForgettingKeepsTheVerdict};
ghost use Rattle.model.specs.Laws.Shares.{ForgettingKeepsLaterParts, ConflictIsByLastVersions};
ghost use Rattle.model.specs.Laws.Shares.{LastVersionsDecideTheVerdict, SharesBeginAsParts};
ghost use Rattle.model.specs.Laws.Shares.{WritesGiveTheVerdict, PartsAddTheirWrites};
ghost use Rattle.model.specs.Laws.Shares.{PartsMakeAShare, NewHistoriesStandForNoShares};
ghost use Rattle.model.specs.Laws.Shares.{WritesGiveTheVerdictsOfAShare, SharesAddTheirWrites};
ghost use Rattle.model.specs.Laws.Shares.{ForgettingKeepsTheShares, ForgottenWritesChangeNoVerdict};
ghost use Rattle.model.specs.Laws.Shares.{RecordsAreJudgedAsShares, ShareVerdictsAreAfterShares};
ghost use Rattle.model.specs.Laws.Shares.{RequestsAreJudgedAsShares, RequestVerdictsAreAfterShares};

/// The verdicts of a resolver on its share of a record are its verdicts on the transactions that
/// ask it, in order. Each part of the share is the part of such a transaction, by its number.
pub fn verdicts_of_share_law()
    ensures parts { PartsAreOfAskers }
    ensures verdicts { ShareVerdictsAreOfAskers }
{}

/// The verdicts on some parts and then on others are those on all of them in a row. There is one
/// verdict for each part, and so one for each part of a share.
pub fn verdicts_append_law()
    ensures longer { VerdictsContinue }
    ensures count { OneVerdictAPart }
    ensures of_share { OneVerdictAPartOfAShare }
{}

/// A resolver may forget the committed parts at or below a bound that is below the version of the
/// part judged and at least the window behind it. The verdict is unchanged, and so are the
/// committed parts above the bound after it.
pub fn forgetting_keeps_verdicts_law()
    ensures verdict { ForgettingKeepsTheVerdict }
    ensures committed { ForgettingKeepsLaterParts }
{}

/// The last committed version at each key decides every verdict: it is Conflict exactly if the part
/// is not too old and reads a key at which that version is above its snapshot, or is its own.
pub fn last_versions_decide_law()
    ensures conflict { ConflictIsByLastVersions }
    ensures decided { LastVersionsDecideTheVerdict }
{}

/// A share may be judged part by part, by writes that have the last committed version at each key.
/// The writes that are forgotten change no verdict.
pub fn parts_by_writes_law()
    ensures begins { SharesBeginAsParts }
    ensures verdict { WritesGiveTheVerdict }
    ensures writes { PartsAddTheirWrites }
    ensures ends { PartsMakeAShare }
{}

/// A whole share, judged part by part by the writes of a history, gets the verdicts of the
/// definition over every list of shares that the history stands for. Forgetting within the bounds
/// keeps what a history stands for, and changes no later verdict.
pub fn shares_by_writes_law()
    ensures made { NewHistoriesStandForNoShares }
    ensures verdicts { WritesGiveTheVerdictsOfAShare }
    ensures judged { SharesAddTheirWrites }
    ensures forgotten { ForgettingKeepsTheShares }
    ensures unchanged { ForgottenWritesChangeNoVerdict }
{}

/// What a resolver judged before a record, or before a request, is a list of shares; its verdicts
/// are those after these shares.
pub fn judged_shares_law()
    ensures records { RecordsAreJudgedAsShares }
    ensures verdicts { ShareVerdictsAreAfterShares }
    ensures requests { RequestsAreJudgedAsShares }
    ensures request_verdicts { RequestVerdictsAreAfterShares }
{}
