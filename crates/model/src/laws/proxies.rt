//! Laws of what a proxy learns from replies, and of its journal and routing. No code: each
//! function's contract is a law of the definitions.

ghost use Rattle.model.specs.Laws.Proxies.{RepliesAgreeOnOneListOfRows};
ghost use Rattle.model.specs.Laws.Proxies.{AgreeingRepliesDoNotDisagree};
ghost use Rattle.model.specs.Laws.Proxies.{RepliesAgreeOnTheRowsTheyTell, TrueRepliesAgree};
ghost use Rattle.model.specs.Laws.Proxies.{TrueRepliesFinishTheRecord, TrueRepliesGrowTheJournal};
ghost use Rattle.model.specs.Laws.Proxies.{TrueRepliesKeepTheProxyInStep};
ghost use Rattle.model.specs.Laws.Proxies.{WorldRepliesAreByTheHistory, WorldsFinishByReplies};
ghost use Rattle.model.specs.Laws.Proxies.{WorldJournalsGrowByReplies};
ghost use Rattle.model.specs.Laws.Proxies.{FinishedVersionIsTheOneBefore};
ghost use Rattle.model.specs.Laws.Proxies.{OnlyItsFinishChangesTheJournal};
ghost use Rattle.model.specs.Laws.Proxies.{AFinishAppendsTheUnseenRows, ALaterRecordMayBegin};
ghost use Rattle.model.specs.OwnRouting.{RoutingIsOfItsJournal, OnlyItsFinishChangesTheRouting};
ghost use Rattle.model.specs.OwnRouting.{AFinishBringsItsVersion};

/// A proxy may begin a record of a history if its map of owners holds the moves of the first
/// records, of any number up to the row of that one. It needs no world and no other proxy.
pub fn may_begin_law()
    ensures { ALaterRecordMayBegin }
{}

/// With at least one resolver, replies agree on at most one list of rows. They agree on some rows
/// exactly if they disagree at no version, and then on the rows that they tell.
pub fn replies_agree_law()
    ensures unique { RepliesAgreeOnOneListOfRows }
    ensures agree { AgreeingRepliesDoNotDisagree }
    ensures told { RepliesAgreeOnTheRowsTheyTell }
{}

/// If the replies to a record are those that the resolvers give by a source of verdicts, they agree
/// on the rows of the journal that the proxy has not seen. A proxy that goes by the replies alone
/// then finishes the record as the source has it, and its journal stays the source's journal.
pub fn finish_by_replies_law()
    ensures agree { TrueRepliesAgree }
    ensures finished { TrueRepliesFinishTheRecord }
    ensures journal { TrueRepliesGrowTheJournal }
    ensures in_step { TrueRepliesKeepTheProxyInStep }
{}

/// The same in a world without threads, whose resolvers reply by the verdicts of its history.
pub fn finish_in_world_law()
    ensures replied { WorldRepliesAreByTheHistory }
    ensures answer { WorldsFinishByReplies }
    ensures journal { WorldJournalsGrowByReplies }
{}

/// The last version that a proxy finished is the one before the record that it finishes next. No
/// event but its own finish changes its journal. Its own finish appends the rows that the proxy has
/// not seen, and the row of the record that it finishes.
pub fn proxy_journal_law()
    ensures turn { FinishedVersionIsTheOneBefore }
    ensures kept { OnlyItsFinishChangesTheJournal }
    ensures grown { AFinishAppendsTheUnseenRows }
{}

/// The routing of a proxy is that at the last version that it finished, of its own metadata, the
/// fold of its own journal. No event but its own finish changes it, and that one brings it to the
/// version of the record that the proxy finishes.
pub fn proxy_routing_law()
    ensures own { RoutingIsOfItsJournal }
    ensures kept { OnlyItsFinishChangesTheRouting }
    ensures version { AFinishBringsItsVersion }
{}
