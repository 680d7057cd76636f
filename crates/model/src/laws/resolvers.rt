//! Laws of what a resolver is asked, remembers, and answers. No code: each function's contract is a
//! law of the definitions.

ghost use Rattle.model.specs.Laws.Resolvers.{RequestVerdictsAreOfTheShare};
ghost use Rattle.model.specs.Laws.Resolvers.{RequestRowsAreOfTheRecord};
ghost use Rattle.model.specs.Laws.Resolvers.{RequestRepliesAreOfTheRecord};
ghost use Rattle.model.specs.Laws.Resolvers.{RememberedRequestsAreOfTheRecords};
ghost use Rattle.model.specs.Laws.Resolvers.{RequestsKeepTheRule, LaterPartsHaveGreaterNumbers};
ghost use Rattle.model.specs.Laws.Resolvers.{OffersAreAnsweredByRequests, JudgedRequestsCameInTurn};
ghost use Rattle.model.specs.Laws.Resolvers.{OtherEventsLeaveTheJudged, AJudgedOfferAddsItsRequest};
ghost use Rattle.model.specs.Laws.Resolvers.{OtherOffersChangeNothing, OldestProxyVersionIsABound};
ghost use Rattle.model.specs.Laws.Resolvers.{OldestProxyVersionIsOfAProxy};
ghost use Rattle.model.specs.Laws.Resolvers.{RememberedRecordsAreEnough, UnseenRowsAreRemembered};
ghost use Rattle.model.specs.Laws.Resolvers.{RememberedRecordsShrink, OldestRequestVersionIsABound};
ghost use Rattle.model.specs.Laws.Resolvers.{OldestRequestVersionIsOfAProxy};
ghost use Rattle.model.specs.Laws.Resolvers.{RememberedRequestsAreEnough};
ghost use Rattle.model.specs.Laws.Resolvers.{UnseenRequestRowsAreRemembered};
ghost use Rattle.model.specs.Laws.Resolvers.{RememberedRequestsShrink, ReplyRowsGrowByARow};
ghost use Rattle.model.specs.Laws.Resolvers.{AcknowledgedIsByRequests, GreatestIsABound};
ghost use Rattle.model.specs.Laws.Resolvers.{GreatestIsInTheList, GreatestOfNoneIsZero};
ghost use Rattle.model.specs.Laws.Resolvers.{MemoryGivesTheAnswer, VerdictsAreOfTheShares};
ghost use Rattle.model.specs.Laws.Resolvers.{MemoryGivesTheReply, NewMemoryStandsForNoRequests};
ghost use Rattle.model.specs.Laws.Resolvers.{JudgingAddsARequest, RowsAreOfTheRemembered};
ghost use Rattle.model.specs.Laws.Resolvers.{KeptRowsRise, KeptRepliesRise};

/// What a resolver computes from the requests alone equals what the definitions say of the records:
/// its verdicts on its share, the row of the record, its reply, and the requests whose rows it
/// remembers.
pub fn requests_tell_records_law()
    ensures verdicts { RequestVerdictsAreOfTheShare }
    ensures row { RequestRowsAreOfTheRecord }
    ensures reply { RequestRepliesAreOfTheRecord }
    ensures remembered { RememberedRequestsAreOfTheRecords }
{}

/// The request for any record to any resolver keeps the rule of a request. In a request that keeps
/// the rule, no two parts have the same number: a later part has a greater one.
pub fn request_rule_law()
    ensures kept { RequestsKeepTheRule }
    ensures numbers { LaterPartsHaveGreaterNumbers }
{}

/// What a world answers to an Offer is what the resolver answers by the requests that it has judged,
/// and those came in their turn.
pub fn offer_answer_law()
    ensures answer { OffersAreAnsweredByRequests }
    ensures in_turn { JudgedRequestsCameInTurn }
{}

/// Only an Offer to it changes which requests a resolver has judged. An Offer that is judged adds its
/// request, and any other Offer changes nothing.
pub fn judged_requests_law()
    ensures kept { OtherEventsLeaveTheJudged }
    ensures more { AJudgedOfferAddsItsRequest }
    ensures others { OtherOffersChangeNothing }
{}

/// The version that every proxy has reached is at or below the last version of each proxy, and it
/// is the last version of one of them. So what a resolver remembers before a record is enough to
/// compute the rows that the record's proxy has not seen. With one record more it need only forget
/// from what it remembered.
pub fn enough_rows_remembered_law()
    ensures each { OldestProxyVersionIsABound }
    ensures tight { OldestProxyVersionIsOfAProxy }
    ensures enough { RememberedRecordsAreEnough }
    ensures told { UnseenRowsAreRemembered }
    ensures more { RememberedRecordsShrink }
{}

/// The same holds of requests, whatever records they are for. The version that every proxy has
/// reached is that of the proxy that is furthest behind, and the requests and rows above it are
/// enough for a request of any proxy. With one request more, not below its proxy's last one, the
/// resolver need only forget from what it remembered, and its rows grow by the new one.
pub fn enough_requests_remembered_law()
    ensures each { OldestRequestVersionIsABound }
    ensures tight { OldestRequestVersionIsOfAProxy }
    ensures enough { RememberedRequestsAreEnough }
    ensures told { UnseenRequestRowsAreRemembered }
    ensures more { RememberedRequestsShrink }
    ensures next { ReplyRowsGrowByARow }
{}

/// The version that a proxy has acknowledged to a resolver is the greatest that the requests of
/// that proxy, among those that the resolver has judged, say that the proxy had received. The
/// greatest number of a list that is not empty is in the list, and no number of the list is above
/// it. The greatest of no numbers is 0.
pub fn acknowledged_version_law()
    ensures requests { AcknowledgedIsByRequests }
    ensures bound { GreatestIsABound }
    ensures there { GreatestIsInTheList }
    ensures none { GreatestOfNoneIsZero }
{}

/// Whatever requests a resolver stands for, it answers any request by what it keeps as the definition
/// does by the requests, and makes the same reply.
pub fn resolver_answer_law()
    ensures answer { MemoryGivesTheAnswer }
    ensures verdicts { VerdictsAreOfTheShares }
    ensures reply { MemoryGivesTheReply }
{}

/// A new resolver stands for no requests, and one that judges a request stands for one more. It keeps
/// as many rows as requests are remembered, and rows and replies in the order of their versions.
pub fn resolver_stands_for_requests_law()
    ensures made { NewMemoryStandsForNoRequests }
    ensures judged { JudgingAddsARequest }
    ensures count { RowsAreOfTheRemembered }
    ensures rows { KeptRowsRise }
    ensures replies { KeptRepliesRise }
{}
