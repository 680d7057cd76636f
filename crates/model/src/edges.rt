//! Edge cases of locks, tags, stamps, records, missing verdicts and refusals. No code: each
//! contract is a list of edge cases.

ghost use Rattle.model.specs.Edges.{TheOutcomesUnderTheLock, TheOwnersAfterAMove};
ghost use Rattle.model.specs.Edges.{TheOldestVersionOfARecord, ARepeatGetsTheSameReply};
ghost use Rattle.model.specs.Edges.{AnUnknownRowIsRefusedFirst};
ghost use Rattle.model.specs.Edges.{AnEmptyValueIsNoLock, TagsRiseByLocalityFirst, TheEndsOfAClear};
ghost use Rattle.model.specs.Edges.{RowsThatDoNotDecode, ValuesThatListTags};
ghost use Rattle.model.specs.Edges.{TheFirstFaultOfTwoLists, TheBytesOfAStamp, AStampAmongText};
ghost use Rattle.model.specs.Edges.{EachStampHasItsNumber, TheSharesOfARecord};
ghost use Rattle.model.specs.Edges.{TheRequestsForARecord, TheJournalRowOfARecord};
ghost use Rattle.model.specs.Edges.{CellsWithoutVerdicts, AHistoryWithoutVerdicts, TooFewVerdicts};
ghost use Rattle.model.specs.Edges.{TheFirstMissingReply, TheLimitsOfACluster};
ghost use Rattle.model.specs.Edges.{TheDatesOfMoves, TheResolversAskedOfThree};
ghost use Rattle.model.specs.Edges.{StrangersAreRefusedFirst};

/// A lock row with an empty value, and the outcomes under the lock.
pub fn lock_edges()
    ensures empty { AnEmptyValueIsNoLock }
    ensures outcomes { TheOutcomesUnderTheLock }
{}

/// The order of tags, the ends of a Clear, rows that do not decode, and values that list tags.
pub fn tag_edges()
    ensures localities { TagsRiseByLocalityFirst }
    ensures ends { TheEndsOfAClear }
    ensures spoiled { RowsThatDoNotDecode }
    ensures listed { ValuesThatListTags }
    ensures first_fault { TheFirstFaultOfTwoLists }
{}

/// The bytes, the place and the number of a stamp.
pub fn stamp_edges()
    ensures bytes { TheBytesOfAStamp }
    ensures text { AStampAmongText }
    ensures numbers { EachStampHasItsNumber }
{}

/// The dates of moves, and the owners, the oldest version, the shares, the resolvers asked, the
/// requests and the journal row of one record.
pub fn record_edges()
    ensures dates { TheDatesOfMoves }
    ensures owners { TheOwnersAfterAMove }
    ensures oldest { TheOldestVersionOfARecord }
    ensures shares { TheSharesOfARecord }
    ensures three_resolvers { TheResolversAskedOfThree }
    ensures requests { TheRequestsForARecord }
    ensures journal_row { TheJournalRowOfARecord }
{}

/// Verdicts that are missing: in cells, in a history, and among those of a state transaction.
pub fn missing_verdict_edges()
    ensures cells { CellsWithoutVerdicts }
    ensures history { AHistoryWithoutVerdicts }
    ensures told { TooFewVerdicts }
{}

/// A repeated request, which check comes first, which missing reply is named, and the limits of
/// numbers.
pub fn refusal_edges()
    ensures repeat { ARepeatGetsTheSameReply }
    ensures unknown_row { AnUnknownRowIsRefusedFirst }
    ensures strangers { StrangersAreRefusedFirst }
    ensures missing { TheFirstMissingReply }
    ensures limits { TheLimitsOfACluster }
{}
