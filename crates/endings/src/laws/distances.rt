//! Laws of distances: how far apart proxies can be, and what resolvers keep for the slowest. No
//! code: each function's contract is a law of the definitions.

ghost use Rattle.endings.specs.Distances.{NothingFinishedNothingKnown};
ghost use Rattle.endings.specs.Distances.{AProxyKnowsUpToItsLastRecord, TheLaterVersionKnowsMore};
ghost use Rattle.endings.specs.Distances.{AFinishCatchesUp, EachJournalIsAPrefix};
ghost use Rattle.endings.specs.Distances.{TheOneAheadHasTheJournalOfTheOther};
ghost use Rattle.endings.specs.Distances.{TheOneAheadHasTheMetadataOfTheOther};
ghost use Rattle.endings.specs.Distances.{ItLacksItsUnfinishedRecords};
ghost use Rattle.endings.specs.Distances.{OnceFinishedItLacksOnlyOthers, TheyMayBeAnyRowsApart};
ghost use Rattle.endings.specs.Distances.{RememberedRowsFollowTheSlowest};
ghost use Rattle.endings.specs.Distances.{FinishedRowsWereReached, SomeProxyIsSlowest};
ghost use Rattle.endings.specs.Distances.{TheSlowestBoundsWhatIsRemembered};

/// A proxy knows every row up to the row of the last record it finished, and no further one. Of
/// two proxies the one at the later version knows at least as many rows.
pub fn known_rows_law()
    ensures none { NothingFinishedNothingKnown }
    ensures known { AProxyKnowsUpToItsLastRecord }
    ensures later { TheLaterVersionKnowsMore }
{}

/// A proxy that finishes a record then knows every row up to that record's.
pub fn catch_up_law()
    ensures { AFinishCatchesUp }
{}

/// The journal of each proxy is a prefix of one journal. So of two proxies the one ahead has the
/// journal of the other, and then the rows between; its metadata is the other's, changed by these.
pub fn journals_are_prefixes_law()
    ensures prefix { EachJournalIsAPrefix }
    ensures journal { TheOneAheadHasTheJournalOfTheOther }
    ensures metadata { TheOneAheadHasTheMetadataOfTheOther }
{}

/// Of its own records a proxy lacks exactly the unfinished ones. So once all records are finished,
/// it lacks only records of other proxies.
pub fn lacks_only_unfinished_law()
    ensures unfinished { ItLacksItsUnfinishedRecords }
    ensures finished { OnceFinishedItLacksOnlyOthers }
{}

/// Nothing but the versions bounds how many rows one proxy knows and another does not, not even if
/// all records are finished.
pub fn unbounded_lag_law()
    ensures { TheyMayBeAnyRowsApart }
{}

/// A resolver remembers the rows that it has judged after the last record of the slowest proxy. A
/// proxy has reached each row that it knows. So what a resolver remembers, and what the slowest proxy
/// knows, are together at most the rows judged. There always is a slowest proxy.
pub fn remembered_rows_law()
    ensures rows { RememberedRowsFollowTheSlowest }
    ensures reached { FinishedRowsWereReached }
    ensures bound { TheSlowestBoundsWhatIsRemembered }
    ensures some { SomeProxyIsSlowest }
{}
