//! Laws of moves, of the owners that they leave, and of maps that stand for them. No code: each
//! function's contract is a law of the definitions.

ghost use Rattle.model.specs.Laws.Owners.{AsksWriteIsTested, AsksReadIsTested};
ghost use Rattle.model.specs.Laws.Owners.{WalkTakesTheVisited, TrimmingRaisesTheBound};
ghost use Rattle.model.specs.Laws.Owners.{TrimmingTwiceIsTrimmingOnce};
ghost use Rattle.model.specs.Laws.Owners.{LaterRecordsHaveEarlierMoves, DatesOfOwnersNeverDecrease};
ghost use Rattle.model.specs.Laws.Owners.{TrimmedOwnersAreWalkedToTheOldest, EachKeyHasALastOwner};
ghost use Rattle.model.specs.Laws.Owners.{MovesAreWithinTheCluster, DatesOfMovesNeverDecrease};
ghost use Rattle.model.specs.Laws.Owners.{VisitedResolversAreOfTheCluster};
ghost use Rattle.model.specs.Laws.Owners.{LastOwnersAreOfTheCluster, AMoveAppendsAnOwner};
ghost use Rattle.model.specs.Laws.Owners.{TrimmingKeepsTheWalk, TrimmingKeepsTheOrderOfDates};
ghost use Rattle.model.specs.OwnerMaps.{NewStandsForNoMoves, MoveAddsOneMove};
ghost use Rattle.model.specs.OwnerMaps.{ForgettingKeepsTheMoves, SameMovesLeaveTheSame};
ghost use Rattle.model.specs.OwnerMaps.{LeftOwnersAreEnough, ReadersAreThoseOfTheMap};
ghost use Rattle.model.specs.OwnerMaps.{WritersAreThoseOfTheMap, SameMovesAnswerAlike};
ghost use Rattle.model.specs.OwnerMaps.{StandingMapsAskAlike, MoveAddsOneToAsk};
ghost use Rattle.model.specs.OwnerMaps.{ForgettingAsksAlike, ReadersAreThoseAsked};
ghost use Rattle.model.specs.OwnerMaps.{WritersAreThoseAsked};

/// The finite tests `asks_write` and `asks_read` hold exactly if some key of the range, among all
/// keys, is a witness.
pub fn finite_asking_tests_law()
    ensures writes { AsksWriteIsTested }
    ensures reads { AsksReadIsTested }
{}

/// The walk from the back of a list takes exactly the resolvers that are visited. If dates never
/// decrease, the walk over a trimmed list is that of the greater of the bound and `oldest`.
/// Trimming a list earlier, before newer owners came, does not change what is left when it is
/// trimmed later.
pub fn walk_visits_law()
    ensures met { WalkTakesTheVisited }
    ensures front { TrimmingRaisesTheBound }
    ensures again { TrimmingTwiceIsTrimmingOnce }
{}

/// In a history each record begins with the moves of every earlier record, and the further ones are
/// dated after the earlier record's version. The dates of the owners of a key never decrease, so a
/// trimmed list is walked back to the greater of the snapshot and the oldest version. Each key has
/// a resolver of the cluster as its last owner.
pub fn owners_of_history_law()
    ensures moves { LaterRecordsHaveEarlierMoves }
    ensures dates { DatesOfOwnersNeverDecrease }
    ensures front { TrimmedOwnersAreWalkedToTheOldest }
    ensures last { EachKeyHasALastOwner }
{}

/// In a history all moves of a record go to resolvers of the cluster, none is dated more than one
/// after the version before, and their dates never decrease.
pub fn moves_of_history_law()
    ensures within { MovesAreWithinTheCluster }
    ensures rise { DatesOfMovesNeverDecrease }
{}

/// With at least one resolver, each that a walk over the owners of a key visits is of the cluster,
/// and so is the last owner. A further move appends its destination to the owners of the keys in
/// its range, and leaves those of other keys unchanged.
pub fn visited_resolvers_law()
    ensures met { VisitedResolversAreOfTheCluster }
    ensures last { LastOwnersAreOfTheCluster }
    ensures more { AMoveAppendsAnOwner }
{}

/// The walk back to a bound at or above `oldest` visits the same resolvers in a trimmed list, with
/// any newer owners, as in the whole list, whatever the dates. Dates that never decrease still do
/// not once the list is trimmed.
pub fn trimming_keeps_walks_law()
    ensures met { TrimmingKeepsTheWalk }
    ensures dates { TrimmingKeepsTheOrderOfDates }
{}

/// A map without moves stands for no moves. If each key gains the owner of a move, the map stands
/// for one more move; if each key loses more of its front, it stands for the same moves.
pub fn map_stands_for_moves_law()
    ensures made { NewStandsForNoMoves }
    ensures moved { MoveAddsOneMove }
    ensures forgotten { ForgettingKeepsTheMoves }
    ensures left { SameMovesLeaveTheSame }
{}

/// The resolvers that a map asks are those of the definition over every list of moves that the map
/// stands for. So two maps that stand for the same moves, with the same bound, ask the same ones.
pub fn map_asks_by_definition_law()
    ensures walks { LeftOwnersAreEnough }
    ensures reads { ReadersAreThoseOfTheMap }
    ensures writes { WritersAreThoseOfTheMap }
    ensures alike { SameMovesAnswerAlike }
{}

/// A map that stands for moves asks as they do. One that asks as some moves do goes on so when each
/// key gains the owner of one more move, and when each key loses more of its front; and whom it
/// asks are those whom the moves ask.
pub fn map_asks_as_moves_law()
    ensures stands { StandingMapsAskAlike }
    ensures moved { MoveAddsOneToAsk }
    ensures forgotten { ForgettingAsksAlike }
    ensures reads { ReadersAreThoseAsked }
    ensures writes { WritersAreThoseAsked }
{}
