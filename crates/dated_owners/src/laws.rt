//! The law that a map of owners has one count of pieces, however its keys are cut.

ghost use Rattle.dated_owners.specs.Pieces.{PiecesHaveOneCount, AMoveMakesThreePieces};

/// A map has one count of pieces, however its keys are cut: one before any move, and three after a
/// move of keys that lie inside.
pub fn one_count_of_pieces_law()
    ensures one_count { PiecesHaveOneCount }
    ensures scenario { AMoveMakesThreePieces }
{}
