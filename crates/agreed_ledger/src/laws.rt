//! The law that sequencing loses no record and no move.

ghost use Rattle.agreed_ledger.specs.Sequencing.{TicketsContinue, BatchesHaveTheMoveBefore};

/// Sequencing loses no record and no move: each ticket continues the one before, and a batch after
/// a move has that move.
pub fn sequencing_loses_nothing_law()
    ensures tickets { TicketsContinue }
    ensures moves { BatchesHaveTheMoveBefore }
{}
