//! A sequencer gives records to two batches, and a range moves between them.

ghost use Rattle.std.specs.Prelude.{◌≡◌, [], ◌∷◌, ◌++◌, take, slice_get, IfErr, IfOk};
ghost use Rattle.std.specs.declared.option.Option.TheVariants.{Some};
ghost use Rattle.model.specs.Records.{Follows};
ghost use Rattle.agreed_ledger.specs.Sequencing.{HasSequenced};
ghost use Rattle.uses.specs.Tickets.{ComesAfter, ComesNext, IsTicketFor, move_after};
ghost use Rattle.uses.specs.Tickets.{RefusesAroundMove, RefusesBatch, RefusesOneOfTwo};

use agreed_ledger::{Ledger, Naming, Refusal, SequencerGuard, Ticket};
use model::{ProxyNumber, ResolverNumber};
use mutation::Batch;
use request_builder::Record;
use system_keys::KeyRange;

/// Gives two batches their records, one after another. The second ticket is of the next row, and its
/// records are those of the first and one more. The record of each is of its proxy and holds its
/// batch. The sequencer has these two records more, and the same moves.
///
/// Fails as [`SequencerGuard::sequence`] does. If the second batch is refused, the first has its
/// record all the same.
pub fn sequence_two<N: Naming>(
    guard: &mut SequencerGuard<'_, N>,
    proxy: ProxyNumber,
    batch: Batch,
    next_proxy: ProxyNumber,
    next_batch: Batch,
) -> Result<(Ticket<N>, Ticket<N>), Refusal>
    ensures first { IfOk result (λ both. IsTicketFor proxy batch guard.old.moves both.0) }
    ensures second { IfOk result (λ both. IsTicketFor next_proxy next_batch guard.old.moves both.1) }
    ensures begins { IfOk result (λ both. ComesAfter guard.old.records both.0) }
    ensures next { IfOk result (λ both. ComesNext both.0 both.1) }
    ensures records { IfOk result (λ both. guard.new.records ≡ both.1.records) }
    ensures moves { IfOk result (λ both. guard.new.moves ≡ guard.old.moves) }
    ensures refused { IfErr result
        (RefusesOneOfTwo N.cells guard.old proxy batch next_proxy guard.new) }
{
    let first = sequence_or_drop(guard, proxy, batch)?;
    let second = sequence_or_drop(guard, next_proxy, next_batch)?;
    Ok((first, second))
}

/// Gives a batch its record, moves the range to the resolver, and gives another batch the next
/// record. That record has the move, dated one above the version of the first. The sequencer has these
/// two records and this move more.
///
/// Fails as [`SequencerGuard::sequence`] and [`SequencerGuard::move_range`] do, and leaves what was
/// done before.
pub fn sequence_around_move<N: Naming>(
    guard: &mut SequencerGuard<'_, N>,
    proxy: ProxyNumber,
    batch: Batch,
    range: &KeyRange,
    dest: ResolverNumber,
    next_batch: Batch,
) -> Result<(Ticket<N>, Ticket<N>), Refusal>
    ensures first { IfOk result (λ both. IsTicketFor proxy batch guard.old.moves both.0) }
    ensures second { IfOk result (λ both. IsTicketFor proxy next_batch
        (guard.old.moves ++ move_after both.0 range.now dest ∷ []) both.1) }
    ensures begins { IfOk result (λ both. ComesAfter guard.old.records both.0) }
    ensures next { IfOk result (λ both. ComesNext both.0 both.1) }
    ensures records { IfOk result (λ both. guard.new.records ≡ both.1.records) }
    ensures moves { IfOk result (λ both.
        guard.new.moves ≡ guard.old.moves ++ move_after both.0 range.now dest ∷ []) }
    ensures refused { IfErr result
        (RefusesAroundMove N.cells guard.old proxy batch range.now dest guard.new) }
{
    let first = sequence_or_drop(guard, proxy, batch)?;
    guard.move_range(range, dest)?;
    let second = sequence_or_drop(guard, proxy, next_batch)?;
    Ok((first, second))
}

/// The record of a ticket, which follows those before it.
pub fn record_of_ticket<'a, N: Naming>(ledger: &'a Ledger<N>, ticket: &Ticket<N>) -> &'a Record
    ensures there { slice_get ticket.now.records ticket.now.row ≡ Some result.now }
    ensures follows { Follows N.cells.config (take ticket.now.row ticket.now.records) result.now }
{
    match ticket.records().get(ledger, ticket.row()) {
        Some(rec) => rec,
        None => unreachable!(),
    }
}

/// Gives the batch its record. A refused batch is dropped.
fn sequence_or_drop<N: Naming>(
    guard: &mut SequencerGuard<'_, N>,
    proxy: ProxyNumber,
    batch: Batch,
) -> Result<Ticket<N>, Refusal>
    ensures sequenced { IfOk result
        (HasSequenced N.cells.config guard.old proxy batch guard.new) }
    ensures refused { IfErr result (RefusesBatch N.cells guard.old proxy guard.new) }
{
    match guard.sequence(proxy, batch) {
        Ok(ticket) => Ok(ticket),
        Err((refusal, _batch)) => Err(refusal),
    }
}
