//! The journal rows that the replies to a record tell.
//!
//! Release 7.1, `CommitProxyServer.actor.cpp`, applyMetadataEffect; what differs is marked *profile*.

ghost use Rattle.std.specs.Prelude.{◌≡◌, map, IfOk};
ghost use Rattle.model.specs.Shares.{each_below};
ghost use Rattle.model.specs.Finishing.{reply_from, row_from, unseen_of_reply, verdict_in_row};
ghost use Rattle.model.specs.Finishing.{copy_content, state_by_replies, row_by_replies};
ghost use Rattle.model.specs.Finishing.{rows_by_replies};

use crate::disagreements::{reply_from, row_from};
use model::{
    Carried, JournalRow, Reply, ResolverNumber, StateTxn, TransactionNumber, UnseenRow,
    UnseenState, Verdict,
};
use std::alloc::Global;
use system_keys::{Items, OutOfMemory, SharedItems};

/// The rows that the replies tell: versions and contents by resolver 0, and the verdicts of all
/// resolvers. Fails only with `OutOfMemory`.
pub(crate) fn rows_by_replies(
    alloc: Global,
    resolvers: usize,
    replies: &[Option<Reply>],
) -> Result<Vec<JournalRow>, OutOfMemory>
    ensures { IfOk result (λ rows. rows.items ≡ rows_by_replies resolvers replies.now) }
{
    let unseen = unseen_rows(replies, 0);
    let mut rows = Vec::with_capacity(alloc, unseen.len())?;
    for (place, row) in unseen.iter().enumerate() {
        rows.push(row_by_replies(alloc, resolvers, replies, place, row)?)?;
    }
    Ok(rows)
}

/// The unseen rows that the resolver replied.
fn unseen_rows(replies: &[Option<Reply>], resolver: ResolverNumber) -> &[UnseenRow]
    ensures { result.now ≡ unseen_of_reply (reply_from replies.now resolver) }
{
    match reply_from(replies, resolver) {
        Some(reply) => reply.unseen.as_slice(),
        None => &[],
    }
}

/// The row at a place, which resolver 0 replied.
fn row_by_replies(
    alloc: Global,
    resolvers: usize,
    replies: &[Option<Reply>],
    place: usize,
    row: &UnseenRow,
) -> Result<JournalRow, OutOfMemory>
    ensures { IfOk result (λ told. told ≡ row_by_replies resolvers replies.now place row.now) }
{
    let states = row.states.as_slice();
    let mut told = Vec::with_capacity(alloc, states.len())?;
    for (number, state) in states.iter().enumerate() {
        told.push(state_by_replies(alloc, resolvers, replies, place, number, state)?)?;
    }
    Ok(JournalRow {
        version: row.version,
        states: Items::from(told),
    })
}

/// The state transaction of this number in the row at a place, whose content resolver 0 replied.
fn state_by_replies(
    alloc: Global,
    resolvers: usize,
    replies: &[Option<Reply>],
    place: usize,
    number: TransactionNumber,
    state: &UnseenState,
) -> Result<StateTxn, OutOfMemory>
    ensures { IfOk result (λ told.
        told ≡ state_by_replies resolvers replies.now place number state.now) }
{
    let content = copy_content(alloc, state)?;
    let verdicts = verdicts_by_replies(alloc, resolvers, replies, place, number)?;
    Ok(StateTxn {
        mutations: content.mutations,
        lock_aware: content.lock_aware,
        verdicts: Items::from(verdicts),
    })
}

/// A copy of the content of a state transaction, or nothing if it has none.
fn copy_content(alloc: Global, state: &UnseenState) -> Result<Carried, OutOfMemory>
    ensures { IfOk result (λ content. content ≡ copy_content state.now) }
{
    match &state.carried {
        Some(carried) => carried.copy(),
        None => Ok(Carried {
            mutations: SharedItems::new(alloc, Items::from(Vec::new(alloc)))?,
            lock_aware: false,
        }),
    }
}

/// The verdicts that the resolvers replied in a state transaction of the row at a place.
fn verdicts_by_replies(
    alloc: Global,
    resolvers: usize,
    replies: &[Option<Reply>],
    place: usize,
    number: TransactionNumber,
) -> Result<Vec<Verdict>, OutOfMemory>
    ensures { IfOk result (λ verdicts. verdicts.items
        ≡ map (λ r. verdict_in_row (row_from replies.now place r) number) (each_below resolvers)) }
{
    let mut verdicts = Vec::with_capacity(alloc, resolvers)?;
    for resolver in 0..resolvers {
        verdicts.push(verdict_in_row(replies, place, resolver, number))?;
    }
    Ok(verdicts)
}

/// The verdict that the resolver replied in a state transaction of the row at a place, or Conflict if
/// it is missing.
fn verdict_in_row(
    replies: &[Option<Reply>],
    place: usize,
    resolver: ResolverNumber,
    number: TransactionNumber,
) -> Verdict
    ensures { result ≡ verdict_in_row (row_from replies.now place resolver) number }
{
    match row_from(replies, place, resolver) {
        Some(row) => match row.states.as_slice().get(number) {
            Some(state) => state.verdict,
            None => Verdict::Conflict,
        },
        None => Verdict::Conflict,
    }
}
