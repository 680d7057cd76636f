//! The rows that a resolver remembers: finding, copying, forgetting and judging them.

ghost use Rattle.std.specs.Prelude.{◌≡◌, ◌≤◌, [], length, drop, map, IfOk};
ghost use Rattle.model.specs.Journal.{verdict_or_conflict};
ghost use Rattle.model.specs.Requests.{reply_state_of_mark};
ghost use Rattle.state_memory.specs.Kept.{rows_above, is_first_row_up_to};
ghost use Rattle.state_memory.specs.Order.{RowsIncrease};

use model::{StateMark, TransactionNumber, UnseenRow, UnseenState, Verdict, Version};
use request_builder::Request;
use std::alloc::Global;
use std::collections::VecDeque;
use system_keys::{Items, OutOfMemory};

/// Copies of the rows above the version. Room for them is made at once.
pub(crate) fn rows_above(
    alloc: Global,
    rows: &VecDeque<UnseenRow>,
    version: Version,
) -> Result<Items<UnseenRow>, OutOfMemory>
    requires { RowsIncrease rows.now.items }
    ensures { IfOk result (λ copies. copies ≡ rows_above version rows.now.items) }
{
    let start = first_row_above(rows, version);
    let mut copies = Vec::with_capacity(alloc, rows.len() - start)?;
    for i in start..rows.len() {
        copies.push(rows[i].copy()?)?;
    }
    Ok(Items::from(copies))
}

/// The place of the first row above the version.
///
/// Goes from the newest row back to the first one that is not above the version.
fn first_row_above(rows: &VecDeque<UnseenRow>, version: Version) -> usize
    requires { RowsIncrease rows.now.items }
    ensures place { result ≤ length rows.now.items }
    ensures rows { drop result rows.now.items ≡ rows_above version rows.now.items }
{
    for i in (0..rows.len()).rev() {
        if rows[i].version <= version {
            return i + 1;
        }
    }
    0
}

/// Forgets the rows at or below the version. Allocates nothing.
pub(crate) fn forget_rows(rows: &mut VecDeque<UnseenRow>, version: Version)
    requires { RowsIncrease rows.old.items }
    ensures { rows.new.items ≡ rows_above version rows.old.items }
{
    while is_first_row_up_to(rows, version) {
        rows.pop_front();
    }
}

/// Whether the first row is at or below the version.
fn is_first_row_up_to(rows: &VecDeque<UnseenRow>, version: Version) -> bool
    ensures { result ≡ is_first_row_up_to version rows.now.items }
{
    match rows.front() {
        Some(row) => row.version <= version,
        None => false,
    }
}

/// The state transactions that the marks of the request name, each still with the verdict Conflict.
pub(crate) fn unjudged_states(
    alloc: Global,
    request: &Request,
) -> Result<Vec<UnseenState>, OutOfMemory>
    ensures { let made = map (reply_state_of_mark [] []) request.now.states in
        IfOk result (λ states. states.items ≡ made) }
{
    let mut states = Vec::new(alloc);
    for mark in request.states() {
        states.push(unjudged_state(mark)?)?;
    }
    Ok(states)
}

/// The state transaction that the mark names, still with the verdict Conflict.
fn unjudged_state(mark: &StateMark) -> Result<UnseenState, OutOfMemory>
    ensures { IfOk result (λ state. state ≡ reply_state_of_mark [] [] mark.now) }
{
    let mark = mark.copy()?;
    Ok(UnseenState {
        verdict: Verdict::Conflict,
        carried: mark.carried,
    })
}

/// Gives each of the states that its marks name the verdict on its part of the share.
pub(crate) fn judge_states(states: &mut Vec<UnseenState>, request: &Request, verdicts: &[Verdict])
    requires { states.old.items ≡ map (reply_state_of_mark [] []) request.now.states }
    ensures { let q = request.now in
        states.new.items ≡ map (reply_state_of_mark q.share verdicts.now) q.states }
{
    let marks = request.states();
    for i in 0..marks.len() {
        states[i].verdict = verdict_or_conflict(request, verdicts, marks[i].number);
    }
}

/// The verdict on the part of the request with this number, or Conflict if there is none.
fn verdict_or_conflict(
    request: &Request,
    verdicts: &[Verdict],
    number: TransactionNumber,
) -> Verdict
    ensures { result ≡ verdict_or_conflict request.now.share verdicts.now number }
{
    let Some(place) = request.place_of(number) else {
        return Verdict::Conflict;
    };
    match verdicts.get(place) {
        Some(verdict) => *verdict,
        None => Verdict::Conflict,
    }
}
