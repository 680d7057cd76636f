//! What is kept of three consecutive rows: verdicts of one resolver, and records.

ghost use Rattle.std.specs.Bool.{OnTrue};
ghost use Rattle.std.specs.Prelude.{◌≡◌, ◌<◌, length};
ghost use Rattle.facts.specs.Stretches.{end_of};
ghost use Rattle.agreed_ledger.specs.Cells.{verdict_cells};

use agreed_ledger::{Column, Ledger, Naming, Records, Refusal, VerdictNote};
use facts::NotSet;
use share_judge::Verdict;
use share_judge::Verdict::{Committed, Conflict, TooOld};
use std::alloc::Global;
use std::process::Abort;
use system_keys::{Items, OutOfMemory};
use testing::{list, twice};

// ---- verdicts of one resolver

/// Whether the ledger has a cell for the column's next row.
fn has_next_cell<N: Naming>(ledger: &Ledger<N>, column: &Column<N>) -> bool
    ensures { OnTrue result
        (end_of column.now.rows < length (verdict_cells N.cells column.now.resolver)) }
{
    if ledger.rows() <= column.end() || ledger.config().resolvers() <= column.resolver() {
        return false;
    }
    true
}

/// Sets the cell of the column's next row to these verdicts. Otherwise returns why not, and how many
/// verdicts came back.
fn set_once<N: Naming>(
    alloc: Global,
    ledger: &Ledger<N>,
    column: &mut Column<N>,
    verdicts: &[Verdict],
) -> Result<(), (Refusal, usize)> {
    let Ok(verdicts) = list(alloc, verdicts) else {
        return Err((Refusal::OutOfMemory, 0));
    };
    if !has_next_cell(ledger, column) {
        return Err((Refusal::LedgerFull { rows: column.end() }, verdicts.len()));
    }
    match column.set(ledger, Items::from(verdicts)) {
        Ok(()) => Ok(()),
        Err((refusal, back)) => Err((refusal, back.as_slice().len())),
    }
}

/// Sets the cell of the column's next row, once more after a failed allocation.
fn set<N: Naming>(
    alloc: Global,
    ledger: &Ledger<N>,
    column: &mut Column<N>,
    verdicts: &[Verdict],
) -> Result<(), (Refusal, usize)> {
    twice!(
        alloc;
        set_once(alloc, ledger, column, verdicts),
        (Refusal::OutOfMemory, _)
    )
}

/// Whether the three cells of the column are set.
fn sets_three_rows<N: Naming>(alloc: Global, ledger: &Ledger<N>, column: &mut Column<N>) -> bool {
    set(alloc, ledger, column, &[Committed]).is_ok()
        && set(alloc, ledger, column, &[]).is_ok()
        && set(alloc, ledger, column, &[Conflict, TooOld]).is_ok()
}

/// Whether the column has exactly these verdicts in the row.
fn has<N: Naming>(
    ledger: &Ledger<N>,
    column: &Column<N>,
    row: usize,
    verdicts: &[Verdict],
) -> bool {
    match column.get(ledger, row) {
        Some(found) => found.as_slice() == verdicts,
        None => false,
    }
}

/// The column's resolver, its first row and the row after its last one.
fn ends<N: Naming>(column: &Column<N>) -> (usize, usize, usize) {
    (column.resolver(), column.first(), column.end())
}

/// Whether the column has the three rows that it was given, and no other.
fn is_as_given<N: Naming>(ledger: &Ledger<N>, column: &Column<N>) -> bool {
    ends(column) == (1, 0, 3)
        && has(ledger, column, 0, &[Committed])
        && has(ledger, column, 1, &[])
        && has(ledger, column, 2, &[Conflict, TooOld])
        && column.get(ledger, 3).is_none()
}

/// Whether a second column of the resolver is refused its first row, and has none then.
fn is_taken<N: Naming>(alloc: Global, ledger: &Ledger<N>) -> bool {
    let mut second = Column::new(alloc, 1);
    let refused = set(alloc, ledger, &mut second, &[TooOld]);
    refused == Err((Refusal::CellTaken, 1)) && ends(&second) == (1, 0, 0)
}

/// How many verdicts the note shows of its cell.
fn shown<N: Naming>(
    ledger: &Ledger<N>,
    row: usize,
    resolver: usize,
    note: &mut VerdictNote<N>,
) -> Option<usize> {
    let verdicts = ledger.verdicts_at(row, resolver, note)?;
    Some(verdicts.as_slice().len())
}

/// The answer if the cell was taken.
fn if_taken<N: Naming>(why: &NotSet<VerdictNote<N>>, answer: bool) -> Option<bool> {
    match why {
        NotSet::OutOfMemory => None,
        NotSet::Taken(_) => Some(answer),
    }
}

/// Sets the cell of the column's next row with a copy, and returns whether the copy has what was
/// set. If the cell is taken, returns whether the verdicts came back.
fn copy_once<N: Naming>(
    alloc: Global,
    ledger: &Ledger<N>,
    column: &mut Column<N>,
    verdicts: &[Verdict],
) -> Result<bool, Option<bool>> {
    let Ok(given) = list(alloc, verdicts) else {
        return Err(None);
    };
    if !has_next_cell(ledger, column) {
        return Err(None);
    }
    match column.set_and_copy(ledger, Items::from(given)) {
        Ok(copy) => Ok(ends(&copy) == ends(column) && has(ledger, &copy, 0, verdicts)),
        Err((why, back)) => Err(if_taken(&why, back.as_slice() == verdicts)),
    }
}

/// The outcome of setting the first row of a new column of resolver 0 with a copy, the second time
/// after a failed allocation, and how many rows the column has then.
fn copied<N: Naming>(
    alloc: Global,
    ledger: &Ledger<N>,
    verdicts: &[Verdict],
) -> (Result<bool, Option<bool>>, usize) {
    let mut column = Column::new(alloc, 0);
    let answer = twice!(alloc; copy_once(alloc, ledger, &mut column, verdicts), None);
    (answer, column.end())
}

/// How many verdicts a new note of the one cell shows of the other one.
fn seen<N: Naming>(ledger: &Ledger<N>, of: (usize, usize), at: (usize, usize)) -> Option<usize> {
    let mut note = ledger.verdict_note(of.0, of.1)?;
    shown(ledger, at.0, at.1, &mut note)
}

/// Looks at the verdicts of three rows by notes of their own and of other cells.
fn look_at_notes<N: Naming, R: Abort>(rt: &R, ledger: &Ledger<N>) {
    assert!(rt; seen(ledger, (0, 1), (0, 1)) == Some(1));
    assert!(rt; seen(ledger, (2, 1), (2, 1)) == Some(2));
    assert!(rt; seen(ledger, (1, 1), (0, 1)).is_none());
    assert!(rt; seen(ledger, (2, 0), (2, 1)).is_none());
    assert!(rt; seen(ledger, (2, 0), (2, 0)).is_none());
}

/// Where the part of the column begins and ends once it is extended from the other one, and whether
/// it has the three rows that the column was given then.
fn extended<N: Naming>(
    ledger: &Ledger<N>,
    column: &Column<N>,
    rows: (usize, usize),
    other: &Column<N>,
) -> Result<(usize, usize, bool), OutOfMemory>
    requires { column.now.resolver ≡ other.now.resolver }
{
    let mut part = column.part(rows.0, rows.1)?;
    part.extend_from(other)?;
    Ok((part.first(), part.end(), is_as_given(ledger, &part)))
}

/// That of one part of the column and another part.
fn extended_by_part<N: Naming>(
    ledger: &Ledger<N>,
    column: &Column<N>,
    rows: (usize, usize),
    of_other: (usize, usize),
) -> Result<(usize, usize, bool), OutOfMemory> {
    let other = column.part(of_other.0, of_other.1)?;
    extended(ledger, column, rows, &other)
}

/// Whether the part of the column that is extended from another part, again after a failed
/// allocation, has this outcome.
fn extends<N: Naming>(
    alloc: Global,
    ledger: &Ledger<N>,
    column: &Column<N>,
    rows: (usize, usize),
    of_other: (usize, usize),
    expected: (usize, usize, bool),
) -> bool {
    twice!(
        alloc;
        extended_by_part(ledger, column, rows, of_other),
        OutOfMemory
    ) == Ok(expected)
}

/// Whether a copy has the three rows that the column was given.
fn is_copied<N: Naming>(ledger: &Ledger<N>, column: &Column<N>) -> Result<bool, OutOfMemory> {
    let copied = column.copy()?;
    Ok(is_as_given(ledger, &copied))
}

/// Looks at the verdicts of a ledger of three rows, none of which is set.
pub(crate) fn look_at_verdicts<N: Naming, R: Abort>(rt: &R, alloc: Global, ledger: &Ledger<N>) {
    assert!(rt; seen(ledger, (0, 1), (0, 1)).is_none());
    let mut column = Column::new(alloc, 1);
    assert!(rt; sets_three_rows(alloc, ledger, &mut column));
    assert!(rt; is_as_given(ledger, &column));
    assert!(rt; is_taken(alloc, ledger));
    look_at_notes(rt, ledger);
    assert!(rt; copied(alloc, ledger, &[Conflict, TooOld]) == (Ok(true), 1));
    assert!(rt; copied(alloc, ledger, &[Committed]) == (Err(Some(true)), 0));
    assert!(rt; extends(alloc, ledger, &column, (0, 1), (2, 9), (0, 1, false)));
    assert!(rt; extends(alloc, ledger, &column, (2, 9), (0, 1), (2, 3, false)));
    assert!(rt; extends(alloc, ledger, &column, (0, 1), (0, 3), (0, 3, true)));
    assert!(rt; extends(alloc, ledger, &column, (0, 3), (0, 1), (0, 3, true)));
    assert!(rt; twice!(alloc; is_copied(ledger, &column), OutOfMemory) == Ok(true));
}

// ---- records

/// The stretch's first row, the row after its last one, and the version of the record of one row,
/// or 0 if the stretch lacks the row.
fn ends_and_version<N: Naming>(
    ledger: &Ledger<N>,
    records: &Records<N>,
    row: usize,
) -> (usize, usize, u64) {
    let version = match records.get(ledger, row) {
        Some(rec) => rec.version(),
        None => 0,
    };
    (records.first(), records.end(), version)
}

/// Where the part of the records begins and ends once it is extended from the other ones, and the
/// version of row 2 in it then.
fn extended_records<N: Naming>(
    ledger: &Ledger<N>,
    records: &Records<N>,
    rows: (usize, usize),
    other: &Records<N>,
) -> Result<(usize, usize, u64), OutOfMemory> {
    let mut part = records.part(rows.0, rows.1)?;
    part.extend_from(other)?;
    Ok(ends_and_version(ledger, &part, 2))
}

/// That of one part of the records and another part.
fn extended_by_records<N: Naming>(
    ledger: &Ledger<N>,
    records: &Records<N>,
    rows: (usize, usize),
    of_other: (usize, usize),
) -> Result<(usize, usize, u64), OutOfMemory> {
    let other = records.part(of_other.0, of_other.1)?;
    extended_records(ledger, records, rows, &other)
}

/// Whether the part of the records that is extended from another part, again after a failed
/// allocation, has this outcome.
fn extends_records<N: Naming>(
    alloc: Global,
    ledger: &Ledger<N>,
    records: &Records<N>,
    rows: (usize, usize),
    of_other: (usize, usize),
    expected: (usize, usize, u64),
) -> bool {
    twice!(
        alloc;
        extended_by_records(ledger, records, rows, of_other),
        OutOfMemory
    ) == Ok(expected)
}

/// Looks at the records of three rows.
pub(crate) fn look_at_records<N: Naming, R: Abort>(
    rt: &R,
    alloc: Global,
    ledger: &Ledger<N>,
    records: &Records<N>,
) {
    assert!(rt; ends_and_version(ledger, records, 0) == (0, 3, 10));
    assert!(rt; ends_and_version(ledger, records, 1) == (0, 3, 20));
    assert!(rt; extends_records(alloc, ledger, records, (0, 1), (2, 9), (0, 1, 0)));
    assert!(rt; extends_records(alloc, ledger, records, (2, 9), (0, 1), (2, 3, 30)));
    assert!(rt; extends_records(alloc, ledger, records, (0, 1), (0, 3), (0, 3, 30)));
    assert!(rt; extends_records(alloc, ledger, records, (0, 3), (0, 1), (0, 3, 30)));
    assert!(rt; extends_records(alloc, ledger, records, (1, 2), (0, 1), (1, 2, 0)));
    assert!(rt; extends_records(alloc, ledger, records, (1, 9), (0, 1), (1, 3, 30)));
    assert!(rt; extends_records(alloc, ledger, records, (2, 1), (0, 1), (2, 2, 0)));
    assert!(rt; extends_records(alloc, ledger, records, (7, 9), (0, 1), (3, 3, 0)));
}
