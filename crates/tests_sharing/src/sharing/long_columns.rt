//! A test of a column with many rows.

ghost use Rattle.std.specs.Bool.{OnTrue};
ghost use Rattle.std.specs.Prelude.{◌≡◌, ◌<◌, length};
ghost use Rattle.facts.specs.Stretches.{end_of};
ghost use Rattle.agreed_ledger.specs.Cells.{verdict_cells};

use crate::sharing::stories::{Story, tell};
use agreed_ledger::{Column, Ledger, Naming};
use model::Verdict;
use std::alloc::Global;
use std::process::Abort;
use std::test::Fail;
use system_keys::Items;
use testing::list;
use testing_cluster::blank;

/// How many rows the longest ledger has.
const ROWS: usize = 4_096;

/// The verdicts of a row: as many as come after a multiple of three.
fn verdicts(row: usize) -> &'static [Verdict] {
    match row % 3 {
        0 => &[],
        1 => &[Verdict::Committed],
        _ => &[Verdict::Conflict, Verdict::TooOld],
    }
}

/// Whether the ledger has a cell for the column's next row.
fn has_next_cell<N: Naming>(ledger: &Ledger<N>, column: &Column<N>) -> bool
    ensures { OnTrue result
        (end_of column.now.rows < length (verdict_cells N.cells column.now.resolver)) }
{
    if ledger.rows() <= column.end() || ledger.config().resolvers() <= column.resolver() {
        return false;
    }
    true
}

/// Sets the cell of the column's next row: whether it is set.
fn sets<N: Naming>(
    alloc: Global,
    ledger: &Ledger<N>,
    column: &mut Column<N>,
) -> Result<bool, Fail> {
    let verdicts = list(alloc, verdicts(column.end()))?;
    if !has_next_cell(ledger, column) {
        return Ok(false);
    }
    Ok(column.set(ledger, Items::from(verdicts)).is_ok())
}

/// Whether the column has the verdicts of each row.
fn has_all<N: Naming>(ledger: &Ledger<N>, column: &Column<N>) -> bool {
    for row in 0..ROWS {
        match column.get(ledger, row) {
            Some(found) if found.as_slice() == verdicts(row) => {}
            _ => return false,
        }
    }
    true
}

/// Sets all cells of resolver 1.
pub(crate) fn fill_a_column<N: Naming, R: Abort>(
    rt: &R,
    alloc: Global,
    ledger: &Ledger<N>,
) -> Result<(), Fail> {
    let mut column = Column::new(alloc, 1);
    for _row in 0..ROWS {
        assert!(rt; sets(alloc, ledger, &mut column)?);
    }
    assert!(rt; has_all(ledger, &column));
    let part = column.part(1, ROWS)?;
    assert!(rt; (part.first(), part.end()) == (1, ROWS));
    assert!(rt; (column.end(), sets(alloc, ledger, &mut column)?) == (ROWS, false));
    Ok(())
}

#[test]
fn each_cell_of_a_long_ledger_is_set(rt: HostRuntime) -> Result<(), Fail> {
    let alloc = rt.alloc();
    tell(&rt, alloc, blank(alloc, ROWS, 2, 2)?, Story::LongColumn)
}
