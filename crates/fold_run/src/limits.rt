//! The limits of a fold script: 1 to 64 resolvers, strictly increasing versions above 0, and for each
//! transaction one verdict of each resolver.

ghost use Rattle.std.specs.Prelude.{◌≡◌};
ghost use Rattle.std.specs.List.{list_all};
ghost use Rattle.fold_run.specs.Limits.{versions_increase, state_has_verdicts, row_has_verdicts};
ghost use Rattle.fold_run.specs.Limits.{is_within_limits};

use crate::script::{RawFold, RawRow, RawState};
use model::{RESOLVERS_LIMIT, is_from_one_to};

/// Whether there are from 1 to 64 resolvers, the versions are at least 1 and rise, and each
/// transaction has one verdict for each resolver (this project's profile).
pub(crate) fn is_within_limits(script: &RawFold) -> bool
    ensures { result ≡ is_within_limits script.now }
{
    is_from_one_to(RESOLVERS_LIMIT, script.resolvers)
        && versions_increase(script.rows.as_slice())
        && rows_have_verdicts(script.resolvers, script.rows.as_slice())
}

/// Whether the versions of the rows are above 0 and strictly increase.
fn versions_increase(rows: &[RawRow]) -> bool
    ensures { result ≡ versions_increase 0 rows.now }
{
    let mut before = 0;
    for row in rows {
        if row.version <= before {
            return false;
        }
        before = row.version;
    }
    true
}

/// Whether each state transaction of the rows has a verdict of each resolver.
fn rows_have_verdicts(resolvers: u64, rows: &[RawRow]) -> bool
    ensures { result ≡ list_all (row_has_verdicts resolvers) rows.now }
{
    rows.iter().all(|row| row_has_verdicts(resolvers, row))
}

/// Whether each state transaction of the row has a verdict of each resolver.
pub(crate) fn row_has_verdicts(resolvers: u64, row: &RawRow) -> bool
    ensures { result ≡ row_has_verdicts resolvers row.now }
{
    row.states
        .as_slice()
        .iter()
        .all(|state| state_has_verdicts(resolvers, state))
}

/// Whether the state transaction has a verdict of each resolver.
fn state_has_verdicts(resolvers: u64, state: &RawState) -> bool
    ensures { result ≡ state_has_verdicts resolvers state.now }
{
    state.verdicts.as_slice().len() as u64 == resolvers
}
