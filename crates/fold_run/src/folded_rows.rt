//! Rows that are folded as their tokens come, so that no list of them is kept.

ghost use Rattle.std.specs.Prelude.{◌≡◌, [], List, IfSome, Ok};
ghost use Rattle.scripts.specs.Streams.{Takes, TakesEach};
ghost use Rattle.fold_run.specs.Checks.{checked_row};
ghost use Rattle.fold_run.specs.Folding.{AreFolded, IsNext, IsNextFolded};
ghost use Rattle.fold_run.specs.Shapes.{row_shape};
ghost use Rattle.fold_run.specs.declared.script.RawRow.{RawRow as TheRawRow};

use crate::fold_fields::FromFoldRows;
use crate::limits::row_has_verdicts;
use crate::script::RawRow;
use metadata::JournalFold;
use model::{JournalRow, Version};
use script_tokens::Tokens;
use scripts::{Checked, Streamed};
use std::alloc::Global;

/// Rows that were folded, one after another.
#[derive(Drop)]
pub(crate) struct FoldedRows {
    /// How many resolvers there are: each transaction has a verdict of each.
    pub(crate) resolvers: u64,
    /// The version of the last row, or 0 if there is none.
    pub(crate) version: Version,
    /// What the rows leave.
    pub(crate) journal: JournalFold,
}

impl FromFoldRows for FoldedRows {
    ghost is_from = { λ folded raws. AreFolded raws folded };

    fn take(
        alloc: Global,
        reader: &mut Tokens<'_>,
        depth: usize,
        resolvers: Option<u64>,
    ) -> Option<FoldedRows> {
        if depth == 0 || !reader.take_begin_array() {
            return None;
        }
        fold_each(alloc, reader, depth - 1, resolvers?)
    }
}

/// Folds each row of a list up to the bracket that closes it. Returns `None` as `Streamed` does, and
/// at the first row that is not within the limits or has a fault.
fn fold_each(
    alloc: Global,
    reader: &mut Tokens<'_>,
    depth: usize,
    resolvers: u64,
) -> Option<FoldedRows>
    ensures { IfSome result (λ folded. (raws : List TheRawRow)
        × TakesEach row_shape depth reader.old raws reader.new
        × AreFolded raws folded) }
{
    let mut folded = FoldedRows::new(alloc, resolvers);
    'rows: while !reader.take_end_array() {
        let next = folded.fold_next(alloc, reader, depth)?;
        folded = next;
    }
    Some(folded)
}

impl FoldedRows {
    /// No rows.
    fn new(alloc: Global, resolvers: u64) -> FoldedRows
        ensures { result ≡ record { resolvers = resolvers; version = 0; journal = [] } }
    {
        FoldedRows {
            resolvers,
            version: 0,
            journal: JournalFold::new(alloc),
        }
    }

    /// Folds the next row of a list.
    fn fold_next(self, alloc: Global, reader: &mut Tokens<'_>, depth: usize) -> Option<FoldedRows>
        ensures { IfSome result (λ next. (raw : TheRawRow)
            × Takes row_shape depth reader.old raw reader.new
            × IsNextFolded raw self next) }
    {
        let row = self.take_row(alloc, reader, depth)?;
        let version = row.version;
        match self.journal.apply(row) {
            Ok(journal) => Some(FoldedRows {
                resolvers: self.resolvers,
                version,
                journal,
            }),
            Err(_) => None,
        }
    }

    /// The next row of a list, if it is within the limits and has no fault.
    fn take_row(&self, alloc: Global, reader: &mut Tokens<'_>, depth: usize) -> Option<JournalRow>
        ensures { IfSome result (λ row. (raw : TheRawRow)
            × Takes row_shape depth reader.old raw reader.new
            × IsNext raw self.now
            × (checked_row raw ≡ Ok row)) }
    {
        let raw = RawRow::from_tokens(alloc, reader, depth)?;
        if raw.version <= self.version || !row_has_verdicts(self.resolvers, &raw) {
            return None;
        }
        match JournalRow::check(alloc, raw) {
            Ok(row) => Some(row),
            Err(_) => None,
        }
    }
}
