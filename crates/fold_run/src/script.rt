//! Fold scripts: rows of a journal to fold, and keys whose tags are asked, checked or as they are
//! written (`Raw`).

ghost use Rattle.std.specs.Prelude.{◌≡◌, IfOk};

use model::{JournalRow, Verdict, Version};
use scripts::{RawChange, copy_keys};
use std::alloc::Global;
use system_keys::{Bytes, Items, OutOfMemory};

/// A fold script: the rows of a journal, and the keys whose tags are asked (this project's
/// profile).
#[derive(Debug, Drop)]
pub struct FoldScript {
    /// The rows to fold, by rising versions.
    pub rows: Items<JournalRow>,
    /// The keys whose tags are printed: any bytes.
    pub ask: Items<Bytes>,
}

impl FoldScript {
    /// Returns an equal copy. Fails only with `OutOfMemory`.
    pub fn copy(&self) -> Result<FoldScript, OutOfMemory>
        ensures { IfOk result (λ copy. copy ≡ self.now) }
    {
        let ask = copy_keys(&self.ask)?;
        let rows = copy_rows(*ask.allocator(), self.rows.as_slice())?;
        Ok(FoldScript {
            rows,
            ask: Items::from(ask),
        })
    }
}

/// A fold script as it is written, before its keys, values and ranges are checked.
#[derive(Drop)]
pub(crate) struct RawFold {
    /// How many resolvers there are: each transaction has a verdict of each.
    pub(crate) resolvers: u64,
    /// The rows of the journal.
    pub(crate) rows: Items<RawRow>,
    /// The keys whose tags are asked.
    pub(crate) ask: Items<Bytes>,
}

/// A row of the journal as it is written.
#[derive(Drop)]
pub(crate) struct RawRow {
    /// The version of the row.
    pub(crate) version: Version,
    /// Its state transactions.
    pub(crate) states: Items<RawState>,
}

/// A state transaction as it is written.
#[derive(Drop)]
pub(crate) struct RawState {
    /// Its changes, in order.
    pub(crate) mutations: Items<RawChange>,
    /// Whether it may commit while the database is locked.
    pub(crate) lock_aware: bool,
    /// The verdict of each resolver.
    pub(crate) verdicts: Items<Verdict>,
}

/// A copy of the rows.
fn copy_rows(alloc: Global, rows: &[JournalRow]) -> Result<Items<JournalRow>, OutOfMemory>
    ensures { IfOk result (λ copy. copy ≡ rows.now) }
{
    let mut copies = Vec::with_capacity(alloc, rows.len())?;
    for row in rows {
        copies.push(row.copy()?)?;
    }
    Ok(Items::from(copies))
}
