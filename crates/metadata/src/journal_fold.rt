//! Rows of a journal, folded one after another.

ghost use Rattle.std.specs.Prelude.{◌≡◌, [], IfOk};
ghost use Rattle.model.specs.Metadata.{after_journal_row};

use crate::kept_entries::KeptEntries;
use crate::metadata::Metadata;
use model::JournalRow;
use std::alloc::Global;
use std::marker::Model;
use system_keys::OutOfMemory;

/// What the rows of a journal leave, where they come one after another. Contracts see the entries.
///
/// Tags are looked for only when all rows are there.
#[derive(Drop)]
pub struct JournalFold {
    entries: KeptEntries,
}

impl Model for JournalFold {
    ghost use Rattle.model.specs.Metadata.{Entries};

    ghost Value = { Entries };

    ghost view = { λ folded. folded.entries };
}

impl JournalFold {
    /// What no rows leave. Does not allocate.
    pub fn new(alloc: Global) -> JournalFold
        ensures { result ≡ [] }
    {
        JournalFold {
            entries: KeptEntries::new(alloc),
        }
    }

    /// Returns what is left after the next row. Values that no copy of the row shares are moved, and
    /// not copied. Fails only with `OutOfMemory`; what the rows before left is then dropped.
    pub fn apply(self, row: JournalRow) -> Result<JournalFold, OutOfMemory>
        ensures { IfOk result (λ folded. folded ≡ after_journal_row self row) }
    {
        let mut entries = self.entries;
        let locked = entries.is_locked();
        entries.apply_own_states(locked, row.states)?;
        Ok(JournalFold { entries })
    }

    /// The metadata that the rows leave. Fails only with `OutOfMemory`.
    pub fn into_metadata(self) -> Result<Metadata, OutOfMemory>
        ensures { IfOk result (λ made. made ≡ self) }
    {
        Metadata::of(self.entries)
    }
}
