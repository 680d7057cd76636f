//! Rows of a journal that are being applied to a metadata.

ghost use Rattle.std.specs.Prelude.{◌≡◌};

use crate::entry_map::{Displaced, EntryMap};
use crate::key_runs::KeyRuns;
use crate::key_set::KeySet;
use std::marker::Model;

/// Rows of a journal that were started: the metadata has what they put, and still what they remove.
/// Contracts see what is still to be removed, what takes back what was put, and the lock before the
/// last row.
#[derive(Drop)]
pub struct StartedRows {
    pub(crate) removed: KeySet,
    /// Runs of the keyServers entries among those to be removed; not each of these has to be in one.
    pub(crate) runs: KeyRuns,
    pub(crate) put: UndoPut,
    pub(crate) locked: bool,
}

/// What takes back what was put: the entries, and the servers.
#[derive(Drop)]
pub(crate) struct UndoPut {
    /// What stood where entries were put.
    pub(crate) displaced: Vec<Displaced>,
    /// The keys of the serverTag entries that were put.
    pub(crate) servers: KeySet,
}

impl Model for StartedRows {
    ghost use Rattle.metadata.specs.Started.{Started};

    ghost Value = { Started };

    ghost view = { λ s. record {
      removed = s.removed;
      displaced = s.put.displaced.items;
      servers = s.put.servers;
      locked = s.locked;
    } };
}

impl StartedRows {
    /// The same, with runs of what is to be removed from these entries, so that a look-up takes a step
    /// for each run. Some runs are left out if memory runs out.
    pub(crate) fn with_hidden_runs(mut self, entries: &EntryMap) -> StartedRows
        ensures { result ≡ self }
    {
        self.runs = KeyRuns::of(entries, &self.removed);
        self
    }

    /// Whether the database was locked before the last of the rows. Does not allocate.
    pub fn was_locked_before_last_row(&self) -> bool
        ensures { result ≡ self.now.locked }
    {
        self.locked
    }
}
