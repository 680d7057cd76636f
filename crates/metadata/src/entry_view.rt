//! The entries of a metadata without those at some keys, as they are looked up.

ghost use Rattle.std.specs.Prelude.{◌≡◌, IfOk, option_map};
ghost use Rattle.std.specs.Option.{option_to_list};
ghost use Rattle.model.specs.Metadata.{IsInOrder, entry_value, serving_entry};
ghost use Rattle.model.specs.Metadata.{key_servers_entries, server_tags};
ghost use Rattle.metadata.specs.CachedTags.{tags_by};
ghost use Rattle.metadata.specs.HiddenRuns.{AreHiddenRuns};
ghost use Rattle.metadata.specs.Overwrites.{entries_without};
ghost use Rattle.metadata.specs.ServerTables.{GiveTags};

use crate::entry_map::EntryMap;
use crate::key_runs::KeyRuns;
use crate::key_set::KeySet;
use crate::row::Row;
use crate::row_tags::RowTags;
use crate::server_table::ServerTable;
use std::alloc::Global;
use std::marker::Model;
use system_keys::{OutOfMemory, ServerId, Tag};

/// The entries of a metadata, except for those at hidden keys. Contracts see the list of the
/// entries that are not hidden, in the order of their keys.
#[derive(Drop)]
pub struct EntryView<'a> {
    pub(crate) entries: &'a EntryMap,
    pub(crate) hidden: &'a KeySet,
    /// Runs of hidden keyServers entries; not each hidden one has to be in one.
    pub(crate) runs: &'a KeyRuns,
    /// The tag of each server; one whose serverTag entry is hidden may be listed without a tag.
    pub(crate) servers: &'a ServerTable,
}

impl<'a> Model for EntryView<'a> {
    ghost use Rattle.model.specs.Metadata.{Entries, IsInOrder};
    ghost use Rattle.metadata.specs.HiddenRuns.{AreHiddenRuns};
    ghost use Rattle.metadata.specs.Overwrites.{entries_without};
    ghost use Rattle.metadata.specs.ServerTables.{GiveTags};

    ghost Value = { Entries };

    ghost view = { λ v. entries_without v.hidden.now v.entries.now };

    ghost invariant = { λ v. AreHiddenRuns v.hidden.now v.entries.now v.runs.now
        × GiveTags v.servers.now.tags (entries_without v.hidden.now v.entries.now)
        × IsInOrder v.entries.now };
}

impl<'a> EntryView<'a> {
    /// The entries of the map, except for those at hidden keys, with runs of the hidden ones, and with
    /// the tags of the servers. Does not allocate.
    pub(crate) fn new(
        entries: &'a EntryMap,
        hidden: &'a KeySet,
        runs: &'a KeyRuns,
        servers: &'a ServerTable,
    ) -> EntryView<'a>
        requires runs { AreHiddenRuns hidden.now entries.now runs.now }
        requires servers { GiveTags servers.now.tags (entries_without hidden.now entries.now) }
        requires order { IsInOrder entries.now }
        ensures { result ≡ entries_without hidden.now entries.now }
    {
        EntryView {
            entries,
            hidden,
            runs,
            servers,
        }
    }

    /// The allocator of the map.
    pub(crate) fn alloc(&self) -> Global {
        self.entries.alloc()
    }

    /// The tag of a server. A server without a serverTag entry has none (this project's profile). Does
    /// not allocate.
    pub(crate) fn server_tag(&self, server: &ServerId) -> Option<Tag>
        ensures { option_to_list result ≡ server_tags self.now server.now }
    {
        self.servers.get(server).flatten()
    }

    /// The tags of the keyServers entry that serves a key: the greatest one at or before it
    /// (release 7.1). If entries are hidden, takes a step for each run of these between that one and
    /// the key, and for each hidden entry there that is in no run. Fails only with `OutOfMemory`.
    pub(crate) fn serving_tags(&self, key: &[u8]) -> Result<Option<RowTags<'a>>, OutOfMemory>
        ensures { IfOk result (λ tags. tags
            ≡ option_map (λ entry. tags_by (entry_value self.now) entry.1)
            (serving_entry (key_servers_entries self.now) key.now)) }
    {
        match self.serving_row(key)? {
            Some(row) => Ok(Some(RowTags::new(row, self.servers))),
            None => Ok(None),
        }
    }

    /// The value of the keyServers entry that serves a key. If the last entry up to the key is hidden,
    /// the others are gone over.
    fn serving_row(&self, key: &[u8]) -> Result<Option<&'a Row>, OutOfMemory>
        ensures { IfOk result (λ row. option_map (λ row. row.now) row
            ≡ option_map (λ entry. entry.1)
            (serving_entry (key_servers_entries self.now) key.now)) }
    {
        let Some((found, row)) = self.entries.last_serving(key)? else {
            return Ok(None);
        };
        if self.hidden.contains(found) {
            return self.shown_row(key);
        }
        Ok(Some(row))
    }

    fn shown_row(&self, key: &[u8]) -> Result<Option<&'a Row>, OutOfMemory>
        ensures { IfOk result (λ row. option_map (λ row. row.now) row
            ≡ option_map (λ entry. entry.1)
            (serving_entry (key_servers_entries self.now) key.now)) }
    {
        let mut up_to = self.entries.serving_up_to(key)?;
        while let Some((found, row)) = up_to.next_back() {
            if !self.hidden.contains(found) {
                return Ok(Some(row));
            }
            if let Some((first, _)) = self.runs.run_of(found) {
                up_to = self.entries.serving_before(first)?;
            }
        }
        Ok(None)
    }
}
