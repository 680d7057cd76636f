//! The table of the servers that have a serverTag entry, each with its tag.

ghost use Rattle.std.specs.Prelude.{◌≡◌, ◌+◌, ◌≤◌, ◌++◌, [], ◌∷◌, None, IsSome, IfSome, IfOk, OnOk};
ghost use Rattle.std.specs.Prelude.{length};
ghost use Rattle.std.specs.Option.{option_to_list};
ghost use Rattle.system_keys.specs.Families.{server_id_length, server_tag_family};
ghost use Rattle.system_keys.specs.Rows.{Id};
ghost use Rattle.model.specs.Metadata.{entry_value};
ghost use Rattle.metadata.specs.ServerTables.{server_at, AreRefreshed, AreServers, AreServerKeys};
ghost use Rattle.metadata.specs.ServerTables.{HasPlaces, tag_listed};

use crate::entry_key::EntryKey;
use crate::entry_map::EntryMap;
use crate::key_set::KeySet;
use indexmap::IndexMap;
use std::alloc::Global;
use std::marker::Model;
use system_keys::{OutOfMemory, SERVER_TAG_PREFIX, ServerId, Tag, decode_tag};

/// The servers that have a serverTag entry, each with its tag, or with none if the value of its
/// entry gives none. Contracts see the list of them, and for how many more there is room.
#[derive(Drop)]
pub(crate) struct ServerTable {
    tags: IndexMap<[u8; 16], Option<Tag>>,
}

impl Model for ServerTable {
    ghost use Rattle.indexmap.specs.IndexMap.{spare};
    ghost use Rattle.metadata.specs.ServerTables.{TaggedServers};

    ghost Value = { TaggedServers };

    ghost view = { λ t. record { tags = t.tags.entries; room = spare t.tags } };
}

impl ServerTable {
    /// No servers. Does not allocate.
    pub(crate) fn new(alloc: Global) -> ServerTable
        ensures { result.tags ≡ [] }
    {
        ServerTable {
            tags: IndexMap::new(alloc),
        }
    }

    /// The tag beside a server, if it has one; None outside if the server is not listed. Does not
    /// allocate.
    pub(crate) fn get(&self, server: &ServerId) -> Option<Option<Tag>>
        ensures tag { result ≡ server_at self.now.tags server.now }
        ensures size { length server.now ≡ server_id_length }
    {
        let tag = self.tags.get(&server.0)?;
        Some(*tag)
    }

    /// The tag of a server, if it has one. It is looked for at the place first, and then by its id.
    /// Does not allocate.
    pub(crate) fn tag_near(&self, place: u32, server: &ServerId) -> Option<Tag>
        ensures { option_to_list result ≡ tag_listed self.now.tags server.now }
    {
        match self.tags.get_index(place as usize) {
            Some((id, tag)) if *id == server.0 => *tag,
            _ => self.get(server).flatten(),
        }
    }

    /// Where a server stands, or any place if it is not listed. Does not allocate.
    pub(crate) fn place_of(&self, server: &ServerId) -> u32 {
        match self.tags.get_index_of(&server.0) {
            Some(place) => u32::try_from(place).unwrap_or(0),
            None => 0,
        }
    }

    /// Makes room for as many servers more as there are keys. Fails only with `OutOfMemory`.
    pub(crate) fn reserve(&mut self, keys: &KeySet) -> Result<(), OutOfMemory>
        ensures room { OnOk result (length keys.now ≤ self.new.room) }
        ensures tags { self.new.tags ≡ self.old.tags }
    {
        self.tags.reserve(keys.len())?;
        Ok(())
    }

    /// The servers of the entries, by the keys of the serverTag entries among them. Fails only with
    /// `OutOfMemory`.
    pub(crate) fn of(keys: &KeySet, entries: &EntryMap) -> Result<ServerTable, OutOfMemory>
        requires { AreServerKeys keys.now entries.now }
        ensures { IfOk result (λ table. AreServers table.tags (entry_value entries.now)) }
    {
        let mut table = ServerTable::new(entries.alloc());
        table.reserve(keys)?;
        table.refresh(keys, entries);
        Ok(table)
    }

    /// Reads the serverTag entries at the keys anew: a server whose entry is there is listed with its
    /// tag, and one whose entry is not is no longer listed. Does not allocate.
    pub(crate) fn refresh(&mut self, keys: &KeySet, entries: &EntryMap)
        requires { HasPlaces self.old keys.now (entry_value entries.now) }
        ensures { AreRefreshed keys.now (entry_value entries.now) self.old.tags self.new.tags }
    {
        for key in keys.iter() {
            self.refresh_key(key, entries);
        }
    }

    /// Reads the serverTag entry at the key anew. Does not allocate.
    fn refresh_key(&mut self, key: &EntryKey, entries: &EntryMap)
        requires { HasPlaces self.old (key.now ∷ []) (entry_value entries.now) }
        ensures tags { AreRefreshed (key.now ∷ []) (entry_value entries.now)
            self.old.tags self.new.tags }
        ensures room { self.old.room ≤ self.new.room + 1 }
    {
        let Some(id) = server_of_tag_key(key) else {
            return;
        };
        match entries.get(key) {
            Some(value) => {
                let _ = self.tags.insert(id, decode_tag(value).ok());
            }
            None => {
                let _ = self.tags.swap_remove(&id);
            }
        }
    }
}

/// The server whose serverTag entry has the key.
fn server_of_tag_key(key: &EntryKey) -> Option<[u8; 16]>
    ensures found { IfSome result (λ id. key.now ≡ server_tag_family.prefix ++ id) }
    ensures size { IfSome result (λ id. length id ≡ server_id_length) }
    ensures all { (id : Id) → length id ≡ server_id_length
        → key.now ≡ server_tag_family.prefix ++ id → IsSome result }
{
    let whole = key.server_tag()?;
    let behind = &whole[SERVER_TAG_PREFIX.len()..];
    if behind.len() != 16 {
        return None;
    }
    let mut id = [0u8; 16];
    id.copy_from_slice(behind);
    Some(id)
}
