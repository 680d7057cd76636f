//! The entries that the metadata keeps, in the order of their keys.

ghost use Rattle.std.specs.Prelude.{◌≡◌, ◌<◌, ◌++◌, ◌∷◌, ◌&&◌, [], true, false, None, IfOk, OnOk, OnErr};
ghost use Rattle.std.specs.Prelude.{option_map, filter, not, if◌then◌else◌, slice_get};
ghost use Rattle.std.specs.List.{last_or};
ghost use Rattle.std.specs.Option.{is_some};
ghost use Rattle.std.specs.Vec.{vec_len, vec_capacity};
ghost use Rattle.std.specs.Ordering.{nat_cmp};
ghost use Rattle.std.specs.BTreeMap.{insert_entry};
ghost use Rattle.std.specs.Cmp.Lexicographic.{slice_cmp};
ghost use Rattle.std.specs.Map.{keys_of};
ghost use Rattle.system_keys.specs.Keys.{Key, holds, is_key_below};
ghost use Rattle.system_keys.specs.Families.{key_servers_family, is_in};
ghost use Rattle.model.specs.Metadata.{Entries, IsInOrder, entry_value, key_servers_entries};
ghost use Rattle.metadata.specs.MapEntries.{lent_entry};
ghost use Rattle.metadata.specs.MapEntries.{is_serving_up_to, is_serving_inside};
ghost use Rattle.metadata.specs.Overwrites.{is_same_key, is_listed, has_entry, value_back};
ghost use Rattle.metadata.specs.Overwrites.{IsPutOver, TakesBack};
ghost use Rattle.metadata.specs.Overwrites.{entries_without, is_held, lent_ranges};
ghost use Rattle.metadata.specs.CachedTags.{may_tag, may_tag_some};
ghost use Rattle.metadata.specs.HiddenRuns.{IsHiddenRun, AreHiddenRuns, is_serving_before};
ghost use Rattle.metadata.specs.HiddenRuns.{is_serving_after};
ghost use Rattle.metadata.specs.ServerTables.{AreServerKeys};

use crate::entry_key::EntryKey;
use crate::key_runs::KeyRuns;
use crate::key_set::{KeySet, next_key_is};
use crate::order::{is_between, is_key_below};
use crate::row::Row;
use crate::server_table::ServerTable;
use std::alloc::Global;
use std::cmp::Ordering;
use std::collections::BTreeMap;
use std::collections::btree_map::{Iter, Range};
use std::marker::Model;
use std::ops::Bound;
use system_keys::{Bytes, KeyRange, OutOfMemory};

/// An ordered map from keys to values. Contracts see the list of its entries, in the order of
/// their keys.
#[derive(Drop)]
pub(crate) struct EntryMap {
    alloc: Global,
    values: BTreeMap<EntryKey, Row>,
}

impl Model for EntryMap {
    ghost use Rattle.model.specs.Metadata.{Entries, IsInOrder};

    ghost Value = { Entries };

    ghost view = { λ m. m.values.entries };

    ghost invariant = { λ m. IsInOrder m.values.entries };
}

impl EntryMap {
    /// A map without entries. Does not allocate.
    pub(crate) fn new(alloc: Global) -> EntryMap
        ensures { result ≡ [] }
    {
        EntryMap {
            alloc,
            values: BTreeMap::new(alloc),
        }
    }

    /// The allocator of the map.
    pub(crate) fn alloc(&self) -> Global {
        self.alloc
    }

    /// The value at a key. Does not allocate.
    pub(crate) fn get<'a>(&'a self, key: &EntryKey) -> Option<&'a [u8]>
        ensures { option_map (λ value. value.now) result ≡ entry_value self.now key.now }
    {
        let row = self.values.get(key)?;
        Some(row.value())
    }

    /// The value at a key of these bytes. Does not allocate; takes a step for each entry before it whose
    /// key begins with the same 15 bytes, behind the prefix of keyServers keys.
    pub(crate) fn value_at(&self, key: &[u8]) -> Option<&[u8]>
        ensures { option_map (λ value. value.now) result ≡ entry_value self.now key.now }
    {
        let front = EntryKey::front_of(self.alloc, key);
        for (found, row) in self.values.range(&front..) {
            match found.compare_to(key) {
                Ordering::Less => {}
                Ordering::Equal => return Some(row.value()),
                Ordering::Greater => return None,
            }
        }
        None
    }

    /// The entries in the order of their keys. Does not allocate.
    pub(crate) fn iter(&self) -> Iter<'_, EntryKey, Row>
        ensures entries { result ≡ self.now }
        ensures order { IsInOrder self.now }
    {
        self.values.iter()
    }

    /// The keys of the serverTag entries. Fails only with `OutOfMemory`.
    pub(crate) fn server_tag_keys(&self) -> Result<KeySet, OutOfMemory>
        ensures { IfOk result (λ keys. AreServerKeys keys self.now) }
    {
        let mut keys = KeySet::new(self.alloc);
        for (key, _) in self.iter() {
            if key.is_server_tag() {
                keys.insert(key)?;
            }
        }
        Ok(keys)
    }

    /// Sets the value at the key. Fails only with `OutOfMemory`; the map is then unchanged.
    pub(crate) fn put(&mut self, key: &[u8], value: &Bytes) -> Result<(), OutOfMemory>
        ensures ok { OnOk result
            (self.new ≡ insert_entry (slice_cmp nat_cmp) self.old key.now value.now) }
        ensures order { IsInOrder self.new }
        ensures err { OnErr result (self.new ≡ self.old) }
    {
        // (gives the proof that the entries are in order)
        let _alloc = self.alloc;
        self.put_owned(key, value.copy()?)
    }

    /// Sets the value at the key. Fails only with `OutOfMemory`; the map is then unchanged.
    pub(crate) fn put_owned(&mut self, key: &[u8], value: Bytes) -> Result<(), OutOfMemory>
        ensures ok { OnOk result
            (self.new ≡ insert_entry (slice_cmp nat_cmp) self.old key.now value) }
        ensures order { IsInOrder self.new }
        ensures err { OnErr result (self.new ≡ self.old) }
    {
        let key = EntryKey::new(self.alloc, key)?;
        self.values.insert(key, Row::unread(value))?;
        Ok(())
    }

    /// Puts the row at the key, with its value read if it is that of a keyServers entry; its servers
    /// are looked for in the table. What stood there is added to what was displaced before. Fails
    /// only with `OutOfMemory`; the map is then unchanged.
    pub(crate) fn put_row(
        &mut self,
        key: EntryKey,
        row: Row,
        servers: &ServerTable,
        displaced: &mut Vec<Displaced>,
    ) -> Result<(), OutOfMemory>
        ensures ok { OnOk result
            (self.new ≡ insert_entry (slice_cmp nat_cmp) self.old key row) }
        ensures displaced { OnOk result (displaced.new.items
            ≡ displaced.old.items ++ (key, entry_value self.old key) ∷ []) }
        ensures was_in_order { IsInOrder self.old }
        ensures order { IsInOrder self.new }
        ensures err { OnErr result (self.new ≡ self.old) }
        ensures none { OnErr result (displaced.new.items ≡ displaced.old.items) }
    {
        let row = self.row_to_put(&key, row, servers)?;
        displaced.reserve(1)?;
        let copy = key.copy()?;
        let old_row = self.values.insert(key, row)?;
        add_displaced(displaced, copy, old_row);
        Ok(())
    }

    /// The row, with its value read if the key is that of a keyServers entry. Fails only with
    /// `OutOfMemory`.
    fn row_to_put(
        &self,
        key: &EntryKey,
        row: Row,
        servers: &ServerTable,
    ) -> Result<Row, OutOfMemory>
        ensures { IfOk result (λ put. put ≡ row) }
    {
        if key.is_key_servers() {
            row.read(self.alloc, servers)
        } else {
            Ok(row)
        }
    }

    /// Removes the entries of the range. Fails only with `OutOfMemory`, where their keys cannot be
    /// listed; the map is then unchanged.
    pub(crate) fn remove(&mut self, range: &KeyRange) -> Result<(), OutOfMemory>
        ensures ok { OnOk result
            (self.new ≡ filter (λ entry. not (holds range.now entry.0)) self.old) }
        ensures err { OnErr result (self.new ≡ self.old) }
    {
        let mut keys = Vec::new(self.alloc);
        self.list_keys_inside(range, &mut keys)?;
        self.remove_listed(&keys);
        Ok(())
    }

    /// Lists the keys of the entries of the range, in order. Fails only with `OutOfMemory`.
    pub(crate) fn list_keys_inside(
        &self,
        range: &KeyRange,
        keys: &mut Vec<EntryKey>,
    ) -> Result<(), OutOfMemory>
        ensures { OnOk result (keys.new.items ≡ keys.old.items
            ++ keys_of (filter (λ entry. holds range.now entry.0) self.now)) }
    {
        self.list_keys_between(range.begin(), range.end(), keys)
    }

    /// Lists the keys of the entries from `begin` up to `end`, without `end`, in order. Fails only
    /// with `OutOfMemory`.
    fn list_keys_between(
        &self,
        begin: &[u8],
        end: &[u8],
        keys: &mut Vec<EntryKey>,
    ) -> Result<(), OutOfMemory>
        requires { is_key_below begin.now end.now ≡ true }
        ensures { OnOk result (keys.new.items ≡ keys.old.items
            ++ keys_of (filter (λ entry. holds (record { begin = begin.now; end = end.now }) entry.0)
            self.now)) }
    {
        let begin = EntryKey::new(self.alloc, begin)?;
        let end = EntryKey::new(self.alloc, end)?;
        let bounds = (Bound::Included(&begin), Bound::Excluded(&end));
        for (key, _) in self.values.range(bounds) {
            keys.push(key.copy()?)?;
        }
        Ok(())
    }

    /// The keys of the entries that are in one of the ranges. Each is listed once if the begins of
    /// the ranges do not fall. Fails only with `OutOfMemory`.
    pub(crate) fn keys_in_any(&self, ranges: &[&KeyRange]) -> Result<Vec<EntryKey>, OutOfMemory>
        ensures { IfOk result (λ keys. (key : Key) → is_listed keys.items key
            ≡ (is_held (lent_ranges ranges.now) key && has_entry self.now key)) }
    {
        let mut keys = Vec::new(self.alloc);
        let mut from: &[u8] = b"";
        let mut up_to: &[u8] = b"";
        for range in ranges {
            // (what there is from `from` up to `up_to` is listed)
            if !is_between(range.begin(), from, up_to) {
                from = range.begin();
                up_to = range.begin();
            }
            if is_key_below(up_to, range.end()) {
                self.list_keys_between(up_to, range.end(), &mut keys)?;
                up_to = range.end();
            }
        }
        Ok(keys)
    }

    /// Removes the entries at the keys. Does not allocate.
    fn remove_listed(&mut self, keys: &[EntryKey])
        ensures values { (key : Key) → entry_value self.new key
            ≡ (if is_listed keys.now key then None else entry_value self.old key) }
        ensures order { IsInOrder self.old → IsInOrder self.new }
    {
        for listed in keys {
            self.remove_key(listed);
        }
    }

    /// Whether the entry at one of the keys may give a server a tag: it is a serverTag entry, and
    /// its value is not empty. Does not allocate.
    pub(crate) fn may_tag_some(&self, keys: &KeySet) -> bool
        ensures { result ≡ may_tag_some self.now keys.now }
    {
        for key in keys.iter() {
            if self.may_tag(key) {
                return true;
            }
        }
        false
    }

    fn may_tag(&self, key: &EntryKey) -> bool
        ensures { result ≡ may_tag self.now key.now }
    {
        if !key.is_server_tag() {
            return false;
        }
        match self.get(key) {
            Some(value) => !value.is_empty(),
            None => false,
        }
    }

    /// Removes the entries at the keys of the set. Does not allocate.
    pub(crate) fn remove_all(&mut self, keys: &KeySet)
        ensures { IsInOrder self.old → self.new ≡ entries_without keys.now self.old }
    {
        for key in keys.iter() {
            self.remove_key(key);
        }
    }

    /// Removes the entry at the key, if there is one. Does not allocate.
    fn remove_key(&mut self, key: &EntryKey)
        ensures values { (other : Key) → entry_value self.new other
            ≡ (if is_same_key other key.now then None else entry_value self.old other) }
        ensures was_in_order { IsInOrder self.old }
        ensures order { IsInOrder self.new }
    {
        self.values.remove(key);
    }

    /// Puts all entries of the other map, and returns what takes them back. The servers of keyServers
    /// entries are looked for in the table. Fails only with `OutOfMemory`; the map is then unchanged.
    pub(crate) fn put_all(
        &mut self,
        puts: EntryMap,
        servers: &ServerTable,
    ) -> Result<Vec<Displaced>, OutOfMemory>
        ensures ok { OnOk result (IsPutOver puts self.old self.new) }
        ensures takes { IfOk result (λ displaced. TakesBack displaced.items self.old self.new) }
        ensures order { IsInOrder self.new }
        ensures err { OnErr result (self.new ≡ self.old) }
    {
        let mut displaced = Vec::new(self.alloc);
        match self.put_each(puts, servers, &mut displaced) {
            Ok(()) => Ok(displaced),
            Err(OutOfMemory) => {
                self.take_back(displaced);
                Err(OutOfMemory)
            }
        }
    }

    /// Puts the entries of the other map, from the last to the first: each key is then compared with
    /// few of those that are put. Fails only with `OutOfMemory`; some of them are then put, and what
    /// was displaced takes them back.
    fn put_each(
        &mut self,
        puts: EntryMap,
        servers: &ServerTable,
        displaced: &mut Vec<Displaced>,
    ) -> Result<(), OutOfMemory>
        ensures ok { OnOk result (IsPutOver puts self.old self.new) }
        ensures takes { (before : Entries) → TakesBack displaced.old.items before self.old
            → TakesBack displaced.new.items before self.new }
        ensures order { IsInOrder self.old → IsInOrder self.new }
    {
        let mut rest = puts.values.into_iter();
        while let Some((key, row)) = rest.next_back() {
            self.put_row(key, row, servers, displaced)?;
        }
        Ok(())
    }

    /// Takes back entries that were put, the last one first. Does not allocate.
    pub(crate) fn take_back(&mut self, mut displaced: Vec<Displaced>)
        ensures { (before : Entries) → TakesBack displaced.items before self.old
            → self.new ≡ before }
    {
        while let Some(last) = displaced.pop() {
            self.put_back(last);
        }
    }

    /// Puts back what stood at a key: a row if there is another one there, or none. Does not allocate.
    fn put_back(&mut self, last: Displaced)
        ensures { (is_some last.1 ≡ true → has_entry self.old last.0 ≡ true)
            → self.new ≡ value_back self.old last.0 last.1 }
    {
        let Displaced { key, row } = last;
        match row {
            Some(row) => self.overwrite(key, row),
            None => self.remove_key(&key),
        }
    }

    /// The set without the keys at which the map has an entry. Takes a look-up in the set for each entry.
    /// Does not allocate.
    pub(crate) fn keys_lacked(&self, mut keys: KeySet) -> KeySet
        ensures { (key : Key) → is_listed result key
            ≡ (not (has_entry self.now key) && is_listed keys key) }
    {
        for (key, _) in self.iter() {
            keys.remove(key);
        }
        keys
    }

    /// Puts the row at the key, if the map has an entry there. Does not allocate.
    fn overwrite(&mut self, key: EntryKey, row: Row)
        ensures value { has_entry self.old key ≡ true
            → self.new ≡ insert_entry (slice_cmp nat_cmp) self.old key row }
        ensures order { IsInOrder self.new }
    {
        let _ = self.values.insert(key, row);
    }

    /// The value of the keyServers entry at this place, in the order of keys and counted from 0. Does
    /// not allocate; takes a step for each entry before.
    pub(crate) fn key_servers_row(&self, place: usize) -> Option<&Row>
        ensures { option_map (λ row. row.now) result
            ≡ option_map (λ entry. entry.1) (slice_get (key_servers_entries self.now) place) }
    {
        let mut before = place;
        for (key, row) in self.iter() {
            if key.is_key_servers() {
                if before == 0 {
                    return Some(row);
                }
                before -= 1;
            }
        }
        None
    }

    /// The last keyServers entry at or before the key, which stands without their prefix. Fails only with
    /// `OutOfMemory`.
    pub(crate) fn last_serving<'a>(
        &'a self,
        key: &[u8],
    ) -> Result<Option<(&'a EntryKey, &'a Row)>, OutOfMemory>
        ensures found { IfOk result (λ found. option_map lent_entry found
            ≡ last_or None (filter (is_serving_up_to key.now) self.now)) }
        ensures order { IsInOrder self.now }
    {
        let greatest = EntryKey::key_servers(self.alloc, key)?;
        let Some((found, row)) = self.values.range(..=&greatest).next_back() else {
            return Ok(None);
        };
        if !found.is_key_servers() {
            return Ok(None);
        }
        Ok(Some((found, row)))
    }

    /// The keyServers entries at or before the key, which stands without their prefix, in the order
    /// of their keys. Fails only with `OutOfMemory`.
    pub(crate) fn serving_up_to<'a>(
        &'a self,
        key: &[u8],
    ) -> Result<Range<'a, EntryKey, Row>, OutOfMemory>
        ensures found { IfOk result (λ found. found
            ≡ filter (is_serving_up_to key.now) self.now) }
        ensures order { IsInOrder self.now }
    {
        let least = EntryKey::key_servers(self.alloc, b"")?;
        let greatest = EntryKey::key_servers(self.alloc, key)?;
        let bounds = (Bound::Included(&least), Bound::Included(&greatest));
        Ok(self.values.range(bounds))
    }

    /// The keyServers entries before this key, in the order of their keys. The key is a whole one: it
    /// begins with the prefix of keyServers keys. Fails only with `OutOfMemory`.
    pub(crate) fn serving_before<'a>(
        &'a self,
        key: &EntryKey,
    ) -> Result<Range<'a, EntryKey, Row>, OutOfMemory>
        requires { is_in key_servers_family key.now ≡ true }
        ensures { IfOk result (λ found. found
            ≡ filter (is_serving_before key.now) self.now) }
    {
        let least = EntryKey::key_servers(self.alloc, b"")?;
        let bounds = (Bound::Included(&least), Bound::Excluded(key));
        Ok(self.values.range(bounds))
    }

    /// The entries behind this key, in the order of their keys. Does not allocate.
    pub(crate) fn behind<'a>(&'a self, key: &EntryKey) -> Range<'a, EntryKey, Row> {
        self.values.range((Bound::Excluded(key), Bound::Unbounded))
    }

    /// Whether each of the runs begins with the prefix of keyServers keys, and the entries from its
    /// first to its last key are hidden. False too if the last key of a run is before its first, or if a
    /// key between them is hidden that has no entry. Does not allocate; takes a step for each of these
    /// entries, and a look-up for each run.
    pub(crate) fn are_hidden_runs(&self, runs: &KeyRuns, hidden: &KeySet) -> bool
        ensures { result ≡ true → AreHiddenRuns hidden.now self.now runs.now }
    {
        for (first, last) in runs.iter() {
            if !self.is_hidden_run(first, last, hidden) {
                return false;
            }
        }
        true
    }

    fn is_hidden_run(&self, first: &EntryKey, last: &EntryKey, hidden: &KeySet) -> bool
        ensures { result ≡ true
            → IsHiddenRun hidden.now self.now (first.now, last.now) }
    {
        if !first.is_key_servers() || last.is_below(first) {
            return false;
        }
        let mut listed = hidden.keys_at_or_after(first);
        let bounds = (Bound::Included(first), Bound::Included(last));
        for (key, _) in self.values.range(bounds) {
            if !next_key_is(&mut listed, key) {
                return false;
            }
        }
        true
    }

    /// The keyServers entries after the begin of the range and before its end, which stand without
    /// their prefix, in the order of their keys. Fails only with `OutOfMemory`.
    pub(crate) fn serving_inside<'a>(
        &'a self,
        range: &KeyRange,
    ) -> Result<Range<'a, EntryKey, Row>, OutOfMemory>
        ensures found { IfOk result (λ found. found
            ≡ filter (is_serving_inside range.now) self.now) }
        ensures order { IsInOrder self.now }
    {
        let begin = EntryKey::key_servers(self.alloc, range.begin())?;
        let end = EntryKey::key_servers(self.alloc, range.end())?;
        let bounds = (Bound::Excluded(&begin), Bound::Excluded(&end));
        Ok(self.values.range(bounds))
    }

    /// Those of `serving_inside` the range that are after this key, in the order of their keys. The key
    /// is a whole one, with the prefix of keyServers keys, and not before the begin of the range; it
    /// may be past its end, and then there are none. Fails only with `OutOfMemory`.
    pub(crate) fn serving_after<'a>(
        &'a self,
        key: &EntryKey,
        range: &KeyRange,
    ) -> Result<Range<'a, EntryKey, Row>, OutOfMemory>
        requires { is_key_below key.now (key_servers_family.prefix ++ range.now.begin)
            ≡ false }
        ensures { IfOk result (λ found. found
            ≡ filter (is_serving_after key.now range.now) self.now) }
    {
        let end = EntryKey::key_servers(self.alloc, range.end())?;
        if key.is_below(&end) {
            let bounds = (Bound::Excluded(key), Bound::Excluded(&end));
            Ok(self.values.range(bounds))
        } else {
            let none = (Bound::Included(&end), Bound::Excluded(&end));
            Ok(self.values.range(none))
        }
    }

    /// Returns a deep copy. Fails only with `OutOfMemory`.
    pub(crate) fn copy(&self) -> Result<EntryMap, OutOfMemory>
        ensures { IfOk result (λ copy. copy ≡ self.now) }
    {
        let values = self.values.clone()?;
        Ok(EntryMap {
            alloc: self.alloc,
            values,
        })
    }
}

/// A key, and what stood there before a row was put: a row, or none. Contracts see the key's bytes, and
/// the value.
#[derive(Drop)]
pub(crate) struct Displaced {
    key: EntryKey,
    row: Option<Row>,
}

impl Model for Displaced {
    ghost use Rattle.metadata.specs.Overwrites.{Displaced as Seen};

    ghost Value = { Seen };

    ghost view = { λ d. (d.key, d.row) };
}

/// Adds what stood at a key to what was displaced before. Does not allocate.
fn add_displaced(displaced: &mut Vec<Displaced>, key: EntryKey, row: Option<Row>)
    requires { vec_len displaced.old < vec_capacity displaced.old }
    ensures { displaced.new.items ≡ displaced.old.items ++ (key, row) ∷ [] }
{
    displaced.push_reserved(Displaced { key, row });
}
