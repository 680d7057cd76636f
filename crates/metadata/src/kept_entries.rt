//! The kept entries, and what rows of a journal change of them.

ghost use Rattle.std.specs.Prelude.{◌≡◌, ◌&&◌, [], false, IsOk, IfOk, OnOk, OnErr, None};
ghost use Rattle.std.specs.Prelude.{Some, option_map, fold, not, if◌then◌else◌};
ghost use Rattle.std.specs.Option.{option_or};
ghost use Rattle.system_keys.specs.declared.change.Change.TheVariants.{Set, Clear};
ghost use Rattle.system_keys.specs.Keys.{Key};
ghost use Rattle.system_keys.specs.Families.{is_kept_key, metadata_version_family};
ghost use Rattle.model.specs.Metadata.{IsInOrder, AreKept, entry_value, is_locked, after_change};
ghost use Rattle.model.specs.Metadata.{after_changes, is_applied, after_state, after_journal_row};
ghost use Rattle.model.specs.Metadata.{Entries, is_filled};
ghost use Rattle.model.specs.Transactions.{locked_key};
ghost use Rattle.metadata.specs.Overwrites.{IsOverwritten, IsPutOver, MayTakeBack, TakesBack};
ghost use Rattle.metadata.specs.Overwrites.{entries_without, has_entry, is_listed, is_same_key};
ghost use Rattle.metadata.specs.CachedTags.{IsBlanked, names_server};
ghost use Rattle.metadata.specs.Started.{after_rows};

use crate::applying::{cleared_keys, is_applied};
use crate::entry_key::EntryKey;
use crate::entry_map::{Displaced, EntryMap};
use crate::key_set::KeySet;
use crate::server_table::ServerTable;
use crate::staged::Staged;
use model::{JournalRow, StateTxn};
use std::alloc::Global;
use std::marker::Model;
use system_keys::{
    Bytes, Change, Items, KeyRange, LOCKED_KEY, METADATA_VERSION_KEY, OutOfMemory, SharedItems,
    is_kept_key,
};

/// The kept entries in the order of their keys: which storage servers have which keys, their tags,
/// the lock, and the version of the metadata (release 7.1).
#[derive(Drop)]
pub(crate) struct KeptEntries {
    pub(crate) entries: EntryMap,
}

impl Model for KeptEntries {
    ghost use Rattle.model.specs.Metadata.{Entries, IsInOrder, AreKept};

    ghost Value = { Entries };

    ghost view = { λ m. m.entries };

    ghost invariant = { λ m. IsInOrder m.entries × AreKept m.entries };
}

impl KeptEntries {
    /// No entries. Does not allocate.
    pub(crate) fn new(alloc: Global) -> KeptEntries
        ensures { result ≡ [] }
    {
        KeptEntries {
            entries: EntryMap::new(alloc),
        }
    }

    /// Applies a change: a Set puts its entry if the key is kept, a Clear removes the entries of
    /// its range, and nothing else changes the entries (release 7.1).
    ///
    /// A Set of a key that is not kept does not allocate. Fails only with `OutOfMemory`; the
    /// metadata is then unchanged.
    pub(crate) fn apply(&mut self, change: &Change) -> Result<(), OutOfMemory>
        ensures ok { OnOk result (self.new ≡ after_change self.old change.now) }
        ensures no_allocation { (key value : Key)
            → change.now ≡ Set key value → is_kept_key key ≡ false → IsOk result }
        ensures err { OnErr result (self.new ≡ self.old) }
    {
        match change {
            Change::Set { key, value } => self.set(key.as_slice(), value),
            Change::Clear { range } => self.clear(range),
        }
    }

    /// Puts the value at the key, if the key is kept.
    fn set(&mut self, key: &[u8], value: &Bytes) -> Result<(), OutOfMemory>
        ensures ok { OnOk result (self.new ≡ after_change self.old (Set key.now value.now)) }
        ensures no_allocation { is_kept_key key.now ≡ false → IsOk result }
        ensures err { OnErr result (self.new ≡ self.old) }
    {
        if is_kept_key(key) {
            self.entries.put(key, value)?;
        }
        Ok(())
    }

    /// Removes the entries of the range.
    fn clear(&mut self, range: &KeyRange) -> Result<(), OutOfMemory>
        ensures ok { OnOk result (self.new ≡ after_change self.old (Clear range.now)) }
        ensures err { OnErr result (self.new ≡ self.old) }
    {
        self.entries.remove(range)?;
        Ok(())
    }

    /// The map of the entries.
    pub(crate) fn map(&self) -> &EntryMap
        ensures entries { result.now ≡ self.now }
        ensures order { IsInOrder self.now }
        ensures kept { AreKept self.now }
    {
        &self.entries
    }

    /// What a Set changes. Fails only with `OutOfMemory`.
    pub(crate) fn stage_set(&self, key: &[u8], value: &Bytes) -> Result<Staged, OutOfMemory>
        ensures staged { IfOk result (λ staged. IsOverwritten staged.cleared staged.puts self.now
            (after_change self.now (Set key.now value.now))) }
        ensures order { IsInOrder self.now }
    {
        let mut staged = Staged::new(self.entries.alloc());
        staged.puts.set(key, value)?;
        Ok(staged)
    }

    /// What a Clear changes. Fails only with `OutOfMemory`.
    pub(crate) fn stage_clear(&self, range: &KeyRange) -> Result<Staged, OutOfMemory>
        ensures staged { IfOk result (λ staged. IsOverwritten staged.cleared staged.puts self.now
            (after_change self.now (Clear range.now))) }
        ensures order { IsInOrder self.now }
    {
        let mut staged = Staged::new(self.entries.alloc());
        let mut keys = Vec::new(self.entries.alloc());
        self.entries.list_keys_inside(range, &mut keys)?;
        staged.cleared.insert_all(&keys)?;
        Ok(staged)
    }

    /// What the rows change, applied in order. Fails only with `OutOfMemory`.
    pub(crate) fn stage_rows(&self, rows: &[JournalRow]) -> Result<Staged, OutOfMemory>
        ensures { IfOk result (λ staged.
            IsOverwritten staged.cleared staged.puts self.now (after_rows self.now rows.now)) }
    {
        let mut staged = Staged::new(self.entries.alloc());
        for row in rows {
            self.stage_row(row, &mut staged)?;
        }
        Ok(staged)
    }

    /// Adds what the row changes after the changes so far. Fails only with `OutOfMemory`.
    pub(crate) fn stage_row(&self, row: &JournalRow, staged: &mut Staged) -> Result<(), OutOfMemory>
        ensures { OnOk result ((now : Entries)
            → IsOverwritten staged.old.cleared staged.old.puts self.now now
            → IsOverwritten staged.new.cleared staged.new.puts self.now
            (after_journal_row now row.now)) }
    {
        let states = row.states.as_slice();
        let locked = self.is_locked_after(staged);
        let cleared = cleared_keys(&self.entries, locked, states)?;
        staged.cleared.insert_all(&cleared)?;
        staged.puts.apply_states(locked, states)?;
        Ok(())
    }

    /// Whether the database is locked after these changes of the metadata. Does not allocate.
    pub(crate) fn is_locked_after(&self, staged: &Staged) -> bool
        ensures value { result ≡ is_filled (option_or (entry_value staged.now.puts locked_key)
            (if is_listed staged.now.cleared locked_key
            then None else entry_value self.now locked_key)) }
        ensures order { IsInOrder self.now }
        ensures kept { AreKept self.now }
    {
        let own = self.row(LOCKED_KEY);
        match staged.puts.row(LOCKED_KEY) {
            Some(value) => !value.is_empty(),
            None if staged.cleared.contains_short(LOCKED_KEY) => false,
            None => match own {
                Some(value) => !value.is_empty(),
                None => false,
            },
        }
    }

    /// The set without the keys at which the metadata has an entry. Does not allocate.
    pub(crate) fn keys_lacked(&self, keys: KeySet) -> KeySet
        ensures { (key : Key) → is_listed result key
            ≡ (not (has_entry self.now key) && is_listed keys key) }
    {
        self.entries.keys_lacked(keys)
    }

    /// Puts an empty value at each of the keys that is of a serverTag entry. Fails only with
    /// `OutOfMemory`; some of them are then put.
    pub(crate) fn blank_server_tags(&mut self, keys: &KeySet) -> Result<(), OutOfMemory>
        ensures { OnOk result (IsBlanked keys.now self.old self.new) }
    {
        let empty = Bytes::from(Vec::new(self.entries.alloc()));
        for key in keys.iter() {
            self.blank_server_tag(key, &empty)?;
        }
        Ok(())
    }

    fn blank_server_tag(&mut self, key: &EntryKey, empty: &Bytes) -> Result<(), OutOfMemory>
        ensures { OnOk result ((other : Key) → entry_value self.new other
            ≡ (if (names_server other && is_kept_key other) && is_same_key other key.now
            then Some empty.now else entry_value self.old other)) }
    {
        match key.server_tag() {
            Some(whole) => self.set(whole, empty),
            None => Ok(()),
        }
    }

    /// Puts the entries over those of the metadata, and returns what takes them back. The servers of
    /// keyServers entries are looked for in the table. Fails only with `OutOfMemory`; the metadata is
    /// then unchanged.
    pub(crate) fn put_over(
        &mut self,
        puts: KeptEntries,
        servers: &ServerTable,
    ) -> Result<Vec<Displaced>, OutOfMemory>
        ensures ok { OnOk result (IsPutOver puts self.old self.new) }
        ensures takes { IfOk result (λ displaced. TakesBack displaced.items self.old self.new) }
        ensures order { IsInOrder self.new }
        ensures kept { AreKept self.new }
        ensures err { OnErr result (self.new ≡ self.old) }
    {
        let displaced = self.entries.put_all(puts.entries, servers)?;
        Ok(displaced)
    }

    /// Takes back entries that were put. Does not allocate.
    pub(crate) fn take_back(&mut self, displaced: Vec<Displaced>)
        requires { MayTakeBack displaced.items self.old }
        ensures { (before : Entries) → TakesBack displaced.items before self.old
            → self.new ≡ before }
    {
        self.entries.take_back(displaced);
    }

    /// Removes the entries at the keys of the set. Does not allocate.
    pub(crate) fn remove_all(&mut self, keys: &KeySet)
        ensures { self.new ≡ entries_without keys.now self.old }
    {
        self.entries.remove_all(keys);
    }

    /// The metadata after the rows of the journal, applied in order without copying the metadata.
    ///
    /// Fails only with `OutOfMemory`; the metadata is then dropped.
    pub(crate) fn fold_rows(mut self, rows: &[JournalRow]) -> Result<KeptEntries, OutOfMemory>
        ensures { IfOk result (λ folded. folded ≡ fold after_journal_row self rows.now) }
    {
        for row in rows {
            self.apply_states(self.is_locked(), row.states.as_slice())?;
        }
        Ok(self)
    }

    /// The same as `fold_rows` of rows that are given away: values that no copy of the rows shares are
    /// moved, and not copied. Fails only with `OutOfMemory`; the metadata is then dropped.
    pub(crate) fn fold_own_rows(
        mut self,
        rows: Items<JournalRow>,
    ) -> Result<KeptEntries, OutOfMemory>
        ensures { IfOk result (λ folded. folded ≡ fold after_journal_row self rows) }
    {
        let rows = Vec::from(rows);
        for row in rows {
            let locked = self.is_locked();
            self.apply_own_states(locked, row.states)?;
        }
        Ok(self)
    }

    /// Applies the transactions as `apply_states` does, and moves values that no copy shares.
    /// Fails only with `OutOfMemory`; some of their changes are then applied.
    pub(crate) fn apply_own_states(
        &mut self,
        locked: bool,
        states: Items<StateTxn>,
    ) -> Result<(), OutOfMemory>
        ensures { OnOk result (self.new ≡ fold (after_state locked) self.old states) }
    {
        let states = Vec::from(states);
        for transaction in states {
            if is_applied(locked, &transaction) {
                self.apply_shared_changes(transaction.mutations)?;
            }
        }
        Ok(())
    }

    /// Applies the changes, and moves their values unless a copy of the list shares them.
    /// Fails only with `OutOfMemory`; some of the changes are then applied.
    fn apply_shared_changes(&mut self, changes: SharedItems<Change>) -> Result<(), OutOfMemory>
        ensures { OnOk result (self.new ≡ after_changes self.old changes) }
    {
        match changes.try_into_items() {
            Ok(own) => self.apply_own_changes(own),
            Err(shared) => self.apply_changes(shared.as_slice()),
        }
    }

    fn apply_own_changes(&mut self, changes: Items<Change>) -> Result<(), OutOfMemory>
        ensures { OnOk result (self.new ≡ after_changes self.old changes) }
    {
        let changes = Vec::from(changes);
        for change in changes {
            self.apply_own(change)?;
        }
        Ok(())
    }

    fn apply_own(&mut self, change: Change) -> Result<(), OutOfMemory>
        ensures { OnOk result (self.new ≡ after_change self.old change) }
    {
        match change {
            Change::Set { key, value } => self.set_own(key, value),
            Change::Clear { range } => self.clear(&range),
        }
    }

    /// Puts the value at the key, if the key is kept.
    fn set_own(&mut self, key: Bytes, value: Bytes) -> Result<(), OutOfMemory>
        ensures { OnOk result (self.new ≡ after_change self.old (Set key value)) }
    {
        let bytes = key.as_slice();
        if is_kept_key(bytes) {
            self.entries.put_owned(bytes, value)?;
        }
        Ok(())
    }

    /// Applies the transactions, if the lock permits them. Fails only with `OutOfMemory`; some of
    /// their changes are then applied.
    pub(crate) fn apply_states(
        &mut self,
        locked: bool,
        states: &[StateTxn],
    ) -> Result<(), OutOfMemory>
        ensures { OnOk result (self.new ≡ fold (after_state locked) self.old states.now) }
    {
        for transaction in states {
            if is_applied(locked, transaction) {
                self.apply_changes(transaction.mutations.as_slice())?;
            }
        }
        Ok(())
    }

    pub(crate) fn apply_changes(&mut self, changes: &[Change]) -> Result<(), OutOfMemory>
        ensures { OnOk result (self.new ≡ after_changes self.old changes.now) }
    {
        for change in changes {
            self.apply(change)?;
        }
        Ok(())
    }

    /// The value of the entry at this key, if there is one. The entries are strictly increasing by
    /// their keys, and each key is kept. Does not allocate.
    pub(crate) fn row(&self, key: &[u8]) -> Option<&[u8]>
        ensures value { option_map (λ value. value.now) result ≡ entry_value self.now key.now }
        ensures order { IsInOrder self.now }
        ensures kept { AreKept self.now }
    {
        self.entries.value_at(key)
    }

    /// Whether the database is locked: the entry `\xff/dbLocked` is there, and its value is not
    /// empty (release 7.1). Does not allocate.
    pub(crate) fn is_locked(&self) -> bool
        ensures { result ≡ is_locked self.now }
    {
        match self.row(LOCKED_KEY) {
            Some(value) => !value.is_empty(),
            None => false,
        }
    }

    pub(crate) fn metadata_version(&self) -> Result<Option<Bytes>, OutOfMemory>
        ensures { IfOk result (λ value. value
            ≡ entry_value self.now metadata_version_family.prefix) }
    {
        match self.row(METADATA_VERSION_KEY) {
            Some(value) => {
                let value = Vec::from_slice(self.entries.alloc(), value)?;
                Ok(Some(Bytes::from(value)))
            }
            None => Ok(None),
        }
    }

    /// Returns a deep copy. Fails only with `OutOfMemory`.
    pub(crate) fn copy(&self) -> Result<KeptEntries, OutOfMemory>
        ensures { IfOk result (λ copy. copy ≡ self.now) }
    {
        Ok(KeptEntries {
            entries: self.entries.copy()?,
        })
    }
}
