//! The metadata that every commit proxy keeps the same, as its callers see it: changes and rows are
//! applied, and the lock, tags and routing are read.

ghost use Rattle.std.specs.Prelude.{◌≡◌, [], false, None, IsOk, IfOk, IfSome, IfNone, OnOk, OnErr};
ghost use Rattle.std.specs.Prelude.{option_map, fold, map, slice_get};
ghost use Rattle.std.specs.List.{list_any};
ghost use Rattle.system_keys.specs.declared.change.Change.TheVariants.{Set, Clear};
ghost use Rattle.system_keys.specs.Keys.{Key};
ghost use Rattle.system_keys.specs.Families.{is_kept_key};
ghost use Rattle.model.specs.Metadata.{IsInOrder, AreKept, entry_value, is_locked, after_change};
ghost use Rattle.model.specs.Metadata.{is_applied, after_journal_row, key_servers_entries, route_of};
ghost use Rattle.model.specs.Metadata.{Entries, routing, tags, tags_of_key};
ghost use Rattle.model.specs.PrivateCopies.{private_copy};
ghost use Rattle.metadata.specs.CachedTags.{may_tag_some};
ghost use Rattle.metadata.specs.Overwrites.{IsOverwritten, IsPutOver, TakesBack};
ghost use Rattle.metadata.specs.Overwrites.{entries_without};
ghost use Rattle.metadata.specs.HiddenRuns.{AreHiddenRuns};
ghost use Rattle.metadata.specs.ServerTables.{ServersTakeBack};
ghost use Rattle.metadata.specs.Started.{after_rows, IsStarted, HasStarted};

use crate::applying::{any_applied, only_applied_change};
use crate::entry_view::EntryView;
use crate::kept_entries::KeptEntries;
use crate::key_runs::KeyRuns;
use crate::key_set::KeySet;
use crate::private_copies::find_private_copy;
use crate::route_walk::RouteWalk;
use crate::row_tags::RowTags;
use crate::server_table::ServerTable;
use crate::staged::Staged;
use crate::started_rows::{StartedRows, UndoPut};
use crate::tagging::{tags_of, tags_of_key};
use model::{JournalRow, PrivateCopy, Routing, Version};
use std::alloc::Global;
use std::marker::Model;
use system_keys::{Bytes, Change, Items, KeyRange, OutOfMemory, Tag, is_kept_key};

/// The kept entries in the order of their keys: which storage servers have which keys, their tags,
/// the lock, and the version of the metadata (release 7.1); and the tag of each server.
#[derive(Drop)]
pub struct Metadata {
    entries: KeptEntries,
    /// The tag of each server that has a serverTag entry.
    servers: ServerTable,
    /// The empty set of hidden keys.
    none: KeySet,
    /// No runs of hidden keys.
    no_runs: KeyRuns,
}

impl Model for Metadata {
    ghost use Rattle.std.specs.Prelude.{◌≡◌, []};
    ghost use Rattle.model.specs.Metadata.{Entries, entry_value};
    ghost use Rattle.metadata.specs.ServerTables.{AreServers};

    ghost Value = { Entries };

    ghost view = { λ m. m.entries };

    ghost invariant = { λ m. (m.none ≡ []) × AreServers m.servers.tags (entry_value m.entries) × (m.no_runs ≡ []) };
}

impl Metadata {
    /// The metadata without any entry. Does not allocate.
    pub fn new(alloc: Global) -> Metadata
        ensures { result ≡ [] }
    {
        Metadata {
            entries: KeptEntries::new(alloc),
            servers: ServerTable::new(alloc),
            none: KeySet::new(alloc),
            no_runs: KeyRuns::new(alloc),
        }
    }

    /// The entries, with the table of the servers. Fails only with `OutOfMemory`.
    pub(crate) fn of(entries: KeptEntries) -> Result<Metadata, OutOfMemory>
        ensures { IfOk result (λ made. made ≡ entries) }
    {
        let map = entries.map();
        let alloc = map.alloc();
        let keys = map.server_tag_keys()?;
        let servers = ServerTable::of(&keys, map)?;
        Ok(Metadata {
            entries,
            servers,
            none: KeySet::new(alloc),
            no_runs: KeyRuns::new(alloc),
        })
    }

    /// Applies a change: a Set puts its entry if the key is kept, a Clear removes the entries of
    /// its range, and nothing else changes the entries (release 7.1).
    ///
    /// A Set of a key that is not kept does not allocate. Fails only with `OutOfMemory`; the
    /// metadata is then unchanged.
    pub fn apply(&mut self, change: &Change) -> Result<(), OutOfMemory>
        ensures ok { OnOk result (self.new ≡ after_change self.old change.now) }
        ensures no_allocation { (key value : Key)
            → change.now ≡ Set key value → is_kept_key key ≡ false → IsOk result }
        ensures err { OnErr result (self.new ≡ self.old) }
    {
        match change {
            Change::Set { key, value } => self.set(key.as_slice(), value),
            Change::Clear { range } => self.clear(range),
        }
    }

    /// Puts the value at the key, if the key is kept.
    fn set(&mut self, key: &[u8], value: &Bytes) -> Result<(), OutOfMemory>
        ensures ok { OnOk result (self.new ≡ after_change self.old (Set key.now value.now)) }
        ensures no_allocation { is_kept_key key.now ≡ false → IsOk result }
        ensures err { OnErr result (self.new ≡ self.old) }
    {
        if !is_kept_key(key) {
            return Ok(());
        }
        let staged = self.entries.stage_set(key, value)?;
        let started = self.start(staged, false)?;
        self.finish_rows(started);
        Ok(())
    }

    /// Removes the entries of the range.
    fn clear(&mut self, range: &KeyRange) -> Result<(), OutOfMemory>
        ensures ok { OnOk result (self.new ≡ after_change self.old (Clear range.now)) }
        ensures err { OnErr result (self.new ≡ self.old) }
    {
        let staged = self.entries.stage_clear(range)?;
        let started = self.start(staged, false)?;
        self.finish_rows(started);
        Ok(())
    }

    /// Applies a row of the journal: in order, the changes of each transaction that every resolver
    /// committed, if it is lock aware or the metadata was not locked before the row (release 7.1).
    /// A transaction has one verdict for each resolver; one that is missing is not asked for.
    ///
    /// Does not allocate if no transaction is applied, and otherwise only for what the row changes:
    /// the metadata is not copied. Fails only with `OutOfMemory`; the metadata is then unchanged.
    #[tactic(auto, using(crate::proofs::AppliedLaws::none_applied))]
    pub fn apply_row(&mut self, row: &JournalRow) -> Result<(), OutOfMemory>
        ensures ok { OnOk result (self.new ≡ after_journal_row self.old row.now) }
        ensures no_allocation { list_any (is_applied (is_locked self.old)) row.now.states ≡ false
            → IsOk result }
        ensures err { OnErr result (self.new ≡ self.old) }
    {
        let states = row.states.as_slice();
        let locked = self.is_locked();
        if !any_applied(locked, states) {
            return Ok(());
        }
        if let Some(change) = only_applied_change(locked, states) {
            self.apply(change)?;
            return Ok(());
        }
        let started = self.start_without_runs(&[], row)?;
        self.finish_rows(started);
        Ok(())
    }

    /// Starts to apply the rows, in order, and then the last one: puts what they put. What they
    /// remove stays until [`Metadata::finish_rows`], and [`Metadata::entries_after`] hides it.
    /// [`Metadata::take_back_rows`] undoes what was put; both cannot fail.
    ///
    /// Fails only with `OutOfMemory`; the metadata is then unchanged.
    pub fn start_rows(
        &mut self,
        rows: &[JournalRow],
        last: &JournalRow,
    ) -> Result<StartedRows, OutOfMemory>
        ensures ok { let after = after_journal_row (after_rows self.old rows.now) last.now in
            IfOk result (λ started. IsStarted started self.old after self.new) }
        ensures locked { IfOk result (λ started.
            started.locked ≡ is_locked (after_rows self.old rows.now)) }
        ensures err { OnErr result (self.new ≡ self.old) }
    {
        let started = self.start_without_runs(rows, last)?;
        Ok(started.with_hidden_runs(self.entries.map()))
    }

    /// Starts to apply the rows as [`Metadata::start_rows`] does, for a caller that finishes them
    /// before it looks anything up: makes no runs of what is to be removed.
    fn start_without_runs(
        &mut self,
        rows: &[JournalRow],
        last: &JournalRow,
    ) -> Result<StartedRows, OutOfMemory>
        ensures ok { let after = after_journal_row (after_rows self.old rows.now) last.now in
            IfOk result (λ started. IsStarted started self.old after self.new) }
        ensures locked { IfOk result (λ started.
            started.locked ≡ is_locked (after_rows self.old rows.now)) }
        ensures err { OnErr result (self.new ≡ self.old) }
    {
        if let Some(started) = self.start_sets(rows, last)? {
            return Ok(started);
        }
        let mut staged = self.entries.stage_rows(rows)?;
        let locked = self.entries.is_locked_after(&staged);
        self.entries.stage_row(last, &mut staged)?;
        self.start(staged, locked)
    }

    /// Starts to apply the rows at once, if they set entries, none of them of a serverTag, and clear
    /// nothing; else returns None, and the metadata is unchanged. There are no runs of what is to be
    /// removed. Fails only with `OutOfMemory`; the metadata is then unchanged.
    fn start_sets(
        &mut self,
        rows: &[JournalRow],
        last: &JournalRow,
    ) -> Result<Option<StartedRows>, OutOfMemory>
        ensures ok { let after = after_journal_row (after_rows self.old rows.now) last.now in
            IfOk result (λ found. IfSome found (λ started. IsStarted started self.old after self.new)) }
        ensures locked { IfOk result (λ found. IfSome found (λ started.
            started.locked ≡ is_locked (after_rows self.old rows.now))) }
        ensures none { IfOk result (λ found. IfNone found (self.new ≡ self.old)) }
        ensures err { OnErr result (self.new ≡ self.old) }
    {
        let alloc = self.entries.map().alloc();
        let mut displaced = Vec::new(alloc);
        match self
            .entries
            .put_sets(rows, last, &self.servers, &mut displaced)
        {
            Ok(Some(locked)) => Ok(Some(StartedRows {
                removed: KeySet::new(alloc),
                runs: KeyRuns::new(alloc),
                put: UndoPut {
                    displaced,
                    servers: KeySet::new(alloc),
                },
                locked,
            })),
            Ok(None) => {
                self.entries.take_back(displaced);
                Ok(None)
            }
            Err(OutOfMemory) => {
                self.entries.take_back(displaced);
                Err(OutOfMemory)
            }
        }
    }

    /// Starts to change what is staged: puts what is put, and over the serverTag entries that are
    /// to be removed an empty value, which gives no tag. There are no runs of what is to be removed.
    /// Fails only with `OutOfMemory`; the metadata is then unchanged.
    fn start(&mut self, staged: Staged, locked: bool) -> Result<StartedRows, OutOfMemory>
        ensures ok { IfOk result (λ started. (after : Entries) → IsInOrder after
            → IsOverwritten staged.cleared staged.puts self.old after
            → IsStarted started self.old after self.new) }
        ensures locked { IfOk result (λ started. started.locked ≡ locked) }
        ensures err { OnErr result (self.new ≡ self.old) }
    {
        let Staged { cleared, mut puts } = staged;
        let removed = puts.keys_lacked(cleared);
        puts.blank_server_tags(&removed)?;
        let put = self.put_over(puts)?;
        Ok(StartedRows {
            removed,
            runs: KeyRuns::new(self.entries.map().alloc()),
            put,
            locked,
        })
    }

    /// Puts the entries over those of the metadata. Fails only with `OutOfMemory`; the metadata is
    /// then unchanged.
    fn put_over(&mut self, puts: KeptEntries) -> Result<UndoPut, OutOfMemory>
        ensures ok { OnOk result (IsPutOver puts self.old self.new) }
        ensures takes { IfOk result (λ put. TakesBack put.displaced.items self.old self.new) }
        ensures servers { IfOk result (λ put.
            ServersTakeBack put.servers (entry_value self.old) (entry_value self.new)) }
        ensures was_in_order { OnOk result (IsInOrder self.old) }
        ensures was_kept { OnOk result (AreKept self.old) }
        ensures order { OnOk result (IsInOrder self.new) }
        ensures kept { OnOk result (AreKept self.new) }
        ensures err { OnErr result (self.new ≡ self.old) }
    {
        // (gives the proof that the entries are in order)
        let _others = self.entries.map();
        let servers = puts.map().server_tag_keys()?;
        self.servers.reserve(&servers)?;
        let displaced = self.entries.put_over(puts, &self.servers)?;
        self.servers.refresh(&servers, self.entries.map());
        Ok(UndoPut { displaced, servers })
    }

    /// The entries of the metadata after the rows that were started. Does not allocate.
    pub fn entries_after<'a>(&'a self, started: &'a StartedRows) -> EntryView<'a>
        ensures { (before after : Entries)
            → IsStarted started.now before after self.now → result ≡ after }
    {
        if self.entries.map().may_tag_some(&started.removed) {
            return self.whole();
        }
        let runs = self.hidden_runs(started);
        let entries = self.entries.map();
        EntryView::new(entries, &started.removed, runs, &self.servers)
    }

    /// The runs of the entries that the started rows remove, and none if the entries are no longer
    /// those that were started from. Does not allocate; takes a step for each entry of the runs.
    fn hidden_runs<'a>(&'a self, started: &'a StartedRows) -> &'a KeyRuns
        ensures { AreHiddenRuns started.now.removed self.now result.now }
    {
        let map = self.entries.map();
        if map.are_hidden_runs(&started.runs, &started.removed) {
            &started.runs
        } else {
            &self.no_runs
        }
    }

    /// Removes what the rows that were started remove: the metadata is then that after them. Does
    /// not allocate.
    pub fn finish_rows(&mut self, started: StartedRows)
        ensures { (before after : Entries)
            → IsStarted started before after self.old → self.new ≡ after }
    {
        if self.entries.map().may_tag_some(&started.removed) {
            return;
        }
        self.remove_all(&started.removed);
    }

    /// Takes back what the rows that were started put: the metadata is then that before them. Does
    /// not allocate.
    pub fn take_back_rows(&mut self, started: StartedRows)
        requires { HasStarted started self.old }
        ensures { (before after : Entries)
            → IsStarted started before after self.old → self.new ≡ before }
    {
        let UndoPut { displaced, servers } = started.put;
        self.entries.take_back(displaced);
        self.servers.refresh(&servers, self.entries.map());
    }

    /// Removes the entries at the keys of the set, if none of them gives a server a tag. Does not
    /// allocate.
    fn remove_all(&mut self, keys: &KeySet)
        requires { may_tag_some self.old keys.now ≡ false }
        ensures { self.new ≡ entries_without keys.now self.old }
    {
        self.entries.remove_all(keys);
        self.servers.refresh(keys, self.entries.map());
    }

    /// All entries. Does not allocate.
    fn whole(&self) -> EntryView<'_>
        ensures { result ≡ self.now }
    {
        let entries = self.entries.map();
        EntryView::new(entries, &self.none, &self.no_runs, &self.servers)
    }

    /// The metadata after the rows of the journal, applied in order without copying the metadata.
    ///
    /// Fails only with `OutOfMemory`; the metadata is then dropped.
    pub fn fold_rows(self, rows: &[JournalRow]) -> Result<Metadata, OutOfMemory>
        ensures { IfOk result (λ folded. folded ≡ fold after_journal_row self rows.now) }
    {
        Metadata::of(self.entries.fold_rows(rows)?)
    }

    /// The same as [`Metadata::fold_rows`] of rows that are given away: values that no copy of the rows
    /// shares are moved into the metadata, and not copied.
    ///
    /// Fails only with `OutOfMemory`; the metadata is then dropped.
    pub fn fold_own_rows(self, rows: Items<JournalRow>) -> Result<Metadata, OutOfMemory>
        ensures { IfOk result (λ folded. folded ≡ fold after_journal_row self rows) }
    {
        Metadata::of(self.entries.fold_own_rows(rows)?)
    }

    /// The value of the entry at this key, if there is one. The entries are strictly increasing by
    /// their keys, and each key is kept. Does not allocate; takes a step for each entry before it whose
    /// key begins with the same 15 bytes, behind the prefix of keyServers keys.
    pub fn row(&self, key: &[u8]) -> Option<&[u8]>
        ensures value { option_map (λ value. value.now) result ≡ entry_value self.now key.now }
        ensures order { IsInOrder self.now }
        ensures kept { AreKept self.now }
    {
        self.entries.row(key)
    }

    /// Whether the database is locked: the entry `\xff/dbLocked` is there, and its value is not
    /// empty (release 7.1). Does not allocate.
    pub fn is_locked(&self) -> bool
        ensures { result ≡ is_locked self.now }
    {
        self.entries.is_locked()
    }

    /// The tags of a change: those of the keyServers entries that it touches, increasing by locality
    /// and then by id, without repeats. An entry that names servers has the tags of these, and one
    /// that lists tags has them, whatever tags servers have. A Set touches the greatest entry at
    /// or before its key; a Clear touches the greatest entry at or before its begin, and each entry
    /// after its begin and before its end (release 7.1).
    ///
    /// Fails only with `OutOfMemory`.
    pub fn tags_of(&self, change: &Change) -> Result<Items<Tag>, OutOfMemory>
        ensures { IfOk result (λ found. found ≡ tags self.now change.now) }
    {
        tags_of(&self.whole(), change)
    }

    /// The tags of a key, which may be any bytes: those of a Set of it.
    ///
    /// Fails only with `OutOfMemory`.
    pub fn tags_of_key(&self, key: &[u8]) -> Result<Items<Tag>, OutOfMemory>
        ensures { IfOk result (λ found. found ≡ tags_of_key self.now key.now) }
    {
        tags_of_key(&self.whole(), key)
    }

    /// The private copy of a change, if it has one: a Set of a serverKeys row has one for the server
    /// that its key names, if that has a tag, and a Set of a serverTag row one for the tag that it
    /// sets (release 7.1). One more `\xff` stands before its key.
    ///
    /// A change without one does not allocate. Fails only with `OutOfMemory`.
    pub fn private_of(&self, change: &Change) -> Result<Option<PrivateCopy>, OutOfMemory>
        ensures value { IfOk result (λ found. found ≡ private_copy self.now change.now) }
        ensures no_allocation { private_copy self.now change.now ≡ None → IsOk result }
    {
        find_private_copy(&self.whole(), change)
    }

    /// The routing of the whole key space at this version: the lock, the version of the metadata,
    /// and a route for each keyServers entry, in the order of keys (this project's profile).
    ///
    /// Fails only with `OutOfMemory`.
    pub fn routing(&self, version: Version) -> Result<Routing, OutOfMemory>
        ensures { IfOk result (λ found. found ≡ routing version self.now) }
    {
        Ok(Routing {
            version,
            locked: self.is_locked(),
            metadata_version: self.entries.metadata_version()?,
            routes: self.routes().list(self.entries.map().alloc())?,
        })
    }

    /// A walk over the keyServers entries, in the order of keys: the key that each begins at, and its
    /// tags (this project's profile). Does not allocate.
    pub fn routes(&self) -> RouteWalk<'_>
        ensures { result ≡ map (route_of self.now) (key_servers_entries self.now) }
    {
        RouteWalk::new(self.entries.map(), &self.servers)
    }

    /// The tags of the keyServers entry at this place, in the order of keys and counted from
    /// 0: those of a Set of the key that follows the prefix of its key. None exactly if there are
    /// no more than `place` keyServers entries. Does not allocate; takes a step for each entry before.
    pub fn cached(&self, place: usize) -> Option<RowTags<'_>>
        ensures { result ≡ option_map (λ entry. tags_of_key self.now entry.0)
            (slice_get (key_servers_entries self.now) place) }
    {
        let row = self.entries.map().key_servers_row(place)?;
        Some(RowTags::new(row, &self.servers))
    }

    /// Returns a deep copy. Fails only with `OutOfMemory`.
    pub fn copy(&self) -> Result<Metadata, OutOfMemory>
        ensures { IfOk result (λ copy. copy ≡ self.now) }
    {
        Metadata::of(self.entries.copy()?)
    }
}
