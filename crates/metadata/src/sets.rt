//! Sets of rows that are put at once.

ghost use Rattle.std.specs.Prelude.{◌≡◌, ◌++◌, ◌∷◌, [], true, IfOk, IfSome, OnOk, OnErr, fold};
ghost use Rattle.std.specs.BTreeMap.{insert_entry};
ghost use Rattle.std.specs.Cmp.Lexicographic.{slice_cmp};
ghost use Rattle.std.specs.Ordering.{nat_cmp};
ghost use Rattle.system_keys.specs.declared.change.Change.TheVariants.{Set};
ghost use Rattle.model.specs.Metadata.{Entries, after_change, after_changes, after_state, is_locked};
ghost use Rattle.model.specs.Metadata.{IsInOrder, after_journal_row, entry_value};
ghost use Rattle.system_keys.specs.Families.{is_kept_key};
ghost use Rattle.metadata.specs.Overwrites.{TakesBack};
ghost use Rattle.metadata.specs.SameServers.{HaveSameServers};
ghost use Rattle.metadata.specs.Started.{after_rows};

use crate::applying::is_applied;
use crate::entry_key::EntryKey;
use crate::entry_map::Displaced;
use crate::kept_entries::KeptEntries;
use crate::row::Row;
use crate::server_table::ServerTable;
use model::{JournalRow, StateTxn};
use system_keys::{Bytes, Change, OutOfMemory, SERVER_TAG_PREFIX, is_kept_key};

impl KeptEntries {
    /// Puts what the rows set, in order, and then the last one, and returns the lock before that. Returns
    /// None at a Clear, and at a Set of a serverTag entry. Fails only with `OutOfMemory`. Whatever comes
    /// of it, what is displaced takes back what is put.
    pub(crate) fn put_sets(
        &mut self,
        rows: &[JournalRow],
        last: &JournalRow,
        servers: &ServerTable,
        displaced: &mut Vec<Displaced>,
    ) -> Result<Option<bool>, OutOfMemory>
        ensures ok { let before = after_rows self.old rows.now in
            IfOk result (λ found. IfSome found (λ locked. self.new ≡ after_journal_row before last.now)) }
        ensures locked { IfOk result (λ found. IfSome found (λ locked.
            locked ≡ is_locked (after_rows self.old rows.now))) }
        ensures takes { (before : Entries) → TakesBack displaced.old.items before self.old
            → TakesBack displaced.new.items before self.new }
        ensures servers { HaveSameServers self.old self.new }
    {
        if !self.put_rows(rows, servers, displaced)? {
            return Ok(None);
        }
        let locked = self.is_locked();
        if !self.put_states(locked, last.states.as_slice(), servers, displaced)? {
            return Ok(None);
        }
        Ok(Some(locked))
    }

    /// Puts what the rows set, in order. Returns false as `put_sets` returns None; some of it is then put.
    /// Fails only with `OutOfMemory`; some of it may then be put.
    fn put_rows(
        &mut self,
        rows: &[JournalRow],
        servers: &ServerTable,
        displaced: &mut Vec<Displaced>,
    ) -> Result<bool, OutOfMemory>
        ensures ok { IfOk result (λ all. all ≡ true → self.new ≡ after_rows self.old rows.now) }
        ensures takes { (before : Entries) → TakesBack displaced.old.items before self.old
            → TakesBack displaced.new.items before self.new }
        ensures servers { HaveSameServers self.old self.new }
    {
        for row in rows {
            let locked = self.is_locked();
            if !self.put_states(locked, row.states.as_slice(), servers, displaced)? {
                return Ok(false);
            }
        }
        Ok(true)
    }

    /// Puts what the transactions set that the lock permits, in order. Returns false as `put_sets` returns
    /// None; some of it is then put. Fails only with `OutOfMemory`; some of it may then be put.
    fn put_states(
        &mut self,
        locked: bool,
        states: &[StateTxn],
        servers: &ServerTable,
        displaced: &mut Vec<Displaced>,
    ) -> Result<bool, OutOfMemory>
        ensures ok { IfOk result (λ all. all ≡ true
            → self.new ≡ fold (after_state locked) self.old states.now) }
        ensures takes { (before : Entries) → TakesBack displaced.old.items before self.old
            → TakesBack displaced.new.items before self.new }
        ensures servers { HaveSameServers self.old self.new }
    {
        for transaction in states {
            if !self.put_state(locked, transaction, servers, displaced)? {
                return Ok(false);
            }
        }
        Ok(true)
    }

    /// Puts what the transaction sets, if the lock permits it. Returns false as `put_sets` returns None;
    /// some of it is then put. Fails only with `OutOfMemory`; some of it may then be put.
    fn put_state(
        &mut self,
        locked: bool,
        transaction: &StateTxn,
        servers: &ServerTable,
        displaced: &mut Vec<Displaced>,
    ) -> Result<bool, OutOfMemory>
        ensures ok { IfOk result (λ all. all ≡ true
            → self.new ≡ after_state locked self.old transaction.now) }
        ensures takes { (before : Entries) → TakesBack displaced.old.items before self.old
            → TakesBack displaced.new.items before self.new }
        ensures servers { HaveSameServers self.old self.new }
    {
        if !is_applied(locked, transaction) {
            return Ok(true);
        }
        self.put_changes(transaction.mutations.as_slice(), servers, displaced)
    }

    /// Puts what the changes set, in order. Returns false as `put_sets` returns None; some of it is then
    /// put. Fails only with `OutOfMemory`; some of it may then be put.
    fn put_changes(
        &mut self,
        changes: &[Change],
        servers: &ServerTable,
        displaced: &mut Vec<Displaced>,
    ) -> Result<bool, OutOfMemory>
        ensures ok { IfOk result (λ all. all ≡ true → self.new ≡ after_changes self.old changes.now) }
        ensures takes { (before : Entries) → TakesBack displaced.old.items before self.old
            → TakesBack displaced.new.items before self.new }
        ensures servers { HaveSameServers self.old self.new }
    {
        for change in changes {
            if !self.put_change(change, servers, displaced)? {
                return Ok(false);
            }
        }
        Ok(true)
    }

    /// Puts what the change sets. Returns false as `put_sets` returns None; nothing is then put. Fails only
    /// with `OutOfMemory`; nothing is then put.
    fn put_change(
        &mut self,
        change: &Change,
        servers: &ServerTable,
        displaced: &mut Vec<Displaced>,
    ) -> Result<bool, OutOfMemory>
        ensures ok { IfOk result (λ all. all ≡ true → self.new ≡ after_change self.old change.now) }
        ensures takes { (before : Entries) → TakesBack displaced.old.items before self.old
            → TakesBack displaced.new.items before self.new }
        ensures servers { HaveSameServers self.old self.new }
    {
        match change {
            Change::Set { key, value } => self.put_set(key.as_slice(), value, servers, displaced),
            Change::Clear { range: _ } => Ok(false),
        }
    }

    /// Puts the value at the key, if the key is kept. Returns false if the key begins like those of
    /// serverTag entries; nothing is then put. Fails only with `OutOfMemory`; nothing is then put.
    fn put_set(
        &mut self,
        key: &[u8],
        value: &Bytes,
        servers: &ServerTable,
        displaced: &mut Vec<Displaced>,
    ) -> Result<bool, OutOfMemory>
        ensures ok { IfOk result (λ all. all ≡ true
            → self.new ≡ after_change self.old (Set key.now value.now)) }
        ensures takes { (before : Entries) → TakesBack displaced.old.items before self.old
            → TakesBack displaced.new.items before self.new }
        ensures servers { HaveSameServers self.old self.new }
    {
        if key.starts_with(SERVER_TAG_PREFIX) {
            return Ok(false);
        }
        if is_kept_key(key) {
            self.put_kept(key, value, servers, displaced)?;
        }
        Ok(true)
    }

    /// Puts the value at the key, which is kept; what stood there is added to what was displaced before.
    /// Fails only with `OutOfMemory`; the entries are then unchanged.
    fn put_kept(
        &mut self,
        key: &[u8],
        value: &Bytes,
        servers: &ServerTable,
        displaced: &mut Vec<Displaced>,
    ) -> Result<(), OutOfMemory>
        requires { is_kept_key key.now ≡ true }
        ensures ok { OnOk result
            (self.new ≡ insert_entry (slice_cmp nat_cmp) self.old key.now value.now) }
        ensures displaced { OnOk result (displaced.new.items
            ≡ displaced.old.items ++ (key.now, entry_value self.old key.now) ∷ []) }
        ensures was_in_order { IsInOrder self.old }
        ensures err { OnErr result (self.new ≡ self.old) }
        ensures none { OnErr result (displaced.new.items ≡ displaced.old.items) }
    {
        // (gives the proof that the entries are in order)
        let alloc = self.map().alloc();
        let own_key = EntryKey::new(alloc, key)?;
        let copy = value.copy()?;
        let row = Row::unread(copy);
        self.entries.put_row(own_key, row, servers, displaced)?;
        Ok(())
    }
}
