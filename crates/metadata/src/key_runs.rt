//! Runs of hidden keys, over which look-ups step at once.

ghost use Rattle.std.specs.Prelude.{◌≡◌, [], false, IfSome};
ghost use Rattle.std.specs.List.{Contains};
ghost use Rattle.system_keys.specs.Keys.{is_key_below};

use crate::entry_key::EntryKey;
use crate::entry_map::EntryMap;
use crate::key_set::KeySet;
use crate::row::Row;
use std::alloc::Global;
use std::collections::BTreeMap;
use std::collections::btree_map::{Iter, Range};
use std::marker::Model;
use std::ops::Bound;
use system_keys::OutOfMemory;

/// Runs of keys. Contracts see the first and the last key of each.
#[derive(Drop)]
pub(crate) struct KeyRuns {
    alloc: Global,
    /// The last key of each run at its first key.
    ends: BTreeMap<EntryKey, EntryKey>,
}

impl Model for KeyRuns {
    ghost use Rattle.std.specs.Prelude.{List};
    ghost use Rattle.metadata.specs.HiddenRuns.{Run};

    ghost Value = { List Run };

    ghost view = { λ r. r.ends.entries };
}

impl KeyRuns {
    /// No runs. Does not allocate.
    pub(crate) fn new(alloc: Global) -> KeyRuns
        ensures { result ≡ [] }
    {
        KeyRuns {
            alloc,
            ends: BTreeMap::new(alloc),
        }
    }

    /// Runs of the keyServers keys among these: a key is in one run with the entry before it if that
    /// is among these too. Takes a step for each of them, and a look-up and copies of two keys for each
    /// run. Some runs are left out if memory runs out.
    pub(crate) fn of(entries: &EntryMap, keys: &KeySet) -> KeyRuns {
        let mut runs = KeyRuns::new(entries.alloc());
        let _ = runs.add_runs_of(entries, keys);
        runs
    }

    /// Adds the runs of the keyServers keys among these. Fails only with `OutOfMemory`; some of the
    /// runs are then added.
    fn add_runs_of(&mut self, entries: &EntryMap, keys: &KeySet) -> Result<(), OutOfMemory> {
        let mut open = None;
        for key in keys.iter() {
            if key.is_key_servers() {
                open = Some(self.run_extended_to(entries, open, key)?);
            }
        }
        match open {
            Some(run) => self.add(run.first, run.last),
            None => Ok(()),
        }
    }

    /// The run that ends with the key: the one before goes on if the entry behind it has the key, and
    /// else it is added, and a run begins. Fails only with `OutOfMemory`; the runs are then unchanged.
    fn run_extended_to<'a>(
        &mut self,
        entries: &'a EntryMap,
        before: Option<OpenRun<'a>>,
        key: &'a EntryKey,
    ) -> Result<OpenRun<'a>, OutOfMemory> {
        let Some(mut run) = before else {
            return Ok(OpenRun::new(entries, key));
        };
        if run.extends_to(key) {
            return Ok(run);
        }
        self.add(run.first, run.last)?;
        Ok(OpenRun::new(entries, key))
    }

    /// Adds a run with copies of its first and its last key. Fails only with `OutOfMemory`; the runs
    /// are then unchanged.
    fn add(&mut self, first: &EntryKey, last: &EntryKey) -> Result<(), OutOfMemory> {
        self.ends.insert(first.copy()?, last.copy()?)?;
        Ok(())
    }

    /// The runs. Does not allocate.
    pub(crate) fn iter(&self) -> Iter<'_, EntryKey, EntryKey>
        ensures { result ≡ self.now }
    {
        self.ends.iter()
    }

    /// The run that begins last at or before the key, if it reaches up to the key. Does not
    /// allocate.
    pub(crate) fn run_of(&self, key: &EntryKey) -> Option<(&EntryKey, &EntryKey)>
        ensures listed { IfSome result (λ run.
            Contains self.now (run.0.now, run.1.now)) }
        ensures begins { IfSome result (λ run.
            is_key_below key.now run.0.now ≡ false) }
        ensures reaches { IfSome result (λ run.
            is_key_below run.1.now key.now ≡ false) }
    {
        let bounds = (Bound::Unbounded, Bound::Included(key));
        let (first, last) = self.ends.range(bounds).next_back()?;
        if key.is_between(first, last) {
            Some((first, last))
        } else {
            None
        }
    }
}

/// A run that may go on: its first and its last key, and the entries behind these.
#[derive(Drop)]
struct OpenRun<'a> {
    first: &'a EntryKey,
    last: &'a EntryKey,
    behind: Range<'a, EntryKey, Row>,
}

impl<'a> OpenRun<'a> {
    /// The run of one key. Does not allocate.
    fn new(entries: &'a EntryMap, key: &'a EntryKey) -> OpenRun<'a> {
        OpenRun {
            first: key,
            last: key,
            behind: entries.behind(key),
        }
    }

    /// Whether the entry behind the run has the key; it is then the last of the run. Does not allocate.
    fn extends_to(&mut self, key: &'a EntryKey) -> bool {
        match self.behind.next() {
            Some((next, _)) if next == key => {
                self.last = key;
                true
            }
            _ => false,
        }
    }
}
