//! A set of keys in order.

ghost use Rattle.std.specs.Prelude.{◌≡◌, ◌≤◌, ◌&&◌, ◌||◌, [], true, OnOk, length, not};
ghost use Rattle.system_keys.specs.Keys.{Key};
ghost use Rattle.metadata.specs.Overwrites.{is_same_key, is_listed};

use crate::entry_key::EntryKey;
use std::alloc::Global;
use std::collections::BTreeSet;
use std::collections::btree_set::{Iter, Range};
use std::marker::Model;
use std::ops::Bound;
use system_keys::OutOfMemory;

/// A set of keys. Contracts see the list of them.
#[derive(Drop)]
pub(crate) struct KeySet {
    alloc: Global,
    keys: BTreeSet<EntryKey>,
}

impl Model for KeySet {
    ghost use Rattle.std.specs.Prelude.{List};
    ghost use Rattle.system_keys.specs.Keys.{Key};

    ghost Value = { List Key };

    ghost view = { λ s. s.keys.keys };
}

impl KeySet {
    /// A set without keys. Does not allocate.
    pub(crate) fn new(alloc: Global) -> KeySet
        ensures { result ≡ [] }
    {
        KeySet {
            alloc,
            keys: BTreeSet::new(alloc),
        }
    }

    /// Whether the set has the key. Does not allocate.
    pub(crate) fn contains(&self, key: &EntryKey) -> bool
        ensures { result ≡ is_listed self.now key.now }
    {
        self.keys.contains(key)
    }

    /// Whether the set has the key of these bytes, which are 15 at most. Does not allocate.
    pub(crate) fn contains_short(&self, key: &[u8]) -> bool
        requires { length key.now ≤ 15 }
        ensures { result ≡ is_listed self.now key.now }
    {
        let whole = EntryKey::front_of(self.alloc, key);
        self.contains(&whole)
    }

    /// Whether there are no keys. Does not allocate.
    pub(crate) fn is_empty(&self) -> bool
        ensures { result ≡ true → self.now ≡ [] }
    {
        self.keys.is_empty()
    }

    /// How many keys there are. Does not allocate.
    pub(crate) fn len(&self) -> usize
        ensures { result ≡ length self.now }
    {
        self.keys.len()
    }

    /// The keys. Does not allocate.
    pub(crate) fn iter(&self) -> Iter<'_, EntryKey>
        ensures { result ≡ self.now }
    {
        self.keys.iter()
    }

    /// The keys from this one on. Does not allocate.
    pub(crate) fn keys_at_or_after(&self, key: &EntryKey) -> Range<'_, EntryKey>
        ensures { (other : Key) → is_listed result other ≡ true
            → is_listed self.now other ≡ true }
    {
        let bounds = (Bound::Included(key), Bound::Unbounded);
        self.keys.range(bounds)
    }

    /// Adds a copy of the key. Fails only with `OutOfMemory`.
    pub(crate) fn insert(&mut self, key: &EntryKey) -> Result<(), OutOfMemory>
        ensures { OnOk result ((other : Key)
            → is_listed self.new other ≡ (is_same_key other key.now || is_listed self.old other)) }
    {
        let copy = key.copy()?;
        self.keys.insert(copy)?;
        Ok(())
    }

    /// Removes the key. Does not allocate.
    pub(crate) fn remove(&mut self, key: &EntryKey)
        ensures { (other : Key) → is_listed self.new other
            ≡ (not (is_same_key other key.now) && is_listed self.old other) }
    {
        // (gives the proof that the keys are in order)
        let _count = self.keys.len();
        self.keys.remove(key);
    }

    /// Adds copies of the keys, from the last to the first: keys that rise are then each compared with
    /// few others. Fails only with `OutOfMemory`; some of them are then added.
    pub(crate) fn insert_all(&mut self, keys: &[EntryKey]) -> Result<(), OutOfMemory>
        ensures { OnOk result ((other : Key) → is_listed self.new other
            ≡ (is_listed keys.now other || is_listed self.old other)) }
    {
        let mut rest = keys;
        while let Some((key, before)) = rest.split_last() {
            self.insert(key)?;
            rest = before;
        }
        Ok(())
    }
}

/// Whether the key is the next of these, which is passed over. Does not allocate.
#[tactic(auto, using(crate::proofs::KeySets::listed_rest))]
pub(crate) fn next_key_is(keys: &mut Range<'_, EntryKey>, key: &EntryKey) -> bool
    ensures found { result ≡ true → is_listed keys.old key.now ≡ true }
    ensures rest { (other : Key) → is_listed keys.new other ≡ true
        → is_listed keys.old other ≡ true }
{
    match keys.next() {
        Some(next) => next == key,
        None => false,
    }
}
