//! The key of an entry: the prefix of keyServers keys is not kept, and most comparisons look at one
//! number.

ghost use Rattle.std.specs.Prelude.{◌≡◌, ◌≤◌, ◌++◌, ◌&&◌, true, false, not, length, IfOk, IfSome, IfNone};
ghost use Rattle.std.specs.Ordering.{nat_cmp, is_eq};
ghost use Rattle.std.specs.Cmp.Lexicographic.{slice_cmp};
ghost use Rattle.std.specs.declared.cmp.Ordering.TheVariants.{Equal};
ghost use Rattle.system_keys.specs.Keys.{Key, is_key_below};
ghost use Rattle.system_keys.specs.Families.{key_servers_family, is_in};
ghost use Rattle.metadata.specs.CachedTags.{names_server};
ghost use Rattle.metadata.specs.EntryKeys.{class_of, whole_key};

use std::alloc::{AllocError, Global};
use std::cmp::Ordering;
use std::marker::Model;
use system_keys::{KEY_SERVERS_PREFIX, OrderedKey, OutOfMemory, SERVER_TAG_PREFIX, SHORT_KEY};

/// Where a key stands to the keyServers keys, which begin with their prefix.
#[derive(Clone, Copy, Debug)]
pub(crate) enum KeyClass {
    Before,
    KeyServers,
    After,
}

/// The key of an entry. Contracts see the whole key.
#[derive(Drop)]
pub(crate) struct EntryKey {
    class: KeyClass,
    /// What is behind the prefix of a keyServers key, and all of another key.
    rest: OrderedKey,
}

impl Model for EntryKey {
    ghost use Rattle.std.specs.Prelude.{◌≡◌, ℕ, List};
    ghost use Rattle.metadata.specs.EntryKeys.{class_of, whole_key};

    ghost Value = { List ℕ };

    ghost view = { λ k. whole_key k.class k.rest };

    ghost invariant = { λ k. class_of (whole_key k.class k.rest) ≡ k.class };
}

impl EntryKey {
    /// The key of these bytes. Fails only with `OutOfMemory`.
    pub(crate) fn new(alloc: Global, whole: &[u8]) -> Result<EntryKey, OutOfMemory>
        ensures { IfOk result (λ key. key ≡ whole.now) }
    {
        let (class, rest) = parts_of(whole);
        let rest = OrderedKey::new(alloc, rest)?;
        Ok(EntryKey { class, rest })
    }

    /// The key of the keyServers entry at a key. Fails only with `OutOfMemory`.
    pub(crate) fn key_servers(alloc: Global, key: &[u8]) -> Result<EntryKey, OutOfMemory>
        ensures { IfOk result (λ whole. whole ≡ key_servers_family.prefix ++ key.now) }
    {
        let rest = OrderedKey::new(alloc, key)?;
        Ok(EntryKey {
            class: KeyClass::KeyServers,
            rest,
        })
    }

    /// The first bytes of this key as a key: 15, and those of the prefix of keyServers keys. Does not
    /// allocate.
    pub(crate) fn front_of(alloc: Global, whole: &[u8]) -> EntryKey
        ensures up_to { is_key_below whole.now result ≡ false }
        ensures short { length whole.now ≤ 15 → result ≡ whole.now }
    {
        let (class, rest) = parts_of(whole);
        let count = SHORT_KEY.min(rest.len());
        let rest = OrderedKey::new(alloc, &rest[..count]).unwrap();
        EntryKey { class, rest }
    }

    /// Whether the key begins with the prefix of keyServers keys. Does not allocate.
    pub(crate) fn is_key_servers(&self) -> bool
        ensures { result ≡ is_in key_servers_family self.now }
    {
        matches!(self.class, KeyClass::KeyServers)
    }

    /// What is behind the prefix, if this is a keyServers key. Does not allocate.
    pub(crate) fn behind(&self) -> Option<&[u8]>
        ensures own { IfSome result (λ _. is_in key_servers_family self.now ≡ true) }
        ensures behind { IfSome result (λ behind.
            self.now ≡ key_servers_family.prefix ++ behind.now) }
        ensures other { IfNone result (is_in key_servers_family self.now ≡ false) }
    {
        match self.class {
            KeyClass::KeyServers => Some(self.rest.as_slice()),
            KeyClass::Before | KeyClass::After => None,
        }
    }

    /// Whether the key begins like those of serverTag entries. Does not allocate.
    pub(crate) fn is_server_tag(&self) -> bool
        ensures { result ≡ names_server self.now }
    {
        self.server_tag().is_some()
    }

    /// The whole key, if it begins like those of serverTag entries. Does not allocate.
    pub(crate) fn server_tag(&self) -> Option<&[u8]>
        ensures own { IfSome result (λ _. names_server self.now ≡ true) }
        ensures begun { IfSome result (λ whole. names_server whole.now ≡ true) }
        ensures whole { IfSome result (λ whole. whole.now ≡ self.now) }
        ensures other { IfNone result (names_server self.now ≡ false) }
    {
        match self.class {
            KeyClass::KeyServers => None,
            KeyClass::Before | KeyClass::After => begun_by_server_tag(self.rest.as_slice()),
        }
    }

    /// Compares the key with these bytes. Does not allocate.
    pub(crate) fn compare_to(&self, whole: &[u8]) -> Ordering
        ensures { result ≡ slice_cmp nat_cmp self.now whole.now }
    {
        let (class, rest) = parts_of(whole);
        match compare_classes(self.class, class) {
            Ordering::Equal => self.rest.as_slice().cmp(rest),
            apart => apart,
        }
    }

    /// Whether the key is below the other. Does not allocate.
    pub(crate) fn is_below(&self, other: &EntryKey) -> bool
        ensures { result ≡ is_key_below self.now other.now }
    {
        self.cmp(other).is_lt()
    }

    /// Whether the key is neither below `from` nor above `up_to`. Does not allocate.
    pub(crate) fn is_between(&self, from: &EntryKey, up_to: &EntryKey) -> bool
        ensures { result ≡ (not (is_key_below self.now from.now) && not (is_key_below up_to.now self.now)) }
    {
        !self.is_below(from) && !up_to.is_below(self)
    }

    /// Returns a deep copy. Fails only with `OutOfMemory`.
    pub(crate) fn copy(&self) -> Result<EntryKey, OutOfMemory>
        ensures { IfOk result (λ copy. copy ≡ self.now) }
    {
        Ok(self.clone()?)
    }
}

/// The class of a key, and its bytes without the prefix of keyServers keys. Does not allocate.
fn parts_of(whole: &[u8]) -> (KeyClass, &[u8])
    ensures class { result.0 ≡ class_of whole.now }
    ensures rest { whole_key result.0 result.1.now ≡ whole.now }
{
    if whole.starts_with(KEY_SERVERS_PREFIX) {
        (KeyClass::KeyServers, &whole[KEY_SERVERS_PREFIX.len()..])
    } else if whole.cmp(KEY_SERVERS_PREFIX).is_lt() {
        (KeyClass::Before, whole)
    } else {
        (KeyClass::After, whole)
    }
}

fn begun_by_server_tag(whole: &[u8]) -> Option<&[u8]>
    ensures own { IfSome result (λ _. names_server whole.now ≡ true) }
    ensures begun { IfSome result (λ found. names_server found.now ≡ true) }
    ensures whole { IfSome result (λ found. found.now ≡ whole.now) }
    ensures other { IfNone result (names_server whole.now ≡ false) }
{
    if whole.starts_with(SERVER_TAG_PREFIX) {
        Some(whole)
    } else {
        None
    }
}

/// How each key of the one class compares to each of the other, or Equal if the classes are the same.
fn compare_classes(class: KeyClass, other: KeyClass) -> Ordering
    ensures same { result ≡ Equal → class ≡ other }
    ensures apart { is_eq result ≡ false → (a b : Key) → class_of a ≡ class
        → class_of b ≡ other → slice_cmp nat_cmp a b ≡ result }
{
    match (class, other) {
        (KeyClass::Before, KeyClass::Before) => Ordering::Equal,
        (KeyClass::Before, KeyClass::KeyServers) => Ordering::Less,
        (KeyClass::Before, KeyClass::After) => Ordering::Less,
        (KeyClass::KeyServers, KeyClass::Before) => Ordering::Greater,
        (KeyClass::KeyServers, KeyClass::KeyServers) => Ordering::Equal,
        (KeyClass::KeyServers, KeyClass::After) => Ordering::Less,
        (KeyClass::After, KeyClass::Before) => Ordering::Greater,
        (KeyClass::After, KeyClass::KeyServers) => Ordering::Greater,
        (KeyClass::After, KeyClass::After) => Ordering::Equal,
    }
}

impl Clone for EntryKey {
    ghost is_clone = { λ key copy. copy ≡ key };

    fn clone(&self) -> Result<EntryKey, AllocError> {
        Ok(EntryKey {
            class: self.class,
            rest: self.rest.clone()?,
        })
    }
}

impl PartialEq for EntryKey {
    ghost use Rattle.std.specs.Prelude.{nat_eq};
    ghost use Rattle.std.specs.Cmp.{partial_equiv_from_equiv};
    ghost use Rattle.std.specs.Cmp.Lexicographic.{pointwise, nat_list_eq_equiv};

    ghost eq = { pointwise nat_eq };

    ghost laws = { partial_equiv_from_equiv nat_list_eq_equiv };

    fn eq(&self, other: &EntryKey) -> bool {
        self.cmp(other).is_eq()
    }
}

impl Eq for EntryKey {
    ghost use Rattle.std.specs.Cmp.Lexicographic.{nat_list_eq_equiv};

    ghost laws = { nat_list_eq_equiv };
}

impl PartialOrd for EntryKey {
    ghost use Rattle.std.specs.Prelude.{Some};
    ghost use Rattle.std.specs.Ordering.{nat_cmp};
    ghost use Rattle.std.specs.Cmp.Lexicographic.{slice_cmp};
    ghost use Rattle.std.specs.Cmp.Lexicographic.{texts_po};

    ghost partial_cmp = { λ a b. Some (slice_cmp nat_cmp a b) };

    ghost laws = { texts_po };

    fn partial_cmp(&self, other: &EntryKey) -> Option<Ordering> {
        Some(self.cmp(other))
    }
}

impl Ord for EntryKey {
    ghost use Rattle.std.specs.Prelude.{refl};
    ghost use Rattle.std.specs.Ordering.{nat_cmp};
    ghost use Rattle.std.specs.Cmp.Lexicographic.{slice_cmp, nat_list_cmp_total};
    ghost use Rattle.std.specs.Cmp.Lexicographic.{texts_ties};

    ghost cmp = { slice_cmp nat_cmp };

    ghost total = { nat_list_cmp_total };

    ghost matches_partial_cmp = { λ a b. refl };

    ghost matches_eq = { texts_ties };

    fn cmp(&self, other: &EntryKey) -> Ordering {
        match compare_classes(self.class, other.class) {
            Ordering::Equal => self.rest.cmp(&other.rest),
            apart => apart,
        }
    }
}
