//! The version of every key in two maps: steps, and keys that were written alone.

ghost use Rattle.std.specs.Prelude.{◌≡◌, ◌≤◌, ◌+◌, ◌||◌, [], OnOk, IsTrue, filter, length, nat_lt, true};
ghost use Rattle.system_keys.specs.Keys.{Key, Range, holds, is_key_below, only};
ghost use Rattle.share_judge.specs.Steps.{StepStart, AreOver, HaveVersion, TellTheSame, last_from};
ghost use Rattle.share_judge.specs.Steps.{changes_from, is_written_above, settled, starts_now};
ghost use Rattle.share_judge.specs.Versions.{AreInOrder, all_now, all_before};

use crate::key_map::KeyMap;
use crate::one_key::is_one_key;
use crate::step_key::StepKey;
use crate::step_map::StepMap;
use model::Version;
use std::alloc::{AllocError, Global};
use std::marker::Model;
use system_keys::{KeyRange, OutOfMemory};

/// A version for every key, or none, which is 0, and the one before the share that is judged: the
/// later one of two maps. A write of one key puts one entry into the map of such keys, where two
/// starts of steps would be put otherwise.
#[derive(Debug, Drop)]
pub(crate) struct VersionMap {
    steps: StepMap,
    keys: KeyMap,
}

impl Model for VersionMap {
    ghost use Rattle.share_judge.specs.Versions.{Versions, AreInOrder};

    ghost Value = { Versions };

    ghost view = { λ map. record { steps = map.steps; keys = map.keys } };

    ghost invariant = { λ map. AreInOrder (record { steps = map.steps; keys = map.keys }) };
}

impl VersionMap {
    /// No key has a version. Does not allocate.
    pub(crate) fn new(alloc: Global) -> VersionMap
        ensures { result ≡ record { steps = []; keys = [] } }
    {
        VersionMap {
            steps: StepMap::new(alloc),
            keys: KeyMap::new(alloc),
        }
    }

    /// The allocator of the maps.
    pub(crate) fn alloc(&self) -> Global
        ensures { AreInOrder self.now }
    {
        self.steps.alloc()
    }

    /// How many entries the two maps have.
    pub(crate) fn len(&self) -> usize
        ensures { result ≡ length self.now.steps + length self.now.keys }
    {
        self.steps.len() + self.keys.len()
    }

    /// Whether the key has a version above the bound. Does not allocate.
    pub(crate) fn is_key_above(&self, key: &StepKey, bound: Version) -> bool
        ensures { result ≡ is_written_above bound (all_now self.now) (only key.now) }
    {
        let alone = self.keys.at(key);
        let step = self.steps.at(key);
        bound < alone.version.max(step.version)
    }

    /// Whether some key from `begin` up to `end` has a version above the bound. Does not allocate.
    pub(crate) fn has_version_above(&self, begin: &StepKey, end: &StepKey, bound: Version) -> bool
        requires { IsTrue (is_key_below begin.now end.now) }
        ensures { let range : Range = record { begin = begin.now; end = end.now } in
            result ≡ is_written_above bound (all_now self.now) range }
    {
        let alone = self.keys.has_version_above(begin, end, bound);
        alone || self.steps.has_version_above(begin, end, bound)
    }

    /// Gives the keys of the range the version of a share, which is none below those before. Lists
    /// starts as [`StepMap::overwrite`] does it. What was before the share stands, also if it fails,
    /// which is only with `OutOfMemory`.
    pub(crate) fn overwrite(
        &mut self,
        range: &KeyRange,
        version: Version,
        listed: &mut Vec<StepKey>,
    ) -> Result<(), OutOfMemory>
        requires { (key : Key) → last_from 0 (all_now self.old) key ≤ version }
        ensures over { OnOk result
            (AreOver (holds range.now) version (all_now self.old) (all_now self.new)) }
        ensures before { TellTheSame (all_before version self.old) (all_before version self.new) }
        ensures order { AreInOrder self.new }
        ensures listed { OnOk result (HaveVersion version (starts_now self.old.steps) listed.old.items
            → HaveVersion version (starts_now self.new.steps) listed.new.items) }
    {
        if is_one_key(range) && self.keys.has_room() {
            let key = StepKey::new(self.steps.alloc(), range.begin())?;
            return self.keys.overwrite(key, version);
        }
        self.steps.overwrite(range, version, listed)
    }

    /// Takes out the starts at the keys if the step before has their version, which is this one. Does
    /// not allocate.
    pub(crate) fn remove_repeated_starts(&mut self, keys: &[StepKey], version: Version)
        requires { HaveVersion version (starts_now self.old.steps) keys.now }
        ensures same { TellTheSame (all_now self.old) (all_now self.new) }
        ensures order { AreInOrder self.new }
    {
        self.steps.remove_repeated_starts(keys, version);
    }

    /// Gives each key the version from before the share of this version. Does not allocate.
    pub(crate) fn take_back_share(&mut self, share: Version)
        ensures back { all_now self.new ≡ all_before share self.old }
        ensures order { AreInOrder self.new }
    {
        self.steps.take_back_share(share);
        self.keys.take_back_share(share);
    }

    /// Versions up to the bound become none: of steps with one version only the first start stays,
    /// and of the keys written alone those above it. Does not allocate.
    pub(crate) fn sweep(&mut self, bound: Version)
        ensures steps { starts_now self.new.steps ≡ settled bound 0 (starts_now self.old.steps) }
        ensures keys { self.new.keys
            ≡ filter (λ (key : StepStart). nat_lt bound key.1.version) self.old.keys }
        ensures old { AreInOrder self.old }
        ensures order { AreInOrder self.new }
    {
        self.steps.sweep(bound);
        self.keys.sweep(bound);
    }

    /// How many greatest ranges of keys there are with one version, from the empty key up to
    /// `\xff\xff`, where versions up to the bound count as none. Does not allocate.
    pub(crate) fn count(&self, dropped: Version) -> usize
        ensures { result ≡ 1 + changes_from dropped 0 (all_now self.now) }
    {
        self.keys.count_beside(&self.steps, dropped)
    }
}

impl Clone for VersionMap {
    ghost is_clone = { λ map copy. copy ≡ map };

    fn clone(&self) -> Result<VersionMap, AllocError> {
        Ok(VersionMap {
            steps: self.steps.clone()?,
            keys: self.keys.clone()?,
        })
    }
}
