//! The versions of keys that were written alone: looking up, overwriting, taking back, forgetting.

ghost use Rattle.std.specs.Prelude.{◌≡◌, ◌+◌, ◌<◌, ◌≤◌, ◌^◌, ◌&&◌, [], OnOk, filter, length};
ghost use Rattle.std.specs.Prelude.{◌∷◌, List, cond, nat_eq, nat_lt, not, true};
ghost use Rattle.system_keys.specs.Keys.{Key, Range, is_key_below, only};
ghost use Rattle.model.specs.WriteHistories.{unless_forgotten};
ghost use Rattle.share_judge.specs.Steps.{AreRising, Start, StepStart};
ghost use Rattle.share_judge.specs.Steps.{has_start_above, is_same_key, no_step};
ghost use Rattle.share_judge.specs.Steps.{changes_from, version_before, starts_now, starts_before};
ghost use Rattle.share_judge.specs.Versions.{at_key, with_keys};

use crate::one_key::is_right_after;
use crate::step::{NO_STEP, Step};
use crate::step_key::StepKey;
use crate::step_map::{StepMap, is_inner_boundary, is_key_below, unless_forgotten};
use model::Version;
use std::alloc::{AllocError, Global};
use std::collections::BTreeMap;
use std::marker::Model;
use std::ops::Bound;
use system_keys::{KEY_SPACE_END, OutOfMemory};

/// More keys than fit into memory: with so many the count of ranges would not fit into a number.
const MOST_KEYS: usize = 1 << 61;

/// A version for some keys, and the one before the share that is judged. Contracts see the keys with
/// their steps, in the order of the keys. A step says nothing of the keys after its own.
#[derive(Debug, Drop)]
pub(crate) struct KeyMap {
    steps: BTreeMap<StepKey, Step>,
}

impl Model for KeyMap {
    ghost use Rattle.std.specs.Prelude.{◌≤◌, ◌^◌, List, length};
    ghost use Rattle.share_judge.specs.Steps.{StepStart, AreRising};

    ghost Value = { List StepStart };

    ghost view = { λ map. map.steps.entries };

    ghost invariant = { λ map. AreRising map.steps.entries × (length map.steps.entries ≤ 2 ^ 61) };
}

impl KeyMap {
    /// No key has a version. Does not allocate.
    pub(crate) fn new(alloc: Global) -> KeyMap
        ensures { result ≡ [] }
    {
        KeyMap {
            steps: BTreeMap::new(alloc),
        }
    }

    /// How many keys there are.
    pub(crate) fn len(&self) -> usize
        ensures len { result ≡ length self.now }
        ensures small { result < 2 ^ 63 }
    {
        self.steps.len()
    }

    /// Whether one more key has room.
    pub(crate) fn has_room(&self) -> bool
        ensures { result ≡ true → length self.now < 2 ^ 61 }
    {
        self.steps.len() < MOST_KEYS
    }

    /// The step of the key. Does not allocate.
    pub(crate) fn at(&self, key: &StepKey) -> Step
        ensures { result ≡ at_key no_step self.now key.now }
    {
        match self.steps.get(key) {
            Some(step) => *step,
            None => NO_STEP,
        }
    }

    /// The version of the key right after this one, if that is there, or 0. Does not allocate.
    fn after(&self, key: &StepKey) -> Version
        ensures { result ≡ at_key 0 (starts_now self.now) (only key.now).end }
    {
        let mut left = self.steps.range((Bound::Excluded(key), Bound::Unbounded));
        let Some((next, step)) = left.next() else {
            return 0;
        };
        if is_right_after(key.as_slice(), next.as_slice()) {
            return step.version;
        }
        0
    }

    /// Whether some key from `begin` up to `end` has a version above the bound. Does not allocate.
    pub(crate) fn has_version_above(&self, begin: &StepKey, end: &StepKey, bound: Version) -> bool
        requires { is_key_below begin.now end.now ≡ true }
        ensures { let range : Range = record { begin = begin.now; end = end.now } in
            result ≡ has_start_above bound (starts_now self.now) range }
    {
        for (_, step) in self
            .steps
            .range((Bound::Included(begin), Bound::Excluded(end)))
        {
            if bound < step.version {
                return true;
            }
        }
        false
    }

    /// Gives the key the version of a share. What was before the share stands, also if it fails, which
    /// is only with `OutOfMemory`.
    pub(crate) fn overwrite(&mut self, key: StepKey, version: Version) -> Result<(), OutOfMemory>
        requires { length self.old < 2 ^ 61 }
        ensures now { OnOk result ((other : Key) → at_key 0 (starts_now self.new) other
            ≡ cond (is_same_key other key) version (at_key 0 (starts_now self.old) other)) }
        ensures before { (other : Key) → at_key 0 (starts_before version self.new) other
            ≡ at_key 0 (starts_before version self.old) other }
        ensures rising { AreRising self.new }
    {
        let step = self.at(&key).over(version);
        self.steps.insert(key, step)?;
        Ok(())
    }

    /// Gives each key the version from before the share of this version. Does not allocate.
    pub(crate) fn take_back_share(&mut self, share: Version)
        ensures back { starts_now self.new ≡ starts_before share self.old }
        ensures rising { AreRising self.new }
    {
        self.steps.retain(
            |_, step| -> bool
                ensures { (step.new.version ≡ version_before share step.old) × (result ≡ true) }
            {
                step.version = step.version_before(share);
                true
            },
        );
    }

    /// Takes out the keys with versions up to the bound. Does not allocate.
    pub(crate) fn sweep(&mut self, bound: Version)
        ensures keys { self.new ≡ filter (λ (key : StepStart). nat_lt bound key.1.version) self.old }
        ensures rising { AreRising self.new }
    {
        self.steps.retain(
            |_, step| -> bool
                ensures { (step.new ≡ step.old) × (result ≡ nat_lt bound step.old.version) }
            { bound < step.version },
        );
    }

    /// How many greatest ranges of keys there are with one version, from the empty key up to
    /// `\xff\xff`, where each key has the later version of this map and the steps, and versions up to
    /// the bound count as none. Does not allocate.
    pub(crate) fn count_beside(&self, steps: &StepMap, dropped: Version) -> usize
        ensures { result ≡ 1
            + changes_from dropped 0 (with_keys (starts_now self.now) (starts_now steps.now)) }
    {
        let mut gained = steps.count(dropped);
        let mut lost = 0;
        for (key, alone) in &self.steps {
            let before = steps.before(key);
            let at = steps.at(key).version;
            let after = self.after(key).max(steps.after(key));
            let now = alone.version.max(at);
            lost += count_changes(key.as_slice(), dropped, before, at, after);
            gained += count_changes(key.as_slice(), dropped, before, now, after);
        }
        gained - lost
    }
}

/// How many ranges begin at the key and right after it, where the versions just before it, at it and
/// right after it are these.
fn count_changes(
    key: &[u8],
    dropped: Version,
    before: Version,
    at: Version,
    after: Version,
) -> usize
    ensures changes { let begun : List Start = (key.now, at) ∷ ((only key.now).end, after) ∷ [] in
        result ≡ changes_from dropped (unless_forgotten dropped before) begun }
    ensures few { result ≤ 2 }
{
    let before = unless_forgotten(dropped, before);
    let at = unless_forgotten(dropped, at);
    let after = unless_forgotten(dropped, after);
    let begun = count_change(is_inner_boundary(key), before, at);
    begun + count_change(is_key_below(key, KEY_SPACE_END), at, after)
}

/// One if a range begins at a boundary, where the version before it is this one, and none if not.
fn count_change(is_boundary: bool, before: Version, version: Version) -> usize
    ensures change { result ≡ cond (is_boundary && not (nat_eq version before)) 1 0 }
    ensures few { result ≤ 1 }
{
    if is_boundary && version != before {
        1
    } else {
        0
    }
}

impl Clone for KeyMap {
    ghost is_clone = { λ map copy. copy ≡ map };

    fn clone(&self) -> Result<KeyMap, AllocError> {
        Ok(KeyMap {
            steps: self.steps.clone()?,
        })
    }
}
