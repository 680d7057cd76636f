//! The version of every key as a map of steps: looking up, overwriting by a share, taking back,
//! forgetting.

ghost use Rattle.std.specs.Prelude.{◌≡◌, ◌+◌, ◌<◌, ◌≤◌, ◌^◌, ◌++◌, [], IfOk, OnOk, IsTrue, true};
ghost use Rattle.std.specs.Prelude.{nat_eq, not, IfSome, false, length};
ghost use Rattle.system_keys.specs.Keys.{Key, Range, holds, is_key_below, only};
ghost use Rattle.model.specs.WriteHistories.{unless_forgotten};
ghost use Rattle.share_judge.specs.Steps.{last_from, last_before, settled, AreRising, HasStart};
ghost use Rattle.share_judge.specs.Steps.{IsEdge, IsFree, TellTheSame, GainsStart, AreOver};
ghost use Rattle.share_judge.specs.Steps.{HaveVersion, marked, is_listed, is_same_key};
ghost use Rattle.share_judge.specs.Steps.{is_written_above, keys_between, is_inner_boundary};
ghost use Rattle.share_judge.specs.Steps.{changes_from};
ghost use Rattle.share_judge.specs.Steps.{no_step, version_before, starts_now, starts_before};

use crate::one_key::is_right_after;
use crate::step::{NO_STEP, Step};
use crate::step_key::StepKey;
use model::Version;
use std::alloc::{AllocError, Global};
use std::collections::BTreeMap;
use std::marker::Model;
use std::ops::Bound;
use system_keys::{KEY_SPACE_END, KeyRange, OutOfMemory};

/// What a map has at a key.
#[derive(Clone, Copy)]
struct Edge {
    step: Step,
    /// There is a start at the key.
    is_start: bool,
}

/// There is no version, and no start.
const NO_EDGE: Edge = Edge {
    step: NO_STEP,
    is_start: false,
};

/// What a map has at the ends of a range.
#[derive(Clone, Copy)]
struct Edges {
    /// The step at the begin, if no start lies between the begin and the end.
    begin: Option<Step>,
    end: Edge,
}

/// A version for every key, or none, which is 0, and the one before the share that is judged.
/// Contracts see the list of its starts, in the order of their keys: each gives its step to the keys
/// from it on, up to the next one. Keys before the first start have no version.
#[derive(Debug, Drop)]
pub(crate) struct StepMap {
    alloc: Global,
    steps: BTreeMap<StepKey, Step>,
}

impl Model for StepMap {
    ghost use Rattle.std.specs.Prelude.{List};
    ghost use Rattle.share_judge.specs.Steps.{StepStart, AreRising};

    ghost Value = { List StepStart };

    ghost view = { λ map. map.steps.entries };

    ghost invariant = { λ map. AreRising map.steps.entries };
}

impl StepMap {
    /// No key has a version. Does not allocate.
    pub(crate) fn new(alloc: Global) -> StepMap
        ensures { result ≡ [] }
    {
        StepMap {
            alloc,
            steps: BTreeMap::new(alloc),
        }
    }

    /// The allocator of the map.
    pub(crate) fn alloc(&self) -> Global {
        self.alloc
    }

    /// How many starts there are.
    pub(crate) fn len(&self) -> usize
        ensures len { result ≡ length self.now }
        ensures small { result < 2 ^ 63 }
    {
        self.steps.len()
    }

    /// The step at a key. Does not allocate.
    pub(crate) fn at(&self, key: &StepKey) -> Step
        ensures { result ≡ last_from no_step self.now key.now }
    {
        match self.steps.range(..=key).next_back() {
            Some((_, step)) => *step,
            None => NO_STEP,
        }
    }

    /// The version of the key right after this one. Does not allocate.
    pub(crate) fn after(&self, key: &StepKey) -> Version
        ensures { result ≡ last_from 0 (starts_now self.now) (only key.now).end }
    {
        let mut left = self.steps.range((Bound::Excluded(key), Bound::Unbounded));
        let Some((next, step)) = left.next() else {
            return self.at(key).version;
        };
        if is_right_after(key.as_slice(), next.as_slice()) {
            return step.version;
        }
        self.at(key).version
    }

    /// The version just before a key. Does not allocate.
    pub(crate) fn before(&self, key: &StepKey) -> Version
        ensures { result ≡ last_before 0 (starts_now self.now) key.now }
    {
        match self.steps.range(..key).next_back() {
            Some((_, step)) => step.version,
            None => 0,
        }
    }

    /// Whether some key from `begin` up to `end` has a version above the bound: one of a start between,
    /// or of the last start up to `begin`. Does not allocate.
    pub(crate) fn has_version_above(&self, begin: &StepKey, end: &StepKey, bound: Version) -> bool
        requires { IsTrue (is_key_below begin.now end.now) }
        ensures { let range : Range = record { begin = begin.now; end = end.now } in
            result ≡ is_written_above bound (starts_now self.now) range }
    {
        let mut left = self.steps.range(..end);
        while let Some((key, step)) = left.next_back() {
            if bound < step.version {
                return true;
            }
            if key <= begin {
                return false;
            }
        }
        false
    }

    /// Gives the keys of the range the version of a share. If a start lies between its ends, lists the
    /// starts in the range, which then have that version. What was before the share stands, also if
    /// it fails, which is only with `OutOfMemory`.
    pub(crate) fn overwrite(
        &mut self,
        range: &KeyRange,
        version: Version,
        listed: &mut Vec<StepKey>,
    ) -> Result<(), OutOfMemory>
        ensures over { OnOk result
            (AreOver (holds range.now) version (starts_now self.old) (starts_now self.new)) }
        ensures before { TellTheSame (starts_before version self.old) (starts_before version self.new) }
        ensures rising { AreRising self.new }
        ensures listed { OnOk result (HaveVersion version (starts_now self.old) listed.old.items
            → HaveVersion version (starts_now self.new) listed.new.items) }
    {
        let begin = StepKey::new(self.alloc, range.begin())?;
        let end = StepKey::new(self.alloc, range.end())?;
        let edges = self.edges(&begin, &end);
        if let Some(at_begin) = edges.begin {
            return self.overwrite_between_starts(begin, end, at_begin, edges.end, version);
        }
        self.overwrite_across_starts(&begin, &end, edges.end, version, listed)
    }

    /// What there is at the two keys. Does not allocate.
    fn edges(&self, begin: &StepKey, end: &StepKey) -> Edges
        requires { is_key_below begin.now end.now ≡ true }
        ensures begin { IfSome result.begin (λ step. step ≡ last_from no_step self.now begin.now) }
        ensures is_free { IfSome result.begin (λ _. IsFree begin.now end.now self.now) }
        ensures end { IsEdge self.now end.now result.end.step result.end.is_start }
        ensures rising { AreRising self.now }
    {
        let mut left = self.steps.range(..=end);
        let Some((last, step)) = left.next_back() else {
            return Edges {
                begin: Some(NO_STEP),
                end: NO_EDGE,
            };
        };
        if last < end {
            return Edges {
                begin: step_up_to(last, *step, begin),
                end: Edge {
                    step: *step,
                    is_start: false,
                },
            };
        }
        let end = Edge {
            step: *step,
            is_start: true,
        };
        match left.next_back() {
            Some((key, step)) => Edges {
                begin: step_up_to(key, *step, begin),
                end,
            },
            None => Edges {
                begin: Some(NO_STEP),
                end,
            },
        }
    }

    /// Gives the keys from `begin` up to `end` the version, where no start lies between.
    fn overwrite_between_starts(
        &mut self,
        begin: StepKey,
        end: StepKey,
        at_begin: Step,
        at_end: Edge,
        version: Version,
    ) -> Result<(), OutOfMemory>
        requires below { is_key_below begin end ≡ true }
        requires at_begin { at_begin ≡ last_from no_step self.old begin }
        requires at_end { IsEdge self.old end at_end.step at_end.is_start }
        requires is_free { IsFree begin end self.old }
        requires rising { AreRising self.old }
        ensures over { let range : Range = record { begin = begin; end = end } in OnOk result
            (AreOver (holds range) version (starts_now self.old) (starts_now self.new)) }
        ensures before { TellTheSame (starts_before version self.old) (starts_before version self.new) }
        ensures rising { AreRising self.new }
    {
        self.put_edge_if_missing(end, at_end)?;
        self.steps.insert(begin, at_begin.over(version))?;
        Ok(())
    }

    /// Gives the keys from `begin` up to `end` the version, and lists the starts between.
    fn overwrite_across_starts(
        &mut self,
        begin: &StepKey,
        end: &StepKey,
        at_end: Edge,
        version: Version,
        listed: &mut Vec<StepKey>,
    ) -> Result<(), OutOfMemory>
        requires below { is_key_below begin.now end.now ≡ true }
        requires at_end { IsEdge self.old end.now at_end.step at_end.is_start }
        requires rising { AreRising self.old }
        ensures over { let range : Range = record { begin = begin.now; end = end.now } in
            OnOk result
            (AreOver (holds range) version (starts_now self.old) (starts_now self.new)) }
        ensures before { TellTheSame (starts_before version self.old) (starts_before version self.new) }
        ensures rising { AreRising self.new }
        ensures listed { OnOk result (HaveVersion version (starts_now self.old) listed.old.items
            → HaveVersion version (starts_now self.new) listed.new.items) }
    {
        self.put_copy_if_missing(end, at_end)?;
        self.put_step_start(begin.copy()?)?;
        let first = listed.len();
        self.list_starts_between(begin, end, listed)?;
        self.set_versions(&listed[first..], version);
        Ok(())
    }

    /// Puts a start at the key, unless there is one.
    fn put_edge_if_missing(&mut self, key: StepKey, edge: Edge) -> Result<(), OutOfMemory>
        requires { IsEdge self.old key edge.step edge.is_start }
        ensures gains { GainsStart key self.old self.new }
        ensures there { OnOk result (HasStart self.new key) }
    {
        if edge.is_start {
            return Ok(());
        }
        self.steps.insert(key, edge.step)?;
        Ok(())
    }

    /// Puts a start at the key, unless there is one. Copies the key only then.
    fn put_copy_if_missing(&mut self, key: &StepKey, edge: Edge) -> Result<(), OutOfMemory>
        requires { IsEdge self.old key.now edge.step edge.is_start }
        ensures gains { GainsStart key.now self.old self.new }
        ensures there { OnOk result (HasStart self.new key.now) }
    {
        if edge.is_start {
            return Ok(());
        }
        self.put_edge_if_missing(key.copy()?, edge)
    }

    /// Puts a start at the key, with the step that the key has.
    fn put_step_start(&mut self, key: StepKey) -> Result<(), OutOfMemory>
        ensures gains { GainsStart key self.old self.new }
        ensures there { OnOk result (HasStart self.new key) }
    {
        let step = self.at(&key);
        self.put_edge_if_missing(
            key,
            Edge {
                step,
                is_start: false,
            },
        )
    }

    /// Lists the keys of the starts from `begin` up to `end`.
    fn list_starts_between(
        &self,
        begin: &StepKey,
        end: &StepKey,
        keys: &mut Vec<StepKey>,
    ) -> Result<(), OutOfMemory>
        requires { is_key_below begin.now end.now ≡ true }
        ensures { OnOk result (keys.new.items
            ≡ keys.old.items ++ keys_between begin.now end.now self.now) }
    {
        for (key, _) in self
            .steps
            .range((Bound::Included(begin), Bound::Excluded(end)))
        {
            keys.push(key.copy()?)?;
        }
        Ok(())
    }

    /// Gives the starts at the keys the version. Does not allocate.
    fn set_versions(&mut self, keys: &[StepKey], version: Version)
        ensures now { starts_now self.new ≡ marked (is_listed keys.now) version (starts_now self.old) }
        ensures before { starts_before version self.new ≡ starts_before version self.old }
        ensures rising { AreRising self.old → AreRising self.new }
    {
        for key in keys {
            self.set_version(key, version);
        }
    }

    /// Gives the start at the key the version, if there is one.
    fn set_version(&mut self, key: &StepKey, version: Version)
        ensures now { starts_now self.new
            ≡ marked (is_same_key key.now) version (starts_now self.old) }
        ensures before { starts_before version self.new ≡ starts_before version self.old }
        ensures rising { AreRising self.new }
    {
        let Some(place) = self.steps.get_mut(key) else {
            return;
        };
        *place = place.over(version);
    }

    /// Takes out the starts at the keys if the step before has their version, which is this one. Does
    /// not allocate.
    pub(crate) fn remove_repeated_starts(&mut self, keys: &[StepKey], version: Version)
        requires { HaveVersion version (starts_now self.old) keys.now }
        ensures same { TellTheSame (starts_now self.old) (starts_now self.new) }
        ensures rising { AreRising self.old → AreRising self.new }
    {
        for key in keys {
            self.remove_start_if_repeated(key, version);
        }
    }

    /// Takes out the start at the key, if the step before has its version, which is this one.
    fn remove_start_if_repeated(&mut self, key: &StepKey, version: Version)
        requires { last_from 0 (starts_now self.old) key.now ≡ version }
        ensures same { TellTheSame (starts_now self.old) (starts_now self.new) }
        ensures rising { AreRising self.new }
        ensures was_rising { AreRising self.old }
    {
        if self.before(key) == version {
            self.steps.remove(key);
        }
    }

    /// Gives each key the version from before the share of this version. Does not allocate.
    pub(crate) fn take_back_share(&mut self, share: Version)
        ensures back { starts_now self.new ≡ starts_before share self.old }
        ensures rising { AreRising self.new }
    {
        self.steps.retain(
            |_, step| -> bool
                ensures { (step.new.version ≡ version_before share step.old) × (result ≡ true) }
            {
                step.version = step.version_before(share);
                true
            },
        );
    }

    /// Versions up to the bound become none, and of steps with one version only the first start
    /// stays. Does not allocate.
    pub(crate) fn sweep(&mut self, bound: Version)
        ensures starts { starts_now self.new ≡ settled bound 0 (starts_now self.old) }
        ensures rising { AreRising self.new }
    {
        let mut last = 0;
        self.steps.retain(
            |_, step| -> bool
                ensures { (step.new.version ≡ unless_forgotten bound step.old.version)
                    × (result ≡ not (nat_eq step.new.version last.entry))
                    × (last.exit ≡ step.new.version) }
            {
                step.version = unless_forgotten(bound, step.version);
                let is_new = step.version != last;
                last = step.version;
                is_new
            },
        );
    }

    /// How many greatest ranges of keys there are with one version, from the empty key up to
    /// `\xff\xff`, where versions up to the bound count as none. Does not allocate.
    pub(crate) fn count(&self, dropped: Version) -> usize
        ensures count { result ≡ 1 + changes_from dropped 0 (starts_now self.now) }
        ensures fits { result ≤ 2 ^ 63 }
        ensures rising { AreRising self.now }
    {
        let _length = self.steps.len();
        let mut count = 1;
        let mut last = 0;
        for (key, step) in &self.steps {
            let version = unless_forgotten(dropped, step.version);
            if is_inner_boundary(key.as_slice()) && version != last {
                count += 1;
            }
            last = version;
        }
        count
    }
}

impl Clone for StepMap {
    ghost is_clone = { λ map copy. copy ≡ map };

    fn clone(&self) -> Result<StepMap, AllocError> {
        Ok(StepMap {
            alloc: self.alloc,
            steps: self.steps.clone()?,
        })
    }
}

/// The step at `begin` if the last start up to the end of its range is at `key`, with this step; or
/// none if that start lies above `begin`.
fn step_up_to(key: &StepKey, step: Step, begin: &StepKey) -> Option<Step>
    ensures up_to { IfSome result (λ _. is_key_below begin.now key.now ≡ false) }
    ensures step { IfSome result (λ found. found ≡ step) }
{
    if key <= begin { Some(step) } else { None }
}

/// The version, or 0 if it is at or below the bound.
pub(crate) fn unless_forgotten(bound: Version, version: Version) -> Version
    ensures { result ≡ unless_forgotten bound version }
{
    if version <= bound { 0 } else { version }
}

/// Whether a range can end and the next one begin at the key: it is above the empty key, and below
/// `\xff\xff`.
pub(crate) fn is_inner_boundary(key: &[u8]) -> bool
    ensures { result ≡ is_inner_boundary key.now }
{
    is_key_below(b"", key) && is_key_below(key, KEY_SPACE_END)
}

/// Whether the key `a` is below the key `b`.
pub(crate) fn is_key_below(a: &[u8], b: &[u8]) -> bool
    ensures { result ≡ is_key_below a.now b.now }
{
    a.cmp(b).is_lt()
}
