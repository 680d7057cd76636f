//! The history of writes.

ghost use Rattle.std.specs.Prelude.{◌≡◌, ◌<◌, [], Ok, Err, IfOk, IfErr, OnOk, OnErr};
ghost use Rattle.model.specs.WriteHistories.{ShareAt, StandsForShares, last_at};
ghost use Rattle.share_judge.specs.Answers.{AreVerdicts, GainsShare, Forgets, IsCount, IfNotKept};
ghost use Rattle.share_judge.specs.Answers.{IfOutOfMemory};

use crate::judging::{Judging, judge_parts, judge_with_copy};
use crate::not_judged::NotJudged;
use crate::verdicts::Verdicts;
use crate::version_map::VersionMap;
use model::Version;
use request_builder::Share;
use std::alloc::Global;
use std::marker::Model;
use system_keys::{Items, OutOfMemory};

/// A sweep needs at least twice this number of entries.
const SWEPT_AT_LEAST: usize = 8;

/// The committed writes of one resolver, with their versions.
///
/// Contracts say which lists of judged shares the history stands for, and not how it keeps them.
#[derive(Clone, Debug, Drop)]
pub struct WriteHistory {
    window: u64,
    last: Version,
    /// Versions up to this one count as none.
    dropped: Version,
    /// How many entries there were after the last sweep.
    swept: usize,
    steps: VersionMap,
}

impl Model for WriteHistory {
    ghost use Rattle.model.specs.WriteHistories.{WriteHistoryView};
    ghost use Rattle.share_judge.specs.Steps.{kept_writes};
    ghost use Rattle.share_judge.specs.Versions.{all_now};
    ghost use Rattle.share_judge.specs.Kept.{AreKept};

    ghost Value = { WriteHistoryView };

    ghost view = { λ history. record {
      window = history.window;
      last = history.last;
      writes = kept_writes history.dropped (all_now history.steps);
    } };

    ghost invariant = { λ history.
        AreKept history.last history.dropped (all_now history.steps) };
}

impl WriteHistory {
    /// Returns the history before any share. `window` is how far, in versions, a snapshot may lie
    /// before the version that is judged. Fails only with `OutOfMemory`.
    pub fn new(alloc: Global, window: u64) -> Result<WriteHistory, OutOfMemory>
        ensures window { IfOk result (λ history. history.window ≡ window) }
        ensures last { IfOk result (λ history. history.last ≡ 0) }
        ensures stands { IfOk result (λ history. StandsForShares history [] 0) }
    {
        Ok(WriteHistory {
            window,
            last: 0,
            dropped: 0,
            swept: 0,
            steps: VersionMap::new(alloc),
        })
    }

    /// Returns the version that was judged last, or 0.
    pub fn last(&self) -> Version
        ensures { result ≡ self.now.last }
    {
        self.last
    }

    /// Judges the share of the record of `version`, which must be above the version judged last.
    /// Returns one verdict for each part, in order. Remembers the writes of the committed parts.
    ///
    /// A part is too old if it has a read and its snapshot is below the version minus the window.
    /// Otherwise it conflicts if one of its reads overlaps a write of a committed part, at a version
    /// above its snapshot or earlier in the same share. Fails only with `OutOfMemory`, and then
    /// leaves the history unchanged. What is judged cannot be undone: a caller that needs further
    /// memory allocates it first, or calls [`WriteHistory::judge_with`].
    pub fn judge(&mut self, version: Version, share: &Share) -> Result<Verdicts, OutOfMemory>
        requires { self.old.last < version }
        ensures verdicts { let s : ShareAt = record { version = version; parts = share.now } in
            IfOk result (λ verdicts. AreVerdicts self.old s verdicts) }
        ensures stands { let s : ShareAt = record { version = version; parts = share.now } in
            OnOk result (GainsShare self.old s self.new) }
        ensures window { self.new.window ≡ self.old.window }
        ensures last { OnOk result (self.new.last ≡ version) }
        ensures err { OnErr result (self.new ≡ self.old) }
    {
        let judging = Judging {
            window: self.window,
            dropped: self.dropped,
            version,
        };
        let Ok((verdicts, listed)) = judge_parts(&mut self.steps, judging, share.parts()) else {
            self.steps.take_back_share(version);
            return Err(OutOfMemory);
        };
        self.steps.remove_repeated_starts(&listed, version);
        self.last = version;
        Ok(Items::from(verdicts))
    }

    /// Judges the share as [`WriteHistory::judge`] does, and calls `keep` with a copy of the
    /// verdicts. If `keep` returns a value, remembers the writes of the committed parts, and
    /// returns the verdicts and that value.
    ///
    /// Fails with `NotKept` if `keep` returns an error, and otherwise only with `OutOfMemory`, which
    /// gives back `keep` itself. Calling `keep` uses it up, so it was then not called, and nothing
    /// fails once it has returned a value: it may do what cannot be undone. Each failure leaves the
    /// history unchanged.
    pub fn judge_with<K, E, F: FnOnce(Verdicts) -> Result<K, E>>(
        &mut self,
        version: Version,
        share: &Share,
        keep: F,
    ) -> Result<(Verdicts, K), NotJudged<E, F>>
        requires above { self.old.last < version }
        requires callable { F.IsAlwaysCallable keep }
        ensures verdicts { let s : ShareAt = record { version = version; parts = share.now } in
            IfOk result (λ made. AreVerdicts self.old s made.0) }
        ensures kept { IfOk result (λ made. F.post keep made.0 (Ok made.1)) }
        ensures stands { let s : ShareAt = record { version = version; parts = share.now } in
            OnOk result (GainsShare self.old s self.new) }
        ensures window { self.new.window ≡ self.old.window }
        ensures last { OnOk result (self.new.last ≡ version) }
        ensures err { OnErr result (self.new ≡ self.old) }
        ensures why { let s : ShareAt = record { version = version; parts = share.now } in
            IfErr result (λ error. IfNotKept error (λ reason.
            (verdicts : _) × AreVerdicts self.old s verdicts × F.post keep verdicts (Err reason))) }
        ensures back { IfErr result (λ error. IfOutOfMemory error (λ back. back ≡ keep)) }
    {
        let judging = Judging {
            window: self.window,
            dropped: self.dropped,
            version,
        };
        let Ok((verdicts, copy, listed)) = judge_with_copy(&mut self.steps, judging, share.parts())
        else {
            self.steps.take_back_share(version);
            return Err(NotJudged::OutOfMemory(keep));
        };
        match keep(copy) {
            Ok(kept) => {
                self.steps.remove_repeated_starts(&listed, version);
                self.last = version;
                Ok((verdicts, kept))
            }
            Err(reason) => {
                self.steps.take_back_share(version);
                Err(NotJudged::NotKept(reason))
            }
        }
    }

    /// Forgets the writes at or below `oldest` that no later verdict needs: those at least the
    /// window before the version judged last. Allocates nothing.
    pub fn forget(&mut self, oldest: Version)
        ensures window { self.new.window ≡ self.old.window }
        ensures last { self.new.last ≡ self.old.last }
        ensures stands { Forgets self.old oldest self.new }
    {
        let bound = oldest.min(self.last.saturating_sub(self.window));
        self.dropped = self.dropped.max(bound);
        self.sweep_if_grown();
    }

    /// Returns how many greatest ranges of keys there are with one last version, from the empty key
    /// up to `\xff\xff`. Versions that were forgotten count as none. Allocates nothing.
    pub fn steps(&self) -> usize
        ensures { IsCount (last_at self.now.writes) result }
    {
        self.steps.count(self.dropped)
    }

    /// Returns a deep copy. Fails only with `OutOfMemory`.
    pub fn copy(&self) -> Result<WriteHistory, OutOfMemory>
        ensures { IfOk result (λ copy. copy ≡ self.now) }
    {
        Ok(self.clone()?)
    }

    /// Takes out what tells no version that is left, if there are twice as many entries as after the
    /// last time.
    fn sweep_if_grown(&mut self)
        ensures { self.new ≡ self.old }
    {
        if self.steps.len() / 2 >= self.swept.max(SWEPT_AT_LEAST) {
            self.steps.sweep(self.dropped);
            self.swept = self.steps.len();
        }
    }
}
