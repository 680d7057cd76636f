//! Verdicts on parts, by the writes of what was committed before them.

ghost use Rattle.std.specs.Prelude.{◌≡◌, ◌<◌, ◌≤◌, IfOk, OnOk};
ghost use Rattle.std.specs.List.{list_any};
ghost use Rattle.system_keys.specs.Keys.{Key};
ghost use Rattle.model.specs.Verdicts.{JudgedPart, is_too_old};
ghost use Rattle.share_judge.specs.Steps.{TellTheSame, AreOver, HaveVersion, last_from};
ghost use Rattle.share_judge.specs.Steps.{last_of_all, is_in_some, is_written_above};
ghost use Rattle.share_judge.specs.Steps.{starts_now};
ghost use Rattle.share_judge.specs.Versions.{AreInOrder, all_now, all_before};
ghost use Rattle.share_judge.specs.Judged.{conflict_bound, verdict_by_steps, committed_writes};
ghost use Rattle.share_judge.specs.Judged.{IsJudged};

use crate::one_key::is_one_key;
use crate::step_key::StepKey;
use crate::verdicts::Verdicts;
use crate::version_map::VersionMap;
use model::{Part, Verdict, Version};
use system_keys::{Items, KeyRange, OutOfMemory};

/// How a share is judged: its version, and what is known of the versions before it.
#[derive(Clone, Copy)]
pub(crate) struct Judging {
    /// How far, in versions, a snapshot may lie before the version.
    pub(crate) window: u64,
    /// Versions up to this one count as none.
    pub(crate) dropped: Version,
    /// The version of the share, above those of the shares before.
    pub(crate) version: Version,
}

/// Judges the parts of a share as [`judge_parts`] does. Returns the verdicts, a copy of them, and
/// the starts that were listed.
pub(crate) fn judge_with_copy(
    steps: &mut VersionMap,
    judging: Judging,
    parts: &[Part],
) -> Result<(Verdicts, Verdicts, Vec<StepKey>), OutOfMemory>
    requires past { last_of_all 0 (all_now steps.old) ≡ 0 }
    requires below { (key : Key) → last_from 0 (all_now steps.old) key < judging.version }
    requires dropped { judging.dropped < judging.version }
    ensures before { TellTheSame (all_before judging.version steps.old)
        (all_before judging.version steps.new) }
    ensures old { AreInOrder steps.old }
    ensures order { AreInOrder steps.new }
    ensures judged { IfOk result (λ made. IsJudged judging.window judging.dropped judging.version
        (all_now steps.old) parts.now made.0 (all_now steps.new)) }
    ensures copy { IfOk result (λ made. made.1 ≡ made.0) }
    ensures listed { IfOk result
        (λ made. HaveVersion judging.version (starts_now steps.new.steps) made.2.items) }
{
    let (verdicts, listed) = judge_parts(steps, judging, parts)?;
    let verdicts = Items::from(verdicts);
    let copy = verdicts.copy()?;
    Ok((verdicts, copy, listed))
}

/// Judges the parts of a share, one after another, and gives each key that a committed one writes
/// the version. Returns the verdicts, and the starts that were listed, as [`VersionMap::overwrite`] does
/// it. What was before the share stands, so that [`VersionMap::take_back_share`] gives it back.
pub(crate) fn judge_parts(
    steps: &mut VersionMap,
    judging: Judging,
    parts: &[Part],
) -> Result<(Vec<Verdict>, Vec<StepKey>), OutOfMemory>
    requires past { last_of_all 0 (all_now steps.old) ≡ 0 }
    requires below { (key : Key) → last_from 0 (all_now steps.old) key < judging.version }
    requires dropped { judging.dropped < judging.version }
    ensures before { TellTheSame (all_before judging.version steps.old)
        (all_before judging.version steps.new) }
    ensures old { AreInOrder steps.old }
    ensures order { AreInOrder steps.new }
    ensures judged { IfOk result (λ made. IsJudged judging.window judging.dropped judging.version
        (all_now steps.old) parts.now made.0.items (all_now steps.new)) }
    ensures listed { IfOk result
        (λ made. HaveVersion judging.version (starts_now steps.new.steps) made.1.items) }
{
    let alloc = steps.alloc();
    let mut verdicts = Vec::with_capacity(alloc, parts.len())?;
    let mut listed = Vec::new(alloc);
    for part in parts {
        let verdict = verdict_by_steps(steps, judging, part)?;
        write_if_committed(steps, judging.version, verdict, part, &mut listed)?;
        verdicts.push(verdict)?;
    }
    Ok((verdicts, listed))
}

/// The verdict on a part, where the steps have the writes of the shares before, and of the parts
/// before it in its share.
fn verdict_by_steps(
    steps: &VersionMap,
    judging: Judging,
    part: &Part,
) -> Result<Verdict, OutOfMemory>
    ensures { let t : JudgedPart = record { version = judging.version; part = part.now } in
        IfOk result (λ verdict. verdict
        ≡ verdict_by_steps judging.window judging.dropped (all_now steps.now) t) }
{
    if is_too_old(judging.window, judging.version, part) {
        Ok(Verdict::TooOld)
    } else if has_overwritten_read(steps, judging, part)? {
        Ok(Verdict::Conflict)
    } else {
        Ok(Verdict::Committed)
    }
}

/// Whether the part has a read, and its snapshot lies more than the window before the version (this
/// project's profile: the window is counted back from the version of the part's own record).
fn is_too_old(window: u64, version: Version, part: &Part) -> bool
    ensures { let t : JudgedPart = record { version = version; part = part.now } in
        result ≡ is_too_old window t }
{
    part.read_count() != 0 && part.snapshot() < version.saturating_sub(window)
}

/// Whether some read of the part has a key that was written after its snapshot or earlier in its
/// share.
fn has_overwritten_read(
    steps: &VersionMap,
    judging: Judging,
    part: &Part,
) -> Result<bool, OutOfMemory>
    ensures { let t : JudgedPart = record { version = judging.version; part = part.now } in
        let bound = conflict_bound judging.dropped t in IfOk result
        (λ answer. answer ≡ list_any (is_written_above bound (all_now steps.now)) part.now.reads) }
{
    let bound = conflict_bound(judging, part);
    for place in 0..part.read_count() {
        let read = part.read_at(place);
        if is_written_above(steps, bound, read)? {
            return Ok(true);
        }
    }
    Ok(false)
}

/// Versions above this one count against the part: those above its snapshot that were not dropped,
/// and the version of its share, which only parts before it have written.
fn conflict_bound(judging: Judging, part: &Part) -> Version
    ensures { let t : JudgedPart = record { version = judging.version; part = part.now } in
        result ≡ conflict_bound judging.dropped t }
{
    let newest = judging.dropped.max(part.snapshot());
    newest.min(judging.version.saturating_sub(1))
}

/// Whether some key of the read has a version above the bound.
fn is_written_above(
    steps: &VersionMap,
    bound: Version,
    read: &KeyRange,
) -> Result<bool, OutOfMemory>
    ensures { IfOk result
        (λ answer. answer ≡ is_written_above bound (all_now steps.now) read.now) }
{
    let begin = StepKey::new(steps.alloc(), read.begin())?;
    if is_one_key(read) {
        return Ok(steps.is_key_above(&begin, bound));
    }
    let end = StepKey::new(steps.alloc(), read.end())?;
    Ok(steps.has_version_above(&begin, &end, bound))
}

/// Gives each key that the part writes the version, if its verdict is Committed, and lists starts as
/// [`VersionMap::overwrite`] does it.
fn write_if_committed(
    steps: &mut VersionMap,
    version: Version,
    verdict: Verdict,
    part: &Part,
    listed: &mut Vec<StepKey>,
) -> Result<(), OutOfMemory>
    requires order { AreInOrder steps.old }
    requires up_to { (key : Key) → last_from 0 (all_now steps.old) key ≤ version }
    ensures over { OnOk result (AreOver (is_in_some (committed_writes verdict part.now)) version
        (all_now steps.old) (all_now steps.new)) }
    ensures before { TellTheSame (all_before version steps.old) (all_before version steps.new) }
    ensures order { AreInOrder steps.new }
    ensures listed { OnOk result (HaveVersion version (starts_now steps.old.steps) listed.old.items
        → HaveVersion version (starts_now steps.new.steps) listed.new.items) }
{
    match verdict {
        Verdict::Committed => write_ranges(steps, version, part, listed),
        Verdict::TooOld | Verdict::Conflict => Ok(()),
    }
}

/// Gives each key that the part writes the version, and lists starts as [`VersionMap::overwrite`]
/// does it.
fn write_ranges(
    steps: &mut VersionMap,
    version: Version,
    part: &Part,
    listed: &mut Vec<StepKey>,
) -> Result<(), OutOfMemory>
    requires order { AreInOrder steps.old }
    requires up_to { (key : Key) → last_from 0 (all_now steps.old) key ≤ version }
    ensures over { OnOk result (AreOver (is_in_some part.now.writes) version (all_now steps.old)
        (all_now steps.new)) }
    ensures before { TellTheSame (all_before version steps.old) (all_before version steps.new) }
    ensures order { AreInOrder steps.new }
    ensures listed { OnOk result (HaveVersion version (starts_now steps.old.steps) listed.old.items
        → HaveVersion version (starts_now steps.new.steps) listed.new.items) }
{
    for place in 0..part.write_count() {
        let range = part.write_at(place);
        steps.overwrite(range, version, listed)?;
    }
    Ok(())
}
