//! Checks of the keys, values and ranges of a script, in the order of its lists.

ghost use Rattle.std.specs.Prelude.{◌≡◌, Result};
ghost use Rattle.scripts.specs.Checks.{checked_change, checked_range, each_checked, of_key};
ghost use Rattle.scripts.specs.ScriptFaults.{IsReadAs};
ghost use Rattle.scripts.specs.declared.script_fault.ScriptFault.{ScriptFault as Fault};

use crate::raw_change::RawChange;
use crate::script_fault::ScriptFault;
use mutation::GivenRange;
use std::alloc::Global;
use system_keys::{Change, Items, KeyRange};

/// A value that is made only from checked parts.
pub trait Checked<R: Drop>: Drop {
    ghost checked: { R → Result Self Fault };

    /// Returns what was checked, or its first fault in the order of the script (this project's
    /// profile).
    fn check(alloc: Global, raw: R) -> Result<Self, ScriptFault>
        ensures { IsReadAs (λ found. found) result (checked raw) };
}

impl From<system_keys::Refusal> for ScriptFault {
    ghost from_gives = { λ refusal fault. fault ≡ of_key refusal };

    fn from(refusal: system_keys::Refusal) -> ScriptFault {
        ScriptFault::Refused(mutation::Refusal::Key(refusal))
    }
}

impl Checked<RawChange> for Change {
    ghost checked = { checked_change };

    fn check(_alloc: Global, raw: RawChange) -> Result<Change, ScriptFault> {
        match raw {
            RawChange::Set { key, value } => { Ok(Change::set_bytes(key, value)?) }
            RawChange::Clear { begin, end } => {
                Ok(Change::clear(KeyRange::of_bytes(begin, end)?))
            }
        }
    }
}

impl<R: Drop, X: Checked<R>> Checked<Items<R>> for Items<X> {
    ghost checked = { each_checked X.checked };

    fn check(alloc: Global, raw: Items<R>) -> Result<Items<X>, ScriptFault> {
        check_each(alloc, raw)
    }
}

/// Returns the range, or its fault.
pub fn check_range(range: GivenRange) -> Result<KeyRange, ScriptFault>
    ensures { IsReadAs (λ found. found) result (checked_range range) }
{
    Ok(KeyRange::of_bytes(range.begin, range.end)?)
}

/// Returns all of the list, or the first fault.
pub fn check_each<R: Drop, X: Checked<R>>(
    alloc: Global,
    list: Items<R>,
) -> Result<Items<X>, ScriptFault>
    ensures { IsReadAs (λ found. found) result (each_checked X.checked list) }
{
    let raws = Vec::from(list);
    let mut items = Vec::with_capacity(alloc, raws.len())?;
    for raw in raws {
        items.push(X::check(alloc, raw)?)?;
    }
    Ok(Items::from(items))
}
