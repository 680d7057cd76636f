//! Merging the owners of one date: each resolver once, so that walks visit the same resolvers.

ghost use Rattle.std.specs.Prelude.{◌≡◌, ◌<◌, ◌≤◌, ◌++◌, true, drop, length, IfOk, OnOk, IsTrue};
ghost use Rattle.std.specs.List.{list_any};
ghost use Rattle.dated_owners.specs.LaterOwners.{is_same_owner};
ghost use Rattle.dated_owners.specs.MergedOwners.{WalkAlike, AreDated, begins_dated};

use crate::later_owners::LaterOwner;
use model::Version;
use std::alloc::Global;
use system_keys::OutOfMemory;

/// Whether two neighbours have one date; else there is nothing to merge.
pub(crate) fn has_one_date_twice(owners: &[LaterOwner]) -> bool
    ensures { result ≡ true → 2 ≤ length owners.now }
{
    for i in 1..owners.len() {
        if owners[i - 1].date == owners[i].date {
            return true;
        }
    }
    false
}

/// Owners by which walks visit the same resolvers as by these. Of the owners of one date each
/// resolver is left once, and all but the last are in the order of their numbers. Fails only with
/// `OutOfMemory`.
pub(crate) fn merge_owners(
    alloc: Global,
    owners: &[LaterOwner],
) -> Result<Vec<LaterOwner>, OutOfMemory>
    ensures { IfOk result (λ merged. WalkAlike owners.now merged.items) }
{
    let mut merged = Vec::new(alloc);
    for i in 0..owners.len() {
        push_first_if_needed(&mut merged, &owners[i..])?;
    }
    Ok(merged)
}

/// Adds the first of the owners, unless it makes no difference before the others.
fn push_first_if_needed(
    merged: &mut Vec<LaterOwner>,
    owners: &[LaterOwner],
) -> Result<(), OutOfMemory>
    ensures { OnOk result
        (WalkAlike (merged.old.items ++ owners.now) (merged.new.items ++ drop 1 owners.now)) }
{
    match owners {
        [owner, later @ ..] => {
            if !recurs_within_date(*owner, later) {
                let place = place_within_date(merged, *owner, later);
                merged.insert(place, *owner)?;
            }
            Ok(())
        }
        [] => Ok(()),
    }
}

/// Whether the same owner comes again, before any of another date.
fn recurs_within_date(owner: LaterOwner, later: &[LaterOwner]) -> bool
    ensures { result ≡ true → IsTrue (list_any (is_same_owner owner) later.now) }
{
    for i in 0..later.len() {
        if later[i].date != owner.date {
            return false;
        }
        if later[i].resolver == owner.resolver {
            return true;
        }
    }
    false
}

/// The place of an owner among the merged ones: at the end if it is the last one of its date, else in
/// the order of the resolvers.
fn place_within_date(merged: &[LaterOwner], owner: LaterOwner, later: &[LaterOwner]) -> usize
    ensures within { result ≤ length merged.now }
    ensures dated { AreDated owner.date (drop result merged.now) }
    ensures inside { result < length merged.now → IsTrue (begins_dated owner.date later.now) }
{
    if first_has_date(owner.date, later) {
        place_by_resolver(merged, owner)
    } else {
        merged.len()
    }
}

/// Whether the first of the owners has the date.
fn first_has_date(date: Version, owners: &[LaterOwner]) -> bool
    ensures { result ≡ begins_dated date owners.now }
{
    match owners {
        [owner, ..] => owner.date == date,
        [] => false,
    }
}

/// The place before the owners at the end that have the same date and a greater resolver.
fn place_by_resolver(merged: &[LaterOwner], owner: LaterOwner) -> usize
    ensures within { result ≤ length merged.now }
    ensures dated { AreDated owner.date (drop result merged.now) }
{
    for i in (0..merged.len()).rev() {
        let before = &merged[i];
        if before.date != owner.date || before.resolver < owner.resolver {
            return i + 1;
        }
    }
    0
}
