//! The tags of a change, of a key and of a range.

ghost use Rattle.std.specs.Prelude.{◌≡◌, true, false, IfOk, OnOk, filter, fold};
ghost use Rattle.std.specs.List.{flat_map};
ghost use Rattle.std.specs.Option.{option_to_list};
ghost use Rattle.std.specs.BTreeSet.{insert_key};
ghost use Rattle.system_keys.specs.declared.change.Change.TheVariants.{Clear};
ghost use Rattle.model.specs.Metadata.{key_servers_entries, is_entry_inside, entry_tags};
ghost use Rattle.model.specs.Metadata.{serving_entry, tags, tags_of_key};
ghost use Rattle.system_keys.specs.ListedTags.{tag_cmp};
ghost use Rattle.metadata.specs.Overwrites.{is_listed};

use crate::entry_key::EntryKey;
use crate::entry_view::EntryView;
use crate::key_set::KeySet;
use crate::row_tags::RowTags;
use std::alloc::Global;
use std::collections::BTreeSet;
use system_keys::{Change, Items, KeyRange, OutOfMemory, Tag};

/// The tags of a change, as [`crate::Metadata::tags_of`] says. Fails only with `OutOfMemory`.
pub fn tags_of(entries: &EntryView, change: &Change) -> Result<Items<Tag>, OutOfMemory>
    ensures { IfOk result (λ found. found ≡ tags entries.now change.now) }
{
    match change {
        Change::Set { key, value: _ } => tags_of_key(entries, key.as_slice()),
        Change::Clear { range } => tags_of_range(entries, range),
    }
}

/// The tags of a key. Fails only with `OutOfMemory`.
pub(crate) fn tags_of_key(entries: &EntryView, key: &[u8]) -> Result<Items<Tag>, OutOfMemory>
    ensures { IfOk result (λ found. found ≡ tags_of_key entries.now key.now) }
{
    match entries.serving_tags(key)? {
        Some(tags) => tags.list(entries.alloc()),
        None => Ok(Items::from(Vec::new(entries.alloc()))),
    }
}

/// The tags of a Clear of the range.
fn tags_of_range(entries: &EntryView, range: &KeyRange) -> Result<Items<Tag>, OutOfMemory>
    ensures { IfOk result (λ found. found ≡ tags entries.now (Clear range.now)) }
{
    let mut tags = BTreeSet::new(entries.alloc());
    add_tags_of_key(entries, range.begin(), &mut tags)?;
    add_tags_inside(entries, range, &mut tags)?;
    list_tags(entries.alloc(), &tags)
}

/// Adds the tags of the entry that serves the key.
fn add_tags_of_key(
    entries: &EntryView,
    key: &[u8],
    tags: &mut BTreeSet<Tag>,
) -> Result<(), OutOfMemory>
    ensures { OnOk result (tags.new.keys ≡ fold (insert_key tag_cmp) tags.old.keys
        (flat_map (entry_tags entries.now)
        (option_to_list (serving_entry (key_servers_entries entries.now) key.now)))) }
{
    match entries.serving_tags(key)? {
        Some(list) => list.add_to(entries.alloc(), tags),
        None => Ok(()),
    }
}

/// Adds the tags of each keyServers entry after the begin of the range and before its end (release
/// 7.1). Takes a step for each of them, and for each run of hidden ones. Fails only with
/// `OutOfMemory`.
fn add_tags_inside(
    entries: &EntryView,
    range: &KeyRange,
    tags: &mut BTreeSet<Tag>,
) -> Result<(), OutOfMemory>
    ensures { OnOk result (tags.new.keys ≡ fold (insert_key tag_cmp) tags.old.keys
        (flat_map (entry_tags entries.now)
        (filter (is_entry_inside range.now) (key_servers_entries entries.now)))) }
{
    let mut inside = entries.entries.serving_inside(range)?;
    while let Some((key, row)) = inside.next() {
        let row_tags = RowTags::new(row, entries.servers);
        add_unless_hidden(entries.alloc(), entries.hidden, key, &row_tags, tags)?;
        if let Some((_, last)) = entries.runs.run_of(key) {
            inside = entries.entries.serving_after(last, range)?;
        }
    }
    Ok(())
}

/// Adds the tags of the row at a key, if the key is not hidden. Fails only with `OutOfMemory`.
fn add_unless_hidden(
    alloc: Global,
    hidden: &KeySet,
    key: &EntryKey,
    row: &RowTags,
    tags: &mut BTreeSet<Tag>,
) -> Result<(), OutOfMemory>
    ensures hides { is_listed hidden.now key.now ≡ true
        → OnOk result (tags.new.keys ≡ tags.old.keys) }
    ensures shows { is_listed hidden.now key.now ≡ false
        → OnOk result (tags.new.keys ≡ fold (insert_key tag_cmp) tags.old.keys row.now) }
{
    if hidden.contains(key) {
        return Ok(());
    }
    row.add_to(alloc, tags)
}

/// The tags of a set, in their order. Fails only with `OutOfMemory`.
fn list_tags(alloc: Global, tags: &BTreeSet<Tag>) -> Result<Items<Tag>, OutOfMemory>
    ensures { IfOk result (λ list. list ≡ tags.now.keys) }
{
    let mut list = Vec::with_capacity(alloc, tags.len())?;
    for tag in tags {
        list.push(*tag)?;
    }
    Ok(Items::from(list))
}
