//! The tags of a keyServers row, gathered when they are read.

ghost use Rattle.std.specs.Prelude.{◌≡◌, IfOk, OnOk, fold};
ghost use Rattle.std.specs.List.{flat_map};
ghost use Rattle.std.specs.Option.{option_to_list};
ghost use Rattle.std.specs.BTreeSet.{insert_key};
ghost use Rattle.system_keys.specs.ListedTags.{tag_cmp};
ghost use Rattle.metadata.specs.CachedTags.{names_by};
ghost use Rattle.metadata.specs.ServerTables.{gathered, tag_listed, tags_named};

use crate::row::Row;
use crate::row_names::{PLACES, RowNames};
use crate::server_table::ServerTable;
use crate::tag_list::TagList;
use std::alloc::Global;
use std::collections::BTreeSet;
use std::marker::Model;
use system_keys::{Items, Location, OutOfMemory, ServerId, Tag};

/// The tags of a keyServers row: those of the servers that it names, or those that it lists. They are
/// gathered when they are read. Contracts see the list of them, strictly increasing.
#[derive(Drop)]
pub struct RowTags<'a> {
    row: &'a Row,
    servers: &'a ServerTable,
}

impl<'a> Model for RowTags<'a> {
    ghost use Rattle.std.specs.Prelude.{List};
    ghost use Rattle.system_keys.specs.declared.tag.Tag.{Tag};
    ghost use Rattle.metadata.specs.CachedTags.{names_by};
    ghost use Rattle.metadata.specs.ServerTables.{tags_named};

    ghost Value = { List Tag };

    ghost view = { λ t. tags_named t.servers.now.tags (names_by t.row.now) };
}

impl<'a> RowTags<'a> {
    /// The tags of the servers that the row names, by this table, or those that it lists. Does not
    /// allocate.
    pub(crate) fn new(row: &'a Row, servers: &'a ServerTable) -> RowTags<'a>
        ensures { result ≡ tags_named servers.now.tags (names_by row.now) }
    {
        RowTags { row, servers }
    }

    /// The list of the tags. Fails only with `OutOfMemory`.
    #[tactic(auto, unfolding(crate::specs::ServerTables::tags_named))]
    pub fn list(&self, alloc: Global) -> Result<Items<Tag>, OutOfMemory>
        ensures { IfOk result (λ list. list ≡ self.now) }
    {
        let mut tags = TagList::new(alloc);
        gather_row(alloc, self.row, self.servers, &mut tags)?;
        Ok(tags.into_items())
    }

    /// Adds the tags to a set. Fails only with `OutOfMemory`; some of them may then be added.
    pub(crate) fn add_to(&self, alloc: Global, tags: &mut BTreeSet<Tag>) -> Result<(), OutOfMemory>
        ensures { OnOk result (tags.new.keys ≡ fold (insert_key tag_cmp) tags.old.keys self.now) }
    {
        match self.row.names() {
            Some(names) => gather_into(names, self.servers, tags),
            None => put_tags(self.list(alloc)?.as_slice(), tags),
        }
    }
}

/// Adds the tags of a row, whose value is read if it was not. Fails only with `OutOfMemory`.
fn gather_row(
    alloc: Global,
    row: &Row,
    servers: &ServerTable,
    tags: &mut TagList,
) -> Result<(), OutOfMemory>
    ensures { OnOk result (tags.new
        ≡ fold (insert_key tag_cmp) tags.old (gathered servers.now.tags (names_by row.now))) }
{
    match row.names() {
        Some(names) => gather(names, servers, tags),
        None => {
            let names = RowNames::of(alloc, servers, row.value())?;
            gather(&names, servers, tags)
        }
    }
}

/// Adds the tags of the servers that are named, its sources and its destinations (release 7.1), or
/// those that are listed. Fails only with `OutOfMemory`.
#[tactic(auto, using(crate::proofs::Tags::named_tags, crate::proofs::Tags::listed_both))]
fn gather(names: &RowNames, servers: &ServerTable, tags: &mut TagList) -> Result<(), OutOfMemory>
    ensures { OnOk result (tags.new
        ≡ fold (insert_key tag_cmp) tags.old (gathered servers.now.tags names.now)) }
{
    match &names.location {
        Some(Location::Servers(teams)) => {
            add_server_tags(servers, teams.sources(), &names.sources, tags)?;
            add_server_tags(servers, teams.destinations(), &names.destinations, tags)
        }
        Some(Location::Tags(teams)) => {
            tags.add_all(teams.sources())?;
            tags.add_all(teams.destinations())
        }
        None => Ok(()),
    }
}

/// Adds to a set the tags of the servers that are named, or those that are listed, as `gather` does to a
/// list. Fails only with `OutOfMemory`; some of them may then be added.
#[tactic(auto, using(crate::proofs::Tags::named_tags, crate::proofs::Tags::listed_both))]
fn gather_into(
    names: &RowNames,
    servers: &ServerTable,
    tags: &mut BTreeSet<Tag>,
) -> Result<(), OutOfMemory>
    ensures { OnOk result (tags.new.keys
        ≡ fold (insert_key tag_cmp) tags.old.keys (gathered servers.now.tags names.now)) }
{
    match &names.location {
        Some(Location::Servers(teams)) => {
            put_server_tags(servers, teams.sources(), &names.sources, tags)?;
            put_server_tags(servers, teams.destinations(), &names.destinations, tags)
        }
        Some(Location::Tags(teams)) => {
            put_tags(teams.sources(), tags)?;
            put_tags(teams.destinations(), tags)
        }
        None => Ok(()),
    }
}

/// Adds the tags of the servers, which may stand at these places. Fails only with `OutOfMemory`.
#[tactic(auto, using(crate::proofs::Tags::next_tags))]
fn add_server_tags(
    table: &ServerTable,
    servers: &[ServerId],
    places: &[u32; PLACES],
    tags: &mut TagList,
) -> Result<(), OutOfMemory>
    ensures { OnOk result (tags.new ≡ fold (insert_key tag_cmp) tags.old
        (flat_map (tag_listed table.now.tags) servers.now)) }
{
    for (number, server) in servers.iter().enumerate() {
        add_tag(tags, table.tag_near(place_at(places, number), server))?;
    }
    Ok(())
}

fn add_tag(tags: &mut TagList, tag: Option<Tag>) -> Result<(), OutOfMemory>
    ensures { OnOk result (tags.new
        ≡ fold (insert_key tag_cmp) tags.old (option_to_list tag)) }
{
    if let Some(tag) = tag {
        tags.add(tag)?;
    }
    Ok(())
}

/// Adds the tags of the servers, which may stand at these places, to a set. Fails only with
/// `OutOfMemory`.
fn put_server_tags(
    table: &ServerTable,
    servers: &[ServerId],
    places: &[u32; PLACES],
    tags: &mut BTreeSet<Tag>,
) -> Result<(), OutOfMemory>
    ensures { OnOk result (tags.new.keys ≡ fold (insert_key tag_cmp) tags.old.keys
        (flat_map (tag_listed table.now.tags) servers.now)) }
{
    for (number, server) in servers.iter().enumerate() {
        put_tag(tags, table.tag_near(place_at(places, number), server))?;
    }
    Ok(())
}

fn put_tag(tags: &mut BTreeSet<Tag>, tag: Option<Tag>) -> Result<(), OutOfMemory>
    ensures { OnOk result (tags.new.keys
        ≡ fold (insert_key tag_cmp) tags.old.keys (option_to_list tag)) }
{
    if let Some(tag) = tag {
        tags.insert(tag)?;
    }
    Ok(())
}

/// Adds the tags to a set. Fails only with `OutOfMemory`.
fn put_tags(list: &[Tag], tags: &mut BTreeSet<Tag>) -> Result<(), OutOfMemory>
    ensures { OnOk result (tags.new.keys
        ≡ fold (insert_key tag_cmp) tags.old.keys list.now) }
{
    for tag in list {
        tags.insert(*tag)?;
    }
    Ok(())
}

/// The place at this number, and 0 where none is remembered.
fn place_at(places: &[u32; PLACES], number: usize) -> u32 {
    match places.get(number) {
        Some(place) => *place,
        None => 0,
    }
}
