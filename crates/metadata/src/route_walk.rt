//! The routes of a metadata, one after another, and the list of them.

ghost use Rattle.std.specs.Prelude.{◌≡◌, [], ◌∷◌, IfOk, MatchOption, map};
ghost use Rattle.model.specs.Metadata.{entry_value, route_of, key_servers_entries};
ghost use Rattle.metadata.specs.ServerTables.{AreServers};

use crate::entry_key::EntryKey;
use crate::entry_map::EntryMap;
use crate::row::Row;
use crate::row_tags::RowTags;
use crate::server_table::ServerTable;
use model::Route;
use std::alloc::Global;
use std::collections::btree_map::Iter;
use std::marker::Model;
use system_keys::{Bytes, Items, OutOfMemory, Tag};

/// The keyServers entries of a metadata that are still to come, in the order of keys. Contracts see
/// their routes.
#[derive(Drop)]
pub struct RouteWalk<'a> {
    entries: Iter<'a, EntryKey, Row>,
    servers: &'a ServerTable,
}

impl<'a> Model for RouteWalk<'a> {
    ghost use Rattle.std.specs.Prelude.{List};
    ghost use Rattle.model.specs.declared.routing.Route.{Route};
    ghost use Rattle.metadata.specs.Routes.{routes_by};

    ghost Value = { List Route };

    ghost view = { λ w. routes_by w.servers.now.tags w.entries };
}

impl<'a> RouteWalk<'a> {
    /// All keyServers entries of the map. Does not allocate.
    pub(crate) fn new(entries: &'a EntryMap, servers: &'a ServerTable) -> RouteWalk<'a>
        requires { AreServers servers.now.tags (entry_value entries.now) }
        ensures { result ≡ map (route_of entries.now) (key_servers_entries entries.now) }
    {
        RouteWalk {
            entries: entries.iter(),
            servers,
        }
    }

    /// Takes the next entry: the key that it begins at and its tags. None once there are no more.
    /// Does not allocate.
    pub fn next(&mut self) -> Option<(&'a [u8], RowTags<'a>)>
        ensures { MatchOption result ((self.old ≡ []) × (self.new ≡ []))
            (λ route. self.old
            ≡ (record { key = route.0.now; tags = route.1 }) ∷ self.new) }
    {
        while let Some((key, row)) = self.entries.next() {
            if let Some(begin) = key.behind() {
                return Some((begin, RowTags::new(row, self.servers)));
            }
        }
        None
    }

    /// The list of the routes that are still to come. Fails only with `OutOfMemory`.
    pub(crate) fn list(self, alloc: Global) -> Result<Items<Route>, OutOfMemory>
        ensures { IfOk result (λ routes. routes ≡ self.entry) }
    {
        let mut left = self;
        let mut routes = Vec::new(alloc);
        while let Some((begin, tags)) = left.next() {
            routes.push(new_route(alloc, begin, tags.list(alloc)?)?)?;
        }
        Ok(Items::from(routes))
    }
}

fn new_route(alloc: Global, key: &[u8], tags: Items<Tag>) -> Result<Route, OutOfMemory>
    ensures { IfOk result (λ route. route ≡ record { key = key.now; tags = tags }) }
{
    Ok(Route {
        key: Bytes::from(Vec::from_slice(alloc, key)?),
        tags,
    })
}
