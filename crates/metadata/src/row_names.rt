//! What the value of a keyServers row names, servers or tags, with places in the table of
//! servers.

ghost use Rattle.std.specs.Prelude.{◌≡◌, IfOk, IsOk, Ok, Err};
ghost use Rattle.system_keys.specs.declared.refusal.RowFault.{RowFault};
ghost use Rattle.system_keys.specs.Locations.{location_at};
ghost use Rattle.metadata.specs.CachedTags.{names_by, names_of};

use crate::server_table::ServerTable;
use std::alloc::{AllocError, Global};
use std::marker::Model;
use system_keys::{Location, OutOfMemory, RowFault, ServerId, decode_location};

/// For so many servers of each of its two lists a row remembers a place in the table.
pub(crate) const PLACES: usize = 4;

/// What the value of a keyServers row names: servers, or tags that it lists. Contracts see both lists.
///
/// Beside the servers stand places in the table of the servers, where they are looked for first.
#[derive(Drop)]
pub(crate) struct RowNames {
    /// None if the value does not decode.
    pub(crate) location: Option<Location>,
    /// The places of the first sources, when the row was put.
    pub(crate) sources: [u32; PLACES],
    /// The places of the first destinations.
    pub(crate) destinations: [u32; PLACES],
}

impl Model for RowNames {
    ghost use Rattle.metadata.specs.CachedTags.{Names, names_in};

    ghost Value = { Names };

    ghost view = { λ n. names_in n.location };
}

impl RowNames {
    /// What a keyServers value names; one that does not decode names nothing (this project's profile).
    ///
    /// A value that does not decode does not allocate. Fails only with `OutOfMemory`.
    pub(crate) fn of(
        alloc: Global,
        servers: &ServerTable,
        value: &[u8],
    ) -> Result<RowNames, OutOfMemory>
        ensures names { IfOk result (λ names. names ≡ names_by value.now) }
        ensures no_allocation { (fault : RowFault) → location_at value.now ≡ Err fault → IsOk result }
    {
        match decode_location(alloc, value) {
            Ok(location) => Ok(RowNames::at(location, servers)),
            Err(RowFault::OutOfMemory) => Err(OutOfMemory),
            Err(_) => Ok(RowNames {
                location: None,
                sources: [0; PLACES],
                destinations: [0; PLACES],
            }),
        }
    }

    /// What the location names. Does not allocate.
    fn at(location: Location, servers: &ServerTable) -> RowNames
        ensures { result ≡ names_of (Ok location) }
    {
        let (sources, destinations) = match &location {
            Location::Servers(teams) => (
                places_of(servers, teams.sources()),
                places_of(servers, teams.destinations()),
            ),
            Location::Tags(_) => ([0; PLACES], [0; PLACES]),
        };
        RowNames {
            location: Some(location),
            sources,
            destinations,
        }
    }
}

impl Clone for RowNames {
    ghost is_clone = { λ names copy. copy ≡ names };

    fn clone(&self) -> Result<RowNames, AllocError> {
        Ok(RowNames {
            location: self.location.clone()?,
            sources: self.sources,
            destinations: self.destinations,
        })
    }
}

/// Where the first of the servers stand in the table. Does not allocate.
fn places_of(table: &ServerTable, servers: &[ServerId]) -> [u32; PLACES] {
    let mut places = [0; PLACES];
    for number in 0..PLACES {
        if let Some(server) = servers.get(number) {
            places[number] = table.place_of(server);
        }
    }
    places
}
