//! The lists of source and destination servers of a range of keys.

ghost use Rattle.std.specs.Prelude.{◌≡◌, IfOk, MatchResult, Some, None};
ghost use Rattle.std.specs.Prelude.{length, nat_lt};

use crate::items::Items;
use crate::memory::OutOfMemory;
use crate::order::is_id_above;
use crate::server::ServerId;
use std::marker::Model;
use thiserror::Error;

/// The greatest number of servers in one list of a team (this project's profile).
pub const SERVERS_LIMIT: usize = 255;

/// Why two lists of servers are not teams (this project's profile).
#[derive(Clone, Copy, Debug, PartialEq, Eq, Error)]
pub enum TeamsFault {
    /// A list has more than 255 servers.
    #[error("a list has more than 255 servers")]
    TooManyServers,
    /// The ids of a list are not strictly increasing.
    #[error("server ids do not rise")]
    NotRising,
}

/// The storage servers of a range of keys: the sources, which have it, and the destinations, which
/// it moves to (release 7.1). Both lists are strictly increasing and have at most 255 servers.
#[derive(Clone, Debug, Drop)]
pub struct Teams {
    sources: Items<ServerId>,
    destinations: Items<ServerId>,
}

impl Model for Teams {
    ghost use Rattle.std.specs.Prelude.{◌≡◌, None};
    ghost use Rattle.system_keys.specs.Rows.{Servers, servers_fault};

    ghost Value = { Servers };

    ghost view = { λ t. record { sources = t.sources; destinations = t.destinations } };

    ghost invariant = { λ t.
        servers_fault (record { sources = t.sources; destinations = t.destinations }) ≡ None };
}

impl Teams {
    ghost use Rattle.system_keys.specs.Rows.{Servers, servers_fault};

    /// Returns the teams of these servers, or the first fault, of the sources before the
    /// destinations, and both lists, unchanged. Does not allocate.
    pub fn new(
        sources: Vec<ServerId>,
        destinations: Vec<ServerId>,
    ) -> Result<Teams, (TeamsFault, Vec<ServerId>, Vec<ServerId>)>
        ensures { let servers : Servers =
            record { sources = sources.items; destinations = destinations.items } in
            MatchResult result (λ teams. (servers_fault servers ≡ None) × (teams ≡ servers))
            (λ refused. (servers_fault servers ≡ Some refused.0)
            × (refused.1 ≡ sources) × (refused.2 ≡ destinations)) }
    {
        let fault = id_list_fault(&sources).or(id_list_fault(&destinations));
        match fault {
            Some(fault) => Err((fault, sources, destinations)),
            None => Ok(Teams {
                sources: Items::from(sources),
                destinations: Items::from(destinations),
            }),
        }
    }

    /// Returns the teams of lists without a fault. Does not allocate.
    pub(crate) fn from_valid(sources: Vec<ServerId>, destinations: Vec<ServerId>) -> Teams
        requires { let servers : Servers =
            record { sources = sources.items; destinations = destinations.items } in
            servers_fault servers ≡ None }
        ensures { result ≡ record { sources = sources.items; destinations = destinations.items } }
    {
        Teams {
            sources: Items::from(sources),
            destinations: Items::from(destinations),
        }
    }

    /// The servers that have the range, in increasing order.
    pub fn sources(&self) -> &[ServerId]
        ensures value { result.now ≡ self.now.sources }
        ensures kept { servers_fault self.now ≡ None }
    {
        self.sources.as_slice()
    }

    /// The servers that the range moves to, in increasing order.
    pub fn destinations(&self) -> &[ServerId]
        ensures value { result.now ≡ self.now.destinations }
        ensures kept { servers_fault self.now ≡ None }
    {
        self.destinations.as_slice()
    }

    /// Returns a deep copy. Fails only with `OutOfMemory`.
    pub fn copy(&self) -> Result<Teams, OutOfMemory>
        ensures { IfOk result (λ copy. copy ≡ self.now) }
    {
        Ok(self.clone()?)
    }
}

ghost use Rattle.system_keys.specs.Rows.{id_list_fault, are_ids_rising};

/// The first fault of the ids as one list of a team: too many, or not rising.
fn id_list_fault(ids: &[ServerId]) -> Option<TeamsFault>
    ensures { result ≡ id_list_fault ids.now }
{
    if ids.len() > SERVERS_LIMIT {
        Some(TeamsFault::TooManyServers)
    } else if are_ids_rising(ids) {
        None
    } else {
        Some(TeamsFault::NotRising)
    }
}

/// Whether the ids rise strictly.
fn are_ids_rising(ids: &[ServerId]) -> bool
    ensures { result ≡ are_ids_rising None ids.now }
{
    let mut before: Option<&[u8]> = None;
    for id in ids {
        if !is_id_above(before, id.as_slice()) {
            return false;
        }
        before = Some(id.as_slice());
    }
    true
}
