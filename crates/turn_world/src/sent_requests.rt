//! The requests for a record, as its proxy sent them, and the request of the same numbers alone
//! that stands for a dropped one.

ghost use Rattle.std.specs.Prelude.{◌≡◌, List};
ghost use base.Fml.{ftrue};
ghost use Rattle.model.specs.Requests.{Request as TheRequest};
ghost use Rattle.turn_world.specs.KeptRequests.{bare_request};

use request_builder::{Request, RequestHeader, Share};
use std::alloc::Global;
use std::marker::Model;
use system_keys::Items;

/// Requests, one to each resolver.
#[derive(Drop)]
pub(crate) struct SentRequests {
    pub(crate) requests: Vec<Request>,
}

/// The request of these numbers alone: it has no parts and no marks. Does not allocate.
pub(crate) fn bare_request(alloc: Global, header: RequestHeader) -> Request
    ensures { result ≡ bare_request header }
{
    let share = Share::new(Items::from(Vec::new(alloc)));
    let Some(bare) = Request::new(header, share, Items::from(Vec::new(alloc))) else {
        unreachable!();
    };
    bare
}

/// Requests of which contracts know, and of which nothing is kept. They take no memory.
#[derive(Drop)]
pub(crate) struct PastRequests {
    ghost known: { List TheRequest },
}

impl Model for PastRequests {
    ghost also_owns = { λ _. ftrue };
}

impl PastRequests {
    /// The requests, for contracts alone.
    pub(crate) fn of(_sent: &SentRequests) -> PastRequests
        ensures { result.known ≡ _sent.now.requests.items }
    {
        PastRequests {}
    }
}
