//! Memory for the ends that the naming of inboxes returns, allocated before it.

ghost use Rattle.std.specs.Prelude.{◌≡◌, length, IfOk};

use crate::channels::Channels;
use crate::inbox_end::FreshEnd;
use crate::proxy_senders::ProxySenders;
use crate::question::Question;
use crate::sender_end::SenderEnd;
use agreed_ledger::{Ledger, Naming};
use std::alloc::{AllocError, Global};
use std::marker::Model;
use system_keys::OutOfMemory;

/// Room for the sending ends of one proxy.
#[derive(Drop)]
pub(crate) struct SenderRoom<N: Naming, C: Question, M: Channels> {
    pub(crate) ends: Vec<SenderEnd<N, C, M>>,
}

impl<N: Naming, C: Question, M: Channels> Model for SenderRoom<N, C, M> {
    ghost use Rattle.std.specs.Prelude.{◌≡◌, ◌≤◌, [], ⊤};
    ghost use Rattle.std.specs.Vec.{vec_capacity};

    ghost Value = { ⊤ };

    ghost view = { λ _. tt };

    ghost invariant = { λ r. (r.ends.items ≡ [])
        × (N.cells.config.resolvers ≤ vec_capacity r.ends) };
}

/// Room for what [`named`](crate::BlankInboxes::named) returns: made before it, so that it
/// allocates nothing.
#[derive(Drop)]
pub struct InboxRoom<N: Naming, C: Question, M: Channels> {
    pub(crate) rooms: Vec<SenderRoom<N, C, M>>,
    pub(crate) sides: Vec<ProxySenders<N, C, M>>,
    pub(crate) fresh: Vec<FreshEnd<N, C, M>>,
}

impl<N: Naming, C: Question, M: Channels> Model for InboxRoom<N, C, M> {
    ghost use Rattle.std.specs.Prelude.{◌≡◌, ◌≤◌, [], length, ⊤};
    ghost use Rattle.std.specs.Vec.{vec_capacity};

    ghost Value = { ⊤ };

    ghost view = { λ _. tt };

    ghost invariant = { λ r. (length r.rooms.items ≡ N.cells.config.proxies)
        × (r.sides.items ≡ []) × (N.cells.config.proxies ≤ vec_capacity r.sides)
        × (r.fresh.items ≡ []) × (N.cells.config.resolvers ≤ vec_capacity r.fresh) };
}

impl<N: Naming, C: Question, M: Channels> InboxRoom<N, C, M> {
    /// Makes room for the inboxes of the ledger's cluster. Fails only with `OutOfMemory`.
    pub fn new(alloc: Global, ledger: &Ledger<N>) -> Result<InboxRoom<N, C, M>, OutOfMemory> {
        let proxies = ledger.config().proxies();
        let resolvers = ledger.config().resolvers();
        Ok(InboxRoom {
            rooms: sender_rooms(alloc, proxies, resolvers)?,
            sides: Vec::with_capacity(alloc, proxies)?,
            fresh: Vec::with_capacity(alloc, resolvers)?,
        })
    }
}

/// For each proxy room for the ends to all resolvers.
fn sender_rooms<N: Naming, C: Question, M: Channels>(
    alloc: Global,
    proxies: usize,
    resolvers: usize,
) -> Result<Vec<SenderRoom<N, C, M>>, AllocError>
    requires { resolvers ≡ N.cells.config.resolvers }
    ensures { IfOk result (λ rooms. length rooms.items ≡ proxies) }
{
    let mut rooms = Vec::with_capacity(alloc, proxies)?;
    for proxy in 0..proxies {
        rooms.push(SenderRoom {
            ends: Vec::with_capacity(alloc, resolvers)?,
        })?;
    }
    Ok(rooms)
}
