//! The inboxes of a run before they are named, and their naming.

ghost use Rattle.std.specs.Prelude.{◌≡◌, ◌+◌, ◌<◌, ◌≤◌, [], length, IfOk, OnOk};
ghost use Rattle.std.specs.Vec.{vec_capacity};
ghost use Rattle.inboxes.specs.Blanks.{AreBlankSenders, AreSides, IsFreshSide};
ghost use Rattle.inboxes.specs.Ends.{IsEach};

use crate::blank::{BlankEnd, BlankInbox, BlankSenders};
use crate::channels::Channels;
use crate::inbox_end::FreshEnd;
use crate::inbox_room::{InboxRoom, SenderRoom};
use crate::proxy_senders::ProxySenders;
use crate::question::Question;
use agreed_ledger::{Ledger, Naming};
use std::alloc::{AllocError, Global};
use std::marker::Model;
use system_keys::OutOfMemory;

/// The inboxes of a run, one for each resolver, whose channels have no names yet. Contracts see the
/// channels, by the numbers of their resolvers.
#[derive(Drop)]
pub struct BlankInboxes<N: Naming, C: Question> {
    rows: Vec<BlankSenders<C>>,
    ends: Vec<BlankEnd<N, C>>,
}

impl<N: Naming, C: Question> Model for BlankInboxes<N, C> {
    ghost use Rattle.std.specs.Prelude.{◌≡◌, List, length};
    ghost use Rattle.inboxes.specs.Blanks.{AreBlankSenders};
    ghost use Rattle.inboxes.specs.Places.{Place};

    ghost Value = { List Place };

    ghost view = { λ b. b.ends.items };

    ghost invariant = { λ b. (length b.ends.items ≡ N.cells.config.resolvers)
        × AreBlankSenders N.cells.config.proxies b.ends.items b.rows.items };
}

impl<N: Naming, C: Question> BlankInboxes<N, C> {
    /// Makes an inbox for each resolver of the ledger's cluster, each for up to 64 messages, with a
    /// sending end for each proxy. Fails only with `OutOfMemory`.
    pub fn new(alloc: Global, ledger: &Ledger<N>) -> Result<BlankInboxes<N, C>, OutOfMemory> {
        let proxies = ledger.config().proxies();
        let resolvers = ledger.config().resolvers();
        let mut rows = new_blank_senders(alloc, proxies, resolvers)?;
        let mut ends = Vec::with_capacity(alloc, resolvers)?;
        for _ in 0..resolvers {
            add_inbox(alloc, &mut rows, &mut ends)?;
        }
        Ok(BlankInboxes { rows, ends })
    }

    /// Names the channels. Called in a function that is generic in `M`, which stands for them.
    /// Returns for each proxy its sending ends, through which nothing was sent, and for each resolver
    /// the worker's end, in order. It allocates nothing, since the room was made before.
    pub fn named<M: Channels>(
        self,
        room: InboxRoom<N, C, M>,
    ) -> (Vec<ProxySenders<N, C, M>>, Vec<FreshEnd<N, C, M>>)
        requires { self ≡ M.places }
        ensures senders { AreSides N.cells.config.proxies N.cells.config.resolvers result.0.items }
        ensures ends { IsEach (λ resolver. resolver) N.cells.config.resolvers result.1.items }
    {
        let BlankInboxes { rows, ends } = self;
        let InboxRoom {
            rooms,
            sides,
            fresh,
        } = room;
        (name_senders(rows, rooms, sides), name_ends(ends, fresh))
    }
}

/// For each proxy no sending ends yet.
fn new_blank_senders<C: Question>(
    alloc: Global,
    proxies: usize,
    resolvers: usize,
) -> Result<Vec<BlankSenders<C>>, AllocError>
    ensures { IfOk result (λ rows. AreBlankSenders proxies [] rows.items) }
{
    let mut rows = Vec::with_capacity(alloc, proxies)?;
    for proxy in 0..proxies {
        rows.push(BlankSenders::new(alloc, proxy, resolvers)?)?;
    }
    Ok(rows)
}

/// Adds an inbox, with a sending end for each proxy.
fn add_inbox<N: Naming, C: Question>(
    alloc: Global,
    rows: &mut Vec<BlankSenders<C>>,
    ends: &mut Vec<BlankEnd<N, C>>,
) -> Result<(), AllocError>
    requires { AreBlankSenders N.cells.config.proxies ends.old.items rows.old.items }
    ensures rows { OnOk result (AreBlankSenders N.cells.config.proxies ends.new.items rows.new.items) }
    ensures ends { OnOk result (length ends.new.items ≡ length ends.old.items + 1) }
{
    let mut inbox = BlankInbox::new(alloc)?;
    for proxy in 0..rows.len() {
        let sender = inbox.add_sender(proxy)?;
        rows[proxy].push(sender)?;
    }
    let counts = Vec::from_elem(alloc, 0, rows.len())?;
    ends.push(inbox.into_end(counts))?;
    Ok(())
}

/// Names the ends of all proxies.
fn name_senders<N: Naming, C: Question, M: Channels>(
    rows: Vec<BlankSenders<C>>,
    mut rooms: Vec<SenderRoom<N, C, M>>,
    mut sides: Vec<ProxySenders<N, C, M>>,
) -> Vec<ProxySenders<N, C, M>>
    requires rows { AreBlankSenders N.cells.config.proxies M.places rows.items }
    requires all { length M.places ≡ N.cells.config.resolvers }
    requires rooms { length rooms.items ≡ N.cells.config.proxies }
    requires empty { sides.items ≡ [] }
    requires room { N.cells.config.proxies ≤ vec_capacity sides }
    ensures { AreSides N.cells.config.proxies N.cells.config.resolvers result.items }
{
    for row in rows {
        let Some(room) = rooms.pop() else {
            unreachable!();
        };
        sides.push_reserved(name_senders_of_proxy(row, room));
    }
    sides
}

/// Names the ends of one proxy.
fn name_senders_of_proxy<N: Naming, C: Question, M: Channels>(
    row: BlankSenders<C>,
    room: SenderRoom<N, C, M>,
) -> ProxySenders<N, C, M>
    requires places { row.places ≡ M.places }
    requires all { length M.places ≡ N.cells.config.resolvers }
    requires proxy { row.proxy < N.cells.config.proxies }
    ensures { IsFreshSide row.proxy N.cells.config.resolvers result }
{
    let (proxy, senders) = row.into_parts();
    let mut ends = room.ends;
    for sender in senders {
        let resolver = ends.len();
        ends.push_reserved(sender.named(resolver));
    }
    ProxySenders::new(proxy, ends)
}

/// Names the receiving ends.
fn name_ends<N: Naming, C: Question, M: Channels>(
    blank: Vec<BlankEnd<N, C>>,
    mut ends: Vec<FreshEnd<N, C, M>>,
) -> Vec<FreshEnd<N, C, M>>
    requires places { blank.items ≡ M.places }
    requires empty { ends.items ≡ [] }
    requires room { length M.places ≤ vec_capacity ends }
    ensures { IsEach (λ resolver. resolver) (length M.places) result.items }
{
    for end in blank {
        let resolver = ends.len();
        ends.push_reserved(end.named(resolver));
    }
    ends
}
