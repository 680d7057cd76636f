//! Walks over the owners of a range, which find the resolvers that are asked about it.

ghost use Rattle.std.specs.Prelude.{◌≡◌, ℕ, [], ◌≤◌, true, nat_eq, filter};
ghost use Rattle.system_keys.specs.Keys.{Range, is_key_below};
ghost use Rattle.model.specs.Owners.{is_last, walk_visits};
ghost use Rattle.model.specs.Shares.{each_below};
ghost use Rattle.dated_owners.specs.LaterOwners.{with_first};
ghost use Rattle.dated_owners.specs.Starts.{some_start};
ghost use Rattle.dated_owners.specs.Walks.{takes, takes_later};
ghost use Rattle.dated_owners.specs.Flags.{Flags};

use crate::flags::ResolverFlags;
use crate::later_owners::LaterOwner;
use crate::pieces::{Pieces, is_below};
use crate::resolver_set::ResolverSet;
use model::{ResolverNumber, Version};
use system_keys::Bytes;

/// Which owners of a key are asked.
#[derive(Clone, Copy)]
pub(crate) enum Walk {
    /// The last owner.
    LastOwner,
    /// Each owner from the newest back to the first one that is dated below the bound.
    BackTo(Version),
}

/// The resolvers that are asked about some key from `begin` up to `end`. Does not allocate.
pub(crate) fn asked_resolvers(
    resolvers: usize,
    pieces: &Pieces,
    walk: Walk,
    begin: &[u8],
    end: &Bytes,
) -> ResolverSet
    requires few { resolvers ≤ 64 }
    requires rising { is_key_below begin.now end.now ≡ true }
    ensures { let range : Range = record { begin = begin.now; end = end.now } in
        let starts = pieces.now.entries in
        result ≡ filter (λ r. some_start [] starts (takes_later walk r) range)
        (each_below resolvers) }
{
    let mut flags = ResolverFlags::all(false);
    walk_range(pieces, walk, begin, end, &mut flags);
    ResolverSet::of_flags(resolvers, flags)
}

/// Flags the resolvers that are asked about some key from `begin` up to `end`: the owners are those
/// from each start inside on, and from the last start up to `begin`, which are those at `begin`.
fn walk_range(pieces: &Pieces, walk: Walk, begin: &[u8], end: &Bytes, flags: &mut ResolverFlags)
    requires { is_key_below begin.now end.now ≡ true }
    ensures { let range : Range = record { begin = begin.now; end = end.now } in
        let starts = pieces.now.entries in
        Flags flags.old (λ r. some_start [] starts (takes_later walk r) range) flags.new }
{
    let mut left = pieces.range(..end);
    while let Some((key, owners)) = left.next_back() {
        walk_owners(owners.as_slice(), walk, flags);
        if !is_below(begin, key.as_slice()) {
            return;
        }
    }
    walk_owners(&[], walk, flags);
}

/// Flags the resolvers that are asked about a key with these owners after the first one.
fn walk_owners(owners: &[LaterOwner], walk: Walk, flags: &mut ResolverFlags)
    ensures { Flags flags.old (λ r. takes walk r (with_first owners.now)) flags.new }
{
    match walk {
        Walk::LastOwner => flags.flag(last_owner(owners)),
        Walk::BackTo(bound) => walk_back_to(owners, bound, flags),
    }
}

/// The last owner.
fn last_owner(owners: &[LaterOwner]) -> ResolverNumber
    ensures { (r : ℕ) → is_last r (with_first owners.now) ≡ nat_eq result r }
{
    match owners {
        [.., owner] => owner.resolver,
        [] => 0,
    }
}

/// Flags the resolvers that the walk visits, back to the bound.
fn walk_back_to(owners: &[LaterOwner], bound: Version, flags: &mut ResolverFlags)
    ensures { Flags flags.old (λ r. walk_visits bound r (with_first owners.now)) flags.new }
{
    for i in (0..owners.len()).rev() {
        let owner = &owners[i];
        flags.flag(owner.resolver);
        if owner.date < bound {
            return;
        }
    }
    flags.flag(0);
}
