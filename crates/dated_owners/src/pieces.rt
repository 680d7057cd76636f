//! The pieces of the key space that have the same owners: cutting, giving to an owner, trimming,
//! merging and counting them. Keys before the first one have the first owner alone.

ghost use Rattle.std.specs.Prelude.{◌≡◌, suc, ◌++◌, ◌∷◌, [], true, false, IfOk, OnOk, OnErr};
ghost use Rattle.system_keys.specs.Keys.{Range, is_key_below};
ghost use Rattle.dated_owners.specs.LaterOwners.{needed, are_same_owners};
ghost use Rattle.dated_owners.specs.MergedOwners.{WalkAlike, IsMerged};
ghost use Rattle.dated_owners.specs.Starts.{value_from, IsStart, AreStarts, AreKept, AddsIn};
ghost use Rattle.dated_owners.specs.Starts.{put_all_owners, changed_in, with_values, joined};
ghost use Rattle.dated_owners.specs.Starts.{changes};

use crate::later_owners::{LaterOwner, LaterOwners, are_same_owners, needed_owners};
use model::Version;
use std::alloc::Global;
use std::collections::BTreeMap;
use std::ops::Bound;
use system_keys::{Bytes, KEY_SPACE_END, OutOfMemory};

/// From each key on, the owners after the first one.
pub(crate) type Pieces = BTreeMap<Bytes, LaterOwners>;

/// The owners of the key after the first one.
pub(crate) fn owners_at<'a>(pieces: &'a Pieces, key: &Bytes) -> &'a [LaterOwner]
    ensures { result.now ≡ value_from [] pieces.now.entries key.now }
{
    match pieces.range(..=key).next_back() {
        Some((_, owners)) => owners.as_slice(),
        None => &[],
    }
}

/// Cuts the piece that the key lies in, at the key. Fails only with `OutOfMemory`.
pub(crate) fn cut(alloc: Global, pieces: &mut Pieces, key: &Bytes) -> Result<(), OutOfMemory>
    ensures same { joined [] pieces.new.entries ≡ joined [] pieces.old.entries }
    ensures there { OnOk result (IsStart key.now pieces.new.entries) }
    ensures others { (k : _) → IsStart k pieces.old.entries → IsStart k pieces.new.entries }
    ensures kept { AreKept pieces.old.entries → AreKept pieces.new.entries }
{
    let copy = key.copy()?;
    let owners = LaterOwners::from_slice(alloc, owners_at(pieces, key))?;
    pieces.insert(copy, owners)?;
    Ok(())
}

/// Adds an owner to each key from `begin` up to `end`, and returns the number of pieces that got it.
/// Fails only with `OutOfMemory`: then the owners change at the same keys as before. `spare` gets room
/// for the longest list.
pub(crate) fn add_owner(
    pieces: &mut Pieces,
    spare: &mut LaterOwners,
    begin: &Bytes,
    end: &Bytes,
    owner: LaterOwner,
) -> Result<usize, OutOfMemory>
    requires below { is_key_below begin.now end.now ≡ true }
    requires kept { AreKept pieces.old.entries }
    ensures ok { let range : Range = record { begin = begin.now; end = end.now } in
        OnOk result (AddsIn range owner pieces.old.entries pieces.new.entries) }
    ensures err { OnErr result
        (joined [] pieces.new.entries ≡ joined [] pieces.old.entries) }
    ensures kept { AreKept pieces.new.entries }
{
    let alloc = spare.alloc();
    cut(alloc, pieces, end)?;
    cut(alloc, pieces, begin)?;
    let grown = copies_with_owner(pieces, spare, begin, end, owner)?;
    let count = grown.len();
    put_all_owners(pieces, grown);
    Ok(count)
}

/// The pieces from `begin` up to `end`, each with one owner more. Fails only with `OutOfMemory`.
/// `spare` gets room for the longest list.
fn copies_with_owner(
    pieces: &Pieces,
    spare: &mut LaterOwners,
    begin: &Bytes,
    end: &Bytes,
    owner: LaterOwner,
) -> Result<Vec<(Bytes, LaterOwners)>, OutOfMemory>
    requires { is_key_below begin.now end.now ≡ true }
    ensures { let range : Range = record { begin = begin.now; end = end.now } in
        IfOk result (λ grown.
        grown.items ≡ changed_in range (λ later. later ++ owner ∷ []) pieces.now.entries) }
{
    let alloc = spare.alloc();
    let mut grown = Vec::new(alloc);
    for (key, owners) in pieces.range((Bound::Included(begin), Bound::Excluded(end))) {
        let key = key.copy()?;
        let more = LaterOwners::with_newest(alloc, owners.as_slice(), owner)?;
        spare.clear_and_reserve(more.as_slice().len())?;
        grown.push((key, more))?;
    }
    Ok(grown)
}

/// Puts owners at keys at which pieces begin. Does not allocate.
fn put_all_owners(pieces: &mut Pieces, grown: Vec<(Bytes, LaterOwners)>)
    ensures { AreStarts grown.items pieces.old.entries
        → pieces.new.entries ≡ put_all_owners pieces.old.entries grown.items }
{
    for (key, owners) in grown {
        put(pieces, key, owners);
    }
}

/// Puts owners at a key at which a piece begins. Does not allocate.
fn put(pieces: &mut Pieces, key: Bytes, owners: LaterOwners)
    ensures { IsStart key pieces.old.entries
        → pieces.new.entries ≡ put_all_owners pieces.old.entries ((key, owners) ∷ []) }
{
    let _ = pieces.insert(key, owners);
}

/// Drops the owners that no walk needs, and joins neighbours with equal owners. Does not allocate.
///
/// `spare` holds the owners of the piece before; one that there is no room for is not joined.
pub(crate) fn sweep(pieces: &mut Pieces, spare: &mut LaterOwners, oldest: Version)
    ensures swept { joined [] pieces.new.entries
        ≡ joined [] (with_values (needed oldest) pieces.old.entries) }
    ensures kept { AreKept pieces.old.entries → AreKept pieces.new.entries }
{
    spare.clear();
    let mut is_noted = true;
    pieces.retain(
        |_, owners| -> bool
            ensures { (owners.new ≡ needed oldest owners.old)
                × (result ≡ false → (is_noted.entry ≡ true) × (owners.new ≡ spare.entry.now))
                × (is_noted.exit ≡ true → spare.exit.now ≡ owners.new) }
        { is_kept_once_trimmed(owners, spare, &mut is_noted, oldest) },
    );
}

/// Drops the owners of a piece that no walk needs, and tells whether those left differ from the
/// owners noted in `spare`; then notes them, if there is room. Does not allocate.
fn is_kept_once_trimmed(
    owners: &mut LaterOwners,
    spare: &mut LaterOwners,
    is_noted: &mut bool,
    oldest: Version,
) -> bool
    ensures needed { owners.new ≡ needed oldest owners.old }
    ensures joined { result ≡ false → (is_noted.old ≡ true) × (owners.new ≡ spare.old) }
    ensures noted { is_noted.new ≡ true → spare.new ≡ owners.new }
{
    owners.drop_needless(oldest);
    note_if_different(owners.as_slice(), spare, is_noted)
}

/// Merges the owners of each piece, and joins neighbours with equal owners. A piece for which there is
/// no memory stays as it is.
///
/// `spare` holds the owners of the piece before; one that there is no room for is not joined.
pub(crate) fn merge(pieces: &mut Pieces, spare: &mut LaterOwners)
    ensures walks { AreKept pieces.old.entries → (key : _)
        → WalkAlike (value_from [] pieces.old.entries key)
        (value_from [] pieces.new.entries key) }
    ensures kept { AreKept pieces.old.entries → AreKept pieces.new.entries }
{
    spare.clear();
    let mut is_noted = true;
    pieces.retain(
        |_, owners| -> bool
            ensures { IsMerged owners.old owners.new
                × (result ≡ false → (is_noted.entry ≡ true) × (owners.new ≡ spare.entry.now))
                × (is_noted.exit ≡ true → spare.exit.now ≡ owners.new) }
        { is_kept_once_merged(owners, spare, &mut is_noted) },
    );
}

/// Merges the owners of a piece, and tells whether those left differ from the owners noted in `spare`;
/// then notes them, if there is room.
fn is_kept_once_merged(
    owners: &mut LaterOwners,
    spare: &mut LaterOwners,
    is_noted: &mut bool,
) -> bool
    ensures merged { IsMerged owners.old owners.new }
    ensures joined { result ≡ false → (is_noted.old ≡ true) × (owners.new ≡ spare.old) }
    ensures noted { is_noted.new ≡ true → spare.new ≡ owners.new }
{
    owners.merge();
    note_if_different(owners.as_slice(), spare, is_noted)
}

/// Whether the owners differ from those noted in `spare`, or none are noted; then notes them, if there
/// is room. Does not allocate.
fn note_if_different(owners: &[LaterOwner], spare: &mut LaterOwners, is_noted: &mut bool) -> bool
    ensures joined { result ≡ false → (is_noted.old ≡ true) × (owners.now ≡ spare.old) }
    ensures noted { is_noted.new ≡ true → spare.new ≡ owners.now }
{
    if *is_noted && are_same_owners(owners, spare.as_slice()) {
        return false;
    }
    *is_noted = spare.copy_within_room(owners);
    true
}

/// How many owners all pieces have.
pub(crate) fn count_owners(pieces: &Pieces) -> usize {
    let mut count: usize = 0;
    for owners in pieces.values() {
        count = count.saturating_add(owners.as_slice().len());
    }
    count
}

/// How many greatest ranges of keys have one list of owners that a walk may need.
pub(crate) fn count_pieces(pieces: &Pieces, oldest: Version) -> usize
    ensures { result ≡ suc (changes oldest [] pieces.now.entries) }
{
    let _length = pieces.len();
    let mut count = 1;
    let mut last: &[LaterOwner] = &[];
    for (key, owners) in pieces {
        let left = needed_owners(owners.as_slice(), oldest);
        if !is_below(b"", key.as_slice()) {
            last = left;
        } else if is_below(key.as_slice(), KEY_SPACE_END) && !are_same_owners(left, last) {
            count += 1;
            last = left;
        }
    }
    count
}

/// Whether one key is below the other.
pub(crate) fn is_below(a: &[u8], b: &[u8]) -> bool
    ensures { result ≡ is_key_below a.now b.now }
{
    a.cmp(b).is_lt()
}
