//! The private copy of a Set of a serverKeys or serverTag row, for the server that it concerns.

ghost use Rattle.std.specs.Prelude.{◌≡◌, ◌∷◌, IfOk, IsOk, None};
ghost use Rattle.std.specs.Option.{option_to_list};
ghost use Rattle.system_keys.specs.declared.change.Change.TheVariants.{Set};
ghost use Rattle.system_keys.specs.declared.kind.RowKind.TheVariants as kinds;
ghost use Rattle.system_keys.specs.Families.{kind_of};
ghost use Rattle.model.specs.PrivateCopies.{concerned_tags, named_server, private_copy};

use crate::entry_view::EntryView;
use model::PrivateCopy;
use std::alloc::Global;
use system_keys::{
    Bytes, Change, OutOfMemory, RowKind, SERVER_ID_LENGTH, SERVER_KEYS_PREFIX, ServerId, Tag,
    classify, decode_tag,
};

/// The private copy of a change, as [`crate::Metadata::private_of`] says. Fails only with
/// `OutOfMemory`, and not if there is none.
#[tactic(auto, unfolding(model::specs::PrivateCopies::private_copy))]
pub fn find_private_copy(
    entries: &EntryView,
    change: &Change,
) -> Result<Option<PrivateCopy>, OutOfMemory>
    ensures value { IfOk result (λ found. found ≡ private_copy entries.now change.now) }
    ensures no_allocation { private_copy entries.now change.now ≡ None → IsOk result }
{
    match change {
        Change::Set { key, value } => copy_of_set(entries, key, value),
        Change::Clear { range: _ } => Ok(None),
    }
}

/// The private copy of a Set. Does not allocate if there is none.
fn copy_of_set(
    entries: &EntryView,
    key: &Bytes,
    value: &Bytes,
) -> Result<Option<PrivateCopy>, OutOfMemory>
    ensures value { IfOk result (λ found.
        found ≡ private_copy entries.now (Set key.now value.now)) }
    ensures no_allocation { private_copy entries.now (Set key.now value.now) ≡ None → IsOk result }
{
    match concerned_tag(entries, key.as_slice(), value.as_slice()) {
        Some(tag) => Ok(Some(copy_for(entries.alloc(), tag, key, value)?)),
        None => Ok(None),
    }
}

/// The tag of the server that a Set concerns, if there is one. Does not allocate.
fn concerned_tag(entries: &EntryView, key: &[u8], value: &[u8]) -> Option<Tag>
    ensures { option_to_list result
        ≡ concerned_tags entries.now (kind_of key.now) key.now value.now }
{
    match classify(key) {
        RowKind::ServerKeys => entries.server_tag(&named_server(key)),
        RowKind::ServerTag => decode_tag(value).ok(),
        _ => None,
    }
}

/// The server that the key of a serverKeys row names.
fn named_server(key: &[u8]) -> ServerId
    requires { kind_of key.now ≡ kinds.ServerKeys }
    ensures { result ≡ named_server key.now }
{
    let begin = SERVER_KEYS_PREFIX.len();
    let id = &key[begin..begin + SERVER_ID_LENGTH];
    let mut bytes = [0u8; 16];
    bytes.copy_from_slice(id);
    ServerId(bytes)
}

/// The copy of a Set for the server with the tag: one more `\xff` stands before its key. Fails only
/// with `OutOfMemory`.
fn copy_for(alloc: Global, tag: Tag, key: &Bytes, value: &Bytes) -> Result<PrivateCopy, OutOfMemory>
    ensures { IfOk result (λ copy.
        copy ≡ record { key = 255 ∷ key.now; value = value.now; tag = tag }) }
{
    let mut longer = Vec::from_slice(alloc, b"\xff")?;
    longer.extend_from_slice(key.as_slice())?;
    Ok(PrivateCopy {
        key: Bytes::from(longer),
        value: value.copy()?,
        tag,
    })
}
