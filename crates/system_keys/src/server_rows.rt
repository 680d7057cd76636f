//! The values of keyServers rows that name servers, and those of serverTag rows, as bytes.
//!
//! A keyServers value that names servers is a count byte, that many source ids of 16 bytes, a count
//! byte, that many destination ids, and nothing after. A serverTag value is a locality byte and two
//! bytes of the id, the high one first (this project's profile). Each value has one encoding.

ghost use Rattle.std.specs.Prelude.{◌≡◌, ◌≤◌, ◌*◌, ◌++◌, length};
ghost use Rattle.std.specs.Prelude.{IfOk, OnOk, MatchResult, IsOk, Ok, Err, None, true};
ghost use Rattle.system_keys.specs.AsSpecified.{IsAsSpecified};
ghost use Rattle.system_keys.specs.Families.{server_id_length};
ghost use Rattle.system_keys.specs.Refusals.{row_fault};
ghost use Rattle.system_keys.specs.Rows.{key_servers_value, tag_value, servers_at, tag_at};
ghost use Rattle.system_keys.specs.Rows.{counted_ids, counted_ids_at, ids_at, ids_in, ids_listed};
ghost use Rattle.system_keys.specs.Rows.{are_ids, servers_limit};

use crate::kind::SERVER_ID_LENGTH;
use crate::memory::OutOfMemory;
use crate::order::is_id_above;
use crate::refusal::RowFault;
use crate::server::ServerId;
use crate::tag::Tag;
use crate::teams::Teams;
use std::alloc::Global;

/// Encodes the teams as the value of a keyServers row. Fails only with `OutOfMemory`.
pub fn encode_key_servers(alloc: Global, teams: &Teams) -> Result<Vec<u8>, OutOfMemory>
    ensures value { IfOk result (λ bytes. bytes.items ≡ key_servers_value teams.now) }
    ensures round_trip { IfOk result (λ bytes. servers_at bytes.items ≡ Ok teams.now) }
{
    let ids = teams.sources().len() + teams.destinations().len();
    let mut bytes = Vec::with_capacity(alloc, 2 + SERVER_ID_LENGTH * ids)?;
    push_counted_ids(&mut bytes, teams.sources())?;
    push_counted_ids(&mut bytes, teams.destinations())?;
    Ok(bytes)
}

/// Decodes a keyServers value that names servers.
///
/// Returns the first error from the front: `Truncated` (bytes are missing), `NotRising` (ids that
/// are not strictly increasing), `Trailing` (bytes after the end). Fails with `OutOfMemory` only
/// for a value without such an error.
pub fn decode_key_servers(alloc: Global, bytes: &[u8]) -> Result<Teams, RowFault>
    ensures value { IsAsSpecified row_fault (λ teams. teams) result (servers_at bytes.now) }
    ensures spelled { IfOk result (λ teams. key_servers_value teams ≡ bytes.now) }
{
    check_key_servers(bytes)?;
    Ok(to_teams(alloc, bytes)?)
}

/// Encodes the tag as the value of a serverTag row. Fails only with `OutOfMemory`.
pub fn encode_tag(alloc: Global, tag: &Tag) -> Result<Vec<u8>, OutOfMemory>
    ensures value { IfOk result (λ bytes. bytes.items ≡ tag_value tag.now) }
    ensures round_trip { IfOk result (λ bytes. tag_at bytes.items ≡ Ok tag.now) }
{
    Ok(Vec::from_slice(alloc, &tag.to_bytes())?)
}

/// Decodes a serverTag value. Does not allocate.
///
/// Fails with `Truncated` for fewer than three bytes, and with `Trailing` for more.
pub fn decode_tag(bytes: &[u8]) -> Result<Tag, RowFault>
    ensures value { result ≡ tag_at bytes.now }
    ensures spelled { IfOk result (λ tag. tag_value tag ≡ bytes.now) }
{
    match bytes {
        [locality, high, low] => Ok(Tag::from_bytes(*locality, *high, *low)),
        [_, _, _, _, ..] => Err(RowFault::Trailing),
        _ => Err(RowFault::Truncated),
    }
}

/// Returns the first fault of a keyServers value that names servers. Does not allocate.
pub(crate) fn check_key_servers(bytes: &[u8]) -> Result<(), RowFault>
    ensures { MatchResult result (λ _. IsOk (servers_at bytes.now))
        (λ fault. servers_at bytes.now ≡ Err fault) }
{
    let rest = after_counted_ids(bytes)?;
    let rest = after_counted_ids(rest)?;
    if rest.is_empty() {
        Ok(())
    } else {
        Err(RowFault::Trailing)
    }
}

/// The bytes after a count byte and its ids.
fn after_counted_ids(bytes: &[u8]) -> Result<&[u8], RowFault>
    ensures { MatchResult result
        (λ rest. counted_ids_at bytes.now ≡ Ok (ids_listed bytes.now, rest.now))
        (λ fault. counted_ids_at bytes.now ≡ Err fault) }
{
    match bytes {
        [count, rest @ ..] => after_ids(*count, rest),
        [] => Err(RowFault::Truncated),
    }
}

/// The bytes after `count` strictly increasing ids.
fn after_ids(count: u8, bytes: &[u8]) -> Result<&[u8], RowFault>
    ensures { MatchResult result
        (λ rest. ids_at count None bytes.now ≡ Ok (ids_in count bytes.now, rest.now))
        (λ fault. ids_at count None bytes.now ≡ Err fault) }
{
    let mut before: Option<&[u8]> = None;
    let mut rest = bytes;
    for _ in 0..count {
        if rest.len() < SERVER_ID_LENGTH {
            return Err(RowFault::Truncated);
        }
        let (id, behind) = rest.split_at(SERVER_ID_LENGTH);
        if !is_id_above(before, id) {
            return Err(RowFault::NotRising);
        }
        before = Some(id);
        rest = behind;
    }
    Ok(rest)
}

/// The teams of a value without a fault.
fn to_teams(alloc: Global, bytes: &[u8]) -> Result<Teams, OutOfMemory>
    requires { IsOk (servers_at bytes.now) }
    ensures value { IfOk result (λ teams. servers_at bytes.now ≡ Ok teams) }
    ensures spelled { IfOk result (λ teams. key_servers_value teams ≡ bytes.now) }
{
    let (sources, rest) = read_counted_ids(alloc, bytes)?;
    let (destinations, _end) = read_counted_ids(alloc, rest)?;
    Ok(Teams::from_valid(sources, destinations))
}

/// The ids after a count byte, and the bytes after them.
fn read_counted_ids(alloc: Global, bytes: &[u8]) -> Result<(Vec<ServerId>, &[u8]), OutOfMemory>
    requires { IsOk (counted_ids_at bytes.now) }
    ensures { IfOk result (λ read. counted_ids_at bytes.now ≡ Ok (read.0.items, read.1.now)) }
{
    match bytes {
        [count, rest @ ..] => {
            let (_ids, behind) = rest.split_at(SERVER_ID_LENGTH * usize::from(*count));
            Ok((read_ids(alloc, *count, rest)?, behind))
        }
        [] => unreachable!(),
    }
}

/// The first `count` ids of these bytes.
fn read_ids(alloc: Global, count: u8, bytes: &[u8]) -> Result<Vec<ServerId>, OutOfMemory>
    requires { server_id_length * count ≤ length bytes.now }
    ensures { IfOk result (λ ids. ids.items ≡ ids_in count bytes.now) }
{
    let mut ids = Vec::with_capacity(alloc, usize::from(count))?;
    let mut rest = bytes;
    for _ in 0..count {
        let (id, behind) = rest.split_at(SERVER_ID_LENGTH);
        ids.push(to_server_id(id))?;
        rest = behind;
    }
    Ok(ids)
}

fn to_server_id(bytes: &[u8]) -> ServerId
    requires { length bytes.now ≡ server_id_length }
    ensures { result ≡ bytes.now }
{
    let mut id = [0u8; 16];
    id.copy_from_slice(bytes);
    ServerId(id)
}

/// Appends a count byte and the ids.
fn push_counted_ids(bytes: &mut Vec<u8>, ids: &[ServerId]) -> Result<(), OutOfMemory>
    requires { length ids.now ≤ servers_limit }
    ensures value { OnOk result (bytes.new.items ≡ bytes.old.items ++ counted_ids ids.now) }
    ensures wide { OnOk result (are_ids ids.now ≡ true) }
{
    bytes.push(ids.len() as u8)?;
    for id in ids {
        bytes.extend_from_slice(id.as_slice())?;
    }
    Ok(())
}
