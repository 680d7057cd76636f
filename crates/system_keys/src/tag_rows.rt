//! Lists of tags as bytes, in the value of a keyServers row.
//!
//! A value that lists tags is two zero bytes, a count byte, that many source tags of 3 bytes, a count
//! byte, that many destination tags, and nothing after. A tag is a locality byte and two bytes of
//! the id, the high one first (this project's profile).

ghost use Rattle.std.specs.Prelude.{◌≡◌, ◌≤◌, ◌++◌, length, IfOk, OnOk, IsOk, MatchResult, Ok, Err};
ghost use Rattle.system_keys.specs.declared.location.Location.TheVariants.{Tags};
ghost use Rattle.system_keys.specs.AsSpecified.{IsAsSpecified};
ghost use Rattle.system_keys.specs.Locations.{location_at};
ghost use Rattle.system_keys.specs.Refusals.{row_fault};
ghost use Rattle.system_keys.specs.ListedTags.{listed_tags_value, counted_tags, tags_limit};
ghost use Rattle.system_keys.specs.ListedTags.{listed_tags_at, counted_tags_at, first_tags_at};
ghost use Rattle.system_keys.specs.ListedTags.{whole_tags_counted, read_whole_tags};

use crate::memory::OutOfMemory;
use crate::refusal::RowFault;
use crate::tag::Tag;
use crate::tag_teams::{TagTeams, is_tag_above};
use std::alloc::Global;

/// How many bytes a tag has (this project's profile).
const TAG_LENGTH: usize = 3;

/// Encodes the tags as the value of a keyServers row. Fails only with `OutOfMemory`.
pub fn encode_tag_teams(alloc: Global, teams: &TagTeams) -> Result<Vec<u8>, OutOfMemory>
    ensures value { IfOk result (λ bytes. bytes.items ≡ listed_tags_value teams.now) }
    ensures round_trip { IfOk result (λ bytes. location_at bytes.items ≡ Ok (Tags teams.now)) }
{
    let tags = teams.sources().len() + teams.destinations().len();
    let mut bytes = Vec::with_capacity(alloc, 4 + TAG_LENGTH * tags)?;
    bytes.extend_from_slice(&[0, 0])?;
    push_counted_tags(&mut bytes, teams.sources())?;
    push_counted_tags(&mut bytes, teams.destinations())?;
    Ok(bytes)
}

/// Appends a count byte and the tags.
fn push_counted_tags(bytes: &mut Vec<u8>, tags: &[Tag]) -> Result<(), OutOfMemory>
    requires { length tags.now ≤ tags_limit }
    ensures { OnOk result (bytes.new.items ≡ bytes.old.items ++ counted_tags tags.now) }
{
    bytes.push(tags.len() as u8)?;
    for tag in tags {
        bytes.extend_from_slice(&tag.to_bytes())?;
    }
    Ok(())
}

/// Decodes the two lists of tags that stand behind the two zero bytes.
///
/// Returns the first error from the front. Fails with `OutOfMemory` only for lists without such an
/// error.
pub(crate) fn decode_tag_lists(alloc: Global, bytes: &[u8]) -> Result<TagTeams, RowFault>
    ensures { IsAsSpecified row_fault (λ tags. tags) result (listed_tags_at bytes.now) }
{
    let rest = second_tag_list(bytes)?;
    let sources = read_counted_tags(alloc, bytes)?;
    let destinations = read_counted_tags(alloc, rest)?;
    Ok(TagTeams::from_valid(sources, destinations))
}

/// Where the second of two lists of tags begins, or their first fault. Does not allocate.
pub(crate) fn second_tag_list(bytes: &[u8]) -> Result<&[u8], RowFault>
    ensures { MatchResult result
        (λ rest. listed_tags_at bytes.now ≡ Ok (record {
          sources = whole_tags_counted bytes.now;
          destinations = whole_tags_counted rest.now;
        }))
        (λ fault. listed_tags_at bytes.now ≡ Err fault) }
{
    let rest = after_counted_tags(bytes)?;
    let end = after_counted_tags(rest)?;
    if end.is_empty() {
        Ok(rest)
    } else {
        Err(RowFault::Trailing)
    }
}

/// The bytes after a count byte and its tags.
fn after_counted_tags(bytes: &[u8]) -> Result<&[u8], RowFault>
    ensures { MatchResult result
        (λ rest. counted_tags_at bytes.now ≡ Ok (whole_tags_counted bytes.now, rest.now))
        (λ fault. counted_tags_at bytes.now ≡ Err fault) }
{
    match bytes {
        [count, rest @ ..] => after_tags(*count, rest),
        [] => Err(RowFault::Truncated),
    }
}

/// The bytes after `count` strictly increasing tags.
fn after_tags(count: u8, bytes: &[u8]) -> Result<&[u8], RowFault>
    ensures { MatchResult result
        (λ rest. first_tags_at count bytes.now ≡ Ok (read_whole_tags count bytes.now, rest.now))
        (λ fault. first_tags_at count bytes.now ≡ Err fault) }
{
    let mut before: Option<Tag> = None;
    let mut rest = bytes;
    for _ in 0..count {
        let [locality, high, low, behind @ ..] = rest else {
            return Err(RowFault::Truncated);
        };
        let tag = Tag::from_bytes(*locality, *high, *low);
        if !is_tag_above(before, tag) {
            return Err(RowFault::NotRising);
        }
        before = Some(tag);
        rest = behind;
    }
    Ok(rest)
}

/// As many tags as the count byte says, of those that stand behind it whole.
fn read_counted_tags(alloc: Global, bytes: &[u8]) -> Result<Vec<Tag>, OutOfMemory>
    ensures { IfOk result (λ tags. tags.items ≡ whole_tags_counted bytes.now) }
{
    match bytes {
        [count, rest @ ..] => read_whole_tags(alloc, *count, rest),
        [] => Ok(Vec::new(alloc)),
    }
}

/// The tags that stand whole at the front, the first `count` at most.
fn read_whole_tags(alloc: Global, count: u8, bytes: &[u8]) -> Result<Vec<Tag>, OutOfMemory>
    ensures { IfOk result (λ tags. tags.items ≡ read_whole_tags count bytes.now) }
{
    let mut tags = Vec::with_capacity(alloc, usize::from(count))?;
    let mut rest = bytes;
    for _ in 0..count {
        let [locality, high, low, behind @ ..] = rest else {
            return Ok(tags);
        };
        tags.push(Tag::from_bytes(*locality, *high, *low))?;
        rest = behind;
    }
    Ok(tags)
}
