//! Where a range of keys is stored: the value of a keyServers row, in its two forms.
//!
//! A value names storage servers, or it lists tags: two zero bytes, and something behind. Two zero
//! bytes alone are two empty lists of servers. So each value is of one form, and each form has one
//! encoding (this project's profile).

ghost use Rattle.std.specs.Prelude.{◌≡◌, IfOk, IsOk, MatchResult, Ok, Err, option_map};
ghost use Rattle.system_keys.specs.AsSpecified.{IsAsSpecified};
ghost use Rattle.system_keys.specs.Locations.{location_at, location_value, after_two_zeros};
ghost use Rattle.system_keys.specs.Locations.{is_row_value};
ghost use Rattle.system_keys.specs.Refusals.{row_fault};

use crate::kind::RowKind;
use crate::memory::OutOfMemory;
use crate::refusal::RowFault;
use crate::server_rows::{check_key_servers, decode_key_servers, decode_tag};
use crate::tag_rows::{decode_tag_lists, second_tag_list};
use crate::tag_teams::TagTeams;
use crate::teams::Teams;
use std::alloc::Global;

/// Where a range of keys is stored, as the value of a keyServers row gives it (this project's
/// profile).
#[derive(Clone, Debug, Drop)]
pub enum Location {
    /// On these storage servers, whose serverTag rows give their tags.
    Servers(Teams),
    /// Under these tags, whatever serverTag rows there are.
    Tags(TagTeams),
}

impl Location {
    /// Returns a deep copy. Fails only with `OutOfMemory`.
    pub fn copy(&self) -> Result<Location, OutOfMemory>
        ensures { IfOk result (λ copy. copy ≡ self.now) }
    {
        Ok(self.clone()?)
    }
}

/// Decodes a keyServers value of either form.
///
/// Returns the first error from the front: `Truncated` (bytes are missing), `NotRising` (ids or tags
/// that are not strictly increasing), `Trailing` (bytes after the end). Fails with `OutOfMemory`
/// only for a value without such an error.
pub fn decode_location(alloc: Global, bytes: &[u8]) -> Result<Location, RowFault>
    ensures value { IsAsSpecified row_fault (λ location. location) result (location_at bytes.now) }
    ensures spelled { IfOk result (λ location. location_value location ≡ bytes.now) }
{
    match after_two_zeros(bytes) {
        Some(lists) => Ok(Location::Tags(decode_tag_lists(alloc, lists)?)),
        None => Ok(Location::Servers(decode_key_servers(alloc, bytes)?)),
    }
}

/// Whether the value decodes, if rows of this kind have a fixed form. Does not allocate.
pub(crate) fn is_row_value(kind: RowKind, value: &[u8]) -> bool
    ensures { result ≡ is_row_value kind value.now }
{
    match kind {
        RowKind::KeyServers => check_location(value).is_ok(),
        RowKind::ServerTag => decode_tag(value).is_ok(),
        _ => true,
    }
}

/// Returns the first fault of a keyServers value of either form. Does not allocate.
fn check_location(bytes: &[u8]) -> Result<(), RowFault>
    ensures { MatchResult result (λ _. IsOk (location_at bytes.now))
        (λ fault. location_at bytes.now ≡ Err fault) }
{
    match after_two_zeros(bytes) {
        Some(lists) => {
            second_tag_list(lists)?;
            Ok(())
        }
        None => check_key_servers(bytes),
    }
}

/// The bytes behind two zero bytes at the front of a value that lists tags.
fn after_two_zeros(bytes: &[u8]) -> Option<&[u8]>
    ensures { option_map (λ lists. lists.now) result ≡ after_two_zeros bytes.now }
{
    match bytes {
        [first, second, lists @ ..] if *first == 0 && *second == 0 && !lists.is_empty() => {
            Some(lists)
        }
        _ => None,
    }
}
