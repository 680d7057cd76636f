//! The state mutations: those that every commit proxy applies to its metadata.

ghost use Rattle.std.specs.Prelude.{◌≡◌, nat_eq, ◌&&◌, not};
ghost use Rattle.std.specs.List.{starts_with};
ghost use Rattle.system_keys.specs.Changes.{is_state, is_past_system_prefix};
ghost use Rattle.system_keys.specs.Changes.{is_inside_non_metadata};
ghost use Rattle.system_keys.specs.Families.{system_prefix, non_metadata_prefix};

use crate::change::Change;
use crate::order::is_key_below;
use crate::range::KeyRange;

/// Whether the change goes to every commit proxy (release 7.1).
///
/// A Set does if its key starts with `\xff` and not with `\xff\x02`; a Clear does if its end has
/// more than one byte and starts with `\xff`, and its range does not lie inside `[\xff\x02,
/// \xff\x03)`.
pub fn is_state(change: &Change) -> bool
    ensures { result ≡ is_state change.now }
{
    match change {
        Change::Set { key, value: _ } => is_metadata_key(key.as_slice()),
        Change::Clear { range } => {
            ends_past_system_prefix(range.end()) && !is_inside_non_metadata(range)
        }
    }
}

/// Whether the key starts with `\xff` and not with `\xff\x02`.
fn is_metadata_key(key: &[u8]) -> bool
    ensures { result ≡ (starts_with nat_eq key.now system_prefix
        && not (starts_with nat_eq key.now non_metadata_prefix)) }
{
    key.starts_with(b"\xff") && !key.starts_with(b"\xff\x02")
}

/// Whether the end has more than one byte and starts with `\xff`.
fn ends_past_system_prefix(end: &[u8]) -> bool
    ensures { result ≡ is_past_system_prefix end.now }
{
    match end {
        [first, _, ..] => *first == 0xff,
        _ => false,
    }
}

/// Whether the range lies inside `[\xff\x02, \xff\x03)`.
fn is_inside_non_metadata(range: &KeyRange) -> bool
    ensures { result ≡ is_inside_non_metadata range.now }
{
    !is_key_below(range.begin(), b"\xff\x02") && !is_key_below(b"\xff\x03", range.end())
}
