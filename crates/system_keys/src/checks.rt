//! The limits of keys, values and ranges, checked without allocating.

ghost use Rattle.std.specs.Prelude.{◌≡◌};
ghost use Rattle.std.specs.Result.{result_err};
ghost use Rattle.system_keys.specs.Limits.{range_fault, set_fault};

use crate::kind::classify;
use crate::location::is_row_value;
use crate::order::{is_key_below, is_key_up_to};
use crate::refusal::Refusal;

/// The greatest number of bytes of a key (this project's profile).
pub const KEY_LIMIT: usize = 10_000;

/// The greatest number of bytes of the end of a range (this project's profile).
pub const END_LIMIT: usize = 10_001;

/// The greatest number of bytes of a value, as it is given (this project's profile).
pub const VALUE_LIMIT: usize = 100_000;

/// The end of the key space (release 7.1): every key is below it, and a range may end at it.
pub const KEY_SPACE_END: &[u8] = b"\xff\xff";

/// Returns the first fault of the range from `begin` up to `end`. Does not allocate.
///
/// In this order: `KeyTooLong` (a begin of more than 10,000 bytes, an end of more than 10,001),
/// `KeyOutside` (an end after `\xff\xff`, a begin at or after it), `EmptyRange` (a begin that is
/// not before the end).
pub fn check_range(begin: &[u8], end: &[u8]) -> Result<(), Refusal>
    ensures { result_err result ≡ range_fault begin.now end.now }
{
    if begin.len() > KEY_LIMIT || end.len() > END_LIMIT {
        return Err(Refusal::KeyTooLong);
    }
    if !is_key_up_to(end, KEY_SPACE_END) || !is_key_below(begin, KEY_SPACE_END) {
        return Err(Refusal::KeyOutside);
    }
    if !is_key_below(begin, end) {
        return Err(Refusal::EmptyRange);
    }
    Ok(())
}

/// Returns the first fault of a Set of a key to a value. Does not allocate.
///
/// In this order: `KeyTooLong` (more than 10,000 bytes), `ValueTooLong` (more than 100,000),
/// `KeyOutside` (at or after `\xff\xff`), `BadRow` (a keyServers or serverTag value that does not
/// decode).
pub fn check_set(key: &[u8], value: &[u8]) -> Result<(), Refusal>
    ensures { result_err result ≡ set_fault key.now value.now }
{
    if key.len() > KEY_LIMIT {
        return Err(Refusal::KeyTooLong);
    }
    if value.len() > VALUE_LIMIT {
        return Err(Refusal::ValueTooLong);
    }
    if !is_key_below(key, KEY_SPACE_END) {
        return Err(Refusal::KeyOutside);
    }
    if !is_row_value(classify(key), value) {
        return Err(Refusal::BadRow);
    }
    Ok(())
}
