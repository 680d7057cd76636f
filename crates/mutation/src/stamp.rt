//! Stamps, and the values that wait for them.
//!
//! The last four bytes of such a value are an offset, low byte first; the bytes before them are the
//! text. Ten bytes of the text at the offset become the stamp: the version of the batch in eight
//! bytes and the number of the transaction in two, high byte first (release 7.1).

ghost use Rattle.std.specs.Prelude.{◌≡◌, ◌<◌, ◌^◌, length, IfOk, IsTrue};
ghost use Rattle.model.specs.Stamps.{from_little_endian, stamp, stamped_value};
ghost use Rattle.mutation.specs.Faults.{has_room_for_stamp};

use model::{TransactionNumber, Version};
use std::alloc::Global;
use system_keys::OutOfMemory;

/// The bytes of an offset.
const OFFSET_LENGTH: usize = 4;

/// The bytes of a stamp.
const STAMP_LENGTH: usize = 10;

/// Whether the value has an offset, and room for a stamp there.
pub(crate) fn has_room_for_stamp(value: &[u8]) -> bool
    ensures { result ≡ has_room_for_stamp value.now }
{
    if value.len() < OFFSET_LENGTH {
        return false;
    }
    let (text, offset) = value.split_at(value.len() - OFFSET_LENGTH);
    from_little_endian(offset) + STAMP_LENGTH <= text.len()
}

/// Returns the value with its stamp in.
pub(crate) fn stamped_value(
    alloc: Global,
    version: Version,
    number: TransactionNumber,
    value: &[u8],
) -> Result<Vec<u8>, OutOfMemory>
    requires { IsTrue (has_room_for_stamp value.now) }
    ensures { IfOk result (λ bytes. bytes.items ≡ stamped_value version number value.now) }
{
    let (text, offset) = value.split_at(value.len() - OFFSET_LENGTH);
    let begin = from_little_endian(offset);
    let mut bytes = Vec::with_capacity(alloc, text.len())?;
    bytes.extend_from_slice(&text[..begin])?;
    bytes.extend_from_slice(&stamp(version, number))?;
    bytes.extend_from_slice(&text[begin + STAMP_LENGTH..])?;
    Ok(bytes)
}

/// The number of four bytes, low byte first.
fn from_little_endian(bytes: &[u8]) -> usize
    requires { length bytes.now ≡ 4 }
    ensures value { result ≡ from_little_endian bytes.now }
    ensures small { result < 2 ^ 32 }
{
    match bytes {
        [a, b, c, d] => u32::from_le_bytes([*a, *b, *c, *d]) as usize,
        _ => unreachable!(),
    }
}

/// The stamp of transaction `number` in the batch of `version`. It holds the low two bytes of a
/// number above 65,535.
fn stamp(version: Version, number: TransactionNumber) -> [u8; 10]
    ensures { result ≡ stamp version number }
{
    let [a, b, c, d, e, f, g, h] = version.to_be_bytes();
    let high = (number / 256 % 256) as u8;
    let low = (number % 256) as u8;
    [a, b, c, d, e, f, g, h, high, low]
}
