//! Why an input is refused.

ghost use Rattle.std.specs.Prelude.{◌≡◌};
ghost use Rattle.system_keys.specs.declared.refusal.RowFault.TheVariants as faults;

use crate::memory::OutOfMemory;
use thiserror::Error;

/// Why a key, a range or a change is refused (this project's profile). The number and the name are
/// printed.
#[derive(Clone, Copy, Debug, PartialEq, Eq, Error)]
pub enum Refusal {
    /// A key has more than 10,000 bytes, or the end of a range more than 10,001.
    #[error("a key is too long")]
    KeyTooLong,
    /// A value has more than 100,000 bytes.
    #[error("a value is too long")]
    ValueTooLong,
    /// A key or the begin of a range is at or after `\xff\xff`, or the end of a range is after it.
    #[error("a key lies outside the key space")]
    KeyOutside,
    /// The begin of a range is not before its end.
    #[error("a range is empty")]
    EmptyRange,
    /// The value of a keyServers or serverTag row does not decode.
    #[error("the value of a system row does not decode")]
    BadRow,
}

impl Refusal {
    ghost use Rattle.system_keys.specs.Refusals.{refusal_number, refusal_name};

    /// The number that is printed.
    pub fn number(&self) -> u32
        ensures { result ≡ refusal_number self.now }
    {
        match self {
            Refusal::KeyTooLong => 10,
            Refusal::ValueTooLong => 11,
            Refusal::KeyOutside => 12,
            Refusal::EmptyRange => 13,
            Refusal::BadRow => 14,
        }
    }

    /// The name that is printed beside the number.
    pub fn name(&self) -> &'static str
        ensures { result.now ≡ refusal_name self.now }
    {
        match self {
            Refusal::KeyTooLong => "KeyTooLong",
            Refusal::ValueTooLong => "ValueTooLong",
            Refusal::KeyOutside => "KeyOutside",
            Refusal::EmptyRange => "EmptyRange",
            Refusal::BadRow => "BadRow",
        }
    }
}

/// The first fault of the value of a row, or of the text of bytes (this project's profile).
#[derive(Clone, Copy, Debug, PartialEq, Eq, Error)]
pub enum RowFault {
    /// Bytes are missing.
    #[error("bytes are missing")]
    Truncated,
    /// The server ids or the tags of a list are not strictly increasing.
    #[error("server ids or tags do not rise")]
    NotRising,
    /// Bytes follow the end of the value.
    #[error("bytes stand after the end")]
    Trailing,
    /// The text is not the text of any bytes.
    #[error("the text is no spelling of bytes")]
    BadText,
    /// An allocation failed.
    #[error("out of memory")]
    OutOfMemory,
}

impl RowFault {
    ghost use Rattle.system_keys.specs.Refusals.{row_fault_number, row_fault_name};

    /// The number that is printed, or `None` for `OutOfMemory`.
    pub fn number(&self) -> Option<u32>
        ensures { result ≡ row_fault_number self.now }
    {
        match self {
            RowFault::Truncated => Some(1),
            RowFault::NotRising => Some(2),
            RowFault::Trailing => Some(3),
            RowFault::BadText => Some(4),
            RowFault::OutOfMemory => None,
        }
    }

    /// The name that is printed beside the number.
    pub fn name(&self) -> &'static str
        ensures { result.now ≡ row_fault_name self.now }
    {
        match self {
            RowFault::Truncated => "Truncated",
            RowFault::NotRising => "NotRising",
            RowFault::Trailing => "Trailing",
            RowFault::BadText => "BadText",
            RowFault::OutOfMemory => "OutOfMemory",
        }
    }
}

impl From<OutOfMemory> for RowFault {
    ghost from_gives = { λ _ fault. fault ≡ faults.OutOfMemory };

    fn from(_error: OutOfMemory) -> RowFault {
        RowFault::OutOfMemory
    }
}
