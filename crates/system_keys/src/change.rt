//! A change of the database: a Set of a key, or a Clear of a range.

ghost use Rattle.std.specs.Prelude.{◌≡◌, IfOk, MatchResult, Some, None};
ghost use Rattle.system_keys.specs.declared.change.Change.TheVariants.{Set, Clear};

use crate::bytes::Bytes;
use crate::checks::check_set;
use crate::memory::OutOfMemory;
use crate::range::KeyRange;
use crate::refusal::Refusal;

/// A change of the database (release 7.1).
#[derive(Clone, Debug, Drop)]
pub enum Change {
    /// Puts the value at the key.
    Set {
        /// The key of the row.
        key: Bytes,
        /// Its new value.
        value: Bytes,
    },
    /// Removes every row of the range.
    Clear {
        /// The keys whose rows go.
        range: KeyRange,
    },
}

impl Change {
    ghost use Rattle.system_keys.specs.Limits.{set_fault};

    /// Returns the Set of a key to a value, or the first fault that `check_set` finds. Does not
    /// allocate.
    pub fn set(key: Vec<u8>, value: Vec<u8>) -> Result<Change, Refusal>
        ensures { MatchResult result
            (λ change. (set_fault key.items value.items ≡ None)
            × (change ≡ Set key.items value.items))
            (λ refusal. set_fault key.items value.items ≡ Some refusal) }
    {
        Change::set_bytes(Bytes::from(key), Bytes::from(value))
    }

    /// Returns the Set of a key to a value, or the first fault that `check_set` finds. Does not
    /// allocate.
    pub fn set_bytes(key: Bytes, value: Bytes) -> Result<Change, Refusal>
        ensures { MatchResult result
            (λ change. (set_fault key value ≡ None) × (change ≡ Set key value))
            (λ refusal. set_fault key value ≡ Some refusal) }
    {
        check_set(key.as_slice(), value.as_slice())?;
        Ok(Change::Set { key, value })
    }

    /// Returns the Clear of a range. Never fails.
    pub fn clear(range: KeyRange) -> Change
        ensures { result ≡ Clear range }
    {
        Change::Clear { range }
    }

    /// Returns a deep copy. Fails only with `OutOfMemory`.
    pub fn copy(&self) -> Result<Change, OutOfMemory>
        ensures { IfOk result (λ copy. copy ≡ self.now) }
    {
        Ok(self.clone()?)
    }
}
