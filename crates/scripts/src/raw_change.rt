//! A change as it is written in a script, before it is checked.

ghost use Rattle.std.specs.Prelude.{◌≡◌, IfOk};

use system_keys::{Bytes, OutOfMemory};

/// A change as it is written, before its key, value or range is checked.
#[derive(Clone, Debug, Drop)]
pub enum RawChange {
    /// Puts the value at the key.
    Set {
        /// The key.
        key: Bytes,
        /// The value.
        value: Bytes,
    },
    /// Removes the rows from the begin up to the end.
    Clear {
        /// The begin.
        begin: Bytes,
        /// The end.
        end: Bytes,
    },
}

impl RawChange {
    /// Returns a deep copy. Fails only with `OutOfMemory`.
    pub fn copy(&self) -> Result<RawChange, OutOfMemory>
        ensures { IfOk result (λ copy. copy ≡ self.now) }
    {
        Ok(self.clone()?)
    }
}
