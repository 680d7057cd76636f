//! The share of one resolver in a record.

ghost use Rattle.std.specs.Prelude.{◌≡◌, IfOk};

use model::Part;
use std::alloc::AllocError;
use std::marker::Model;
use system_keys::{Items, OutOfMemory};

/// The parts of transactions that one resolver gets, in the order of the batch.
#[derive(Debug, Drop)]
pub struct Share {
    parts: Items<Part>,
}

impl Model for Share {
    ghost use Rattle.std.specs.Prelude.{List};
    ghost use Rattle.model.specs.declared.part.Part.{Part};

    ghost Value = { List Part };

    ghost view = { λ share. share.parts };
}

impl Share {
    /// Returns the share of these parts. Does not allocate.
    pub fn new(parts: Items<Part>) -> Share
        ensures { result ≡ parts }
    {
        Share { parts }
    }

    /// The parts, in the order of the batch.
    pub fn parts(&self) -> &[Part]
        ensures { result.now ≡ self.now }
    {
        self.parts.as_slice()
    }

    /// Returns a copy, which shares the ranges. Fails only with `OutOfMemory`.
    pub fn copy(&self) -> Result<Share, OutOfMemory>
        ensures { IfOk result (λ copy. copy ≡ self.now) }
    {
        Ok(self.clone()?)
    }
}

impl Clone for Share {
    ghost is_clone = { λ share copy. copy ≡ share };

    fn clone(&self) -> Result<Share, AllocError> {
        Ok(Share {
            parts: self.parts.clone()?,
        })
    }
}
