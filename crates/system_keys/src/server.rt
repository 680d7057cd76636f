//! The id of a storage server.

ghost use Rattle.std.specs.Prelude.{◌≡◌, Ok, length};

use crate::memory::OutOfMemory;
use std::marker::Model;

/// The id of a storage server: 16 bytes (this project's profile).
#[derive(Clone, Copy, Debug)]
pub struct ServerId(pub [u8; 16]);

impl Model for ServerId {
    ghost use Rattle.std.specs.Prelude.{◌≡◌, ℕ, List, length};

    ghost Value = { List ℕ };

    ghost view = { λ s. s.0 };

    ghost invariant = { λ s. length s.0 ≡ 16 };

    ghost inverse = { λ bytes. record { 0 = bytes } };
}

impl ServerId {
    /// Borrows the bytes of the id.
    pub fn as_slice(&self) -> &[u8]
        ensures value { result.now ≡ self.now }
        ensures length { length self.now ≡ 16 }
    {
        &self.0
    }

    /// Returns a copy. Never fails.
    pub fn copy(&self) -> Result<ServerId, OutOfMemory>
        ensures { result ≡ Ok self.now }
    {
        Ok(*self)
    }
}
