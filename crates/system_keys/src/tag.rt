//! The tag of a storage server.

ghost use Rattle.std.specs.Prelude.{◌≡◌, Ok};
ghost use Rattle.system_keys.specs.Rows.{tag_from, tag_value};

use crate::memory::OutOfMemory;

/// The tag by which the logs keep the mutations for one storage server (release 7.1).
#[derive(Clone, Copy, Debug, PartialEq, Eq, PartialOrd, Ord, Hash)]
pub struct Tag {
    /// The locality: a region or data center.
    pub locality: u8,
    /// The number of the server in its locality.
    pub id: u16,
}

impl Tag {
    /// Returns a copy. Never fails.
    pub fn copy(&self) -> Result<Tag, OutOfMemory>
        ensures { result ≡ Ok self.now }
    {
        Ok(*self)
    }

    /// The tag of three bytes: the locality, and the id, the high byte first.
    pub(crate) fn from_bytes(locality: u8, high: u8, low: u8) -> Tag
        ensures { result ≡ tag_from locality high low }
    {
        Tag {
            locality,
            id: u16::from_be_bytes([high, low]),
        }
    }

    /// The three bytes of the tag.
    pub(crate) fn to_bytes(self) -> [u8; 3]
        ensures { result ≡ tag_value self }
    {
        let [high, low] = self.id.to_be_bytes();
        [self.locality, high, low]
    }
}
