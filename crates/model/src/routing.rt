//! The routing of a cluster at one version: which tags the keys have.
//!
//! Release 7.1, `ApplyMetadataMutation.cpp`, applyMetadataMutations; what differs is marked
//! *profile*.

ghost use Rattle.std.specs.Prelude.{◌≡◌, IfOk};

use crate::numbers::Version;
use system_keys::{Bytes, Items, OutOfMemory, Tag};

/// One keyServers row: the keys from `key` up to the key of the next route have these tags.
#[derive(Clone, Debug, Drop)]
pub struct Route {
    /// The key of the row without its prefix.
    pub key: Bytes,
    /// The tags, strictly increasing.
    pub tags: Items<Tag>,
}

impl Route {
    /// Returns a deep copy. Fails only with `OutOfMemory`.
    pub fn copy(&self) -> Result<Route, OutOfMemory>
        ensures { IfOk result (λ copy. copy ≡ self.now) }
    {
        Ok(self.clone()?)
    }
}

/// The routing of the whole key space by the metadata of one version (*profile*).
#[derive(Clone, Debug, Drop)]
pub struct Routing {
    /// The version.
    pub version: Version,
    /// Whether the database is locked.
    pub locked: bool,
    /// The value of the metadata version row, if there is one.
    pub metadata_version: Option<Bytes>,
    /// One route for each keyServers row, in the order of keys.
    pub routes: Items<Route>,
}

impl Routing {
    /// Returns a deep copy. Fails only with `OutOfMemory`.
    pub fn copy(&self) -> Result<Routing, OutOfMemory>
        ensures { IfOk result (λ copy. copy ≡ self.now) }
    {
        Ok(self.clone()?)
    }
}
