//! A row of the map of entries: its value, and what that names.

ghost use Rattle.std.specs.Prelude.{◌≡◌, IfOk, IfSome};
ghost use Rattle.metadata.specs.CachedTags.{names_by};

use crate::row_names::RowNames;
use crate::server_table::ServerTable;
use std::alloc::{AllocError, Global};
use std::marker::Model;
use system_keys::{Bytes, OutOfMemory};

/// The value of an entry and, once it is read as that of a keyServers entry, what it names. Contracts
/// see the value.
#[derive(Drop)]
pub(crate) struct Row {
    value: Bytes,
    /// None if the value is not read.
    names: Option<RowNames>,
}

impl Model for Row {
    ghost use Rattle.std.specs.Prelude.{◌≡◌, ℕ, List, IfSome};
    ghost use Rattle.metadata.specs.CachedTags.{names_by};

    ghost Value = { List ℕ };

    ghost view = { λ r. r.value };

    ghost invariant = { λ r. IfSome r.names (λ names. names ≡ names_by r.value) };
}

impl Row {
    /// The row of a value, which is not read. Does not allocate.
    pub(crate) fn unread(value: Bytes) -> Row
        ensures { result ≡ value }
    {
        Row { value, names: None }
    }

    /// The row with its value read as that of a keyServers entry; its servers are looked for in the
    /// table. Fails only with `OutOfMemory`.
    pub(crate) fn read(self, alloc: Global, servers: &ServerTable) -> Result<Row, OutOfMemory>
        ensures { IfOk result (λ row. row ≡ self) }
    {
        let Row { value, names: _ } = self;
        let names = RowNames::of(alloc, servers, value.as_slice())?;
        Ok(Row {
            value,
            names: Some(names),
        })
    }

    /// The value. Does not allocate.
    pub(crate) fn value(&self) -> &[u8]
        ensures { result.now ≡ self.now }
    {
        self.value.as_slice()
    }

    /// What the value names as that of a keyServers entry, if it is read. Does not allocate.
    pub(crate) fn names(&self) -> Option<&RowNames>
        ensures { IfSome result (λ names. names.now ≡ names_by self.now) }
    {
        self.names.as_ref()
    }
}

impl Clone for Row {
    ghost is_clone = { λ row copy. copy ≡ row };

    fn clone(&self) -> Result<Row, AllocError> {
        let names = match &self.names {
            Some(names) => Some(names.clone()?),
            None => None,
        };
        Ok(Row {
            value: self.value.clone()?,
            names,
        })
    }
}
