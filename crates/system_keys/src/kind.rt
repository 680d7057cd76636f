//! Which family of keys a key is of, and whether the metadata keeps it.

ghost use Rattle.std.specs.Prelude.{◌≡◌, Ok};
ghost use Rattle.system_keys.specs.Families.{is_in, is_kept_key, kind_of, server_keys_family};

use crate::memory::OutOfMemory;

/// What a key is to the metadata (release 7.1; that the four families are all that is kept is this
/// project's profile).
#[derive(Clone, Copy, Debug, PartialEq, Eq)]
pub enum RowKind {
    /// `\xff/keyServers/` and any key: the storage servers of the keys from there on, or their tags.
    KeyServers,
    /// `\xff/serverTag/` and a server id of 16 bytes: the tag of that server.
    ServerTag,
    /// `\xff/dbLocked`: the database is locked if the row exists and is not empty.
    DatabaseLocked,
    /// `\xff/metadataVersion`: a version of the metadata for clients.
    MetadataVersion,
    /// `\xff/serverKeys/`, a server id of 16 bytes, `/` and any bytes: that this server has the keys
    /// from there on, or has them no more. The metadata keeps no such entry.
    ServerKeys,
    /// Any other key that starts with `\xff` and not with `\xff\x02`.
    OtherSystem,
    /// A key that starts with `\xff\x02`.
    NonMetadata,
    /// A key that does not start with `\xff`.
    Normal,
}

impl RowKind {
    /// Returns a copy. Never fails.
    pub fn copy(&self) -> Result<RowKind, OutOfMemory>
        ensures { result ≡ Ok self.now }
    {
        Ok(*self)
    }
}

/// How the keys of keyServers rows begin.
pub const KEY_SERVERS_PREFIX: &[u8] = b"\xff/keyServers/";

/// How the keys of serverTag rows begin.
pub const SERVER_TAG_PREFIX: &[u8] = b"\xff/serverTag/";

/// The key of the lock of the database.
pub const LOCKED_KEY: &[u8] = b"\xff/dbLocked";

/// The key of the version of the metadata.
pub const METADATA_VERSION_KEY: &[u8] = b"\xff/metadataVersion";

/// How the keys of serverKeys rows begin.
pub const SERVER_KEYS_PREFIX: &[u8] = b"\xff/serverKeys/";

/// The bytes of a server id (this project's profile).
pub const SERVER_ID_LENGTH: usize = 16;

/// The kind of any bytes, as a key.
#[tactic(auto, unfolding(crate::specs::Families::kind_of))]
pub fn classify(key: &[u8]) -> RowKind
    ensures { result ≡ kind_of key.now }
{
    if !key.starts_with(b"\xff") {
        RowKind::Normal
    } else if key.starts_with(KEY_SERVERS_PREFIX) {
        RowKind::KeyServers
    } else if key.starts_with(SERVER_TAG_PREFIX)
        && key.len() == SERVER_TAG_PREFIX.len() + SERVER_ID_LENGTH
    {
        RowKind::ServerTag
    } else if key == LOCKED_KEY {
        RowKind::DatabaseLocked
    } else if key == METADATA_VERSION_KEY {
        RowKind::MetadataVersion
    } else if is_server_keys_key(key) {
        RowKind::ServerKeys
    } else if key.starts_with(b"\xff\x02") {
        RowKind::NonMetadata
    } else {
        RowKind::OtherSystem
    }
}

/// Whether the key is the prefix of serverKeys rows, a server id, a slash and any bytes.
fn is_server_keys_key(key: &[u8]) -> bool
    ensures { result ≡ is_in server_keys_family key.now }
{
    let id_end = SERVER_KEYS_PREFIX.len() + SERVER_ID_LENGTH;
    if key.len() < id_end {
        return false;
    }
    let behind = &key[id_end..];
    key.starts_with(SERVER_KEYS_PREFIX) && behind.starts_with(b"/")
}

/// Whether the metadata keeps an entry at this key (release 7.1).
pub fn is_kept_key(key: &[u8]) -> bool
    ensures { result ≡ is_kept_key key.now }
{
    match classify(key) {
        RowKind::KeyServers
        | RowKind::ServerTag
        | RowKind::DatabaseLocked
        | RowKind::MetadataVersion => true,
        RowKind::ServerKeys | RowKind::OtherSystem | RowKind::NonMetadata | RowKind::Normal => {
            false
        }
    }
}
