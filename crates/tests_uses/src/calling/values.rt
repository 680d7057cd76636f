//! What the tests commit.

use agreed_ledger::Naming;
use locked_cluster::NotedFinished;
use model::{Finished, Outcome};
use proxy_state::Metadata;
use system_keys::Tag;
use testing::{EMPTY_TRANSACTION, MutationLine, TransactionLine};

/// A transaction that gives a server its tag and all keys.
pub(crate) const FIRST: &[TransactionLine<'static>] = &[TransactionLine {
    mutations: &[
        MutationLine::Set(b"\xff/serverTag/server0000000001", b"\x00\x00\x01"),
        MutationLine::Set(b"\xff/keyServers/", b"\x01server0000000001\x00"),
    ],
    ..EMPTY_TRANSACTION
}];

/// A transaction that gives another server its tag and the keys from `m` on.
pub(crate) const SECOND: &[TransactionLine<'static>] = &[TransactionLine {
    mutations: &[
        MutationLine::Set(b"\xff/serverTag/server0000000002", b"\x00\x00\x02"),
        MutationLine::Set(b"\xff/keyServers/m", b"\x01server0000000002\x00"),
    ],
    ..EMPTY_TRANSACTION
}];

/// A transaction that writes one key.
pub(crate) const WRITE: &[TransactionLine<'static>] = &[TransactionLine {
    writes: &[(b"k", b"l")],
    mutations: &[MutationLine::Set(b"k", b"1")],
    ..EMPTY_TRANSACTION
}];

/// The tag of the first server.
pub(crate) const TAG: Tag = Tag { locality: 0, id: 1 };

/// Whether the metadata has the rows of both servers' keys.
pub(crate) fn has_rows(metadata: &Metadata) -> [bool; 2] {
    [
        metadata.row(b"\xff/keyServers/").is_some(),
        metadata.row(b"\xff/keyServers/m").is_some(),
    ]
}

/// What a test compares of a finished batch: its version, how many mutations there are, and whether
/// its one transaction is committed.
pub(crate) type Seen = (u64, usize, bool);

pub(crate) fn seen(finished: &Finished) -> Seen {
    let version = finished.version;
    let first = finished.outcomes.as_slice().first().copied();
    let mutations = finished.tagged.as_slice().len();
    (
        version,
        mutations,
        first == Some(Outcome::Committed { version, number: 0 }),
    )
}

/// That of a batch that crosses threads.
pub(crate) fn seen_by<N: Naming>(noted: &NotedFinished<N>) -> Seen {
    seen(noted.value())
}
