//! Tests of metadata: the tags of a Set beside those of its key, after changes and after rows of a journal.

use metadata::{JournalFold, Metadata};
use model::Verdict;
use std::process::Abort;
use std::test::Fail;
use system_keys::{Change, OutOfMemory, Tag};
use testing::{MutationLine, StateLine, change, journal_row};

/// Two servers with their tags.
const SERVERS: &[MutationLine<'static>] = &[
    MutationLine::Set(b"\xff/serverTag/server0000000001", b"\x00\x00\x01"),
    MutationLine::Set(b"\xff/serverTag/server0000000002", b"\x00\x00\x02"),
];

/// The row at `b`.
const ROW_AT_B: &[MutationLine<'static>] = &[MutationLine::Set(
    b"\xff/keyServers/b",
    b"\x01server0000000001\x00",
)];

/// The row at `m`.
const ROW_AT_M: &[MutationLine<'static>] = &[MutationLine::Set(
    b"\xff/keyServers/m",
    b"\x01server0000000002\x00",
)];

const TAG_1: Tag = Tag { locality: 0, id: 1 };

const TAG_2: Tag = Tag { locality: 0, id: 2 };

/// Keys before, at and after the rows, with their tags.
const TAGS: &[(&[u8], &[Tag])] = &[
    (b"", &[]),
    (b"a", &[]),
    (b"b", &[TAG_1]),
    (b"c", &[TAG_1]),
    (b"l\xff", &[TAG_1]),
    (b"m", &[TAG_2]),
    (b"z", &[TAG_2]),
];

/// Whether these are the tags of the Set of a key, and of the key.
fn has_tags(
    metadata: &Metadata,
    set: &Change,
    key: &[u8],
    wanted: &[Tag],
) -> Result<bool, OutOfMemory> {
    let of_set = metadata.tags_of(set)?;
    let of_key = metadata.tags_of_key(key)?;
    Ok(of_set.as_slice() == wanted && of_key.as_slice() == wanted)
}

/// Each key has its tags.
fn gives_tags<R: Abort + AllocGlobal>(rt: &R, metadata: &Metadata) -> Result<(), Fail> {
    for (key, wanted) in TAGS {
        let set = change(rt.alloc(), MutationLine::Set(*key, b"v"))?;
        assert!(rt; has_tags(metadata, &set, *key, *wanted)?, "at {key:?}");
    }
    Ok(())
}

/// The metadata after the steps of these lists.
fn metadata_after<R: AllocGlobal>(
    rt: &R,
    lists: &[&[MutationLine<'static>]],
) -> Result<Metadata, Fail> {
    let mut metadata = Metadata::new(rt.alloc());
    for steps in lists {
        for step in *steps {
            metadata.apply(&change(rt.alloc(), *step)?)?;
        }
    }
    Ok(metadata)
}

#[test]
fn a_set_has_the_tags_of_its_key(rt: HostRuntime) -> Result<(), Fail> {
    let metadata = metadata_after(&rt, &[SERVERS, ROW_AT_B, ROW_AT_M])?;
    gives_tags(&rt, &metadata)
}

const BOTH: &[Verdict] = &[Verdict::Committed, Verdict::Committed];

const ONE_ALONE: &[Verdict] = &[Verdict::Committed, Verdict::Conflict];

const LOCK: &[MutationLine<'static>] = &[MutationLine::Set(b"\xff/dbLocked", b"l")];

const CLEAR_ALL: &[MutationLine<'static>] = &[MutationLine::Clear(b"\xff", b"\xff\x02")];

/// Versions whose state transactions make the same steps. Two Clears of all rows are not applied: one of
/// the two resolvers did not commit the first, and the database is locked when the other comes.
const JOURNAL: &[(u64, &[StateLine<'static>])] = &[
    (10, &[(BOTH, (SERVERS, false)), (BOTH, (ROW_AT_B, false))]),
    (
        20,
        &[(ONE_ALONE, (CLEAR_ALL, false)), (BOTH, (LOCK, false))],
    ),
    (30, &[(BOTH, (CLEAR_ALL, false)), (BOTH, (ROW_AT_M, true))]),
];

#[test]
fn the_rows_of_a_journal_are_folded_one_after_another(rt: HostRuntime) -> Result<(), Fail> {
    let mut folded = JournalFold::new(rt.alloc());
    for (version, lines) in JOURNAL {
        folded = folded.apply(journal_row(rt.alloc(), *version, *lines)?)?;
    }
    gives_tags(&rt, &folded.into_metadata()?)
}
