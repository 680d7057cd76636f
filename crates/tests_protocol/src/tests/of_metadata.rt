//! Tests of the metadata: by single changes and by rows, as no script applies them.

use crate::tests::of_proxy_state::{
    COMMITTED, LOCK, ROW_OF_ALL, SERVER_1, SERVER_2, TAG_1, TAG_ROW_1, TAG_ROW_2,
};
use crate::tests::{Copied, copy_of};
use proxy_state::{JournalRow, Metadata, Verdict};
use std::process::Abort;
use std::test::Fail;
use system_keys::{Change, Items, OutOfMemory, Tag};
use testing::{MutationLine, StateLine, change, journal_row, twice, twice_on};

const ROW_OF_B: &[u8] = b"\xff/keyServers/b";

const ROW_OF_Q: &[u8] = b"\xff/keyServers/q";

const VERSION: &[u8] = b"\xff/metadataVersion";

const SERVERS_1_TO_2: &[u8] = b"\x01server0000000001\x01server0000000002";

/// The source tag `0:0`, and the destination tag `0:2`.
const LISTING: &[u8] = b"\x00\x00\x01\x00\x00\x00\x01\x00\x00\x02";

const TAG_0: Tag = Tag { locality: 0, id: 0 };

const TAG_2: Tag = Tag { locality: 0, id: 2 };

/// The keys of the entries of these tests.
const KEYS: &[&[u8]] = &[
    TAG_ROW_1, TAG_ROW_2, ROW_OF_ALL, ROW_OF_B, ROW_OF_Q, LOCK, VERSION,
];

/// Keys with their values, or none.
type Entries = &'static [(&'static [u8], Option<&'static [u8]>)];

/// The tags kept at the places from 0 on, or none.
type Cached = &'static [Option<&'static [Tag]>];

fn has_entries(metadata: &Metadata, entries: Entries) -> bool {
    for (key, value) in entries {
        if metadata.row(*key) != *value {
            return false;
        }
    }
    true
}

/// The tags kept at the place, if there are some.
fn cached_at<R: AllocGlobal>(
    rt: &R,
    metadata: &Metadata,
    place: usize,
) -> Result<Option<Items<Tag>>, OutOfMemory> {
    match metadata.cached(place) {
        Some(tags) => Ok(Some(tags.list(rt.alloc())?)),
        None => Ok(None),
    }
}

fn are_these(found: &Option<Items<Tag>>, tags: Option<&[Tag]>) -> bool {
    match found {
        Some(list) => Some(list.as_slice()) == tags,
        None => tags.is_none(),
    }
}

fn has_cached<R: AllocGlobal>(
    rt: &R,
    metadata: &Metadata,
    cached: Cached,
) -> Result<bool, OutOfMemory> {
    for (place, tags) in cached.iter().enumerate() {
        if !are_these(&cached_at(rt, metadata, place)?, *tags) {
            return Ok(false);
        }
    }
    Ok(true)
}

/// Whether both have the same value, or none, at each key of these tests, and the same kept tags.
fn are_same<R: AllocGlobal>(
    rt: &R,
    metadata: &Metadata,
    other: &Metadata,
) -> Result<bool, OutOfMemory> {
    for (place, key) in KEYS.iter().enumerate() {
        let tags = cached_at(rt, other, place)?;
        let tags = match &tags {
            Some(list) => Some(list.as_slice()),
            None => None,
        };
        if metadata.row(*key) != other.row(*key)
            || !are_these(&cached_at(rt, metadata, place)?, tags)
        {
            return Ok(false);
        }
    }
    Ok(true)
}

impl Copied for Metadata {
    fn copied(&self) -> Result<Metadata, OutOfMemory> {
        self.copy()
    }
}

/// What is applied to metadata.
trait Applied {
    /// Applies it by one call.
    fn apply_to(&self, metadata: &mut Metadata) -> Result<(), OutOfMemory>;
}

impl Applied for Change {
    fn apply_to(&self, metadata: &mut Metadata) -> Result<(), OutOfMemory> {
        metadata.apply(self)
    }
}

impl Applied for JournalRow {
    fn apply_to(&self, metadata: &mut Metadata) -> Result<(), OutOfMemory> {
        metadata.apply_row(self)
    }
}

/// Applies this to metadata with the entries and tags of `before`. A failed allocation leaves those.
fn apply_after<R: Abort + AllocGlobal, A: Applied>(
    rt: &R,
    metadata: &mut Metadata,
    before: &Metadata,
    applied: &A,
) -> Result<(), OutOfMemory> {
    twice_on!(rt; are_same(rt, metadata, before)?, applied.apply_to(metadata), OutOfMemory)
}

/// Applies this. A failed allocation leaves the metadata unchanged.
fn apply<R: Abort + AllocGlobal, A: Applied>(
    rt: &R,
    metadata: &mut Metadata,
    applied: &A,
) -> Result<(), OutOfMemory> {
    let before = copy_of(rt.alloc(), metadata)?;
    apply_after(rt, metadata, &before, applied)
}

/// Applies the change of the step.
fn apply_step<R: Abort + AllocGlobal>(
    rt: &R,
    metadata: &mut Metadata,
    step: MutationLine<'_>,
) -> Result<(), Fail> {
    let change = change(rt.alloc(), step)?;
    apply(rt, metadata, &change)?;
    Ok(())
}

/// Applies the changes of the steps in order.
fn apply_all<R: Abort + AllocGlobal>(
    rt: &R,
    metadata: &mut Metadata,
    steps: &[MutationLine<'_>],
) -> Result<(), Fail> {
    for step in steps {
        apply_step(rt, metadata, *step)?;
    }
    Ok(())
}

// ---- single changes

/// Steps, and then the entries and the kept tags.
type Stage = (&'static [MutationLine<'static>], Entries, Cached);

/// A row of one server, and one from which a range moves to a second.
const TWO_SERVERS: &[MutationLine<'static>] = &[
    MutationLine::Set(ROW_OF_ALL, SERVER_1),
    MutationLine::Set(TAG_ROW_1, b"\x00\x00\x01"),
    MutationLine::Set(ROW_OF_B, SERVERS_1_TO_2),
    MutationLine::Set(TAG_ROW_2, b"\x00\x00\x00"),
];

const OF_TWO_SERVERS: Entries = &[(ROW_OF_B, Some(SERVERS_1_TO_2)), (VERSION, None)];

const CACHED_OF_TWO_SERVERS: Cached = &[Some(&[TAG_1]), Some(&[TAG_0, TAG_1]), None];

/// What follows `TWO_SERVERS`.
const STAGES: &[Stage] = &[
    // of a user's key, a key of the configuration and the version of the metadata one is kept
    (
        &[
            MutationLine::Set(b"a", b"1"),
            MutationLine::Set(b"\xff/conf/x", b"2"),
            MutationLine::Set(VERSION, b"v"),
        ],
        &[(b"a", None), (b"\xff/conf/x", None), (VERSION, Some(b"v"))],
        &[Some(&[TAG_1]), Some(&[TAG_0, TAG_1]), None],
    ),
    (
        &[MutationLine::Set(VERSION, b"w")],
        &[(VERSION, Some(b"w"))],
        &[],
    ),
    // a changed tag changes at each place that names its server
    (
        &[MutationLine::Set(TAG_ROW_1, b"\x00\x00\x02")],
        &[],
        &[Some(&[TAG_2]), Some(&[TAG_0, TAG_2]), None],
    ),
    (
        &[MutationLine::Clear(ROW_OF_ALL, ROW_OF_B)],
        &[(ROW_OF_ALL, None), (ROW_OF_B, Some(SERVERS_1_TO_2))],
        &[Some(&[TAG_0, TAG_2]), None],
    ),
    // a value that does not decode names no server
    (
        &[
            MutationLine::Set(ROW_OF_ALL, SERVER_1),
            MutationLine::Set(ROW_OF_B, b"\x01server"),
        ],
        &[(ROW_OF_B, Some(b"\x01server"))],
        &[Some(&[TAG_2]), Some(&[]), None],
    ),
    // a row that lists tags has them, whatever tag a server gets
    (
        &[
            MutationLine::Set(ROW_OF_B, LISTING),
            MutationLine::Set(TAG_ROW_1, b"\x00\x00\x01"),
        ],
        &[(ROW_OF_B, Some(LISTING))],
        &[Some(&[TAG_1]), Some(&[TAG_0, TAG_2]), None],
    ),
    (
        &[
            MutationLine::Set(ROW_OF_B, SERVER_2),
            MutationLine::Clear(b"\xff/serverTag/", b"\xff/serverTag0"),
        ],
        &[
            (TAG_ROW_1, None),
            (TAG_ROW_2, None),
            (ROW_OF_B, Some(SERVER_2)),
        ],
        &[Some(&[]), Some(&[]), None],
    ),
    (
        &[MutationLine::Clear(b"", b"\xff\xff")],
        &[(ROW_OF_ALL, None), (ROW_OF_B, None), (VERSION, None)],
        &[None],
    ),
];

fn pass_stages<R: Abort + AllocGlobal>(rt: &R, metadata: &mut Metadata) -> Result<(), Fail> {
    for (place, (steps, entries, cached)) in STAGES.iter().enumerate() {
        apply_all(rt, metadata, *steps)?;
        let has_both = has_entries(metadata, *entries) && has_cached(rt, metadata, *cached)?;
        assert!(rt; has_both, "after stage {place}");
    }
    Ok(())
}

/// The copy stays as it is, while the metadata passes all stages.
fn pass_stages_alone<R: Abort + AllocGlobal>(
    rt: &R,
    metadata: &mut Metadata,
    copy: &Metadata,
) -> Result<(), Fail> {
    pass_stages(rt, metadata)?;
    assert!(rt; has_entries(copy, OF_TWO_SERVERS));
    assert!(rt; has_cached(rt, copy, CACHED_OF_TWO_SERVERS)?);
    Ok(())
}

/// A copy is made of two servers, and then the metadata changes alone.
fn changes_alone<R: Abort + AllocGlobal>(rt: &R, metadata: &mut Metadata) -> Result<(), Fail> {
    apply_all(rt, metadata, TWO_SERVERS)?;
    let copy = copy_of(rt.alloc(), metadata)?;
    pass_stages_alone(rt, metadata, &copy)
}

#[test]
fn entries_and_kept_tags_follow_each_change(rt: HostRuntime) -> Result<(), Fail> {
    let mut metadata = Metadata::new(rt.alloc());
    changes_alone(&rt, &mut metadata)
}

// ---- tags

/// A server with all keys, and at `b` a value that does not decode.
const UNDECODED_AT_B: &[MutationLine<'static>] = &[
    MutationLine::Set(TAG_ROW_1, b"\x00\x00\x01"),
    MutationLine::Set(ROW_OF_ALL, SERVER_1),
    MutationLine::Set(ROW_OF_B, b"\x01server"),
];

/// Whether the key has these tags, by one call.
fn has_tags_at(metadata: &Metadata, key: &[u8], wanted: &[Tag]) -> Result<bool, OutOfMemory> {
    let tags = metadata.tags_of_key(key)?;
    Ok(tags.as_slice() == wanted)
}

/// Whether the change has these tags, by one call.
fn has_tags(metadata: &Metadata, change: &Change, wanted: &[Tag]) -> Result<bool, OutOfMemory> {
    let tags = metadata.tags_of(change)?;
    Ok(tags.as_slice() == wanted)
}

/// `b` has no tags, and a Clear over its row has those of the row before it alone.
fn has_no_tags_at_b<R: Abort + AllocGlobal>(rt: &R, metadata: &Metadata) -> Result<(), Fail> {
    assert!(rt; twice!(rt.alloc(); has_tags_at(metadata, b"b", &[]), OutOfMemory)?);
    let change = change(rt.alloc(), MutationLine::Clear(b"a", b"c"))?;
    assert!(rt; twice!(rt.alloc(); has_tags(metadata, &change, &[TAG_1]), OutOfMemory)?);
    Ok(())
}

/// The value at `b` is applied, and gives no tags.
fn gives_no_tags<R: Abort + AllocGlobal>(rt: &R, metadata: &mut Metadata) -> Result<(), Fail> {
    apply_all(rt, metadata, UNDECODED_AT_B)?;
    has_no_tags_at_b(rt, metadata)
}

#[test]
fn a_value_that_does_not_decode_gives_no_tags(rt: HostRuntime) -> Result<(), Fail> {
    let mut metadata = Metadata::new(rt.alloc());
    gives_no_tags(&rt, &mut metadata)
}

// ---- private copies

/// A key and a value, and the tag of the private copy of their Set, if it has one.
type SetWithCopy = (&'static [u8], &'static [u8], Option<Tag>);

/// Sets after that of the tag of server 1 alone.
const SETS: &[SetWithCopy] = &[
    (TAG_ROW_1, b"\x00\x00\x02", Some(TAG_2)),
    (b"\xff/serverKeys/server0000000001/m", b"1", Some(TAG_1)),
    (b"\xff/serverKeys/server0000000002/m", b"1", None),
    (b"a", b"1", None),
];

/// Whether the Set has a private copy with the tag, or none without one.
fn has_copy(metadata: &Metadata, change: &Change, set: SetWithCopy) -> Result<bool, OutOfMemory> {
    let (key, value, tag) = set;
    match metadata.private_of(change)? {
        Some(copy) => {
            let [255, rest @ ..] = copy.key.as_slice() else {
                return Ok(false);
            };
            Ok(rest == key && copy.value.as_slice() == value && Some(copy.tag) == tag)
        }
        None => Ok(tag.is_none()),
    }
}

fn gives_copies<R: Abort + AllocGlobal>(rt: &R, metadata: &mut Metadata) -> Result<(), Fail> {
    apply_step(rt, metadata, MutationLine::Set(TAG_ROW_1, b"\x00\x00\x01"))?;
    for set in SETS {
        let change = change(rt.alloc(), MutationLine::Set(set.0, set.1))?;
        assert!(rt; twice!(rt.alloc(); has_copy(metadata, &change, *set), OutOfMemory)?);
    }
    let cleared = change(rt.alloc(), MutationLine::Clear(TAG_ROW_1, TAG_ROW_2))?;
    assert!(rt; twice!(rt.alloc(); metadata.private_of(&cleared), OutOfMemory)?.is_none());
    Ok(())
}

#[test]
fn sets_that_concern_a_server_have_a_private_copy(rt: HostRuntime) -> Result<(), Fail> {
    let mut metadata = Metadata::new(rt.alloc());
    gives_copies(&rt, &mut metadata)
}

// ---- rows

const BOTH: &[Verdict] = &[COMMITTED, COMMITTED];

/// Rows in order, each with entries after it.
const ROWS: &[(&[StateLine<'static>], Entries)] = &[
    // what one resolver did not commit is not applied
    (
        &[
            (
                &[COMMITTED, Verdict::Conflict],
                (&[MutationLine::Set(LOCK, b"L")], true),
            ),
            (
                &[Verdict::TooOld, COMMITTED],
                (&[MutationLine::Set(VERSION, b"v")], true),
            ),
        ],
        &[(LOCK, None), (VERSION, None)],
    ),
    // Sets before and after Clears that hold their keys
    (
        &[(
            BOTH,
            (
                &[
                    MutationLine::Set(ROW_OF_Q, SERVER_1),
                    MutationLine::Set(ROW_OF_ALL, SERVER_1),
                    MutationLine::Clear(ROW_OF_B, b"\xff/keyServers/r"),
                    MutationLine::Set(ROW_OF_B, SERVER_2),
                    MutationLine::Set(LOCK, b"L"),
                    MutationLine::Clear(LOCK, ROW_OF_ALL),
                    MutationLine::Set(VERSION, b"1"),
                    MutationLine::Set(VERSION, b"2"),
                ],
                true,
            ),
        )],
        &[
            (ROW_OF_ALL, Some(SERVER_1)),
            (ROW_OF_B, Some(SERVER_2)),
            (ROW_OF_Q, None),
            (LOCK, None),
            (VERSION, Some(b"2")),
        ],
    ),
    // a lock, and what is not lock aware after it in its row
    (
        &[
            (BOTH, (&[MutationLine::Set(LOCK, b"L")], true)),
            (BOTH, (&[MutationLine::Set(ROW_OF_Q, SERVER_1)], false)),
        ],
        &[(LOCK, Some(b"L")), (ROW_OF_Q, Some(SERVER_1))],
    ),
    // under a lock what is lock aware alone is applied
    (
        &[
            (BOTH, (&[MutationLine::Set(VERSION, b"v")], false)),
            (
                BOTH,
                (&[MutationLine::Set(TAG_ROW_1, b"\x00\x00\x01")], true),
            ),
        ],
        &[(VERSION, Some(b"2")), (TAG_ROW_1, Some(b"\x00\x00\x01"))],
    ),
];

/// Applies the row of these state transactions.
fn apply_states<R: Abort + AllocGlobal>(
    rt: &R,
    metadata: &mut Metadata,
    states: &[StateLine<'_>],
) -> Result<(), Fail> {
    let row = journal_row(rt.alloc(), 10, states)?;
    apply(rt, metadata, &row)?;
    Ok(())
}

fn pass_rows<R: Abort + AllocGlobal>(rt: &R, metadata: &mut Metadata) -> Result<(), Fail> {
    for (place, (states, entries)) in ROWS.iter().enumerate() {
        apply_states(rt, metadata, *states)?;
        assert!(rt;
            has_entries(metadata, *entries),
            "the entries after row {place}"
        );
    }
    Ok(())
}

/// Rows that give a server all keys, its tag, `m` to it and to another server, and that one's tag; and
/// the tags that are kept after each.
const TAGS_AFTER_KEYS: &[(MutationLine<'static>, Cached)] = &[
    (MutationLine::Set(ROW_OF_ALL, SERVER_1), &[Some(&[]), None]),
    (
        MutationLine::Set(TAG_ROW_1, b"\x00\x00\x01"),
        &[Some(&[TAG_1]), None],
    ),
    (
        MutationLine::Set(
            b"\xff/keyServers/m",
            b"\x01server0000000001\x01server0000000002",
        ),
        &[Some(&[TAG_1]), Some(&[TAG_1]), None],
    ),
    (
        MutationLine::Set(TAG_ROW_2, b"\x00\x00\x00"),
        &[Some(&[TAG_1]), Some(&[TAG_0, TAG_1]), None],
    ),
    // a server that is gone and comes again, so that both are listed in the other order
    (
        MutationLine::Clear(TAG_ROW_1, TAG_ROW_2),
        &[Some(&[]), Some(&[TAG_0]), None],
    ),
    (
        MutationLine::Set(TAG_ROW_1, b"\x00\x00\x02"),
        &[Some(&[TAG_2]), Some(&[TAG_0, TAG_2]), None],
    ),
    (
        MutationLine::Clear(b"\xff/serverTag/", b"\xff/serverTag0"),
        &[Some(&[]), Some(&[]), None],
    ),
];

fn pass_tags_after_keys<R: Abort + AllocGlobal>(
    rt: &R,
    metadata: &mut Metadata,
) -> Result<(), Fail> {
    for (place, (step, cached)) in TAGS_AFTER_KEYS.iter().enumerate() {
        apply_states(rt, metadata, &[(&[COMMITTED], (&[*step], false))])?;
        assert!(rt;
            has_cached(rt, metadata, *cached)?,
            "the tags after row {place}"
        );
    }
    Ok(())
}

#[test]
fn tags_that_are_set_after_their_rows_are_kept_beside_them(rt: HostRuntime) -> Result<(), Fail> {
    let mut metadata = Metadata::new(rt.alloc());
    pass_tags_after_keys(&rt, &mut metadata)
}

#[test]
fn rows_are_applied_by_their_verdicts_and_the_lock(rt: HostRuntime) -> Result<(), Fail> {
    let mut metadata = Metadata::new(rt.alloc());
    pass_rows(&rt, &mut metadata)
}
