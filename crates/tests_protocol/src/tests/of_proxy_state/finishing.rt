//! Tests of a proxy that begins and finishes records.

use crate::tests::of_proxy_state::tested::{ROW_OF_M, Tested, entries_there, is_seen};
use crate::tests::of_proxy_state::{
    COMMITTED, LOCK, ROW_OF_ALL, SERVER_1, SERVER_2, TAG_1, TAG_ROW_1, TAG_ROW_2, replies_of,
};
use crate::tests::{Copied, copy_of};
use model::Tagged;
use mutation::Batch;
use proxy_state::{Finished, Outcome, Proxy, Refusal, Verdict};
use request_builder::Requests;
use std::alloc::Global;
use std::process::Abort;
use std::test::Fail;
use system_keys::{OutOfMemory, Tag};
use testing::{Content, MutationLine, ReplyLine, content_batch, twice};

// ---- records that are begun

/// Which entries are there, or why there is no metadata.
type Entries = Result<[bool; 4], Refusal>;

/// One call for which entries are there at the version, if it is reached.
pub(crate) fn entries_by_call(proxy: &Proxy, version: u64) -> Entries {
    let metadata = proxy.metadata_at(version)?;
    Ok(entries_there(&metadata))
}

/// Whether those are the entries at the version.
pub(crate) fn has_entries(alloc: Global, proxy: &Proxy, version: u64, entries: Entries) -> bool {
    let found = twice!(alloc; entries_by_call(proxy, version), Refusal::OutOfMemory);
    found == entries
}

/// The metadata at each version is of the rows up to it.
fn has_each_version<R: Abort + AllocGlobal>(rt: &R, proxy: &Proxy, versions: &[(u64, Entries)]) {
    for (version, entries) in versions {
        assert!(rt;
            has_entries(rt.alloc(), proxy, *version, *entries),
            "at {version}"
        );
    }
}

/// What a new proxy has at each version.
const OF_NEW: &[(u64, Entries)] = &[
    (0, Ok([false; 4])),
    (1, Err(Refusal::NotReached { version: 0 })),
];

fn is_new<R: Abort + AllocGlobal>(rt: &R, proxy: &Proxy) {
    assert!(rt; is_seen(proxy, (0, 0, 0, [false; 4])));
    has_each_version(rt, proxy, OF_NEW);
}

#[test]
fn a_new_proxy_has_reached_version_0_alone(rt: HostRuntime) -> Result<(), Fail> {
    let tested = Tested::new(rt.alloc())?;
    is_new(&rt, &tested.proxy);
    Ok(())
}

/// Whether they are two, at version 30, of a proxy that has finished nothing.
fn are_requests_of_row_2(built: &Requests) -> bool {
    for request in built.requests.as_slice() {
        if request.last_received() != 0 || request.version() != 30 {
            return false;
        }
    }
    built.requests.as_slice().len() == 2
}

/// The batch is refused in a record of another proxy, and in one that comes too early.
fn refuses_others<R: Abort + AllocGlobal>(
    rt: &R,
    tested: &mut Tested,
    batch: &Batch,
) -> Result<(), Fail> {
    let other = tested.begin(rt.alloc(), 1, 10, 0, 1, batch)?.err();
    let early = tested.begin(rt.alloc(), 2, 20, 20, 0, batch)?.err();
    assert!(rt; other == Some(Refusal::NotMine));
    assert!(rt; early == Some(Refusal::OutOfOrder { expected: 10 }));
    Ok(())
}

/// The batch is begun in row 2.
fn begins_row_2<R: Abort + AllocGlobal>(
    rt: &R,
    tested: &mut Tested,
    batch: &Batch,
) -> Result<(), Fail> {
    let built = tested.begin(rt.alloc(), 2, 20, 10, 0, batch)??;
    assert!(rt; are_requests_of_row_2(&built));
    Ok(())
}

/// The batch is begun in the proxy's own next record alone.
fn begins_next_alone<R: Abort + AllocGlobal>(
    rt: &R,
    tested: &mut Tested,
    batch: &Batch,
) -> Result<(), Fail> {
    refuses_others(rt, tested, batch)?;
    assert!(rt; tested.proxy.last_begun() == 10 && tested.proxy.version() == 0);
    begins_row_2(rt, tested, batch)?;
    assert!(rt; tested.proxy.last_begun() == 30);
    Ok(())
}

/// Row 0 is begun, and then row 2.
fn begins_its_own_alone<R: Abort + AllocGlobal>(rt: &R, tested: &mut Tested) -> Result<(), Fail> {
    tested.begin_contents(rt.alloc(), 0, 0, 0, &[LOCKS])?;
    let batch = content_batch(rt.alloc(), &[LOCKS])?;
    begins_next_alone(rt, tested, &batch)
}

#[test]
fn a_proxy_begins_its_own_next_record_alone(rt: HostRuntime) -> Result<(), Fail> {
    let mut tested = Tested::new(rt.alloc())?;
    begins_its_own_alone(&rt, &mut tested)
}

// ---- records that are finished

const LOCKS: Content<'static> = (&[MutationLine::Set(LOCK, b"L")], true);

/// Server 1 has the keys up to `m`, and server 2 the others.
const SPLIT: Content<'static> = (
    &[
        MutationLine::Set(TAG_ROW_1, b"\x00\x00\x01"),
        MutationLine::Set(TAG_ROW_2, b"\x00\x00\x02"),
        MutationLine::Set(ROW_OF_ALL, SERVER_1),
        MutationLine::Set(ROW_OF_M, SERVER_2),
    ],
    true,
);

const TAG_2: Tag = Tag { locality: 0, id: 2 };

/// The row at `m` goes.
const JOINED: Content<'static> = (&[MutationLine::Clear(ROW_OF_M, b"\xff/keyServers/n")], true);

/// The tag of server 2 goes, and a key after `m` is written.
const WITHOUT_TAG_2: Content<'static> = (
    &[
        MutationLine::Clear(TAG_ROW_2, b"\xff/serverTag/server0000000003"),
        MutationLine::Set(b"z", b"1"),
    ],
    true,
);

pub(crate) const TO_ROW_0: ReplyLine<'static> = ReplyLine {
    resolver: 0,
    proxy: 0,
    row: 0,
    version: 10,
    verdicts: &[COMMITTED],
    unseen: &[],
};

/// The reply to row 2, which tells row 1, of another proxy.
const TO_ROW_2: ReplyLine<'static> = ReplyLine {
    row: 2,
    version: 30,
    verdicts: &[COMMITTED, COMMITTED],
    unseen: &[(20, &[(COMMITTED, JOINED)])],
    ..TO_ROW_0
};

pub(crate) const REPLIES_TO_ROW_0: &[ReplyLine<'static>] = &[
    TO_ROW_0,
    ReplyLine {
        resolver: 1,
        ..TO_ROW_0
    },
];

/// Resolver 1 does not commit the second transaction.
const REPLIES_TO_ROW_2: &[ReplyLine<'static>] = &[
    TO_ROW_2,
    ReplyLine {
        resolver: 1,
        verdicts: &[COMMITTED, Verdict::Conflict],
        ..TO_ROW_2
    },
];

/// Finishes the earliest record by these replies, of which that of resolver 0 has the content.
fn finished<R: Abort + AllocGlobal>(
    rt: &R,
    tested: &mut Tested,
    lines: &[ReplyLine<'_>],
) -> Result<Finished, Fail> {
    let replies = replies_of(rt.alloc(), &[0], lines)?;
    match tested.finish(rt, replies) {
        Ok(finished) => Ok(finished),
        Err((refusal, _)) => Err(Fail::from(refusal)),
    }
}

/// Finishes the earliest record by these replies.
pub(crate) fn finishes<R: Abort + AllocGlobal>(
    rt: &R,
    tested: &mut Tested,
    lines: &[ReplyLine<'_>],
) -> Result<(), Fail> {
    let _ = finished(rt, tested, lines)?;
    Ok(())
}

/// Whether the batch of row 2 committed its first transaction alone, with tag 1 at both mutations.
fn is_row_2(finished: &Finished) -> bool {
    let committed = Outcome::Committed {
        version: 30,
        number: 0,
    };
    for tagged in finished.tagged.as_slice() {
        if tagged.tags.as_slice() != [TAG_1].as_slice() {
            return false;
        }
    }
    finished.tagged.as_slice().len() == 2
        && finished.outcomes.as_slice() == [committed, Outcome::Conflict].as_slice()
}

/// Whether the mutation has a private copy with the tag.
fn is_copied(tagged: &Tagged, tag: Tag) -> bool {
    match &tagged.private {
        Some(copy) => copy.tag == tag,
        None => false,
    }
}

/// Whether the Sets of serverTag rows of row 0 have private copies with the tags that they set, and no
/// other Set has one.
fn is_row_0(finished: &Finished) -> bool {
    let [first, second, third, last] = finished.tagged.as_slice() else {
        return false;
    };
    is_copied(first, TAG_1)
        && is_copied(second, TAG_2)
        && third.private.is_none()
        && last.private.is_none()
}

impl Copied for Proxy {
    fn copied(&self) -> Result<Proxy, OutOfMemory> {
        self.copy()
    }
}

fn finishes_row_0<R: Abort + AllocGlobal>(rt: &R, tested: &mut Tested) -> Result<(), Fail> {
    let finished = finished(rt, tested, REPLIES_TO_ROW_0)?;
    assert!(rt; is_row_0(&finished));
    Ok(())
}

fn finishes_row_2<R: Abort + AllocGlobal>(rt: &R, tested: &mut Tested) -> Result<(), Fail> {
    let finished = finished(rt, tested, REPLIES_TO_ROW_2)?;
    assert!(rt; is_row_2(&finished));
    Ok(())
}

/// Row 2 is finished, and a copy of the proxy stays as it was.
fn finishes_alone<R: Abort + AllocGlobal>(
    rt: &R,
    tested: &mut Tested,
    copy: &Proxy,
) -> Result<(), Fail> {
    finishes_row_2(rt, tested)?;
    assert!(rt; is_seen(&tested.proxy, (30, 30, 3, [true, false, true, false])));
    assert!(rt; is_seen(copy, (30, 10, 1, [true; 4])));
    has_each_version(rt, &tested.proxy, AFTER_BOTH);
    Ok(())
}

/// What the proxy then has at each version.
const AFTER_BOTH: &[(u64, Entries)] = &[
    (0, Ok([false; 4])),
    (9, Ok([false; 4])),
    (10, Ok([true; 4])),
    (20, Ok([true, true, true, false])),
    (30, Ok([true, false, true, false])),
    (31, Err(Refusal::NotReached { version: 30 })),
];

/// Rows 0 and 2 are begun, and finished one after the other.
fn finishes_both<R: Abort + AllocGlobal>(rt: &R, tested: &mut Tested) -> Result<(), Fail> {
    tested.begin_contents(rt.alloc(), 0, 0, 0, &[SPLIT])?;
    tested.begin_contents(rt.alloc(), 2, 20, 10, &[WITHOUT_TAG_2, LOCKS])?;
    finishes_row_0(rt, tested)?;
    let copy = copy_of(rt.alloc(), &tested.proxy)?;
    finishes_alone(rt, tested, &copy)
}

#[test]
fn a_proxy_learns_the_rows_of_others(rt: HostRuntime) -> Result<(), Fail> {
    let mut tested = Tested::new(rt.alloc())?;
    finishes_both(&rt, &mut tested)
}
