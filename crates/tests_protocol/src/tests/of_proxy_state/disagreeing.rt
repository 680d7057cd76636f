//! Tests of replies that are refused: a proxy that has begun one row is given replies to it.

use crate::tests::of_proxy_state::finishing::{
    REPLIES_TO_ROW_0, TO_ROW_0, entries_by_call, finishes, has_entries,
};
use crate::tests::of_proxy_state::tested::{Tested, is_seen};
use crate::tests::of_proxy_state::{COMMITTED, TAG_ROW_1, replies_of};
use crate::tests::{are_alike, copy_of};
use proxy_state::Refusal;
use std::process::Abort;
use std::test::Fail;
use testing::{Content, MutationLine, ReplyLine, UnseenLine, UnseenRowLine};

/// Gives server 1 its tag.
const TAGS: Content<'static> = (&[MutationLine::Set(TAG_ROW_1, b"\x00\x00\x01")], true);

const ONE: &[UnseenLine<'static>] = &[(COMMITTED, TAGS)];

const TWO: &[UnseenLine<'static>] = &[(COMMITTED, TAGS), (COMMITTED, TAGS)];

const ROW_0: UnseenRowLine<'static> = (10, ONE);

const ROW_1: UnseenRowLine<'static> = (20, ONE);

const ROW_2: UnseenRowLine<'static> = (30, ONE);

/// The rows before row 3.
const ROWS: &[UnseenRowLine<'static>] = &[ROW_0, ROW_1, ROW_2];

const OF_0: ReplyLine<'static> = ReplyLine {
    resolver: 0,
    proxy: 0,
    row: 3,
    version: 40,
    verdicts: &[COMMITTED],
    unseen: ROWS,
};

const OF_1: ReplyLine<'static> = ReplyLine {
    resolver: 1,
    ..OF_0
};

const OF_ANOTHER_VERSION: ReplyLine<'static> = ReplyLine {
    version: 50,
    ..OF_1
};

const WITHOUT_VERDICTS: ReplyLine<'static> = ReplyLine {
    verdicts: &[],
    unseen: &[],
    ..OF_1
};

const WITH_TWO_VERDICTS: ReplyLine<'static> = ReplyLine {
    verdicts: &[COMMITTED, COMMITTED],
    ..OF_0
};

const MISSING_0: Refusal = Refusal::MissingReply { resolver: 0 };

const MISSING_1: Refusal = Refusal::MissingReply { resolver: 1 };

const AT_10: Refusal = Refusal::RepliesDisagree { version: 10 };

const AT_20: Refusal = Refusal::RepliesDisagree { version: 20 };

const AT_30: Refusal = Refusal::RepliesDisagree { version: 30 };

const AT_40: Refusal = Refusal::RepliesDisagree { version: 40 };

/// Which replies have the content of state transactions, the replies, and why they are refused.
type Wrong = (&'static [usize], &'static [ReplyLine<'static>], Refusal);

const WRONG: &[Wrong] = &[
    // one is missing, is to another record, or has another number of verdicts, which is found before the rows
    (&[0], &[], MISSING_0),
    (&[0], &[OF_1], MISSING_0),
    (&[0], &[WITH_TWO_VERDICTS], MISSING_1),
    (&[0], &[OF_0, ReplyLine { row: 2, ..OF_1 }], AT_40),
    (&[0], &[OF_0, OF_ANOTHER_VERSION], AT_40),
    (&[0], &[ReplyLine { proxy: 1, ..OF_0 }, OF_1], AT_40),
    (&[0], &[OF_0, WITHOUT_VERDICTS], AT_40),
    (&[0], &[WITH_TWO_VERDICTS, OF_1], AT_40),
    // of the rows that one tells some are missing, one too many or others
    (
        &[0],
        &[
            OF_0,
            ReplyLine {
                unseen: &[ROW_1, ROW_2],
                ..OF_1
            },
        ],
        AT_10,
    ),
    (
        &[0],
        &[
            OF_0,
            ReplyLine {
                unseen: &[ROW_0, ROW_2],
                ..OF_1
            },
        ],
        AT_20,
    ),
    (
        &[0],
        &[
            OF_0,
            ReplyLine {
                unseen: &[ROW_0, ROW_1],
                ..OF_1
            },
        ],
        AT_30,
    ),
    (
        &[0],
        &[
            OF_0,
            ReplyLine {
                unseen: &[],
                ..OF_1
            },
        ],
        AT_10,
    ),
    (
        &[0],
        &[
            ReplyLine {
                unseen: &[ROW_0, ROW_1],
                ..OF_0
            },
            ReplyLine {
                unseen: &[ROW_0, ROW_1],
                ..OF_1
            },
        ],
        AT_30,
    ),
    (
        &[0],
        &[
            OF_0,
            ReplyLine {
                unseen: &[ROW_0, ROW_1, ROW_2, (40, ONE)],
                ..OF_1
            },
        ],
        AT_40,
    ),
    (
        &[0],
        &[
            ReplyLine {
                unseen: &[ROW_0, ROW_1, ROW_2, (40, ONE)],
                ..OF_0
            },
            OF_1,
        ],
        AT_40,
    ),
    (
        &[0],
        &[
            OF_0,
            ReplyLine {
                unseen: &[ROW_0, (15, ONE), ROW_2],
                ..OF_1
            },
        ],
        AT_20,
    ),
    (
        &[0],
        &[
            OF_0,
            ReplyLine {
                unseen: &[ROW_0, (20, TWO), ROW_2],
                ..OF_1
            },
        ],
        AT_20,
    ),
    // the content is in no reply, or in both
    (&[], &[OF_0, OF_1], AT_10),
    (&[0, 1], &[OF_0, OF_1], AT_10),
];

/// The replies are refused, and come back as they were. Those of the carriers have the content.
fn refuses<R: Abort + AllocGlobal>(
    rt: &R,
    tested: &mut Tested,
    carriers: &[usize],
    lines: &[ReplyLine<'_>],
    refusal: Refusal,
) -> Result<(), Fail> {
    let replies = replies_of(rt.alloc(), carriers, lines)?;
    let given = copy_of(rt.alloc(), &replies)?;
    let Err((found, back)) = tested.finish(rt, replies) else {
        return Err(Fail::from("the replies are not refused"));
    };
    assert!(rt; found == refusal, "must be refused: {refusal:?}");
    assert!(rt; are_alike(rt.alloc(), &back, &given)?);
    Ok(())
}

fn refuses_wrong<R: Abort + AllocGlobal>(rt: &R, tested: &mut Tested) -> Result<(), Fail> {
    for (carriers, lines, refusal) in WRONG {
        refuses(rt, tested, *carriers, *lines, *refusal)?;
    }
    Ok(())
}

/// Replies are refused before row 3 is begun; then those that are wrong, but not the right ones.
fn finishes_by_right_replies<R: Abort + AllocGlobal>(
    rt: &R,
    tested: &mut Tested,
) -> Result<(), Fail> {
    refuses(rt, tested, &[0], &[], Refusal::OutOfTurn { expected: None })?;
    tested.begin_contents(rt.alloc(), 3, 30, 0, &[TAGS])?;
    refuses_wrong(rt, tested)?;
    assert!(rt; is_seen(&tested.proxy, (40, 0, 0, [false; 4])));
    finishes(rt, tested, &[OF_0, OF_1])?;
    assert!(rt; is_seen(&tested.proxy, (40, 40, 4, [true, false, false, false])));
    Ok(())
}

#[test]
fn replies_that_are_missing_or_disagree_are_refused(rt: HostRuntime) -> Result<(), Fail> {
    let mut tested = Tested::new(rt.alloc())?;
    finishes_by_right_replies(&rt, &mut tested)
}

/// Replies to row 0, of which that of resolver 1 is to another version.
const OF_TWO_VERSIONS: &[ReplyLine<'static>] = &[
    TO_ROW_0,
    ReplyLine {
        resolver: 1,
        version: 20,
        ..TO_ROW_0
    },
];

/// Row 0 is begun, and its version is reached by the right replies alone. The one call for what was
/// before every row succeeds whatever allocation fails.
fn reaches_by_right_replies<R: Abort + AllocGlobal>(
    rt: &R,
    tested: &mut Tested,
) -> Result<(), Fail> {
    tested.begin_contents(rt.alloc(), 0, 0, 0, &[TAGS])?;
    refuses(rt, tested, &[0], OF_TWO_VERSIONS, AT_10)?;
    assert!(rt;
        has_entries(
            rt.alloc(),
            &tested.proxy,
            10,
            Err(Refusal::NotReached { version: 0 })
        )
    );
    finishes(rt, tested, REPLIES_TO_ROW_0)?;
    assert!(rt;
        has_entries(
            rt.alloc(),
            &tested.proxy,
            10,
            Ok([true, false, false, false])
        )
    );
    assert!(rt; entries_by_call(&tested.proxy, 0) == Ok([false; 4]));
    Ok(())
}

#[test]
fn a_version_is_reached_when_its_record_is_finished(rt: HostRuntime) -> Result<(), Fail> {
    let mut tested = Tested::new(rt.alloc())?;
    reaches_by_right_replies(&rt, &mut tested)
}
