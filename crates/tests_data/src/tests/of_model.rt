//! Tests of model: a copy is an equal value, and a configuration has its numbers.

use super::assert_copied;
use model::{
    Config, Finished, Move, Outcome, PrivateCopy, Refusal, Route, Routing, StateMark, Tagged,
    Verdict,
};
use std::test::Fail;
use system_keys::Tag;
use testing::{
    Content, MutationLine, ReplyLine, bytes, change, content_of_line, journal_row, one, part,
    range, reply,
};

const TAG: Tag = Tag {
    locality: 3,
    id: 258,
};

/// A Set and a Clear, lock aware.
const CONTENT: Content<'static> = (
    &[
        MutationLine::Set(b"a", b"1"),
        MutationLine::Clear(b"m", b"t"),
    ],
    true,
);

#[test]
fn contents_and_their_marks_are_copied(rt: HostRuntime) -> Result<(), Fail> {
    let carried = content_of_line(rt.alloc(), CONTENT)?;
    assert_copied(&rt, &carried);
    let mark = StateMark {
        number: 1,
        carried: Some(carried),
    };
    assert_copied(&rt, &mark);
    Ok(())
}

/// A reply with a state transaction of an unseen row.
const REPLY: ReplyLine<'static> = ReplyLine {
    resolver: 0,
    proxy: 1,
    row: 2,
    version: 30,
    verdicts: &[Verdict::Committed],
    unseen: &[(10, &[(Verdict::TooOld, CONTENT)])],
};

#[test]
fn replies_and_their_rows_are_copied(rt: HostRuntime) -> Result<(), Fail> {
    let reply = reply(rt.alloc(), REPLY)?;
    assert_copied(&rt, &reply);
    let row = reply.unseen.as_slice().first().expect(&rt, "a row");
    assert_copied(&rt, row);
    let state = row.states.as_slice().first().expect(&rt, "a state");
    assert_copied(&rt, state);
    Ok(())
}

#[test]
fn journal_rows_are_copied(rt: HostRuntime) -> Result<(), Fail> {
    let row = journal_row(rt.alloc(), 10, &[(&[Verdict::Conflict], CONTENT)])?;
    assert_copied(&rt, &row);
    let state = row.states.as_slice().first().expect(&rt, "a state");
    assert_copied(&rt, state);
    Ok(())
}

#[test]
fn parts_are_copied(rt: HostRuntime) -> Result<(), Fail> {
    let part = part(rt.alloc(), 1, (20, &[(b"m", b"t")], &[(b"a", b"b")]))?;
    assert_copied(&rt, &part);
    Ok(())
}

#[test]
fn moves_are_copied(rt: HostRuntime) -> Result<(), Fail> {
    let moved = Move {
        range: range(rt.alloc(), b"m", b"t")?,
        date: 21,
        dest: 1,
    };
    assert_copied(&rt, &moved);
    Ok(())
}

#[test]
fn routings_are_copied(rt: HostRuntime) -> Result<(), Fail> {
    let tags = one(rt.alloc(), TAG)?;
    let value = bytes(rt.alloc(), b"v")?;
    let route = Route {
        key: bytes(rt.alloc(), b"m")?,
        tags,
    };
    assert_copied(&rt, &route);
    let routing = Routing {
        version: 10,
        locked: true,
        metadata_version: Some(value),
        routes: one(rt.alloc(), route)?,
    };
    assert_copied(&rt, &routing);
    Ok(())
}

#[test]
fn finished_batches_are_copied(rt: HostRuntime) -> Result<(), Fail> {
    let tags = one(rt.alloc(), TAG)?;
    let outcomes = one(rt.alloc(), Outcome::Locked)?;
    let private = PrivateCopy {
        key: bytes(rt.alloc(), b"\xffa")?,
        value: bytes(rt.alloc(), b"1")?,
        tag: TAG,
    };
    assert_copied(&rt, &private);
    let tagged = Tagged {
        number: 1,
        place: 2,
        change: change(rt.alloc(), MutationLine::Set(b"a", b"1"))?,
        tags,
        private: Some(private),
    };
    assert_copied(&rt, &tagged);
    let finished = Finished {
        row: 0,
        version: 10,
        outcomes,
        tagged: one(rt.alloc(), tagged)?,
    };
    assert_copied(&rt, &finished);
    Ok(())
}

#[test]
fn outcomes_are_copied(rt: HostRuntime) {
    let outcome = Outcome::Committed {
        version: 10,
        number: 1,
    };
    assert!(rt; outcome.copy() == Ok(outcome));
}

#[test]
fn a_configuration_has_its_numbers_within_their_limits(rt: HostRuntime) -> Result<(), Fail> {
    let config = Config::new(64, 3, 1_000_000_000, 9_223_372_036_854_775_807)?;
    assert!(rt; config.proxies() == 64 && config.resolvers() == 3);
    assert!(rt; config.window() == 1_000_000_000 && config.step() == 9_223_372_036_854_775_807);
    assert!(rt; config.copy() == Ok(config));
    assert!(rt; Config::new(65, 3, 100, 10) == Err(Refusal::BadConfig));
    Ok(())
}
