//! Tests of state_memory: what a resolver replies, refuses and remembers.

mod kept_verdicts;

use crate::tests::{Copied, are_alike, copy_of, is_copied, request_of_states};
use request_builder::RequestHeader;
use state_memory::{Answer, Refusal, Reply, Request, Resolver, Verdict};
use std::alloc::{AllocError, Global};
use std::process::Abort;
use std::test::Fail;
use system_keys::OutOfMemory;
use testing::{
    Content, Ends, MutationLine, PartLine, ReplyLine, UnseenLine, UnseenRowLine, reply, room, twice,
};

// ---- requests and what they get

/// A request by its numbers: proxy, previous version, version, last received version.
type Line = (usize, u64, u64, u64);

/// The parts of a request, and the numbers of those that are of state transactions.
type Body = (&'static [PartLine<'static>], &'static [usize]);

/// What a request gets.
#[derive(Clone, Copy)]
enum Gets<'a> {
    /// A new reply with these verdicts and unseen rows.
    Judged(&'a [Verdict], &'a [UnseenRowLine<'a>]),
    /// An earlier reply with these verdicts and unseen rows.
    Again(&'a [Verdict], &'a [UnseenRowLine<'a>]),
    /// A refusal.
    Refused(Refusal),
}

/// A request, its body, what it gets, and how many rows are remembered then.
type Turn<'a> = (Line, Body, Gets<'a>, usize);

const EMPTY: Body = (&[], &[]);

const KEY_K: &[Ends<'static>] = &[(b"k", b"k\0")];

/// A state transaction that writes `k`, and one that reads it at snapshot 9.
const WRITES: Body = (&[(0, &[], KEY_K)], &[0]);

const READS_AT_9: Body = (&[(9, KEY_K, &[])], &[0]);

/// The content of the state transactions: one Set of a system key.
const CONTENT: Content<'static> = (&[MutationLine::Set(b"\xff/a", b"x")], true);

/// A state transaction that is told with its verdict.
const TOLD: &[UnseenLine<'static>] = &[(Verdict::Committed, CONTENT)];

const TOLD_CONFLICT: &[UnseenLine<'static>] = &[(Verdict::Conflict, CONTENT)];

const COMMITTED: &[Verdict] = &[Verdict::Committed];

const CONFLICT: &[Verdict] = &[Verdict::Conflict];

fn row_at(version: u64) -> usize {
    (version / 10) as usize
}

/// The request to the resolver of this number. Resolver 0 alone gets the content.
fn request(alloc: Global, number: usize, line: Line, body: Body) -> Result<Request, Fail> {
    let header = RequestHeader {
        resolver: number,
        proxy: line.0,
        row: row_at(line.2),
        previous: line.1,
        version: line.2,
        last_received: line.3,
    };
    request_of_states(alloc, header, body.0, body.1, CONTENT)
}

/// The reply of the resolver of this number.
fn reply_to(
    alloc: Global,
    number: usize,
    line: Line,
    verdicts: &[Verdict],
    unseen: &[UnseenRowLine<'_>],
) -> Result<Reply, Fail> {
    let line = ReplyLine {
        resolver: number,
        proxy: line.0,
        row: row_at(line.2),
        version: line.2,
        verdicts,
        unseen,
    };
    reply(alloc, line)
}

/// The answer of the resolver of this number.
fn answer_to(
    alloc: Global,
    number: usize,
    line: Line,
    gets: Gets<'_>,
) -> Result<Result<Answer, Refusal>, Fail> {
    Ok(match gets {
        Gets::Judged(verdicts, unseen) => {
            Ok(Answer::Judged(reply_to(alloc, number, line, verdicts, unseen)?))
        }
        Gets::Again(verdicts, unseen) => {
            Ok(Answer::Again(reply_to(alloc, number, line, verdicts, unseen)?))
        }
        Gets::Refused(refusal) => Err(refusal),
    })
}

fn is_judged(answer: &Result<Answer, Refusal>) -> bool {
    match answer {
        Ok(Answer::Judged(_)) => true,
        _ => false,
    }
}

/// What one offer of the request is answered.
fn answer_by_call(resolver: &mut Resolver, request: &Request) -> Result<Answer, Refusal> {
    resolver.offer(request)
}

/// What the request is answered, which comes next if it is judged.
fn offered<R: Abort + AllocGlobal>(
    rt: &R,
    resolver: &mut Resolver,
    request: &Request,
) -> Result<Answer, Refusal> {
    let comes_next = resolver.comes_next(request);
    let answer = twice!(rt.alloc(); answer_by_call(resolver, request), Refusal::OutOfMemory);
    assert!(rt;
        comes_next == is_judged(&answer),
        "at version {}",
        request.version()
    );
    answer
}

/// Whether the request is answered like this.
fn is_answered<R: Abort + AllocGlobal>(
    rt: &R,
    resolver: &mut Resolver,
    request: &Request,
    wanted: &Result<Answer, Refusal>,
) -> Result<bool, AllocError> {
    let found = offered(rt, resolver, request);
    are_alike(rt.alloc(), &found, wanted)
}

/// Whether the request gets its answer.
fn is_right<R: Abort + AllocGlobal>(
    rt: &R,
    resolver: &mut Resolver,
    number: usize,
    turn: Turn<'_>,
) -> Result<bool, Fail> {
    let (line, body, gets, remembered) = turn;
    let request = request(rt.alloc(), number, line, body)?;
    let wanted = answer_to(rt.alloc(), number, line, gets)?;
    let is_answered = is_answered(rt, resolver, &request, &wanted)?;
    Ok(is_answered && resolver.remembered() == remembered)
}

/// Each request gets its answer from the resolver of this number.
fn answers<R: Abort + AllocGlobal>(
    rt: &R,
    resolver: &mut Resolver,
    number: usize,
    turns: &[Turn<'_>],
) -> Result<(), Fail> {
    for turn in turns {
        assert!(rt; is_right(rt, resolver, number, *turn)?, "at {:?}", turn.0);
    }
    Ok(())
}

/// One call for a resolver of two proxies, with a window of 100.
fn resolver_by_call(alloc: Global, number: usize) -> Result<Resolver, OutOfMemory> {
    Resolver::new(alloc, number, 2, 100)
}

fn new_resolver(alloc: Global, number: usize) -> Result<Resolver, OutOfMemory> {
    twice!(alloc; resolver_by_call(alloc, number), OutOfMemory)
}

// ---- two proxies

const EARLY_AT_10: Gets<'static> = Gets::Refused(Refusal::Early { version: 10 });

const EARLY_AT_20: Gets<'static> = Gets::Refused(Refusal::Early { version: 20 });

const GIVEN_UP_AT_10: Gets<'static> = Gets::Refused(Refusal::GivenUp { acknowledged: 10 });

const GIVEN_UP_AT_20: Gets<'static> = Gets::Refused(Refusal::GivenUp { acknowledged: 20 });

const GIVEN_UP_AT_40: Gets<'static> = Gets::Refused(Refusal::GivenUp { acknowledged: 40 });

const OUTSIDE: Gets<'static> = Gets::Refused(Refusal::OutsideChain { version: 20 });

const NO_PROXY: Gets<'static> = Gets::Refused(Refusal::NoSuchProxy);

const WRONG_RESOLVER: Gets<'static> = Gets::Refused(Refusal::WrongResolver);

/// A new reply to an empty request, and one that tells of two rows.
const PLAIN: Gets<'static> = Gets::Judged(&[], &[]);

const TELLS_OF_TWO: Gets<'static> = Gets::Judged(&[], &[(10, &[]), (20, &[])]);

/// Requests to a resolver of two proxies, with a window of 100.
const TURNS: &[Turn<'static>] = &[
    ((0, 0, 10, 0), WRITES, Gets::Judged(COMMITTED, &[]), 1),
    ((0, 0, 10, 0), EMPTY, Gets::Again(COMMITTED, &[]), 1),
    ((1, 20, 30, 0), EMPTY, EARLY_AT_10, 1),
    (
        (1, 10, 20, 0),
        READS_AT_9,
        Gets::Judged(CONFLICT, &[(10, TOLD)]),
        1,
    ),
    ((1, 20, 30, 20), EMPTY, PLAIN, 2),
    ((1, 10, 20, 0), EMPTY, GIVEN_UP_AT_20, 2),
    // The proxy is told of the other one's rows since its own last request.
    (
        (0, 30, 40, 0),
        EMPTY,
        Gets::Judged(&[], &[(20, TOLD_CONFLICT), (30, &[])]),
        1,
    ),
    ((0, 0, 10, 0), EMPTY, Gets::Again(COMMITTED, &[]), 1),
    ((0, 40, 50, 40), EMPTY, PLAIN, 2),
    ((0, 0, 10, 0), EMPTY, GIVEN_UP_AT_40, 2),
];

#[test]
fn requests_are_judged_given_again_and_given_up(rt: HostRuntime) -> Result<(), Fail> {
    for number in 0..2 {
        let mut resolver = new_resolver(rt.alloc(), number)?;
        answers(&rt, &mut resolver, number, TURNS)?;
        assert!(rt; resolver.version() == 50);
    }
    Ok(())
}

/// Two empty requests of proxy 0, of which the second acknowledges the first.
const TWO: &[Turn<'static>] = &[
    ((0, 0, 10, 0), EMPTY, PLAIN, 1),
    ((0, 10, 20, 10), EMPTY, PLAIN, 2),
];

/// Resolver 0 that judged those.
fn judged_two<R: Abort + AllocGlobal>(rt: &R) -> Result<Resolver, Fail> {
    let mut resolver = new_resolver(rt.alloc(), 0)?;
    answers(rt, &mut resolver, 0, TWO)?;
    Ok(resolver)
}

/// Requests that no proxy would send, and one whose reply is still kept.
const STRANGERS: &[Turn<'static>] = &[
    ((2, 20, 30, 0), EMPTY, NO_PROXY, 2),
    ((0, 20, 20, 0), EMPTY, OUTSIDE, 2),
    ((0, 20, 30, 21), EMPTY, OUTSIDE, 2),
    ((0, 0, 10, 0), EMPTY, GIVEN_UP_AT_10, 2),
    ((0, 10, 15, 0), EMPTY, OUTSIDE, 2),
    ((1, 0, 10, 0), EMPTY, OUTSIDE, 2),
    ((1, 30, 40, 0), EMPTY, EARLY_AT_20, 2),
    ((1, 15, 30, 0), EMPTY, OUTSIDE, 2),
    ((0, 10, 20, 10), EMPTY, Gets::Again(&[], &[]), 2),
];

/// Requests to another resolver, also of a proxy that is not there.
const TO_ANOTHER: &[Turn<'static>] = &[
    ((2, 20, 30, 0), EMPTY, WRONG_RESOLVER, 2),
    ((1, 20, 30, 0), EMPTY, WRONG_RESOLVER, 2),
];

#[test]
fn strangers_are_refused(rt: HostRuntime) -> Result<(), Fail> {
    let mut resolver = judged_two(&rt)?;
    answers(&rt, &mut resolver, 1, TO_ANOTHER)?;
    answers(&rt, &mut resolver, 0, STRANGERS)?;
    assert!(rt; resolver.version() == 20);
    Ok(())
}

// ---- copies

/// A request of proxy 1 at one version, and at another.
const TO_30: &[Turn<'static>] = &[((1, 20, 30, 0), EMPTY, TELLS_OF_TWO, 1)];

const TO_40: &[Turn<'static>] = &[((1, 20, 40, 0), EMPTY, TELLS_OF_TWO, 1)];

impl Copied for Resolver {
    fn copied(&self) -> Result<Resolver, OutOfMemory> {
        self.copy()
    }
}

/// The resolver reaches version 30, and a copy of it stays at 20 and reaches 40.
fn goes_beside_copy<R: Abort + AllocGlobal>(
    rt: &R,
    resolver: &mut Resolver,
    copy: &mut Resolver,
) -> Result<(), Fail> {
    answers(rt, resolver, 0, TO_30)?;
    assert!(rt; resolver.version() == 30 && copy.version() == 20);
    answers(rt, copy, 0, TO_40)
}

#[test]
fn a_copy_goes_its_own_way(rt: HostRuntime) -> Result<(), Fail> {
    let mut resolver = judged_two(&rt)?;
    let mut copy = copy_of(rt.alloc(), &resolver)?;
    goes_beside_copy(&rt, &mut resolver, &mut copy)
}

impl Copied for Answer {
    fn copied(&self) -> Result<Answer, OutOfMemory> {
        self.copy()
    }
}

#[test]
fn a_copied_answer_tells_the_same(rt: HostRuntime) -> Result<(), Fail> {
    let unseen: &[UnseenRowLine<'_>] = &[(20, TOLD), (30, &[])];
    let reply = reply_to(rt.alloc(), 0, (0, 30, 40, 0), COMMITTED, unseen)?;
    let answer = Answer::Judged(reply);
    assert!(rt; is_copied(rt.alloc(), &answer)?);
    Ok(())
}

// ---- many rows

/// How many requests of one proxy are judged before one of the other.
const MANY: u64 = 100;

/// The rows of these requests, at the versions 10, 20 and so on.
fn many_rows(alloc: Global) -> Result<Vec<UnseenRowLine<'static>>, Fail> {
    let mut rows = room(alloc, MANY as usize)?;
    for row in 0..MANY {
        rows.push((10 * row + 10, TOLD))?;
    }
    Ok(rows)
}

/// A resolver that judged them, and remembers them all.
fn judged_many<R: Abort + AllocGlobal>(rt: &R) -> Result<Resolver, Fail> {
    let mut resolver = new_resolver(rt.alloc(), 0)?;
    for row in 0..MANY {
        let line = (0, 10 * row, 10 * row + 10, 0);
        let turn = (line, WRITES, Gets::Judged(COMMITTED, &[]), row as usize + 1);
        assert!(rt; is_right(rt, &mut resolver, 0, turn)?, "at {row}");
    }
    Ok(resolver)
}

/// The first request is not acknowledged.
const FIRST_AGAIN: &[Turn<'static>] = &[((0, 0, 10, 0), EMPTY, Gets::Again(COMMITTED, &[]), 1)];

#[test]
fn many_rows_are_remembered_for_a_late_proxy(rt: HostRuntime) -> Result<(), Fail> {
    let mut resolver = judged_many(&rt)?;
    let rows = many_rows(rt.alloc())?;
    let late = (1, 10 * MANY, 10 * MANY + 10, 0);
    let turn = (late, EMPTY, Gets::Judged(&[], &rows), 1);
    assert!(rt; is_right(&rt, &mut resolver, 0, turn)?);
    answers(&rt, &mut resolver, 0, FIRST_AGAIN)
}

// ---- refusals

/// Each refusal with the number and the name that are printed.
const PRINTED: &[(Refusal, Option<u32>, &str)] = &[
    (Refusal::WrongResolver, Some(33), "WrongResolver"),
    (Refusal::NoSuchProxy, Some(32), "NoSuchProxy"),
    (
        Refusal::OutsideChain { version: 7 },
        Some(34),
        "OutsideChain",
    ),
    (Refusal::GivenUp { acknowledged: 7 }, Some(31), "GivenUp"),
    (Refusal::Early { version: 7 }, Some(30), "Early"),
    (Refusal::OutOfMemory, None, "OutOfMemory"),
];

#[test]
fn refusals_are_printed_with_numbers_and_names(rt: HostRuntime) {
    for (refusal, number, name) in PRINTED {
        assert!(rt;
            refusal.number() == *number && refusal.name() == *name,
            "{name}"
        );
    }
}
