//! Judging apart from putting in place: the verdicts are kept by the caller, or they are not.

ghost use Rattle.std.specs.Prelude.{◌≡◌, Ok, IfOk, IfSome};
ghost use Rattle.state_memory.specs.Answers.{AreVerdictsAfterJudged};

use crate::tests::are_alike;
use crate::tests::of_state_memory::{
    Body, COMMITTED, Gets, KEY_K, Line, Turn, answers, judged_two, reply_to, request,
};
use state_memory::{NotJudged, Reply, Request, Resolver, Verdicts};
use std::alloc::Global;
use std::convert::Infallible;
use std::test::Fail;
use system_keys::OutOfMemory;
use testing::{UnseenRowLine, twice};

// ---- callers, proved from the public contracts alone

/// Judges the request and keeps its verdicts, which are those of the reply. None if the request does
/// not come next.
fn judge_and_keep(
    resolver: &mut Resolver,
    request: &Request,
) -> Result<Option<(Reply, Verdicts)>, OutOfMemory>
    ensures { IfOk result (λ judged. IfSome judged (λ made. made.1 ≡ made.0.verdicts)) }
{
    if !resolver.comes_next(request) {
        return Ok(None);
    }
    match resolver.judge_with(request, |verdicts| Ok::<Verdicts, Infallible>(verdicts)) {
        Ok(made) => Ok(Some(made)),
        Err(NotJudged::OutOfMemory(_keep)) => Err(OutOfMemory),
        Err(NotJudged::NotKept(never)) => match never {},
    }
}

/// Judges the request, but does not keep its verdicts: the resolver is unchanged, and the verdicts
/// come back. None if the request does not come next.
fn judge_in_vain(
    resolver: &mut Resolver,
    request: &Request,
) -> Result<Option<Verdicts>, OutOfMemory>
    ensures same { resolver.new ≡ resolver.old }
    ensures verdicts { IfOk result (λ judged. IfSome judged (λ verdicts.
        AreVerdictsAfterJudged resolver.old request.now verdicts)) }
{
    if !resolver.comes_next(request) {
        return Ok(None);
    }
    match resolver.judge_with(request, |verdicts| Err::<Infallible, Verdicts>(verdicts)) {
        Ok((_reply, never)) => match never {},
        Err(NotJudged::OutOfMemory(_keep)) => Err(OutOfMemory),
        Err(NotJudged::NotKept(verdicts)) => Ok(Some(verdicts)),
    }
}

/// Judges the request and keeps its verdicts, which are those of the reply. Where memory is refused,
/// the function that comes back judges it again. None if the request does not come next.
fn judge_with_what_comes_back<F: FnOnce(Verdicts) -> Result<Verdicts, Infallible>>(
    resolver: &mut Resolver,
    request: &Request,
    keep: F,
) -> Result<Option<(Reply, Verdicts)>, OutOfMemory>
    requires { F.IsAlwaysCallable keep }
    ensures { IfOk result (λ judged. IfSome judged (λ made.
        F.post keep made.0.verdicts (Ok made.1))) }
{
    if !resolver.comes_next(request) {
        return Ok(None);
    }
    let back = match resolver.judge_with(request, keep) {
        Ok(made) => return Ok(Some(made)),
        Err(NotJudged::OutOfMemory(back)) => back,
        Err(NotJudged::NotKept(never)) => match never {},
    };
    match resolver.judge_with(request, back) {
        Ok(made) => Ok(Some(made)),
        Err(NotJudged::OutOfMemory(_back)) => Err(OutOfMemory),
        Err(NotJudged::NotKept(never)) => match never {},
    }
}

// ---- the next request

/// A request that comes next at version 20, with a state transaction that reads what it writes.
const NEXT: Line = (1, 20, 30, 0);

const BODY: Body = (&[(20, KEY_K, KEY_K)], &[0]);

/// What its reply tells.
const UNSEEN: &[UnseenRowLine<'static>] = &[(10, &[]), (20, &[])];

const IS_JUDGED: &[Turn<'static>] = &[(NEXT, BODY, Gets::Judged(COMMITTED, UNSEEN), 1)];

const IS_GIVEN_AGAIN: &[Turn<'static>] = &[(NEXT, BODY, Gets::Again(COMMITTED, UNSEEN), 1)];

/// Whether the verdicts of the request come back.
fn gives_back(resolver: &mut Resolver, request: &Request) -> Result<bool, OutOfMemory> {
    match judge_in_vain(resolver, request)? {
        Some(verdicts) => Ok(verdicts.as_slice() == COMMITTED),
        None => Ok(false),
    }
}

/// Whether the verdicts of the next request come back, and the resolver is at version 20 as before.
fn judges_in_vain(resolver: &mut Resolver, alloc: Global) -> Result<bool, Fail> {
    let request = request(alloc, 0, NEXT, BODY)?;
    let is_given_back = twice!(alloc; gives_back(resolver, &request), OutOfMemory)?;
    Ok(is_given_back && resolver.version() == 20)
}

#[test]
fn verdicts_that_are_not_kept_leave_the_resolver(rt: HostRuntime) -> Result<(), Fail> {
    let mut resolver = judged_two(&rt)?;
    assert!(rt; judges_in_vain(&mut resolver, rt.alloc())?);
    answers(&rt, &mut resolver, 0, IS_JUDGED)
}

/// The reply to the request, if the verdicts that are kept beside it are right.
fn judged(resolver: &mut Resolver, request: &Request) -> Result<Option<Reply>, OutOfMemory> {
    match judge_and_keep(resolver, request)? {
        Some((reply, verdicts)) if verdicts.as_slice() == COMMITTED => Ok(Some(reply)),
        _ => Ok(None),
    }
}

/// Whether the reply is the wanted one, and kept.
fn is_kept(alloc: Global, resolver: &Resolver, reply: &Reply) -> Result<bool, Fail> {
    let wanted = reply_to(alloc, 0, NEXT, COMMITTED, UNSEEN)?;
    let Some(kept) = resolver.kept_reply(1, 30) else {
        return Ok(false);
    };
    Ok(are_alike(alloc, reply, &wanted)? && are_alike(alloc, kept, &wanted)?)
}

/// Whether the next request is judged with its reply and verdicts, and the reply is kept.
fn judges_and_keeps(resolver: &mut Resolver, alloc: Global) -> Result<bool, Fail> {
    let request = request(alloc, 0, NEXT, BODY)?;
    match twice!(alloc; judged(resolver, &request), OutOfMemory)? {
        Some(reply) => is_kept(alloc, resolver, &reply),
        None => Ok(false),
    }
}

#[test]
fn a_request_is_judged_if_its_verdicts_are_kept(rt: HostRuntime) -> Result<(), Fail> {
    let mut resolver = judged_two(&rt)?;
    assert!(rt; judges_and_keeps(&mut resolver, rt.alloc())?);
    answers(&rt, &mut resolver, 0, IS_GIVEN_AGAIN)
}

/// Whether the verdicts of the request are kept just once: where memory is refused, the function comes
/// back, and is passed in again.
fn keeps_once(resolver: &mut Resolver, request: &Request) -> Result<bool, OutOfMemory> {
    let mut calls = 0u8;
    let keep = |verdicts: Verdicts| {
        calls = calls.saturating_add(1);
        Ok::<Verdicts, Infallible>(verdicts)
    };
    match judge_with_what_comes_back(resolver, request, keep)? {
        Some((_reply, verdicts)) => Ok(calls == 1 && verdicts.as_slice() == COMMITTED),
        None => Ok(false),
    }
}

#[test]
fn verdicts_are_kept_once_by_the_function_that_comes_back(rt: HostRuntime) -> Result<(), Fail> {
    let mut resolver = judged_two(&rt)?;
    let request = request(rt.alloc(), 0, NEXT, BODY)?;
    assert!(rt; keeps_once(&mut resolver, &request)?);
    answers(&rt, &mut resolver, 0, IS_GIVEN_AGAIN)
}
