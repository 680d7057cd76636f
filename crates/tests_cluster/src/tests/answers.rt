//! Requests for records, and what resolvers behind locks answer.

use crate::tests::phases::Phase;
use agreed_ledger::Naming;
use locked_cluster::{Refusal, Refused, Request, SharedResolver};
use model::{Reply, Verdict};
use std::sync::Wait;
use testing::twice;

/// A copy of the request for the record of a row, which is begun, to a resolver.
pub(crate) fn request<N: Naming>(
    rows: &[Phase<N>],
    row: usize,
    resolver: usize,
) -> Result<Request<N>, Refusal> {
    let Some(Phase::Begun(begun)) = rows.get(row) else {
        return Err(Refusal::NoSuchProxy);
    };
    match begun.requests().get(resolver) {
        Some(request) => Ok(request.copy()?),
        None => Err(Refusal::WrongResolver),
    }
}

/// What a test compares of a reply: its version, its first verdict, and how many rows it tells.
pub(crate) type Told = (u64, Option<Verdict>, usize);

pub(crate) type Answer = Result<Told, Refusal>;

fn told(reply: &Reply) -> Told {
    let first = reply.verdicts.as_slice().first().copied();
    (reply.version, first, reply.unseen.as_slice().len())
}

/// Waits with the request for its turn.
fn resolved<N: Naming, R: AllocGlobal + Wait>(
    rt: &R,
    resolver: &SharedResolver<'_, N>,
    request: Request<N>,
) -> Answer {
    match resolver.resolve(rt, request) {
        Ok((noted, _shown)) => Ok(told(noted.value())),
        Err(refused) => Err(refused.refusal),
    }
}

/// Brings the request, which does not wait.
fn offered<N: Naming, R: AllocGlobal + Wait>(
    rt: &R,
    resolver: &SharedResolver<'_, N>,
    request: Request<N>,
) -> Answer {
    match resolver.lock(rt).offer(request) {
        Ok(noted) => Ok(told(noted.value())),
        Err(refused) => Err(refused.refusal),
    }
}

/// Brings a copy of the request, which waits its turn or does not.
fn answer_once<N: Naming, R: AllocGlobal + Wait>(
    rt: &R,
    resolver: &SharedResolver<'_, N>,
    waits: bool,
    rows: &[Phase<N>],
    row: usize,
) -> Answer {
    let request = request(rows, row, resolver.number())?;
    if waits {
        resolved(rt, resolver, request)
    } else {
        offered(rt, resolver, request)
    }
}

/// The answer to the request for the record of a row to the resolver of its number, which is brought
/// once more after a failed allocation.
pub(crate) fn answer<N: Naming, R: AllocGlobal + Wait>(
    rt: &R,
    resolver: &SharedResolver<'_, N>,
    waits: bool,
    rows: &[Phase<N>],
    row: usize,
) -> Answer {
    twice!(
        rt.alloc();
        answer_once(rt, resolver, waits, rows, row),
        Refusal::OutOfMemory
    )
}

/// Why a request is refused, and the resolver and the version of the request that comes back.
pub(crate) type Returned = (Refusal, usize, u64);

fn returned<N: Naming>(refused: &Refused<N>) -> Returned {
    let request = &refused.request;
    (refused.refusal, request.resolver(), request.version())
}

/// What comes back of a request that waits its turn or does not, if it is refused.
pub(crate) fn return_of<N: Naming, R: Wait>(
    rt: &R,
    resolver: &SharedResolver<'_, N>,
    waits: bool,
    request: Request<N>,
) -> Option<Returned> {
    if waits {
        let refused = resolver.resolve(rt, request).err()?;
        Some(returned(&refused))
    } else {
        let refused = resolver.lock(rt).offer(request).err()?;
        Some(returned(&refused))
    }
}
