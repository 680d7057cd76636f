//! Tests against values worked out by hand. A tested call that allocates is made again after a failed
//! allocation; a test ends with that error if an allocation for its own data fails. A function whose name ends with
//! `by_call` makes a tested call once, and `twice!` calls that function: so the check reads the contract of
//! the tested call once, and not at each of the two calls.
//!
//! Random events are carried out by the built program, in `tests/scripts`.

mod late_states;
mod of_dated_owners;
mod of_metadata;
mod of_proxy_state;
mod of_refusals;
mod of_request_builder;
mod of_share_judge;
mod of_state_memory;
mod of_turn_world;

use model::Part;
use request_builder::{Request, RequestHeader, Share, StateMark};
use std::alloc::{AllocError, Global};
use std::fmt::Debug;
use std::test::Fail;
use system_keys::{Items, OutOfMemory};
use testing::{Content, PartLine, content_if_wanted, parts, room, twice};

/// Whether the two are printed as one text, with all that they hold.
pub(crate) fn are_alike<T: Debug>(alloc: Global, one: &T, other: &T) -> Result<bool, AllocError> {
    let one = format!(in alloc; "{one:?}")?;
    let other = format!(in alloc; "{other:?}")?;
    Ok(one.as_str() == other.as_str())
}

/// A type whose values are copied by a call that allocates.
pub(crate) trait Copied: Drop {
    /// The copy, by one call.
    fn copied(&self) -> Result<Self, OutOfMemory>;
}

/// The copy, which is made again after a failed allocation.
pub(crate) fn copy_of<T: Copied>(alloc: Global, original: &T) -> Result<T, OutOfMemory> {
    twice!(alloc; original.copied(), OutOfMemory)
}

/// Whether a copy holds the same.
pub(crate) fn is_copied<T: Copied + Debug>(
    alloc: Global,
    original: &T,
) -> Result<bool, OutOfMemory> {
    let copy = copy_of(alloc, original)?;
    Ok(are_alike(alloc, original, &copy)?)
}

/// Marks of state transactions with these numbers, with this content or without.
pub(crate) fn marks(
    alloc: Global,
    numbers: &[usize],
    has_content: bool,
    content: Content<'_>,
) -> Result<Items<StateMark>, Fail> {
    let mut marks = room(alloc, numbers.len())?;
    for number in numbers {
        let (number, carried) = (*number, content_if_wanted(alloc, has_content, content)?);
        marks.push(StateMark { number, carried })?;
    }
    Ok(Items::from(marks))
}

/// The request of these parts and marks, which keeps its rule.
pub(crate) fn made(
    header: RequestHeader,
    parts: Items<Part>,
    marks: Items<StateMark>,
) -> Result<Request, Fail> {
    match Request::new(header, Share::new(parts), marks) {
        Some(request) => Ok(request),
        None => Err(Fail::from("no request")),
    }
}

/// The request of parts that are numbered from 0, of which these are of state transactions with this
/// content. Resolver 0 alone gets the content.
pub(crate) fn request_of_states(
    alloc: Global,
    header: RequestHeader,
    lines: &[PartLine<'_>],
    states: &[usize],
    content: Content<'_>,
) -> Result<Request, Fail> {
    let parts = parts(alloc, lines)?;
    let marks = marks(alloc, states, header.resolver == 0, content)?;
    made(header, parts, marks)
}
