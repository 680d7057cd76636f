//! Numbers, texts, verdicts and lists from tokens.

ghost use Rattle.std.specs.Prelude.{◌≡◌, IfSome};
ghost use Rattle.scripts.specs.Shapes.{pair_shape};
ghost use Rattle.scripts.specs.Streams.{Takes, TakesEach};

use crate::shaped::NUMBER_LIMIT;
use crate::streams::Streamed;
use model::Verdict;
use script_tokens::Tokens;
use std::alloc::Global;
use system_keys::{Bytes, Items};

impl Streamed for bool {
    fn from_tokens(_alloc: Global, reader: &mut Tokens<'_>, _depth: usize) -> Option<bool> {
        reader.take_bool()
    }
}

impl Streamed for u64 {
    fn from_tokens(_alloc: Global, reader: &mut Tokens<'_>, _depth: usize) -> Option<u64> {
        let number = reader.take_number()?;
        if number <= NUMBER_LIMIT {
            Some(number)
        } else {
            None
        }
    }
}

impl Streamed for usize {
    fn from_tokens(alloc: Global, reader: &mut Tokens<'_>, depth: usize) -> Option<usize> {
        let number = u64::from_tokens(alloc, reader, depth)?;
        Some(number as usize)
    }
}

impl Streamed for Bytes {
    fn from_tokens(alloc: Global, reader: &mut Tokens<'_>, _depth: usize) -> Option<Bytes> {
        reader.take_bytes(alloc)
    }
}

impl Streamed for Verdict {
    fn from_tokens(alloc: Global, reader: &mut Tokens<'_>, _depth: usize) -> Option<Verdict> {
        match reader.take_text(alloc)?.as_str() {
            "conflict" => Some(Verdict::Conflict),
            "too_old" => Some(Verdict::TooOld),
            "committed" => Some(Verdict::Committed),
            _ => None,
        }
    }
}

impl<X: Streamed> Streamed for Items<X> {
    #[tactic(auto, using(crate::proofs::StreamListLemmas::takes_list))]
    fn from_tokens(alloc: Global, reader: &mut Tokens<'_>, depth: usize) -> Option<Items<X>> {
        if depth == 0 || !reader.take_begin_array() {
            return None;
        }
        let items = take_each(alloc, reader, depth - 1)?;
        Some(Items::from(items))
    }
}

// The items of a list up to the bracket that closes it.
fn take_each<X: Streamed>(alloc: Global, reader: &mut Tokens<'_>, depth: usize) -> Option<Vec<X>>
    ensures { IfSome result (λ found. TakesEach X.shape depth reader.old found.items reader.new) }
{
    let mut found = Vec::new(alloc);
    'items: while !reader.take_end_array() {
        let item = X::from_tokens(alloc, reader, depth)?;
        found.push(item).ok()?;
    }
    Some(found)
}

/// What a list of two texts stands for.
#[tactic(auto, using(crate::proofs::StreamListLemmas::takes_pair))]
pub(crate) fn take_pair(
    alloc: Global,
    reader: &mut Tokens<'_>,
    depth: usize,
) -> Option<(Bytes, Bytes)>
    ensures { IfSome result (λ pair. Takes pair_shape depth reader.old pair reader.new) }
{
    if depth == 0 || !reader.take_begin_array() {
        return None;
    }
    let first = Bytes::from_tokens(alloc, reader, depth - 1)?;
    let second = Bytes::from_tokens(alloc, reader, depth - 1)?;
    if reader.take_end_array() {
        Some((first, second))
    } else {
        None
    }
}
