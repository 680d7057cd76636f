//! Splitting bytes that have come into lines, and answering each whole line.
ghost use Rattle.std.specs.Prelude.{ℕ, List};
ghost use Rattle.sessions.specs.Feeds.{AnswersLine, Feeds};
ghost use Rattle.sessions.specs.Pending.{Holds};

use crate::answering::Answering;
use crate::pending::Pending;
use pages::Page;
use std::alloc::Global;
use system_keys::OutOfMemory;

const LINE_FEED: u8 = b'\n';

/// Answers a line.
fn answer_line<A: Answering, P: Page>(
    alloc: Global,
    answering: &mut A,
    page: &mut P,
    pending: &Pending,
)
    ensures { (line : List ℕ) → Holds pending.now line → AnswersLine A.rules
        P.has_printed (A.state answering.old) (A.state answering.new) page.old page.new line }
{
    if pending.lost {
        page.push("out of memory\n\n");
        return;
    }
    match answering.answer(alloc, pending.bytes.as_slice(), page) {
        Ok(()) => {}
        Err(OutOfMemory) => page.push("out of memory\n\n"),
    }
}

/// Takes up bytes that have come: answers each line that is whole, and keeps the open one.
pub(crate) fn feed<A: Answering, P: Page>(
    alloc: Global,
    answering: &mut A,
    page: &mut P,
    pending: &mut Pending,
    bytes: &[u8],
)
    ensures { (open_line : List ℕ) → Holds pending.old open_line → Feeds A.rules
        P.has_printed (A.state answering.old) (A.state answering.new) page.old page.new
        open_line bytes.now pending.new }
{
    for byte in bytes {
        if *byte == LINE_FEED {
            answer_line(alloc, answering, page, pending);
            pending.clear();
        } else {
            pending.push(*byte);
        }
    }
}
