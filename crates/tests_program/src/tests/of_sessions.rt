//! Tests of sessions over a device in memory, whose history says which answers were written before which
//! read: of lines that come in pieces, and of calls and allocations that fail.

use crate::memory_device::{Call, MemoryDevice};
use crate::rehearsal::{rehearse, rehearse_session};
use crate::short_of_memory::ShortOfMemory;
use session_run::SessionStatus;
use std::alloc::{AllocError, Global};
use std::process::Abort;
use std::test::Fail;
use testing::{is_memory_refused, join_texts};

/// A line that begins a cluster, and one that no line feed ends.
const INPUT: &[u8] = b"{\"cluster\":{\"proxies\":1,\"resolvers\":1,\"window\":9,\"step\":1}}
{\"finish\":{\"proxy\":9}}";

/// What comes of it before the cluster is begun, by 40 bytes a read.
const BEGUN: &str = "<{\"cluster\":{\"proxies\":1,\"resolvers\":1,\"w\
    <indow\":9,\"step\":1}}\n{\"finish\":{\"proxy\":9";

/// Three lines that each begin a cluster.
const CLUSTERS: &[u8] = b"{\"cluster\":{\"proxies\":1,\"resolvers\":1,\"window\":9,\"step\":1}}
{\"cluster\":{\"proxies\":1,\"resolvers\":2,\"window\":9,\"step\":1}}
{\"cluster\":{\"proxies\":2,\"resolvers\":1,\"window\":9,\"step\":1}}
";

/// The calls, each with a sign before it: `<` and what came, `.` at the end of the input, `>` and what
/// was written.
fn shown(alloc: Global, calls: &[Call]) -> Result<String, Fail> {
    let mut text = String::new(alloc);
    for call in calls {
        match call {
            Call::Read(bytes) => {
                text.push_str("<")?;
                text.push_str(&String::from_utf8_lossy(alloc, bytes)?)?;
            }
            Call::Ended => text.push_str(".")?,
            Call::Wrote(bytes) => {
                text.push_str(">")?;
                text.push_str(&String::from_utf8_lossy(alloc, bytes)?)?;
            }
        }
    }
    Ok(text)
}

/// The history, and whether a read and whether a write has failed.
fn assert_calls<R: Abort + AllocGlobal>(
    rt: &R,
    device: &MemoryDevice<'_>,
    beginning: &str,
    others: &str,
    failed: (bool, bool),
) -> Result<(), Fail> {
    let expected = join_texts(rt.alloc(), &[beginning, others])?;
    let text = shown(rt.alloc(), device.calls.as_slice())?;
    assert!(rt; text.as_str() == expected.as_str());
    assert!(rt; (device.has_failed_read, device.has_failed_write) == failed);
    Ok(())
}

#[test]
fn a_line_in_two_pieces_is_answered_when_it_is_whole(rt: HostRuntime) -> Result<(), Fail> {
    let mut device = MemoryDevice::new(rt.alloc(), INPUT);
    device.read_size = 40;
    let status = rehearse_session(rt.alloc(), &mut device);
    if is_memory_refused(rt.alloc()) {
        return Ok(());
    }
    assert!(rt; status == SessionStatus::Done);
    let others = ">cluster\n\n<}}.>refused 32 NoSuchProxy\n\n";
    assert_calls(&rt, &device, BEGUN, others, (false, false))
}

#[test]
fn a_failed_read_ends_a_session_after_its_answers(rt: HostRuntime) -> Result<(), Fail> {
    let mut device = MemoryDevice::new(rt.alloc(), INPUT);
    device.read_size = 40;
    device.failing_read = 3;
    let status = rehearse_session(rt.alloc(), &mut device);
    if is_memory_refused(rt.alloc()) {
        return Ok(());
    }
    assert!(rt; status == SessionStatus::ReadFailed);
    assert_calls(&rt, &device, BEGUN, ">cluster\n\n", (true, false))
}

#[test]
fn a_failed_write_ends_a_session_within_an_answer(rt: HostRuntime) -> Result<(), Fail> {
    let mut device = MemoryDevice::new(rt.alloc(), INPUT);
    device.read_size = 40;
    device.write_size = 4;
    device.failing_write = 2;
    let status = rehearse_session(rt.alloc(), &mut device);
    if is_memory_refused(rt.alloc()) {
        return Ok(());
    }
    assert!(rt; status == SessionStatus::WriteFailed);
    assert_calls(&rt, &device, BEGUN, ">clus", (false, true))
}

#[test]
fn a_line_without_memory_changes_nothing_else(rt: HostRuntime) -> Result<(), Fail> {
    let mut device = MemoryDevice::new(rt.alloc(), b"a\nfull\nb");
    let status = rehearse(rt.alloc(), &mut ShortOfMemory, &mut device);
    if is_memory_refused(rt.alloc()) {
        return Ok(());
    }
    assert!(rt; status == SessionStatus::Done);
    let others = ">ok\nout of memory\n\n.>ok\n";
    assert_calls(&rt, &device, "<a\nfull\nb", others, (false, false))
}

/// What was written.
pub(crate) fn written(alloc: Global, calls: &[Call]) -> Result<Vec<u8>, AllocError> {
    let mut text = Vec::new(alloc);
    for call in calls {
        if let Call::Wrote(bytes) = call {
            text.extend_from_slice(bytes.as_slice())?;
        }
    }
    Ok(text)
}

/// The answers to three lines that begin clusters; the one of this number lacked memory.
fn answers(alloc: Global, lost: usize) -> Result<Vec<u8>, AllocError> {
    let mut text = Vec::new(alloc);
    for line in 0..3 {
        if line == lost {
            text.extend_from_slice(b"out of memory\n\n")?;
        } else {
            text.extend_from_slice(b"cluster\n\n")?;
        }
    }
    Ok(text)
}

/// Whether the text is the answers to three lines that begin clusters, at most one of which lacked
/// memory; or a beginning of them, if the session is not done.
fn are_answers(alloc: Global, text: &[u8], status: SessionStatus) -> Result<bool, AllocError> {
    for lost in 0..4 {
        let whole = answers(alloc, lost)?;
        if text == whole.as_slice() || status != SessionStatus::Done && whole.starts_with(text) {
            return Ok(true);
        }
    }
    Ok(false)
}

#[test]
fn a_line_without_memory_is_told_and_the_session_goes_on(rt: HostRuntime) -> Result<(), Fail> {
    let mut device = MemoryDevice::new(rt.alloc(), CLUSTERS);
    let status = rehearse_session(rt.alloc(), &mut device);
    let is_refused = is_memory_refused(rt.alloc());
    let text = written(rt.alloc(), device.calls.as_slice())?;
    let whole = answers(rt.alloc(), 3)?;
    let is_whole = status == SessionStatus::Done && text.as_slice() == whole.as_slice();
    assert!(rt; is_whole || is_refused && are_answers(rt.alloc(), text.as_slice(), status)?);
    Ok(())
}
