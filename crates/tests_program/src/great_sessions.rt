//! Sessions and pages of great size: a session that gives up past some length of a line, and a page past
//! some length of its text, are proved, and only tests at such a length find them; so are answers that are kept
//! without bound, and answers that are not kept.

use crate::memory_device::{Call, MemoryDevice};
use crate::rehearsal::rehearse_session;
use crate::tests::of_sessions::written;
use pages::{Page, TextPage};
use session_run::SessionStatus;
use std::alloc::{AllocError, Global};
use std::test::Fail;

/// This byte so many times.
fn repeated(alloc: Global, byte: u8, times: usize) -> Result<Vec<u8>, AllocError> {
    let mut bytes = Vec::new(alloc);
    for _ in 0..times {
        bytes.push(byte)?;
    }
    Ok(bytes)
}

/// A line that begins a cluster.
const CLUSTER: &[u8] = b"{\"cluster\":{\"proxies\":1,\"resolvers\":1,\"window\":9,\"step\":1}}\n";

#[test]
fn a_line_of_over_a_megabyte_is_answered(rt: HostRuntime) -> Result<(), Fail> {
    let mut input = repeated(rt.alloc(), b' ', 1_100_000)?;
    input.extend_from_slice(CLUSTER)?;
    let mut device = MemoryDevice::new(rt.alloc(), input.as_slice());
    let status = rehearse_session(rt.alloc(), &mut device);
    assert!(rt; status == SessionStatus::Done);
    let text = written(rt.alloc(), device.calls.as_slice())?;
    assert!(rt; text.as_slice() == b"cluster\n\n".as_slice());
    Ok(())
}

/// The lengths of what was written, one for each call.
fn write_lengths(alloc: Global, calls: &[Call]) -> Result<Vec<usize>, AllocError> {
    let mut lengths = Vec::new(alloc);
    for call in calls {
        if let Call::Wrote(bytes) = call {
            lengths.push(bytes.len())?;
        }
    }
    Ok(lengths)
}

// Each empty line has an answer of 20 bytes, printed in two pieces: 19 bytes, and a line feed. So 3,276
// answers and the first piece of the next are kept, which are over 64 kilobytes, and are written; then the next
// piece by itself; and at the end the 819 other answers.
#[test]
fn answers_are_kept_up_to_64_kilobytes(rt: HostRuntime) -> Result<(), Fail> {
    let input = repeated(rt.alloc(), b'\n', 4_096)?;
    let mut device = MemoryDevice::new(rt.alloc(), input.as_slice());
    let status = rehearse_session(rt.alloc(), &mut device);
    assert!(rt; status == SessionStatus::Done);
    let lengths = write_lengths(rt.alloc(), device.calls.as_slice())?;
    assert!(rt; lengths.as_slice() == [65_539, 1, 16_380].as_slice());
    Ok(())
}

#[test]
fn a_page_keeps_a_text_of_over_a_megabyte(rt: HostRuntime) -> Result<(), Fail> {
    let mut page = TextPage::of(String::new(rt.alloc()));
    for _ in 0..110_000 {
        page.push("0123456789");
    }
    let text = page.into_text()?;
    assert!(rt; text.len() == 1_100_000);
    Ok(())
}
