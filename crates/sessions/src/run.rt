//! A session over a device.
ghost use Rattle.std.specs.Prelude.{◌≡◌, [], IfSome, Some};
ghost use Rattle.sessions.specs.Sessions.{AnswersWhole, IsAnsweredAtReads, IsSession};
ghost use Rattle.sessions.specs.Sessions.{LeavesFailures};

use crate::answering::Answering;
use crate::device::{Device, Failed};
use crate::outbox::{answer_bytes, answer_open_line};
use crate::pending::Pending;
use crate::status::SessionStatus;
use std::alloc::Global;

// How many bytes one read call asks for.
const READ_SIZE: usize = 4_096;

/// Reads lines to the end of the input, and answers each before it reads on. If a write fails, the lines
/// that had come whole are still carried out, each unless it lacks memory.
#[tactic(auto, using(crate::proofs::Corollaries::whole_session))]
pub fn answer_lines<A: Answering, T: Device>(
    alloc: Global,
    answering: &mut A,
    device: &mut T,
) -> SessionStatus
    ensures session { IsSession A.rules (A.state answering.old) (A.state answering.new)
        (T.view device.old) (T.view device.new) result }
    ensures whole { AnswersWhole A.rules (A.state answering.old) (A.state answering.new)
        (T.view device.old) (T.view device.new) result }
    ensures at_reads { IfSome (T.view device.new).history (λ history.
        (T.view device.old).history ≡ Some [] → IsAnsweredAtReads A.rules
        (A.state answering.old) history) }
    ensures failures { LeavesFailures T.read_fails T.write_fails
        (T.failures device.old) (T.failures device.new) result }
{
    answer_until_end(alloc, answering, device)
}

fn answer_until_end<A: Answering, T: Device>(
    alloc: Global,
    answering: &mut A,
    device: &mut T,
) -> SessionStatus
    ensures session { IsSession A.rules (A.state answering.old) (A.state answering.new)
        (T.view device.old) (T.view device.new) result }
    ensures failures { LeavesFailures T.read_fails T.write_fails
        (T.failures device.old) (T.failures device.new) result }
{
    let mut pending = Pending::new(alloc);
    let mut chunk = [0u8; READ_SIZE];
    for _call in 0..u64::MAX {
        let count = match device.read(&mut chunk) {
            Ok(count) => count,
            Err(Failed) => return SessionStatus::ReadFailed,
        };
        if count == 0 {
            return match answer_open_line(alloc, answering, device, &mut pending) {
                Ok(()) => SessionStatus::Done,
                Err(Failed) => SessionStatus::WriteFailed,
            };
        }
        match answer_bytes(alloc, answering, device, &mut pending, &chunk[..count]) {
            Ok(()) => {}
            Err(Failed) => return SessionStatus::WriteFailed,
        }
    }
    SessionStatus::Unended
}
