//! The page of a session: what is printed on it goes to the device.
ghost use Rattle.std.specs.Prelude.{◌≡◌, ◌++◌, [], ℕ, List, false, if◌then◌else◌};
ghost use Rattle.std.specs.Prelude.{OnErr, OnOk};
ghost use Rattle.sessions.specs.Feeds.{AnswersBytes};
ghost use Rattle.sessions.specs.Lines.{line_end};
ghost use Rattle.sessions.specs.Outboxes.{Beginning as TheBeginning, HasSent};
ghost use Rattle.sessions.specs.Pending.{Holds};

use crate::answering::Answering;
use crate::device::{Device, Failed, write_all};
use crate::feed::feed;
use crate::pending::Pending;
use pages::Page;
use std::alloc::Global;

// So many bytes of answers are kept at most, besides one piece of a text.
const KEPT_LIMIT: usize = 65_536;

/// A device, and what of the answers is not yet written to it. Once a write has failed, no more is
/// written.
struct Outbox<'a, T: Device> {
    device: &'a mut T,
    kept: Vec<u8>,
    has_failed: bool,
}

impl<T: Device> Outbox<'_, T> {
    /// Writes what is kept and then the text, unless a write has failed.
    fn send(&mut self, text: &[u8])
        ensures sent { (beginning : TheBeginning T.Name T.Failures) (printed : List ℕ)
            → HasSent T.write_fails self.old.device.ghost_name (T.view self.old.device.now)
            (T.failures self.old.device.now) self.old.kept.items self.old.has_failed beginning printed
            → HasSent T.write_fails self.new.device.ghost_name (T.view self.new.device.now)
            (T.failures self.new.device.now) self.new.kept.items self.new.has_failed beginning
            (printed ++ text.now) }
        ensures none_kept { self.new.has_failed ≡ false → self.new.kept.items ≡ [] }
    {
        if self.has_failed {
            return;
        }
        match write_all(self.device, self.kept.as_slice()) {
            Ok(()) => {}
            Err(Failed) => {
                self.has_failed = true;
                return;
            }
        }
        match write_all(self.device, text) {
            Ok(()) => {}
            Err(Failed) => {
                self.has_failed = true;
                return;
            }
        }
        self.kept.clear();
    }
}

impl<T: Device> Page for Outbox<'_, T> {
    ghost Beginning = { TheBeginning T.Name T.Failures };

    ghost has_printed = { λ outbox beginning printed. HasSent T.write_fails
        outbox.device.ghost_name (T.view outbox.device.now) (T.failures outbox.device.now)
        outbox.kept.items outbox.has_failed beginning printed };

    fn push(&mut self, text: &str) {
        if self.has_failed {
            return;
        }
        let bytes = text.as_bytes();
        if keep_text(&mut self.kept, bytes) {
            return;
        }
        self.send(bytes);
    }
}

// Keeps a piece of a text after what is kept, if there is room for it.
fn keep_text(kept: &mut Vec<u8>, text: &[u8]) -> bool
    ensures { kept.new.items ≡ (if result then kept.old.items ++ text.now else kept.old.items) }
{
    if kept.len() >= KEPT_LIMIT {
        return false;
    }
    match kept.extend_from_slice(text) {
        Ok(()) => true,
        Err(_) => false,
    }
}

/// Answers each line that these bytes end, keeps the open one, and writes the answers.
pub(crate) fn answer_bytes<A: Answering, T: Device>(
    alloc: Global,
    answering: &mut A,
    device: &mut T,
    pending: &mut Pending,
    bytes: &[u8],
) -> Result<(), Failed>
    ensures feeds { (open_line : List ℕ) → Holds pending.old open_line → AnswersBytes A.rules
        (A.state answering.old) (A.state answering.new)
        (T.view device.old) (T.view device.new) open_line bytes.now pending.new result }
    ensures unfailed { OnOk result (T.failures device.new ≡ T.failures device.old) }
    ensures failed { OnErr result (T.write_fails (T.failures device.old) (T.failures device.new)) }
{
    let mut outbox = Outbox {
        device,
        kept: Vec::new(alloc),
        has_failed: false,
    };
    feed(alloc, answering, &mut outbox, pending, bytes);
    outbox.send(b"");
    let Outbox {
        device,
        kept: _,
        has_failed,
    } = outbox;
    let _ = &*device;
    if has_failed {
        return Err(Failed);
    }
    Ok(())
}

/// Answers the line that the end of the input left open, if there is one.
pub(crate) fn answer_open_line<A: Answering, T: Device>(
    alloc: Global,
    answering: &mut A,
    device: &mut T,
    pending: &mut Pending,
) -> Result<(), Failed>
    ensures feeds { (open_line : List ℕ) → Holds pending.old open_line → AnswersBytes A.rules
        (A.state answering.old) (A.state answering.new)
        (T.view device.old) (T.view device.new) open_line (line_end open_line) pending.new result }
    ensures unfailed { OnOk result (T.failures device.new ≡ T.failures device.old) }
    ensures failed { OnErr result (T.write_fails (T.failures device.old) (T.failures device.new)) }
{
    if pending.is_empty() {
        return Ok(());
    }
    answer_bytes(alloc, answering, device, pending, b"\n")
}
