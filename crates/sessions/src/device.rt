//! The device of a session: one call that reads and one that writes, in one history.
ghost use Rattle.std.specs.Prelude.{◌≡◌, ◌<◌, ◌++◌, ◌∷◌, [], length, take, ℕ, List};
ghost use Rattle.std.specs.Prelude.{IfOk, OnErr, OnOk};
ghost use Rattle.std.specs.Io.{ReadsAtMost, WritesAtMost};
ghost use Rattle.sessions.specs.Events.{End, GoesOnBy, Read as ReadEvent, WritesText, View, Wrote};

/// A call of a device failed, for any reason.
#[derive(Clone, Copy, Debug, PartialEq, Eq)]
pub struct Failed;

/// A device that is read and written. Contracts see the bytes that are left, those that were written, and
/// the history of all that was read and written, each of a device that shows it: one in memory can show
/// all three, standard streams none.
pub trait Device {
    /// What identifies the device while it is borrowed.
    ghost Name: { Type 0 };

    ghost view: { Self → View Self.Name };

    /// What the device keeps of failed calls, and what a failed call makes of it.
    ghost Failures: { Type 0 };

    ghost failures: { Self → Self.Failures };

    ghost read_fails: { Self.Failures → Self.Failures → Type 0 };

    ghost write_fails: { Self.Failures → Self.Failures → Type 0 };

    /// Fills the front of the buffer and returns the number of bytes: 0 only at the end of the
    /// input, or if the buffer is empty.
    fn read(&mut self, buffer: &mut [u8]) -> Result<usize, Failed>
        ensures bound { ReadsAtMost result buffer.new }
        ensures came { IfOk result (λ n. 0 < n
            → GoesOnBy (view self.old) (view self.new) (ReadEvent (take n buffer.new) ∷ [])) }
        ensures ended { IfOk result (λ n. n ≡ 0 → 0 < length buffer.new
            → GoesOnBy (view self.old) (view self.new) (End ∷ [])) }
        ensures err { OnErr result (GoesOnBy (view self.old) (view self.new) []) }
        ensures unfailed { OnOk result (failures self.new ≡ failures self.old) }
        ensures failed { OnErr result (read_fails (failures self.old) (failures self.new)) };

    /// Writes a front of the bytes and returns its length. A call that takes none of at least one
    /// byte counts as failed.
    fn write(&mut self, bytes: &[u8]) -> Result<usize, Failed>
        ensures bound { WritesAtMost result bytes.now }
        ensures wrote { IfOk result (λ n.
            GoesOnBy (view self.old) (view self.new) (Wrote (take n bytes.now) ∷ [])) }
        ensures err { OnErr result (GoesOnBy (view self.old) (view self.new) []) }
        ensures unfailed { IfOk result (λ n. 0 < n → failures self.new ≡ failures self.old) }
        ensures none { IfOk result (λ n. n ≡ 0 → 0 < length bytes.now
            → write_fails (failures self.old) (failures self.new)) }
        ensures failed { OnErr result (write_fails (failures self.old) (failures self.new)) };
}

/// Writes all bytes, in as many calls as it takes. Each call takes at least one byte or fails, and
/// no call follows one that failed.
pub fn write_all<T: Device>(device: &mut T, bytes: &[u8]) -> Result<(), Failed>
    ensures ok { OnOk result (WritesText (T.view device.old) (T.view device.new) bytes.now) }
    ensures err { OnErr result ((text : List ℕ) × (unwritten : List ℕ)
        × WritesText (T.view device.old) (T.view device.new) text × (text ++ unwritten ≡ bytes.now)) }
    ensures unfailed { OnOk result (T.failures device.new ≡ T.failures device.old) }
    ensures failed { OnErr result (T.write_fails (T.failures device.old) (T.failures device.new)) }
{
    let mut rest = bytes;
    while !rest.is_empty() {
        let count = device.write(rest)?;
        if count == 0 {
            return Err(Failed);
        }
        rest = &rest[count..];
    }
    Ok(())
}
