//! The devices of a run: a source with one read call, a sink with one write call, and counts of
//! failed calls.
ghost use Rattle.std.specs.Prelude.{◌≡◌, ◌⊎◌, ◌+◌, ◌-◌, ◌^◌, ◌<◌, ◌≤◌, length, ℕ, List, [], Option};
ghost use Rattle.std.specs.Prelude.{IfOk, IfSome};
ghost use Rattle.std.specs.Prelude.{IsErrOf, OnErr, OnOk};
ghost use Rattle.std.specs.Io.{ReadsAtMost, WritesAtMost};
ghost use Rattle.std.specs.Io.KnownBytes.{Appends, IsAtEnd, ReadConsumes, WriteAppends};
ghost use Rattle.scripts.specs.Devices.{AppendsBeginning, IsIncremented, input_limit};
ghost use Rattle.scripts.specs.Devices.{saturating_add, read_limit};
ghost use Rattle.scripts.specs.declared.devices.ReadFault.TheVariants as faults;

use std::alloc::{AllocError, Global};
use std::io::{Read, Write};

/// A call of a device failed, for any reason.
#[derive(Clone, Copy, Debug, PartialEq, Eq)]
pub struct Failed;

/// A source of bytes. Contracts see the bytes that are left, if the source exposes them.
pub trait Source {
    ghost remaining: { Self → Option (List ℕ) };

    ghost failed: { Self → ℕ };

    ghost reads: { Self → ℕ };

    /// Fills the front of the buffer and returns the number of bytes: 0 only at the end of the
    /// input, or if the buffer is empty.
    fn read(&mut self, buffer: &mut [u8]) -> Result<usize, Failed>
        ensures bound { ReadsAtMost result buffer.new }
        ensures taken { ReadConsumes (remaining self.old) (remaining self.new) result buffer.new }
        ensures no_failure { OnOk result (failed self.new ≡ failed self.old) }
        ensures counted { OnErr result (IsIncremented (failed self.old) (failed self.new)) }
        ensures called { IsIncremented (reads self.old) (reads self.new) };

    /// How many calls have failed.
    fn failures(&self) -> u64
        ensures { result ≡ failed self.now };
}

/// A sink for bytes. Contracts see the bytes that were written, if the sink exposes them.
pub trait Sink {
    ghost written: { Self → Option (List ℕ) };

    ghost failed: { Self → ℕ };

    ghost writes: { Self → ℕ };

    /// Writes a front of the bytes and returns its length. A call that takes none of at least one
    /// byte counts as failed.
    fn write(&mut self, bytes: &[u8]) -> Result<usize, Failed>
        ensures bound { WritesAtMost result bytes.now }
        ensures put { WriteAppends (written self.old) (written self.new) result bytes.now }
        ensures no_failure { IfOk result (λ n.
            (0 < n) ⊎ (bytes.now ≡ []) → failed self.new ≡ failed self.old) }
        ensures none { IfOk result (λ n. n ≡ 0 → 0 < length bytes.now
            → IsIncremented (failed self.old) (failed self.new)) }
        ensures counted { OnErr result (IsIncremented (failed self.old) (failed self.new)) }
        ensures called { IsIncremented (writes self.old) (writes self.new) };

    /// How many calls have failed.
    fn failures(&self) -> u64
        ensures { result ≡ failed self.now };
}

/// A reader of std with a count of its failures.
#[derive(Drop)]
pub struct Reader<R: Read> {
    inner: R,
    failures: u64,
    reads: u64,
}

impl<R: Read> Reader<R> {
    /// The reader before any call.
    pub fn new(inner: R) -> Reader<R>
        ensures bytes { ⟦<Reader<R> as Source>⟧.remaining result ≡ R.remaining inner }
        ensures failed { ⟦<Reader<R> as Source>⟧.failed result ≡ 0 }
        ensures reads { ⟦<Reader<R> as Source>⟧.reads result ≡ 0 }
    {
        Reader {
            inner,
            failures: 0,
            reads: 0,
        }
    }
}

impl<R: Read> Source for Reader<R> {
    ghost remaining = { λ s. R.remaining s.inner };

    ghost failed = { λ s. s.failures };

    ghost reads = { λ s. s.reads };

    fn read(&mut self, buffer: &mut [u8]) -> Result<usize, Failed> {
        self.reads = self.reads.saturating_add(1);
        match self.inner.read(buffer) {
            Ok(count) => Ok(count),
            Err(_) => {
                self.failures = self.failures.saturating_add(1);
                Err(Failed)
            }
        }
    }

    fn failures(&self) -> u64 {
        self.failures
    }
}

/// A writer of std with a count of its failures.
#[derive(Drop)]
pub struct Writer<W: Write> {
    inner: W,
    failures: u64,
    writes: u64,
}

impl<W: Write> Writer<W> {
    /// The writer before any call.
    pub fn new(inner: W) -> Writer<W>
        ensures bytes { ⟦<Writer<W> as Sink>⟧.written result ≡ W.contents inner }
        ensures failed { ⟦<Writer<W> as Sink>⟧.failed result ≡ 0 }
        ensures writes { ⟦<Writer<W> as Sink>⟧.writes result ≡ 0 }
    {
        Writer {
            inner,
            failures: 0,
            writes: 0,
        }
    }
}

impl<W: Write> Sink for Writer<W> {
    ghost written = { λ s. W.contents s.inner };

    ghost failed = { λ s. s.failures };

    ghost writes = { λ s. s.writes };

    fn write(&mut self, bytes: &[u8]) -> Result<usize, Failed> {
        self.writes = self.writes.saturating_add(1);
        match self.inner.write(bytes) {
            Ok(count) => {
                if count == 0 && !bytes.is_empty() {
                    self.failures = self.failures.saturating_add(1);
                }
                Ok(count)
            }
            Err(_) => {
                self.failures = self.failures.saturating_add(1);
                Err(Failed)
            }
        }
    }

    fn failures(&self) -> u64 {
        self.failures
    }
}

/// Why a source could not be read to its end.
#[derive(Clone, Copy, Debug, PartialEq, Eq)]
pub enum ReadFault {
    /// An allocation failed.
    OutOfMemory,
    /// A read failed.
    Device,
    /// The end did not come within the limit on read calls.
    Limit,
}

impl From<AllocError> for ReadFault {
    ghost from_gives = { λ _ e. e ≡ faults.OutOfMemory };

    fn from(_error: AllocError) -> ReadFault {
        ReadFault::OutOfMemory
    }
}

impl From<Failed> for ReadFault {
    ghost from_gives = { λ _ e. e ≡ faults.Device };

    fn from(_failed: Failed) -> ReadFault {
        ReadFault::Device
    }
}

// How many read calls a whole input may take (this project's profile). The call that meets the end
// is one of them.
const READ_LIMIT: u64 = 1_048_576;

// How many bytes one read call asks for (this project's profile). An input without an end is
// refused after `READ_LIMIT` calls, so the two bound the memory that it takes.
const READ_SIZE: usize = 4_096;

/// Reads all bytes of the source, up to its end, and does not call it after that.
///
/// Fails with `Device` if a read failed, with `Limit` if the last call allowed did not meet the
/// end, and with `OutOfMemory` if an allocation fails.
pub fn read_all<S: Source>(alloc: Global, source: &mut S) -> Result<Vec<u8>, ReadFault>
    requires { S.failed source.old < 2 ^ 64 - 1 }
    ensures whole { IfOk result (λ bytes.
        IfSome (S.remaining source.old) (λ input. bytes.items ≡ input)) }
    ensures device { IsErrOf result ReadFault.Device
        → S.failed source.new ≡ S.failed source.old + 1 }
    ensures no_failure { OnOk result (S.failed source.new ≡ S.failed source.old) }
    ensures memory { IsErrOf result ReadFault.OutOfMemory
        → S.failed source.new ≡ S.failed source.old }
    ensures ended { OnOk result (IsAtEnd (S.remaining source.new)) }
    ensures within { S.reads source.new ≤ saturating_add read_limit (S.reads source.old) }
    ensures calls { IfSome (S.remaining source.old) (λ input.
        S.reads source.new ≤ saturating_add (length input + 1) (S.reads source.old)) }
    ensures once { IfOk result (λ bytes.
        S.reads source.new ≤ saturating_add (length bytes.items + 1) (S.reads source.old)) }
    ensures short { IfOk result (λ bytes. length bytes.items ≤ input_limit) }
    ensures limit { IsErrOf result ReadFault.Limit → (S.failed source.new ≡ S.failed source.old)
        × (S.reads source.new ≡ saturating_add read_limit (S.reads source.old)) }
    ensures long { IsErrOf result ReadFault.Limit
        → IfSome (S.remaining source.old) (λ input. read_limit ≤ length input) }
{
    let mut bytes = Vec::new(alloc);
    let mut chunk = [0u8; READ_SIZE];
    for _call in 0..READ_LIMIT {
        let count = source.read(&mut chunk)?;
        if count == 0 {
            return Ok(bytes);
        }
        bytes.extend_from_slice(&chunk[..count])?;
    }
    Err(ReadFault::Limit)
}

/// Writes all bytes, in as many calls as it takes. Each call takes at least one byte or fails, and
/// no call follows one that failed.
pub fn write_all<T: Sink>(sink: &mut T, bytes: &[u8]) -> Result<(), Failed>
    requires { T.failed sink.old < 2 ^ 64 - 1 }
    ensures ok { OnOk result (Appends (T.written sink.old) (T.written sink.new) bytes.now) }
    ensures err { OnErr result
        (AppendsBeginning (T.written sink.old) (T.written sink.new) bytes.now) }
    ensures counted { OnErr result (T.failed sink.new ≡ T.failed sink.old + 1) }
    ensures no_failure { OnOk result (T.failed sink.new ≡ T.failed sink.old) }
    ensures calls { T.writes sink.new ≤ saturating_add (length bytes.now) (T.writes sink.old) }
{
    let mut rest = bytes;
    while !rest.is_empty() {
        let count = sink.write(rest)?;
        if count == 0 {
            return Err(Failed);
        }
        rest = &rest[count..];
    }
    Ok(())
}
