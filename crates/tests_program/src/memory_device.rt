//! A device in memory that keeps the history of its calls.

ghost use Rattle.std.specs.Prelude.{◌≡◌, ◌∷◌, [], Bool, IfOk, OnErr, OnOk, Some, true};
ghost use Rattle.sessions.specs.Events.{bytes_written};
ghost use Rattle.tests_program.specs.Rehearsals.{ReadHasFailed, WriteHasFailed, event_of, history_of};

use sessions::{Device, Failed};
use std::alloc::Global;

/// A call that returned.
#[derive(Debug, Drop, PartialEq, Eq)]
pub enum Call {
    /// A read: these bytes came.
    Read(Vec<u8>),
    /// A read at the end of the input.
    Ended,
    /// A write: these bytes were taken.
    Wrote(Vec<u8>),
}

/// A device in memory.
#[derive(Drop)]
pub struct MemoryDevice<'a> {
    /// What calls are kept in.
    pub alloc: Global,
    /// What is left to read.
    pub rest: &'a [u8],
    /// How many bytes a read brings at most.
    pub read_size: usize,
    /// How many bytes a write takes at most.
    pub write_size: usize,
    /// Which read fails, of those to come; 0 if none. A call for which an allocation fails, fails too.
    pub failing_read: u64,
    /// Which write fails.
    pub failing_write: u64,
    /// Whether a read has failed.
    pub has_failed_read: bool,
    /// Whether a write has failed.
    pub has_failed_write: bool,
    /// The calls that returned, the oldest first.
    pub calls: Vec<Call>,
}

impl<'a> MemoryDevice<'a> {
    /// A device with these bytes to read, 4,096 a read, of which no call fails.
    pub fn new(alloc: Global, input: &'a [u8]) -> MemoryDevice<'a>
        ensures { result.calls.items ≡ [] }
    {
        MemoryDevice {
            alloc,
            rest: input,
            read_size: 4_096,
            write_size: usize::MAX,
            failing_read: 0,
            failing_write: 0,
            has_failed_read: false,
            has_failed_write: false,
            calls: Vec::new(alloc),
        }
    }
}

impl MemoryDevice<'_> {
    /// Keeps a call after the others, unless an allocation fails.
    #[tactic(auto, using(crate::proofs::Histories::history_grown))]
    fn keep(&mut self, call: Call) -> Result<(), Failed>
        ensures ok { OnOk result (history_of self.new.calls.items
            ≡ event_of call ∷ history_of self.old.calls.items) }
        ensures err { OnErr result (history_of self.new.calls.items
            ≡ history_of self.old.calls.items) }
        ensures rest { self.new.rest.now ≡ self.old.rest.now }
        ensures reads { self.new.has_failed_read ≡ self.old.has_failed_read }
        ensures writes { self.new.has_failed_write ≡ self.old.has_failed_write }
    {
        match self.calls.push(call) {
            Ok(()) => Ok(()),
            Err(_) => Err(Failed),
        }
    }

    /// Says that a read has failed.
    fn fail_read(&mut self) -> Failed
        ensures calls { self.new.calls.items ≡ self.old.calls.items }
        ensures rest { self.new.rest.now ≡ self.old.rest.now }
        ensures reads { self.new.has_failed_read ≡ true }
        ensures writes { self.new.has_failed_write ≡ self.old.has_failed_write }
    {
        self.has_failed_read = true;
        Failed
    }

    /// Says that a write has failed.
    fn fail_write(&mut self) -> Failed
        ensures calls { self.new.calls.items ≡ self.old.calls.items }
        ensures rest { self.new.rest.now ≡ self.old.rest.now }
        ensures reads { self.new.has_failed_read ≡ self.old.has_failed_read }
        ensures writes { self.new.has_failed_write ≡ true }
    {
        self.has_failed_write = true;
        Failed
    }
}

fn copied(alloc: Global, bytes: &[u8]) -> Result<Vec<u8>, Failed>
    ensures { IfOk result (λ copy. copy.items ≡ bytes.now) }
{
    match bytes.to_vec(alloc) {
        Ok(copy) => Ok(copy),
        Err(_) => Err(Failed),
    }
}

impl Device for MemoryDevice<'_> {
    ghost Name = { Unit {0} };

    ghost view = { λ device. record {
      name = tt;
      remaining = Some device.rest.now;
      written = Some (bytes_written (history_of device.calls.items));
      history = Some (history_of device.calls.items);
    } };

    ghost Failures = { Bool × Bool };

    ghost failures = { λ device. (device.has_failed_read, device.has_failed_write) };

    ghost read_fails = { ReadHasFailed };

    ghost write_fails = { WriteHasFailed };

    #[tactic(auto, using(crate::proofs::Histories::came_off))]
    fn read(&mut self, buffer: &mut [u8]) -> Result<usize, Failed> {
        if self.failing_read == 1 {
            return Err(self.fail_read());
        }
        self.failing_read = self.failing_read.saturating_sub(1);
        let count = self.rest.len().min(self.read_size).min(buffer.len());
        if count == 0 && !self.rest.is_empty() {
            return Err(self.fail_read());
        }
        if count == 0 {
            return match self.keep(Call::Ended) {
                Ok(()) => Ok(0),
                Err(Failed) => Err(self.fail_read()),
            };
        }
        let (front, rest) = self.rest.split_at(count);
        buffer[..count].copy_from_slice(front);
        let Ok(bytes) = copied(self.alloc, front) else {
            return Err(self.fail_read());
        };
        match self.keep(Call::Read(bytes)) {
            Ok(()) => {}
            Err(Failed) => return Err(self.fail_read()),
        }
        self.rest = rest;
        Ok(count)
    }

    fn write(&mut self, bytes: &[u8]) -> Result<usize, Failed> {
        if self.failing_write == 1 {
            return Err(self.fail_write());
        }
        self.failing_write = self.failing_write.saturating_sub(1);
        let count = bytes.len().min(self.write_size);
        if count == 0 {
            return Err(self.fail_write());
        }
        let Ok(front) = copied(self.alloc, &bytes[..count]) else {
            return Err(self.fail_write());
        };
        match self.keep(Call::Wrote(front)) {
            Ok(()) => Ok(count),
            Err(Failed) => Err(self.fail_write()),
        }
    }
}
