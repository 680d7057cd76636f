//! A sink in memory.

ghost use Rattle.std.specs.Prelude.{◌≡◌, Some, []};

use scripts::{Failed, Sink};
use std::alloc::Global;

/// A sink that keeps all bytes. A call fails only if an allocation fails.
#[derive(Drop)]
pub(crate) struct MemorySink {
    /// All bytes that were written.
    pub(crate) bytes: Vec<u8>,
    failures: u64,
    writes: u64,
}

impl MemorySink {
    /// The sink before any call.
    pub(crate) fn new(alloc: Global) -> MemorySink
        ensures bytes { ⟦<MemorySink as Sink>⟧.written result ≡ Some [] }
        ensures failed { ⟦<MemorySink as Sink>⟧.failed result ≡ 0 }
        ensures writes { ⟦<MemorySink as Sink>⟧.writes result ≡ 0 }
    {
        MemorySink {
            bytes: Vec::new(alloc),
            failures: 0,
            writes: 0,
        }
    }
}

impl Sink for MemorySink {
    ghost written = { λ s. Some s.bytes.items };

    ghost failed = { λ s. s.failures };

    ghost writes = { λ s. s.writes };

    fn write(&mut self, bytes: &[u8]) -> Result<usize, Failed> {
        self.writes = self.writes.saturating_add(1);
        match self.bytes.extend_from_slice(bytes) {
            Ok(()) => Ok(bytes.len()),
            Err(_) => {
                self.failures = self.failures.saturating_add(1);
                Err(Failed)
            }
        }
    }

    fn failures(&self) -> u64 {
        self.failures
    }
}
