//! A source and a sink as the one device of a session.

ghost use Rattle.std.specs.Prelude.{◌≡◌, ℕ, None};
ghost use Rattle.std.specs.Borrow.{GName};
ghost use Rattle.session_run.specs.Runs.{ReadFails, WriteFails};

use scripts::{Failed as CallFailed, Sink, Source};
use sessions::{Device, Failed};

/// A source and a sink, each borrowed for a lifetime of its own: so a proof knows both at the end.
pub(crate) struct SourceAndSink<'a, 'b, S: Source, T: Sink> {
    pub(crate) source: &'a mut S,
    pub(crate) sink: &'b mut T,
}

impl<S: Source, T: Sink> Device for SourceAndSink<'_, '_, S, T> {
    ghost Name = { GName × GName };

    ghost view = { λ joined. record {
      name = (joined.source.ghost_name, joined.sink.ghost_name);
      remaining = S.remaining joined.source.now;
      written = T.written joined.sink.now;
      history = None;
    } };

    ghost Failures = { ℕ × ℕ };

    ghost failures = { λ joined. (S.failed joined.source.now, T.failed joined.sink.now) };

    ghost read_fails = { ReadFails };

    ghost write_fails = { WriteFails };

    fn read(&mut self, buffer: &mut [u8]) -> Result<usize, Failed> {
        match self.source.read(buffer) {
            Ok(count) => Ok(count),
            Err(CallFailed) => Err(Failed),
        }
    }

    fn write(&mut self, bytes: &[u8]) -> Result<usize, Failed> {
        match self.sink.write(bytes) {
            Ok(count) => Ok(count),
            Err(CallFailed) => Err(Failed),
        }
    }
}
