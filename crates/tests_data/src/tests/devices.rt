//! A reader and a writer of the standard library that fail at one call and count their calls. Calls
//! count from 1, so at 0 none fails; both would go on after a failure.

use std::io::{self, ErrorKind, Read, Write};

/// A reader of these bytes that gives at most `most` a call, and whose call of the number `fails_at`
/// fails.
#[derive(Drop)]
pub struct Faltering<'a> {
    pub rest: &'a [u8],
    pub most: usize,
    pub fails_at: u64,
    pub error: ErrorKind,
    pub calls: u64,
}

impl Read for Faltering<'_> {
    fn read(&mut self, buffer: &mut [u8]) -> io::Result<usize> {
        self.calls = self.calls.saturating_add(1);
        if self.calls == self.fails_at {
            return Err(io::Error::from(self.error));
        }
        let count = self.rest.len().min(buffer.len()).min(self.most);
        let (front, rest) = self.rest.split_at(count);
        buffer[..count].copy_from_slice(front);
        self.rest = rest;
        Ok(count)
    }
}

/// A writer that is to get these bytes, and takes at most `most` a call. Its call of the number
/// `fails_at` fails, or takes no byte if `error` is `None`; so does one with other bytes.
#[derive(Drop)]
pub struct Halting<'a> {
    pub expected: &'a [u8],
    pub most: usize,
    pub fails_at: u64,
    pub error: Option<ErrorKind>,
    pub calls: u64,
}

impl Write for Halting<'_> {
    fn write(&mut self, bytes: &[u8]) -> io::Result<usize> {
        self.calls = self.calls.saturating_add(1);
        let count = bytes.len().min(self.most);
        if self.calls == self.fails_at || !self.expected.starts_with(&bytes[..count]) {
            return match self.error {
                Some(error) => Err(io::Error::from(error)),
                None => Ok(0),
            };
        }
        self.expected = self.expected.get(count..).unwrap_or(b"");
        Ok(count)
    }

    fn flush(&mut self) -> io::Result<()> {
        Ok(())
    }
}
