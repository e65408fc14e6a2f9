//! Readers and writers that break at a call, or do less than they are asked.
use std::io;
use std::io::{Error, ErrorKind, Read, Write};

/// How many bytes a call moves, where nothing else is said.
pub const PART: usize = 7;

/// How many calls so many bytes take: one for each part, and one that finds the end of what is read, or flushes what is written.
pub fn calls_of(bytes: usize) -> usize {
    bytes.div_ceil(PART).saturating_add(1)
}

/// A reader of a text in parts. It fails at the call of that number, counted from 0.
#[derive(Drop)]
pub struct Parts<'a> {
    pub rest: &'a [u8],
    pub part: usize,
    pub calls: usize,
    pub fails_at: usize,
    /// The fault that comes before each part, as a signal that breaks a read off.
    pub is_interrupted: bool,
}

impl<'a> Parts<'a> {
    /// A reader of a text in parts of [`PART`] bytes, that fails at that call alone.
    pub fn new(text: &'a [u8], fails_at: usize) -> Parts<'a> {
        Parts {
            rest: text,
            part: PART,
            calls: 0,
            fails_at,
            is_interrupted: false,
        }
    }
}

impl Read for Parts<'_> {
    fn read(&mut self, buf: &mut [u8]) -> io::Result<usize> {
        let call = self.calls;
        self.calls = self.calls.saturating_add(1);
        if call == self.fails_at {
            return Err(Error::from(ErrorKind::ConnectionReset));
        }
        if self.is_interrupted && call % 2 == 0 {
            return Err(Error::from(ErrorKind::Interrupted));
        }
        let count = self.part.min(buf.len()).min(self.rest.len());
        let (part, rest) = self.rest.split_at(count);
        buf[..count].copy_from_slice(part);
        self.rest = rest;
        Ok(count)
    }
}

/// A writer that takes parts of [`PART`] bytes. It fails at the call of that number, counted from 0.
#[derive(Drop)]
pub struct Taken {
    pub bytes: Vec<u8>,
    calls: usize,
    fails_at: usize,
}

impl Taken {
    /// A writer that fails at that call. Its bytes go to a list that is empty.
    pub fn new(bytes: Vec<u8>, fails_at: usize) -> Taken {
        Taken {
            bytes,
            calls: 0,
            fails_at,
        }
    }

    // Counts a call, which may be the one that fails.
    fn call(&mut self) -> io::Result<()> {
        let call = self.calls;
        self.calls = self.calls.saturating_add(1);
        if call == self.fails_at {
            return Err(Error::from(ErrorKind::BrokenPipe));
        }
        Ok(())
    }
}

impl Write for Taken {
    fn write(&mut self, buf: &[u8]) -> io::Result<usize> {
        self.call()?;
        let count = PART.min(buf.len());
        self.bytes.extend_from_slice(&buf[..count])?;
        Ok(count)
    }

    fn flush(&mut self) -> io::Result<()> {
        self.call()
    }
}
