//! What came of the calls, in a text that takes no memory.
ghost use Rattle.std.specs.Prelude.{◌≤◌, length};

use std::io;
use std::io::Write;
use wire_frame::Fault;

/// What came of a call.
#[derive(Clone, Copy, PartialEq, Eq)]
pub enum Came {
    Whole,
    NoMemory,
    // what it needs was not made
    NotTried,
    Wrong,
}

impl Came {
    /// Of a call that was not refused.
    pub fn whole(is_whole: bool) -> Came {
        if is_whole { Came::Whole } else { Came::Wrong }
    }

    /// Of a maker that was refused: by fault 9 where it is as it was.
    pub fn refused(fault: Fault, is_as_before: bool) -> Came {
        if fault.number() == 9 && is_as_before {
            Came::NoMemory
        } else {
            Came::Wrong
        }
    }

    // Its words.
    fn words(self) -> &'static [u8] {
        match self {
            Came::Whole => b" whole\n".as_slice(),
            Came::NoMemory => b" no memory\n".as_slice(),
            Came::NotTried => b" not tried\n".as_slice(),
            Came::Wrong => b" wrong\n".as_slice(),
        }
    }
}

/// A text of 2048 bytes at most.
#[derive(Drop)]
pub struct Sheet {
    bytes: [u8; 2048],
    count: usize,
}

impl Sheet {
    /// No text.
    pub fn new() -> Sheet {
        Sheet {
            bytes: [0; 2048],
            count: 0,
        }
    }

    /// A line.
    pub fn tell(&mut self, name: &str, came: Came) {
        self.push(name.as_bytes());
        self.push(came.words());
    }

    /// The text.
    pub fn text(&self) -> &[u8] {
        match self.bytes.get(..self.count) {
            Some(text) => text,
            None => &[],
        }
    }

    // Puts bytes behind the text, as many as there is room for, and tells how many those are.
    fn push(&mut self, more: &[u8]) -> usize
        ensures { result ≤ length more.now }
    {
        let Some(room) = self.bytes.get_mut(self.count..) else {
            return 0;
        };
        let count = room.len().min(more.len());
        room[..count].copy_from_slice(&more[..count]);
        self.count = self.count.saturating_add(count);
        count
    }
}

impl Write for Sheet {
    fn write(&mut self, buf: &[u8]) -> io::Result<usize> {
        Ok(self.push(buf))
    }

    fn flush(&mut self) -> io::Result<()> {
        Ok(())
    }
}
