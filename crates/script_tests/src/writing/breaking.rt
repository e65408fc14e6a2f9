// Writers that break at a call or take less than they are given.
use crate::compare::{assert_equal, assert_equal_at};
use std::alloc::{AllocError, Global};
use std::io;
use std::io::{Error, ErrorKind, Write};
use std::test::Fail;
use transcript::{Fault, Output};

// A writer that takes parts. It fails at the call of that number, counted from 0.
#[derive(Drop)]
struct Parts {
    taken: Vec<u8>,
    calls: usize,
    fails_at: usize,
    // The fault that comes before each part, as a signal that breaks a write off.
    is_interrupted: bool,
}

// How many bytes a call takes.
const PART: usize = 10_007;

impl Write for Parts {
    fn write(&mut self, buf: &[u8]) -> io::Result<usize> {
        let call = self.calls;
        self.calls = self.calls.saturating_add(1);
        if call == self.fails_at {
            return Err(Error::from(ErrorKind::BrokenPipe));
        }
        if self.is_interrupted && call % 2 == 0 {
            return Err(Error::from(ErrorKind::Interrupted));
        }
        let count = PART.min(buf.len());
        self.taken.extend_from_slice(&buf[..count])?;
        Ok(count)
    }

    fn flush(&mut self) -> io::Result<()> {
        let call = self.calls;
        self.calls = self.calls.saturating_add(1);
        if call == self.fails_at {
            return Err(Error::from(ErrorKind::BrokenPipe));
        }
        Ok(())
    }
}

// How many frames are written, of the most bytes that a frame may have.
const FRAMES: u8 = 12;

// The lines of the frames.
fn write_frames<W: Write>(alloc: Global, writer: &mut W) -> Result<(), Fault> {
    let mut output = Output::new(alloc)?;
    for number in 0..FRAMES {
        output.frame(&[number; 9018], writer)?;
    }
    output.finish(writer)
}

// What these lines are.
fn frames_text(alloc: Global) -> Result<String, AllocError> {
    let mut text = String::new(alloc);
    for number in 0..FRAMES {
        text.push_str("out ")?;
        for _ in 0..9018 {
            write!(text, "{number:02x}")?;
        }
        text.push_str("\n")?;
    }
    Ok(text)
}

#[test]
fn a_failed_write_leaves_a_beginning(rt: HostRuntime) -> Result<(), Fail> {
    let alloc = rt.alloc();
    let wanted = frames_text(alloc)?;
    let mut last = 0;
    for fails_at in 0..200 {
        let mut writer = Parts {
            taken: Vec::new(alloc),
            calls: 0,
            fails_at,
            is_interrupted: false,
        };
        let result = write_frames(alloc, &mut writer);
        if writer.calls > fails_at {
            assert_equal_at(&rt, result, Err(Fault::Io), fails_at);
            assert!(rt;
                wanted.as_bytes().starts_with(writer.taken.as_slice()),
                "at call {fails_at}"
            );
            last = fails_at;
        } else {
            assert_equal_at(&rt, result, Ok(()), fails_at);
            assert!(rt;
                writer.taken.as_slice() == wanted.as_bytes(),
                "at call {fails_at}"
            );
        }
    }
    // a call for each part at least, and the flush
    assert!(rt;
        last >= wanted.len() / PART + 1 && last < 199,
        "{last} calls"
    );
    Ok(())
}

#[test]
fn a_write_that_is_broken_off_is_done_again(rt: HostRuntime) -> Result<(), Fail> {
    let alloc = rt.alloc();
    let wanted = frames_text(alloc)?;
    let mut writer = Parts {
        taken: Vec::new(alloc),
        calls: 0,
        fails_at: usize::MAX,
        is_interrupted: true,
    };
    assert_equal(&rt, write_frames(alloc, &mut writer), Ok(()));
    assert!(rt; writer.taken.as_slice() == wanted.as_bytes());
    Ok(())
}
