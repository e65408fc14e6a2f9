//! Scripts, read and checked whole.
ghost use Rattle.std.specs.Prelude.{◌≡◌, ℕ, ◌+◌, ◌-◌, ◌<◌, ◌≤◌, ◌++◌, List, Ok, Err, length, take, drop, slice_range, slice_index_or, IfOk, IfErr, IfSome};
ghost use Rattle.std.specs.Io.KnownBytes.{ReadConsumes};
ghost use Rattle.device.specs.Request.{event_of};
ghost use Rattle.device.specs.declared.event.Event.TheVariants.{PfReset};
ghost use Rattle.script.specs.Text.{IsWithout};
ghost use Rattle.script.specs.Reading.{lines_of, meant, read_on, script_of};
ghost use Rattle.script.specs.Shapes.{asked_by};

use crate::events::Events;
use crate::fault::Fault;
use crate::reader::Reader;
use crate::scratch::Scratch;
use crate::shape::Shape;
use device::Request;
use std::alloc::Global;
use std::io::{ErrorKind, Read};
use std::marker::Model;

// How many bytes of a script are held at a time. The longest line leaves room for more.
const BLOCK: usize = 65_536;

/// A script that keeps to the grammar and the limits, seen as the device that it asks for, the list of its events, and how
/// many of them come before `go`.
#[derive(Drop)]
pub struct Script {
    shape: Shape,
    go: Option<usize>,
    events: Events,
}

impl Model for Script {
    ghost use Rattle.std.specs.Prelude.{◌≤◌, IfSome, length};
    ghost use Rattle.script.specs.Reading.{Meaning};
    ghost use Rattle.script.specs.Shapes.{asked_by};

    ghost Value = { Meaning };

    ghost view = { λ s. record { device = asked_by s.shape; go = s.go; events = s.events } };

    ghost invariant = { λ s. IfSome s.go (λ before. before ≤ length s.events) };
}

impl Script {
    /// Reads a script to its end, or to its first bad line, which is [`Fault::BadScript`]. A failed read is [`Fault::Io`],
    /// and a growth of memory that was refused [`Fault::NoMemory`].
    pub fn read<R: Read>(alloc: Global, reader: &mut R) -> Result<Script, Fault>
        // where the bytes of the reader are known, their text says this script
        ensures ok { IfOk result
            (λ script. IfSome (R.remaining reader.old) (λ text. script_of text ≡ Ok script)) }
        // or that line of it is its first bad one
        ensures bad { IfErr result (λ e. (n : ℕ) → e ≡ Fault.BadScript n
            → IfSome (R.remaining reader.old) (λ text. script_of text ≡ Err n)) }
    {
        let mut scratch = Scratch::new();
        let mut block = vec![in alloc; 0u8; BLOCK]?;
        let (shape, go, events) = read_all(alloc, reader, block.as_mut_slice(), &mut scratch)?;
        Ok(Script { shape, go, events })
    }

    /// The device that the script asks for.
    #[inline]
    pub fn shape(&self) -> Shape
        ensures { asked_by result ≡ self.now.device }
    {
        self.shape
    }

    /// How many events come before the line `go`, which are all of them or fewer; None where there is no such line.
    #[inline]
    pub fn go(&self) -> Option<usize>
        ensures go { result ≡ self.now.go }
        ensures within { IfSome result (λ before. before ≤ length self.now.events) }
    {
        self.go
    }

    /// How many events there are, at most 60,000.
    #[inline]
    pub fn len(&self) -> usize
        ensures { result ≡ length self.now.events }
    {
        self.events.len()
    }

    /// An event, as a device is asked it. Its bytes, where it has some, may be laid out in `scratch`.
    #[inline]
    pub fn request<'a>(&'a self, index: usize, scratch: &'a mut Scratch) -> Request<'a>
        requires { index < length self.now.events }
        ensures { event_of result ≡ slice_index_or self.now.events index PfReset }
    {
        self.events.request(index, scratch)
    }
}

// Reads a script by blocks.
fn read_all<R: Read>(
    alloc: Global,
    reader: &mut R,
    block: &mut [u8],
    scratch: &mut Scratch,
) -> Result<(Shape, Option<usize>, Events), Fault>
    requires { length block.old ≡ 65536 }
    ensures ok { IfOk result (λ read. IfSome (R.remaining reader.old)
        (λ text. script_of text ≡ Ok (meant read.1 read.2 (asked_by read.0)))) }
    ensures go { IfOk result (λ read. IfSome read.1 (λ before. before ≤ length read.2)) }
    ensures bad { IfErr result (λ e. (n : ℕ) → e ≡ Fault.BadScript n
        → IfSome (R.remaining reader.old) (λ text. script_of text ≡ Err n)) }
{
    let mut lines = Reader::new(alloc);
    let mut filled = 0;
    for _ in 0..u64::MAX {
        let count = fill(reader, block, filled)?;
        if count == 0 {
            return lines.finish(&block[..filled], scratch);
        }
        filled = take_lines(&mut lines, block, filled + count, scratch)?;
    }
    Err(Fault::Io)
}

// Takes the lines that end before a place of the block, moves what comes after them to the front, and tells how many bytes
// that are.
fn take_lines(
    lines: &mut Reader,
    block: &mut [u8],
    end: usize,
    scratch: &mut Scratch,
) -> Result<usize, Fault>
    requires { end ≤ length block.old }
    ensures short { IfOk result (λ left. left ≤ 40000) }
    ensures clear { IfOk result (λ left. IsWithout 10 (take left block.new)) }
    ensures ok { IfOk result
        (λ left. (more : List ℕ) → read_on (lines_of (take end block.old ++ more)) lines.old
        ≡ read_on (lines_of (take left block.new ++ more)) lines.new) }
    ensures bad { IfErr result (λ e. (n : ℕ) → e ≡ Fault.BadScript n
        → (more : List ℕ) → read_on (lines_of (take end block.old ++ more)) lines.old ≡ Err n) }
    ensures len { length block.new ≡ length block.old }
{
    let left = lines.lines(&block[..end], scratch)?;
    keep_end(block, end, left);
    Ok(left)
}

// Reads once behind the bytes that are filled.
fn fill<R: Read>(reader: &mut R, block: &mut [u8], filled: usize) -> Result<usize, Fault>
    requires { filled < length block.old }
    ensures count { IfOk result (λ count. filled + count ≤ length block.new) }
    ensures len { length block.new ≡ length block.old }
    ensures front { take filled block.new ≡ take filled block.old }
    ensures bytes { ReadConsumes (R.remaining reader.old) (R.remaining reader.new) result
        (drop filled block.new) }
    ensures err { IfErr result (λ e. e ≡ Fault.Io) }
{
    read_some(reader, &mut block[filled..])
}

// One read, done again where a signal broke it off.
fn read_some<R: Read>(reader: &mut R, room: &mut [u8]) -> Result<usize, Fault>
    ensures count { IfOk result (λ count. count ≤ length room.new) }
    ensures bytes { ReadConsumes (R.remaining reader.old) (R.remaining reader.new) result room.new }
    ensures err { IfErr result (λ e. e ≡ Fault.Io) }
{
    for _ in 0..u64::MAX {
        match reader.read(room) {
            Ok(count) => return Ok(count),
            Err(e) => {
                if e.kind() != ErrorKind::Interrupted {
                    return Err(Fault::Io);
                }
            }
        }
    }
    Err(Fault::Io)
}

// Moves the last so many of the bytes before an end to the front.
fn keep_end(block: &mut [u8], end: usize, left: usize)
    requires left { left ≤ end }
    requires end { end ≤ length block.old }
    ensures bytes { take left block.new ≡ drop (end - left) (take end block.old) }
    ensures len { length block.new ≡ length block.old }
{
    block.copy_within(end - left..end, 0);
}
