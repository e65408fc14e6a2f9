//! A script while it is read, line by line.
ghost use Rattle.std.specs.Prelude.{◌≡◌, ℕ, ◌+◌, ◌-◌, ◌≤◌, ◌++◌, ◌==◌, ◌||◌, ◌&&◌, nat_le, nat_lt, List, Some, None, Ok, Err, length, drop, OnOk, OnErr, IfOk, IfErr, IfSome};
ghost use Rattle.script.specs.Text.{IsWithout};
ghost use Rattle.script.specs.Reading.{at_first, finished, heard, line_after, lines_of, meant, ok_then, read_on};
ghost use Rattle.script.specs.Shapes.{asked_by};

use crate::events::Events;
use crate::fault::{Fault, Refusal};
use crate::kind::Kind;
use crate::scratch::Scratch;
use crate::shape::Shape;
use crate::text::cut;
use crate::words::Words;
use std::alloc::Global;
use std::marker::Model;

/// The most events of a script.
const MOST_EVENTS: usize = 60_000;
/// The most lines of a script.
const MOST_LINES: u32 = 100_000;
/// The most bytes of a line, without the LF that ends it.
const MOST_LINE_BYTES: usize = 40_000;

/// What the lines so far have said.
#[derive(Drop)]
pub struct Reader {
    // How many lines there were.
    lines: u32,
    shape: Option<Shape>,
    // how many events came before `go`, if it came
    go: Option<usize>,
    events: Events,
}

impl Model for Reader {
    ghost use Rattle.std.specs.Prelude.{◌≤◌, IfSome, length};
    ghost use Rattle.std.specs.Option.{option_map};
    ghost use Rattle.script.specs.Reading.{Reading};
    ghost use Rattle.script.specs.Shapes.{asked_by};

    ghost Value = { Reading };

    ghost view = { λ r. record {
      lines = r.lines;
      device = option_map asked_by r.shape;
      go = r.go;
      events = r.events;
    } };

    ghost invariant = { λ r. (r.lines ≤ 100000)
        × IfSome r.go (λ before. before ≤ length r.events) };
}

impl Reader {
    /// Before the first line.
    pub fn new(alloc: Global) -> Reader
        ensures { result ≡ at_first }
    {
        Reader {
            lines: 0,
            shape: None,
            go: None,
            events: Events::new(alloc),
        }
    }

    // Takes a line that keeps to the limits.
    fn hear(&mut self, line: &[u8], scratch: &mut Scratch) -> Result<(), Refusal>
        ensures ok { OnOk result (heard self.old line.now ≡ Some self.new) }
        ensures bad { IfErr result (λ e. e ≡ Refusal.BadLine → heard self.old line.now ≡ None) }
        ensures lines { self.new.lines ≡ self.old.lines }
    {
        if let [b'#', ..] = line {
            return Ok(());
        }
        let mut words = Words::new(line);
        let Some(name) = words.next() else {
            return Ok(());
        };
        match self.shape {
            None if name == b"vfs".as_slice() => self.shape = Some(Shape::of_words(words)?),
            Some(_) if name == b"go".as_slice() && self.go.is_none() => {
                words.none()?;
                self.go = Some(self.events.len());
            }
            Some(shape) if self.events.len() < MOST_EVENTS => {
                let kind = Kind::named(name).ok_or(Refusal::BadLine)?;
                self.events.push(kind, words, shape.limit, scratch)?;
            }
            _ => return Err(Refusal::BadLine),
        }
        Ok(())
    }

    // Takes a line.
    #[tactic(auto, unfolding(crate::specs::Reading::line_after))]
    fn line(&mut self, line: &[u8], scratch: &mut Scratch) -> Result<(), Fault>
        ensures ok { OnOk result (line_after self.old line.now ≡ Some self.new) }
        ensures bad { IfErr result (λ e. (n : ℕ) → e ≡ Fault.BadScript n
            → (n ≡ self.old.lines + 1) × (line_after self.old line.now ≡ None)) }
    {
        if self.lines >= MOST_LINES || line.len() > MOST_LINE_BYTES {
            return Err(self.bad_line());
        }
        match self.hear(line, scratch) {
            Ok(()) => {
                self.lines += 1;
                Ok(())
            }
            Err(Refusal::BadLine) => Err(self.bad_line()),
            Err(Refusal::NoMemory) => Err(Fault::NoMemory),
        }
    }

    /// Takes the lines that end in a text, and tells how many bytes come after them. Those are refused where no end can
    /// make a good line of them.
    pub fn lines(&mut self, text: &[u8], scratch: &mut Scratch) -> Result<usize, Fault>
        ensures left { IfOk result (λ left. left ≤ length text.now) }
        ensures short { IfOk result (λ left. left ≤ 40000) }
        ensures clear { IfOk result
            (λ left. IsWithout 10 (drop (length text.now - left) text.now)) }
        ensures ok { IfOk result
            (λ left. (more : List ℕ) → read_on (lines_of (text.now ++ more)) self.old
            ≡ read_on (lines_of (drop (length text.now - left) text.now ++ more)) self.new) }
        ensures bad { IfErr result (λ e. (n : ℕ) → e ≡ Fault.BadScript n
            → (more : List ℕ) → read_on (lines_of (text.now ++ more)) self.old ≡ Err n) }
    {
        let mut rest = text;
        loop {
            let (line, after) = cut(0, b'\n', rest);
            match after {
                Some(after) => {
                    self.line(line, scratch)?;
                    rest = after;
                }
                None => break,
            }
        }
        if self.can_take(rest.len()) {
            Ok(rest.len())
        } else {
            Err(self.bad_line())
        }
    }

    // Whether the next line can be one that has so many bytes or more.
    fn can_take(&self, bytes: usize) -> bool
        ensures { result ≡ ((bytes == 0) || (nat_lt self.now.lines 100000 && nat_le bytes 40000)) }
    {
        bytes == 0 || self.lines < MOST_LINES && bytes <= MOST_LINE_BYTES
    }

    // That the next line is bad.
    fn bad_line(&self) -> Fault
        ensures { result ≡ Fault.BadScript (self.now.lines + 1) }
    {
        Fault::BadScript(self.lines + 1)
    }

    // Takes a last line without LF, if there is one.
    fn last_line(&mut self, line: &[u8], scratch: &mut Scratch) -> Result<(), Fault>
        requires { IsWithout 10 line.now }
        ensures ok { OnOk result (read_on (lines_of line.now) self.old ≡ Ok self.new) }
        ensures bad { IfErr result (λ e. (n : ℕ) → e ≡ Fault.BadScript n
            → read_on (lines_of line.now) self.old ≡ Err n) }
    {
        if line.is_empty() {
            return Ok(());
        }
        self.line(line, scratch)
    }

    /// The device, how many events come before `go`, and the events, after a last line without LF, if there is one.
    pub fn finish(
        mut self,
        rest: &[u8],
        scratch: &mut Scratch,
    ) -> Result<(Shape, Option<usize>, Events), Fault>
        requires { IsWithout 10 rest.now }
        ensures ok { IfOk result (λ read. ok_then (read_on (lines_of rest.now) self) finished
            ≡ Ok (meant read.1 read.2 (asked_by read.0))) }
        ensures go { IfOk result (λ read. IfSome read.1 (λ before. before ≤ length read.2)) }
        ensures bad { IfErr result (λ e. (n : ℕ) → e ≡ Fault.BadScript n
            → ok_then (read_on (lines_of rest.now) self) finished ≡ Err n) }
    {
        self.last_line(rest, scratch)?;
        let Reader {
            lines: _,
            shape,
            go,
            events,
        } = self;
        match shape {
            Some(shape) => Ok((shape, go, events)),
            None => Err(Fault::BadScript(1)),
        }
    }
}
