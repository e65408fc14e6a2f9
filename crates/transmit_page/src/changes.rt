//! What a driver did with a queue between two looks at its words, as writes of registers.
ghost use Rattle.std.specs.Prelude.{◌≡◌, ◌+◌, ◌≤◌, ◌<◌, ◌++◌, [], length};
ghost use Rattle.transmit_page.specs.Words.{turned_off};
ghost use Rattle.transmit_page.specs.Changes.{changes, only_if, write_of, has_changed, has_other_ring, goes_off, comes_on, switching_off, switching_on, staying, control_and_tail};

use crate::words::{ENABLE, RingWords, TransmitRegister, is_on_word};
use arrayvec::ArrayVec;
use std::marker::Model;

/// A write to a register of a transmit queue.
#[derive(Clone, Copy, Debug, Default, PartialEq, Eq)]
pub struct TransmitWrite {
    /// The register.
    pub register: TransmitRegister,
    /// The word that is written.
    pub value: u32,
}

/// Writes in the order in which they are to be done, at most [`Changes::MOST`].
#[derive(Debug, Drop)]
pub struct Changes {
    list: ArrayVec<TransmitWrite, 10>,
}

impl Model for Changes {
    ghost use Rattle.std.specs.Prelude.{List};
    ghost use Rattle.transmit_page.specs.declared.changes.TransmitWrite.{TransmitWrite};

    ghost Value = { List TransmitWrite };

    ghost view = { λ c. c.list.items };
}

impl Changes {
    /// The most that a look gives: the queue goes off, six other registers, its tail, it comes on, and its tail again.
    pub const MOST: usize = 10;

    // No writes.
    fn new() -> Changes
        ensures { result ≡ [] }
    {
        Changes {
            list: ArrayVec::new(),
        }
    }

    /// The writes.
    pub fn as_slice(&self) -> &[TransmitWrite]
        ensures value { result.now ≡ self.now }
        ensures few { length result.now ≤ 10 }
    {
        self.list.as_slice()
    }

    // One write more, where the test holds.
    fn put_if(&mut self, test: bool, register: TransmitRegister, value: u32)
        requires room { length self.old < 10 }
        ensures list { self.new ≡ self.old ++ only_if test register value }
        ensures more { length self.new ≤ length self.old + 1 }
    {
        if test {
            self.list.push(TransmitWrite { register, value });
        }
    }

    // The register's word, where it has changed.
    fn put_changed(&mut self, register: TransmitRegister, was: &RingWords, now: &RingWords)
        requires room { length self.old < 10 }
        ensures list { self.new ≡ self.old ++ write_of register was.now now.now }
        ensures more { length self.new ≤ length self.old + 1 }
    {
        self.put_if(
            has_changed(register, was, now),
            register,
            now.word(register),
        );
    }

    // A queue goes off before anything else is written.
    fn put_switching_off(&mut self, was: &RingWords, now: &RingWords)
        requires room { length self.old < 10 }
        ensures list { self.new ≡ self.old ++ switching_off was.now now.now }
        ensures more { length self.new ≤ length self.old + 1 }
    {
        self.put_if(
            goes_off(was, now),
            TransmitRegister::Control,
            turned_off(now.control),
        );
    }

    // Its control and its tail, which come last.
    fn put_control_and_tail(&mut self, was: &RingWords, now: &RingWords)
        requires room { length self.old ≤ 7 }
        ensures { self.new ≡ self.old ++ control_and_tail was.now now.now }
    {
        if comes_on(was, now) {
            self.put_switching_on(now);
        } else {
            self.put_staying(was, now);
        }
    }

    // Its tail, which is one of its descriptors where it comes on; it comes on; and its tail again, at which it looks for work.
    fn put_switching_on(&mut self, now: &RingWords)
        requires room { length self.old ≤ 7 }
        ensures { self.new ≡ self.old ++ switching_on now.now }
    {
        self.put_if(true, TransmitRegister::Tail, now.tail);
        self.put_if(true, TransmitRegister::Control, now.control);
        self.put_if(true, TransmitRegister::Tail, now.tail);
    }

    // Its control, where it didn't go off, and its tail.
    fn put_staying(&mut self, was: &RingWords, now: &RingWords)
        requires room { length self.old ≤ 7 }
        ensures { self.new ≡ self.old ++ staying was.now now.now }
    {
        let is_said = !goes_off(was, now) && has_changed(TransmitRegister::Control, was, now);
        self.put_if(is_said, TransmitRegister::Control, now.control);
        self.put_changed(TransmitRegister::Tail, was, now);
    }
}

/// What has changed of a queue's words, as writes of its registers in an order in which they are right: where the queue goes off, that is
/// first; then come the base, the length and the head of the ring, and where the head would be written back to; then, where the queue comes
/// on, its tail, its control and its tail again, and else its control and its tail.
#[tactic(auto, unfolding(crate::specs::Changes::changes))]
pub fn changes_between(was: &RingWords, now: &RingWords) -> Changes
    ensures { result ≡ changes was.now now.now }
{
    let mut changes = Changes::new();
    changes.put_switching_off(was, now);
    changes.put_changed(TransmitRegister::BaseLow, was, now);
    changes.put_changed(TransmitRegister::BaseHigh, was, now);
    changes.put_changed(TransmitRegister::Length, was, now);
    changes.put_changed(TransmitRegister::Head, was, now);
    changes.put_changed(TransmitRegister::WriteBackLow, was, now);
    changes.put_changed(TransmitRegister::WriteBackHigh, was, now);
    changes.put_control_and_tail(was, now);
    changes
}

// The same word of TXDCTL for a queue that is off.
fn turned_off(control: u32) -> u32
    ensures { result ≡ turned_off control }
{
    if is_on_word(control) {
        control - ENABLE
    } else {
        control
    }
}

// Whether a register's word isn't what it was.
pub(crate) fn has_changed(register: TransmitRegister, was: &RingWords, now: &RingWords) -> bool
    ensures { result ≡ has_changed register was.now now.now }
{
    was.word(register) != now.word(register)
}

// Whether the base, the length or the head isn't what it was: a queue takes them only while it is off.
fn has_other_ring(was: &RingWords, now: &RingWords) -> bool
    ensures { result ≡ has_other_ring was.now now.now }
{
    has_changed(TransmitRegister::BaseLow, was, now)
        || has_changed(TransmitRegister::BaseHigh, was, now)
        || has_changed(TransmitRegister::Length, was, now)
        || has_changed(TransmitRegister::Head, was, now)
}

// Whether the queue was on, and then off.
fn goes_off(was: &RingWords, now: &RingWords) -> bool
    ensures { result ≡ goes_off was.now now.now }
{
    was.is_on() && (!now.is_on() || has_other_ring(was, now))
}

// Whether the queue is on, and was off before that.
fn comes_on(was: &RingWords, now: &RingWords) -> bool
    ensures { result ≡ comes_on was.now now.now }
{
    now.is_on() && (!was.is_on() || has_other_ring(was, now))
}
