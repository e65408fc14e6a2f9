//! The mailbox of one virtual function.
ghost use Rattle.std.specs.Prelude.{◌≡◌};
ghost use Rattle.mailbox.specs.Replies.{reply_of};
ghost use Rattle.mailbox.specs.Mailbox.{blank, after_reset, read_at, after_read, after_write, rung_at, replied, noticed, notice_in};
ghost use Rattle.mailbox.specs.Message.{message_of};

use crate::message::{Message, Reply};
use crate::registers::{
    ANSWERED, HELD, PFSTS, READ_KEEPS, REQ, RSTD, VFMAILBOX, VFMBMEM, VFU, WORD_AFTER_RESET,
    WRITE_KEEPS,
};
use crate::slot::{Guest, Slot};
use std::marker::Model;
use wire_frame::{has_bit, read_one, read_word, write_word};

/// What a write to the mailbox rang.
#[derive(Clone, Copy, Debug, PartialEq, Eq)]
pub enum Rang {
    /// Nothing.
    Nothing,
    /// The function asks the host to read the message that stands in the memory.
    Request,
}

/// What came of a message of the host's own.
#[derive(Clone, Copy, Debug, PartialEq, Eq)]
pub enum Notice {
    /// The function's driver has the memory, or has not looked since its message was answered: nothing is changed. It is to be
    /// given again after the driver's next access to VFMAILBOX.
    Waits,
    /// It stands in the memory, and the function's cause "other" (mailbox) is to be raised.
    Raises,
}

/// The mailbox of one virtual function: sixteen words of memory, and VFMAILBOX (82599 datasheet, VF Mailbox).
///
/// The host answers before anything else happens to the function, so that PFU and RSTI are never seen at 1.
#[derive(Debug, Drop)]
pub struct Mailbox {
    words: [u32; 16],
    control: u32,
}

impl Model for Mailbox {
    ghost use Rattle.mailbox.specs.Mailbox.{MailboxState};

    ghost Value = { MailboxState };

    ghost view = { λ m. record { words = m.words; control = m.control } };
}

impl Default for Mailbox {
    ghost is_default = { λ m. m ≡ blank };

    /// A mailbox of which all words are 0.
    fn default() -> Mailbox {
        Mailbox::new()
    }
}

/// What the function's driver sees.
impl Mailbox {
    /// A mailbox of which all words are 0.
    ///
    /// ```
    /// let mut mailbox = Mailbox::new();
    /// // the first word of its memory (VFMBMEM)
    /// let _ = mailbox.write(VFMBMEM, 7);
    /// assert!(rt; mailbox.read(VFMBMEM) == Some(7));
    /// // there is no register beside a word
    /// assert!(rt; mailbox.read(VFMBMEM + 1).is_none());
    /// ```
    pub fn new() -> Mailbox
        ensures { result ≡ blank }
    {
        Mailbox {
            words: [0; 16],
            control: 0,
        }
    }

    /// A read of the function's registers: the word at the offset, or `None` where the offset is none of the mailbox's. A read
    /// of VFMAILBOX clears PFSTS, PFACK and RSTD.
    #[tactic(auto, unfolding(crate::specs::Mailbox::read_at, crate::specs::Mailbox::after_read))]
    pub fn read(&mut self, offset: u32) -> Option<u32>
        ensures value { result ≡ read_at self.old offset }
        ensures state { self.new ≡ after_read self.old offset }
    {
        let value = read_word(&self.words, VFMBMEM, offset).or(read_one(
            self.control,
            VFMAILBOX,
            offset,
        ));
        if offset == VFMAILBOX {
            self.control &= READ_KEEPS;
        }
        value
    }

    /// A write to the function's registers: what it rang, or `None` where the offset is none of the mailbox's. VFU is kept as
    /// it is written; REQ and ACK always read 0.
    #[tactic(auto, unfolding(crate::specs::Mailbox::after_write))]
    pub fn write(&mut self, offset: u32, value: u32) -> Option<Rang>
        ensures rang { result ≡ rung_at offset value }
        ensures state { self.new ≡ after_write self.old offset value }
    {
        write_word(&mut self.words, VFMBMEM, offset, value);
        if offset == VFMAILBOX {
            self.control = self.control & WRITE_KEEPS | value & VFU;
        }
        rung_by(offset, value)
    }
}

/// What the host does.
impl Mailbox {
    /// The message that stands in the memory.
    pub(crate) fn message(&self) -> Message
        ensures { result ≡ message_of self.now.words }
    {
        Message::of(self.words[0], self.words[1], self.words[2])
    }

    /// Puts a reply into the memory, and sets PFSTS and PFACK.
    #[tactic(auto, unfolding(crate::specs::Mailbox::replied))]
    pub(crate) fn reply(&mut self, reply: Reply)
        ensures { self.new ≡ replied self.old reply }
    {
        self.words[0] = reply.words[0];
        self.words[1] = reply.words[1];
        self.words[2] = reply.words[2];
        self.words[3] = reply.words[3];
        self.words[4] = reply.words[4];
        self.control |= ANSWERED;
    }

    /// Puts a message of the host's own into word 0, and sets PFSTS, unless the driver has the memory.
    #[tactic(auto, unfolding(crate::specs::Mailbox::noticed, crate::specs::Mailbox::notice_in))]
    pub(crate) fn notice(&mut self, head: u32) -> Notice
        ensures notice { result ≡ notice_in self.old }
        ensures mailbox { self.new ≡ noticed self.old head }
    {
        if self.control & HELD != 0 {
            return Notice::Waits;
        }
        self.words[0] = head;
        self.control |= PFSTS;
        Notice::Raises
    }

    /// Puts the reply to the message that stands in the memory, which left the guest of the function so, or was refused.
    pub(crate) fn answer(&mut self, slot: &Slot, granted: Option<Guest>)
        ensures { self.new ≡ replied self.old
            (reply_of self.old.words slot.now (message_of self.old.words) granted) }
    {
        let message = self.message();
        let reply = slot.reply_of(&self.words, message, granted);
        self.reply(reply);
    }

    /// Makes all words 0, as for a new guest, and after the function reset itself by VFCTRL.
    pub fn clear(&mut self)
        ensures { self.new ≡ blank }
    {
        *self = Mailbox::new();
    }

    /// Tells the driver that the function was reset from outside: RSTD is set, and word 0 is a refusal without CTS, so that
    /// the driver begins anew. All other words are 0.
    pub fn reset(&mut self)
        ensures { self.new ≡ after_reset }
    {
        *self = Mailbox::new();
        self.words[0] = WORD_AFTER_RESET;
        self.control = RSTD;
    }
}

// What a write rings, by its offset.
#[tactic(auto, unfolding(crate::specs::Mailbox::rung_at))]
fn rung_by(offset: u32, value: u32) -> Option<Rang>
    ensures { result ≡ rung_at offset value }
{
    if offset == VFMAILBOX {
        return Some(if has_bit(u64::from(value), REQ) {
            Rang::Request
        } else {
            Rang::Nothing
        });
    }
    if offset < VFMBMEM.first || !(offset - VFMBMEM.first).is_multiple_of(VFMBMEM.stride) {
        return None;
    }
    if (offset - VFMBMEM.first) / VFMBMEM.stride < VFMBMEM.count {
        Some(Rang::Nothing)
    } else {
        None
    }
}
