//! The replies.
ghost use Rattle.std.specs.Prelude.{◌≡◌};
ghost use Rattle.mailbox.specs.Replies.{echoed, granted_head, refused_head, inserted_vlans, link_word, granting, reply_of, notice_head};

use crate::message::{Message, Reply};
use crate::registers::{ACK, CONTROL, CTS, NACK, RESET};
use crate::slot::{Guest, Slot};

impl Slot {
    /// The reply to the message in the words, which left the guest of the function so, or was refused.
    #[tactic(auto, unfolding(crate::specs::Replies::reply_of))]
    pub(crate) fn reply_of(
        &self,
        words: &[u32; 16],
        message: Message,
        granted: Option<Guest>,
    ) -> Reply
        ensures { result ≡ reply_of words.now self.now message granted }
    {
        match granted {
            None => echoed(words, self.refused_head(words)),
            Some(guest) => self.granting(words, &guest, message),
        }
    }

    // Word 0 of a reply that refuses: CTS where the function is up.
    fn refused_head(&self, words: &[u32; 16]) -> u32
        ensures { result ≡ refused_head words.now self.now }
    {
        words[0] % CTS + NACK + if self.is_up() { CTS } else { 0 }
    }

    /// Word 0 of a message of the host's own: CTS where the link is up, and NACK where the function is not up.
    pub(crate) fn notice_head(&self) -> u32
        ensures { result ≡ notice_head self.now }
    {
        CONTROL
            + if !self.is_up() {
                NACK
            } else if self.has_link() {
                CTS
            } else {
                0
            }
    }

    // The reply that grants a message.
    fn granting(&self, words: &[u32; 16], guest: &Guest, message: Message) -> Reply
        ensures { result ≡ granting words.now self.now guest.now message }
    {
        let head = words[0] % CTS + CTS + ACK;
        match message {
            Message::Reset => Reply {
                words: [
                    ACK + RESET,
                    guest.low_word(),
                    guest.high_word(),
                    0,
                    words[4],
                ],
            },
            Message::GetQueues => Reply {
                words: [head, 2, 2, u32::from(self.has_port()), 0],
            },
            Message::SetMulticastMode(_) => Reply {
                words: [head, guest.multicast.mode(), words[2], words[3], words[4]],
            },
            Message::GetLinkState => Reply {
                words: [
                    head,
                    u32::from(self.has_link()),
                    words[2],
                    words[3],
                    words[4],
                ],
            },
            _ => echoed(words, head),
        }
    }
}

// The words of a message with another word 0.
fn echoed(words: &[u32; 16], head: u32) -> Reply
    ensures { result ≡ echoed words.now head }
{
    Reply {
        words: [head, words[1], words[2], words[3], words[4]],
    }
}
