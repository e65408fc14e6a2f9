//! A client of a session, and what it sees.
use std::alloc::Global;
use std::test::Fail;
use vfio_session::{Ask, Breach, Decision, Fate, ROOM, Session, Settled};

/// What a session decided, without the reply that it owes.
#[derive(Clone, Copy, Debug, PartialEq, Eq)]
pub enum Seen {
    /// It answered, or it had to.
    Answered,
    /// It asked for this.
    Asked(Ask),
    /// It ended the connection.
    Ended(Breach),
}

/// A session, the room for its replies, and how long the last reply is.
#[derive(Drop)]
pub struct Client {
    pub session: Session,
    room: [u8; ROOM],
    count: Option<usize>,
}

impl Client {
    /// A client that has said nothing yet.
    pub fn new() -> Client {
        Client {
            session: Session::new(),
            room: [0xA5; ROOM],
            count: None,
        }
    }

    /// A client that agreed on a version, by QEMU's numbers.
    pub fn begun() -> Client {
        let mut client = Client::new();
        client.begin();
        client
    }

    /// Proposes version 0.0.
    pub fn begin(&mut self) {
        let mut message = [0u8; 20];
        message[..8].copy_from_slice(&[0, 0, 1, 0, 20, 0, 0, 0]);
        self.send(&message, 0, Settled::Finished);
    }

    /// Sends a message with so many files beside it; what it asks for is settled so.
    pub fn send(&mut self, message: &[u8], files: usize, settled: Settled) -> (Seen, Fate) {
        self.room = [0xA5; ROOM];
        let decision = self.session.receive(message, files, &mut self.room);
        let fate = decision.fate();
        let (seen, count) = match decision {
            Decision::Answered(count) => (Seen::Answered, count),
            Decision::Asks(ask, owed) => (Seen::Asked(ask), owed.answer(settled, &mut self.room)),
            Decision::Ends(breach) => (Seen::Ended(breach), None),
        };
        self.count = count;
        (seen, fate)
    }

    /// The same of a message whose bytes are written as digits.
    pub fn send_text(
        &mut self,
        alloc: Global,
        text: &str,
        files: usize,
        settled: Settled,
    ) -> Result<(Seen, Fate), Fail> {
        let message = hex::decode(alloc, text)?;
        Ok(self.send(&message, files, settled))
    }

    /// Whether the last reply is this one, and nothing stands behind it.
    pub fn got(&self, due: &[u8]) -> bool {
        let (front, behind) = self.room.split_at(self.count.unwrap_or(0).min(ROOM));
        self.count.is_some() && front == due && behind.iter().all(|byte| *byte == 0xA5)
    }

    /// Whether there was no reply to the last message, and nothing was laid.
    pub fn got_none(&self) -> bool {
        self.count.is_none() && self.room.iter().all(|byte| *byte == 0xA5)
    }

    /// By which number the last message was refused, where its reply is that: a header alone, with Error.
    pub fn refusal(&self) -> Option<u8> {
        let head = [self.room[4], self.room[5], self.room[8], self.room[9]];
        if self.count == Some(16) && head == [16, 0, 33, 0] {
            Some(self.room[12])
        } else {
            None
        }
    }

    /// How many bytes the last reply has.
    pub fn count(&self) -> Option<usize> {
        self.count
    }
}
