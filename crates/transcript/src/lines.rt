//! Lines, made where they are held.
ghost use Rattle.std.specs.Prelude.{◌≡◌, ◌+◌, ◌≤◌, ◌++◌, length, take};
ghost use Rattle.hex.specs.Hex.{encode_lower};
ghost use Rattle.device.specs.Outcome.{answer_of};
ghost use Rattle.lone.specs.Kept.{item_of, observation_of};
ghost use Rattle.transcript.specs.Limits.{MOST_HELD};
ghost use Rattle.transcript.specs.Text.{item_line, item_text, line, seen_line, seen_text};

use crate::output::{HELD, MOST_BYTES, Output};
use crate::text::{MOST_MARK, MOST_REPLY, put_digits, put_mark, put_marks, put_reply, put_word};
use device::{Response, Room};
use lone::{Given, Seen};
use wire_frame::PoolId;

/// How many bytes an item has at most: a frame that is offered.
pub(crate) const MOST_ITEM: usize = 9 + 2 * MOST_BYTES;

impl Output {
    // Two digits for each byte.
    pub(crate) fn hold_digits(&mut self, bytes: &[u8])
        requires held { length self.old ≤ HELD }
        requires few { length bytes.now ≤ MOST_BYTES }
        ensures { self.new ≡ self.old ++ encode_lower bytes.now }
    {
        self.end = put_digits(self.room.as_mut_slice(), self.end, bytes);
    }

    // The line of an answer.
    #[inline]
    #[tactic(auto, unfolding(crate::specs::Text::line))]
    pub(crate) fn hold_answer(&mut self, number: u64, response: &Response, lent: &Room)
        requires { length self.old ≤ HELD }
        ensures text { self.new ≡ self.old ++ line number (answer_of lent.now response.now) }
        ensures few { length self.new ≤ MOST_HELD }
    {
        let room = self.room.as_mut_slice();
        let at = self.count.put(number, room, self.end);
        let at = put_reply(room, at, response.outcome, lent);
        let at = put_marks(room, at, &response.messages);
        self.end = put_word(room, at, *b"\n");
    }

    // The line of what an event leaves for a pool.
    #[tactic(auto, unfolding(crate::specs::Text::item_line))]
    pub(crate) fn hold_item(&mut self, number: u64, given: Given<'_>)
        requires { length self.old ≤ HELD }
        ensures text { self.new ≡ self.old ++ item_line number (item_of given.entry) }
        ensures few { length self.new ≤ MOST_HELD }
    {
        let room = self.room.as_mut_slice();
        let at = self.count.put(number, room, self.end);
        let at = put_given(room, at, given);
        self.end = put_word(room, at, *b"\n");
    }

    // The line of what is seen of a lone function.
    #[tactic(auto, unfolding(crate::specs::Text::seen_line))]
    pub(crate) fn hold_seen(&mut self, number: u64, pool: PoolId, seen: Seen, lent: &Room)
        requires { length self.old ≤ HELD }
        ensures text { self.new
            ≡ self.old ++ seen_line pool number (observation_of lent.now seen) }
        ensures few { length self.new ≤ MOST_HELD }
    {
        let room = self.room.as_mut_slice();
        let at = self.count.put(number, room, self.end);
        let at = put_observation(room, at, pool, seen, lent);
        self.end = put_word(room, at, *b"\n");
    }
}

// What an event leaves for a pool, after a space.
fn put_given(room: &mut [u8], at: usize, given: Given<'_>) -> usize
    requires { at + MOST_ITEM ≤ length room.old }
    ensures end { result ≤ at + MOST_ITEM }
    ensures text { take result room.new ≡ take at room.old ++ item_text (item_of given.entry) }
{
    match given {
        Given::OwnEvent(_) => put_word(room, at, *b" event"),
        Given::NewSettings(_) => put_word(room, at, *b" settings"),
        Given::Gone => put_word(room, at, *b" gone"),
        Given::Offer(frame, looped) => {
            let at = put_word(room, at, *b" offer ");
            let at = put_word(room, at, if looped { *b"1 " } else { *b"0 " });
            put_digits(room, at, frame.bytes())
        }
    }
}

// The reply, if there is one, and the pool's mark. Bytes that were read stand first in the room that was lent.
fn put_observation(room: &mut [u8], at: usize, pool: PoolId, seen: Seen, lent: &Room) -> usize
    requires { at + MOST_REPLY + MOST_MARK ≤ length room.old }
    ensures end { result ≤ at + MOST_REPLY + MOST_MARK }
    ensures text { take result room.new
        ≡ take at room.old ++ seen_text pool (observation_of lent.now seen) }
{
    match seen {
        Seen::Replied(outcome, vectors) => {
            let at = put_reply(room, at, outcome, lent);
            put_mark(room, at, pool, vectors)
        }
        Seen::Interrupted(vectors) => put_mark(room, at, pool, vectors),
    }
}
