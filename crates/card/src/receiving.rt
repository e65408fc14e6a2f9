//! Messages of a function's client.
ghost use Rattle.std.specs.Prelude.{◌≡◌, ◌≤◌, [], ◌∷◌, IfSome};
ghost use Rattle.device.specs.declared.event.Event.TheVariants.{VfWrite};
ghost use Rattle.device.specs.World.{step};
ghost use Rattle.vfio_session.specs.Decisions.{Says, ask_of, breach_of, count_of, owed_of};
ghost use Rattle.vfio_session.specs.Received.{received};
ghost use Rattle.hosted.specs.Hosted.{LeavesOthers};
ghost use Rattle.hosted.specs.Turns.{mailboxes_written, read_reply, write_turns};
ghost use Rattle.card.specs.Card.{LeavesAlone, end_at, with_end};
ghost use Rattle.card.specs.Life.{HasLived, Hears, Resets};
ghost use Rattle.card.specs.Steps.{breach_in, count_in, order_in, owed_in};
ghost use Rattle.card.specs.Told.{after_read, after_reset, after_write, asked, joined, marked, told, turned, value_in, with_session};

use crate::card::Card;
use crate::step::{Order, Step};
use irq_causes::{Messages, Vectors};
use live_memory::Dma;
use vfio_session::{Ask, Decision, Owed, ROOM, Settled};
use wire_frame::PoolId;

/// The tails of the transmit queues (82599 datasheet, VFTDT).
const TAIL_0: u32 = 0x2018;

const TAIL_1: u32 = 0x2058;

impl<D: Dma<K>, K> Card<D, K> {
    /// Takes a whole message of a function's client, header and body, with the number of files that came beside it. Registers are read
    /// and written, and resets done, before the call returns; what needs a file or a mapping is left to the shell ([`Step`]).
    ///
    /// The reply stands at the front of the room, and the rest of the room stays as it was; without a reply all of it does.
    ///
    /// No descriptor is taken: a write of a transmit queue's tail marks the queue, for [`Card::more`]. An answer of the host to the
    /// driver's mailbox is done at once. A register that the model doesn't have reads as zero, and a write of it is dropped; so does each
    /// register of a function without a guest.
    pub fn receive(
        &mut self,
        pool: PoolId,
        message: &[u8],
        files: usize,
        room: &mut [u8; ROOM],
    ) -> Step
        ensures card { self.new ≡ (told self.old pool message.now files).card }
        ensures lived { HasLived (Hears pool message.now files ∷ []) self.old self.new }
        ensures reply { Says (count_in result) room.old room.new (told self.old pool message.now files).reply }
        ensures most { IfSome (count_in result) (λ count. count ≤ 4128) }
        ensures order { order_in result ≡ (told self.old pool message.now files).order }
        ensures owed { owed_in result ≡ (told self.old pool message.now files).owed }
        ensures ends { breach_in result ≡ (told self.old pool message.now files).ends }
        ensures others { LeavesAlone pool self.old self.new }
    {
        match self.hear(pool, message, files, room) {
            Decision::Answered(count) => Step::Answered(count),
            Decision::Asks(ask, owed) => self.act(pool, ask, owed, room),
            Decision::Ends(breach) => Step::Ends(breach),
        }
    }

    // The function's session takes the message.
    fn hear(
        &mut self,
        pool: PoolId,
        message: &[u8],
        files: usize,
        room: &mut [u8; ROOM],
    ) -> Decision
        ensures card { self.new ≡ with_session self.old pool
            (received (end_at self.old pool).session message.now files) }
        ensures reply { Says (count_of result) room.old room.new
            (received (end_at self.old pool).session message.now files).reply }
        ensures most { IfSome (count_of result) (λ count. count ≤ 4128) }
        ensures asks { ask_of result ≡ (received (end_at self.old pool).session message.now files).asks }
        ensures owed { owed_of result ≡ (received (end_at self.old pool).session message.now files).owed }
        ensures ends { breach_of result ≡ (received (end_at self.old pool).session message.now files).ends }
        ensures others { LeavesAlone pool self.old self.new }
    {
        let session = &mut self.ends[usize::from(pool.get())].session;
        session.receive(message, files, room)
    }

    // Does what a session asks, and lays the reply, or leaves it to the shell.
    fn act(&mut self, pool: PoolId, ask: Ask, owed: Owed, room: &mut [u8; ROOM]) -> Step
        ensures card { self.new ≡ (asked self.old pool ask owed).card }
        ensures reply { Says (count_in result) room.old room.new (asked self.old pool ask owed).reply }
        ensures most { IfSome (count_in result) (λ count. count ≤ 4128) }
        ensures order { order_in result ≡ (asked self.old pool ask owed).order }
        ensures owed { owed_in result ≡ (asked self.old pool ask owed).owed }
        ensures ends { breach_in result ≡ (asked self.old pool ask owed).ends }
        ensures others { LeavesAlone pool self.old self.new }
    {
        match ask {
            Ask::Read(offset) => {
                let value = self.read(pool, offset);
                Step::Answered(owed.answer(Settled::Value(value), room))
            }
            Ask::Write(offset, value) => {
                self.write(pool, offset, value);
                Step::Answered(owed.answer(Settled::Finished, room))
            }
            Ask::Reset => {
                self.flr(pool);
                Step::Answered(owed.answer(Settled::Finished, room))
            }
            Ask::Map(mapping) => Step::Asks(Order::Map(mapping), owed),
            Ask::Unmap(range) => Step::Asks(Order::Unmap(range), owed),
            Ask::Arm(vectors) => Step::Asks(Order::Arm(vectors), owed),
            Ask::Disarm(vectors) => Step::Asks(Order::Disarm(vectors), owed),
        }
    }

    // Reads a register.
    fn read(&mut self, pool: PoolId, offset: u32) -> u32
        ensures value { result ≡ value_in (read_reply self.old.hosted pool offset) }
        ensures card { self.new ≡ after_read self.old pool offset }
        ensures others { LeavesAlone pool self.old self.new }
    {
        match self.hosted.vf_read(pool.get(), offset) {
            Ok(value) => value,
            Err(_) => 0,
        }
    }

    // Writes a register.
    fn write(&mut self, pool: PoolId, offset: u32, value: u32)
        ensures card { self.new ≡ after_write self.old pool offset value }
        ensures others { LeavesAlone pool self.old self.new }
    {
        let messages = self.write_device(pool, offset, value);
        self.raise(pool, messages.to(pool));
        self.mark(pool, offset);
    }

    // Writes a register of the device with its host, and tells whom this sends messages.
    fn write_device(&mut self, pool: PoolId, offset: u32, value: u32) -> Messages
        ensures messages { result ≡ (step self.old.hosted.device.world (VfWrite pool offset value)).answer.raised }
        ensures hosted { self.new.hosted ≡ turned self.old.hosted
            (write_turns self.old.hosted pool offset value)
            (mailboxes_written self.old.hosted pool offset value) }
        ensures ends { self.new.ends ≡ self.old.ends }
        ensures raised { self.new.raised ≡ self.old.raised }
        ensures others { LeavesOthers pool self.old.hosted self.new.hosted }
    {
        match self.hosted.vf_write(pool.get(), offset, value) {
            Ok(messages) => messages,
            Err(_) => Messages::none(),
        }
    }

    // A function gets more vectors.
    #[tactic(auto, using(irq_causes::proofs::Bounds::or_below_eight, crate::proofs::Raised::either_or))]
    pub(crate) fn raise(&mut self, pool: PoolId, more: Vectors)
        ensures raised { self.new.raised ≡ joined self.old.raised pool more }
        ensures hosted { self.new.hosted ≡ self.old.hosted }
        ensures ends { self.new.ends ≡ self.old.ends }
    {
        let before = self.raised.to(pool);
        self.raised
            .set(pool, Vectors::from_bits(before.bits() | more.bits()));
    }

    // A queue whose tail is written may have descriptors.
    fn mark(&mut self, pool: PoolId, offset: u32)
        ensures { self.new ≡ with_end self.old pool (marked (end_at self.old pool) offset) }
    {
        let end = &mut self.ends[usize::from(pool.get())];
        end.busy_0 = end.busy_0 || offset == TAIL_0;
        end.busy_1 = end.busy_1 || offset == TAIL_1;
    }

    /// Resets a function from outside (SR-IOV 1.1, function-level reset): its registers become initial, the host forgets what its guest
    /// asked for, the mailbox tells the driver, no queue is busy, and nothing waits to be signalled. The session stays as it is.
    #[tactic(auto, using(crate::proofs::Calls::reset_lives))]
    pub fn flr(&mut self, pool: PoolId)
        ensures card { self.new ≡ after_reset self.old pool }
        ensures lived { HasLived (Resets pool ∷ []) self.old self.new }
        ensures others { LeavesAlone pool self.old self.new }
    {
        // a function without a guest has nothing to reset
        let _ = self.hosted.flr(pool.get());
        let end = &mut self.ends[usize::from(pool.get())];
        end.busy_0 = false;
        end.busy_1 = false;
        self.raised.set(pool, Vectors::none());
    }
}
