//! The clients of a card, and the drivers behind them. Nothing here has a contract: a test's next lines are checked without what the card
//! promises of each call.
use card::{Card, Order, Room, Step, Vector};
use irq_causes::Vectors;
use live_memory::Shared;
use live_run::Frames;
use mailbox::{Notice, Policy, VlanPolicy};
use mapped_memory::LiveMem;
use offload::Offloads;
use script_support::registers::{VFMAILBOX, VFMBMEM};
use std::alloc::Global;
use std::test::Fail;
use vfio_session::{Breach, Fate, ROOM, Settled};
use wire_frame::{Fault, FrameBuf, FrameLimit, Mac, PoolId, Vid};

/// A card over memories that are the guests'.
pub type GuestCard<'a> = Card<LiveMem<'a>, Shared>;

/// What a step was, without the reply that is owed.
#[derive(Clone, Copy, Debug, PartialEq, Eq)]
pub enum Seen {
    /// The message is done.
    Answered,
    /// This was left to the shell, and is done now.
    Ordered(Order),
    /// The connection has to end.
    Ended(Breach),
}

/// A card, and the room for its replies.
#[derive(Drop)]
pub struct Clients<'a> {
    card: GuestCard<'a>,
    room: [u8; ROOM],
    count: Option<usize>,
    /// What becomes of the files of the last message.
    pub fate: Fate,
}

impl<'a> Clients<'a> {
    /// A card of so many vacant functions, whose policies may name the VLANs 0 and 100. It does nothing for drivers.
    pub fn vacant(alloc: Global, functions: usize) -> Result<Clients<'a>, Fail> {
        Clients::made_with(alloc, functions, Offloads::none())
    }

    /// The same with these offloads.
    pub fn made_with(
        alloc: Global,
        functions: usize,
        offloads: Offloads,
    ) -> Result<Clients<'a>, Fail> {
        let mut memories = Vec::new(alloc);
        for _ in 0..functions {
            memories.push(LiveMem::for_guest(alloc, 0)?)?;
        }
        let ids = [Vid::of_tag(0), Vid::of_tag(100)];
        let card = Card::for_guests(
            alloc,
            memories,
            &ids,
            None,
            FrameLimit::standard(),
            offloads,
        )?;
        Ok(Clients {
            card,
            room: [0xA5; ROOM],
            count: None,
            fate: Fate::Closed,
        })
    }

    /// A client sends a message with so many files beside it, and what is left to the shell is done.
    pub fn say(&mut self, pool: PoolId, message: &[u8], files: usize) -> Seen {
        self.room = [0xA5; ROOM];
        let step = self.card.receive(pool, message, files, &mut self.room);
        self.fate = step.fate();
        let (seen, count) = match step {
            Step::Answered(count) => (Seen::Answered, count),
            Step::Asks(order, owed) => {
                let count = owed.answer(Settled::Finished, &mut self.room);
                (Seen::Ordered(order), count)
            }
            Step::Ends(breach) => (Seen::Ended(breach), None),
        };
        self.count = count;
        seen
    }

    /// The card's own calls, as they are.
    pub fn functions(&self) -> usize {
        self.card.functions()
    }

    pub fn attach(&mut self, pool: PoolId, memory: LiveMem<'a>) -> bool {
        self.card.attach(pool, memory).is_ok()
    }

    pub fn offer_area(&mut self, pool: PoolId) {
        self.card.offer_area(pool);
    }

    /// The guest's memory, where there was one; a vacancy that comes from here stands in its place.
    pub fn detach(&mut self, pool: PoolId, alloc: Global) -> Result<LiveMem<'a>, Fail> {
        match self.card.detach(pool, LiveMem::for_guest(alloc, 0)?) {
            Ok(former) => Ok(former.into_memory()),
            Err(_) => Err("nobody was there".into()),
        }
    }

    /// Whether nobody is there to go.
    pub fn is_vacant(&mut self, pool: PoolId, alloc: Global) -> Result<bool, Fail> {
        let vacancy = LiveMem::for_guest(alloc, 0)?;
        Ok(self.card.detach(pool, vacancy).is_err())
    }

    /// The memory that was there.
    pub fn replace_memory(
        &mut self,
        pool: PoolId,
        memory: LiveMem<'a>,
    ) -> Result<LiveMem<'a>, Fail> {
        match self.card.replace_memory(pool, memory) {
            Ok(former) => Ok(former.into_memory()),
            Err(_) => Err("the memory is refused".into()),
        }
    }

    pub fn admit(&mut self, pool: PoolId, policy: &Policy) -> bool {
        self.card.admit(pool, policy).is_ok()
    }

    pub fn dismiss(&mut self, pool: PoolId) {
        self.card.dismiss(pool);
    }

    pub fn notify(&mut self, pool: PoolId) -> Notice {
        self.card.notify(pool)
    }

    pub fn flr(&mut self, pool: PoolId) {
        self.card.flr(pool);
    }

    pub fn more(&mut self, pool: PoolId, frames: &mut Frames) -> bool {
        self.card.more(pool, frames, &mut Room::new())
    }

    pub fn is_busy(&self, pool: PoolId) -> bool {
        self.card.is_busy(pool)
    }

    pub fn wire(&mut self, frame: &FrameBuf) -> Result<(), Fault> {
        self.card.wire(frame.as_frame())
    }

    /// How many of frames that lie behind one another were taken, and how many refused.
    pub fn wire_burst(&mut self, bytes: &[u8], ends: &[usize]) -> (usize, usize) {
        let came = self.card.wire_burst(bytes, ends);
        (came.taken, came.refused)
    }

    /// The functions of which vectors were raised that were not handed out, as a mask.
    pub fn raised(&self) -> u64 {
        self.card.raised().bits()
    }

    /// All vectors of a function that wait and have a file.
    pub fn signal(&mut self, pool: PoolId) -> u8 {
        self.signal_named(pool, 7)
    }

    /// Those of them that are named.
    pub fn signal_named(&mut self, pool: PoolId, vectors: u8) -> u8 {
        match Vectors::new(vectors) {
            Some(named) => self.card.signal(pool, named).bits(),
            None => 0,
        }
    }

    pub fn interval(&self, pool: PoolId, vector: Vector) -> u16 {
        self.card.interval(pool, vector)
    }

    /// Whether the last reply is this one, and nothing stands behind it.
    pub fn got(&self, due: &[u8]) -> bool {
        let (front, behind) = self.room.split_at(self.count.unwrap_or(0).min(ROOM));
        self.count.is_some() && front == due && behind.iter().all(|byte| *byte == 0xA5)
    }

    /// Whether there was no reply to the last message, and nothing was laid.
    pub fn got_none(&self) -> bool {
        self.count.is_none() && self.room.iter().all(|byte| *byte == 0xA5)
    }

    /// A client proposes version 0.0.
    pub fn begin(&mut self, pool: PoolId) -> Seen {
        let mut message = [0u8; 20];
        message[..8].copy_from_slice(&[0, 0, 1, 0, 20, 0, 0, 0]);
        self.say(pool, &message, 0)
    }

    /// A driver reads a register; `None` where the reply isn't one that has a value.
    pub fn read(&mut self, pool: PoolId, offset: u32) -> Option<u32> {
        self.say(pool, &read_message(offset), 0);
        let value = self.room.get(32..36)?;
        if self.count == Some(36) {
            Some(u32::from_le_bytes([value[0], value[1], value[2], value[3]]))
        } else {
            None
        }
    }

    /// A driver writes a register. The message is posted: it wants no reply, and gets none.
    pub fn write(&mut self, pool: PoolId, offset: u32, value: u32) -> bool {
        self.say(pool, &write_message(0, offset, value), 0) == Seen::Answered && self.got_none()
    }

    /// Writes of registers, one after another.
    pub fn write_all(&mut self, pool: PoolId, writes: &[(u32, u32)]) -> bool {
        let mut all = true;
        for (offset, value) in writes {
            all = self.write(pool, *offset, *value) && all;
        }
        all
    }

    /// A driver writes a word into its mailbox, takes it and rings; then it reads the first word.
    pub fn ask(&mut self, pool: PoolId, word: u32) -> Option<u32> {
        self.write_all(pool, &[(VFMBMEM, word), (VFMAILBOX, 4), (VFMAILBOX, 1)]);
        self.read(pool, VFMBMEM)
    }
}

/// The pool of a number.
pub fn pool(number: u8) -> Result<PoolId, Fail> {
    Ok(PoolId::new(number).ok_or("no such pool")?)
}

/// A policy with the address 02:82:59:90:00:LAST, which may join VLAN 0.
pub fn policy(last: u8) -> Policy {
    Policy {
        address: Mac([0x02, 0x82, 0x59, 0x90, 0x00, last]),
        may_choose: false,
        vlans: VlanPolicy::Joins(1),
        all_multicast: false,
        link_up: true,
    }
}

/// REGION_READ of a register of BAR 0.
pub fn read_message(offset: u32) -> [u8; 32] {
    let mut message = [0u8; 32];
    message[..8].copy_from_slice(&[7, 0, 9, 0, 32, 0, 0, 0]);
    message[16..20].copy_from_slice(&offset.to_le_bytes());
    message[28] = 4;
    message
}

/// REGION_WRITE of four bytes of a region, posted.
pub fn write_message(region: u8, offset: u32, value: u32) -> [u8; 36] {
    let mut message = [0u8; 36];
    message[..9].copy_from_slice(&[7, 0, 10, 0, 36, 0, 0, 0, 0x10]);
    message[16..20].copy_from_slice(&offset.to_le_bytes());
    message[24] = region;
    message[28] = 4;
    message[32..].copy_from_slice(&value.to_le_bytes());
    message
}

/// DEVICE_SET_IRQS that gives files to so many vectors of MSI-X, from the first one on: DATA_EVENTFD and ACTION_TRIGGER.
pub fn arm_message(count: u8) -> [u8; 36] {
    let mut message = [0u8; 36];
    message[..8].copy_from_slice(&[7, 0, 8, 0, 36, 0, 0, 0]);
    message[16] = 20;
    message[20] = 0x24;
    message[24] = 2;
    message[32] = count;
    message
}
