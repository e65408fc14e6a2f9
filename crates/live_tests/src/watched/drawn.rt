//! Events by chance, for a device of three functions.
use super::chance::Chance;
use super::guests::{RECEIVES, SENDS};
use super::memory::Guest;
use super::pair::{Pair, Wrong};
use device::bytes::MOST_BYTES;
use device::{MemSlice, Queue, Request};
use script_support::registers::{
    ADVANCED, ENABLE, MPSAR, PFDTXGSWC, PFVFRE, PFVFSPOOF, PFVFTE, RAH, RAL, RDBAL0, RDH0, RDLEN0,
    RDT0, ROUTES, RXDCTL0, SRRCTL0, TDBAL0, TDH0, TDLEN0, TDT0, TXDCTL0, VALID, VFCTRL, VFGPRC,
    VFGPTC, VMOLR, VMVIR, VTEIAC, VTEICR, VTEIMS, VTIVAR,
};
use wire_frame::{Frame, FrameLimit};

// How many functions there are.
pub const FUNCTIONS: u8 = 3;

// All may receive and transmit, and frames go from one to another. The sources of function 0 are checked, and function 1 has the
// port's tag of VLAN 5. Each accepts untagged frames and broadcasts, and function 2 all frames to groups.
const SETTINGS: [(u32, u32); 8] = [
    (PFVFRE, 7),
    (PFVFTE, 7),
    (PFDTXGSWC, 1),
    (PFVFSPOOF, 1),
    (VMVIR + 4, 0x4000_0005),
    (VMOLR, 0x0900_0000),
    (VMOLR + 4, 0x0900_0000),
    (VMOLR + 8, 0x1900_0000),
];

// What a function's driver writes, in order. Tags are stripped.
const DRIVEN: [(u32, u32); 16] = [
    (TXDCTL0, 0),
    (RXDCTL0, 0),
    (TDH0, 0),
    (RDH0, 0),
    (TDBAL0, SENDS as u32),
    (TDLEN0, 128),
    (TXDCTL0, ENABLE),
    (TDT0, 7),
    (RDBAL0, RECEIVES as u32),
    (RDLEN0, 128),
    (SRRCTL0, ADVANCED | 1),
    (RXDCTL0, ENABLE | 1 << 30),
    (RDT0, 7),
    (VTIVAR, ROUTES),
    (VTEIAC, 7),
    (VTEIMS, 7),
];

// What is written at random beside these.
const OTHERS: [u32; 10] = [
    VFCTRL, TDBAL0, TDLEN0, TDH0, TXDCTL0, RDBAL0, RDLEN0, RDH0, SRRCTL0, RXDCTL0,
];

const READ: [u32; 6] = [VTEICR, VFGPRC, VFGPTC, TDH0, RDH0, TDT0];

// The limit of frames, in bytes.
const LIMIT: u32 = 1518;

// What draws the events, and the room for their bytes. Where a driver sets its function up, the function's number, and what it writes
// next.
#[derive(Drop)]
pub struct Drawn {
    chance: Chance,
    driver: u8,
    due: usize,
    bytes: [u8; MOST_BYTES],
}

// Opens the functions, each with its address, and sets them up.
pub fn set_up<G: Guest>(pair: &mut Pair<G>) -> Result<(), Wrong> {
    for (offset, value) in SETTINGS {
        pair.take(Request::PfWrite(offset, value))?;
    }
    for pool in 0..FUNCTIONS {
        let entry = u32::from(pool);
        pair.take(Request::PfWrite(RAL + 8 * entry, 2))?;
        pair.take(Request::PfWrite(RAH + 8 * entry, VALID | entry << 8))?;
        pair.take(Request::PfWrite(MPSAR + 8 * entry, 1 << entry))?;
        pair.take(Request::Open(pool))?;
        for (offset, value) in DRIVEN {
            pair.take(Request::VfWrite(pool, offset, value))?;
        }
    }
    Ok(())
}

impl Drawn {
    pub fn new(seed: u64) -> Drawn {
        Drawn {
            chance: Chance::new(seed),
            driver: 0,
            due: DRIVEN.len(),
            bytes: [0; MOST_BYTES],
        }
    }

    // The next event.
    pub fn next(&mut self) -> Request<'_> {
        if let Some((offset, value)) = DRIVEN.get(self.due).copied() {
            self.due = self.due.saturating_add(1);
            return Request::VfWrite(self.driver, offset, value);
        }
        let pool = self.chance.below(u32::from(FUNCTIONS)) as u8;
        match self.chance.below(64) {
            0..=23 => Request::Serve(pool, Queue::Q0),
            24 => Request::Serve(pool, Queue::Q1),
            25..=32 => self.wire(),
            33..=38 => Request::VfWrite(pool, TDT0, self.chance.below(9)),
            39..=44 => Request::VfWrite(pool, RDT0, self.chance.below(9)),
            45..=48 => Request::VfWrite(pool, TXDCTL0, ENABLE),
            49..=52 => Request::VfWrite(pool, RXDCTL0, ENABLE | 1 << 30),
            53..=56 => self.driven(pool),
            57..=59 => self.read(pool),
            60..=61 => self.write(pool),
            62 => Request::VfRead(pool, self.one_of(&READ)),
            _ => self.rare(pool),
        }
    }

    // One of these registers.
    fn one_of(&mut self, offsets: &[u32]) -> u32 {
        let place = self.chance.place(offsets.len());
        offsets.get(place).copied().unwrap_or(0)
    }

    // A write of a driver's: one of them, or the first of all.
    fn driven(&mut self, pool: u8) -> Request<'static> {
        let mut place = self.chance.place(DRIVEN.len());
        if self.chance.below(3) == 0 {
            (self.driver, self.due, place) = (pool, 1, 0);
        }
        let (offset, value) = DRIVEN.get(place).copied().unwrap_or((VTEIMS, 7));
        Request::VfWrite(pool, offset, value)
    }

    // A read of a guest's memory, some of which pass its end or are too long.
    fn read(&mut self, pool: u8) -> Request<'static> {
        let most = match self.chance.below(3) {
            0 => 17,
            1 => 600,
            _ => 2100,
        };
        let count = self.chance.below(most) % 4096;
        Request::MemRead(pool, u64::from(self.chance.below(4200)), count as u16)
    }

    // A write to a guest's memory.
    fn write(&mut self, pool: u8) -> Request<'_> {
        let count = self.chance.below(64) as usize;
        let at = u64::from(self.chance.below(4096));
        for byte in self.bytes.iter_mut().take(count) {
            *byte = (self.chance.next() % 256) as u8;
        }
        let count = count.min(self.bytes.len());
        match MemSlice::new(&self.bytes[..count]) {
            Ok(bytes) => Request::MemWrite(pool, at, bytes),
            Err(_) => Request::PfRead(0),
        }
    }

    // A frame of the wire.
    fn wire(&mut self) -> Request<'_> {
        let to = self.chance.below(5) as u8;
        let head = [2, 0, 0, 0, 0, to, 2, 0, 0, 0, 0, 0x99, 8, 0, 0, 0, 0, 0];
        for (cell, byte) in self.bytes.iter_mut().zip(head) {
            *cell = byte;
        }
        match self.chance.below(8) {
            0 => self.bytes[..6].fill(0xFF),
            1..=2 => self.bytes[12] = 0x81,
            _ => {}
        }
        let most = match self.chance.below(3) {
            0 => LIMIT - 17,
            1 => 100,
            _ => 43,
        };
        let end = 18usize.saturating_add(self.chance.below(most) as usize);
        let end = end.min(self.bytes.len());
        match Frame::new(&self.bytes[..end], FrameLimit::standard()) {
            Ok(frame) => Request::Wire(frame),
            Err(_) => Request::PfRead(0),
        }
    }

    // What comes up seldom: a write of any value, a reset, or a function that closes or opens.
    fn rare(&mut self, pool: u8) -> Request<'static> {
        match self.chance.below(32) {
            0 => Request::Flr(pool),
            1 => Request::End(pool),
            2..=19 => Request::Open(pool),
            20 => Request::Serve(FUNCTIONS, Queue::Q0),
            _ => {
                let value = self.chance.next() % (1 << 32);
                Request::VfWrite(pool, self.one_of(&OTHERS), value as u32)
            }
        }
    }
}
