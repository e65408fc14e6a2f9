//! The accesses that an event is to make, worked out by what the registers and the memory of a function hold before it, from the
//! datasheet's rules and without the device's code.
//!
//! A service reads the descriptor at the head, 16 bytes; the bytes that it names, but for those of the descriptor itself, which were
//! read with it; and writes its second word back, where the driver asks for it. A frame that comes reads the first word of each
//! descriptor that it needs; writes the pieces in order; and then writes the descriptors back in order. A piece whose tag was taken
//! off is written in two parts, since it stands in two. An event that reads or writes memory is one access, and so is one that opens a
//! function, which writes zero at every byte; any other is none.
use super::guests::SIZE;
use super::log::Log;
use super::pair::Wrong;
use super::ring::{Ring, register};
use super::tally::Tally;
use device::bytes::MOST_BYTES;
use device::{Device, Outcome, Queue, Request};
use guest_memory::FlatMem;
use script_support::registers::{
    ENABLE, PFVFTE, RDBAL0, SRRCTL0, TDBAL0, TDBAL1, TXDCTL0, TXDCTL1, VFCTRL,
};
use std::alloc::{AllocError, Global};

// The most bytes of a frame.
const LIMIT: u64 = 1518;

// RST, of VFCTRL.
const RESET: u32 = 1 << 26;

// The bytes of both addresses, which stand before a tag of four bytes.
const ADDRESSES: usize = 12;

const BEHIND_TAG: usize = 16;

// Flags of a transmit descriptor's second word: EOP, RS, DEXT, VLE and TSE; and DD, as it is written back.
const LAST: u64 = 1 << 24;

const REPORT: u64 = 1 << 27;

const ADVANCED: u64 = 1 << 29;

const TAG: u64 = 1 << 30;

const SEGMENTS: u64 = 1 << 31;

const DONE: u64 = 1 << 32;

// What is due of one function.
#[derive(Drop)]
pub struct Due {
    pool: u8,
    // How many bytes of a frame queues 0 and 1 have gathered, `None` where they are too many.
    gathered: (Option<u64>, Option<u64>),
    // The accesses of an event of the function's own, and those of a frame that comes to it, where it takes it.
    own: Log,
    arrived: Log,
    // Its receive ring before the event, where a frame may come.
    before: Option<Ring>,
    // Whether the bytes of a descriptor aren't read, since its frame is too long.
    is_unread: bool,
}

// A transmit descriptor: where it stands, and its words.
#[derive(Clone, Copy)]
struct Descriptor {
    at: u64,
    buffer: u64,
    word: u64,
}

// What a descriptor is.
enum Kind {
    Context,
    Unusable,
    Data,
}

impl Descriptor {
    fn len(&self) -> u64 {
        self.word % 65_536
    }

    fn has(&self, flag: u64) -> bool {
        self.word & flag != 0
    }

    fn kind(&self) -> Kind {
        let number = (self.word >> 20) % 16;
        if self.has(ADVANCED) && number == 2 {
            return Kind::Context;
        }
        let is_odd = self.has(ADVANCED) && (number != 3 || self.has(SEGMENTS) || self.has(TAG));
        if is_odd || self.buffer.saturating_add(self.len()) > SIZE as u64 {
            return Kind::Unusable;
        }
        Kind::Data
    }
}

// The word that a plain memory has at an address.
fn word_at(plain: &Device<FlatMem>, pool: u8, at: u64) -> u64 {
    let mut bytes = [0u8; 8];
    match plain.mem_read(pool, at, &mut bytes) {
        Ok(()) => u64::from_le_bytes(bytes),
        Err(_) => 0,
    }
}

// Adds a read of what a plain memory has there, at most 2048 bytes; none where it can't be read.
fn add_read(due: &mut Log, plain: &Device<FlatMem>, pool: u8, at: u64, count: u64) {
    let mut bytes = [0u8; MOST_BYTES];
    let count = count.min(MOST_BYTES as u64) as usize;
    if plain.mem_read(pool, at, &mut bytes[..count]).is_ok() {
        due.add(true, at, &bytes[..count]);
    }
}

// Whether so many bytes can be written there.
fn has_room(plain: &Device<FlatMem>, pool: u8, at: u64, count: usize) -> bool {
    let mut bytes = [0u8; MOST_BYTES];
    let count = count.min(MOST_BYTES);
    plain.mem_read(pool, at, &mut bytes[..count]).is_ok()
}

// The tag control of a frame that has a tag.
fn tag_of(frame: &[u8]) -> Option<u64> {
    let (Some(0x81), Some(0)) = (frame.get(12), frame.get(13)) else {
        return None;
    };
    let high = u64::from(frame.get(14).copied().unwrap_or(0));
    let low = u64::from(frame.get(15).copied().unwrap_or(0));
    Some(high << 8 | low)
}

// Lays the bytes of a frame that are placed, and tells how many they are.
fn lay(text: &mut [u8; MOST_BYTES], frame: &[u8], is_stripped: bool) -> usize {
    let mut count = 0usize;
    for (place, byte) in frame.iter().enumerate() {
        let is_tag = is_stripped && place >= ADDRESSES && place < BEHIND_TAG;
        if !is_tag {
            if let Some(cell) = text.get_mut(count) {
                *cell = *byte;
                count = count.saturating_add(1);
            }
        }
    }
    count
}

// The first bytes of a text.
fn first_of(text: &[u8; MOST_BYTES], count: usize) -> &[u8] {
    &text[..count.min(MOST_BYTES)]
}

// Adds the write of a piece, in two parts where it begins with addresses whose tag was taken off.
fn add_piece(due: &mut Log, at: u64, piece: &[u8], is_in_parts: bool) {
    if is_in_parts && piece.len() >= ADDRESSES {
        due.add(false, at, &piece[..ADDRESSES]);
        let behind = at.saturating_add(ADDRESSES as u64);
        due.add(false, behind, &piece[ADDRESSES..]);
    } else {
        due.add(false, at, piece);
    }
}

// Adds the write of a receive descriptor that is done, whose second word is this.
fn add_written_back(due: &mut Log, at: u64, word: u64) {
    let mut bytes = [0u8; 16];
    bytes[8..].copy_from_slice(&word.to_le_bytes());
    due.add(false, at, &bytes);
}

// What the last descriptor of a frame has beside its length, DD and EOP, and the tag where one was taken off.
fn last_flags(tag: Option<u64>) -> u64 {
    match tag {
        Some(tag) => 2 | 8 | tag << 48,
        None => 2,
    }
}

// Whether some accesses of an event, from one of them on, are those that are due.
fn compare_from(log: &Log, from: usize, due: &Log) -> Result<(), Wrong> {
    if !due.is_whole() {
        return Err("what is due has no room");
    }
    for (access, wanted) in log.accesses().iter().skip(from).zip(due.accesses().iter()) {
        if access.is_read != wanted.is_read {
            return Err("a read for a write, or a write for a read");
        }
        if access.at != wanted.at || access.count != wanted.count {
            return Err("an access to other bytes than are due");
        }
        if log.bytes(access) != due.bytes(wanted) {
            return Err("an access with other bytes than are due");
        }
    }
    Ok(())
}

impl Due {
    pub fn new(alloc: Global, pool: u8) -> Result<Due, AllocError> {
        Ok(Due {
            pool,
            gathered: (Some(0), Some(0)),
            own: Log::new(alloc)?,
            arrived: Log::new(alloc)?,
            before: None,
            is_unread: false,
        })
    }

    // Works out what an event is to do, which sends this frame, before the plain device takes it.
    pub fn work_out(
        &mut self,
        plain: &mut Device<FlatMem>,
        request: Request<'_>,
        sent: Option<&[u8]>,
    ) {
        self.own.clear();
        self.arrived.clear();
        self.before = None;
        self.is_unread = false;
        match request {
            Request::Open(pool) => self.open(plain, pool),
            Request::MemRead(pool, at, count) => self.read(plain, pool, at, u64::from(count)),
            Request::MemWrite(pool, at, bytes) => self.write(plain, pool, at, bytes.bytes()),
            Request::Serve(pool, queue) => self.serve(plain, pool, queue),
            Request::Wire(frame) => self.arrive(plain, frame.bytes(), false),
            _ => {}
        }
        if let Some(frame) = sent {
            self.arrive(plain, frame, true);
        }
    }

    // The function's opening, where it is closed: zero at every byte.
    fn open(&mut self, plain: &Device<FlatMem>, pool: u8) {
        if pool == self.pool && !has_room(plain, pool, 0, 0) {
            self.own.add(false, 0, &[0; SIZE]);
        }
    }

    // A read of a memory.
    fn read(&mut self, plain: &Device<FlatMem>, pool: u8, at: u64, count: u64) {
        if pool == self.pool && count <= MOST_BYTES as u64 {
            add_read(&mut self.own, plain, pool, at, count);
        }
    }

    // A write to a memory.
    fn write(&mut self, plain: &Device<FlatMem>, pool: u8, at: u64, bytes: &[u8]) {
        if pool == self.pool && has_room(plain, pool, at, bytes.len()) {
            self.own.add(false, at, bytes);
        }
    }

    // A service of a queue.
    fn serve(&mut self, plain: &mut Device<FlatMem>, pool: u8, queue: Queue) {
        let first = match queue {
            Queue::Q0 => TDBAL0,
            Queue::Q1 => TDBAL1,
        };
        let may_send = match plain.pf_read(PFVFTE) {
            Ok(pools) => pools >> u32::from(self.pool % 32) & 1 != 0,
            Err(_) => false,
        };
        if pool != self.pool || !may_send {
            return;
        }
        let Some(ring) = Ring::read(plain, pool, first) else {
            return;
        };
        if ring.is_on() && ring.owned() != 0 {
            let at = ring.slot(0);
            add_read(&mut self.own, plain, pool, at, 16);
            let descriptor = Descriptor {
                at,
                buffer: word_at(plain, pool, at),
                word: word_at(plain, pool, at.saturating_add(8)),
            };
            match queue {
                Queue::Q0 => self.gathered.0 = self.take(plain, descriptor, self.gathered.0),
                Queue::Q1 => self.gathered.1 = self.take(plain, descriptor, self.gathered.1),
            }
        }
    }

    // Takes a descriptor: what is gathered then.
    fn take(
        &mut self,
        plain: &Device<FlatMem>,
        descriptor: Descriptor,
        gathered: Option<u64>,
    ) -> Option<u64> {
        match descriptor.kind() {
            Kind::Context => return gathered,
            Kind::Unusable => return Some(0),
            Kind::Data => {}
        }
        let joined = match gathered {
            Some(count) => Some(count.saturating_add(descriptor.len())),
            None => None,
        };
        let joined = joined.filter(|count| *count <= LIMIT);
        if joined.is_some() {
            self.read_data(plain, descriptor);
        } else {
            self.is_unread = true;
        }
        if descriptor.has(REPORT) {
            let word = descriptor.word | DONE;
            let at = descriptor.at.saturating_add(8);
            self.own.add(false, at, &word.to_le_bytes());
        }
        if descriptor.has(LAST) {
            Some(0)
        } else {
            joined
        }
    }

    // The bytes that a descriptor names, before it and behind it.
    fn read_data(&mut self, plain: &Device<FlatMem>, descriptor: Descriptor) {
        let end = descriptor.buffer.saturating_add(descriptor.len());
        let before = end.min(descriptor.at);
        if descriptor.buffer < before {
            let count = before - descriptor.buffer;
            add_read(&mut self.own, plain, self.pool, descriptor.buffer, count);
        }
        let behind = descriptor.buffer.max(descriptor.at.saturating_add(16));
        if behind < end {
            add_read(&mut self.own, plain, self.pool, behind, end - behind);
        }
    }

    // A frame that comes, from another function where it is looped.
    fn arrive(&mut self, plain: &mut Device<FlatMem>, frame: &[u8], is_looped: bool) {
        self.before = Ring::read(plain, self.pool, RDBAL0);
        let Some(ring) = self.before else {
            return;
        };
        if !ring.is_on() {
            return;
        }
        let buffers = register(plain, self.pool, SRRCTL0).unwrap_or(0);
        let size = (buffers as usize % 32).max(1).saturating_mul(1024);
        let tag = if ring.strips() { tag_of(frame) } else { None };
        let mut text = [0u8; MOST_BYTES];
        let count = lay(&mut text, frame, tag.is_some());
        let text = first_of(&text, count);
        let loopback = if is_looped { 1 << 18 } else { 0 };
        self.place(plain, ring, text, size, tag, loopback);
    }

    // Places bytes in buffers of a size.
    fn place(
        &mut self,
        plain: &Device<FlatMem>,
        ring: Ring,
        text: &[u8],
        size: usize,
        tag: Option<u64>,
        loopback: u64,
    ) {
        let size = size.max(1);
        let count = text.chunks(size).count();
        if ring.owned() < count as u64 {
            return;
        }
        for (place, piece) in text.chunks(size).enumerate() {
            let slot = ring.slot(place as u64);
            add_read(&mut self.arrived, plain, self.pool, slot, 8);
            let to = word_at(plain, self.pool, slot);
            if to.saturating_add(piece.len() as u64) > SIZE as u64 {
                return;
            }
        }
        for (place, piece) in text.chunks(size).enumerate() {
            let to = word_at(plain, self.pool, ring.slot(place as u64));
            let is_in_parts = place == 0 && tag.is_some();
            add_piece(&mut self.arrived, to, piece, is_in_parts);
        }
        for (place, piece) in text.chunks(size).enumerate() {
            let is_last = place.saturating_add(1) == count;
            let flags = if is_last { last_flags(tag) } else { 0 };
            let word = 1 | flags | loopback | (piece.len() as u64) << 32;
            add_written_back(&mut self.arrived, ring.slot(place as u64), word);
        }
    }

    // Whether the function took a frame of the event, or tried to: its head went on, or its queue went off.
    fn is_received(&self, plain: &mut Device<FlatMem>) -> bool {
        let Some(before) = self.before else {
            return false;
        };
        match Ring::read(plain, self.pool, RDBAL0) {
            Some(after) => before.head != after.head || before.is_on() && !after.is_on(),
            None => false,
        }
    }

    // Whether the accesses of the event are those that are due, after the plain device took it.
    pub fn compare(
        &self,
        plain: &mut Device<FlatMem>,
        log: &Log,
        tally: &mut Tally,
    ) -> Result<(), Wrong> {
        let is_received = self.is_received(plain);
        let own = self.own.accesses().len();
        let arrived = if is_received {
            self.arrived.accesses().len()
        } else {
            0
        };
        if log.accesses().len() < own.saturating_add(arrived) {
            return Err("fewer accesses than are due");
        }
        if log.accesses().len() > own.saturating_add(arrived) {
            return Err("more accesses than are due");
        }
        compare_from(log, 0, &self.own)?;
        if is_received {
            compare_from(log, own, &self.arrived)?;
            tally.add_arrived(&self.arrived);
        }
        tally.add_own(self.is_unread);
        Ok(())
    }

    // What an event leaves that isn't a service: frames that were begun are dropped with their queues.
    pub fn go_on(&mut self, request: Request<'_>, outcome: Outcome) {
        match (request, outcome) {
            (Request::Open(pool), Outcome::Done) => self.drop_frames(pool),
            (Request::End(pool), _) => self.drop_frames(pool),
            (Request::Flr(pool), _) => self.drop_frames(pool),
            (Request::VfWrite(pool, offset, value), _) if pool == self.pool => {
                self.write_register(offset, value)
            }
            _ => {}
        }
    }

    fn drop_frames(&mut self, pool: u8) {
        if pool == self.pool {
            self.gathered = (Some(0), Some(0));
        }
    }

    // A register that is written.
    fn write_register(&mut self, offset: u32, value: u32) {
        if offset == VFCTRL && value & RESET != 0 {
            self.gathered = (Some(0), Some(0));
        }
        if offset == TXDCTL0 && value & ENABLE == 0 {
            self.gathered.0 = Some(0);
        }
        if offset == TXDCTL1 && value & ENABLE == 0 {
            self.gathered.1 = Some(0);
        }
    }
}
