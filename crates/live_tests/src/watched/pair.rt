//! A device over memories that change, and beside it one over plain memories that are given what the first one read.

use super::due::Due;
use super::guests::{SENDS, SIZE};
use super::log::{Access, Log};
use super::memory::{Guest, Watched};
use super::tally::Tally;
use device::bytes::MOST_BYTES;
use device::{Device, MemSlice, Outcome, Request, Response, Room};
use guest_memory::FlatMem;
use live_memory::Shared;
use std::alloc::Global;
use std::cell::RefCell;
use std::rc::Rc;
use std::test::Fail;
use wire_frame::FrameBuf;

// Why the two devices don't agree.
pub type Wrong = &'static str;

// What is known of a function: its log, its memory as the log has it, and what an event is to do to it.
#[derive(Drop)]
struct Known {
    pool: u8,
    log: Rc<RefCell<Log>>,
    image: Vec<u8>,
    due: Due,
}

// The two devices.
#[derive(Drop)]
pub struct Pair<G: Guest> {
    live: Device<Watched<G>, Shared>,
    plain: Device<FlatMem>,
    known: Vec<Known>,
    rooms: (Room, Room),
    // What came up.
    pub tally: Tally,
}

// A memory of [`SIZE`] zero bytes.
fn zeros(alloc: Global) -> Result<Vec<u8>, Fail> {
    let mut bytes = Vec::new(alloc);
    bytes.resize(SIZE, 0)?;
    Ok(bytes)
}

impl<G: Guest> Pair<G> {
    // Two devices with a function for each guest, as they are made.
    pub fn new(alloc: Global, guests: Vec<G>) -> Result<Pair<G>, Fail> {
        let (mut memories, mut plain) = (Vec::new(alloc), Vec::new(alloc));
        let mut known = Vec::new(alloc);
        for guest in guests {
            let pool = known.len().min(255) as u8;
            let log = Rc::new(alloc, RefCell::new(Log::new(alloc)?))?;
            let image = zeros(alloc)?;
            memories.push(Watched::new(alloc, SIZE, guest, log.clone()?)?)?;
            plain.push(FlatMem::new(alloc, SIZE as u64)?)?;
            let due = Due::new(alloc, pool)?;
            known.push(Known {
                pool,
                log,
                image,
                due,
            })?;
        }
        Ok(Pair {
            live: Device::new(alloc, memories)?,
            plain: Device::new(alloc, plain)?,
            known,
            rooms: (Room::new(), Room::new()),
            tally: Tally::default(),
        })
    }

    // Gives both devices an event: to the second one after the writes of what the first one read. What the first one read and wrote
    // is compared with what is due.
    pub fn take(&mut self, request: Request<'_>) -> Result<Outcome, Wrong> {
        for known in &self.known {
            known
                .log
                .try_borrow_mut()
                .map_err(|_| "the log is lent")?
                .clear();
        }
        let taken = take_live(&mut self.live, request, &mut self.rooms.0);
        write_what_was_read(&mut self.plain, &self.known)?;
        let sent = self.rooms.0.sent(&taken).map(|frame| frame.bytes());
        for known in self.known.iter_mut() {
            known.due.work_out(&mut self.plain, request, sent);
        }
        let due = take_plain(&mut self.plain, request, &mut self.rooms.1);
        compare(&self.rooms, &taken, &due)?;
        let outcome = taken.outcome;
        self.tally.add_response(request, &taken);
        self.look_at_accesses(request, outcome)?;
        self.look_at_memories(request)?;
        Ok(outcome)
    }

    // Whether the accesses to each memory are those that are due, and nothing else.
    fn look_at_accesses(&mut self, request: Request<'_>, outcome: Outcome) -> Result<(), Wrong> {
        for known in self.known.iter_mut() {
            let log = known.log.try_borrow().map_err(|_| "the log is lent")?;
            known.due.compare(&mut self.plain, &*log, &mut self.tally)?;
            known.due.go_on(request, outcome);
        }
        Ok(())
    }

    // Whether each memory is what the log makes of it, and the log is as it should be.
    fn look_at_memories(&mut self, request: Request<'_>) -> Result<(), Wrong> {
        for known in self.known.iter_mut() {
            let log = known.log.try_borrow().map_err(|_| "the log is lent")?;
            if !log.is_whole() {
                return Err("the log has no room");
            }
            if !log.accesses().is_empty() {
                look_at_log(&*log, known.image.as_slice(), &mut self.tally)?;
                if log.has_writes() {
                    self.tally.add_written(request, known.pool);
                }
                lay(&*log, known.image.as_mut_slice());
                compare_memory(&self.plain, known.pool, known.image.as_slice())?;
            }
        }
        Ok(())
    }
}

// Takes an event on the first device. It promises nothing, so what the call promises isn't carried along in what calls it.
fn take_live<G: Guest>(
    live: &mut Device<Watched<G>, Shared>,
    request: Request<'_>,
    room: &mut Room,
) -> Response {
    live.take_live(request, room)
}

// The same on the second one.
fn take_plain(plain: &mut Device<FlatMem>, request: Request<'_>, room: &mut Room) -> Response {
    plain.take(request, room)
}

// Gives the plain memories what was read, each by writes of its function's own.
fn write_what_was_read(plain: &mut Device<FlatMem>, all: &[Known]) -> Result<(), Wrong> {
    for known in all {
        let log = known.log.try_borrow().map_err(|_| "the log is lent")?;
        for access in log.accesses() {
            if access.is_read {
                write_in_pieces(plain, known.pool, access.at, log.bytes(access))?;
            }
        }
    }
    Ok(())
}

// Writes bytes, at most 2048 by each event.
fn write_in_pieces(
    plain: &mut Device<FlatMem>,
    pool: u8,
    at: u64,
    bytes: &[u8],
) -> Result<(), Wrong> {
    let mut to = at;
    for piece in bytes.chunks(MOST_BYTES) {
        let piece = MemSlice::new(piece).map_err(|_| "a piece is too long")?;
        let done = plain.mem_write(pool, to, piece);
        done.map_err(|_| "what was read can't be written")?;
        to = to.saturating_add(MOST_BYTES as u64);
    }
    Ok(())
}

// Whether there are two frames of the same bytes, or none.
fn is_same_frame(one: Option<&FrameBuf>, other: Option<&FrameBuf>) -> bool {
    match (one, other) {
        (Some(one), Some(other)) => one.bytes() == other.bytes(),
        (None, None) => true,
        _ => false,
    }
}

// Whether both devices answered the same, each into its room.
fn compare(rooms: &(Room, Room), taken: &Response, due: &Response) -> Result<(), Wrong> {
    if taken.outcome != due.outcome {
        return Err("another outcome");
    }
    if taken.messages != due.messages {
        return Err("other messages");
    }
    if !is_same_frame(rooms.0.sent(taken), rooms.1.sent(due)) {
        return Err("another frame was sent");
    }
    if !is_same_frame(rooms.0.left(taken), rooms.1.left(due)) {
        return Err("another frame left");
    }
    if rooms.0.read(taken.outcome) != rooms.1.read(due.outcome) {
        return Err("other bytes were read");
    }
    Ok(())
}

// Whether no access reads a byte that an earlier one read or wrote.
fn look_at_log(log: &Log, image: &[u8], tally: &mut Tally) -> Result<(), Wrong> {
    let accesses = log.accesses();
    for (place, access) in accesses.iter().enumerate() {
        tally.add_access(
            access,
            is_changed(log, access, image),
            access.is_in(SENDS, 0x80),
        );
        for earlier in accesses.iter().take(place) {
            if access.is_read && access.meets(earlier) {
                return Err("a byte is read that was read or written before");
            }
            tally.add_apart(access);
        }
    }
    Ok(())
}

// Whether a read gives something else than what the device knew.
fn is_changed(log: &Log, access: &Access, image: &[u8]) -> bool {
    let bytes = log.bytes(access);
    let known = image.iter().skip(access.at as usize);
    access.is_read && bytes.iter().zip(known).any(|(byte, known)| byte != known)
}

// Lays all that was read and written over a memory, in order.
fn lay(log: &Log, image: &mut [u8]) {
    for access in log.accesses() {
        let cells = image.iter_mut().skip(access.at as usize);
        for (cell, byte) in cells.zip(log.bytes(access)) {
            *cell = *byte;
        }
    }
}

// Whether a plain memory has these bytes.
fn compare_memory(plain: &Device<FlatMem>, pool: u8, image: &[u8]) -> Result<(), Wrong> {
    let mut at = 0u64;
    for piece in image.chunks(MOST_BYTES) {
        compare_piece(plain, pool, at, piece)?;
        at = at.saturating_add(MOST_BYTES as u64);
    }
    Ok(())
}

// The same of some of them, from an address on.
fn compare_piece(plain: &Device<FlatMem>, pool: u8, at: u64, piece: &[u8]) -> Result<(), Wrong> {
    let mut there = [0u8; MOST_BYTES];
    let count = piece.len().min(MOST_BYTES);
    let read = plain.mem_read(pool, at, &mut there[..count]);
    read.map_err(|_| "a memory can't be read")?;
    if there[..count] != piece[..count] {
        return Err("another memory");
    }
    Ok(())
}
