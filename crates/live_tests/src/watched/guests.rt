//! What guests write: frames, descriptors, addresses of buffers, and words anywhere.
use super::chance::Chance;
use super::memory::Guest;
use std::alloc::{AllocError, Global};
use std::sync::Arc;
use std::sync::atomic::{AtomicU64, Ordering};

// The size of a guest's memory.
pub const SIZE: usize = 4096;

// Where its ring of eight transmit descriptors stands, and that of eight receive descriptors.
pub const SENDS: u64 = 0;

pub const RECEIVES: u64 = 0x80;

// Where frames stand that it sends.
const FRAMES: [u64; 4] = [0x100, 0x180, 0x240, 0x400];

// Other addresses of what it sends: the rings, the last bytes of the memory, and what passes its end.
const OTHER_FRAMES: [u64; 10] = [0, 4, 8, 0x10, 0x38, 0x7C, 0x80, 0xFC4, 0xFFF, 0x1000];

// Where its receive buffers of 1 KiB stand: apart, over what it sends, over the rings, and past the end.
const BUFFERS: [u64; 3] = [0x800, 0xC00, 0x800];

const OTHER_BUFFERS: [u64; 6] = [0x400, 0x100, 0x40, 0, 0xC01, 0xFFFF_FFFF_FFFF_FFF0];

// Second words of transmit descriptors without their lengths: advanced data, with and without EOP and RS; legacy, without and with
// a tag to insert; a context descriptor; and an unusable one.
const COMMANDS: [u64; 3] = [0x2930_0000, 0x2130_0000, 0x0900_0000];

const OTHER_COMMANDS: [u64; 6] = [
    0x2830_0000,
    0x2030_0000,
    0x7_0000_4900_0000,
    0x0800_0000,
    0x2020_0000,
    0x2910_0000,
];

const LENGTHS: [u64; 4] = [60, 64, 100, 18];

const OTHER_LENGTHS: [u64; 8] = [14, 13, 0, 17, 700, 1514, 1518, 1600];

// The first 16 bytes of frames are drawn from these: to functions 0 to 2, to a station of the wire, to all, and to a group.
const TO: [u64; 7] = [
    0x0000_0000_0002,
    0x0100_0000_0002,
    0x0200_0000_0002,
    0x7700_0000_0002,
    0xFFFF_FFFF_FFFF,
    0x0100_005E_0001,
    0x0100_0000_0002,
];

// Two words that a guest writes, or one, from a multiple of 8 on.
#[derive(Clone, Copy)]
pub struct Change {
    at: u64,
    first: u64,
    second: Option<u64>,
}

// One of these numbers, and of the others once in eight times.
fn mostly(chance: &mut Chance, these: &[u64], others: &[u64]) -> u64 {
    if chance.below(8) == 0 {
        chance.one_of(others)
    } else {
        chance.one_of(these)
    }
}

// The second word of a transmit descriptor.
fn command(chance: &mut Chance) -> u64 {
    let word = mostly(chance, &COMMANDS, &OTHER_COMMANDS);
    word | mostly(chance, &LENGTHS, &OTHER_LENGTHS)
}

// The addresses of a frame, from function 0 to 3, with what follows them: IPv4, or a tag.
fn header(chance: &mut Chance) -> (u64, u64) {
    let to = chance.one_of(&TO);
    let from = u64::from(chance.below(4));
    let kind = chance.one_of(&[0x0008, 0x0008, 0x0081]);
    (to | 0x2 << 48, from << 24 | kind << 32 | 0x0700 << 48)
}

impl Change {
    // What a guest writes next.
    pub fn draw(chance: &mut Chance) -> Change {
        let slot = u64::from(chance.below(8)) * 16;
        match chance.below(16) {
            0..=4 => Change {
                at: SENDS + slot,
                first: mostly(chance, &FRAMES, &OTHER_FRAMES),
                second: Some(command(chance)),
            },
            5..=6 => Change::one(SENDS + slot, mostly(chance, &FRAMES, &OTHER_FRAMES)),
            7..=8 => Change::one(SENDS + slot + 8, command(chance)),
            9..=11 => Change::one(RECEIVES + slot, mostly(chance, &BUFFERS, &OTHER_BUFFERS)),
            12..=14 => {
                let at = chance.one_of(&FRAMES);
                let (first, second) = header(chance);
                Change {
                    at,
                    first,
                    second: Some(second),
                }
            }
            _ => Change::one(u64::from(chance.below(512)) * 8, chance.next()),
        }
    }

    // One word.
    fn one(at: u64, first: u64) -> Change {
        Change {
            at,
            first,
            second: None,
        }
    }
}

// Writes a word, lowest byte first, where it lies among the cells.
fn put(cells: &mut [u8], at: u64, word: u64) {
    let at = at as usize;
    if at <= cells.len() && cells.len() - at >= 8 {
        cells[at..at + 8].copy_from_slice(&word.to_le_bytes());
    }
}

// How much a guest writes that finds its memory zero.
const FIRST: u32 = 64;

// A guest that writes by chance, the same for each seed: up to eight changes after each access.
#[derive(Drop)]
pub struct Seeded {
    chance: Chance,
    due: u32,
}

impl Seeded {
    pub fn new(seed: u64) -> Seeded {
        Seeded {
            chance: Chance::new(seed),
            due: FIRST,
        }
    }
}

impl Guest for Seeded {
    fn write(&mut self, cells: &mut [u8]) {
        let count = self.due;
        self.due = self.chance.below(9);
        for _ in 0..count {
            let change = Change::draw(&mut self.chance);
            put(cells, change.at, change.first);
            if let Some(second) = change.second {
                put(cells, change.at.saturating_add(8), second);
            }
        }
    }

    fn see(&mut self, _at: usize, _bytes: &[u8]) {}

    fn see_zeros(&mut self) {
        self.due = FIRST;
    }
}

// Cells that threads share, eight in a word.
pub type Words = Arc<Vec<AtomicU64>>;

// The cells of a memory of [`SIZE`] bytes, all zero.
pub fn words(alloc: Global) -> Result<Words, AllocError> {
    let mut words = Vec::with_capacity(alloc, SIZE / 8)?;
    for _ in 0..SIZE / 8 {
        words.push(AtomicU64::new(0))?;
    }
    Ok(Arc::new(alloc, words)?)
}

// Writes a word among shared cells.
fn put_shared(words: &Words, at: u64, word: u64) {
    if let Some(cell) = words.get((at / 8) as usize) {
        cell.store(word, Ordering::Relaxed);
    }
}

// What a thread does: it writes into these memories until it is over. How often it wrote.
pub fn write_on(memories: &[Words], over: &AtomicU64, seed: u64) -> u64 {
    let mut chance = Chance::new(seed);
    let mut count = 0u64;
    for _ in 0..u64::MAX {
        if over.load(Ordering::Relaxed) != 0 {
            break;
        }
        let change = Change::draw(&mut chance);
        if let Some(words) = memories.get(chance.place(memories.len())) {
            put_shared(words, change.at, change.first);
            if let Some(second) = change.second {
                put_shared(words, change.at.saturating_add(8), second);
            }
        }
        count = count.wrapping_add(1);
    }
    count
}

// A guest whose memory threads write, whenever they like.
#[derive(Drop)]
pub struct Threaded {
    words: Words,
}

impl Threaded {
    pub fn new(words: Words) -> Threaded {
        Threaded { words }
    }
}

// Which of the eight cells of a word have one of these bytes, the first of which stands at an address, and the word of these bytes.
fn lanes(word: usize, at: usize, bytes: &[u8]) -> (u64, u64) {
    let (mut mask, mut value) = (0u64, 0u64);
    for lane in 0..8u32 {
        let place = word.saturating_mul(8).saturating_add(lane as usize);
        if place >= at {
            if let Some(byte) = bytes.get(place - at) {
                mask |= 0xFF << (8 * lane);
                value |= u64::from(*byte) << (8 * lane);
            }
        }
    }
    (mask, value)
}

impl Guest for Threaded {
    fn write(&mut self, cells: &mut [u8]) {
        for (eight, word) in cells.chunks_mut(8).zip(self.words.iter()) {
            if eight.len() == 8 {
                eight.copy_from_slice(&word.load(Ordering::Relaxed).to_le_bytes());
            }
        }
    }

    fn see(&mut self, at: usize, bytes: &[u8]) {
        let last = at.saturating_add(bytes.len()).saturating_add(7) / 8;
        for place in at / 8..last {
            let (mask, value) = lanes(place, at, bytes);
            if let Some(word) = self.words.get(place) {
                if mask == u64::MAX {
                    word.store(value, Ordering::Relaxed);
                } else {
                    word.fetch_and(!mask, Ordering::Relaxed);
                    word.fetch_or(value, Ordering::Relaxed);
                }
            }
        }
    }

    fn see_zeros(&mut self) {
        for word in self.words.iter() {
            word.store(0, Ordering::Relaxed);
        }
    }
}
