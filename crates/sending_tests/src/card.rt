//! A card's transmit queue, with the memory of its guest and the frame that is lent.
ghost use Rattle.std.specs.Prelude.{◌≡◌, length, IfOk};
ghost use Rattle.rings.specs.Ring.{LiesInside};

use crate::compare::assert_equal_at;
use guest_memory::{FlatMem, GuestMem};
use live_memory::{Alone, Traced};
use offload::Offloads;
use rings::{Ring, RingRegister};
use std::alloc::Global;
use std::marker::Model;
use std::process::Abort;
use std::test::Fail;
use tx_desc::{Progress, Sending, Terms, Turn, fetch_into, fetch_with_offloads};
use wire_frame::{Fault, FrameBuf, FrameLimit, PortVlan};

/// The size of the memory.
const SIZE: u64 = 0x2_0000;
/// Where the ring of eight descriptors stands.
const RING: u64 = 0x1000;
/// Where the bytes of a frame stand.
pub const FIRST: u64 = 0x2000;
/// Where those of a second one do.
pub const SECOND: u64 = 0x3000;

/// What a step gives: what came of it, whether it was reported, whether it fell short, the head then, which descriptors are done then,
/// a bit for each, and the frame that left, in hex.
pub type Due<'a> = (Progress, bool, bool, u32, u64, &'a str);

/// The terms of a card that does all of it, under a port's rule and the standard limit.
pub fn all_under(rule: PortVlan) -> Terms {
    Terms {
        rule,
        limit: FrameLimit::standard(),
        offloads: Offloads::all(),
    }
}

/// A queue of eight descriptors that is on, over 128 KiB.
#[derive(Drop)]
pub struct Card {
    memory: Traced<FlatMem, Alone>,
    ring: Ring,
    sending: Sending,
    frame: FrameBuf,
}

impl Model for Card {
    ghost use Rattle.std.specs.Prelude.{ℕ, ◌≡◌, length};
    ghost use Rattle.rings.specs.Ring.{LiesInside};

    ghost Value = { ℕ };

    ghost view = { λ c. c.ring.head };

    ghost invariant = { λ c. (length c.memory.memory ≡ 131072) × LiesInside 131072 c.ring };
}

// A memory of zeros.
fn memory_of(rt: &impl Abort, alloc: Global) -> Result<FlatMem, Fault>
    ensures { IfOk result (λ m. length m ≡ 131072) }
{
    let memory = FlatMem::new(alloc, SIZE)?;
    assert_eq!(rt; memory.size(), 131072);
    Ok(memory)
}

// The ring, on, with no descriptor handed to it.
fn ring_of() -> Ring
    ensures { LiesInside 131072 result }
{
    let mut ring = Ring::new();
    ring.write(RingRegister::BaseLow, RING as u32);
    ring.write(RingRegister::Length, 128);
    ring.try_enable(SIZE);
    ring
}

impl Card {
    /// One with no descriptor.
    pub fn new(rt: &impl Abort, alloc: Global) -> Result<Card, Fail> {
        let sending = Sending::new(alloc)?;
        let Ok(flat) = memory_of(rt, alloc) else {
            return Err("no memory".into());
        };
        Ok(Card {
            memory: Traced::new(flat),
            ring: ring_of(),
            sending,
            frame: FrameBuf::blank(),
        })
    }

    /// Writes bytes, given in hex, into the memory.
    pub fn put(&mut self, alloc: Global, at: u64, text: &str) -> Result<(), Fail> {
        let bytes = hex::decode(alloc, text)?;
        if at >= 0x1_0000 || bytes.len() >= 0x1_0000 {
            return Err("it lies outside".into());
        }
        self.memory.store(at, bytes.as_slice());
        Ok(())
    }

    /// Writes the two words of a descriptor, by its number.
    pub fn describe(&mut self, number: u64, words: (u64, u64)) {
        self.memory
            .store_words(RING + 16 * (number % 8), words.0, words.1);
    }

    /// Writes the tail.
    pub fn hand(&mut self, tail: u32) {
        self.ring.set_tail(tail);
    }

    /// Turns the queue off, as a virtual function does it, and on again.
    pub fn turn_off_and_on(&mut self) {
        self.ring.disable();
        self.sending.clear();
        self.turn_on();
    }

    /// Turns the queue on.
    pub fn turn_on(&mut self) {
        self.ring.try_enable(SIZE);
    }

    /// Whether the queue is on.
    pub fn is_on(&self) -> bool {
        self.ring.is_enabled()
    }

    /// The head.
    pub fn head(&self) -> u32 {
        self.ring.read(RingRegister::Head)
    }

    /// The second word of a descriptor, by its number.
    pub fn word(&mut self, number: u64) -> u64 {
        self.memory.load_word(RING + 8 + 16 * (number % 8))
    }

    /// Which descriptors are done: a bit for each.
    pub fn done(&mut self) -> u64 {
        let mut done = 0;
        for number in 0..8u64 {
            if self.word(7 - number) / 0x1_0000_0000 % 2 == 1 {
                done = done % 128 * 2 + 1;
            } else {
                done = done % 128 * 2;
            }
        }
        done
    }

    /// One step.
    pub fn turn(&mut self, terms: &Terms) -> Turn {
        fetch_with_offloads(
            &mut self.memory,
            &mut self.ring,
            &mut self.sending,
            &mut self.frame,
            terms,
        )
    }

    /// What comes of one step, and whether a descriptor was written back. Where `is_plain`, [`fetch_into`] makes it.
    pub fn taken(&mut self, terms: &Terms, is_plain: bool) -> (Progress, bool) {
        if !is_plain {
            let turn = self.turn(terms);
            return (turn.outcome, turn.reported);
        }
        let served = fetch_into(
            &mut self.memory,
            &mut self.ring,
            &mut self.sending.pending,
            &mut self.frame,
            terms.rule,
            terms.limit,
        );
        (served.outcome, served.reported)
    }

    /// How long the frame is that left in a step, if one did, else 0.
    pub fn length_of(&self, turn: Turn) -> usize {
        if turn.outcome == Progress::Ended {
            self.frame.bytes().len()
        } else {
            0
        }
    }

    /// One step, compared with what is due. `case` names it.
    pub fn step(
        &mut self,
        rt: &impl Abort,
        alloc: Global,
        terms: &Terms,
        due: &Due,
        case: &str,
    ) -> Result<(), Fail> {
        let turn = self.turn(terms);
        let text = if turn.outcome == Progress::Ended {
            hex::encode(alloc, self.frame.bytes())?
        } else {
            String::new(alloc)
        };
        let head = self.head();
        let done = self.done();
        assert_equal_at(
            rt,
            (
                turn.outcome,
                turn.reported,
                turn.falls_short,
                head,
                done,
                text.as_str(),
            ),
            *due,
            case,
        );
        Ok(())
    }
}

/// Hands descriptors to a new card, with the bytes that stand at [`FIRST`] and at [`SECOND`], and compares each step with what is due.
pub fn play(
    rt: &impl Abort,
    alloc: Global,
    terms: &Terms,
    texts: (&str, &str),
    descriptors: &[(u64, u64)],
    dues: &[Due],
) -> Result<(), Fail> {
    let mut card = Card::new(rt, alloc)?;
    card.put(alloc, FIRST, texts.0)?;
    card.put(alloc, SECOND, texts.1)?;
    let mut number = 0u32;
    for words in descriptors {
        card.describe(u64::from(number), *words);
        number = number.wrapping_add(1);
    }
    card.hand(number);
    for due in dues {
        card.step(rt, alloc, terms, due, texts.0)?;
    }
    Ok(())
}
