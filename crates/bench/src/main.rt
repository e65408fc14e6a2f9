//! A small benchmark, no part of the product: does one kind of work a number of times, so that its instructions can be
//! counted. Its twin in plain Rust is bench/plain.rs, and bench/table.sh runs both.
//!
//! The arguments are a workload, the length of a frame in bytes and the number of turns. A turn of `place` places a tagged
//! frame in a guest's buffer; of `strip`, it strips the tag as well; of `serve`, it takes a transmit descriptor that sends
//! a frame, and writes it back; of `insert`, it also inserts the port's tag; of `idle`, it serves a queue that is on and
//! has no descriptor; of `read`, it reads a register of a virtual function. The output says how many turns did that. The
//! memory is behind a box, as in the product.
#![tactic(auto)]

use anyhow::{Result, anyhow};
use guest_memory::{FlatMem, GuestMem};
use live_memory::Traced;
use rings::{Ring, RingRegister};
use rx_desc::{Placed, RxConfig, RxFormat, place_in};
use std::alloc::Global;
use std::env;
use tx_desc::Progress;
use vf_unit::offsets::*;
use vf_unit::{Queue, VfUnit};
use wire_frame::{Frame, FrameBuf, FrameLimit, PortVlan};

/// Where the ring of descriptors begins.
const RING: u32 = 0x4000;
/// How many descriptors the ring has.
const COUNT: u32 = 256;
/// How many of them the device is given at once, every so many turns.
const GIVEN: u32 = 128;
/// What turns a transmit queue on.
const ON: u32 = 1 << ENABLE;
/// The low half of the second word of a data descriptor that ends a frame and asks for a report, but for the length.
const LAST_DATA: u32 = 0x2930_0000;
/// How the queues are set up: queue 0 has the ring, both are on, and each report issues a message.
const SETUP: [(u32, u32); 8] = [
    (TDBAL0, RING),
    (TDLEN0, 16 * COUNT),
    (TXDCTL0, ON),
    (TDLEN1, 128),
    (TXDCTL1, ON),
    (VTIVAR, 0x8180),
    (VTEIMS, 7),
    (VTEIAC, 7),
];

// The tail that gives the device descriptors for the turns from `turn` on.
fn tail_at(turn: u32) -> u32 {
    (turn % COUNT + GIVEN) % COUNT
}

// Places the frame in the buffer at address 0, which each descriptor names; how often it was put.
#[inline(never)]
fn place_many<M: GuestMem>(memory: M, frame: Frame<'_>, strip_tag: bool, turns: u32) -> u32 {
    let config = RxConfig {
        buffer_size: 2048,
        strip_tag,
        format: RxFormat::Advanced,
        check_sums: false,
    };
    let mut memory = Traced::new(memory);
    let mut ring = Ring::new();
    ring.write(RingRegister::BaseLow, RING);
    ring.write(RingRegister::Length, 16 * COUNT);
    ring.try_enable(memory.size());
    let mut put = 0u32;
    for turn in 0..turns {
        if turn % GIVEN == 0 {
            ring.set_tail(tail_at(turn));
        }
        if place_in(&mut memory, &mut ring, &config, frame, turn % 2 == 1) == Placed::Put {
            put = put.wrapping_add(1);
        }
    }
    put
}

// An open function, set up to send `len` bytes from address 0 by each descriptor.
fn sender<M: GuestMem>(alloc: Global, memory: M, len: u16) -> Result<VfUnit<M>> {
    let mut unit = VfUnit::new(alloc, memory)?;
    unit.open();
    let word = (LAST_DATA | u32::from(len)).to_le_bytes();
    for i in 0..COUNT {
        unit.mem_write(u64::from(RING + 16 * i + 8), &word);
    }
    for (offset, x) in SETUP {
        unit.reg_write(offset, x);
    }
    Ok(unit)
}

// Serves a queue; how often that was what came of it.
#[inline(never)]
fn serve_many<M: GuestMem>(
    mut unit: VfUnit<M>,
    (queue, rule, outcome): (Queue, PortVlan, Progress),
    limit: FrameLimit,
    turns: u32,
) -> u32 {
    let mut frame = FrameBuf::blank();
    let mut count = 0u32;
    for turn in 0..turns {
        if turn % GIVEN == 0 {
            unit.reg_write(TDT0, tail_at(turn));
        }
        let service = unit.serve(queue, &mut frame, rule, limit);
        if service.is_some_and(|s| s.outcome == outcome) {
            count = count.wrapping_add(1);
        }
    }
    count
}

// Reads the registers of the receive queues and the gaps between them; how often bit 31 was clear, as it is in all.
#[inline(never)]
fn read_many<M: GuestMem>(mut unit: VfUnit<M>, turns: u32) -> u32 {
    let mut clear = 0u32;
    for turn in 0..turns {
        let word = unit.reg_read(RDBAL0 + turn % 32 * 4);
        if word.is_some_and(|x| x < 1 << 31) {
            clear = clear.wrapping_add(1);
        }
    }
    clear
}

// Does the workload; how many turns did what they should.
fn work<M: GuestMem>(
    alloc: Global,
    workload: &str,
    memory: M,
    len: u16,
    turns: u32,
) -> Result<u32> {
    let mut bytes = [7u8; 9018];
    bytes[12] = 0x81;
    bytes[13] = 0;
    let frame = Frame::new(&bytes[..usize::from(len.min(9018))], FrameLimit::longest())?;
    let limit = FrameLimit::new(len.saturating_add(4).max(1518)).unwrap_or(FrameLimit::standard());
    let service = match workload {
        "place" => return Ok(place_many(memory, frame, false, turns)),
        "strip" => return Ok(place_many(memory, frame, true, turns)),
        "read" => return Ok(read_many(sender(alloc, memory, len)?, turns)),
        "serve" => (Queue::Q0, PortVlan::Never, Progress::Ended),
        "insert" => (Queue::Q0, PortVlan::Always(100), Progress::Ended),
        "idle" => (Queue::Q1, PortVlan::Descriptor, Progress::Idle),
        _ => return Err(anyhow!("no such workload")),
    };
    Ok(serve_many(sender(alloc, memory, len)?, service, limit, turns))
}

fn main(rt: HostRuntime) -> Result<()> {
    let mut words = env::args(&rt)?.skip(1);
    let (Some(workload), Some(len), Some(turns)) = (words.next(), words.next(), words.next()) else {
        return Err(anyhow!("usage: bench WORKLOAD LENGTH TURNS"));
    };
    let memory: Box<dyn GuestMem + Send> = Box::new(rt.alloc(), FlatMem::new(rt.alloc(), 65_536)?)?;
    let done = work(rt.alloc(), &workload, memory, len.parse()?, turns.parse()?)?;
    println!(rt; "{workload} {len} {turns}: {done}")?;
    Ok(())
}
