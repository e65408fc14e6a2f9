//! What a guest does: at random, within its own memory.
use crate::round::{Kind, Plan};
use guest_memory::GuestMem;
use guest_port::{GuestPort, LockedPort};
use rand_pcg::Pcg32;
use rand_pcg::rand_core::Rng;
use std::sync::Wait;
use std::sync::ledger::Ledger;
use std::thread::yield_now;
use std::time::Clock;
use vf_unit::offsets::{
    ENABLE, RDBAL0, RDH0, RDLEN0, RDT0, RXDCTL0, SRRCTL0, TDBAL0, TDH0, TDLEN0, TDT0, TXDCTL0,
    VFGPRC, VFLINKS, VTEIAC, VTEICR, VTEICS, VTEIMC, VTEIMS, VTIVAR,
};
use wire_frame::Fault;

/// How many descriptors each of its rings has.
const COUNT: u32 = 8;
/// Where its ring of receive descriptors stands, and that of transmit descriptors.
const RECEIVE: u32 = 0x1000;

const TRANSMIT: u32 = 0x2000;
/// Where its receive buffers begin, of 2 KiB each, and where the bytes stand that it sends.
const BUFFERS: u64 = 0x4000;

const SENT: u64 = 0x8000;
/// Where it writes what it reads back: no descriptor names it.
const OWN: u64 = 0xE000;

/// Its registers, and what they are written with.
const SET_UP: [(u32, u32); 11] = [
    (VTIVAR, 0x8180),
    (VTEIAC, 7),
    (VTEIMS, 7),
    (RDBAL0, RECEIVE),
    (RDLEN0, 16 * COUNT),
    (SRRCTL0, 0x0200_0002),
    (RXDCTL0, 1 << ENABLE),
    (RDT0, COUNT - 1),
    (TDBAL0, TRANSMIT),
    (TDLEN0, 16 * COUNT),
    (TXDCTL0, 1 << ENABLE),
];
/// The registers that it reads at random.
const READ: [u32; 8] = [VFLINKS, VTEICR, VTEIMS, VTIVAR, RDH0, RDT0, TDH0, VFGPRC];
/// The registers that it writes at random.
const WRITTEN: [u32; 6] = [VTEICS, VTEIMS, VTEIMC, VTEIAC, VTIVAR, VTEICR];

/// What a guest has done, and what it saw.
#[derive(Clone, Copy, Default)]
pub struct Life {
    /// How many turns it did, of one call or a few.
    pub turns: u64,
    /// How often it found the history full.
    pub full: u64,
    /// How many messages it took.
    pub messages: u64,
    /// How often it read back something else than it wrote.
    pub wrong: u64,
}

impl Life {
    /// What both did together.
    pub fn and(self, other: Life) -> Life {
        Life {
            turns: self.turns.wrapping_add(other.turns),
            full: self.full.wrapping_add(other.full),
            messages: self.messages.wrapping_add(other.messages),
            wrong: self.wrong.wrapping_add(other.wrong),
        }
    }
}

/// What it wrote last at the place that is its own.
type Own = [u8; 16];

/// Lives until it is over. Where the history is full it waits for it to be folded, or ends if it is not.
pub fn live<M: GuestMem, L: Ledger, P: GuestPort, R: Wait + Clock>(
    rt: &R,
    port: &mut LockedPort<M, L, P>,
    plan: Plan,
) -> Life {
    let is_folded = plan.kind == Kind::Fold;
    let mut chance = Pcg32::new(plan.seed, u64::from(port.pool()));
    let mut own = [0; 16];
    let mut life = Life::default();
    for _ in rt.forever() {
        if plan.until.is_over(rt, life.turns) {
            break;
        }
        if turn(rt, port, &mut chance, &mut own, &mut life) == Err(Fault::HistoryFull) {
            life.full = life.full.wrapping_add(1);
            if !is_folded {
                break;
            }
            yield_now();
        }
        life.turns = life.turns.wrapping_add(1);
    }
    life
}

// One turn. What is refused otherwise than by a full history is a call made.
fn turn<M: GuestMem, L: Ledger, P: GuestPort, R: Wait>(
    rt: &R,
    port: &mut LockedPort<M, L, P>,
    chance: &mut Pcg32,
    own: &mut Own,
    life: &mut Life,
) -> Result<(), Fault> {
    let value = chance.next_u32();
    match chance.next_u32() % 32 {
        0 => set_up(rt, port),
        1 => port.flr(rt),
        2..=6 => write_own(rt, port, value, own),
        7..=11 => read_own(rt, port, own, life),
        12..=14 => send(rt, port, value),
        15..=17 => port.reg_write(rt, RDT0, value % COUNT),
        18..=23 => port.reg_write(rt, WRITTEN[(value % 6) as usize], value >> 8),
        24..=29 => port.reg_read(rt, READ[(value % 8) as usize]).map(|_| ()),
        30 => port
            .mem_read(rt, u64::from(value), (value >> 20) as u16)
            .map(|_| ()),
        _ => {
            let taken = port.take_irqs();
            life.messages = life.messages.wrapping_add(u64::from(taken.count_ones()));
            Ok(())
        }
    }
}

// Sets both rings up.
fn set_up<M: GuestMem, L: Ledger, P: GuestPort, R: Wait>(
    rt: &R,
    port: &mut LockedPort<M, L, P>,
) -> Result<(), Fault> {
    for index in 0..u64::from(COUNT) {
        let buffer = BUFFERS + 2048 * index;
        port.mem_write(rt, u64::from(RECEIVE) + 16 * index, &buffer.to_le_bytes())?;
    }
    for (offset, value) in SET_UP {
        port.reg_write(rt, offset, value)?;
    }
    Ok(())
}

// Writes a frame for another guest, or for all, and a descriptor that sends it, and moves the tail on.
fn send<M: GuestMem, L: Ledger, P: GuestPort, R: Wait>(
    rt: &R,
    port: &mut LockedPort<M, L, P>,
    value: u32,
) -> Result<(), Fault> {
    let index = value % COUNT;
    let mut frame = [0; 60];
    let bytes = crate::wire::head(value, port.pool());
    frame[..14].copy_from_slice(&bytes);
    port.mem_write(rt, SENT, &frame)?;
    let at = u64::from(TRANSMIT) + 16 * u64::from(index);
    port.mem_write(rt, at, &SENT.to_le_bytes())?;
    port.mem_write(rt, at + 8, &[60, 0, 0, 9, 0, 0, 0, 0])?;
    port.reg_write(rt, TDT0, (index + 1) % COUNT)
}

// Writes at the place that is its own.
fn write_own<M: GuestMem, L: Ledger, P: GuestPort, R: Wait>(
    rt: &R,
    port: &mut LockedPort<M, L, P>,
    value: u32,
    own: &mut Own,
) -> Result<(), Fault> {
    let bytes = [value.to_le_bytes()[0] ^ port.pool(); 16];
    port.mem_write(rt, OWN, &bytes)?;
    *own = bytes;
    Ok(())
}

// Reads there, and counts where something else stands than it wrote.
fn read_own<M: GuestMem, L: Ledger, P: GuestPort, R: Wait>(
    rt: &R,
    port: &mut LockedPort<M, L, P>,
    own: &Own,
    life: &mut Life,
) -> Result<(), Fault> {
    let mut read = [0; 16];
    port.mem_read_into(rt, OWN, &mut read)?;
    if read != *own {
        life.wrong = life.wrong.wrapping_add(1);
    }
    Ok(())
}
