//! Calls of a device behind its lock, timed.
ghost use Rattle.std.specs.Prelude.{◌≡◌};

use addr_tables::registers::{MPSAR, RAH, RAL};
use anyhow::{Result, anyhow};
use device::{Device, Request, Room};
use device_lock::{LockedDevice, Recorded, Share, WhenFull};
use guest_memory::GuestMem;
use irq_line::make;
use pool_filter::registers::PFVFRE;
use std::alloc::Global;
use std::sync::Wait;
use std::sync::ledger::{Blank, Ledger};
use std::time::{Clock, Instant};
use vf_unit::offsets::{
    ENABLE, RDBAL0, RDH0, RDLEN0, RDT0, RXDCTL0, SRRCTL0, VTEIAC, VTEIMS, VTIVAR,
};
use wire_frame::FrameBuf;

/// How many calls the history keeps.
pub const CAP: u32 = 65_536;

/// How many descriptors the ring has.
const COUNT: u32 = 4096;
/// How many of them the device is given at once, every so many calls.
const GIVEN: u32 = COUNT / 2;
/// How the function's receive queue is set up: a ring behind the first buffer, buffers of 2 KiB, and each frame issues a
/// message.
const RECEIVE: [(u32, u32); 7] = [
    (VTIVAR, 0x8180),
    (VTEIAC, 7),
    (VTEIMS, 7),
    (RDBAL0, 0x1_0000),
    (RDLEN0, 16 * COUNT),
    (SRRCTL0, 0x0200_0002),
    (RXDCTL0, 1 << ENABLE),
];
/// The function's address is 02:00:00:00:00:00, and it may receive.
const FILTERS: [(u32, u32); 4] = [
    (PFVFRE.first, 1),
    (RAL.first, 2),
    (RAH.first, 1 << 31),
    (MPSAR.first, 1),
];

/// What is called.
#[derive(Clone, Copy, Debug, PartialEq, Eq)]
pub enum Workload {
    /// A register of an open function is read.
    VfRead,
    /// A frame of 60 bytes comes from the wire for the function, which gets a message.
    Wire,
}

/// What came of it.
#[derive(Clone, Copy)]
pub struct Figures {
    /// How many calls of the last round were kept.
    pub done: u32,
    /// How many nanoseconds the first round took.
    pub first: u128,
    /// How many nanoseconds the shortest later round took.
    pub later: u128,
}

/// How a workload is done.
#[derive(Clone, Copy)]
pub struct Plan {
    /// The calls.
    pub workload: Workload,
    /// How many of them a round has, at most as many as the history keeps.
    pub turns: u32,
    /// How many rounds there are. The history is folded after each.
    pub rounds: u32,
}

// Makes one call. It is a call of its own, so that the compiler knows no request beforehand.
#[inline(never)]
fn ask<R: Wait, M: GuestMem, L: Ledger>(
    rt: &R,
    device: &LockedDevice<M, L>,
    share: &mut Share<L>,
    request: Request<'_>,
    room: &mut Room,
) -> bool {
    if !share.may(request) {
        return false;
    }
    device
        .act_request(rt, share, request, room, WhenFull::Refuse)
        .is_some()
}

// Makes the calls of a round; how many were kept.
#[inline(never)]
fn round<R: Wait, M: GuestMem, L: Ledger>(
    rt: &R,
    device: &LockedDevice<M, L>,
    share: &mut Share<L>,
    request: Request<'_>,
    turns: u32,
) -> u32 {
    let mut room = Room::new();
    let mut done = 0u32;
    for turn in 0..turns {
        if turn % GIVEN == 0 {
            let tail = (turn % COUNT + GIVEN) % COUNT;
            ask(
                rt,
                device,
                share,
                Request::VfWrite(0, RDT0, tail),
                &mut room,
            );
        }
        done = done.wrapping_add(u32::from(ask(rt, device, share, request, &mut room)));
    }
    done
}

// Opens the function and sets its receive queue and its filters up.
fn set_up<R: Wait, M: GuestMem, L: Ledger>(
    rt: &R,
    device: &LockedDevice<M, L>,
    share: &mut Share<L>,
) {
    let mut room = Room::new();
    ask(rt, device, share, Request::Open(0), &mut room);
    for (offset, value) in RECEIVE {
        ask(
            rt,
            device,
            share,
            Request::VfWrite(0, offset, value),
            &mut room,
        );
    }
    for (offset, value) in FILTERS {
        ask(
            rt,
            device,
            share,
            Request::PfWrite(offset, value),
            &mut room,
        );
    }
}

// A frame of 60 bytes for the function.
fn frame() -> Result<FrameBuf> {
    let mut bytes = [0; 60];
    bytes[0] = 2;
    bytes[12] = 8;
    Ok(FrameBuf::from_bytes(&bytes)?)
}

/// Does a workload on a device that is made of these memories, with a twin, and times it.
pub fn measure<R: Wait + Clock, M: GuestMem, L: Ledger>(
    rt: &R,
    alloc: Global,
    blank: Blank,
    memories: Vec<M>,
    twins: Vec<M>,
    plan: Plan,
) -> Result<Figures>
    requires { (blank.name ≡ L.name) × (blank.parts ≡ L.parts) × (blank.parts ≡ 67) }
{
    let live = Device::new(alloc, memories)?;
    let twin = Device::new(alloc, twins)?;
    let (line, _guests) = make(alloc)?;
    let (recorded, shares) = Recorded::<M, L>::with_twin(
        alloc,
        blank,
        live,
        twin,
        line,
        CAP as usize,
    )?;
    let device = LockedDevice::new(alloc, recorded)?;
    let mut share = shares.service;
    set_up(rt, &*device, &mut share);
    let frame = frame()?;
    let request = match plan.workload {
        Workload::VfRead => Request::VfRead(0, RDH0),
        Workload::Wire => Request::Wire(frame.as_frame()),
    };
    let mut figures = Figures {
        done: 0,
        first: 0,
        later: u128::MAX,
    };
    if device.fold(rt).is_none() {
        return Err(anyhow!("the history was not folded"));
    }
    for count in 0..plan.rounds {
        let start = Instant::now(rt)?;
        figures.done = round(rt, &*device, &mut share, request, plan.turns);
        let nanos = start.elapsed(rt)?.as_nanos();
        if count == 0 {
            figures.first = nanos;
        } else {
            figures.later = figures.later.min(nanos);
        }
        if device.fold(rt).is_none() {
            return Err(anyhow!("the history was not folded"));
        }
    }
    Ok(figures)
}
