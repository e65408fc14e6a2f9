//! A workload done, and timed.
use crate::calls::{
    Call, MemRead, MemWrite, Out, PfRead, PfWrite, Serve, Take, VfRead, VfWrite, Wire,
};
use crate::setup::{GIVEN, frame_of, give, set_up};
use crate::workload::{SENDER, Workload};
use anyhow::{Result, anyhow};
use device::{Device, MemSlice, Queue, Request, Room};
use live_memory::Dma;
use pool_filter::registers::{BAM, PF_VT_CTL, VMOLR};
use std::time::Instant;
use vf_unit::offsets::{RDH0, RDT0};
use wire_frame::Frame;

/// Which way an event is taken.
#[derive(Clone, Copy, Debug, PartialEq, Eq)]
pub enum Way {
    /// By [`Device::take_live`].
    Take,
    /// By the call by its name.
    Name,
}

/// What is done.
#[derive(Clone, Copy)]
pub struct Plan {
    /// The events.
    pub workload: Workload,
    /// How many of them a round has. Where there are many rounds, it is a multiple of the descriptors of a ring.
    pub turns: u32,
    /// How many rounds there are.
    pub rounds: u32,
}

/// What came of it.
#[derive(Clone, Copy)]
pub struct Measured {
    /// How many turns of the last round did what they should.
    pub done: u32,
    /// How many nanoseconds the shortest round took.
    pub nanos: u128,
}

// Does one turn. It is a call of its own, so that the compiler knows no event beforehand.
#[inline(never)]
fn turn<D: Dma<K>, K, C: Call<D, K>>(device: &mut Device<D, K>, call: &C, out: &mut Out) -> bool {
    call.call(device, out)
}

// Does a round; how many turns did what they should.
#[inline(never)]
fn round<D: Dma<K>, K, C: Call<D, K>>(
    device: &mut Device<D, K>,
    call: &C,
    plan: Plan,
    out: &mut Out,
) -> u32 {
    let mut done = 0u32;
    for count in 0..plan.turns {
        if count % GIVEN == 0 {
            give(device, plan.workload, count);
        }
        if turn(device, call, out) {
            done = done.wrapping_add(1);
        }
    }
    done
}

// Does all rounds.
fn rounds<D: Dma<K>, K, C: Call<D, K>>(
    rt: &HostRuntime,
    device: &mut Device<D, K>,
    call: &C,
    plan: Plan,
) -> Result<Measured> {
    let mut out = Out {
        room: Room::new(),
        bytes: [0; 2048],
    };
    let mut best = Measured {
        done: 0,
        nanos: u128::MAX,
    };
    for _ in 0..plan.rounds {
        let start = Instant::now(rt)?;
        let done = round(device, call, plan, &mut out);
        let nanos = start.elapsed(rt)?.as_nanos();
        best = Measured {
            done,
            nanos: nanos.min(best.nanos),
        };
    }
    Ok(best)
}

// The event of a workload.
fn request_of<'a>(workload: Workload, frame: Frame<'a>, bytes: MemSlice<'a>) -> Request<'a> {
    match workload {
        Workload::VfRead => Request::VfRead(SENDER, RDH0),
        Workload::VfWrite => Request::VfWrite(SENDER, RDT0, 5),
        Workload::PfRead => Request::PfRead(PF_VT_CTL),
        Workload::PfWrite => Request::PfWrite(VMOLR.first, 1 << BAM),
        Workload::MemRead => Request::MemRead(SENDER, 0x4000, 2048),
        Workload::MemWrite => Request::MemWrite(SENDER, 0x4000, bytes),
        Workload::WireShort | Workload::WireLong | Workload::Broadcast => Request::Wire(frame),
        Workload::Service => Request::Serve(SENDER, Queue::Q0),
    }
}

// Does a workload by the calls by name.
fn by_name<D: Dma<K>, K>(
    rt: &HostRuntime,
    device: &mut Device<D, K>,
    request: Request<'_>,
    plan: Plan,
) -> Result<Measured> {
    let value = plan.workload.value();
    let pools = plan.workload.messages();
    match request {
        Request::VfRead(pool, offset) => {
            rounds(
                rt,
                device,
                &VfRead {
                    pool,
                    offset,
                    value,
                },
                plan,
            )
        }
        Request::VfWrite(pool, offset, value) => {
            rounds(
                rt,
                device,
                &VfWrite {
                    pool,
                    offset,
                    value,
                },
                plan,
            )
        }
        Request::PfRead(offset) => rounds(rt, device, &PfRead { offset, value }, plan),
        Request::PfWrite(offset, value) => rounds(rt, device, &PfWrite { offset, value }, plan),
        Request::MemRead(pool, at, _) => rounds(rt, device, &MemRead { pool, at }, plan),
        Request::MemWrite(pool, at, written) => {
            rounds(rt, device, &MemWrite { pool, at, written }, plan)
        }
        Request::Wire(frame) => rounds(rt, device, &Wire { frame, pools }, plan),
        Request::Serve(pool, queue) => rounds(rt, device, &Serve { pool, queue, pools }, plan),
        _ => Err(anyhow!("no workload")),
    }
}

/// Sets the device up, and does a plan on it.
pub fn measure<D: Dma<K>, K>(
    rt: &HostRuntime,
    device: &mut Device<D, K>,
    plan: Plan,
    way: Way,
) -> Result<Measured> {
    set_up(device, plan.workload)?;
    let workload = plan.workload;
    let len = if workload == Workload::WireLong {
        1518
    } else {
        60
    };
    let frame = frame_of(len, workload == Workload::Broadcast)?;
    let request = request_of(workload, frame.as_frame(), MemSlice::new(&[7; 2048])?);
    match way {
        Way::Take => {
            let call = Take {
                request,
                value: workload.value(),
                pools: workload.messages(),
            };
            rounds(rt, device, &call, plan)
        }
        Way::Name => by_name(rt, device, request, plan),
    }
}
