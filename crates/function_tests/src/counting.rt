//! What a function counts: frames that were placed or found no room, queues that a fault stopped and by which, frames that were refused.
use crate::compare::{assert_equal, assert_equal_at};
use crate::steps::Step::*;
use crate::steps::{FRAME, RECEIVING, Step, do_part};
use guest_memory::FlatMem;
use offload::Offloads;
use script_support::registers::{
    ENABLE, RDBAL0, RDLEN0, RDT0, RXDCTL0, TDBAL0, TDBAL1, TDLEN0, TDLEN1, TDT0, TDT1, TXDCTL0,
    TXDCTL1,
};
use std::alloc::Global;
use std::process::Abort;
use std::test::Fail;
use tx_desc::{Misuse, Progress};
use vf_unit::*;
use wire_frame::{FrameBuf, FrameLimit, PortVlan};

// Nothing was counted.
const NOTHING: Counts = Counts {
    received: 0,
    sent: 0,
    no_room: 0,
    refused: 0,
    faults: 0,
    last_fault: None,
    shortfalls: 0,
};

// An open function with a memory of 64 KiB.
fn open_with(alloc: Global, offloads: Offloads) -> Result<VfUnit<FlatMem>, Fail> {
    let mut unit = VfUnit::new(alloc, FlatMem::new(alloc, 65_536)?)?;
    let memory = FlatMem::new(alloc, 65_536)?;
    let _ = unit.exchange(memory, Some(offloads));
    Ok(unit)
}

// Does the steps, lets frames come, compares what was counted then, and that a reset forgets it.
fn count(
    rt: &impl Abort,
    alloc: Global,
    offloads: Offloads,
    before: &[Step],
    frames: &[Step],
    due: Counts,
) -> Result<(), Fail> {
    let mut unit = open_with(alloc, offloads)?;
    let mut frame = FrameBuf::blank();
    let limit = FrameLimit::standard();
    do_part(rt, &mut unit, &mut frame, PortVlan::Never, limit, before)?;
    do_part(rt, &mut unit, &mut frame, PortVlan::Never, limit, frames)?;
    assert_equal(rt, unit.counts(), due);
    unit.reset();
    assert_equal(rt, unit.counts(), NOTHING);
    Ok(())
}

// What is counted where this many frames found no room.
fn without_room(no_room: u32) -> Counts {
    Counts { no_room, ..NOTHING }
}

/// Frames that come: how many were placed, how many found no room, how often the queue was stopped, and why.
#[test]
fn frames_that_come(rt: HostRuntime) -> Result<(), Fail> {
    let (alloc, none) = (rt.alloc(), Offloads::none());
    // the queue is off
    let off = [Wire(FRAME, 0, 60, 0)];
    count(&rt, alloc, none, &[], &off, without_room(1))?;
    // one descriptor, and two frames
    let two = [Wire(FRAME, 0, 60, 1), Wire(FRAME, 0, 60, 0)];
    let one_placed = Counts {
        received: 1,
        ..without_room(1)
    };
    count(&rt, alloc, none, RECEIVING, &two, one_placed)?;
    // a queue that is on, of legacy descriptors whose buffers have no size, twice
    let sizeless = [
        Put(0x1000, &[0, 0x40], 0, 8),
        W(RDBAL0, 0x1000),
        W(RDLEN0, 128),
        W(RDT0, 1),
        W(RXDCTL0, ENABLE),
    ];
    let twice = [Wire(FRAME, 0, 60, 0), Wire(FRAME, 0, 60, 0)];
    count(
        &rt,
        alloc,
        Offloads::all(),
        &sizeless,
        &twice,
        without_room(2),
    )?;
    // the buffer passes the end of the memory: that stops the queue, and the next frame finds it off
    let outside = [
        Put(0x1000, &[], 0xFF, 8),
        Wire(FRAME, 0, 60, 0),
        Wire(FRAME, 0, 60, 0),
    ];
    let stopped = Counts {
        faults: 1,
        last_fault: Some(QueueFault::Receive),
        ..without_room(1)
    };
    count(&rt, alloc, none, RECEIVING, &outside, stopped)
}

// Hands one descriptor to a transmit queue, which it stops.
fn stop(
    rt: &impl Abort,
    unit: &mut VfUnit<FlatMem>,
    queue: Queue,
    descriptor: &[u8],
) -> Result<(), Fail> {
    let mut frame = FrameBuf::blank();
    let (base, size, control, tail) = match queue {
        Queue::Q0 => (TDBAL0, TDLEN0, TXDCTL0, TDT0),
        Queue::Q1 => (TDBAL1, TDLEN1, TXDCTL1, TDT1),
    };
    assert!(rt; unit.mem_write(0x2000, descriptor));
    for (offset, x) in [(base, 0x2000), (size, 128), (control, ENABLE), (tail, 1)] {
        let _ = unit.reg_write(offset, x);
    }
    let limit = FrameLimit::standard();
    let service = unit
        .serve(queue, &mut frame, PortVlan::Never, limit)
        .ok_or("open")?;
    assert_equal(rt, service.outcome, Progress::Faulted);
    Ok(())
}

/// Descriptors that cannot be used, each on both queues, and why: of several reasons the first counts.
#[test]
fn descriptors_that_cannot_be_used(rt: HostRuntime) -> Result<(), Fail> {
    for (queue, descriptor, why) in [
        // type 1
        (
            Queue::Q0,
            [0, 0x60, 0, 0, 0, 0, 0, 0, 0x3C, 0, 0x10, 0x29, 0, 0, 0, 0],
            Misuse::UnknownType,
        ),
        // type 1, which asks for segments and a tag, past the end of the memory
        (
            Queue::Q1,
            [0, 0, 1, 0, 0, 0, 0, 0, 0x3C, 0, 0x10, 0xE9, 0, 0, 0, 0],
            Misuse::UnknownType,
        ),
        // segments
        (
            Queue::Q0,
            [0, 0x60, 0, 0, 0, 0, 0, 0, 0x3C, 0, 0x30, 0xA9, 0, 0, 0, 0],
            Misuse::NotOffered,
        ),
        // a tag, past the end of the memory
        (
            Queue::Q1,
            [0, 0, 1, 0, 0, 0, 0, 0, 0x3C, 0, 0x30, 0x69, 0, 0, 0, 0],
            Misuse::NotOffered,
        ),
        // one byte past the end of the memory
        (
            Queue::Q0,
            [
                0xC5, 0xFF, 0, 0, 0, 0, 0, 0, 0x3C, 0, 0x30, 0x29, 0, 0, 0, 0,
            ],
            Misuse::PastMemory,
        ),
        // a legacy one, past the end of all addresses
        (
            Queue::Q1,
            [
                0xFF, 0xFF, 0xFF, 0xFF, 0xFF, 0xFF, 0xFF, 0xFF, 0x3C, 0, 0, 9, 0, 0, 0, 0,
            ],
            Misuse::PastMemory,
        ),
    ] {
        let mut unit = open_with(rt.alloc(), Offloads::none())?;
        stop(&rt, &mut unit, queue, &descriptor)?;
        let once = Counts {
            faults: 1,
            last_fault: Some(QueueFault::Transmit(queue, why)),
            ..NOTHING
        };
        assert_equal_at(&rt, unit.counts(), once, why);
        // the last fault is the one that is told
        let outside = [0, 0, 1, 0, 0, 0, 0, 0, 0x3C, 0, 0, 9, 0, 0, 0, 0];
        stop(&rt, &mut unit, Queue::Q1, &outside)?;
        let twice = Counts {
            faults: 2,
            last_fault: Some(QueueFault::Transmit(Queue::Q1, Misuse::PastMemory)),
            ..NOTHING
        };
        assert_equal_at(&rt, unit.counts(), twice, why);
        unit.reset();
        assert_equal_at(&rt, unit.counts(), NOTHING, why);
    }
    Ok(())
}

/// What the device tells a function of its frames is counted where it is open, and a guest that comes finds nothing of it.
#[test]
fn refused_and_sent(rt: HostRuntime) -> Result<(), Fail> {
    let mut unit = open_with(rt.alloc(), Offloads::all())?;
    unit.refused();
    unit.sent();
    unit.refused();
    unit.refused();
    let told = Counts {
        sent: 1,
        refused: 3,
        ..NOTHING
    };
    assert_equal(&rt, unit.counts(), told);
    unit.end();
    assert_equal(&rt, unit.counts(), NOTHING);
    unit.refused();
    let _ = unit.deliver(&FrameBuf::blank(), false);
    unit.open();
    assert_equal(&rt, unit.counts(), NOTHING);
    Ok(())
}
