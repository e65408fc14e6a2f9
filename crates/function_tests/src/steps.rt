//! Steps of a driver and of the wire on one function, each with what it answers.
use crate::compare::{assert_equal, assert_equal_at};
use Step::*;
use guest_memory::{FlatMem, GuestMem};
use irq_causes::Vectors;
use script_support::registers::{
    ADVANCED, ENABLE, RDBAL0, RDLEN0, RDT0, ROUTES, RXDCTL0, SRRCTL0, VTEIMS, VTIVAR,
};
use std::alloc::Global;
use std::process::Abort;
use std::test::Fail;
use tx_desc::Progress;
use vf_unit::*;
use wire_frame::{FrameBuf, FrameLimit, PortVlan};

// One step, on queue 0 where it is on a queue. Bytes are a beginning, what fills the rest, and how many there are.
#[derive(Clone, Copy)]
pub(crate) enum Step {
    // A register is written, and issues no message.
    W(u32, u32),
    // A register is written, and issues these messages.
    Issues(u32, u32, u8),
    // A register reads this.
    R(u32, u32),
    // Bytes are written to memory.
    Put(u64, &'static [u8], u8, usize),
    // Memory holds these bytes.
    Get(u64, &'static [u8]),
    // A frame comes from the wire, and issues these messages.
    Wire(&'static [u8], u8, usize, u8),
    // A service gives this, and issues these messages.
    Serve(Progress, u8),
    // The frame that has ended.
    Ended(&'static [u8], u8, usize),
    // A function-level reset.
    Reset,
}

// That many bytes and more, of which the first are these.
fn filled(head: &[u8], fill: u8) -> [u8; 9018] {
    let mut bytes = [fill; 9018];
    let len = head.len().min(9018);
    bytes[..len].copy_from_slice(&head[..len]);
    bytes
}

fn do_step<M: GuestMem>(
    rt: &impl Abort,
    unit: &mut VfUnit<M>,
    frame: &mut FrameBuf,
    rule: PortVlan,
    limit: FrameLimit,
    step: Step,
) -> Result<(), Fail> {
    match step {
        W(offset, x) => assert_equal_at(
            rt,
            unit.reg_write(offset, x),
            Some(Vectors::none()),
            offset,
        ),
        Issues(offset, x, messages) => {
            assert_equal_at(
                rt,
                unit.reg_write(offset, x),
                Vectors::new(messages),
                offset,
            );
        }
        R(offset, x) => assert_equal_at(rt, unit.reg_read(offset), Some(x), offset),
        Put(at, head, fill, len) => {
            let bytes = filled(head, fill);
            assert!(rt; unit.mem_write(at, &bytes[..len.min(9018)]));
        }
        Get(at, want) => {
            let mut bytes = [0u8; 64];
            let len = want.len().min(64);
            assert!(rt; unit.mem_read(at, &mut bytes[..len]));
            assert_equal_at(rt, &bytes[..len], want, at);
        }
        Wire(head, fill, len, messages) => {
            let bytes = filled(head, fill);
            let received = FrameBuf::from_bytes(&bytes[..len.min(9018)])?;
            assert_equal_at(rt, unit.deliver(&received, false).bits(), messages, len);
        }
        Serve(outcome, messages) => {
            let service = unit.serve(Queue::Q0, frame, rule, limit).ok_or("open")?;
            assert_equal(rt, service.outcome, outcome);
            assert_equal(rt, service.messages.bits(), messages);
        }
        Ended(head, fill, len) => {
            let bytes = filled(head, fill);
            assert_equal(rt, frame.bytes(), &bytes[..len.min(9018)]);
        }
        Reset => unit.reset(),
    }
    Ok(())
}

// Does some of the steps.
pub(crate) fn do_part<M: GuestMem>(
    rt: &impl Abort,
    unit: &mut VfUnit<M>,
    frame: &mut FrameBuf,
    rule: PortVlan,
    limit: FrameLimit,
    steps: &[Step],
) -> Result<(), Fail> {
    for step in steps {
        do_step(rt, unit, frame, rule, limit, *step)?;
    }
    Ok(())
}

// Opens the function and does the steps.
pub(crate) fn do_steps<M: GuestMem>(
    rt: &impl Abort,
    mut unit: VfUnit<M>,
    rule: PortVlan,
    limit: FrameLimit,
    steps: [&[Step]; 2],
) -> Result<(), Fail> {
    let mut frame = FrameBuf::blank();
    unit.open();
    for part in steps {
        do_part(rt, &mut unit, &mut frame, rule, limit, part)?;
    }
    Ok(())
}

// The same of a function that is made over the memory, with no port VLAN and frames of up to 1518 bytes.
pub(crate) fn do_steps_over<M: GuestMem>(
    rt: &impl Abort,
    alloc: Global,
    memory: M,
    steps: [&[Step]; 2],
) -> Result<(), Fail> {
    let unit = VfUnit::new(alloc, memory)?;
    do_steps(
        rt,
        unit,
        PortVlan::Descriptor,
        FrameLimit::standard(),
        steps,
    )
}

// The same over a flat memory of 64 KiB.
pub(crate) fn plainly(
    rt: &impl Abort,
    alloc: Global,
    first: &[Step],
    then: &[Step],
) -> Result<(), Fail> {
    let memory = FlatMem::new(alloc, 65_536)?;
    do_steps_over(rt, alloc, memory, [first, then])
}

// A receive queue with one buffer of 2 KiB at 0x4000; receive raises vector 0, transmit vector 1.
pub(crate) const RECEIVING: &[Step] = &[
    Put(0x1000, &[0, 0x40], 0, 8),
    W(RDBAL0, 0x1000),
    W(RDLEN0, 128),
    W(SRRCTL0, ADVANCED | 2),
    W(RXDCTL0, ENABLE),
    W(RDT0, 1),
    W(VTIVAR, ROUTES),
    W(VTEIMS, 7),
];

// A frame to 02:00:00:00:00:03, of type IPv4.
pub(crate) const FRAME: &[u8] = &[2, 0, 0, 0, 0, 3, 2, 0, 0, 0, 0, 0x99, 8, 0];
