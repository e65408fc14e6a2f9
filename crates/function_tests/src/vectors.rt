//! Vectors of a function: which are masked by their messages, how far apart these are to be, and the cause that the host raises.
use crate::compare::assert_equal;
use crate::steps::Step::*;
use crate::steps::{FRAME, RECEIVING, Step, do_part};
use guest_memory::FlatMem;
use irq_causes::Vectors;
use offload::Offloads;
use script_support::registers::{
    RDT0, VFCTRL, VTEIAC, VTEIAM, VTEICR, VTEICS, VTEIMC, VTEIMS, VTEITR0, VTEITR1, VTEITR2,
    VTIVAR_MISC,
};
use std::test::Fail;
use vf_unit::*;
use wire_frame::{FrameBuf, FrameLimit, PortVlan};

// What a driver like Linux's ixgbevf does over its vectors 0 and 1: a frame brings one message, and further ones are silent until
// VTEIMS is written again.
const MASKING: &[Step] = &[
    W(VTEIAC, 3),
    W(VTEIAM, 0xFFFF_FFFB),
    R(VTEIAM, 3),
    Put(0x1010, &[0, 0x48], 0, 8),
    Put(0x1020, &[0, 0x50], 0, 8),
    W(RDT0, 3),
    Wire(FRAME, 0, 60, 1),
    R(VTEIMS, 6),
    Wire(FRAME, 0, 60, 0),
    Wire(FRAME, 0, 60, 0),
    Issues(VTEIMS, 1, 1),
    R(VTEIMS, 6),
    R(VTEICR, 0),
    W(VTEIMS, 1),
    R(VTEIMS, 7),
    Issues(VTEICS, 7, 7),
    R(VTEIMS, 4),
    // A reset clears the register, and it can be written again.
    W(VFCTRL, 0x0400_0000),
    R(VTEIAM, 0),
    W(VTEIAM, 2),
    Reset,
    R(VTEIAM, 0),
    W(VTEIAM, 7),
    R(VTEIAM, 7),
];

#[test]
fn vectors_are_masked_automatically(rt: HostRuntime) -> Result<(), Fail> {
    let alloc = rt.alloc();
    let mut unit = VfUnit::new(alloc, FlatMem::new(alloc, 4096)?)?;
    let mut frame = FrameBuf::blank();
    let (rule, limit) = (PortVlan::Descriptor, FrameLimit::standard());
    let masks = Offloads {
        auto_mask: true,
        ..Offloads::none()
    };
    let _former = unit.exchange(FlatMem::new(alloc, 65_536)?, Some(masks));
    for steps in [RECEIVING, MASKING] {
        do_part(&rt, &mut unit, &mut frame, rule, limit, steps)?;
    }
    // Without that offload the register reads 0 and keeps nothing, whatever else the device does.
    let others = Offloads {
        auto_mask: false,
        ..Offloads::all()
    };
    for offloads in [others, Offloads::none()] {
        let _former = unit.exchange(FlatMem::new(alloc, 65_536)?, Some(offloads));
        let steps = &[
            W(VTEIAM, 7),
            R(VTEIAM, 0),
            W(VTEIMS, 7),
            Issues(VTEICS, 1, 1),
            R(VTEIMS, 7),
        ];
        do_part(&rt, &mut unit, &mut frame, rule, limit, steps)?;
    }
    Ok(())
}

// What a driver writes to VTEITR for 8,000 (125 microseconds) and 20,000 (50) interrupts a second, as Linux does: in units of a quarter
// of a microsecond, with CNT_WDIS in bit 31.
const SLOW: u32 = 0x8000_0000 | 500;

const FAST: u32 = 0x8000_0000 | 200;

// VTEITR of each vector, written and read, and gone with a reset.
const INTERVALS: &[Step] = &[
    W(VTEITR0, SLOW),
    R(VTEITR0, 0x1F0),
    W(VTEITR1, FAST),
    R(VTEITR1, 0xC8),
    W(VTEITR2, 0xFFFF_FFFF),
    R(VTEITR2, 0xFF8),
    R(VTEITR0, 0x1F0),
];

#[test]
fn intervals_are_kept(rt: HostRuntime) -> Result<(), Fail> {
    let alloc = rt.alloc();
    let mut unit = VfUnit::new(alloc, FlatMem::new(alloc, 4096)?)?;
    let mut frame = FrameBuf::blank();
    let (rule, limit) = (PortVlan::Descriptor, FrameLimit::standard());
    let throttled = Offloads {
        throttle: true,
        ..Offloads::none()
    };
    let _former = unit.exchange(FlatMem::new(alloc, 65_536)?, Some(throttled));
    do_part(&rt, &mut unit, &mut frame, rule, limit, INTERVALS)?;
    // 62 and 25 units of 2 microseconds, and the most that there can be.
    let kept = [Vector::V0, Vector::V1, Vector::V2].map(|vector| unit.interval(vector));
    assert_equal(&rt, kept, [124, 50, 1022]);
    let gone = &[W(VFCTRL, 0x0400_0000), R(VTEITR1, 0)];
    do_part(&rt, &mut unit, &mut frame, rule, limit, gone)?;
    assert_equal(&rt, unit.interval(Vector::V0), 0);
    // Without that offload the registers read 0 and keep nothing, whatever else the device does.
    let others = Offloads {
        throttle: false,
        ..Offloads::all()
    };
    for offloads in [others, Offloads::none()] {
        let _former = unit.exchange(FlatMem::new(alloc, 65_536)?, Some(offloads));
        let steps = &[W(VTEITR0, SLOW), R(VTEITR0, 0)];
        do_part(&rt, &mut unit, &mut frame, rule, limit, steps)?;
        assert_equal(&rt, unit.interval(Vector::V0), 0);
    }
    Ok(())
}

// What a driver sets for the cause "other": vector 2, or none; and the messages that it then issues.
#[test]
fn the_other_cause_is_raised(rt: HostRuntime) -> Result<(), Fail> {
    let alloc = rt.alloc();
    let mut unit = VfUnit::new(alloc, FlatMem::new(alloc, 4096)?)?;
    // a closed function has none
    assert_equal(&rt, unit.raise_other(), Vectors::none());
    let mut frame = FrameBuf::blank();
    let (rule, limit) = (PortVlan::Descriptor, FrameLimit::standard());
    unit.open();
    for (entry, enabled, issued, stands) in [
        // nothing allocated, and vector 3, which there is not
        (0x02, 7, 0, 0),
        (0x83, 7, 0, 0),
        // vector 2, with its message enabled, and without
        (0x82, 7, 4, 4),
        (0x82, 3, 0, 4),
        (0x80, 1, 1, 1),
    ] {
        let steps = &[
            W(VTEIMC, 7),
            W(VTEICR, 7),
            W(VTIVAR_MISC, entry),
            W(VTEIMS, enabled),
        ];
        do_part(&rt, &mut unit, &mut frame, rule, limit, steps)?;
        assert_equal(&rt, unit.raise_other().bits(), issued);
        assert_equal(&rt, unit.reg_read(VTEICR), Some(stands));
    }
    Ok(())
}
