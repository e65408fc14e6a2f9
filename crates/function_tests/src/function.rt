//! Worked examples from outside, as a driver and the wire would do them: each is a list of steps with what they answer.
use crate::compare::assert_equal;
use crate::steps::Step::*;
use crate::steps::{FRAME, RECEIVING, Step, do_part, do_steps, do_steps_over, plainly};
use guest_memory::{FlatMem, GuestMem};
use irq_causes::Vectors;
use offload::Offloads;
use script_support::registers::{
    ADVANCED, ENABLE, RDBAH0, RDBAL0, RDH0, RDLEN0, RDLEN1, RDT0, ROUTES, RXDCTL0, RXDCTL1,
    SRRCTL0, SRRCTL1, TDBAL0, TDH0, TDLEN0, TDLEN1, TDT0, TXDCTL0, VFCTRL, VFGPRC, VFLINKS, VTEIAC,
    VTEICR, VTEICS, VTEIMC, VTEIMS, VTIVAR, VTIVAR_MISC,
};
use std::alloc::Global;
use std::test::Fail;
use tx_desc::Progress;
use vf_unit::*;
use wire_frame::{FrameBuf, FrameLimit, PortVlan};

// The same with VLAN id 100.
const TAGGED: &[u8] = &[
    2, 0, 0, 0, 0, 3, 2, 0, 0, 0, 0, 0x99, 0x81, 0, 0, 0x64, 8, 0,
];

#[test]
fn places_frames(rt: HostRuntime) -> Result<(), Fail> {
    for steps in [
        // One descriptor: done, end of packet, 60 bytes.
        &[
            Wire(FRAME, 0, 60, 1),
            Get(0x1000, &[0, 0, 0, 0, 0, 0, 0, 0, 3, 0, 0, 0, 0x3C, 0, 0, 0]),
            R(VFGPRC, 1),
            R(RDH0, 1),
            Wire(FRAME, 0, 60, 0),
            R(VFGPRC, 1),
        ] as &[Step],
        // The tag is stripped: the status has VP, 56 bytes and the tag control.
        &[
            W(RXDCTL0, 0x4200_0000),
            Wire(TAGGED, 0, 60, 1),
            Get(0x1008, &[0x0B, 0, 0, 0, 0x38, 0, 0x64, 0]),
            Get(0x400A, &[0, 0x99, 8, 0, 0]),
        ],
        // The buffer is the ring: the write-back covers the data.
        &[
            Put(0x1000, &[0, 0x10], 0, 8),
            Wire(FRAME, 0xAA, 60, 1),
            Get(
                0x1000,
                &[
                    0, 0, 0, 0, 0, 0, 0, 0, 3, 0, 0, 0, 0x3C, 0, 0, 0, 0xAA, 0xAA, 0xAA, 0xAA,
                ],
            ),
        ],
        // The buffer lies outside the memory: the queue goes off.
        &[
            Put(0x1000, &[], 0xFF, 8),
            Wire(FRAME, 0, 60, 0),
            R(RXDCTL0, 0),
            R(VFGPRC, 0),
            R(RDH0, 0),
        ],
    ] {
        plainly(&rt, rt.alloc(), RECEIVING, steps)?;
    }
    Ok(())
}

// Buffers of 1 KiB, head 7 of 8; the descriptor at 7 has its buffer at 0x4000.
const AT_THE_END: &[Step] = &[
    W(VTIVAR, ROUTES),
    W(VTEIMS, 7),
    W(RDBAL0, 0x1000),
    W(RDLEN0, 128),
    W(RDH0, 7),
    W(SRRCTL0, ADVANCED | 1),
    Put(0x1070, &[0, 0x40], 0, 8),
];

#[test]
fn places_frames_in_pieces(rt: HostRuntime) -> Result<(), Fail> {
    for steps in [
        // Two pieces, of 1024 and 494 bytes; the second descriptor is the first of the ring.
        &[
            W(RDT0, 1),
            Put(0x1000, &[0, 0x50], 0, 8),
            W(RXDCTL0, ENABLE),
            Wire(FRAME, 0, 1518, 1),
            Get(0x1078, &[1, 0, 0, 0, 0, 4, 0, 0]),
            Get(0x1008, &[3, 0, 0, 0, 0xEE, 1, 0, 0]),
            R(RDH0, 1),
        ] as &[Step],
        // One descriptor alone: nothing changes.
        &[
            W(RDT0, 0),
            Put(0x1000, &[0, 0x50], 0, 8),
            W(RXDCTL0, ENABLE),
            Wire(FRAME, 0, 1518, 0),
            Get(0x1078, &[0; 8]),
            Get(0x1008, &[0; 8]),
            R(RDH0, 7),
            R(VFGPRC, 0),
        ],
        // The second buffer passes the end of the memory by one byte, and then ends with it.
        &[
            W(RDT0, 1),
            Put(0x1000, &[0x13, 0xFE], 0, 8),
            W(RXDCTL0, ENABLE),
            Wire(FRAME, 0, 1518, 0),
            R(RXDCTL0, 0),
            R(RDH0, 7),
            Get(0x1070, &[0, 0x40, 0, 0, 0, 0, 0, 0]),
            Put(0x1000, &[0x12, 0xFE], 0, 8),
            W(RXDCTL0, ENABLE),
            Wire(FRAME, 0, 1518, 1),
            Get(0x1070, &[0; 8]),
        ],
        // The first piece covers the second descriptor, which was read before.
        &[
            W(RDH0, 0),
            W(RDT0, 2),
            Put(
                0x1000,
                &[
                    0x10, 0x10, 0, 0, 0, 0, 0, 0, 0, 0, 0, 0, 0, 0, 0, 0, 0, 0x50,
                ],
                0,
                24,
            ),
            W(RXDCTL0, ENABLE),
            Wire(FRAME, 0xAA, 1518, 1),
            Get(
                0x1000,
                &[
                    0, 0, 0, 0, 0, 0, 0, 0, 1, 0, 0, 0, 0, 4, 0, 0, 0, 0, 0, 0, 0, 0, 0, 0, 3, 0,
                    0, 0, 0xEE, 1, 0, 0, 0xAA, 0xAA, 0xAA, 0xAA,
                ],
            ),
            Get(0x5000, &[0xAA, 0xAA]),
        ],
    ] {
        plainly(&rt, rt.alloc(), AT_THE_END, steps)?;
    }
    Ok(())
}

#[test]
fn places_jumbo_frames(rt: HostRuntime) -> Result<(), Fail> {
    // Nine buffers of 1 KiB from 0x4000 on, in a ring of sixteen.
    const NINE: &[Step] = &[
        W(VTIVAR, ROUTES),
        W(VTEIMS, 7),
        W(RDBAL0, 0x1000),
        W(RDLEN0, 256),
        W(SRRCTL0, ADVANCED | 1),
        Put(0x1000, &[0, 0x40], 0, 16),
        Put(0x1010, &[0, 0x44], 0, 16),
        Put(0x1020, &[0, 0x48], 0, 16),
        Put(0x1030, &[0, 0x4C], 0, 16),
        Put(0x1040, &[0, 0x50], 0, 16),
        Put(0x1050, &[0, 0x54], 0, 16),
        Put(0x1060, &[0, 0x58], 0, 16),
        Put(0x1070, &[0, 0x5C], 0, 16),
        Put(0x1080, &[0, 0x60], 0, 16),
    ];
    for steps in [
        &[
            W(RDT0, 9),
            W(RXDCTL0, ENABLE),
            Wire(FRAME, 0, 9018, 1),
            Get(0x1078, &[1, 0, 0, 0, 0, 4, 0, 0]),
            Get(0x1088, &[3, 0, 0, 0, 0x3A, 3, 0, 0]),
            R(RDH0, 9),
        ] as &[Step],
        &[
            W(RDT0, 8),
            W(RXDCTL0, ENABLE),
            Wire(FRAME, 0, 9018, 0),
            Get(0x1078, &[0; 8]),
            Get(0x1088, &[0; 8]),
            R(RDH0, 0),
        ],
    ] {
        plainly(&rt, rt.alloc(), NINE, steps)?;
    }
    Ok(())
}

// A transmit queue with two descriptors, whose buffers are at 0x6000 and 0x7000 and hold a frame to 02:00:00:00:00:04.
const SENDING: &[Step] = &[
    W(VTIVAR, ROUTES),
    W(VTEIMS, 7),
    Put(0x6000, SENT, 0, 1600),
    Put(0x2000, &[0, 0x60], 0, 16),
    Put(0x2010, &[0, 0x70], 0, 16),
    W(TDBAL0, 0x2000),
    W(TDLEN0, 128),
    W(TXDCTL0, ENABLE),
];

const SENT: &[u8] = &[2, 0, 0, 0, 0, 4, 2, 0, 0, 0, 0, 0x99, 8, 0];
// The same with VLAN ids 5 and 100.
const SENT_WITH_5: &[u8] = &[2, 0, 0, 0, 0, 4, 2, 0, 0, 0, 0, 0x99, 0x81, 0, 0, 5, 8, 0];

const SENT_WITH_100: &[u8] = &[
    2, 0, 0, 0, 0, 4, 2, 0, 0, 0, 0, 0x99, 0x81, 0, 0, 0x64, 8, 0,
];

// A receive queue with one buffer at 0x4000, of which nobody has said how large it is; receive raises vector 0.
const WAITING: &[Step] = &[
    Put(0x1000, &[0, 0x40], 0, 8),
    W(RDBAL0, 0x1000),
    W(RDLEN0, 128),
    W(RDT0, 1),
    W(VTIVAR, ROUTES),
    W(VTEIMS, 7),
];
// What is written back of a legacy descriptor for 60 bytes: the buffer's address, the length, done and the end of the frame.
const LEGACY_60: &[u8] = &[0, 0x40, 0, 0, 0, 0, 0, 0, 0x3C, 0, 0, 0, 3, 0, 0, 0];

/// Legacy descriptors, of a function that takes them and of one that doesn't.
#[test]
fn legacy_queues(rt: HostRuntime) -> Result<(), Fail> {
    for (offloads, steps) in [
        // As iPXE's driver does: the queue goes on, and then its buffers get a size. Until then there is no room.
        (
            Offloads::all(),
            &[
                W(RXDCTL0, ENABLE),
                R(RXDCTL0, ENABLE),
                Wire(FRAME, 0xAA, 60, 0),
                R(VFGPRC, 0),
                R(RDH0, 0),
                Get(0x1000, &[0, 0x40, 0, 0, 0, 0, 0, 0, 0, 0, 0, 0, 0]),
                W(SRRCTL0, 2),
                R(SRRCTL0, 0x1000_0002),
                Wire(FRAME, 0xAA, 60, 1),
                R(VFGPRC, 1),
                R(RDH0, 1),
                Get(0x1000, LEGACY_60),
                Get(0x4000, FRAME),
                // The type stays while the queue is on. Buffers of 17 KiB are none.
                W(SRRCTL0, ADVANCED | 4),
                R(SRRCTL0, 0x1000_0002),
                W(SRRCTL0, 17),
                R(SRRCTL0, 0x1000_0011),
                W(RDT0, 2),
                Wire(FRAME, 0, 60, 0),
                R(RDH0, 1),
            ] as &[Step],
        ),
        // An advanced queue is as it is everywhere.
        (
            Offloads::all(),
            &[
                W(SRRCTL0, ADVANCED),
                W(RXDCTL0, ENABLE),
                R(RXDCTL0, 0),
                W(SRRCTL0, ADVANCED | 2),
                W(RXDCTL0, ENABLE),
                W(SRRCTL0, ADVANCED | 4),
                W(SRRCTL0, 4),
                R(SRRCTL0, 0x1200_0002),
                Wire(FRAME, 0, 60, 1),
                Get(0x1000, &[0, 0, 0, 0, 0, 0, 0, 0, 3, 0, 0, 0, 0x3C]),
            ],
        ),
        (
            Offloads::none(),
            &[W(SRRCTL0, 2), W(RXDCTL0, ENABLE), R(RXDCTL0, 0)],
        ),
    ] {
        let mut unit = VfUnit::new(rt.alloc(), FlatMem::new(rt.alloc(), 65_536)?)?;
        let memory = FlatMem::new(rt.alloc(), 65_536)?;
        let _ = unit.exchange(memory, Some(offloads));
        let mut frame = FrameBuf::blank();
        let limit = FrameLimit::standard();
        for part in [WAITING, steps] {
            do_part(&rt, &mut unit, &mut frame, PortVlan::Never, limit, part)?;
        }
    }
    Ok(())
}

#[test]
fn takes_descriptors(rt: HostRuntime) -> Result<(), Fail> {
    for steps in [
        // Advanced, end of packet, report status.
        &[
            Put(0x2008, &[0x3C, 0, 0x30, 0x29, 0, 0, 0, 0], 0, 8),
            W(TDT0, 1),
            Serve(Progress::Ended, 2),
            Ended(SENT, 0, 60),
            Get(0x2008, &[0x3C, 0, 0x30, 0x29, 1, 0, 0, 0]),
            R(TDH0, 1),
            Serve(Progress::Idle, 0),
        ] as &[Step],
        // Legacy with a tag.
        &[
            Put(0x2008, &[0x3C, 0, 0, 0x49, 0, 0, 5, 0], 0, 8),
            W(TDT0, 1),
            Serve(Progress::Ended, 2),
            Ended(SENT_WITH_5, 0, 64),
            Get(0x2008, &[0x3C, 0, 0, 0x49, 1, 0, 5, 0]),
        ],
        // A buffer outside the memory.
        &[
            Put(0x2000, &[], 0xFF, 8),
            Put(0x2008, &[0x3C, 0, 0x30, 0x29, 0, 0, 0, 0], 0, 8),
            W(TDT0, 1),
            Serve(Progress::Faulted, 0),
            R(TXDCTL0, 0),
            R(TDH0, 0),
        ],
        // No bytes at the end of the memory, and one byte there.
        &[
            Put(0x2000, &[0, 0, 1], 0, 8),
            Put(0x2008, &[0, 0, 0x30, 0x29, 0, 0, 0, 0], 0, 8),
            W(TDT0, 1),
            Serve(Progress::Dropped, 2),
        ],
        &[
            Put(0x2000, &[0, 0, 1], 0, 8),
            Put(0x2008, &[1, 0, 0x30, 0x29, 0, 0, 0, 0], 0, 8),
            W(TDT0, 1),
            Serve(Progress::Faulted, 0),
        ],
        // Type 1, segmentation and insertion are not offered; a context is passed over.
        &[
            Put(0x2008, &[0x3C, 0, 0x10, 0x29, 0, 0, 0, 0], 0, 8),
            W(TDT0, 1),
            Serve(Progress::Faulted, 0),
        ],
        &[
            Put(0x2008, &[0x3C, 0, 0x30, 0xA9, 0, 0, 0, 0], 0, 8),
            W(TDT0, 1),
            Serve(Progress::Faulted, 0),
        ],
        &[
            Put(0x2008, &[0x3C, 0, 0x30, 0x69, 0, 0, 0, 0], 0, 8),
            W(TDT0, 1),
            Serve(Progress::Faulted, 0),
        ],
        &[
            Put(0x2008, &[0x3C, 0, 0x20, 0x29, 0, 0, 0, 0], 0, 8),
            W(TDT0, 1),
            Serve(Progress::More, 0),
            Get(0x2008, &[0x3C, 0, 0x20, 0x29, 0, 0, 0, 0]),
            R(TDH0, 1),
        ],
        // The descriptors are the frame.
        &[
            Put(0x2000, &[0, 0x20], 0, 8),
            Put(0x2008, &[0x10, 0, 0x30, 0x29, 0, 0, 0, 0], 0, 8),
            W(TDT0, 1),
            Serve(Progress::Ended, 2),
            Get(0x2008, &[0x10, 0, 0x30, 0x29, 1, 0, 0, 0]),
            Ended(&[0, 0x20, 0, 0, 0, 0, 0, 0, 0x10, 0, 0x30, 0x29], 0, 16),
        ],
        // Going off loses the pending frame: the second descriptor alone is no frame.
        &[
            Put(0x2008, &[0x3C, 0, 0x30, 0x28, 0, 0, 0, 0], 0, 8),
            Put(0x2018, &[1, 0, 0x30, 0x29, 0, 0, 0, 0], 0, 8),
            W(TDT0, 2),
            Serve(Progress::More, 2),
            W(TXDCTL0, 0),
            W(TXDCTL0, ENABLE),
            Serve(Progress::Dropped, 0),
        ],
    ] {
        plainly(&rt, rt.alloc(), SENDING, steps)?;
    }
    Ok(())
}

#[test]
fn frames_are_within_the_limit(rt: HostRuntime) -> Result<(), Fail> {
    let jumbo = FrameLimit::new(9018).ok_or("a limit")?;
    // 1000 bytes and then 600.
    for (limit, steps) in [
        (
            FrameLimit::standard(),
            &[
                Put(0x2008, &[0xE8, 3, 0x30, 0x28, 0, 0, 0, 0], 0, 8),
                Put(0x2018, &[0x58, 2, 0x30, 0x29, 0, 0, 0, 0], 0, 8),
                W(TDT0, 2),
                Serve(Progress::More, 2),
                Serve(Progress::Dropped, 0),
            ] as &[Step],
        ),
        (
            jumbo,
            &[
                Put(0x2008, &[0xE8, 3, 0x30, 0x28, 0, 0, 0, 0], 0, 8),
                Put(0x2018, &[0x58, 2, 0x30, 0x29, 0, 0, 0, 0], 0, 8),
                W(TDT0, 2),
                Serve(Progress::More, 2),
                Serve(Progress::Ended, 0),
                Ended(SENT, 0, 1600),
            ],
        ),
    ] {
        let memory = FlatMem::new(rt.alloc(), 65_536)?;
        let unit = VfUnit::new(rt.alloc(), memory)?;
        do_steps(&rt, unit, PortVlan::Descriptor, limit, [SENDING, steps])?;
    }
    Ok(())
}

#[test]
fn ports_insert_tags(rt: HostRuntime) -> Result<(), Fail> {
    for (rule, steps) in [
        (
            PortVlan::Always(100),
            &[
                Put(0x2008, &[0x3C, 0, 0x30, 0x29, 0, 0, 0, 0], 0, 8),
                W(TDT0, 1),
                Serve(Progress::Ended, 2),
                Ended(SENT_WITH_100, 0, 64),
            ] as &[Step],
        ),
        (
            PortVlan::Never,
            &[
                Put(0x2008, &[0x3C, 0, 0, 0x49, 0, 0, 5, 0], 0, 8),
                W(TDT0, 1),
                Serve(Progress::Ended, 2),
                Ended(SENT, 0, 60),
            ],
        ),
        (
            PortVlan::Always(100),
            &[
                Put(0x6000, SENT_WITH_5, 0, 64),
                Put(0x2008, &[0x40, 0, 0x30, 0x29, 0, 0, 0, 0], 0, 8),
                W(TDT0, 1),
                Serve(Progress::Dropped, 2),
            ],
        ),
        (
            PortVlan::Always(100),
            &[
                Put(0x2008, &[0xEB, 5, 0x30, 0x29, 0, 0, 0, 0], 0, 8),
                Put(0x2018, &[0xEA, 5, 0x30, 0x29, 0, 0, 0, 0], 0, 8),
                Put(0x2010, &[0, 0x60], 0, 8),
                W(TDT0, 2),
                Serve(Progress::Dropped, 2),
                Serve(Progress::Ended, 0),
                Ended(SENT_WITH_100, 0, 1518),
            ],
        ),
    ] {
        let memory = FlatMem::new(rt.alloc(), 65_536)?;
        let unit = VfUnit::new(rt.alloc(), memory)?;
        do_steps(&rt, unit, rule, FrameLimit::standard(), [SENDING, steps])?;
    }
    Ok(())
}

#[test]
fn registers_answer_as_mapped(rt: HostRuntime) -> Result<(), Fail> {
    for steps in [
        // Causes: masked, unmasked, cleared by a read, cleared automatically.
        &[
            W(VTEIMS, 2),
            Issues(VTEICS, 3, 2),
            R(VTEICR, 3),
            W(VTEICS, 1),
            W(VTEIAC, 1),
            Issues(VTEIMS, 1, 1),
            R(VTEICR, 0),
            W(VTEIMS, 1),
            W(VTEIMC, 2),
            R(VTEIMS, 1),
            Issues(VTEICS, 7, 1),
            R(VTEICR, 6),
            R(VTEICR, 0),
        ] as &[Step],
        // A base past the end of all addresses.
        &[
            W(RDBAH0, 0xFFFF_FFFF),
            W(RDBAL0, 0xFFFF_FFFF),
            R(RDBAL0, 0xFFFF_FF80),
            W(RDLEN0, 128),
            W(SRRCTL0, ADVANCED | 2),
            W(RXDCTL0, ENABLE),
            R(RXDCTL0, 0),
        ],
        // Fixed words, offsets outside the map, and words of queue 1 and what they keep.
        &[
            R(VFLINKS, 0x7000_0000),
            R(SRRCTL0, 0x1000_0000),
            W(0x14, 0xFFFF_FFFF),
            R(0x14, 0),
            W(SRRCTL1, 0xFFFF_FFFF),
            R(SRRCTL1, 0x1E00_001F),
            W(VTIVAR, 0xFFFF_FFFF),
            R(VTIVAR, 0x8383_8383),
            W(VTIVAR_MISC, 0xFFFF_FFFF),
            R(VTIVAR_MISC, 0x83),
            W(TDLEN1, 0xFFFF_FFFF),
            R(TDLEN1, 0x000F_FF80),
            W(RXDCTL1, 0x4000_0000),
            R(RXDCTL1, 0x4000_0000),
            // The descriptor type is not the advanced one.
            W(SRRCTL1, 2),
            W(RDLEN1, 128),
            W(RXDCTL1, ENABLE),
            R(RXDCTL1, 0),
            W(VFCTRL, 0x0400_0000),
            R(TDLEN1, 0),
            R(VTIVAR, 0),
        ],
        // A function-level reset keeps the memory.
        &[
            Put(0, &[0xAA], 0, 1),
            W(VTEIMS, 7),
            Reset,
            R(VTEIMS, 0),
            Get(0, &[0xAA]),
        ],
    ] {
        plainly(&rt, rt.alloc(), &[], steps)?;
    }
    // The longest ring, and one longer.
    for (length, on) in [(65_536, 0x0200_0000), (65_664, 0)] {
        let steps = [
            W(RDBAL0, 0),
            W(RDLEN0, length),
            W(SRRCTL0, ADVANCED | 2),
            W(RDT0, 4095),
            W(RXDCTL0, ENABLE),
            R(RDT0, 4095),
            R(RXDCTL0, on),
        ];
        let memory = FlatMem::new(rt.alloc(), 131_072)?;
        let limit = FrameLimit::standard();
        let unit = VfUnit::new(rt.alloc(), memory)?;
        do_steps(&rt, unit, PortVlan::Descriptor, limit, [&steps, &[]])?;
    }
    Ok(())
}

// A function with a memory of 4096 bytes, closed.
fn closed(alloc: Global) -> Result<VfUnit<FlatMem>, Fail> {
    Ok(VfUnit::new(alloc, FlatMem::new(alloc, 4096)?)?)
}

#[test]
fn a_closed_function_does_nothing(rt: HostRuntime) -> Result<(), Fail> {
    let mut unit = closed(rt.alloc())?;
    let mut frame = FrameBuf::blank();
    let limit = FrameLimit::standard();
    let mut byte = [1u8];
    assert_equal(&rt, unit.reg_read(0x10), None);
    assert_equal(&rt, unit.reg_write(0x108, 7), None);
    let service = unit.serve(Queue::Q1, &mut frame, PortVlan::Never, limit);
    assert!(rt; service.is_none());
    assert_equal(&rt, unit.deliver(&frame, true), Vectors::none());
    let accessed = (unit.mem_write(0, &[0xAA]), unit.mem_read(0, &mut byte));
    assert!(rt; accessed == (false, false) && byte == [1]);
    Ok(())
}

#[test]
fn an_open_function_has_its_memory(rt: HostRuntime) -> Result<(), Fail> {
    let mut unit = closed(rt.alloc())?;
    let mut byte = [1u8];
    unit.open();
    assert!(rt; unit.is_open() && unit.memory_size() == 4096);
    assert!(rt; unit.mem_write(4095, &[0xAA]));
    assert!(rt; !unit.mem_write(4095, &[0xAA, 0xBB]));
    assert!(rt; !unit.mem_read(4096, &mut byte));
    Ok(())
}

#[test]
fn nothing_of_an_earlier_tenant_is_left(rt: HostRuntime) -> Result<(), Fail> {
    let mut unit = closed(rt.alloc())?;
    let mut byte = [1u8];
    unit.open();
    assert!(rt; unit.mem_write(4095, &[0xAA]));
    unit.sent();
    assert_equal(&rt, unit.reg_read(0x201C), Some(1));
    unit.end();
    assert!(rt; !unit.is_open());
    unit.open();
    assert!(rt; unit.mem_read(4095, &mut byte) && byte == [0]);
    assert_equal(&rt, unit.reg_read(0x201C), Some(0));
    Ok(())
}

// A memory of another kind: it counts its writes.
#[derive(Drop)]
struct CountingMem {
    memory: FlatMem,
    writes: u64,
}

impl GuestMem for CountingMem {
    ghost bytes = { λ m. m.memory };

    fn size(&self) -> u64 {
        self.memory.size()
    }

    fn read_at(&self, addr: u64, out: &mut [u8]) {
        self.memory.read_at(addr, out);
    }

    fn write_at(&mut self, addr: u64, source: &[u8]) {
        self.writes = self.writes.wrapping_add(1);
        self.memory.write_at(addr, source);
    }

    fn clear(&mut self) {
        self.memory.clear();
    }
}

#[test]
fn boxes_of_any_kind_serve(rt: HostRuntime) -> Result<(), Fail> {
    let steps: [&[Step]; 2] = [
        RECEIVING,
        &[
            W(RXDCTL0, 0x4200_0000),
            Wire(TAGGED, 7, 60, 1),
            Get(
                0x1000,
                &[0, 0, 0, 0, 0, 0, 0, 0, 0x0B, 0, 0, 0, 0x38, 0, 0x64, 0],
            ),
            Get(0x4000, &[2, 0, 0, 0, 0, 3, 2, 0, 0, 0, 0, 0x99, 8, 0, 7, 7]),
        ],
    ];
    let flat = FlatMem::new(rt.alloc(), 65_536)?;
    let flat: Box<dyn GuestMem + Send> = Box::new(rt.alloc(), flat)?;
    do_steps_over(&rt, rt.alloc(), flat, steps)?;
    let counting = CountingMem {
        memory: FlatMem::new(rt.alloc(), 65_536)?,
        writes: 0,
    };
    let counting: Box<dyn GuestMem + Send> = Box::new(rt.alloc(), counting)?;
    do_steps_over(&rt, rt.alloc(), counting, steps)
}
