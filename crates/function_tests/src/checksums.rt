//! What a receive descriptor says of the checksums of a frame (82599 datasheet, 7.1.5 and 7.1.6.2). The frames are those of scapy 2.5.0; of
//! two one bit was turned over.
use crate::compare::assert_equal_at;
use crate::steps::Step::*;
use crate::steps::{RECEIVING, do_part};
use guest_memory::FlatMem;
use offload::Offloads;
use script_support::registers::{ENABLE, RXDCTL0, SRRCTL0};
use std::alloc::Global;
use std::process::Abort;
use std::test::Fail;
use vf_unit::*;
use wire_frame::{FrameBuf, FrameLimit, PortVlan};

/// A frame, its bytes' count, the status byte of its descriptor, and the errors: L4E is bit 6 and IPE bit 7 of the legacy byte.
const FRAMES: [(&str, u8, u8, u8); 6] = [
    // UDP over IPv4: DD, EOP, L4CS, IPCS
    (
        "0200000000030200000000990800450000211234000040117c5cc0000201c633640704000035000dcb9068656c6c6f",
        47,
        0x63,
        0,
    ),
    // the same with another sum of UDP, and with another sum of the header
    (
        "0200000000030200000000990800450000211234000040117c5cc0000201c633640704000035000dca9068656c6c6f",
        47,
        0x63,
        0x40,
    ),
    (
        "020000000003020000000099080045000021123400004011fc5cc0000201c633640704000035000dcb9068656c6c6f",
        47,
        0x63,
        0x80,
    ),
    // TCP over IPv6, whose header has no sum
    (
        "02000000000302000000009986dd600000000016064020010db800000000000000000000000120010db800000000000000000000000200509c40000000010000000250182000285700006f6b",
        76,
        0x23,
        0,
    ),
    // UDP without a sum
    (
        "0200000000030200000000990800450000211234000040117c5cc0000201c633640704000035000d000068656c6c6f",
        47,
        0x43,
        0,
    ),
    // ARP
    (
        "ffffffffffff0200000000990806000108000604000102fc00000001c0000201000000000000c6336407",
        42,
        0x03,
        0,
    ),
];

/// The second word, as a guest reads it, that a function with these offloads writes for a frame.
fn word_of(
    rt: &impl Abort,
    alloc: Global,
    offloads: Offloads,
    is_legacy: bool,
    frame: &FrameBuf,
) -> Result<[u8; 8], Fail> {
    let mut unit = VfUnit::new(alloc, FlatMem::new(alloc, 4096)?)?;
    let mut room = FrameBuf::blank();
    let (rule, limit) = (PortVlan::Descriptor, FrameLimit::standard());
    let _former = unit.exchange(FlatMem::new(alloc, 65_536)?, Some(offloads));
    do_part(rt, &mut unit, &mut room, rule, limit, RECEIVING)?;
    if is_legacy {
        let steps = &[W(RXDCTL0, 0), W(SRRCTL0, 2), W(RXDCTL0, ENABLE)];
        do_part(rt, &mut unit, &mut room, rule, limit, steps)?;
    }
    unit.deliver(frame, false);
    let mut word = [0; 8];
    unit.mem_read(0x1008, &mut word);
    Ok(word)
}

#[test]
fn checksums_of_frames_that_come(rt: HostRuntime) -> Result<(), Fail> {
    let silent = Offloads {
        receive_checksum: false,
        ..Offloads::all()
    };
    for (text, count, status, errors) in FRAMES {
        let bytes = hex::decode(rt.alloc(), text)?;
        let frame = FrameBuf::from_bytes(&bytes)?;
        let advanced = word_of(&rt, rt.alloc(), Offloads::all(), false, &frame)?;
        assert_equal_at(&rt, advanced, [status, 0, 0, errors, count, 0, 0, 0], text);
        let legacy = word_of(&rt, rt.alloc(), Offloads::all(), true, &frame)?;
        assert_equal_at(&rt, legacy, [count, 0, 0, 0, status, errors, 0, 0], text);
        // and where the device says nothing of them
        let unsaid = word_of(&rt, rt.alloc(), silent, false, &frame)?;
        assert_equal_at(&rt, unsaid, [3, 0, 0, 0, count, 0, 0, 0], text);
    }
    Ok(())
}
