//! Segments, and frames that can't be cut.
use crate::compare::{assert_equal, assert_equal_at};
use offload::{Context, Cut, NotCut};
use std::test::Fail;

/// A frame that is cut as scapy 2.5.0 built the segments: IPv4 with TCP options, whose identification and sequence number go past
/// their ends, in three; IPv6 in two; and a payload that is shorter than MSS in one. All ask for FIN, PSH and CWR.
#[test]
fn as_scapy_cuts_them(rt: HostRuntime) -> Result<(), Fail> {
    for (first, second, text, due) in [
        (
            0xe0051c14u64,
            0xa201020200c00u64,
            "020000000002020000000001080045000000ffff400040060000c0000201c633640704000050fffffffe0000004d809901f4ec4200000101080a00000001000000020102030405060708090a0b0c0d0e0f1011121314151617",
            [
                "02000000000202000000000108004500003effff400040064e7ec0000201c633640704000050fffffffe0000004d809001f46a4600000101080a00000001000000020102030405060708090a",
                "02000000000202000000000108004500003e0000400040064e7ec0000201c633640704000050000000080000004d801001f4388b00000101080a00000001000000020b0c0d0e0f1011121314",
                "0200000000020200000000010800450000370001400040064e84c0000201c633640704000050000000120000004d801901f457b900000101080a0000000100000002151617",
            ],
        ),
        (
            0xe0051c28u64,
            0xa141020200800u64,
            "02000000000202000000000186dd600123450000064020010db800000000000000000000000120010db800000000000000000002000704000050000003e80000004d509901f45b8200006465666768696a6b6c6d6e6f7071727374757677",
            [
                "02000000000202000000000186dd60012345001e064020010db800000000000000000000000120010db800000000000000000002000704000050000003e80000004d509001f43f4700006465666768696a6b6c6d",
                "02000000000202000000000186dd60012345001e064020010db800000000000000000000000120010db800000000000000000002000704000050000003f20000004d501901f40d8200006e6f7071727374757677",
                "",
            ],
        ),
        (
            0xe0051c14u64,
            0x5b4141020200c00u64,
            "0200000000020200000000010800450000000005000040060000c0000201c633640704000050000003e80000004d509901f4ec420000616263",
            [
                "02000000000202000000000108004500002b0005000040068e8cc0000201c633640704000050000003e80000004d509901f4f4300000616263",
                "",
                "",
            ],
        ),
    ] {
        let frame = hex::decode(rt.alloc(), text)?;
        let context = Context::decode(first, second);
        let Ok(cut) = Cut::of(&context, frame.len(), 1514) else {
            return Err("it can be cut".into());
        };
        assert_equal_at(
            &rt,
            cut.count(),
            due.iter().filter(|text| !text.is_empty()).count(),
            text,
        );
        for number in 0..cut.count() {
            let mut bytes = hex::decode(rt.alloc(), text)?;
            if bytes.len() != frame.len() {
                return Err("it is the same text".into());
            }
            let place = cut.place(number);
            let size = cut.segment(bytes.as_mut_slice(), number, &mut [0xA5u8; 1600]);
            let Some(segment) = bytes.get(place..place.wrapping_add(size)) else {
                return Err("it is longer than the frame".into());
            };
            let wanted = due.get(number).copied().unwrap_or("");
            assert_equal_at(
                &rt,
                hex::encode(rt.alloc(), segment)?.as_str(),
                wanted,
                number,
            );
        }
    }
    Ok(())
}

/// Each length at its bounds, for headers of 14, 20 and 20 bytes, and for IPv6 of 14, 40 and 20.
#[test]
fn refused(rt: HostRuntime) -> Result<(), Fail> {
    for (first, second, size, limit, due) in [
        (0x1C14u64, 0x000A_1400_0000_0C00u64, 55, 55, Ok(1)),
        (0x1C14, 0x000A_1400_0000_0C00, 64, 64, Ok(1)),
        (0x1C14, 0x000A_1400_0000_0C00, 65, 64, Ok(2)),
        (0x1C14, 0x0001_1400_0000_0C00, 65_589, 55, Ok(65_535)),
        (0x1C14, 0xFFFF_1400_0000_0C00, 65_535, 65_535, Ok(1)),
        (
            0x1C14,
            0xFFFF_1400_0000_0C00,
            65_536,
            65_535,
            Err(NotCut::OverLimit),
        ),
        (
            0x1C14,
            0x000A_1400_0000_0C00,
            65,
            63,
            Err(NotCut::OverLimit),
        ),
        (0x1C14, 0x0000_1400_0000_0C00, 55, 55, Err(NotCut::NoMss)),
        (
            0x1C14,
            0x000A_1400_0000_0C00,
            54,
            55,
            Err(NotCut::NoPayload),
        ),
        (
            0x1C14,
            0x000A_1400_0000_0C00,
            53,
            55,
            Err(NotCut::HeadersOutside),
        ),
        (
            0x1C14,
            0x000A_1400_0000_0C00,
            0,
            55,
            Err(NotCut::HeadersOutside),
        ),
        (
            0x1C14,
            0x000A_1300_0000_0C00,
            55,
            55,
            Err(NotCut::ShortTcpHeader),
        ),
        (
            0x1C13,
            0x000A_1400_0000_0C00,
            55,
            55,
            Err(NotCut::ShortIpHeader),
        ),
        (
            0x1C27,
            0x000A_1400_0000_0800,
            75,
            75,
            Err(NotCut::ShortIpHeader),
        ),
        (0x1C28, 0x000A_1400_0000_0800, 75, 75, Ok(1)),
        (0x1C14, 0x000A_1400_0000_0400, 55, 55, Err(NotCut::NotTcp)),
        (0x1C14, 0x000A_1400_0000_1400, 55, 55, Err(NotCut::NotTcp)),
        (0x1C14, 0x000A_1400_0000_1C00, 55, 55, Err(NotCut::NotTcp)),
        (
            0xFFFF,
            0xFFFF_FF00_0000_0C00,
            893,
            65_535,
            Err(NotCut::NoPayload),
        ),
        (0xFFFF, 0xFFFF_FF00_0000_0C00, 894, 894, Ok(1)),
        (u64::MAX, u64::MAX, usize::MAX, 65_535, Err(NotCut::NotTcp)),
    ] {
        let cut = Cut::of(&Context::decode(first, second), size, limit);
        let count = match cut {
            Ok(cut) => Ok(cut.count()),
            Err(why) => Err(why),
        };
        assert_equal_at(&rt, count, due, (first, second, size));
    }
    Ok(())
}

/// What a segment takes the place of is kept in front of the room, which stays as it was behind that; and the frame is whole again once it
/// is put back.
#[test]
fn leaves_the_rest(rt: HostRuntime) -> Result<(), Fail> {
    let mut frame = [0x5Au8; 65];
    let Ok(cut) = Cut::of(&Context::decode(0x1C14, 0x000A_1400_0000_0C00), 65, 64) else {
        return Err("it can be cut".into());
    };
    let mut room = [0xA5u8; 100];
    if cut.count() != 2 {
        return Err("there are two".into());
    }
    let size = cut.segment(&mut frame, 1, &mut room);
    assert_equal(&rt, (cut.headers(), cut.place(1), size), (54, 10, 55));
    assert_equal(&rt, frame.get(64) == Some(&0x5A), true);
    assert_equal(&rt, frame.get(..10) == [0x5Au8; 65].get(..10), true);
    assert_equal(&rt, frame == [0x5Au8; 65], false);
    assert_equal(&rt, room.get(..54) == [0x5Au8; 65].get(..54), true);
    assert_equal(&rt, room.get(54..) == [0xA5u8; 100].get(54..), true);
    cut.put_back(&mut frame, 1, &room);
    assert_equal(&rt, frame == [0x5Au8; 65], true);
    Ok(())
}
