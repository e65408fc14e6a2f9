//! What can't be done. The frames are those of scapy 2.5.0, handed over as in [`sums`](crate::sums) and [`segments`](crate::segments).
use crate::card::{Card, FIRST, all_under, play};
use crate::compare::assert_equal_at;
use offload::Offloads;
use std::test::Fail;
use tx_desc::Progress::{Dropped, Ended, More};
use tx_desc::Terms;
use wire_frame::{FrameLimit, PortVlan};

/// A context, the second word of a data descriptor and its bytes. The frame leaves as it stands, and it falls short.
#[test]
fn sums_that_cannot_be_made(rt: HostRuntime) -> Result<(), Fail> {
    for (context, word, text) in [
        // MACLEN reaches past the end of the frame
        (
            (0xFE14, 0x2020_0400),
            0x000D_C280_2B30_0037,
            "0200000000020200000000010800450000291234400040113c54c0000201c6336407004400350015ec620102030405060708090a0b0c0d",
        ),
        // so does the IPv4 header, whose sum is asked for
        (
            (0x1C2A, 0x2020_0400),
            0x000D_C180_2B30_0037,
            "0200000000020200000000010800450000291234400040113c54c0000201c6336407004400350015ec620102030405060708090a0b0c0d",
        ),
        // the frame ends in the UDP header
        (
            (0x1C14, 0x2020_0400),
            0x000A_4280_2B30_0029,
            "0200000000020200000000010800450000291234400040113c54c0000201c6336407004400350015ec",
        ),
        // the frame ends in the TCP header
        (
            (0x1C14, 0x2020_0C00),
            0x000D_4280_2B30_0035,
            "0200000000020200000000010800450000351234400040063c53c0000201c633640700500400000003e80000004d501801f4ec6300",
        ),
        // the header of IPv6 has no sum; then TCP's isn't made either
        (
            (0x1C28, 0x2020_0800),
            0x0015_C380_2B30_0057,
            "02000000000202000000000186dd600123450021064020010db800000000000000000000000120010db800000000000000000000000200500400000003e80000004d501801f45b9c00000102030405060708090a0b0c0d",
        ),
        // SCTP
        (
            (0x1C14, 0x2020_1400),
            0x000D_C280_2B30_0037,
            "0200000000020200000000010800450000291234400040113c54c0000201c6336407004400350015ec620102030405060708090a0b0c0d",
        ),
    ] {
        play(
            &rt,
            rt.alloc(),
            &all_under(PortVlan::Descriptor),
            (text, ""),
            &[context, (FIRST, word)],
            &[
                (More, false, false, 1, 0, ""),
                (Ended, true, true, 2, 2, text),
            ],
        )?;
    }
    Ok(())
}

/// Contexts of a frame that is to be cut, of 154 bytes. Nothing leaves, it falls short, and the queue goes on.
#[test]
fn frames_that_cannot_be_cut(rt: HostRuntime) -> Result<(), Fail> {
    let text =
        "0200000000020200000000010800450000001234400040060000c0000201c633640700500400000003e80000004d509901f4ec420000303132333435363738393a3b3c3d3e3f404142434445464748494a4b4c4d4e4f505152535455565758595a5b5c5d5e5f606162636465666768696a6b6c6d6e6f707172737475767778797a7b7c7d7e7f808182838485868788898a8b8c8d8e8f90919293";
    for context in [
        // MSS is 0
        (0x1C14, 0x1410_2020_0C00),
        // UDP
        (0x1C14, 0x0028_1410_2020_0400),
        // IPLEN below 20
        (0x1C13, 0x0028_1410_2020_0C00),
        // L4LEN below 20
        (0x1C14, 0x0028_1310_2020_0C00),
        // IPLEN of IPv6 below 40
        (0x1C14, 0x0028_1410_2020_0800),
        // headers past the end of the frame
        (0x1C14, 0x0028_7910_2020_0C00),
        // headers up to the end: no payload
        (0x1C14, 0x0028_7810_2020_0C00),
    ] {
        play(
            &rt,
            rt.alloc(),
            &all_under(PortVlan::Descriptor),
            (text, ""),
            &[context, (FIRST, 0x0019_0390_AB30_009A)],
            &[
                (More, false, false, 1, 0, ""),
                (More, false, false, 1, 0, ""),
                (Dropped, true, true, 2, 2, ""),
            ],
        )?;
    }
    Ok(())
}

/// The limit, the port's rule, MSS and whether VLE is set, of a frame of 54 bytes of headers and 2,000 of payload; then how long its first
/// segment is, 0 where the frame can't be cut. A tag takes four bytes of what a segment may have, the context's and the port's alike.
#[test]
fn segments_at_the_limit(rt: HostRuntime) -> Result<(), Fail> {
    use PortVlan::{Always, Descriptor, Never};
    for (limit, rule, mss, is_tagged, length) in [
        (1518, Descriptor, 1464u16, false, 1518),
        (1518, Descriptor, 1465, false, 0),
        (1518, Descriptor, 1460, true, 1518),
        (1518, Descriptor, 1461, true, 0),
        (1518, Always(9), 1460, false, 1518),
        (1518, Always(9), 1461, false, 0),
        (1518, Never, 1464, true, 1518),
        (2054, Descriptor, 2000, false, 2054),
        (2054, Descriptor, 1999, false, 2053),
        (2053, Descriptor, 2000, false, 0),
    ] {
        let terms = Terms {
            rule,
            limit: FrameLimit::new(limit).ok_or("no limit")?,
            offloads: Offloads::all(),
        };
        let word = if is_tagged {
            0x01F4_0390_EB30_0806
        } else {
            0x01F4_0390_AB30_0806
        };
        let mut card = Card::new(&rt, rt.alloc())?;
        card.describe(
            0,
            (
                0x0007_1C14,
                u64::from(mss) * 0x0001_0000_0000_0000 + 0x1410_2020_0C00,
            ),
        );
        card.describe(1, (FIRST, word));
        card.hand(2);
        card.turn(&terms);
        card.turn(&terms);
        let turn = card.turn(&terms);
        let outcome = if length == 0 { Dropped } else { Ended };
        assert_equal_at(
            &rt,
            (turn.outcome, turn.falls_short, card.length_of(turn)),
            (outcome, length == 0, length),
            (limit, mss),
        );
    }
    Ok(())
}

/// The longest frame that can be cut has headers of 893 bytes, the most that a context names, and 65,535 of payload: by an MSS of 8,000 it
/// gives nine segments. One byte more is too much, and nothing leaves.
#[test]
fn the_longest_frame(rt: HostRuntime) -> Result<(), Fail> {
    for (headers, outcome, segments, last) in [(893u64, Ended, 9, 2428), (894, Dropped, 0, 0)] {
        let terms = Terms {
            rule: PortVlan::Descriptor,
            limit: FrameLimit::new(9018).ok_or("no limit")?,
            offloads: Offloads::all(),
        };
        let mut card = Card::new(&rt, rt.alloc())?;
        card.describe(0, (0xFFFF, 0x1F40_FF10_2020_0C00));
        card.describe(1, (FIRST, 0x3FFF_C290_A230_0000 + headers));
        card.describe(2, (FIRST, 0x3FFF_C290_AB30_FFFF));
        card.hand(3);
        let mut sent = 0u32;
        let mut found = (More, false, 0, 0);
        for _ in 0..20u32 {
            let turn = card.turn(&terms);
            if turn.outcome == Ended {
                sent = sent.wrapping_add(1);
            }
            if turn.reported {
                found = (turn.outcome, turn.falls_short, sent, card.length_of(turn));
            }
        }
        assert_equal_at(
            &rt,
            found,
            (outcome, outcome == Dropped, segments, last),
            headers,
        );
    }
    Ok(())
}
