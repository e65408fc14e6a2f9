//! What a card does that does only some of it, or none. The frames are those of scapy 2.5.0, handed over as in [`sums`](crate::sums) and
//! [`segments`](crate::segments).
use crate::card::{Card, FIRST, play};
use crate::compare::assert_equal_at;
use offload::Offloads;
use std::test::Fail;
use tx_desc::Misuse::{NotOffered, PastMemory, UnknownType};
use tx_desc::Progress::{Dropped, Ended, Faulted, Idle, More};
use tx_desc::Terms;
use wire_frame::{FrameLimit, PortVlan};

/// The terms of a card that does some of it.
fn terms_of(vlan: bool, checksum: bool, segmentation: bool) -> Terms {
    Terms {
        rule: PortVlan::Descriptor,
        limit: FrameLimit::standard(),
        offloads: Offloads {
            vlan,
            checksum,
            segmentation,
            auto_mask: false,
            legacy_receive: false,
            throttle: false,
            receive_checksum: false,
        },
    }
}

/// The flags of tags, sums and segments, a context, the second word of a data descriptor and its bytes; then what it gives.
#[test]
fn some_of_it(rt: HostRuntime) -> Result<(), Fail> {
    for ((vlan, checksum, segmentation), context, word, text, due) in [
        // VLE without its flag, whatever else is done
        (
            (false, true, true),
            (0x6007_1C14, 0x2020_0400),
            0x000D_C280_6B30_0037,
            "0200000000020200000000010800450000291234400040113c54c0000201c6336407004400350015ec620102030405060708090a0b0c0d",
            (Faulted, false, false, 1, 0, ""),
        ),
        // TSE without its flag
        (
            (true, true, false),
            (0x1C14, 0x0028_1410_2020_0C00),
            0x0019_0390_AB30_009A,
            "0200000000020200000000010800450000001234400040060000c0000201c633640700500400000003e80000004d509901f4ec420000303132333435363738393a3b3c3d3e3f404142434445464748494a4b4c4d4e4f505152535455565758595a5b5c5d5e5f606162636465666768696a6b6c6d6e6f707172737475767778797a7b7c7d7e7f808182838485868788898a8b8c8d8e8f90919293",
            (Faulted, false, false, 1, 0, ""),
        ),
        // both bits, by one of the flags
        (
            (true, false, false),
            (0x1C14, 0x0028_1410_2020_0C00),
            0x0019_0390_EB30_009A,
            "0200000000020200000000010800450000001234400040060000c0000201c633640700500400000003e80000004d509901f4ec420000303132333435363738393a3b3c3d3e3f404142434445464748494a4b4c4d4e4f505152535455565758595a5b5c5d5e5f606162636465666768696a6b6c6d6e6f707172737475767778797a7b7c7d7e7f808182838485868788898a8b8c8d8e8f90919293",
            (Faulted, false, false, 1, 0, ""),
        ),
        (
            (false, false, true),
            (0x1C14, 0x0028_1410_2020_0C00),
            0x0019_0390_EB30_009A,
            "0200000000020200000000010800450000001234400040060000c0000201c633640700500400000003e80000004d509901f4ec420000303132333435363738393a3b3c3d3e3f404142434445464748494a4b4c4d4e4f505152535455565758595a5b5c5d5e5f606162636465666768696a6b6c6d6e6f707172737475767778797a7b7c7d7e7f808182838485868788898a8b8c8d8e8f90919293",
            (Faulted, false, false, 1, 0, ""),
        ),
        // sums without their flag: they stay as the driver left them
        (
            (true, false, true),
            (0x6007_1C14, 0x2020_0400),
            0x000D_C380_2B30_0037,
            "020000000002020000000001080045000029123440004011abcdc0000201c6336407004400350015ec620102030405060708090a0b0c0d",
            (
                Ended,
                true,
                false,
                2,
                2,
                "020000000002020000000001080045000029123440004011abcdc0000201c6336407004400350015ec620102030405060708090a0b0c0d",
            ),
        ),
        // nor do they fall short where they couldn't be made
        (
            (true, false, true),
            (0xFE14, 0x2020_0400),
            0x000D_C280_2B30_0037,
            "0200000000020200000000010800450000291234400040113c54c0000201c6336407004400350015ec620102030405060708090a0b0c0d",
            (
                Ended,
                true,
                false,
                2,
                2,
                "0200000000020200000000010800450000291234400040113c54c0000201c6336407004400350015ec620102030405060708090a0b0c0d",
            ),
        ),
        // a tag by its flag alone
        (
            (true, false, false),
            (0x6007_1C14, 0x2020_0400),
            0x000D_C280_6B30_0037,
            "0200000000020200000000010800450000291234400040113c54c0000201c6336407004400350015ec620102030405060708090a0b0c0d",
            (
                Ended,
                true,
                false,
                2,
                2,
                "020000000002020000000001810060070800450000291234400040113c54c0000201c6336407004400350015ec620102030405060708090a0b0c0d",
            ),
        ),
        // sums by theirs alone
        (
            (false, true, false),
            (0x6007_1C14, 0x2020_0400),
            0x000D_C280_2B30_0037,
            "0200000000020200000000010800450000291234400040113c54c0000201c6336407004400350015ec620102030405060708090a0b0c0d",
            (
                Ended,
                true,
                false,
                2,
                2,
                "0200000000020200000000010800450000291234400040113c54c0000201c6336407004400350015e1e40102030405060708090a0b0c0d",
            ),
        ),
    ] {
        play(
            &rt,
            rt.alloc(),
            &terms_of(vlan, checksum, segmentation),
            (text, ""),
            &[context, (FIRST, word)],
            &[
                (More, false, false, 1, 0, ""),
                due,
                (Idle, false, false, due.3, due.4, ""),
            ],
        )?;
    }
    Ok(())
}

/// A card that cuts frames makes the sums of segments, also where it makes no others.
#[test]
fn segments_alone(rt: HostRuntime) -> Result<(), Fail> {
    play(
        &rt,
        rt.alloc(),
        &terms_of(false, false, true),
        (
            "0200000000020200000000010800450000001234400040060000c0000201c633640700500400000003e80000004d501901f4ec420000303132333435363738393a3b3c3d3e3f404142434445464748494a4b4c4d4e4f505152535455565758595a5b5c5d5e5f606162636465666768696a6b",
            "",
        ),
        &[
            (0x1C14, 0x0028_1410_2020_0C00),
            (FIRST, 0x000F_0390_AB30_0072),
        ],
        &[
            (More, false, false, 1, 0, ""),
            (More, false, false, 1, 0, ""),
            (
                Ended,
                false,
                false,
                1,
                0,
                "0200000000020200000000010800450000501234400040063c38c0000201c633640700500400000003e80000004d501001f477a20000303132333435363738393a3b3c3d3e3f404142434445464748494a4b4c4d4e4f5051525354555657",
            ),
            (
                Ended,
                true,
                false,
                2,
                2,
                "02000000000202000000000108004500003c1235400040063c4bc0000201c633640700500400000004100000004d501901f4eb02000058595a5b5c5d5e5f606162636465666768696a6b",
            ),
        ],
    )
}

/// The address and the second word of a lone descriptor; then the outcome, the second word afterwards, and the head: as they are of
/// [`fetch_into`](tx_desc::fetch_into), for a card that does none of it.
#[test]
fn none_of_it(rt: HostRuntime) -> Result<(), Fail> {
    for (buffer, word, outcome, word_after, head) in [
        // advanced data; legacy, where bit 31 means nothing; without RS; without EOP
        (FIRST, 0x2930_003C, Ended, 0x1_2930_003C, 1),
        (FIRST, 0x8900_003C, Ended, 0x1_8900_003C, 1),
        (FIRST, 0x0100_003C, Ended, 0x0100_003C, 1),
        (FIRST, 0x2830_003C, More, 0x1_2830_003C, 1),
        // a legacy tag; sums, which aren't looked at
        (FIRST, 0x5_0000_4900_003C, Ended, 0x5_0001_4900_003C, 1),
        (FIRST, 0x300_2930_003C, Ended, 0x301_2930_003C, 1),
        // bytes past the end of the memory; no bytes, at the end and past it
        (u64::MAX, 0x2930_003C, Faulted, 0x2930_003C, 0),
        (0x2_0000, 0x2930_0000, Dropped, 0x1_2930_0000, 1),
        (0x2_0001, 0x2930_0000, Faulted, 0x2930_0000, 0),
        // an unknown type; TSE; VLE; a context, which no RS reports
        (FIRST, 0x2910_003C, Faulted, 0x2910_003C, 0),
        (FIRST, 0xA930_003C, Faulted, 0xA930_003C, 0),
        (FIRST, 0x6930_003C, Faulted, 0x6930_003C, 0),
        (FIRST, 0x2920_003C, More, 0x2920_003C, 1),
    ] {
        let mut found = [(Idle, false, 0, 0, false); 2];
        for is_plain in [false, true] {
            let mut card = Card::new(&rt, rt.alloc())?;
            card.put(
                rt.alloc(),
                FIRST,
                "020000000004020000000099080000000000000000000000000000000000000000000000000000000000000000000000000000000000000000000000",
            )?;
            card.describe(0, (buffer, word));
            card.hand(1);
            let (outcome, reported) = card.taken(&terms_of(false, false, false), is_plain);
            found[usize::from(is_plain)] = (
                outcome,
                reported,
                card.word(0),
                card.head(),
                card.is_on(),
            );
        }
        let due = (
            outcome,
            word_after != word,
            word_after,
            head,
            outcome != Faulted,
        );
        assert_equal_at(&rt, found, [due, due], word);
    }
    Ok(())
}

/// The flags of tags, sums and segments, and a descriptor; then what it gives, and why it cannot be used: of several reasons the first
/// counts.
#[test]
fn reasons(rt: HostRuntime) -> Result<(), Fail> {
    for ((vlan, checksum, segmentation), words, outcome, misuse) in [
        // type 1, whatever else it asks for, and wherever it lies
        (
            (false, false, false),
            (FIRST, 0x2910_0012),
            Faulted,
            Some(UnknownType),
        ),
        (
            (false, false, false),
            (0x2_0000, 0xE910_0012),
            Faulted,
            Some(UnknownType),
        ),
        (
            (false, true, false),
            (0x2_0000, 0xE910_0012),
            Faulted,
            Some(UnknownType),
        ),
        (
            (true, true, true),
            (FIRST, 0x2910_0012),
            Faulted,
            Some(UnknownType),
        ),
        // a tag
        (
            (false, false, false),
            (0x2_0000, 0x6930_0012),
            Faulted,
            Some(NotOffered),
        ),
        (
            (false, true, true),
            (FIRST, 0x6930_0012),
            Faulted,
            Some(NotOffered),
        ),
        (
            (true, true, false),
            (0x2_0000, 0x6930_0012),
            Faulted,
            Some(PastMemory),
        ),
        // segments
        (
            (false, false, false),
            (FIRST, 0xA930_0012),
            Faulted,
            Some(NotOffered),
        ),
        (
            (true, true, false),
            (0x2_0000, 0xA930_0012),
            Faulted,
            Some(NotOffered),
        ),
        (
            (true, true, true),
            (0x2_0000, 0xE930_0012),
            Faulted,
            Some(PastMemory),
        ),
        // a legacy one asks for neither; its last byte is past the memory, and then in it
        (
            (false, false, false),
            (0x1_FFEF, 0xC900_0012),
            Faulted,
            Some(PastMemory),
        ),
        ((false, false, false), (0x1_FFEE, 0x0900_0012), Ended, None),
        ((true, true, true), (0x1_FFEE, 0x0900_0012), Ended, None),
        // a context has no bytes
        ((false, false, false), (0x2_0000, 0x2020_0400), More, None),
        ((true, true, true), (0x2_0000, 0x2020_0400), More, None),
    ] {
        let mut card = Card::new(&rt, rt.alloc())?;
        let terms = terms_of(vlan, checksum, segmentation);
        card.describe(0, words);
        let before = card.turn(&terms);
        assert_equal_at(&rt, (before.outcome, before.misuse), (Idle, None), words);
        card.hand(1);
        let turn = card.turn(&terms);
        assert_equal_at(&rt, (turn.outcome, turn.misuse), (outcome, misuse), words);
    }
    Ok(())
}

/// While a frame is being cut no descriptor is taken, so there is no reason, whatever stands at the head.
#[test]
fn no_reason_while_cutting(rt: HostRuntime) -> Result<(), Fail> {
    let mut card = Card::new(&rt, rt.alloc())?;
    let terms = terms_of(true, true, true);
    card.describe(0, (0x1C14, 0x03E8_1410_2020_0C00));
    card.describe(1, (FIRST, 0x01F4_0390_AB30_0806));
    card.hand(2);
    card.turn(&terms);
    card.turn(&terms);
    card.describe(1, (FIRST, 0x2910_0012));
    let turn = card.turn(&terms);
    assert_equal_at(&rt, (turn.outcome, turn.misuse), (Ended, None), "a segment");
    Ok(())
}
