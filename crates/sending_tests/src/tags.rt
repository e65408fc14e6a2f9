//! Tags. The frames are those of scapy 2.5.0, with its tags, handed over as in [`sums`](crate::sums).
use crate::card::{Card, FIRST, all_under, play};
use crate::compare::assert_equal_at;
use std::test::Fail;
use tx_desc::Progress::{Dropped, Ended, More};
use wire_frame::PortVlan;

/// The port's rule, a context, the second word of a data descriptor and its bytes; then what comes of it, and the frame that leaves.
#[test]
fn by_context(rt: HostRuntime) -> Result<(), Fail> {
    use PortVlan::{Always, Descriptor, Never};
    for (rule, context, word, text, outcome, due) in [
        // priority 3 and id 7, with a sum
        (
            Descriptor,
            (0x6007_1C14, 0x2020_0400),
            0x000D_C280_6B30_0037,
            "0200000000020200000000010800450000291234400040113c54c0000201c6336407004400350015ec620102030405060708090a0b0c0d",
            Ended,
            "020000000002020000000001810060070800450000291234400040113c54c0000201c6336407004400350015e1e40102030405060708090a0b0c0d",
        ),
        // by context 1, without a sum
        (
            Descriptor,
            (0x6007_1C14, 0x0010_2020_0400),
            0x000D_C090_6B30_0037,
            "0200000000020200000000010800450000291234400040113c54c0000201c6336407004400350015ec620102030405060708090a0b0c0d",
            Ended,
            "020000000002020000000001810060070800450000291234400040113c54c0000201c6336407004400350015ec620102030405060708090a0b0c0d",
        ),
        // no VLE
        (
            Descriptor,
            (0x6007_1C14, 0x2020_0400),
            0x000D_C280_2B30_0037,
            "0200000000020200000000010800450000291234400040113c54c0000201c6336407004400350015ec620102030405060708090a0b0c0d",
            Ended,
            "0200000000020200000000010800450000291234400040113c54c0000201c6336407004400350015e1e40102030405060708090a0b0c0d",
        ),
        // a tag in front of the tag that the driver put in
        (
            Descriptor,
            (0x6007_2414, 0x2020_0400),
            0x000E_C280_6B30_003B,
            "020000000002020000000001810000070800450000291234400040113c54c0000201c6336407004400350015ec620102030405060708090a0b0c0d",
            Ended,
            "02000000000202000000000181006007810000070800450000291234400040113c54c0000201c6336407004400350015e1e40102030405060708090a0b0c0d",
        ),
        // the port's tag in place of the context's
        (
            Always(100),
            (0x6007_1C14, 0x2020_0400),
            0x000D_C280_6B30_0037,
            "0200000000020200000000010800450000291234400040113c54c0000201c6336407004400350015ec620102030405060708090a0b0c0d",
            Ended,
            "020000000002020000000001810000640800450000291234400040113c54c0000201c6336407004400350015e1e40102030405060708090a0b0c0d",
        ),
        // the port's tag, where none is asked for
        (
            Always(100),
            (0x6007_1C14, 0x2020_0400),
            0x000D_C280_2B30_0037,
            "0200000000020200000000010800450000291234400040113c54c0000201c6336407004400350015ec620102030405060708090a0b0c0d",
            Ended,
            "020000000002020000000001810000640800450000291234400040113c54c0000201c6336407004400350015e1e40102030405060708090a0b0c0d",
        ),
        // a port with a tag drops what is tagged
        (
            Always(100),
            (0x2414, 0x2020_0400),
            0x000E_C280_2B30_003B,
            "020000000002020000000001810000070800450000291234400040113c54c0000201c6336407004400350015ec620102030405060708090a0b0c0d",
            Dropped,
            "",
        ),
        // a port that lets no tag in
        (
            Never,
            (0x6007_1C14, 0x2020_0400),
            0x000D_C280_6B30_0037,
            "0200000000020200000000010800450000291234400040113c54c0000201c6336407004400350015ec620102030405060708090a0b0c0d",
            Ended,
            "0200000000020200000000010800450000291234400040113c54c0000201c6336407004400350015e1e40102030405060708090a0b0c0d",
        ),
    ] {
        play(
            &rt,
            rt.alloc(),
            &all_under(rule),
            (text, ""),
            &[context, (FIRST, word)],
            &[
                (More, false, false, 1, 0, ""),
                (outcome, true, false, 2, 2, due),
            ],
        )?;
    }
    Ok(())
}

/// The headers in one data descriptor, 42 bytes, and the payload of 13 in a second: what the first one asks for counts.
#[test]
fn in_two_descriptors(rt: HostRuntime) -> Result<(), Fail> {
    let text =
        "0200000000020200000000010800450000291234400040113c54c0000201c6336407004400350015ec620102030405060708090a0b0c0d";
    for (first, second, due) in [
        // both, as Linux writes it
        (
            0x000D_C280_6230_002A,
            0x000D_C280_6B30_000D,
            "020000000002020000000001810060070800450000291234400040113c54c0000201c6336407004400350015e1e40102030405060708090a0b0c0d",
        ),
        // the first alone
        (
            0x000D_C280_6230_002A,
            0x000D_C280_2B30_000D,
            "020000000002020000000001810060070800450000291234400040113c54c0000201c6336407004400350015e1e40102030405060708090a0b0c0d",
        ),
        // the second alone
        (
            0x000D_C280_2230_002A,
            0x000D_C280_6B30_000D,
            "0200000000020200000000010800450000291234400040113c54c0000201c6336407004400350015e1e40102030405060708090a0b0c0d",
        ),
    ] {
        play(
            &rt,
            rt.alloc(),
            &all_under(PortVlan::Descriptor),
            (text, ""),
            &[
                (0x6007_1C14, 0x2020_0400),
                (FIRST, first),
                (FIRST + 42, second),
            ],
            &[
                (More, false, false, 1, 0, ""),
                (More, false, false, 2, 0, ""),
                (Ended, true, false, 3, 4, due),
            ],
        )?;
    }
    Ok(())
}

/// Under a limit of 1518 bytes 1514 are the most that a tag comes to.
#[test]
fn at_the_limit(rt: HostRuntime) -> Result<(), Fail> {
    for (word, outcome, length) in [
        (0x017A_8080_6B30_05EA, Ended, 1518),
        (0x017A_C080_6B30_05EB, Dropped, 0),
    ] {
        let mut card = Card::new(&rt, rt.alloc())?;
        card.describe(0, (0x6007_1C14, 0x2020_0400));
        card.describe(1, (FIRST, word));
        card.hand(2);
        let terms = all_under(PortVlan::Descriptor);
        card.turn(&terms);
        let turn = card.turn(&terms);
        assert_equal_at(
            &rt,
            (turn.outcome, turn.falls_short, card.length_of(turn)),
            (outcome, false, length),
            word,
        );
    }
    Ok(())
}
