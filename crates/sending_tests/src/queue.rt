//! What a queue does while a frame is cut, and what it forgets where it goes off. The frames are those of scapy 2.5.0, handed over as in
//! [`sums`](crate::sums) and [`segments`](crate::segments).
use crate::card::{Card, FIRST, SECOND, all_under};
use std::alloc::Global;
use std::process::Abort;
use std::test::Fail;
use tx_desc::Progress::{Dropped, Ended, Faulted, Idle, More};
use wire_frame::PortVlan;

/// 100 bytes of payload.
const WHOLE: &str =
    "0200000000020200000000010800450000001234400040060000c0000201c633640700500400000003e80000004d509901f4ec420000303132333435363738393a3b3c3d3e3f404142434445464748494a4b4c4d4e4f505152535455565758595a5b5c5d5e5f606162636465666768696a6b6c6d6e6f707172737475767778797a7b7c7d7e7f808182838485868788898a8b8c8d8e8f90919293";
/// Its segments by an MSS of 40.
const SEGMENTS: [&str; 3] = [
    "0200000000020200000000010800450000501234400040063c38c0000201c633640700500400000003e80000004d509001f477220000303132333435363738393a3b3c3d3e3f404142434445464748494a4b4c4d4e4f5051525354555657",
    "0200000000020200000000010800450000501235400040063c37c0000201c633640700500400000004100000004d501001f45457000058595a5b5c5d5e5f606162636465666768696a6b6c6d6e6f707172737475767778797a7b7c7d7e7f",
    "02000000000202000000000108004500003c1236400040063c4ac0000201c633640700500400000004380000004d501901f459490000808182838485868788898a8b8c8d8e8f90919293",
];
/// UDP over IPv4.
const SUMLESS: &str =
    "0200000000020200000000010800450000291234400040113c54c0000201c6336407004400350015ec620102030405060708090a0b0c0d";
/// The same with UDP's sum.
const SUMMED: &str =
    "0200000000020200000000010800450000291234400040113c54c0000201c6336407004400350015e1e40102030405060708090a0b0c0d";
/// The same by a context that was never set. All lengths are 0 there and the protocol is UDP, so the sum of the whole stands in bytes 6
/// and 7.
const SUMMED_FROM_0: &str =
    "020000000002d5e1000000010800450000291234400040113c54c0000201c6336407004400350015ec620102030405060708090a0b0c0d";

/// Frames that are sent by context 0, and a frame that is to be cut by context 1.
fn card_of(rt: &impl Abort, alloc: Global) -> Result<Card, Fail> {
    let mut card = Card::new(rt, alloc)?;
    card.put(alloc, FIRST, WHOLE)?;
    card.put(alloc, SECOND, SUMLESS)?;
    card.describe(0, (0x1C14, 0x2020_0400));
    card.describe(1, (0x1C14, 0x0028_1410_2020_0C00));
    card.describe(2, (FIRST, 0x0019_0390_AB30_009A));
    card.describe(3, (SECOND, 0x000D_C280_2B30_0037));
    Ok(card)
}

/// The tail is written back to the head while a frame is cut: there is no descriptor. Once it goes forward again, so does the frame.
#[test]
fn tail_goes_back(rt: HostRuntime) -> Result<(), Fail> {
    let mut card = card_of(&rt, rt.alloc())?;
    for (tail, due) in [
        (3, (More, false, false, 1, 0, "")),
        (3, (More, false, false, 2, 0, "")),
        (3, (More, false, false, 2, 0, "")),
        (3, (Ended, false, false, 2, 0, SEGMENTS[0])),
        (2, (Idle, false, false, 2, 0, "")),
        (2, (Idle, false, false, 2, 0, "")),
        (4, (Ended, false, false, 2, 0, SEGMENTS[1])),
        (2, (Idle, false, false, 2, 0, "")),
        (3, (Ended, true, false, 3, 4, SEGMENTS[2])),
        (3, (Idle, false, false, 3, 4, "")),
        (4, (Ended, true, false, 4, 12, SUMMED)),
    ] {
        card.hand(tail);
        card.step(
            &rt,
            rt.alloc(),
            &all_under(PortVlan::Descriptor),
            &due,
            "tail",
        )?;
    }
    Ok(())
}

/// A queue that goes off forgets the frame that is cut and both contexts. Where it goes on again the descriptor at the head is the first
/// of a frame: it can't be cut now, and the next has its sum made by the context that says nothing.
#[test]
fn off_and_on(rt: HostRuntime) -> Result<(), Fail> {
    let mut card = card_of(&rt, rt.alloc())?;
    card.hand(4);
    for (goes_off, due) in [
        (false, (More, false, false, 1, 0, "")),
        (false, (More, false, false, 2, 0, "")),
        (false, (More, false, false, 2, 0, "")),
        (false, (Ended, false, false, 2, 0, SEGMENTS[0])),
        (true, (More, false, false, 2, 0, "")),
        (false, (Dropped, true, true, 3, 4, "")),
        (false, (Ended, true, false, 4, 12, SUMMED_FROM_0)),
        (false, (Idle, false, false, 4, 12, "")),
    ] {
        if goes_off {
            card.turn_off_and_on();
        }
        card.step(
            &rt,
            rt.alloc(),
            &all_under(PortVlan::Descriptor),
            &due,
            "off",
        )?;
    }
    Ok(())
}

/// So does one that faults; the frame that was begun is gone too.
#[test]
fn after_a_fault(rt: HostRuntime) -> Result<(), Fail> {
    let mut card = card_of(&rt, rt.alloc())?;
    // without EOP; of an unknown type
    card.describe(1, (FIRST, 0x2030_0036));
    card.describe(2, (FIRST, 0x2910_0036));
    card.hand(4);
    for (is_mended, due) in [
        (false, (More, false, false, 1, 0, "")),
        (false, (More, false, false, 2, 0, "")),
        (false, (Faulted, false, false, 2, 0, "")),
        (false, (Idle, false, false, 2, 0, "")),
        (true, (Ended, true, false, 3, 4, SUMMED_FROM_0)),
    ] {
        if is_mended {
            card.describe(2, (SECOND, 0x000D_C280_2B30_0037));
            card.turn_on();
        }
        card.step(
            &rt,
            rt.alloc(),
            &all_under(PortVlan::Descriptor),
            &due,
            "fault",
        )?;
    }
    Ok(())
}
