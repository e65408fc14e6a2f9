//! Messages as QEMU spells them, and what they touch.
use crate::compare::assert_equal_at;
use transmit_page::{Touched, TransmitRegister, is_offer, touched_by};

// A message with this command, offset and region, and one word behind them.
fn message(command: u8, offset: u64, region: u8) -> [u8; 36] {
    let mut bytes = [0; 36];
    bytes[2] = command;
    bytes[16..24].copy_from_slice(&offset.to_le_bytes());
    bytes[24] = region;
    bytes
}

const REGION_READ: u8 = 9;

const REGION_WRITE: u8 = 10;

const DEVICE_RESET: u8 = 13;

/// Writes of registers, of the vectors (region 3) and of the configuration space (region 7), which has a reset in it; a read; a reset.
#[test]
fn messages_touch_what_they_write(rt: HostRuntime) {
    for (command, offset, region, due) in [
        (REGION_WRITE, 0x1FFC, 0, Touched::Nothing),
        (
            REGION_WRITE,
            0x2000,
            0,
            Touched::One(0, TransmitRegister::BaseLow),
        ),
        (
            REGION_WRITE,
            0x2058,
            0,
            Touched::One(1, TransmitRegister::Tail),
        ),
        (REGION_WRITE, 0x2FFC, 0, Touched::Nothing),
        (REGION_WRITE, 0x3000, 0, Touched::Nothing),
        (REGION_WRITE, 0x1_0000_2000, 0, Touched::Nothing),
        (REGION_WRITE, 0, 0, Touched::All),
        (REGION_WRITE, 0x2FC, 0, Touched::All),
        (REGION_WRITE, 0x1_0000_0000, 0, Touched::Nothing),
        (REGION_WRITE, 0x2000, 3, Touched::Nothing),
        (REGION_WRITE, 0x79, 7, Touched::All),
        (REGION_READ, 0x2000, 0, Touched::Nothing),
        (DEVICE_RESET, 0, 0, Touched::All),
    ] {
        let bytes = message(command, offset, region);
        let got = (touched_by(&bytes), touched_by(&bytes[..1]));
        assert_equal_at(&rt, got, (due, Touched::Nothing), (command, offset, region));
    }
    let mut short = [0; 31];
    short[2] = REGION_WRITE;
    assert_equal_at(&rt, touched_by(&short), Touched::Nothing, "short");
}

/// The reply that names an area, as QEMU takes it: it has the flags of the region, with the one by which it may be mapped. Without that flag,
/// as a failure, as the reply to another command, or cut short it gives no page.
#[test]
fn a_reply_offers_the_page(rt: HostRuntime) {
    const MAY_MAP: u8 = 4;
    const ERROR: u8 = 0x20;
    for (command, flags, region_flags, due) in [
        (5, 1, 3 | MAY_MAP, true),
        (5, 1, 0xF, true),
        (5, 1, 3, false),
        (5, 1 | ERROR, 3 | MAY_MAP, false),
        (4, 1, 3 | MAY_MAP, false),
    ] {
        let mut bytes = [0; 48];
        bytes[2] = command;
        bytes[8] = flags;
        bytes[20] = region_flags;
        let got = (
            is_offer(&bytes),
            is_offer(&bytes[..23]),
            is_offer(&bytes[..24]),
        );
        assert_equal_at(&rt, got, (due, false, due), (command, flags, region_flags));
    }
}
