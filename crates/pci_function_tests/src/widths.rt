//! Writes of each width at each register that can be written, and accesses at odd places.
use crate::compare::{assert_equal, assert_equal_at};
use pci_function::{Effect, PciFunction, bar_size};

/// All ones written by 1, 2 and 4 bytes, first to Command, then to the cache line size, the interrupt line and Message Control, and what
/// the eight bytes from the register on read then: the bits that can be written, beside what is fixed.
#[test]
fn ones(rt: HostRuntime) {
    for (at, width, due) in [
        (0x04, 1, [0x06, 0x00, 0x10, 0x00, 0x01, 0x00, 0x00, 0x02]),
        (0x04, 2, [0x06, 0x04, 0x10, 0x00, 0x01, 0x00, 0x00, 0x02]),
        (0x04, 4, [0x06, 0x04, 0x10, 0x00, 0x01, 0x00, 0x00, 0x02]),
        (0x0C, 1, [0xFF, 0x00, 0x00, 0x00, 0x04, 0x00, 0x00, 0x00]),
        (0x0C, 2, [0xFF, 0x00, 0x00, 0x00, 0x04, 0x00, 0x00, 0x00]),
        (0x0C, 4, [0xFF, 0x00, 0x00, 0x00, 0x04, 0x00, 0x00, 0x00]),
        (0x3C, 1, [0xFF, 0x00, 0x00, 0x00, 0x00, 0x00, 0x00, 0x00]),
        (0x3C, 2, [0xFF, 0x00, 0x00, 0x00, 0x00, 0x00, 0x00, 0x00]),
        (0x3C, 4, [0xFF, 0x00, 0x00, 0x00, 0x00, 0x00, 0x00, 0x00]),
        (0x72, 1, [0x02, 0x00, 0x03, 0x00, 0x00, 0x00, 0x03, 0x20]),
        (0x72, 2, [0x02, 0xC0, 0x03, 0x00, 0x00, 0x00, 0x03, 0x20]),
        (0x72, 4, [0x02, 0xC0, 0x03, 0x00, 0x00, 0x00, 0x03, 0x20]),
    ] {
        let mut function = PciFunction::new();
        let ones = [0xFFu8; 4];
        let Some(written) = ones.get(..width) else {
            continue;
        };
        assert_equal_at(
            &rt,
            function.write(at, written),
            Effect::Nothing,
            (at, width),
        );
        let mut out = [0xA5u8; 8];
        function.read(at, &mut out);
        assert_equal_at(&rt, out, due, (at, width));
    }
}

/// Unaligned writes, and ones that cross registers: from Device ID into Command, from Command into Status, around Message Control, over
/// the last byte of the space, and behind it up to the last address that there is.
#[test]
fn crossing(rt: HostRuntime) {
    for (at, bytes, read_at, due) in [
        (
            0x03,
            [0xFF, 0xFF, 0xFF, 0xFF],
            0x02,
            [0xED, 0x10, 0x06, 0x04],
        ),
        (
            0x05,
            [0xFF, 0xFF, 0xFF, 0xFF],
            0x04,
            [0x00, 0x04, 0x10, 0x00],
        ),
        (
            0x09,
            [0xFF, 0xFF, 0xFF, 0xFF],
            0x0A,
            [0x00, 0x02, 0xFF, 0x00],
        ),
        (
            0x71,
            [0xFF, 0xFF, 0xFF, 0xFF],
            0x70,
            [0x11, 0xA0, 0x02, 0xC0],
        ),
        (
            0xFE,
            [0xFF, 0xFF, 0xFF, 0xFF],
            0xFE,
            [0x00, 0x00, 0x00, 0x00],
        ),
        (
            0x100,
            [0xFF, 0xFF, 0xFF, 0xFF],
            0x100,
            [0x00, 0x00, 0x00, 0x00],
        ),
        (
            0x1_0004,
            [0xFF, 0xFF, 0xFF, 0xFF],
            0x04,
            [0x00, 0x00, 0x10, 0x00],
        ),
        (
            u64::MAX,
            [0xFF, 0xFF, 0xFF, 0xFF],
            u64::MAX,
            [0x00, 0x00, 0x00, 0x00],
        ),
    ] {
        let mut function = PciFunction::new();
        assert_equal_at(&rt, function.write(at, &bytes), Effect::Nothing, at);
        let mut out = [0xA5u8; 4];
        function.read(read_at, &mut out);
        assert_equal_at(&rt, out, due, at);
    }
}

/// Reads that pass the end, and one of no bytes; a write of no bytes changes nothing.
#[test]
fn ends(rt: HostRuntime) {
    let mut function = PciFunction::new();
    let mut out = [0xA5u8; 8];
    function.read(0xC4 - 4, &mut out);
    assert_equal(&rt, out, [0, 0, 0, 0, 0x10, 0, 0, 0]);
    for at in [0xFC, 0xFF, 0x100, 0x1000, 1 << 32, u64::MAX] {
        let mut out = [0xA5u8; 8];
        function.read(at, &mut out);
        assert_equal_at(&rt, out, [0u8; 8], at);
    }
    function.read(0, &mut []);
    assert_equal(&rt, function.write(0xA9, &[]), Effect::Nothing);
}

/// The sizes of the BARs (82599 Datasheet): 16 KiB each of 0 and 3, and no others.
#[test]
fn bars(rt: HostRuntime) {
    for (bar, due) in [
        (0, 0x4000),
        (1, 0),
        (2, 0),
        (3, 0x4000),
        (4, 0),
        (5, 0),
        (6, 0),
        (7, 0),
    ] {
        assert_equal_at(&rt, bar_size(bar), due, bar);
    }
}
