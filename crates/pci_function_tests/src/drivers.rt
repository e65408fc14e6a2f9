//! What stock clients and drivers read and write.
use crate::compare::{assert_equal, assert_equal_at};
use pci_function::{Effect, PciFunction};
use std::test::Fail;

/// QEMU reads 4096 bytes at once when it attaches: the 256 bytes of a virtual function of the 82599, and zeros behind them.
#[test]
fn as_qemu_reads_it(rt: HostRuntime) -> Result<(), Fail> {
    let alloc = rt.alloc();
    let captured = hex::decode(alloc, CAPTURED)?;
    let function = PciFunction::new();
    let mut space = [0xA5u8; 4096];
    function.read(0, &mut space);
    let (front, behind) = space.split_at(256);
    assert_equal(&rt, front == captured.as_slice(), true);
    assert_equal(&rt, behind == [0u8; 3840].as_slice(), true);
    Ok(())
}

const CAPTURED: &str = "\
8680ed1000001000010000020000000004000000000000000000000004000000\
0000000000000000000000008680117a00000000700000000000000000000000\
0000000000000000000000000000000000000000000000000000000000000000\
0000000000000000000000000000000011a00200030000000320000000000000\
0000000000000000000000000000000000000000000000000000000000000000\
100002000280001000000000420d000000004200000000000000000000000000\
0000000010000000000000000000000000000000000000000000000000000000\
0000000000000000000000000000000000000000000000000000000000000000";

// A write, and a read that follows it: where, the bytes, where, and what is read.
type Step = (u64, &'static str, u64, &'static str);

/// In its order, what Linux 6.1 and its firmware wrote from QEMU's start to a bound driver, and what the same bytes read then: the
/// firmware probes the ROM and the base addresses, which keep their types; I/O space and SERR# in Command stay off; memory space, bus
/// master and interrupt disable are kept; the driver turns MSI-X on under Function Mask, and then unmasks it. The last two are iPXE 1.21's beside those: it sets I/O space too, and the
/// latency timer, which stays 0.
const DRIVERS: [Step; 26] = [
    (0x30, "00f8ffff", 0x30, "00000000"),
    (0x04, "0000", 0x04, "0000"),
    (0x10, "ffffffff", 0x10, "04000000"),
    (0x10, "04000000", 0x10, "04000000"),
    (0x14, "ffffffff", 0x14, "00000000"),
    (0x18, "ffffffff", 0x18, "00000000"),
    (0x1C, "ffffffff", 0x1C, "04000000"),
    (0x20, "ffffffff", 0x20, "00000000"),
    (0x24, "ffffffff", 0x24, "00000000"),
    (0x10, "0080bffe", 0x10, "04000000"),
    (0x1C, "00c0bffe", 0x1C, "04000000"),
    (0x04, "0301", 0x04, "0200"),
    (0x30, "feffffff", 0x30, "00000000"),
    (0x04, "0204", 0x04, "0204"),
    (0x04, "0200", 0x04, "0200"),
    (0x04, "0600", 0x04, "0600"),
    (0x72, "02c0", 0x72, "02c0"),
    (0x04, "0604", 0x04, "06041000"),
    (0x72, "0280", 0x72, "0280"),
    (0x72, "0200", 0x72, "0200"),
    (0x04, "06041000", 0x04, "06041000"),
    (0xB0, "0000", 0xB0, "00004200"),
    (0xC8, "0000", 0xC8, "0000"),
    (0xD0, "0000", 0xD0, "0000"),
    (0x04, "0700", 0x04, "0600"),
    (0x0D, "20", 0x0D, "00"),
];

#[test]
fn as_drivers_use_it(rt: HostRuntime) -> Result<(), Fail> {
    let alloc = rt.alloc();
    let mut function = PciFunction::new();
    for (at, written, read_at, due) in DRIVERS {
        let bytes = hex::decode(alloc, written)?;
        let due = hex::decode(alloc, due)?;
        assert_equal_at(
            &rt,
            function.write(at, &bytes),
            Effect::Nothing,
            (at, written),
        );
        let mut room = [0xA5u8; 4];
        let Some(out) = room.get_mut(..due.len()) else {
            return Err("a read of more than four bytes".into());
        };
        function.read(read_at, out);
        assert_equal_at(&rt, &*out == due.as_slice(), true, (at, written));
    }
    Ok(())
}

/// A function-level reset by Linux's sysfs: with interrupts disabled it writes bit 15 of Device Control, which reads 0 at once. Command
/// and MSI-X are as at first then, and what Linux restores is kept. The other bits of Device Control reset nothing, and aren't kept
/// (SR-IOV 1.1, Device Control Register).
#[test]
fn function_level_reset(rt: HostRuntime) -> Result<(), Fail> {
    let mut function = PciFunction::new();
    assert_equal(&rt, function.write(0x72, &[0x02, 0xC0]), Effect::Nothing);
    assert_equal(&rt, function.write(0x04, &[0x00, 0x04]), Effect::Nothing);
    assert_equal(&rt, function.write(0xA8, &[0x00, 0x80]), Effect::Reset);
    let mut space = [0xA5u8; 256];
    function.read(0, &mut space);
    let captured = hex::decode(rt.alloc(), CAPTURED)?;
    assert_equal(&rt, space.as_slice() == captured.as_slice(), true);
    for (at, bytes, effect) in [
        (0xA8, [0x00, 0x00, 0x00, 0x00], Effect::Nothing),
        (0xA8, [0xFF, 0x7F, 0x00, 0x00], Effect::Nothing),
        (0xA7, [0x80, 0x80, 0x00, 0x00], Effect::Nothing),
        (0xA8, [0x00, 0x80, 0x00, 0x00], Effect::Reset),
        (0xA9, [0x80, 0x00, 0x00, 0x00], Effect::Reset),
        (0xA6, [0x00, 0x00, 0x00, 0x80], Effect::Reset),
        (0xAA, [0x80, 0x80, 0x80, 0x80], Effect::Nothing),
        (0x1A9, [0x80, 0x80, 0x80, 0x80], Effect::Nothing),
    ] {
        assert_equal_at(&rt, function.write(at, &bytes), effect, at);
        let mut control = [0xA5u8; 4];
        function.read(0xA8, &mut control);
        assert_equal_at(&rt, control, [0, 0, 0, 0], at);
    }
    Ok(())
}

/// A write that resets keeps nothing, also of the bytes beside the bit.
#[test]
fn a_reset_keeps_nothing(rt: HostRuntime) {
    let mut function = PciFunction::new();
    assert_equal(&rt, function.write(0x3C, &[0x0B]), Effect::Nothing);
    assert_equal(&rt, function.write(0, &[0xFFu8; 256]), Effect::Reset);
    let mut space = [0xA5u8; 256];
    function.read(0, &mut space);
    let mut first = [0x5Au8; 256];
    PciFunction::new().read(0, &mut first);
    assert_equal(&rt, space == first, true);
    assert_equal(&rt, function.write(0x3C, &[0x0B]), Effect::Nothing);
    function.reset();
    function.read(0, &mut space);
    assert_equal(&rt, space == first, true);
}

/// The flags after each write of Command or Message Control: memory space, bus master, MSI-X, and whether it is masked.
#[test]
fn flags(rt: HostRuntime) {
    let mut function = PciFunction::new();
    for (at, word, due) in [
        (0x04, [0x02, 0x00], [true, false, false, false]),
        (0x04, [0x04, 0x00], [false, true, false, false]),
        (0x04, [0xF9, 0xFF], [false, false, false, false]),
        (0x04, [0x06, 0x04], [true, true, false, false]),
        (0x72, [0x02, 0xC0], [true, true, true, true]),
        (0x72, [0x02, 0x80], [true, true, true, false]),
        (0x72, [0xFF, 0x7F], [true, true, false, true]),
        (0x72, [0x00, 0x00], [true, true, false, false]),
    ] {
        assert_equal_at(&rt, function.write(at, &word), Effect::Nothing, word);
        let flags = [
            function.has_memory_space(),
            function.is_bus_master(),
            function.has_msix(),
            function.is_masked(),
        ];
        assert_equal_at(&rt, flags, due, word);
    }
}
