//! Each field of a request at its bounds, and what is refused.
use crate::compare::assert_equal_at;
use crate::messages::{range, region};
use std::test::Fail;
use vfio_user::{Access, Action, Carried, Errno, Irqs, Mapping, RegionQuery, Request};

/// Commands that are not offered, whatever their bytes: 0, GET_REGION_IO_FDS, DMA_READ, DMA_WRITE, 14, WRITE_MULTI, FEATURE, MIG_DATA_READ
/// and MIG_DATA_WRITE, and numbers that no command has.
#[test]
fn not_offered(rt: HostRuntime) {
    for command in [0, 6, 11, 12, 14, 15, 16, 17, 18, 19, 0x100, 0x102, 0xFFFF] {
        assert_equal_at(
            &rt,
            Request::decode(command, &[]),
            Err(Errno::NotSupported),
            command,
        );
        assert_equal_at(
            &rt,
            Request::decode(command, &[0u8; 64]),
            Err(Errno::NotSupported),
            command,
        );
    }
}

/// VERSION, DMA_MAP and DMA_UNMAP: all ones in each number; argsz one below the fields' size; each flag. File I/O and what a later
/// version, or Linux's VFIO, has flags for is not supported; no access at all, and unknown flags of a map, can't be right.
#[test]
fn memory(rt: HostRuntime) -> Result<(), Fail> {
    let most = u64::MAX;
    let rows: [(u16, &str, Result<Request<&[u8]>, Errno>); 16] = [
        (1, "ffffffff", Ok(Request::Version(0xFFFF, 0xFFFF))),
        (1, "01000200", Ok(Request::Version(1, 2))),
        (
            2,
            "2000000003000000ffffffffffffffffffffffffffffffffffffffffffffffff",
            map(Access::ReadWrite, false, most),
        ),
        (
            2,
            "2000000001000000ffffffffffffffffffffffffffffffffffffffffffffffff",
            map(Access::ReadOnly, false, most),
        ),
        (
            2,
            "2000000002000000ffffffffffffffffffffffffffffffffffffffffffffffff",
            map(Access::WriteOnly, false, most),
        ),
        (
            2,
            "2000000007000000ffffffffffffffffffffffffffffffffffffffffffffffff",
            map(Access::ReadWrite, true, most),
        ),
        (
            2,
            "ffffffff01000000000000000000000000000000000000000000000000000000",
            map(Access::ReadOnly, false, 0),
        ),
        (
            2,
            "1f00000003000000000000000000000000000000000000000000000000000000",
            Err(Errno::Invalid),
        ),
        (
            2,
            "2000000000000000000000000000000000000000000000000000000000000000",
            Err(Errno::Invalid),
        ),
        (
            2,
            "200000000b000000000000000000000000000000000000000000000000000000",
            Err(Errno::NotSupported),
        ),
        (
            2,
            "2000000013000000000000000000000000000000000000000000000000000000",
            Err(Errno::Invalid),
        ),
        (
            2,
            "2000000003000080000000000000000000000000000000000000000000000000",
            Err(Errno::Invalid),
        ),
        (
            3,
            "1800000000000000ffffffffffffffffffffffffffffffff",
            Ok(Request::Unmap(range(most, most))),
        ),
        (
            3,
            "1700000000000000ffffffffffffffffffffffffffffffff",
            Err(Errno::Invalid),
        ),
        (
            3,
            "180000000100000000000000000000000000000000000000",
            Err(Errno::NotSupported),
        ),
        (
            3,
            "180000000000008000000000000000000000000000000000",
            Err(Errno::NotSupported),
        ),
    ];
    for (command, text, due) in rows {
        let bytes = hex::decode(rt.alloc(), text)?;
        assert_equal_at(&rt, Request::decode(command, &bytes), due, text);
    }
    Ok(())
}

// A mapping with this number as offset, address and size.
fn map<'a>(access: Access, needs_file: bool, number: u64) -> Result<Request<&'a [u8]>, Errno> {
    Ok(Request::Map(Mapping {
        access,
        needs_file,
        offset: number,
        range: range(number, number),
    }))
}

/// What the device is asked: argsz at the fields' size and one below; an index of all ones; fields that are to be zero and aren't.
#[test]
fn questions(rt: HostRuntime) -> Result<(), Fail> {
    let rows: [(u16, &str, Result<Request<&[u8]>, Errno>); 9] = [
        (4, "10000000000000000000000000000000", Ok(Request::Info)),
        (4, "0f000000000000000000000000000000", Err(Errno::Invalid)),
        (4, "ffffffffffffffffffffffffffffffff", Ok(Request::Info)),
        (
            5,
            "4000000000000000000000000000000000000000000000000000000000000000",
            query(64, 0),
        ),
        (
            5,
            "20000000ffffffffffffffffffffffffffffffffffffffffffffffffffffffff",
            query(32, u32::MAX),
        ),
        (
            5,
            "ffffffff00000000080000000000000000000000000000000000000000000000",
            query(u32::MAX, 8),
        ),
        (
            5,
            "1f00000000000000000000000000000000000000000000000000000000000000",
            Err(Errno::Invalid),
        ),
        (
            7,
            "10000000ffffffffffffffffffffffff",
            Ok(Request::IrqInfo(u32::MAX)),
        ),
        (7, "0f000000000000000200000000000000", Err(Errno::Invalid)),
    ];
    for (command, text, due) in rows {
        let bytes = hex::decode(rt.alloc(), text)?;
        assert_equal_at(&rt, Request::decode(command, &bytes), due, text);
    }
    Ok(())
}

fn query<'a>(argsz: u32, index: u32) -> Result<Request<&'a [u8]>, Errno> {
    Ok(Request::RegionInfo(RegionQuery { argsz, index }))
}

/// DEVICE_SET_IRQS: each flag of data with each action; none and two of each; an array of booleans; an unknown flag; all ones in the
/// numbers; argsz one too small.
#[test]
fn interrupts(rt: HostRuntime) -> Result<(), Fail> {
    let rows: [(&str, Result<Request<&[u8]>, Errno>); 14] = [
        (
            "1400000009000000ffffffffffffffffffffffff",
            irqs(Carried::Nothing, Action::Mask),
        ),
        (
            "1400000011000000ffffffffffffffffffffffff",
            irqs(Carried::Nothing, Action::Unmask),
        ),
        (
            "1400000021000000ffffffffffffffffffffffff",
            irqs(Carried::Nothing, Action::Trigger),
        ),
        (
            "140000000c000000ffffffffffffffffffffffff",
            irqs(Carried::Eventfds, Action::Mask),
        ),
        (
            "1400000014000000ffffffffffffffffffffffff",
            irqs(Carried::Eventfds, Action::Unmask),
        ),
        (
            "1400000024000000ffffffffffffffffffffffff",
            irqs(Carried::Eventfds, Action::Trigger),
        ),
        (
            "1400000022000000ffffffffffffffffffffffff",
            Err(Errno::NotSupported),
        ),
        (
            "1400000020000000ffffffffffffffffffffffff",
            Err(Errno::Invalid),
        ),
        (
            "1400000025000000ffffffffffffffffffffffff",
            Err(Errno::Invalid),
        ),
        (
            "1400000004000000ffffffffffffffffffffffff",
            Err(Errno::Invalid),
        ),
        (
            "1400000034000000ffffffffffffffffffffffff",
            Err(Errno::Invalid),
        ),
        (
            "1400000064000000ffffffffffffffffffffffff",
            Err(Errno::Invalid),
        ),
        (
            "1400000024000080ffffffffffffffffffffffff",
            Err(Errno::Invalid),
        ),
        (
            "1300000024000000ffffffffffffffffffffffff",
            Err(Errno::Invalid),
        ),
    ];
    for (text, due) in rows {
        let bytes = hex::decode(rt.alloc(), text)?;
        assert_equal_at(&rt, Request::decode(8, &bytes), due, text);
    }
    Ok(())
}

fn irqs<'a>(carried: Carried, action: Action) -> Result<Request<&'a [u8]>, Errno> {
    Ok(Request::SetIrqs(Irqs {
        carried,
        action,
        index: u32::MAX,
        start: u32::MAX,
        count: u32::MAX,
    }))
}

/// Reads and writes: no bytes, the most, and one more; counts that the bytes behind them aren't.
#[test]
fn regions(rt: HostRuntime) -> Result<(), Fail> {
    let most = u64::MAX;
    let rows: [(u16, &str, Result<Request<&[u8]>, Errno>); 10] = [
        (
            9,
            "ffffffffffffffffffffffff00100000",
            Ok(Request::Read(region(most, u32::MAX, 4096))),
        ),
        (
            9,
            "00000000000000000000000000000000",
            Ok(Request::Read(region(0, 0, 0))),
        ),
        (9, "00000000000000000000000001100000", Err(Errno::Invalid)),
        (9, "000000000000000000000000ffffffff", Err(Errno::Invalid)),
        (
            10,
            "ffffffffffffffffffffffff00000000",
            Ok(Request::Write(region(most, u32::MAX, 0), &[])),
        ),
        (10, "00000000000000000000000001000000", Err(Errno::Invalid)),
        (
            10,
            "000000000000000000000000000000007f",
            Err(Errno::Invalid),
        ),
        (
            10,
            "000000000000000000000000010000007f",
            Ok(Request::Write(region(0, 0, 1), &[0x7F])),
        ),
        (
            10,
            "000000000000000000000000011000007f",
            Err(Errno::Invalid),
        ),
        (
            10,
            "000000000000000000000000ffffffff7f",
            Err(Errno::Invalid),
        ),
    ];
    for (command, text, due) in rows {
        let bytes = hex::decode(rt.alloc(), text)?;
        assert_equal_at(&rt, Request::decode(command, &bytes), due, text);
    }
    Ok(())
}

/// A write of 4096 bytes, the most, is read whole; one of 4097, all of which are there, is refused.
#[test]
fn the_most(rt: HostRuntime) {
    let mut body = [0x5Au8; 4113];
    for (length, count, due) in [
        (4112, [0x00, 0x10, 0, 0], true),
        (4113, [0x01, 0x10, 0, 0], false),
    ] {
        if let Some(field) = body.get_mut(12..16) {
            field.copy_from_slice(&count);
        }
        let Some(front) = body.get(..length) else {
            continue;
        };
        let written = match Request::decode(10, front) {
            Ok(Request::Write(_, bytes)) => bytes.len() == 4096
                && bytes.iter().all(|byte| *byte == 0x5A),
            _ => false,
        };
        assert_equal_at(&rt, written, due, length);
    }
}
