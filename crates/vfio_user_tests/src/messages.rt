//! What QEMU sends, from its start to a driver that is bound.
use crate::compare::assert_equal_at;
use std::test::Fail;
use vfio_user::{
    Access, Action, Carried, Header, Irqs, Mapping, Range, Region, RegionQuery, Request,
};

/// In their order: version 0.0, with QEMU's capabilities; the guest's memory below 640 KiB, which a file has, and a ROM, which has none;
/// what the device is; BAR 0; errors, and MSI-X; the configuration space whole, and its ROM base address written, which is to be
/// answered; a reset; memory that goes.
#[test]
fn at_its_start(rt: HostRuntime) -> Result<(), Fail> {
    let rows: [(&str, u16, Request<&[u8]>); 11] = [
        (
            "00000100d60000000000000000000000000000007b226361706162696c6974696573223a207b22706773697a6573223a20343039362c20226d61785f6d73675f666473223a2031362c20226d61785f646d615f6d617073223a2036353533352c20226d61785f646174615f786665725f73697a65223a20313034383537362c20226d6967726174696f6e223a207b226d61785f6269746d61705f73697a65223a203236383433353435362c2022706773697a65223a20343039367d2c202277726974655f6d756c7469706c65223a20747275657d7d00",
            214,
            Request::Version(0, 0),
        ),
        (
            "0100020030000000000000000000000020000000030000000000000000000000000000000000000000000c0000000000",
            48,
            Request::Map(Mapping {
                access: Access::ReadWrite,
                needs_file: false,
                offset: 0,
                range: range(0, 0xC_0000),
            }),
        ),
        (
            "05000200300000000000000000000000200000000100000000000000000000000000fcff000000000000040000000000",
            48,
            Request::Map(Mapping {
                access: Access::ReadOnly,
                needs_file: false,
                offset: 0,
                range: range(0xFFFC_0000, 0x4_0000),
            }),
        ),
        (
            "0600040020000000000000000000000010000000000000000000000000000000",
            32,
            Request::Info,
        ),
        (
            "070005003000000000000000000000002000000000000000000000000000000000000000000000000000000000000000",
            48,
            Request::RegionInfo(RegionQuery {
                argsz: 32,
                index: 0,
            }),
        ),
        (
            "0e00070020000000000000000000000010000000000000000300000000000000",
            32,
            Request::IrqInfo(3),
        ),
        (
            "1000070020000000000000000000000010000000000000000200000000000000",
            32,
            Request::IrqInfo(2),
        ),
        (
            "0f00090020000000000000000000000000000000000000000700000000100000",
            32,
            Request::Read(region(0, 7, 4096)),
        ),
        (
            "11000a002400000000000000000000003000000000000000070000000400000000f8ffff",
            36,
            Request::Write(region(0x30, 7, 4), &[0x00, 0xF8, 0xFF, 0xFF]),
        ),
        ("1d000d00100000000000000000000000", 16, Request::Reset),
        (
            "250003002800000000000000000000001800000000000000000000000000000000000c0000000000",
            40,
            Request::Unmap(range(0, 0xC_0000)),
        ),
    ];
    for (text, size, request) in rows {
        let bytes = hex::decode(rt.alloc(), text)?;
        let Ok(header) = Header::decode(&bytes) else {
            return Err("no header".into());
        };
        let Some(body) = bytes.get(16..) else {
            return Err("no body".into());
        };
        assert_equal_at(
            &rt,
            (header.size, header.wants_reply),
            (size.into(), true),
            text,
        );
        assert_equal_at(
            &rt,
            Request::decode(header.command, body),
            Ok(request),
            text,
        );
    }
    Ok(())
}

/// With a bound driver: a register read and one written, for which no reply is wanted; a vector that loses its eventfd, and one and two
/// that get one; MSI-X turned off.
#[test]
fn with_a_driver(rt: HostRuntime) -> Result<(), Fail> {
    let rows: [(&str, bool, Request<&[u8]>); 6] = [
        (
            "c200090020000000000000000000000028100000000000000000000004000000",
            true,
            Request::Read(region(0x1028, 0, 4)),
        ),
        (
            "c5000a002400000010000000000000000c01000000000000000000000400000007000000",
            false,
            Request::Write(region(0x10C, 0, 4), &[7, 0, 0, 0]),
        ),
        (
            "5b0108002400000000000000000000001400000024000000020000000000000001000000",
            true,
            Request::SetIrqs(irqs(Carried::Eventfds, 0, 1)),
        ),
        (
            "020208002400000000000000000000001400000024000000020000000000000002000000",
            true,
            Request::SetIrqs(irqs(Carried::Eventfds, 0, 2)),
        ),
        (
            "030208002400000000000000000000001400000024000000020000000100000001000000",
            true,
            Request::SetIrqs(irqs(Carried::Eventfds, 1, 1)),
        ),
        (
            "040208002400000000000000000000001400000021000000020000000000000000000000",
            true,
            Request::SetIrqs(irqs(Carried::Nothing, 0, 0)),
        ),
    ];
    for (text, wants_reply, request) in rows {
        let bytes = hex::decode(rt.alloc(), text)?;
        let Ok(header) = Header::decode(&bytes) else {
            return Err("no header".into());
        };
        let Some(body) = bytes.get(16..) else {
            return Err("no body".into());
        };
        assert_equal_at(&rt, header.wants_reply, wants_reply, text);
        assert_equal_at(
            &rt,
            Request::decode(header.command, body),
            Ok(request),
            text,
        );
    }
    Ok(())
}

/// Addresses.
pub fn range(address: u64, size: u64) -> Range {
    Range { address, size }
}

/// Bytes of a region.
pub fn region(offset: u64, index: u32, count: u32) -> Region {
    Region {
        offset,
        index,
        count,
    }
}

// Vectors of MSI-X, and what triggers them.
fn irqs(carried: Carried, start: u32, count: u32) -> Irqs {
    Irqs {
        carried,
        action: Action::Trigger,
        index: 2,
        start,
        count,
    }
}
