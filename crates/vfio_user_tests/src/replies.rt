//! Replies, byte for byte.
use crate::compare::assert_equal_at;
use crate::messages::{range, region};
use std::test::Fail;
use vfio_user::{Area, Errno, Header, MOST, RegionQuery, Reply};

/// What QEMU was answered and took, to the messages of these ids and commands: done, to DMA_MAP, DEVICE_SET_IRQS and DEVICE_RESET; the
/// range that is gone; nine regions and five types of interrupts; BAR 0, BAR 1, which isn't there, and the configuration space; MSI-X,
/// and errors, which aren't signalled; three reads, and a write. VERSION's text is this server's own.
#[test]
fn as_qemu_took_them(rt: HostRuntime) -> Result<(), Fail> {
    let rows: [(u16, u16, Reply<&[u8]>, &str); 15] = [
        (
            0,
            1,
            Reply::Version(0, 0),
            "00000100720000000100000000000000000000007b226361706162696c6974696573223a7b226d61785f6d73675f666473223a382c226d61785f646174615f786665725f73697a65223a343039362c22706773697a6573223a343039362c226d61785f646d615f6d617073223a36347d7d00",
        ),
        (1, 2, Reply::Done, "01000200100000000100000000000000"),
        (
            37,
            3,
            Reply::Unmapped(range(0, 0xC_0000)),
            "250003002800000001000000000000001800000000000000000000000000000000000c0000000000",
        ),
        (
            6,
            4,
            Reply::Info(9, 5),
            "0600040020000000010000000000000010000000030000000900000005000000",
        ),
        (
            7,
            5,
            Reply::RegionInfo(query(32, 0), 0x4000, None),
            "070005003000000001000000000000002000000003000000000000000000000000400000000000000000000000000000",
        ),
        (
            8,
            5,
            Reply::RegionInfo(query(32, 1), 0, None),
            "080005003000000001000000000000002000000000000000010000000000000000000000000000000000000000000000",
        ),
        (
            13,
            5,
            Reply::RegionInfo(query(32, 7), 0x1000, None),
            "0d0005003000000001000000000000002000000003000000070000000000000000100000000000000000000000000000",
        ),
        (
            14,
            7,
            Reply::IrqInfo(3, 0),
            "0e00070020000000010000000000000010000000000000000300000000000000",
        ),
        (
            16,
            7,
            Reply::IrqInfo(2, 3),
            "1000070020000000010000000000000010000000090000000200000003000000",
        ),
        (0x15B, 8, Reply::Done, "5b010800100000000100000000000000"),
        (
            16,
            9,
            Reply::Bytes(region(0x30, 7, 4), &[0, 0, 0, 0]),
            "100009002400000001000000000000003000000000000000070000000400000000000000",
        ),
        (
            22,
            9,
            Reply::Bytes(region(0x72, 7, 2), &[2, 0]),
            "16000900220000000100000000000000720000000000000007000000020000000200",
        ),
        (
            26,
            9,
            Reply::Bytes(region(0x3D, 7, 1), &[0]),
            "1a0009002100000001000000000000003d00000000000000070000000100000000",
        ),
        (
            17,
            10,
            Reply::Written(region(0x30, 7, 4)),
            "11000a0020000000010000000000000030000000000000000700000004000000",
        ),
        (29, 13, Reply::Done, "1d000d00100000000100000000000000"),
    ];
    for (id, command, reply, due) in rows {
        let due = hex::decode(rt.alloc(), due)?;
        assert_equal_at(&rt, is_encoded(&reply, id, command, &due), true, id);
    }
    Ok(())
}

/// A region of which bytes 1000h to 2FFFh may be mapped, as linux/vfio.h has its capability: to a client with room for 32 or 63 bytes the
/// reply names argsz 64 and the place 32, with flags 15, and ends there; with room for 64 or more the capability follows. QEMU maps the
/// area after two such replies.
#[test]
fn an_area(rt: HostRuntime) -> Result<(), Fail> {
    let area = Some(Area {
        offset: 0x1000,
        size: 0x2000,
    });
    let front = "400000000f000000000000002000000000400000000000000000000000000000";
    for (argsz, header, behind) in [
        (32, "08000500300000000100000000000000", ""),
        (63, "08000500300000000100000000000000", ""),
        (64, "08000500500000000100000000000000", CAPABILITY),
        (u32::MAX, "08000500500000000100000000000000", CAPABILITY),
    ] {
        let text = format!(in rt.alloc(); "{header}{front}{behind}")?;
        let due = hex::decode(rt.alloc(), text.as_str())?;
        let reply = Reply::RegionInfo(query(argsz, 0), 0x4000, area);
        assert_equal_at(&rt, is_encoded(&reply, 8, 5, &due), true, argsz);
    }
    Ok(())
}

// id 1, version 1, no next one, one area, reserved, its offset and its size.
const CAPABILITY: &str = "0100010000000000010000000000000000100000000000000020000000000000";

/// A refusal is a header alone, with Error, bit 5, and Linux's number.
#[test]
fn refusals(rt: HostRuntime) -> Result<(), Fail> {
    for (errno, number, due) in [
        (Errno::NotPermitted, 1, "ffff0200100000002100000001000000"),
        (Errno::NotFound, 2, "ffff0200100000002100000002000000"),
        (Errno::NoMemory, 12, "ffff020010000000210000000c000000"),
        (Errno::Exists, 17, "ffff0200100000002100000011000000"),
        (Errno::Invalid, 22, "ffff0200100000002100000016000000"),
        (Errno::NoRoom, 28, "ffff020010000000210000001c000000"),
        (Errno::NotSupported, 95, "ffff020010000000210000005f000000"),
    ] {
        let due = hex::decode(rt.alloc(), due)?;
        assert_equal_at(&rt, errno.number(), number, number);
        assert_equal_at(
            &rt,
            is_encoded(&Reply::Failed(errno), 0xFFFF, 2, &due),
            true,
            number,
        );
    }
    Ok(())
}

/// A reply of 4128 bytes, the longest; and replies whose bytes aren't as many as they say, which can't be encoded.
#[test]
fn the_longest(rt: HostRuntime) -> Result<(), Fail> {
    let bytes = [0x5Au8; 4096];
    let mut due = hex::decode(
        rt.alloc(),
        "0f00090020100000010000000000000000000000000000000700000000100000",
    )?;
    for byte in bytes {
        due.push(byte)?;
    }
    assert_equal_at(
        &rt,
        is_encoded(&Reply::Bytes(region(0, 7, 4096), &bytes), 15, 9, &due),
        true,
        4096,
    );
    for (count, has) in [(4096, true), (4095, false), (4097, false), (0, false)] {
        let reply = Reply::Bytes(region(0, 7, count), bytes.as_slice());
        assert_equal_at(&rt, reply.has_its_bytes(), has, count);
    }
    let more = [0x5Au8; 4097];
    let reply = Reply::Bytes(region(0, 7, 4097), more.as_slice());
    assert_equal_at(&rt, reply.has_its_bytes(), false, 4097);
    Ok(())
}

fn query(argsz: u32, index: u32) -> RegionQuery {
    RegionQuery { argsz, index }
}

// Whether the reply to a message is just these bytes, and the rest of the room stays.
fn is_encoded(reply: &Reply<&[u8]>, id: u16, command: u16, due: &[u8]) -> bool {
    if !reply.has_its_bytes() {
        return false;
    }
    let header = Header {
        id,
        command,
        size: 16,
        wants_reply: true,
    };
    let mut room = [0xA5u8; MOST as usize + 8];
    let count = reply.encode(&header, &mut room);
    let (front, behind) = room.split_at(count);
    front == due && behind.iter().all(|byte| *byte == 0xA5)
}
