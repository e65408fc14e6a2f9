//! Each field of a request at its bounds, and what becomes of it.
use crate::client::{Client, Seen};
use crate::compare::assert_equal_at;
use std::process::Abort;
use std::test::Fail;
use vfio_session::{Ask, Fate, Settled, VectorRange};
use vfio_user::{Access, Mapping, Range};

// What comes of a message: it is answered by so many bytes, or refused by this number, or this is asked.
#[derive(Clone, Copy, Debug, PartialEq, Eq)]
enum Due {
    Reply(usize),
    Refusal(u8),
    Asked(Ask),
}

// A row: the bytes behind the header, how many files came, and what comes of it.
type Row = (&'static str, usize, Due);

// Sends each row's message, of this command and with this header's size, to a session of its own.
fn check(
    rt: &(impl Abort + AllocGlobal),
    command: &str,
    size: &str,
    rows: &[Row],
) -> Result<(), Fail> {
    for (body, files, due) in rows {
        let text = format!(in rt.alloc(); "0100{command}00{size}00000000000000000000{body}")?;
        let mut client = Client::begun();
        let (seen, fate) = client.send_text(rt.alloc(), text.as_str(), *files, Settled::Finished)?;
        let got = match seen {
            Seen::Asked(ask) => Due::Asked(ask),
            Seen::Answered => match client.refusal() {
                Some(number) => Due::Refusal(number),
                None => Due::Reply(client.count().unwrap_or(0)),
            },
            Seen::Ended(_) => return Err("the session ended".into()),
        };
        assert_equal_at(
            rt,
            (got, fate),
            (*due, fate_of(*due)),
            (command, body, files),
        );
    }
    Ok(())
}

// What becomes of the files.
fn fate_of(due: Due) -> Fate {
    match due {
        Due::Asked(Ask::Map(_)) => Fate::Memory,
        Due::Asked(Ask::Arm(vectors)) => Fate::Vectors(vectors.first),
        _ => Fate::Closed,
    }
}

/// Registers are read by 32 bits at multiples of 4 below 16 KiB, and by nothing else: the datasheet advises against partial accesses, and no
/// driver makes any.
#[test]
fn registers_read(rt: HostRuntime) -> Result<(), Fail> {
    check(
        &rt,
        "09",
        "2000",
        &[
            (
                "00000000000000000000000004000000",
                0,
                Due::Asked(Ask::Read(0)),
            ),
            (
                "fc3f0000000000000000000004000000",
                0,
                Due::Asked(Ask::Read(0x3FFC)),
            ),
            ("fd3f0000000000000000000004000000", 0, Due::Refusal(22)),
            ("00400000000000000000000004000000", 0, Due::Refusal(22)),
            ("fcffffffffffffff0000000004000000", 0, Due::Refusal(22)),
            ("ffffffffffffffff0000000004000000", 0, Due::Refusal(22)),
            ("00000000010000000000000004000000", 0, Due::Refusal(22)),
            ("02000000000000000000000004000000", 0, Due::Refusal(22)),
            ("00000000000000000000000000000000", 0, Due::Refusal(22)),
            ("00000000000000000000000001000000", 0, Due::Refusal(22)),
            ("00000000000000000000000002000000", 0, Due::Refusal(22)),
            ("00000000000000000000000008000000", 0, Due::Refusal(22)),
            ("00000000000000000000000000100000", 0, Due::Refusal(22)),
            ("00000000000000000000000001100000", 0, Due::Refusal(22)),
        ],
    )
}

/// The same of writes.
#[test]
fn registers_written(rt: HostRuntime) -> Result<(), Fail> {
    check(
        &rt,
        "0a",
        "2400",
        &[
            (
                "0000000000000000000000000400000078563412",
                0,
                Due::Asked(Ask::Write(0, 0x1234_5678)),
            ),
            (
                "fc3f00000000000000000000040000000df0adde",
                0,
                Due::Asked(Ask::Write(0x3FFC, 0xDEAD_F00D)),
            ),
            (
                "fd3f000000000000000000000400000000000000",
                0,
                Due::Refusal(22),
            ),
            (
                "0040000000000000000000000400000000000000",
                0,
                Due::Refusal(22),
            ),
            (
                "fcffffffffffffff000000000400000000000000",
                0,
                Due::Refusal(22),
            ),
            (
                "ffffffffffffffff000000000400000000000000",
                0,
                Due::Refusal(22),
            ),
            (
                "0100000000000000000000000400000000000000",
                0,
                Due::Refusal(22),
            ),
            (
                "0000000000000000000000000300000000000000",
                0,
                Due::Refusal(22),
            ),
        ],
    )?;
    check(
        &rt,
        "0a",
        "2200",
        &[
            ("000000000000000000000000020000007856", 0, Due::Refusal(22)),
            ("feff00000000000007000000020000007856", 0, Due::Refusal(22)),
            ("fe0f00000000000007000000020000007856", 0, Due::Reply(32)),
            ("ff0f00000000000007000000020000007856", 0, Due::Refusal(22)),
            ("fe3f00000000000003000000020000007856", 0, Due::Reply(32)),
            ("ff3f00000000000003000000020000007856", 0, Due::Refusal(22)),
            ("000000000000000001000000020000007856", 0, Due::Refusal(22)),
        ],
    )
}

/// Other regions are read up to their last byte, and those that have no bytes not at all.
#[test]
fn regions_read(rt: HostRuntime) -> Result<(), Fail> {
    check(
        &rt,
        "09",
        "2000",
        &[
            ("00000000000000000700000000100000", 0, Due::Reply(4128)),
            ("00000000000000000700000001100000", 0, Due::Refusal(22)),
            ("01000000000000000700000000100000", 0, Due::Refusal(22)),
            ("fc0f0000000000000700000004000000", 0, Due::Reply(36)),
            ("fd0f0000000000000700000004000000", 0, Due::Refusal(22)),
            ("00100000000000000700000000000000", 0, Due::Reply(32)),
            ("01100000000000000700000000000000", 0, Due::Refusal(22)),
            ("ffffffffffffffff0700000001000000", 0, Due::Refusal(22)),
            ("ffffffffffffffff0700000000000000", 0, Due::Refusal(22)),
            ("00300000000000000300000000100000", 0, Due::Reply(4128)),
            ("01300000000000000300000000100000", 0, Due::Refusal(22)),
            ("ff3f0000000000000300000001000000", 0, Due::Reply(33)),
            ("00400000000000000300000001000000", 0, Due::Refusal(22)),
            ("ffffffffffffffff0300000001000000", 0, Due::Refusal(22)),
            ("00000000000000000100000004000000", 0, Due::Refusal(22)),
            ("00000000000000000200000000000000", 0, Due::Refusal(22)),
            ("00000000000000000400000001000000", 0, Due::Refusal(22)),
            ("00000000000000000500000004000000", 0, Due::Refusal(22)),
            ("00000000000000000600000004000000", 0, Due::Refusal(22)),
            ("00000000000000000800000004000000", 0, Due::Refusal(22)),
            ("00000000000000000900000004000000", 0, Due::Refusal(22)),
            ("0000000000000000ffffffff04000000", 0, Due::Refusal(22)),
        ],
    )
}

/// The last region and the last type of interrupts are told, and none behind them.
#[test]
fn questions(rt: HostRuntime) -> Result<(), Fail> {
    check(
        &rt,
        "05",
        "3000",
        &[
            (
                "2000000000000000080000000000000000000000000000000000000000000000",
                0,
                Due::Reply(48),
            ),
            (
                "4000000000000000000000000000000000000000000000000000000000000000",
                0,
                Due::Reply(48),
            ),
            (
                "2000000000000000090000000000000000000000000000000000000000000000",
                0,
                Due::Refusal(22),
            ),
            (
                "2000000000000000ffffffff0000000000000000000000000000000000000000",
                0,
                Due::Refusal(22),
            ),
        ],
    )?;
    check(
        &rt,
        "07",
        "2000",
        &[
            ("10000000000000000000000000000000", 0, Due::Reply(32)),
            ("10000000000000000400000000000000", 0, Due::Reply(32)),
            ("10000000000000000500000000000000", 0, Due::Refusal(22)),
            ("1000000000000000ffffffff00000000", 0, Due::Refusal(22)),
        ],
    )
}

/// Vectors 0 to 2 get a file each, or lose theirs; any others, and any other number of files, are refused. Only all vectors at once are
/// turned off without data, and nothing is triggered nor masked by a message.
#[test]
fn interrupts(rt: HostRuntime) -> Result<(), Fail> {
    check(
        &rt,
        "08",
        "2400",
        &[
            ("1400000024000000020000000000000003000000", 3, arm(0, 3)),
            ("1400000024000000020000000000000003000000", 0, disarm(0, 3)),
            (
                "1400000024000000020000000000000003000000",
                1,
                Due::Refusal(22),
            ),
            (
                "1400000024000000020000000000000003000000",
                16,
                Due::Refusal(22),
            ),
            ("1400000024000000020000000200000001000000", 1, arm(2, 1)),
            (
                "1400000024000000020000000200000001000000",
                3,
                Due::Refusal(22),
            ),
            (
                "1400000024000000020000000200000002000000",
                2,
                Due::Refusal(22),
            ),
            (
                "1400000024000000020000000300000001000000",
                1,
                Due::Refusal(22),
            ),
            (
                "1400000024000000020000000300000001000000",
                0,
                Due::Refusal(22),
            ),
            (
                "1400000024000000020000000300000000000000",
                0,
                Due::Refusal(22),
            ),
            (
                "1400000024000000020000000000000004000000",
                4,
                Due::Refusal(22),
            ),
            (
                "140000002400000002000000ffffffff01000000",
                1,
                Due::Refusal(22),
            ),
            (
                "14000000240000000200000001000000ffffffff",
                0,
                Due::Refusal(22),
            ),
            (
                "1400000024000000020000000000000000000000",
                0,
                Due::Refusal(22),
            ),
            ("1400000021000000020000000000000000000000", 0, disarm(0, 3)),
            (
                "1400000021000000020000000000000000000000",
                1,
                Due::Refusal(22),
            ),
            (
                "1400000021000000020000000000000001000000",
                0,
                Due::Refusal(95),
            ),
            (
                "1400000021000000020000000100000000000000",
                0,
                Due::Refusal(95),
            ),
            (
                "1400000009000000020000000000000001000000",
                0,
                Due::Refusal(95),
            ),
            (
                "1400000014000000020000000000000001000000",
                1,
                Due::Refusal(95),
            ),
            (
                "1400000024000000000000000000000001000000",
                1,
                Due::Refusal(22),
            ),
            (
                "1400000024000000030000000000000001000000",
                1,
                Due::Refusal(22),
            ),
            (
                "1400000024000000050000000000000001000000",
                1,
                Due::Refusal(22),
            ),
        ],
    )
}

fn arm(first: u32, count: u32) -> Due {
    Due::Asked(Ask::Arm(VectorRange { first, count }))
}

fn disarm(first: u32, count: u32) -> Due {
    Due::Asked(Ask::Disarm(VectorRange { first, count }))
}

/// A range has at least one address, and ends at 2^64 at most; so do the bytes of its file. One file is its memory.
#[test]
fn memory(rt: HostRuntime) -> Result<(), Fail> {
    check(
        &rt,
        "02",
        "3000",
        &[
            (
                "200000000300000000000000000000000000000000000000ffffffffffffffff",
                1,
                map(Access::ReadWrite, 0, 0, u64::MAX),
            ),
            (
                "20000000030000000000000000000000ffffffffffffffff0100000000000000",
                1,
                map(Access::ReadWrite, 0, u64::MAX, 1),
            ),
            (
                "20000000030000000000000000000000ffffffffffffffff0200000000000000",
                1,
                Due::Refusal(22),
            ),
            (
                "200000000100000000f0ffffffffffff00000000000000000010000000000000",
                1,
                map(Access::ReadOnly, u64::MAX - 0xFFF, 0, 0x1000),
            ),
            (
                "200000000100000000f0ffffffffffff00000000000000000110000000000000",
                1,
                Due::Refusal(22),
            ),
            (
                "2000000003000000000000000000000000000000000000000000000000000000",
                1,
                Due::Refusal(22),
            ),
            (
                "2000000003000000000000000000000000000c00000000000010000000000000",
                3,
                Due::Refusal(22),
            ),
            (
                "2000000003000000000000000000000000000c00000000000010000000000000",
                16,
                Due::Refusal(22),
            ),
            (
                "2000000007000000000000000000000000000c00000000000010000000000000",
                0,
                Due::Refusal(22),
            ),
            (
                "2000000001000000000000000000000000000c00000000000010000000000000",
                0,
                Due::Reply(16),
            ),
        ],
    )?;
    check(
        &rt,
        "03",
        "2800",
        &[
            (
                "180000000000000000000000000000000000000000000080",
                0,
                unmap(0, 1 << 63),
            ),
            (
                "180000000000000000000000000000800000000000000080",
                0,
                unmap(1 << 63, 1 << 63),
            ),
            (
                "180000000000000000000000000000800100000000000080",
                0,
                Due::Refusal(22),
            ),
            (
                "180000000000000000000000000000000000000000000000",
                0,
                Due::Refusal(22),
            ),
            (
                "180000000000000000000000000000000000000000000080",
                1,
                Due::Refusal(22),
            ),
        ],
    )
}

fn map(access: Access, offset: u64, address: u64, size: u64) -> Due {
    Due::Asked(Ask::Map(Mapping {
        access,
        needs_file: false,
        offset,
        range: Range { address, size },
    }))
}

fn unmap(address: u64, size: u64) -> Due {
    Due::Asked(Ask::Unmap(Range { address, size }))
}
