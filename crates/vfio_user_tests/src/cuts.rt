//! Messages that are cut short, and messages with more behind them.
use crate::compare::assert_equal_at;
use std::test::Fail;
use vfio_user::{Errno, Request};

/// Each body that QEMU sends, with 0xA5 behind it, cut at every byte: where all fields are there it is read as a whole one is, and
/// otherwise refused. A write is refused with each number of bytes but its own. So the numbers are how many bytes the fields have.
#[test]
fn at_each_byte(rt: HostRuntime) -> Result<(), Fail> {
    for (command, text, fields) in [
        (1, "00000000", 4),
        (
            2,
            "20000000030000000000000000000000000000000000000000000c0000000000",
            32,
        ),
        (3, "1800000000000000000000000000000000000c0000000000", 24),
        (4, "10000000000000000000000000000000", 16),
        (
            5,
            "2000000000000000030000000000000000000000000000000000000000000000",
            32,
        ),
        (7, "10000000000000000200000000000000", 16),
        (8, "1400000024000000020000000000000001000000", 20),
        (9, "00000000000000000700000000100000", 16),
        (13, "", 0),
    ] {
        let bytes = hex::decode(rt.alloc(), text)?;
        let longer = hex::decode(
            rt.alloc(),
            format!(in rt.alloc(); "{text}a5a5a5a5")?.as_str(),
        )?;
        assert_equal_at(&rt, bytes.len(), fields, command);
        let whole = Request::decode(command, &bytes);
        assert_equal_at(&rt, whole.is_ok(), true, command);
        for length in 0..=longer.len() {
            let Some(front) = longer.get(..length) else {
                return Err("no such length".into());
            };
            let due = if length < fields {
                Err(Errno::Invalid)
            } else {
                whole
            };
            assert_equal_at(&rt, Request::decode(command, front), due, (command, length));
        }
    }
    Ok(())
}

/// The same of a write of four bytes, of which 20 are the whole.
#[test]
fn writes(rt: HostRuntime) -> Result<(), Fail> {
    let bytes = hex::decode(
        rt.alloc(),
        "3000000000000000070000000400000000f8ffffa5a5a5a5",
    )?;
    for length in 0..=bytes.len() {
        let Some(front) = bytes.get(..length) else {
            return Err("no such length".into());
        };
        assert_equal_at(
            &rt,
            Request::decode(10, front).is_ok(),
            length == 20,
            length,
        );
    }
    Ok(())
}
