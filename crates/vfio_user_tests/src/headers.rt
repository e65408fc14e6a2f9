//! Headers.
use crate::compare::{assert_equal, assert_equal_at};
use std::test::Fail;
use vfio_user::{Broken, Header};

/// Each field at its bounds (section "Header"): id and command are of 16 bits; the size is 16 to 4128; types 1 to 15 are no command;
/// No_reply is bit 4, and the flags above it and the error are ignored.
#[test]
fn fields(rt: HostRuntime) -> Result<(), Fail> {
    for (text, due) in [
        ("00000000100000000000000000000000", header(0, 0, 16, true)),
        (
            "ffffffff100000000000000000000000",
            header(0xFFFF, 0xFFFF, 16, true),
        ),
        (
            "01020304200000000000000000000000",
            header(0x0201, 0x0403, 32, true),
        ),
        ("010002000f0000000000000000000000", Err(Broken::BadSize)),
        ("01000200000000000000000000000000", Err(Broken::BadSize)),
        ("01000200201000000000000000000000", header(1, 2, 4128, true)),
        ("01000200211000000000000000000000", Err(Broken::BadSize)),
        ("01000200ffffffff0000000000000000", Err(Broken::BadSize)),
        ("01000200100000000100000000000000", Err(Broken::NotACommand)),
        ("01000200100000000200000000000000", Err(Broken::NotACommand)),
        ("01000200100000000f00000000000000", Err(Broken::NotACommand)),
        ("01000200100000001100000000000000", Err(Broken::NotACommand)),
        ("01000200100000001000000000000000", header(1, 2, 16, false)),
        ("01000200100000002000000000000000", header(1, 2, 16, true)),
        ("0100020010000000e0ffffffffffffff", header(1, 2, 16, true)),
        ("0100020010000000f0ffffff00000000", header(1, 2, 16, false)),
    ] {
        let bytes = hex::decode(rt.alloc(), text)?;
        assert_equal_at(&rt, Header::decode(&bytes), due, text);
    }
    Ok(())
}

fn header(id: u16, command: u16, size: u32, wants_reply: bool) -> Result<Header, Broken> {
    Ok(Header {
        id,
        command,
        size,
        wants_reply,
    })
}

/// With fewer than 16 bytes there is none, and bytes behind it change nothing.
#[test]
fn cut(rt: HostRuntime) -> Result<(), Fail> {
    let bytes = hex::decode(rt.alloc(), "0d00090020000000000000000000000000a5a5a5")?;
    for length in 0..=bytes.len() {
        let Some(front) = bytes.get(..length) else {
            return Err("no such length".into());
        };
        let due = if length < 16 {
            Err(Broken::Short)
        } else {
            header(13, 9, 32, true)
        };
        assert_equal_at(&rt, Header::decode(front), due, length);
    }
    assert_equal(&rt, Header::decode(&[]), Err(Broken::Short));
    Ok(())
}
