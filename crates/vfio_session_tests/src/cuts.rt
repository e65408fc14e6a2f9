//! Messages of each kind, cut at every byte.
use crate::client::{Client, Seen};
use crate::compare::assert_equal_at;
use std::test::Fail;
use vfio_session::{Breach, Fate, Settled};
use vfio_user::Broken;

// A message as QEMU sent it, and how many files came with it.
const KINDS: [(&str, usize); 9] = [
    (
        "0100020030000000000000000000000020000000030000000000000000000000000000000000000000000c0000000000",
        1,
    ),
    (
        "250003002800000000000000000000001800000000000000000000000000000000000c0000000000",
        0,
    ),
    (
        "0600040020000000000000000000000010000000000000000000000000000000",
        0,
    ),
    (
        "070005003000000000000000000000002000000000000000000000000000000000000000000000000000000000000000",
        0,
    ),
    (
        "1000070020000000000000000000000010000000000000000200000000000000",
        0,
    ),
    (
        "020208002400000000000000000000001400000024000000020000000000000002000000",
        2,
    ),
    (
        "c200090020000000000000000000000028100000000000000000000004000000",
        0,
    ),
    (
        "c5000a002400000000000000000000000c01000000000000000000000400000007000000",
        0,
    ),
    ("1d000d00100000000000000000000000", 0),
];

// Writes a size below 256 into the header.
fn set_size(message: &mut [u8], length: usize) {
    if let (Some(size), Ok(length)) = (message.get_mut(4), u8::try_from(length)) {
        *size = length;
    }
}

/// A message that is cut is not as long as its header says, or has no header: the connection ends, and its files are closed.
#[test]
fn with_its_size(rt: HostRuntime) -> Result<(), Fail> {
    for (text, files) in KINDS {
        let message = hex::decode(rt.alloc(), text)?;
        for length in 0..message.len() {
            let Some(front) = message.get(..length) else {
                return Err("no such length".into());
            };
            let breach = if length < 16 {
                Breach::NoHeader(Broken::Short)
            } else {
                Breach::WrongSize
            };
            let mut client = Client::begun();
            let seen = client.send(front, files, Settled::Finished);
            assert_equal_at(
                &rt,
                seen,
                (Seen::Ended(breach), Fate::Closed),
                (text, length),
            );
            assert_equal_at(&rt, client.got_none(), true, (text, length));
        }
    }
    Ok(())
}

/// With the size of what is left in its header it is whole, but lacks fields, and is refused by EINVAL; its files are closed, and nothing
/// is asked. DEVICE_RESET has none to lack.
#[test]
fn with_the_size_that_is_left(rt: HostRuntime) -> Result<(), Fail> {
    for (text, files) in KINDS {
        let mut message = hex::decode(rt.alloc(), text)?;
        for length in 16..message.len() {
            set_size(&mut message, length);
            let Some(front) = message.get(..length) else {
                return Err("no such length".into());
            };
            let mut client = Client::begun();
            let seen = client.send(front, files, Settled::Finished);
            assert_equal_at(&rt, seen, (Seen::Answered, Fate::Closed), (text, length));
            assert_equal_at(&rt, client.refusal(), Some(22), (text, length));
        }
    }
    Ok(())
}

/// VERSION proposes something with its first four bytes behind the header, whatever stands behind them.
#[test]
fn a_version(rt: HostRuntime) -> Result<(), Fail> {
    let mut message = hex::decode(
        rt.alloc(),
        "00000100180000000000000000000000000000007b7d0000",
    )?;
    for length in 16..=message.len() {
        set_size(&mut message, length);
        let Some(front) = message.get(..length) else {
            return Err("no such length".into());
        };
        let mut client = Client::new();
        let due = if length < 20 {
            Seen::Ended(Breach::NoVersion)
        } else {
            Seen::Answered
        };
        assert_equal_at(
            &rt,
            client.send(front, 0, Settled::Finished),
            (due, Fate::Closed),
            length,
        );
        assert_equal_at(&rt, client.session.has_version(), length >= 20, length);
    }
    Ok(())
}
