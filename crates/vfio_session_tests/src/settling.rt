//! What is asked, settled in each way.
use crate::client::{Client, Seen};
use crate::compare::assert_equal_at;
use std::test::Fail;
use vfio_session::{Ask, Settled};
use vfio_user::Errno;

/// A register has a value, and nothing else has one: what is settled otherwise is told as EINVAL, 22. A refusal is told by its number.
#[test]
fn in_each_way(rt: HostRuntime) -> Result<(), Fail> {
    let read = "0100090020000000000000000000000008000000000000000000000004000000";
    let written = "01000a00240000000000000000000000080000000000000000000000040000000a0b0c0d";
    let unmapped =
        "010003002800000000000000000000001800000000000000000000000000000000000c0000000000";
    for (text, settled, count, refusal) in [
        (read, Settled::Value(7), 36, None),
        (read, Settled::Finished, 16, Some(22)),
        (read, Settled::Refused(Errno::NotPermitted), 16, Some(1)),
        (written, Settled::Finished, 32, None),
        (written, Settled::Value(7), 16, Some(22)),
        (written, Settled::Refused(Errno::NoMemory), 16, Some(12)),
        (unmapped, Settled::Finished, 40, None),
        (unmapped, Settled::Value(7), 16, Some(22)),
        (unmapped, Settled::Refused(Errno::NotFound), 16, Some(2)),
        (
            "01000d00100000000000000000000000",
            Settled::Finished,
            16,
            None,
        ),
        (
            "01000d00100000000000000000000000",
            Settled::Value(7),
            16,
            Some(22),
        ),
    ] {
        let mut client = Client::begun();
        client.send_text(rt.alloc(), text, 0, settled)?;
        assert_equal_at(
            &rt,
            (client.count(), client.refusal()),
            (Some(count), refusal),
            (text, settled),
        );
    }
    Ok(())
}

/// The write to the configuration space that resets the function, and DEVICE_RESET, leave the space as at first and the vectors their
/// files; the first one's reply is that of a write. Device Control's other bits ask for nothing.
#[test]
fn resets(rt: HostRuntime) -> Result<(), Fail> {
    for (text, asked, count, is_reset) in [
        (
            "01000a00220000000000000000000000a80000000000000007000000020000000080",
            true,
            32,
            true,
        ),
        (
            "01000a00220000000000000000000000a8000000000000000700000002000000ff7f",
            false,
            32,
            false,
        ),
        ("01000d00100000000000000000000000", true, 16, true),
    ] {
        let mut client = Client::begun();
        let command = "02000a00220000000000000000000000040000000000000007000000020000000600";
        client.send_text(rt.alloc(), command, 0, Settled::Finished)?;
        let arm = "030008002400000000000000000000001400000024000000020000000100000001000000";
        client.send_text(rt.alloc(), arm, 1, Settled::Finished)?;
        let (seen, _) = client.send_text(rt.alloc(), text, 0, Settled::Finished)?;
        assert_equal_at(&rt, seen == Seen::Asked(Ask::Reset), asked, text);
        assert_equal_at(&rt, client.count(), Some(count), text);
        assert_equal_at(&rt, client.session.space().is_bus_master(), !is_reset, text);
        assert_equal_at(&rt, client.session.is_armed(1), true, text);
        assert_equal_at(&rt, client.session.is_armed(3), false, text);
    }
    Ok(())
}
