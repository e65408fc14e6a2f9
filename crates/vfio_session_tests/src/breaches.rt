//! What ends a connection, by name.
use crate::client::{Client, Seen};
use crate::compare::{assert_equal, assert_equal_at};
use std::test::Fail;
use vfio_session::{Ask, Breach, Fate, Settled};
use vfio_user::Broken;

/// Headers that aren't any, and a size that isn't the message's, before a version and after one. Nothing is answered, the files are to be
/// closed, and the session is as a new one: it takes VERSION alone.
#[test]
fn of_the_header(rt: HostRuntime) -> Result<(), Fail> {
    for (text, breach) in [
        ("", Breach::NoHeader(Broken::Short)),
        (
            "01000d0010000000000000000000",
            Breach::NoHeader(Broken::Short),
        ),
        (
            "01000d000f0000000000000000000000",
            Breach::NoHeader(Broken::BadSize),
        ),
        (
            "01000d00211000000000000000000000",
            Breach::NoHeader(Broken::BadSize),
        ),
        (
            "01000d00100000000100000000000000",
            Breach::NoHeader(Broken::NotACommand),
        ),
        ("01000d00110000000000000000000000", Breach::WrongSize),
        ("01000d00201000000000000000000000", Breach::WrongSize),
        ("01000d0010000000000000000000000000", Breach::WrongSize),
    ] {
        for is_begun in [false, true] {
            let mut client = if is_begun {
                Client::begun()
            } else {
                Client::new()
            };
            let seen = client.send_text(rt.alloc(), text, 1, Settled::Finished)?;
            assert_equal_at(&rt, seen, (Seen::Ended(breach), Fate::Closed), text);
            assert_equal_at(&rt, client.got_none(), true, text);
            assert_equal_at(&rt, client.session.has_version(), false, text);
        }
    }
    Ok(())
}

/// VERSION comes first, with major version 0, whole, and with no file. Nothing else is taken before it, whether it could be read or not.
#[test]
fn before_a_version(rt: HostRuntime) -> Result<(), Fail> {
    for (text, files, breach) in [
        ("0100010012000000000000000000000000", 0, Breach::WrongSize),
        (
            "01000100130000000000000000000000000000",
            0,
            Breach::NoVersion,
        ),
        (
            "0100010014000000000000000000000001000000",
            0,
            Breach::OtherVersion,
        ),
        (
            "01000100140000000000000000000000ffffffff",
            0,
            Breach::OtherVersion,
        ),
        (
            "0100010014000000000000000000000000000000",
            1,
            Breach::StrayFiles,
        ),
        ("01000d00100000000000000000000000", 0, Breach::NoVersion),
        ("01000f00100000000000000000000000", 0, Breach::NoVersion),
        (
            "0100040020000000000000000000000010000000000000000000000000000000",
            0,
            Breach::NoVersion,
        ),
        (
            "01000200300000000000000000000000200000000300000000000000000000000000000000000000000000c000000000",
            1,
            Breach::NoVersion,
        ),
        (
            "0100090020000000000000000000000000000000000000000000000004000000",
            0,
            Breach::NoVersion,
        ),
        (
            "01000a0024000000100000000000000000000000000000000000000004000000ffffffff",
            0,
            Breach::NoVersion,
        ),
    ] {
        let mut client = Client::new();
        let seen = client.send_text(rt.alloc(), text, files, Settled::Finished)?;
        assert_equal_at(&rt, seen, (Seen::Ended(breach), Fate::Closed), text);
        assert_equal_at(&rt, client.got_none(), true, text);
    }
    Ok(())
}

/// A version is agreed on once, whatever minor version is proposed; a second VERSION ends the connection, and what the client had set is
/// gone with it.
#[test]
fn a_second_version(rt: HostRuntime) -> Result<(), Fail> {
    let mut client = Client::new();
    let version = "010001001400000000000000000000000000ffff";
    let seen = client.send_text(rt.alloc(), version, 0, Settled::Finished)?;
    assert_equal(&rt, seen, (Seen::Answered, Fate::Closed));
    assert_equal(
        &rt,
        (client.count(), client.session.has_version()),
        (Some(114), true),
    );
    let command = "02000a0022000000000000000000000004000000000000000700000002000000ffff";
    client.send_text(rt.alloc(), command, 0, Settled::Finished)?;
    let arm = "030008002400000000000000000000001400000024000000020000000000000003000000";
    client.send_text(rt.alloc(), arm, 3, Settled::Finished)?;
    assert_equal(
        &rt,
        (
            client.session.space().is_bus_master(),
            client.session.is_armed(2),
        ),
        (true, true),
    );
    let seen = client.send_text(rt.alloc(), version, 0, Settled::Finished)?;
    assert_equal(
        &rt,
        seen,
        (Seen::Ended(Breach::SecondVersion), Fate::Closed),
    );
    assert_equal(
        &rt,
        (
            client.session.space().is_bus_master(),
            client.session.is_armed(2),
        ),
        (false, false),
    );
    assert_equal(&rt, client.session.has_version(), false);
    Ok(())
}

/// Commands that are not offered are refused by ENOTSUP, 95, and those that are cut short by EINVAL, 22; the session goes on.
#[test]
fn refusals_end_nothing(rt: HostRuntime) -> Result<(), Fail> {
    let mut client = Client::begun();
    for (text, number) in [
        ("01000f00100000000000000000000000", 95),
        ("02000600100000000000000000000000", 95),
        ("ffffffff100000000000000000000000", 95),
        ("03000400100000000000000000000000", 22),
    ] {
        let seen = client.send_text(rt.alloc(), text, 2, Settled::Finished)?;
        assert_equal_at(&rt, seen, (Seen::Answered, Fate::Closed), text);
        assert_equal_at(&rt, client.refusal(), Some(number), text);
    }
    let seen = client.send_text(
        rt.alloc(),
        "04000d00100000000000000000000000",
        0,
        Settled::Finished,
    )?;
    assert_equal(&rt, seen, (Seen::Asked(Ask::Reset), Fate::Closed));
    Ok(())
}

/// What a log would say.
#[test]
fn texts(rt: HostRuntime) -> Result<(), Fail> {
    for (breach, due) in [
        (
            Breach::NoHeader(Broken::Short),
            "no header: a header has 16 bytes",
        ),
        (
            Breach::WrongSize,
            "a message isn't as long as its header says",
        ),
        (Breach::NoVersion, "the first message proposes no version"),
        (Breach::OtherVersion, "the major version isn't 0"),
        (Breach::SecondVersion, "a version is proposed a second time"),
        (Breach::StrayFiles, "files came with a version"),
    ] {
        let text = format!(in rt.alloc(); "{breach}")?;
        assert_equal_at(&rt, text.as_str() == due, true, due);
    }
    Ok(())
}
