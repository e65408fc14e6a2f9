//! Files that come where none are wanted.
use crate::client::{Client, Seen};
use crate::compare::assert_equal_at;
use std::test::Fail;
use vfio_session::{Fate, Settled};

/// Each request that wants no file is refused by EINVAL, 22, where one or sixteen come with it; nothing is asked, and all are to be closed.
#[test]
fn nobody_wants(rt: HostRuntime) -> Result<(), Fail> {
    for text in [
        "250003002800000000000000000000001800000000000000000000000000000000000c0000000000",
        "0600040020000000000000000000000010000000000000000000000000000000",
        "070005003000000000000000000000002000000000000000000000000000000000000000000000000000000000000000",
        "1000070020000000000000000000000010000000000000000200000000000000",
        "040208002400000000000000000000001400000021000000020000000000000000000000",
        "c200090020000000000000000000000028100000000000000000000004000000",
        "c5000a002400000000000000000000000c01000000000000000000000400000007000000",
        "1d000d00100000000000000000000000",
    ] {
        for files in [1, 16] {
            let mut client = Client::begun();
            let seen = client.send_text(rt.alloc(), text, files, Settled::Finished)?;
            assert_equal_at(&rt, seen, (Seen::Answered, Fate::Closed), (text, files));
            assert_equal_at(&rt, client.refusal(), Some(22), (text, files));
        }
    }
    Ok(())
}

/// A refusal of a message that wants no reply isn't told, and the session goes on.
#[test]
fn with_a_posted_message(rt: HostRuntime) -> Result<(), Fail> {
    let mut client = Client::begun();
    for files in [0, 3] {
        let posted = "01000f00100000001000000000000000";
        let seen = client.send_text(rt.alloc(), posted, files, Settled::Finished)?;
        assert_equal_at(&rt, seen, (Seen::Answered, Fate::Closed), files);
        assert_equal_at(&rt, client.got_none(), true, files);
        assert_equal_at(&rt, client.session.has_version(), true, files);
    }
    Ok(())
}
