//! What errors tell people.
use crate::compare::assert_equal_at;
use std::test::Fail;
use vfio_user::{Broken, Errno};

#[test]
fn of_broken_messages(rt: HostRuntime) -> Result<(), Fail> {
    for (broken, due) in [
        (Broken::Short, "a header has 16 bytes"),
        (Broken::BadSize, "a message has 16 to 4128 bytes"),
        (Broken::NotACommand, "a client sends commands alone"),
    ] {
        let text = format!(in rt.alloc(); "{broken}")?;
        assert_equal_at(&rt, text.as_str() == due, true, due);
    }
    Ok(())
}

#[test]
fn of_refusals(rt: HostRuntime) -> Result<(), Fail> {
    for (errno, due) in [
        (Errno::NotPermitted, "not permitted"),
        (Errno::NotFound, "there is no such thing"),
        (Errno::NoMemory, "the host has no memory left"),
        (Errno::Exists, "it is there already"),
        (Errno::Invalid, "the request can't be right"),
        (Errno::NoRoom, "there is no room for more"),
        (Errno::NotSupported, "not supported"),
    ] {
        let text = format!(in rt.alloc(); "{errno}")?;
        assert_equal_at(&rt, text.as_str() == due, true, due);
    }
    Ok(())
}
