//! The area of BAR 0 that a client may map, as QEMU asks for it: first with room for the answer alone (argsz 32), and then for as much as the
//! reply says that there is (argsz 64).
use crate::client::{Client, Seen};
use crate::compare::{assert_equal, assert_equal_at};
use std::process::Abort;
use std::test::Fail;
use vfio_session::{Breach, Settled};

// DEVICE_GET_REGION_INFO of BAR 0, as QEMU 11.1 sends it: the message has 48 bytes, whatever its argsz.
const FIRST: &str =
    "070005003000000000000000000000002000000000000000000000000000000000000000000000000000000000000000";

const SECOND: &str =
    "080005003000000000000000000000004000000000000000000000000000000000000000000000000000000000000000";

// Messages of a client to which no area is offered, and the replies: argsz 32, READ and WRITE, region 0, no capability, 16,384 bytes.
const NOT_OFFERED: [(&str, &str); 2] = [
    (
        FIRST,
        "070005003000000001000000000000002000000003000000000000000000000000400000000000000000000000000000",
    ),
    (
        SECOND,
        "080005003000000001000000000000002000000003000000000000000000000000400000000000000000000000000000",
    ),
];

// With the offer: argsz 64, READ, WRITE, MMAP and CAPS, region 0, the capability at 32, 16,384 bytes from the first byte of the file on. Then
// the capability: its id and its version are 1, none follows, there is one area, from 0x2000 on, of 0x1000 bytes. Region 3, and region 7 have
// none. A reset leaves the offer as it is.
const OFFERED: [(&str, &str); 6] = [
    (
        FIRST,
        "07000500300000000100000000000000400000000f000000000000002000000000400000000000000000000000000000",
    ),
    (
        SECOND,
        "08000500500000000100000000000000400000000f0000000000000020000000004000000000000000000000000000000100010000000000010000000000000000200000000000000010000000000000",
    ),
    (
        "090005003000000000000000000000004000000000000000030000000000000000000000000000000000000000000000",
        "090005003000000001000000000000002000000003000000030000000000000000400000000000000000000000000000",
    ),
    (
        "0a0005003000000000000000000000004000000000000000070000000000000000000000000000000000000000000000",
        "0a0005003000000001000000000000002000000003000000070000000000000000100000000000000000000000000000",
    ),
    (
        "0b000d00100000000000000000000000",
        "0b000d00100000000100000000000000",
    ),
    (
        SECOND,
        "08000500500000000100000000000000400000000f0000000000000020000000004000000000000000000000000000000100010000000000010000000000000000200000000000000010000000000000",
    ),
];

// Sends each message, and compares the reply byte for byte.
fn talk(
    rt: &(impl Abort + AllocGlobal),
    client: &mut Client,
    lines: &[(&str, &str)],
) -> Result<(), Fail> {
    for (message, reply) in lines {
        client.send_text(rt.alloc(), message, 0, Settled::Finished)?;
        let due = hex::decode(rt.alloc(), reply)?;
        assert_equal_at(rt, client.got(&due), true, *message);
    }
    Ok(())
}

/// Nobody offers an area.
#[test]
fn no_area(rt: HostRuntime) -> Result<(), Fail> {
    let mut client = Client::begun();
    assert_equal(&rt, client.session.offers_area(), false);
    talk(&rt, &mut client, &NOT_OFFERED)
}

/// An area is offered before the client speaks. The end of the connection ends the offer too.
#[test]
fn an_area(rt: HostRuntime) -> Result<(), Fail> {
    let mut client = Client::new();
    client.session.offer_area();
    client.begin();
    talk(&rt, &mut client, &OFFERED)?;
    let (seen, _) = client.send(&[0; 15], 0, Settled::Finished);
    assert_equal_at(&rt, client.session.offers_area(), false, seen);
    client.begin();
    talk(&rt, &mut client, &NOT_OFFERED)
}

/// Before a version an offer has no message answered.
#[test]
fn offered_to_nobody(rt: HostRuntime) -> Result<(), Fail> {
    let mut client = Client::new();
    client.session.offer_area();
    let (seen, _) = client.send_text(rt.alloc(), FIRST, 0, Settled::Finished)?;
    assert_equal(&rt, seen, Seen::Ended(Breach::NoVersion));
    assert_equal(&rt, client.got_none(), true);
    Ok(())
}
