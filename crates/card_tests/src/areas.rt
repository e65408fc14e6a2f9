//! The page of registers that a client may be offered.
use crate::client::{Clients, Seen, policy, pool};
use crate::compare::assert_equal;
use crate::resets::come;
use mapped_memory::LiveMem;
use std::test::Fail;
use wire_frame::PoolId;

// What a client is told of BAR 0 with an offer: argsz 64, READ, WRITE, MMAP and CAPS, region 0, the capability at 32, 16,384 bytes, its first
// byte the file's; then the capability: id 1, version 1, none after it, one area, from 0x2000 on, of 0x1000 bytes.
const OFFERED: [u8; 80] = [
    7, 0, 5, 0, 80, 0, 0, 0, 1, 0, 0, 0, 0, 0, 0, 0, 64, 0, 0, 0, 15, 0, 0, 0, 0, 0, 0, 0, 32, 0,
    0, 0, 0, 64, 0, 0, 0, 0, 0, 0, 0, 0, 0, 0, 0, 0, 0, 0, 1, 0, 1, 0, 0, 0, 0, 0, 1, 0, 0, 0, 0,
    0, 0, 0, 0, 0x20, 0, 0, 0, 0, 0, 0, 0, 0x10, 0, 0, 0, 0, 0, 0,
];

// And without one: argsz 32, READ and WRITE, and no capability.
const NOT_OFFERED: [u8; 48] = [
    7, 0, 5, 0, 48, 0, 0, 0, 1, 0, 0, 0, 0, 0, 0, 0, 32, 0, 0, 0, 3, 0, 0, 0, 0, 0, 0, 0, 0, 0, 0,
    0, 0, 64, 0, 0, 0, 0, 0, 0, 0, 0, 0, 0, 0, 0, 0, 0,
];

// A client asks for BAR 0 with room for 64 bytes, and is told this.
fn is_told<'a>(clients: &mut Clients<'a>, pool: PoolId, due: &[u8]) -> bool {
    let mut message = [0u8; 48];
    message[..8].copy_from_slice(&[7, 0, 5, 0, 48, 0, 0, 0]);
    message[16] = 64;
    clients.say(pool, &message, 0) == Seen::Answered && clients.got(due)
}

/// The client of one function is offered the page, and it alone. A reset leaves the offer, and the next guest has none.
#[test]
fn offered(rt: HostRuntime) -> Result<(), Fail> {
    let alloc = rt.alloc();
    let mut clients = Clients::vacant(alloc, 2)?;
    let (first, second) = (pool(0)?, pool(1)?);
    clients.admit(first, &policy(1));
    clients.attach(first, LiveMem::for_guest(alloc, 4096)?);
    clients.offer_area(first);
    clients.begin(first);
    come(&mut clients, second, alloc)?;
    assert_equal(&rt, is_told(&mut clients, first, &OFFERED), true);
    assert_equal(&rt, is_told(&mut clients, second, &NOT_OFFERED), true);
    clients.flr(first);
    assert_equal(&rt, is_told(&mut clients, first, &OFFERED), true);
    clients.detach(first, alloc)?;
    come(&mut clients, first, alloc)?;
    assert_equal(&rt, is_told(&mut clients, first, &NOT_OFFERED), true);
    Ok(())
}
