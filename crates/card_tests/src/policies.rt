//! What the administrator says, and what is left to the shell.
use crate::client::{Clients, Seen, pool};
use crate::compare::assert_equal;
use crate::resets::driven;
use card::Order;
use mailbox::Notice;
use script_support::registers::{VFMAILBOX, VFMBMEM};
use std::test::Fail;
use vfio_session::Fate;
use vfio_user::{Access, Mapping, Range};

// RESET, and the replies that grant and refuse it.
const RESET: u32 = 1;

const REFUSED: u32 = 0x4000_0001;

/// The host's message waits until the driver has read its answer, and then stands in the mailbox. A function that is dismissed is refused.
#[test]
fn the_host_speaks_to_a_driver(rt: HostRuntime) -> Result<(), Fail> {
    let first = pool(0)?;
    let mut clients = driven(rt.alloc())?;
    // the driver has not looked since it was answered
    assert_equal(&rt, clients.notify(first), Notice::Waits);
    clients.read(first, VFMAILBOX);
    assert_equal(&rt, clients.notify(first), Notice::Raises);
    // PFSTS, and the word: a control message from the host, CTS and all
    let status = clients.read(first, VFMAILBOX).unwrap_or(0);
    assert_equal(&rt, status & 0x10, 0x10);
    assert_equal(&rt, clients.read(first, VFMBMEM), Some(0x2000_0100));
    clients.dismiss(first);
    assert_equal(&rt, clients.ask(first, RESET), Some(REFUSED));
    Ok(())
}

/// DMA_MAP of 4,096 bytes at 0x2000, readable and writable, by a file from its byte 0x1000 on; and its end.
#[test]
fn a_mapping_is_left_to_the_shell(rt: HostRuntime) -> Result<(), Fail> {
    let first = pool(0)?;
    let mut clients = driven(rt.alloc())?;
    let mut message = [0u8; 48];
    message[..8].copy_from_slice(&[7, 0, 2, 0, 48, 0, 0, 0]);
    message[16] = 32;
    message[20] = 3;
    message[25] = 0x10;
    message[33] = 0x20;
    message[41] = 0x10;
    let range = Range {
        address: 0x2000,
        size: 0x1000,
    };
    let mapping = Mapping {
        access: Access::ReadWrite,
        needs_file: false,
        offset: 0x1000,
        range,
    };
    let seen = clients.say(first, &message, 1);
    assert_equal(&rt, seen, Seen::Ordered(Order::Map(mapping)));
    assert_equal(&rt, clients.fate, Fate::Memory);
    let mut message = [0u8; 40];
    message[..8].copy_from_slice(&[7, 0, 3, 0, 40, 0, 0, 0]);
    message[16] = 24;
    message[25] = 0x20;
    message[33] = 0x10;
    let seen = clients.say(first, &message, 0);
    assert_equal(&rt, seen, Seen::Ordered(Order::Unmap(range)));
    assert_equal(&rt, clients.fate, Fate::Closed);
    Ok(())
}
