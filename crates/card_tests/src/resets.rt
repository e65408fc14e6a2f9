//! Resets, and what is left of a guest that has gone: nothing.
use crate::client::{Clients, Seen, arm_message, policy, pool, write_message};
use crate::compare::assert_equal;
use live_run::Frames;
use mapped_memory::LiveMem;
use script_support::registers::{
    ENABLE, TDBAL0, TDLEN0, TDT0, TXDCTL0, VFCTRL, VFLINKS, VFMAILBOX, VFMBMEM, VTEICR, VTEICS,
    VTEIMS,
};
use std::alloc::Global;
use std::test::Fail;
use vfio_session::Breach;
use wire_frame::PoolId;

// RESET, and the reply that grants it.
const RESET: u32 = 1;

const GRANTED: u32 = 0x8000_0001;

// The register of the configuration space that has Initiate Function Level Reset, as its bit 15 (PCI Express capability, Device Control).
const DEVICE_CONTROL: u32 = 0xA8;

// A card of three functions, of which function 0 has a guest whose driver was answered.
pub fn driven<'a>(alloc: Global) -> Result<Clients<'a>, Fail> {
    let mut clients = Clients::vacant(alloc, 3)?;
    let first = pool(0)?;
    clients.admit(first, &policy(1));
    come(&mut clients, first, alloc)?;
    if clients.ask(first, RESET) == Some(GRANTED) {
        Ok(clients)
    } else {
        Err("the driver isn't answered".into())
    }
}

// A guest of no regions comes.
pub fn come<'a>(clients: &mut Clients<'a>, pool: PoolId, alloc: Global) -> Result<(), Fail> {
    if !clients.attach(pool, LiveMem::for_guest(alloc, 4096)?) {
        return Err("the guest is refused".into());
    }
    if clients.begin(pool) == Seen::Answered {
        Ok(())
    } else {
        Err("the version is refused".into())
    }
}

// Its driver has a vector with a file, which is raised and not signalled, and a transmit queue whose tail it wrote.
fn use_it<'a>(clients: &mut Clients<'a>, pool: PoolId) -> bool {
    clients.say(pool, &arm_message(2), 2);
    let writes = [
        (VTEIMS, 1),
        (VTEICS, 1),
        (TDBAL0, 0x100),
        (TDLEN0, 1024),
        (TXDCTL0, ENABLE),
        (TDT0, 1),
    ];
    clients.write_all(pool, &writes) && clients.is_busy(pool) && clients.raised() != 0
}

// What a function-level reset leaves: initial registers, a mailbox that tells of it (RSTD, and a first word without CTS), nothing to do.
fn is_reset<'a>(clients: &mut Clients<'a>, pool: PoolId) -> bool {
    clients.read(pool, TDLEN0) == Some(0)
        && clients.read(pool, VFMBMEM) == Some(0x4000_0100)
        && clients.read(pool, VFMAILBOX) == Some(0x80)
        && !clients.is_busy(pool)
        && clients.raised() == 0
}

#[test]
fn a_client_resets_its_function(rt: HostRuntime) -> Result<(), Fail> {
    let first = pool(0)?;
    let mut clients = driven(rt.alloc())?;
    assert_equal(&rt, use_it(&mut clients, first), true);
    // DEVICE_RESET, whose reply is a header alone
    let message = [7, 0, 13, 0, 16, 0, 0, 0, 0, 0, 0, 0, 0, 0, 0, 0];
    assert_equal(&rt, clients.say(first, &message, 0), Seen::Answered);
    let due = [7, 0, 13, 0, 16, 0, 0, 0, 1, 0, 0, 0, 0, 0, 0, 0];
    assert_equal(&rt, clients.got(&due), true);
    assert_equal(&rt, is_reset(&mut clients, first), true);
    Ok(())
}

#[test]
fn a_guest_resets_its_function(rt: HostRuntime) -> Result<(), Fail> {
    let first = pool(0)?;
    let mut clients = driven(rt.alloc())?;
    assert_equal(&rt, use_it(&mut clients, first), true);
    let message = write_message(7, DEVICE_CONTROL, 1 << 15);
    assert_equal(&rt, clients.say(first, &message, 0), Seen::Answered);
    assert_equal(&rt, is_reset(&mut clients, first), true);
    // by its driver: the words of the mailbox are 0 then
    assert_equal(&rt, clients.ask(first, RESET), Some(GRANTED));
    assert_equal(&rt, clients.write(first, VFCTRL, 1 << 26), true);
    assert_equal(&rt, clients.read(first, VFMBMEM), Some(0));
    Ok(())
}

#[test]
fn the_host_resets_a_function(rt: HostRuntime) -> Result<(), Fail> {
    let first = pool(0)?;
    let mut clients = driven(rt.alloc())?;
    assert_equal(&rt, use_it(&mut clients, first), true);
    clients.flr(first);
    assert_equal(&rt, is_reset(&mut clients, first), true);
    Ok(())
}

/// A vector that has no file when it is handed out is not signalled later.
#[test]
fn a_vector_without_a_file_is_not_signalled(rt: HostRuntime) -> Result<(), Fail> {
    let first = pool(0)?;
    let mut clients = driven(rt.alloc())?;
    let raised = clients.write_all(first, &[(VTEIMS, 7), (VTEICS, 7)]);
    assert_equal(&rt, raised, true);
    assert_equal(&rt, clients.raised(), 1);
    assert_equal(&rt, clients.signal(first), 0);
    clients.say(first, &arm_message(2), 2);
    assert_equal(&rt, clients.signal(first), 0);
    // of three that are raised, once the driver has read their causes, the two that have files
    assert_equal(&rt, clients.read(first, VTEICR), Some(7));
    assert_equal(&rt, clients.write(first, VTEICS, 7), true);
    assert_equal(&rt, clients.signal(first), 3);
    Ok(())
}

#[test]
fn nothing_is_left_of_a_guest(rt: HostRuntime) -> Result<(), Fail> {
    let alloc = rt.alloc();
    let first = pool(0)?;
    let mut clients = driven(alloc)?;
    assert_equal(&rt, use_it(&mut clients, first), true);
    clients.detach(first, alloc)?;
    assert_equal(&rt, clients.is_busy(first), false);
    assert_equal(&rt, clients.raised() == 0, true);
    // its client's version isn't the next one's
    let seen = clients.say(first, &write_message(0, TDT0, 1), 0);
    assert_equal(&rt, seen, Seen::Ended(Breach::NoVersion));
    come(&mut clients, first, alloc)?;
    assert_equal(&rt, clients.read(first, TDLEN0), Some(0));
    assert_equal(&rt, clients.read(first, VFMBMEM), Some(0));
    assert_equal(
        &rt,
        clients.write_all(first, &[(VTEIMS, 7), (VTEICS, 7)]),
        true,
    );
    // no vector has a file
    assert_equal(&rt, clients.signal(first), 0);
    Ok(())
}

/// A function without a guest reads as zero, drops what is written, and has nothing to send.
#[test]
fn a_function_without_a_guest(rt: HostRuntime) -> Result<(), Fail> {
    let alloc = rt.alloc();
    let (second, past) = (pool(1)?, pool(63)?);
    let mut clients = driven(alloc)?;
    assert_equal(&rt, clients.functions(), 3);
    for vacant in [second, past] {
        assert_equal(&rt, clients.begin(vacant), Seen::Answered);
        assert_equal(&rt, clients.read(vacant, VFLINKS), Some(0));
        assert_equal(&rt, clients.write(vacant, TDT0, 1), true);
        let mut frames = Frames::new(alloc, 1, 9018)?;
        assert_equal(&rt, clients.more(vacant, &mut frames), false);
    }
    assert_equal(
        &rt,
        !clients.attach(past, LiveMem::for_guest(alloc, 4096)?),
        true,
    );
    assert_equal(&rt, clients.is_vacant(second, alloc)?, true);
    // a register that isn't there
    assert_equal(&rt, clients.read(pool(0)?, 0x3FFC), Some(0));
    Ok(())
}
