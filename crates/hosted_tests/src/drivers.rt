//! Drivers that ask by their mailboxes.
use crate::compare::assert_equal;
use crate::support::{ask, policy, pool, told, vacant};
use device::{Outcome, Queue, Room, Vector};
use mailbox::{NotAdmitted, Notice};
use mapped_memory::LiveMem;
use script_support::registers::{VFCTRL, VFMAILBOX, VFMBMEM, VTEICR, VTEIMC, VTEIMS, VTIVAR_MISC};
use std::test::Fail;
use wire_frame::{Fault, FrameBuf};

// RESET, and the reply that grants it.
const RESET: u32 = 1;

const GRANTED: u32 = 0x8000_0001;

#[test]
fn a_driver_gets_the_address_of_its_policy(rt: HostRuntime) -> Result<(), Fail> {
    let alloc = rt.alloc();
    let mut hosted = vacant(alloc)?;
    hosted.admit(pool(1)?, &policy(7))?;
    let came = hosted.attach(1, LiveMem::for_guest(alloc, 4096)?).is_ok();
    assert_equal(&rt, came, true);
    assert_equal(&rt, ask(&mut hosted, 1, RESET), Some(GRANTED));
    // the address stands in the next two words, its first byte lowest
    assert_equal(&rt, hosted.vf_read(1, VFMBMEM + 4), Ok(0x9059_8202));
    assert_equal(&rt, hosted.vf_read(1, VFMBMEM + 8), Ok(0x0000_0700));
    // PFSTS and PFACK, which a read clears; the driver gave the mailbox back as it rang
    assert_equal(&rt, hosted.vf_read(1, VFMAILBOX), Ok(0x30));
    assert_equal(&rt, hosted.vf_read(1, VFMAILBOX), Ok(0));
    Ok(())
}

#[test]
fn a_function_without_a_policy_is_refused(rt: HostRuntime) -> Result<(), Fail> {
    let alloc = rt.alloc();
    let mut hosted = vacant(alloc)?;
    assert_equal(
        &rt,
        hosted.attach(0, LiveMem::for_guest(alloc, 4096)?).is_ok(),
        true,
    );
    // NACK, without CTS
    assert_equal(&rt, ask(&mut hosted, 0, RESET), Some(0x4000_0001));
    Ok(())
}

#[test]
fn a_vacant_function_has_no_mailbox(rt: HostRuntime) -> Result<(), Fail> {
    let alloc = rt.alloc();
    let mut hosted = vacant(alloc)?;
    assert_equal(&rt, hosted.vf_read(0, VFMBMEM), Err(Fault::NotOpen));
    assert_equal(
        &rt,
        hosted.vf_write(0, VFMBMEM, 1).err(),
        Some(Fault::NotOpen),
    );
    assert_equal(
        &rt,
        hosted.vf_write(2, VFMBMEM, 1).err(),
        Some(Fault::NoSuchVf),
    );
    assert_equal(
        &rt,
        hosted.vf_write(64, VFMAILBOX, 1).err(),
        Some(Fault::NoSuchVf),
    );
    assert_equal(&rt, hosted.flr(0), Err(Fault::NotOpen));
    assert_equal(&rt, hosted.functions(), 2);
    Ok(())
}

#[test]
fn a_reset_is_told_to_the_driver(rt: HostRuntime) -> Result<(), Fail> {
    let alloc = rt.alloc();
    let mut hosted = vacant(alloc)?;
    hosted.admit(pool(0)?, &policy(7))?;
    assert_equal(
        &rt,
        hosted.attach(0, LiveMem::for_guest(alloc, 4096)?).is_ok(),
        true,
    );
    assert_equal(&rt, ask(&mut hosted, 0, RESET), Some(GRANTED));
    // from outside: RSTD, and a first word without CTS
    assert_equal(&rt, hosted.flr(0), Ok(()));
    assert_equal(&rt, hosted.vf_read(0, VFMAILBOX), Ok(0x80));
    assert_equal(&rt, hosted.vf_read(0, VFMBMEM), Ok(0x4000_0100));
    // by the driver: all words are 0
    assert_equal(&rt, ask(&mut hosted, 0, RESET), Some(GRANTED));
    assert_equal(&rt, hosted.vf_write(0, VFCTRL, 1 << 26).is_ok(), true);
    assert_equal(&rt, hosted.vf_read(0, VFMBMEM), Ok(0));
    // and a new guest sees nothing of it
    assert_equal(&rt, ask(&mut hosted, 0, RESET), Some(GRANTED));
    assert_equal(
        &rt,
        hosted.detach(0, LiveMem::for_guest(alloc, 0)?).is_ok(),
        true,
    );
    assert_equal(
        &rt,
        hosted.attach(0, LiveMem::for_guest(alloc, 4096)?).is_ok(),
        true,
    );
    assert_equal(&rt, hosted.vf_read(0, VFMBMEM), Ok(0));
    assert_equal(&rt, hosted.vf_read(0, VFMAILBOX), Ok(0));
    Ok(())
}

#[test]
fn a_driver_is_notified_and_dismissed(rt: HostRuntime) -> Result<(), Fail> {
    let alloc = rt.alloc();
    let mut hosted = vacant(alloc)?;
    hosted.admit(pool(0)?, &policy(7))?;
    // another function can't have the same address
    assert_equal(
        &rt,
        hosted.admit(pool(1)?, &policy(7)),
        Err(NotAdmitted::AddressOwned),
    );
    assert_equal(
        &rt,
        hosted.attach(0, LiveMem::for_guest(alloc, 4096)?).is_ok(),
        true,
    );
    assert_equal(&rt, ask(&mut hosted, 0, RESET), Some(GRANTED));
    // the driver hasn't looked since its message was answered
    assert_equal(&rt, told(&mut hosted, pool(0)?), (Notice::Waits, 0));
    assert_equal(&rt, hosted.vf_read(0, VFMAILBOX), Ok(0x30));
    assert_equal(&rt, told(&mut hosted, pool(0)?), (Notice::Raises, 0));
    assert_equal(&rt, hosted.vf_read(0, VFMAILBOX), Ok(0x10));
    // without its policy it is refused, and the address is free
    hosted.dismiss(pool(0)?);
    assert_equal(&rt, ask(&mut hosted, 0, RESET), Some(0x4000_0001));
    assert_equal(&rt, hosted.admit(pool(1)?, &policy(7)), Ok(None));
    Ok(())
}

/// The cause "other" is raised where the message stands: by the vector that the driver gave it, where that is enabled. A function that is
/// closed, and one that isn't there, have none.
#[test]
fn a_notice_raises_the_cause_other(rt: HostRuntime) -> Result<(), Fail> {
    let alloc = rt.alloc();
    let mut hosted = vacant(alloc)?;
    let came = hosted.attach(0, LiveMem::for_guest(alloc, 4096)?).is_ok();
    assert_equal(&rt, came, true);
    let rows = [
        (0x00, 7, (Notice::Raises, 0)),
        (0x82, 3, (Notice::Raises, 0)),
        (0x82, 4, (Notice::Raises, 4)),
        (0x80, 4, (Notice::Raises, 0)),
        (0x80, 1, (Notice::Raises, 1)),
    ];
    for (vector, enabled, due) in rows {
        let writes = [(VTEIMC, 7), (VTIVAR_MISC, vector), (VTEIMS, enabled)];
        for (offset, value) in writes {
            let written = hosted.vf_write(0, offset, value).is_ok();
            assert_equal(&rt, written, true);
        }
        assert_equal(&rt, hosted.vf_read(0, VTEICR).is_ok(), true);
        assert_equal(&rt, told(&mut hosted, pool(0)?), due);
    }
    // the driver takes the mailbox (VFU): nothing is raised then, and nothing is changed
    assert_equal(&rt, hosted.vf_read(0, VTEICR), Ok(1));
    assert_equal(&rt, hosted.vf_write(0, VFMAILBOX, 4).is_ok(), true);
    assert_equal(&rt, told(&mut hosted, pool(0)?), (Notice::Waits, 0));
    assert_equal(&rt, hosted.vf_read(0, VTEICR), Ok(0));
    for absent in [pool(1)?, pool(2)?] {
        assert_equal(&rt, told(&mut hosted, absent), (Notice::Raises, 0));
        assert_equal(&rt, hosted.interval(absent, Vector::V0), 0);
    }
    Ok(())
}

#[test]
fn frames_reach_nobody_who_was_not_admitted(rt: HostRuntime) -> Result<(), Fail> {
    let alloc = rt.alloc();
    let mut hosted = vacant(alloc)?;
    assert_equal(
        &rt,
        hosted.attach(0, LiveMem::for_guest(alloc, 4096)?).is_ok(),
        true,
    );
    let broadcast = FrameBuf::from_bytes(&[0xFF; 60])?;
    let came = hosted
        .wire(broadcast.as_frame())
        .map(|messages| messages.to_masks());
    assert_equal(&rt, came, Ok([0; 64]));
    // its queue is off
    let response = hosted.serve(0, Queue::Q0, &mut Room::new());
    assert_equal(&rt, response.outcome, Outcome::Idle);
    Ok(())
}
