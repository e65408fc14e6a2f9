//! A driver's start.
use crate::driver::{ask, host, policy, words};
use mailbox::{Mailbox, Policy, VlanPolicy, Write};
use script_support::registers::{
    PFVFRE, PFVFTE, RAH, RAL, VALID, VFMAILBOX, VFMBMEM, VLVFB, VMOLR, VMVIR,
};
use std::test::Fail;
use wire_frame::PoolId;

/// What ixgbevf says as it comes up, in its order, and what it is answered: reset; API 1.7, 1.6, 1.5 and 1.4, which are refused,
/// and 1.3; queues; its own address; multicast mode 1; VLAN 0; the link. After each it polls VFMAILBOX, and reads PFSTS and PFACK
/// once; VFU reads as it was written.
#[test]
fn starts(rt: HostRuntime) -> Result<(), Fail> {
    let pool = PoolId::new(0).ok_or("no such pool")?;
    let mut host = host()?;
    host.admit(pool, &policy(0x10))?;
    let mut mailbox = Mailbox::new();
    for (message, reply) in [
        ([1, 0, 0], [0x8000_0001, 0x9059_8202, 0x1000, 0, 0]),
        ([8, 8, 0], [0x6000_0008, 8, 0, 0, 0]),
        ([8, 7, 0], [0x6000_0008, 7, 0, 0, 0]),
        ([8, 6, 0], [0x6000_0008, 6, 0, 0, 0]),
        ([8, 5, 0], [0x6000_0008, 5, 0, 0, 0]),
        ([8, 4, 0], [0xA000_0008, 4, 0, 0, 0]),
        ([9, 0, 0], [0xA000_0009, 2, 2, 0, 0]),
        (
            [2, 0x9059_8202, 0x1000],
            [0xA000_0002, 0x9059_8202, 0x1000, 0, 0],
        ),
        ([12, 1, 0], [0xA000_000C, 1, 0, 0, 0]),
        ([0x1_0004, 0, 0], [0xA001_0004, 0, 0, 0, 0]),
        ([16, 0, 0], [0xA000_0010, 1, 0, 0, 0]),
    ] {
        let _ = ask(&mut host, pool, &mut mailbox, message)?;
        assert_eq!(rt; mailbox.read(VFMAILBOX), Some(0x30));
        assert_eq!(rt; words(&mut mailbox), reply);
    }
    assert_eq!(rt; mailbox.read(VFMAILBOX), Some(0));
    let _ = mailbox.write(VFMAILBOX, 4);
    assert_eq!(rt; mailbox.read(VFMAILBOX), Some(4));
    Ok(())
}

/// What changes a register, and nothing else. RESET of pool 7: RAL and RAH of entry 7, VMOLR, its words of PFVFRE and PFVFTE, and
/// that of VLVFB for VLAN 0, which is at place 0. That it asks for VLAN 0: nothing. That it joins VLAN 100: its word of VLVFB. The
/// same again, the version, queues, a length, and that it leaves VLAN 0: nothing. A second address: RAL and
/// RAH of entry 71; another one: RAH, RAL and RAH. That it goes: RAH and RAL of both entries, and the others.
#[test]
fn writes_what_changes(rt: HostRuntime) -> Result<(), Fail> {
    let pool = PoolId::new(7).ok_or("no such pool")?;
    let mut host = host()?;
    host.admit(
        pool,
        &Policy {
            may_choose: true,
            ..policy(0x10)
        },
    )?;
    let mut mailbox = Mailbox::new();
    let writes = ask(&mut host, pool, &mut mailbox, [1, 0, 0])?;
    let wanted = [
        write(RAL + 8 * 7, 0x9059_8202),
        write(RAH + 8 * 7, VALID | 0x1000),
        write(VMOLR + 4 * 7, 0x0900_0000),
        write(PFVFRE, 0x80),
        write(PFVFTE, 0x80),
        write(VLVFB, 0x80),
    ];
    assert!(rt; writes.as_slice() == wanted.as_slice());
    let writes = ask(&mut host, pool, &mut mailbox, [0x1_0004, 0, 0])?;
    assert_eq!(rt; writes.as_slice().len(), 0);
    let writes = ask(&mut host, pool, &mut mailbox, [0x1_0004, 100, 0])?;
    assert!(rt; writes.as_slice() == [write(VLVFB + 8, 0x80)].as_slice());
    for message in [
        [0x1_0004, 100, 0],
        [8, 4, 0],
        [9, 0, 0],
        [5, 9022, 0],
        [4, 0, 0],
        [2, 0x9059_8202, 0x1000],
    ] {
        let writes = ask(&mut host, pool, &mut mailbox, message)?;
        assert_eq!(rt; writes.as_slice().len(), 0);
    }
    let writes = ask(
        &mut host,
        pool,
        &mut mailbox,
        [0x1_0006, 0x9059_8202, 0x2000],
    )?;
    let wanted = [
        write(RAL + 8 * 71, 0x9059_8202),
        write(RAH + 8 * 71, VALID | 0x2000),
    ];
    assert!(rt; writes.as_slice() == wanted.as_slice());
    let writes = ask(
        &mut host,
        pool,
        &mut mailbox,
        [0x1_0006, 0x9059_8204, 0x2000],
    )?;
    let wanted = [
        write(RAH + 8 * 71, 0),
        write(RAL + 8 * 71, 0x9059_8204),
        write(RAH + 8 * 71, VALID | 0x2000),
    ];
    assert!(rt; writes.as_slice() == wanted.as_slice());
    let writes = host.reset(pool);
    let wanted = [
        write(RAH + 8 * 7, 0),
        write(RAL + 8 * 7, 0),
        write(RAH + 8 * 71, 0),
        write(RAL + 8 * 71, 0),
        write(VMOLR + 4 * 7, 0),
        write(PFVFRE, 0),
        write(PFVFTE, 0),
        write(VLVFB, 0),
        write(VLVFB + 8, 0),
    ];
    assert!(rt; writes.as_slice() == wanted.as_slice());
    Ok(())
}

/// A port VLAN is written to VMVIR as the function comes up, and its place's word of VLVFB in the half of its pool.
#[test]
fn writes_a_port_vlan(rt: HostRuntime) -> Result<(), Fail> {
    let pool = PoolId::new(40).ok_or("no such pool")?;
    let mut host = host()?;
    host.admit(
        pool,
        &Policy {
            vlans: VlanPolicy::Port(1),
            ..policy(0x10)
        },
    )?;
    let mut mailbox = Mailbox::new();
    let writes = ask(&mut host, pool, &mut mailbox, [1, 0, 0])?;
    let wanted = [
        write(RAL + 8 * 40, 0x9059_8202),
        write(RAH + 8 * 40, VALID | 0x1000),
        write(VMOLR + 4 * 40, 0x0800_0000),
        write(VMVIR + 4 * 40, 0x4000_0064),
        write(PFVFRE + 4, 0x100),
        write(PFVFTE + 4, 0x100),
        write(VLVFB + 8 + 4, 0x100),
    ];
    assert!(rt; writes.as_slice() == wanted.as_slice());
    Ok(())
}

fn write(offset: u32, value: u32) -> Write {
    Write { offset, value }
}

/// After a reset from outside the driver reads RSTD once, and a word 0 that is a refusal without CTS; all that it asks before it
/// resets is refused without CTS.
#[test]
fn begins_anew(rt: HostRuntime) -> Result<(), Fail> {
    let pool = PoolId::new(0).ok_or("no such pool")?;
    let mut host = host()?;
    host.admit(pool, &policy(0x10))?;
    let mut mailbox = Mailbox::new();
    let _ = ask(&mut host, pool, &mut mailbox, [1, 0, 0])?;
    let _ = host.reset(pool);
    mailbox.reset();
    assert_eq!(rt; mailbox.read(VFMBMEM), Some(0x4000_0100));
    assert_eq!(rt; mailbox.read(VFMAILBOX), Some(0x80));
    assert_eq!(rt; mailbox.read(VFMAILBOX), Some(0));
    let _ = ask(&mut host, pool, &mut mailbox, [16, 0, 0])?;
    assert_eq!(rt; mailbox.read(VFMBMEM), Some(0x4000_0010));
    Ok(())
}
