//! Policies that change and go while their functions are up.
use crate::driver::{ask, host, policy};
use mailbox::{Host, Mailbox, NotAdmitted, Policy, VlanPolicy, Write};
use script_support::registers::{PFVFRE, PFVFTE, RAH, RAL, VALID, VFMBMEM, VLVFB, VMOLR, VMVIR};
use std::test::Fail;
use wire_frame::{Mac, PoolId};

/// Pool 7, whose driver chose the address 02:82:59:90:00:30 and a second one that ends in 40, and joined VLAN 100.
fn busy(pool: PoolId, mailbox: &mut Mailbox) -> Result<Host, Fail> {
    let mut host = host()?;
    host.admit(
        pool,
        &Policy {
            may_choose: true,
            ..policy(0x10)
        },
    )?;
    for message in [
        [1, 0, 0],
        [2, 0x9059_8202, 0x3000],
        [0x2_0006, 0x9059_8202, 0x4000],
        [0x1_0004, 100, 0],
    ] {
        let _ = ask(&mut host, pool, mailbox, message)?;
    }
    Ok(host)
}

/// A policy that lets the driver choose no address, and has VLAN 0 alone: the second address goes, the permanent address is used
/// again, VLAN 100 is left, and nothing else is written. A port VLAN in the place of VLAN 0: no untagged frames (VMOLR), its tag
/// (VMVIR), and its words of VLVFB. The link down: nothing is received or sent.
#[test]
fn changes_while_up(rt: HostRuntime) -> Result<(), Fail> {
    let pool = PoolId::new(7).ok_or("no such pool")?;
    let mut mailbox = Mailbox::new();
    let mut host = busy(pool, &mut mailbox)?;
    let fewer = Policy {
        vlans: VlanPolicy::Joins(1),
        ..policy(0x10)
    };
    let writes = host.admit(pool, &fewer)?.writes;
    let wanted = [
        write(RAH + 8 * 7, 0),
        write(RAH + 8 * 7, VALID | 0x1000),
        write(RAH + 8 * 71, 0),
        write(RAL + 8 * 71, 0),
        write(VLVFB + 8, 0),
    ];
    assert!(rt; writes.as_slice() == wanted.as_slice());
    let port = Policy {
        vlans: VlanPolicy::Port(1),
        ..fewer
    };
    let writes = host.admit(pool, &port)?.writes;
    let wanted = [
        write(VMOLR + 4 * 7, 0x0800_0000),
        write(VMVIR + 4 * 7, 0x4000_0064),
        write(VLVFB, 0),
        write(VLVFB + 8, 0x80),
    ];
    assert!(rt; writes.as_slice() == wanted.as_slice());
    let down = Policy {
        link_up: false,
        ..port
    };
    let writes = host.admit(pool, &down)?.writes;
    let wanted = [write(PFVFRE, 0), write(PFVFTE, 0)];
    assert!(rt; writes.as_slice() == wanted.as_slice());
    Ok(())
}

/// A function that is dismissed has nothing: its entries, its flags, and its bits of PFVFRE, PFVFTE and VLVFB are 0. RESET is
/// refused without CTS, and its addresses are free.
#[test]
fn dismisses(rt: HostRuntime) -> Result<(), Fail> {
    let pool = PoolId::new(7).ok_or("no such pool")?;
    let other = PoolId::new(8).ok_or("no such pool")?;
    let mut mailbox = Mailbox::new();
    let mut host = busy(pool, &mut mailbox)?;
    let writes = host.dismiss(pool);
    let wanted = [
        write(RAH + 8 * 7, 0),
        write(RAL + 8 * 7, 0),
        write(RAH + 8 * 71, 0),
        write(RAL + 8 * 71, 0),
        write(VMOLR + 4 * 7, 0),
        write(PFVFRE, 0),
        write(PFVFTE, 0),
        write(VLVFB, 0),
        write(VLVFB + 8, 0),
    ];
    assert!(rt; writes.as_slice() == wanted.as_slice());
    let _ = ask(&mut host, pool, &mut mailbox, [1, 0, 0])?;
    assert_eq!(rt; mailbox.read(VFMBMEM), Some(0x4000_0001));
    assert!(rt; host.admit(other, &policy(0x10)).is_ok());
    let writes = host.dismiss(pool);
    assert_eq!(rt; writes.as_slice().len(), 0);
    Ok(())
}

/// The administrator gives pool 8 the address that the driver of pool 7 uses, and then the one that is its second: pool 7 loses
/// them, uses its permanent one again, and is named. Pool 8 is not up, so that nothing is written for it.
#[test]
fn takes_an_address_that_was_chosen(rt: HostRuntime) -> Result<(), Fail> {
    let pool = PoolId::new(7).ok_or("no such pool")?;
    let other = PoolId::new(8).ok_or("no such pool")?;
    let mut mailbox = Mailbox::new();
    let mut host = busy(pool, &mut mailbox)?;
    let came = host.admit(other, &policy(0x30))?;
    assert_eq!(rt; came.loser, Some(pool));
    let wanted = [write(RAH + 8 * 7, 0), write(RAH + 8 * 7, VALID | 0x1000)];
    assert!(rt; came.lost.as_slice() == wanted.as_slice());
    assert_eq!(rt; came.writes.as_slice().len(), 0);
    let came = host.admit(other, &policy(0x40))?;
    assert_eq!(rt; came.loser, Some(pool));
    let wanted = [write(RAH + 8 * 71, 0), write(RAL + 8 * 71, 0)];
    assert!(rt; came.lost.as_slice() == wanted.as_slice());
    let came = host.admit(other, &policy(0x50))?;
    assert_eq!(rt; came.loser, None);
    Ok(())
}

/// Why a policy is not taken: a group's address, none at all, another function's permanent one, and a port VLAN at a fourth place
/// where there are three.
#[test]
fn not_admitted(rt: HostRuntime) -> Result<(), Fail> {
    let pool = PoolId::new(7).ok_or("no such pool")?;
    let mut mailbox = Mailbox::new();
    let mut host = busy(pool, &mut mailbox)?;
    let other = PoolId::new(8).ok_or("no such pool")?;
    for (wrong, reason) in [
        (
            Policy {
                address: Mac([1, 0, 0x5E, 0, 0, 1]),
                ..policy(0x20)
            },
            NotAdmitted::NotUnicast,
        ),
        (
            Policy {
                address: Mac([0; 6]),
                ..policy(0x20)
            },
            NotAdmitted::NotUnicast,
        ),
        (policy(0x10), NotAdmitted::AddressOwned),
        (
            Policy {
                vlans: VlanPolicy::Port(3),
                ..policy(0x20)
            },
            NotAdmitted::NoSuchPlace,
        ),
    ] {
        match host.admit(other, &wrong) {
            Err(why) => assert_eq!(rt; why, reason),
            Ok(_) => return Err("it was taken".into()),
        }
    }
    Ok(())
}

fn write(offset: u32, value: u32) -> Write {
    Write { offset, value }
}
