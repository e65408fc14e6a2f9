//! Refusals.
use crate::driver::{ask, host, policy};
use mailbox::{Mailbox, Policy, VlanPolicy};
use script_support::registers::VFMBMEM;
use std::test::Fail;
use wire_frame::PoolId;

/// What a function with these rights is refused, by word 0 of the reply: another address, a group's, a second address, VLAN 200,
/// a frame of 9023 bytes, API 1.4 and 2.0, queues and modes before an API is agreed on, and types that there are not.
#[test]
fn refuses(rt: HostRuntime) -> Result<(), Fail> {
    let pool = PoolId::new(7).ok_or("no such pool")?;
    let mut host = host()?;
    host.admit(pool, &policy(0x10))?;
    let mut mailbox = Mailbox::new();
    let _ = ask(&mut host, pool, &mut mailbox, [1, 0, 0])?;
    for (message, head) in [
        ([2, 0x9059_8202, 0x1100], 0x6000_0002),
        ([2, 0x9059_8203, 0x1000], 0x6000_0002),
        ([0x1_0006, 0x9059_8202, 0x1100], 0x6001_0006),
        ([0x2_0006, 0x9059_8202, 0x1000], 0x6002_0006),
        ([0x1_0004, 200, 0], 0x6001_0004),
        ([0x1_0004, 300, 0], 0x6001_0004),
        ([5, 9023, 0], 0x6000_0005),
        ([8, 1, 0], 0x6000_0008),
        ([8, 5, 0], 0x6000_0008),
        ([9, 0, 0], 0x6000_0009),
        ([12, 1, 0], 0x6000_000C),
        ([16, 0, 0], 0x6000_0010),
        ([10, 0, 0], 0x6000_000A),
        ([0x8000_0010, 0, 0], 0x6000_0010),
    ] {
        let writes = ask(&mut host, pool, &mut mailbox, message)?;
        assert_eq!(rt; mailbox.read(VFMBMEM), Some(head));
        assert_eq!(rt; writes.as_slice().len(), 0);
    }
    Ok(())
}

/// A function that may choose gets an address that nobody has, and not one that another has, be it the other's permanent one or
/// one that it chose.
#[test]
fn addresses_are_one_functions(rt: HostRuntime) -> Result<(), Fail> {
    let first = PoolId::new(0).ok_or("no such pool")?;
    let second = PoolId::new(63).ok_or("no such pool")?;
    let mut host = host()?;
    host.admit(
        first,
        &Policy {
            may_choose: true,
            ..policy(0x10)
        },
    )?;
    host.admit(
        second,
        &Policy {
            may_choose: true,
            ..policy(0x20)
        },
    )?;
    let mut mailbox = Mailbox::new();
    let _ = ask(&mut host, first, &mut mailbox, [1, 0, 0])?;
    let _ = ask(&mut host, second, &mut mailbox, [1, 0, 0])?;
    for (pool, message, head) in [
        (first, [2, 0x9059_8202, 0x2000], 0x6000_0002),
        (first, [2, 0x9059_8202, 0x3000], 0xA000_0002),
        (second, [2, 0x9059_8202, 0x3000], 0x6000_0002),
        (second, [0x1_0006, 0x9059_8202, 0x3000], 0x6001_0006),
        (second, [0x1_0006, 0x9059_8202, 0x1000], 0x6001_0006),
        (second, [0x1_0006, 0x9059_8202, 0x4000], 0xA001_0006),
    ] {
        let _ = ask(&mut host, pool, &mut mailbox, message)?;
        assert_eq!(rt; mailbox.read(VFMBMEM), Some(head));
    }
    Ok(())
}

/// Before RESET every message is refused, without CTS; and RESET too where no policy names the function.
#[test]
fn before_reset(rt: HostRuntime) -> Result<(), Fail> {
    let pool = PoolId::new(3).ok_or("no such pool")?;
    let mut host = host()?;
    let mut mailbox = Mailbox::new();
    let writes = ask(&mut host, pool, &mut mailbox, [1, 0, 0])?;
    assert_eq!(rt; mailbox.read(VFMBMEM), Some(0x4000_0001));
    assert_eq!(rt; writes.as_slice().len(), 0);
    host.admit(pool, &policy(0x10))?;
    for (message, head) in [
        ([2, 0x9059_8202, 0x1000], 0x4000_0002),
        ([3, 0, 0], 0x4000_0003),
        ([0x1_0004, 0, 0], 0x4001_0004),
        ([5, 1522, 0], 0x4000_0005),
        ([6, 0, 0], 0x4000_0006),
        ([8, 4, 0], 0x4000_0008),
        ([9, 0, 0], 0x4000_0009),
        ([12, 1, 0], 0x4000_000C),
        ([16, 0, 0], 0x4000_0010),
        ([0x2000_0001, 0, 0], 0x4000_0001),
    ] {
        let writes = ask(&mut host, pool, &mut mailbox, message)?;
        assert_eq!(rt; mailbox.read(VFMBMEM), Some(head));
        assert_eq!(rt; writes.as_slice().len(), 0);
    }
    Ok(())
}

/// By the version that was agreed on: at 1.1 there are queues, and neither modes nor the link; from 1.2 on modes 2 and 3 become
/// mode 1, where the policy does not have all multicast. With a port VLAN no VLAN is joined, and none is left.
#[test]
fn by_version_and_policy(rt: HostRuntime) -> Result<(), Fail> {
    let pool = PoolId::new(3).ok_or("no such pool")?;
    let mut host = host()?;
    host.admit(
        pool,
        &Policy {
            vlans: VlanPolicy::Port(1),
            ..policy(0x10)
        },
    )?;
    let mut mailbox = Mailbox::new();
    let _ = ask(&mut host, pool, &mut mailbox, [1, 0, 0])?;
    for (message, head, first) in [
        ([8, 2, 0], 0xA000_0008, 2),
        ([9, 0, 0], 0xA000_0009, 2),
        ([12, 1, 0], 0x6000_000C, 1),
        ([16, 0, 0], 0x6000_0010, 0),
        ([8, 3, 0], 0xA000_0008, 3),
        ([12, 3, 0], 0xA000_000C, 1),
        ([12, 2, 0], 0xA000_000C, 1),
        ([16, 0, 0], 0xA000_0010, 1),
        ([0x1_0004, 100, 0], 0x6001_0004, 100),
        ([0x0000_0004, 0, 0], 0x6000_0004, 0),
    ] {
        let _ = ask(&mut host, pool, &mut mailbox, message)?;
        assert_eq!(rt; mailbox.read(VFMBMEM), Some(head));
        assert_eq!(rt; mailbox.read(VFMBMEM + 4), Some(first));
    }
    Ok(())
}

/// Where the policy has all multicast, mode 2 is granted, and there is no mode 3.
#[test]
fn all_multicast(rt: HostRuntime) -> Result<(), Fail> {
    let pool = PoolId::new(3).ok_or("no such pool")?;
    let mut host = host()?;
    host.admit(
        pool,
        &Policy {
            all_multicast: true,
            ..policy(0x10)
        },
    )?;
    let mut mailbox = Mailbox::new();
    let _ = ask(&mut host, pool, &mut mailbox, [1, 0, 0])?;
    let _ = ask(&mut host, pool, &mut mailbox, [8, 3, 0])?;
    let _ = ask(&mut host, pool, &mut mailbox, [12, 3, 0])?;
    assert_eq!(rt; mailbox.read(VFMBMEM), Some(0x6000_000C));
    let writes = ask(&mut host, pool, &mut mailbox, [12, 2, 0])?;
    assert_eq!(rt; mailbox.read(VFMBMEM), Some(0xA000_000C));
    assert_eq!(rt;
        writes.as_slice().first().map(|write| write.value),
        Some(0x1900_0000)
    );
    assert_eq!(rt; writes.as_slice().len(), 1);
    Ok(())
}
