//! Second addresses, as Linux's and DPDK's drivers ask for them: SET_MACVLAN, by the number in bits 23:16 of word 0.
use crate::driver::{ask, host, policy};
use mailbox::{Mailbox, Policy, Write};
use script_support::registers::{RAH, RAL, VALID, VFMBMEM};
use std::test::Fail;
use wire_frame::PoolId;

/// DPDK adds by number 2 and removes by number 0; Linux counts from 1 on. Each line is a message, word 0 of its reply, and how many
/// registers are written. One is added, and once more; there is no room for another, and the one is kept; all are given up; the
/// other is added; number 1 replaces it; number 1 with an address that another function has is refused, and what there was has
/// gone; the next number finds room.
#[test]
fn numbers_of_a_second_address(rt: HostRuntime) -> Result<(), Fail> {
    let pool = PoolId::new(7).ok_or("no such pool")?;
    let other = PoolId::new(8).ok_or("no such pool")?;
    let mut host = host()?;
    host.admit(other, &policy(0x20))?;
    host.admit(
        pool,
        &Policy {
            may_choose: true,
            ..policy(0x10)
        },
    )?;
    let mut mailbox = Mailbox::new();
    let _ = ask(&mut host, pool, &mut mailbox, [1, 0, 0])?;
    for (message, head, count) in [
        ([0x2_0006, 0x9059_8202, 0x4000], 0xA002_0006, 2),
        ([0x2_0006, 0x9059_8202, 0x4000], 0xA002_0006, 0),
        ([0x2_0006, 0x9059_8202, 0x5000], 0x6002_0006, 0),
        ([0x3_0006, 0x9059_8202, 0x4000], 0xA003_0006, 0),
        ([6, 0, 0], 0xA000_0006, 2),
        ([6, 0, 0], 0xA000_0006, 0),
        ([0x2_0006, 0x9059_8202, 0x5000], 0xA002_0006, 2),
        ([0x1_0006, 0x9059_8204, 0x6000], 0xA001_0006, 3),
        ([0x1_0006, 0x9059_8202, 0x2000], 0x6001_0006, 2),
        ([0xFF_0006, 0x9059_8202, 0x7000], 0xA0FF_0006, 2),
    ] {
        let writes = ask(&mut host, pool, &mut mailbox, message)?;
        assert_eq!(rt; mailbox.read(VFMBMEM), Some(head));
        assert_eq!(rt; writes.as_slice().len(), count);
    }
    Ok(())
}

/// The entry of a second address is 64 above the pool's own: it is written by number 2, and emptied by a number 1 that is refused,
/// since a group's address is no station's.
#[test]
fn entry_of_a_second_address(rt: HostRuntime) -> Result<(), Fail> {
    let pool = PoolId::new(7).ok_or("no such pool")?;
    let mut host = host()?;
    host.admit(
        pool,
        &Policy {
            may_choose: true,
            ..policy(0x10)
        },
    )?;
    let mut mailbox = Mailbox::new();
    let _ = ask(&mut host, pool, &mut mailbox, [1, 0, 0])?;
    let writes = ask(
        &mut host,
        pool,
        &mut mailbox,
        [0x2_0006, 0x9059_8202, 0x4000],
    )?;
    let wanted = [
        write(RAL + 8 * 71, 0x9059_8202),
        write(RAH + 8 * 71, VALID | 0x4000),
    ];
    assert!(rt; writes.as_slice() == wanted.as_slice());
    let writes = ask(&mut host, pool, &mut mailbox, [0x1_0006, 0x01, 0x4000])?;
    let wanted = [write(RAH + 8 * 71, 0), write(RAL + 8 * 71, 0)];
    assert!(rt; writes.as_slice() == wanted.as_slice());
    Ok(())
}

fn write(offset: u32, value: u32) -> Write {
    Write { offset, value }
}
