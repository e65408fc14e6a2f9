//! The host's own messages, as Linux's driver of a physical function sends them to have a function's driver look at its link.
use crate::driver::{ask, host, policy, words};
use mailbox::{Mailbox, Notice, Policy, Write};
use script_support::registers::{RAH, RAL, VALID, VFMAILBOX, VFMBMEM, VLVFB, VMOLR};
use std::test::Fail;
use wire_frame::PoolId;

/// Word 0 is 0x100 with CTS (bit 29) where the function is up, and with NACK (bit 30) before; the driver reads PFSTS once. The
/// words after it stay as the last reply left them.
#[test]
fn notifies(rt: HostRuntime) -> Result<(), Fail> {
    let pool = PoolId::new(7).ok_or("no such pool")?;
    let mut host = host()?;
    host.admit(pool, &policy(0x10))?;
    let mut mailbox = Mailbox::new();
    assert_eq!(rt; host.notify(pool, &mut mailbox), Notice::Raises);
    assert_eq!(rt; mailbox.read(VFMBMEM), Some(0x4000_0100));
    assert_eq!(rt; mailbox.read(VFMAILBOX), Some(0x10));
    assert_eq!(rt; mailbox.read(VFMAILBOX), Some(0));
    let _ = ask(&mut host, pool, &mut mailbox, [1, 0, 0])?;
    let _ = mailbox.read(VFMAILBOX);
    assert_eq!(rt; host.notify(pool, &mut mailbox), Notice::Raises);
    assert_eq!(rt;
        words(&mut mailbox),
        [0x2000_0100, 0x9059_8202, 0x1000, 0, 0]
    );
    assert_eq!(rt; mailbox.read(VFMAILBOX), Some(0x10));
    Ok(())
}

/// While the driver has the memory (VFU), and until it has looked for the reply to its message (PFACK), a notice waits, and the
/// mailbox stays as it is. A notice that was not seen yet is no reason to wait.
#[test]
fn waits(rt: HostRuntime) -> Result<(), Fail> {
    let pool = PoolId::new(7).ok_or("no such pool")?;
    let mut host = host()?;
    host.admit(pool, &policy(0x10))?;
    let mut mailbox = Mailbox::new();
    let _ = ask(&mut host, pool, &mut mailbox, [1, 0, 0])?;
    assert_eq!(rt; host.notify(pool, &mut mailbox), Notice::Waits);
    assert_eq!(rt; mailbox.read(VFMBMEM), Some(0x8000_0001));
    assert_eq!(rt; mailbox.read(VFMAILBOX), Some(0x30));
    let _ = mailbox.write(VFMAILBOX, 4);
    assert_eq!(rt; host.notify(pool, &mut mailbox), Notice::Waits);
    assert_eq!(rt; mailbox.read(VFMAILBOX), Some(4));
    let _ = mailbox.write(VFMAILBOX, 2);
    assert_eq!(rt; host.notify(pool, &mut mailbox), Notice::Raises);
    assert_eq!(rt; host.notify(pool, &mut mailbox), Notice::Raises);
    assert_eq!(rt; mailbox.read(VFMBMEM), Some(0x2000_0100));
    Ok(())
}

/// Where the administrator has its link down, the function may neither receive nor transmit, its driver is told so by the reply to
/// GET_LINK_STATE, and a notice has neither CTS nor NACK.
#[test]
fn link_is_down(rt: HostRuntime) -> Result<(), Fail> {
    let pool = PoolId::new(7).ok_or("no such pool")?;
    let mut host = host()?;
    host.admit(
        pool,
        &Policy {
            link_up: false,
            ..policy(0x10)
        },
    )?;
    let mut mailbox = Mailbox::new();
    let writes = ask(&mut host, pool, &mut mailbox, [1, 0, 0])?;
    let wanted = [
        write(RAL + 8 * 7, 0x9059_8202),
        write(RAH + 8 * 7, VALID | 0x1000),
        write(VMOLR + 4 * 7, 0x0900_0000),
        write(VLVFB, 0x80),
    ];
    assert!(rt; writes.as_slice() == wanted.as_slice());
    let _ = ask(&mut host, pool, &mut mailbox, [8, 4, 0])?;
    let _ = ask(&mut host, pool, &mut mailbox, [16, 0, 0])?;
    assert_eq!(rt; words(&mut mailbox), [0xA000_0010, 0, 0, 0, 0]);
    let _ = mailbox.read(VFMAILBOX);
    assert_eq!(rt; host.notify(pool, &mut mailbox), Notice::Raises);
    assert_eq!(rt; mailbox.read(VFMBMEM), Some(0x0000_0100));
    Ok(())
}

fn write(offset: u32, value: u32) -> Write {
    Write { offset, value }
}
