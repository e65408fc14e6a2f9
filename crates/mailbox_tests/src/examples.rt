//! The examples of the documentation of mailbox, which docs/check compares with these.
use mailbox::{Host, Mailbox, Policy, Rang, VlanPolicy};
use script_support::registers::{VFMAILBOX, VFMBMEM};
use std::test::Fail;
use wire_frame::{FrameLimit, Mac, PoolId, Vid};

#[test]
fn example_of_mailbox_new(rt: HostRuntime) {
    let mut mailbox = Mailbox::new();
    // the first word of its memory (VFMBMEM)
    let _ = mailbox.write(VFMBMEM, 7);
    assert!(rt; mailbox.read(VFMBMEM) == Some(7));
    // there is no register beside a word
    assert!(rt; mailbox.read(VFMBMEM + 1).is_none());
}

#[test]
fn example_of_host_answer(rt: HostRuntime) -> Result<(), Fail> {
    let mut host = Host::new(&[Vid::of_tag(0)], None, FrameLimit::standard()).ok_or(
        "too many ids",
    )?;
    let pool = PoolId::new(1).ok_or("no such pool")?;
    let policy = Policy {
        address: Mac([2, 0, 0, 0, 0, 1]),
        may_choose: false,
        vlans: VlanPolicy::Joins(1),
        all_multicast: false,
        link_up: true,
    };
    host.admit(pool, &policy)?;
    // the driver asks for a reset (VFMBMEM), takes the mailbox and rings (VFMAILBOX)
    let mut mailbox = Mailbox::new();
    let _ = mailbox.write(VFMBMEM, 1);
    let _ = mailbox.write(VFMAILBOX, 4);
    assert!(rt; mailbox.write(VFMAILBOX, 1) == Some(Rang::Request));
    let writes = host.answer(pool, &mut mailbox);
    // it succeeded, and the address follows
    assert!(rt; mailbox.read(VFMBMEM) == Some(0x8000_0001));
    assert!(rt; mailbox.read(VFMBMEM + 4) == Some(2));
    assert!(rt; !writes.as_slice().is_empty());
    Ok(())
}
