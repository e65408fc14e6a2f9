//! What the tests share: a host with policies, and a driver that asks.
use mailbox::{Host, Mailbox, Policy, Rang, VlanPolicy, Writes};
use script_support::registers::{VFMAILBOX, VFMBMEM};
use std::test::Fail;
use wire_frame::{FrameLimit, Mac, PoolId, Vid};

/// The ids 0, 100 and 200 at places 0, 1 and 2.
pub fn host() -> Result<Host, Fail> {
    let ids = [Vid::of_tag(0), Vid::of_tag(100), Vid::of_tag(200)];
    let limit = FrameLimit::new(9018).ok_or("no limit")?;
    Ok(Host::new(&ids, None, limit).ok_or("no host")?)
}

/// A policy with the address 02:82:59:90:00:LAST, which may join ids 0 and 100.
pub fn policy(last: u8) -> Policy {
    Policy {
        address: Mac([0x02, 0x82, 0x59, 0x90, 0x00, last]),
        may_choose: false,
        vlans: VlanPolicy::Joins(3),
        all_multicast: false,
        link_up: true,
    }
}

/// The driver of a pool writes three words, takes the memory and rings; the host answers.
pub fn ask(
    host: &mut Host,
    pool: PoolId,
    mailbox: &mut Mailbox,
    words: [u32; 3],
) -> Result<Writes, Fail> {
    let _ = mailbox.write(VFMBMEM, words[0]);
    let _ = mailbox.write(VFMBMEM + 4, words[1]);
    let _ = mailbox.write(VFMBMEM + 8, words[2]);
    let _ = mailbox.write(VFMAILBOX, 4);
    match mailbox.write(VFMAILBOX, 1) {
        Some(Rang::Request) => Ok(host.answer(pool, mailbox)),
        _ => Err("the write did not ring".into()),
    }
}

/// Words 0 to 4 of the memory.
pub fn words(mailbox: &mut Mailbox) -> [u32; 5] {
    [
        mailbox.read(VFMBMEM).unwrap_or(1),
        mailbox.read(VFMBMEM + 4).unwrap_or(1),
        mailbox.read(VFMBMEM + 8).unwrap_or(1),
        mailbox.read(VFMBMEM + 12).unwrap_or(1),
        mailbox.read(VFMBMEM + 16).unwrap_or(1),
    ]
}
