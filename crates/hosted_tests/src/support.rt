//! What the tests share: a hosted device of vacant functions, and a driver.
use hosted::HostedDevice;
use live_memory::Shared;
use mailbox::{Notice, Policy, VlanPolicy};
use mapped_memory::LiveMem;
use offload::Offloads;
use script_support::registers::{VFMAILBOX, VFMBMEM};
use std::alloc::Global;
use std::test::Fail;
use wire_frame::{FrameLimit, Mac, PoolId, Vid};

/// A device over memories that are the guests'.
pub type Hosted<'a> = HostedDevice<LiveMem<'a>, Shared>;

/// A device of two vacant functions, whose policies may name the VLANs 0 and 100.
pub fn vacant(alloc: Global) -> Result<Hosted<'static>, Fail> {
    let mut memories = Vec::new(alloc);
    for _ in 0..2 {
        memories.push(LiveMem::for_guest(alloc, 0)?)?;
    }
    let ids = [Vid::of_tag(0), Vid::of_tag(100)];
    Ok(HostedDevice::for_guests(
        alloc,
        memories,
        &ids,
        None,
        FrameLimit::standard(),
        Offloads::none(),
    )?)
}

/// The pool of a number.
pub fn pool(number: u8) -> Result<PoolId, Fail> {
    Ok(PoolId::new(number).ok_or("no such pool")?)
}

/// A policy with the address 02:82:59:90:00:LAST, which may join VLAN 0.
pub fn policy(last: u8) -> Policy {
    Policy {
        address: Mac([0x02, 0x82, 0x59, 0x90, 0x00, last]),
        may_choose: false,
        vlans: VlanPolicy::Joins(1),
        all_multicast: false,
        link_up: true,
    }
}

/// A driver writes a word into its mailbox, takes it and rings; then it reads the first word.
pub fn ask(hosted: &mut Hosted<'_>, function: u8, word: u32) -> Option<u32> {
    let writes = [(VFMBMEM, word), (VFMAILBOX, 4), (VFMAILBOX, 1)];
    for (offset, value) in writes {
        if hosted.vf_write(function, offset, value).is_err() {
            return None;
        }
    }
    hosted.vf_read(function, VFMBMEM).ok()
}

/// What came of the host's own message: whether it stands, and the vectors whose messages it issued.
pub fn told(hosted: &mut Hosted<'_>, pool: PoolId) -> (Notice, u8) {
    let notified = hosted.notify(pool);
    (notified.notice, notified.vectors.bits())
}
