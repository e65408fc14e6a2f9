//! A recorded device that is taken out of its lock.
ghost use Rattle.std.specs.Prelude.{◌≡◌};

use device::{Device, Event};
use device_lock::LockedDevice;
use guest_memory::FlatMem;
use lock_support::{answer, line_of, locked};
use std::alloc::Global;
use std::marker::Brand;
use std::sync::ledger::{Blank, Ledger};
use std::sync::{Arc, Wait};
use std::test::Fail;
use test_support::memories;

// Whether it can be taken out while somebody else has it too; and then how many calls are kept, and whether another device gives
// their answers.
fn taken_out<R: Wait, L: Ledger>(
    rt: &R,
    alloc: Global,
    blank: Blank,
) -> Result<(bool, Option<(usize, bool)>), Fail>
    requires name { blank.name ≡ L.name }
    requires parts { (blank.parts ≡ L.parts) × (blank.parts ≡ 67) }
{
    let mut other = Device::new(alloc, memories(alloc, 1, 4096)?)?;
    let memories = memories(alloc, 1, 4096)?;
    let (line, _guest) = line_of(alloc, 0)?;
    let (device, shares) = locked::<FlatMem, L>(alloc, blank, line, memories, None, 4)?;
    let mut service = shares.service;
    let _ = answer(rt, &*device, &mut service, Event::Open(0));
    let too_early = LockedDevice::into_recorded(Arc::try_clone(&device)?).is_some();
    match LockedDevice::into_recorded(device) {
        Some(recorded) => Ok((
            too_early,
            Some((recorded.kept(), recorded.replays(&mut other))),
        )),
        None => Ok((too_early, None)),
    }
}

#[test]
fn the_last_owner_takes_it_out(rt: HostRuntime) -> Result<(), Fail> {
    let seen = taken_out::<HostRuntime, Brand>(&rt, rt.alloc(), Blank::new(67))?;
    assert_eq!(rt; seen, (false, Some((1, true))));
    Ok(())
}
