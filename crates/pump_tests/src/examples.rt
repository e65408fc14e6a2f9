//! The example of the documentation of wire_pump, which docs/check compares with this.
ghost use Rattle.std.specs.Prelude.{◌≡◌};

use crate::shelf::{Pumped, end_of, frames_of};
use guest_memory::FlatMem;
use lock_support::{line_of, locked};
use std::alloc::Global;
use std::marker::Brand;
use std::sync::Wait;
use std::sync::ledger::{Blank, Ledger};
use std::test::Fail;
use test_support::memories;
use wire_pump::{LockedDoor, channel, feed, pump};

// How a pump ends to which three frames come, and how many calls its share counts.
fn example_of_pump<L: Ledger, R: Wait>(
    rt: &R,
    alloc: Global,
    blank: Blank,
) -> Result<(Pumped, u64), Fail>
    requires name { blank.name ≡ L.name }
    requires parts { (blank.parts ≡ L.parts) × (blank.parts ≡ 67) }
{
    let (line, _guest) = line_of(alloc, 0)?;
    let memories = memories(alloc, 1, 4096)?;
    let (device, shares) = locked::<FlatMem, L>(alloc, blank, line, memories, None, 16)?;
    let frames = frames_of(alloc, 3).ok_or("no frames")?;
    let mut door = LockedDoor::new(device, shares.pump);
    let (mut sender, mut receiver) = channel(alloc)?;
    let _fed = feed(&mut sender, rt, &frames);
    let end = pump(&mut receiver, rt, &mut door);
    let share = door.into_share();
    Ok((end_of(end), share.count()))
}

#[test]
fn three_frames_are_pumped(rt: HostRuntime) -> Result<(), Fail> {
    let pumped = example_of_pump::<Brand, HostRuntime>(&rt, rt.alloc(), Blank::new(67))?;
    assert_eq!(rt; pumped, (Pumped::Last, 3));
    Ok(())
}
