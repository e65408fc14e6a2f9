//! The door to a device that threads share, and a door of a host's own.
ghost use Rattle.std.specs.Prelude.{◌≡◌};

use crate::shelf::{Pumped, end_of, frames_of};
use device::{Answer, Event, Reply};
use device_lock::{Full, Recorded, Share};
use guest_memory::{FlatMem, GuestMem};
use lock_support::{answer, frame_to_3, line_of, locked, opening, recorded, settings};
use shadow::Shadow;
use std::alloc::Global;
use std::marker::Brand;
use std::sync::ledger::{Blank, Ledger};
use std::sync::{Arc, Wait};
use std::test::Fail;
use test_support::memories;
use wire_pump::{Door, FeedEnd, LockedDoor, channel, feed, pump};

// A door to a recorded device, with a share of it. It has the one call that a door needs.
#[derive(Drop)]
struct OwnDoor<M: GuestMem, L: Ledger> {
    recorded: Recorded<M, L>,
    share: Share<L>,
    refused: Option<Shadow<Event>>,
}

impl<M: GuestMem, L: Ledger> Door for OwnDoor<M, L> {
    ghost use Rattle.std.specs.Prelude.{option_map, Some};
    ghost use Rattle.history.specs.Entries.{events};

    ghost taken = { λ door. events door.share.asked };

    ghost calls = { λ door. door.share.asked };

    ghost line = { λ door. Some door.share.line };

    ghost refused = { λ door. option_map (λ event. event.value) door.refused };

    #[tactic(auto, using(crate::proofs::Asked::one_more, crate::proofs::Asked::one_behind, crate::proofs::Asked::none_more))]
    fn act<R: Wait>(&mut self, _rt: &R, event: Event) -> Result<Answer, Full> {
        if !self.share.may(event.as_request()) {
            self.refused = Some(Shadow::of(&event));
            return Err(Full(event));
        }
        match self.recorded.record(&mut self.share, event) {
            Ok(answer) => {
                self.refused = None;
                Ok(answer)
            }
            Err(full) => {
                self.refused = Some(Shadow::of(&full.0));
                Err(full)
            }
        }
    }
}

// Five frames are fed and pumped to a door: how both end.
fn pump_five<D: Door, R: Wait>(
    rt: &R,
    alloc: Global,
    door: &mut D,
) -> Result<(FeedEnd, Pumped), Fail> {
    let (mut sender, mut receiver) = channel(alloc)?;
    let frames = frames_of(alloc, 5).ok_or("no frames")?;
    let fed = feed(&mut sender, rt, &frames);
    Ok((fed, end_of(pump(&mut receiver, rt, door))))
}

// What comes of five frames, how many calls are kept, and how many the pump's share counts.
type Five = ((FeedEnd, Pumped), usize, u64);

// How many calls are kept at most.
const CAP: usize = 3;

// Five frames go to a door of the host's own.
fn own_five<R: Wait, L: Ledger>(rt: &R, alloc: Global, blank: Blank) -> Result<Five, Fail>
    requires name { blank.name ≡ L.name }
    requires parts { (blank.parts ≡ L.parts) × (blank.parts ≡ 67) }
{
    let memories = memories(alloc, 1, 4096)?;
    let (line, _guest) = line_of(alloc, 0)?;
    let (recorded, shares) = recorded::<FlatMem, L>(alloc, blank, line, memories, None, CAP)?;
    let mut door = OwnDoor {
        recorded,
        share: shares.pump,
        refused: None,
    };
    let ends = pump_five(rt, alloc, &mut door)?;
    Ok((ends, door.recorded.kept(), door.share.count()))
}

// Five frames go to the door of a device behind its lock.
fn locked_five<R: Wait, L: Ledger>(rt: &R, alloc: Global, blank: Blank) -> Result<Five, Fail>
    requires name { blank.name ≡ L.name }
    requires parts { (blank.parts ≡ L.parts) × (blank.parts ≡ 67) }
{
    let memories = memories(alloc, 1, 4096)?;
    let (line, _guest) = line_of(alloc, 0)?;
    let (device, shares) = locked::<FlatMem, L>(alloc, blank, line, memories, None, CAP)?;
    let mut door = LockedDoor::new(Arc::try_clone(&device)?, shares.pump);
    let ends = pump_five(rt, alloc, &mut door)?;
    Ok((ends, device.kept(rt), door.into_share().count()))
}

// Three frames are taken, and the pump hands the event of the fourth back.
#[test]
fn a_full_history_ends_the_pump(rt: HostRuntime) -> Result<(), Fail> {
    let due = ((FeedEnd::All, Pumped::Full(3)), 3, 3);
    let own = own_five::<HostRuntime, Brand>(&rt, rt.alloc(), Blank::new(67))?;
    assert_eq!(rt; own, due);
    let locked = locked_five::<HostRuntime, Brand>(&rt, rt.alloc(), Blank::new(67))?;
    assert_eq!(rt; locked, due);
    Ok(())
}

// Whether function 3 is set up by the service, the door answers with its message, and the frame that the door takes stands in its
// buffer then.
fn receives<R: Wait, L: Ledger>(rt: &R, alloc: Global, blank: Blank) -> Result<bool, Fail>
    requires name { blank.name ≡ L.name }
    requires parts { (blank.parts ≡ L.parts) × (blank.parts ≡ 67) }
{
    let (settings, opening, frame) = (settings(alloc)?, opening(alloc)?, frame_to_3()?);
    let memories = memories(alloc, 4, 65_536)?;
    let (line, _guest) = line_of(alloc, 3)?;
    let (device, shares) = locked::<FlatMem, L>(alloc, blank, line, memories, None, 16)?;
    let mut service = shares.service;
    for event in settings {
        let _ = answer(rt, &*device, &mut service, event);
    }
    for event in opening {
        let _ = answer(rt, &*device, &mut service, event);
    }
    let mut door = LockedDoor::new(Arc::try_clone(&device)?, shares.pump);
    let Ok(taken) = door.act(rt, Event::Wire(frame.copy())) else {
        return Ok(false);
    };
    if taken.raised[3] != 1 {
        return Ok(false);
    }
    match answer(rt, &*device, &mut service, Event::MemRead(3, 0x4000, 60)) {
        Some(answer) => match &answer.reply {
            Reply::Bytes(read) => Ok(read.bytes() == frame.bytes()),
            _ => Ok(false),
        },
        None => Ok(false),
    }
}

#[test]
fn the_device_receives_the_frame(rt: HostRuntime) -> Result<(), Fail> {
    assert!(rt; receives::<HostRuntime, Brand>(&rt, rt.alloc(), Blank::new(67))?);
    Ok(())
}
