//! Reports of a recorded device that made six calls, beside devices that do and don't give its answers.
ghost use Rattle.std.specs.Prelude.{◌≡◌};

use device::{Device, Event};
use device_lock::{Recorded, Share, Shares};
use guest_memory::{FlatMem, GuestMem};
use lock_support::{frame_to_3, line_of, recorded};
use modes::report::write_report;
use script_support::registers::{PF_VT_CTL, VTEIMS};
use std::alloc::Global;
use std::marker::Brand;
use std::sync::ledger::{Blank, Ledger};
use std::test::Fail;
use test_support::memories;

// The report where the other device gives the kept answers.
const SAME: &str =
    "history 6\ncaller port1 2\ncaller pf 1\ncaller pump 1\ncaller service 2\nreplay ok\n";

// The same where it doesn't.
const OTHER: &str =
    "history 6\ncaller port1 2\ncaller pf 1\ncaller pump 1\ncaller service 2\nreplay differs\n";

// Records an event, where the caller may make it and there is room.
fn record<M: GuestMem, L: Ledger>(
    recorded: &mut Recorded<M, L>,
    share: &mut Share<L>,
    event: Event,
) -> bool {
    share.may(event.as_request()) && recorded.record(share, event).is_ok()
}

// Records six calls of four callers. Answers the shares of all.
fn record_all<M: GuestMem, L: Ledger>(
    alloc: Global,
    recorded: &mut Recorded<M, L>,
    mut shares: Shares<L>,
) -> Result<Vec<Share<L>>, Fail> {
    let mut port = shares.port(1).ok_or("no share of port 1")?;
    let frame = frame_to_3()?;
    let is_recorded = record(recorded, &mut shares.service, Event::Open(0))
        && record(recorded, &mut shares.service, Event::Open(1))
        && record(recorded, &mut port, Event::VfWrite(1, VTEIMS, 7))
        && record(recorded, &mut port, Event::VfRead(1, 0x10))
        && record(recorded, &mut shares.pf, Event::PfRead(PF_VT_CTL))
        && record(recorded, &mut shares.pump, Event::Wire(frame));
    if !is_recorded {
        return Err("a call was not recorded".into());
    }
    let mut all = Vec::new(alloc);
    shares.put_back(&mut all)?;
    all.push(port)?;
    Ok(all)
}

// What is written of a device that made the six calls, beside one that took that event before.
fn reported<L: Ledger>(alloc: Global, blank: Blank, before: Option<Event>) -> Result<Vec<u8>, Fail>
    requires name { blank.name ≡ L.name }
    requires parts { (blank.parts ≡ L.parts) × (blank.parts ≡ 67) }
{
    let mut other = Device::new(alloc, memories(alloc, 2, 4096)?)?;
    if let Some(event) = before {
        let _ = other.step(&event);
    }
    let live = memories(alloc, 2, 4096)?;
    let (line, _guest) = line_of(alloc, 1)?;
    let (mut recorded, shares) = recorded::<FlatMem, L>(alloc, blank, line, live, None, 6)?;
    let shares = record_all(alloc, &mut recorded, shares)?;
    if shares.len() != 67 {
        return Err("not all shares".into());
    }
    let mut written = Vec::new(alloc);
    write_report(alloc, &mut recorded, shares, &mut other, &mut written)?;
    Ok(written)
}

#[test]
fn a_device_as_it_is_made_gives_the_answers(rt: HostRuntime) -> Result<(), Fail> {
    let written = reported::<Brand>(rt.alloc(), Blank::new(67), None)?;
    assert!(rt; written.as_slice() == SAME.as_bytes());
    Ok(())
}

#[test]
fn a_device_with_an_open_function_gives_others(rt: HostRuntime) -> Result<(), Fail> {
    let written = reported::<Brand>(rt.alloc(), Blank::new(67), Some(Event::Open(1)))?;
    assert!(rt; written.as_slice() == OTHER.as_bytes());
    Ok(())
}

// A reset of the physical function changes nothing of a device as it is made.
#[test]
fn a_device_that_was_reset_gives_the_answers(rt: HostRuntime) -> Result<(), Fail> {
    let written = reported::<Brand>(rt.alloc(), Blank::new(67), Some(Event::PfReset))?;
    assert!(rt; written.as_slice() == SAME.as_bytes());
    Ok(())
}
