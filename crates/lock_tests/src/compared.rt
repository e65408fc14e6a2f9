//! The line of a recorded device, compared with the seat of its guest.
ghost use Rattle.std.specs.Prelude.{◌≡◌};

use device::Event;
use device_lock::{Recorded, Share};
use guest_memory::FlatMem;
use lock_support::{line_of, recorded};
use script_support::registers::{VTEICS, VTEIMS};
use std::alloc::Global;
use std::marker::Brand;
use std::sync::ledger::{Blank, Ledger};
use std::test::Fail;
use test_support::memories;

// Function 0 is opened, and its driver issues the message of vector 0.
const EVENTS: [Event; 3] = [
    Event::Open(0),
    Event::VfWrite(0, VTEIMS, 1),
    Event::VfWrite(0, VTEICS, 1),
];

// How many of these events of the service are kept.
fn kept<L: Ledger>(recorded: &mut Recorded<FlatMem, L>, service: &mut Share<L>) -> usize {
    for event in EVENTS {
        if service.may(event.as_request()) {
            let _ = recorded.record(service, event);
        }
    }
    recorded.kept()
}

// How many are kept once the line was compared, and what the guest takes then, twice.
fn kept_once_compared<L: Ledger>(alloc: Global, blank: Blank) -> Result<(usize, [u8; 2]), Fail>
    requires name { blank.name ≡ L.name }
    requires parts { (blank.parts ≡ L.parts) × (blank.parts ≡ 67) }
{
    let (line, guest) = line_of(alloc, 0)?;
    let memories = memories(alloc, 1, 4096)?;
    let (mut recorded, shares) = recorded::<FlatMem, L>(alloc, blank, line, memories, None, 3)?;
    let mut guest = recorded.beside(guest);
    let mut service = shares.service;
    let kept = kept(&mut recorded, &mut service);
    Ok((kept, [guest.take(), guest.take()]))
}

#[test]
fn a_line_that_is_compared_goes_on(rt: HostRuntime) -> Result<(), Fail> {
    let seen = kept_once_compared::<Brand>(rt.alloc(), Blank::new(67))?;
    assert_eq!(rt; seen, (3, [1, 0]));
    Ok(())
}
