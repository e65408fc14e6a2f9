//! What comes of a call of a device behind its lock that can keep no more.
ghost use Rattle.std.specs.Prelude.{◌≡◌};

use device::{Event, Request, Room};
use device_lock::{LockedDevice, Share, WhenFull};
use guest_memory::FlatMem;
use lock_support::{answer, line_of, locked};
use std::alloc::Global;
use std::marker::Brand;
use std::sync::Wait;
use std::sync::ledger::{Blank, Ledger};
use std::test::Fail;
use test_support::memories;

// Whether the second of two calls is made, and how many calls are kept and were folded then, and the service made.
type Second = (bool, (usize, usize), u64);

fn second<R: Wait, L: Ledger>(
    rt: &R,
    device: &LockedDevice<FlatMem, L>,
    service: &mut Share<L>,
    when_full: WhenFull,
) -> Second {
    let _ = answer(rt, device, service, Event::Open(0));
    let request = Request::End(0);
    let is_made = service.may(request)
        && device
            .act_request(rt, service, request, &mut Room::new(), when_full)
            .is_some();
    (
        is_made,
        device.kept_and_folded(rt, service),
        service.count(),
    )
}

// The same of a device of which one call is kept.
fn second_of_one<R: Wait, L: Ledger>(
    rt: &R,
    alloc: Global,
    blank: Blank,
    has_twin: bool,
    when_full: WhenFull,
) -> Result<Second, Fail>
    requires name { blank.name ≡ L.name }
    requires parts { (blank.parts ≡ L.parts) × (blank.parts ≡ 67) }
{
    let (line, _guest) = line_of(alloc, 0)?;
    let live = memories(alloc, 1, 4096)?;
    let twins = if has_twin {
        Some(memories(alloc, 1, 4096)?)
    } else {
        None
    };
    let (device, shares) = locked::<FlatMem, L>(alloc, blank, line, live, twins, 1)?;
    let mut service = shares.service;
    Ok(second(rt, &*device, &mut service, when_full))
}

// Whether there is a twin to move the base by, what is asked for where the history is full, and what comes of it.
const ROWS: [(bool, WhenFull, Second); 3] = [
    (true, WhenFull::Refuse, (false, (1, 0), 1)),
    (true, WhenFull::Fold, (true, (1, 1), 2)),
    (false, WhenFull::Fold, (false, (1, 0), 1)),
];

#[test]
fn a_full_history_is_folded_where_that_is_asked_for(rt: HostRuntime) -> Result<(), Fail> {
    for (has_twin, when_full, due) in ROWS {
        let seen = second_of_one::<HostRuntime, Brand>(
            &rt,
            rt.alloc(),
            Blank::new(67),
            has_twin,
            when_full,
        )?;
        assert_eq!(rt; seen, due);
    }
    Ok(())
}
