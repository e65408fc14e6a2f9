//! Histories that are full, and bases that are moved.
ghost use Rattle.std.specs.Prelude.{◌≡◌};

use device::{Answer, Device, Event, Reply};
use device_lock::{CALLERS, Caller, Full, Recorded, Share, Shares};
use guest_memory::FlatMem;
use irq_line::GuestSeat;
use lock_support::{is_scripted, line_of, recorded, script};
use script_support::registers::{VFGPRC, VTEIMS};
use std::alloc::Global;
use std::marker::Brand;
use std::sync::ledger::{Blank, Ledger};
use std::test::Fail;
use test_support::memories;

// One event of the service, which is answered. Where the history is full it comes back.
fn ask<L: Ledger>(
    recorded: &mut Recorded<FlatMem, L>,
    service: &mut Share<L>,
    event: Event,
) -> Result<Answer, Full> {
    if !service.may(event.as_request()) {
        return Err(Full(event));
    }
    recorded.record(service, event)
}

// The fault that an event is refused with.
fn refused(answer: Result<Answer, Full>) -> Option<u8> {
    match answer {
        Ok(answer) => match answer.reply {
            Reply::Refused(number) => Some(number),
            _ => None,
        },
        Err(_) => None,
    }
}

// The pool that an event opens which came back.
fn handed_back(answer: Result<Answer, Full>) -> Option<u8> {
    match answer {
        Err(Full(Event::Open(pool))) => Some(pool),
        _ => None,
    }
}

// Whether two calls are answered, and the pool that the third would open, which comes back.
fn asked_thrice<L: Ledger>(
    recorded: &mut Recorded<FlatMem, L>,
    service: &mut Share<L>,
) -> (bool, bool, Option<u8>) {
    let first = ask(recorded, service, Event::Open(0)).is_ok();
    let second = ask(recorded, service, Event::VfWrite(0, VTEIMS, 1)).is_ok();
    (
        first,
        second,
        handed_back(ask(recorded, service, Event::Open(1))),
    )
}

// How many calls are kept, how many were folded, and how many the service made.
fn counts<L: Ledger>(recorded: &Recorded<FlatMem, L>, service: &Share<L>) -> (usize, usize, u64) {
    (recorded.kept(), recorded.folded(), service.count())
}

// What three calls come to; the counts; whether another device gives the kept answers; by how many calls the base moves, and what a
// read of function 1 is refused with then; and the counts and the other device again.
type Third = (
    (bool, bool, Option<u8>),
    (usize, usize, u64),
    bool,
    (Option<usize>, Option<u8>),
    (usize, usize, u64),
    bool,
);

fn third<L: Ledger>(
    recorded: &mut Recorded<FlatMem, L>,
    service: &mut Share<L>,
    other: &mut Device<FlatMem>,
) -> Third {
    let asked = asked_thrice(recorded, service);
    let before = counts(recorded, service);
    let is_replayed = recorded.replays(other);
    let moved = recorded.rebase();
    let closed = refused(ask(recorded, service, Event::VfRead(1, VFGPRC)));
    let after = counts(recorded, service);
    (
        asked,
        before,
        is_replayed,
        (moved, closed),
        after,
        recorded.replays(other),
    )
}

// The same of a device of which two calls are kept.
fn third_of_two<L: Ledger>(alloc: Global, blank: Blank) -> Result<Third, Fail>
    requires name { blank.name ≡ L.name }
    requires parts { (blank.parts ≡ L.parts) × (blank.parts ≡ 67) }
{
    let (line, _guest) = line_of(alloc, 0)?;
    let live = memories(alloc, 8, 65_536)?;
    let twins = Some(memories(alloc, 8, 65_536)?);
    let mut other = Device::new(alloc, memories(alloc, 8, 65_536)?)?;
    let (mut recorded, shares) = recorded::<FlatMem, L>(alloc, blank, line, live, twins, 2)?;
    let mut service = shares.service;
    Ok(third(&mut recorded, &mut service, &mut other))
}

// Two calls can be kept, and the third comes back. It has done nothing: function 1 is closed, once the base is moved, and in
// a device that was stepped through the history.
#[test]
fn the_third_of_two_comes_back(rt: HostRuntime) -> Result<(), Fail> {
    let seen = third_of_two::<Brand>(rt.alloc(), Blank::new(67))?;
    let due = (
        (true, true, Some(1)),
        (2, 0, 2),
        true,
        (Some(2), Some(2)),
        (1, 2, 3),
        true,
    );
    assert_eq!(rt; seen, due);
    Ok(())
}

// The script's events, of which four calls are kept at most: where the history is full the base moves by its four,
// and there is room. The guest takes after each. How many bases were moved, and the sum of the takes; none where an answer is another.
fn moves<L: Ledger>(
    recorded: &mut Recorded<FlatMem, L>,
    service: &mut Share<L>,
    guest: &mut GuestSeat,
    events: Vec<Event>,
) -> Option<(u32, u32)> {
    let mut index = 0usize;
    let mut bases = 0u32;
    let mut taken = 0u32;
    for event in events {
        let answer = match ask(recorded, service, event) {
            Ok(answer) => answer,
            Err(Full(event)) => {
                if recorded.rebase() != Some(4) {
                    return None;
                }
                bases = bases.wrapping_add(1);
                ask(recorded, service, event).ok()?
            }
        };
        if !is_scripted(index, &answer) {
            return None;
        }
        taken = taken.wrapping_add(u32::from(guest.take()));
        index = index.wrapping_add(1);
    }
    Some((bases, taken))
}

// The service's part of the tally of all shares, of which none was handed out.
fn service_of<L: Ledger>(
    alloc: Global,
    recorded: &mut Recorded<FlatMem, L>,
    shares: Shares<L>,
) -> Result<Option<u64>, Fail> {
    let mut all = Vec::with_capacity(alloc, CALLERS)?;
    shares.put_back(&mut all)?;
    match recorded.gather(all) {
        Some(tally) => Ok(Some(tally.entries[usize::from(Caller::Service.number())])),
        None => Ok(None),
    }
}

// The bases that were moved and the sum of the takes; how many calls are kept and were folded; whether another device gives the kept
// answers; and how many calls the service made.
type Moved = (Option<(u32, u32)>, (usize, usize), bool, Option<u64>);

fn moved<L: Ledger>(
    alloc: Global,
    recorded: &mut Recorded<FlatMem, L>,
    mut shares: Shares<L>,
    guest: &mut GuestSeat,
    other: &mut Device<FlatMem>,
) -> Result<Moved, Fail> {
    let events = script(alloc)?;
    let bases = moves(recorded, &mut shares.service, guest, events);
    let left = (recorded.kept(), recorded.folded());
    let is_replayed = recorded.replays(other);
    Ok((
        bases,
        left,
        is_replayed,
        service_of(alloc, recorded, shares)?,
    ))
}

// The same of a device of which four calls are kept.
fn moved_bases<L: Ledger>(alloc: Global, blank: Blank) -> Result<Moved, Fail>
    requires name { blank.name ≡ L.name }
    requires parts { (blank.parts ≡ L.parts) × (blank.parts ≡ 67) }
{
    let (line, mut guest) = line_of(alloc, 3)?;
    let live = memories(alloc, 8, 65_536)?;
    let twins = Some(memories(alloc, 8, 65_536)?);
    let mut other = Device::new(alloc, memories(alloc, 8, 65_536)?)?;
    let (mut recorded, shares) = recorded::<FlatMem, L>(alloc, blank, line, live, twins, 4)?;
    moved(alloc, &mut recorded, shares, &mut guest, &mut other)
}

// The whole script, of which four calls are kept at most: 18 events move the base four times. The frame's message comes once,
// also where a base moves past the frame. A fresh device gives other answers to the last two events.
#[test]
fn the_base_moves_at_each_full_history(rt: HostRuntime) -> Result<(), Fail> {
    let seen = moved_bases::<Brand>(rt.alloc(), Blank::new(67))?;
    assert_eq!(rt; seen, (Some((4, 1)), (2, 16), false, Some(18)));
    Ok(())
}
