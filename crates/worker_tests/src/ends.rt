//! Ports that are dropped, and what the service records of them.
ghost use Rattle.std.specs.Prelude.{◌≡◌};

use crate::stage::{Begun, Port, SET_UP_EVENTS, Seen, Setting, begin, done, ran, read, setting_of};
use device::{Answer, Event, Reply};
use device_lock::{Caller, LockedDevice, Share};
use guest_memory::FlatMem;
use guest_port::{EndNote, IrqPort};
use lock_support::{answer, frame_to_3, line_of};
use log::sink::Discard;
use script::Script;
use script_support::registers::VFLINKS;
use std::alloc::Global;
use std::marker::Brand;
use std::sync::ledger::{Blank, Ledger};
use std::sync::{Arc, Wait};
use std::test::Fail;
use std::thread::Threads;
use wire_frame::Fault;
use workers::{OpenGate, sweep, sweep_into};

// What VFLINKS reads of a link that is up at 10 Gb/s (82599 datasheet, link status).
const LINK_UP: u32 = 0x7000_0000;

// What is seen of a port that is dropped: whether its note knew the end before and after, how many ends are swept, whether a
// frame for its function is done then and issues no message, and how many calls are kept in the end.
type Dropped = (bool, bool, Option<usize>, bool, usize);

// Whether a port reads so many times that its link is up.
fn reads<L: Ledger, R: Wait>(rt: &R, port: &mut Port<L>, calls: usize) -> bool {
    for _ in 0..calls {
        if port.reg_read(rt, VFLINKS) != Ok(LINK_UP) {
            return false;
        }
    }
    true
}

// Makes some calls by a port, drops it, sweeps, and lets a frame come for its function.
fn dropped_after<L: Ledger, R: Wait>(
    rt: &R,
    alloc: Global,
    blank: Blank,
    calls: usize,
) -> Result<Dropped, Fail>
    requires name { blank.name ≡ L.name }
    requires parts { (blank.parts ≡ L.parts) × (blank.parts ≡ 67) }
{
    let Begun {
        device,
        shares,
        mut port,
        mut note,
    } = begin::<L, R>(rt, alloc, blank)?;
    let mut service = shares.service;
    if !reads(rt, &mut port, calls) {
        return Err(Fail::from("another value"));
    }
    let before = note.ended();
    drop(port);
    let after = note.ended();
    let mut notes = Vec::new(alloc);
    notes.push((3, note))?;
    let swept = sweep(rt, &mut notes, &device, &mut service).ok();
    let frame = answer(rt, &*device, &mut service, Event::Wire(frame_to_3()?));
    Ok((before, after, swept, is_silent(frame), device.kept(rt)))
}

// Whether an event is done and issues no message.
fn is_silent(answer: Option<Answer>) -> bool {
    match answer {
        Some(answer) => answer.reply == Reply::Done
            && answer.raised.as_slice() == [0; 64].as_slice(),
        None => false,
    }
}

// Wherever a port is dropped, its calls are kept, the service records its end once, and a frame finds its function closed.
#[test]
fn drop_anywhere(rt: HostRuntime) -> Result<(), Fail> {
    for calls in 0..13usize {
        let seen = dropped_after::<Brand, HostRuntime>(&rt, rt.alloc(), Blank::new(67), calls)?;
        let kept = SET_UP_EVENTS + 2 + calls;
        assert_eq!(rt;
            seen,
            (false, true, Some(1), true, kept),
            "after {calls} calls"
        );
    }
    Ok(())
}

// The note of a port of pool 4, on a line of its own, which has ended.
fn ended_note(alloc: Global) -> Result<EndNote, Fail> {
    let (_line, seat) = line_of(alloc, 4)?;
    let (port, note) = IrqPort::new(alloc, 4, seat)?;
    drop(port);
    Ok(note)
}

// What is seen of two notes, of which the one of pool 3 is live: how many ends are swept; the pool of the one note that stays then,
// and whether it knows of an end; what a read of function 4, which was open, and one by the port of pool 3 find; and how many calls
// are kept.
type OneOfTwo = (Option<usize>, Option<(u8, bool)>, bool, bool, usize);

// Opens function 4 too, and sweeps over the live note and one of an ended port of pool 4.
fn one_of_two<L: Ledger, R: Wait>(rt: &R, alloc: Global, blank: Blank) -> Result<OneOfTwo, Fail>
    requires name { blank.name ≡ L.name }
    requires parts { (blank.parts ≡ L.parts) × (blank.parts ≡ 67) }
{
    let Begun {
        device,
        shares,
        mut port,
        note,
    } = begin::<L, R>(rt, alloc, blank)?;
    let mut service = shares.service;
    if !is_silent(answer(rt, &*device, &mut service, Event::Open(4))) {
        return Err(Fail::from("not open"));
    }
    let mut notes = Vec::new(alloc);
    notes.push((3, note))?;
    notes.push((4, ended_note(alloc)?))?;
    let swept = sweep(rt, &mut notes, &device, &mut service).ok();
    let stays = match notes.pop() {
        Some((pool, mut note)) if notes.is_empty() => Some((pool, note.ended())),
        _ => None,
    };
    let is_closed = match answer(rt, &*device, &mut service, Event::VfRead(4, VFLINKS)) {
        Some(answer) => answer.reply == Reply::Refused(2),
        None => false,
    };
    let is_open = reads(rt, &mut port, 1);
    Ok((swept, stays, is_closed, is_open, device.kept(rt)))
}

// Of two notes the one that knows of an end is swept: its function is closed, and the other stays open.
#[test]
fn a_live_function_stays_open(rt: HostRuntime) -> Result<(), Fail> {
    let seen = one_of_two::<Brand, HostRuntime>(&rt, rt.alloc(), Blank::new(67))?;
    let kept = SET_UP_EVENTS + 4;
    assert_eq!(rt; seen, (Some(1), Some((3, false)), true, true, kept));
    Ok(())
}

// The pool of the one note that is there, and whether it knows of an end.
fn only(notes: &mut Vec<(u8, EndNote)>) -> Option<(u8, bool)> {
    match notes.pop() {
        Some((pool, mut note)) if notes.is_empty() => Some((pool, note.ended())),
        _ => None,
    }
}

// What is seen of two notes, of which the one of pool 3 is live: how many ends are swept; the one note that stays, and the one that
// comes out; and how many calls are kept.
type OneOut = (Option<usize>, Option<(u8, bool)>, Option<(u8, bool)>, usize);

// Opens function 4 too, and sweeps over the live note and one of an ended port of pool 4, which comes out.
fn one_out<L: Ledger, R: Wait>(rt: &R, alloc: Global, blank: Blank) -> Result<OneOut, Fail>
    requires name { blank.name ≡ L.name }
    requires parts { (blank.parts ≡ L.parts) × (blank.parts ≡ 67) }
{
    let Begun {
        device,
        shares,
        port: _port,
        note,
    } = begin::<L, R>(rt, alloc, blank)?;
    let mut service = shares.service;
    if !is_silent(answer(rt, &*device, &mut service, Event::Open(4))) {
        return Err(Fail::from("not open"));
    }
    let mut notes = Vec::new(alloc);
    notes.push((3, note))?;
    notes.push((4, ended_note(alloc)?))?;
    let Ok(mut out) = Vec::with_capacity(alloc, notes.len()) else {
        return Err(Fail::from("no memory"));
    };
    let swept = sweep_into(rt, &mut notes, &mut out, &device, &mut service).ok();
    Ok((swept, only(&mut notes), only(&mut out), device.kept(rt)))
}

#[test]
fn a_note_that_is_swept_comes_out(rt: HostRuntime) -> Result<(), Fail> {
    let seen = one_out::<Brand, HostRuntime>(&rt, rt.alloc(), Blank::new(67))?;
    let kept = SET_UP_EVENTS + 2;
    assert_eq!(rt; seen, (Some(1), Some((3, false)), Some((4, true)), kept));
    Ok(())
}

// Three functions are open, of which two have ports.
const THREE_OPEN: &str = "vfs 3 4096\n\
    open 0\n\
    open 1\n\
    open 2\n\
    go\n\
    r 0 VFLINKS\n\
    r 2 VFLINKS\n";

// Whether a function is open, by what the service reads of it.
fn is_open<L: Ledger, R: Wait>(
    rt: &R,
    device: &LockedDevice<FlatMem, L>,
    service: &mut Share<L>,
    pool: u8,
) -> Option<bool> {
    match answer(rt, device, service, Event::VfRead(pool, VFLINKS)) {
        Some(answer) => match answer.reply {
            Reply::Value(_) => Some(true),
            Reply::Refused(2) => Some(false),
            _ => None,
        },
        None => None,
    }
}

// Which functions are open once all workers have ended.
fn open_after<L: Ledger + Send + Sync + 'static, R: Threads + Wait + Copy + Send + 'static>(
    rt: R,
    alloc: Global,
    blank: Blank,
    setting: Setting,
    script: Script,
    gate: Arc<OpenGate>,
) -> Result<[Option<bool>; 3], Fault>
    requires name { blank.name ≡ L.name }
    requires parts { (blank.parts ≡ L.parts) × (blank.parts ≡ 67) }
{
    let (device, ended) = ran::<L, OpenGate, R, Discard>(
        rt, &Discard, alloc, blank, setting, script, gate,
    )?;
    let mut open = [None; 3];
    for mut share in ended.shares {
        if share.caller() == Caller::Service.number() {
            open = [
                is_open(&rt, &*device, &mut share, 0),
                is_open(&rt, &*device, &mut share, 1),
                is_open(&rt, &*device, &mut share, 2),
            ];
        }
    }
    Ok(open)
}

// The functions of ended ports are closed, and the one without a port is open.
#[test]
fn functions_of_ended_ports_are_closed(rt: HostRuntime) -> Result<(), Fail> {
    let alloc = rt.alloc();
    let setting = setting_of(alloc, &[0, 2], 3, 40, false)?;
    let script = read(alloc, THREE_OPEN)?;
    let gate = Arc::new(alloc, OpenGate)?;
    let open = open_after::<Brand, HostRuntime>(rt, alloc, Blank::new(67), setting, script, gate)?;
    assert_eq!(rt; open, [Some(false), Some(true), Some(false)]);
    Ok(())
}

// One guest reads its link status.
const ONE_READ: &str = "vfs 1 4096\n\
    open 0\n\
    go\n\
    r 0 VFLINKS\n";

// Does a script with a port of pool 0, and the note of another port, which lives on.
fn seen_with_note<L: Ledger + Send + Sync + 'static, R: Threads + Wait + Copy + Send + 'static>(
    rt: R,
    alloc: Global,
    blank: Blank,
    note: EndNote,
) -> Result<Seen, Fail>
    requires name { blank.name ≡ L.name }
    requires parts { (blank.parts ≡ L.parts) × (blank.parts ≡ 67) }
{
    let mut setting = setting_of(alloc, &[0], 1, 40, false)?;
    setting.note = Some(note);
    let script = read(alloc, ONE_READ)?;
    let gate = Arc::new(alloc, OpenGate)?;
    Ok(done::<L, OpenGate, R, Discard>(rt, &Discard, alloc, blank, setting, script, gate)?)
}

// A port has ended once its thread has, whatever its note knows: the service makes two calls, of which the second is the end.
#[test]
fn an_end_is_recorded_whatever_the_note_knows(rt: HostRuntime) -> Result<(), Fail> {
    let (_line, seat) = line_of(rt.alloc(), 0)?;
    let (other, note) = IrqPort::new(rt.alloc(), 0, seat)?;
    let seen = seen_with_note::<Brand, HostRuntime>(rt, rt.alloc(), Blank::new(67), note)?;
    assert_eq!(rt; (seen.entries[0], seen.entries[66], seen.kept), (1, 2, 3));
    drop(other);
    Ok(())
}
