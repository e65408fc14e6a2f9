//! The makers, one by one.
ghost use Rattle.std.specs.Prelude.{◌≡◌, IfOk};
ghost use Rattle.recorder.specs.Made.{IsFresh};

use crate::sheet::{Came, Sheet};
use card::Card;
use device::{Answer, Device, Event, Reply};
use device_lock::{LockedDevice, Recorded, Share};
use guest_memory::{FlatMem, GuestMem};
use guest_port::{GuestPort, IrqPort, Refused};
use irq_causes::Vectors;
use irq_line::{DeviceSeat, make};
use lock_support::{answer, frame_to_3, is_scripted, line_of, locked, recorded};
use mapped_memory::LiveMem;
use modes::Mode;
use modes::drive::drive;
use offload::Offloads;
use std::alloc::Global;
use std::sync::Wait;
use std::sync::ledger::{Blank, Ledger};
use test_support::memories;
use wire_frame::{Fault, FrameLimit, PoolId, Vid};
use wire_pump::channel;

/// Raises the vectors of a mask for the pool of that number.
pub fn raise(device: &mut DeviceSeat, pool: u8, mask: u8) {
    if let (Some(pool), Some(vectors)) = (PoolId::new(pool), Vectors::new(mask)) {
        device.raise(pool, vectors);
    }
}

pub fn flat_mem(alloc: Global) -> Came {
    match FlatMem::new(alloc, 4096) {
        Ok(memory) => Came::whole(memory.size() == 4096),
        Err(fault) => Came::refused(fault, true),
    }
}

pub fn live_mem(alloc: Global) -> Came {
    match LiveMem::new(alloc, 4096) {
        Ok(memory) => Came::whole(memory.regions() == 0),
        Err(fault) => Came::refused(fault, true),
    }
}

pub fn card(alloc: Global) -> Came {
    let mut memories = Vec::new(alloc);
    for _ in 0..3 {
        let Ok(memory) = LiveMem::for_guest(alloc, 0) else {
            return Came::NotTried;
        };
        if memories.push(memory).is_err() {
            return Came::NotTried;
        }
    }
    match Card::for_guests(
        alloc,
        memories,
        &[Vid::of_tag(0)],
        None,
        FrameLimit::standard(),
        Offloads::none(),
    ) {
        Ok(card) => Came::whole(card.functions() == 3),
        Err(fault) => Came::refused(fault, true),
    }
}

pub fn device_new(alloc: Global) -> Came {
    let Ok(memories) = memories(alloc, 2, 4096) else {
        return Came::NotTried;
    };
    match Device::new(alloc, memories) {
        Ok(device) => Came::whole(device.functions() == 2),
        Err(fault) => Came::refused(fault, true),
    }
}

// A device as it is made.
fn fresh(alloc: Global, count: usize, size: u64) -> Result<Device<FlatMem>, Fault>
    ensures { IfOk result (λ d. IsFresh d.world) }
{
    Device::new(alloc, memories(alloc, count, size)?)
}

// Whether the whole script is answered so.
fn are_scripted(answers: &[Answer]) -> bool {
    for (index, answer) in answers.iter().enumerate() {
        if !is_scripted(index, answer) {
            return false;
        }
    }
    answers.len() == 18
}

/// After a run that was refused the device is as it was made: a second one, if it isn't refused too, gives the same answers.
pub fn device_run(alloc: Global) -> Came {
    let Ok(events) = lock_support::script(alloc) else {
        return Came::NotTried;
    };
    let Ok(mut device) = fresh(alloc, 8, 65_536) else {
        return Came::NotTried;
    };
    match device.run(alloc, &events) {
        Ok(answers) => Came::whole(are_scripted(&answers)),
        Err(fault) => match device.run(alloc, &events) {
            Ok(answers) => Came::refused(fault, are_scripted(&answers)),
            Err(_) => Came::refused(fault, true),
        },
    }
}

pub fn line(alloc: Global) -> Came {
    match make(alloc) {
        Ok((mut device, mut guests)) => {
            raise(&mut device, 3, 5);
            match guests.get_mut(3) {
                Some(guest) => Came::whole((guest.peek(), guest.take(), guest.take()) == (5, 5, 0)),
                None => Came::Wrong,
            }
        }
        Err(fault) => Came::refused(fault, true),
    }
}

/// A port does not see what was raised before. Where it is refused its seat comes back, and what was raised stands.
pub fn port(alloc: Global) -> Came {
    let Ok((mut device, seat)) = line_of(alloc, 3) else {
        return Came::NotTried;
    };
    raise(&mut device, 3, 4);
    match IrqPort::try_new(alloc, 3, seat) {
        Ok((mut port, mut note)) => {
            let before = port.take_irqs();
            raise(&mut device, 3, 1);
            let after = port.take_irqs();
            let is_open = !note.ended();
            drop(port);
            Came::whole(before == 0 && after == 1 && is_open && note.ended())
        }
        Err(Refused { fault, mut seat }) => {
            let is_back = seat.pool() == 3 && seat.peek() == 4;
            Came::refused(fault, is_back)
        }
    }
}

// Whether the service opens function 0 of a device by its first call.
fn is_recorded<L: Ledger>(recorded: &mut Recorded<FlatMem, L>, service: &mut Share<L>) -> bool {
    if !service.may(Event::Open(0).as_request()) {
        return false;
    }
    match recorded.record(service, Event::Open(0)) {
        Ok(answer) => answer.reply == Reply::Done && recorded.kept() == 1,
        Err(_) => false,
    }
}

pub fn recorded_new<L: Ledger>(alloc: Global, blank: Blank) -> Came
    requires name { blank.name ≡ L.name }
    requires parts { (blank.parts ≡ L.parts) × (blank.parts ≡ 67) }
{
    let (Ok((line, _seat)), Ok(live)) = (line_of(alloc, 0), fresh(alloc, 1, 4096)) else {
        return Came::NotTried;
    };
    match Recorded::<FlatMem, L>::new(alloc, blank, live, line, 4) {
        Ok((mut recorded, mut shares)) => {
            let is_recorded = is_recorded(&mut recorded, &mut shares.service);
            Came::whole(is_recorded && recorded.rebase().is_none())
        }
        Err(fault) => Came::refused(fault, true),
    }
}

pub fn with_twin<L: Ledger>(alloc: Global, blank: Blank) -> Came
    requires name { blank.name ≡ L.name }
    requires parts { (blank.parts ≡ L.parts) × (blank.parts ≡ 67) }
{
    let Ok((line, _seat)) = line_of(alloc, 0) else {
        return Came::NotTried;
    };
    let (Ok(live), Ok(twin)) = (fresh(alloc, 1, 4096), fresh(alloc, 1, 4096)) else {
        return Came::NotTried;
    };
    match Recorded::<FlatMem, L>::with_twin(alloc, blank, live, twin, line, 4) {
        Ok((mut recorded, mut shares)) => {
            let is_recorded = is_recorded(&mut recorded, &mut shares.service);
            Came::whole(is_recorded && recorded.rebase() == Some(1))
        }
        Err(fault) => Came::refused(fault, true),
    }
}

pub fn locked_new<L: Ledger, R: Wait>(rt: &R, alloc: Global, blank: Blank) -> Came
    requires name { blank.name ≡ L.name }
    requires parts { (blank.parts ≡ L.parts) × (blank.parts ≡ 67) }
{
    let (Ok((line, _seat)), Ok(memories)) = (line_of(alloc, 0), memories(alloc, 1, 4096)) else {
        return Came::NotTried;
    };
    let Ok((recorded, shares)) = recorded::<FlatMem, L>(alloc, blank, line, memories, None, 4)
    else {
        return Came::NotTried;
    };
    let mut service = shares.service;
    match LockedDevice::new(alloc, recorded) {
        Ok(device) => {
            let opened = answer(rt, &*device, &mut service, Event::Open(0));
            Came::whole(opened.is_some() && device.kept(rt) == 1)
        }
        Err(fault) => Came::refused(fault, true),
    }
}

/// As many frames as a channel has room for are sent, and are let go with the receiver; the sender is told so.
pub fn frames<R: Wait>(rt: &R, alloc: Global) -> Came {
    let Ok(frame) = frame_to_3() else {
        return Came::Wrong;
    };
    match channel(alloc) {
        Ok((mut sender, receiver)) => {
            let mut sent = 0u32;
            for _ in 0..64 {
                sent = sent.wrapping_add(u32::from(sender.frame(rt, frame.as_frame())));
            }
            drop(receiver);
            Came::whole(sent == 64 && !sender.frame(rt, frame.as_frame()))
        }
        Err(fault) => Came::refused(fault, true),
    }
}

const SCRIPT: &str = "vfs 1 4096\nopen 0\nr 0 0x10\n";

// What the modes write of the script.
const ANSWERED: &str = "1 ok\n2 = 0x70000000\n";

const KEPT: &str = "1 event\n2 event\n";

// What came of a run of the script, and what it wrote.
fn driven(alloc: Global, mode: Mode) -> (Result<(), modes::Fault>, Sheet) {
    let mut sheet = Sheet::new();
    let result = drive(alloc, mode, &mut SCRIPT.as_bytes(), &mut sheet);
    (result, sheet)
}

/// A run that is refused has written a beginning of its output at most, and the one after it, if it isn't refused too, is whole.
pub fn script(alloc: Global, mode: Mode) -> Came {
    let told = match mode {
        Mode::Run | Mode::Lone(_) => ANSWERED.as_bytes(),
        Mode::Keep(_) => KEPT.as_bytes(),
    };
    let (result, sheet) = driven(alloc, mode);
    let Err(fault) = result else {
        return Came::whole(sheet.text() == told);
    };
    if fault.number() != 9 || !told.starts_with(sheet.text()) {
        return Came::Wrong;
    }
    match driven(alloc, mode) {
        (Ok(()), sheet) if sheet.text() != told => Came::Wrong,
        _ => Came::NoMemory,
    }
}
