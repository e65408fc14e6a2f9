//! A recorded device that does its work without memory.
ghost use Rattle.std.specs.Prelude.{◌≡◌};

use crate::sheet::{Came, Sheet};
use device::{Answer, Device, Event};
use device_lock::{CALLERS, Full, LockedDevice, Share, Shares};
use guest_memory::FlatMem;
use guest_port::{EndNote, GuestPort, IrqPort, LockedPort};
use lock_support::{answer, is_scripted, line_of, locked, port_share, script};
use std::alloc::Global;
use std::sync::ledger::{Blank, Ledger};
use std::sync::{Arc, Wait};
use test_support::memories;
use wire_frame::Fault;

/// A device with a twin, of which four calls are kept at most; its shares, the port of pool 3 with a note of its end, the script,
/// another device, and room for all shares.
#[derive(Drop)]
pub struct Recording<L: Ledger> {
    device: Arc<LockedDevice<FlatMem, L>>,
    shares: Shares<L>,
    port: LockedPort<FlatMem, L, IrqPort>,
    note: EndNote,
    events: Vec<Event>,
    other: Device<FlatMem>,
    all: Vec<Share<L>>,
}

impl<L: Ledger> Recording<L> {
    pub fn new(alloc: Global, blank: Blank) -> Result<Recording<L>, Fault>
        requires name { blank.name ≡ L.name }
        requires parts { (blank.parts ≡ L.parts) × (blank.parts ≡ 67) }
    {
        let events = script(alloc)?;
        let other = Device::new(alloc, memories(alloc, 8, 65_536)?)?;
        let live = memories(alloc, 8, 65_536)?;
        let twins = Some(memories(alloc, 8, 65_536)?);
        let (line, seat) = line_of(alloc, 3)?;
        let (port, note) = IrqPort::new(alloc, 3, seat)?;
        let (device, mut shares) = locked::<FlatMem, L>(alloc, blank, line, live, twins, 4)?;
        let Some(share) = port_share(&mut shares, 3) else {
            return Err(Fault::NoSuchVf);
        };
        let (Ok(there), Ok(all)) = (Arc::try_clone(&device), Vec::with_capacity(alloc, CALLERS))
        else {
            return Err(Fault::NoMemory);
        };
        Ok(Recording {
            device,
            shares,
            port: LockedPort::new(there, share, port),
            note,
            events,
            other,
            all,
        })
    }
}

// One event of the service, for which there is room once the base is moved by four calls.
fn act<L: Ledger, R: Wait>(
    rt: &R,
    device: &LockedDevice<FlatMem, L>,
    service: &mut Share<L>,
    event: Event,
) -> Option<Answer> {
    if !service.may(event.as_request()) {
        return None;
    }
    match device.act(rt, service, event) {
        Ok(answer) => Some(answer),
        Err(Full(event)) => {
            if device.fold(rt) != Some(4) {
                return None;
            }
            answer(rt, device, service, event)
        }
    }
}

// The whole script: 18 events move the base four times.
fn records<L: Ledger, R: Wait>(
    rt: &R,
    device: &LockedDevice<FlatMem, L>,
    service: &mut Share<L>,
    events: Vec<Event>,
) -> bool {
    let mut index = 0usize;
    for event in events {
        match act(rt, device, service, event) {
            Some(answer) if is_scripted(index, &answer) => index = index.wrapping_add(1),
            _ => return false,
        }
    }
    index == 18 && device.kept(rt) == 2 && device.folded(rt) == 16
}

// The port gets the frame's message, and reads the second word of its function's first descriptor.
fn is_read<L: Ledger, R: Wait>(rt: &R, port: &mut LockedPort<FlatMem, L, IrqPort>) -> bool {
    let mut read = [0; 4];
    (port.peek_irqs(), port.take_irqs(), port.peek_irqs()) == (1, 1, 0)
        && port.mem_read_into(rt, 0x1008, &mut read).is_ok()
        && read == [3, 0, 0, 0]
}

// The shares are all 67, and the port made one call, the service 18.
fn is_tallied<L: Ledger, R: Wait>(
    rt: &R,
    device: &LockedDevice<FlatMem, L>,
    shares: Shares<L>,
    mut all: Vec<Share<L>>,
) -> bool {
    if shares.put_back(&mut all).is_err() {
        return false;
    }
    match device.tally(rt, all) {
        Some(tally) => tally.entries[3] == 1 && tally.entries[66] == 18,
        None => false,
    }
}

/// Does the work.
pub fn work<L: Ledger, R: Wait>(rt: &R, made: Option<Recording<L>>, sheet: &mut Sheet) {
    let Some(
        Recording {
            device,
            mut shares,
            mut port,
            mut note,
            events,
            mut other,
            mut all,
        },
    ) = made
    else {
        for name in [
            "act and fold",
            "take and read",
            "end",
            "close",
            "replays",
            "tally",
        ] {
            sheet.tell(name, Came::NotTried);
        }
        return;
    };
    let is_whole = records(rt, &*device, &mut shares.service, events);
    sheet.tell("act and fold", Came::whole(is_whole));
    sheet.tell("take and read", Came::whole(is_read(rt, &mut port)));
    let before = note.ended();
    port.end();
    sheet.tell(
        "end",
        Came::whole(!before && note.ended() && !port.is_open()),
    );
    let is_closed = match port.close() {
        Some((share, mut tokens)) => share.count() == 1
            && tokens.note.ended()
            && tokens.seat.take() == 0
            && all.push(share).is_ok(),
        None => false,
    };
    sheet.tell("close", Came::whole(is_closed));
    // a fresh device gives other answers to the calls since the base
    sheet.tell("replays", Came::whole(!device.replays(rt, &mut other)));
    sheet.tell("tally", Came::whole(is_tallied(rt, &*device, shares, all)));
}
