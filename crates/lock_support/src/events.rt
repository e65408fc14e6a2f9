//! A script of 18 events: function 3 is set up, a frame to it comes, and what that left is read.
use device::{Answer, Event, MemBytes, Reply};
use script_support::registers::{
    ADVANCED, ENABLE, MPSAR, PFVFRE, PFVFTE, RAH, RAL, RDBAL0, RDH0, RDLEN0, RDT0, ROUTES, RXDCTL0,
    SRRCTL0, VALID, VFGPRC, VTEIMS, VTIVAR,
};
use std::alloc::{AllocError, Global};
use wire_frame::{Fault, FrameBuf};

// The functions may receive and transmit, and function 3 has the address 02:00:00:00:00:03.
const SETTINGS: [(u32, u32); 5] = [
    (PFVFRE, 0xFF),
    (PFVFTE, 0xFF),
    (RAL + 8 * 3, 0x2),
    (RAH + 8 * 3, VALID | 0x300),
    (MPSAR + 8 * 3, 0x8),
];

// Its ring of eight descriptors has one to fill, and a frame issues the message of vector 0.
const RECEIVE: [(u32, u32); 7] = [
    (RDBAL0, 0x1000),
    (RDLEN0, 128),
    (SRRCTL0, ADVANCED | 2),
    (RXDCTL0, ENABLE),
    (RDT0, 1),
    (VTIVAR, ROUTES),
    (VTEIMS, 7),
];

// What the descriptor says once the frame is there: it is done, and the frame has 60 bytes (82599 datasheet, legacy receive
// descriptor).
const WRITTEN_BACK: [u8; 16] = [0, 0, 0, 0, 0, 0, 0, 0, 3, 0, 0, 0, 0x3C, 0, 0, 0];

// To 02:00:00:00:00:03 from 02:00:00:00:00:99, IPv4, and zeros to 60 bytes.
static FRAME_TO_3: [u8; 60] =
    *b"\x02\0\0\0\0\x03\x02\0\0\0\0\x99\x08\0\0\0\0\0\0\0\0\0\0\0\0\0\0\0\0\0\0\0\0\0\0\0\0\0\0\0\0\0\0\0\0\0\0\0\0\0\0\0\0\0\0\0\0\0\0\0";

/// A frame of 60 bytes for function 3.
pub fn frame_to_3() -> Result<FrameBuf, Fault> {
    FrameBuf::from_bytes(&FRAME_TO_3)
}

/// Events 0 to 4: the settings that the driver of the physical function makes.
pub fn settings(alloc: Global) -> Result<Vec<Event>, AllocError> {
    let mut events = Vec::with_capacity(alloc, 5)?;
    for (offset, value) in SETTINGS {
        events.push(Event::PfWrite(offset, value))?;
    }
    Ok(events)
}

/// Events 5 to 13: function 3 is opened with its ring, whose first descriptor has its buffer at 0x4000.
pub fn opening(alloc: Global) -> Result<Vec<Event>, Fault> {
    match opening_with(alloc, MemBytes::from_bytes(&[0, 0x40, 0, 0, 0, 0, 0, 0])?) {
        Ok(events) => Ok(events),
        Err(AllocError) => Err(Fault::NoMemory),
    }
}

// The same with the descriptor's bytes.
fn opening_with(alloc: Global, descriptor: MemBytes) -> Result<Vec<Event>, AllocError> {
    let mut events = Vec::with_capacity(alloc, 9)?;
    events.push(Event::Open(3))?;
    events.push(Event::MemWrite(3, 0x1000, descriptor))?;
    for (offset, value) in RECEIVE {
        events.push(Event::VfWrite(3, offset, value))?;
    }
    Ok(events)
}

/// Events 14 to 17: the frame comes, and its descriptor, the reason for its message and the head of the ring are read.
pub fn arrival(alloc: Global) -> Result<Vec<Event>, Fault> {
    match arrival_of(alloc, frame_to_3()?) {
        Ok(events) => Ok(events),
        Err(AllocError) => Err(Fault::NoMemory),
    }
}

// The same of a frame.
fn arrival_of(alloc: Global, frame: FrameBuf) -> Result<Vec<Event>, AllocError> {
    let mut events = Vec::with_capacity(alloc, 4)?;
    events.push(Event::Wire(frame))?;
    events.push(Event::MemRead(3, 0x1000, 16))?;
    events.push(Event::VfRead(3, VFGPRC))?;
    events.push(Event::VfRead(3, RDH0))?;
    Ok(events)
}

/// The whole script.
pub fn script(alloc: Global) -> Result<Vec<Event>, Fault> {
    let (settings, opening, arrival) = (settings(alloc), opening(alloc)?, arrival(alloc)?);
    let Ok(mut events) = settings else {
        return Err(Fault::NoMemory);
    };
    for event in opening {
        if events.push(event).is_err() {
            return Err(Fault::NoMemory);
        }
    }
    for event in arrival {
        if events.push(event).is_err() {
            return Err(Fault::NoMemory);
        }
    }
    Ok(events)
}

/// Whether event `index` is answered so: all are done but for the last three, which read, and the frame's message is of vector 0.
pub fn is_scripted(index: usize, answer: &Answer) -> bool {
    let is_replied = match &answer.reply {
        Reply::Done => index < 15,
        Reply::Bytes(bytes) => index == 15 && bytes.bytes() == WRITTEN_BACK.as_slice(),
        Reply::Value(value) => (index == 16 || index == 17) && *value == 1,
        _ => false,
    };
    let mut raised = [0; 64];
    if index == 14 {
        raised[3] = 1;
    }
    is_replied && answer.raised.as_slice() == raised.as_slice()
}
