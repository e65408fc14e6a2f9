//! Frames that come through a channel without memory.
ghost use Rattle.std.specs.Prelude.{◌≡◌};

use crate::sheet::{Came, Sheet};
use device::{Answer, Event, Reply};
use device_lock::Full;
use lock_support::frame_to_3;
use shadow::Shadow;
use std::alloc::Global;
use std::sync::Wait;
use wire_frame::{Fault, FrameBuf};
use wire_pump::{Door, FeedEnd, FrameReceiver, FrameSender, PumpEnd, channel, feed, pump};

// A door that keeps two events, for which there is room.
#[derive(Drop)]
struct Shelf {
    events: Vec<Event>,
    refused: Option<Shadow<Event>>,
}

impl Door for Shelf {
    ghost use Rattle.std.specs.Prelude.{[], None, option_map};

    ghost taken = { λ shelf. shelf.events.items };

    ghost calls = { λ _. [] };

    ghost line = { λ _. None };

    ghost refused = { λ shelf. option_map (λ event. event.value) shelf.refused };

    fn act<R: Wait>(&mut self, _rt: &R, event: Event) -> Result<Answer, Full> {
        if 2 <= self.events.len() || self.events.push(event.copy()).is_err() {
            self.refused = Some(Shadow::of(&event));
            return Err(Full(event));
        }
        self.refused = None;
        Ok(Answer {
            reply: Reply::Done,
            raised: [0; 64],
        })
    }
}

/// Three frames, the ends of a channel, and a door that takes two.
#[derive(Drop)]
pub struct Pumping {
    frames: Vec<FrameBuf>,
    sender: FrameSender,
    receiver: FrameReceiver,
    door: Shelf,
}

impl Pumping {
    pub fn new(alloc: Global) -> Result<Pumping, Fault> {
        let (sender, receiver) = channel(alloc)?;
        let (Ok(mut frames), Ok(room)) = (
            Vec::with_capacity(alloc, 3),
            Vec::with_capacity(alloc, 2),
        ) else {
            return Err(Fault::NoMemory);
        };
        for _ in 0..3u8 {
            if frames.push(frame_to_3()?).is_err() {
                return Err(Fault::NoMemory);
            }
        }
        Ok(Pumping {
            frames,
            sender,
            receiver,
            door: Shelf {
                events: room,
                refused: None,
            },
        })
    }
}

/// The frames are fed, the door takes two, and the third is handed back.
pub fn work<R: Wait>(rt: &R, made: Option<Pumping>, sheet: &mut Sheet) {
    let came = match made {
        Some(pumping) => Came::whole(is_pumped(rt, pumping)),
        None => Came::NotTried,
    };
    sheet.tell("feed and pump", came);
}

fn is_pumped<R: Wait>(rt: &R, pumping: Pumping) -> bool {
    let Pumping {
        frames,
        mut sender,
        mut receiver,
        mut door,
    } = pumping;
    let is_fed = feed(&mut sender, rt, &frames) == FeedEnd::All;
    let end = pump(&mut receiver, rt, &mut door);
    is_fed && is_third(end, &frames) && door.events.len() == 2
}

// Whether a pump ended at the last frame.
fn is_third(end: PumpEnd, frames: &[FrameBuf]) -> bool {
    match (end, frames.last()) {
        (PumpEnd::Full(Event::Wire(frame)), Some(last)) => frame.bytes() == last.bytes(),
        _ => false,
    }
}
