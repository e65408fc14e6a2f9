//! Frames by numbers, a door that keeps their events, and how a pump ended.
ghost use Rattle.std.specs.Prelude.{◌≡◌};

use device::{Answer, Event, Reply};
use device_lock::Full;
use shadow::Shadow;
use std::alloc::Global;
use std::sync::Wait;
use wire_frame::FrameBuf;
use wire_pump::{Door, PumpEnd};

/// A door that keeps the events which it takes, up to a number of them.
#[derive(Drop)]
pub struct Shelf {
    pub events: Vec<Event>,
    pub room: usize,
    pub refused: Option<Shadow<Event>>,
}

impl Door for Shelf {
    ghost use Rattle.std.specs.Prelude.{[], None, option_map};

    ghost taken = { λ shelf. shelf.events.items };

    ghost calls = { λ _. [] };

    ghost line = { λ _. None };

    ghost refused = { λ shelf. option_map (λ event. event.value) shelf.refused };

    fn act<R: Wait>(&mut self, _rt: &R, event: Event) -> Result<Answer, Full> {
        if self.room <= self.events.len() || self.events.push(event.copy()).is_err() {
            self.refused = Some(Shadow::of(&event));
            return Err(Full(event));
        }
        self.refused = None;
        Ok(Answer {
            reply: Reply::Done,
            raised: [0; 64],
        })
    }
}

impl Shelf {
    /// An empty shelf.
    pub fn new(alloc: Global, room: usize) -> Shelf {
        Shelf {
            events: Vec::new(alloc),
            room,
            refused: None,
        }
    }

    /// How many events it has. None where they are not those of the frames of the numbers from `first` on.
    pub fn count_from(&self, first: usize) -> Option<usize> {
        for (place, event) in self.events.iter().enumerate() {
            if number_of(event) != Some(first.wrapping_add(place)) {
                return None;
            }
        }
        Some(self.events.len())
    }
}

/// The frame of a number, by which it is known: its length goes by the number too, from 14 to 9018 bytes.
pub fn frame_of(number: usize) -> Option<FrameBuf> {
    const LENGTHS: [usize; 7] = [14, 60, 64, 1514, 1518, 9017, 9018];
    let mut bytes = [0u8; 9018];
    bytes[0] = 2;
    bytes[1] = (number / 256 % 256) as u8;
    bytes[2] = (number % 256) as u8;
    FrameBuf::from_bytes(&bytes[..LENGTHS[number % 7]]).ok()
}

/// The frames of the numbers below `count`.
pub fn frames_of(alloc: Global, count: usize) -> Option<Vec<FrameBuf>> {
    let mut frames = Vec::new(alloc);
    for number in 0..count {
        frames.push(frame_of(number)?).ok()?;
    }
    Some(frames)
}

/// How a pump ended.
#[derive(Clone, Copy, Debug, PartialEq, Eq)]
pub enum Pumped {
    Last,
    Gone,
    // at the frame of this number
    Full(usize),
    // at another frame than that of its number
    Other,
}

/// How a pump ended, with the number of the frame whose event it handed back.
pub fn end_of(end: PumpEnd) -> Pumped {
    match end {
        PumpEnd::Last => Pumped::Last,
        PumpEnd::Gone => Pumped::Gone,
        PumpEnd::Full(event) => match number_of(&event) {
            Some(number) => Pumped::Full(number),
            None => Pumped::Other,
        },
    }
}

// The number of the frame that an event brings, if it is that number's.
fn number_of(event: &Event) -> Option<usize> {
    let Event::Wire(frame) = event else {
        return None;
    };
    let bytes = frame.bytes();
    let number = usize::from(*bytes.get(1)?) * 256 + usize::from(*bytes.get(2)?);
    if frame_of(number)?.bytes() == bytes {
        Some(number)
    } else {
        None
    }
}
