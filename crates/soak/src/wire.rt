//! The wire: frames that come from it, and the pump that gives them to the device.
ghost use Rattle.std.specs.Prelude.{◌≡◌};

use crate::until::Until;
use device_lock::Share;
use guest_memory::GuestMem;
use rand_pcg::Pcg32;
use rand_pcg::rand_core::Rng;
use std::sync::Wait;
use std::sync::ledger::Ledger;
use std::thread::yield_now;
use std::time::Clock;
use wire_frame::{Frame, FrameLimit};
use wire_pump::{FrameReceiver, FrameSender, LockedDoor, PumpEnd, pump};

/// The longest frame that comes.
const LONGEST: usize = 1518;

/// The header of a frame of guest `from`, or of the wire, which is 255: to a guest, or to all where chance wills.
pub fn head(value: u32, from: u8) -> [u8; 14] {
    let mut head = [0; 14];
    if value % 16 == 0 {
        head[..6].copy_from_slice(&[0xff; 6]);
    } else {
        head[0] = 2;
        head[5] = ((value >> 8) % 64) as u8;
    }
    head[6] = 2;
    head[11] = from;
    head[12] = 8;
    head
}

/// Sends frames until it is over or the pump is gone, and then that there are no more. How many were sent.
pub fn feed<R: Wait + Clock>(rt: &R, sender: &mut FrameSender, until: Until, seed: u64) -> u64 {
    let mut chance = Pcg32::new(seed, 255);
    let mut bytes = [0; LONGEST];
    let mut sent = 0u64;
    let Some(limit) = FrameLimit::new(LONGEST as u16) else {
        return 0;
    };
    for _ in rt.forever() {
        if until.is_over(rt, sent) {
            break;
        }
        let value = chance.next_u32();
        bytes[..14].copy_from_slice(&head(value, 255));
        let length = 60 + (value >> 16) as usize % (LONGEST - 59);
        let Ok(frame) = Frame::new(&bytes[..length], limit) else {
            break;
        };
        if !sender.frame(rt, frame) {
            break;
        }
        sent = sent.wrapping_add(1);
    }
    sender.last(rt);
    sent
}

/// Gives the frames that come to the device, until there are no more. Where the history is full it waits for it to be folded,
/// or ends if it is not.
pub fn pumping<M: GuestMem, L: Ledger, R: Wait>(
    rt: &R,
    mut receiver: FrameReceiver,
    mut door: LockedDoor<M, L>,
    is_folded: bool,
) -> Share<L> {
    for _ in rt.forever() {
        match pump(&mut receiver, rt, &mut door) {
            PumpEnd::Full(_) if is_folded => yield_now(),
            _ => break,
        }
    }
    door.into_share()
}
