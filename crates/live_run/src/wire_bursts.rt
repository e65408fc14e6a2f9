//! Frames from the wire one after another, in one call.
ghost use Rattle.std.specs.Prelude.{◌≡◌, true, false};
ghost use Rattle.wire_frame.specs.Frame.{is_frame};
ghost use Rattle.live_run.specs.Arrivals.{IsArrival, IsWireBurst, cut};

use device::Device;
use irq_causes::Messages;
use live_memory::Dma;
use wire_frame::{Frame, FrameLimit, PoolId};

/// What came of frames from the wire.
#[derive(Drop)]
pub struct WireBurst {
    /// How many frames the device took.
    pub taken: usize,
    /// How many were refused: those that are longer than the device takes, and what is no frame.
    pub refused: usize,
    /// The messages of all of them together.
    pub messages: Messages,
}

/// Takes frames from the wire one after another, while guests may write the memories. They lie behind one another in `bytes`: the first
/// begins at 0, each other where the one before it ends, and `ends` says where each ends. One whose end is before its beginning, or past
/// the bytes, has no bytes.
///
/// It means what as many calls of [`Device::wire_live`](device::Device::wire_live) mean, one after another. What is refused there, or is no
/// frame, is passed over. No frame is copied.
pub fn wire_burst<D: Dma<K>, K>(
    device: &mut Device<D, K>,
    bytes: &[u8],
    ends: &[usize],
) -> WireBurst
    ensures { IsWireBurst D.shared device.old ends.now bytes.now device.new result }
{
    let count = device.functions();
    prove!(count <= usize::from(PoolId::COUNT));
    let mut taken = 0;
    let mut messages = Messages::none();
    let mut start = 0;
    for end in ends {
        let is_taken = take_one(device, cut(bytes, start, *end), &mut messages);
        taken += usize::from(is_taken);
        start = *end;
    }
    WireBurst {
        taken,
        refused: ends.len() - taken,
        messages,
    }
}

// The bytes from a place to an end, if they are there.
#[inline]
fn cut(bytes: &[u8], start: usize, end: usize) -> &[u8]
    ensures { result.now ≡ cut bytes.now start end }
{
    if start <= end && end <= bytes.len() {
        &bytes[start..end]
    } else {
        &[]
    }
}

// One frame more, if the bytes are one. Tells whether the device took it.
fn take_one<D: Dma<K>, K>(device: &mut Device<D, K>, bytes: &[u8], messages: &mut Messages) -> bool
    ensures came { is_frame 9018 bytes.now ≡ true
        → IsArrival D.shared bytes.now device.old device.new messages.old messages.new result }
    ensures stays { is_frame 9018 bytes.now ≡ false → device.new ≡ device.old }
    ensures silent { is_frame 9018 bytes.now ≡ false → messages.new ≡ messages.old }
    ensures passed { is_frame 9018 bytes.now ≡ false → result ≡ false }
{
    match Frame::new(bytes, FrameLimit::longest()) {
        Ok(frame) => arrive(device, frame, messages),
        Err(_) => false,
    }
}

// A frame comes from the wire. Tells whether the device took it.
fn arrive<D: Dma<K>, K>(
    device: &mut Device<D, K>,
    frame: Frame<'_>,
    messages: &mut Messages,
) -> bool
    ensures { IsArrival D.shared frame.entry.bytes.now device.old device.new messages.old messages.new result }
{
    match device.wire_live(frame) {
        Ok(raised) => {
            messages.unite(&raised);
            true
        }
        Err(_) => {
            messages.unite(&Messages::none());
            false
        }
    }
}
