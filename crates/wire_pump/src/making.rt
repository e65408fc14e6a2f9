//! A channel.
ghost use Rattle.std.specs.Prelude.{◌≡◌, ◌≤◌, [], false, length, vec_capacity, IfOk, IfErr};
ghost use Rattle.wire_frame.specs.declared.fault.Fault.TheVariants.{NoMemory};

use crate::ends::{FrameReceiver, FrameSender};
use crate::flow::{Ends, Flow, Hand};
use crate::message::Parcel;
use crossbeam_channel::bounded_with;
use std::alloc::{AllocError, Global};
use wire_frame::{Fault, FrameBuf};

/// How many messages a channel holds.
const CAPACITY: usize = 64;
/// How many frames it has room for: those under way, the one that is made and the one that is taken.
pub(crate) const FRAMES: usize = CAPACITY + 2;

/// A channel on which nothing was sent: the end for the wire's reader, and the end for the pump. It holds up to 64 messages.
/// [`Fault::NoMemory`] comes only where the host refused the room; the calls of the ends take none.
///
/// Each frame that it makes stands on the stack before it is in its box; that is gone once it returns, so it is a call of its own.
#[inline(never)]
pub fn channel(alloc: Global) -> Result<(FrameSender, FrameReceiver), Fault>
    ensures one { IfOk result (λ r. r.0.channel ≡ r.1.channel) }
    ensures capacity { IfOk result (λ r. r.0.capacity ≡ 64) }
    ensures sent { IfOk result (λ r. r.0.sent ≡ []) }
    ensures received { IfOk result (λ r. r.1.received ≡ []) }
    ensures boxes { IfOk result (λ r. (r.0.boxes ≡ 66) × (r.0.came_back ≡ [])) }
    ensures given { IfOk result (λ r. (r.1.given ≡ []) × (r.1.is_alone ≡ false)) }
    ensures no_memory { IfErr result (λ fault. fault ≡ NoMemory) }
{
    Ok(ends(alloc)?)
}

// The two ends.
fn ends(alloc: Global) -> Result<(FrameSender, FrameReceiver), AllocError>
    ensures one { IfOk result (λ r. r.0.channel ≡ r.1.channel) }
    ensures capacity { IfOk result (λ r. r.0.capacity ≡ 64) }
    ensures sent { IfOk result (λ r. r.0.sent ≡ []) }
    ensures received { IfOk result (λ r. r.1.received ≡ []) }
    ensures boxes { IfOk result (λ r. (r.0.boxes ≡ 66) × (r.0.came_back ≡ [])) }
    ensures given { IfOk result (λ r. (r.1.given ≡ []) × (r.1.is_alone ≡ false)) }
{
    let (end, from, mut pass) = bounded_with::<Parcel, Hand, Flow, Global>(alloc, CAPACITY)?;
    let other = end.another::<Ends>(&mut pass);
    let blanks = blanks(alloc)?;
    let (back, used, mut back_pass) = bounded_with::<Parcel, Hand, Flow, Global>(alloc, FRAMES)?;
    let used_pass = back.another::<Ends>(&mut back_pass);
    Ok((
        FrameSender {
            end,
            pass,
            last_sent: false,
            blanks,
            used,
            used_pass,
        },
        FrameReceiver {
            end: from,
            pass: other,
            back,
            back_pass,
            is_alone: false,
        },
    ))
}

// Frames to be filled: as many as may be under way, the one that is made and the one that is taken.
fn blanks(alloc: Global) -> Result<Vec<Box<FrameBuf>>, AllocError>
    ensures count { IfOk result (λ blanks. length blanks.items ≡ 66) }
    ensures room { IfOk result (λ blanks. 66 ≤ vec_capacity blanks) }
{
    let mut blanks = Vec::with_capacity(alloc, FRAMES)?;
    for _ in 0..FRAMES {
        let Ok(blank) = Box::new(alloc, FrameBuf::blank()) else {
            return Err(AllocError);
        };
        blanks.push_reserved(blank);
    }
    Ok(blanks)
}
