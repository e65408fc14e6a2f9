//! One event by a share.
ghost use Rattle.std.specs.Prelude.{◌≡◌, true, IfOk, IfErr, OnErr};
ghost use Rattle.device.specs.Request.{event_of};
ghost use Rattle.device.specs.Outcome.{answer_of};
ghost use Rattle.wire_frame.specs.declared.fault.Fault.{Fault};
ghost use Rattle.recorder.specs.Callers.{may};
ghost use Rattle.workers.specs.Asked.{HasTold};

use device::{Request, Response, Room};
use device_lock::{LockedDevice, Share, WhenFull};
use guest_memory::GuestMem;
use std::sync::Wait;
use std::sync::ledger::Ledger;
use wire_frame::Fault;

/// Takes the event that a request stands for, and answers what came of it, as it is kept. Where the history is full it is folded, and the
/// event is taken once there is room. [`Fault::HistoryFull`] where it can't be folded: nothing was taken.
///
/// `room` is lent for what the event sends and reads.
#[tactic(auto, using(crate::proofs::Asks::has_told))]
pub fn ask<M: GuestMem, L: Ledger, R: Wait>(
    rt: &R,
    device: &LockedDevice<M, L>,
    share: &mut Share<L>,
    request: Request<'_>,
    room: &mut Room,
) -> Result<Response, Fault>
    requires { may share.old.caller (event_of request) ≡ true }
    ensures told { IfOk result (λ response.
        HasTold (event_of request.entry) (answer_of room.new response) share.old share.new) }
    ensures caller { share.new.caller ≡ share.old.caller }
    ensures unchanged { OnErr result ((share.new ≡ share.old) × (room.new ≡ room.old)) }
    ensures full { IfErr result (λ e. e ≡ Fault.HistoryFull) }
{
    match device.act_request(rt, share, request, room, WhenFull::Fold) {
        Some(response) => Ok(response),
        None => Err(Fault::HistoryFull),
    }
}
