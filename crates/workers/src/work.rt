//! What a worker's thread is to have done when it ends.

use crate::plan::Plan;
use crate::worker::{Pumped, WorkerResult};
use device_lock::Share;
use guest_memory::GuestMem;
use guest_port::{GuestPort, LockedPort};
use shadow::Shadow;
use std::sync::ledger::Ledger;
use std::thread::Promise;
use wire_pump::{FrameReceiver, FrameSender};

/// What a worker's thread promises to have done when it ends, unless the history was full: the thread of a port, or of a share whose
/// caller is the driver or the service. It has no bytes but the kind.
#[derive(Drop)]
pub enum Work<M: GuestMem, L: Ledger, P: GuestPort> {
    /// The events of a port's pool, and its close.
    Guest(Shadow<Plan>, Shadow<LockedPort<M, L, P>>),
    /// The events of a share's caller.
    Owner(Shadow<Plan>, Shadow<Share<L>>),
}

impl<M: GuestMem, L: Ledger, P: GuestPort> Promise<WorkerResult<L>> for Work<M, L, P> {
    ghost use Rattle.std.specs.Prelude.{◌≡◌, false};
    ghost use Rattle.workers.specs.Duties.{IsDone};
    ghost use Rattle.workers.specs.Work.{duty_of};

    ghost kept_by = { λ work done. done.was_full ≡ false → IsDone (duty_of work) done.share };
}

/// What the pump's thread promises of its share and of its end of the channel, where `Last` came.
#[derive(Drop)]
pub struct Pumping<L: Ledger> {
    /// The share, as it was handed in.
    pub share: Shadow<Share<L>>,
    /// The end of the channel, as it was handed in.
    pub receiver: Shadow<FrameReceiver>,
}

impl<L: Ledger> Promise<Pumped<L>> for Pumping<L> {
    ghost use Rattle.std.specs.Prelude.{IfSome};
    ghost use Rattle.workers.specs.Pair.{HasPumped};

    ghost kept_by = { λ pumping pumped. IfSome pumped.receiver
        (λ receiver. HasPumped pumping.share.value pumped.share pumping.receiver.value receiver) };
}

/// What the thread of the wire's reader promises of its end of the channel.
#[derive(Drop)]
pub struct Reading {
    /// The plan, of which the frames are.
    pub plan: Shadow<Plan>,
    /// The end of the channel, as it was handed in.
    pub sender: Shadow<FrameSender>,
}

impl Promise<FrameSender> for Reading {
    ghost use Rattle.workers.specs.Pair.{HasRead};

    ghost kept_by = { λ reading sender. HasRead reading.plan.value reading.sender.value sender };
}
