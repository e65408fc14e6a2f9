//! A recorded device, by itself and behind its lock, and what a caller is answered.
ghost use Rattle.std.specs.Prelude.{◌≡◌, [], IfOk};
ghost use Rattle.recorder.specs.Made.{AreSharesOf, AreUnused, IsFresh};

use device::{Answer, Device, Event};
use device_lock::{LockedDevice, Recorded, Share, Shares};
use guest_memory::GuestMem;
use irq_line::DeviceSeat;
use std::alloc::Global;
use std::sync::ledger::{Blank, Ledger};
use std::sync::{Arc, Wait};
use wire_frame::Fault;

// A device as it is made.
fn fresh<M: GuestMem>(alloc: Global, memories: Vec<M>) -> Result<Device<M>, Fault>
    ensures { IfOk result (λ d. IsFresh d.world) }
{
    Device::new(alloc, memories)
}

/// A recorded device over these memories, with a twin over the others where there are any, which keeps `cap` calls.
#[tactic(auto, using(recorder::proofs::LineLemmas::pump_line, recorder::proofs::LineLemmas::unused_shares))]
pub fn recorded<M: GuestMem, L: Ledger>(
    alloc: Global,
    blank: Blank,
    line: DeviceSeat,
    memories: Vec<M>,
    twins: Option<Vec<M>>,
    cap: usize,
) -> Result<(Recorded<M, L>, Shares<L>), Fault>
    requires name { blank.name ≡ L.name }
    requires parts { (blank.parts ≡ L.parts) × (blank.parts ≡ 67) }
    requires line { line.raises ≡ [] }
    ensures line { IfOk result (λ r. r.0.line ≡ line) }
    ensures unused { IfOk result (λ r. AreUnused line.line r.1) }
    ensures shares { IfOk result (λ r. AreSharesOf r.1.pump.line r.1.ports.items) }
    ensures same { IfOk result (λ r. r.1.pump.line ≡ line.line) }
{
    let live = fresh(alloc, memories)?;
    match twins {
        Some(twins) => Recorded::with_twin(alloc, blank, live, fresh(alloc, twins)?, line, cap),
        None => Recorded::new(alloc, blank, live, line, cap),
    }
}

/// The same behind a lock.
pub fn locked<M: GuestMem, L: Ledger>(
    alloc: Global,
    blank: Blank,
    line: DeviceSeat,
    memories: Vec<M>,
    twins: Option<Vec<M>>,
    cap: usize,
) -> Result<(Arc<LockedDevice<M, L>>, Shares<L>), Fault>
    requires name { blank.name ≡ L.name }
    requires parts { (blank.parts ≡ L.parts) × (blank.parts ≡ 67) }
    requires line { line.raises ≡ [] }
    ensures unused { IfOk result (λ r. AreUnused line.line r.1) }
    ensures shares { IfOk result (λ r. AreSharesOf r.1.pump.line r.1.ports.items) }
    ensures same { IfOk result (λ r. r.1.pump.line ≡ line.line) }
{
    let (recorded, shares) = recorded(alloc, blank, line, memories, twins, cap)?;
    let device = LockedDevice::new(alloc, recorded)?;
    Ok((device, shares))
}

/// What a caller is answered. None where it may not make the event, or the history is full.
pub fn answer<M: GuestMem, L: Ledger, R: Wait>(
    rt: &R,
    device: &LockedDevice<M, L>,
    share: &mut Share<L>,
    event: Event,
) -> Option<Answer>
    ensures { share.new.caller ≡ share.old.caller }
{
    if !share.may(event.as_request()) {
        return None;
    }
    match device.act(rt, share, event) {
        Ok(answer) => Some(answer),
        Err(_) => None,
    }
}
