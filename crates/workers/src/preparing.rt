//! The events before `go`.
ghost use Rattle.std.specs.Prelude.{◌≡◌, ℕ, ◌<◌, ◌≤◌, ◌⊎◌, [], length, take, IfErr, IfOk, OnErr, OnOk};
ghost use Rattle.wire_frame.specs.declared.fault.Fault.{Fault};
ghost use Rattle.device.specs.Request.{event_of};
ghost use Rattle.device.specs.Outcome.{answer_of};
ghost use Rattle.history.specs.declared.caller.Caller.TheVariants.{Driver, Service};
ghost use Rattle.workers.specs.Callers.{caller_before};
ghost use Rattle.workers.specs.Counts.{HasRecorded, HaveKept, HaveRecorded};
ghost use Rattle.workers.specs.Plans.{events_before};
ghost use Rattle.workers.specs.Opens.{HaveLeft, IsPrepared};

use crate::asking::ask;
use crate::opens::{closed_pools, note, pools_in};
use crate::plan::caller_before;
use device::{Request, Response, Room};
use device_lock::{Caller, LockedDevice, Shares};
use guest_memory::GuestMem;
use script::{Scratch, Script};
use std::alloc::Global;
use std::sync::Wait;
use std::sync::ledger::Ledger;
use wire_frame::Fault;

/// Records the events before `go`, and all where there is none, in order: those of the physical function by its driver's
/// share, and all others by the service's. Answers the pools that are open at `go`, rising, and none where there is none: those
/// that the answers which were kept leave open.
///
/// A call that finds the history full folds it and is made again. [`Fault::HistoryFull`] where it can't be folded, and then
/// the events from that one on are not recorded; [`Fault::NoMemory`] where the host refused the room for the answer.
#[tactic(auto, using(crate::proofs::First::prepared_whole, crate::proofs::First::prepared_go))]
pub fn prepare<M: GuestMem, L: Ledger, R: Wait>(
    rt: &R,
    alloc: Global,
    script: &Script,
    device: &LockedDevice<M, L>,
    shares: &mut Shares<L>,
) -> Result<Vec<u8>, Fault>
    requires pf { shares.old.pf.caller ≡ Driver }
    requires service { shares.old.service.caller ≡ Service }
    ensures pf { shares.new.pf.caller ≡ Driver }
    ensures service { shares.new.service.caller ≡ Service }
    ensures others { (shares.new.pump ≡ shares.old.pump) × (shares.new.ports ≡ shares.old.ports) }
    ensures prepared { IfOk result
        (λ pools. IsPrepared script.now pools.items shares.old shares.new) }
    ensures faulted { IfErr result (λ e. (done : ℕ) × (done ≤ length (events_before script.now))
        × (e ≡ Fault.HistoryFull → done < length (events_before script.now))
        × (e ≡ Fault.NoMemory → done ≡ length (events_before script.now))
        × HaveRecorded (take done (events_before script.now)) shares.old shares.new) }
    ensures why { IfErr result (λ e. (e ≡ Fault.NoMemory) ⊎ (e ≡ Fault.HistoryFull)) }
{
    let Some(go) = script.go() else {
        record_first(rt, script, script.len(), device, shares)?;
        return Ok(Vec::new(alloc));
    };
    let open = record_first(rt, script, go, device, shares)?;
    Ok(pools_in(alloc, &open)?)
}

// Records the first events of a script, and answers for each pool whether it is open after them.
#[tactic(auto, using(crate::proofs::First::left_recorded))]
fn record_first<M: GuestMem, L: Ledger, R: Wait>(
    rt: &R,
    script: &Script,
    count: usize,
    device: &LockedDevice<M, L>,
    shares: &mut Shares<L>,
) -> Result<[bool; 64], Fault>
    requires count { count ≤ length script.now.events }
    requires pf { shares.old.pf.caller ≡ Driver }
    requires service { shares.old.service.caller ≡ Service }
    ensures pf { shares.new.pf.caller ≡ Driver }
    ensures service { shares.new.service.caller ≡ Service }
    ensures others { (shares.new.pump ≡ shares.old.pump) × (shares.new.ports ≡ shares.old.ports) }
    ensures full { IfErr result (λ e. e ≡ Fault.HistoryFull) }
    ensures left { IfOk result
        (λ pools. HaveLeft (take count script.now.events) pools shares.old shares.new) }
    ensures recorded { OnOk result
        (HaveRecorded (take count script.now.events) shares.old shares.new) }
    ensures part { OnErr result
        ((done : ℕ) × (done < count)
        × HaveRecorded (take done script.now.events) shares.old shares.new) }
    ensures len { IfOk result (λ pools. length pools ≡ 64) }
{
    let mut scratch = Scratch::new();
    let mut room = Room::new();
    let mut pools = closed_pools();
    for at in 0..count {
        let request = script.request(at, &mut scratch);
        let response = record(rt, device, shares, request, &mut room)?;
        note(request, response.outcome, &mut pools);
    }
    Ok(pools)
}

// Records an event before `go`, and answers what came of it.
#[tactic(auto, using(crate::proofs::Turns::may_first))]
fn record<M: GuestMem, L: Ledger, R: Wait>(
    rt: &R,
    device: &LockedDevice<M, L>,
    shares: &mut Shares<L>,
    request: Request<'_>,
    room: &mut Room,
) -> Result<Response, Fault>
    requires pf { shares.old.pf.caller ≡ Driver }
    requires service { shares.old.service.caller ≡ Service }
    ensures pf { shares.new.pf.caller ≡ Driver }
    ensures service { shares.new.service.caller ≡ Service }
    ensures recorded { IfOk result (λ response.
        HasRecorded (event_of request.entry) (answer_of room.new response) shares.old shares.new) }
    ensures unchanged { OnErr result (HaveKept [] shares.old shares.new) }
    ensures full { IfErr result (λ e. e ≡ Fault.HistoryFull) }
{
    match caller_before(request) {
        Caller::Driver => ask(rt, device, &mut shares.pf, request, room),
        _ => ask(rt, device, &mut shares.service, request, room),
    }
}
