//! One event by a guest's port.
ghost use Rattle.std.specs.Prelude.{◌≡◌, true, IfErr, OnOk, OnErr};
ghost use Rattle.wire_frame.specs.declared.fault.Fault.{Fault};
ghost use Rattle.device.specs.Request.{event_of};
ghost use Rattle.history.specs.declared.caller.Caller.TheVariants.{Port};
ghost use Rattle.recorder.specs.Callers.{may};
ghost use Rattle.workers.specs.Callers.{is_end};
ghost use Rattle.workers.specs.Calls.{HasDone, HasMade, IsPortEvent};

use device::Request;
use device_lock::WhenFull;
use guest_memory::GuestMem;
use guest_port::{GuestPort, LockedPort};
use std::sync::Wait;
use std::sync::ledger::Ledger;
use wire_frame::Fault;

/// Does what an event asks of a port: a call, or its end. Where the history is full it is folded first.
/// [`Fault::HistoryFull`] where it can't be folded: nothing was done.
#[tactic(auto, using(crate::proofs::Turns::may_call, crate::proofs::Turns::has_ended, crate::proofs::Turns::has_made))]
pub fn call<M: GuestMem, L: Ledger, P: GuestPort, R: Wait>(
    rt: &R,
    port: &mut LockedPort<M, L, P>,
    request: Request<'_>,
) -> Result<(), Fault>
    requires { IsPortEvent port.old.port.pool (event_of request) }
    ensures done { OnOk result (HasDone (event_of request.entry) port.old port.new) }
    ensures undone { OnErr result (port.new ≡ port.old) }
    ensures full { IfErr result (λ e. e ≡ Fault.HistoryFull) }
{
    if is_end(request) {
        port.end();
        return Ok(());
    }
    make(rt, port, request)
}

// Whether an event is an end.
fn is_end(request: Request<'_>) -> bool
    ensures { result ≡ is_end (event_of request.entry) }
{
    matches!(request, Request::End(_))
}

// Makes a call, which is kept until the port has ended.
fn make<M: GuestMem, L: Ledger, P: GuestPort, R: Wait>(
    rt: &R,
    port: &mut LockedPort<M, L, P>,
    request: Request<'_>,
) -> Result<(), Fault>
    requires { may (Port port.old.port.pool) (event_of request) ≡ true }
    ensures made { OnOk result (HasMade (event_of request.entry) port.old port.new) }
    ensures undone { OnErr result (port.new ≡ port.old) }
    ensures full { IfErr result (λ e. e ≡ Fault.HistoryFull) }
{
    if !port.is_open() {
        return Ok(());
    }
    match port.ask(rt, request, WhenFull::Fold) {
        Ok(_) => Ok(()),
        Err(fault) => Err(fault),
    }
}
