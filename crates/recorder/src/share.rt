//! A caller's right to ask a device, with its calls.
ghost use Rattle.std.specs.Prelude.{◌≡◌, ◌%◌, ◌^◌};
ghost use Rattle.device.specs.Request.{event_of};
ghost use Rattle.history.specs.Callers.{caller_number};
ghost use Rattle.recorder.specs.Callers.{may, is_of_service, is_own, is_of_driver, is_frame};
ghost use Rattle.recorder.specs.Held.{count_of};

use crate::asked::Asked;
use device::{Request, Whose};
use history::Caller;
use irq_line::DeviceSeat;
use shadow::Shadow;
use std::marker::Model;
use std::sync::ledger::{Ledger, Share as Part};
use wire_frame::PoolId;

/// How many callers there are.
pub const CALLERS: usize = 67;

/// A caller's right to ask a recorded device, with the number of its calls. Contracts see the caller, the line of the device, and
/// those calls in order, each with its event and its answer.
///
/// A port may read and write the registers and the memory of its own pool's function and reset it; the driver of the
/// physical function may read, write and reset that function; the pump may bring frames; the service may make any event.
#[derive(Drop)]
pub struct Share<L: Ledger> {
    pub(crate) caller: Caller,
    pub(crate) count: u64,
    pub(crate) part: Part<L>,
    pub(crate) asked: Asked,
    // the device's seat of its line, as it was when the share was made
    pub(crate) line: Shadow<DeviceSeat>,
}

impl<L: Ledger> Model for Share<L> {
    ghost use Rattle.recorder.specs.Held.{CallerLog};

    ghost Value = { CallerLog };

    ghost use Rattle.std.specs.Prelude.{◌≡◌, ◌%◌, ◌^◌, length};

    ghost view = { λ s. record {
      caller = s.caller;
      line = s.line.value.line;
      asked = s.asked.calls;
    } };

    ghost invariant = { λ s. (s.part.parts ≡ 1) × (s.part.amount ≡ length s.asked.calls)
        × (s.count ≡ length s.asked.calls % 2 ^ 64) };
}

impl<L: Ledger> Share<L> {
    /// The number of the caller: 0 to 63 for the port of that pool, 64 for the driver of the physical function, 65 for the pump,
    /// 66 for the service.
    #[inline]
    pub fn caller(&self) -> u8
        ensures { result ≡ caller_number self.now.caller }
    {
        self.caller.number()
    }

    /// How many calls the caller made, modulo 2^64.
    #[inline]
    pub fn count(&self) -> u64
        ensures { result ≡ count_of self.now % 2 ^ 64 }
    {
        self.count
    }

    /// Whether the caller may ask this.
    #[inline]
    pub fn may(&self, request: Request<'_>) -> bool
        ensures { result ≡ may self.now.caller (event_of request.entry) }
    {
        match self.caller {
            Caller::Port(pool) => is_own(pool, request),
            Caller::Driver => is_of_driver(request),
            Caller::Pump => is_frame(request),
            Caller::Service => true,
        }
    }
}

// Whether it is one of a function's own events that its guest can't make.
#[inline]
fn is_of_service(request: Request<'_>) -> bool
    ensures { result ≡ is_of_service (event_of request.entry) }
{
    match request {
        Request::Open(_) | Request::End(_) | Request::Serve(_, _) => true,
        _ => false,
    }
}

// Whether it is an event of a pool's own function, which its port may make.
#[inline]
#[tactic(auto, using(device::proofs::Owners::whose_asked))]
fn is_own(own: PoolId, request: Request<'_>) -> bool
    ensures { result ≡ is_own own (event_of request.entry) }
{
    let of_service = is_of_service(request);
    match request.whose() {
        Whose::Function(pool) => !of_service && own.get() == pool,
        Whose::Physical | Whose::Wire => false,
    }
}

// Whether it is an event of the physical function, which its driver may make.
#[inline]
#[tactic(auto, using(device::proofs::Owners::whose_asked))]
fn is_of_driver(request: Request<'_>) -> bool
    ensures { result ≡ is_of_driver (event_of request.entry) }
{
    matches!(request.whose(), Whose::Physical)
}

// Whether it brings a frame from the wire.
#[inline]
#[tactic(auto, using(device::proofs::Owners::whose_asked))]
fn is_frame(request: Request<'_>) -> bool
    ensures { result ≡ is_frame (event_of request.entry) }
{
    matches!(request.whose(), Whose::Wire)
}
