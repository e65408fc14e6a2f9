//! The pump's door, with its gate.
ghost use Rattle.std.specs.Prelude.{◌≡◌};
ghost use Rattle.history.specs.declared.caller.Caller.TheVariants.{Pump};

use crate::gate::Gate;
use device::{Answer, Event};
use device_lock::{Caller, Full, Share};
use guest_memory::GuestMem;
use std::sync::ledger::Ledger;
use std::sync::{Arc, Wait};
use wire_frame::FrameBuf;
use wire_pump::{Door, LockedDoor};

/// The door to a device that threads share, which takes each event between one call before and one after of the gate.
#[derive(Drop)]
pub struct GatedDoor<M: GuestMem, L: Ledger, G: Gate + Drop> {
    inner: LockedDoor<M, L>,
    gate: Arc<G>,
    // how many events came
    n: u32,
}

impl<M: GuestMem, L: Ledger, G: Gate + Drop> GatedDoor<M, L, G> {
    /// The door, which took what the inner one did.
    pub fn new(inner: LockedDoor<M, L>, gate: Arc<G>) -> GatedDoor<M, L, G>
        ensures { result.inner ≡ inner }
    {
        GatedDoor { inner, gate, n: 0 }
    }

    /// The share, after all that the door took.
    pub fn into_share(self) -> Share<L>
        ensures share { result ≡ self.inner.share }
        ensures pump { result.caller ≡ Pump }
    {
        let GatedDoor {
            inner,
            gate: _,
            n: _,
        } = self;
        inner.into_share()
    }
}

impl<M: GuestMem, L: Ledger, G: Gate + Drop> Door for GatedDoor<M, L, G> {
    ghost use Rattle.std.specs.Prelude.{Some};
    ghost use Rattle.history.specs.Entries.{events};

    ghost taken = { λ d. events d.inner.share.asked };

    ghost calls = { λ d. d.inner.share.asked };

    ghost refused = { λ d. d.inner.refused };

    ghost line = { λ d. Some d.inner.share.line };

    fn act<R: Wait>(&mut self, rt: &R, event: Event) -> Result<Answer, Full> {
        self.n = self.n.wrapping_add(1);
        self.gate.before(Caller::Pump.number(), self.n);
        let answer = self.inner.act(rt, event);
        self.gate.after(Caller::Pump.number(), self.n);
        answer
    }

    fn take<R: Wait>(&mut self, rt: &R, frame: &FrameBuf) -> bool {
        self.n = self.n.wrapping_add(1);
        self.gate.before(Caller::Pump.number(), self.n);
        let taken = self.inner.take(rt, frame);
        self.gate.after(Caller::Pump.number(), self.n);
        taken
    }
}
