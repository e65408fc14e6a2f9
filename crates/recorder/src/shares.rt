//! The shares of all callers.
ghost use Rattle.std.specs.Prelude.{◌≡◌, ◌+◌, ◌<◌, ◌≤◌, ◌++◌, IfSome, IfNone, IfOk, OnOk, Some, None, slice_get, slice_set, ◌⊎◌};
ghost use Rattle.history.specs.declared.caller.Caller.TheVariants.{Port};
ghost use Rattle.recorder.specs.Held.{AreOfPools, left_of, unused};

use crate::asked::Asked;
use crate::share::Share;
use history::Caller;
use irq_line::DeviceSeat;
use shadow::Shadow;
use std::alloc::{AllocError, Global};
use std::sync::ledger::{Ledger, Share as Part};
use wire_frame::PoolId;

/// The shares of the 67 callers. Those of the ports are handed out by [`Shares::port`].
#[derive(Drop)]
pub struct Shares<L: Ledger> {
    /// The share of the caller that drives the physical function.
    pub pf: Share<L>,
    /// The share of the caller that brings the frames from the wire.
    pub pump: Share<L>,
    /// The share of the caller that may make any event.
    pub service: Share<L>,
    ports: Vec<Option<Share<L>>>,
    ghost of_pools: { AreOfPools ports.items },
}

impl<L: Ledger> Shares<L> {
    ghost use Rattle.recorder.specs.Made.{AreUnused, left_in};

    // The shares of all callers, of the part that all of them make, for a device that has this seat.
    pub(crate) fn new(
        alloc: Global,
        mut all: Part<L>,
        line: &DeviceSeat,
    ) -> Result<Shares<L>, AllocError>
        requires parts { all.parts ≡ 67 }
        requires amount { all.amount ≡ 0 }
        ensures { IfOk result (AreUnused line.now.line) }
    {
        let mut ports = Vec::with_capacity(alloc, usize::from(PoolId::COUNT))?;
        for pool in 0..PoolId::COUNT {
            ports.push(Some(cut(&mut all, line, port_of(pool))))?;
        }
        let pf = cut(&mut all, line, Caller::Driver);
        let pump = cut(&mut all, line, Caller::Pump);
        let service = cut(&mut all, line, Caller::Service);
        Ok(together(pf, pump, service, ports))
    }

    /// The share of a pool's port, which is handed out once: None the second time, and above pool 63.
    pub fn port(&mut self, pool: u8) -> Option<Share<L>>
        ensures share { IfSome result
            (λ share. slice_get self.old.ports.items pool ≡ Some (Some share)) }
        ensures caller { IfSome result (λ share. share.caller ≡ Port pool) }
        ensures gone { IfNone result ((slice_get self.old.ports.items pool ≡ None)
            ⊎ (slice_get self.old.ports.items pool ≡ Some None)) }
        ensures ports { self.new.ports.items ≡ slice_set self.old.ports.items pool None }
        ensures others { (self.new.pf ≡ self.old.pf) × (self.new.pump ≡ self.old.pump)
            × (self.new.service ≡ self.old.service) }
    {
        let index = usize::from(pool);
        if index >= self.ports.len() {
            return None;
        }
        self.ports[index].take()
    }

    /// Puts all shares that were not handed out behind others. Where the host refuses the room, they are spent.
    pub fn put_back(self, others: &mut Vec<Share<L>>) -> Result<(), AllocError>
        ensures all { OnOk result (others.new.items ≡ others.old.items ++ left_in self) }
    {
        let Shares {
            pf,
            pump,
            service,
            ports,
        } = self;
        others.push(pf)?;
        others.push(pump)?;
        others.push(service)?;
        push_left(ports, others)
    }
}

// Puts the ports' shares that were not handed out behind others.
#[tactic(auto, using(crate::proofs::ShareLemmas::left_none))]
fn push_left<L: Ledger>(
    ports: Vec<Option<Share<L>>>,
    others: &mut Vec<Share<L>>,
) -> Result<(), AllocError>
    ensures all { OnOk result (others.new.items ≡ others.old.items ++ left_of ports.items) }
{
    for port in ports {
        if let Some(share) = port {
            others.push(share)?;
        }
    }
    Ok(())
}

// The caller that is the port of a pool.
fn port_of(pool: u8) -> Caller
    requires { pool < 64 }
    ensures { result ≡ Port pool }
{
    match PoolId::new(pool) {
        Some(pool) => Caller::Port(pool),
        None => unreachable!(),
    }
}

// A share of one part, of a caller that made no call.
fn cut<L: Ledger>(all: &mut Part<L>, line: &DeviceSeat, caller: Caller) -> Share<L>
    requires parts { 1 ≤ all.old.parts }
    requires amount { all.old.amount ≡ 0 }
    ensures share { result ≡ unused line.now.line caller }
    ensures parts { all.new.parts + 1 ≡ all.old.parts }
    ensures amount { all.new.amount ≡ 0 }
{
    Share {
        caller,
        count: 0,
        part: all.split_off(1, 0),
        asked: Asked::new(),
        line: Shadow::of(line),
    }
}

// The shares in one place.
fn together<L: Ledger>(
    pf: Share<L>,
    pump: Share<L>,
    service: Share<L>,
    ports: Vec<Option<Share<L>>>,
) -> Shares<L>
    requires { AreOfPools ports.items }
    ensures pf { result.pf ≡ pf }
    ensures pump { result.pump ≡ pump }
    ensures service { result.service ≡ service }
    ensures ports { result.ports ≡ ports }
{
    Shares {
        pf,
        pump,
        service,
        ports,
    }
}
