//! The threads of a round.
ghost use Rattle.std.specs.Prelude.{◌≡◌};
ghost use Rattle.history.specs.declared.caller.Caller.TheVariants.{Pump};
ghost use Rattle.irq_line.specs.Line.{AreSeatsOf};
ghost use Rattle.recorder.specs.Made.{AreSharesOf};

use crate::guest::{Life, live};
use crate::round::{Figures, Kind, Plan};
use crate::wire::{feed, pumping};
use anyhow::{Result, anyhow};
use device_lock::{LockedDevice, Share, Shares};
use guest_memory::GuestMem;
use guest_port::{GuestPort, IrqPort, LockedPort};
use irq_line::GuestSeat;
use lock_support::{last_seat, port_share};
use std::alloc::Global;
use std::sync::ledger::Ledger;
use std::sync::{Arc, Wait};
use std::thread;
use std::thread::{JoinHandle, Threads};
use std::time::Clock;
use wire_pump::{LockedDoor, channel};

// A port of a seat, with the device and its share.
fn seated<M: GuestMem, L: Ledger>(
    alloc: Global,
    device: &Arc<LockedDevice<M, L>>,
    shares: &mut Shares<L>,
    seat: GuestSeat,
) -> Result<LockedPort<M, L, IrqPort>>
    requires line { seat.line ≡ shares.old.pump.line }
    requires shares { AreSharesOf shares.old.pump.line shares.old.ports.items }
    ensures shares { AreSharesOf shares.new.pump.line shares.new.ports.items }
    ensures pump { shares.new.pump ≡ shares.old.pump }
{
    let pool = seat.pool();
    let (port, _note) = match IrqPort::new(alloc, pool, seat) {
        Ok(made) => made,
        Err(fault) => return Err(anyhow!("no port: {fault}")),
    };
    let Some(share) = port_share(shares, pool) else {
        return Err(anyhow!("a pool has two ports"));
    };
    let Ok(device) = Arc::try_clone(device) else {
        return Err(anyhow!("the device has too many owners"));
    };
    Ok(LockedPort::new(device, share, port))
}

/// The ports of all seats, with the device and their shares.
pub fn seat_all<M: GuestMem, L: Ledger>(
    alloc: Global,
    device: &Arc<LockedDevice<M, L>>,
    shares: &mut Shares<L>,
    mut seats: Vec<GuestSeat>,
) -> Result<Vec<LockedPort<M, L, IrqPort>>>
    requires seats { AreSeatsOf shares.old.pump.line seats.items }
    requires shares { AreSharesOf shares.old.pump.line shares.old.ports.items }
    ensures { shares.new.pump ≡ shares.old.pump }
{
    let mut ports = Vec::with_capacity(alloc, seats.len())?;
    for _ in 0..64u8 {
        let Some(seat) = last_seat(&mut seats, &shares.pump) else {
            break;
        };
        ports.push(seated(alloc, device, shares, seat)?)?;
    }
    Ok(ports)
}

// A guest's life, and the share of its port after it.
fn live_and_close<M: GuestMem, L: Ledger, R: Wait + Clock>(
    rt: &R,
    port: &mut LockedPort<M, L, IrqPort>,
    plan: Plan,
) -> (Life, Option<Share<L>>) {
    let life = live(rt, port, plan);
    let share = match port.close() {
        Some((share, tokens)) => {
            drop(tokens);
            Some(share)
        }
        None => None,
    };
    (life, share)
}

/// The threads that run: a guest's for each port, the pump's, and that of the wire.
#[derive(Drop)]
pub struct Crew<L: Ledger> {
    guests: Vec<JoinHandle<(Life, Option<Share<L>>)>>,
    pump: JoinHandle<Share<L>>,
    wire: JoinHandle<u64>,
}

impl<L: Ledger + Send + Sync + 'static> Crew<L> {
    /// Starts them.
    pub fn start<M: GuestMem + Send + 'static, R: Threads + Wait + Clock + Copy + Send + 'static>(
        rt: R,
        alloc: Global,
        device: &Arc<LockedDevice<M, L>>,
        ports: Vec<LockedPort<M, L, IrqPort>>,
        pump: Share<L>,
        plan: Plan,
    ) -> Result<Crew<L>>
        requires { pump.caller ≡ Pump }
    {
        let is_folded = plan.kind == Kind::Fold;
        let (mut sender, receiver) = channel(alloc)?;
        let door = LockedDoor::new(Arc::try_clone(device)?, pump);
        let pump = thread::spawn(&rt, move || pumping(&rt, receiver, door, is_folded))?;
        let wire = thread::spawn(&rt, move || feed(&rt, &mut sender, plan.until, plan.seed))?;
        let mut guests = Vec::with_capacity(alloc, ports.len())?;
        for port in ports {
            let work = move || {
                let mut port = port;
                live_and_close(&rt, &mut port, plan)
            };
            guests.push(thread::spawn(&rt, work)?)?;
        }
        Ok(Crew { guests, pump, wire })
    }

    /// Waits for all, puts their shares behind the others, and adds up what they did.
    pub fn join<R: Threads>(
        self,
        rt: &R,
        shares: &mut Vec<Share<L>>,
        figures: &mut Figures,
    ) -> Result<()> {
        let Crew { guests, pump, wire } = self;
        for guest in guests {
            let (life, share) = guest.join(rt);
            figures.life = figures.life.and(life);
            if let Some(share) = share {
                shares.push(share)?;
            }
        }
        figures.frames = wire.join(rt);
        shares.push(pump.join(rt))?;
        Ok(())
    }
}
