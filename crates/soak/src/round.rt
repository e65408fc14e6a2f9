//! A round: a device as it is made, all its callers in threads of their own, and what came of it.
ghost use Rattle.std.specs.Prelude.{◌≡◌, [], IfOk};
ghost use Rattle.history.specs.declared.caller.Caller.TheVariants.{Pump};
ghost use Rattle.irq_line.specs.Line.{AreSeatsOf};
ghost use Rattle.recorder.specs.Made.{AreSharesOf};

use crate::crew::{Crew, seat_all};
use crate::driver::{drive, set_up};
use crate::guest::Life;
use crate::until::Until;
use anyhow::{Result, anyhow};
use device::Device;
use device_lock::{LockedDevice, Recorded, Share, Shares};
use guest_memory::GuestMem;
use irq_line::{DeviceSeat, GuestSeat};
use std::alloc::Global;
use std::sync::ledger::{Blank, Ledger};
use std::sync::{Arc, Wait};
use std::thread::Threads;
use std::time::Clock;

/// What becomes of a history.
#[derive(Clone, Copy, Debug, PartialEq, Eq)]
pub enum Kind {
    /// It is folded as it fills.
    Fold,
    /// It is filled, and replayed on a fresh device.
    Fill,
}

/// How a round is done.
#[derive(Clone, Copy)]
pub struct Plan {
    /// What becomes of the history.
    pub kind: Kind,
    /// How many calls it keeps.
    pub cap: usize,
    /// When the round is over.
    pub until: Until,
    /// What chance begins with.
    pub seed: u64,
}

/// What a round is done on: a line, the seats of its guests, and the memories of two devices.
#[derive(Drop)]
pub struct Stage<M: GuestMem> {
    pub line: DeviceSeat,
    pub seats: Vec<GuestSeat>,
    pub live: Vec<M>,
    pub other: Vec<M>,
    pub ghost unused: { line.raises ≡ [] },
    pub ghost one: { AreSeatsOf line.line seats.items },
}

/// What came of a round.
#[derive(Clone, Copy, Default)]
pub struct Figures {
    /// What all guests did.
    pub life: Life,
    /// How many frames were sent from the wire.
    pub frames: u64,
    /// How often the history was folded.
    pub folds: u64,
    /// How many calls were folded away, and how many are kept.
    pub folded: u64,
    pub kept: u64,
    /// How many calls the shares tell: those of the ports together, the driver's, the pump's and the service's.
    pub told: [u64; 4],
    /// Whether a fresh device gave the kept answers.
    pub replays: bool,
}

// A recorded device with its shares, and a fresh one where it has no twin.
#[derive(Drop)]
struct Made<M: GuestMem, L: Ledger> {
    device: Arc<LockedDevice<M, L>>,
    shares: Shares<L>,
    fresh: Option<Device<M>>,
    ghost pump: { shares.pump.caller ≡ Pump },
    ghost left: { AreSharesOf shares.pump.line shares.ports.items },
}

// Makes the devices.
#[tactic(auto, using(recorder::proofs::LineLemmas::pump_line))]
fn make<M: GuestMem, L: Ledger>(
    alloc: Global,
    blank: Blank,
    line: DeviceSeat,
    live: Vec<M>,
    other: Vec<M>,
    plan: Plan,
) -> Result<Made<M, L>>
    requires blank { (blank.name ≡ L.name) × (blank.parts ≡ L.parts) × (blank.parts ≡ 67) }
    requires line { line.raises ≡ [] }
    ensures line { IfOk result (λ made. made.shares.pump.line ≡ line.line) }
{
    let live = Device::new(alloc, live)?;
    let other = Device::new(alloc, other)?;
    if plan.kind == Kind::Fold {
        let (recorded, shares) = Recorded::<M, L>::with_twin(
            alloc, blank, live, other, line, plan.cap,
        )?;
        behind_lock(alloc, recorded, shares, None)
    } else {
        let (recorded, shares) = Recorded::<M, L>::new(alloc, blank, live, line, plan.cap)?;
        behind_lock(alloc, recorded, shares, Some(other))
    }
}

// The recorded device behind its lock, with its shares and with the device that is to give the same answers, if there is one.
fn behind_lock<M: GuestMem, L: Ledger>(
    alloc: Global,
    recorded: Recorded<M, L>,
    shares: Shares<L>,
    fresh: Option<Device<M>>,
) -> Result<Made<M, L>>
    requires pump { shares.pump.caller ≡ Pump }
    requires left { AreSharesOf shares.pump.line shares.ports.items }
    ensures line { IfOk result (λ made. made.shares.pump.line ≡ shares.pump.line) }
{
    Ok(Made {
        device: LockedDevice::new(alloc, recorded)?,
        shares,
        fresh,
    })
}

/// Does a round.
pub fn round<
    M: GuestMem + Send + 'static,
    L: Ledger + Send + Sync + 'static,
    R: Threads + Wait + Clock + Copy + Send + 'static,
>(rt: R, alloc: Global, blank: Blank, stage: Stage<M>, plan: Plan) -> Result<Figures>
    requires { (blank.name ≡ L.name) × (blank.parts ≡ L.parts) × (blank.parts ≡ 67) }
{
    let Stage {
        line,
        seats,
        live,
        other,
    } = stage;
    let Made {
        device,
        mut shares,
        mut fresh,
    } = make::<M, L>(alloc, blank, line, live, other, plan)?;
    let guests = seat_all(alloc, &device, &mut shares, seats)?;
    let mut back = Vec::with_capacity(alloc, 67)?;
    shares.put_back(&mut back)?;
    if back.len() != 3 {
        return Err(anyhow!("a pool has no port"));
    }
    let (mut service, pump, mut pf) = (back.remove(2), back.remove(1), back.remove(0));
    set_up(&rt, &*device, &mut service);
    let mut crew = Crew::start(rt, alloc, &device, guests, pump, plan)?;
    let mut figures = Figures::default();
    figures.folds = drive(&rt, &*device, &mut pf, &mut service, plan);
    back.push(pf)?;
    back.push(service)?;
    crew.join(&rt, &mut back, &mut figures)?;
    figures.kept = device.kept(&rt) as u64;
    figures.folded = device.folded(&rt) as u64;
    if let Some(fresh) = &mut fresh {
        figures.replays = device.replays(&rt, fresh);
    }
    figures.told = told(&rt, &*device, back)?;
    Ok(figures)
}

// How many calls the shares tell.
fn told<M: GuestMem, L: Ledger, R: Wait>(
    rt: &R,
    device: &LockedDevice<M, L>,
    shares: Vec<Share<L>>,
) -> Result<[u64; 4]> {
    let Some(tally) = device.tally(rt, shares) else {
        return Err(anyhow!("a share is missing"));
    };
    let mut told = [0u64; 4];
    for (caller, count) in tally.entries.iter().enumerate() {
        let place = caller.saturating_sub(63);
        told[place] = told[place].wrapping_add(*count);
    }
    Ok(told)
}
