//! Seats of a line, and shares for a device of that line: a port's seat and its share are of one line.
ghost use Rattle.std.specs.Prelude.{◌≡◌, [], IfOk, IfSome};
ghost use Rattle.history.specs.declared.caller.Caller.TheVariants.{Port};
ghost use Rattle.irq_line.specs.Line.{AreSeatsOf};
ghost use Rattle.recorder.specs.Made.{AreSharesOf};

use device_lock::{Share, Shares};
use irq_line::{DeviceSeat, GuestSeat, make};
use std::alloc::Global;
use std::sync::ledger::Ledger;
use wire_frame::Fault;

/// A line: the device's seat, and those of the guests, in the order of their pools.
#[tactic(auto, using(irq_line::proofs::SeatLemmas::made_seats))]
pub fn line(alloc: Global) -> Result<(DeviceSeat, Vec<GuestSeat>), Fault>
    ensures line { IfOk result (λ r. r.0.raises ≡ []) }
    ensures seats { IfOk result (λ r. AreSeatsOf r.0.line r.1.items) }
{
    make(alloc)
}

/// A line: the device's seat, and the guest's of a pool. [`Fault::NoSuchVf`] for a pool of 64 or more.
pub fn line_of(alloc: Global, pool: u8) -> Result<(DeviceSeat, GuestSeat), Fault>
    ensures line { IfOk result (λ r. r.0.raises ≡ []) }
    ensures pool { IfOk result (λ r. r.1.view.pool ≡ pool) }
    ensures one { IfOk result (λ r. r.1.line ≡ r.0.line) }
{
    let (line, mut seats) = match make(alloc) {
        Ok(made) => made,
        Err(fault) => return Err(fault),
    };
    let index = usize::from(pool);
    if index >= seats.len() {
        return Err(Fault::NoSuchVf);
    }
    Ok((line, seats.remove(index)))
}

/// The last of these seats, which are of the line that a share's device has.
pub fn last_seat<L: Ledger>(seats: &mut Vec<GuestSeat>, share: &Share<L>) -> Option<GuestSeat>
    requires { AreSeatsOf share.now.line seats.old.items }
    ensures line { IfSome result (λ seat. seat.line ≡ share.now.line) }
    ensures seats { AreSeatsOf share.now.line seats.new.items }
{
    seats.pop()
}

/// The share of a pool's port. None where it was handed out.
#[tactic(auto, using(recorder::proofs::LineLemmas::shares_still))]
pub fn port_share<L: Ledger>(shares: &mut Shares<L>, pool: u8) -> Option<Share<L>>
    requires { AreSharesOf shares.old.pump.line shares.old.ports.items }
    ensures caller { IfSome result (λ share. share.caller ≡ Port pool) }
    ensures line { IfSome result (λ share. share.line ≡ shares.old.pump.line) }
    ensures shares { AreSharesOf shares.new.pump.line shares.new.ports.items }
    ensures pf { shares.new.pf ≡ shares.old.pf }
    ensures pump { shares.new.pump ≡ shares.old.pump }
    ensures service { shares.new.service ≡ shares.old.service }
{
    match shares.port(pool) {
        Some(share) => Some(share),
        None => None,
    }
}
