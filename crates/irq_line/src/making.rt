//! A line, and its seats.
ghost use Rattle.std.specs.Prelude.{◌≡◌, ℕ, ◌+◌, ◌<◌, [], IfOk, IfErr, OnOk, length, Some, slice_get};
ghost use Rattle.std.specs.Arc.{arc_value};
ghost use Rattle.wire_frame.specs.declared.fault.Fault.TheVariants.{NoMemory};
ghost use Rattle.irq_line.specs.declared.views.View.TheVariants.{Device};
ghost use Rattle.irq_line.specs.Line.{new_guest};

use crate::line::{Line, NextGuest};
use crate::seats::{DeviceSeat, GuestSeat};
use crate::views::View;
use atomic_table::{Seat, Table};
use std::alloc::{AllocError, Global};
use std::sync::Arc;
use wire_frame::{Fault, PoolId};

/// A line on which nothing stands: the device's seat, and the seats of the guests of the 64 pools, in order.
/// [`Fault::NoMemory`] comes only where the host refused the room.
///
/// ```
/// let (mut device, mut guests) = make(rt.alloc())?;
/// if let (Some(pool), Some(vectors)) = (PoolId::new(3), Vectors::new(5)) {
///     device.raise(pool, vectors);
/// }
/// assert!(rt; guests[3].peek() == 5);
/// assert!(rt; guests[3].take() == 5);
/// assert!(rt; guests[3].take() == 0);
/// ```
#[tactic(auto, using(crate::proofs::Keeps::begins))]
pub fn make(alloc: Global) -> Result<(DeviceSeat, Vec<GuestSeat>), Fault>
    ensures device { IfOk result (λ r. r.0.raises ≡ []) }
    ensures count { IfOk result (λ r. length r.1.items ≡ 64) }
    ensures guests { IfOk result (λ r. (p : ℕ) → p < 64 →
        slice_get r.1.items p ≡ Some (record { line = r.0.line; view = new_guest p })) }
    ensures no_memory { IfErr result (λ fault. fault ≡ NoMemory) }
{
    let (table, mut seat) = Table::of_words(alloc, &[0; 64], &())?;
    let line = Arc::new(alloc, table)?;
    let guests = guests_of(alloc, &line, &mut seat)?;
    Ok((DeviceSeat { line, seat }, guests))
}

// The seats of all guests, in the order of their pools.
fn guests_of(
    alloc: Global,
    line: &Arc<Line>,
    seat: &mut Seat<(), View>,
) -> Result<Vec<GuestSeat>, AllocError>
    requires line { seat.old.table_id ≡ (arc_value line.now).shared.table_id }
    requires words { seat.old.table_id.words ≡ 64 }
    requires none { seat.old.me ≡ (Device [] 0, []) }
    ensures line { seat.new.table_id ≡ seat.old.table_id }
    ensures all { OnOk result (seat.new.me ≡ (Device [] 64, [])) }
    ensures count { IfOk result (λ guests. length guests.items ≡ 64) }
    ensures guests { IfOk result (λ guests. (p : ℕ) → p < 64 →
        slice_get guests.items p ≡ Some (record { line = seat.old.table_id; view = new_guest p })) }
{
    let mut guests = Vec::with_capacity(alloc, usize::from(PoolId::COUNT))?;
    for pool in 0..PoolId::COUNT {
        guests.push(seat_of(line, seat, pool)?)?;
    }
    Ok(guests)
}

// The seat of the guest of the next pool.
#[tactic(auto, using(crate::proofs::Keeps::guest_seated))]
fn seat_of(line: &Arc<Line>, seat: &mut Seat<(), View>, pool: u8) -> Result<GuestSeat, AllocError>
    requires line { seat.old.table_id ≡ (arc_value line.now).shared.table_id }
    requires words { seat.old.table_id.words ≡ 64 }
    requires next { (seat.old.me ≡ (Device [] pool, [])) × (pool < 64) }
    ensures line { seat.new.table_id ≡ seat.old.table_id }
    ensures next { OnOk result (seat.new.me ≡ (Device [] (pool + 1), [])) }
    ensures guest { IfOk result
        (λ g. g ≡ record { line = seat.old.table_id; view = new_guest pool }) }
{
    let line = Arc::try_clone(line)?;
    let guest = line.shared.split_seat::<NextGuest>(seat);
    Ok(GuestSeat {
        line,
        seat: guest,
        pool,
    })
}
