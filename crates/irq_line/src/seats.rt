//! The seats of a line: the device's and the guests'.
ghost use Rattle.std.specs.Prelude.{◌≡◌, ℕ, ◌+◌, ◌<◌, [], ◌∷◌, ◌++◌, List};
ghost use Rattle.irq_line.specs.declared.views.Raise.{Raise};
ghost use Rattle.irq_line.specs.Line.{raise_of, bit_for, raised, IsWord, StandsIn, record_of, after_take, after_peek};

use crate::line::{Beside, Line, Peeks, Raises, Takes};
use crate::views::View;
use atomic_table::Seat;
use irq_causes::Vectors;
use std::marker::Model;
use std::sync::Arc;
use wire_frame::PoolId;

/// The seat that raises messages. Contracts see its line and the raises that it made.
#[derive(Drop)]
pub struct DeviceSeat {
    pub(crate) line: Arc<Line>,
    pub(crate) seat: Seat<(), View>,
}

impl Model for DeviceSeat {
    ghost use Rattle.irq_line.specs.Line.{DeviceEnd};

    ghost Value = { DeviceEnd };

    ghost use Rattle.std.specs.Prelude.{◌≡◌, []};
    ghost use Rattle.std.specs.Arc.{arc_value};
    ghost use Rattle.irq_line.specs.declared.views.View.TheVariants.{Device};
    ghost use Rattle.irq_line.specs.Line.{raises_of};

    ghost view = { λ s. record { line = s.seat.table_id; raises = raises_of s.seat.me.0 } };

    ghost invariant = { λ s. (s.seat.table_id ≡ (arc_value s.line).shared.table_id)
        × (s.seat.table_id.words ≡ 64) × (s.seat.me ≡ (Device (raises_of s.seat.me.0) 64, [])) };
}

/// The seat of one pool's guest. Contracts see its line, its pool, the answers of its takes and of its peeks, and the bits that
/// its peeks answered since the last take.
#[derive(Drop)]
pub struct GuestSeat {
    pub(crate) line: Arc<Line>,
    pub(crate) seat: Seat<(), View>,
    pub(crate) pool: u8,
}

impl Model for GuestSeat {
    ghost use Rattle.irq_line.specs.Line.{GuestEnd};

    ghost Value = { GuestEnd };

    ghost use Rattle.std.specs.Prelude.{◌≡◌, ◌<◌, []};
    ghost use Rattle.std.specs.Arc.{arc_value};
    ghost use Rattle.irq_line.specs.declared.views.View.TheVariants.{Guest};
    ghost use Rattle.irq_line.specs.Line.{guest_in};

    ghost view = { λ s. record { line = s.seat.table_id; view = (guest_in s.seat.me.0).did } };

    ghost invariant = { λ s. (s.seat.table_id ≡ (arc_value s.line).shared.table_id)
        × (s.seat.table_id.words ≡ 64) × (s.seat.me ≡ (Guest (guest_in s.seat.me.0), []))
        × ((guest_in s.seat.me.0).did.pool ≡ s.pool) × (s.pool < 64) };
}

impl DeviceSeat {
    /// Raises vectors for the guest of a pool: they stand until the guest takes them, and one that stands already stands on.
    /// One step, which waits for nobody.
    #[inline]
    pub fn raise(&mut self, pool: PoolId, vectors: Vectors)
        ensures made { (found : ℕ) × (found < 8)
            × (self.new
            ≡ record self.old { raises = self.old.raises ++ raise_of pool vectors found ∷ [] }) }
        ensures counted { (p v : ℕ) →
            raised p v self.new.raises ≡ raised p v self.old.raises + bit_for p v pool vectors }
    {
        let words = &self.line.shared;
        let (place, mask) = (usize::from(pool.get()), u64::from(vectors.bits()));
        words.fetch_or::<Raises>(&mut self.seat, place, mask);
    }

    /// Compares the seat with a guest's of the same line, which changes neither: there is a word, and a story of it that has the
    /// raises for the guest's pool and the takes and peeks of the guest, and that it ends in.
    pub fn beside(&mut self, guest: GuestSeat) -> GuestSeat
        requires one { guest.line ≡ self.old.line }
        ensures device { self.new ≡ self.old }
        ensures guest { result ≡ guest }
        ensures word { (word : ℕ) × (seen : List Raise)
            × IsWord result.view.pool word self.new.raises (record_of result.view seen) }
    {
        let GuestSeat { line, seat, pool } = guest;
        let words = &self.line.shared;
        words.join_seat::<Beside>(&mut self.seat, seat);
        words.load::<Beside>(&mut self.seat, usize::from(pool));
        let seat = words.split_seat::<Beside>(&mut self.seat);
        GuestSeat { line, seat, pool }
    }
}

impl GuestSeat {
    /// The pool, 0 to 63.
    #[inline]
    pub fn pool(&self) -> u8
        ensures pool { result ≡ self.now.view.pool }
        ensures below { result < 64 }
    {
        self.pool
    }

    /// Takes the messages that stand for the pool: the answer has bit v for vector v, and none stands any more. One step,
    /// which waits for nobody.
    #[inline]
    pub fn take(&mut self) -> u8
        ensures below { result < 8 }
        ensures taken { self.new ≡ record self.old { view = after_take self.old.view result } }
        ensures peeked { StandsIn self.old.view.peeked result }
    {
        let words = &self.line.shared;
        words.swap::<Takes>(&mut self.seat, usize::from(self.pool), 0) as u8
    }

    /// The messages that stand for the pool, bit v for vector v. They stand on, so that the next take answers them. One step,
    /// which waits for nobody, and which the seat counts among its peeks.
    #[inline]
    pub fn peek(&mut self) -> u8
        ensures below { result < 8 }
        ensures seen { self.new ≡ record self.old { view = after_peek self.old.view result } }
        ensures again { StandsIn self.old.view.peeked result }
    {
        let words = &self.line.shared;
        words.load::<Peeks>(&mut self.seat, usize::from(self.pool)) as u8
    }
}
