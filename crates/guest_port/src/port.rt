//! Ports, as contracts see them.
ghost use Rattle.std.specs.Prelude.{◌≡◌, ◌<◌, true, false, MatchOption};
ghost use Rattle.irq_line.specs.Line.{StandsIn};
ghost use Rattle.guest_port.specs.Port.{Port, having_taken, having_peeked, ended, closed};

use crate::note::EndNote;
use irq_line::GuestSeat;

/// What a port hands back when it is closed.
#[derive(Drop)]
pub struct Tokens {
    /// The seat of its pool on the interrupt line.
    pub seat: GuestSeat,
    /// Its own note, which knows its end.
    pub note: EndNote,
}

/// A guest's port, by the calls that wait for nobody. It is open until it ends, and ends when it is closed or dropped.
///
/// Its meaning is its pool, whether it is open, whether it was closed, its note, its seat on the interrupt line, the messages that
/// it took, the answers of its peeks, and the bits that it has peeked since its last take.
pub trait GuestPort: Drop {
    ghost meaning: { Self → Port };

    /// The pool, 0 to 63.
    fn pool(&self) -> u8
        ensures pool { result ≡ (meaning self.now).pool }
        ensures below { result < 64 };

    /// Whether it has not ended.
    fn is_open(&self) -> bool
        ensures open { result ≡ (meaning self.now).is_open }
        ensures closed { (meaning self.now).is_closed ≡ true → result ≡ false };

    /// Takes the interrupt messages that stand for the pool, those that were peeked among them: bit v for vector v, and none
    /// stands any more. One step; 0 once the port was closed.
    fn take_irqs(&mut self) -> u8
        ensures taken { meaning self.new ≡ having_taken (meaning self.old) result }
        ensures closed { (meaning self.old).is_closed ≡ true → result ≡ 0 }
        ensures stood { (meaning self.old).is_closed ≡ false
            → StandsIn (meaning self.old).peeked result };

    /// The interrupt messages that stand for the pool, bit v for vector v; they stand on. One step; 0 once the port was
    /// closed.
    fn peek_irqs(&mut self) -> u8
        ensures peeked { meaning self.new ≡ having_peeked (meaning self.old) result }
        ensures closed { (meaning self.old).is_closed ≡ true → result ≡ 0 }
        ensures stood { (meaning self.old).is_closed ≡ false
            → StandsIn (meaning self.old).peeked result };

    /// Ends the port: its notes can find the end from now on, and its own knows it. Again, it does nothing.
    fn end(&mut self)
        ensures { meaning self.new ≡ ended (meaning self.old) };

    /// Ends the port and hands its tokens back, once.
    fn close(&mut self) -> Option<Tokens>
        ensures closed { meaning self.new ≡ closed (meaning self.old) }
        ensures tokens { MatchOption result
            ((meaning self.old).is_closed ≡ true)
            (λ t. ((meaning self.old).is_closed ≡ false)
            × (t.seat ≡ (meaning self.old).seat) × (t.seat.view.pool ≡ (meaning self.old).pool)
            × (t.note ≡ (meaning self.new).note)) };
}
