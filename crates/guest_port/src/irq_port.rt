//! A port over a seat of the interrupt line.
ghost use Rattle.std.specs.Prelude.{◌≡◌, ℕ, ◌<◌, ◌++◌, true, false, IfOk, IfErr, IsNone, MatchOption};
ghost use Rattle.wire_frame.specs.declared.fault.Fault.TheVariants.{NoMemory};
ghost use Rattle.irq_line.specs.Line.{StandsIn};
ghost use Rattle.guest_port.specs.Notes.{new_note, having_found};
ghost use Rattle.guest_port.specs.Port.{having_taken, having_peeked, ended, closed, seat_taken};
ghost use Rattle.guest_port.specs.Irq.{seated, irq_taken, irq_peeked, irq_ended, irq_closed};

use crate::note::{End, EndNote};
use crate::port::{GuestPort, Tokens};
use irq_line::GuestSeat;
use shadow::Shadow;
use std::alloc::{AllocError, Global};
use std::marker::Model;
use wire_frame::{Fault, PoolId};

/// A port over a seat of the interrupt line. Its takes and peeks are those of the seat.
///
/// Contracts see, beside what any port has, its seat as it was when the port was made, and as it is.
pub struct IrqPort {
    pool: u8,
    // none once the port is closed
    tokens: Option<Tokens>,
    // what its end sets, made beforehand; none once it has ended
    mark: Option<Box<End>>,
    made: Shadow<GuestSeat>,
    last: Shadow<Tokens>,
}

impl Model for IrqPort {
    ghost use Rattle.guest_port.specs.Irq.{SeatedPort};

    ghost Value = { SeatedPort };

    ghost use Rattle.guest_port.specs.Irq.{seated_of, Sound};

    ghost view = { seated_of };

    ghost invariant = { Sound };
}

/// Why a port was not made, and its seat, which has taken nothing.
#[derive(Drop)]
pub struct Refused {
    /// [`Fault::NoMemory`].
    pub fault: Fault,
    /// The seat, as it was.
    pub seat: GuestSeat,
}

impl IrqPort {
    /// The port of a pool over the pool's seat, and a second note of its end. The messages that stood for the pool are taken
    /// and discarded, so that the port sees none of an earlier guest.
    ///
    /// [`Fault::NoMemory`] comes only where the host refused the room; the seat is dropped then.
    pub fn new(alloc: Global, pool: u8, seat: GuestSeat) -> Result<(IrqPort, EndNote), Fault>
        requires { seat.view.pool ≡ pool }
        ensures port { IfOk result
            (λ r. (discarded : ℕ) × (r.0 ≡ seated pool r.1.port (seat_taken seat discarded))) }
        ensures note { IfOk result (λ r. r.1 ≡ new_note r.1.port) }
        ensures no_memory { IfErr result (λ fault. fault ≡ NoMemory) }
    {
        match IrqPort::try_new(alloc, pool, seat) {
            Ok(made) => Ok(made),
            Err(refused) => Err(refused.fault),
        }
    }

    /// The same; where the room is refused the seat comes back, and what stands for the pool stands on.
    pub fn try_new(alloc: Global, pool: u8, seat: GuestSeat) -> Result<(IrqPort, EndNote), Refused>
        requires { seat.view.pool ≡ pool }
        ensures port { IfOk result
            (λ r. (discarded : ℕ) × (r.0 ≡ seated pool r.1.port (seat_taken seat discarded))) }
        ensures note { IfOk result (λ r. r.1 ≡ new_note r.1.port) }
        ensures no_memory { IfErr result (λ refused. refused.fault ≡ NoMemory) }
        ensures seat { IfErr result (λ refused. refused.seat ≡ seat) }
    {
        let Ok((note, other)) = EndNote::two(alloc) else {
            return Err(Refused {
                fault: Fault::NoMemory,
                seat,
            });
        };
        let Ok(mark) = Box::new(alloc, End) else {
            return Err(Refused {
                fault: Fault::NoMemory,
                seat,
            });
        };
        Ok((IrqPort::over(pool, seat, note, mark), other))
    }

    // The port of a pool over its seat and its note.
    fn over(pool: u8, mut seat: GuestSeat, note: EndNote, mark: Box<End>) -> IrqPort
        requires pool { seat.view.pool ≡ pool }
        requires note { note ≡ new_note note.port }
        ensures { (discarded : ℕ) × (result ≡ seated pool note.port (seat_taken seat discarded)) }
    {
        prove!(seat.pool() < PoolId::COUNT);
        // what was raised before is not this guest's
        let _ = seat.take();
        let made = Shadow::of(&seat);
        let tokens = Tokens { seat, note };
        let last = Shadow::of(&tokens);
        IrqPort {
            pool,
            tokens: Some(tokens),
            mark: Some(mark),
            made,
            last,
        }
    }

    /// A law: what the port's seat has taken is what it had when the port was made, and then what the port took; so with the
    /// answers of its peeks, and the bits that it has peeked the port has; a port that is not open has a note that found its
    /// end; and the seat is that of the pool. The call does nothing.
    pub fn agrees(&self)
        ensures takes { self.now.port.seat.view.takes
            ≡ self.now.made.view.takes ++ self.now.port.taken }
        ensures peeks { self.now.port.seat.view.peeks
            ≡ self.now.made.view.peeks ++ self.now.port.peeks }
        ensures peeked { self.now.port.seat.view.peeked ≡ self.now.port.peeked }
        ensures known { self.now.port.is_open ≡ false → self.now.port.note.found ≡ true }
        ensures pool { self.now.port.seat.view.pool ≡ self.now.port.pool }
    {
        prove!(self.pool < PoolId::COUNT);
    }

    // Sets the end where it is not set.
    fn finish(&mut self)
        ensures { self.new ≡ irq_ended self.old }
    {
        if let Some(tokens) = &mut self.tokens {
            find_end(&mut tokens.note, self.mark.take());
            self.last = Shadow::of(tokens);
        }
    }
}

// The note knows the end: it sets it now, or it did so before.
fn find_end(note: &mut EndNote, mark: Option<Box<End>>)
    requires { IsNone mark → note.old.found ≡ true }
    ensures { note.new ≡ having_found note.old }
{
    if let Some(mark) = mark {
        note.set(mark);
    }
}

impl GuestPort for IrqPort {
    ghost meaning = { λ p. p.port };

    fn pool(&self) -> u8 {
        self.pool
    }

    fn is_open(&self) -> bool {
        self.mark.is_some()
    }

    /// The seat makes one take.
    fn take_irqs(&mut self) -> u8
        ensures taken { self.new.port ≡ having_taken self.old.port result }
        ensures closed { self.old.port.is_closed ≡ true → result ≡ 0 }
        ensures seat { self.new ≡ irq_taken self.old result }
        ensures stood { self.old.port.is_closed ≡ false → StandsIn self.old.port.peeked result }
    {
        match &mut self.tokens {
            Some(tokens) => {
                let taken = tokens.seat.take();
                self.last = Shadow::of(tokens);
                taken
            }
            None => 0,
        }
    }

    /// The seat makes one peek.
    fn peek_irqs(&mut self) -> u8
        ensures peeked { self.new.port ≡ having_peeked self.old.port result }
        ensures closed { self.old.port.is_closed ≡ true → result ≡ 0 }
        ensures seat { self.new ≡ irq_peeked self.old result }
        ensures stood { self.old.port.is_closed ≡ false → StandsIn self.old.port.peeked result }
    {
        match &mut self.tokens {
            Some(tokens) => {
                let standing = tokens.seat.peek();
                self.last = Shadow::of(tokens);
                standing
            }
            None => 0,
        }
    }

    fn end(&mut self)
        ensures port { self.new.port ≡ ended self.old.port }
        ensures seat { self.new ≡ irq_ended self.old }
    {
        self.finish();
    }

    fn close(&mut self) -> Option<Tokens>
        ensures closed { self.new.port ≡ closed self.old.port }
        ensures tokens { MatchOption result (self.old.port.is_closed ≡ true)
            (λ t. (self.old.port.is_closed ≡ false) × (t.seat ≡ self.old.port.seat)
            × (t.seat.view.pool ≡ self.old.port.pool) × (t.note ≡ self.new.port.note)) }
        ensures seat { self.new ≡ irq_closed self.old }
    {
        self.finish();
        self.tokens.take()
    }
}

impl Drop for IrqPort {
    // It ends, without a lock and without memory.
    fn drop(mut self) {
        self.finish();
        let IrqPort {
            pool: _,
            tokens: _,
            mark: _,
            made: _,
            last: _,
        } = self;
    }
}
