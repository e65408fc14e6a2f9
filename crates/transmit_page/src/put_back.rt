//! Which words go back into the page as their registers read.
ghost use Rattle.std.specs.Prelude.{◌≡◌};
ghost use Rattle.transmit_page.specs.PutBack.{is_put_back, may_service_change};

use crate::changes::has_changed;
use crate::words::{RingWords, TransmitRegister};

/// Whether a register's word goes back into the page once the changes of its queue were said: a register need not read as it was written. (A
/// tail does.)
pub fn is_put_back(register: TransmitRegister, was: &RingWords, now: &RingWords) -> bool
    ensures { result ≡ is_put_back register was.now now.now }
{
    match register {
        TransmitRegister::Tail => false,
        _ => has_changed(register, was, now),
    }
}

/// Whether a service may have changed a register of a queue with these words, so that its word goes back into the page: its head and its
/// control, where the queue is on.
pub fn may_service_change(register: TransmitRegister, words: &RingWords) -> bool
    ensures { result ≡ may_service_change register words.now }
{
    match register {
        TransmitRegister::Head | TransmitRegister::Control => words.is_on(),
        _ => false,
    }
}
