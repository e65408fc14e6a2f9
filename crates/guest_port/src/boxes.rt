//! A port behind a box.
use crate::port::{GuestPort, Tokens};

// A box of a port is the port in it.
impl GuestPort for Box<dyn GuestPort + Send> {
    ghost meaning = { λ b. (GuestPort-box b).meaning b.value };

    fn pool(&self) -> u8 {
        (**self).pool()
    }

    fn is_open(&self) -> bool {
        (**self).is_open()
    }

    fn take_irqs(&mut self) -> u8 {
        (**self).take_irqs()
    }

    fn peek_irqs(&mut self) -> u8 {
        (**self).peek_irqs()
    }

    fn end(&mut self) {
        (**self).end();
    }

    fn close(&mut self) -> Option<Tokens> {
        (**self).close()
    }
}
