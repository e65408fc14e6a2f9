//! Gates, which a test holds a worker back by.

/// What each worker calls round each of its events after `go`, while it holds no lock.
///
/// `caller` is 0 to 63 for the port of that pool, 64 for the physical function's driver, 65 for the pump and 66 for the
/// service. `n` counts the worker's events, from 1.
pub trait Gate {
    /// The event is to be done.
    fn before(&self, caller: u8, n: u32);

    /// It was done, or the worker gave up.
    fn after(&self, caller: u8, n: u32);
}

/// A gate that holds nobody back.
#[derive(Drop)]
pub struct OpenGate;

impl Gate for OpenGate {
    fn before(&self, _caller: u8, _n: u32) {}

    fn after(&self, _caller: u8, _n: u32) {}
}
