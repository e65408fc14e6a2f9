//! Who calls a device.
ghost use Rattle.std.specs.Prelude.{◌≡◌, ◌<◌, ◌≤◌, IfSome, IfNone};
ghost use Rattle.history.specs.Callers.{caller_number, caller_of};

use wire_frame::PoolId;

/// Who calls a device.
#[derive(Clone, Copy, Debug, PartialEq, Eq)]
pub enum Caller {
    /// The port of the guest that has the virtual function of that pool.
    Port(PoolId),
    /// The driver of the physical function.
    Driver,
    /// The pump of frames from the wire.
    Pump,
    /// The service, which opens and ends functions and serves their transmit queues.
    Service,
}

impl Caller {
    /// The number of the caller: 0 to 63 for the port of that pool, 64 for the driver, 65 for the pump, 66 for the service.
    #[inline]
    pub fn number(self) -> u8
        ensures number { result ≡ caller_number self }
        ensures below { result < 67 }
        ensures back { caller_of result ≡ self }
    {
        match self {
            Caller::Port(pool) => pool.get(),
            Caller::Driver => 64,
            Caller::Pump => 65,
            Caller::Service => 66,
        }
    }

    /// The caller of that number, if there is one.
    #[inline]
    pub fn from_number(number: u8) -> Option<Caller>
        ensures caller { IfSome result (λ caller. caller ≡ caller_of number) }
        ensures number { IfSome result (λ caller. caller_number caller ≡ number) }
        ensures none { IfNone result (67 ≤ number) }
    {
        match number {
            64 => Some(Caller::Driver),
            65 => Some(Caller::Pump),
            66 => Some(Caller::Service),
            _ => match PoolId::new(number) {
                Some(pool) => Some(Caller::Port(pool)),
                None => None,
            },
        }
    }
}
