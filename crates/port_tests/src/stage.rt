//! A port with a device behind it.
ghost use Rattle.std.specs.Prelude.{◌≡◌};
ghost use Rattle.recorder.specs.Made.{AreSharesOf};

use device::Event;
use device_lock::{LockedDevice, Shares};
use guest_memory::GuestMem;
use guest_port::{GuestPort, LockedPort};
use lock_support::{answer, port_share};
use std::sync::ledger::Ledger;
use std::sync::{Arc, Wait};

/// Opens the function of a port's pool, and gives the device the port, where it is open and its pool's share was not handed out.
pub fn open<M: GuestMem, L: Ledger, P: GuestPort, R: Wait>(
    rt: &R,
    device: &Arc<LockedDevice<M, L>>,
    shares: &mut Shares<L>,
    port: P,
) -> Option<LockedPort<M, L, P>>
    requires line { (P.meaning port).seat.line ≡ shares.old.pump.line }
    requires shares { AreSharesOf shares.old.pump.line shares.old.ports.items }
    ensures shares { AreSharesOf shares.new.pump.line shares.new.ports.items }
    ensures pump { shares.new.pump ≡ shares.old.pump }
{
    if answer(rt, &**device, &mut shares.service, Event::Open(port.pool())).is_none()
        || !port.is_open()
    {
        return None;
    }
    let Some(share) = port_share(shares, port.pool()) else {
        return None;
    };
    let Ok(device) = Arc::try_clone(device) else {
        return None;
    };
    Some(LockedPort::new(device, share, port))
}
