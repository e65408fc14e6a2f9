//! Which devices are recorded.
ghost use Rattle.std.specs.Prelude.{◌≡◌};

use device::Device;
use device_lock::Recorded;
use guest_memory::FlatMem;
use irq_line::make;
use std::alloc::Global;
use std::marker::Brand;
use std::sync::ledger::{Blank, Ledger};
use std::test::Fail;
use test_support::memories;
use wire_frame::Fault;

// Number of functions, bytes of each memory, and longest frame.
type Make = (usize, u64, u16);

// The fault of a recorded device with a twin, which keeps `cap` calls.
fn fault_with<L: Ledger>(
    alloc: Global,
    blank: Blank,
    live: Make,
    twin: Make,
    cap: usize,
) -> Result<Option<Fault>, Fail>
    requires name { blank.name ≡ L.name }
    requires parts { (blank.parts ≡ L.parts) × (blank.parts ≡ 67) }
{
    let (line, _guests) = make(alloc)?;
    let live = Device::with_limit(alloc, memories(alloc, live.0, live.1)?, live.2)?;
    let twin = Device::with_limit(alloc, memories(alloc, twin.0, twin.1)?, twin.2)?;
    match Recorded::<FlatMem, L>::with_twin(alloc, blank, live, twin, line, cap) {
        Ok(_) => Ok(None),
        Err(fault) => Ok(Some(fault)),
    }
}

const LIVE: Make = (2, 4096, 1518);

// A history keeps 1 to 65,536 calls, and a twin has the same make.
#[test]
fn a_twin_has_the_same_make(rt: HostRuntime) -> Result<(), Fail> {
    for (live, twin, cap, fault) in [
        (LIVE, LIVE, 1, None),
        ((2, 4096, 9018), (2, 4096, 9018), 65_536, None),
        (LIVE, LIVE, 0, Some(Fault::BadMake)),
        (LIVE, LIVE, 65_537, Some(Fault::BadMake)),
        (LIVE, (2, 4096, 1519), 4, Some(Fault::BadMake)),
        (LIVE, (2, 4224, 1518), 4, Some(Fault::BadMake)),
        (LIVE, (1, 4096, 1518), 4, Some(Fault::BadMake)),
        ((1, 4096, 1518), LIVE, 4, Some(Fault::BadMake)),
    ] {
        let made = fault_with::<Brand>(rt.alloc(), Blank::new(67), live, twin, cap)?;
        assert_eq!(rt; made, fault, "{} and {} functions, {cap}", live.0, twin.0);
    }
    Ok(())
}
