//! What each caller may ask.
ghost use Rattle.std.specs.Prelude.{◌≡◌};

use device::{MemSlice, Queue, Request};
use device_lock::{Share, Shares};
use guest_memory::FlatMem;
use lock_support::{frame_to_3, line_of, recorded};
use std::alloc::Global;
use std::marker::Brand;
use std::process::Abort;
use std::sync::ledger::{Blank, Ledger};
use std::test::Fail;
use test_support::memories;
use wire_frame::Frame;

// Whether the ports of pools 3 and 63, the driver, the pump and the service may make a request.
fn who<L: Ledger>(
    shares: &Shares<L>,
    ports: (&Share<L>, &Share<L>),
    request: Request<'_>,
) -> [bool; 5] {
    [
        ports.0.may(request),
        ports.1.may(request),
        shares.pf.may(request),
        shares.pump.may(request),
        shares.service.may(request),
    ]
}

// A port may do what is its own pool's alone, and the driver, whose number is 64, is no port.
fn assert_ports<R: Abort, L: Ledger>(
    rt: &R,
    shares: &Shares<L>,
    ports: (&Share<L>, &Share<L>),
    bytes: MemSlice<'_>,
) {
    for pool in [3, 4, 63, 64, 65, 66] {
        let due = [pool == 3, pool == 63, false, false, true];
        for request in [
            Request::VfRead(pool, 0),
            Request::VfWrite(pool, 0, 0),
            Request::MemRead(pool, 0, 1),
            Request::MemWrite(pool, 0, bytes),
            Request::Flr(pool),
        ] {
            assert_eq!(rt; who(shares, ports, request), due, "of pool {pool}");
        }
    }
}

// The driver reads, writes and resets its function, the pump brings frames, and the service alone opens, ends and serves.
fn assert_others<R: Abort, L: Ledger>(
    rt: &R,
    shares: &Shares<L>,
    ports: (&Share<L>, &Share<L>),
    frame: Frame<'_>,
) {
    for (request, driver, pump) in [
        (Request::PfRead(0), true, false),
        (Request::PfWrite(0, 0), true, false),
        (Request::PfReset, true, false),
        (Request::Wire(frame), false, true),
        (Request::Open(3), false, false),
        (Request::End(3), false, false),
        (Request::Serve(3, Queue::Q0), false, false),
    ] {
        let due = [false, false, driver, pump, true];
        assert_eq!(rt; who(shares, ports, request), due);
    }
}

fn assert_rights<R: Abort, L: Ledger>(rt: &R, alloc: Global, blank: Blank) -> Result<(), Fail>
    requires name { blank.name ≡ L.name }
    requires parts { (blank.parts ≡ L.parts) × (blank.parts ≡ 67) }
{
    let (line, _guest) = line_of(alloc, 0)?;
    let memories = memories(alloc, 1, 4096)?;
    let (_recorded, mut shares) = recorded::<FlatMem, L>(alloc, blank, line, memories, None, 1)?;
    let port = shares.port(3).ok_or("no share")?;
    let last = shares.port(63).ok_or("no share")?;
    assert_ports(rt, &shares, (&port, &last), MemSlice::new(&[1, 2])?);
    assert_others(rt, &shares, (&port, &last), frame_to_3()?.as_frame());
    Ok(())
}

#[test]
fn each_caller_may_ask_its_own(rt: HostRuntime) -> Result<(), Fail> {
    assert_rights::<HostRuntime, Brand>(&rt, rt.alloc(), Blank::new(67))
}
