//! A script that is done by workers, and what is seen of it; and a device whose function 3 is set up, with its port.
ghost use Rattle.std.specs.Prelude.{◌≡◌, []};
ghost use Rattle.history.specs.declared.caller.Caller.TheVariants.{Pump, Service};
ghost use Rattle.irq_line.specs.Line.{AreSeatsOf};
ghost use Rattle.recorder.specs.Made.{AreSharesOf};

use device_lock::{LockedDevice, Shares};
use guest_memory::FlatMem;
use guest_port::{EndNote, GuestPort, IrqPort, LockedPort};
use irq_line::{DeviceSeat, GuestSeat};
use lock_support::{last_seat, line, line_of, locked, port_share};
use log::Log;
use script::Script;
use script_support::short::long_script;
use std::alloc::Global;
use std::sync::ledger::{Blank, Ledger};
use std::sync::{Arc, Wait};
use std::test::Fail;
use std::thread::Threads;
use test_support::memories;
use wire_frame::Fault;
use workers::{Ended, Gate, prepare, run_workers};

/// A port of a function in a [`FlatMem`].
pub type Port<L> = LockedPort<FlatMem, L, IrqPort>;

/// What is seen once all have ended.
#[derive(Debug, Drop, PartialEq, Eq)]
pub struct Seen {
    pub shares: usize,
    pub kept: usize,
    pub folded: usize,
    pub entries: [u64; 67],
}

/// What a test hands in: the line and its seats, the pools that have ports, a note that the last of these has in the place of its own, if
/// any, the memories of the device, those of its twin, if it has one, and how many calls are kept.
#[derive(Drop)]
pub struct Setting {
    pub line: DeviceSeat,
    pub seats: Vec<GuestSeat>,
    pub pools: &'static [u8],
    pub note: Option<EndNote>,
    pub memories: Vec<FlatMem>,
    pub twins: Option<Vec<FlatMem>>,
    pub cap: usize,
    pub ghost unused: { line.raises ≡ [] },
    pub ghost one: { AreSeatsOf line.line seats.items },
}

/// Ports of these pools, and so many functions with memories of 4096 bytes, which has a twin or none.
pub fn setting_of(
    alloc: Global,
    pools: &'static [u8],
    count: usize,
    cap: usize,
    has_twin: bool,
) -> Result<Setting, Fail> {
    let (live, twins) = (memories(alloc, count, 4096)?, memories(alloc, count, 4096)?);
    let (line, seats) = line(alloc)?;
    Ok(Setting {
        line,
        seats,
        pools,
        note: None,
        memories: live,
        twins: if has_twin { Some(twins) } else { None },
        cap,
    })
}

/// A port with the device and its share. None where its share is gone or the host refuses the room.
fn seat<L: Ledger>(
    device: &Arc<LockedDevice<FlatMem, L>>,
    shares: &mut Shares<L>,
    port: IrqPort,
) -> Option<Port<L>>
    requires line { port.port.seat.line ≡ shares.old.pump.line }
    requires shares { AreSharesOf shares.old.pump.line shares.old.ports.items }
    ensures shares { AreSharesOf shares.new.pump.line shares.new.ports.items }
    ensures pf { shares.new.pf ≡ shares.old.pf }
    ensures pump { shares.new.pump ≡ shares.old.pump }
    ensures service { shares.new.service ≡ shares.old.service }
{
    if !port.is_open() {
        return None;
    }
    let Some(share) = port_share(shares, port.pool()) else {
        return None;
    };
    let Ok(device) = Arc::try_clone(device) else {
        return None;
    };
    Some(LockedPort::new(device, share, port))
}

// The port of a seat, with another note of its end.
fn port_of<L: Ledger>(
    alloc: Global,
    device: &Arc<LockedDevice<FlatMem, L>>,
    shares: &mut Shares<L>,
    place: GuestSeat,
) -> Option<(Port<L>, EndNote)>
    requires line { place.line ≡ shares.old.pump.line }
    requires shares { AreSharesOf shares.old.pump.line shares.old.ports.items }
    ensures shares { AreSharesOf shares.new.pump.line shares.new.ports.items }
    ensures pf { shares.new.pf ≡ shares.old.pf }
    ensures pump { shares.new.pump ≡ shares.old.pump }
    ensures service { shares.new.service ≡ shares.old.service }
{
    let pool = place.pool();
    let Ok((port, note)) = IrqPort::new(alloc, pool, place) else {
        return None;
    };
    match seat(device, shares, port) {
        Some(port) => Some((port, note)),
        None => None,
    }
}

// The same where its pool is one of these, and else none.
fn port_among<L: Ledger>(
    alloc: Global,
    device: &Arc<LockedDevice<FlatMem, L>>,
    shares: &mut Shares<L>,
    place: GuestSeat,
    pools: &[u8],
) -> Option<Option<(Port<L>, EndNote)>>
    requires line { place.line ≡ shares.old.pump.line }
    requires shares { AreSharesOf shares.old.pump.line shares.old.ports.items }
    ensures shares { AreSharesOf shares.new.pump.line shares.new.ports.items }
    ensures pf { shares.new.pf ≡ shares.old.pf }
    ensures pump { shares.new.pump ≡ shares.old.pump }
    ensures service { shares.new.service ≡ shares.old.service }
{
    if !pools.contains(&place.pool()) {
        return Some(None);
    }
    match port_of(alloc, device, shares, place) {
        Some(made) => Some(Some(made)),
        None => None,
    }
}

// The ports of pools, from the last on, with the device and their shares. The last of the pools has the note that is handed in, if one is.
fn seated<L: Ledger>(
    alloc: Global,
    device: &Arc<LockedDevice<FlatMem, L>>,
    shares: &mut Shares<L>,
    mut seats: Vec<GuestSeat>,
    pools: &[u8],
    mut other: Option<EndNote>,
) -> Option<Vec<(Port<L>, EndNote)>>
    requires seats { AreSeatsOf shares.old.pump.line seats.items }
    requires shares { AreSharesOf shares.old.pump.line shares.old.ports.items }
    ensures pf { shares.new.pf ≡ shares.old.pf }
    ensures pump { shares.new.pump ≡ shares.old.pump }
    ensures service { shares.new.service ≡ shares.old.service }
{
    let mut ports = Vec::with_capacity(alloc, pools.len()).ok()?;
    for _ in 0..64u8 {
        let Some(place) = last_seat(&mut seats, &shares.pump) else {
            break;
        };
        if let Some((port, note)) = port_among(alloc, device, shares, place, pools)? {
            ports.push((port, other.take().unwrap_or(note))).ok()?;
        }
    }
    Some(ports)
}

/// The script of a short form, in which registers have their names.
pub fn read(alloc: Global, short: &str) -> Result<Script, Fail> {
    let text = long_script(alloc, short)?;
    Ok(Script::read(alloc, &mut text.as_bytes())?)
}

/// Does a script on a device with ports: the device, and the shares, once all have ended.
pub fn ran<
    L: Ledger + Send + Sync + 'static,
    G: Gate + Drop + Send + Sync + 'static,
    R: Threads + Wait + Copy + Send + 'static,
    O: Log,
>(
    rt: R,
    log: &O,
    alloc: Global,
    blank: Blank,
    setting: Setting,
    script: Script,
    gate: Arc<G>,
) -> Result<(Arc<LockedDevice<FlatMem, L>>, Ended<L>), Fault>
    requires name { blank.name ≡ L.name }
    requires parts { (blank.parts ≡ L.parts) × (blank.parts ≡ 67) }
{
    let Setting {
        line,
        seats,
        pools,
        note,
        memories,
        twins,
        cap,
    } = setting;
    let (device, mut shares) = locked::<FlatMem, L>(alloc, blank, line, memories, twins, cap)?;
    if let Err(fault) = prepare(&rt, alloc, &script, &device, &mut shares) {
        return Err(fault);
    }
    let Some(ports) = seated(alloc, &device, &mut shares, seats, pools, note) else {
        return Err(Fault::NoMemory);
    };
    let (Ok(script), Ok(other)) = (Arc::new(alloc, script), Arc::try_clone(&device)) else {
        return Err(Fault::NoMemory);
    };
    let ended = run_workers(rt, log, alloc, script, other, shares, ports, gate)?;
    Ok((device, ended))
}

/// Does a script on a device with ports, and tells what is seen of it.
pub fn done<
    L: Ledger + Send + Sync + 'static,
    G: Gate + Drop + Send + Sync + 'static,
    R: Threads + Wait + Copy + Send + 'static,
    O: Log,
>(
    rt: R,
    log: &O,
    alloc: Global,
    blank: Blank,
    setting: Setting,
    script: Script,
    gate: Arc<G>,
) -> Result<Seen, Fault>
    requires name { blank.name ≡ L.name }
    requires parts { (blank.parts ≡ L.parts) × (blank.parts ≡ 67) }
{
    let (device, ended) = ran::<L, G, R, O>(rt, log, alloc, blank, setting, script, gate)?;
    let count = ended.shares.len();
    let Some(tally) = device.tally(&rt, ended.shares) else {
        return Err(Fault::BadMake);
    };
    let entries = tally.entries;
    Ok(Seen {
        shares: count,
        kept: device.kept(&rt),
        folded: device.folded(&rt),
        entries,
    })
}

// Function 3 can be given frames: it has the address 02:00:00:00:00:03 and a ring with one buffer, and a frame raises vector 0.
const SET_UP: &str = "vfs 8 65536\n\
    @pools\n\
    @receiver 3\n\
    go\n";

/// How many events the set-up has.
pub const SET_UP_EVENTS: usize = 14;

/// The device of the set-up, its shares, and the port of pool 3 with a note of its end.
#[derive(Drop)]
pub struct Begun<L: Ledger> {
    pub device: Arc<LockedDevice<FlatMem, L>>,
    pub shares: Shares<L>,
    pub port: Port<L>,
    pub note: EndNote,
    pub ghost callers: { (shares.pump.caller ≡ Pump) × (shares.service.caller ≡ Service) },
}

/// Does the set-up, of which 40 calls are kept at most, and gives the device the port of pool 3.
pub fn begin<L: Ledger, R: Wait>(rt: &R, alloc: Global, blank: Blank) -> Result<Begun<L>, Fail>
    requires name { blank.name ≡ L.name }
    requires parts { (blank.parts ≡ L.parts) × (blank.parts ≡ 67) }
{
    let (line, seat_of_three) = line_of(alloc, 3)?;
    let (port, note) = IrqPort::new(alloc, 3, seat_of_three)?;
    let memories = memories(alloc, 8, 65_536)?;
    let script = read(alloc, SET_UP)?;
    let (device, mut shares) = locked::<FlatMem, L>(alloc, blank, line, memories, None, 40)?;
    let pools = prepare(rt, alloc, &script, &device, &mut shares)?;
    if pools.as_slice() != [3].as_slice() || device.kept(rt) != SET_UP_EVENTS {
        return Err(Fail::from("not set up"));
    }
    let Some(port) = seat(&device, &mut shares, port) else {
        return Err(Fail::from("no port"));
    };
    Ok(Begun {
        device,
        shares,
        port,
        note,
    })
}
