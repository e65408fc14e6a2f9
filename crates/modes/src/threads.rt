//! The mode `threads`: a script that is done by a thread for each guest, and the history that is kept of it.
ghost use Rattle.std.specs.Prelude.{◌≡◌, ℕ, ◌⊎◌, [], true, false, length, Err, IfErr, IfOk, IfSome, MatchResult, OnErr, OnOk};
ghost use Rattle.std.specs.Arc.{arc_value};
ghost use Rattle.script.specs.Reading.{script_of};
ghost use Rattle.script.specs.Shapes.{asked_by};
ghost use Rattle.recorder.specs.Made.{AreSharesOf, AreUnused, IsFresh, begun};
ghost use Rattle.irq_line.specs.Line.{AreSeatsOf};
ghost use Rattle.guest_port.specs.Irq.{SeatedPort};
ghost use Rattle.modes.specs.Faults.{is_late};
ghost use Rattle.modes.specs.Program.{device_of, StopsAt};
ghost use Rattle.modes.specs.Room.{most_calls};
ghost use Rattle.modes.specs.Lines.{ArePortsOf};
ghost use Rattle.modes.specs.Threads.{is_of_run, BeganReport, BeganThreads, StopsFor, WroteReport, WroteThreads};

use crate::drive::read;
use crate::fault::Fault;
use crate::making::{drop_boxed, make_device};
use crate::of_script::is_of_script;
use crate::report::write_report;
use device::Device;
use device_lock::{CALLERS, LockedDevice, Recorded, Shares};
use guest_memory::{FlatMem, GuestMem};
use guest_port::{EndNote, GuestPort, IrqPort, LockedPort};
use irq_line::{DeviceSeat, GuestSeat, make};
use log::sink::Discard;
use script::Script;
use std::alloc::{AllocError, Global};
use std::io::{Read, Write};
use std::marker::Brand;
use std::sync::ledger::{Blank, Ledger};
use std::sync::{Arc, Wait};
use std::thread::Threads;
use workers::{Ended, OpenGate, prepare, run_workers};

/// How many more calls may be kept than a script has events: one for the end of each port.
const MOST_ENDS: usize = 64;

/// Reads a script, does it by a thread for each guest, and writes how many calls the history has, how many of them are each
/// caller's, and whether a fresh device gives the kept answers.
///
/// [`Fault::BadScript`] comes before anything is written. [`Fault::Io`] comes where the reader or the writer fails, and then
/// the writer has the beginning of the output. [`Fault::HistoryFull`] never comes: there is room for every event.
///
/// What is behind a lock while threads share it has no name in a contract. So what comes out of the lock is looked at before it is
/// reported: whether it began as the script's device is made, and whether its calls are the script's, each caller's in order. These
/// looks can't fail when they run; where one did, [`Fault::NoMemory`] would come before anything is written.
pub fn drive_threads<R: Threads + Wait + Copy + Send + 'static, I: Read, W: Write>(
    rt: R,
    alloc: Global,
    reader: &mut I,
    writer: &mut W,
) -> Result<(), Fault>
    // where the bytes of the reader are known, their text says a script, and the writer got the report of a recording of the
    // script's device: its calls lead to its live device, and are the script's, each caller's own in order
    ensures ok { OnOk result
        (WroteThreads (I.remaining reader.old) (W.contents writer.old) (W.contents writer.new)) }
    // or a beginning of that, or nothing
    ensures err { OnErr result ((writer.new ≡ writer.old)
        ⊎ BeganThreads (I.remaining reader.old) (W.contents writer.old) (W.contents writer.new)) }
    ensures early { IfErr result (λ e. is_late e ≡ false → writer.new ≡ writer.old) }
    ensures why { IfErr result (StopsFor (I.remaining reader.old)) }
    // of a text with a bad line nothing is written, and that line is told where reading comes so far
    ensures bad { IfSome (I.remaining reader.old) (λ text. (n : ℕ) → script_of text ≡ Err n
        → (writer.new ≡ writer.old) × MatchResult result (λ _. ⊥) (StopsAt n)) }
{
    read_and_play(rt, alloc, reader, writer)?
}

// The same in two steps. Outside, why nothing is written: a fault of reading, or of the run; then the writer is as it was. Inside,
// what came of writing.
#[tactic(auto, using(crate::proofs::Told::stops_run, crate::proofs::Told::wrote_threads, crate::proofs::Told::began_threads))]
fn read_and_play<R: Threads + Wait + Copy + Send + 'static, I: Read, W: Write>(
    rt: R,
    alloc: Global,
    reader: &mut I,
    writer: &mut W,
) -> Result<Result<(), Fault>, Fault>
    ensures unread { OnErr result (writer.new ≡ writer.old) }
    ensures why { IfErr result (StopsFor (I.remaining reader.old)) }
    ensures ok { IfOk result (λ played. OnOk played
        (WroteThreads (I.remaining reader.old) (W.contents writer.old) (W.contents writer.new))) }
    ensures err { IfOk result (λ played. OnErr played
        (BeganThreads (I.remaining reader.old) (W.contents writer.old) (W.contents writer.new))) }
    ensures late { IfOk result (λ played. IfErr played (λ e. is_late e ≡ true)) }
{
    let script = read(alloc, reader)?;
    play(rt, alloc, script, writer)
}

// Makes the memories, each in a box, for the live device and for the other one, and does the script by threads.
#[tactic(auto, using(crate::proofs::Told::late_of_run))]
fn play<R: Threads + Wait + Copy + Send + 'static, W: Write>(
    rt: R,
    alloc: Global,
    script: Script,
    writer: &mut W,
) -> Result<Result<(), Fault>, Fault>
    ensures unread { OnErr result (writer.new ≡ writer.old) }
    ensures why { IfErr result (λ e. is_of_run e ≡ true) }
    ensures ok { IfOk result (λ played. OnOk played
        (WroteReport script (W.contents writer.old) (W.contents writer.new))) }
    ensures err { IfOk result (λ played. OnErr played
        (BeganReport script (W.contents writer.old) (W.contents writer.new))) }
    ensures late { IfOk result (λ played. IfErr played (λ e. is_late e ≡ true)) }
{
    let shape = script.shape();
    let mut live = Vec::with_capacity(alloc, usize::from(shape.functions))?;
    let mut others = Vec::with_capacity(alloc, usize::from(shape.functions))?;
    for _ in 0..shape.functions {
        let memory: Box<dyn GuestMem + Send> = make_memory(alloc, shape.memory_size)?;
        live.push(memory)?;
        let memory: Box<dyn GuestMem + Send> = make_memory(alloc, shape.memory_size)?;
        others.push(memory)?;
    }
    with_other(rt, alloc, script, live, others, writer)
}

// A memory of that size, to be handed on in its box.
fn make_memory(alloc: Global, size: u64) -> Result<Box<FlatMem>, Fault>
    ensures { IfErr result (λ e. is_late e ≡ true) }
{
    Ok(Box::new(alloc, FlatMem::new(alloc, size)?)?)
}

// Makes the other device, which is to give the kept answers, and does the script by threads.
#[inline(never)]
#[tactic(auto, using(crate::proofs::Told::late_of_run))]
fn with_other<M: GuestMem + Send + 'static, R: Threads + Wait + Copy + Send + 'static, W: Write>(
    rt: R,
    alloc: Global,
    script: Script,
    live: Vec<M>,
    others: Vec<M>,
    writer: &mut W,
) -> Result<Result<(), Fault>, Fault>
    ensures unread { OnErr result (writer.new ≡ writer.old) }
    ensures why { IfErr result (λ e. is_of_run e ≡ true) }
    ensures ok { IfOk result (λ played. OnOk played
        (WroteReport script (W.contents writer.old) (W.contents writer.new))) }
    ensures err { IfOk result (λ played. OnErr played
        (BeganReport script (W.contents writer.old) (W.contents writer.new))) }
    ensures late { IfOk result (λ played. IfErr played (λ e. is_late e ≡ true)) }
{
    let mut other = make_device(alloc, script.shape(), others)?;
    let done = with_ports(rt, alloc, script, live, &mut other, writer);
    drop_boxed(other);
    done
}

// Makes a port for each function, and does the script by threads. The other device is one as it is made.
#[inline(never)]
#[tactic(auto, using(crate::proofs::Told::late_of_run, irq_line::proofs::SeatLemmas::made_seats))]
fn with_ports<M: GuestMem + Send + 'static, R: Threads + Wait + Copy + Send + 'static, W: Write>(
    rt: R,
    alloc: Global,
    script: Script,
    live: Vec<M>,
    other: &mut Device<M>,
    writer: &mut W,
) -> Result<Result<(), Fault>, Fault>
    requires other { other.old.world ≡ device_of script.device }
    ensures unread { OnErr result (writer.new ≡ writer.old) }
    ensures why { IfErr result (λ e. is_of_run e ≡ true) }
    ensures ok { IfOk result (λ played. OnOk played
        (WroteReport script (W.contents writer.old) (W.contents writer.new))) }
    ensures err { IfOk result (λ played. OnErr played
        (BeganReport script (W.contents writer.old) (W.contents writer.new))) }
    ensures late { IfOk result (λ played. IfErr played (λ e. is_late e ≡ true)) }
{
    let (line, seats) = make(alloc)?;
    let made = ports_of(alloc, &line, seats, script.shape().functions)?;
    let mut ports = Vec::with_capacity(alloc, made.len())?;
    for (port, note) in made {
        let port: Box<dyn GuestPort + Send> = Box::new(alloc, port)?;
        ports.push((port, note))?;
    }
    let parts = RunParts {
        script,
        memories: live,
        line,
        ports,
    };
    play_threads::<M, Box<dyn GuestPort + Send>, Brand, R, W>(
        rt,
        alloc,
        Blank::new(67),
        parts,
        other,
        writer,
    )
}

// The ports of the first functions, each with a note of its end, over their seats of the device's line.
#[inline(never)]
#[tactic(auto, using(crate::proofs::Lines::no_ports))]
fn ports_of(
    alloc: Global,
    line: &DeviceSeat,
    seats: Vec<GuestSeat>,
    count: u8,
) -> Result<Vec<(IrqPort, EndNote)>, Fault>
    requires seats { AreSeatsOf line.now.line seats.items }
    ensures line { IfOk result (λ ports. ArePortsOf (λ (p : SeatedPort). p.port) line.now.line ports.items) }
    ensures late { IfErr result (λ e. is_late e ≡ true) }
{
    let mut ports = Vec::with_capacity(alloc, usize::from(count))?;
    for seat in seats {
        let pool = seat.pool();
        if pool < count {
            let made = match IrqPort::try_new(alloc, pool, seat) {
                Ok(made) => made,
                Err(refused) => return Err(Fault::from(refused.fault)),
            };
            ports.push(made)?;
        }
    }
    Ok(ports)
}

// What a run by threads is made of.
#[derive(Drop)]
struct RunParts<M: GuestMem, P: GuestPort> {
    script: Script,
    // of the functions of the live device
    memories: Vec<M>,
    // the device's seat of the interrupt line
    line: DeviceSeat,
    // of its functions, over the other seats of that line
    ports: Vec<(P, EndNote)>,
}

// Does a script by threads on a device over these memories, with ports of its functions, replays its history on the other
// device, and writes of both. What makes the device and its lock is in calls of its own: a device is too large to stand on the
// stack while workers run.
#[inline(never)]
#[tactic(auto, using(crate::proofs::Told::late_of_run))]
fn play_threads<
    M: GuestMem + Send + 'static,
    P: GuestPort + Send + 'static,
    L: Ledger + Send + Sync + 'static,
    R: Threads + Wait + Copy + Send + 'static,
    W: Write,
>(
    rt: R,
    alloc: Global,
    blank: Blank,
    parts: RunParts<M, P>,
    other: &mut Device<M>,
    writer: &mut W,
) -> Result<Result<(), Fault>, Fault>
    requires blank { (blank.name ≡ L.name) × (blank.parts ≡ L.parts) × (blank.parts ≡ 67) }
    requires line { parts.line.raises ≡ [] }
    requires ports { ArePortsOf P.meaning parts.line.line parts.ports.items }
    requires other { other.old.world ≡ device_of parts.script.device }
    ensures unread { OnErr result (writer.new ≡ writer.old) }
    ensures why { IfErr result (λ e. is_of_run e ≡ true) }
    ensures ok { IfOk result (λ played. OnOk played
        (WroteReport parts.script (W.contents writer.old) (W.contents writer.new))) }
    ensures err { IfOk result (λ played. OnErr played
        (BeganReport parts.script (W.contents writer.old) (W.contents writer.new))) }
    ensures late { IfOk result (λ played. IfErr played (λ e. is_late e ≡ true)) }
{
    let RunParts {
        script,
        memories,
        line,
        ports,
    } = parts;
    let device = make_device(alloc, script.shape(), memories)?;
    let (recorded, shares) = record::<M, L>(alloc, blank, device, line, &script)?;
    let locked = lock(alloc, recorded)?;
    let script = Arc::new(alloc, script)?;
    let ended = run_all(rt, alloc, Arc::try_clone(&script)?, &locked, shares, ports)?;
    report(alloc, script, locked, ended, other, writer)
}

// Does a script by threads on a device, whose callers asked nothing yet, with ports of its functions.
#[tactic(auto, using(crate::proofs::Told::late_of_run, recorder::proofs::LineLemmas::unused_shares, crate::proofs::Lines::ask_as, crate::proofs::Lines::ports_still))]
fn run_all<
    M: GuestMem + Send + 'static,
    P: GuestPort + Send + 'static,
    L: Ledger + Send + Sync + 'static,
    R: Threads + Wait + Copy + Send + 'static,
>(
    rt: R,
    alloc: Global,
    script: Arc<Script>,
    locked: &Arc<LockedDevice<M, L>>,
    mut shares: Shares<L>,
    ports: Vec<(P, EndNote)>,
) -> Result<Ended<L>, Fault>
    requires unused { AreUnused shares.pump.line shares }
    requires ports { ArePortsOf P.meaning shares.pump.line ports.items }
    ensures many { IfOk result (λ ended. length ended.shares.items ≡ 67) }
    ensures why { IfErr result (λ e. is_of_run e ≡ true) }
{
    let pools = match prepare(&rt, alloc, &script, locked, &mut shares) {
        Ok(pools) => pools,
        Err(fault) => return Err(of_workers(fault)),
    };
    let ports = seat_all(alloc, locked, &mut shares, ports, &pools)?;
    let gate = Arc::new(alloc, OpenGate)?;
    let device = Arc::try_clone(locked)?;
    let ended = match run_workers(rt, &Discard, alloc, script, device, shares, ports, gate) {
        Ok(ended) => ended,
        Err(fault) => return Err(of_workers(fault)),
    };
    // no share was handed out but to a port that is there, so this can't be
    if ended.shares.len() != CALLERS {
        return Err(Fault::NoMemory);
    }
    Ok(ended)
}

// Takes the recorded device out of its lock, and writes what was kept of it. [`Fault::NoMemory`] where somebody else has it too: once
// all workers have ended, nobody has. The same where it is no recording of the script: that can't be, but no contract of a lock says
// what comes out of it, so it is looked at before anything is written.
#[inline(never)]
#[tactic(auto, using(crate::proofs::Told::wrote_report, crate::proofs::Told::began_report))]
fn report<M: GuestMem, L: Ledger, W: Write>(
    alloc: Global,
    script: Arc<Script>,
    locked: Arc<LockedDevice<M, L>>,
    ended: Ended<L>,
    other: &mut Device<M>,
    writer: &mut W,
) -> Result<Result<(), Fault>, Fault>
    requires many { length ended.shares.items ≡ 67 }
    requires fresh { IsFresh other.old.world }
    requires other { other.old.world ≡ device_of (arc_value script).device }
    ensures unread { OnErr result (writer.new ≡ writer.old) }
    ensures why { IfErr result (λ e. is_of_run e ≡ true) }
    ensures ok { IfOk result (λ played. OnOk played
        (WroteReport (arc_value script) (W.contents writer.old) (W.contents writer.new))) }
    ensures err { IfOk result (λ played. OnErr played
        (BeganReport (arc_value script) (W.contents writer.old) (W.contents writer.new))) }
    ensures late { IfOk result (λ played. IfErr played (λ e. is_late e ≡ true)) }
{
    let Some(mut recorded) = LockedDevice::into_recorded(locked) else {
        return Err(Fault::NoMemory);
    };
    // the kept calls begin at a device as the other one is, which is as it was made
    if !recorded.begins_as(other) {
        return Err(Fault::NoMemory);
    }
    // and they are the script's
    if !is_of_script(alloc, script, recorded.history())? {
        return Err(Fault::NoMemory);
    }
    Ok(write_report(alloc, &mut recorded, ended.shares, other, writer))
}

// The fault of the program for one of the workers.
fn of_workers(fault: wire_frame::Fault) -> Fault
    ensures { is_of_run result ≡ true }
{
    match fault {
        wire_frame::Fault::HistoryFull => Fault::HistoryFull,
        _ => Fault::NoMemory,
    }
}

// A device whose calls are kept, as many as the script can ask, with the shares of its callers. The device is moved from its box over
// the stack.
#[inline(never)]
#[tactic(auto, using(crate::proofs::Told::late_of_run, crate::proofs::Lines::unused_own, recorder::proofs::LineLemmas::pump_line))]
fn record<M: GuestMem, L: Ledger>(
    alloc: Global,
    blank: Blank,
    device: Box<Device<M>>,
    line: DeviceSeat,
    script: &Script,
) -> Result<(Recorded<M, L>, Shares<L>), Fault>
    requires name { blank.name ≡ L.name }
    requires parts { (blank.parts ≡ L.parts) × (blank.parts ≡ 67) }
    requires fresh { IsFresh device.value.world }
    requires line { line.raises ≡ [] }
    ensures begun { IfOk result
        (λ r. r.0 ≡ begun device.value.world (most_calls script.now) false line) }
    ensures shares { IfOk result (λ r. AreUnused r.1.pump.line r.1) }
    ensures line { IfOk result (λ r. r.1.pump.line ≡ line.line) }
    ensures why { IfErr result (λ e. is_of_run e ≡ true) }
{
    let Some(cap) = script.len().checked_add(MOST_ENDS) else {
        return Err(Fault::NoMemory);
    };
    let device = Box::into_inner(device);
    Ok(Recorded::new(alloc, blank, device, line, cap)?)
}

// A device behind a lock.
#[inline(never)]
fn lock<M: GuestMem, L: Ledger>(
    alloc: Global,
    recorded: Recorded<M, L>,
) -> Result<Arc<LockedDevice<M, L>>, Fault>
    ensures { IfErr result (λ e. is_late e ≡ true) }
{
    Ok(LockedDevice::new(alloc, recorded)?)
}

// The ports of these pools, with their device and their shares: of those that can make calls.
#[inline(never)]
fn seat_all<M: GuestMem, L: Ledger, P: GuestPort>(
    alloc: Global,
    device: &Arc<LockedDevice<M, L>>,
    shares: &mut Shares<L>,
    all: Vec<(P, EndNote)>,
    pools: &[u8],
) -> Result<Vec<(LockedPort<M, L, P>, EndNote)>, AllocError>
    requires ask { AreSharesOf shares.old.pump.line shares.old.ports.items }
    requires ports { ArePortsOf P.meaning shares.old.pump.line all.items }
    ensures others { (shares.new.pf ≡ shares.old.pf) × (shares.new.pump ≡ shares.old.pump)
        × (shares.new.service ≡ shares.old.service) }
{
    let mut ports = Vec::with_capacity(alloc, pools.len())?;
    for (port, note) in all {
        if let Some(port) = seat(device, shares, pools, port)? {
            ports.push((port, note))?;
        }
    }
    Ok(ports)
}

// A port with its device and its share, where it is of one of these pools. What was raised for its pool before is taken and discarded:
// a port begins here. None where the port has ended or its share was handed out before, so that it could make no call.
fn seat<M: GuestMem, L: Ledger, P: GuestPort>(
    device: &Arc<LockedDevice<M, L>>,
    shares: &mut Shares<L>,
    pools: &[u8],
    mut port: P,
) -> Result<Option<LockedPort<M, L, P>>, AllocError>
    requires line { (P.meaning port).seat.line ≡ shares.old.pump.line }
    requires ask { AreSharesOf shares.old.pump.line shares.old.ports.items }
    ensures ask { AreSharesOf shares.new.pump.line shares.new.ports.items }
    ensures others { (shares.new.pf ≡ shares.old.pf) × (shares.new.pump ≡ shares.old.pump)
        × (shares.new.service ≡ shares.old.service) }
{
    if !pools.contains(&port.pool()) {
        return Ok(None);
    }
    let _ = port.take_irqs();
    if !port.is_open() {
        return Ok(None);
    }
    let Some(share) = shares.port(port.pool()) else {
        return Ok(None);
    };
    let device = Arc::try_clone(device)?;
    Ok(Some(LockedPort::new(device, share, port)))
}
