//! The workers, from their starts to their ends.
ghost use Rattle.std.specs.Prelude.{◌≡◌, ◌+◌, ◌≤◌, ◌⊎◌, [], false, length, map, replicate, IfOk, IfErr, OnOk};
ghost use Rattle.std.specs.Arc.{arc_value};
ghost use Rattle.device.specs.declared.event.Event.TheVariants.{End};
ghost use Rattle.history.specs.declared.caller.Caller.TheVariants.{Driver, Pump, Service};
ghost use Rattle.recorder.specs.Held.{HasAsked, left_of};
ghost use Rattle.wire_frame.specs.declared.fault.Fault.{Fault};
ghost use Rattle.workers.specs.Duties.{HaveDone};
ghost use Rattle.workers.specs.Ends.{HaveEnded, pool_of};
ghost use Rattle.workers.specs.Run.{HaveRun, duties_of, plan_of, shares_back, with_ports};

use crate::asking::ask;
use crate::context::WorkerContext;
use crate::crew::{Crew, Ended};
use crate::gate::Gate;
use crate::pair::start_pair;
use crate::plan::{Plan, Ports};
use crate::starting::{start_driver, start_guests};
use device::{Request, Room};
use device_lock::{CALLERS, Caller, LockedDevice, Share, Shares};
use guest_memory::GuestMem;
use guest_port::{EndNote, GuestPort, LockedPort};
use log::Log;
use script::Script;
use std::alloc::{AllocError, Global};
use std::sync::ledger::Ledger;
use std::sync::{Arc, Wait};
use std::thread::Threads;
use wire_frame::Fault;
use wire_pump::channel;

/// Does the events of a script after `go`, each worker its own in the order of the script, in a thread of its own: each port
/// those of its pool that a guest may do, the physical function's driver its own, the wire's reader sends the frames to the
/// pump, and the service does all others. Each port is closed at the end of its thread, and when all have ended, the service
/// records `End` once for each port. The notes are not asked for that: a port whose thread has ended has ended. Logs each worker's
/// start and end at debug level.
///
/// The shares come back: those that no worker had, those of the ports in order, the driver's, the pump's and the service's, each
/// with what its worker asked. They are those of all 67 callers, unless one was handed out before that no port brings back.
///
/// [`Fault::NoMemory`] where the host refused a thread or the room for one, after the workers that run have ended, also where the
/// history was full then. Else [`Fault::HistoryFull`] where the history was full and can't be folded, after all have ended: the
/// worker that met it ended there. After a fault the shares are spent.
#[tactic(auto, using(crate::proofs::Closing::have_ended, crate::proofs::Worked::last_caller, crate::proofs::Worked::have_run, crate::proofs::Worked::all_set, crate::proofs::Worked::some_back))]
pub fn run_workers<
    M: GuestMem + Send + 'static,
    L: Ledger + Send + Sync + 'static,
    P: GuestPort + Send + 'static,
    G: Gate + Drop + Send + Sync + 'static,
    R: Threads + Wait + Copy + Send + 'static,
    O: Log,
>(
    rt: R,
    log: &O,
    alloc: Global,
    script: Arc<Script>,
    device: Arc<LockedDevice<M, L>>,
    shares: Shares<L>,
    ports: Vec<(LockedPort<M, L, P>, EndNote)>,
    gate: Arc<G>,
) -> Result<Ended<L>, Fault>
    requires pf { shares.pf.caller ≡ Driver }
    requires pump { shares.pump.caller ≡ Pump }
    requires service { shares.service.caller ≡ Service }
    ensures all { IfOk result
        (λ ended. length ended.shares.items ≡ shares_back shares ports.items) }
    ensures ends { IfOk result (λ ended. HaveEnded ports.items ended.shares.items) }
    ensures run { IfOk result
        (λ ended. HaveRun (plan_of (arc_value script) ports.items) ports.items shares ended.shares.items) }
    ensures why { IfErr result (λ e. (e ≡ Fault.NoMemory) ⊎ (e ≡ Fault.HistoryFull)) }
{
    let context = context_of(alloc, script, device, gate, &ports)?;
    let RunOfWorkers { mut shares, pools } = match run(rt, log, alloc, &context, shares, ports) {
        Ok(ran) => ran,
        Err(fault) => return Err(fault),
    };
    let last = last_of(&shares);
    record_ends(&rt, &context.device, &pools, &mut shares[last])?;
    Ok(Ended { shares })
}

// The place of the last of the shares, which is the service's.
fn last_of<L: Ledger>(shares: &[Share<L>]) -> usize
    requires { 1 ≤ length shares.now }
    ensures { result + 1 ≡ length shares.now }
{
    shares.len() - 1
}

// What the workers leave: their shares, with those that no worker had, and the pools of the ports, in order.
#[derive(Drop)]
struct RunOfWorkers<L: Ledger> {
    shares: Vec<Share<L>>,
    pools: Vec<u8>,
}

// Starts the workers, and waits for all. All that they need is made before the first starts. Where a start was refused and the history
// was full too, [`Fault::NoMemory`] comes.
fn run<
    M: GuestMem + Send + 'static,
    L: Ledger + Send + Sync + 'static,
    P: GuestPort + Send + 'static,
    G: Gate + Drop + Send + Sync + 'static,
    R: Threads + Wait + Copy + Send + 'static,
    O: Log,
>(
    rt: R,
    log: &O,
    alloc: Global,
    context: &WorkerContext<M, L, G>,
    shares: Shares<L>,
    ports: Vec<(LockedPort<M, L, P>, EndNote)>,
) -> Result<RunOfWorkers<L>, Fault>
    requires pf { shares.pf.caller ≡ Driver }
    requires pump { shares.pump.caller ≡ Pump }
    requires service { shares.service.caller ≡ Service }
    ensures pools { IfOk result (λ ran. ran.pools.items ≡ map pool_of ports.items) }
    ensures done { IfOk result (λ ran.
        HaveDone (duties_of (arc_value context.now.plan) ports.items shares)
        (left_of shares.ports.items) ran.shares.items) }
    ensures why { IfErr result (λ e. (e ≡ Fault.NoMemory) ⊎ (e ≡ Fault.HistoryFull)) }
{
    let Ok(wire) = channel(alloc) else {
        return Err(Fault::NoMemory);
    };
    let pools = pools_in_order(alloc, &ports)?;
    let mut crew = Crew::new(alloc, ports.len())?;
    let SplitShares {
        pf,
        pump,
        service,
        others: mut back,
    } = split_shares(alloc, shares)?;
    start_guests(rt, log, context, ports, &mut crew);
    start_driver(rt, log, context, &Caller::Driver, pf, &mut crew);
    start_pair(rt, log, context, pump, wire, &mut crew);
    start_driver(rt, log, context, &Caller::Service, service, &mut crew);
    let ends = crew.join(&rt, log, &mut back);
    if let Some(fault) = ends.fault() {
        return Err(fault);
    }
    Ok(RunOfWorkers {
        shares: back,
        pools,
    })
}

// What the workers share.
fn context_of<M: GuestMem, L: Ledger, P: GuestPort, G: Gate + Drop>(
    alloc: Global,
    script: Arc<Script>,
    device: Arc<LockedDevice<M, L>>,
    gate: Arc<G>,
    ports: &[(LockedPort<M, L, P>, EndNote)],
) -> Result<WorkerContext<M, L, G>, AllocError>
    ensures { IfOk result
        (λ context. arc_value context.plan ≡ plan_of (arc_value script) ports.now) }
{
    let plan = Plan::new(alloc, script, pools_of(ports))?;
    Ok(WorkerContext {
        plan: Arc::new(alloc, plan)?,
        device,
        gate,
    })
}

// The shares that workers without a port have, and the others.
#[derive(Drop)]
struct SplitShares<L: Ledger> {
    pf: Share<L>,
    pump: Share<L>,
    service: Share<L>,
    others: Vec<Share<L>>,
}

// Takes the shares apart.
fn split_shares<L: Ledger>(alloc: Global, shares: Shares<L>) -> Result<SplitShares<L>, AllocError>
    ensures pf { IfOk result (λ apart. apart.pf ≡ shares.pf) }
    ensures pump { IfOk result (λ apart. apart.pump ≡ shares.pump) }
    ensures service { IfOk result (λ apart. apart.service ≡ shares.service) }
    ensures others { IfOk result (λ apart. apart.others.items ≡ left_of shares.ports.items) }
{
    let mut others = Vec::with_capacity(alloc, CALLERS)?;
    shares.put_back(&mut others)?;
    let (service, pump, pf) = (others.remove(2), others.remove(1), others.remove(0));
    Ok(SplitShares {
        pf,
        pump,
        service,
        others,
    })
}

// For each pool whether it has a port.
#[tactic(auto, using(crate::proofs::Worked::ports_more))]
fn pools_of<M: GuestMem, L: Ledger, P: GuestPort>(ports: &[(LockedPort<M, L, P>, EndNote)]) -> Ports
    ensures many { length result ≡ 64 }
    ensures each { result ≡ with_ports (replicate 64 false) ports.now }
{
    let mut pools = no_ports();
    for (port, _) in ports {
        pools[usize::from(port.pool())] = true;
    }
    pools
}

// No pool has a port. (Stated by its value, from which its length follows: the length alone takes a minute of search.)
#[inline]
fn no_ports() -> Ports
    ensures { result ≡ replicate 64 false }
{
    [false; 64]
}

// The pool of each port, in order.
#[tactic(auto, using(crate::proofs::Closing::pools_more, crate::proofs::Closing::pools_all))]
fn pools_in_order<M: GuestMem, L: Ledger, P: GuestPort>(
    alloc: Global,
    ports: &[(LockedPort<M, L, P>, EndNote)],
) -> Result<Vec<u8>, AllocError>
    ensures { IfOk result (λ pools. pools.items ≡ map pool_of ports.now) }
{
    let mut pools = Vec::with_capacity(alloc, ports.len())?;
    for (port, _) in ports {
        pools.push(port.pool())?;
    }
    Ok(pools)
}

// Records the ends of the ports of these pools, in order, by the service's share. Where the history is full it is folded, and
// [`Fault::HistoryFull`] comes where it can't be. What an event takes of the stack is not to be there while workers run.
#[inline(never)]
#[tactic(auto, using(crate::proofs::Closing::ending_begins, crate::proofs::Closing::ending_more, crate::proofs::Closing::ending_all))]
fn record_ends<M: GuestMem, L: Ledger, R: Wait>(
    rt: &R,
    device: &LockedDevice<M, L>,
    pools: &[u8],
    share: &mut Share<L>,
) -> Result<(), Fault>
    requires { share.old.caller ≡ Service }
    ensures full { IfErr result (λ e. e ≡ Fault.HistoryFull) }
    ensures ends { OnOk result (HasAsked (map End pools.now) share.old share.new) }
{
    let mut room = Room::new();
    for pool in pools {
        ask(rt, device, share, Request::End(*pool), &mut room)?;
    }
    Ok(())
}
