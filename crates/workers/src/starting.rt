//! The starts of the workers, each with a share of its own.
ghost use Rattle.std.specs.Prelude.{◌≡◌, [], ◌∷◌, ◌++◌, false, map};
ghost use Rattle.std.specs.Arc.{arc_value};
ghost use Rattle.workers.specs.Callers.{is_port};
ghost use Rattle.workers.specs.Duties.{IsDone, OfPort, OfShare, port_duty};

use crate::context::WorkerContext;
use crate::crew::{Crew, RunningWorker};
use crate::gate::Gate;
use crate::work::Work;
use crate::worker::{Worker, WorkerResult, driver, guest};
use device_lock::{Caller, Share};
use guest_memory::GuestMem;
use guest_port::{EndNote, GuestPort, LockedPort};
use log::Log;
use shadow::Shadow;
use std::sync::Wait;
use std::sync::ledger::Ledger;
use std::thread;
use std::thread::Threads;

/// Starts a worker for each port, in order, and drops the notes of their ends, which nobody looks at; where a start is refused, none
/// after it. A port has room for what its calls read, which is to be gone from the stack once the workers run.
#[inline(never)]
pub fn start_guests<
    M: GuestMem + Send + 'static,
    L: Ledger + Send + Sync + 'static,
    P: GuestPort + Send + 'static,
    G: Gate + Drop + Send + Sync + 'static,
    R: Threads + Wait + Copy + Send + 'static,
    O: Log,
>(
    rt: R,
    log: &O,
    context: &WorkerContext<M, L, G>,
    ports: Vec<(LockedPort<M, L, P>, EndNote)>,
    crew: &mut Crew<M, L, P>,
)
    ensures stays { crew.new.was_refused ≡ false → crew.old.was_refused ≡ false }
    ensures duties { crew.new.was_refused ≡ false
        → crew.new.duties
        ≡ crew.old.duties ++ map (port_duty (arc_value context.now.plan)) ports.items }
{
    for (port, note) in ports {
        drop(note);
        start_guest(rt, log, context, port, crew);
    }
}

// Starts the worker of a port.
fn start_guest<
    M: GuestMem + Send + 'static,
    L: Ledger + Send + Sync + 'static,
    P: GuestPort + Send + 'static,
    G: Gate + Drop + Send + Sync + 'static,
    R: Threads + Wait + Copy + Send + 'static,
    O: Log,
>(
    rt: R,
    log: &O,
    context: &WorkerContext<M, L, G>,
    port: LockedPort<M, L, P>,
    crew: &mut Crew<M, L, P>,
)
    ensures stays { crew.new.was_refused ≡ false → crew.old.was_refused ≡ false }
    ensures duty { crew.new.was_refused ≡ false
        → crew.new.duties
        ≡ crew.old.duties ++ OfPort (arc_value context.now.plan) port ∷ [] }
{
    let Ok(mine) = context.another() else {
        return crew.refuse();
    };
    if !crew.is_ready() {
        return;
    }
    let worker = Worker::Of(port.caller());
    let work = Work::Guest(Shadow::of(&*mine.plan), Shadow::of(&port));
    match thread::spawn_with(&rt, work, move || do_port(rt, mine, port)) {
        Ok(thread) => crew.add(log, worker, RunningWorker::One(thread)),
        Err(_) => crew.refuse(),
    }
}

// What a port's thread does.
fn do_port<M: GuestMem, L: Ledger, P: GuestPort, G: Gate + Drop, R: Wait + Copy>(
    rt: R,
    mine: WorkerContext<M, L, G>,
    mut port: LockedPort<M, L, P>,
) -> WorkerResult<L>
    ensures { result.was_full ≡ false → IsDone (OfPort (arc_value mine.plan) port) result.share }
{
    guest(&rt, &mine, &mut port)
}

/// Starts the worker of a caller that is no port, the physical function's driver or the service, with its share.
pub fn start_driver<
    M: GuestMem + Send + 'static,
    L: Ledger + Send + Sync + 'static,
    P: GuestPort + Send + 'static,
    G: Gate + Drop + Send + Sync + 'static,
    R: Threads + Wait + Copy + Send + 'static,
    O: Log,
>(
    rt: R,
    log: &O,
    context: &WorkerContext<M, L, G>,
    caller: &Caller,
    share: Share<L>,
    crew: &mut Crew<M, L, P>,
)
    requires caller { share.caller ≡ caller.now }
    requires other { is_port caller.now ≡ false }
    ensures stays { crew.new.was_refused ≡ false → crew.old.was_refused ≡ false }
    ensures duty { crew.new.was_refused ≡ false
        → crew.new.duties
        ≡ crew.old.duties ++ OfShare (arc_value context.now.plan) share ∷ [] }
{
    let Ok(mine) = context.another() else {
        return crew.refuse();
    };
    if !crew.is_ready() {
        return;
    }
    let own = *caller;
    let work = Work::Owner(Shadow::of(&*mine.plan), Shadow::of(&share));
    match thread::spawn_with(&rt, work, move || do_share(rt, mine, own, share)) {
        Ok(thread) => crew.add(log, Worker::Of(*caller), RunningWorker::One(thread)),
        Err(_) => crew.refuse(),
    }
}

// What the thread of the driver does, or of the service.
fn do_share<M: GuestMem, L: Ledger, G: Gate + Drop, R: Wait + Copy>(
    rt: R,
    mine: WorkerContext<M, L, G>,
    caller: Caller,
    share: Share<L>,
) -> WorkerResult<L>
    requires caller { share.caller ≡ caller }
    requires other { is_port caller ≡ false }
    ensures { result.was_full ≡ false → IsDone (OfShare (arc_value mine.plan) share) result.share }
{
    driver(&rt, &mine, caller, share)
}
