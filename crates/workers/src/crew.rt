//! The workers that run.
ghost use Rattle.std.specs.Prelude.{◌≡◌, ◌⊎◌, ◌++◌, [], ◌∷◌, true, false, Some, None, IfOk, IfSome};
ghost use Rattle.wire_frame.specs.declared.fault.Fault.{Fault};
ghost use Rattle.workers.specs.Crew.{duty_in};
ghost use Rattle.workers.specs.Duties.{HaveDone};
ghost use Rattle.workers.specs.Work.{duty_of};

use crate::pair::Pair;
use crate::work::Work;
use crate::worker::{Worker, WorkerResult};
use device_lock::Share;
use guest_memory::GuestMem;
use guest_port::GuestPort;
use log::{Log, debug};
use std::alloc::{AllocError, Global};
use std::marker::Model;
use std::sync::ledger::Ledger;
use std::thread::{PromisedHandle, Threads};
use wire_frame::Fault;

/// The shares of all callers, once the workers have ended.
#[derive(Drop)]
pub struct Ended<L: Ledger> {
    /// The shares, 67 of them where none was missing before.
    pub shares: Vec<Share<L>>,
}

/// What runs for a share.
#[derive(Drop)]
pub enum RunningWorker<M: GuestMem, L: Ledger, P: GuestPort> {
    /// The thread of a worker that has a share of its own.
    One(PromisedHandle<WorkerResult<L>, Work<M, L, P>>),
    /// The threads of the pump and of the wire's reader.
    Two(Pair<L>),
}

/// The workers that were started, in the order of their starts. Contracts see what each of them promised to do, and whether a
/// start was refused.
#[derive(Drop)]
pub struct Crew<M: GuestMem, L: Ledger, P: GuestPort> {
    running: Vec<(Worker, RunningWorker<M, L, P>)>,
    // a start was refused, and none is tried any more
    was_refused: bool,
}

impl<M: GuestMem, L: Ledger, P: GuestPort> Model for Crew<M, L, P> {
    ghost use Rattle.workers.specs.Duties.{Started};

    ghost Value = { Started };

    ghost use Rattle.std.specs.Prelude.{map};
    ghost use Rattle.workers.specs.Crew.{duty_in};

    ghost view = { λ crew. record {
      was_refused = crew.was_refused;
      duties = map (λ one. duty_in one.1) crew.running.items;
    } };
}

/// How the workers of a crew ended.
#[derive(Clone, Copy, Debug, PartialEq, Eq)]
pub struct CrewEnds {
    /// A start was refused.
    pub was_refused: bool,
    /// A worker ended since the history was full.
    pub was_full: bool,
}

impl CrewEnds {
    /// Why not all was done, if it was not. A start that was refused is told also where the history was full.
    pub fn fault(self) -> Option<Fault>
        ensures refused { self.was_refused ≡ true → result ≡ Some Fault.NoMemory }
        ensures full { self.was_refused ≡ false → self.was_full ≡ true
            → result ≡ Some Fault.HistoryFull }
        ensures none { result ≡ None
            → (self.was_refused ≡ false) × (self.was_full ≡ false) }
        ensures some { IfSome result (λ e. (e ≡ Fault.NoMemory) ⊎ (e ≡ Fault.HistoryFull)) }
    {
        if self.was_refused {
            Some(Fault::NoMemory)
        } else if self.was_full {
            Some(Fault::HistoryFull)
        } else {
            None
        }
    }
}

impl<M: GuestMem, L: Ledger + Send + 'static, P: GuestPort> Crew<M, L, P> {
    /// Nobody yet, with room for so many.
    pub fn new(alloc: Global, count: usize) -> Result<Crew<M, L, P>, AllocError>
        ensures { IfOk result (λ crew. (crew.was_refused ≡ false) × (crew.duties ≡ [])) }
    {
        Ok(Crew {
            running: Vec::with_capacity(alloc, count)?,
            was_refused: false,
        })
    }

    /// Whether one more may start: no start was refused, and there is room.
    pub fn is_ready(&mut self) -> bool
        ensures stays { self.new.was_refused ≡ false → self.old.was_refused ≡ false }
        ensures same { self.new.duties ≡ self.old.duties }
        ensures ready { result ≡ false → self.new.was_refused ≡ true }
    {
        if !self.was_refused && self.running.reserve(1).is_err() {
            self.was_refused = true;
        }
        !self.was_refused
    }

    /// A worker was started, which is logged.
    pub fn add<O: Log>(&mut self, log: &O, worker: Worker, running: RunningWorker<M, L, P>)
        ensures stays { self.new.was_refused ≡ false → self.old.was_refused ≡ false }
        ensures one { self.new.was_refused ≡ false
            → self.new.duties ≡ self.old.duties ++ duty_in running ∷ [] }
    {
        log_start(log, &worker);
        if self.running.push((worker, running)).is_err() {
            self.was_refused = true;
        }
    }

    /// A start was refused: nobody is started any more.
    pub fn refuse(&mut self)
        ensures { self.new.was_refused ≡ true }
    {
        self.was_refused = true;
    }

    /// Waits for the workers in the order of their starts, logs that each has ended, and puts the shares behind the others.
    pub fn join<R: Threads, O: Log>(self, rt: &R, log: &O, shares: &mut Vec<Share<L>>) -> CrewEnds
        ensures refused { result.was_refused ≡ false → self.was_refused ≡ false }
        ensures done { result.was_refused ≡ false → result.was_full ≡ false
            → HaveDone self.duties shares.old.items shares.new.items }
    {
        let Crew {
            running,
            was_refused,
        } = self;
        let mut ends = CrewEnds {
            was_refused,
            was_full: false,
        };
        for (worker, one) in running {
            join_one(rt, log, one, shares, &mut ends);
            log_end(log, &worker);
        }
        ends
    }
}

/// Logs that a worker starts.
pub fn log_start<O: Log>(log: &O, worker: &Worker) {
    debug!(log; "worker {worker} starts");
}

/// Logs that a worker ends.
pub fn log_end<O: Log>(log: &O, worker: &Worker) {
    debug!(log; "worker {worker} ends");
}

// Waits for what runs for a share, and puts the share behind the others.
fn join_one<M: GuestMem, L: Ledger + Send + 'static, P: GuestPort, R: Threads, O: Log>(
    rt: &R,
    log: &O,
    one: RunningWorker<M, L, P>,
    shares: &mut Vec<Share<L>>,
    ends: &mut CrewEnds,
)
    ensures refused { ends.new.was_refused ≡ false → ends.old.was_refused ≡ false }
    ensures full { ends.new.was_full ≡ false → ends.old.was_full ≡ false }
    ensures done { ends.new.was_refused ≡ false → ends.new.was_full ≡ false
        → HaveDone (duty_in one ∷ []) shares.old.items shares.new.items }
{
    match one {
        RunningWorker::One(thread) => join_thread(rt, thread, shares, ends),
        RunningWorker::Two(pair) => pair.join(rt, log, shares, ends),
    }
}

// Waits for a worker, and puts its share behind the others.
#[tactic(auto, using(crate::proofs::Worked::one_done, crate::proofs::Worked::none_left))]
fn join_thread<M: GuestMem, L: Ledger, P: GuestPort, R: Threads>(
    rt: &R,
    thread: PromisedHandle<WorkerResult<L>, Work<M, L, P>>,
    shares: &mut Vec<Share<L>>,
    ends: &mut CrewEnds,
)
    ensures refused { ends.new.was_refused ≡ false → ends.old.was_refused ≡ false }
    ensures full { ends.new.was_full ≡ false → ends.old.was_full ≡ false }
    ensures done { ends.new.was_refused ≡ false → ends.new.was_full ≡ false
        → HaveDone (duty_of thread.promise ∷ []) shares.old.items shares.new.items }
{
    let WorkerResult { share, was_full } = thread.join(rt);
    ends.was_full = ends.was_full || was_full;
    if let Some(share) = share {
        ends.was_refused = shares.push(share).is_err() || ends.was_refused;
    }
}
