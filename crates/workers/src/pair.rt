//! The pump and the wire's reader, from their starts to their ends.
ghost use Rattle.std.specs.Prelude.{◌≡◌, [], ◌∷◌, ◌++◌, false, IfOk, IfSome};
ghost use Rattle.std.specs.Arc.{arc_value};
ghost use Rattle.history.specs.declared.caller.Caller.TheVariants.{Pump};
ghost use Rattle.workers.specs.Duties.{HaveDone, OfShare};
ghost use Rattle.workers.specs.Pair.{AreNew, HasPumped, HasRead};

use crate::context::WorkerContext;
use crate::crew::{Crew, CrewEnds, RunningWorker, log_end, log_start};
use crate::door::GatedDoor;
use crate::gate::Gate;
use crate::work::{Pumping, Reading};
use crate::worker::{Came, Pumped, Worker, pumping, reader};
use device_lock::{Caller, Share};
use guest_memory::GuestMem;
use guest_port::GuestPort;
use log::Log;
use shadow::Shadow;
use std::alloc::AllocError;
use std::marker::Model;
use std::sync::Wait;
use std::sync::ledger::Ledger;
use std::thread;
use std::thread::{PromisedHandle, Threads};
use wire_pump::{FrameReceiver, FrameSender, LockedDoor};

/// The threads of the pump and of the wire's reader, which were started with the two ends of a new channel. Contracts see what they
/// are to do together: that the pump's share asks its caller's own events.
#[derive(Drop)]
pub struct Pair<L: Ledger> {
    pump_thread: PromisedHandle<Pumped<L>, Pumping<L>>,
    reader_thread: PromisedHandle<FrameSender, Reading>,
}

impl<L: Ledger> Model for Pair<L> {
    ghost use Rattle.std.specs.Prelude.{◌≡◌};
    ghost use Rattle.history.specs.declared.caller.Caller.TheVariants.{Pump};
    ghost use Rattle.workers.specs.Duties.{Duty, OfShare};
    ghost use Rattle.workers.specs.Pair.{AreNew};

    ghost Value = { Duty };

    ghost view = { λ pair. OfShare pair.reader_thread.promise.plan.value pair.pump_thread.promise.share.value };

    ghost invariant = { λ pair. (pair.pump_thread.promise.share.value.caller ≡ Pump)
        × AreNew pair.reader_thread.promise.sender.value pair.pump_thread.promise.receiver.value };
}

impl<L: Ledger + Send + 'static> Pair<L> {
    /// Waits for both, logs that each has ended, and puts the pump's share behind the others.
    #[tactic(auto, using(crate::proofs::Wires::one_channel, crate::proofs::Wires::pair_done))]
    pub fn join<R: Threads, O: Log>(
        self,
        rt: &R,
        log: &O,
        shares: &mut Vec<Share<L>>,
        ends: &mut CrewEnds,
    )
        ensures refused { ends.new.was_refused ≡ false → ends.old.was_refused ≡ false }
        ensures full { ends.new.was_full ≡ false → ends.old.was_full ≡ false }
        ensures done { ends.new.was_refused ≡ false → ends.new.was_full ≡ false
            → HaveDone (self ∷ []) shares.old.items shares.new.items }
    {
        let Pair {
            pump_thread,
            reader_thread,
        } = self;
        let Pumped {
            share,
            receiver,
            was_full,
        } = pump_thread.join(rt);
        log_end(log, &Worker::Of(Caller::Pump));
        let mut sender = reader_thread.join(rt);
        let Some(receiver) = receiver else {
            // a sender that went without `Last`, which can't be, is answered as a start that was refused
            ends.was_full = ends.was_full || was_full;
            ends.was_refused = ends.was_refused || !was_full;
            return;
        };
        drop(sender.beside(receiver));
        ends.was_refused = shares.push(share).is_err() || ends.was_refused;
    }
}

/// Starts the pump, with its share, and then the wire's reader, with the two ends of a new channel.
pub fn start_pair<
    M: GuestMem + Send + 'static,
    L: Ledger + Send + Sync + 'static,
    P: GuestPort + Send + 'static,
    G: Gate + Drop + Send + Sync + 'static,
    R: Threads + Wait + Copy + Send + 'static,
    O: Log,
>(
    rt: R,
    log: &O,
    context: &WorkerContext<M, L, G>,
    share: Share<L>,
    ends: (FrameSender, FrameReceiver),
    crew: &mut Crew<M, L, P>,
)
    requires pump { share.caller ≡ Pump }
    requires new { AreNew ends.0 ends.1 }
    ensures stays { crew.new.was_refused ≡ false → crew.old.was_refused ≡ false }
    ensures duty { crew.new.was_refused ≡ false
        → crew.new.duties
        ≡ crew.old.duties ++ OfShare (arc_value context.now.plan) share ∷ [] }
{
    if !crew.is_ready() {
        return;
    }
    let (sender, receiver) = ends;
    let Ok(pump_thread) = start_pump(rt, context, share, receiver) else {
        return crew.refuse();
    };
    log_start(log, &Worker::Of(Caller::Pump));
    match start_reader(rt, context, sender) {
        Ok(reader_thread) => {
            let pair = Pair {
                pump_thread,
                reader_thread,
            };
            crew.add(log, Worker::Reader, RunningWorker::Two(pair));
        }
        Err(_) => {
            // the sender is gone, so the pump ends
            drop(pump_thread.join(&rt));
            log_end(log, &Worker::Of(Caller::Pump));
            crew.refuse();
        }
    }
}

// Starts the pump. Its door has room for what its calls send and read, which is to be gone from the stack once the workers run.
#[inline(never)]
fn start_pump<
    M: GuestMem + Send + 'static,
    L: Ledger + Send + Sync + 'static,
    G: Gate + Drop + Send + Sync + 'static,
    R: Threads + Wait + Copy + Send + 'static,
>(
    rt: R,
    context: &WorkerContext<M, L, G>,
    share: Share<L>,
    receiver: FrameReceiver,
) -> Result<PromisedHandle<Pumped<L>, Pumping<L>>, AllocError>
    requires { share.caller ≡ Pump }
    ensures share { IfOk result (λ thread. thread.promise.share.value ≡ share) }
    ensures receiver { IfOk result (λ thread. thread.promise.receiver.value ≡ receiver) }
{
    let mine = context.another()?;
    let work = Pumping {
        share: Shadow::of(&share),
        receiver: Shadow::of(&receiver),
    };
    let door = GatedDoor::new(LockedDoor::folding(mine.device, share), mine.gate);
    match thread::spawn_with(&rt, work, move || do_pump(rt, receiver, door)) {
        Ok(thread) => Ok(thread),
        Err(_) => Err(AllocError),
    }
}

// What the pump's thread does. Its end of the channel is gone unless `Last` came, so that the reader doesn't wait for room.
#[tactic(auto, using(crate::proofs::Wires::has_pumped))]
fn do_pump<M: GuestMem, L: Ledger, G: Gate + Drop, R: Wait + Copy>(
    rt: R,
    mut receiver: FrameReceiver,
    door: GatedDoor<M, L, G>,
) -> Pumped<L>
    requires { door.inner.share.caller ≡ Pump }
    ensures { IfSome result.receiver
        (λ last. HasPumped door.inner.share result.share receiver last) }
{
    let (share, came) = pumping(&rt, &mut receiver, door);
    match came {
        Came::Last => Pumped {
            share,
            receiver: Some(receiver),
            was_full: false,
        },
        Came::Full => Pumped {
            share,
            receiver: None,
            was_full: true,
        },
        Came::Gone => Pumped {
            share,
            receiver: None,
            was_full: false,
        },
    }
}

// Starts the wire's reader.
fn start_reader<
    M: GuestMem + Send + 'static,
    L: Ledger + Send + Sync + 'static,
    G: Gate + Drop + Send + Sync + 'static,
    R: Threads + Wait + Copy + Send + 'static,
>(
    rt: R,
    context: &WorkerContext<M, L, G>,
    sender: FrameSender,
) -> Result<PromisedHandle<FrameSender, Reading>, AllocError>
    ensures plan { IfOk result (λ thread.
        thread.promise.plan.value ≡ arc_value context.now.plan) }
    ensures sender { IfOk result (λ thread. thread.promise.sender.value ≡ sender) }
{
    let mine = context.another()?;
    let work = Reading {
        plan: Shadow::of(&*mine.plan),
        sender: Shadow::of(&sender),
    };
    match thread::spawn_with(&rt, work, move || do_reader(rt, mine, sender)) {
        Ok(thread) => Ok(thread),
        Err(_) => Err(AllocError),
    }
}

// What the thread of the wire's reader does.
fn do_reader<M: GuestMem, L: Ledger, G: Gate + Drop, R: Wait + Copy>(
    rt: R,
    mine: WorkerContext<M, L, G>,
    mut sender: FrameSender,
) -> FrameSender
    ensures { HasRead (arc_value mine.plan) sender result }
{
    reader(&rt, &mine.plan, &mut sender);
    sender
}
