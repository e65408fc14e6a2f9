//! The workers, and what each of them does in its thread.
ghost use Rattle.std.specs.Prelude.{◌≡◌, ℕ, ◌<◌, List, [], ◌∷◌, ◌++◌, slice_index_or, true, false, length, map, take, Some, IfSome, MatchOption};
ghost use Rattle.std.specs.Arc.{arc_value};
ghost use Rattle.wire_pump.specs.declared.feeding.FeedEnd.{FeedEnd};
ghost use Rattle.device.specs.declared.event.Event.TheVariants.{PfReset, Wire};
ghost use Rattle.history.specs.declared.caller.Caller.TheVariants.{Port, Pump};
ghost use Rattle.recorder.specs.Held.{HasAsked, having_calls};
ghost use Rattle.wire_pump.specs.declared.pumping.PumpEnd.{PumpEnd};
ghost use Rattle.wire_pump.specs.Ends.{fed, HasReceived, HasSent, IsCounted, pumped};
ghost use Rattle.workers.specs.Callers.{is_port};
ghost use Rattle.workers.specs.Asked.{HasLeft};
ghost use Rattle.workers.specs.Calls.{HasClosed, HasDone, HasDoneAll};
ghost use Rattle.workers.specs.Frames.{came_by, frames_of};
ghost use Rattle.workers.specs.Plans.{own_events};

use crate::asking::ask;
use crate::calling::call;
use crate::context::WorkerContext;
use crate::door::GatedDoor;
use crate::gate::Gate;
use crate::plan::Plan;
use device::Room;
use device_lock::{Caller, Share};
use guest_memory::GuestMem;
use guest_port::{GuestPort, LockedPort};
use script::Scratch;
use std::fmt;
use std::fmt::{Display, Formatter, Write};
use std::sync::Wait;
use std::sync::ledger::Ledger;
use wire_pump::{FeedEnd, FrameReceiver, FrameSender, PumpEnd, pump};

/// A worker, which has a thread of its own.
#[derive(Clone, Copy, Debug, PartialEq, Eq)]
pub enum Worker {
    /// That of a caller, which makes the caller's calls.
    Of(Caller),
    /// The reader of the wire, which makes none.
    Reader,
}

impl Display for Worker {
    fn fmt<W: Write>(&self, f: &mut Formatter<W>) -> fmt::Result {
        match self {
            Worker::Of(Caller::Port(pool)) => write!(f, "port{}", pool.get()),
            Worker::Of(Caller::Driver) => f.write_str("pf"),
            Worker::Of(Caller::Pump) => f.write_str("pump"),
            Worker::Of(Caller::Service) => f.write_str("service"),
            Worker::Reader => f.write_str("reader"),
        }
    }
}

/// What a worker hands back when it ends.
#[derive(Drop)]
pub struct WorkerResult<L: Ledger> {
    /// Its share. A port that was closed before has none.
    pub share: Option<Share<L>>,
    /// Whether it ended since the history was full.
    pub was_full: bool,
}

/// How the frames that came to the pump ended.
#[derive(Clone, Copy, Debug, PartialEq, Eq)]
pub enum Came {
    /// `Last` came.
    Last,
    /// The history was full.
    Full,
    /// The sender is gone, and there was no `Last`.
    Gone,
}

/// What the pump hands back when it ends.
#[derive(Drop)]
pub struct Pumped<L: Ledger> {
    /// Its share.
    pub share: Share<L>,
    /// Its end of the channel, where `Last` came. Else it is gone, so that the reader doesn't wait for room.
    pub receiver: Option<FrameReceiver>,
    /// Whether it ended since the history was full.
    pub was_full: bool,
}

/// Does a port's events, and closes it.
pub fn guest<M: GuestMem, L: Ledger, P: GuestPort, G: Gate + Drop, R: Wait>(
    rt: &R,
    context: &WorkerContext<M, L, G>,
    port: &mut LockedPort<M, L, P>,
) -> WorkerResult<L>
    ensures all { result.was_full ≡ false →
        HasClosed (own_events (arc_value context.now.plan) (Port port.old.port.pool)) port.old port.new }
    ensures part { result.was_full ≡ true
        → (done : ℕ) × (done < length (own_events (arc_value context.now.plan) (Port port.old.port.pool)))
        × HasClosed (take done (own_events (arc_value context.now.plan) (Port port.old.port.pool))) port.old port.new }
    ensures share { MatchOption result.share (port.old.port.is_closed ≡ true)
        (λ share. (port.old.port.is_closed ≡ false) × (share.caller ≡ Port port.old.port.pool)) }
    ensures asked { IfSome result.share
        (λ share. share ≡ having_calls port.new.calls port.new.made) }
{
    let was_full = !calls(rt, &context.plan, port, &*context.gate);
    let share = match port.close() {
        Some((share, tokens)) => {
            drop(tokens);
            Some(share)
        }
        None => None,
    };
    WorkerResult { share, was_full }
}

// Does a port's events, and tells whether all were done.
#[tactic(auto, using(crate::proofs::Turns::done_turn, crate::proofs::Turns::same_pool, crate::proofs::Turns::same_close))]
fn calls<M: GuestMem, L: Ledger, P: GuestPort, G: Gate, R: Wait>(
    rt: &R,
    plan: &Plan,
    port: &mut LockedPort<M, L, P>,
    gate: &G,
) -> bool
    ensures all { result ≡ true
        → HasDoneAll (own_events plan.now (Port port.old.port.pool)) port.old port.new }
    ensures part { result ≡ false
        → (done : ℕ) × (done < length (own_events plan.now (Port port.old.port.pool)))
        × HasDoneAll (take done (own_events plan.now (Port port.old.port.pool))) port.old port.new }
    ensures kept { (port.new.port.pool ≡ port.old.port.pool)
        × (port.new.port.is_closed ≡ port.old.port.is_closed) }
{
    let number = port.pool();
    let mut scratch = Scratch::new();
    let mut n = 0u32;
    for turn in 0..plan.turns(port.caller()) {
        n = n.wrapping_add(1);
        gate.before(number, n);
        let done = call_turn(rt, plan, port, turn, &mut scratch);
        gate.after(number, n);
        if !done {
            return false;
        }
    }
    true
}

// Does one of a port's events, and tells whether it was done.
#[tactic(auto, using(crate::proofs::Turns::own_port_event))]
fn call_turn<M: GuestMem, L: Ledger, P: GuestPort, R: Wait>(
    rt: &R,
    plan: &Plan,
    port: &mut LockedPort<M, L, P>,
    turn: usize,
    scratch: &mut Scratch,
) -> bool
    requires { turn < length (own_events plan.now (Port port.old.port.pool)) }
    ensures done { result ≡ true
        → HasDone (slice_index_or (own_events plan.now (Port port.old.port.pool)) turn PfReset) port.old port.new }
    ensures undone { result ≡ false → port.new ≡ port.old }
{
    let request = plan.request(port.caller(), turn, scratch);
    match call(rt, port, request) {
        Ok(()) => true,
        Err(_) => false,
    }
}

// What the worker of a share lends to each of its events in turn.
#[derive(Drop)]
struct Lent {
    // where the request may be laid out
    scratch: Scratch,
    // for what the event sends and reads
    room: Room,
}

impl Lent {
    // Room that nothing was laid into.
    fn new() -> Lent {
        Lent {
            scratch: Scratch::new(),
            room: Room::new(),
        }
    }
}

/// Does the events of a caller that is no port, the driver of the physical function or the service, by its share.
pub fn driver<M: GuestMem, L: Ledger, G: Gate + Drop, R: Wait>(
    rt: &R,
    context: &WorkerContext<M, L, G>,
    caller: Caller,
    mut share: Share<L>,
) -> WorkerResult<L>
    requires caller { share.caller ≡ caller }
    requires other { is_port caller ≡ false }
    ensures all { result.was_full ≡ false →
        HasLeft (own_events (arc_value context.now.plan) share.caller) share result.share }
    ensures part { result.was_full ≡ true
        → (done : ℕ) × (done < length (own_events (arc_value context.now.plan) share.caller))
        × HasLeft (take done (own_events (arc_value context.now.plan) share.caller)) share result.share }
{
    let was_full = !events(rt, context, caller, &mut share);
    WorkerResult {
        share: Some(share),
        was_full,
    }
}

// Does the events of a share's caller, and tells whether all were done.
#[tactic(auto, using(crate::proofs::Asks::asked_turn, crate::proofs::Asks::asked_none))]
fn events<M: GuestMem, L: Ledger, G: Gate + Drop, R: Wait>(
    rt: &R,
    context: &WorkerContext<M, L, G>,
    caller: Caller,
    share: &mut Share<L>,
) -> bool
    requires caller { share.old.caller ≡ caller }
    requires other { is_port caller ≡ false }
    ensures all { result ≡ true
        → HasAsked (own_events (arc_value context.now.plan) share.old.caller) share.old share.new }
    ensures part { result ≡ false
        → (done : ℕ) × (done < length (own_events (arc_value context.now.plan) share.old.caller))
        × HasAsked (take done (own_events (arc_value context.now.plan) share.old.caller)) share.old share.new }
{
    let number = caller.number();
    let mut lent = Lent::new();
    let mut n = 0u32;
    for turn in 0..context.plan.turns(caller) {
        n = n.wrapping_add(1);
        context.gate.before(number, n);
        let done = ask_turn(rt, context, &caller, share, turn, &mut lent);
        context.gate.after(number, n);
        if !done {
            return false;
        }
    }
    true
}

// Does one of the events of a share's caller, and tells whether it was done.
#[tactic(auto, using(crate::proofs::Turns::own_may, crate::proofs::Asks::told_one))]
fn ask_turn<M: GuestMem, L: Ledger, G: Gate + Drop, R: Wait>(
    rt: &R,
    context: &WorkerContext<M, L, G>,
    caller: &Caller,
    share: &mut Share<L>,
    turn: usize,
    lent: &mut Lent,
) -> bool
    requires caller { share.old.caller ≡ caller.now }
    requires other { is_port caller.now ≡ false }
    requires turn { turn < length (own_events (arc_value context.now.plan) caller.now) }
    ensures asked { result ≡ true
        → HasAsked (slice_index_or (own_events (arc_value context.now.plan) caller.now) turn PfReset ∷ []) share.old share.new }
    ensures undone { result ≡ false → share.new ≡ share.old }
    ensures caller { share.new.caller ≡ share.old.caller }
{
    let request = context.plan.request(*caller, turn, &mut lent.scratch);
    match ask(rt, &context.device, share, request, &mut lent.room) {
        Ok(_) => true,
        Err(_) => false,
    }
}

/// Reads the frames of the wire from the script, and sends them and then `Last` to the pump.
pub fn reader<R: Wait>(rt: &R, plan: &Plan, sender: &mut FrameSender)
    ensures sent { (end : FeedEnd) × IsCounted (length (frames_of (own_events plan.now Pump))) end
        × HasSent (fed (frames_of (own_events plan.now Pump)) end) sender.old sender.new }
    ensures wire { map Wire (frames_of (own_events plan.now Pump)) ≡ own_events plan.now Pump }
{
    let _ = send_frames(rt, plan, sender);
}

// Sends the frames and then `Last`. Where the pump is gone, no more are sent.
#[tactic(auto, using(crate::proofs::Wires::sent_more, crate::proofs::Wires::sent_all))]
fn send_frames<R: Wait>(rt: &R, plan: &Plan, sender: &mut FrameSender) -> FeedEnd
    ensures sent { HasSent (fed (frames_of (own_events plan.now Pump)) result) sender.old sender.new }
    ensures count { IsCounted (length (frames_of (own_events plan.now Pump))) result }
    ensures wire { map Wire (frames_of (own_events plan.now Pump)) ≡ own_events plan.now Pump }
{
    let mut scratch = Scratch::new();
    let count = plan.frames();
    for sent in 0..count {
        if !sender.frame(rt, plan.frame(sent, &mut scratch)) {
            return FeedEnd::Gone(sent);
        }
    }
    if sender.last(rt) {
        FeedEnd::All
    } else {
        FeedEnd::Gone(count)
    }
}

/// Gives the frames that come to the device, by the pump's share, which it hands back, and tells how they ended.
#[tactic(auto, using(crate::proofs::Asks::door_asked))]
pub fn pumping<M: GuestMem, L: Ledger, G: Gate + Drop, R: Wait>(
    rt: &R,
    receiver: &mut FrameReceiver,
    mut door: GatedDoor<M, L, G>,
) -> (Share<L>, Came)
    ensures asked { (frames : List (List ℕ)) × (end : PumpEnd)
        × HasReceived (pumped frames end) receiver.old receiver.new
        × HasAsked (map Wire frames) (record door.inner.share { caller = Pump }) result.0
        × (result.1 ≡ came_by end) }
{
    let came = match pump(receiver, rt, &mut door) {
        PumpEnd::Last => Came::Last,
        PumpEnd::Full(_) => Came::Full,
        PumpEnd::Gone => Came::Gone,
    };
    (door.into_share(), came)
}
