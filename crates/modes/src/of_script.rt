//! Whether the calls of a history are those of a script.
ghost use Rattle.std.specs.Prelude.{◌≡◌, ℕ, ◌<◌, ◌≤◌, true, drop, length, false, replicate, slice_index, slice_index_or, take, unwrap_or, IfOk, IfSome, IsTrue, ◌↔◌};
ghost use Rattle.std.specs.Arc.{arc_value};
ghost use Rattle.device.specs.declared.event.Event.TheVariants.{PfReset};
ghost use Rattle.device.specs.Request.{event_of};
ghost use Rattle.history.specs.Callers.{caller_of};
ghost use Rattle.history.specs.declared.caller.Caller.TheVariants.{Service};
ghost use Rattle.history.specs.Entries.{entry_at};
ghost use Rattle.workers.specs.Opens.{opened, pools_from};
ghost use Rattle.workers.specs.Plans.{events_before, own_events};
ghost use Rattle.modes.specs.Matches.{AreFirst, AreOwn, AreWithin, HaveOpened, TakesTurn};
ghost use Rattle.modes.specs.Threads.{AreOfScript, asks_after, is_end, ports_after, until_end};

use device::Request;
use device_lock::{CALLERS, Caller};
use history::{History, MOST_CALLS};
use script::{Scratch, Script};
use std::alloc::{AllocError, Global};
use std::sync::Arc;
use workers::opens::{closed_pools, note_done, pools_in};
use workers::{Plan, Ports, caller_before};

/// Whether the calls of a history are those of a script: first its events before `go`, and then of each caller its own, in order.
#[inline(never)]
pub(crate) fn is_of_script(
    alloc: Global,
    script: Arc<Script>,
    history: &History,
) -> Result<bool, AllocError>
    ensures { IfOk result
        (λ same. same ≡ true → AreOfScript (arc_value script) history.now.entries) }
{
    let count = first_count(&script);
    let Some(ports) = first_ports(&script, history, count) else {
        return Ok(false);
    };
    let pools = pools_in(alloc, &ports)?;
    let plan = Plan::new(alloc, script, ports)?;
    Ok(are_own(&plan, &pools, history, count))
}

// How many events come before `go`: all, where there is none.
fn first_count(script: &Script) -> usize
    ensures count { result ≡ unwrap_or script.now.go (length script.now.events) }
    ensures inside { result ≤ length script.now.events }
{
    match script.go() {
        Some(go) => go,
        None => script.len(),
    }
}

// For each pool whether it has a port at `go`, where the first calls are the events before it. None has one where there is no `go`.
#[tactic(auto, using(crate::proofs::Matches::no_ports, crate::proofs::Matches::some_ports))]
fn first_ports(script: &Script, history: &History, count: usize) -> Option<Ports>
    requires count { count ≡ unwrap_or script.now.go (length script.now.events) }
    requires inside { count ≤ length script.now.events }
    ensures first { IfSome result (λ ports.
        AreFirst (events_before script.now) (take count history.now.entries)) }
    ensures ports { IfSome result (λ ports.
        ports ≡ ports_after script.now (take count history.now.entries)) }
    ensures inside { IfSome result (λ ports. count ≤ length history.now.entries) }
    ensures len { IfSome result (λ ports. length ports ≡ 64) }
{
    let Some(ports) = opened_ports(script, history, count) else {
        return None;
    };
    match script.go() {
        Some(_) => Some(ports),
        None => Some(closed_pools()),
    }
}

// For each pool whether the first calls leave it open, where they are the first events of a script, each by its caller.
fn opened_ports(script: &Script, history: &History, count: usize) -> Option<Ports>
    requires { count ≤ length script.now.events }
    ensures opened { IfSome result (λ ports.
        HaveOpened (take count script.now.events) (take count history.now.entries) ports) }
    ensures inside { IfSome result (λ ports. count ≤ length history.now.entries) }
    ensures len { IfSome result (λ ports. length ports ≡ 64) }
{
    if history.len() < count {
        return None;
    }
    let mut scratch = Scratch::new();
    let mut ports = closed_pools();
    for at in 0..count {
        let request = script.request(at, &mut scratch);
        if !is_call(history, at, caller_before(request), request) {
            return None;
        }
        note_call(history, at, request, &mut ports);
    }
    Some(ports)
}

// Whether a call is of that caller, and asks that event.
fn is_call(history: &History, index: usize, caller: Caller, request: Request<'_>) -> bool
    requires { index < length history.now.entries }
    ensures { IsTrue result ↔ (((entry_at history.now index).caller ≡ caller)
        × (event_of request.entry ≡ (entry_at history.now index).event)) }
{
    history.caller(index) == caller && history.asks(index, request)
}

// Notes which pools a call leaves open by its answer.
#[tactic(auto, using(crate::proofs::Matches::opened_done, crate::proofs::Matches::opened_not))]
fn note_call(history: &History, index: usize, request: Request<'_>, ports: &mut Ports)
    requires index { index < length history.now.entries }
    requires len { length ports.old ≡ 64 }
    ensures opened { ports.new ≡ opened (event_of request.entry)
        (entry_at history.now index).answer.reply ports.old }
    ensures len { length ports.new ≡ 64 }
{
    if history.is_done(index) {
        note_done(request, ports);
    }
}

// Whether the calls from one on are of each caller just its own, in order.
fn are_own(plan: &Plan, pools: &[u8], history: &History, start: usize) -> bool
    requires pools { pools.now ≡ pools_from 0 plan.now.ports }
    requires start { start ≤ length history.now.entries }
    ensures { result ≡ true → AreOwn plan.now (drop start history.now.entries) }
{
    let mut scratch = Scratch::new();
    let mut turns = no_turns();
    for index in start..history.len() {
        if !take_turn(plan, pools, history, index, &mut turns, &mut scratch) {
            return false;
        }
    }
    are_done(plan, pools, &turns, &mut scratch)
}

// No caller has a turn behind it.
fn no_turns() -> [usize; CALLERS]
    ensures { result ≡ replicate 67 0 }
{
    [0; CALLERS]
}

// Whether a call is the next turn of its caller, which is counted then.
fn take_turn(
    plan: &Plan,
    pools: &[u8],
    history: &History,
    index: usize,
    turns: &mut [usize; CALLERS],
    scratch: &mut Scratch,
) -> bool
    requires pools { pools.now ≡ pools_from 0 plan.now.ports }
    requires index { index < length history.now.entries }
    requires turns { AreWithin plan.now turns.old }
    ensures taken { result ≡ true
        → TakesTurn plan.now (entry_at history.now index) turns.old turns.new }
{
    let caller = history.caller(index);
    let number = usize::from(caller.number());
    let turn = turns[number];
    // nobody has more turns than a history has calls
    if turn >= MOST_CALLS || !has_turn(plan, pools, &caller, turn, scratch) {
        return false;
    }
    let request = next_ask(plan, pools, &caller, turn, scratch);
    if !history.asks(index, request) {
        return false;
    }
    turns[number] = turn + 1;
    true
}

// Whether no caller has a turn left.
fn are_done(plan: &Plan, pools: &[u8], turns: &[usize; CALLERS], scratch: &mut Scratch) -> bool
    requires pools { pools.now ≡ pools_from 0 plan.now.ports }
    requires turns { AreWithin plan.now turns.now }
    ensures { result ≡ true → (n : ℕ) → n < 67
        → slice_index turns.now n ≡ length (asks_after plan.now (caller_of n)) }
{
    for number in 0..CALLERS {
        let Some(caller) = Caller::from_number(number as u8) else {
            unreachable!()
        };
        if has_turn(plan, pools, &caller, turns[number], scratch) {
            return false;
        }
    }
    true
}

// Whether a caller has one more turn after `go`: a port has none from its end on, and the service has the ends of the ports too.
fn has_turn(plan: &Plan, pools: &[u8], caller: &Caller, turn: usize, scratch: &mut Scratch) -> bool
    requires pools { pools.now ≡ pools_from 0 plan.now.ports }
    requires turn { turn ≤ length (asks_after plan.now caller.now) }
    ensures left { result ≡ true → turn < length (asks_after plan.now caller.now) }
    ensures done { result ≡ false → turn ≡ length (asks_after plan.now caller.now) }
{
    match caller {
        Caller::Port(_) => has_port_turn(plan, caller, turn, scratch),
        Caller::Service => has_service_turn(plan, pools, turn),
        Caller::Driver => turn < plan.turns(Caller::Driver),
        Caller::Pump => turn < plan.turns(Caller::Pump),
    }
}

// The same of a port.
#[tactic(auto, using(crate::proofs::Matches::goes_on, crate::proofs::Matches::ended_here, crate::proofs::Matches::through))]
fn has_port_turn(plan: &Plan, port: &Caller, turn: usize, scratch: &mut Scratch) -> bool
    requires { turn ≤ length (until_end (own_events plan.now port.now)) }
    ensures left { result ≡ true → turn < length (until_end (own_events plan.now port.now)) }
    ensures done { result ≡ false → turn ≡ length (until_end (own_events plan.now port.now)) }
{
    turn < plan.turns(*port) && !is_end(plan.request(*port, turn, scratch))
}

// The same of the service.
#[tactic(auto, using(crate::proofs::Matches::service_count))]
fn has_service_turn(plan: &Plan, pools: &[u8], turn: usize) -> bool
    requires pools { pools.now ≡ pools_from 0 plan.now.ports }
    requires turn { turn ≤ length (asks_after plan.now Service) }
    ensures left { result ≡ true → turn < length (asks_after plan.now Service) }
    ensures done { result ≡ false → turn ≡ length (asks_after plan.now Service) }
{
    let own = plan.turns(Caller::Service);
    turn < own || turn - own < pools.len()
}

// Whether an event is an end.
fn is_end(request: Request<'_>) -> bool
    ensures { result ≡ is_end (event_of request.entry) }
{
    matches!(request, Request::End(_))
}

// What a caller asks in a turn after `go` that it has.
fn next_ask<'a>(
    plan: &'a Plan,
    pools: &[u8],
    caller: &Caller,
    turn: usize,
    scratch: &'a mut Scratch,
) -> Request<'a>
    requires pools { pools.now ≡ pools_from 0 plan.now.ports }
    requires turn { turn < length (asks_after plan.now caller.now) }
    ensures { event_of result ≡ slice_index_or (asks_after plan.now caller.now) turn PfReset }
{
    match caller {
        Caller::Port(_) => port_ask(plan, caller, turn, scratch),
        Caller::Service => service_ask(plan, pools, turn, scratch),
        Caller::Driver => plan.request(Caller::Driver, turn, scratch),
        Caller::Pump => plan.request(Caller::Pump, turn, scratch),
    }
}

// The same of a port.
#[tactic(auto, using(crate::proofs::Matches::until_here))]
fn port_ask<'a>(plan: &'a Plan, port: &Caller, turn: usize, scratch: &'a mut Scratch) -> Request<'a>
    requires { turn < length (until_end (own_events plan.now port.now)) }
    ensures { event_of result
        ≡ slice_index_or (until_end (own_events plan.now port.now)) turn PfReset }
{
    plan.request(*port, turn, scratch)
}

// The same of the service: behind its own events the ends of the ports.
#[tactic(auto, using(crate::proofs::Matches::among_own, crate::proofs::Matches::among_ends, crate::proofs::Matches::service_count))]
fn service_ask<'a>(
    plan: &'a Plan,
    pools: &[u8],
    turn: usize,
    scratch: &'a mut Scratch,
) -> Request<'a>
    requires pools { pools.now ≡ pools_from 0 plan.now.ports }
    requires turn { turn < length (asks_after plan.now Service) }
    ensures { event_of result ≡ slice_index_or (asks_after plan.now Service) turn PfReset }
{
    let own = plan.turns(Caller::Service);
    if turn < own {
        plan.request(Caller::Service, turn, scratch)
    } else {
        Request::End(pools[turn - own])
    }
}
