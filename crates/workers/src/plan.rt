//! Who does which event.
ghost use Rattle.std.specs.Prelude.{◌≡◌, ◌<◌, ◌≤◌, [], ◌∷◌, ◌++◌, length, map, replicate, slice_index_or, slice_set, unwrap_or, IfOk, OnOk};
ghost use Rattle.std.specs.Arc.{arc_value};
ghost use Rattle.device.specs.Request.{event_of};
ghost use Rattle.device.specs.declared.event.Event.TheVariants.{PfReset, Wire};
ghost use Rattle.device.specs.declared.event.Whose.TheVariants.{Function};
ghost use Rattle.history.specs.declared.caller.Caller.TheVariants.{Pump};
ghost use Rattle.workers.specs.Callers.{caller_among, caller_before, caller_of, is_of_host, port_or_service};
ghost use Rattle.workers.specs.Frames.{frames_of};
ghost use Rattle.workers.specs.Plans.{own_events, planned};
ghost use Rattle.workers.specs.Turns.{AreTurns};

use device::{Request, Whose};
use device_lock::{CALLERS, Caller};
use script::{Scratch, Script};
use std::alloc::{AllocError, Global};
use std::marker::Model;
use std::sync::Arc;
use wire_frame::{Frame, PoolId};

/// For each pool whether it has a port.
pub type Ports = [bool; 64];

// The places in a script of one caller's events after `go`, rising. Contracts see the list of them.
#[derive(Drop)]
struct Turns {
    places: Vec<usize>,
}

impl Model for Turns {
    ghost use Rattle.std.specs.Prelude.{ℕ, List};

    ghost Value = { List ℕ };

    ghost view = { λ t. t.places.items };
}

impl Turns {
    // One more place.
    fn add(&mut self, place: usize) -> Result<(), AllocError>
        ensures { OnOk result (self.new ≡ self.old ++ place ∷ []) }
    {
        Ok(self.places.push(place)?)
    }

    // How many there are.
    fn len(&self) -> usize
        ensures { result ≡ length self.now }
    {
        self.places.len()
    }

    // The place of a turn, which is counted from 0.
    fn at(&self, turn: usize) -> usize
        requires { turn < length self.now }
        ensures { result ≡ slice_index_or self.now turn 0 }
    {
        self.places[turn]
    }
}

/// The events of a script, and who does each of them. Contracts see the events, where `go` stands, and the pools that have a
/// port.
#[derive(Drop)]
pub struct Plan {
    script: Arc<Script>,
    ports: Ports,
    // of each caller, by its number
    turns: Vec<Turns>,
}

impl Model for Plan {
    ghost use Rattle.std.specs.Arc.{arc_value};
    ghost use Rattle.workers.specs.Plans.{Planned, planned};
    ghost use Rattle.workers.specs.Turns.{AreTurns};
    ghost use Rattle.std.specs.Prelude.{◌≡◌, length};

    ghost Value = { Planned };

    ghost view = { λ p. planned (arc_value p.script) p.ports };

    ghost invariant = { λ p. (length p.ports ≡ 64)
        × AreTurns (planned (arc_value p.script) p.ports) p.turns.items };
}

impl Plan {
    /// The plan of a script, where these pools have a port.
    pub fn new(alloc: Global, script: Arc<Script>, ports: Ports) -> Result<Plan, AllocError>
        requires { length ports ≡ 64 }
        ensures { IfOk result (λ plan. plan ≡ planned (arc_value script) ports) }
    {
        let turns = turns_of(alloc, &script, &ports)?;
        Ok(Plan {
            script,
            ports,
            turns,
        })
    }

    /// How many events after `go` a caller does.
    #[tactic(auto, using(crate::proofs::Places::turn_number, crate::proofs::Places::turns_count))]
    pub fn turns(&self, caller: Caller) -> usize
        ensures { result ≡ length (own_events self.now caller) }
    {
        self.turns[usize::from(caller.number())].len()
    }

    /// One of the events after `go` that a caller does, as a device is asked it. Its bytes, where it has some, may be laid
    /// out in `scratch`.
    #[inline]
    #[tactic(auto, using(crate::proofs::Places::turn_number, crate::proofs::Places::turns_count, crate::proofs::Places::turn_inside, crate::proofs::Places::turn_event))]
    pub fn request<'a>(
        &'a self,
        caller: Caller,
        turn: usize,
        scratch: &'a mut Scratch,
    ) -> Request<'a>
        requires { turn < length (own_events self.now caller) }
        ensures { event_of result ≡ slice_index_or (own_events self.now caller) turn PfReset }
    {
        let place = place_of(&self.turns, caller.number(), turn);
        self.script.request(place, scratch)
    }

    /// How many frames come from the wire after `go`: all that the pump does.
    #[tactic(auto, using(crate::proofs::Wires::frames_count, crate::proofs::Wires::own_wire))]
    pub fn frames(&self) -> usize
        ensures frames { result ≡ length (frames_of (own_events self.now Pump)) }
        ensures wire { map Wire (frames_of (own_events self.now Pump)) ≡ own_events self.now Pump }
    {
        self.turns(Caller::Pump)
    }

    /// One of the frames that come from the wire after `go`. It may be laid out in `scratch`.
    pub fn frame<'a>(&'a self, turn: usize, scratch: &'a mut Scratch) -> Frame<'a>
        requires { turn < length (frames_of (own_events self.now Pump)) }
        ensures { result.bytes.now ≡ slice_index_or (frames_of (own_events self.now Pump)) turn [] }
    {
        match self.request(Caller::Pump, turn, scratch) {
            Request::Wire(frame) => frame,
            _ => unreachable!(),
        }
    }
}

// The place of a turn of the caller of a number.
fn place_of(turns: &[Turns], number: u8, turn: usize) -> usize
    requires number { number < length turns.now }
    requires turn { turn < length (slice_index_or turns.now number []) }
    ensures { result ≡ slice_index_or (slice_index_or turns.now number []) turn 0 }
{
    turns[usize::from(number)].at(turn)
}

// The places of each caller's events after `go`, found in one pass over the script. What an event is laid out in is gone from the stack
// after it, since this is a call of its own.
#[inline(never)]
#[tactic(auto, using(crate::proofs::Places::found_all))]
fn turns_of(alloc: Global, script: &Script, ports: &Ports) -> Result<Vec<Turns>, AllocError>
    requires { length ports.now ≡ 64 }
    ensures { IfOk result (λ turns. AreTurns (planned script.now ports.now) turns.items) }
{
    let mut scratch = Scratch::new();
    let mut turns = no_turns(alloc)?;
    for place in start_of(script)..script.len() {
        let caller = caller_of(ports, script.request(place, &mut scratch));
        add_turn(&mut turns, caller.number(), place)?;
    }
    Ok(turns)
}

// One more place of the events of the caller of a number.
fn add_turn(turns: &mut Vec<Turns>, number: u8, place: usize) -> Result<(), AllocError>
    requires { number < length turns.old.items }
    ensures { OnOk result
        (turns.new.items
        ≡ slice_set turns.old.items number
        (slice_index_or turns.old.items number [] ++ place ∷ [])) }
{
    turns[usize::from(number)].add(place)
}

// Nobody has an event yet.
fn no_turns(alloc: Global) -> Result<Vec<Turns>, AllocError>
    ensures { IfOk result (λ turns. turns.items ≡ replicate 67 []) }
{
    let mut turns = Vec::with_capacity(alloc, CALLERS)?;
    for _ in 0..CALLERS {
        turns.push(Turns {
            places: Vec::new(alloc),
        })?;
    }
    Ok(turns)
}

// Where the first event after `go` stands. Without a `go` no event comes after it.
fn start_of(script: &Script) -> usize
    ensures start { result ≡ unwrap_or script.now.go (length script.now.events) }
    ensures inside { result ≤ length script.now.events }
{
    match script.go() {
        Some(go) => go,
        None => script.len(),
    }
}

/// The caller that does an event before `go`.
pub fn caller_before(request: Request<'_>) -> Caller
    ensures { result ≡ caller_before (event_of request.entry) }
{
    match request.whose() {
        Whose::Physical => Caller::Driver,
        Whose::Function(_) | Whose::Wire => Caller::Service,
    }
}

// The caller that does an event after `go`.
fn caller_of(ports: &Ports, request: Request<'_>) -> Caller
    requires { length ports.now ≡ 64 }
    ensures { result ≡ caller_of ports.now (event_of request.entry) }
{
    match request.whose() {
        Whose::Function(pool) => caller_of_own(ports, pool, request),
        Whose::Physical => Caller::Driver,
        Whose::Wire => Caller::Pump,
    }
}

// The caller that does an event of a function's own after `go`: a function is opened, and its queues are served, by the service.
fn caller_of_own(ports: &Ports, pool: u8, request: Request<'_>) -> Caller
    requires { length ports.now ≡ 64 }
    ensures { result ≡ caller_among ports.now (is_of_host (event_of request.entry)) (Function pool) }
{
    match request {
        Request::Open(_) | Request::Serve(_, _) => Caller::Service,
        _ => port_or_service(ports, pool),
    }
}

// The pool's port, where it has one, or the service.
#[tactic(auto, using(crate::proofs::Turns::no_pool))]
fn port_or_service(ports: &Ports, pool: u8) -> Caller
    requires { length ports.now ≡ 64 }
    ensures { result ≡ port_or_service ports.now pool }
{
    let Some(pool) = PoolId::new(pool) else {
        return Caller::Service;
    };
    if ports[usize::from(pool.get())] {
        Caller::Port(pool)
    } else {
        Caller::Service
    }
}
