//! The events that a device takes, one at a time and in a list.
ghost use Rattle.std.specs.Prelude.{◌≡◌, ℕ, List, ◌+◌, ◌<◌, [], ◌∷◌, ◌++◌, length, vec_len, vec_capacity, option_copied, IfOk, IfErr, OnOk, OnErr};
ghost use Rattle.device.specs.declared.event.Event.{Event};
ghost use Rattle.device.specs.declared.room.Room.{Room};
ghost use Rattle.device.specs.World.{step, sent_by, answers, world_after};
ghost use Rattle.device.specs.Lone.{SeesAsAlone, EndsAsAlone};
ghost use Rattle.device.specs.Outcome.{answer_of};
ghost use Rattle.device.specs.Takes.{Takes};
ghost use Rattle.device.specs.Accesses.{accesses_by};
ghost use Rattle.device.specs.Live.{told_world, TakesLive, AreListed, AreMet};
ghost use Rattle.device.specs.Request.{event_of};

use crate::bytes::MemSlice;
use crate::device::Device;
use crate::event::{Answer, Event, Request};
use crate::response::Response;
use crate::room::Room;
use guest_memory::GuestMem;
use irq_causes::Messages;
use live_memory::Dma;
use std::alloc::Global;
use wire_frame::{Fault, Frame, FrameBuf, PoolId};

impl<D: Dma<K>, K> Device<D, K> {
    /// Takes the event that a request stands for, where others may write the memories of the functions meanwhile. It means what
    /// [`take`](Device::take) does in the world in which each function's memory holds what was read from it: as if its guest had
    /// written just that, right before the event. The memories are accessed just as `accesses_by` lists, in that order, and bytes that
    /// the event reads are read once.
    #[inline(always)]
    pub fn take_live(&mut self, request: Request<'_>, room: &mut Room) -> Response
        ensures takes { TakesLive D.shared self.old.accesses self.new.accesses
            self.old.world (event_of request.entry) self.new.world result room.new }
        ensures listed { AreListed
            (accesses_by (told_world self.old.accesses self.new.accesses self.old.world)
            (event_of request.entry)) self.old.accesses self.new.accesses }
    {
        match request {
            Request::VfRead(pool, offset) => self.take_vf_read(pool, offset),
            Request::VfWrite(pool, offset, value) => self.take_vf_write(pool, offset, value),
            Request::MemRead(pool, at, count) => self.take_mem_read(pool, at, count, room),
            Request::MemWrite(pool, at, written) => self.take_mem_write(pool, at, written),
            Request::Serve(pool, queue) => self.serve_live(pool, queue, room),
            Request::Wire(frame) => self.take_wire(frame),
            Request::PfRead(offset) => self.take_pf_read(offset),
            Request::PfWrite(offset, value) => self.take_pf_write(offset, value),
            Request::Open(pool) => self.take_open(pool),
            Request::End(pool) => self.take_end(pool),
            Request::Flr(pool) => self.take_flr(pool),
            Request::PfReset => self.take_pf_reset(),
        }
    }

    // The arms of `take_live`, each a call of its own: what an arm keeps for itself is cleared on its own path alone.

    // A read of a function's register.
    #[inline(always)]
    fn take_vf_read(&mut self, pool: u8, offset: u32) -> Response
        ensures takes { (room : Room) → Takes self.old.world (Event.VfRead pool offset) self.new.world result room }
        ensures accesses { self.new.accesses ≡ self.old.accesses }
    {
        Response::value_or_refused(self.vf_read(pool, offset))
    }

    // A write of a function's register.
    #[inline(always)]
    fn take_vf_write(&mut self, pool: u8, offset: u32, value: u32) -> Response
        ensures takes { (room : Room) → Takes self.old.world (Event.VfWrite pool offset value) self.new.world result room }
        ensures accesses { self.new.accesses ≡ self.old.accesses }
    {
        Response::issued(self.vf_write(pool, offset, value))
    }

    // A read of a function's memory, into the room.
    #[inline(always)]
    fn take_mem_read(&mut self, pool: u8, at: u64, count: u16, room: &mut Room) -> Response
        ensures takes { TakesLive D.shared self.old.accesses self.new.accesses
            self.old.world (Event.MemRead pool at count) self.new.world result room.new }
        ensures listed { AreListed
            (accesses_by (told_world self.old.accesses self.new.accesses self.old.world)
            (Event.MemRead pool at count)) self.old.accesses self.new.accesses }
    {
        Response::silent(self.load(pool, at, count, &mut room.bytes))
    }

    // A write of a function's memory.
    #[inline(always)]
    fn take_mem_write(&mut self, pool: u8, at: u64, written: MemSlice<'_>) -> Response
        ensures takes { (room : Room) → Takes self.old.world (Event.MemWrite pool at written.entry.bytes.now) self.new.world result room }
        ensures listed { AreListed
            (accesses_by self.old.world (Event.MemWrite pool at written.entry.bytes.now))
            self.old.accesses self.new.accesses }
        ensures met { AreMet D.shared self.old.accesses self.new.accesses self.old.world }
    {
        Response::done_or_refused(self.mem_write(pool, at, written))
    }

    // A frame from the wire.
    #[inline(always)]
    fn take_wire(&mut self, frame: Frame<'_>) -> Response
        ensures takes { (room : Room) → TakesLive D.shared self.old.accesses self.new.accesses
            self.old.world (Event.Wire frame.entry.bytes.now) self.new.world result room }
        ensures listed { AreListed
            (accesses_by (told_world self.old.accesses self.new.accesses self.old.world)
            (Event.Wire frame.entry.bytes.now)) self.old.accesses self.new.accesses }
    {
        Response::issued(self.wire_live(frame))
    }

    // A read of a register of the physical function.
    #[inline(always)]
    fn take_pf_read(&self, offset: u32) -> Response
        ensures { (room : Room) → Takes self.now.world (Event.PfRead offset) self.now.world result room }
    {
        Response::value_or_refused(self.pf_read(offset))
    }

    // A write of a register of the physical function.
    #[inline(always)]
    fn take_pf_write(&mut self, offset: u32, value: u32) -> Response
        ensures takes { (room : Room) → Takes self.old.world (Event.PfWrite offset value) self.new.world result room }
        ensures accesses { self.new.accesses ≡ self.old.accesses }
    {
        Response::done_or_refused(self.pf_write(offset, value))
    }

    // A function is opened.
    #[inline(always)]
    fn take_open(&mut self, pool: u8) -> Response
        ensures takes { (room : Room) → Takes self.old.world (Event.Open pool) self.new.world result room }
        ensures listed { AreListed (accesses_by self.old.world (Event.Open pool))
            self.old.accesses self.new.accesses }
        ensures met { AreMet D.shared self.old.accesses self.new.accesses self.old.world }
    {
        Response::done_or_refused(self.open(pool))
    }

    // A function is closed.
    #[inline(always)]
    fn take_end(&mut self, pool: u8) -> Response
        ensures takes { (room : Room) → Takes self.old.world (Event.End pool) self.new.world result room }
        ensures accesses { self.new.accesses ≡ self.old.accesses }
    {
        Response::done_or_refused(self.end(pool))
    }

    // A function is reset.
    #[inline(always)]
    fn take_flr(&mut self, pool: u8) -> Response
        ensures takes { (room : Room) → Takes self.old.world (Event.Flr pool) self.new.world result room }
        ensures accesses { self.new.accesses ≡ self.old.accesses }
    {
        Response::done_or_refused(self.flr(pool))
    }

    // The device is reset.
    #[inline(always)]
    fn take_pf_reset(&mut self) -> Response
        ensures takes { (room : Room) → Takes self.old.world Event.PfReset self.new.world result room }
        ensures accesses { self.new.accesses ≡ self.old.accesses }
    {
        self.reset();
        Response::done_with(Messages::none())
    }
}

impl<M: GuestMem> Device<M> {
    /// Takes the event that a request stands for, and tells in few words what came of it. A frame that a service sends is put together in
    /// `room`, and so are bytes that are read.
    ///
    /// ```
    /// let mut memories = Vec::new(rt.alloc());
    /// memories.push(FlatMem::new(rt.alloc(), 65536)?)?;
    /// let mut device = Device::new(rt.alloc(), memories)?;
    /// let mut room = Room::new();
    /// device.take(Request::Open(0), &mut room);
    /// device.take(Request::MemWrite(0, 8, MemSlice::new(&[7])?), &mut room);
    /// let response = device.take(Request::MemRead(0, 8, 2), &mut room);
    /// assert!(rt; room.read(response.outcome) == [7, 0].as_slice());
    /// ```
    #[inline(always)]
    pub fn take(&mut self, request: Request<'_>, room: &mut Room) -> Response
        ensures takes { Takes self.old.world (event_of request.entry) self.new.world result room.new }
        ensures listed { AreListed (accesses_by self.old.world (event_of request.entry))
            self.old.accesses self.new.accesses }
        // to each function the event is as if it were alone
        ensures isolated { (p : ℕ) → p < length self.old.world.functions → SeesAsAlone
            p self.old.world (event_of request.entry ∷ []) (answer_of room.new result ∷ []) }
        ensures isolated_state { (p : ℕ) → p < length self.old.world.functions → EndsAsAlone
            p self.old.world (event_of request.entry ∷ []) self.new.world }
    {
        let count = self.functions();
        prove!(count <= usize::from(PoolId::COUNT));
        self.take_live(request, room)
    }

    /// Takes one event.
    pub fn step(&mut self, event: &Event) -> Answer
        ensures world { self.new.world ≡ (step self.old.world event.now).world }
        ensures answer { result ≡ (step self.old.world event.now).answer }
    {
        let mut room = Room::new();
        self.take(event.as_request(), &mut room).answer(&room)
    }

    /// Takes one event, and gives the frame beside, where it sent one.
    pub fn step_sent(&mut self, event: &Event) -> (Answer, Option<FrameBuf>)
        ensures world { self.new.world ≡ (step self.old.world event.now).world }
        ensures answer { result.0 ≡ (step self.old.world event.now).answer }
        ensures sent { result.1 ≡ sent_by self.old.world event.now }
    {
        let mut room = Room::new();
        let response = self.take(event.as_request(), &mut room);
        let sent = match room.sent(&response) {
            Some(frame) => Some(frame.copy()),
            None => None,
        };
        (response.answer(&room), sent)
    }

    /// Takes events in turn, and answers each. [`Fault::NoMemory`] comes before the first step, and leaves the device as it
    /// was. To each virtual function the run is as if it were alone.
    pub fn run(&mut self, alloc: Global, events: &[Event]) -> Result<Vec<Answer>, Fault>
        ensures answers { IfOk result (λ given. given.items ≡ answers self.old.world events.now) }
        ensures world { OnOk result (self.new.world ≡ world_after self.old.world events.now) }
        ensures no_memory { IfErr result (λ e. e ≡ Fault.NoMemory) }
        ensures unchanged { OnErr result (self.new ≡ self.old) }
        // each function sees what it would see alone
        ensures isolated { IfOk result (λ given. (p : ℕ) → p < length self.old.world.functions →
            SeesAsAlone p self.old.world events.now given.items) }
        // and is left as it would be left alone
        ensures isolated_state { OnOk result ((p : ℕ) → p < length self.old.world.functions →
            EndsAsAlone p self.old.world events.now self.new.world) }
    {
        let count = self.functions();
        prove!(count <= usize::from(PoolId::COUNT));
        let Ok(mut given) = Vec::with_capacity(alloc, events.len()) else {
            return Err(Fault::NoMemory);
        };
        let mut room = Room::new();
        for event in events {
            self.step_onto(event, &mut room, &mut given);
        }
        Ok(given)
    }

    // Takes one event, and adds its answer, for which there is room.
    #[inline(always)]
    fn step_onto(&mut self, event: &Event, room: &mut Room, given: &mut Vec<Answer>)
        requires { vec_len given.old < vec_capacity given.old }
        ensures world { self.new.world ≡ (step self.old.world event.now).world }
        ensures answer { given.new.items
            ≡ given.old.items ++ (step self.old.world event.now).answer ∷ [] }
        ensures len { vec_len given.new ≡ vec_len given.old + 1 }
        ensures capacity { vec_capacity given.new ≡ vec_capacity given.old }
    {
        let response = self.take(event.as_request(), room);
        given.push_reserved(response.answer(room));
    }
}
