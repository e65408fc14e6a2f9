//! Devices that keep their calls, and devices that go through kept ones.
ghost use Rattle.std.specs.Prelude.{◌≡◌, ◌<◌, ◌++◌, ◌∷◌, [], length, IsTrue, ◌↔◌};
ghost use Rattle.device.specs.World.{sizes_of, step, answers, world_after};
ghost use Rattle.device.specs.Request.{event_of};
ghost use Rattle.device.specs.Accesses.{accesses_by};
ghost use Rattle.device.specs.Live.{told_world, TakesLive, AreListed};
ghost use Rattle.history.specs.Entries.{entry, entry_at, events, given};

use crate::caller::Caller;
use crate::history::History;
use device::{Device, Request, Response, Room};
use guest_memory::GuestMem;
use live_memory::Dma;

impl History {
    /// Takes the event that a request stands for on a device, and keeps the call, for which there is room. What is answered is the
    /// device's [`take_live`](Device::take_live): others may write the memories of the functions meanwhile, and bytes that the event
    /// reads are read once, into the room, from where they are kept.
    #[inline]
    pub fn record<D: Dma<K>, K>(
        &mut self,
        caller: Caller,
        request: Request<'_>,
        device: &mut Device<D, K>,
        room: &mut Room,
    ) -> Response
        requires { length self.old.entries < self.old.cap }
        ensures takes { TakesLive D.shared device.old.accesses device.new.accesses
            device.old.world (event_of request.entry) device.new.world result room.new }
        ensures listed { AreListed
            (accesses_by (told_world device.old.accesses device.new.accesses device.old.world)
            (event_of request.entry)) device.old.accesses device.new.accesses }
        ensures entries { self.new.entries ≡ self.old.entries
            ++ entry caller (event_of request.entry)
            (step (told_world device.old.accesses device.new.accesses device.old.world)
            (event_of request.entry)).answer ∷ [] }
        ensures cap { self.new.cap ≡ self.old.cap }
    {
        let response = device.take_live(request, room);
        self.push(caller, request, &response, room);
        response
    }

    /// Steps a device by what was asked in a call, counted from the oldest. Nothing of `room` is kept.
    pub fn step<M: GuestMem>(&self, index: usize, device: &mut Device<M>, room: &mut Room)
        requires { index < length self.now.entries }
        ensures world { device.new.world
            ≡ (step device.old.world (entry_at self.now index).event).world }
        ensures sizes { sizes_of device.new.world ≡ sizes_of device.old.world }
    {
        device.take(self.request(index), room);
    }

    /// The same, and tells whether the device answers as was kept: the reply with its bytes, and all messages.
    pub fn gives<M: GuestMem>(&self, index: usize, device: &mut Device<M>, room: &mut Room) -> bool
        requires { index < length self.now.entries }
        ensures world { device.new.world
            ≡ (step device.old.world (entry_at self.now index).event).world }
        ensures same { IsTrue result
            ↔ ((step device.old.world (entry_at self.now index).event).answer
            ≡ (entry_at self.now index).answer) }
        ensures sizes { sizes_of device.new.world ≡ sizes_of device.old.world }
    {
        let response = device.take(self.request(index), room);
        self.is_answer(index, &response, room)
    }

    /// Steps a device through all calls, the oldest first. It is a call of its own: a [`Room`] takes 11 KB of the stack, which
    /// whoever folds calls only now and then is not to have in its frame.
    #[inline(never)]
    pub fn step_all<M: GuestMem>(&self, device: &mut Device<M>)
        ensures { device.new.world ≡ world_after device.old.world (events self.now.entries) }
    {
        let mut room = Room::new();
        for index in 0..self.len() {
            self.step(index, device, &mut room);
        }
    }

    /// The same, and tells whether the device gave all their answers: each reply with its bytes, and all messages.
    #[inline(never)]
    pub fn gives_all<M: GuestMem>(&self, device: &mut Device<M>) -> bool
        ensures world { device.new.world ≡ world_after device.old.world (events self.now.entries) }
        ensures same { IsTrue result
            ↔ (answers device.old.world (events self.now.entries) ≡ given self.now.entries) }
    {
        let mut room = Room::new();
        let mut same = true;
        for index in 0..self.len() {
            let here = self.gives(index, device, &mut room);
            same = same & here;
        }
        same
    }
}
