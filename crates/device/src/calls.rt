//! The calls by name, one for each kind of event, for who embeds a device.
ghost use Rattle.std.specs.Prelude.{◌≡◌, ◌<◌, ◌≤◌, ℕ, List, false, length, slice_set, Some, None, OnErr, if◌then◌else◌};
ghost use Rattle.irq_causes.specs.Messages.{no_messages};
ghost use Rattle.vf_unit.specs.Unit.{bytes_at};
ghost use Rattle.device.specs.declared.event.Event.{Event};
ghost use Rattle.device.specs.declared.event.Reply.{Reply};
ghost use Rattle.device.specs.declared.room.Room.{Room};
ghost use Rattle.device.specs.World.{silently, function_of, with_function, step, sizes_of};
ghost use Rattle.device.specs.Accesses.{accesses_by, own_service_accesses};
ghost use Rattle.device.specs.Live.{told_world, told_service, TakesLive, AreListed, AreMet};
ghost use Rattle.device.specs.Replies.{is_sent};
ghost use Rattle.device.specs.Takes.{Takes};
ghost use Rattle.device.specs.Outcome.{reply_of, done_or_refused, value_or_refused, bytes_or_refused, messages_or_refused};

use crate::act;
use crate::act::{PF_SPACE, is_bad_offset};
use crate::bytes::{MOST_BYTES, MemSlice};
use crate::device::Device;
use crate::outcome::{Acted, Outcome};
use crate::resets::{clear_resets, read_resets};
use crate::response::Response;
use crate::room::Room;
use crate::service::serve_queue_live;
use crate::switching::{end_all, note};
use guest_memory::GuestMem;
use irq_causes::{Messages, Vectors};
use live_memory::Dma;
use local_switch::Source;
use pool_filter::PoolRules;
use vf_unit::Queue;
use wire_frame::{Fault, Frame, FrameBuf, PoolId};

#[tactic(auto, using(crate::proofs::Arrivals::raised_nothing, crate::proofs::SizesStay::size_set))]
impl<D: Dma<K>, K> Device<D, K> {
    /// Opens a virtual function: its registers become initial, and its memory zero, whatever it was.
    ///
    /// [`Fault::NoSuchVf`], then [`Fault::AlreadyOpen`].
    #[inline(never)]
    pub fn open(&mut self, pool: u8) -> Result<(), Fault>
        ensures world { self.new.world ≡ (step self.old.world (Event.Open pool)).world }
        ensures answer { silently (done_or_refused result)
            ≡ (step self.old.world (Event.Open pool)).answer }
        ensures listed { AreListed (accesses_by self.old.world (Event.Open pool))
            self.old.accesses self.new.accesses }
        ensures met { AreMet D.shared self.old.accesses self.new.accesses self.old.world }
        ensures sizes { sizes_of self.new.world ≡ sizes_of self.old.world }
    {
        let index = usize::from(pool);
        if index >= self.units.len() {
            return Err(Fault::NoSuchVf);
        }
        act::open(&mut self.units[index])
    }

    /// Closes a virtual function.
    ///
    /// [`Fault::NoSuchVf`], then [`Fault::NotOpen`].
    #[inline(never)]
    pub fn end(&mut self, pool: u8) -> Result<(), Fault>
        ensures world { self.new.world ≡ (step self.old.world (Event.End pool)).world }
        ensures answer { silently (done_or_refused result)
            ≡ (step self.old.world (Event.End pool)).answer }
        ensures accesses { self.new.accesses ≡ self.old.accesses }
        ensures sizes { sizes_of self.new.world ≡ sizes_of self.old.world }
    {
        let index = usize::from(pool);
        if index >= self.units.len() {
            return Err(Fault::NoSuchVf);
        }
        act::end(&mut self.units[index])
    }

    /// Resets a virtual function (SR-IOV 1.1, function-level reset): its registers become initial. Its memory stays, and
    /// PFVFLRE shows it.
    ///
    /// [`Fault::NoSuchVf`], then [`Fault::NotOpen`].
    #[inline(never)]
    pub fn flr(&mut self, pool: u8) -> Result<(), Fault>
        ensures world { self.new.world ≡ (step self.old.world (Event.Flr pool)).world }
        ensures answer { silently (done_or_refused result)
            ≡ (step self.old.world (Event.Flr pool)).answer }
        ensures accesses { self.new.accesses ≡ self.old.accesses }
        ensures sizes { sizes_of self.new.world ≡ sizes_of self.old.world }
    {
        let index = usize::from(pool);
        if index >= self.units.len() {
            return Err(Fault::NoSuchVf);
        }
        let done = act::flr(&mut self.units[index]);
        if done.is_ok() {
            self.resets |= 1 << pool;
        }
        done
    }

    /// Reads the register of a virtual function at an offset in bytes. An offset that no register has reads 0.
    ///
    /// [`Fault::NoSuchVf`], then [`Fault::NotOpen`], then [`Fault::BadOffset`] where the offset is no multiple of 4 or not
    /// below 0x4000.
    #[inline(always)]
    pub fn vf_read(&mut self, pool: u8, offset: u32) -> Result<u32, Fault>
        ensures world { self.new.world ≡ (step self.old.world (Event.VfRead pool offset)).world }
        ensures answer { silently (value_or_refused result)
            ≡ (step self.old.world (Event.VfRead pool offset)).answer }
        ensures accesses { self.new.accesses ≡ self.old.accesses }
        ensures sizes { sizes_of self.new.world ≡ sizes_of self.old.world }
    {
        let index = usize::from(pool);
        if index >= self.units.len() {
            return Err(Fault::NoSuchVf);
        }
        act::vf_read(&mut self.units[index], offset)
    }

    /// Writes the register of a virtual function at an offset in bytes, and answers with the messages that this issues. A
    /// write to an offset that no register has does nothing.
    ///
    /// Refused as [`vf_read`](Device::vf_read) is.
    #[inline(always)]
    pub fn vf_write(&mut self, pool: u8, offset: u32, value: u32) -> Result<Messages, Fault>
        ensures world { self.new.world ≡ (step self.old.world (Event.VfWrite pool offset value)).world }
        ensures answer { messages_or_refused result
            ≡ (step self.old.world (Event.VfWrite pool offset value)).answer }
        ensures accesses { self.new.accesses ≡ self.old.accesses }
        ensures sizes { sizes_of self.new.world ≡ sizes_of self.old.world }
    {
        let index = usize::from(pool);
        if index >= self.units.len() {
            return Err(Fault::NoSuchVf);
        }
        match act::vf_write(&mut self.units[index], offset, value) {
            Ok(vectors) => Ok(messages_to(pool, vectors)),
            Err(fault) => Err(fault),
        }
    }

    /// Writes bytes of a guest's memory from an address on.
    ///
    /// [`Fault::NoSuchVf`], then [`Fault::NotOpen`], then [`Fault::BadRange`] where they pass the end of the memory.
    #[inline(always)]
    pub fn mem_write(&mut self, pool: u8, at: u64, written: MemSlice<'_>) -> Result<(), Fault>
        ensures world { self.new.world
            ≡ (step self.old.world (Event.MemWrite pool at written.entry.bytes.now)).world }
        ensures answer { silently (done_or_refused result)
            ≡ (step self.old.world (Event.MemWrite pool at written.entry.bytes.now)).answer }
        ensures listed { AreListed
            (accesses_by self.old.world (Event.MemWrite pool at written.entry.bytes.now))
            self.old.accesses self.new.accesses }
        ensures met { AreMet D.shared self.old.accesses self.new.accesses self.old.world }
        ensures sizes { sizes_of self.new.world ≡ sizes_of self.old.world }
    {
        let index = usize::from(pool);
        if index >= self.units.len() {
            return Err(Fault::NoSuchVf);
        }
        act::mem_write(&mut self.units[index], at, written)
    }

    /// Fills `out` with the bytes of a guest's memory from an address on, as [`mem_read`](Device::mem_read) does, where others may write
    /// it meanwhile. Each byte is read once.
    #[inline(always)]
    pub fn mem_read_live(&mut self, pool: u8, at: u64, out: &mut [u8]) -> Result<(), Fault>
        ensures world { self.new.world
            ≡ (step (told_world self.old.accesses self.new.accesses self.old.world)
            (Event.MemRead pool at (length out.old))).world }
        ensures answer { silently (bytes_or_refused result out.new)
            ≡ (step (told_world self.old.accesses self.new.accesses self.old.world)
            (Event.MemRead pool at (length out.old))).answer }
        ensures unchanged { OnErr result (out.new ≡ out.old) }
        ensures listed { AreListed
            (accesses_by (told_world self.old.accesses self.new.accesses self.old.world)
            (Event.MemRead pool at (length out.old))) self.old.accesses self.new.accesses }
        ensures met { AreMet D.shared self.old.accesses self.new.accesses self.old.world }
        ensures sizes { sizes_of self.new.world ≡ sizes_of self.old.world }
    {
        let index = usize::from(pool);
        if index >= self.units.len() {
            return Err(Fault::NoSuchVf);
        }
        act::mem_read_live(&mut self.units[index], at, out)
    }

    // The same into the first cells, as many as the event asks for.
    #[inline(always)]
    pub(crate) fn load(
        &mut self,
        pool: u8,
        at: u64,
        count: u16,
        cells: &mut [u8; MOST_BYTES],
    ) -> Outcome
        ensures world { self.new.world
            ≡ (step (told_world self.old.accesses self.new.accesses self.old.world)
            (Event.MemRead pool at count)).world }
        ensures answer { silently (reply_of cells.new result)
            ≡ (step (told_world self.old.accesses self.new.accesses self.old.world)
            (Event.MemRead pool at count)).answer }
        ensures unsent { is_sent result ≡ false }
        ensures listed { AreListed
            (accesses_by (told_world self.old.accesses self.new.accesses self.old.world)
            (Event.MemRead pool at count)) self.old.accesses self.new.accesses }
        ensures met { AreMet D.shared self.old.accesses self.new.accesses self.old.world }
        ensures sizes { sizes_of self.new.world ≡ sizes_of self.old.world }
    {
        let index = usize::from(pool);
        if index >= self.units.len() {
            return Outcome::Refused(Fault::NoSuchVf);
        }
        act::load(&mut self.units[index], at, count, cells)
    }

    /// Takes the descriptor at the head of a transmit queue, as [`serve`](Device::serve) does, where others may write the
    /// memories meanwhile.
    #[inline(never)]
    pub fn serve_live(&mut self, pool: u8, queue: Queue, room: &mut Room) -> Response
        ensures takes { TakesLive D.shared self.old.accesses self.new.accesses
            self.old.world (Event.Serve pool queue) self.new.world result room.new }
        ensures listed { AreListed
            (accesses_by (told_world self.old.accesses self.new.accesses self.old.world)
            (Event.Serve pool queue)) self.old.accesses self.new.accesses }
    {
        let index = usize::from(pool);
        if index >= self.units.len() {
            return Response::silent(Outcome::Refused(Fault::NoSuchVf));
        }
        match PoolId::new(pool) {
            Some(sender) => self.serve_pool(sender, queue, room),
            None => unreachable!(),
        }
    }

    // The service of a queue of a function that is there.
    fn serve_pool(&mut self, pool: PoolId, queue: Queue, room: &mut Room) -> Response
        requires there { pool < length self.old.world.functions }
        ensures takes { TakesLive D.shared self.old.accesses self.new.accesses
            self.old.world (Event.Serve pool queue) self.new.world result room.new }
        ensures listed { AreListed
            (accesses_by (told_world self.old.accesses self.new.accesses self.old.world)
            (Event.Serve pool queue)) self.old.accesses self.new.accesses }
    {
        let acted = self.transmit(pool, queue, &mut room.frame);
        if !acted.outcome.is_sent() {
            return Response {
                outcome: acted.outcome,
                messages: Messages::of(pool, acted.vectors),
                left: false,
            };
        }
        let switched = self.switch(Source::Pool(pool), room.frame.as_frame());
        let mut messages = switched.messages;
        note(&mut messages, pool, acted.vectors);
        Response {
            outcome: acted.outcome,
            messages,
            left: switched.left,
        }
    }

    // The service of a queue of a function that is there, but for the switching of a frame that is sent.
    fn transmit(&mut self, pool: PoolId, queue: Queue, frame: &mut FrameBuf) -> Acted
        requires there { pool < length self.old.world.functions }
        ensures world { self.new.world
            ≡ with_function self.old.world pool
            (told_service self.old.accesses self.new.accesses self.old.world pool queue).function }
        ensures sizes { sizes_of self.new.world ≡ sizes_of self.old.world }
        ensures reply { (cells : List ℕ)
            → reply_of cells result.outcome
            ≡ (told_service self.old.accesses self.new.accesses self.old.world pool queue).reply }
        ensures messages { result.vectors
            ≡ (told_service self.old.accesses self.new.accesses self.old.world pool queue).messages }
        ensures sent { (told_service self.old.accesses self.new.accesses self.old.world pool queue).sent
            ≡ (if is_sent result.outcome then Some frame.new else None) }
        ensures met { AreMet D.shared self.old.accesses self.new.accesses self.old.world }
        ensures below { pool < 64 }
        ensures listed { AreListed (own_service_accesses
            (told_world self.old.accesses self.new.accesses self.old.world) pool queue)
            self.old.accesses self.new.accesses }
    {
        let rules = PoolRules {
            tables: &self.tables,
            pool,
        };
        let index = usize::from(pool.get());
        let unit = &mut self.units[index];
        serve_queue_live(&rules, self.profile.limit, unit, queue, frame)
    }

    /// Reads the register of the physical function at an offset in bytes. An offset that no register has reads 0.
    ///
    /// [`Fault::BadOffset`] where the offset is no multiple of 4 or not below 0x20000.
    #[inline(never)]
    pub fn pf_read(&self, offset: u32) -> Result<u32, Fault>
        ensures world { self.now.world ≡ (step self.now.world (Event.PfRead offset)).world }
        ensures answer { silently (value_or_refused result)
            ≡ (step self.now.world (Event.PfRead offset)).answer }
    {
        if is_bad_offset(PF_SPACE, offset) {
            return Err(Fault::BadOffset);
        }
        Ok(match read_resets(self.resets, offset) {
            Some(word) => word,
            None => self.tables.read(offset),
        })
    }

    /// Writes the register of the physical function at an offset in bytes. A write to an offset that no register has does
    /// nothing.
    ///
    /// Refused as [`pf_read`](Device::pf_read) is.
    #[inline(never)]
    pub fn pf_write(&mut self, offset: u32, value: u32) -> Result<(), Fault>
        ensures world { self.new.world ≡ (step self.old.world (Event.PfWrite offset value)).world }
        ensures answer { silently (done_or_refused result)
            ≡ (step self.old.world (Event.PfWrite offset value)).answer }
        ensures accesses { self.new.accesses ≡ self.old.accesses }
        ensures sizes { sizes_of self.new.world ≡ sizes_of self.old.world }
    {
        if is_bad_offset(PF_SPACE, offset) {
            return Err(Fault::BadOffset);
        }
        self.tables.write(offset, value);
        self.resets = clear_resets(self.resets, offset, value);
        Ok(())
    }

    /// Resets the device: every virtual function is closed and every setting initial. The frames that went out stay.
    #[inline(never)]
    pub fn reset(&mut self)
        ensures world { self.new.world ≡ (step self.old.world Event.PfReset).world }
        ensures answer { silently Reply.Done ≡ (step self.old.world Event.PfReset).answer }
        ensures accesses { self.new.accesses ≡ self.old.accesses }
        ensures sizes { sizes_of self.new.world ≡ sizes_of self.old.world }
    {
        end_all(&mut self.units);
        self.tables.clear();
        self.resets = 0;
    }

    /// Takes a frame from the wire, as [`wire`](Device::wire) does, where others may write the memories meanwhile.
    #[inline(always)]
    pub fn wire_live(&mut self, frame: Frame<'_>) -> Result<Messages, Fault>
        ensures world { self.new.world
            ≡ (step (told_world self.old.accesses self.new.accesses self.old.world)
            (Event.Wire frame.entry.bytes.now)).world }
        ensures answer { messages_or_refused result
            ≡ (step (told_world self.old.accesses self.new.accesses self.old.world)
            (Event.Wire frame.entry.bytes.now)).answer }
        ensures listed { AreListed
            (accesses_by (told_world self.old.accesses self.new.accesses self.old.world)
            (Event.Wire frame.entry.bytes.now)) self.old.accesses self.new.accesses }
        ensures sizes { sizes_of self.new.world ≡ sizes_of self.old.world }
        ensures met { AreMet D.shared self.old.accesses self.new.accesses self.old.world }
    {
        if frame.bytes().len() > usize::from(self.profile.limit.get()) {
            return Err(Fault::BadFrame);
        }
        Ok(self.switch(Source::Wire, frame).messages)
    }
}

#[tactic(auto, using(crate::proofs::Arrivals::raised_nothing))]
impl<M: GuestMem> Device<M> {
    /// Fills `out` with the bytes of a guest's memory from an address on; where it is refused, `out` stays.
    ///
    /// [`Fault::NoSuchVf`], then [`Fault::NotOpen`], then [`Fault::TooLong`] for more than 2048 bytes, then
    /// [`Fault::BadRange`] where they pass the end of the memory.
    #[inline(always)]
    pub fn mem_read(&self, pool: u8, at: u64, out: &mut [u8]) -> Result<(), Fault>
        ensures world { self.now.world ≡ (step self.now.world (Event.MemRead pool at (length out.old))).world }
        ensures answer { silently (bytes_or_refused result out.new)
            ≡ (step self.now.world (Event.MemRead pool at (length out.old))).answer }
        ensures unchanged { OnErr result (out.new ≡ out.old) }
    {
        let index = usize::from(pool);
        if index >= self.units.len() {
            return Err(Fault::NoSuchVf);
        }
        act::mem_read(&self.units[index], at, out)
    }

    /// Takes the descriptor at the head of a transmit queue (82599 datasheet, transmit descriptors). A frame that this sends
    /// is put together in `room`; it is switched to the pools that accept it, and to the wire.
    ///
    /// The outcome is refused for [`Fault::NoSuchVf`], then for [`Fault::NotOpen`]; else it is idle, more, sent, dropped or
    /// faulted.
    #[inline]
    pub fn serve(&mut self, pool: u8, queue: Queue, room: &mut Room) -> Response
        ensures { Takes self.old.world (Event.Serve pool queue) self.new.world result room.new }
    {
        self.serve_live(pool, queue, room)
    }

    /// Takes a frame from the wire, which goes to each pool that accepts it, and else to the default pool; answers with the
    /// messages that this issues.
    ///
    /// [`Fault::BadFrame`] where the frame is longer than the device takes.
    #[inline]
    pub fn wire(&mut self, frame: Frame<'_>) -> Result<Messages, Fault>
        ensures world { self.new.world ≡ (step self.old.world (Event.Wire frame.entry.bytes.now)).world }
        ensures answer { messages_or_refused result
            ≡ (step self.old.world (Event.Wire frame.entry.bytes.now)).answer }
        ensures sizes { sizes_of self.new.world ≡ sizes_of self.old.world }
    {
        self.wire_live(frame)
    }
}

// Messages to one function that is there.
#[inline]
fn messages_to(pool: u8, vectors: Vectors) -> Messages
    requires { pool < 64 }
    ensures { result ≡ slice_set no_messages pool vectors }
{
    match PoolId::new(pool) {
        Some(pool) => Messages::of(pool, vectors),
        None => unreachable!(),
    }
}
