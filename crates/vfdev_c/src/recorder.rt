//! A device whose calls are kept.
ghost use Rattle.std.specs.Prelude.{◌≡◌, ◌<◌, ◌↔◌, IsTrue, true, false, [], length, Some, IfOk, IfErr};
ghost use Rattle.device.specs.World.{answers, world_after};
ghost use Rattle.history.specs.Entries.{events, given, is_cap};
ghost use Rattle.history.specs.Recording.{made_like};
ghost use Rattle.vfdev_c.specs.Recorded.{is_full, recorded};

use crate::counts::{VfdevCounts, count};
use crate::device_kind::DeviceKind;
use crate::handed::Handed;
use crate::handle_state::{Running, isolates};
use crate::reply::VfdevReply;
use crate::wanted::Wanted;
use device::{Device, Room};
use guest_memory::FlatMem;
use history::{Caller, History, Recording};
use local_switch::Source;
use std::alloc::Global;
use std::marker::Model;
use wire_frame::Fault;

// Who makes the calls: whoever holds the handle, for all functions, as a driver of the physical function does.
const CALLER: Caller = Caller::Driver;

/// A device with the calls that were made on it since it was made, with room for what its events send and read.
#[derive(Drop)]
pub struct Recorder {
    recording: Recording<FlatMem>,
    room: Room,
}

impl Model for Recorder {
    ghost use Rattle.std.specs.Prelude.{◌≡◌, false};
    ghost use Rattle.vfdev_c.specs.Recorded.{Recorded, recorded_of};

    ghost Value = { Recorded };

    ghost view = { λ r. recorded_of r.recording };

    ghost invariant = { λ r. r.recording.has_twin ≡ false };
}

impl Recorder {
    /// A device as it is made, whose calls will be kept, `cap` at most.
    ///
    /// [`Fault::BadMake`] comes exactly where `cap` is not 1 to 65,536; [`Fault::NoMemory`] only where the host refused the
    /// room.
    pub fn new(alloc: Global, live: Device<FlatMem>, cap: usize) -> Result<Recorder, Fault>
        requires { live.world ≡ made_like live.world }
        ensures begun { IfOk result (λ r. r ≡ recorded live.world [] cap) }
        ensures bad_make { is_cap cap ≡ false → result ≡ Err Fault.BadMake }
        ensures no_memory { IfErr result (λ e. is_cap cap ≡ true → e ≡ Fault.NoMemory) }
    {
        let history = History::new(alloc, cap)?;
        let live = Box::new(alloc, live)?;
        Ok(Recorder {
            recording: Recording::new(live, None, history),
            room: Room::new(),
        })
    }

    /// How many calls are kept.
    pub fn kept(&self) -> usize
        ensures { result ≡ length self.now.calls }
    {
        self.recording.history().len()
    }

    /// Takes another device through the kept calls, and tells whether it answered as was kept.
    pub fn replays(&self, other: &mut Running) -> bool
        ensures world { other.new ≡ world_after other.old (events self.now.calls) }
        ensures same { IsTrue result
            ↔ (answers other.old (events self.now.calls) ≡ given self.now.calls) }
        ensures made_like { other.old ≡ made_like self.now.live → result ≡ true }
        ensures twin { other.old ≡ made_like self.now.live → other.new ≡ self.now.live }
    {
        self.recording.agrees();
        other.replays(self.recording.history())
    }

    // Whether no more calls can be kept.
    #[inline]
    fn is_full(&self) -> bool
        ensures full { result ≡ is_full self.now }
        ensures room { result ≡ false → length self.now.calls < self.now.cap }
    {
        self.recording.history().is_full()
    }
}

#[tactic(auto, using(crate::proofs::RecordedLemmas::full_hands))]
impl DeviceKind for Recorder {
    ghost use Rattle.vfdev_c.specs.declared.handle_state.HandleState.TheVariants.{Kept};

    ghost held = { λ r. Some (Kept r) };

    #[inline(always)]
    fn give(&mut self, wanted: Wanted<'_>, out: &mut [u8]) -> Handed {
        if self.is_full() {
            return Handed::none(VfdevReply::history_full());
        }
        isolates(self.recording.device());
        let request = wanted.as_request();
        let response = self.recording.record(CALLER, request, &mut self.room);
        Handed::of(&response, &self.room, out)
    }

    fn counts(&self, function: u8, counts: &mut VfdevCounts) -> VfdevReply {
        count(self.recording.device(), function, counts)
    }

    fn unclaimed(&self) -> u32 {
        self.recording.device().unclaimed(Source::Wire)
    }
}
