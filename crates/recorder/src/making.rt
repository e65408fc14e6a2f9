//! Recorded devices as they are made, with the shares of their callers.
ghost use Rattle.std.specs.Prelude.{◌≡◌, ◌≤◌, [], true, false, IfOk, IfErr, Err};
ghost use Rattle.history.specs.Entries.{is_cap};
ghost use Rattle.history.specs.Recording.{begun as recording_begun};
ghost use Rattle.recorder.specs.Made.{IsFresh, SameMake, AreUnused, begun};

use crate::makes::is_same_make;
use crate::recorded::Recorded;
use crate::shares::Shares;
use crate::tallies::no_calls;
use device::Device;
use guest_memory::GuestMem;
use history::{History, Recording};
use irq_line::DeviceSeat;
use std::alloc::Global;
use std::sync::ledger::{Blank, Ledger};
use wire_frame::Fault;

impl<M: GuestMem, L: Ledger> Recorded<M, L> {
    /// A device as it is made, whose calls will be kept, `cap` at most, and the shares of its callers.
    ///
    /// [`Fault::BadMake`] comes exactly where `cap` is not 1 to 65,536; [`Fault::NoMemory`] only where the host refused the
    /// room.
    pub fn new(
        alloc: Global,
        blank: Blank,
        device: Device<M>,
        line: DeviceSeat,
        cap: usize,
    ) -> Result<(Recorded<M, L>, Shares<L>), Fault>
        requires name { blank.name ≡ L.name }
        requires parts { (blank.parts ≡ L.parts) × (blank.parts ≡ 67) }
        requires fresh { IsFresh device.world }
        requires line { line.raises ≡ [] }
        ensures begun { IfOk result (λ r. r.0 ≡ begun device.world cap false line) }
        ensures shares { IfOk result (λ r. AreUnused line.line r.1) }
        ensures bad_make { is_cap cap ≡ false → result ≡ Err Fault.BadMake }
        ensures no_memory { IfErr result (λ e. is_cap cap ≡ true → e ≡ Fault.NoMemory) }
    {
        let history = History::new(alloc, cap)?;
        let device = boxed(alloc, device)?;
        shared(alloc, blank, Recording::new(device, None, history), line)
    }

    /// The same with a twin of the device, equal to it, by which [`Recorded::rebase`] moves the base.
    ///
    /// [`Fault::BadMake`] comes exactly where `cap` is not 1 to 65,536, or the two differ in how long a frame may be, in
    /// their number of functions, or in the size of a memory; [`Fault::NoMemory`] only where the host refused the room.
    pub fn with_twin(
        alloc: Global,
        blank: Blank,
        live: Device<M>,
        twin: Device<M>,
        line: DeviceSeat,
        cap: usize,
    ) -> Result<(Recorded<M, L>, Shares<L>), Fault>
        requires name { blank.name ≡ L.name }
        requires parts { (blank.parts ≡ L.parts) × (blank.parts ≡ 67) }
        requires fresh { IsFresh live.world × IsFresh twin.world }
        requires line { line.raises ≡ [] }
        ensures begun { IfOk result (λ r. r.0 ≡ begun live.world cap true line) }
        ensures shares { IfOk result (λ r. AreUnused line.line r.1) }
        ensures bad_make { is_cap cap ≡ false → result ≡ Err Fault.BadMake }
        ensures bad_twin { ¬ (SameMake live.world twin.world) → result ≡ Err Fault.BadMake }
        ensures no_memory { IfErr result
            (λ e. is_cap cap ≡ true → SameMake live.world twin.world → e ≡ Fault.NoMemory) }
    {
        if !is_same_make(&live, &twin) {
            return Err(Fault::BadMake);
        }
        let history = History::new(alloc, cap)?;
        let live = boxed(alloc, live)?;
        let twin = boxed(alloc, twin)?;
        shared(
            alloc,
            blank,
            Recording::new(live, Some(twin), history),
            line,
        )
    }
}

// A device in a box. It is a call of its own, so that the copies that it makes of the device are gone from the stack after it.
#[inline(never)]
fn boxed<M: GuestMem>(alloc: Global, device: Device<M>) -> Result<Box<Device<M>>, Fault>
    ensures same { IfOk result (λ b. b.value ≡ device) }
    ensures no_memory { IfErr result (λ e. e ≡ Fault.NoMemory) }
{
    Ok(Box::new(alloc, device)?)
}

// A device that took no call, with a book in which nothing is counted, and the shares of all callers.
fn shared<M: GuestMem, L: Ledger>(
    alloc: Global,
    blank: Blank,
    recording: Recording<M>,
    line: DeviceSeat,
) -> Result<(Recorded<M, L>, Shares<L>), Fault>
    requires name { blank.name ≡ L.name }
    requires parts { (blank.parts ≡ L.parts) × (blank.parts ≡ 67) }
    requires fresh { IsFresh recording.live }
    requires begun { recording ≡ recording_begun recording.live recording.cap recording.has_twin }
    requires some { 1 ≤ recording.cap }
    requires few { recording.cap ≤ 65536 }
    requires line { line.raises ≡ [] }
    ensures recorded { IfOk result
        (λ r. r.0 ≡ begun recording.live recording.cap recording.has_twin line) }
    ensures shares { IfOk result (λ r. AreUnused line.line r.1) }
    ensures no_memory { IfErr result (λ e. e ≡ Fault.NoMemory) }
{
    let (book, all) = blank.open::<L>();
    let shares = Shares::new(alloc, all, &line)?;
    let recorded = Recorded {
        recording,
        line,
        folded: 0,
        tallies: no_calls(),
        book,
    };
    Ok((recorded, shares))
}
