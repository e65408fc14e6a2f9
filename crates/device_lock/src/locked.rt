//! A recorded device that threads share.
ghost use Rattle.std.specs.Prelude.{◌≡◌, ◌≢◌, ℕ, ◌+◌, ◌≤◌, ◌^◌, List, true, IsTrue, ◌↔◌, IfOk, IfErr, OnOk, OnErr, IfSome, IfNone, length, sum};
ghost use Rattle.std.specs.List.{sum_by};
ghost use Rattle.device.specs.Request.{event_of};
ghost use Rattle.device.specs.World.{world_after, answers};
ghost use Rattle.device.specs.Outcome.{answer_of};
ghost use Rattle.history.specs.Entries.{Entry, events, given};
ghost use Rattle.device_lock.specs.Answers.{MayAnswer, MayRespond};
ghost use Rattle.device_lock.specs.Rest.{IsAtRest};
ghost use Rattle.recorder.specs.Callers.{may};
ghost use Rattle.recorder.specs.Held.{having_asked, count_of};

use device::{Answer, Device, Event, Request, Response, Room};
use guest_memory::GuestMem;
use recorder::{Full, Recorded, Share, Tally};
use std::alloc::Global;
use std::sync::ledger::Ledger;
use std::sync::{Arc, Mutex, MutexGuard, Wait};
use std::thread::yield_now;
use wire_frame::Fault;

// How often a caller that finds the lock taken lets another thread run before it sleeps. A call under the lock takes far less time than
// a sleep and a wake.
const YIELDS: u32 = 100;

/// What comes of a call where no more calls can be kept.
#[derive(Clone, Copy, Debug, PartialEq, Eq)]
pub enum WhenFull {
    /// It is not made, and nothing is done.
    Refuse,
    /// The calls that are kept are folded away first, as [`Recorded::make_room`] does, and then it is made. Both are done while nobody
    /// else is inside, so nobody fills the room in between. Only where they can't be folded away, it is not made.
    Fold,
}

/// A recorded device that threads share: one call at a time is inside, and the others wait. Whenever nobody is inside, the
/// law of [`Recorded::agrees`] holds.
#[derive(Drop)]
pub struct LockedDevice<M: GuestMem, L: Ledger> {
    inner: Mutex<Recorded<M, L>>,
}

impl<M: GuestMem, L: Ledger> LockedDevice<M, L> {
    /// A recorded device behind a lock, with the calls that it has. [`Fault::NoMemory`] comes only where the host refused the room.
    pub fn new(alloc: Global, recorded: Recorded<M, L>) -> Result<Arc<LockedDevice<M, L>>, Fault>
        ensures no_memory { IfErr result (λ e. e ≡ Fault.NoMemory) }
    {
        let locked = LockedDevice {
            inner: Mutex::new(recorded),
        };
        Ok(Arc::new(alloc, locked)?)
    }

    /// Takes the recorded device out of the lock again, for its last owner; None where somebody else has it too, for whom it stays.
    ///
    /// What comes out is the one that went in: a ledger has one recorded device. It has had the calls of its shares and no others,
    /// which [`Recorded::gather`] says of all of them. What it was like when it went in no contract can tell of it, since the lock's
    /// content has no name while threads share it. [`Recorded::begins_as`] asks that: whether it began at a device like another.
    pub fn into_recorded(this: Arc<LockedDevice<M, L>>) -> Option<Recorded<M, L>>
        ensures rest { IfSome result IsAtRest }
    {
        match Arc::try_unwrap(this) {
            Ok(locked) => Some(at_rest(locked.inner.into_inner())),
            Err(_) => None,
        }
    }

    // Takes the lock. Asked in vain that many times, it waits as the lock does, whose order among those who wait isn't promised.
    #[inline]
    fn enter<R: Wait>(&self, rt: &R) -> MutexGuard<'_, Recorded<M, L>> {
        for _ in 0..YIELDS {
            if let Some(guard) = self.inner.try_lock() {
                return guard;
            }
            yield_now();
        }
        self.inner.lock(rt)
    }

    /// One [`Recorded::record`] under the lock. The share has the call from then on, with the answer that is handed back.
    pub fn act<R: Wait>(&self, rt: &R, share: &mut Share<L>, event: Event) -> Result<Answer, Full>
        requires may { may share.old.caller event ≡ true }
        ensures answer { IfOk result (λ answer. MayAnswer event answer) }
        ensures counted { IfOk result (λ answer. share.new ≡ having_asked event answer share.old) }
        ensures full { IfErr result (λ full. full.0 ≡ event) }
        ensures unchanged { OnErr result (share.new ≡ share.old) }
    {
        self.enter(rt).record(share, event)
    }

    /// One [`Recorded::record_request`] under the lock: what an event's [`LockedDevice::act`] answers, in few words, with what it reads
    /// and sends in the room. The share has just the one call more, and its answer is the one that was kept.
    ///
    /// Where no more calls can be kept, `when_full` says what comes of it. None where the call was not made.
    #[inline]
    pub fn act_request<R: Wait>(
        &self,
        rt: &R,
        share: &mut Share<L>,
        request: Request<'_>,
        room: &mut Room,
        when_full: WhenFull,
    ) -> Option<Response>
        requires may { may share.old.caller (event_of request) ≡ true }
        ensures answer { IfSome result
            (λ response. MayRespond (event_of request.entry) response room.new) }
        ensures counted { IfSome result (λ response.
            share.new ≡ having_asked (event_of request.entry) (answer_of room.new response) share.old) }
        ensures unchanged { IfNone result ((share.new ≡ share.old) × (room.new ≡ room.old)) }
    {
        let mut inner = self.enter(rt);
        if when_full == WhenFull::Fold && !inner.make_room() {
            return None;
        }
        inner.record_request(share, request, room)
    }

    /// One [`Recorded::gather`] under the lock.
    pub fn tally<R: Wait>(&self, rt: &R, shares: Vec<Share<L>>) -> Option<Tally>
        ensures none { IfNone result (length shares.items ≢ 67) }
        ensures some { IfSome result (λ tally. length shares.items ≡ 67) }
        ensures counts { IfSome result (λ tally. sum tally.entries ≡ sum_by count_of shares.items) }
    {
        self.enter(rt).gather(shares)
    }

    /// One [`Recorded::kept`] under the lock.
    pub fn kept<R: Wait>(&self, rt: &R) -> usize
        ensures few { result ≤ 65536 }
    {
        self.enter(rt).kept()
    }

    /// One [`Recorded::folded`] under the lock.
    pub fn folded<R: Wait>(&self, rt: &R) -> usize
        ensures few { result ≤ 2 ^ 62 }
    {
        self.enter(rt).folded()
    }

    /// One [`Recorded::kept_and_folded`] under the lock: a caller that hands in its share knows that all its calls are counted.
    pub fn kept_and_folded<R: Wait>(&self, rt: &R, share: &mut Share<L>) -> (usize, usize)
        ensures made { count_of share.old ≤ result.0 + result.1 }
        ensures few { (result.0 ≤ 65536) × (result.1 ≤ 2 ^ 62) }
        ensures unchanged { share.new ≡ share.old }
    {
        self.enter(rt).kept_and_folded(share)
    }

    /// One [`Recorded::rebase`] under the lock.
    pub fn fold<R: Wait>(&self, rt: &R) -> Option<usize>
        ensures few { IfSome result (λ count. count ≤ 65536) }
    {
        self.enter(rt).rebase()
    }

    /// One [`Recorded::replays`] under the lock: some kept calls are stepped through.
    pub fn replays<R: Wait>(&self, rt: &R, device: &mut Device<M>) -> bool
        ensures { (kept : List Entry) × (device.new.world ≡ world_after device.old.world (events kept))
            × (IsTrue result ↔ (answers device.old.world (events kept) ≡ given kept)) }
    {
        self.enter(rt).replays(device)
    }
}

// A recorded device, of which nobody is inside a call.
fn at_rest<M: GuestMem, L: Ledger>(recorded: Recorded<M, L>) -> Recorded<M, L>
    ensures same { result ≡ recorded }
    ensures rest { IsAtRest result }
{
    recorded.agrees();
    recorded
}
