//! A recorded device, and what its callers ask of it.
ghost use Rattle.std.specs.Prelude.{◌≡◌, ℕ, ◌+◌, ◌<◌, ◌≤◌, ◌^◌, List, true, false, IsTrue, ◌↔◌, IfOk, IfErr, OnOk, OnErr, IfSome, IfNone, length, ◌⊎◌};
ghost use Rattle.device.specs.World.{step, world_after, answers, fresh, sizes_of};
ghost use Rattle.device.specs.Outcome.{answer_of};
ghost use Rattle.device.specs.Lone.{keep, lone_of, lone_seen, lone_after, seen_by};
ghost use Rattle.device.specs.Request.{event_of};
ghost use Rattle.irq_line.specs.declared.views.Raise.{Raise};
ghost use Rattle.irq_line.specs.Line.{raised, IsWord, record_of};
ghost use Rattle.history.specs.Entries.{events, given};
ghost use Rattle.recorder.specs.Callers.{may};
ghost use Rattle.recorder.specs.Legal.{Legal, kept_raises};
ghost use Rattle.recorder.specs.Held.{having_asked, count_of, Keeps, Records, Rebased, folded, folded_raises};
ghost use Rattle.recorder.specs.Made.{IsFresh, SameMake};

use crate::makes::is_same_make;
use crate::raises::raise_all;
use crate::share::{CALLERS, Share};
use device::{Answer, Device, Event, Request, Response, Room};
use guest_memory::GuestMem;
use history::{History, Recording};
use irq_line::{DeviceSeat, GuestSeat};
use std::marker::Model;
use std::sync::ledger::{Book, Ledger};

// How many calls may be folded away.
const MOST_FOLDED: u64 = 1 << 62;

/// No more calls can be kept. The event comes back, and nothing was done.
#[derive(Drop)]
pub struct Full(pub Event);

/// A device, the line that its messages go to, and the calls that it took since a base. Contracts see the base, those calls, the live
/// device, and what was raised in the line.
#[derive(Drop)]
pub struct Recorded<M: GuestMem, L: Ledger> {
    pub(crate) recording: Recording<M>,
    pub(crate) line: DeviceSeat,
    // how many calls were folded away, and how many of each caller
    pub(crate) folded: u64,
    pub(crate) tallies: [u64; CALLERS],
    // all calls of the shares
    pub(crate) book: Book<L>,
}

impl<M: GuestMem, L: Ledger> Model for Recorded<M, L> {
    ghost use Rattle.recorder.specs.Held.{Held};

    ghost Value = { Held };

    ghost use Rattle.recorder.specs.Inside.{held_of, IsHeld};

    ghost view = { held_of };

    ghost invariant = { IsHeld L.parts };
}

impl<M: GuestMem, L: Ledger> Recorded<M, L> {
    /// Takes the event that a request stands for on the device, raises its messages in the line and keeps the call, which the
    /// share has from then on, with its answer. None where no more calls can be kept, and then nothing changes.
    ///
    /// A frame that a service sends stands in `room`, and so do bytes that are read, which are kept from there.
    #[inline]
    pub fn record_request(
        &mut self,
        share: &mut Share<L>,
        request: Request<'_>,
        room: &mut Room,
    ) -> Option<Response>
        requires may { may share.old.caller (event_of request) ≡ true }
        ensures recorded { IfSome result (λ response.
            Records self.old share.old.caller (event_of request.entry) self.new response room.new) }
        ensures counted { IfSome result (λ response.
            share.new ≡ having_asked (event_of request.entry) (answer_of room.new response) share.old) }
        ensures full { IfNone result (length self.old.kept ≡ self.old.cap) }
        ensures unchanged { IfNone result
            ((self.new ≡ self.old) × (share.new ≡ share.old) × (room.new ≡ room.old)) }
    {
        if self.is_full() {
            return None;
        }
        let response = self.recording.record(share.caller, request, room);
        raise_all(&mut self.line, &response.messages);
        self.book.add(&mut share.part, 1);
        share.count = share.count.wrapping_add(1);
        share.asked = share.asked.and(self.recording.history());
        Some(response)
    }

    /// The same as [`Recorded::record_request`] of an event, which comes back where no more calls can be kept.
    pub fn record(&mut self, share: &mut Share<L>, event: Event) -> Result<Answer, Full>
        requires may { may share.old.caller event ≡ true }
        ensures answer { IfOk result (λ answer. answer ≡ (step self.old.live event).answer) }
        ensures kept { OnOk result (Keeps self.old share.old.caller event self.new) }
        ensures counted { IfOk result (λ answer. share.new ≡ having_asked event answer share.old) }
        ensures full { IfErr result
            (λ full. (full.0 ≡ event) × (length self.old.kept ≡ self.old.cap)) }
        ensures unchanged { OnErr result ((self.new ≡ self.old) × (share.new ≡ share.old)) }
    {
        let mut room = Room::new();
        match self.record_request(share, event.as_request(), &mut room) {
            Some(response) => Ok(response.answer(&room)),
            None => Err(Full(event)),
        }
    }

    /// Moves the base to the live device: the twin steps through the kept calls, which are then folded away. Answers how many
    /// they are, and leaves room for as many as at the start. None where the device has no twin or more than 2^62 calls would
    /// be folded away, and then nothing changes.
    pub fn rebase(&mut self) -> Option<usize>
        ensures count { IfSome result (λ count. count ≡ length self.old.kept) }
        ensures few { IfSome result (λ count. count ≤ 65536) }
        ensures rebased { IfSome result (λ count. Rebased self.old self.new) }
        ensures can { IfSome result
            (λ count. (self.old.has_twin ≡ true)
            × (folded self.old + length self.old.kept ≤ 2 ^ 62)) }
        ensures cannot { IfNone result
            ((self.old.has_twin ≡ false) ⊎ (2 ^ 62 < folded self.old + length self.old.kept)) }
        ensures unchanged { IfNone result (self.new ≡ self.old) }
    {
        self.recording.agrees();
        let count = self.recording.history().len();
        if !self.recording.has_twin() || count as u64 > MOST_FOLDED - self.folded {
            return None;
        }
        let tallies = self.tally();
        if !self.recording.rebase() {
            return None;
        }
        self.tallies = tallies;
        self.folded += count as u64;
        Some(count)
    }

    /// Sees that there is room for one more call: where no more can be kept, those that are kept are folded away, as
    /// [`Recorded::rebase`] does. False where they can't be, and then nothing changes.
    pub fn make_room(&mut self) -> bool
        ensures room { result ≡ true → length self.new.kept < self.new.cap }
        ensures had_room { length self.old.kept < self.old.cap
            → (result ≡ true) × (self.new ≡ self.old) }
        ensures folded { length self.old.kept ≡ self.old.cap → result ≡ true
            → Rebased self.old self.new }
        ensures cannot { result ≡ false →
            (self.old.has_twin ≡ false) ⊎ (2 ^ 62 < folded self.old + length self.old.kept) }
        ensures unchanged { result ≡ false → self.new ≡ self.old }
    {
        !self.is_full() || self.rebase().is_some()
    }

    /// Compares the line with the seat of a guest of the same line, which changes neither: there is a word, and a story of it that has
    /// the raises for the guest's pool and the takes and peeks of the guest, and that it ends in.
    pub fn beside(&mut self, guest: GuestSeat) -> GuestSeat
        requires one { guest.line ≡ self.old.line.line }
        ensures device { self.new ≡ self.old }
        ensures guest { result ≡ guest }
        ensures word { (word : ℕ) × (seen : List Raise)
            × IsWord result.view.pool word self.new.line.raises (record_of result.view seen) }
    {
        self.line.beside(guest)
    }

    /// Steps a device through the kept calls, and tells whether it gave the kept answers: each reply with its bytes, and all
    /// messages.
    pub fn replays(&self, device: &mut Device<M>) -> bool
        ensures world { device.new.world ≡ world_after device.old.world (events self.now.kept) }
        ensures same { IsTrue result
            ↔ (answers device.old.world (events self.now.kept) ≡ given self.now.kept) }
        // of the base, and of a device of the live one's make while no calls were folded away
        ensures base { device.old.world ≡ self.now.base → IsTrue result }
        ensures fresh { folded self.now ≡ 0
            → device.old.world ≡ fresh self.now.live.profile.limit (sizes_of self.now.live) → IsTrue result }
    {
        self.agrees();
        self.recording.history().gives_all(device)
    }

    /// Whether no calls were folded away, and the device is of another's make. Where the other is a device as it is made, the kept
    /// calls begin at just that one then.
    pub fn begins_as(&self, other: &Device<M>) -> bool
        ensures same { IsTrue result
            ↔ ((folded self.now ≡ 0) × SameMake self.now.live other.now.world) }
        ensures base { IsTrue result → IsFresh other.now.world
            → self.now.base ≡ other.now.world }
    {
        self.agrees();
        self.folded() == 0 && is_same_make(self.recording.device(), other)
    }

    // Whether no more calls can be kept.
    #[inline]
    fn is_full(&self) -> bool
        ensures full { IsTrue result ↔ (length self.now.kept ≡ self.now.cap) }
        ensures most { length self.now.kept ≤ self.now.cap }
        ensures some { 1 ≤ self.now.cap }
    {
        self.recording.history().is_full()
    }

    /// The kept calls, the oldest first.
    #[inline]
    pub fn history(&self) -> &History
        ensures { result.now.entries ≡ self.now.kept }
    {
        self.recording.history()
    }

    /// How many calls are kept.
    #[inline]
    pub fn kept(&self) -> usize
        ensures kept { result ≡ length self.now.kept }
        ensures few { result ≤ 65536 }
    {
        self.recording.history().len()
    }

    /// How many calls were folded away.
    #[inline]
    pub fn folded(&self) -> usize
        ensures folded { result ≡ folded self.now }
        ensures few { result ≤ 2 ^ 62 }
    {
        self.folded as usize
    }

    /// How many calls are kept, and how many were folded away. Together they are no fewer than those of a caller's share, which stays
    /// as it is.
    pub fn kept_and_folded(&mut self, share: &mut Share<L>) -> (usize, usize)
        ensures kept { result.0 ≡ length self.old.kept }
        ensures folded { result.1 ≡ folded self.old }
        ensures few { (result.0 ≤ 65536) × (result.1 ≤ 2 ^ 62) }
        ensures made { count_of share.old ≤ result.0 + result.1 }
        ensures unchanged { (self.new ≡ self.old) × (share.new ≡ share.old) }
    {
        self.book.audit(&mut share.part);
        (self.kept(), self.folded())
    }

    /// A law: the base, the kept calls, the live device and the line agree, and to each function the kept calls are as if it
    /// were alone. The call does nothing.
    pub fn agrees(&self)
        // the kept events are answered so from the base on, lead to the live device, and each is one that its caller may make
        ensures legal { Legal self.now.base self.now.kept self.now.live }
        ensures few { length self.now.kept ≤ self.now.cap }
        // until calls are folded away, the base is a device as it is made
        ensures first { folded self.now ≡ 0
            → self.now.base ≡ fresh self.now.live.profile.limit (sizes_of self.now.live) }
        // each message that was raised is one of a kept answer, or of a call that was folded away
        ensures raised { (p v : ℕ) → p < 64 →
            raised p v self.now.line.raises
            ≡ kept_raises p v self.now.kept + folded_raises p v self.now }
        ensures folded { (p v : ℕ) → p < 64 → folded_raises p v self.now ≤ folded self.now }
        // each function sees what it would see alone, and is as it would be alone
        ensures seen { (p : ℕ) → p < length self.now.base.functions →
            seen_by p (events self.now.kept) (given self.now.kept)
            ≡ lone_seen (lone_of p self.now.base) (keep p self.now.base (events self.now.kept)) }
        ensures state { (p : ℕ) → p < length self.now.base.functions →
            lone_of p self.now.live
            ≡ lone_after (lone_of p self.now.base) (keep p self.now.base (events self.now.kept)) }
    {
        self.recording.agrees();
    }
}
