//! The ends of ports, as events.
ghost use Rattle.std.specs.Prelude.{◌≡◌, ◌+◌, ◌<◌, ◌≤◌, [], ◌∷◌, ◌++◌, filter, length, vec_capacity, true, false, IfErr, IfOk, OnOk, if◌then◌else◌};
ghost use Rattle.device.specs.declared.event.Event.TheVariants.{End};
ghost use Rattle.history.specs.declared.caller.Caller.TheVariants.{Service};
ghost use Rattle.recorder.specs.Held.{HasAsked};
ghost use Rattle.guest_port.specs.Notes.{knows};
ghost use Rattle.workers.specs.Sweeps.{IsEndOfOne, IsLooked, IsSwept, IsSweptInto, NoneEnded, is_ended};

use device::Event;
use device_lock::{Full, LockedDevice, Share};
use guest_memory::GuestMem;
use guest_port::EndNote;
use std::sync::Wait;
use std::sync::ledger::Ledger;

/// Records `End p` for each pool whose note is found ended, takes that pair out, and answers how many they were: then no note
/// that stays knows of an end. Where no more calls can be kept the event comes back, its pair stays, and so do those after it.
///
/// It is the count of [`sweep_into`], which hands the notes out that were taken out, and so tells that they knew.
pub fn sweep<M: GuestMem, L: Ledger, R: Wait>(
    rt: &R,
    notes: &mut Vec<(u8, EndNote)>,
    device: &LockedDevice<M, L>,
    share: &mut Share<L>,
) -> Result<usize, Full>
    requires { share.old.caller ≡ Service }
    ensures swept { IsSwept notes.old.items notes.new.items share.old share.new }
    ensures count { IfOk result (λ count. count + length notes.new.items ≡ length notes.old.items) }
    ensures all { OnOk result (NoneEnded notes.new.items) }
    ensures full { IfErr result (λ full. IsEndOfOne full.0 notes.new.items) }
{
    // no memory is taken for these
    let mut none = Vec::new(*notes.allocator());
    take_ended(rt, notes, &mut none, false, device, share)
}

/// The same, and each pair that was taken out is put behind those in `out`, in order, as it was when its end was recorded. `out`
/// has room for all of `notes`, so no memory is taken. Where no more calls can be kept, the pairs that were taken out before are
/// in `out`.
pub fn sweep_into<M: GuestMem, L: Ledger, R: Wait>(
    rt: &R,
    notes: &mut Vec<(u8, EndNote)>,
    out: &mut Vec<(u8, EndNote)>,
    device: &LockedDevice<M, L>,
    share: &mut Share<L>,
) -> Result<usize, Full>
    requires service { share.old.caller ≡ Service }
    requires room { length out.old.items + length notes.old.items ≤ vec_capacity out.old }
    ensures swept { IsSweptInto notes.old.items notes.new.items out.old.items out.new.items share.old share.new }
    ensures count { IfOk result (λ count. (count + length notes.new.items ≡ length notes.old.items)
        × (length out.new.items ≡ length out.old.items + count)) }
    ensures all { OnOk result (NoneEnded notes.new.items) }
    ensures full { IfErr result (λ full. IsEndOfOne full.0 notes.new.items) }
    ensures capacity { vec_capacity out.new ≡ vec_capacity out.old }
{
    take_ended(rt, notes, out, true, device, share)
}

// Takes out the pairs whose notes are found ended, once the ends are recorded. They go to `out`, or are let go.
fn take_ended<M: GuestMem, L: Ledger, R: Wait>(
    rt: &R,
    notes: &mut Vec<(u8, EndNote)>,
    out: &mut Vec<(u8, EndNote)>,
    keeps: bool,
    device: &LockedDevice<M, L>,
    share: &mut Share<L>,
) -> Result<usize, Full>
    requires service { share.old.caller ≡ Service }
    requires room { keeps ≡ true
        → length out.old.items + length notes.old.items ≤ vec_capacity out.old }
    ensures swept { (swept : IsSwept notes.old.items notes.new.items share.old share.new)
        × (out.new.items
        ≡ out.old.items ++ (if keeps then filter is_ended swept.passed else [])) }
    ensures count { IfOk result (λ count. count + length notes.new.items ≡ length notes.old.items) }
    ensures more { keeps ≡ true
        → IfOk result (λ count. length out.new.items ≡ length out.old.items + count) }
    ensures all { OnOk result (NoneEnded notes.new.items) }
    ensures full { IfErr result (λ full. IsEndOfOne full.0 notes.new.items) }
    ensures capacity { vec_capacity out.new ≡ vec_capacity out.old }
{
    let mut count = 0;
    let mut at = 0;
    while at < notes.len() {
        let ended = end_known(rt, &mut notes[at], device, share)?;
        if ended {
            let note = notes.remove(at);
            put(out, note, keeps);
            count += 1;
        } else {
            at += 1;
        }
    }
    Ok(count)
}

// Puts a pair behind the others, for which there is room, or lets it go.
fn put(out: &mut Vec<(u8, EndNote)>, note: (u8, EndNote), keeps: bool)
    requires room { keeps ≡ true → length out.old.items < vec_capacity out.old }
    ensures put { out.new.items ≡ out.old.items ++ (if keeps then note ∷ [] else []) }
    ensures more { keeps ≡ true → length out.new.items ≡ length out.old.items + 1 }
    ensures capacity { vec_capacity out.new ≡ vec_capacity out.old }
{
    if keeps {
        out.push_reserved(note);
    }
}

// Looks at a note, and records its pool's end where it knows of it, which is the answer.
#[tactic(auto, using(crate::proofs::Asks::has_asked))]
fn end_known<M: GuestMem, L: Ledger, R: Wait>(
    rt: &R,
    note: &mut (u8, EndNote),
    device: &LockedDevice<M, L>,
    share: &mut Share<L>,
) -> Result<bool, Full>
    requires { share.old.caller ≡ Service }
    ensures looked { IsLooked note.old note.new }
    ensures knows { IfOk result (λ ended. ended ≡ knows note.new.1) }
    ensures ended { IfOk result
        (λ ended. ended ≡ true → HasAsked (End note.new.0 ∷ []) share.old share.new) }
    ensures live { IfOk result (λ ended. ended ≡ false → share.new ≡ share.old) }
    ensures caller { share.new.caller ≡ share.old.caller }
    ensures full { IfErr result (λ full. (full.0 ≡ End note.new.0)
        × (knows note.new.1 ≡ true) × (share.new ≡ share.old)) }
{
    if !note.1.ended() {
        return Ok(false);
    }
    match device.act(rt, share, Event::End(note.0)) {
        Ok(_) => Ok(true),
        Err(full) => Err(full),
    }
}
