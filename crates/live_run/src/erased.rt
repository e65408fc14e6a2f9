//! Erased tenants, of runs while guests write their memories. Each function of this module does nothing: its contract is the law.
//!
//! A memory answers what is read from it: bytes, at their addresses. A run is compared with the same run without the own events of a group
//! that the settings keep apart, and without what the group's memories answered. What the memories outside answered is the same in both. By
//! the law all else is the same for each function outside: its replies and messages, its registers, memory and own settings, and the accesses
//! to its memory, those that write too, in their order.
ghost use Rattle.std.specs.Prelude.{◌≡◌, ℕ, ◌<◌, ◌≤◌, Bool, false, List, length};
ghost use Rattle.live_memory.specs.Trace.{since};
ghost use Rattle.device.specs.Events.{Event};
ghost use Rattle.device.specs.declared.event.Answer.{Answer};
ghost use Rattle.device.specs.World.{World};
ghost use Rattle.device.specs.Lone.{lone_of, seen_by};
ghost use Rattle.device.specs.Live.{TracedWorld, trace_of};
ghost use Rattle.device.specs.Erased.{erase, StaysApart, AlikeOutside};
ghost use Rattle.live_run.specs.Live.{live_after, live_answers, IsLiveRun};
ghost use Rattle.live_run.specs.Erased.{outside, erase_noted, live_accesses, AllAnsweredAlike};

/// A run without the own events of a group and without what its memories answered, from any device that is alike but for the group.
pub fn without_group()
    // replies and messages
    ensures seen { (group : ℕ → Bool) (shared : Bool) (p : ℕ) (old new : TracedWorld)
        (events : List Event) (answers : List Answer) (run : IsLiveRun shared old events answers new)
        (other : World) →
        p < length old.world.functions → length old.world.functions ≤ 64 → group p ≡ false
        → AlikeOutside group old.world other → StaysApart group old.world.settings events
        → seen_by p events answers
        ≡ seen_by p (erase group events) (live_answers other
        (outside group old.accesses) (erase group events) (erase_noted group events run.noted)) }
    // registers, memory and own settings
    ensures state { (group : ℕ → Bool) (shared : Bool) (p : ℕ) (old new : TracedWorld)
        (events : List Event) (answers : List Answer) (run : IsLiveRun shared old events answers new)
        (other : World) →
        p < length old.world.functions → length old.world.functions ≤ 64 → group p ≡ false
        → AlikeOutside group old.world other → StaysApart group old.world.settings events
        → lone_of p new.world
        ≡ lone_of p (live_after other
        (outside group old.accesses) (erase group events) (erase_noted group events run.noted)) }
    // the accesses to its memory, with their bytes, in order
    ensures accesses { (group : ℕ → Bool) (shared : Bool) (p : ℕ) (old new : TracedWorld)
        (events : List Event) (answers : List Answer) (run : IsLiveRun shared old events answers new)
        (other : World) →
        p < length old.world.functions → length old.world.functions ≤ 64 → group p ≡ false
        → AlikeOutside group old.world other → StaysApart group old.world.settings events
        → since (trace_of old.accesses p) (trace_of new.accesses p)
        ≡ live_accesses p other
        (outside group old.accesses) (erase group events) (erase_noted group events run.noted) }
    // and all of the two worlds, but for the group, the reset flags and what went to the wire
    ensures worlds { (group : ℕ → Bool) (shared : Bool) (p : ℕ) (old new : TracedWorld)
        (events : List Event) (answers : List Answer) (run : IsLiveRun shared old events answers new)
        (other : World) →
        p < length old.world.functions → length old.world.functions ≤ 64 → group p ≡ false
        → AlikeOutside group old.world other → StaysApart group old.world.settings events
        → AlikeOutside group new.world (live_after other
        (outside group old.accesses) (erase group events) (erase_noted group events run.noted)) }
    // in the run without them, the memories outside answered what they answered in the run
    ensures answered { (group : ℕ → Bool) (shared : Bool) (old new : TracedWorld)
        (events : List Event) (answers : List Answer) (run : IsLiveRun shared old events answers new) →
        length old.world.functions ≤ 64 → StaysApart group old.world.settings events
        → AllAnsweredAlike group old.accesses events run.noted
        (outside group old.accesses) (erase group events) (erase_noted group events run.noted) }
{}

/// Whatever the group does and its memories answer: two runs in which the others' events and what the memories outside answered are the
/// same, on devices that differ in the group alone, give each function outside the same.
pub fn whatever_a_group_does()
    // replies and messages
    ensures seen { (group : ℕ → Bool) (shared other_shared : Bool) (p : ℕ)
        (old new other_old other_new : TracedWorld) (events others : List Event)
        (answers other_answers : List Answer) (run : IsLiveRun shared old events answers new)
        (other : IsLiveRun other_shared other_old others other_answers other_new) →
        p < length old.world.functions → length old.world.functions ≤ 64 → group p ≡ false
        → AlikeOutside group old.world other_old.world → erase group events ≡ erase group others
        → StaysApart group old.world.settings events
        → StaysApart group other_old.world.settings others
        → AllAnsweredAlike group old.accesses events run.noted other_old.accesses others other.noted
        → seen_by p events answers ≡ seen_by p others other_answers }
    // registers, memory and own settings
    ensures state { (group : ℕ → Bool) (shared other_shared : Bool) (p : ℕ)
        (old new other_old other_new : TracedWorld) (events others : List Event)
        (answers other_answers : List Answer) (run : IsLiveRun shared old events answers new)
        (other : IsLiveRun other_shared other_old others other_answers other_new) →
        p < length old.world.functions → length old.world.functions ≤ 64 → group p ≡ false
        → AlikeOutside group old.world other_old.world → erase group events ≡ erase group others
        → StaysApart group old.world.settings events
        → StaysApart group other_old.world.settings others
        → AllAnsweredAlike group old.accesses events run.noted other_old.accesses others other.noted
        → lone_of p new.world ≡ lone_of p other_new.world }
    // and the accesses to its memory, with their bytes, in order
    ensures accesses { (group : ℕ → Bool) (shared other_shared : Bool) (p : ℕ)
        (old new other_old other_new : TracedWorld) (events others : List Event)
        (answers other_answers : List Answer) (run : IsLiveRun shared old events answers new)
        (other : IsLiveRun other_shared other_old others other_answers other_new) →
        p < length old.world.functions → length old.world.functions ≤ 64 → group p ≡ false
        → AlikeOutside group old.world other_old.world → erase group events ≡ erase group others
        → StaysApart group old.world.settings events
        → StaysApart group other_old.world.settings others
        → AllAnsweredAlike group old.accesses events run.noted other_old.accesses others other.noted
        → since (trace_of old.accesses p) (trace_of new.accesses p)
        ≡ since (trace_of other_old.accesses p) (trace_of other_new.accesses p) }
{}
