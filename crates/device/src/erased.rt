//! Erased tenants: what the others see of a group of functions that the settings keep apart, which is nothing.
//!
//! This is non-interference by purge: a run with the group's own events left out gives each function outside the group the
//! same. A group is apart where no frame that a function of it may send is for one outside. That depends on the settings
//! alone, which the physical function writes, and `pool_filter::Tables::keeps_apart` tests it. The law is of a group, since a
//! function by itself may reach another one that reaches a third: where a transmit buffer of the second lies over its receive
//! buffer, the bytes of the first come to the third with no event of the second one's guest between. Each function of this
//! module does nothing: its contract is the law.
ghost use Rattle.std.specs.Prelude.{◌≡◌, ℕ, ◌<◌, ◌≤◌, [], ◌∷◌, ◌++◌, Bool, true, false, List, None, length};
ghost use Rattle.live_memory.specs.Trace.{Access};
ghost use Rattle.pool_filter.specs.Settings.{Settings, initial_settings};
ghost use Rattle.pool_filter.specs.Reach.{KeepsApart};
ghost use Rattle.device.specs.Events.{Event};
ghost use Rattle.device.specs.Resets.{resets_at};
ghost use Rattle.device.specs.World.{World, pf_word, fresh, step, answers, world_after};
ghost use Rattle.device.specs.declared.response.Response.{Response};
ghost use Rattle.device.specs.declared.room.Room.{Room};
ghost use Rattle.device.specs.Outcome.{answer_of};
ghost use Rattle.device.specs.Live.{trace_of, told_world, AreListed, TakesLive};
ghost use Rattle.device.specs.Accesses.{accesses_by, run_accesses};
ghost use Rattle.device.specs.Lone.{kept, keep, lone_of, seen_by};
ghost use Rattle.device.specs.Erased.{is_groups, erase, settings_then, IsApart, StaysApart, IsConfined, AlikeOutside, AnsweredAlike};

/// Without the own events of a group, each function outside sees the same and is left the same, where the settings keep the
/// group apart at each of these events.
pub fn without_group()
    // on a device as it is made: replies and messages, and then registers, memory and own settings
    ensures from_fresh { (group : ℕ → Bool) (p limit : ℕ) (sizes : List ℕ) (events : List Event) →
        p < length sizes → length sizes ≤ 64 → group p ≡ false
        → StaysApart group initial_settings events
        → (seen_by p events (answers (fresh limit sizes) events)
        ≡ seen_by p (erase group events) (answers (fresh limit sizes) (erase group events)))
        × (lone_of p (world_after (fresh limit sizes) events)
        ≡ lone_of p (world_after (fresh limit sizes) (erase group events))) }
    // and what the events read and write of its memory, in their order
    ensures fresh_accesses { (group : ℕ → Bool) (p limit : ℕ) (sizes : List ℕ) (events : List Event) →
        p < length sizes → length sizes ≤ 64 → group p ≡ false
        → StaysApart group initial_settings events
        → run_accesses (fresh limit sizes) events p
        ≡ run_accesses (fresh limit sizes) (erase group events) p }
    // on any device, and on one that differs from it in the group: what is left for the function is the same
    ensures kept { (group : ℕ → Bool) (p : ℕ) (w v : World) (events : List Event) →
        length w.functions ≤ 64 → p < 64 → group p ≡ false → AlikeOutside group w v
        → IsConfined group w events → keep p w events ≡ keep p v (erase group events) }
    // so are its replies and messages
    ensures seen { (group : ℕ → Bool) (p : ℕ) (w v : World) (events : List Event) →
        p < length w.functions → length w.functions ≤ 64 → group p ≡ false
        → AlikeOutside group w v → IsConfined group w events
        → seen_by p events (answers w events)
        ≡ seen_by p (erase group events) (answers v (erase group events)) }
    // and its registers, its memory and its own settings
    ensures state { (group : ℕ → Bool) (p : ℕ) (w v : World) (events : List Event) →
        p < length w.functions → length w.functions ≤ 64 → group p ≡ false
        → AlikeOutside group w v → IsConfined group w events
        → lone_of p (world_after w events) ≡ lone_of p (world_after v (erase group events)) }
    // and the accesses to its memory
    ensures accesses { (group : ℕ → Bool) (p : ℕ) (w v : World) (events : List Event) →
        p < length w.functions → length w.functions ≤ 64 → group p ≡ false
        → AlikeOutside group w v → IsConfined group w events
        → run_accesses w events p ≡ run_accesses v (erase group events) p }
    // and all else of the two worlds, but the reset flags and what went to the wire
    ensures worlds { (group : ℕ → Bool) (w v : World) (events : List Event) →
        length w.functions ≤ 64 → AlikeOutside group w v → IsConfined group w events
        → AlikeOutside group (world_after w events) (world_after v (erase group events)) }
    // so each register of the physical function, but for those flags, reads the same
    ensures pf_words { (group : ℕ → Bool) (w v : World) (offset : ℕ) → AlikeOutside group w v
        → resets_at w.resets offset ≡ None → resets_at v.resets offset ≡ None
        → pf_word w offset ≡ pf_word v offset }
{}

/// The same of an event that is taken while guests write their memories: it is taken without what the memories of the group answered, or
/// where it is the group's own, not at all. On a device that differs in the group alone, each function outside sees the same, where the
/// memories outside answer the same.
pub fn without_group_live()
    // its reply and its messages
    ensures seen { (group : ℕ → Bool) (shared : Bool) (p : ℕ)
        (before now other_before other_now : List (List Access)) (old new other : World) (e : Event)
        (taken : Response) (room : Room) → TakesLive shared before now old e new taken room
        → p < length old.functions → length old.functions ≤ 64 → group p ≡ false
        → AlikeOutside group old other → AnsweredAlike group before now other_before other_now
        → StaysApart group old.settings (e ∷ [])
        → seen_by p (e ∷ []) (answer_of room taken ∷ [])
        ≡ seen_by p (erase group (e ∷ []))
        (answers (told_world other_before other_now other) (erase group (e ∷ []))) }
    // what it reads and writes of the function's memory, in order
    ensures accesses { (group : ℕ → Bool) (p : ℕ)
        (before now other_before other_now : List (List Access)) (old other : World) (e : Event) →
        p < length old.functions → length old.functions ≤ 64 → group p ≡ false
        → AlikeOutside group old other → AnsweredAlike group before now other_before other_now
        → StaysApart group old.settings (e ∷ [])
        → accesses_by (told_world before now old) e p
        ≡ run_accesses (told_world other_before other_now other) (erase group (e ∷ [])) p }
    // so an event of the group's own reads and writes nothing there
    ensures untouched { (group : ℕ → Bool) (p : ℕ) (before now : List (List Access)) (old : World)
        (e : Event) → AreListed (accesses_by (told_world before now old) e) before now
        → p < 64 → length old.functions ≤ 64 → group p ≡ false
        → is_groups group e ≡ true → StaysApart group old.settings (e ∷ [])
        → trace_of now p ≡ trace_of before p }
    // and the worlds after it
    ensures worlds { (group : ℕ → Bool) (shared : Bool)
        (before now other_before other_now : List (List Access)) (old new other : World) (e : Event)
        (taken : Response) (room : Room) → TakesLive shared before now old e new taken room
        → length old.functions ≤ 64
        → AlikeOutside group old other → AnsweredAlike group before now other_before other_now
        → StaysApart group old.settings (e ∷ [])
        → AlikeOutside group new
        (world_after (told_world other_before other_now other) (erase group (e ∷ []))) }
{}

/// Whatever the group does: two lists that differ in its own events alone give each function outside the same.
pub fn whatever_a_group_does()
    // from any two devices that differ in the group alone
    ensures from_any { (group : ℕ → Bool) (p : ℕ) (w v : World) (events others : List Event) →
        p < length w.functions → length w.functions ≤ 64 → group p ≡ false
        → AlikeOutside group w v → erase group events ≡ erase group others
        → IsConfined group w events → IsConfined group v others
        → (seen_by p events (answers w events) ≡ seen_by p others (answers v others))
        × (lone_of p (world_after w events) ≡ lone_of p (world_after v others)) }
    ensures accesses { (group : ℕ → Bool) (p : ℕ) (w v : World) (events others : List Event) →
        p < length w.functions → length w.functions ≤ 64 → group p ≡ false
        → AlikeOutside group w v → erase group events ≡ erase group others
        → IsConfined group w events → IsConfined group v others
        → run_accesses w events p ≡ run_accesses v others p }
    // and from a device as it is made, by its settings alone
    ensures from_fresh { (group : ℕ → Bool) (p limit : ℕ) (sizes : List ℕ)
        (events others : List Event) →
        p < length sizes → length sizes ≤ 64 → group p ≡ false
        → erase group events ≡ erase group others
        → StaysApart group initial_settings events → StaysApart group initial_settings others
        → (seen_by p events (answers (fresh limit sizes) events)
        ≡ seen_by p others (answers (fresh limit sizes) others))
        × (lone_of p (world_after (fresh limit sizes) events)
        ≡ lone_of p (world_after (fresh limit sizes) others)) }
{}

/// When a group is confined: where the settings keep it apart at each of its own events.
pub fn groups_apart()
    // the test of the settings is enough
    ensures by_test { (group : ℕ → Bool) (s : Settings) → KeepsApart s group → IsApart group s }
    ensures confined { (group : ℕ → Bool) (w : World) (events : List Event) →
        length w.functions ≤ 64 → StaysApart group w.settings events → IsConfined group w events }
    // the settings are those that the events of the physical function leave, and no guest's event changes one
    ensures settings { (w : World) (e : Event) →
        (step w e).world.settings ≡ settings_then w.settings e }
    // and to be confined is no more than the law needs: of one event, it is what the law says
    ensures needed { (group : ℕ → Bool) (w : World) (e : Event) (r : ℕ) → is_groups group e ≡ true
        → keep r w (e ∷ []) ≡ keep r w (erase group (e ∷ [])) → kept r w e ≡ None }
{}

/// Lists without a group's events: erased twice they are as erased once, and runs one after another are erased one by one.
pub fn erased_lists()
    ensures twice { (group : ℕ → Bool) (events : List Event) →
        erase group (erase group events) ≡ erase group events }
    ensures append { (group : ℕ → Bool) (first second : List Event) →
        erase group (first ++ second) ≡ erase group first ++ erase group second }
{}
