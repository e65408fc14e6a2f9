//! What holds of runs while guests write their memories. A function here does nothing: its contract is the law.
ghost use Rattle.std.specs.Prelude.{◌≡◌, ℕ, ◌<◌, ◌≤◌, Bool, List, length};
ghost use Rattle.device.specs.Events.{Event};
ghost use Rattle.device.specs.World.{World, world_after};
ghost use Rattle.device.specs.Live.{TracedWorld};
ghost use Rattle.live_run.specs.Live.{Noted, live_after, live_answers, last_of, AllMet, with_writes, SeesAsLone, EndsAsLone, AccessesAsLone};

/// To each virtual function, a run is as if the function were alone, while guests write their memories: its replies and messages,
/// its registers and its memory, and the reads and writes of its memory in their order, are those of a lone function that is given only
/// its own events, its own settings, the frames that its filters accept, and what its own memory answered.
pub fn isolation()
    // such a run is a run of events, in which each function writes itself what its memory answers
    ensures events { (shared : Bool) (d : TracedWorld) (events : List Event) (noted : List Noted)
        → AllMet shared d.world d.accesses events noted → length noted ≡ length events
        → live_after d.world d.accesses events noted
        ≡ world_after d.world (with_writes (length d.world.functions) d.accesses events noted) }
    ensures seen { (shared : Bool) (p : ℕ) (d : TracedWorld) (events : List Event)
        (noted : List Noted) → p < length d.world.functions → length d.world.functions ≤ 64
        → AllMet shared d.world d.accesses events noted → length noted ≡ length events
        → SeesAsLone p d events noted (live_answers d.world d.accesses events noted) }
    ensures state { (shared : Bool) (p : ℕ) (d : TracedWorld) (events : List Event)
        (noted : List Noted) → p < length d.world.functions → length d.world.functions ≤ 64
        → AllMet shared d.world d.accesses events noted
        → EndsAsLone p d events noted (live_after d.world d.accesses events noted) }
    ensures accesses { (shared : Bool) (p : ℕ) (d : TracedWorld) (events : List Event)
        (noted : List Noted) → p < length d.world.functions → length d.world.functions ≤ 64
        → AllMet shared d.world d.accesses events noted → length noted ≡ length events
        → AccessesAsLone p d events noted (last_of d.accesses noted) }
{}
