//! Laws of a device and a host of mailboxes beside it. Each function does nothing: its contract is the law.
ghost use Rattle.std.specs.Prelude.{◌≡◌, ℕ, ◌<◌, ◌≤◌, List, length};
ghost use Rattle.std.specs.List.{All};
ghost use Rattle.device.specs.declared.profile.Profile.{Profile};
ghost use Rattle.device.specs.World.{World, fresh_with, world_after};
ghost use Rattle.device.specs.Lone.{keep};
ghost use Rattle.mailbox.specs.State.{HostState};
ghost use Rattle.mailbox.specs.Start.{first_writes};
ghost use Rattle.mailbox.specs.Words.{settings_of};
ghost use Rattle.mailbox_laws.specs.Turns.{Turn, IsTurn, write_events, host_at_end, events_of, kept_of_turns};

/// A device that was just made, and did the first writes of a host, has the settings that the host stands for.
pub fn brought_up()
    ensures { (h : HostState) (profile : Profile) (sizes : List ℕ) →
        (world_after (fresh_with profile sizes) (write_events (first_writes h))).settings ≡ settings_of h }
{}

/// Where nobody but the host writes to the physical function's registers, or resets it, the device always has the settings
/// that the host stands for.
pub fn settings_stay_the_hosts()
    ensures { (h : HostState) (w : World) (turns : List Turn) → w.settings ≡ settings_of h
        → length h.ids ≤ 64 → All IsTurn turns →
        (world_after w (events_of h turns)).settings ≡ settings_of (host_at_end h turns) }
{}

/// What is kept for a pool in such a run is its own events, the frames that are offered to it, and what the answers to its
/// own messages, its own resets and its own policies leave: another function's messages and resets leave nothing for it, and
/// another's policy nothing, unless it takes an address from it that it chose.
pub fn messages_stay_ones_own()
    ensures { (q : ℕ) (h : HostState) (w : World) (turns : List Turn) → q < 64
        → w.settings ≡ settings_of h → length h.ids ≤ 64 → All IsTurn turns →
        keep q w (events_of h turns) ≡ kept_of_turns q h w turns }
{}
