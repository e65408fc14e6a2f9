//! The laws of the numbered lines, over the definitions alone. Their function does nothing: its contract is the laws.
ghost use Rattle.std.specs.Prelude.{◌≡◌, ℕ, ◌<◌, ◌≤◌, List, Option, length, slice_index};
ghost use Rattle.device.specs.Events.{Event};
ghost use Rattle.device.specs.World.{World, fresh, answers};
ghost use Rattle.device.specs.Lone.{Item, Lone, alone, keep, lone_seen, seen_by};
ghost use Rattle.transcript.specs.Lines.{present, kept_by_each, seen_by_each, seen_of_each, lone_text, cut_text};

/// What each event leaves for a pool is, all together, what is kept for it; what is seen by each item is what is seen of the
/// lone function; and the lines of a lone function over what a device as it is made keeps for it are the lines of the
/// device's run, cut down to the pool's events and marks.
pub fn numbered_lines()
    ensures kept { (p : ℕ) (w : World) (events : List Event)
        → present (kept_by_each p w events) ≡ keep p w events }
    ensures seen { (s : Lone) (items : List (Option Item))
        → present (seen_by_each s items) ≡ lone_seen s (present items) }
    ensures seen_of { (p : ℕ) (w : World) (events : List Event) →
        present (seen_of_each p events (answers w events)) ≡ seen_by p events (answers w events) }
    ensures cut { (p limit : ℕ) (sizes : List ℕ) (events : List Event) → p < length sizes
        → length sizes ≤ 64 →
        lone_text p (alone limit (slice_index sizes p)) (fresh limit sizes) events
        ≡ cut_text p events (answers (fresh limit sizes) events) }
{}
