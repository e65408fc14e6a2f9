//! Where a device and a lone function beside it begin. The function here does nothing: its contract is the law.
ghost use Rattle.std.specs.Prelude.{ℕ, ◌<◌, List, length, slice_index};
ghost use Rattle.device.specs.World.{fresh};
ghost use Rattle.device.specs.Lone.{alone};
ghost use Rattle.lone.specs.Kept.{Watched, IsPartOf};

/// A closed function without settings is as the pool's part of a device as it is made, where it has a memory of the same
/// size and the same limit on frames. So a device and a function that [`follow`](crate::follow::follow) takes along from there show
/// the same, event by event.
pub fn part_at_first()
    ensures { (p limit : ℕ) (sizes : List ℕ) → p < length sizes →
        IsPartOf (alone limit (slice_index sizes p)) (record { world = fresh limit sizes; pool = p }) }
{}
