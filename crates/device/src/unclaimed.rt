//! How many frames nobody got, by where they came from.
ghost use Rattle.std.specs.Prelude.{◌≡◌, ◌<◌, slice_index, IfOk, if◌then◌else◌};
ghost use Rattle.device.specs.World.{none_unclaimed, one_more_at, place_of};

use local_switch::Source;
use std::alloc::{AllocError, Global};
use std::marker::Model;

/// How many sources of frames there are: 64 pools and the wire.
const SOURCES: usize = 65;

/// How many frames nobody got, by where they came from, each number modulo 2^32. In contracts it is the list of the numbers: that of
/// pool p at place p, and that of the wire at place 64.
#[derive(Drop)]
pub struct Unclaimed {
    // in a box, so that a device is a few words
    counts: Box<[u32; SOURCES]>,
}

impl Model for Unclaimed {
    ghost use Rattle.std.specs.Prelude.{◌≡◌, List, ℕ, length};

    ghost Value = { List ℕ };

    ghost view = { λ u. u.counts.value };

    ghost invariant = { λ u. length u.counts.value ≡ 65 };
}

impl Unclaimed {
    /// No frame of any source.
    #[tactic(auto, unfolding(crate::specs::World::none_unclaimed))]
    pub fn new(alloc: Global) -> Result<Unclaimed, AllocError>
        ensures { IfOk result (λ u. u ≡ none_unclaimed) }
    {
        let counts = Box::new(alloc, [0; SOURCES])?;
        Ok(Unclaimed { counts })
    }

    /// One frame more of a source, where nobody got it.
    #[inline]
    pub fn add_where(&mut self, unclaimed: bool, from: Source)
        ensures { self.new ≡ (if unclaimed then one_more_at (place_of from) self.old else self.old) }
    {
        if unclaimed {
            self.add(from);
        }
    }

    // One frame more of a source.
    #[cold]
    fn add(&mut self, from: Source)
        ensures { self.new ≡ one_more_at (place_of from) self.old }
    {
        let place = place_of(from);
        self.counts[place] = self.counts[place].wrapping_add(1);
    }

    /// How many there were of a source.
    pub fn of(&self, from: Source) -> u32
        ensures { result ≡ slice_index self.now (place_of from) }
    {
        self.counts[place_of(from)]
    }
}

// The place of a source.
fn place_of(from: Source) -> usize
    ensures place { result ≡ place_of from }
    ensures below { result < 65 }
{
    match from {
        Source::Wire => SOURCES - 1,
        Source::Pool(pool) => usize::from(pool.get()),
    }
}
