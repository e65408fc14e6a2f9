//! The flags of a pool.
ghost use Rattle.std.specs.Prelude.{⊤, ◌^◌, [], ◌∷◌, codes};
ghost use Rattle.pool_filter.specs.Registers.{AUPE, ROMPE, BAM, MPE};

use crate::registers;
use bitflags::{Flag, Flags, bitflag_items};

/// What a pool accepts beside its own addresses and VLAN ids, as its word of VMOLR holds it (82599 datasheet, VMOLR).
///
/// - `AUPE`: untagged frames, where VLANs are filtered;
/// - `ROMPE`: multicast frames whose destination the multicast table has;
/// - `BAM`: broadcast frames;
/// - `MPE`: all multicast frames.
#[derive(Clone, Copy, Debug, PartialEq, Eq)]
pub struct PoolFlags(pub u32);

bitflag_items! {
    impl PoolFlags: u32 {
        const AUPE = 1 << registers::AUPE;
        const ROMPE = 1 << registers::ROMPE;
        const BAM = 1 << registers::BAM;
        const MPE = 1 << registers::MPE;
    }
}

impl Flags for PoolFlags {
    type Bits = u32;

    ghost exact = { ⊤ };

    ghost table = { (codes "AUPE", 2 ^ AUPE) ∷ (codes "ROMPE", 2 ^ ROMPE)
        ∷ (codes "BAM", 2 ^ BAM) ∷ (codes "MPE", 2 ^ MPE) ∷ [] };

    ghost set_of = { λ f. f.0 };

    fn flags<'a>() -> &'a [Flag<PoolFlags>] {
        PoolFlags::FLAGS
    }

    fn bits(&self) -> u32 {
        self.0
    }

    fn from_bits_retain(bits: u32) -> PoolFlags {
        PoolFlags(bits)
    }
}
