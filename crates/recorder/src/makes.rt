//! Devices of one make.
ghost use Rattle.std.specs.Prelude.{◌≡◌, IsTrue, ◌↔◌};
ghost use Rattle.device.specs.World.{sizes_of};
ghost use Rattle.recorder.specs.Made.{SameMake};

use device::Device;
use guest_memory::GuestMem;

/// Whether two devices take frames as long, and have as many functions with memories of the same sizes.
pub fn is_same_make<M: GuestMem>(one: &Device<M>, other: &Device<M>) -> bool
    ensures { IsTrue result ↔ SameMake one.now.world other.now.world }
{
    let same_limit = one.limit() == other.limit();
    let same_sizes = have_same_sizes(one, other);
    same_limit & same_sizes
}

// Whether two devices have as many functions, with memories of the same sizes.
#[tactic(auto, using(crate::proofs::SizeLemmas::all_same, crate::proofs::SizeLemmas::one_same))]
fn have_same_sizes<M: GuestMem>(one: &Device<M>, other: &Device<M>) -> bool
    ensures { IsTrue result ↔ (sizes_of one.now.world ≡ sizes_of other.now.world) }
{
    if one.functions() != other.functions() {
        return false;
    }
    for pool in 0..one.functions() {
        if one.memory_size(pool) != other.memory_size(pool) {
            return false;
        }
    }
    true
}
