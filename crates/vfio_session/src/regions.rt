//! Which bytes of a region are meant.
ghost use Rattle.std.specs.Prelude.{◌≡◌, ◌≤◌};
ghost use Rattle.vfio_session.specs.Regions.{is_inside, is_register};

use crate::offered::region_size;
use vfio_user::Region;

// Whether all bytes lie in the region.
pub(crate) fn is_inside(region: &Region) -> bool
    ensures { result ≡ is_inside region.now }
{
    let size = region_size(region.index);
    let count = u64::from(region.count);
    count <= size && region.offset <= size - count
}

// Whether they are one register.
pub(crate) fn is_register(region: &Region) -> bool
    ensures { result ≡ is_register region.now }
{
    region.count == 4 && region.offset % 4 == 0
}
