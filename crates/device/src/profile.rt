//! What a device is made with, and never changes.
ghost use Rattle.std.specs.Prelude.{◌≡◌};
ghost use Rattle.device.specs.World.{plain};

use offload::Offloads;
use wire_frame::FrameLimit;

/// What a device is made with, and never changes: no event, no reset and no guest does.
#[derive(Clone, Copy, Debug, PartialEq, Eq)]
pub struct Profile {
    /// How long the frames may be that it takes and sends.
    pub limit: FrameLimit,
    /// What it does for the driver of each guest that comes to it, from then until the guest goes.
    pub offloads: Offloads,
}

impl Profile {
    /// A device that takes frames up to the limit, and has no offloads.
    pub fn plain(limit: FrameLimit) -> Profile
        ensures { result ≡ plain limit }
    {
        Profile {
            limit,
            offloads: Offloads::none(),
        }
    }
}
