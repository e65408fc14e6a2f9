//! Where a frame comes from, and where it goes.
use wire_frame::{PoolId, PoolSet};

/// Where a frame comes from.
#[derive(Clone, Copy, Debug, PartialEq, Eq)]
pub enum Source {
    /// The wire.
    Wire,
    /// A pool that sends it.
    Pool(PoolId),
}

/// Where a frame goes.
#[derive(Clone, Copy, Debug, PartialEq, Eq)]
pub struct Route {
    /// The pools that it is for and that may receive.
    pub local: PoolSet,
    /// Whether it goes to the wire.
    pub wire: bool,
}
