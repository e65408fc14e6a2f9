//! A recorded device: one device for many callers, with the history of all that was asked of it.
//!
//! A [`Recorded`] device has a live [`Device`](device::Device), the seat of the interrupt line that its messages go to, and
//! the calls that it took since a base, with their callers and answers. Its type says that they fit: stepped from the base,
//! the kept events are answered as was kept and lead to the live device; each is one that its caller may make; and each
//! message that was raised in the line is one of a kept answer, or of a call that was folded away. So the isolation law holds
//! of the history for each pool, from the base on: [`Recorded::agrees`] states it. [`Recorded::replays`] steps another device
//! through the history. Where the device was made with a twin, [`Recorded::rebase`] steps the twin through the history and
//! empties it: the twin is then the base.
//!
//! Each of the 67 callers has a [`Share`]: the ports of the 64 pools, the driver of the physical function, the pump of frames
//! from the wire, and the service. A share knows its caller's calls, each with its event and its answer. It grows in this
//! crate alone, by the call that the device kept, so whoever tells another answer than was kept can't say of the share what
//! [`Recorded::record_request`] says of it. Nobody else can ask for a caller, so [`Recorded::gather`] can say of all shares together
//! that they count the calls that were kept and folded away. A share also has the line of its device, so that a guest's seat can be
//! told to be of that line; [`Recorded::beside`] compares the two.
//!
//! Nothing here waits, and none but the makers takes memory. The crate stands on `device`, `history` and `irq_line`.
#![tactic(auto)]

mod asked;
mod makes;
mod making;
mod raises;
mod recorded;
mod share;
mod shares;
mod tallies;

pub use history::Caller;
pub use recorded::{Full, Recorded};
pub use share::{CALLERS, Share};
pub use shares::Shares;
pub use tallies::Tally;
