//! Under which terms a queue sends.
ghost use Rattle.std.specs.Prelude.{◌≡◌, ◌≤◌, ℕ, Option, None, if◌then◌else◌};
ghost use Rattle.offload.specs.declared.context.Context.{Context as OffloadContext};
ghost use Rattle.tx_desc.specs.Offloaded.{is_plain, is_tag_due, sums_due, is_cut_due, most_bytes, tag_due, tag_with};

use crate::descriptor::{DEXT, TSE, TxDescriptor, VLE};
use offload::{Context, Offloads, Sums};
use wire_frame::{FrameLimit, PortVlan, has_bit};

/// POPTS, insert the sum of the IPv4 header.
const IXSM: u32 = 40;
/// POPTS, insert the sum of what stands behind it.
const TXSM: u32 = 41;
/// The most bytes of a frame that is to be cut: 65,535 of payload, behind the longest headers that a context names.
pub(crate) const MOST_CUT: usize = 66_428;

/// Under which terms a queue sends: the port's VLAN rule, how long a frame may be, its tag included, and what the card does of that which
/// its driver leaves undone.
#[derive(Clone, Copy, Debug, PartialEq, Eq)]
pub struct Terms {
    /// The port's VLAN rule.
    pub rule: PortVlan,
    /// How long a frame may be.
    pub limit: FrameLimit,
    /// What the card does for the driver.
    pub offloads: Offloads,
}

impl Terms {
    // Whether the card does none of it.
    #[inline]
    pub(crate) fn are_plain(&self) -> bool
        ensures { result ≡ is_plain self.now.offloads }
    {
        !self.offloads.vlan && !self.offloads.checksum && !self.offloads.segmentation
    }

    // Which sums are to be made of a frame that begins with this word.
    #[inline]
    pub(crate) fn sums(&self, first: u64) -> Sums
        ensures { result ≡ sums_due self.now.offloads first }
    {
        let may = self.offloads.checksum && has_bit(first, DEXT);
        Sums {
            ip: may && has_bit(first, IXSM),
            transport: may && has_bit(first, TXSM),
        }
    }

    // Whether such a frame is to be cut.
    #[inline]
    pub(crate) fn cuts(&self, first: u64) -> bool
        ensures { result ≡ is_cut_due self.now.offloads first }
    {
        self.offloads.segmentation && has_bit(first, DEXT) && has_bit(first, TSE)
    }

    // How many bytes such a frame may have.
    #[inline]
    pub(crate) fn most_bytes(&self, first: u64) -> usize
        ensures value { result ≡ most_bytes self.now first }
        ensures most { result ≤ 66428 }
    {
        if self.cuts(first) {
            MOST_CUT
        } else {
            usize::from(self.limit.get())
        }
    }

    // The tag to insert into such a frame, whose last descriptor has the word `last`.
    #[inline]
    #[tactic(auto, unfolding(crate::specs::Offloaded::tag_due))]
    pub(crate) fn tag(&self, context: &Context, first: u64, last: u64) -> Option<u16>
        ensures { result ≡ tag_with self.now context.now first last }
    {
        let is_due = self.offloads.vlan && has_bit(first, DEXT) && has_bit(first, VLE);
        let descriptor = TxDescriptor {
            at: 0,
            buffer: 0,
            word: last,
        };
        match self.rule {
            PortVlan::Descriptor if is_due => Some(context.vlan),
            PortVlan::Descriptor => descriptor.tag(PortVlan::Descriptor),
            PortVlan::Always(tag) => Some(tag),
            PortVlan::Never => None,
        }
    }
}
