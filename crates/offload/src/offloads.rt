//! What a device does of that which drivers leave to their cards.
ghost use Rattle.std.specs.Prelude.{◌≡◌};
ghost use Rattle.offload.specs.Offloads.{no_offloads, all_offloads, offloads_of};

use wire_frame::has_bit;

/// The bit of each flag in a word.
const VLAN: u32 = 0;

const CHECKSUM: u32 = 1;

const SEGMENTATION: u32 = 2;

const AUTO_MASK: u32 = 3;

const LEGACY_RECEIVE: u32 = 4;

const THROTTLE: u32 = 5;

const RECEIVE_CHECKSUM: u32 = 6;
/// How many flags there are.
const FLAGS: u32 = 7;

/// What a device does for its drivers beyond frames as they stand, fixed when it is made.
///
/// A device that does none of it takes a descriptor that asks for a tag or for segments as one that it cannot use, leaves sums as the
/// driver wrote them, turns no receive queue of legacy descriptors on, says nothing of the sums of frames that come, and has no
/// intervals between interrupts.
#[derive(Clone, Copy, Debug, PartialEq, Eq)]
pub struct Offloads {
    /// It inserts the VLAN tag of a context descriptor where a data descriptor asks for it (VLE).
    pub vlan: bool,
    /// It makes the checksums that a data descriptor asks for (IXSM, TXSM).
    pub checksum: bool,
    /// It cuts the TCP data of a frame into segments where a data descriptor asks for it (TSE).
    pub segmentation: bool,
    /// It masks a vector by itself when it issues its message, where the driver asks for it (VTEIAM).
    pub auto_mask: bool,
    /// It takes legacy receive descriptors, SRRCTL.DESCTYPE 0.
    pub legacy_receive: bool,
    /// It keeps how far apart the driver wants the messages of each vector (VTEITR), for whoever hands them out.
    pub throttle: bool,
    /// It says in the receive descriptor whether the checksums of a frame verify (IPCS, L4CS, IPE, L4E).
    pub receive_checksum: bool,
}

impl Offloads {
    /// None of it.
    pub fn none() -> Offloads
        ensures { result ≡ no_offloads }
    {
        Offloads {
            vlan: false,
            checksum: false,
            segmentation: false,
            auto_mask: false,
            legacy_receive: false,
            throttle: false,
            receive_checksum: false,
        }
    }

    /// All of it.
    pub fn all() -> Offloads
        ensures { result ≡ all_offloads }
    {
        Offloads {
            vlan: true,
            checksum: true,
            segmentation: true,
            auto_mask: true,
            legacy_receive: true,
            throttle: true,
            receive_checksum: true,
        }
    }

    /// The flags of a word: bit 0 is VLAN tags, bit 1 checksums, bit 2 segments, bit 3 masks, bit 4 legacy receive descriptors, bit 5
    /// intervals between interrupts, and bit 6 checksums of frames that come. `None` where another bit is set.
    #[tactic(auto, unfolding(crate::specs::Offloads::offloads_of))]
    pub fn from_bits(word: u32) -> Option<Offloads>
        ensures { result ≡ offloads_of word }
    {
        if word >= 1 << FLAGS {
            return None;
        }
        let word = u64::from(word);
        Some(Offloads {
            vlan: has_bit(word, VLAN),
            checksum: has_bit(word, CHECKSUM),
            segmentation: has_bit(word, SEGMENTATION),
            auto_mask: has_bit(word, AUTO_MASK),
            legacy_receive: has_bit(word, LEGACY_RECEIVE),
            throttle: has_bit(word, THROTTLE),
            receive_checksum: has_bit(word, RECEIVE_CHECKSUM),
        })
    }
}
