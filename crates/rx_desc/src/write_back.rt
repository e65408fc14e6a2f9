//! What a receive descriptor holds once it is written back.
ghost use Rattle.std.specs.Prelude.{◌≡◌, ◌+◌, ◌*◌, ◌^◌, ◌<◌, ◌≤◌};
ghost use Rattle.rx_desc.specs.Receive.{first_word as first_word_of, status as status_of, tag_bits as tag_bits_of, check_bits as check_bits_of, sum_bits as sum_bits_of};

use receive_checksum::{Check, Checks};

/// Advanced, second word: the descriptor is done (82599 datasheet, DD).
const DONE: u64 = 1;
/// Advanced: the frame ends here (EOP).
const END_OF_PACKET: u64 = 1 << 1;
/// Advanced: a VLAN tag was stripped (VP).
const VLAN_PACKET: u64 = 1 << 3;
/// Advanced: the checksum of TCP or UDP was looked at (L4CS).
const TRANSPORT_CHECKED: u64 = 1 << 5;
/// Advanced: the checksum of the IPv4 header was looked at (IPCS).
const IP_CHECKED: u64 = 1 << 6;
/// Advanced: the checksum of TCP or UDP does not verify (L4E).
const TRANSPORT_ERROR: u64 = 1 << 30;
/// Advanced: the checksum of the IPv4 header does not verify (IPE).
const IP_ERROR: u64 = 1 << 31;
/// Advanced: another pool sent the frame (LB).
const LOOPBACK: u64 = 1 << 18;
/// Advanced: the place of the length.
const LENGTH: u64 = 1 << 32;
/// Legacy, second word: the descriptor is done (DD, bit 0 of the status byte).
const LEGACY_DONE: u64 = 1 << 32;
/// Legacy: the frame ends here (EOP, bit 1 of the status byte).
const LEGACY_END_OF_PACKET: u64 = 1 << 33;
/// Legacy: a VLAN tag was stripped (VP, bit 3 of the status byte).
const LEGACY_VLAN_PACKET: u64 = 1 << 35;
/// Legacy: the checksum of TCP or UDP was looked at (L4CS, bit 5 of the status byte).
const LEGACY_TRANSPORT_CHECKED: u64 = 1 << 37;
/// Legacy: the checksum of the IPv4 header was looked at (IPCS, bit 6 of the status byte).
const LEGACY_IP_CHECKED: u64 = 1 << 38;
/// Legacy: the checksum of TCP or UDP does not verify (TCPE, bit 6 of the errors).
const LEGACY_TRANSPORT_ERROR: u64 = 1 << 46;
/// Legacy: the checksum of the IPv4 header does not verify (IPE, bit 7 of the errors).
const LEGACY_IP_ERROR: u64 = 1 << 47;
/// Either: the place of the tag control.
const TAG: u64 = 1 << 48;

/// The format of a queue's receive descriptors (82599 datasheet, SRRCTL, DESCTYPE). Both are read alike, and written back each in its way.
#[derive(Clone, Copy, Debug, PartialEq, Eq)]
pub enum RxFormat {
    /// Advanced descriptors, one for each buffer (82599 datasheet, 7.1.6). A written one has the status in its second word from bit 0 on, and
    /// the length from bit 32 on. Its first word is 0.
    Advanced,
    /// Legacy descriptors (82599 datasheet, 7.1.5). A written one has the length in its second word from bit 0 on, and the status from
    /// bit 32 on. Its first word stays the address of the buffer, and nothing in it says that another pool sent the frame.
    Legacy,
}

// What the descriptors of a frame say of it, each beside the piece that it holds.
#[derive(Clone, Copy)]
pub(crate) struct WriteBack {
    // How they say it.
    pub(crate) format: RxFormat,
    // Whether another pool sent the frame.
    pub(crate) loopback: bool,
    // The tag that was stripped.
    pub(crate) tag: Option<u16>,
    // What was found of its checksums.
    pub(crate) sums: Checks,
}

impl WriteBack {
    // The first word of a descriptor whose buffer stands at `buffer`.
    #[inline]
    #[tactic(auto, unfolding(crate::specs::Receive::first_word))]
    pub(crate) fn first_word(self, buffer: u64) -> u64
        ensures { result ≡ first_word_of self.format buffer }
    {
        match self.format {
            RxFormat::Advanced => 0,
            RxFormat::Legacy => buffer,
        }
    }

    // The second word of a descriptor that holds `len` bytes of the frame, its last ones or others.
    #[inline]
    #[tactic(auto, unfolding(crate::specs::Receive::status))]
    pub(crate) fn status(self, len: u64, last: bool) -> u64
        requires { len ≤ 9018 }
        ensures { result ≡ status_of self last len }
    {
        match self.format {
            RxFormat::Advanced => {
                let end = if last {
                    END_OF_PACKET + tag_bits(self.tag, VLAN_PACKET) + advanced_bits(self.sums)
                } else {
                    0
                };
                let switched = if self.loopback { LOOPBACK } else { 0 };
                DONE + end + switched + LENGTH * len
            }
            RxFormat::Legacy => {
                let end = if last {
                    LEGACY_END_OF_PACKET
                        + tag_bits(self.tag, LEGACY_VLAN_PACKET)
                        + legacy_bits(self.sums)
                } else {
                    0
                };
                LEGACY_DONE + end + len
            }
        }
    }
}

// What a stripped tag adds to the last status, where `packet` is its flag.
#[inline]
fn tag_bits(tag: Option<u16>, packet: u64) -> u64
    requires { packet < 2 ^ 36 }
    ensures value { result ≡ tag_bits_of packet tag }
    ensures most { result ≤ packet + 2 ^ 48 * 65535 }
{
    match tag {
        Some(tag) => packet + TAG * u64::from(tag),
        None => 0,
    }
}

// What the checksums of a frame add to the last status of an advanced descriptor.
#[inline]
#[tactic(auto, unfolding(crate::specs::Receive::sum_bits))]
fn advanced_bits(sums: Checks) -> u64
    ensures value { result ≡ sum_bits_of RxFormat.Advanced sums }
    ensures below { result < 2 ^ 32 }
{
    check_bits(sums.ip, IP_CHECKED, IP_ERROR)
        + check_bits(sums.transport, TRANSPORT_CHECKED, TRANSPORT_ERROR)
}

// And of a legacy one.
#[inline]
#[tactic(auto, unfolding(crate::specs::Receive::sum_bits))]
fn legacy_bits(sums: Checks) -> u64
    ensures value { result ≡ sum_bits_of RxFormat.Legacy sums }
    ensures most { result ≤ 2 ^ 47 + 2 ^ 46 + 2 ^ 38 + 2 ^ 37 }
{
    check_bits(sums.ip, LEGACY_IP_CHECKED, LEGACY_IP_ERROR)
        + check_bits(
            sums.transport,
            LEGACY_TRANSPORT_CHECKED,
            LEGACY_TRANSPORT_ERROR,
        )
}

// What a checksum adds, by the flag that it was looked at and that of its error.
#[inline]
fn check_bits(check: Check, checked: u64, error: u64) -> u64
    requires { checked + error < 2 ^ 48 }
    ensures value { result ≡ check_bits_of checked error check }
    ensures most { result ≤ checked + error }
{
    match check {
        Check::Unchecked => 0,
        Check::Good => checked,
        Check::Bad => checked + error,
    }
}
