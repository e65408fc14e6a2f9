//! A frame by its type.
ghost use Rattle.std.specs.Prelude.{◌≡◌, ◌≤◌, length};
ghost use Rattle.receive_checksum.specs.Checks.{packet_checks, checks_of};

use crate::check::Checks;
use crate::ip::{check_ipv4, check_ipv6};
use crate::words::word_at;
use wire_frame::{Frame, is_tagged};

/// How long the Ethernet header of a frame is (IEEE 802.3).
const HEADER: usize = 14;
/// And of one with a tag (IEEE 802.1Q).
const TAGGED_HEADER: usize = 18;
/// How long the type is, which stands last in it.
const TYPE_SIZE: usize = 2;
/// The type of IPv4 (RFC 894).
const IPV4_TYPE: u16 = 0x0800;
/// The type of IPv6 (RFC 2464, 3).
const IPV6_TYPE: u16 = 0x86DD;

/// What is found of the checksums of a frame (82599 datasheet, 7.1.11).
///
/// IPv4 and IPv6 are looked at, behind one tag at most, and TCP and UDP right behind them. A checksum is good where all that it covers
/// sums to 0xFFFF with it.
#[inline]
#[tactic(auto, unfolding(crate::specs::Checks::checks_of))]
pub fn check_sums(frame: Frame<'_>) -> Checks
    ensures { result ≡ checks_of frame.entry.bytes.now }
{
    let bytes = frame.bytes();
    if is_tagged(bytes) {
        check_behind(bytes, TAGGED_HEADER)
    } else {
        check_behind(bytes, HEADER)
    }
}

// The same where the Ethernet header has that length.
#[inline]
fn check_behind(frame: &[u8], header: usize) -> Checks
    requires least { 14 ≤ header }
    requires inside { header ≤ length frame.now }
    requires most { length frame.now ≤ 9018 }
    ensures { result ≡ packet_checks header frame.now }
{
    let kind = word_at(frame, header - TYPE_SIZE);
    if kind == IPV4_TYPE {
        check_ipv4(&frame[header..])
    } else if kind == IPV6_TYPE {
        check_ipv6(&frame[header..])
    } else {
        Checks::none()
    }
}
