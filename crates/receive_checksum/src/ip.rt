//! The sums of a packet of IPv4 or IPv6.
ghost use Rattle.std.specs.Prelude.{◌≡◌, ◌+◌, ◌≤◌, true, length};
ghost use Rattle.receive_checksum.specs.Checks.{header_length, total_length, is_ipv4, is_fragment, ipv4_transport, ipv4_checks, payload_length, is_ipv6, ipv6_checks};

use crate::check::{Check, Checks, judged};
use crate::transport::check_transport;
use crate::words::word_at;
use internet_checksum::sum;

/// The version of IPv4, in the upper half of the first byte (RFC 791, 3.1).
const IPV4_VERSION: u8 = 4;
/// How short its header can be.
const IPV4_LEAST: usize = 20;
/// Where its total length stands.
const IPV4_TOTAL: usize = 2;
/// Where its flags and its fragment offset stand.
const IPV4_FRAGMENT: usize = 6;
/// The bits of More Fragments and of the offset are those below this one.
const IPV4_DONT_FRAGMENT: u16 = 0x4000;
/// Where its protocol stands.
const IPV4_PROTOCOL: usize = 9;
/// Where its addresses stand.
const IPV4_ADDRESSES: usize = 12;

const IPV4_ADDRESSES_END: usize = 20;
/// The version of IPv6, in the upper half of the first byte (RFC 8200, 3).
const IPV6_VERSION: u8 = 6;
/// How long its header is.
const IPV6_HEADER: usize = 40;
/// Where its payload length stands.
const IPV6_PAYLOAD: usize = 4;
/// Where its next header stands.
const IPV6_NEXT: usize = 6;
/// Where its addresses stand.
const IPV6_ADDRESSES: usize = 8;

const IPV6_ADDRESSES_END: usize = 40;

/// What is found of an IPv4 packet, with padding behind it.
#[tactic(auto, unfolding(crate::specs::Checks::ipv4_checks))]
pub(crate) fn check_ipv4(packet: &[u8]) -> Checks
    requires most { length packet.now ≤ 9018 }
    ensures { result ≡ ipv4_checks packet.now }
{
    if !is_ipv4(packet) {
        return Checks::none();
    }
    let header = &packet[..header_length(packet)];
    Checks {
        ip: judged(sum(header, 0)),
        transport: ipv4_transport(packet),
    }
}

// Whether version and lengths are those of an IPv4 packet.
#[inline]
#[tactic(auto, unfolding(crate::specs::Checks::is_ipv4))]
fn is_ipv4(packet: &[u8]) -> bool
    ensures value { result ≡ is_ipv4 packet.now }
    ensures least { result ≡ true → 20 ≤ header_length packet.now }
    ensures header { result ≡ true → header_length packet.now ≤ total_length packet.now }
    ensures total { result ≡ true → total_length packet.now ≤ length packet.now }
{
    packet.len() >= IPV4_LEAST
        && packet[0] / 16 == IPV4_VERSION
        && header_length(packet) >= IPV4_LEAST
        && header_length(packet) <= total_length(packet)
        && total_length(packet) <= packet.len()
}

// How many bytes the header has.
#[inline]
fn header_length(packet: &[u8]) -> usize
    requires { 20 ≤ length packet.now }
    ensures { result ≡ header_length packet.now }
{
    4 * usize::from(packet[0] % 16)
}

// And the packet.
#[inline]
fn total_length(packet: &[u8]) -> usize
    requires { 20 ≤ length packet.now }
    ensures { result ≡ total_length packet.now }
{
    usize::from(word_at(packet, IPV4_TOTAL))
}

// What is found of that which stands behind the header.
#[inline]
#[tactic(auto, unfolding(crate::specs::Checks::ipv4_transport))]
fn ipv4_transport(packet: &[u8]) -> Check
    requires least { 20 ≤ header_length packet.now }
    requires header { header_length packet.now ≤ total_length packet.now }
    requires total { total_length packet.now ≤ length packet.now }
    requires most { length packet.now ≤ 9018 }
    ensures { result ≡ ipv4_transport packet.now }
{
    if word_at(packet, IPV4_FRAGMENT) % IPV4_DONT_FRAGMENT != 0 {
        return Check::Unchecked;
    }
    check_transport(
        packet[IPV4_PROTOCOL],
        &packet[IPV4_ADDRESSES..IPV4_ADDRESSES_END],
        &packet[header_length(packet)..total_length(packet)],
    )
}

/// What is found of an IPv6 packet, with padding behind it.
#[tactic(auto, unfolding(crate::specs::Checks::ipv6_checks))]
pub(crate) fn check_ipv6(packet: &[u8]) -> Checks
    requires most { length packet.now ≤ 9018 }
    ensures { result ≡ ipv6_checks packet.now }
{
    if !is_ipv6(packet) {
        return Checks::none();
    }
    let end = IPV6_HEADER + usize::from(word_at(packet, IPV6_PAYLOAD));
    Checks {
        ip: Check::Unchecked,
        transport: check_transport(
            packet[IPV6_NEXT],
            &packet[IPV6_ADDRESSES..IPV6_ADDRESSES_END],
            &packet[IPV6_HEADER..end],
        ),
    }
}

// Whether version and length are those of an IPv6 packet.
#[inline]
#[tactic(auto, unfolding(crate::specs::Checks::is_ipv6))]
fn is_ipv6(packet: &[u8]) -> bool
    ensures value { result ≡ is_ipv6 packet.now }
    ensures payload { result ≡ true → 40 + payload_length packet.now ≤ length packet.now }
{
    packet.len() >= IPV6_HEADER
        && packet[0] / 16 == IPV6_VERSION
        && IPV6_HEADER + usize::from(word_at(packet, IPV6_PAYLOAD)) <= packet.len()
}
