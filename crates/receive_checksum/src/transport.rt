//! The sum of what stands behind an IP header.
ghost use Rattle.std.specs.Prelude.{◌≡◌, ◌≤◌, length};
ghost use Rattle.receive_checksum.specs.Checks.{transport_sum, tcp_check, udp_check, transport_check};

use crate::check::{Check, judged};
use crate::words::word_at;
use internet_checksum::sum;

/// The number of TCP as a protocol (RFC 9293, 3.1).
const TCP: u8 = 6;
/// How short its header can be.
const TCP_LEAST: usize = 20;
/// The number of UDP as a protocol (RFC 768).
const UDP: u8 = 17;
/// How long its header is.
const UDP_LEAST: usize = 8;
/// Where its length stands.
const UDP_LENGTH: usize = 4;
/// Where its checksum stands.
const UDP_CHECKSUM: usize = 6;

/// What is found of a payload of IP by its protocol, and by the addresses of the IP header, the source first.
#[tactic(auto, unfolding(crate::specs::Checks::transport_check))]
pub(crate) fn check_transport(protocol: u8, addresses: &[u8], payload: &[u8]) -> Check
    requires most { length payload.now ≤ 9018 }
    ensures { result ≡ transport_check protocol addresses.now payload.now }
{
    if protocol == TCP {
        check_tcp(addresses, payload)
    } else if protocol == UDP {
        check_udp(addresses, payload)
    } else {
        Check::Unchecked
    }
}

// What is found of TCP.
#[inline]
#[tactic(auto, unfolding(crate::specs::Checks::tcp_check))]
fn check_tcp(addresses: &[u8], payload: &[u8]) -> Check
    requires most { length payload.now ≤ 9018 }
    ensures { result ≡ tcp_check addresses.now payload.now }
{
    if payload.len() < TCP_LEAST {
        return Check::Unchecked;
    }
    judged(transport_sum(TCP, addresses, payload))
}

// What is found of UDP.
#[inline]
#[tactic(auto, unfolding(crate::specs::Checks::udp_check))]
fn check_udp(addresses: &[u8], payload: &[u8]) -> Check
    requires most { length payload.now ≤ 9018 }
    ensures { result ≡ udp_check addresses.now payload.now }
{
    if payload.len() < UDP_LEAST {
        return Check::Unchecked;
    }
    let size = usize::from(word_at(payload, UDP_LENGTH));
    if size < UDP_LEAST || size > payload.len() || word_at(payload, UDP_CHECKSUM) == 0 {
        return Check::Unchecked;
    }
    judged(transport_sum(UDP, addresses, &payload[..size]))
}

// The sum of a pseudo header and of the bytes behind it.
fn transport_sum(protocol: u8, addresses: &[u8], bytes: &[u8]) -> u16
    requires most { length bytes.now ≤ 9018 }
    ensures { result ≡ transport_sum protocol addresses.now bytes.now }
{
    let start = u16::from(protocol) + bytes.len() as u16;
    sum(bytes, sum(addresses, start))
}
