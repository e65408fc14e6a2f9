//! Checksums of a frame: that of the IPv4 header, and that of TCP or UDP.
ghost use Rattle.std.specs.Prelude.{◌≡◌, ◌+◌, ◌<◌, ◌≤◌, ◌++◌, length, take, drop, slice_range, is_ok, true, Option, None, if◌then◌else◌};
ghost use Rattle.std.specs.Result.{result_err};
ghost use Rattle.internet_checksum.specs.Sum.{with_word};
ghost use Rattle.offload.specs.Context.{transport_at};
ghost use Rattle.offload.specs.Sums.{header_summed, tcp_summed, udp_summed, transport_summed, ip_refusal, transport_refusal, refusal, summed};

use crate::context::{Context, Ip, Transport};
use crate::store::store_word;
use internet_checksum::{checksum, never_zero};
use thiserror::Error;

/// How short an IPv4 header can be (RFC 791, 3.1).
const IPV4_LEAST: u16 = 20;
/// Where its checksum stands.
pub(crate) const IPV4_CHECKSUM: usize = 10;
/// How short a TCP header can be (RFC 9293, 3.1).
pub(crate) const TCP_LEAST: usize = 20;
/// Where its checksum stands.
pub(crate) const TCP_CHECKSUM: usize = 16;
/// How long a UDP header is (RFC 768).
const UDP_LEAST: usize = 8;
/// Where its checksum stands.
const UDP_CHECKSUM: usize = 6;

/// Which sums a data descriptor asks for (82599 datasheet, 7.2.3.2.4, POPTS).
#[derive(Clone, Copy, Debug, PartialEq, Eq)]
pub struct Sums {
    /// IXSM: that of the IPv4 header.
    pub ip: bool,
    /// TXSM: that of what stands behind it.
    pub transport: bool,
}

/// Why a frame can't be summed as it is asked.
#[derive(Clone, Copy, Debug, PartialEq, Eq, Error)]
pub enum NotSummed {
    /// The sum of an IP header is asked for, and the context says IPv6.
    #[error("an IPv6 header has no checksum")]
    NotIpv4,
    /// IPLEN is below 20, or the header goes past the frame's end.
    #[error("the IP header doesn't lie in the frame")]
    IpOutside,
    /// The frame ends within the TCP or UDP header, of which 20 or 8 bytes are looked for.
    #[error("the transport header doesn't lie in the frame")]
    TransportOutside,
    /// The context says SCTP.
    #[error("SCTP is not summed")]
    SctpUnsummed,
    /// The context's L4T is the reserved one.
    #[error("L4T names no protocol")]
    NoProtocol,
}

/// Puts the sums that are asked for into a frame, or leaves it as it is and tells why it can't.
///
/// The sum of the IPv4 header covers IPLEN bytes from MACLEN on. That of TCP or UDP covers all bytes from MACLEN + IPLEN to the frame's
/// end, with what the driver left in its field: the sum of the pseudo header. In UDP 0xFFFF stands for 0. No other byte changes.
#[tactic(auto, unfolding(crate::specs::Sums::summed))]
pub fn insert_sums(frame: &mut [u8], context: &Context, sums: Sums) -> Result<(), NotSummed>
    ensures refused { result_err result ≡ refusal context.now sums (length frame.old) }
    ensures bytes { frame.new ≡ (if is_ok result then summed context.now sums frame.old else frame.old) }
{
    if let Some(why) = refusal(context, sums, frame.len()) {
        return Err(why);
    }
    if sums.ip {
        sum_header_within(frame, usize::from(context.maclen), context.transport_at());
    }
    if sums.transport {
        sum_behind(frame, context.transport, context.transport_at());
    }
    Ok(())
}

// Why what is asked for can't be done in a frame of that size.
#[inline]
#[tactic(auto, unfolding(crate::specs::Sums::refusal))]
fn refusal(context: &Context, sums: Sums, size: usize) -> Option<NotSummed>
    ensures value { result ≡ refusal context.now sums size }
    ensures least { result ≡ None → sums.ip ≡ true → 20 ≤ context.now.iplen }
    ensures ip { result ≡ None → sums.ip ≡ true → transport_at context.now ≤ size }
    ensures inside { result ≡ None → sums.transport ≡ true → transport_at context.now ≤ size }
    ensures tcp { result ≡ None → sums.transport ≡ true → context.now.transport ≡ Transport.Tcp → transport_at context.now + 20 ≤ size }
    ensures udp { result ≡ None → sums.transport ≡ true → context.now.transport ≡ Transport.Udp → transport_at context.now + 8 ≤ size }
{
    if sums.ip {
        if let Some(why) = ip_refusal(context, size) {
            return Some(why);
        }
    }
    if sums.transport {
        transport_refusal(context, size)
    } else {
        None
    }
}

#[inline]
#[tactic(auto, unfolding(crate::specs::Sums::ip_refusal))]
fn ip_refusal(context: &Context, size: usize) -> Option<NotSummed>
    ensures value { result ≡ ip_refusal context.now size }
    ensures least { result ≡ None → 20 ≤ context.now.iplen }
    ensures ip { result ≡ None → transport_at context.now ≤ size }
{
    match context.ip {
        Ip::V6 => Some(NotSummed::NotIpv4),
        Ip::V4 => {
            if context.iplen < IPV4_LEAST || size < context.transport_at() {
                Some(NotSummed::IpOutside)
            } else {
                None
            }
        }
    }
}

#[inline]
#[tactic(auto, unfolding(crate::specs::Sums::transport_refusal))]
fn transport_refusal(context: &Context, size: usize) -> Option<NotSummed>
    ensures value { result ≡ transport_refusal context.now size }
    ensures inside { result ≡ None → transport_at context.now ≤ size }
    ensures tcp { result ≡ None → context.now.transport ≡ Transport.Tcp → transport_at context.now + 20 ≤ size }
    ensures udp { result ≡ None → context.now.transport ≡ Transport.Udp → transport_at context.now + 8 ≤ size }
{
    let least = match context.transport {
        Transport::Udp => UDP_LEAST,
        Transport::Tcp => TCP_LEAST,
        Transport::Sctp => return Some(NotSummed::SctpUnsummed),
        Transport::Reserved => return Some(NotSummed::NoProtocol),
    };
    if size < context.transport_at() + least {
        Some(NotSummed::TransportOutside)
    } else {
        None
    }
}

// Sums the IPv4 header that stands between two places of a frame.
#[inline]
fn sum_header_within(frame: &mut [u8], from: usize, to: usize)
    requires least { from + 20 ≤ to }
    requires inside { to ≤ length frame.old }
    ensures { frame.new ≡ take from frame.old ++ (header_summed (slice_range frame.old from to) ++ drop to frame.old) }
{
    sum_header(&mut frame[from..to]);
}

// Sums what stands behind the IP header, from a place of a frame on.
#[inline]
fn sum_behind(frame: &mut [u8], transport: Transport, from: usize)
    requires inside { from ≤ length frame.old }
    requires tcp { transport ≡ Transport.Tcp → from + 20 ≤ length frame.old }
    requires udp { transport ≡ Transport.Udp → from + 8 ≤ length frame.old }
    ensures { frame.new ≡ take from frame.old ++ transport_summed transport (drop from frame.old) }
{
    sum_transport(&mut frame[from..], transport);
}

// Puts the checksum of an IPv4 header into its field, whatever stood there.
#[inline]
#[tactic(auto, unfolding(crate::specs::Sums::header_summed))]
fn sum_header(header: &mut [u8])
    requires { 20 ≤ length header.old }
    ensures { header.new ≡ header_summed header.old }
{
    store_word(header, IPV4_CHECKSUM, 0);
    let sum = checksum(header);
    store_word(header, IPV4_CHECKSUM, sum);
}

// Puts the checksum of TCP or UDP into its field.
#[inline]
#[tactic(auto, unfolding(crate::specs::Sums::transport_summed))]
fn sum_transport(bytes: &mut [u8], transport: Transport)
    requires tcp { transport ≡ Transport.Tcp → 20 ≤ length bytes.old }
    requires udp { transport ≡ Transport.Udp → 8 ≤ length bytes.old }
    ensures { bytes.new ≡ transport_summed transport bytes.old }
{
    match transport {
        Transport::Udp => sum_udp(bytes),
        Transport::Tcp => sum_tcp(bytes),
        Transport::Sctp | Transport::Reserved => {}
    }
}

// Puts the checksum of a TCP header and its payload into its field, over the partial sum there.
#[inline]
#[tactic(auto, unfolding(crate::specs::Sums::tcp_summed))]
fn sum_tcp(bytes: &mut [u8])
    requires { 20 ≤ length bytes.old }
    ensures { bytes.new ≡ tcp_summed bytes.old }
{
    let sum = checksum(bytes);
    store_word(bytes, TCP_CHECKSUM, sum);
}

// The same of a UDP header and its payload.
#[inline]
#[tactic(auto, unfolding(crate::specs::Sums::udp_summed))]
fn sum_udp(bytes: &mut [u8])
    requires { 8 ≤ length bytes.old }
    ensures { bytes.new ≡ udp_summed bytes.old }
{
    let sum = checksum(bytes);
    store_word(bytes, UDP_CHECKSUM, never_zero(sum));
}
