//! The segments of a frame.
ghost use Rattle.std.specs.Prelude.{◌≡◌, ◌+◌, ◌-◌, ◌*◌, ◌/◌, ◌<◌, ◌≤◌, ◌++◌, ◌==◌, ◌^◌, ℕ, true, length, drop, take, slice_range, slice_index, slice_set};
ghost use Rattle.internet_checksum.specs.Sum.{word_sum, folded, checksum, with_word};
ghost use Rattle.offload.specs.Context.{transport_at, payload_at};
ghost use Rattle.offload.specs.Cut.{IsCut, ip_least, longest, segment_count};
ghost use Rattle.offload.specs.Sums.{header_cleared};
ghost use Rattle.offload.specs.Segment.{ip_of, pseudo_header, with_sequence, flags_of, with_flags, tcp_of, finished, pseudo_of, with_ip_of, with_tcp_of, piece, segment_of};

use crate::context::{Context, Ip};
use crate::cut::is_last;
use crate::store::{load_word, store_word};
use crate::sums::{IPV4_CHECKSUM, TCP_CHECKSUM, TCP_LEAST};
use byteorder::{BigEndian, ByteOrder};
use internet_checksum::{folded, sum};

/// Where the version of an IPv4 header stands, with its length and type of service (RFC 791, 3.1).
const IPV4_VERSION: usize = 0;
/// Where its total length stands.
const IPV4_TOTAL: usize = 2;
/// Where its identification stands.
const IPV4_IDENTIFICATION: usize = 4;
/// Where the offset of its fragment stands.
const IPV4_FRAGMENT: usize = 6;
/// Where its time to live stands, with its protocol.
const IPV4_TIME: usize = 8;
/// Where its addresses stand.
const IPV4_ADDRESSES: usize = 12;

const IPV4_ADDRESSES_END: usize = 20;
/// How long an IPv6 header is without extension headers (RFC 8200, 3).
const IPV6_LEAST: usize = 40;
/// Where its payload length stands.
const IPV6_PAYLOAD: usize = 4;
/// Where its addresses stand.
const IPV6_ADDRESSES: usize = 8;

const IPV6_ADDRESSES_END: usize = 40;
/// The number of TCP as a protocol (RFC 9293, 3.1).
const TCP: u16 = 6;
/// Where the source port of a TCP header stands.
const TCP_SOURCE: usize = 0;
/// Where its destination port stands.
const TCP_DESTINATION: usize = 2;
/// Where its sequence number stands.
const TCP_SEQUENCE: usize = 4;
/// Where its acknowledgment number stands.
const TCP_ACKNOWLEDGMENT: usize = 8;
/// Where its offset stands, in front of the flags.
const TCP_OFFSET: usize = 12;
/// Where its flags stand.
const TCP_FLAGS: usize = 13;
/// Where its window stands.
const TCP_WINDOW: usize = 14;
/// Where its urgent pointer stands.
const TCP_URGENT: usize = 18;
/// Congestion window reduced.
const CWR: u8 = 0x80;
/// Push.
const PSH: u8 = 0x08;
/// Finish.
const FIN: u8 = 0x01;

/// Makes a segment among the bytes of the frame itself, in front of its payload, and tells how many bytes it has. What stood where its
/// headers are goes into the front of a room.
pub(crate) fn make_segment(
    context: &Context,
    frame: &mut [u8],
    number: usize,
    kept: &mut [u8],
) -> usize
    requires cut { IsCut context.now (length frame.old) }
    requires number { number < segment_count context.now (length frame.old) }
    requires room { payload_at context.now ≤ length kept.old }
    ensures segment { slice_range frame.new (number * context.now.mss) (number * context.now.mss + result) ≡ segment_of context.now frame.old number }
    ensures whole { take (number * context.now.mss) frame.new
        ++ (take (payload_at context.now) kept.new ++ drop (number * context.now.mss + payload_at context.now) frame.new) ≡ frame.old }
    ensures rest { drop (payload_at context.now) kept.new ≡ drop (payload_at context.now) kept.old }
    ensures room { length kept.new ≡ length kept.old }
    ensures inside { number * context.now.mss + result ≤ length frame.new }
    ensures same { length frame.new ≡ length frame.old }
    ensures length { result ≡ length (segment_of context.now frame.old number) }
    ensures most { result ≤ longest context.now (length frame.old) }
{
    let headers = context.payload_at();
    let size = headers + piece(context, frame, number).len();
    let start = place(context, frame.len(), number);
    let is_last = is_last(context, frame.len(), number);
    kept[..headers].copy_from_slice(&frame[start..start + headers]);
    lay_front(frame, headers, start);
    finish_within(frame, start, start + size, context, number, is_last);
    size
}

/// Puts back what [`make_segment`] took out for a segment.
pub(crate) fn put_back(context: &Context, frame: &mut [u8], number: usize, kept: &[u8])
    requires cut { IsCut context.now (length frame.old) }
    requires number { number < segment_count context.now (length frame.old) }
    requires room { payload_at context.now ≤ length kept.now }
    ensures { frame.new ≡ take (number * context.now.mss) frame.old
        ++ (take (payload_at context.now) kept.now ++ drop (number * context.now.mss + payload_at context.now) frame.old) }
{
    let headers = context.payload_at();
    let start = place(context, frame.len(), number);
    frame[start..start + headers].copy_from_slice(&kept[..headers]);
}

/// How many bytes of a frame of that size stand in front of a segment that is made there.
#[inline]
pub(crate) fn place(context: &Context, size: usize, number: usize) -> usize
    requires cut { IsCut context.now size }
    requires number { number < segment_count context.now size }
    ensures place { result ≡ number * context.now.mss }
    ensures inside { result + payload_at context.now < size }
{
    piece_at(context, size, number) - context.payload_at()
}

// The payload of a segment.
#[inline]
fn piece<'a>(context: &Context, frame: &'a [u8], number: usize) -> &'a [u8]
    requires cut { IsCut context.now (length frame.now) }
    requires number { number < segment_count context.now (length frame.now) }
    ensures bytes { result.now ≡ piece context.now frame.now number }
    ensures most { payload_at context.now + length result.now ≤ longest context.now (length frame.now) }
    ensures inside { number * context.now.mss + (payload_at context.now + length result.now) ≤ length frame.now }
{
    let rest = &frame[piece_at(context, frame.len(), number)..];
    &rest[..usize::from(context.mss).min(rest.len())]
}

/// Where the payload of a segment begins in a frame of that size.
#[inline]
pub(crate) fn piece_at(context: &Context, size: usize, number: usize) -> usize
    requires cut { IsCut context.now size }
    requires number { number < segment_count context.now size }
    ensures place { result ≡ payload_at context.now + number * context.now.mss }
    ensures inside { result < size }
{
    context.payload_at() + number * usize::from(context.mss)
}

// Lays a copy of the first bytes over those from a place on.
#[inline]
fn lay_front(bytes: &mut [u8], count: usize, at: usize)
    requires { at + count ≤ length bytes.old }
    ensures { bytes.new ≡ take at bytes.old ++ (take count bytes.old ++ drop (at + count) bytes.old) }
{
    if at >= count {
        let (front, back) = bytes.split_at_mut(at);
        back[..count].copy_from_slice(&front[..count]);
    } else {
        bytes.copy_within(..count, at);
    }
}

// Makes the bytes between two places a segment, as `finish` does.
#[inline]
fn finish_within(
    bytes: &mut [u8],
    from: usize,
    to: usize,
    context: &Context,
    number: usize,
    is_last: bool,
)
    requires order { from ≤ to }
    requires inside { to ≤ length bytes.old }
    requires ip { ip_least context.now.ip ≤ context.now.iplen }
    requires tcp { from + (transport_at context.now + 20) ≤ to }
    requires few { to - from ≤ 65535 }
    requires before { number * context.now.mss < 2 ^ 64 }
    ensures { bytes.new ≡ take from bytes.old ++ (finished context.now number is_last (slice_range bytes.old from to) ++ drop to bytes.old) }
{
    finish(&mut bytes[from..to], context, number, is_last);
}

// Makes a copy of the headers, with a payload behind them, a segment.
#[tactic(auto, unfolding(crate::specs::Segment::finished))]
fn finish(bytes: &mut [u8], context: &Context, number: usize, is_last: bool)
    requires ip { ip_least context.now.ip ≤ context.now.iplen }
    requires tcp { transport_at context.now + 20 ≤ length bytes.old }
    requires few { length bytes.old ≤ 65535 }
    requires before { number * context.now.mss < 2 ^ 64 }
    ensures { bytes.new ≡ finished context.now number is_last bytes.old }
{
    // What is summed before anything is written doesn't wait for it: a processor sums on while the headers change.
    let rest = sum_from(bytes, context.transport_at() + TCP_LEAST);
    let behind = (bytes.len() - context.transport_at()) as u16;
    let partial = pseudo_sum_within(bytes, context, behind);
    finish_ip(bytes, context, number, behind);
    finish_tcp(bytes, context, number, is_last, partial, rest);
}

// The sum of the bytes from a place on.
#[inline]
fn sum_from(bytes: &[u8], place: usize) -> u16
    requires { place ≤ length bytes.now }
    ensures { result ≡ folded (word_sum (drop place bytes.now)) }
{
    sum(&bytes[place..], 0)
}

// The sum of the pseudo header of a segment.
fn pseudo_sum_within(bytes: &[u8], context: &Context, behind: u16) -> u16
    requires ip { ip_least context.now.ip ≤ context.now.iplen }
    requires inside { transport_at context.now ≤ length bytes.now }
    requires behind { behind ≡ length bytes.now - transport_at context.now }
    requires few { length bytes.now ≤ 65535 }
    ensures { result ≡ folded (word_sum (pseudo_of context.now bytes.now)) }
{
    pseudo_sum(
        &bytes[usize::from(context.maclen)..context.transport_at()],
        context.ip,
        behind,
    )
}

// The sum of a pseudo header.
fn pseudo_sum(header: &[u8], ip: Ip, behind: u16) -> u16
    requires least { ip_least ip ≤ length header.now }
    requires few { behind < 65530 }
    ensures { result ≡ folded (word_sum (pseudo_header ip header.now behind)) }
{
    let start = TCP + behind;
    match ip {
        Ip::V4 => sum(&header[IPV4_ADDRESSES..IPV4_ADDRESSES_END], start),
        Ip::V6 => sum(&header[IPV6_ADDRESSES..IPV6_ADDRESSES_END], start),
    }
}

// Makes the IP header that of a segment.
fn finish_ip(bytes: &mut [u8], context: &Context, number: usize, behind: u16)
    requires ip { ip_least context.now.ip ≤ context.now.iplen }
    requires inside { transport_at context.now ≤ length bytes.old }
    requires behind { behind ≡ length bytes.old - transport_at context.now }
    requires few { length bytes.old ≤ 65535 }
    ensures { bytes.new ≡ with_ip_of context.now number bytes.old }
{
    let header = &mut bytes[usize::from(context.maclen)..context.transport_at()];
    match context.ip {
        Ip::V4 => number_ipv4(header, number, behind),
        Ip::V6 => size_ipv6(header, behind),
    }
}

// Length, identification and checksum of an IPv4 header.
#[tactic(auto, unfolding(crate::specs::Segment::ip_of, crate::specs::Sums::header_summed), using(crate::proofs::Parts::overwritten))]
fn number_ipv4(header: &mut [u8], number: usize, behind: u16)
    requires least { 20 ≤ length header.old }
    requires few { length header.old + behind ≤ 65535 }
    ensures { header.new ≡ ip_of Ip.V4 number behind header.old }
{
    let first = load_word(header, IPV4_IDENTIFICATION);
    let identification = ((usize::from(first) + number % 65536) % 65536) as u16;
    let total = header.len() as u16 + behind;
    let sum = numbered_checksum(header, total, identification);
    store_word(header, IPV4_TOTAL, total);
    store_word(header, IPV4_IDENTIFICATION, identification);
    store_word(header, IPV4_CHECKSUM, sum);
}

// The checksum of an IPv4 header that is to have this length and identification. It is made before they are written, which the sum of the
// header would have to wait for.
fn numbered_checksum(header: &[u8], total: u16, identification: u16) -> u16
    requires { 20 ≤ length header.now }
    ensures { result ≡ checksum (header_cleared (with_word 4 identification (with_word 2 total header.now))) }
{
    let fixed = u64::from(load_word(header, IPV4_VERSION))
        + u64::from(load_word(header, IPV4_FRAGMENT))
        + u64::from(load_word(header, IPV4_TIME));
    let rest = sum_from(header, IPV4_ADDRESSES);
    u16::MAX - folded(fixed + u64::from(total) + u64::from(identification) + u64::from(rest))
}

// The length in an IPv6 header.
#[tactic(auto, unfolding(crate::specs::Segment::ip_of))]
fn size_ipv6(header: &mut [u8], behind: u16)
    requires least { 40 ≤ length header.old }
    requires few { length header.old + behind ≤ 65535 }
    ensures { (number : ℕ) → header.new ≡ ip_of Ip.V6 number behind header.old }
{
    let length = (header.len() - IPV6_LEAST) as u16 + behind;
    store_word(header, IPV6_PAYLOAD, length);
}

// Makes the TCP header that of a segment. The sum of what stands behind its first 20 bytes is known.
fn finish_tcp(
    bytes: &mut [u8],
    context: &Context,
    number: usize,
    is_last: bool,
    partial: u16,
    rest: u16,
)
    requires tcp { transport_at context.now + 20 ≤ length bytes.old }
    requires before { number * context.now.mss < 2 ^ 64 }
    requires rest { rest ≡ folded (word_sum (drop (transport_at context.now + 20) bytes.old)) }
    ensures { bytes.new ≡ with_tcp_of context.now number is_last partial bytes.old }
{
    number_tcp(
        &mut bytes[context.transport_at()..],
        context,
        number,
        is_last,
        partial,
        rest,
    );
}

// Sequence number, flags and checksum of a TCP header with its payload.
#[tactic(auto, unfolding(crate::specs::Segment::tcp_of, crate::specs::Sums::tcp_summed), using(crate::proofs::Parts::overwritten))]
fn number_tcp(
    bytes: &mut [u8],
    context: &Context,
    number: usize,
    is_last: bool,
    partial: u16,
    rest: u16,
)
    requires tcp { 20 ≤ length bytes.old }
    requires before { number * context.now.mss < 2 ^ 64 }
    requires rest { rest ≡ folded (word_sum (drop 20 bytes.old)) }
    ensures { bytes.new ≡ tcp_of context.now number is_last partial bytes.old }
{
    move_sequence(bytes, number * usize::from(context.mss));
    let flags = flags_of(number == 0, is_last, bytes[TCP_FLAGS]);
    let sum = marked_checksum(bytes, flags, partial, rest);
    bytes[TCP_FLAGS] = flags;
    store_word(bytes, TCP_CHECKSUM, sum);
}

// The checksum of a TCP header that is to have these flags and this partial sum, with its payload; of what stands behind its first 20 bytes
// the sum is known. It is made before they are written, as that of an IPv4 header is.
fn marked_checksum(bytes: &[u8], flags: u8, partial: u16, rest: u16) -> u16
    requires least { 20 ≤ length bytes.now }
    requires rest { rest ≡ folded (word_sum (drop 20 bytes.now)) }
    ensures { result ≡ checksum (with_word 16 partial (slice_set bytes.now 13 flags)) }
{
    let ports = u64::from(load_word(bytes, TCP_SOURCE))
        + u64::from(load_word(bytes, TCP_DESTINATION));
    let numbers = u64::from(load_word(bytes, TCP_SEQUENCE))
        + u64::from(load_word(bytes, TCP_SEQUENCE + 2))
        + u64::from(load_word(bytes, TCP_ACKNOWLEDGMENT))
        + u64::from(load_word(bytes, TCP_ACKNOWLEDGMENT + 2));
    let marks = u64::from(bytes[TCP_OFFSET]) * 256 + u64::from(flags);
    let others = u64::from(load_word(bytes, TCP_WINDOW)) + u64::from(load_word(bytes, TCP_URGENT));
    let known = u64::from(partial) + u64::from(rest);
    u16::MAX - folded(ports + numbers + marks + others + known)
}

// Moves the sequence number on.
#[tactic(auto, unfolding(crate::specs::Segment::with_sequence))]
fn move_sequence(bytes: &mut [u8], before: usize)
    requires { 20 ≤ length bytes.old }
    ensures { bytes.new ≡ with_sequence before bytes.old }
{
    let first = BigEndian::read_u32(&bytes[TCP_SEQUENCE..]);
    let moved = (u64::from(first) + before as u64 % 0x1_0000_0000) % 0x1_0000_0000;
    BigEndian::write_u32(&mut bytes[TCP_SEQUENCE..TCP_SEQUENCE + 4], moved as u32);
}

// The flags of a segment.
#[tactic(auto, unfolding(crate::specs::Segment::flags_of))]
fn flags_of(is_first: bool, is_last: bool, flags: u8) -> u8
    ensures { result ≡ flags_of is_first is_last flags }
{
    let first_alone = if is_first { 0 } else { CWR };
    let last_alone = if is_last { 0 } else { PSH + FIN };
    flags & (255 - first_alone - last_alone)
}
