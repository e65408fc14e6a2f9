//! Which frames can be cut into segments, and into how many.
ghost use Rattle.std.specs.Prelude.{◌≡◌, ◌+◌, ◌-◌, ◌*◌, ◌/◌, ◌<◌, ◌≤◌, ◌++◌, ◌==◌, nat_lt, length, drop, take, slice_range, IfOk, Option, None};
ghost use Rattle.std.specs.Result.{result_err};
ghost use Rattle.offload.specs.Context.{transport_at, payload_at};
ghost use Rattle.offload.specs.Cut.{Cutting, IsCut, ip_least, payload_size, longest, segment_count, lengths_refusal, cut_refusal};
ghost use Rattle.offload.specs.Segment.{segment_of};

use crate::context::{Context, Ip, Transport};
use crate::segment::{make_segment, piece_at, place, put_back};
use std::marker::Model;
use thiserror::Error;

/// How short an IPv4 header can be (RFC 791, 3.1).
const IPV4_LEAST: u16 = 20;
/// How long an IPv6 header is without extension headers (RFC 8200, 3).
const IPV6_LEAST: u16 = 40;
/// How short a TCP header can be (RFC 9293, 3.1).
const TCP_LEAST: u8 = 20;

/// Why a frame can't be cut into segments. The first one that holds is told.
#[derive(Clone, Copy, Debug, PartialEq, Eq, Error)]
pub enum NotCut {
    /// The context's L4T is not TCP.
    #[error("segments are made of TCP alone")]
    NotTcp,
    /// IPLEN is below 20 for IPv4, or below 40 for IPv6.
    #[error("the IP header is too short")]
    ShortIpHeader,
    /// L4LEN is below 20.
    #[error("the TCP header is too short")]
    ShortTcpHeader,
    /// The frame ends within its headers.
    #[error("the headers don't lie in the frame")]
    HeadersOutside,
    /// There is nothing behind the headers.
    #[error("there is no payload")]
    NoPayload,
    /// MSS is 0.
    #[error("a segment would have no payload")]
    NoMss,
    /// The longest segment is longer than a frame may be.
    #[error("a segment would be too long")]
    OverLimit,
}

/// A frame that can be cut into segments: what the context says, and how many bytes the frame has. The frame itself is lent to each call.
#[derive(Clone, Copy, Debug)]
pub struct Cut {
    context: Context,
    size: usize,
}

impl Model for Cut {
    ghost use Rattle.offload.specs.Cut.{Cutting, IsCut};

    ghost Value = { Cutting };

    ghost view = { λ c. record { context = c.context; size = c.size } };

    ghost invariant = { λ c. IsCut c.context c.size };

    ghost inverse = { λ c. record { context = c.context; size = c.size } };
}

impl Cut {
    /// How a frame of `size` bytes is cut by a context, where no segment may have more than `limit` bytes; or why it can't be.
    pub fn of(context: &Context, size: usize, limit: u16) -> Result<Cut, NotCut>
        ensures refused { result_err result ≡ cut_refusal context.now size limit }
        ensures cut { IfOk result (λ c. c ≡ record { context = context.now; size = size }) }
        ensures most { IfOk result (λ c. longest c.context c.size ≤ limit) }
    {
        match refusal(context, size, limit) {
            Some(why) => Err(why),
            None => Ok(Cut {
                context: *context,
                size,
            }),
        }
    }

    /// How many segments there are, 1 at least.
    pub fn count(&self) -> usize
        ensures { result ≡ segment_count self.now.context self.now.size }
    {
        segment_count(&self.context, self.size)
    }

    /// Whether there is a segment of this number, from 0 on.
    #[inline]
    pub fn has(&self, number: usize) -> bool
        ensures { result ≡ nat_lt number (segment_count self.now.context self.now.size) }
    {
        has(&self.context, self.size, number)
    }

    /// Whether it is the last one.
    #[inline]
    pub fn is_last(&self, number: usize) -> bool
        requires { number < segment_count self.now.context self.now.size }
        ensures last { result ≡ (number + 1 == segment_count self.now.context self.now.size) }
        ensures few { number + 1 ≤ self.now.size }
    {
        is_last(&self.context, self.size, number)
    }

    /// How many bytes the longest of them has, 41 to 65,535.
    pub fn longest(&self) -> usize
        ensures longest { result ≡ longest self.now.context self.now.size }
        ensures most { result ≤ 65535 }
    {
        longest(&self.context, self.size)
    }

    /// How many bytes of the frame stand in front of its payload, 40 at least: how much room [`Cut::segment`] wants.
    #[inline]
    pub fn headers(&self) -> usize
        ensures headers { result ≡ payload_at self.now.context }
        ensures most { result ≤ longest self.now.context self.now.size }
    {
        self.context.payload_at()
    }

    /// How many bytes of the frame stand in front of a segment, where [`Cut::segment`] makes it.
    #[inline]
    pub fn place(&self, number: usize) -> usize
        requires { number < segment_count self.now.context self.now.size }
        ensures { result ≡ number * self.now.context.mss }
    {
        place(&self.context, self.size, number)
    }

    /// Makes a segment of the frame, by its number from 0 on, and tells how many bytes it has. It is made among the bytes of the frame, from
    /// [`Cut::place`] on: its payload stays where it is, and its headers are laid in front of it. What stood there goes into the front of a
    /// room, and [`Cut::put_back`] makes the bytes those of the frame again.
    ///
    /// A segment has the headers of the frame, and at most MSS bytes of its payload, those behind what the segments before it have. Lengths
    /// and checksums are its own. IPv4's identification rises by one with each segment, TCP's sequence number by the payload; PSH and FIN
    /// stand in the last one alone, CWR in the first one alone.
    pub fn segment(&self, frame: &mut [u8], number: usize, kept: &mut [u8]) -> usize
        requires frame { length frame.old ≡ self.now.size }
        requires number { number < segment_count self.now.context self.now.size }
        requires room { payload_at self.now.context ≤ length kept.old }
        ensures segment { slice_range frame.new (number * self.now.context.mss) (number * self.now.context.mss + result)
            ≡ segment_of self.now.context frame.old number }
        ensures whole { take (number * self.now.context.mss) frame.new
            ++ (take (payload_at self.now.context) kept.new ++ drop (number * self.now.context.mss + payload_at self.now.context) frame.new)
            ≡ frame.old }
        ensures rest { drop (payload_at self.now.context) kept.new ≡ drop (payload_at self.now.context) kept.old }
        ensures room { length kept.new ≡ length kept.old }
        ensures inside { number * self.now.context.mss + result ≤ length frame.new }
        ensures same { length frame.new ≡ length frame.old }
        ensures length { result ≡ length (segment_of self.now.context frame.old number) }
        ensures most { result ≤ longest self.now.context self.now.size }
    {
        make_segment(&self.context, frame, number, kept)
    }

    /// Puts back what [`Cut::segment`] took out of the frame for a segment, from the front of the room that has it.
    pub fn put_back(&self, frame: &mut [u8], number: usize, kept: &[u8])
        requires frame { length frame.old ≡ self.now.size }
        requires number { number < segment_count self.now.context self.now.size }
        requires room { payload_at self.now.context ≤ length kept.now }
        ensures { frame.new ≡ take (number * self.now.context.mss) frame.old
            ++ (take (payload_at self.now.context) kept.now ++ drop (number * self.now.context.mss + payload_at self.now.context) frame.old) }
    {
        put_back(&self.context, frame, number, kept);
    }
}

// Why a frame can't be cut.
#[tactic(auto, unfolding(crate::specs::Cut::cut_refusal))]
fn refusal(context: &Context, size: usize, limit: u16) -> Option<NotCut>
    ensures value { result ≡ cut_refusal context.now size limit }
    ensures cut { result ≡ None → IsCut context.now size }
    ensures most { result ≡ None → longest context.now size ≤ limit }
{
    match context.transport {
        Transport::Tcp => lengths_refusal(context, size, limit),
        Transport::Udp | Transport::Sctp | Transport::Reserved => Some(NotCut::NotTcp),
    }
}

fn lengths_refusal(context: &Context, size: usize, limit: u16) -> Option<NotCut>
    ensures value { result ≡ lengths_refusal context.now size limit }
    ensures cut { result ≡ None → IsCut context.now size }
    ensures most { result ≡ None → longest context.now size ≤ limit }
{
    if context.iplen < ip_least(context.ip) {
        Some(NotCut::ShortIpHeader)
    } else if context.l4len < TCP_LEAST {
        Some(NotCut::ShortTcpHeader)
    } else if size < context.payload_at() {
        Some(NotCut::HeadersOutside)
    } else if size == context.payload_at() {
        Some(NotCut::NoPayload)
    } else if context.mss == 0 {
        Some(NotCut::NoMss)
    } else if usize::from(limit) < longest(context, size) {
        Some(NotCut::OverLimit)
    } else {
        None
    }
}

// The fewest bytes of an IP header.
#[inline]
fn ip_least(ip: Ip) -> u16
    ensures { result ≡ ip_least ip }
{
    match ip {
        Ip::V4 => IPV4_LEAST,
        Ip::V6 => IPV6_LEAST,
    }
}

// The bytes of the longest segment.
#[inline]
fn longest(context: &Context, size: usize) -> usize
    requires { payload_at context.now ≤ size }
    ensures { result ≡ longest context.now size }
{
    context.payload_at() + usize::from(context.mss).min(size - context.payload_at())
}

// How many segments a frame of that size gives.
#[inline]
#[tactic(auto, unfolding(crate::specs::Cut::segment_count))]
fn segment_count(context: &Context, size: usize) -> usize
    requires payload { payload_at context.now < size }
    requires mss { 0 < context.now.mss }
    ensures { result ≡ segment_count context.now size }
{
    let mss = usize::from(context.mss);
    (size - context.payload_at() - 1) / mss + 1
}

// Whether it gives one of this number. A product takes less time than a quotient.
#[inline]
fn has(context: &Context, size: usize, number: usize) -> bool
    requires payload { payload_at context.now < size }
    requires mss { 0 < context.now.mss }
    ensures { result ≡ nat_lt number (segment_count context.now size) }
{
    let mss = usize::from(context.mss);
    number as u128 * (mss as u128) < (size - context.payload_at()) as u128
}

/// Whether it is the last one.
#[inline]
pub(crate) fn is_last(context: &Context, size: usize, number: usize) -> bool
    requires cut { IsCut context.now size }
    requires number { number < segment_count context.now size }
    ensures last { result ≡ (number + 1 == segment_count context.now size) }
    ensures few { number + 1 ≤ size }
{
    size - piece_at(context, size, number) <= usize::from(context.mss)
}
