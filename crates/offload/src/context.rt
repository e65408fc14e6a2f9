//! The advanced transmit context descriptor: what a driver says once of the frames that follow (82599 datasheet, 7.2.3.2.3).
ghost use Rattle.std.specs.Prelude.{◌≡◌, ◌+◌, ◌<◌};
ghost use Rattle.offload.specs.Context.{context_of, transport_of, transport_at, payload_at};

use wire_frame::{field, has_bit};

/// The lowest bit of IPLEN in the first word, and how many bits it has.
const IPLEN: u32 = 0;

const IPLEN_SIZE: u32 = 9;
/// The same of MACLEN.
const MACLEN: u32 = 9;

const MACLEN_SIZE: u32 = 7;
/// The same of VLAN.
const VLAN: u32 = 16;

const VLAN_SIZE: u32 = 16;
/// The bit IPV4 of TUCMD, in the second word.
const IPV4: u32 = 10;
/// The lowest bit of L4T in TUCMD, and how many bits it has.
const L4T: u32 = 11;

const L4T_SIZE: u32 = 2;
/// The lowest bit of IDX. Those above it are not looked at, since a queue has two contexts.
const IDX: u32 = 36;

const IDX_SIZE: u32 = 1;
/// The lowest bit of L4LEN, and how many bits it has.
const L4LEN: u32 = 40;

const L4LEN_SIZE: u32 = 8;
/// The same of MSS.
const MSS: u32 = 48;

const MSS_SIZE: u32 = 16;

/// Which version of IP a frame has.
#[derive(Clone, Copy, Debug, PartialEq, Eq)]
pub enum Ip {
    /// IPv4 (RFC 791).
    V4,
    /// IPv6 (RFC 8200).
    V6,
}

/// What stands behind the IP header.
#[derive(Clone, Copy, Debug, PartialEq, Eq)]
pub enum Transport {
    /// A UDP header (RFC 768).
    Udp,
    /// A TCP header (RFC 9293).
    Tcp,
    /// An SCTP header. Its CRC is not one of the sums here.
    Sctp,
    /// The number that stands for no protocol.
    Reserved,
}

/// What a context descriptor says. Lengths count bytes. Nothing is known of whether they fit a frame.
#[derive(Clone, Copy, Debug)]
pub struct Context {
    /// IPLEN: how long the IP header is, with its options or extension headers, 0 to 511.
    pub iplen: u16,
    /// MACLEN: how much stands in front of the IP header, 0 to 127.
    pub maclen: u8,
    /// VLAN: the tag control that is inserted where a data descriptor asks for it.
    pub vlan: u16,
    /// TUCMD.IPV4.
    pub ip: Ip,
    /// TUCMD.L4T.
    pub transport: Transport,
    /// IDX: which of the two contexts of its queue this is, 0 or 1.
    pub index: u8,
    /// L4LEN: how long the TCP header is, with its options, 0 to 255. It counts for segmentation alone.
    pub l4len: u8,
    /// MSS: the most bytes of payload that a segment has, 0 to 65,535.
    pub mss: u16,
}

impl Context {
    /// Reads a descriptor from its two words. Any two words are a context: whether they are those of a context descriptor (DTYP and DEXT)
    /// the caller has to look at.
    #[inline]
    #[tactic(auto, unfolding(crate::specs::Context::context_of))]
    pub fn decode(first: u64, second: u64) -> Context
        ensures context { result ≡ context_of first second }
        ensures iplen { result.iplen < 512 }
        ensures maclen { result.maclen < 128 }
        ensures index { result.index < 2 }
    {
        Context {
            iplen: field(first, IPLEN, IPLEN_SIZE) as u16,
            maclen: field(first, MACLEN, MACLEN_SIZE) as u8,
            vlan: field(first, VLAN, VLAN_SIZE) as u16,
            ip: if has_bit(second, IPV4) {
                Ip::V4
            } else {
                Ip::V6
            },
            transport: transport_of(field(second, L4T, L4T_SIZE)),
            index: field(second, IDX, IDX_SIZE) as u8,
            l4len: field(second, L4LEN, L4LEN_SIZE) as u8,
            mss: field(second, MSS, MSS_SIZE) as u16,
        }
    }

    /// Where the transport header begins: how many bytes of a frame stand in front of it.
    #[inline]
    pub fn transport_at(&self) -> usize
        ensures { result ≡ transport_at self.now }
    {
        usize::from(self.maclen) + usize::from(self.iplen)
    }

    /// Where the payload behind a TCP header begins.
    #[inline]
    pub fn payload_at(&self) -> usize
        ensures { result ≡ payload_at self.now }
    {
        self.transport_at() + usize::from(self.l4len)
    }
}

// The protocol with a number.
#[inline]
fn transport_of(number: u64) -> Transport
    ensures { result ≡ transport_of number }
{
    match number {
        0 => Transport::Udp,
        1 => Transport::Tcp,
        2 => Transport::Sctp,
        _ => Transport::Reserved,
    }
}
