//! Ethernet addresses.
ghost use Rattle.std.specs.Prelude.{◌≡◌};
ghost use Rattle.byteorder.specs.Endian.{little_number};
ghost use Rattle.wire_frame.specs.Address.{kind_of};

use crate::has_bit;
use byteorder::{ByteOrder, LittleEndian};

/// An Ethernet address, its bytes in the order in which they are sent.
#[derive(Clone, Copy, Debug, PartialEq, Eq)]
pub struct Mac(pub [u8; 6]);

/// Whom an address names (IEEE 802, group and broadcast addresses).
#[derive(Clone, Copy, Debug, PartialEq, Eq)]
pub enum AddressKind {
    /// All stations: six bytes 0xFF.
    Broadcast,
    /// A group of stations: bit 0 of the first byte is 1, and the address is not broadcast.
    Multicast,
    /// One station.
    Unicast,
}

impl Mac {
    /// The address as a number below 2^48, its first byte lowest, as the receive address registers hold it
    /// (82599 datasheet, RAL and RAH).
    #[inline]
    pub fn number(self) -> u64
        ensures { result ≡ little_number 6 self.0 }
    {
        LittleEndian::read_u48(&self.0)
    }

    /// Whom the address names.
    #[inline]
    pub fn kind(self) -> AddressKind
        ensures { result ≡ kind_of self.0 }
    {
        if !has_bit(u64::from(self.0[0]), 0) {
            AddressKind::Unicast
        } else if self.number() == 0xFFFF_FFFF_FFFF {
            AddressKind::Broadcast
        } else {
            AddressKind::Multicast
        }
    }
}
