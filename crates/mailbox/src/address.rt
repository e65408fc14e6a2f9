//! Addresses, as words of messages and registers hold them.
ghost use Rattle.std.specs.Prelude.{◌≡◌, ◌==◌};
ghost use Rattle.mailbox.specs.Address.{address_from, number_of, is_number, is_unicast, low_part, high_part};

use std::marker::Model;
use wire_frame::Mac;

/// An Ethernet address of 48 bits, its first byte lowest, as the words of a message and RAL and RAH hold it.
///
/// A contract sees the number.
#[derive(Clone, Copy, Debug, PartialEq, Eq)]
pub struct Address {
    number: u64,
}

impl Model for Address {
    ghost use Rattle.std.specs.Prelude.{ℕ};

    ghost Value = { ℕ };

    ghost view = { λ a. a.number };

    ghost inverse = { λ n. record { number = n } };
}

impl Address {
    /// The address of these bytes.
    pub fn of(mac: Mac) -> Address
        ensures { result ≡ number_of mac }
    {
        Address {
            number: mac.number(),
        }
    }

    /// The address of which words 1 and 2 of a message have the bytes: 0 to 3 in word 1, 4 and 5 in bits 15:0 of word 2.
    pub(crate) fn of_words(first: u32, second: u32) -> Address
        ensures { result ≡ address_from first second }
    {
        Address {
            number: u64::from(first) + u64::from(second % 0x1_0000) * 0x1_0000_0000,
        }
    }

    /// Whether it is that one.
    pub(crate) fn is(self, other: Address) -> bool
        ensures { result ≡ (self == other) }
    {
        self.number == other.number
    }

    /// Whether it is one station's, and not 0.
    pub(crate) fn is_unicast(self) -> bool
        ensures { result ≡ is_unicast self }
    {
        self.number < 0x1_0000_0000_0000 && self.number % 2 == 0 && self.number != 0
    }
}

/// Whether there is an address, and it is that one.
pub(crate) fn is_number(one: Option<Address>, address: Address) -> bool
    ensures { result ≡ is_number one address }
{
    match one {
        None => false,
        Some(one) => one.is(address),
    }
}

/// Bytes 0 to 3.
pub(crate) fn low_part(address: Option<Address>) -> u32
    ensures { result ≡ low_part address }
{
    match address {
        None => 0,
        Some(address) => (address.number % 0x1_0000_0000) as u32,
    }
}

/// Bytes 4 and 5.
pub(crate) fn high_part(address: Option<Address>) -> u32
    ensures { result ≡ high_part address }
{
    match address {
        None => 0,
        Some(address) => (address.number / 0x1_0000_0000 % 0x1_0000) as u32,
    }
}
