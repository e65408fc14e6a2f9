//! The registers of the physical function, as they are for a host.
ghost use Rattle.std.specs.Prelude.{◌≡◌, ◌+◌, ◌*◌, ◌^◌, ◌<◌, true, length, if◌then◌else◌};
ghost use Rattle.pool_filter.specs.Own.{contains};
ghost use Rattle.mailbox.specs.Words.{mask_from, is_in_set, reaches, entry, low_word, valid, high_word, table_word, member_word, up_word, multicast_flag, flags_word, inserted, port_word};

use crate::address::{Address, high_part, low_part};
use crate::host::Host;
use crate::message::Multicast;
use crate::slot::{Guest, Slot};
use pool_filter::PoolFlags;
use pool_filter::registers::{ALWAYS, PORT_VLAN_RULE};

/// A set of pools or of VLAN ids, by their numbers.
#[derive(Clone, Copy, Debug, PartialEq, Eq)]
pub enum Set {
    /// The pools whose functions are up, and so are their links.
    Up,
    /// The pools that joined the VLAN at a place.
    Joined(u32),
    /// The ids that the host has.
    Named,
}

/// Sets, as words.
impl Host {
    // Whether the set has the number.
    fn is_in(&self, set: Set, number: u32) -> bool
        requires { reaches set number ≡ true }
        ensures { result ≡ is_in_set self.now set number }
    {
        match set {
            Set::Up => self.slot_at(number).is_on(),
            Set::Joined(place) => self.slot_at(number).has_joined(place),
            Set::Named => is_named(self.ids(), number),
        }
    }

    // The numbers 32 i to 32 i + 31, bit by bit.
    #[tactic(auto, using(crate::proofs::Masks::mask_none))]
    fn mask(&self, set: Set, i: u32) -> u32
        requires set { reaches set (32 * i + 31) ≡ true }
        requires below { i < 128 }
        ensures { result ≡ mask_from (is_in_set self.now set) (32 * i) 32 }
    {
        let mut word = 0u32;
        for done in 0..32 {
            let bit = self.is_in(set, 32 * i + 31 - done);
            word = one_more(word, bit);
        }
        word
    }

    /// The functions that are up with their links, of pools 32 i to 32 i + 31.
    pub(crate) fn up_word(&self, i: u32) -> u32
        requires { i < 2 }
        ensures { result ≡ up_word self.now i }
    {
        self.mask(Set::Up, i)
    }

    /// Word i of VFTA.
    pub(crate) fn table_word(&self, i: u32) -> u32
        requires { i < 128 }
        ensures { result ≡ table_word self.now i }
    {
        self.mask(Set::Named, i)
    }

    /// Word i of VLVFB.
    pub(crate) fn member_word(&self, i: u32) -> u32
        requires { i < 128 }
        ensures { result ≡ member_word self.now i }
    {
        if (i as usize) < 2 * self.ids().len() {
            self.mask(Set::Joined(i / 2), i % 2)
        } else {
            0
        }
    }
}

/// Receive address entries.
impl Host {
    // The address of entry e.
    fn entry(&self, e: u32) -> Option<Address>
        requires { e < 128 }
        ensures { result ≡ entry self.now e }
    {
        if e < 64 {
            self.slot_at(e).address()
        } else {
            self.slot_at(e - 64).second()
        }
    }

    /// The word of RAL of entry e.
    pub(crate) fn low_word(&self, e: u32) -> u32
        requires { e < 128 }
        ensures { result ≡ low_word self.now e }
    {
        low_part(self.entry(e))
    }

    /// The word of RAH of entry e.
    pub(crate) fn high_word(&self, e: u32) -> u32
        requires { e < 128 }
        ensures { result ≡ high_word self.now e }
    {
        valid(self.entry(e))
    }
}

/// Words of one function.
impl Slot {
    /// Its word of VMOLR.
    pub(crate) fn flags_word(&self) -> u32
        ensures { result ≡ flags_word self.now }
    {
        match self.guest() {
            None => 0,
            Some(guest) => {
                let untagged = if self.has_port() {
                    0
                } else {
                    PoolFlags::AUPE.0
                };
                PoolFlags::BAM.0 + untagged + multicast_flag(guest)
            }
        }
    }

    /// Its word of VMVIR.
    pub(crate) fn port_word(&self, ids: &[u16]) -> u32
        ensures { result ≡ port_word ids.now self.now }
    {
        match self {
            Slot::Absent
            | Slot::Admitted {
                policy: _,
                guest: None,
            } => 0,
            Slot::Admitted {
                policy,
                guest: Some(_),
            } => inserted(policy.vlans.port(ids)),
        }
    }
}

// MPE, where the guest wants groups or all multicast.
fn multicast_flag(guest: Guest) -> u32
    ensures { result ≡ multicast_flag guest }
{
    if guest.groups || guest.multicast == Multicast::All {
        PoolFlags::MPE.0
    } else {
        0
    }
}

// The word with its bits one higher, and one more below them.
fn one_more(word: u32, bit: bool) -> u32
    requires { word < 2 ^ 31 }
    ensures { result ≡ 2 * word + (if bit then 1 else 0) }
{
    2 * word + if bit { 1 } else { 0 }
}

// AV, and bytes 4 and 5 of an address.
pub(crate) fn valid(address: Option<Address>) -> u32
    ensures { result ≡ valid address }
{
    if address.is_none() {
        0
    } else {
        (1 << addr_tables::registers::VALID) + high_part(address)
    }
}

// The tag that is always inserted.
fn inserted(port: Option<u16>) -> u32
    ensures { result ≡ inserted port }
{
    match port {
        None => 0,
        Some(id) => (ALWAYS << PORT_VLAN_RULE) + u32::from(id % 4096),
    }
}

// Whether the ids have the number.
fn is_named(ids: &[u16], number: u32) -> bool
    ensures { result ≡ contains ids.now number }
{
    ids.iter().any(|id| u32::from(*id) == number)
}
