//! One function: its policy, and what its guest has asked for.
ghost use Rattle.std.specs.Prelude.{◌≡◌, ◌<◌, ◌≤◌, IfSome, Some, length};
ghost use Rattle.mailbox.specs.Address.{low_part, high_part};
ghost use Rattle.mailbox.specs.Slot.{guest_of, is_up, has_link, is_on, has_port, only, begun, first_of, second_of, holds, owns, joined_by, has_joined, with_guest, granted_to, has_queues, has_modes};

use crate::address::{Address, high_part, is_number, low_part};
use crate::message::{Api, Multicast};
use crate::policy::Policy;
use wire_frame::has_bit;

/// A function's guest, from its first RESET on: what it has asked for so far.
#[derive(Clone, Copy, Debug)]
pub struct Guest {
    /// The address that it uses.
    pub address: Address,
    /// One more address.
    pub second: Option<Address>,
    /// The VLANs that its driver joined: bit k is for place k of the host's ids.
    pub joined: u64,
    /// It has asked for groups.
    pub groups: bool,
    /// Which multicast it wants.
    pub multicast: Multicast,
    /// How long it wants its frames to be, with the FCS.
    pub frame_length: u32,
    /// The version of the messages.
    pub api: Api,
}

/// One function.
#[derive(Clone, Copy, Debug)]
pub enum Slot {
    /// No policy names it.
    Absent,
    /// A policy names it.
    Admitted {
        /// What its guest may have.
        policy: Policy,
        /// Its guest, while the function is up.
        guest: Option<Guest>,
    },
}

impl Guest {
    /// A guest that has asked for nothing yet, as RESET leaves it: it is in VLAN 0, where the policy has that as one to join, as
    /// each function of Linux's is that has no port VLAN. So frames with a tag of priority alone come to it and go from it.
    pub(crate) fn begun(ids: &[u16], policy: &Policy) -> Guest
        requires { length ids.now ≤ 64 }
        ensures { result ≡ begun ids.now policy.now }
    {
        Guest {
            address: Address::of(policy.address),
            second: None,
            joined: only(policy.vlans.place_to_join(ids, 0)),
            groups: false,
            multicast: Multicast::Asked,
            frame_length: 1522,
            api: Api::V1_0,
        }
    }

    /// Whether it may ask for queues: from version 1.1 on.
    pub(crate) fn has_queues(&self) -> bool
        ensures { result ≡ has_queues self.now.api }
    {
        match self.api {
            Api::V1_0 => false,
            Api::V1_1 | Api::V1_2 | Api::V1_3 => true,
        }
    }

    /// Whether it may ask for a multicast mode, and for the link: from version 1.2 on.
    pub(crate) fn has_modes(&self) -> bool
        ensures { result ≡ has_modes self.now.api }
    {
        match self.api {
            Api::V1_0 | Api::V1_1 => false,
            Api::V1_2 | Api::V1_3 => true,
        }
    }

    /// Bytes 0 to 3 of the address that it uses.
    pub(crate) fn low_word(&self) -> u32
        ensures { result ≡ low_part (Some self.now.address) }
    {
        low_part(Some(self.address))
    }

    /// Bytes 4 and 5 of that address.
    pub(crate) fn high_word(&self) -> u32
        ensures { result ≡ high_part (Some self.now.address) }
    {
        high_part(Some(self.address))
    }

    // Whether it joined the VLAN at a place.
    fn has_joined(&self, place: u32) -> bool
        requires { place < 64 }
        ensures { result ≡ joined_by self.now place }
    {
        has_bit(self.joined, place)
    }
}

impl Slot {
    /// Its guest.
    pub(crate) fn guest(&self) -> Option<Guest>
        ensures { result ≡ guest_of self.now }
    {
        match *self {
            Slot::Absent => None,
            Slot::Admitted { policy: _, guest } => guest,
        }
    }

    /// The same function with another guest, or with none.
    pub(crate) fn with_guest(&self, guest: Option<Guest>) -> Slot
        ensures { result ≡ with_guest self.now guest }
    {
        match *self {
            Slot::Absent => Slot::Absent,
            Slot::Admitted { policy, guest: _ } => Slot::Admitted { policy, guest },
        }
    }

    /// The same function after its guest was granted a message, which left it so, or was refused.
    pub(crate) fn granted_to(&self, granted: &Option<Guest>) -> Slot
        ensures { result ≡ granted_to self.now granted.now }
    {
        match granted {
            None => *self,
            Some(guest) => self.with_guest(Some(*guest)),
        }
    }

    /// Whether it is up.
    pub(crate) fn is_up(&self) -> bool
        ensures { result ≡ is_up self.now }
    {
        self.guest().is_some()
    }

    /// Whether the administrator has its link up.
    pub(crate) fn has_link(&self) -> bool
        ensures { result ≡ has_link self.now }
    {
        match self {
            Slot::Absent => false,
            Slot::Admitted { policy, guest: _ } => policy.link_up,
        }
    }

    /// Whether it may receive and transmit.
    pub(crate) fn is_on(&self) -> bool
        ensures { result ≡ is_on self.now }
    {
        self.is_up() && self.has_link()
    }

    /// Whether it has a port VLAN.
    pub(crate) fn has_port(&self) -> bool
        ensures { result ≡ has_port self.now }
    {
        match self {
            Slot::Absent => false,
            Slot::Admitted { policy, guest: _ } => policy.vlans.is_port(),
        }
    }

    /// The address that its guest uses.
    pub(crate) fn address(&self) -> Option<Address>
        ensures { result ≡ first_of (guest_of self.now) }
    {
        first_of(self.guest())
    }

    /// The second address of its guest.
    pub(crate) fn second(&self) -> Option<Address>
        ensures { result ≡ second_of (guest_of self.now) }
    {
        second_of(self.guest())
    }

    /// Whether the address is its permanent one, the one in use, or its second.
    #[tactic(auto, unfolding(crate::specs::Slot::holds))]
    pub(crate) fn holds(&self, address: Address) -> bool
        ensures { result ≡ holds self.now address }
    {
        match self {
            Slot::Absent => false,
            Slot::Admitted { policy, guest: _ } => {
                policy.owns(address)
                    || is_number(self.address(), address)
                    || is_number(self.second(), address)
            }
        }
    }

    /// Whether the address is its permanent one.
    pub(crate) fn owns(&self, address: Address) -> bool
        ensures { result ≡ owns self.now address }
    {
        match self {
            Slot::Absent => false,
            Slot::Admitted { policy, guest: _ } => policy.owns(address),
        }
    }

    /// Whether it is up and in the VLAN at a place: by its port, or since its driver joined.
    pub(crate) fn has_joined(&self, place: u32) -> bool
        requires { place < 64 }
        ensures { result ≡ has_joined self.now place }
    {
        match self {
            Slot::Absent
            | Slot::Admitted {
                policy: _,
                guest: None,
            } => false,
            Slot::Admitted {
                policy,
                guest: Some(guest),
            } => { policy.vlans.is_port_at(place) || guest.has_joined(place) }
        }
    }
}

// The set of that place alone, or of none.
fn only(place: Option<u32>) -> u64
    requires { IfSome place (λ k. k < 64) }
    ensures { result ≡ only place }
{
    match place {
        None => 0,
        Some(place) => 1 << place,
    }
}

fn first_of(guest: Option<Guest>) -> Option<Address>
    ensures { result ≡ first_of guest }
{
    match guest {
        None => None,
        Some(guest) => Some(guest.address),
    }
}

fn second_of(guest: Option<Guest>) -> Option<Address>
    ensures { result ≡ second_of guest }
{
    match guest {
        None => None,
        Some(guest) => guest.second,
    }
}
