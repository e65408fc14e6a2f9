//! What a guest keeps under another policy.
ghost use Rattle.std.specs.Prelude.{◌≡◌};
ghost use Rattle.mailbox.specs.Policy.{is_granted};
ghost use Rattle.mailbox.specs.Keeping.{kept_address, kept_second, places_to_join, kept_multicast, kept_guest, under, address_without, second_without, guest_without, without_address};

use crate::address::Address;
use crate::message::Multicast;
use crate::policy::{Policy, VlanPolicy};
use crate::slot::{Guest, Slot};

impl Slot {
    /// The function under a policy: a function that was up stays up, and its guest keeps what the policy grants.
    pub(crate) fn under(&self, policy: &Policy) -> Slot
        ensures { result ≡ under policy.now self.now }
    {
        let guest = match self.guest() {
            None => None,
            Some(guest) => Some(policy.kept_guest(guest)),
        };
        Slot::Admitted {
            policy: *policy,
            guest,
        }
    }
}

impl Slot {
    /// The function after it gave an address up that its guest chose.
    pub(crate) fn without_address(&self, address: Address) -> Slot
        ensures { result ≡ without_address address self.now }
    {
        match *self {
            Slot::Admitted {
                policy,
                guest: Some(guest),
            } => {
                let guest = Some(policy.guest_without(address, guest));
                Slot::Admitted { policy, guest }
            }
            other => other,
        }
    }
}

// The second address, or none.
fn second_without(address: Address, second: Option<Address>) -> Option<Address>
    ensures { result ≡ second_without address second }
{
    match second {
        None => None,
        Some(used) => { if used.is(address) { None } else { second } }
    }
}

impl Policy {
    // The guest without an address that it chose.
    fn guest_without(&self, address: Address, guest: Guest) -> Guest
        ensures { result ≡ guest_without self.now address guest }
    {
        Guest {
            address: self.address_without(address, guest.address),
            second: second_without(address, guest.second),
            ..guest
        }
    }

    // The address in use, or the permanent one in its place.
    fn address_without(&self, address: Address, used: Address) -> Address
        ensures { result ≡ address_without self.now address used }
    {
        if used.is(address) {
            Address::of(self.address)
        } else {
            used
        }
    }

    // What the guest keeps.
    fn kept_guest(&self, guest: Guest) -> Guest
        ensures { result ≡ kept_guest self.now guest }
    {
        Guest {
            address: self.kept_address(guest.address),
            second: self.kept_second(guest.second),
            joined: guest.joined & self.vlans.places_to_join(),
            multicast: self.kept_multicast(guest.multicast),
            ..guest
        }
    }

    // The address in use, or the permanent one in its place.
    fn kept_address(&self, address: Address) -> Address
        ensures { result ≡ kept_address self.now address }
    {
        if self.grants(address) {
            address
        } else {
            Address::of(self.address)
        }
    }

    // The second address, or none.
    fn kept_second(&self, second: Option<Address>) -> Option<Address>
        ensures { result ≡ kept_second self.now second }
    {
        match second {
            None => None,
            Some(address) => { if self.grants(address) { second } else { None } }
        }
    }

    // All multicast, or the groups that were asked for.
    fn kept_multicast(&self, multicast: Multicast) -> Multicast
        ensures { result ≡ kept_multicast self.now multicast }
    {
        match multicast {
            Multicast::Off => Multicast::Off,
            Multicast::Asked => Multicast::Asked,
            Multicast::All => {
                if self.all_multicast {
                    Multicast::All
                } else {
                    Multicast::Asked
                }
            }
        }
    }

    // Whether the policy grants the address.
    fn grants(&self, address: Address) -> bool
        ensures { result ≡ is_granted self.now address }
    {
        self.owns(address) || (self.may_choose && address.is_unicast())
    }
}

impl VlanPolicy {
    // The places that a driver may join.
    fn places_to_join(self) -> u64
        ensures { result ≡ places_to_join self }
    {
        match self {
            VlanPolicy::Port(_) => 0,
            VlanPolicy::Joins(places) => places,
        }
    }
}
