//! What the host's administrator grants a function.
ghost use Rattle.std.specs.Prelude.{◌≡◌, ◌<◌, ◌≤◌, ◌==◌, IfSome, length};
ghost use Rattle.mailbox.specs.Address.{number_of};
ghost use Rattle.mailbox.specs.Policy.{is_port, is_port_at, may_join, place_from, place_to_join, port_of, is_placed, multicast_for};

use crate::address::Address;
use crate::message::Multicast;
use wire_frame::{Mac, has_bit};

/// Which VLANs a function has. A VLAN is named by its place in the host's list of ids.
#[derive(Clone, Copy, Debug, PartialEq, Eq)]
pub enum VlanPolicy {
    /// One, whose tag is inserted into each frame that the function sends; its driver joins none.
    Port(u8),
    /// Those that its driver asks for, of this set: bit k is for place k.
    Joins(u64),
}

/// What the host's administrator grants one function. Its source checks are always on.
#[derive(Clone, Copy, Debug, PartialEq, Eq)]
pub struct Policy {
    /// Its permanent address.
    pub address: Mac,
    /// Its driver may choose another address, and one more, that no other function has.
    pub may_choose: bool,
    /// Its VLANs.
    pub vlans: VlanPolicy,
    /// Its driver may ask for all multicast.
    pub all_multicast: bool,
    /// Its link is up: where it is not, its driver is told so, and it neither receives nor sends.
    pub link_up: bool,
}

impl VlanPolicy {
    /// Whether the place of a port VLAN is one of the ids'.
    pub(crate) fn is_placed(self, ids: &[u16]) -> bool
        ensures { result ≡ is_placed ids.now self }
    {
        match self {
            VlanPolicy::Port(place) => usize::from(place) < ids.len(),
            VlanPolicy::Joins(_) => true,
        }
    }

    /// Whether it is a port VLAN.
    pub(crate) fn is_port(self) -> bool
        ensures { result ≡ is_port self }
    {
        matches!(self, VlanPolicy::Port(_))
    }

    /// Whether it is the port VLAN at a place.
    pub(crate) fn is_port_at(self, place: u32) -> bool
        ensures { result ≡ is_port_at self place }
    {
        match self {
            VlanPolicy::Port(port) => u32::from(port) == place,
            VlanPolicy::Joins(_) => false,
        }
    }

    /// Whether a driver may join the VLAN at a place.
    pub(crate) fn may_join(self, place: u32) -> bool
        requires { place < 64 }
        ensures { result ≡ may_join self place }
    {
        match self {
            VlanPolicy::Port(_) => false,
            VlanPolicy::Joins(places) => has_bit(places, place),
        }
    }

    /// The place of the id, where a driver may join it.
    pub(crate) fn place_to_join(self, ids: &[u16], id: u16) -> Option<u32>
        requires { length ids.now ≤ 64 }
        ensures place { result ≡ place_to_join ids.now self id }
        ensures below { IfSome result (λ k. k < 64) }
    {
        let place = place_of(ids, id)?;
        self.may_join(place).then_some(place)
    }

    /// The id of a port VLAN.
    pub(crate) fn port(self, ids: &[u16]) -> Option<u16>
        ensures { result ≡ port_of ids.now self }
    {
        match self {
            VlanPolicy::Port(place) => ids.get(usize::from(place)).copied(),
            VlanPolicy::Joins(_) => None,
        }
    }
}

impl Policy {
    /// Whether the address is the permanent one.
    pub(crate) fn owns(&self, address: Address) -> bool
        ensures { result ≡ (number_of self.now.address == address) }
    {
        Address::of(self.address).is(address)
    }

    /// What becomes of the multicast that a driver asks for: all of it, and what is above, is the groups that it asked for,
    /// where it may not have all.
    pub(crate) fn multicast_for(&self, asked: Option<Multicast>) -> Option<Multicast>
        ensures { result ≡ multicast_for self.now asked }
    {
        match asked {
            Some(Multicast::Off) | Some(Multicast::Asked) => asked,
            Some(Multicast::All) | None => {
                if self.all_multicast {
                    asked
                } else {
                    Some(Multicast::Asked)
                }
            }
        }
    }
}

// The first place that has the id.
fn place_of(ids: &[u16], id: u16) -> Option<u32>
    requires { length ids.now ≤ 64 }
    ensures place { result ≡ place_from 0 ids.now id }
    ensures below { IfSome result (λ k. k < 64) }
{
    for k in 0..ids.len() {
        if ids[k] == id {
            return Some(k as u32);
        }
    }
    None
}
