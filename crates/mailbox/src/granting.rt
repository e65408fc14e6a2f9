//! What a message makes of a function's guest.
ghost use Rattle.std.specs.Prelude.{◌≡◌, ◌≤◌, length};
ghost use Rattle.mailbox.specs.Granting.{may_add, joined, left, moved, has_room, second_added, found_by, found, length_set, multicast_set, granted, when_reset, answered};

use crate::address::Address;
use crate::host::Host;
use crate::message::{Message, Multicast};
use crate::policy::Policy;
use crate::slot::{Guest, Slot};
use wire_frame::{PoolId, Vid};

impl Host {
    /// The guest of the function after a message, or nothing where the message is refused. Before RESET nothing else is heard.
    pub(crate) fn answered(&self, pool: PoolId, slot: Slot, message: Message) -> Option<Guest>
        ensures { result ≡ answered self.now pool slot message }
    {
        match slot {
            Slot::Absent => None,
            Slot::Admitted {
                policy,
                guest: None,
            } => when_reset(self.ids(), &policy, message),
            Slot::Admitted {
                policy,
                guest: Some(guest),
            } => self.granted(pool, &policy, guest, message),
        }
    }

    // The guest after a message.
    #[tactic(auto, unfolding(crate::specs::Granting::granted))]
    fn granted(
        &self,
        pool: PoolId,
        policy: &Policy,
        guest: Guest,
        message: Message,
    ) -> Option<Guest>
        ensures { result ≡ granted self.now pool policy.now guest message }
    {
        match message {
            Message::Reset => Some(Guest::begun(self.ids(), policy)),
            Message::SetAddress(address) => self.moved(pool, policy, guest, address),
            Message::SetMulticast(groups) => Some(Guest { groups, ..guest }),
            Message::JoinVlan(id) => self.joined(policy, guest, id),
            Message::LeaveVlan(id) => self.left(policy, guest, id),
            Message::SetFrameLength(length) => self.with_length(guest, length),
            Message::ClearSecond => Some(guest),
            Message::ReplaceSecond(address) | Message::AddSecond(address) => {
                self.with_second(pool, policy, guest, address)
            }
            Message::NegotiateApi(api) => Some(Guest { api, ..guest }),
            Message::GetQueues => guest.has_queues().then_some(guest),
            Message::SetMulticastMode(asked) => with_multicast(guest, policy.multicast_for(asked)),
            Message::GetLinkState => guest.has_modes().then_some(guest),
            Message::Other => None,
        }
    }

    // Whether the guest may have an address beside the permanent one.
    fn may_add(&self, pool: PoolId, policy: &Policy, address: Address) -> bool
        ensures { result ≡ may_add self.now pool policy.now address }
    {
        policy.may_choose && address.is_unicast() && !self.is_taken(pool, address)
    }

    // The guest with another address in use.
    fn moved(&self, pool: PoolId, policy: &Policy, guest: Guest, address: Address) -> Option<Guest>
        ensures { result ≡ moved self.now pool policy.now guest address }
    {
        if policy.owns(address) || self.may_add(pool, policy, address) {
            Some(Guest { address, ..guest })
        } else {
            None
        }
    }

    // The guest with a second address, where it has none yet, or that one.
    fn with_second(
        &self,
        pool: PoolId,
        policy: &Policy,
        guest: Guest,
        address: Address,
    ) -> Option<Guest>
        ensures { result ≡ second_added self.now pool policy.now guest address }
    {
        if has_room(guest.second, address) && self.may_add(pool, policy, address) {
            Some(Guest {
                second: Some(address),
                ..guest
            })
        } else {
            None
        }
    }

    // The guest with another frame length, up to the limit and the FCS.
    fn with_length(&self, guest: Guest, frame_length: u32) -> Option<Guest>
        ensures { result ≡ length_set self.now guest frame_length }
    {
        if frame_length <= u32::from(self.limit()) + 4 {
            Some(Guest {
                frame_length,
                ..guest
            })
        } else {
            None
        }
    }

    // The guest, which joins the VLAN.
    fn joined(&self, policy: &Policy, guest: Guest, id: Vid) -> Option<Guest>
        ensures { result ≡ joined self.now policy.now guest id }
    {
        let place = policy.vlans.place_to_join(self.ids(), id.get())?;
        let joined = guest.joined | 1 << place;
        Some(Guest { joined, ..guest })
    }

    // The guest, which leaves the VLAN; id 0 is never left.
    fn left(&self, policy: &Policy, guest: Guest, id: Vid) -> Option<Guest>
        ensures { result ≡ left self.now policy.now guest id }
    {
        if id.get() == 0 && !policy.vlans.is_port() {
            return Some(guest);
        }
        let place = policy.vlans.place_to_join(self.ids(), id.get())?;
        let joined = guest.joined & !(1 << place);
        Some(Guest { joined, ..guest })
    }
}

impl Slot {
    /// The function as a message finds it: its guest has given its second address up, where that comes first.
    pub(crate) fn found(&self, message: &Message) -> Slot
        ensures { result ≡ found self.now message.now }
    {
        match *self {
            Slot::Admitted {
                policy,
                guest: Some(guest),
            } => Slot::Admitted {
                policy,
                guest: Some(found_by(message, guest)),
            },
            other => other,
        }
    }
}

// The guest as a message finds it.
fn found_by(message: &Message, guest: Guest) -> Guest
    ensures { result ≡ found_by message.now guest }
{
    match message {
        Message::ClearSecond | Message::ReplaceSecond(_) => Guest {
            second: None,
            ..guest
        },
        _ => guest,
    }
}

// Whether the second address of a guest may be that one: it has no other.
fn has_room(second: Option<Address>, address: Address) -> bool
    ensures { result ≡ has_room second address }
{
    match second {
        None => true,
        Some(one) => one.is(address),
    }
}

// A function without a guest hears RESET alone.
fn when_reset(ids: &[u16], policy: &Policy, message: Message) -> Option<Guest>
    requires { length ids.now ≤ 64 }
    ensures { result ≡ when_reset ids.now policy.now message }
{
    match message {
        Message::Reset => Some(Guest::begun(ids, policy)),
        _ => None,
    }
}

// The guest with another multicast mode, from version 1.2 on; with no multicast it has no groups.
fn with_multicast(guest: Guest, multicast: Option<Multicast>) -> Option<Guest>
    ensures { result ≡ multicast_set guest multicast }
{
    if !guest.has_modes() {
        return None;
    }
    let multicast = multicast?;
    Some(Guest {
        multicast,
        groups: guest.groups && multicast != Multicast::Off,
        ..guest
    })
}
