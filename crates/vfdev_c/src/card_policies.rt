//! Policies of the functions of a card.
ghost use Rattle.std.specs.Prelude.{◌≡◌, nat_lt, if◌then◌else◌};
ghost use Rattle.card.specs.Card.{LeavesAlone};
ghost use Rattle.vfdev_c.specs.CardCalls.{Admitting, OnCard, Dismissing, Notifying, OthersStay, of_card, on_card, policy_of, refused_by, resets};

use crate::card_guests::{DONE, NO_CARD};
use crate::card_held::{CardHeld, NOBODY};
use crate::handle::Vfdev;
use crate::on_card::on_card;
use mailbox::{NotAdmitted, Notice, Policy, VlanPolicy};
use std::alloc::Global;
use wire_frame::{Fault, Mac, PoolId};

/// What the administrator grants a function, as C sees it. A byte of yes or no is yes where it isn't 0.
#[repr(C)]
#[derive(Clone, Copy, Debug, PartialEq, Eq)]
pub struct VfdevCardPolicy {
    /// Its permanent address.
    pub address: [u8; 6],
    /// Whether its driver may choose another address, and one more.
    pub may_choose: u8,
    /// Whether its driver may ask for all multicast.
    pub all_multicast: u8,
    /// Whether its link is up.
    pub link_up: u8,
    /// Whether it has one VLAN, whose tag is inserted.
    pub has_port: u8,
    /// The place of that VLAN.
    pub port: u8,
    /// Else the VLANs that its driver may join, bit k for place k.
    pub joins: u64,
}

/// What came of a policy, as C sees it.
#[repr(C)]
#[derive(Clone, Copy, Debug, PartialEq, Eq)]
pub struct VfdevCardAdmission {
    /// 0 admitted, 1 no station's address, 2 another's permanent one, 3 no such place, 4 no card, 5 no such function.
    pub refusal: u32,
    /// The function that lost the address, or 255.
    pub loser: u32,
}

/// Gives a function a policy.
#[unsafe(no_mangle)]
pub extern "C" fn vfdev_card_admit(
    alloc: Global,
    handle: &mut Vfdev,
    function: u8,
    policy: &VfdevCardPolicy,
) -> VfdevCardAdmission
    ensures called { OnCard (refused_by 4) (Admitting function (policy_of policy.now)) handle.old.owner.held handle.new.owner.held result }
{
    on_card!(handle, alloc, VfdevCardAdmission::refused(4), held => held.admit(function, policy))
}

/// Takes a function's policy away.
#[unsafe(no_mangle)]
pub extern "C" fn vfdev_card_dismiss(alloc: Global, handle: &mut Vfdev, function: u8) -> u32
    ensures called { OnCard 32 (Dismissing function) handle.old.owner.held handle.new.owner.held result }
    ensures others { OthersStay function handle.old.owner.held handle.new.owner.held }
{
    on_card!(handle, alloc, NO_CARD, held => held.dismiss(function))
}

/// Puts the host's own message into a function's mailbox.
#[unsafe(no_mangle)]
pub extern "C" fn vfdev_card_notify(alloc: Global, handle: &mut Vfdev, function: u8) -> u32
    ensures called { OnCard 0 (Notifying function) handle.old.owner.held handle.new.owner.held result }
    ensures others { OthersStay function handle.old.owner.held handle.new.owner.held }
{
    on_card!(handle, alloc, 0, held => held.notify(function))
}

/// Resets a function from outside.
#[unsafe(no_mangle)]
pub extern "C" fn vfdev_card_flr(alloc: Global, handle: &mut Vfdev, function: u8) -> u32
    ensures card { handle.new.owner.held ≡ on_card handle.old.owner.held (resets function) }
    ensures answer { result ≡ of_card handle.old.owner.held 32 (λ c. if nat_lt function 64 then 0 else 1) }
    ensures others { OthersStay function handle.old.owner.held handle.new.owner.held }
{
    on_card!(handle, alloc, NO_CARD, held => held.flr(function))
}

impl VfdevCardPolicy {
    // The policy.
    fn policy(&self) -> Policy
        ensures { result ≡ policy_of self.now }
    {
        Policy {
            address: Mac(self.address),
            may_choose: self.may_choose != 0,
            vlans: if self.has_port != 0 {
                VlanPolicy::Port(self.port)
            } else {
                VlanPolicy::Joins(self.joins)
            },
            all_multicast: self.all_multicast != 0,
            link_up: self.link_up != 0,
        }
    }
}

impl VfdevCardAdmission {
    fn refused(refusal: u32) -> VfdevCardAdmission
        ensures { result ≡ refused_by refusal }
    {
        VfdevCardAdmission {
            refusal,
            loser: u32::from(NOBODY),
        }
    }
}

impl CardHeld {
    // A policy is given.
    fn admit(&mut self, function: u8, policy: &VfdevCardPolicy) -> VfdevCardAdmission
        ensures { Admitting function (policy_of policy.now) self.old self.new result }
    {
        let Some(pool) = PoolId::new(function) else {
            return VfdevCardAdmission::refused(5);
        };
        match self.card.admit(pool, &policy.policy()) {
            Ok(None) => VfdevCardAdmission::refused(0),
            Ok(Some(loser)) => VfdevCardAdmission {
                refusal: 0,
                loser: u32::from(loser.get()),
            },
            Err(NotAdmitted::NotUnicast) => VfdevCardAdmission::refused(1),
            Err(NotAdmitted::AddressOwned) => VfdevCardAdmission::refused(2),
            Err(NotAdmitted::NoSuchPlace) => VfdevCardAdmission::refused(3),
        }
    }

    fn dismiss(&mut self, function: u8) -> u32
        ensures called { Dismissing function self.old self.new result }
        ensures others { LeavesAlone function self.old.card self.new.card }
    {
        match PoolId::new(function) {
            Some(pool) => {
                self.card.dismiss(pool);
                DONE
            }
            None => u32::from(Fault::NoSuchVf.number()),
        }
    }

    fn notify(&mut self, function: u8) -> u32
        ensures called { Notifying function self.old self.new result }
        ensures others { LeavesAlone function self.old.card self.new.card }
    {
        match PoolId::new(function) {
            Some(pool) => match self.card.notify(pool) {
                Notice::Raises => 1,
                Notice::Waits => 0,
            },
            None => 0,
        }
    }

    fn flr(&mut self, function: u8) -> u32
        ensures card { self.new ≡ resets function self.old }
        ensures answer { result ≡ (if nat_lt function 64 then 0 else 1) }
        ensures others { LeavesAlone function self.old.card self.new.card }
    {
        match PoolId::new(function) {
            Some(pool) => {
                self.card.flr(pool);
                DONE
            }
            None => u32::from(Fault::NoSuchVf.number()),
        }
    }
}
