//! Policies that come, change and go.
ghost use Rattle.std.specs.Prelude.{◌≡◌, ◌≢◌, ℕ, ◌<◌, ◌≤◌, ◌++◌, IfOk, IfErr, List, length, is_ok, is_none, Option, Some, None, false};
ghost use Rattle.pool_filter.specs.Settings.{Settings};
ghost use Rattle.mailbox.specs.declared.slot.Slot.TheVariants.{Absent};
ghost use Rattle.mailbox.specs.declared.writes.Write.{Write};
ghost use Rattle.mailbox.specs.Address.{number_of};
ghost use Rattle.mailbox.specs.Host.{host_dismissing, refusal, freed_by, host_freed, host_under, host_admitting};
ghost use Rattle.mailbox.specs.Isolation.{IsSameFor, IsSameForAll};
ghost use Rattle.mailbox.specs.Policy.{is_placed};
ghost use Rattle.mailbox.specs.Slot.{is_up};
ghost use Rattle.mailbox.specs.State.{slot_at, other_owns, is_owned, holder};
ghost use Rattle.mailbox.specs.Within.{IsWithin, KeepsOtherPolicies};
ghost use Rattle.mailbox.specs.Words.{settings_of};
ghost use Rattle.mailbox.specs.Writes.{after_writes, writes_dismissing, writes_freed_by, writes_freeing, writes_under};

use crate::address::Address;
use crate::host::Host;
use crate::not_admitted::NotAdmitted;
use crate::policy::Policy;
use crate::slot::Slot;
use crate::writes::Writes;
use wire_frame::PoolId;

/// What came of a policy that was taken.
#[derive(Debug, Drop)]
pub struct Admission {
    /// The function that had chosen the address and has given it up: its driver is to be told, by [`Host::notify`] or, so that it
    /// begins anew with its permanent address, by a reset from outside.
    pub loser: Option<PoolId>,
    /// The writes of that function, which are to be done first.
    pub lost: Writes,
    /// The writes of the function that came under the policy.
    pub writes: Writes,
}

/// Policies.
impl Host {
    /// Gives a function its policy, and the writes to the physical function's registers that follow. It is not taken, and
    /// nothing changes, for one of the reasons of [`NotAdmitted`].
    ///
    /// The administrator's own address wins: where another function chose it, that function gives it up, and uses its permanent
    /// one in its place. [`Admission::loser`] is to be told of it.
    ///
    /// A function that is up stays up. What its guest has and the new policy does not grant goes: an address that it chose, with
    /// the permanent one in its place; VLANs; and all multicast, with groups in its place. Its driver learns of it by
    /// [`Host::notify`], where its link went or came, and by a reset from outside ([`Host::reset`]), where anything else changed.
    ///
    /// A function that is not up makes no register, so that nothing is to be written for it.
    #[tactic(auto, unfolding(crate::specs::Host::host_admitting))]
    pub fn admit(&mut self, pool: PoolId, policy: &Policy) -> Result<Admission, NotAdmitted>
        ensures host { self.new ≡ host_admitting self.old pool policy.now }
        ensures variant { is_ok result ≡ is_none (refusal self.old pool policy.now) }
        ensures err { IfErr result (λ e. refusal self.old pool policy.now ≡ Some e) }
        ensures loser { IfOk result (λ a. a.loser ≡ holder self.old pool (number_of policy.now.address)) }
        ensures lost { IfOk result (λ a. a.lost ≡ writes_freeing self.old pool (number_of policy.now.address)) }
        ensures writes { IfOk result (λ a. a.writes
            ≡ writes_under (host_freed self.old pool (number_of policy.now.address)) pool policy.now) }
        ensures within { IsWithin self.old → IsWithin self.new }
        ensures policies { KeepsOtherPolicies pool self.old self.new }
        ensures settings { IfOk result (λ a. after_writes (after_writes (settings_of self.old) a.lost) a.writes
            ≡ settings_of self.new) }
        // first the loser's are done, and then the function's own
        ensures lost_meanwhile { IfOk result (λ a. (q : ℕ) (done left : List Write) → q < 64 → a.loser ≢ Some q
            → done ++ left ≡ a.lost
            → IsSameFor (settings_of self.old) (after_writes (settings_of self.old) done) q) }
        ensures meanwhile { IfOk result (λ a. (q : ℕ) (done left : List Write) → q < 64 → q ≢ pool
            → done ++ left ≡ a.writes
            → IsSameFor (after_writes (settings_of self.old) a.lost)
            (after_writes (after_writes (settings_of self.old) a.lost) done) q) }
        ensures all { IsSameForAll (settings_of self.old) (settings_of self.new) }
        // what is not up makes no register
        ensures down { holder self.old pool (number_of policy.now.address) ≡ None
            → is_up (slot_at self.old pool) ≡ false → settings_of self.new ≡ settings_of self.old }
    {
        match self.refusal(pool, policy) {
            Some(reason) => Err(reason),
            None => Ok(self.take(pool, policy)),
        }
    }

    // Puts the function under the policy, and takes its address from whoever chose it.
    #[tactic(auto, unfolding(crate::specs::Host::host_freed, crate::specs::Writes::writes_freeing))]
    fn take(&mut self, pool: PoolId, policy: &Policy) -> Admission
        ensures host { self.new ≡ host_under (host_freed self.old pool (number_of policy.now.address)) pool policy.now }
        ensures loser { result.loser ≡ holder self.old pool (number_of policy.now.address) }
        ensures lost { result.lost ≡ writes_freeing self.old pool (number_of policy.now.address) }
        ensures writes { result.writes
            ≡ writes_under (host_freed self.old pool (number_of policy.now.address)) pool policy.now }
        ensures settings { after_writes (after_writes (settings_of self.old) result.lost) result.writes
            ≡ settings_of self.new }
        ensures lost_meanwhile { (q : ℕ) (done left : List Write) → q < 64 → result.loser ≢ Some q
            → done ++ left ≡ result.lost
            → IsSameFor (settings_of self.old) (after_writes (settings_of self.old) done) q }
        ensures meanwhile { (q : ℕ) (done left : List Write) → q < 64 → q ≢ pool
            → done ++ left ≡ result.writes
            → IsSameFor (after_writes (settings_of self.old) result.lost)
            (after_writes (after_writes (settings_of self.old) result.lost) done) q }
        ensures all { IsSameForAll (settings_of self.old) (settings_of self.new) }
        ensures within { refusal self.old pool policy.now ≡ None → IsWithin self.old → IsWithin self.new }
        ensures policies { KeepsOtherPolicies pool self.old self.new }
        ensures down { holder self.old pool (number_of policy.now.address) ≡ None
            → is_up (slot_at self.old pool) ≡ false → settings_of self.new ≡ settings_of self.old }
    {
        let address = Address::of(policy.address);
        let loser = self.holder(pool, address);
        let lost = self.free(address, &loser);
        let writes = self.put_under(pool, policy);
        Admission {
            loser,
            lost,
            writes,
        }
    }

    // That function, if there is one, gives the address up.
    fn free(&mut self, address: Address, loser: &Option<PoolId>) -> Writes
        ensures host { self.new ≡ freed_by self.old address loser.now }
        ensures writes { result ≡ writes_freed_by self.old address loser.now }
        ensures settings { after_writes (settings_of self.old) result ≡ settings_of self.new }
        ensures meanwhile { (q : ℕ) (done left : List Write) → q < 64 → loser.now ≢ Some q
            → done ++ left ≡ result
            → IsSameFor (settings_of self.old) (after_writes (settings_of self.old) done) q }
        ensures all { IsSameForAll (settings_of self.old) (settings_of self.new) }
    {
        match loser {
            None => Writes::new(),
            Some(pool) => {
                let before = self.slot(*pool);
                let after = before.without_address(address);
                self.change(*pool, after)
            }
        }
    }

    // The first function other than the pool's that holds the address.
    #[tactic(auto, using(crate::proofs::Holders::first_next))]
    fn holder(&self, pool: PoolId, address: Address) -> Option<PoolId>
        ensures { result ≡ holder self.now pool address }
    {
        for q in 0..64u8 {
            if self.other_holds(pool, address, usize::from(q)) {
                return pool_at(q);
            }
        }
        None
    }

    // Whether the address is the permanent one of a function other than the pool's.
    fn is_owned(&self, pool: PoolId, address: Address) -> bool
        ensures { result ≡ is_owned self.now pool address }
    {
        let mut owned = false;
        for q in 0..64 {
            owned |= self.other_owns(pool, address, q);
        }
        owned
    }

    // Whether function q is another than the pool's, and the address is its permanent one.
    fn other_owns(&self, pool: PoolId, address: Address, q: u32) -> bool
        requires { q < 64 }
        ensures { result ≡ other_owns self.now pool address q }
    {
        q != u32::from(pool.get()) && self.slot_at(q).owns(address)
    }

    // Why the policy is not taken, if it is not.
    #[tactic(auto, unfolding(crate::specs::Host::refusal))]
    fn refusal(&self, pool: PoolId, policy: &Policy) -> Option<NotAdmitted>
        ensures { result ≡ refusal self.now pool policy.now }
    {
        let address = Address::of(policy.address);
        if !address.is_unicast() {
            return Some(NotAdmitted::NotUnicast);
        }
        if self.is_owned(pool, address) {
            return Some(NotAdmitted::AddressOwned);
        }
        if policy.vlans.is_placed(self.ids()) {
            None
        } else {
            Some(NotAdmitted::NoSuchPlace)
        }
    }

    /// Forgets the function of a pool, where its guest is gone for good: no policy names it any more, as before it was admitted.
    /// Gives the writes to the physical function's registers; its addresses are free after them.
    pub fn dismiss(&mut self, pool: PoolId) -> Writes
        ensures host { self.new ≡ host_dismissing self.old pool }
        ensures writes { result ≡ writes_dismissing self.old pool }
        ensures gone { slot_at self.new pool ≡ Absent }
        ensures others { (q : ℕ) → q < 64 → q ≢ pool
            → IsSameFor (settings_of self.old) (settings_of self.new) q }
        ensures all { IsSameForAll (settings_of self.old) (settings_of self.new) }
        ensures settings { after_writes (settings_of self.old) result ≡ settings_of self.new }
        ensures meanwhile { (q : ℕ) (done left : List Write) → q < 64 → q ≢ pool
            → done ++ left ≡ result
            → IsSameFor (settings_of self.old) (after_writes (settings_of self.old) done) q }
        ensures within { IsWithin self.old → IsWithin self.new }
        ensures policies { KeepsOtherPolicies pool self.old self.new }
    {
        self.remove(pool)
    }

    // The same, by its definition.
    #[tactic(auto, unfolding(crate::specs::Host::host_dismissing, crate::specs::Writes::writes_dismissing))]
    fn remove(&mut self, pool: PoolId) -> Writes
        ensures host { self.new ≡ host_dismissing self.old pool }
        ensures writes { result ≡ writes_dismissing self.old pool }
        ensures others { (q : ℕ) → q < 64 → q ≢ pool
            → IsSameFor (settings_of self.old) (settings_of self.new) q }
        ensures all { IsSameForAll (settings_of self.old) (settings_of self.new) }
        ensures settings { after_writes (settings_of self.old) result ≡ settings_of self.new }
        ensures meanwhile { (q : ℕ) (done left : List Write) → q < 64 → q ≢ pool
            → done ++ left ≡ result
            → IsSameFor (settings_of self.old) (after_writes (settings_of self.old) done) q }
        ensures pool { pool < 64 }
        ensures gone { slot_at self.new pool ≡ Absent }
    {
        self.change(pool, Slot::Absent)
    }

    // Puts the policy in the place of the former one.
    #[tactic(auto, unfolding(crate::specs::Host::host_under, crate::specs::Writes::writes_under))]
    fn put_under(&mut self, pool: PoolId, policy: &Policy) -> Writes
        ensures host { self.new ≡ host_under self.old pool policy.now }
        ensures writes { result ≡ writes_under self.old pool policy.now }
        ensures others { (q : ℕ) → q < 64 → q ≢ pool
            → IsSameFor (settings_of self.old) (settings_of self.new) q }
        ensures all { IsSameForAll (settings_of self.old) (settings_of self.new) }
        ensures settings { after_writes (settings_of self.old) result ≡ settings_of self.new }
        ensures meanwhile { (q : ℕ) (done left : List Write) → q < 64 → q ≢ pool
            → done ++ left ≡ result
            → IsSameFor (settings_of self.old) (after_writes (settings_of self.old) done) q }
        ensures pool { pool < 64 }
        ensures few { length self.old.ids ≤ 64 }
    {
        let slot = self.slot(pool).under(policy);
        self.change(pool, slot)
    }
}

// The pool of that number.
fn pool_at(number: u8) -> Option<PoolId>
    requires { number < 64 }
    ensures { result ≡ Some number }
{
    PoolId::new(number)
}
