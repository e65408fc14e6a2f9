//! The host.
ghost use Rattle.std.specs.Prelude.{◌≡◌, ◌≢◌, ℕ, ◌+◌, ◌*◌, ◌<◌, ◌≤◌, ◌++◌, ◌&&◌, [], IfErr, IfSome, List, nat_le, is_some, length, replicate, is_ok, true, if◌then◌else◌};
ghost use Rattle.mailbox.specs.declared.writes.Write.{Write};
ghost use Rattle.mailbox.specs.State.{slot_at, with_slot, other_holds, is_taken};
ghost use Rattle.mailbox.specs.Host.{outcome, host_after, host_without};
ghost use Rattle.mailbox.specs.Slot.{with_guest};
ghost use Rattle.mailbox.specs.declared.slot.Slot.TheVariants.{Absent};
ghost use Rattle.mailbox.specs.Isolation.{IsSameFor, IsSameForAll};
ghost use Rattle.mailbox.specs.Message.{message_of};
ghost use Rattle.mailbox.specs.Mailbox.{notice_in};
ghost use Rattle.mailbox.specs.Replies.{reply_to, notified};
ghost use Rattle.mailbox.specs.Within.{IsWithin, KeepsPolicies};
ghost use Rattle.mailbox.specs.Words.{settings_of};
ghost use Rattle.mailbox.specs.Writes.{writes_of, after_writes, writes_after, writes_without};

use crate::address::Address;
use crate::mailbox::{Mailbox, Notice};
use crate::message::Message;
use crate::slot::{Guest, Slot};
use crate::writes::Writes;
use arrayvec::ArrayVec;
use std::marker::Model;
use wire_frame::{FrameLimit, PoolId, Vid};

/// For each of 64 functions what its policy grants and what it has asked for so far, and the VLAN ids that policies name.
#[derive(Drop)]
pub struct Host {
    slots: [Slot; 64],
    ids: ArrayVec<u16, 64>,
    default_pool: Option<PoolId>,
    limit: u16,
}

impl Model for Host {
    ghost use Rattle.mailbox.specs.State.{HostState};

    ghost Value = { HostState };

    ghost view = { λ h. record {
      slots = h.slots;
      ids = h.ids.items;
      default_pool = h.default_pool;
      limit = h.limit;
    } };
}

/// Making.
impl Host {
    /// A host of functions that no policy names, or `None` where there are more than 64 ids. The pool, if one is given, takes
    /// what no pool accepts; the limit is how long a frame may be.
    pub fn new(ids: &[Vid], default_pool: Option<PoolId>, limit: FrameLimit) -> Option<Host>
        ensures few { is_some result ≡ nat_le (length ids.now) 64 }
        ensures host { IfSome result (λ h. h ≡ record {
          slots = replicate 64 Absent;
          ids = ids.now;
          default_pool = default_pool;
          limit = limit;
        }) }
        ensures within { IfSome result IsWithin }
    {
        if ids.len() > 64 {
            return None;
        }
        let mut numbers = ArrayVec::new();
        for id in ids {
            numbers.push(id.get());
        }
        Some(Host::blank(numbers, default_pool, limit.get()))
    }

    // The host of these ids, of which no policy names a function.
    fn blank(ids: ArrayVec<u16, 64>, default_pool: Option<PoolId>, limit: u16) -> Host
        ensures { result ≡ record {
          slots = replicate 64 Absent;
          ids = ids.items;
          default_pool = default_pool;
          limit = limit;
        } }
    {
        Host {
            slots: [Slot::Absent; 64],
            ids,
            default_pool,
            limit,
        }
    }
}

/// What it holds.
impl Host {
    /// The ids that policies name, by their places.
    pub(crate) fn ids(&self) -> &[u16]
        ensures value { result.now ≡ self.now.ids }
        ensures few { length result.now ≤ 64 }
    {
        self.ids.as_slice()
    }

    /// The pool that takes what no pool accepts.
    pub(crate) fn default_pool(&self) -> Option<PoolId>
        ensures { result ≡ self.now.default_pool }
    {
        self.default_pool
    }

    /// How long a frame may be, without the FCS.
    pub(crate) fn limit(&self) -> u16
        ensures { result ≡ self.now.limit }
    {
        self.limit
    }

    /// The function of a pool, by its number.
    pub(crate) fn slot_at(&self, pool: u32) -> &Slot
        requires { pool < 64 }
        ensures { result.now ≡ slot_at self.now pool }
    {
        &self.slots[pool as usize]
    }

    /// The function of a pool.
    pub(crate) fn slot(&self, pool: PoolId) -> Slot
        ensures value { result ≡ slot_at self.now pool }
        ensures pool { pool < 64 }
    {
        self.slots[usize::from(pool.get())]
    }

    /// Whether a function other than the pool's holds the address.
    pub(crate) fn is_taken(&self, pool: PoolId, address: Address) -> bool
        ensures { result ≡ is_taken self.now pool address }
    {
        let mut taken = false;
        for q in 0..64 {
            taken |= self.other_holds(pool, address, q);
        }
        taken
    }

    /// Whether function q is another than the pool's, and holds the address.
    pub(crate) fn other_holds(&self, pool: PoolId, address: Address, q: usize) -> bool
        requires { q < 64 }
        ensures { result ≡ other_holds self.now pool address q }
    {
        q != usize::from(pool.get()) && self.slots[q].holds(address)
    }
}

/// Messages.
impl Host {
    // What a message makes of the guest of the pool's function, or nothing where it is refused.
    #[tactic(auto, unfolding(crate::specs::Host::outcome))]
    fn outcome(&self, pool: PoolId, message: Message) -> Option<Guest>
        ensures value { result ≡ outcome self.now pool message }
        ensures few { length self.now.ids ≤ 64 }
    {
        let _ids = self.ids();
        let slot = self.slot(pool);
        let found = slot.found(&message);
        self.answered(pool, found, message)
    }

    // Another function at the pool.
    fn set_slot(&mut self, pool: PoolId, slot: Slot)
        ensures host { self.new ≡ with_slot self.old pool slot }
        ensures pool { pool < 64 }
    {
        self.slots[usize::from(pool.get())] = slot;
    }

    /// The same, with the writes that follow.
    pub(crate) fn change(&mut self, pool: PoolId, slot: Slot) -> Writes
        ensures host { self.new ≡ with_slot self.old pool slot }
        ensures writes { result ≡ writes_of self.new pool (slot_at self.old pool) }
        ensures others { (q : ℕ) → q < 64 → q ≢ pool
            → IsSameFor (settings_of self.old) (settings_of self.new) q }
        ensures all { IsSameForAll (settings_of self.old) (settings_of self.new) }
        ensures settings { after_writes (settings_of self.old) result ≡ settings_of self.new }
        ensures meanwhile { (q : ℕ) (done left : List Write) → q < 64 → q ≢ pool
            → done ++ left ≡ result
            → IsSameFor (settings_of self.old) (after_writes (settings_of self.old) done) q }
        ensures pool { pool < 64 }
        ensures few { length self.old.ids ≤ 64 }
    {
        let before = self.slot(pool);
        self.set_slot(pool, slot);
        self.writes_since(pool, &before)
    }

    // Answers the message in the mailbox, by its definition.
    #[tactic(auto, unfolding(crate::specs::Host::host_after, crate::specs::Host::slot_after, crate::specs::Writes::writes_after, crate::specs::Replies::reply_to))]
    fn hear(&mut self, pool: PoolId, mailbox: &mut Mailbox) -> Writes
        ensures host { self.new ≡ host_after self.old pool (message_of mailbox.old.words) }
        ensures reply { mailbox.new ≡ reply_to self.old pool mailbox.old }
        ensures writes { result ≡ writes_after self.old pool (message_of mailbox.old.words) }
        ensures others { (q : ℕ) → q < 64 → q ≢ pool
            → IsSameFor (settings_of self.old) (settings_of self.new) q }
        ensures all { IsSameForAll (settings_of self.old) (settings_of self.new) }
        ensures settings { after_writes (settings_of self.old) result ≡ settings_of self.new }
        ensures meanwhile { (q : ℕ) (done left : List Write) → q < 64 → q ≢ pool
            → done ++ left ≡ result
            → IsSameFor (settings_of self.old) (after_writes (settings_of self.old) done) q }
        ensures pool { pool < 64 }
    {
        let message = mailbox.message();
        let before = self.slot(pool);
        let found = before.found(&message);
        let granted = self.outcome(pool, message);
        let after = found.granted_to(&granted);
        mailbox.answer(&before, granted);
        self.change(pool, after)
    }

    // Forgets what the pool's guest asked for, by its definition.
    #[tactic(auto, unfolding(crate::specs::Host::host_without, crate::specs::Writes::writes_without))]
    fn forget(&mut self, pool: PoolId) -> Writes
        ensures host { self.new ≡ host_without self.old pool }
        ensures writes { result ≡ writes_without self.old pool }
        ensures others { (q : ℕ) → q < 64 → q ≢ pool
            → IsSameFor (settings_of self.old) (settings_of self.new) q }
        ensures all { IsSameForAll (settings_of self.old) (settings_of self.new) }
        ensures settings { after_writes (settings_of self.old) result ≡ settings_of self.new }
        ensures meanwhile { (q : ℕ) (done left : List Write) → q < 64 → q ≢ pool
            → done ++ left ≡ result
            → IsSameFor (settings_of self.old) (after_writes (settings_of self.old) done) q }
        ensures pool { pool < 64 }
    {
        let slot = self.slot(pool).with_guest(None);
        self.change(pool, slot)
    }

    /// Answers the message that stands in the mailbox of the pool's function: puts the reply there, and gives the writes to the
    /// physical function's registers that are to be done, in their order.
    ///
    /// In the settings that the host stands for nothing of another pool's is changed by it, whatever the message: not what is
    /// its own, nor which frames it accepts, nor which it may send; and loopback, VLAN filtering, the default pool and the
    /// multicast table stay for all. Done in their order, the writes make the settings of the host before into those of the host
    /// after, and after each of them every other pool has what it had. No function gets more than its policy grants.
    ///
    /// ```
    /// let mut host = Host::new(&[Vid::of_tag(0)], None, FrameLimit::standard()).ok_or(
    ///     "too many ids",
    /// )?;
    /// let pool = PoolId::new(1).ok_or("no such pool")?;
    /// let policy = Policy {
    ///     address: Mac([2, 0, 0, 0, 0, 1]),
    ///     may_choose: false,
    ///     vlans: VlanPolicy::Joins(1),
    ///     all_multicast: false,
    ///     link_up: true,
    /// };
    /// host.admit(pool, &policy)?;
    /// // the driver asks for a reset (VFMBMEM), takes the mailbox and rings (VFMAILBOX)
    /// let mut mailbox = Mailbox::new();
    /// let _ = mailbox.write(VFMBMEM, 1);
    /// let _ = mailbox.write(VFMAILBOX, 4);
    /// assert!(rt; mailbox.write(VFMAILBOX, 1) == Some(Rang::Request));
    /// let writes = host.answer(pool, &mut mailbox);
    /// // it succeeded, and the address follows
    /// assert!(rt; mailbox.read(VFMBMEM) == Some(0x8000_0001));
    /// assert!(rt; mailbox.read(VFMBMEM + 4) == Some(2));
    /// assert!(rt; !writes.as_slice().is_empty());
    /// ```
    pub fn answer(&mut self, pool: PoolId, mailbox: &mut Mailbox) -> Writes
        ensures host { self.new ≡ host_after self.old pool (message_of mailbox.old.words) }
        ensures reply { mailbox.new ≡ reply_to self.old pool mailbox.old }
        ensures writes { result ≡ writes_after self.old pool (message_of mailbox.old.words) }
        ensures others { (q : ℕ) → q < 64 → q ≢ pool
            → IsSameFor (settings_of self.old) (settings_of self.new) q }
        ensures all { IsSameForAll (settings_of self.old) (settings_of self.new) }
        ensures settings { after_writes (settings_of self.old) result ≡ settings_of self.new }
        ensures meanwhile { (q : ℕ) (done left : List Write) → q < 64 → q ≢ pool
            → done ++ left ≡ result
            → IsSameFor (settings_of self.old) (after_writes (settings_of self.old) done) q }
        ensures within { IsWithin self.old → IsWithin self.new }
        ensures policies { IsWithin self.old → KeepsPolicies self.old self.new }
    {
        self.hear(pool, mailbox)
    }

    /// Puts the host's own message into the mailbox of the pool's function, so that its driver looks at its link again: after a
    /// change of its policy, or where the link of the port went or came. Word 0 has CTS where the function is up with its link;
    /// neither CTS nor NACK where its link is down; and NACK where it is not up, so that its driver begins anew.
    ///
    /// What is to be done is told: to raise the function's cause "other", or to try again.
    #[tactic(auto, unfolding(crate::specs::Replies::notified))]
    pub fn notify(&self, pool: PoolId, mailbox: &mut Mailbox) -> Notice
        ensures notice { result ≡ notice_in mailbox.old }
        ensures mailbox { mailbox.new ≡ notified self.now pool mailbox.old }
    {
        mailbox.notice(self.slot(pool).notice_head())
    }

    /// Forgets what the guest of the pool's function asked for, where the function is reset from outside or by VFCTRL and
    /// where its guest goes, and gives the writes to the physical function's registers. What the host stands for stays for
    /// every other pool, as after a message.
    pub fn reset(&mut self, pool: PoolId) -> Writes
        ensures host { self.new ≡ host_without self.old pool }
        ensures writes { result ≡ writes_without self.old pool }
        ensures others { (q : ℕ) → q < 64 → q ≢ pool
            → IsSameFor (settings_of self.old) (settings_of self.new) q }
        ensures all { IsSameForAll (settings_of self.old) (settings_of self.new) }
        ensures settings { after_writes (settings_of self.old) result ≡ settings_of self.new }
        ensures meanwhile { (q : ℕ) (done left : List Write) → q < 64 → q ≢ pool
            → done ++ left ≡ result
            → IsSameFor (settings_of self.old) (after_writes (settings_of self.old) done) q }
        ensures within { IsWithin self.old → IsWithin self.new }
        ensures policies { IsWithin self.old → KeepsPolicies self.old self.new }
    {
        self.forget(pool)
    }
}
