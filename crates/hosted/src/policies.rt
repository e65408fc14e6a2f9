//! Policies of functions, and the host's own message.
ghost use Rattle.std.specs.Prelude.{◌≡◌, [], ◌∷◌, Some, is_none, slice_set, IfErr, IfOk, OnErr, OnOk, is_ok};
ghost use Rattle.mailbox.specs.Address.{number_of};
ghost use Rattle.mailbox.specs.Host.{refusal};
ghost use Rattle.mailbox.specs.Mailbox.{notice_in};
ghost use Rattle.mailbox.specs.Replies.{notified};
ghost use Rattle.mailbox.specs.State.{holder};
ghost use Rattle.mailbox_laws.specs.Turns.Turn.{Admits, Dismisses};
ghost use Rattle.hosted.specs.Hosted.{HaveTaken, LeavesOthers, LeavesUnconcerned, mailbox_at};
ghost use Rattle.hosted.specs.Turns.{prompted_by, vectors_by};

use crate::doing::{do_writes, prompt};
use crate::hosted::HostedDevice;
use irq_causes::Vectors;
use live_memory::Dma;
use mailbox::{NotAdmitted, Notice, Policy};
use wire_frame::PoolId;

/// What came of the host's own message to a function.
#[derive(Clone, Copy, Debug, PartialEq, Eq)]
pub struct Notified {
    /// Whether it stands in the mailbox.
    pub notice: Notice,
    /// The vectors of the function whose messages this issues.
    pub vectors: Vectors,
}

impl<D: Dma<K>, K> HostedDevice<D, K> {
    /// Gives a function its policy, as [`Host::admit`](mailbox::Host::admit) says, and does the writes of the physical function's
    /// registers that follow: first those of a function that had chosen the address, which is answered and is to be told
    /// ([`notify`](HostedDevice::notify), [`flr`](HostedDevice::flr)), and then its own. Where the policy is not taken nothing changes.
    pub fn admit(&mut self, pool: PoolId, policy: &Policy) -> Result<Option<PoolId>, NotAdmitted>
        ensures variant { is_ok result ≡ is_none (refusal self.old.host pool policy.now) }
        ensures err { IfErr result (λ e. refusal self.old.host pool policy.now ≡ Some e) }
        ensures loser { IfOk result
            (λ loser. loser ≡ holder self.old.host pool (number_of policy.now.address)) }
        ensures taken { OnOk result (HaveTaken (Admits pool policy.now ∷ []) self.old self.new) }
        ensures accesses { self.new.device.accesses ≡ self.old.device.accesses }
        ensures others { LeavesUnconcerned pool policy.now self.old self.new }
        ensures unchanged { OnErr result (self.new ≡ self.old) }
    {
        let HostedDevice {
            device,
            host,
            mailboxes: _,
        } = self;
        let admission = host.admit(pool, policy)?;
        do_writes(device, admission.lost.as_slice());
        do_writes(device, admission.writes.as_slice());
        Ok(admission.loser)
    }

    /// Takes a function's policy away, with all that its guest asked for, and does the writes that follow. Its mailbox stays.
    pub fn dismiss(&mut self, pool: PoolId)
        ensures taken { HaveTaken (Dismisses pool ∷ []) self.old self.new }
        ensures accesses { self.new.device.accesses ≡ self.old.device.accesses }
        ensures mailboxes { self.new.mailboxes ≡ self.old.mailboxes }
        ensures others { LeavesOthers pool self.old self.new }
    {
        let HostedDevice {
            device,
            host,
            mailboxes: _,
        } = self;
        let writes = host.dismiss(pool);
        do_writes(device, writes.as_slice());
    }

    /// Puts the host's own message into a function's mailbox, as [`Host::notify`](mailbox::Host::notify) says, by which its driver looks at
    /// its link; and raises the function's cause "other" where the message stands there, so that the driver looks at once. Hands out the
    /// vectors whose messages this issues: none where the message waits, or the function is closed, or there is none.
    pub fn notify(&mut self, pool: PoolId) -> Notified
        ensures notice { result.notice ≡ notice_in (mailbox_at self.old pool) }
        ensures vectors { result.vectors
            ≡ vectors_by (notice_in (mailbox_at self.old pool)) self.old.device.world pool }
        ensures mailboxes { self.new.mailboxes ≡ slice_set self.old.mailboxes pool
            (notified self.old.host pool (mailbox_at self.old pool)) }
        ensures world { self.new.device.world
            ≡ prompted_by (notice_in (mailbox_at self.old pool)) self.old.device.world pool }
        ensures host { self.new.host ≡ self.old.host }
        ensures accesses { self.new.device.accesses ≡ self.old.device.accesses }
        ensures others { LeavesOthers pool self.old self.new }
    {
        let HostedDevice {
            device,
            host,
            mailboxes,
        } = self;
        let notice = host.notify(pool, &mut mailboxes[usize::from(pool.get())]);
        let vectors = prompt(device, pool, notice);
        Notified { notice, vectors }
    }
}
