//! Policies of functions, and the host's own message.
ghost use Rattle.std.specs.Prelude.{◌≡◌, [], ◌∷◌, Some, is_none, is_ok, slice_set, IfErr, IfOk, OnErr, OnOk};
ghost use Rattle.mailbox.specs.Address.{number_of};
ghost use Rattle.mailbox.specs.Host.{refusal};
ghost use Rattle.mailbox.specs.Mailbox.{notice_in};
ghost use Rattle.mailbox.specs.Replies.{notified};
ghost use Rattle.mailbox.specs.State.{holder};
ghost use Rattle.mailbox_laws.specs.Turns.Turn.{Admits, Dismisses};
ghost use Rattle.hosted.specs.Hosted.{HaveTaken, LeavesUnconcerned, mailbox_at};
ghost use Rattle.hosted.specs.Turns.{prompted_by, vectors_by};
ghost use Rattle.card.specs.Card.{LeavesAlone};
ghost use Rattle.card.specs.Life.{Admits as AdmitsDeed, Dismisses as DismissesDeed, HasLived, Notifies};
ghost use Rattle.card.specs.Told.{joined};

use crate::card::Card;
use live_memory::Dma;
use mailbox::{NotAdmitted, Notice, Policy};
use wire_frame::PoolId;

impl<D: Dma<K>, K> Card<D, K> {
    /// Gives a function its policy, as [`HostedDevice::admit`](hosted::HostedDevice::admit) says. A function that had chosen the address,
    /// and lost it, is answered: its driver learns of it by a [`flr`](Card::flr).
    #[tactic(auto, using(crate::proofs::Calls::admitted_lives, crate::proofs::Calls::unadmitted_lives))]
    pub fn admit(&mut self, pool: PoolId, policy: &Policy) -> Result<Option<PoolId>, NotAdmitted>
        ensures variant { is_ok result ≡ is_none (refusal self.old.hosted.host pool policy.now) }
        ensures err { IfErr result (λ e. refusal self.old.hosted.host pool policy.now ≡ Some e) }
        ensures loser { IfOk result
            (λ loser. loser ≡ holder self.old.hosted.host pool (number_of policy.now.address)) }
        ensures lived { HasLived (AdmitsDeed pool policy.now ∷ []) self.old self.new }
        ensures taken { OnOk result
            (HaveTaken (Admits pool policy.now ∷ []) self.old.hosted self.new.hosted) }
        ensures accesses { self.new.hosted.device.accesses ≡ self.old.hosted.device.accesses }
        ensures others { LeavesUnconcerned pool policy.now self.old.hosted self.new.hosted }
        ensures ends { self.new.ends ≡ self.old.ends }
        ensures raised { self.new.raised ≡ self.old.raised }
        ensures unchanged { OnErr result (self.new ≡ self.old) }
    {
        self.hosted.admit(pool, policy)
    }

    /// Takes a function's policy away, as [`HostedDevice::dismiss`](hosted::HostedDevice::dismiss) says.
    #[tactic(auto, using(crate::proofs::Calls::dismissed_lives))]
    pub fn dismiss(&mut self, pool: PoolId)
        ensures lived { HasLived (DismissesDeed pool ∷ []) self.old self.new }
        ensures taken { HaveTaken (Dismisses pool ∷ []) self.old.hosted self.new.hosted }
        ensures accesses { self.new.hosted.device.accesses ≡ self.old.hosted.device.accesses }
        ensures mailboxes { self.new.hosted.mailboxes ≡ self.old.hosted.mailboxes }
        ensures ends { self.new.ends ≡ self.old.ends }
        ensures raised { self.new.raised ≡ self.old.raised }
        ensures others { LeavesAlone pool self.old self.new }
    {
        self.hosted.dismiss(pool);
    }

    /// Puts the host's own message into a function's mailbox, as [`HostedDevice::notify`](hosted::HostedDevice::notify) says: the vectors
    /// that the function's cause "other" issues wait with those that were raised before.
    #[tactic(auto, using(crate::proofs::Calls::notified_lives))]
    pub fn notify(&mut self, pool: PoolId) -> Notice
        ensures lived { HasLived (Notifies pool ∷ []) self.old self.new }
        ensures notice { result ≡ notice_in (mailbox_at self.old.hosted pool) }
        ensures mailboxes { self.new.hosted.mailboxes ≡ slice_set self.old.hosted.mailboxes pool
            (notified self.old.hosted.host pool (mailbox_at self.old.hosted pool)) }
        ensures world { self.new.hosted.device.world
            ≡ prompted_by (notice_in (mailbox_at self.old.hosted pool))
            self.old.hosted.device.world pool }
        ensures host { self.new.hosted.host ≡ self.old.hosted.host }
        ensures accesses { self.new.hosted.device.accesses ≡ self.old.hosted.device.accesses }
        ensures ends { self.new.ends ≡ self.old.ends }
        ensures raised { self.new.raised ≡ joined self.old.raised pool
            (vectors_by (notice_in (mailbox_at self.old.hosted pool))
            self.old.hosted.device.world pool) }
        ensures others { LeavesAlone pool self.old self.new }
    {
        let notified = self.hosted.notify(pool);
        self.raise(pool, notified.vectors);
        notified.notice
    }
}
