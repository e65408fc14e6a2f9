//! Messages of the clients of a card.
ghost use Rattle.std.specs.Prelude.{◌≡◌};
ghost use Rattle.card.specs.Card.{LeavesAlone};
ghost use Rattle.vfdev_c.specs.CardCalls.{OthersStay, laid_for, of_card, of_kind, on_card, receives, step_for};

use crate::card_held::CardHeld;
use crate::card_step::VfdevCardStep;
use crate::handle::Vfdev;
use crate::on_card::on_card;
use std::alloc::Global;
use vfio_session::ROOM;
use wire_frame::PoolId;

/// A whole message of a function's client.
#[unsafe(no_mangle)]
pub extern "C" fn vfdev_card_receive(
    alloc: Global,
    handle: &mut Vfdev,
    function: u8,
    message: &[u8],
    files: usize,
    room: &mut [u8; ROOM],
    step: &mut VfdevCardStep,
)
    ensures card { handle.new.owner.held ≡ on_card handle.old.owner.held (receives function message.now files) }
    ensures step { step.new ≡ of_card handle.old.owner.held (of_kind 6) (step_for function message.now files) }
    ensures reply { room.new ≡ of_card handle.old.owner.held room.old (laid_for function message.now files room.old) }
    ensures others { OthersStay function handle.old.owner.held handle.new.owner.held }
{
    *step =
        on_card!(handle, alloc, VfdevCardStep::of_kind(6), held => held.receive(function, message, files, room));
}

impl CardHeld {
    // A whole message.
    #[tactic(auto, using(crate::proofs::CardLemmas::said_step, crate::proofs::CardLemmas::said_room, crate::proofs::CardLemmas::leaves_itself))]
    fn receive(
        &mut self,
        function: u8,
        message: &[u8],
        files: usize,
        room: &mut [u8; ROOM],
    ) -> VfdevCardStep
        ensures card { self.new ≡ receives function message.now files self.old }
        ensures step { result ≡ step_for function message.now files self.old }
        ensures reply { room.new ≡ laid_for function message.now files room.old self.old }
        ensures others { LeavesAlone function self.old.card self.new.card }
    {
        let Some(pool) = PoolId::new(function) else {
            return VfdevCardStep::of_kind(7);
        };
        let step = self.card.receive(pool, message, files, room);
        VfdevCardStep::of(step, room)
    }
}
