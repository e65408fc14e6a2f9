//! A law over the definitions alone. The function does nothing: its contract is the law.
ghost use Rattle.std.specs.Prelude.{◌≡◌, true};
ghost use Rattle.irq_causes.specs.Messages.{no_messages};
ghost use Rattle.device.specs.Events.{Event};
ghost use Rattle.device.specs.World.{World, step};
ghost use Rattle.vfdev_c.specs.Handle.{is_silent};

/// The calls that have no room for messages issue none: those but a write of a function's register, a service and a frame
/// from the wire.
#[tactic(auto, using(crate::proofs::Silence::silent_step))]
pub fn silence()
    ensures { (w : World) (e : Event) → is_silent e ≡ true
        → (step w e).answer.raised ≡ no_messages }
{}
